//! Closing a store.
ghost use Rattle.std.specs.Prelude.{◌≡◌, ◌≤◌, [], length, vec_len, vec_capacity};
ghost use Rattle.mc_evidence.specs.Sound.{IsSoundStore};
ghost use Rattle.mc_store.specs.Finals.{AreClasses, AreExactlyEntries, AreStripes, class_histories, stripe_histories};
ghost use Rattle.mc_store.specs.Locked.{setting_of};

use crate::comparing::compare_each_other;
use crate::final_store::Final;
use crate::locked::{LockedClass, LockedStripe};
use crate::named::Named;
use crate::owned_class::OwnedClass;
use crate::owned_stripe::OwnedStripe;
use crate::shelf::Shelf;
use crate::store::Store;
use mc_board::Board;
use std::sync::Mutex;

// Takes the stripes out of their locks, in the order of their numbers. Each number comes once, as a lock's history has one owner.
fn take_stripes<N: Named>(
    board: &Board,
    stripes: Vec<Mutex<LockedStripe<N>>>,
    shelf: &mut Vec<OwnedStripe>,
)
    requires board { board.now ≡ N.board }
    requires all { vec_len stripes ≡ N.config.stripes }
    requires empty { shelf.old.items ≡ [] }
    requires room { N.config.stripes ≤ vec_capacity shelf.old }
    ensures { AreStripes N.board.table N.config shelf.new.items }
{
    for stripe in stripes {
        shelf.push_reserved(stripe.into_inner().into_side());
    }
    shelf.sort_unstable_by_key(
        |side: &OwnedStripe| -> u32
            ensures { result ≡ side.now.stripe.site.stripe }
        { side.number().0 },
    );
    for i in 1..shelf.len() {
        if shelf[i - 1].number().0 == shelf[i].number().0 {
            let second = shelf.swap_remove(i);
            let first = shelf.swap_remove(i - 1);
            first.into_owner().clash(board, second.into_owner());
        }
    }
}

// The same for the classes, which are numbered from 1.
fn take_classes<N: Named>(
    board: &Board,
    classes: Vec<Mutex<LockedClass<N>>>,
    shelf: &mut Vec<OwnedClass>,
)
    requires board { board.now ≡ N.board }
    requires all { vec_len classes ≡ length N.config.sizes }
    requires empty { shelf.old.items ≡ [] }
    requires room { length N.config.sizes ≤ vec_capacity shelf.old }
    ensures { AreClasses N.board.table N.config shelf.new.items }
{
    for class in classes {
        shelf.push_reserved(class.into_inner().into_side());
    }
    shelf.sort_unstable_by_key(
        |side: &OwnedClass| -> u32
            ensures { result ≡ side.now.class.number.0 }
        { side.number().0 },
    );
    for i in 1..shelf.len() {
        if shelf[i - 1].number().0 == shelf[i].number().0 {
            let second = shelf.swap_remove(i);
            let first = shelf.swap_remove(i - 1);
            first.into_owner().clash(board, second.into_owner());
        }
    }
}

impl<N: Named> Store<N> {
    /// Closes the store and returns all its stripes and classes, each as its lock kept it. Allocates nothing.
    /// Together they are sound. Each stripe's history is legal, each class's is lawful, each stripe and class are evidence of
    /// each other, and the items are exactly the entries.
    pub fn close(self) -> Final
        ensures board { result.board ≡ N.board.table }
        ensures stripes { AreStripes N.board.table N.config result.stripes }
        ensures classes { AreClasses N.board.table N.config result.classes }
        ensures sound { IsSoundStore (setting_of N.config) (stripe_histories result.stripes) (class_histories result.classes) }
        ensures entries { AreExactlyEntries (setting_of N.config) (stripe_histories result.stripes) (class_histories result.classes) }
    {
        let Store {
            board,
            config: _,
            stripes,
            classes,
            queues: _,
            shelf,
            of: _,
        } = self;
        let Shelf {
            stripes: mut stripe_shelf,
            classes: mut class_shelf,
            of: _,
        } = shelf.into_inner();
        take_stripes(&board, stripes, &mut stripe_shelf);
        take_classes(&board, classes, &mut class_shelf);
        compare_each_other::<N>(&board, &mut stripe_shelf, &mut class_shelf);
        Final::new(board, stripe_shelf, class_shelf)
    }
}
