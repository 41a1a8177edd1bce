//! A closed store.
ghost use Rattle.std.specs.Prelude.{◌≡◌, ◌<◌, ◌≤◌, ◌-◌, length, slice_index_or};
ghost use Rattle.mc_store.specs.Finals.{AreClasses, AreItsOwn, AreItsOwnInClasses, AreJustPlaced, AreStripes, IsAccounted};
ghost use Rattle.mc_store.specs.Finals.{IsBehindClasses, IsBehindStripes};
ghost use Rattle.mc_store.specs.Sides.{AreClassesOn, AreStripesOn, ClassSide, StripeSide};

use crate::comparing::{compare_calls, compare_class_calls, compare_classes, compare_stripes};
use crate::named::Named;
use crate::owned_class::OwnedClass;
use crate::owned_stripe::OwnedStripe;
use crate::pass::Pass;
use mc_board::Board;
use mc_item::{ClassNo, StripeNo};
use mc_segment::ClassState;
use mc_stripe::StripeState;
use std::marker::Model;

/// A closed store: all its stripes and classes, in the order of their numbers. It has no `Named` parameter, so it can outlive the
/// function that opened the store.
#[derive(Drop)]
pub struct Final {
    board: Board,
    stripes: Vec<OwnedStripe>,
    classes: Vec<OwnedClass>,
}

impl Model for Final {
    ghost use Rattle.mc_store.specs.{Finals.FinalView, Sides.AreClassesOn, Sides.AreStripesOn};

    ghost Value = { FinalView };

    ghost view = { λ f. record { board = f.board.table; stripes = f.stripes.items; classes = f.classes.items } };

    ghost invariant = { λ f. AreStripesOn f.board.table f.stripes.items × AreClassesOn f.board.table f.classes.items };
}

impl Final {
    pub(crate) fn new(board: Board, stripes: Vec<OwnedStripe>, classes: Vec<OwnedClass>) -> Final
        requires stripes { AreStripesOn board.table stripes.items }
        requires classes { AreClassesOn board.table classes.items }
        ensures { result ≡ record { board = board.table; stripes = stripes.items; classes = classes.items } }
    {
        Final {
            board,
            stripes,
            classes,
        }
    }

    /// Returns the stripe of this number. Stripes are numbered from 0.
    pub fn stripe(&self, number: StripeNo) -> &StripeState
        requires number { number.0 < length self.now.stripes }
        ensures { (d : StripeSide) → result.now ≡ (slice_index_or self.now.stripes number.0 d).stripe }
    {
        self.stripes[number.0 as usize].state()
    }

    /// Returns the class of this number. Classes are numbered from 1.
    pub fn class(&self, number: ClassNo) -> &ClassState
        requires number { (1 ≤ number.0) × (number.0 ≤ length self.now.classes) }
        ensures { (d : ClassSide) → result.now ≡ (slice_index_or self.now.classes (number.0 - 1) d).class }
    {
        self.classes[number.0 as usize - 1].state()
    }

    /// Compares the closed store with a pass of it. Nothing changes. Allocates nothing and never waits.
    /// The pass has seen a beginning of each stripe's and class's final history, and noted at most its length. Figures that it noted
    /// are those of the history's first so many events. Each event in these histories that names the pass's caller belongs to a call
    /// in the caller's history. The caller's commands in them are just those at the places that its history gives. The caller's
    /// account has each event in these histories that the caller made.
    pub fn compare<N: Named>(&mut self, pass: &mut Pass<N>)
        requires board { self.old.board ≡ N.board.table }
        ensures same { (self.new ≡ self.old) × (pass.new ≡ pass.old) }
        ensures stripes { IsBehindStripes pass.old.sight self.old.stripes }
        ensures classes { IsBehindClasses pass.old.sight self.old.classes }
        ensures own { AreStripes N.board.table N.config self.old.stripes → AreItsOwn pass.old self.old.stripes }
        ensures placed { AreStripes N.board.table N.config self.old.stripes → AreJustPlaced N.config pass.old self.old.stripes }
        ensures own_in_classes { AreClasses N.board.table N.config self.old.classes → AreItsOwnInClasses pass.old self.old.classes }
        ensures account { IsAccounted pass.old self.old.stripes self.old.classes }
    {
        let seen = &mut pass.seen;
        compare_stripes(&self.board, &mut self.stripes, seen);
        compare_classes(&self.board, &mut self.classes, seen);
        compare_calls(&self.board, &mut self.stripes, &mut pass.caller);
        compare_class_calls(&self.board, &mut self.classes, &mut pass.caller);
    }
}
