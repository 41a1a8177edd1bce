//! A list of events for proofs only. When the program runs it has no bytes.
ghost use Rattle.std.specs.Prelude.{◌≡◌, ◌++◌, ◌∷◌, []};

use std::marker::Model;
use std::mem;
use std::snapshot::Snapshot;

// A chain of events: empty, or one event after the chain of earlier ones. It exists only while a snapshot of it is taken.
#[cycle(chain)]
#[derive(Drop)]
pub(crate) struct Chain<E> {
    link: Link<E>,
}

#[cycle(chain)]
#[derive(Drop)]
pub(crate) enum Link<E> {
    First,
    Behind(Snapshot<Chain<E>>, Snapshot<E>),
}

impl<E> Model for Chain<E> {
    ghost use Rattle.std.specs.Prelude.{List, length};

    ghost Value = { List E };

    ghost use Rattle.mc_history.specs.Links.{items_of};

    ghost view = { λ c. items_of c.link };

    ghost size = { length };

    ghost use Rattle.std.proofs.Common.{arith, length-append};

    ghost size_decreases = { λ a h. Prim.grind (arith, length-append) };
}

/// A list of events, oldest first, that only contracts can see. It has no bytes.
#[derive(Drop)]
pub struct GhostList<E> {
    list: Snapshot<Chain<E>>,
}

impl<E> Model for GhostList<E> {
    ghost use Rattle.std.specs.Prelude.{List};

    ghost Value = { List E };

    ghost view = { λ t. t.list.value };
}

const _: () = prove!(size_of::<GhostList<u64>>() == 0);

impl<E> GhostList<E> {
    /// Makes the empty list.
    pub fn new() -> GhostList<E>
        ensures { result ≡ [] }
    {
        let none = Chain { link: Link::First };
        GhostList {
            list: Snapshot::of(&none),
        }
    }

    /// Puts an event behind the others, for contracts to see. It is shown, not given.
    #[inline(always)]
    pub fn push(&mut self, event: &E)
        ensures { self.new ≡ self.old ++ event.now ∷ [] }
    {
        let before = mem::replace(self, GhostList::new());
        let chain = Chain {
            link: Link::Behind(before.list, Snapshot::of(event)),
        };
        self.list = Snapshot::of(&chain);
    }
}
