//! The rule of a queue of hits, and what a pass of it knows. The program makes no values of the views.
use crossbeam_queue::protocol::Protocol;
use crossbeam_queue::{Pass, RuledArrayQueue};
use mc_item::Who;
use std::collections::LinkedList;

/// One hit: the caller and turn that made it, and the number of the entry that was hit.
#[derive(Clone, Copy, Debug, PartialEq, Eq)]
pub struct Hit {
    pub who: Who,
    pub number: u64,
}

/// What the root knows: the callers below `given` have their passes.
pub struct Root {
    pub given: u32,
}

/// What a caller's pass knows: all that the caller has offered here, and all that it has taken here, oldest first.
pub struct Held {
    pub caller: u32,
    pub offers: LinkedList<Hit>,
    pub takings: LinkedList<Hit>,
}

/// What the two kinds of pass know.
pub enum View {
    Root(Root),
    Hand(Held),
}

/// The rule.
pub struct Law;

impl Protocol<Hit, View> for Law {
    ghost use Rattle.mc_hits.specs.{Rule.IsFair, Steps.opening};

    ghost holds = { λ items views. IsFair items views };

    ghost first = { opening };
}

pub(crate) type Line = RuledArrayQueue<Hit, View, Law>;

pub(crate) type Place = Pass<Hit, View>;
