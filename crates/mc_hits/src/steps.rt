//! The kinds of step on a queue of hits. What each does to a view is in `specs/Steps.antt`.
use crate::rule::{Hit, View};
use crossbeam_queue::protocol::{Lesson, Outcome, Split};

/// Adds a hit to the caller's offers.
pub(crate) struct Offers;

impl Outcome<Hit, View> for Offers {
    ghost use Rattle.std.specs.Prelude.{◌≡◌};
    ghost use Rattle.mc_hits.specs.Steps.{offering};

    ghost then = { λ v hit w. w ≡ offering hit v };
}

impl Lesson<Hit, View> for Offers {
    ghost use Rattle.std.specs.Prelude.{⊤};

    ghost fact = { λ v items. ⊤ };
}

/// Adds a hit to the caller's takings, among which it wasn't before.
pub(crate) struct Takes;

impl Outcome<Hit, View> for Takes {
    ghost use Rattle.mc_hits.specs.Steps.{Taken};

    ghost then = { Taken };
}

impl Lesson<Hit, View> for Takes {
    ghost use Rattle.std.specs.Prelude.{⊤};

    ghost fact = { λ v items. ⊤ };
}

/// Gives out the pass of the next caller.
pub(crate) struct Deals;

impl Split<View> for Deals {
    ghost use Rattle.mc_hits.specs.Steps.{root_after, next_hand};

    ghost left = { root_after };

    ghost right = { next_hand };
}
