//! A gate that is lent one stripe, and reaches no other.
ghost use Rattle.std.specs.Prelude.{◌≡◌, ◌≤◌, ◌+◌, ◌++◌, List, IfOk, IfErr, OnErr, false, true};
ghost use Rattle.mc_pull.specs.{Growth.GainsFor, Juggle.IsJuggle, Lone.IsServedAlone, Lone.LeavesAlone, Refusal.MayFail, Rounds.rounds_by};
ghost use Rattle.mc_pull.specs.{Rounds.IsRoom, Broken.BreaksRoom, Broken.BreaksJuggle};
ghost use Rattle.mc_pull.specs.{Walker.walker_by};
ghost use Rattle.mc_pull.specs.declared.looking.Answer.{Answer};

use crate::context::Context;
use crate::juggling::juggle;
use crate::looking::{Answer, Gate, Look};
use crate::rounds::make_room;
use mc_history::GhostList;
use mc_item::{Fault, Moves, StripeNo};
use mc_segment::ClassState;
use mc_stripe::StripeState;

/// A gate that is lent one stripe, with its number, and a list for its answers, which only contracts see. It never reaches another
/// stripe.
#[derive(Drop)]
pub struct Lone<'a> {
    pub number: StripeNo,
    pub stripe: &'a mut StripeState,
    pub answers: &'a mut GhostList<Answer>,
}

impl<'a> Gate for Lone<'a> {
    ghost use Rattle.std.specs.Prelude.{◌≡◌, ◌∷◌, []};
    ghost use Rattle.mc_pull.specs.{Lone.AnswersAlone, Lone.Serves, Lone.Walked, Refusal.MayFail};

    ghost answers = { λ g. g.answers.now };

    ghost serves = { λ g config who c. Serves g.number.0 g.stripe.now config };

    ghost reaches = { λ g h state. state ≡ g.stripe.now };

    ghost references = { λ g. g.stripe.ghost_name ∷ [] };

    ghost faults = { λ g c. MayFail c g.stripe.now };

    ghost keeps = { λ w g begun h history. Walked w g.stripe.now begun h.stripe.now history × AnswersAlone g h };

    fn visit(&mut self, stripe: StripeNo, look: &mut Look<'_>) -> Result<bool, Fault> {
        if stripe.0 != self.number.0 {
            self.answers.push(&Answer {
                stripe,
                judged: None,
            });
            return Ok(false);
        }
        let own = &mut *self.stripe;
        let judged = look.settle(own)?;
        self.answers.push(&Answer {
            stripe,
            judged: Some(judged),
        });
        Ok(true)
    }
}

impl<'a> Lone<'a> {
    /// Makes room in a class as `make_room` does. As this gate has a single stripe, the contract adds: the gate still holds it,
    /// it was reached whenever asked for, it has gained only events of this call, and histories that agreed with it still agree.
    pub fn make_room(&mut self, context: Context<'_>, class: &mut ClassState) -> Result<bool, Fault>
        requires gate { IsServedAlone self.old context.config.now class.old }
        ensures room { IfOk result (λ found. (xs : List Answer) × (self.new.answers.now ≡ self.old.answers.now ++ xs) × IsRoom (rounds_by
            class.old context.entry) class.old.history xs class.new.history found) }
        ensures err { OnErr result ((xs : List Answer) × (self.new.answers.now ≡ self.old.answers.now ++ xs) × BreaksRoom (rounds_by class.old
            context.entry) class.old.history xs class.new.history) }
        ensures fault { IfErr result (MayFail class.new self.new.stripe.now) }
        ensures gains { GainsFor true class.old class.new }
        ensures walked { LeavesAlone (walker_by class.old context.entry) context.entry.config.now self.old class.old.history self.new class.new.history }
    {
        make_room(context, class, self)
    }

    /// Juggles a class as `juggle` does. The contract adds the same as that of `make_room`.
    pub fn juggle(&mut self, context: Context<'_>, class: &mut ClassState) -> Result<Moves, Fault>
        requires gate { IsServedAlone self.old context.config.now class.old }
        ensures juggle { IfOk result (λ moves. (xs : List Answer) × (self.new.answers.now ≡ self.old.answers.now ++ xs) × IsJuggle (rounds_by
            class.old context.entry) class.old.history xs class.new.history moves) }
        ensures err { IfErr result (λ fault. (xs : List Answer) × (self.new.answers.now ≡ self.old.answers.now ++ xs) × BreaksJuggle (rounds_by
            class.old context.entry) (MayFail class.new self.new.stripe.now) fault class.old.history xs class.new.history) }
        ensures few { IfOk result (λ moves. moves.reclaimed + moves.moved ≤ 10000) }
        ensures fault { IfErr result (MayFail class.new self.new.stripe.now) }
        ensures gains { GainsFor false class.old class.new }
        ensures walked { LeavesAlone (walker_by class.old context.entry) context.entry.config.now self.old class.old.history self.new class.new.history }
    {
        juggle(context, class, self)
    }
}
