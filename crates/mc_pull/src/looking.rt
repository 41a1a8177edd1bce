//! Looks: how a walk reaches the stripe of an entry's key, through a gate.
ghost use Rattle.std.specs.Prelude.{◌≡◌, None, Some, is_some, IfOk, IfErr, OnOk, OnErr};
ghost use Rattle.mc_segment.specs.ClassState.{with_room};
ghost use Rattle.mc_stripe.specs.StripeState.{cache_now};
ghost use Rattle.mc_pull.specs.{Gates.LeavesGate, Gates.MayLook, Judgement.done_of, Looks.IsAnswered, Looks.IsJudgedBy, Looks.MaySettle};
ghost use Rattle.mc_pull.specs.{Refusal.Refuses, Settled.IsSettled, Sight.KeepsPartners, Walker.walker_of};
ghost use Rattle.mc_pull.specs.Question.{question_by, question_of};

use crate::context::Context;
use crate::judge::{Ask, Done, Judge};
use crate::settling::settle_ask;
use mc_item::{Fault, StripeNo};
use mc_segment::ClassState;
use mc_stripe::StripeState;
use std::snapshot::Snapshot;

/// What was done with an entry, and its stripe as it was before that, which only contracts see.
#[derive(Drop)]
pub struct Judged {
    pub done: Done,
    pub state: Snapshot<StripeState>,
}

/// A gate's answer: the stripe that it was asked for, and what was done, if the stripe was reached.
#[derive(Drop)]
pub struct Answer {
    pub stripe: StripeNo,
    pub judged: Option<Judged>,
}

/// A look at one entry of a class, which is to be judged with the state of its key's stripe.
#[derive(Drop)]
pub struct Look<'a> {
    pub class: &'a mut ClassState,
    pub ask: Ask<'a>,
    pub done: Option<Done>,
}

impl<'a> Look<'a> {
    /// Returns a look at an entry that isn't judged yet. It takes no memory.
    pub fn new(
        context: Context<'a>,
        class: &'a mut ClassState,
        number: u64,
        judge: &'a Judge,
    ) -> Look<'a>
        ensures same_reference { result.class.ghost_name ≡ class.entry.ghost_name }
        ensures class { result.class.now ≡ class.old }
        ensures ask { question_of result.ask ≡ question_by context.entry number judge.now }
        ensures config { result.ask.config.now ≡ context.entry.config.now }
        ensures done { result.done ≡ None }
    {
        Look {
            class,
            ask: Ask {
                who: context.turn.who,
                number,
                judge,
                moment: context.turn.moment,
                config: context.config,
            },
            done: None,
        }
    }

    /// Judges the entry with its stripe, once. Notes what was done, and returns it for the gate's answer.
    /// Errors: `HistoryFull` if the class or the stripe has no place in its history for what is to be done, `NoMemory` if memory
    /// is refused. Neither history has changed then.
    pub fn settle(&mut self, stripe: &mut StripeState) -> Result<Judged, Fault>
        requires look { MaySettle self.old stripe.old }
        ensures same { (self.new.class.ghost_name ≡ self.old.class.ghost_name) × (self.new.ask ≡ self.old.ask) }
        ensures done { IfOk result (λ judged. self.new.done ≡ Some judged.done) }
        ensures follows { IfOk result (IsJudgedBy (λ state. state ≡ stripe.old) self.old.ask.config.now (record { 0 = stripe.old.site.stripe })
            self.old.class.now (question_of self.old.ask)) }
        ensures settled { IfOk result (λ judged. IsSettled self.old.class.now self.new.class.now stripe.old stripe.new (question_of self.old.ask)
            judged.done) }
        ensures keeps { KeepsPartners self.old.class.now self.new.class.now stripe.old stripe.new }
        ensures err { OnErr result ((self.new.class.now ≡ with_room self.old.class.now self.new.class.now.room) × (stripe.new.history ≡ stripe.old.history)) }
        ensures refusal { IfErr result (Refuses self.old.class.now self.new.class.now stripe.old stripe.new (done_of self.old.class.now (cache_now
            stripe.old) (question_of self.old.ask))) }
    {
        stripe.history();
        let state = Snapshot::of(&*stripe);
        let class = &mut *self.class;
        let done = settle_ask(class, stripe, &self.ask)?;
        self.done = Some(done);
        Ok(Judged { done, state })
    }
}

/// Reaches the stripe of an entry's key for a walk, or says that it can't now, as when another thread has locked it.
pub trait Gate {
    ghost use Rattle.std.specs.Prelude.{List, ℕ};
    ghost use Rattle.mc_item.specs.declared.{config.Config.Config, class_event.ClassEvent.ClassEvent, fault.Fault.Fault, item.Who.Who};
    ghost use Rattle.mc_segment.specs.ClassState.{ClassView};
    ghost use Rattle.mc_stripe.specs.StripeState.{Stripe};
    ghost use Rattle.mc_pull.specs.Walker.{Walker};
    ghost use Rattle.mc_pull.specs.declared.looking.Answer.{Answer};

    /// Its answers so far, oldest first.
    ghost answers: { Self → List Answer };

    /// It can judge entries of this class for this call, and the stripes that it reaches were made with this configuration.
    ghost serves: { Self → Config → Who → ClassView → Type 0 };

    /// What is known of the stripe by which a visit judged: from the gate before it to the gate after it.
    ghost reaches: { Self → Self → Stripe → Type 0 };

    /// The mutable references that it holds, by their ghost names. A visit keeps them.
    ghost references: { Self → List ℕ };

    /// The faults that a visit may return, by the gate and the class as the visit leaves them.
    ghost faults: { Self → ClassView → Fault → Type 0 };

    /// What each visit for a walker keeps, since any earlier state of the gate and of the class's history.
    ghost keeps: { Walker → Self → List ClassEvent → Self → List ClassEvent → Type 0 };

    /// Lends the state of a stripe to a look, which judges its entry. The entry's key is of that stripe, and the look isn't
    /// judged yet. Returns whether the stripe was reached. If not, the class's history is unchanged.
    /// Errors: those that `faults` allows. The class's history and the answers are then unchanged.
    fn visit(&mut self, stripe: StripeNo, look: &mut Look<'_>) -> Result<bool, Fault>
        requires look { MayLook serves look.old.ask.config.now self.old stripe look.old.class.now (question_of look.old.ask) }
        requires once { look.old.done ≡ None }
        ensures same_reference { look.new.class.ghost_name ≡ look.old.class.ghost_name }
        ensures had { IfOk result (λ had. is_some look.new.done ≡ had) }
        ensures answer { OnOk result (IsAnswered (reaches self.old self.new) look.old.ask.config.now stripe (question_of look.old.ask)
            look.old.class.now look.new.class.now (answers self.old) (answers self.new) look.new.done) }
        ensures err { OnErr result ((look.new.class.now ≡ with_room look.old.class.now look.new.class.now.room) × (answers self.new ≡ answers self.old)) }
        ensures fault { IfErr result (faults self.new look.new.class.now) }
        ensures gate { LeavesGate references serves keeps look.old.ask.config.now (walker_of look.old.class.now look.old.ask.who look.old.ask.moment)
            self.old look.old.class.now self.new look.new.class.now };
}
