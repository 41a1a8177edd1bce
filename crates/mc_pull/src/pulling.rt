//! Walks along a list from its tail.
ghost use Rattle.std.specs.Prelude.{◌≡◌, ◌<◌, ◌≤◌, ◌++◌, ℕ, List, false, IfOk, IfErr, OnErr};
ghost use Rattle.mc_segment.specs.ClassState.{with_room};
ghost use Rattle.mc_pull.specs.{Gates.IsServedBy, Gates.LeavesGate, Gates.MayLook, Growth.GainsEvents, Growth.GainsFor, Growth.looks_for_chunk};
ghost use Rattle.mc_pull.specs.{Looks.IsAnswered, Pulled.sum_of, Question.MayWalk, Question.question_by, Walker.walker_by};
ghost use Rattle.mc_pull.specs.Walk as words;
ghost use Rattle.mc_pull.specs.Walk.{pull_by, way, IsLooked, IsWalk, IsBrokenWalk, MayLookNext};
ghost use Rattle.mc_pull.specs.declared.looking.Answer.{Answer};

use crate::context::Context;
use crate::judge::{Done, Judge, Mode};
use crate::looking::{Gate, Look};
use crate::pulled::{Pulled, ends_with};
use mc_item::{Fault, Seg, StripeNo, stripe_of};
use mc_segment::ClassState;

// The most entries that a walk looks at (own).
const MOST_LOOKS: u64 = 5;

// Whether a walk of this mode still goes on. One that looks for a chunk ends when a chunk is free.
fn is_wanted(class: &ClassState, mode: Mode) -> bool
    ensures { result ≡ words.is_wanted mode class.now.chunks class.now.history }
{
    match mode {
        Mode::Plain(_) => true,
        Mode::Evict | Mode::Force => class.chunks() <= class.count(),
    }
}

/// Looks at one entry through the gate, once, and returns what was done with it, or `None` if its stripe wasn't reached.
/// Errors: the gate's faults. Neither the class's history nor the gate's answers have changed then.
pub fn look_at<G: Gate>(
    context: Context<'_>,
    class: &mut ClassState,
    stripe: StripeNo,
    number: u64,
    judge: &Judge,
    gate: &mut G,
) -> Result<Option<Done>, Fault>
    requires look { MayLook G.serves context.config.now gate.old stripe class.old (question_by context number judge.now) }
    ensures answer { IfOk result (IsAnswered (G.reaches gate.old gate.new) context.entry.config.now stripe (question_by context.entry number
        judge.now) class.old class.new (G.answers gate.old) (G.answers gate.new)) }
    ensures err { OnErr result ((class.new ≡ with_room class.old class.new.room) × (G.answers gate.new ≡ G.answers gate.old)) }
    ensures fault { IfErr result (G.faults gate.new class.new) }
    ensures gate { LeavesGate G.references G.serves G.keeps context.entry.config.now (walker_by class.old context.entry) gate.old class.old gate.new class.new }
{
    let mut look = Look::new(context, class, number, judge);
    gate.visit(stripe, &mut look)?;
    Ok(look.done)
}

// Looks at the next entry of a walk.
fn look_next<G: Gate>(
    context: Context<'_>,
    class: &mut ClassState,
    seg: Seg,
    mode: Mode,
    pulled: Pulled,
    gate: &mut G,
) -> Result<Option<Done>, Fault>
    requires next { MayLookNext class.old seg mode context pulled }
    requires gate { IsServedBy G.serves context.config.now context.turn.who gate.old class.old }
    ensures looked { (left : ℕ) → 0 < left → IfOk result (IsLooked (pull_by class.old seg mode context.entry) (way class.old.history left pulled false)
        (G.answers gate.old) (G.answers gate.new) class.new.history) }
    ensures grows { GainsEvents class.old class.new }
    ensures err { OnErr result ((class.new.history ≡ class.old.history) × (G.answers gate.new ≡ G.answers gate.old)) }
    ensures fault { IfErr result (G.faults gate.new class.new) }
    ensures gate { LeavesGate G.references G.serves G.keeps context.entry.config.now (walker_by class.old context.entry) gate.old class.old gate.new class.new }
{
    let entry = class.from_tail(seg, pulled.passed).unwrap();
    let number = entry.number;
    let stripe = stripe_of(&entry.key, context.config.stripes);
    let judge = Judge::Walk {
        seg,
        mode,
        passed: class.passed(seg, pulled.passed),
    };
    let done = look_at(context, class, stripe, number, &judge, gate)?;
    Ok(done)
}

/// Walks along a list from its tail, and returns how many entries it reclaimed, moved, evicted and passed. It looks at up to five
/// entries, with one try at the stripe of each. If the stripe is reached, the segment's rule says what is done; else the entry is
/// passed. The walk ends where the rule says so, or, if it looks for a chunk, when one is free.
/// `Plain` must name a survey of this class, by this call and at this moment. `Evict` walks only COLD, `Force` only HOT.
/// Errors: the gate's faults. Events made so far remain.
pub fn pull_tail<G: Gate>(
    context: Context<'_>,
    class: &mut ClassState,
    seg: Seg,
    mode: Mode,
    gate: &mut G,
) -> Result<Pulled, Fault>
    requires walk { MayWalk class.old seg mode context.turn.who context.turn.moment }
    requires gate { IsServedBy G.serves context.config.now context.turn.who gate.old class.old }
    ensures walk { IfOk result (λ pulled. (xs : List Answer) × (G.answers gate.new ≡ G.answers gate.old ++ xs) × IsWalk (pull_by class.old seg mode
        context.entry) xs class.new.history pulled) }
    ensures err { OnErr result ((xs : List Answer) × (G.answers gate.new ≡ G.answers gate.old ++ xs) × IsBrokenWalk (pull_by class.old seg mode
        context.entry) xs class.new.history) }
    ensures gains { GainsFor (looks_for_chunk mode) class.old class.new }
    ensures few { IfOk result (λ pulled. sum_of pulled ≤ 5) }
    ensures fault { IfErr result (G.faults gate.new class.new) }
    ensures gate { LeavesGate G.references G.serves G.keeps context.entry.config.now (walker_by class.old context.entry) gate.old class.old gate.new class.new }
{
    let mut left = class.len(seg).min(MOST_LOOKS);
    let mut pulled = Pulled::none();
    'looks: while left > 0 {
        if !is_wanted(class, mode) {
            break;
        }
        let done = look_next(context, class, seg, mode, pulled, gate)?;
        left -= 1;
        pulled = pulled.counted(done);
        if ends_with(done) {
            break;
        }
    }
    Ok(pulled)
}
