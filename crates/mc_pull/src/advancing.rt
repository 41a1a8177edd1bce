//! Advances the entry of an item that was hit.
ghost use Rattle.std.specs.Prelude.{◌≡◌, ◌++◌, List, None, false, IfOk, IfErr, IfSome, OnErr, option_copied};
ghost use Rattle.mc_item.specs.declared.lists.Seg.TheVariants.{Cold};
ghost use Rattle.mc_rule.specs.Lists.{find, found, lists_of};
ghost use Rattle.mc_segment.specs.ClassState.{with_room};
ghost use Rattle.mc_pull.specs.{Advance.IsAdvance, Growth.GainsFor, Gates.IsServedBy, Gates.LeavesGate, Rounds.rounds_by, Walker.walker_by};
ghost use Rattle.mc_pull.specs.Advance as words;
ghost use Rattle.mc_pull.specs.declared.looking.Answer.{Answer};

use crate::context::Context;
use crate::judge::{Done, Judge};
use crate::looking::Gate;
use crate::pulling::look_at;
use mc_item::{Entry, Fault, Seg, stripe_of};
use mc_segment::ClassState;

// The entry of this number, if it is in COLD.
fn cold_entry(class: &ClassState, number: u64) -> Option<&Entry>
    ensures entry { option_copied result ≡ find number (lists_of class.now.history).cold }
    ensures there { IfSome (option_copied result) (λ e. found number (lists_of class.now.history) ≡ Some (Cold, e)) }
{
    class.law();
    let seg = class.segment_of(number)?;
    match seg {
        Seg::Cold => class.entry(number),
        Seg::Hot => None,
        Seg::Warm => None,
        Seg::Temp => None,
    }
}

// Whether a look moved the entry to WARM.
fn is_to_warm(done: Option<Done>) -> bool
    ensures { result ≡ words.is_to_warm_if done }
{
    matches!(done, Some(Done::ToWarm))
}

/// Moves the entry of an item that was hit from COLD to WARM's head, with the moment as its time, clears the item's ACTIVE
/// mark, and returns true. It looks at the entry once, if it is in COLD, through the gate. If it isn't in COLD, the stripe isn't
/// reached, or its item has another link, isn't ACTIVE or is dead at the moment, it returns false and changes nothing.
/// Errors: the gate's faults. Nothing has changed then.
pub fn advance<G: Gate>(
    context: Context<'_>,
    class: &mut ClassState,
    number: u64,
    gate: &mut G,
) -> Result<bool, Fault>
    requires gate { IsServedBy G.serves context.config.now context.turn.who gate.old class.old }
    ensures advanced { IfOk result (λ moved. (xs : List Answer) × (G.answers gate.new ≡ G.answers gate.old ++ xs) × IsAdvance (rounds_by class.old
        context.entry) number class.old.history xs class.new.history moved) }
    ensures err { OnErr result ((class.new ≡ with_room class.old class.new.room) × (G.answers gate.new ≡ G.answers gate.old)) }
    ensures gains { GainsFor false class.old class.new }
    ensures absent { find number (lists_of class.old.history).cold ≡ None → (class.new ≡ class.old) × (gate.new ≡ gate.old) }
    ensures fault { IfErr result (G.faults gate.new class.new) }
    ensures gate { LeavesGate G.references G.serves G.keeps context.entry.config.now (walker_by class.old context.entry) gate.old class.old gate.new class.new }
{
    let Some(entry) = cold_entry(class, number) else {
        return Ok(false);
    };
    let stripe = stripe_of(&entry.key, context.config.stripes);
    let hit = Judge::Hit;
    let done = look_at(context, class, stripe, number, &hit, gate)?;
    Ok(is_to_warm(done))
}
