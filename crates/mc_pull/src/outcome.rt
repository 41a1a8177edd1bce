//! The table of the segments: what becomes of an entry.
ghost use Rattle.std.specs.Prelude.{◌≡◌, Bool, false};
ghost use Rattle.mc_item.specs.declared.lists.Seg.TheVariants.{Hot, Warm, Cold};
ghost use Rattle.mc_pull.specs.Outcome as table;

use crate::judge::{Done, Mode};
use mc_item::Seg;

// What becomes of an entry of HOT whose item is alive.
fn hot_outcome(mode: Mode, active: bool, due: bool) -> Done
    ensures { result ≡ table.outcome_of Hot mode false active due }
{
    if active {
        return Done::ToWarm;
    }
    match mode {
        Mode::Plain(_) => { if due { Done::ToCold } else { Done::Stayed } }
        Mode::Evict => Done::Stayed,
        Mode::Force => Done::ToCold,
    }
}

// What becomes of an entry of WARM whose item is alive.
fn warm_outcome(mode: Mode, active: bool, due: bool) -> Done
    ensures { result ≡ table.outcome_of Warm mode false active due }
{
    match mode {
        Mode::Plain(_) => {
            if active {
                Done::WithinWarm
            } else if due {
                Done::ToCold
            } else {
                Done::Stayed
            }
        }
        Mode::Evict | Mode::Force => Done::Stayed,
    }
}

// What becomes of an entry of COLD whose item is alive.
fn cold_outcome(mode: Mode, active: bool) -> Done
    ensures { (due : Bool) → result ≡ table.outcome_of Cold mode false active due }
{
    match mode {
        Mode::Evict => Done::Evicted,
        Mode::Plain(_) => { if active { Done::ToWarm } else { Done::Stayed } }
        Mode::Force => Done::Stayed,
    }
}

// What becomes of an entry, by the first row that fits.
pub(crate) fn outcome(seg: Seg, mode: Mode, dead: bool, active: bool, due: bool) -> Done
    ensures { result ≡ table.outcome_of seg mode dead active due }
{
    if dead {
        return Done::Reclaimed;
    }
    match seg {
        Seg::Hot => hot_outcome(mode, active, due),
        Seg::Warm => warm_outcome(mode, active, due),
        Seg::Cold => cold_outcome(mode, active),
        Seg::Temp => Done::Stayed,
    }
}
