//! Upkeep: the maintainer and the crawler work on all slab classes, at given moments (times in seconds).
ghost use Rattle.std.specs.Prelude.{◌≡◌, ◌≤◌, ◌^◌, [], IfErr, OnOk};
ghost use Rattle.std.specs.List.{All};
ghost use Rattle.mc_script.specs.{Calls.BreaksAmong, Calls.GoesOn, Calls.MayAnswer, Run.LeavesCaller, Run.MayStart, Script.calls_of};
ghost use Rattle.mc_script.specs.Upkeep.{KeepsUp, WorksAll, directive_of, many_calls, work_of};
ghost use Rattle.mc_script.specs.declared.outcome.Outcome.TheVariants as outcomes;

use crate::calls::Calls;
use crate::crawling::crawl_target;
use crate::juggling::juggle_target;
use crate::outcome::Outcome;
use mc_item::Fault;
use mc_proto::{Limits, Target};
use std::sync::Wait;

/// Who works on the slab classes beside scripts (new_lru.txt for the maintainer, crawler.c for the crawler).
#[derive(Clone, Copy, Debug, PartialEq, Eq)]
pub enum Keeper {
    /// Moves entries between the lists, and reclaims dead ones at their tails.
    Maintainer,
    /// Looks at every entry, and reclaims the dead ones.
    Crawler,
}

// Does a keeper's work at one moment, on all slab classes in rising order.
fn keep_all<C: Calls>(
    rt: &impl Wait,
    limits: Limits,
    calls: &mut C,
    keeper: Keeper,
    moment: u64,
) -> Result<(), Fault>
    requires ready { MayAnswer limits moment (C.view calls.old) }
    ensures caller { GoesOn (C.view calls.old) (C.view calls.new) result }
    ensures ok { OnOk result (WorksAll limits keeper moment (C.view calls.old) (C.view calls.new)) }
    ensures err { IfErr result (λ e. BreaksAmong e (calls_of limits (directive_of keeper)) moment (C.view calls.old) (C.view calls.new)) }
{
    match keeper {
        Keeper::Maintainer => {
            juggle_target(rt, limits, calls, Target::All, moment)?;
        }
        Keeper::Crawler => {
            crawl_target(rt, limits, calls, Target::All, moment)?;
        }
    }
    Ok(())
}

/// Does a keeper's work, and returns how it ended. At each moment in order, makes a call for each slab class in rising order.
///
/// The calls are those of a script with `%at` and `%juggle all`, or `%crawl all`, but nothing is read or printed.
/// Makes no call after one that failed. If it fails, not all calls were made. Without moments, `calls` is unchanged.
/// The caller must be at turn 0, each moment at most 2^62, and the slab classes of `limits` must exist.
pub fn run_upkeep<C: Calls>(
    rt: &impl Wait,
    limits: Limits,
    calls: &mut C,
    keeper: Keeper,
    moments: &[u64],
) -> Outcome
    requires starts { MayStart limits (C.view calls.old) }
    requires early { All (λ moment. moment ≤ 2 ^ 62) moments.now }
    ensures leaves { KeepsUp result limits (work_of keeper moments.now) (C.view calls.new).notes (C.view calls.old).caller }
    ensures caller { LeavesCaller result (C.view calls.old) (C.view calls.new) }
    ensures turns { result ≡ outcomes.Done → (C.view calls.new).turn ≡ many_calls limits keeper moments.now }
    ensures idle { moments.now ≡ [] → calls.new ≡ calls.old }
{
    for i in 0..moments.len() {
        match keep_all(rt, limits, calls, keeper, moments[i]) {
            Ok(()) => {}
            Err(Fault::NoMemory) => {
                return Outcome::Memory;
            }
            Err(Fault::HistoryFull) => {
                return Outcome::HistoryFull;
            }
        }
    }
    Outcome::Done
}
