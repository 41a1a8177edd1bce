//! Cuts an input into its scripts, and runs them.
ghost use Rattle.std.specs.Prelude.{◌≡◌, ◌≤◌, ◌^◌, IfErr, IfOk, false};
ghost use Rattle.std.specs.List.{All, flat_map};
ghost use Rattle.mc_item.specs.Config.{IsBounded};
ghost use Rattle.mc_proto.specs.Gathered.{bytes_of_parts};
ghost use Rattle.mc_driver.specs.Input.{IsRunOf, IsUnrun};

use crate::fault::RunFault;
use crate::input::{scripts_of, sources_of};
use crate::memory::{Kept, Pieces};
use crate::running::{Host, Run, limits_for, run_scripts};
use mc_options::Plan;
use std::collections::VecDeque;
use std::sync::ledger::{Book, Ledger, Share};
use std::sync::{Mutex, Wait};
use std::thread::Threads;

/// How many scripts may run at once.
pub(crate) const MOST_SCRIPTS: usize = 62;

/// Cuts an input into its scripts, and runs them all at once, with the plan's configuration and upkeep. Returns what the run leaves.
/// Errors: `Scripts` for more than 62 scripts, `Configuration` if that isn't sound for so many, `NoMemory`.
pub(crate) fn run_cut<'a, R: Threads + Wait + Sync, L: Ledger + Send + Sync>(
    host: Host<'a, R>,
    plan: Plan,
    input: VecDeque<Vec<u8>>,
    book: &'a Mutex<Book<L>>,
    share: Share<L>,
) -> Result<Run<(Pieces, Kept<'a, R, L>)>, RunFault>
    requires parts { 62 ≤ share.parts }
    requires none { share.amount ≡ 0 }
    requires bounded { IsBounded plan.config }
    requires early { All (λ moment. moment ≤ 2 ^ 62) plan.upkeep }
    ensures ok { IfOk result (λ run. IsRunOf false plan.config plan.upkeep (flat_map (λ v. v.items) input.items)
        (flat_map (λ end. bytes_of_parts end.1.pieces.items) run.ends.items) run.outcomes.items run.ledger) }
    ensures err { IfErr result (λ fault. IsUnrun fault plan.config (flat_map (λ v. v.items) input.items)) }
{
    let Host { rt, alloc, .. } = host;
    let Plan { config, upkeep, .. } = plan;
    let sources = sources_of(alloc, limits_for(&config), input)?;
    if sources.len() > MOST_SCRIPTS {
        return Err(RunFault::Scripts);
    }
    let scripts = scripts_of(rt, alloc, sources, book, share)?;
    let run = run_scripts(host, config, scripts, upkeep.as_slice())?;
    Ok(run)
}
