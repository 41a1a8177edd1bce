//! Runs scripts at once on one store.
ghost use Rattle.std.specs.Prelude.{◌≡◌, ◌≢◌, ◌+◌, ◌<◌, ◌≤◌, ◌^◌, ℕ, IfOk, IfErr, Some, None, length, slice_get};
ghost use Rattle.std.specs.List.{All};
ghost use Rattle.mc_item.specs.Config.{fault_of, IsBounded};
ghost use Rattle.mc_store.specs.{Finals.AreClasses, Finals.AreStripes, Opening.AreParts, Passes.PassView};
ghost use Rattle.mc_driver.specs.{Called.IsCompared, Jobs.MayRunAll, Left.IsRunDone};
ghost use Rattle.mc_driver.specs.Run.{IsAccepted, IsRefused, limits_of, with_callers};
ghost use Rattle.mc_driver.specs.declared.fault.RunFault.TheVariants as faults;

use crate::fault::RunFault;
use crate::jobs::{Ended, jobs_for, run_jobs};
use mc_item::Config;
use mc_proto::Limits;
use mc_script::{Ends, Outcome};
use mc_store::{Final, Named, Pass, Store, Tokens};
use std::alloc::Global;
use std::hash::RandomState;
use std::marker::Brand;
use std::sync::Wait;
use std::thread::Threads;

/// What each run gets from its host: the runtime, the allocator, and the seed of the store's hash. No clause names them, and no
/// reply depends on the seed.
#[derive_where(Clone, Copy)]
pub struct Host<'a, R> {
    pub rt: &'a R,
    pub alloc: Global,
    pub seed: RandomState,
}

/// What a run leaves: the closed store, the outcomes of scripts, maintainer and crawler in this order, and the scripts' ends.
#[derive(Drop)]
pub struct Run<E: Drop> {
    pub ledger: Final,
    pub outcomes: Vec<Outcome>,
    pub ends: Vec<E>,
}

/// Returns the limits of a configuration's requests: the size of the last slab class, and the number of classes.
pub(crate) fn limits_for(config: &Config) -> Limits
    requires { IsBounded config.now }
    ensures { result ≡ limits_of config.now }
{
    let sizes = config.sizes.as_slice();
    Limits {
        largest: sizes[sizes.len() - 1],
        classes: sizes.len() as u32,
    }
}

// Gives the configuration the callers for so many scripts, and checks it.
fn checked(config: Config, scripts: usize) -> Result<Config, RunFault>
    requires { scripts ≤ 62 }
    ensures ok { IfOk result (λ c. (c ≡ with_callers scripts config) × (fault_of c ≡ None) × IsBounded c) }
    ensures err { IfErr result (λ e. (e ≡ faults.Configuration) × (fault_of (with_callers scripts config) ≢ None)) }
{
    let mut config = config;
    config.callers = scripts as u32 + 2;
    match config.check() {
        Ok(config) => Ok(config),
        Err(_) => Err(RunFault::Configuration),
    }
}

// Compares passes with the closed store, which stays the same.
fn compare_all<N: Named>(ledger: &mut Final, passes: &mut Vec<Pass<N>>)
    requires board { ledger.old.board ≡ N.board.table }
    requires stripes { AreStripes N.board.table N.config ledger.old.stripes }
    requires classes { AreClasses N.board.table N.config ledger.old.classes }
    ensures same { ledger.new ≡ ledger.old }
    ensures compared { (k : ℕ) (p : PassView) → slice_get passes.old.items k ≡ Some p → IsCompared p ledger.old }
{
    for i in 0..passes.len() {
        ledger.compare(&mut passes[i]);
    }
}

// How many threads a run may use: enough for all callers. One script without upkeep needs only the calling thread.
fn threads_for(scripts: usize, moments: usize) -> usize
    requires { scripts ≤ 62 }
    ensures some { 0 < result }
    ensures one { scripts ≡ 1 → moments ≡ 0 → result ≡ 1 }
    ensures each { (scripts ≡ 1 → moments ≡ 0 → ⊥) → scripts + 2 ≤ result }
{
    if scripts == 1 && moments == 0 { 1 } else { 64 }
}

/// Why scripts weren't run, and their ends, of which nothing was asked.
#[derive(Drop)]
pub(crate) struct Unrun<E: Drop> {
    pub(crate) fault: RunFault,
    pub(crate) ends: Vec<E>,
}

// Opens a store with the board, the queues and the configuration that `N` names, runs scripts and upkeep as its callers, and
// closes it. If there is no memory for that, it returns the scripts' ends before any of them runs.
fn run_named<N: Named + Send + Sync, E: Ends + Send, R: Threads + Wait + Sync>(
    host: Host<'_, R>,
    config: Config,
    tokens: Tokens,
    scripts: Vec<E>,
    upkeep: &[u64],
) -> Result<Run<E>, Vec<E>>
    requires named { (tokens.board ≡ N.board) × (config ≡ N.config) × (tokens.queues ≡ N.queues) }
    requires fit { AreParts N.board N.config N.queues tokens }
    requires callers { N.config.callers ≡ length scripts.items + 2 }
    requires early { All (λ moment. moment ≤ 2 ^ 62) upkeep.now }
    requires asks { MayRunAll E.gave E.taken E.reads E.writes E.over E.may_ask (limits_of N.config) scripts.items }
    ensures ok { IfOk result (λ run. IsRunDone E.gave E.ended E.taken E.reads E.writes N.config upkeep.now scripts.items run.ends.items run.outcomes.items
        run.ledger) }
    ensures err { IfErr result (λ back. back.items ≡ scripts.items) }
{
    let Host { rt, alloc, seed } = host;
    let limits = limits_for(&config);
    let threads = threads_for(scripts.len(), upkeep.len());
    let Ok((store, passes)) = Store::<N>::open(alloc, config, tokens, seed) else {
        return Err(scripts);
    };
    let Ok(mut ended) = Ended::with_room(alloc, passes.len()) else {
        return Err(scripts);
    };
    let Ok(room) = Vec::with_capacity(alloc, passes.len()) else {
        return Err(scripts);
    };
    let mut jobs = jobs_for(alloc, &store, passes, scripts, room);
    run_jobs(rt, alloc, limits, upkeep, threads, jobs.as_mut_slice());
    ended.end_all(jobs);
    let Ended {
        mut passes,
        outcomes,
        ends,
    } = ended;
    let mut ledger = store.close();
    compare_all(&mut ledger, &mut passes);
    Ok(Run {
        ledger,
        outcomes,
        ends,
    })
}

/// Runs scripts as `run_scripts` does. If they aren't run, it returns their ends, too.
pub(crate) fn run_ends<E: Ends + Send, R: Threads + Wait + Sync>(
    host: Host<'_, R>,
    config: Config,
    scripts: Vec<E>,
    upkeep: &[u64],
) -> Result<Run<E>, Unrun<E>>
    requires early { All (λ moment. moment ≤ 2 ^ 62) upkeep.now }
    requires asks { MayRunAll E.gave E.taken E.reads E.writes E.over E.may_ask (limits_of config) scripts.items }
    ensures accepted { IfOk result (λ _. IsAccepted (length scripts.items) config) }
    ensures ok { IfOk result (λ run. IsRunDone E.gave E.ended E.taken E.reads E.writes (with_callers (length scripts.items) config) upkeep.now scripts.items
        run.ends.items run.outcomes.items run.ledger) }
    ensures refused { IfErr result (λ unrun. IsRefused unrun.fault (length scripts.items) config) }
    ensures back { IfErr result (λ unrun. unrun.ends.items ≡ scripts.items) }
{
    let count = scripts.len();
    if count == 0 || count > 62 {
        return Err(Unrun {
            fault: RunFault::Scripts,
            ends: scripts,
        });
    }
    let config = match checked(config, count) {
        Ok(config) => config,
        Err(fault) => {
            return Err(Unrun {
                fault,
                ends: scripts,
            });
        }
    };
    let Ok(tokens) = Tokens::open(host.alloc, &config) else {
        return Err(Unrun {
            fault: RunFault::NoMemory,
            ends: scripts,
        });
    };
    match run_named::<Brand, E, R>(host, config, tokens, scripts, upkeep) {
        Ok(run) => Ok(run),
        Err(ends) => Err(Unrun {
            fault: RunFault::NoMemory,
            ends,
        }),
    }
}

/// Runs 1 to 62 scripts at once on a new store of this configuration, closes the store, and returns what the run leaves.
/// Reads each script from its ends, and prints its replies there: to a source and a sink, or to one object that is both. Asks for the
/// next bytes only after all replies to the earlier ones are out. If there are moments of upkeep (whole seconds, at most
/// 2^62), the maintainer and the crawler work beside the scripts.
///
/// Of n scripts, script i is caller i, the maintainer is caller n, and the crawler is caller n + 1. The configuration's number of
/// callers is set here. Each caller has its own thread, unless one script runs without upkeep. If a thread can't be started, the
/// one that tried does its work.
///
/// Errors come before the first script begins: `Scripts` for no script or more than 62. Else `Configuration` if that isn't sound
/// for so many. Else `NoMemory` if an allocation failed.
pub fn run_scripts<E: Ends + Send, R: Threads + Wait + Sync>(
    host: Host<'_, R>,
    config: Config,
    scripts: Vec<E>,
    upkeep: &[u64],
) -> Result<Run<E>, RunFault>
    requires early { All (λ moment. moment ≤ 2 ^ 62) upkeep.now }
    requires asks { MayRunAll E.gave E.taken E.reads E.writes E.over E.may_ask (limits_of config) scripts.items }
    ensures refused { IfErr result (λ e. IsRefused e (length scripts.items) config) }
    ensures accepted { IfOk result (λ _. IsAccepted (length scripts.items) config) }
    // What each script, maintainer and crawler leave, and the store: the fields of `IsRunDone`.
    ensures done { IfOk result (λ run. IsRunDone E.gave E.ended E.taken E.reads E.writes (with_callers (length scripts.items) config) upkeep.now scripts.items
        run.ends.items run.outcomes.items run.ledger) }
{
    match run_ends(host, config, scripts, upkeep) {
        Ok(run) => Ok(run),
        Err(unrun) => Err(unrun.fault),
    }
}
