//! Runs the callers of a run: the scripts, the maintainer and the crawler, each on a thread.
ghost use Rattle.std.specs.Prelude.{◌≡◌, ◌≤◌, ◌<◌, ◌+◌, ◌^◌, ◌++◌, ◌∷◌, [], ℕ, IfOk, length, map, slice_index_or, vec_len, vec_capacity};
ghost use Rattle.std.specs.List.{All};
ghost use Rattle.mc_script.specs.Script.{AllThere};
ghost use Rattle.mc_driver.specs.Jobs.{HasWorked, IsAtStart, MayRun, ends_in, works_of};
ghost use Rattle.mc_driver.specs.declared.jobs.Job.{Job};
ghost use Rattle.mc_evidence.specs.Setting.{IsClass};
ghost use Rattle.mc_store.specs.Locked.{setting_of};

use crate::caller::Caller;
use mc_item::NoMemory;
use mc_proto::Limits;
use mc_script::{Ends, Keeper, Outcome, run_script, run_upkeep};
use mc_store::{Named, Pass, Store};
use std::alloc::Global;
use std::sync::Wait;
use std::thread::{self, Threads};

/// A caller's work: a script, with its ends (where its bytes come from, and where its texts go), or the upkeep of all slab classes.
#[derive(Drop)]
pub(crate) enum Work<E: Drop> {
    Script(E),
    Upkeep(Keeper),
}

/// A caller of a store, its work, and how that ended.
#[derive(Drop)]
pub(crate) struct Job<'a, N: Named, E: Drop> {
    pub(crate) calls: Caller<'a, N>,
    pub(crate) work: Work<E>,
    pub(crate) outcome: Outcome,
}

// Does a caller's work, and keeps its outcome.
fn run_job<'a, N: Named, E: Ends>(
    rt: &impl Wait,
    alloc: Global,
    limits: Limits,
    moments: &[u64],
    job: &mut Job<'a, N, E>,
)
    requires first { IsAtStart N.config job.old.calls.pass }
    requires early { All (λ moment. moment ≤ 2 ^ 62) moments.now }
    requires classes { AllThere (IsClass (setting_of N.config)) limits }
    requires asks { MayRun E.gave E.taken E.reads E.writes E.over E.may_ask limits job.old.work }
    ensures { HasWorked E.gave E.ended E.taken E.reads E.writes N.config limits moments.now job.old.calls.pass job.new.calls.pass job.new.outcome job.old.work
        job.new.work }
{
    let calls = &mut job.calls;
    job.outcome = match &mut job.work {
        Work::Script(ends) => run_script(rt, alloc, limits, calls, ends),
        Work::Upkeep(keeper) => run_upkeep(rt, limits, calls, *keeper, moments),
    };
}

/// Does the work of all callers at once, on at most `threads` threads.
/// If a thread can't be started, the one that tried does its work.
pub(crate) fn run_jobs<'a, N: Named + Send + Sync, E: Ends + Send, R: Threads + Wait + Sync>(
    rt: &R,
    alloc: Global,
    limits: Limits,
    moments: &[u64],
    threads: usize,
    jobs: &mut [Job<'a, N, E>],
)
    requires threads { 0 < threads }
    requires first { (i : ℕ) (d : Job N E) → i < length jobs.old → IsAtStart N.config (slice_index_or jobs.old i d).calls.pass }
    requires early { All (λ moment. moment ≤ 2 ^ 62) moments.now }
    requires classes { AllThere (IsClass (setting_of N.config)) limits }
    requires asks { (i : ℕ) (d : Job N E) → i < length jobs.old
        → MayRun E.gave E.taken E.reads E.writes E.over E.may_ask limits (slice_index_or jobs.old i d).work }
    ensures many { length jobs.new ≡ length jobs.old }
    ensures each { (i : ℕ) (d : Job N E) → i < length jobs.old → HasWorked E.gave E.ended E.taken E.reads E.writes N.config limits moments.now
        (slice_index_or jobs.old i d).calls.pass (slice_index_or jobs.new i d).calls.pass (slice_index_or jobs.new i d).outcome
        (slice_index_or jobs.old i d).work (slice_index_or jobs.new i d).work }
{
    thread::for_each_mut(
        rt,
        jobs,
        threads,
        &|_, job| {
            run_job(rt, alloc, limits, moments, job);
        },
    );
}

// Creates the job of a pass, which is still to be done.
fn job_of<'a, N: Named, E: Ends>(
    alloc: Global,
    store: &'a Store<N>,
    pass: Pass<N>,
    work: Work<E>,
) -> Job<'a, N, E>
    ensures pass { result.calls.pass ≡ pass }
    ensures work { result.work ≡ work }
{
    Job {
        calls: Caller::new(alloc, store, pass),
        work,
        outcome: Outcome::Done,
    }
}

/// Creates the jobs of a run, one for each pass in order: the scripts, then the maintainer's, then the crawler's. `room` is empty,
/// with memory reserved for them.
pub(crate) fn jobs_for<'a, N: Named, E: Ends>(
    alloc: Global,
    store: &'a Store<N>,
    passes: Vec<Pass<N>>,
    scripts: Vec<E>,
    room: Vec<Job<'a, N, E>>,
) -> Vec<Job<'a, N, E>>
    requires many { length passes.items ≡ length scripts.items + 2 }
    requires room { (room.items ≡ []) × (length passes.items ≤ vec_capacity room) }
    ensures passes { map (λ job. job.calls.pass) result.items ≡ passes.items }
    ensures works { map (λ job. job.work) result.items ≡ works_of scripts.items }
{
    let mut passes = passes;
    let mut jobs = room;
    for ends in scripts {
        let pass = passes.remove(0);
        jobs.push_reserved(job_of(alloc, store, pass, Work::Script(ends)));
    }
    let first = passes.remove(0);
    jobs.push_reserved(job_of(alloc, store, first, Work::Upkeep(Keeper::Maintainer)));
    let second = passes.remove(0);
    jobs.push_reserved(job_of(alloc, store, second, Work::Upkeep(Keeper::Crawler)));
    jobs
}

/// What jobs leave, in order: the passes, the outcomes, and the ends of the scripts.
#[derive(Drop)]
pub(crate) struct Ended<N: Named, E: Drop> {
    pub(crate) passes: Vec<Pass<N>>,
    pub(crate) outcomes: Vec<Outcome>,
    pub(crate) ends: Vec<E>,
}

impl<N: Named, E: Ends> Ended<N, E> {
    /// Creates an empty `Ended`, with memory reserved for so many jobs.
    pub(crate) fn with_room(alloc: Global, jobs: usize) -> Result<Ended<N, E>, NoMemory>
        ensures none { IfOk result (λ ended. (ended.passes.items ≡ []) × (ended.outcomes.items ≡ []) × (ended.ends.items ≡ [])) }
        ensures room { IfOk result (λ ended. (jobs ≤ vec_capacity ended.passes) × (jobs ≤ vec_capacity ended.outcomes) × (jobs ≤ vec_capacity ended.ends)) }
    {
        Ok(Ended {
            passes: Vec::with_capacity(alloc, jobs)?,
            outcomes: Vec::with_capacity(alloc, jobs)?,
            ends: Vec::with_capacity(alloc, jobs)?,
        })
    }

    // Adds what one job leaves, into memory that is already reserved.
    fn end_one(&mut self, job: Job<'_, N, E>)
        requires room { (vec_len self.old.passes < vec_capacity self.old.passes) × (vec_len self.old.outcomes < vec_capacity self.old.outcomes)
            × (vec_len self.old.ends < vec_capacity self.old.ends) }
        ensures passes { self.new.passes.items ≡ self.old.passes.items ++ job.entry.calls.pass ∷ [] }
        ensures outcomes { self.new.outcomes.items ≡ self.old.outcomes.items ++ job.entry.outcome ∷ [] }
        ensures ends { self.new.ends.items ≡ self.old.ends.items ++ ends_in (job.entry.work ∷ []) }
        ensures room { (vec_capacity self.new.passes ≡ vec_capacity self.old.passes) × (vec_capacity self.new.outcomes ≡ vec_capacity self.old.outcomes)
            × (vec_capacity self.new.ends ≡ vec_capacity self.old.ends) }
    {
        let Job {
            calls,
            work,
            outcome,
        } = job;
        self.passes.push_reserved(calls.into_pass());
        self.outcomes.push_reserved(outcome);
        if let Work::Script(ends) = work {
            self.ends.push_reserved(ends);
        }
    }

    /// Adds what these jobs leave, in order. `self` must be empty, with memory reserved for them.
    pub(crate) fn end_all(&mut self, jobs: Vec<Job<'_, N, E>>)
        requires none { (self.old.passes.items ≡ []) × (self.old.outcomes.items ≡ []) × (self.old.ends.items ≡ []) }
        requires room { (length jobs.items ≤ vec_capacity self.old.passes) × (length jobs.items ≤ vec_capacity self.old.outcomes)
            × (length jobs.items ≤ vec_capacity self.old.ends) }
        ensures passes { self.new.passes.items ≡ map (λ job. job.calls.pass) jobs.entry.items }
        ensures outcomes { self.new.outcomes.items ≡ map (λ job. job.outcome) jobs.entry.items }
        ensures ends { self.new.ends.items ≡ ends_in (map (λ job. job.work) jobs.entry.items) }
    {
        for job in jobs {
            self.end_one(job);
        }
    }
}
