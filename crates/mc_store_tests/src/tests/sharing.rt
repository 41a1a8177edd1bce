//! Threads that share a store: what each does with its pass, and the store before and afterwards.
ghost use Rattle.std.specs.Prelude.{◌≡◌, length};
ghost use Rattle.mc_store.specs.Opening.{AreParts};

use super::opening::{Parts, Shape, compare_all, last_of, opened, parts_for, shape_of};
use super::running::{Row, check_rows};
use super::{asking, cas_loops, checker, counters, figures, playing, watching};
use mc_item::{Command, Config, Reply};
use mc_store::{Final, Named, Pass, Store};
use std::alloc::Global;
use std::marker::Brand;
use std::process::Abort;
use std::random::RandomSource;
use std::sync::Wait;
use std::sync::atomic::AtomicU64;
use std::thread;
use std::thread::Threads;

/// A command that a thread made, what it was answered, and whether that was found again.
#[derive(Drop)]
pub(super) struct Call {
    pub(super) command: Command,
    pub(super) moment: u32,
    pub(super) reply: Reply,
    pub(super) found: bool,
}

/// A thread's pass, the calls that it made, and the figures that it read.
#[derive(Drop)]
pub(super) struct Work<N: Named> {
    pub(super) pass: Pass<N>,
    pub(super) calls: Vec<Call>,
    pub(super) reads: watching::Reads,
}

/// What the threads do.
#[derive(Clone, Copy)]
pub(super) enum Task {
    /// They add to the numbers of these keys.
    Count(&'static [u8]),
    /// They add to a number by reading it and a cas.
    Cas,
    /// They make what is drawn by a seed, and the last four juggle, crawl, set limits and read figures.
    Play(u64),
    /// The first reads figures, and the others write meanwhile.
    Read,
}

/// What the threads do, and how many of them have ended.
#[derive(Drop)]
pub(super) struct Job {
    pub(super) task: Task,
    pub(super) ended: AtomicU64,
}

/// Makes a call, and notes what it is answered.
pub(super) fn make_call<N: Named, R: Abort + Wait>(
    rt: &R,
    alloc: Global,
    store: &Store<N>,
    work: &mut Work<N>,
    command: Command,
    moment: u32,
) {
    let given = command.copy(alloc).expect(rt, "a copy");
    let reply = asking::answer(rt, alloc, store, &mut work.pass, given, moment);
    let call = Call {
        command,
        moment,
        reply,
        found: false,
    };
    work.calls.push(call).ok().expect(rt, "room for a call");
}

// What a thread does.
fn do_job<N: Named, R: Abort + Wait>(
    rt: &R,
    alloc: Global,
    store: &Store<N>,
    work: &mut Work<N>,
    job: &Job,
)
    requires { length N.config.sizes ≡ 2 }
{
    match job.task {
        Task::Count(letters) => counters::count(rt, alloc, store, work, letters),
        Task::Cas => cas_loops::add_all(rt, alloc, store, work),
        Task::Play(seed) => playing::play(rt, alloc, store, work, seed, &job.ended),
        Task::Read => figures::work(rt, alloc, store, &mut work.pass, &job.ended),
    }
}

// What a thread does with its pass, and all that it made.
fn work_with<N: Named, R: Abort + Wait>(
    rt: &R,
    alloc: Global,
    store: &Store<N>,
    pass: Pass<N>,
    job: &Job,
) -> Work<N>
    requires { length N.config.sizes ≡ 2 }
{
    let mut work = Work {
        pass,
        calls: Vec::new(alloc),
        reads: watching::Reads::new(alloc),
    };
    do_job(rt, alloc, store, &mut work, job);
    work
}

// A thread for each pass.
fn at_once<N: Named + Send + Sync, R: Threads + Abort + Wait + Sync>(
    rt: &R,
    alloc: Global,
    store: &Store<N>,
    passes: Vec<Pass<N>>,
    job: &Job,
) -> Vec<Work<N>>
    requires { length N.config.sizes ≡ 2 }
{
    thread::map_vec(rt, passes, &|own| work_with(rt, alloc, store, own, job)).expect(
        rt,
        "room for threads",
    )
}

// Lets the first two passes meet.
fn meet<N: Named, R: Abort>(rt: &R, store: &Store<N>, works: &mut Vec<Work<N>>) {
    let (first, others) = works
        .as_mut_slice()
        .split_first_mut()
        .expect(rt, "a thread");
    let second = others.first_mut().expect(rt, "a second thread");
    store.meet(&mut first.pass, &mut second.pass);
}

/// Compares the threads' passes with the closed store.
pub(super) fn compare_works<N: Named>(ledger: &mut Final, works: &mut Vec<Work<N>>)
    requires { ledger.old.board ≡ N.board.table }
    ensures { ledger.new ≡ ledger.old }
{
    for work in works.as_mut_slice() {
        ledger.compare(&mut work.pass);
    }
}

/// Takes out the threads' calls.
pub(super) fn calls_of<N: Named, R: Abort>(
    rt: &R,
    alloc: Global,
    works: &mut Vec<Work<N>>,
) -> Vec<Vec<Call>> {
    let mut all = Vec::new(alloc);
    for work in works.as_mut_slice() {
        let calls = std::mem::replace(&mut work.calls, Vec::new(alloc));
        all.push(calls).ok().expect(rt, "room for calls");
    }
    all
}

// Ends the test where the threads' calls aren't what their task asks for.
fn check_calls<R: Abort>(
    rt: &R,
    alloc: Global,
    ledger: &Final,
    stripes: u32,
    threads: &mut Vec<Vec<Call>>,
    task: Task,
)
    requires stripes { length ledger.now.stripes ≡ stripes }
    requires classes { length ledger.now.classes ≡ 2 }
{
    match task {
        Task::Count(letters) => counters::check_counts(rt, alloc, threads, letters),
        Task::Cas => cas_loops::check_added(rt, threads),
        Task::Play(_) => checker::check_played(rt, alloc, ledger, stripes, threads),
        Task::Read => (),
    }
}

// Ends the test where the last thread played, and the figures that it read aren't those of a replay.
fn check_reads<N: Named, R: Abort>(
    rt: &R,
    alloc: Global,
    ledger: &Final,
    works: &Vec<Work<N>>,
    task: Task,
)
    requires { length ledger.now.classes ≡ 2 }
{
    if let Task::Play(_) = task {
        let reader = works.as_slice().last().expect(rt, "a reader");
        watching::check_reads(rt, alloc, ledger, &reader.reads, checker::CHUNKS);
    }
}

// What the last caller does before the threads start, and once they have ended.
#[derive(Clone, Copy)]
struct Rows<'a> {
    before: &'a [Row],
    behind: &'a [Row],
}

// A caller makes the rows before, a thread of each other caller does its job, and the caller makes the rows behind. Then the
// store is closed and held against all passes.
fn share_store<N: Named + Send + Sync, R: Threads + Abort + Wait + Sync>(
    rt: &R,
    alloc: Global,
    parts: Parts,
    shape: Shape,
    job: &Job,
    rows: Rows<'_>,
)
    requires named { (parts.tokens.board ≡ N.board) × (parts.config ≡ N.config) × (parts.tokens.queues ≡ N.queues) }
    requires fit { AreParts N.board N.config N.queues parts.tokens }
    requires shape { (N.config.stripes ≡ shape.stripes) × (length N.config.sizes ≡ shape.classes) }
    requires two { shape.classes ≡ 2 }
{
    let (store, mut passes) = opened::<N, R>(rt, alloc, parts);
    let mut own = last_of(rt, alloc, &mut passes);
    check_rows(rt, alloc, &store, &mut own, shape, rows.before);
    let mut works = at_once(rt, alloc, &store, passes, job);
    check_rows(rt, alloc, &store, &mut own, shape, rows.behind);
    meet(rt, &store, &mut works);
    let mut threads = calls_of(rt, alloc, &mut works);
    let mut ledger = store.close();
    compare_all(&mut ledger, &mut own);
    compare_works(&mut ledger, &mut works);
    check_calls(rt, alloc, &ledger, shape.stripes, &mut threads, job.task);
    check_reads(rt, alloc, &ledger, &works, job.task);
}

/// Ends the test where threads that share a new store of this configuration of two classes are answered otherwise than their
/// task and the rows ask for. The last caller makes the rows.
pub(super) fn share<R: Threads + Abort + Wait + RandomSource + Sync>(
    rt: &R,
    alloc: Global,
    config: Config,
    task: Task,
    before: &[Row],
    behind: &[Row],
)
    requires { length config.sizes ≡ 2 }
{
    let shape = shape_of(&config);
    let job = Job {
        task,
        ended: AtomicU64::new(0),
    };
    let parts = parts_for(rt, alloc, config);
    share_store::<Brand, R>(rt, alloc, parts, shape, &job, Rows { before, behind });
}
