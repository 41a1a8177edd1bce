//! Schedules that are drawn by a seed. Threads make commands, juggle, crawl and set limits, and each goes on at a pace of its own:
//! one never pauses, another pauses seldom and long, a third holds stripes' locks. Afterwards a plain memcached and plain classes
//! replay the histories, as for what threads play, and these tell what the threads met.
ghost use Rattle.std.specs.Prelude.{◌≡◌, ◌<◌, length};
ghost use Rattle.mc_store.specs.Opening.{AreParts};

use super::asking::{self, Ask, command_of};
use super::checker::{are_all_found, replay};
use super::class_checker::check_classes;
use super::meetings::{Met, asserts_met, count_met};
use super::opening::{Parts, opened, parts_for, two_classes};
use super::paces::{CALLERS, Hand, PLAYERS, Signs, go_on, hand_of, watch};
use super::sharing::{Work, calls_of, compare_works, make_call};
use super::watching::Reads;
use super::{SCHEDULES, SEED};
use mc_item::{ClassNo, Command, Verb};
use mc_store::{Named, Pass, Store};
use mc_testing::{Dice, Drawing};
use std::alloc::Global;
use std::marker::Brand;
use std::process::Abort;
use std::random::RandomSource;
use std::sync::Wait;
use std::sync::atomic::{AtomicU64, Ordering};
use std::thread;
use std::thread::Threads;

// So many commands each of them makes.
const COMMANDS: u64 = 150;

// Those who juggle, crawl and set limits give up after so many rounds, and so end in any case.
const ROUNDS: u32 = 4000;

/// A storage command on one of six keys: of one byte, for the first class, or of 40, for the second.
pub(super) fn aimed<R: Abort>(rt: &R, alloc: Global, dice: &mut Dice) -> Command {
    let letter = b'a' + dice.below(6) as u8;
    let text = if dice.below(2) == 0 {
        "1"
    } else {
        "xxxxxxxxxxxxxxxxxxxxxxxxxxxxxxxxxxxxxxxx"
    };
    let verb = if dice.below(3) == 0 {
        Verb::Replace
    } else {
        Verb::Set
    };
    command_of(rt, alloc, letter, Ask::Store(verb, 0, text), 0)
}

// Makes a command that is drawn in one of two ways.
fn play_one<N: Named, R: Abort + Wait>(
    rt: &R,
    alloc: Global,
    store: &Store<N>,
    work: &mut Work<N>,
    drawing: &mut Drawing,
    dice: &mut Dice,
) {
    let moment = drawing.moment();
    let command = if dice.below(2) == 0 {
        aimed(rt, alloc, dice)
    } else {
        drawing.command(alloc).expect(rt, "a command")
    };
    make_call(rt, alloc, store, work, command, moment);
    let call = work.calls.as_slice().last().expect(rt, "a call");
    drawing.note(&call.command, &call.reply);
}

// Makes commands at the thread's pace.
fn play<N: Named, R: Abort + Wait>(
    rt: &R,
    alloc: Global,
    store: &Store<N>,
    work: &mut Work<N>,
    hand: &mut Hand,
    signs: &Signs,
)
    requires { N.config.stripes ≡ 4 }
{
    let mut drawing = Drawing::new(hand.dice.below(1 << 31));
    for _ in 0..COMMANDS {
        play_one(rt, alloc, store, work, &mut drawing, &mut hand.dice);
        go_on(rt, store, hand, signs);
    }
    signs.played.fetch_add(1, Ordering::SeqCst);
}

// Juggles, crawls or limits one of the classes, by the number of the caller.
fn keep_up<N: Named, R: Abort + Wait>(
    rt: &R,
    alloc: Global,
    store: &Store<N>,
    pass: &mut Pass<N>,
    dice: &mut Dice,
    round: u32,
)
    requires { (length N.config.sizes ≡ 2) × (round < 4000) }
{
    let moment = 1000 + round / 16;
    let class = ClassNo(1 + dice.below(2) as u32);
    match pass.next_who().caller {
        4 => {
            asking::juggle(rt, store, pass, class, moment);
        }
        5 => {
            asking::crawl(rt, alloc, store, pass, class, moment);
        }
        _ => asking::limit(rt, store, pass, class, 1 + dice.below(4)),
    }
}

// Keeps the classes up at the thread's pace until all players have ended.
fn tend<N: Named, R: Abort + Wait>(
    rt: &R,
    alloc: Global,
    store: &Store<N>,
    work: &mut Work<N>,
    hand: &mut Hand,
    signs: &Signs,
)
    requires { (N.config.stripes ≡ 4) × (length N.config.sizes ≡ 2) }
{
    for round in 0..ROUNDS {
        if signs.played.load(Ordering::SeqCst) == u64::from(PLAYERS) {
            break;
        }
        keep_up(rt, alloc, store, &mut work.pass, &mut hand.dice, round);
        go_on(rt, store, hand, signs);
    }
}

// What a thread does with its pass, by the number of its caller, and all that it made.
fn work_with<N: Named, R: Abort + Wait>(
    rt: &R,
    alloc: Global,
    store: &Store<N>,
    pass: Pass<N>,
    signs: &Signs,
) -> Work<N>
    requires { (N.config.stripes ≡ 4) × (length N.config.sizes ≡ 2) }
{
    let caller = pass.next_who().caller;
    let mut hand = hand_of(signs.seed, caller);
    let mut work = Work {
        pass,
        calls: Vec::new(alloc),
        reads: Reads::new(alloc),
    };
    if caller < PLAYERS {
        play(rt, alloc, store, &mut work, &mut hand, signs);
    } else if caller < CALLERS - 1 {
        tend(rt, alloc, store, &mut work, &mut hand, signs);
    } else {
        watch(rt, signs);
    }
    signs.ended.fetch_add(1, Ordering::SeqCst);
    work
}

// A thread for each pass.
fn at_once<N: Named + Send + Sync, R: Threads + Abort + Wait + Sync>(
    rt: &R,
    alloc: Global,
    store: &Store<N>,
    passes: Vec<Pass<N>>,
    signs: &Signs,
) -> Vec<Work<N>>
    requires { (N.config.stripes ≡ 4) × (length N.config.sizes ≡ 2) }
{
    thread::map_vec(rt, passes, &|own| work_with(rt, alloc, store, own, signs)).expect(
        rt,
        "room for threads",
    )
}

// Threads go on by a schedule on a new store. Then it is closed, replayed, and held against their passes.
fn run_on<N: Named + Send + Sync, R: Threads + Abort + Wait + Sync>(
    rt: &R,
    alloc: Global,
    parts: Parts,
    signs: &Signs,
    chunks: [u64; 2],
    met: &mut Met,
)
    requires named { (parts.tokens.board ≡ N.board) × (parts.config ≡ N.config) × (parts.tokens.queues ≡ N.queues) }
    requires fit { AreParts N.board N.config N.queues parts.tokens }
    requires shape { (N.config.stripes ≡ 4) × (length N.config.sizes ≡ 2) }
{
    let (store, passes) = opened::<N, R>(rt, alloc, parts);
    let mut works = at_once(rt, alloc, &store, passes, signs);
    let mut threads = calls_of(rt, alloc, &mut works);
    let mut ledger = store.close();
    compare_works(&mut ledger, &mut works);
    replay(rt, alloc, &ledger, 4, &mut threads);
    check_classes(rt, alloc, &ledger, 4, chunks);
    are_all_found(rt, &threads);
    count_met(rt, &ledger, met);
}

// Draws a schedule by a seed, and notes what it met.
fn run<R: Threads + Abort + Wait + RandomSource + Sync>(
    rt: &R,
    alloc: Global,
    seed: u64,
    met: &mut Met,
) {
    let mut dice = Dice::new(seed);
    let chunks = [1 + dice.below(4), 1 + dice.below(2)];
    let signs = Signs {
        seed,
        calls: AtomicU64::new(0),
        played: AtomicU64::new(0),
        ended: AtomicU64::new(0),
    };
    let config = two_classes(rt, alloc, 4, chunks, CALLERS);
    let parts = parts_for(rt, alloc, config);
    run_on::<Brand, R>(rt, alloc, parts, &signs, chunks, met);
}

#[test]
fn threads_at_drawn_paces_are_answered_as_memcached_does(rt: HostRuntime) {
    let mut met = Met::none();
    for number in 0..SCHEDULES {
        let seed = SEED.wrapping_add(number);
        eprintln!(rt; "schedule of seed {seed}").expect(&rt, "an error stream");
        run(&rt, rt.alloc(), seed, &mut met);
    }
    asserts_met(&rt, met);
}
