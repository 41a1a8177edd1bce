//! What threads play on a shared store: some make drawn commands, one juggles its classes, one crawls them, one sets their limits
//! of chunks, and one reads their figures.
ghost use Rattle.std.specs.Prelude.{◌≡◌, ◌<◌, length};

use super::asking;
use super::sharing::{Work, make_call};
use super::watching::watch;
use mc_item::ClassNo;
use mc_store::{Named, Pass, Store};
use mc_testing::Drawing;
use std::alloc::Global;
use std::process::Abort;
use std::sync::Wait;
use std::sync::atomic::{AtomicU64, Ordering};
use std::thread;

/// So many callers make commands.
pub(super) const PLAYERS: u32 = 4;

/// Of so many callers behind them one juggles, one crawls, one sets limits, and one reads figures.
pub(super) const OTHERS: u32 = 4;

/// So many commands each of them makes.
pub(super) const COMMANDS: u64 = 2000;

/// All of these but the last give up after so many rounds, and so end in any case.
const ROUNDS: u32 = 20_000;

// What a caller does with both classes.
#[derive(Clone, Copy)]
enum Upkeep {
    Juggle,
    Crawl,
    // Limits of 4, 3, 2 and 1 chunks, and so on, for the first class, and of 1 and 2 for the second.
    Limit,
}

// Makes a drawn command, and notes the cas number that it shows.
fn play_one<N: Named, R: Abort + Wait>(
    rt: &R,
    alloc: Global,
    store: &Store<N>,
    work: &mut Work<N>,
    drawing: &mut Drawing,
) {
    let moment = drawing.moment();
    let command = drawing.command(alloc).expect(rt, "a command");
    make_call(rt, alloc, store, work, command, moment);
    let call = work.calls.as_slice().last().expect(rt, "a call");
    drawing.note(&call.command, &call.reply);
}

// Makes drawn commands, of which the moments go on slowly.
fn draw<N: Named, R: Abort + Wait>(
    rt: &R,
    alloc: Global,
    store: &Store<N>,
    work: &mut Work<N>,
    seed: u64,
) {
    let mut drawing = Drawing::new(seed);
    for _ in 0..COMMANDS {
        play_one(rt, alloc, store, work, &mut drawing);
    }
}

// Juggles or crawls both classes, at moments that go on, or sets their limits.
fn keep_up<N: Named, R: Abort + Wait>(
    rt: &R,
    alloc: Global,
    store: &Store<N>,
    pass: &mut Pass<N>,
    upkeep: Upkeep,
    round: u32,
)
    requires round { round < 20000 }
    requires classes { length N.config.sizes ≡ 2 }
{
    let moment = 1000 + round / 16;
    match upkeep {
        Upkeep::Juggle => {
            asking::juggle(rt, store, pass, ClassNo(1), moment);
            asking::juggle(rt, store, pass, ClassNo(2), moment);
        }
        Upkeep::Crawl => {
            asking::crawl(rt, alloc, store, pass, ClassNo(1), moment);
            asking::crawl(rt, alloc, store, pass, ClassNo(2), moment);
        }
        Upkeep::Limit => {
            asking::limit(rt, store, pass, ClassNo(1), u64::from(4 - round % 4));
            asking::limit(rt, store, pass, ClassNo(2), u64::from(1 + round % 2));
        }
    }
}

// Keeps both classes up until all players have ended.
fn tend<N: Named, R: Abort + Wait>(
    rt: &R,
    alloc: Global,
    store: &Store<N>,
    pass: &mut Pass<N>,
    upkeep: Upkeep,
    ended: &AtomicU64,
)
    requires { length N.config.sizes ≡ 2 }
{
    for round in 0..ROUNDS {
        keep_up(rt, alloc, store, pass, upkeep, round);
        if ended.load(Ordering::SeqCst) == u64::from(PLAYERS) {
            break;
        }
        thread::yield_now();
    }
}

/// What a thread does, by the number of its caller. Each player draws by a seed of its own.
pub(super) fn play<N: Named, R: Abort + Wait>(
    rt: &R,
    alloc: Global,
    store: &Store<N>,
    work: &mut Work<N>,
    seed: u64,
    ended: &AtomicU64,
)
    requires { length N.config.sizes ≡ 2 }
{
    let caller = work.pass.next_who().caller;
    if caller < PLAYERS {
        let own = seed.wrapping_mul(u64::from(PLAYERS));
        draw(rt, alloc, store, work, own.wrapping_add(u64::from(caller)));
        ended.fetch_add(1, Ordering::SeqCst);
        return;
    }
    match caller - PLAYERS {
        0 => tend(rt, alloc, store, &mut work.pass, Upkeep::Juggle, ended),
        1 => tend(rt, alloc, store, &mut work.pass, Upkeep::Crawl, ended),
        2 => tend(rt, alloc, store, &mut work.pass, Upkeep::Limit, ended),
        _ => watch(rt, store, work, ended),
    }
}
