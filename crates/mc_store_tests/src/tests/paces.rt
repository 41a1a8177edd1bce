//! The paces at which threads go on by a drawn schedule, and one that watches that they do.
ghost use Rattle.std.specs.Prelude.{◌≡◌, ◌<◌};

use mc_item::StripeNo;
use mc_store::{Named, Store};
use mc_testing::Dice;
use std::process::Abort;
use std::sync::Wait;
use std::sync::atomic::{AtomicU64, Ordering};
use std::thread;

/// So many callers make commands.
pub(super) const PLAYERS: u32 = 4;

/// Of so many callers behind them one juggles, one crawls, one sets limits, and the last one watches that all go on.
pub(super) const CALLERS: u32 = PLAYERS + 4;

// Whoever holds a stripe yields so many turns at most.
const TURNS: u64 = 200;

// Threads of which none ends a call in so many turns of the watching one wait for each other.
const IDLE: u64 = 20_000_000;

/// What threads tell each other: the schedule's seed, how many calls have ended, how many players have, and how many threads.
#[derive(Drop)]
pub(super) struct Signs {
    pub(super) seed: u64,
    pub(super) calls: AtomicU64,
    pub(super) played: AtomicU64,
    pub(super) ended: AtomicU64,
}

// How a thread goes on: after one call of so many it pauses, and yields fewer turns than so many; after one of so many it holds a
// stripe. It never does what has a 0.
#[derive(Clone, Copy)]
struct Pace {
    pauses: u64,
    turns: u64,
    holds: u64,
}

static PACES: [Pace; 5] = [
    Pace {
        pauses: 0,
        turns: 1,
        holds: 0,
    },
    Pace {
        pauses: 2,
        turns: 4,
        holds: 0,
    },
    Pace {
        pauses: 20,
        turns: 500,
        holds: 0,
    },
    Pace {
        pauses: 4,
        turns: 8,
        holds: 6,
    },
    Pace {
        pauses: 0,
        turns: 1,
        holds: 3,
    },
];

/// A thread's dice and pace.
#[derive(Drop)]
pub(super) struct Hand {
    pub(super) dice: Dice,
    pace: Pace,
}

/// The dice and the pace that a schedule draws for a caller.
pub(super) fn hand_of(seed: u64, caller: u32) -> Hand {
    let own = seed.wrapping_mul(u64::from(CALLERS));
    let mut dice = Dice::new(own.wrapping_add(u64::from(caller)));
    let pace = PACES[dice.below(5) as usize];
    Hand { dice, pace }
}

// Yields so many turns.
fn pause(turns: u64) {
    for _ in 0..turns {
        thread::yield_now();
    }
}

// Yields until three calls more have ended, or for so many turns.
fn wait_for_calls(calls: &AtomicU64) {
    let until = calls.load(Ordering::SeqCst).wrapping_add(3);
    for _ in 0..TURNS {
        if calls.load(Ordering::SeqCst) >= until {
            break;
        }
        thread::yield_now();
    }
}

// Whether what comes once in so many times is drawn.
fn is_drawn(dice: &mut Dice, many: u64) -> bool {
    many > 0 && dice.below(many) == 0
}

// Holds a stripe while others go on.
fn hold<N: Named>(rt: &impl Wait, store: &Store<N>, signs: &Signs, stripe: u32)
    requires { (N.config.stripes ≡ 4) × (stripe < 4) }
{
    store.visit_stripe(rt, StripeNo(stripe), |_state| wait_for_calls(&signs.calls));
}

/// Says that a call has ended, and goes on at the thread's pace.
pub(super) fn go_on<N: Named, R: Wait>(rt: &R, store: &Store<N>, hand: &mut Hand, signs: &Signs)
    requires { N.config.stripes ≡ 4 }
{
    signs.calls.fetch_add(1, Ordering::SeqCst);
    if is_drawn(&mut hand.dice, hand.pace.pauses) {
        let turns = hand.dice.below(hand.pace.turns.max(1));
        pause(turns);
    }
    if is_drawn(&mut hand.dice, hand.pace.holds) {
        let stripe = hand.dice.below(4) as u32;
        hold(rt, store, signs, stripe);
    }
}

/// Ends the test where the other threads wait for each other.
pub(super) fn watch<R: Abort>(rt: &R, signs: &Signs) {
    let (mut calls, mut idle) = (0, 0u64);
    for _ in 0..u64::MAX {
        if signs.ended.load(Ordering::SeqCst) == u64::from(CALLERS - 1) {
            break;
        }
        let now = signs.calls.load(Ordering::SeqCst);
        idle = if now == calls {
            idle.wrapping_add(1)
        } else {
            0
        };
        calls = now;
        assert!(rt; idle < IDLE, "no call ends: seed {}", signs.seed);
        thread::yield_now();
    }
}
