//! Two scripts at once, of which one's sink fails.
use super::runs::{Ends, Supply, WHOLE, add_script, asserts_outcomes, config_of, run_of};
use super::{lines, same_bytes};
use mc_driver::Outcome;
use std::alloc::Global;
use std::process::Abort;
use std::random::RandomSource;
use std::sync::Wait;
use std::thread::Threads;

// Two scripts that share no key, and what they print.
static FIRST: (&str, &str) = (
    "set a 7 0 5|hello|get a|incr a 1|delete a|get a|",
    "STORED|VALUE a 7 5|hello|END|CLIENT_ERROR cannot increment or decrement non-numeric value|DELETED|END|",
);

static SECOND: (&str, &str) = (
    "set b 0 0 2|10|decr b 1|get b|touch c 0|",
    "STORED|9|VALUE b 0 2|9 |END|NOT_FOUND|",
);

// The sink of the script with this number takes three bytes a write, and fails at one.
fn supply_of(number: usize, failing: usize, write: usize) -> Supply<'static> {
    let write = if number == failing {
        Some(write as u64)
    } else {
        None
    };
    Supply {
        taken: 3,
        write,
        ..WHOLE
    }
}

fn outcome_of(number: usize, failing: usize) -> Outcome {
    if number == failing {
        Outcome::Output
    } else {
        Outcome::Done
    }
}

// Asserts that the failing sink took three bytes of each write before the one that failed, and the other sink all.
fn asserts_pair<R: Abort>(
    rt: &R,
    alloc: Global,
    ends: &[Ends<'_, R>],
    failing: usize,
    write: usize,
) {
    for (number, end) in ends.iter().enumerate() {
        let text = if number == 0 { FIRST.1 } else { SECOND.1 };
        let output = lines(rt, alloc, text);
        let taken = if number == failing {
            output.len().min(write.saturating_mul(3))
        } else {
            output.len()
        };
        let wanted = output.as_slice().split_at(taken).0;
        same_bytes(
            rt,
            end.1.little.bytes.as_slice(),
            wanted,
            "two scripts",
            write,
        );
    }
}

fn check_pair<R: Abort + RandomSource + Threads + Wait + Sync>(
    rt: &R,
    alloc: Global,
    failing: usize,
    write: usize,
) {
    let first = lines(rt, alloc, FIRST.0);
    let second = lines(rt, alloc, SECOND.0);
    let mut scripts = Vec::new(alloc);
    let supply = supply_of(0, failing, write);
    add_script(rt, alloc, &mut scripts, first.as_slice(), supply);
    let supply = supply_of(1, failing, write);
    add_script(rt, alloc, &mut scripts, second.as_slice(), supply);
    let config = config_of(rt, alloc, &["mcseg"]);
    let run = run_of(rt, alloc, config, scripts, &[]);
    let outcomes = [
        outcome_of(0, failing),
        outcome_of(1, failing),
        Outcome::Done,
        Outcome::Done,
    ];
    asserts_outcomes(rt, run.outcomes.as_slice(), outcomes.as_slice());
    asserts_pair(rt, alloc, run.ends.as_slice(), failing, write);
}

// The first script's output has 109 bytes, and the second's 44.
#[test]
fn a_write_that_fails_ends_its_own_script_alone(rt: HostRuntime) {
    for write in 0..37 {
        check_pair(&rt, rt.alloc(), 0, write);
    }
    for write in 0..15 {
        check_pair(&rt, rt.alloc(), 1, write);
    }
}
