//! Reads and writes that fail at each place, under the program.
use super::faulty::{ERRORS, Fails, NOTHING, READ, run_faulty};
use super::{Wanted, asserts_ran, lines};
use std::alloc::Global;
use std::process::Abort;
use std::random::RandomSource;
use std::sync::Wait;
use std::thread::Threads;

static INPUT: &str = "set a 0 0 2|10|incr a 1|get a|bogus|";

static OUTPUT: &str = "STORED|11|VALUE a 0 2|11|END|ERROR|";

// A run of the program in which something fails.
#[derive(Clone, Copy)]
struct Faulty<'a> {
    words: &'a [&'a str],
    input: &'a [u8],
    fails: Fails,
}

fn check_place<R: Abort + RandomSource + Threads + Wait + Sync>(
    rt: &R,
    alloc: Global,
    faulty: &Faulty<'_>,
    wanted: &Wanted<'_>,
    place: usize,
) {
    let ran = run_faulty(rt, alloc, faulty.words, faulty.input, faulty.fails);
    asserts_ran(rt, &ran, wanted, place);
}

#[test]
fn a_read_that_fails_at_any_place_runs_nothing(rt: HostRuntime) {
    let input = lines(&rt, rt.alloc(), INPUT);
    for place in 0..input.len() {
        let faulty = Faulty {
            words: &["mcseg"],
            input: input.as_slice().split_at(place).0,
            fails: READ,
        };
        let wanted = Wanted {
            name: "a read that fails",
            status: 3,
            output: b"",
            errors: b"mcseg: input failed\n",
        };
        check_place(&rt, rt.alloc(), &faulty, &wanted, place);
    }
}

#[test]
fn a_write_that_fails_at_any_place_keeps_what_was_written(rt: HostRuntime) {
    let input = lines(&rt, rt.alloc(), INPUT);
    let output = lines(&rt, rt.alloc(), OUTPUT);
    for place in 0..output.len() {
        let faulty = Faulty {
            words: &["mcseg"],
            input: input.as_slice(),
            fails: Fails {
                output: place,
                ..NOTHING
            },
        };
        let wanted = Wanted {
            name: "a write that fails",
            status: 3,
            output: output.as_slice().split_at(place).0,
            errors: b"mcseg: output failed\n",
        };
        check_place(&rt, rt.alloc(), &faulty, &wanted, place);
    }
}

#[test]
fn an_output_that_just_fits_is_written(rt: HostRuntime) {
    let input = lines(&rt, rt.alloc(), INPUT);
    let output = lines(&rt, rt.alloc(), OUTPUT);
    let faulty = Faulty {
        words: &["mcseg"],
        input: input.as_slice(),
        fails: Fails {
            output: output.len(),
            ..ERRORS
        },
    };
    let wanted = Wanted {
        name: "an output that just fits",
        status: 0,
        output: output.as_slice(),
        errors: b"",
    };
    check_place(&rt, rt.alloc(), &faulty, &wanted, output.len());
}

#[test]
fn errors_that_fail_at_any_place_change_no_status(rt: HostRuntime) {
    let line = b"mcseg: bad configuration 7\n".as_slice();
    for place in 0..line.len() {
        let faulty = Faulty {
            words: &["mcseg", "--events", "15"],
            input: b"",
            fails: Fails {
                errors: place,
                ..NOTHING
            },
        };
        let wanted = Wanted {
            name: "errors that fail",
            status: 2,
            output: b"",
            errors: line.split_at(place).0,
        };
        check_place(&rt, rt.alloc(), &faulty, &wanted, place);
    }
}
