//! Sources and sinks that fail at each place. A script prints just what the bytes before a failed read print, or just what
//! was taken before a failed write.
use super::examples::EXAMPLES;
use super::pieces::{ALL, Case, case_of, check_whole, run_one, same_outcome};
use super::runs::{Supply, WHOLE};
use super::{Example, classes, crawls, hits, joined, limits, lines, same_bytes};
use mc_driver::Outcome;
use std::alloc::Global;
use std::process::Abort;
use std::random::RandomSource;
use std::sync::Wait;
use std::thread::Threads;

// How a script ends whose read fails, if the bytes before end it so.
fn unread(begun: Outcome) -> Outcome {
    match begun {
        Outcome::Done => Outcome::Input,
        other => other,
    }
}

fn asserts_begins<R: Abort>(rt: &R, output: &[u8], case: &Case<'_>, place: usize) {
    assert!(rt;
        case.output.starts_with(output),
        "{}, at {place}",
        case.name
    );
}

// Asserts that a case whose read of this number fails prints just what the bytes before it print, of which there are so many.
fn check_read<R: Abort + RandomSource + Threads + Wait + Sync>(
    rt: &R,
    alloc: Global,
    case: &Case<'_>,
    supply: Supply<'_>,
    came: usize,
) {
    let front = case.input.split_at(came.min(case.input.len())).0;
    let begun = run_one(rt, alloc, case.words, front, WHOLE);
    let wanted = Case {
        outcome: unread(begun.outcome),
        output: begun.output.as_slice(),
        ..*case
    };
    check_whole(rt, alloc, &wanted, supply, came);
    asserts_begins(rt, begun.output.as_slice(), case, came);
}

// Does this for each read of pieces of this size, that of the end too.
fn check_reads<R: Abort + RandomSource + Threads + Wait + Sync>(
    rt: &R,
    alloc: Global,
    case: &Case<'_>,
    size: usize,
) {
    for read in 0..=case.input.len() {
        let came = read.saturating_mul(size);
        let supply = Supply {
            sizes: &[size],
            read: Some(read as u64),
            ..WHOLE
        };
        check_read(rt, alloc, case, supply, came);
        if came >= case.input.len() {
            break;
        }
    }
}

// Asserts that a case whose write of any number fails, of so many bytes each, prints just the bytes of the writes before.
fn check_writes<R: Abort + RandomSource + Threads + Wait + Sync>(
    rt: &R,
    alloc: Global,
    case: &Case<'_>,
    size: usize,
    takes_none: bool,
) {
    for write in 0..case.output.len() {
        let taken = write.saturating_mul(size);
        if taken >= case.output.len() {
            break;
        }
        let wanted = Case {
            outcome: Outcome::Output,
            output: case.output.split_at(taken).0,
            ..*case
        };
        let supply = Supply {
            taken: size,
            write: Some(write as u64),
            takes_none,
            ..WHOLE
        };
        check_whole(rt, alloc, &wanted, supply, write);
    }
}

// A sink that takes a whole text at a time, of a script in small pieces.
const TEXTS: Supply<'static> = Supply {
    sizes: &[7],
    at_once: true,
    ..WHOLE
};

// Asserts that a case of which the sink takes no more than so many texts prints just those.
fn check_texts<R: Abort + RandomSource + Threads + Wait + Sync>(
    rt: &R,
    alloc: Global,
    case: &Case<'_>,
) {
    let whole = run_one(rt, alloc, case.words, case.input, TEXTS);
    same_outcome(rt, whole.outcome, case, 0);
    same_bytes(rt, whole.output.as_slice(), case.output, case.name, 0);
    let mut taken = 0;
    for (write, after) in whole.writes.as_slice().iter().enumerate() {
        let wanted = Case {
            outcome: Outcome::Output,
            output: case.output.split_at(case.output.len().min(taken)).0,
            ..*case
        };
        let supply = Supply {
            write: Some(write as u64),
            ..TEXTS
        };
        check_whole(rt, alloc, &wanted, supply, write);
        taken = *after;
    }
}

// What is asserted of an example.
#[derive(Clone, Copy)]
enum Check {
    // Each read of pieces of this size fails in turn.
    Reads(usize),
    // Each write of so many bytes is refused in turn, and then takes none.
    Writes(usize),
    // Each whole text is refused in turn.
    Texts,
    // A write takes one byte.
    Bytes,
}

fn check_case<R: Abort + RandomSource + Threads + Wait + Sync>(
    rt: &R,
    alloc: Global,
    case: &Case<'_>,
    check: Check,
) {
    match check {
        Check::Reads(size) => check_reads(rt, alloc, case, size),
        Check::Writes(size) => {
            check_writes(rt, alloc, case, size, false);
            check_writes(rt, alloc, case, size, true);
        }
        Check::Texts => check_texts(rt, alloc, case),
        Check::Bytes => check_whole(rt, alloc, case, Supply { taken: 1, ..WHOLE }, 0),
    }
}

fn check_example<R: Abort + RandomSource + Threads + Wait + Sync>(
    rt: &R,
    alloc: Global,
    example: &Example,
    check: Check,
) {
    let input = lines(rt, alloc, example.input);
    let output = lines(rt, alloc, example.output);
    let case = case_of(example, input.as_slice(), output.as_slice());
    check_case(rt, alloc, &case, check);
}

fn check_all<R: Abort + RandomSource + Threads + Wait + Sync>(
    rt: &R,
    alloc: Global,
    examples: &[Example],
    check: Check,
) {
    for example in examples {
        check_example(rt, alloc, example, check);
    }
}

#[test]
fn a_read_that_fails_ends_the_script(rt: HostRuntime) {
    check_example(&rt, rt.alloc(), &ALL, Check::Reads(1));
    check_all(&rt, rt.alloc(), EXAMPLES.as_slice(), Check::Reads(7));
}

#[test]
fn a_write_that_fails_or_takes_nothing_ends_the_script(rt: HostRuntime) {
    check_example(&rt, rt.alloc(), &ALL, Check::Writes(1));
    check_all(&rt, rt.alloc(), EXAMPLES.as_slice(), Check::Writes(3));
}

#[test]
fn a_text_that_is_not_taken_ends_the_script(rt: HostRuntime) {
    check_example(&rt, rt.alloc(), &ALL, Check::Texts);
    check_all(&rt, rt.alloc(), EXAMPLES.as_slice(), Check::Texts);
}

#[test]
fn a_slow_sink_gets_the_whole_output(rt: HostRuntime) {
    check_example(&rt, rt.alloc(), &ALL, Check::Bytes);
    check_all(&rt, rt.alloc(), EXAMPLES.as_slice(), Check::Bytes);
    check_all(&rt, rt.alloc(), classes::EXAMPLES.as_slice(), Check::Bytes);
    check_all(&rt, rt.alloc(), crawls::EXAMPLES.as_slice(), Check::Bytes);
    check_all(&rt, rt.alloc(), hits::EXAMPLES.as_slice(), Check::Bytes);
    check_all(&rt, rt.alloc(), joined::EXAMPLES.as_slice(), Check::Bytes);
    check_all(&rt, rt.alloc(), limits::EXAMPLES.as_slice(), Check::Bytes);
}

// A script of which the second piece can't be read, how it ends, and what it prints.
static UNREAD: [(&str, Outcome, &str); 3] = [
    ("get a|quit  |get b|", Outcome::Done, "END|"),
    ("get a|%next |get b|", Outcome::Done, "END|"),
    ("get a|bogus |get b|", Outcome::Input, "END|ERROR|"),
];

fn check_unread<R: Abort + RandomSource + Threads + Wait + Sync>(
    rt: &R,
    alloc: Global,
    row: &(&str, Outcome, &str),
) {
    let input = lines(rt, alloc, row.0);
    let output = lines(rt, alloc, row.2);
    let case = Case {
        name: row.0,
        words: &["mcseg"],
        input: input.as_slice(),
        outcome: row.1,
        output: output.as_slice(),
    };
    let supply = Supply {
        sizes: &[15],
        read: Some(1),
        ..WHOLE
    };
    check_whole(rt, alloc, &case, supply, 1);
}

// A read that would fail isn't asked for behind what ends the script. Without it the same read fails the script.
#[test]
fn a_read_behind_the_end_is_not_asked(rt: HostRuntime) {
    for row in UNREAD.as_slice() {
        check_unread(&rt, rt.alloc(), row);
    }
}
