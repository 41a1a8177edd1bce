//! Each beginning of a worked example's input, through the program: it ends well or as the example does, and what it prints
//! begins what the example prints. Scripts are printed one after the other, so those before the cut print all that they do.
use super::{
    Example, Ran, Wanted, add, add_lines, asserts_ran, classes, crawls, examples, hits, joined,
    limits, lines, pieces, run_program, scripts, stripes, words,
};
use std::alloc::Global;
use std::process::Abort;
use std::random::RandomSource;
use std::sync::Wait;
use std::thread::Threads;

fn asserts_begins<R: Abort>(rt: &R, ran: &Ran, whole: &Wanted<'_>, place: usize) {
    let ends = ran.status == whole.status;
    assert!(rt; ends || ran.status == 0, "{}, at {place}", whole.name);
    assert!(rt;
        whole.output.starts_with(ran.output.as_slice()),
        "{}, at {place}",
        whole.name
    );
    let errors: &[u8] = if ends { whole.errors } else { b"" };
    assert_eq!(rt; ran.errors.as_slice(), errors, "{}, at {place}", whole.name);
}

// Asserts this of each beginning of an input that has so many bytes, and that the whole input is answered as is wanted.
pub(super) fn check_beginnings<R: Abort + RandomSource + Threads + Wait + Sync>(
    rt: &R,
    alloc: Global,
    words: &[&str],
    input: &[u8],
    whole: &Wanted<'_>,
    bytes: usize,
) {
    for place in bytes..input.len() {
        let ran = run_program(rt, alloc, words, input.split_at(place).0);
        asserts_begins(rt, &ran, whole, place);
    }
    let ran = run_program(rt, alloc, words, input);
    asserts_ran(rt, &ran, whole, input.len());
}

fn check_example<R: Abort + RandomSource + Threads + Wait + Sync>(
    rt: &R,
    alloc: Global,
    example: &Example,
) {
    let input = lines(rt, alloc, example.input);
    let output = lines(rt, alloc, example.output);
    let whole = Wanted {
        name: example.name,
        status: example.status,
        output: output.as_slice(),
        errors: example.errors.as_bytes(),
    };
    check_beginnings(rt, alloc, example.words, input.as_slice(), &whole, 0);
}

fn check_all<R: Abort + RandomSource + Threads + Wait + Sync>(
    rt: &R,
    alloc: Global,
    examples: &[Example],
) {
    for example in examples {
        check_example(rt, alloc, example);
    }
}

#[test]
fn each_beginning_of_a_worked_example_prints_a_beginning(rt: HostRuntime) {
    let first = examples::EXAMPLES.as_slice().split_at(13).0;
    check_all(&rt, rt.alloc(), first);
}

#[test]
fn each_beginning_of_a_later_example_prints_a_beginning(rt: HostRuntime) {
    let later = examples::EXAMPLES.as_slice().split_at(13).1;
    check_all(&rt, rt.alloc(), later);
}

#[test]
fn each_beginning_of_several_scripts_prints_a_beginning(rt: HostRuntime) {
    check_example(&rt, rt.alloc(), &pieces::ALL);
    check_all(&rt, rt.alloc(), scripts::EXAMPLES.as_slice());
    check_all(&rt, rt.alloc(), stripes::EXAMPLES.as_slice());
    check_all(&rt, rt.alloc(), words::EXAMPLES.as_slice());
}

#[test]
fn each_beginning_of_a_script_on_full_classes_prints_a_beginning(rt: HostRuntime) {
    check_all(&rt, rt.alloc(), classes::EXAMPLES.as_slice());
    check_all(&rt, rt.alloc(), hits::EXAMPLES.as_slice());
}

#[test]
fn each_beginning_of_joins_and_crawls_prints_a_beginning(rt: HostRuntime) {
    check_all(&rt, rt.alloc(), crawls::EXAMPLES.as_slice());
    check_all(&rt, rt.alloc(), joined::EXAMPLES.as_slice());
}

#[test]
fn each_beginning_of_changed_limits_prints_a_beginning(rt: HostRuntime) {
    check_all(&rt, rt.alloc(), limits::EXAMPLES.as_slice());
}

// The requests of `pieces::ALL`, each with what it prints. A block that is too long is refused at its sixth byte.
static PARTS: [(&str, &str); 10] = [
    ("set a 7 0 5|hello|", "STORED|"),
    ("get a|", "VALUE a 7 5|hello|END|"),
    ("set b 0 0 2|10|", "STORED|"),
    ("decr b 1|", "9|"),
    ("gets a b|", "VALUE a 7 5 1|hello|VALUE b 0 2 3|9 |END|"),
    ("get|", "ERROR|"),
    ("set a 0 0 3|abcd\r", "CLIENT_ERROR bad data chunk|"),
    ("\n", "ERROR|"),
    ("delete b noreply|", ""),
    ("get b|", "END|"),
];

// What the requests print that end within so many bytes.
fn printed_within<R: Abort>(rt: &R, alloc: Global, bytes: usize) -> Vec<u8> {
    let mut output = Vec::new(alloc);
    let mut end = 0usize;
    for (request, replies) in PARTS.as_slice() {
        end = end.saturating_add(lines(rt, alloc, request).len());
        if end > bytes {
            break;
        }
        add_lines(rt, &mut output, replies);
    }
    output
}

#[test]
fn each_beginning_prints_the_replies_to_its_whole_requests(rt: HostRuntime) {
    let input = lines(&rt, rt.alloc(), pieces::ALL.input);
    for place in 0..=input.len() {
        let front = input.as_slice().split_at(place).0;
        let ran = run_program(&rt, rt.alloc(), pieces::ALL.words, front);
        let output = printed_within(&rt, rt.alloc(), place);
        let wanted = Wanted {
            name: "whole requests",
            status: 0,
            output: output.as_slice(),
            errors: b"",
        };
        asserts_ran(&rt, &ran, &wanted, place);
    }
}

// 300 bytes of 255 are no text, and a line like another.
#[test]
fn bytes_that_are_no_text_are_an_unknown_verb(rt: HostRuntime) {
    let mut input = Vec::new(rt.alloc());
    add(&rt, &mut input, &[255; 300]);
    add_lines(&rt, &mut input, "|get a|");
    let output = lines(&rt, rt.alloc(), "ERROR|END|");
    let whole = Wanted {
        name: "bytes that are no text",
        status: 0,
        output: output.as_slice(),
        errors: b"",
    };
    check_beginnings(&rt, rt.alloc(), &["mcseg"], input.as_slice(), &whole, 0);
}
