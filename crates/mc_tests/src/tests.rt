//! What the tests run: the program over bytes in memory, and a script over pieces.
mod asking;
mod at_once;
mod beginnings;
mod classes;
mod conversations;
mod crawls;
mod drawing;
mod drawn;
mod examples;
mod failing;
mod failures;
mod faulty;
mod histories;
mod hits;
mod joined;
mod let_go;
mod limits;
mod long;
mod pieces;
mod places;
mod promptness;
mod runs;
mod scripts;
mod stripes;
mod supplies;
mod two_sinks;
mod upkeep;
mod words;

use mc_driver::{Host, run_words};
use std::alloc::Global;
use std::hash::RandomState;
use std::process::Abort;
use std::random::RandomSource;
use std::sync::Wait;
use std::thread::Threads;

// A run of the program: its name, the words, the input, and what is wanted of the output, the status and the errors.
struct Example {
    name: &'static str,
    words: &'static [&'static str],
    input: &'static str,
    output: &'static str,
    status: u8,
    errors: &'static str,
}

// The seed of the scripts that are drawn.
const SEED: u64 = 20_260_101;

// Adds bytes to others.
fn add<R: Abort>(rt: &R, bytes: &mut Vec<u8>, more: &[u8]) {
    bytes.extend_from_slice(more).expect(rt, "memory");
}

// Adds a text in which a bar stands for CR LF.
fn add_lines<R: Abort>(rt: &R, bytes: &mut Vec<u8>, text: &str) {
    for byte in text.as_bytes() {
        if *byte == b'|' {
            add(rt, bytes, b"\r\n");
        } else {
            add(rt, bytes, &[*byte]);
        }
    }
}

// The bytes of a text in which a bar stands for CR LF.
fn lines<R: Abort>(rt: &R, alloc: Global, text: &str) -> Vec<u8> {
    let mut bytes = Vec::new(alloc);
    add_lines(rt, &mut bytes, text);
    bytes
}

// A host with a new seed.
fn host_of<R: Abort + RandomSource>(rt: &R, alloc: Global) -> Host<'_, R> {
    let seed = RandomState::new(rt).expect(rt, "random numbers");
    Host { rt, alloc, seed }
}

// What the program answered, printed and said on standard error.
#[derive(Drop)]
struct Ran {
    status: u8,
    output: Vec<u8>,
    errors: Vec<u8>,
}

// The program on these words and this input.
fn run_program<R: Abort + RandomSource + Threads + Wait + Sync>(
    rt: &R,
    alloc: Global,
    words: &[&str],
    input: &[u8],
) -> Ran {
    let mut reader = input;
    let mut output = Vec::new(alloc);
    let mut errors = Vec::new(alloc);
    let status = run_words(
        host_of(rt, alloc),
        words,
        &mut reader,
        &mut output,
        &mut errors,
    );
    Ran {
        status,
        output,
        errors,
    }
}

// What is wanted of a run of the program.
#[derive(Clone, Copy)]
struct Wanted<'a> {
    name: &'a str,
    status: u8,
    output: &'a [u8],
    errors: &'a [u8],
}

fn same_bytes<R: Abort>(rt: &R, got: &[u8], wanted: &[u8], name: &str, place: usize) {
    assert_eq!(rt; got, wanted, "{name}, at {place}");
}

fn same_status<R: Abort>(rt: &R, got: u8, wanted: u8, name: &str, place: usize) {
    assert_eq!(rt; got, wanted, "{name}, at {place}");
}

// Asserts that a run is as wanted; a place tells it from others of its name.
fn asserts_ran<R: Abort>(rt: &R, ran: &Ran, wanted: &Wanted<'_>, place: usize) {
    same_bytes(rt, ran.output.as_slice(), wanted.output, wanted.name, place);
    same_status(rt, ran.status, wanted.status, wanted.name, place);
    same_bytes(rt, ran.errors.as_slice(), wanted.errors, wanted.name, place);
}

// The program answers what an example wants.
fn holds<R: Abort + RandomSource + Threads + Wait + Sync>(
    rt: &R,
    alloc: Global,
    example: &Example,
) {
    let input = lines(rt, alloc, example.input);
    let output = lines(rt, alloc, example.output);
    let ran = run_program(rt, alloc, example.words, input.as_slice());
    let wanted = Wanted {
        name: example.name,
        status: example.status,
        output: output.as_slice(),
        errors: example.errors.as_bytes(),
    };
    asserts_ran(rt, &ran, &wanted, 0);
}

fn all_hold<R: Abort + RandomSource + Threads + Wait + Sync>(
    rt: &R,
    alloc: Global,
    examples: &[Example],
) {
    for example in examples {
        holds(rt, alloc, example);
    }
}
