//! The program `mcseg`: memcached's storage commands from standard input, and their replies on standard output.
#![tactic(auto)]

use mc_driver::{Host, run_words};
use std::fmt::Display;
use std::hash::RandomState;
use std::io::ErrorKind;
use std::process::ExitCode;
use std::{env, io};

fn words_of(rt: &HostRuntime) -> io::Result<Vec<String>> {
    Ok(env::args(rt)?.collect(rt.alloc())?)
}

// Prints a line on standard error, and returns the exit with this status. If printing fails, the status stays.
fn ended(rt: &HostRuntime, line: impl Display + Drop, status: u8) -> ExitCode {
    let _ = eprintln!(rt; "mcseg: {line}");
    ExitCode::from(status)
}

// The exit if the words of the command line can't be read or kept.
fn refused(rt: &HostRuntime, error: &io::Error) -> ExitCode {
    match error.kind() {
        ErrorKind::OutOfMemory => ended(rt, "out of memory", 1),
        ErrorKind::InvalidData => ended(rt, "a word of the command line is not UTF-8", 2),
        _ => ended(rt, format_args!("no words of the command line: {error}"), 3),
    }
}

fn main(rt: HostRuntime) -> ExitCode {
    let alloc = rt.alloc();
    let words = match words_of(&rt) {
        Ok(words) => words,
        Err(error) => return refused(&rt, &error),
    };
    let mut texts = Vec::new(alloc);
    for word in words.as_slice() {
        if let Err(error) = texts.push(word.as_str()) {
            return refused(&rt, &error.into());
        }
    }
    let seed = match RandomState::new(&rt) {
        Ok(seed) => seed,
        Err(error) => return ended(&rt, format_args!("no random numbers: {error}"), 3),
    };
    let host = Host {
        rt: &rt,
        alloc,
        seed,
    };
    let status = run_words(
        host,
        texts.as_slice(),
        &mut rt.stdin(),
        &mut rt.stdout(),
        &mut rt.stderr(),
    );
    ExitCode::from(status)
}
