//! Benchmarks of one layer alone. The first word on the command line names the load: `rt run -- lists` times class
//! lists, `rt run -- few` links of which few stay, `rt run -- reader` the reader of requests, `rt run -- long` a store that
//! answers a hundred million commands. Without a word it does nothing, so that a gate's run is short.
#![tactic(auto)]

mod lists;
mod long;
mod reader;

use std::io;
use std::sync::Wait;
use std::time::Instant;

// Prints a row: what was measured, of how many entries or in pieces of how many bytes, and the number.
fn print_row(rt: &HostRuntime, label: &str, of: u64, number: Option<u64>) -> io::Result<()> {
    match number {
        Some(number) => println!(rt; "{label} ({of}): {number}"),
        None => println!(rt; "{label} ({of}): a call failed"),
    }
}

// Nanoseconds a call since the first of so many.
fn nanos_each(rt: &HostRuntime, start: Instant, calls: u64) -> Option<u64> {
    let nanos = start.elapsed(rt).ok()?.as_nanos();
    u64::try_from(nanos.checked_div(u128::from(calls))?).ok()
}

// Runs the load of this name.
fn run(rt: &HostRuntime, wait: &impl Wait, word: &str) -> io::Result<()> {
    match word {
        "lists" => lists::time_all(rt),
        "few" => lists::time_few(rt),
        "reader" => reader::time_all(rt),
        "long" => long::time_long(rt, wait),
        _ => println!(rt; "the loads are: lists, few, reader, long"),
    }
}

fn main(rt: HostRuntime) -> io::Result<()> {
    let mut words = std::env::args(&rt)?;
    words.next();
    match words.next() {
        Some(word) => run(&rt, &rt, word.as_str()),
        None => Ok(()),
    }
}
