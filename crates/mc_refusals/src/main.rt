//! Calls that take memory, each under a name. A run makes the call of each case, notes what it leaves, and prints what came of it.
//! With the word NAME it makes only that call. `scripts/refused_growths` refuses the memory that the call asks for, a growth at a
//! time. Around the call stand two allocations of 777,777 and 777,778 bytes, between which the script counts growths.
//!
//! On a stripe and classes the call is made twice: once unmarked, so that nothing of it is refused, and once marked.
//! `made`: the call did without, or nothing was refused. Histories, items, lists and limits are those of the unmarked call.
//! `refused, as before`: all of these are as before the call, or the call only lends what there is. `refused, 2 events`: a call
//! that makes several events made the first two, so that the histories begin those of the unmarked call, and no command of its
//! turn was answered. `refused, for good`: a reader, which refuses each later call too. `refused, changed` and `not made` mean
//! that something is wrong: the histories differ, or the call failed for another reason than memory.
#![tactic(auto)]

mod acts;
mod asking;
mod cases;
mod classes;
mod configuring;
mod copies;
mod end;
mod forgetting;
mod judging;
mod marks;
mod noting;
mod plain;
mod readers;
mod stores;
mod sums;
mod walking;
mod worlds;

use cases::{Call, cases};
use end::{End, Outcome};
use marks::Marks;
use std::io;
use std::process::ExitCode;
use std::sync::Wait;

fn outcome_by(end: End) -> Outcome {
    match end {
        End::Made => Outcome::Made,
        End::Refused => Outcome::Same,
        End::Other => Outcome::Other,
    }
}

fn outcome_of(rt: &HostRuntime, wait: &impl Wait, call: Call) -> Option<Outcome> {
    let alloc = rt.alloc();
    let marks = Marks { alloc, on: true };
    match call {
        Call::Make(plain) => Some(outcome_by(plain::make(alloc, plain, marks))),
        Call::Value => Some(outcome_by(plain::value(alloc, marks))),
        Call::CopyKey => Some(outcome_by(copies::key(alloc, marks))),
        Call::CopyCommand => Some(outcome_by(copies::command(alloc, marks))),
        Call::Split => Some(outcome_by(copies::scripts(alloc, marks))),
        Call::FoundText => Some(outcome_by(plain::found_text(alloc, marks))),
        Call::OpenTokens => Some(outcome_by(plain::tokens(alloc, marks))),
        Call::OpenStore => Some(outcome_by(stores::open(rt, marks))),
        Call::Read(first, piece) => Some(readers::outcome_of(alloc, first, piece)),
        Call::World(before, act) => worlds::outcome_of(rt, before, act),
        Call::Shared(before, called) => stores::outcome_of(rt, wait, before, called),
    }
}

fn words_for(outcome: Option<Outcome>) -> &'static str {
    match outcome {
        Some(Outcome::Made) => "made",
        Some(Outcome::Same) => "refused, as before",
        Some(Outcome::Closed) => "refused, for good",
        Some(Outcome::Changed) => "refused, changed",
        _ => "not made",
    }
}

// Makes a case's call, and prints what came of it.
fn show(rt: &HostRuntime, wait: &impl Wait, name: &str, call: Call) -> io::Result<()> {
    let outcome = outcome_of(rt, wait, call);
    if let Some(Outcome::Begun(events)) = outcome {
        return println!(rt; "{name}: refused, {events} events");
    }
    println!(rt; "{name}: {}", words_for(outcome))
}

// Shows the case of this name, or all. It returns whether there is one.
fn show_named(rt: &HostRuntime, wait: &impl Wait, word: Option<&str>) -> io::Result<bool> {
    let mut found = false;
    for (name, call) in cases() {
        if word.is_none() || word == Some(*name) {
            show(rt, wait, *name, *call)?;
            found = true;
        }
    }
    Ok(found)
}

fn run(rt: &HostRuntime, wait: &impl Wait) -> io::Result<u8> {
    let mut words = std::env::args(rt)?;
    words.next();
    let Some(word) = words.next() else {
        show_named(rt, wait, None)?;
        return Ok(0);
    };
    if show_named(rt, wait, Some(word.as_str()))? {
        return Ok(0);
    }
    eprintln!(rt; "mc_refusals: there is no case {}", word.as_str())?;
    Ok(2)
}

fn main(rt: HostRuntime) -> ExitCode {
    match run(&rt, &rt) {
        Ok(status) => ExitCode::from(status),
        Err(_) => ExitCode::from(3),
    }
}
