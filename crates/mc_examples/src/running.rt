//! Keys, a configuration, requests from two pieces of bytes, and a script that is run with a source and a sink of one's own.
ghost use Rattle.std.specs.Prelude.{IfOk};
ghost use Rattle.mc_item.specs.Config.{IsBounded};

use crate::no_memory;
use mc_driver::{Host, run_words};
use mc_item::{Config, ConfigFault, Key};
use mc_proto::{Keys, Limits, Reader, Request};
use std::alloc::Global;
use std::io::{self, Print, Write};
use std::sync::Wait;
use std::thread::Threads;

// Whether these bytes are a key, and what is wrong with them if not.
fn show_key(rt: &HostRuntime, bytes: &[u8]) -> io::Result<()> {
    match Key::of(rt.alloc(), bytes) {
        Ok(key) => println!(rt; "a key: length {}", key.bytes().len()),
        Err(fault) => println!(rt; "no key: {fault:?}"),
    }
}

// This configuration with so many events in a history, or what is wrong with it then.
fn with_events(config: Config, events: u64) -> Result<Config, ConfigFault>
    ensures { IfOk result IsBounded }
{
    let mut config = config;
    config.max_events = events;
    config.check()
}

// What a reader has to know of a configuration. That there is a last size is clause `bounded` of `Config::check`.
fn limits_of(config: &Config) -> Limits
    requires { IsBounded config.now }
{
    let sizes = config.sizes.as_slice();
    Limits {
        largest: sizes[sizes.len() - 1],
        classes: sizes.len() as u32,
    }
}

fn show_get(rt: &HostRuntime, keys: Keys, with_cas: bool) -> io::Result<()> {
    let count = match keys.into_one() {
        Ok(_) => 1,
        Err(keys) => keys.len(),
    };
    println!(rt; "  a get: keys {count}, cas numbers {with_cas}")
}

fn show_command(rt: &HostRuntime, key: &Key, quiet: bool) -> io::Result<()> {
    println!(rt;
        "  a command: key length {}, quiet {quiet}",
        key.bytes().len()
    )
}

fn show_request(rt: &HostRuntime, request: Request) -> io::Result<()> {
    match request {
        Request::Get { keys, with_cas } => show_get(rt, keys, with_cas),
        Request::Gat { keys, with_cas, .. } => show_get(rt, keys, with_cas),
        Request::One { command, quiet } => show_command(rt, command.key(), quiet),
        Request::Bad { why, quiet } => println!(rt; "  refused: {why:?}, quiet {quiet}"),
        _ => println!(rt; "  of the script itself"),
    }
}

fn show_all(rt: &HostRuntime, requests: Vec<Request>) -> io::Result<()> {
    println!(rt; "requests: {}", requests.len())?;
    for request in requests {
        show_request(rt, request)?;
    }
    Ok(())
}

fn show_piece(rt: &HostRuntime, reader: &mut Reader, piece: &[u8]) -> io::Result<()> {
    match reader.feed(piece) {
        Ok(requests) => show_all(rt, requests),
        Err(_) => Err(no_memory()),
    }
}

// Reads requests from two pieces, the first of which ends inside a block.
fn show_pieces(rt: &HostRuntime, reader: &mut Reader) -> io::Result<()> {
    show_piece(rt, reader, b"touch a 60\r\nset a 7 0 5\r\nhe")?;
    show_piece(rt, reader, b"llo\r\nget a b\r\nincr a x noreply\r\nge")
}

fn show_reader(rt: &HostRuntime, limits: Limits) -> io::Result<()> {
    let mut reader = Reader::new(rt.alloc(), limits);
    show_pieces(rt, &mut reader)?;
    println!(rt; "left over: {:?}", reader.end())
}

// Reads requests by the limits of the usual configuration with so many events, where that is sound.
fn show_config(rt: &HostRuntime, events: u64) -> io::Result<()> {
    let Ok(usual) = Config::usual(rt.alloc(), 1) else {
        return Err(no_memory());
    };
    match with_events(usual, events) {
        Ok(config) => show_reader(rt, limits_of(&config)),
        Err(fault) => println!(rt; "no configuration: {fault:?}"),
    }
}

/// Shows what needs no store: keys, configurations and requests.
pub(crate) fn show_parts(rt: &HostRuntime) -> io::Result<()> {
    show_key(rt, b"user:7")?;
    show_key(rt, b"user 7")?;
    show_config(rt, 8)?;
    show_config(rt, 64)
}

fn show_output(rt: &impl Print, output: &[u8], status: u8, errors: usize) -> io::Result<()> {
    io::writer(rt).write_all(output)?;
    println!(rt; "status {status}, {errors} bytes of errors")
}

/// Runs a script from bytes in memory, and shows its replies.
pub(crate) fn show_script<R: Threads + Wait + Sync + Print>(host: Host<'_, R>) -> io::Result<()> {
    let Host { rt, alloc, .. } = host;
    let mut input: &[u8] = b"set a 7 0 2\r\n99\r\nincr a 1\r\ngets a\r\nquit\r\n";
    let mut output = Vec::new(alloc);
    let mut errors = Vec::new(alloc);
    let words = ["mc_examples", "--events", "64"];
    let status = run_words(host, &words, &mut input, &mut output, &mut errors);
    show_output(rt, output.as_slice(), status, errors.len())
}
