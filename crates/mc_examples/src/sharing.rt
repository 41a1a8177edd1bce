//! A store that threads share: two of them count visits, and a third caller reads.
ghost use Rattle.std.specs.Prelude.{◌≡◌, ◌<◌, IfSome, length};
ghost use Rattle.mc_store.specs.Opening.{AreParts};

use crate::no_memory;
use mc_board::{Busy, Figures};
use mc_item::{ClassNo, Command, Config, Fault, Key, NoMemory, Reply, Value, Verb};
use mc_store::{Named, Pass, Store, Tokens};
use std::alloc::Global;
use std::hash::RandomState;
use std::io::{self, Print, Write};
use std::marker::Brand;
use std::sync::Wait;
use std::thread::{self, Threads};

// What a store is opened with.
#[derive(Drop)]
struct Parts {
    config: Config,
    tokens: Tokens,
    seed: RandomState,
}

// What the reader was answered, and what it found in the slab class of its item.
#[derive(Drop)]
struct Read {
    reply: Reply,
    figures: Result<Figures, Busy>,
}

// The parts of a store of the usual configuration with three callers.
fn parts_for(alloc: Global, seed: RandomState) -> Option<Parts>
    ensures { IfSome result (λ p. AreParts p.tokens.board p.config p.tokens.queues p.tokens) }
{
    let config = Config::usual(alloc, 3).ok()?.check().ok()?;
    match Tokens::open(alloc, &config) {
        Ok(tokens) => Some(Parts {
            config,
            tokens,
            seed,
        }),
        Err(_) => None,
    }
}

fn page(alloc: Global) -> Result<Key, NoMemory> {
    match Key::of(alloc, b"page") {
        Ok(key) => Ok(key),
        Err(_) => Err(NoMemory),
    }
}

// A set of the page to no visits.
fn no_visits(alloc: Global) -> Result<Command, NoMemory> {
    let value = Value::of(alloc, Vec::from_slice(alloc, b"0")?)?;
    let key = page(alloc)?;
    Ok(Command::Store {
        verb: Verb::Set,
        key,
        flags: 0,
        exptime: 0,
        value,
    })
}

// Counts so many visits of the page, as one caller.
fn visit<N: Named>(
    rt: &impl Wait,
    alloc: Global,
    store: &Store<N>,
    pass: &mut Pass<N>,
    times: u32,
) -> Result<(), Fault> {
    for _ in 0..times {
        let command = Command::Incr(page(alloc)?, 1);
        store.command(alloc, rt, pass, command, 1000)?;
    }
    Ok(())
}

// One caller sets the page to no visits, and two others count them at once, each on a thread: what the first reads then.
fn visited<N: Named + Send + Sync, R: Threads + Wait + Sync>(
    rt: &R,
    alloc: Global,
    store: &Store<N>,
    reader: &mut Pass<N>,
    first: &mut Pass<N>,
    second: &mut Pass<N>,
) -> Result<Reply, Fault> {
    store.command(alloc, rt, reader, no_visits(alloc)?, 1000)?;
    let (one, other) = thread::join(
        rt,
        || visit(rt, alloc, store, first, 100),
        || visit(rt, alloc, store, second, 200),
    );
    one?;
    other?;
    store.command(alloc, rt, reader, Command::Get(page(alloc)?), 1000)
}

// Shares a store, reads the figures of its first class, closes it, and compares what each caller has seen with what is left.
fn closed<N: Named + Send + Sync, R: Threads + Wait + Sync>(
    rt: &R,
    alloc: Global,
    store: Store<N>,
    reader: Pass<N>,
    first: Pass<N>,
    second: Pass<N>,
) -> Result<Read, Fault>
    requires class { 0 < length N.config.sizes }
{
    let mut reader = reader;
    let mut first = first;
    let mut second = second;
    let reply = visited(rt, alloc, &store, &mut reader, &mut first, &mut second);
    let figures = store.figures(&mut reader, ClassNo(1));
    let mut ledger = store.close();
    ledger.compare(&mut reader);
    ledger.compare(&mut first);
    ledger.compare(&mut second);
    let reply = reply?;
    Ok(Read { reply, figures })
}

// Shares a store among three callers, who have a pass each.
fn with_passes<N: Named + Send + Sync, R: Threads + Wait + Sync>(
    rt: &R,
    alloc: Global,
    store: Store<N>,
    passes: Vec<Pass<N>>,
) -> Result<Read, Fault>
    requires class { 0 < length N.config.sizes }
{
    let mut passes = passes;
    match (passes.pop(), passes.pop(), passes.pop()) {
        (Some(reader), Some(second), Some(first)) => {
            closed(rt, alloc, store, reader, first, second)
        }
        _ => Err(Fault::NoMemory),
    }
}

// Opens a store, and shares it.
fn shared<N: Named + Send + Sync, R: Threads + Wait + Sync>(
    rt: &R,
    alloc: Global,
    parts: Parts,
) -> Result<Read, Fault>
    requires named { (parts.tokens.board ≡ N.board) × (parts.config ≡ N.config) × (parts.tokens.queues ≡ N.queues) }
    requires fit { AreParts N.board N.config N.queues parts.tokens }
{
    let Parts {
        config,
        tokens,
        seed,
    } = parts;
    match Store::<N>::open(alloc, config, tokens, seed) {
        Ok((store, passes)) => with_passes(rt, alloc, store, passes),
        Err(_) => Err(Fault::NoMemory),
    }
}

fn show_visits(rt: &impl Print, visits: &[u8]) -> io::Result<()> {
    io::writer(rt).write_all(visits)?;
    println!(rt; " visits")
}

fn show_reply(rt: &impl Print, reply: Reply) -> io::Result<()> {
    match reply {
        Reply::Value { value, .. } => show_visits(rt, value.bytes()),
        _ => println!(rt; "no visits"),
    }
}

fn show_numbers(rt: &impl Print, what: &str, numbers: [u64; 4]) -> io::Result<()> {
    let [hot, warm, cold, temp] = numbers;
    println!(rt; "{what}: HOT {hot}, WARM {warm}, COLD {cold}, TEMP {temp}")
}

fn show_figures(rt: &impl Print, figures: Figures) -> io::Result<()> {
    show_numbers(rt, "items", figures.counts)?;
    show_numbers(rt, "bytes", figures.bytes)
}

fn show_read(rt: &impl Print, read: Read) -> io::Result<()> {
    show_reply(rt, read.reply)?;
    match read.figures {
        Ok(figures) => show_figures(rt, figures),
        Err(_) => println!(rt; "the class was being changed"),
    }
}

fn show_outcome(rt: &impl Print, outcome: Result<Read, Fault>) -> io::Result<()> {
    match outcome {
        Ok(read) => show_read(rt, read),
        Err(fault) => println!(rt; "broken off: {fault:?}"),
    }
}

/// Opens a store, shares it, and shows how many visits were counted, and what the item's slab class has.
pub(crate) fn show<R: Threads + Wait + Sync + Print>(
    rt: &R,
    alloc: Global,
    seed: RandomState,
) -> io::Result<()> {
    match parts_for(alloc, seed) {
        Some(parts) => show_outcome(rt, shared::<Brand, R>(rt, alloc, parts)),
        None => Err(no_memory()),
    }
}
