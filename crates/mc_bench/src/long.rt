//! Many commands on one store that lets its events go, and the memory that it takes.
ghost use Rattle.std.specs.Prelude.{◌≡◌, IfSome};
ghost use Rattle.mc_item.specs.Config.{IsBounded, IsSound};
ghost use Rattle.mc_store.specs.Opening.{AreParts};

use crate::lists::peak;
use crate::{nanos_each, print_row};
use mc_item::{Command, Config, Fault, Key, NoMemory, Numbers, Value, Verb};
use mc_store::{Named, Pass, Store, Tokens};
use std::alloc::Global;
use std::hash::RandomState;
use std::io;
use std::marker::Brand;
use std::ops::Range;
use std::sync::Wait;
use std::time::Instant;

#[derive(Clone, Copy)]
enum Load {
    Get,
    Miss,
    Set,
    Anew,
    Evict,
}

// The loads, and what a row says of each.
static LOADS: [(Load, &str); 5] = [
    (Load::Get, "ns a get"),
    (Load::Miss, "ns a get of an absent key"),
    (Load::Set, "ns a set"),
    (Load::Anew, "ns a delete, or a set of its key"),
    (Load::Evict, "ns a set that evicts"),
];

// A row is printed after so many commands of a load.
static ROWS: [u64; 4] = [100_000, 1_000_000, 10_000_000, 100_000_000];

// So many keys are got or set, one after the other.
const KEYS: u64 = 10_000;

// So many keys are set where one evicts another.
const MANY_KEYS: u64 = 400_000;

// One stripe, one class with two chunks for each key that is got or set, one caller, and histories of the greatest length.
fn config_of(alloc: Global) -> Option<Config>
    ensures sound { IfSome result IsSound }
    ensures bounded { IfSome result IsBounded }
{
    let sizes = Numbers::from_vec(Vec::from_slice(alloc, &[240]).ok()?);
    let chunks = Numbers::from_vec(Vec::from_slice(alloc, &[2 * KEYS]).ok()?);
    let usual = Config::usual(alloc, 1).ok()?;
    let config = Config {
        sizes,
        chunks,
        max_events: 1 << 32,
        keeps_events: false,
        ..usual
    };
    match config.check() {
        Ok(config) => Some(config),
        Err(_) => None,
    }
}

fn key_of(alloc: Global, number: u64) -> Result<Key, NoMemory> {
    let text = format!(in alloc; "key{number}")?;
    match Key::of(alloc, text.as_str().as_bytes()) {
        Ok(key) => Ok(key),
        Err(_) => Err(NoMemory),
    }
}

// A set of a key to 100 bytes.
fn set_of(alloc: Global, number: u64) -> Result<Command, NoMemory> {
    let value = Value::of(alloc, Vec::from_slice(alloc, &[b'v'; 100])?)?;
    Ok(Command::Store {
        verb: Verb::Set,
        key: key_of(alloc, number)?,
        flags: 0,
        exptime: 0,
        value,
    })
}

fn command_of(alloc: Global, load: Load, turn: u64) -> Result<Command, NoMemory> {
    match load {
        Load::Get => Ok(Command::Get(key_of(alloc, turn % KEYS)?)),
        Load::Miss => Ok(Command::Get(key_of(alloc, MANY_KEYS + turn % KEYS)?)),
        Load::Set => set_of(alloc, turn % KEYS),
        Load::Anew if turn % 2 == 0 => Ok(Command::Delete(key_of(alloc, turn / 2 % KEYS)?)),
        Load::Anew => set_of(alloc, turn / 2 % KEYS),
        Load::Evict => set_of(alloc, turn % MANY_KEYS),
    }
}

// Makes a load's commands of these turns.
fn make<N: Named>(
    wait: &impl Wait,
    alloc: Global,
    store: &Store<N>,
    pass: &mut Pass<N>,
    load: Load,
    turns: Range<u64>,
) -> Result<(), Fault> {
    for turn in turns {
        let command = command_of(alloc, load, turn)?;
        store.command(alloc, wait, pass, command, 1000)?;
    }
    Ok(())
}

// Nanoseconds a command.
fn time<N: Named>(
    rt: &HostRuntime,
    wait: &impl Wait,
    store: &Store<N>,
    pass: &mut Pass<N>,
    load: Load,
    turns: Range<u64>,
) -> Option<u64> {
    let many = turns.end.saturating_sub(turns.start);
    let start = Instant::now(rt).ok()?;
    make(wait, rt.alloc(), store, pass, load, turns).ok()?;
    nanos_each(rt, start, many)
}

// Makes a load's commands, and prints what one took between two rows and the most memory so far.
fn time_load<N: Named>(
    rt: &HostRuntime,
    wait: &impl Wait,
    store: &Store<N>,
    pass: &mut Pass<N>,
    load: (Load, &str),
) -> io::Result<()> {
    let mut from = 0;
    for to in ROWS.as_slice() {
        print_row(
            rt,
            load.1,
            *to,
            time(rt, wait, store, pass, load.0, from..*to),
        )?;
        print_row(rt, "kilobytes at the peak", *to, peak(rt))?;
        from = *to;
    }
    Ok(())
}

// What a store is opened with.
#[derive(Drop)]
struct Parts {
    config: Config,
    tokens: Tokens,
    seed: RandomState,
}

// Opens a store, sets each key, and then makes each load's commands.
fn run<N: Named>(rt: &HostRuntime, wait: &impl Wait, parts: Parts) -> io::Result<()>
    requires named { (parts.tokens.board ≡ N.board) × (parts.config ≡ N.config) × (parts.tokens.queues ≡ N.queues) }
    requires fit { AreParts N.board N.config N.queues parts.tokens }
{
    let Parts {
        config,
        tokens,
        seed,
    } = parts;
    let Ok((store, mut passes)) = Store::<N>::open(rt.alloc(), config, tokens, seed) else {
        return println!(rt; "no memory");
    };
    let Some(mut pass) = passes.pop() else {
        return println!(rt; "no caller");
    };
    if make(wait, rt.alloc(), &store, &mut pass, Load::Set, 0..KEYS).is_err() {
        return println!(rt; "a set failed");
    }
    for load in LOADS.as_slice() {
        time_load(rt, wait, &store, &mut pass, *load)?;
    }
    Ok(())
}

/// Times a hundred million commands of each load.
pub(crate) fn time_long(rt: &HostRuntime, wait: &impl Wait) -> io::Result<()> {
    let seed = RandomState::new(rt)?;
    let Some(config) = config_of(rt.alloc()) else {
        return println!(rt; "no configuration");
    };
    let Ok(tokens) = Tokens::open(rt.alloc(), &config) else {
        return println!(rt; "no memory");
    };
    let parts = Parts {
        config,
        tokens,
        seed,
    };
    run::<Brand>(rt, wait, parts)
}
