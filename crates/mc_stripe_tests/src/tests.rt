//! What the tests share: stripe 1 of 4, and commands of its key `b` as plain data.
ghost use Rattle.std.specs.Prelude.{◌<◌};
ghost use Rattle.mc_item.specs.Config.{IsBounded};

mod answering;
mod answers;
mod calls;
mod drawn_tries;
mod histories;
mod hits_and_deaths;
mod items;
mod noted;
mod rows;
mod texts;
mod tries;
mod trying;
mod wants;

use mc_item::{Command, Config, Key, Numbers, Value, Verb};
use std::alloc::Global;
use std::process::Abort;

/// What tests draw by.
const SEED: u64 = 0;

fn checked<R: Abort>(rt: &R, config: Config) -> Config
    ensures bounded { IsBounded result }
    ensures stripes { 1 < result.stripes }
{
    let config = config.check().expect(rt, "a sound configuration");
    assert!(rt; config.stripes == 4);
    config
}

fn numbers<R: Abort>(rt: &R, alloc: Global, each: &[u64]) -> Numbers {
    Numbers::from_vec(Vec::from_slice(alloc, each).expect(rt, "a list"))
}

// The configuration of four stripes, with the size 66 and a larger one; a history holds 16 events.
fn four_stripes<R: Abort>(rt: &R, alloc: Global, largest: u64) -> Config {
    let mut config = Config::usual(alloc, 1).expect(rt, "a configuration");
    config.stripes = 4;
    config.sizes = numbers(rt, alloc, &[66, largest]);
    config.chunks = numbers(rt, alloc, &[4, 4]);
    config.max_events = 16;
    config
}

// The key `b`, which is of stripe 1 of 4.
fn b<R: Abort>(rt: &R, alloc: Global) -> Key {
    Key::of(alloc, b"b").expect(rt, "a key")
}

fn value<R: Abort>(rt: &R, alloc: Global, text: &str) -> Value {
    let bytes = Vec::from_slice(alloc, text.as_bytes()).expect(rt, "bytes");
    Value::of(alloc, bytes).expect(rt, "a value")
}

// What is asked of the key `b`.
#[derive(Clone, Copy)]
enum Asked {
    Get,
    Gat(i64),
    Store(Verb, &'static str),
    // A storage command with this exptime.
    StoreUntil(Verb, &'static str, i64),
    Huge(Verb),
    Incr(u64),
    Decr(u64),
    Touch(i64),
    Delete,
}

// The storage command of the key `b`, with the flags 7.
fn store<R: Abort>(rt: &R, alloc: Global, verb: Verb, text: &str, exptime: i64) -> Command {
    let key = b(rt, alloc);
    let value = value(rt, alloc, text);
    Command::Store {
        verb,
        key,
        flags: 7,
        exptime,
        value,
    }
}

// The command that asks for it.
fn command_of<R: Abort>(rt: &R, alloc: Global, asked: Asked) -> Command {
    match asked {
        Asked::Get => Command::Get(b(rt, alloc)),
        Asked::Gat(exptime) => Command::Gat(b(rt, alloc), exptime),
        Asked::Store(verb, text) => store(rt, alloc, verb, text, 0),
        Asked::StoreUntil(verb, text, exptime) => store(rt, alloc, verb, text, exptime),
        Asked::Huge(verb) => Command::Huge {
            verb,
            key: b(rt, alloc),
        },
        Asked::Incr(delta) => Command::Incr(b(rt, alloc), delta),
        Asked::Decr(delta) => Command::Decr(b(rt, alloc), delta),
        Asked::Touch(exptime) => Command::Touch(b(rt, alloc), exptime),
        Asked::Delete => Command::Delete(b(rt, alloc)),
    }
}
