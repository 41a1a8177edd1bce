//! Tests against values from outside: the parts of the table of commands, worked examples, the limits of each rule, and the plans
//! that the words of a command line ask for.
mod config;
mod copies;
mod joined_values;
mod keys;
mod moments;
mod numbers;
mod plans;
mod rows;

ghost use Rattle.std.specs.Prelude.{◌≡◌};

use mc_item::{
    Answer, ClassNo, ClassSizes, Command, Expiry, Item, Key, Link, Marks, Room, Site, Value, Verb,
};
use std::alloc::Global;
use std::process::Abort;

/// The marks of an item that no command has hit.
pub const NO_MARKS: Marks = Marks {
    fetched: false,
    active: false,
};

/// The place of a new version: the link 9 of class 1.
pub const AT: Room = Room::At(Link {
    class: ClassNo(1),
    number: 9,
});

/// No place was found in class 1.
pub const REFUSED: Room = Room::Refused {
    class: ClassNo(1),
    place: 4,
};

/// An `incr` of the value `9` at the place of a new version.
pub const GROWN: &str =
    "Number(10); Renewed(Item { flags: 5, value: Value { bytes: [49, 48] }, expiry: Never, cas: 22, link: Link { class: ClassNo(1), number: 9 }, marks: Marks { fetched: false, active: false } })";

/// A command of the key `k`.
#[derive(Clone, Copy)]
pub(super) enum Asked {
    Get,
    Gat(i64),
    // A storage command of this value, of flags 7 and ten seconds.
    Store(Verb, &'static [u8]),
    Huge(Verb),
    Incr(u64),
    Decr(u64),
    Touch(i64),
    Delete,
}

/// The reply and the change of an answer.
pub(super) fn text_of(rt: &impl Abort, alloc: Global, answer: &Answer) -> String {
    let reply = &answer.reply;
    let change = &answer.change;
    format!(in alloc; "{reply:?}; {change:?}").expect(rt, "memory")
}

/// Ends the test where a row tells something else.
pub(super) fn same(rt: &impl Abort, got: &str, wanted: &str, place: usize) {
    assert_eq!(rt; got, wanted, "at row {place}");
}

/// Ends the test where the bytes of a row are others.
pub(super) fn same_bytes(rt: &impl Abort, seen: &[u8], wanted: &[u8], place: usize) {
    assert_eq!(rt; seen, wanted, "at row {place}");
}

/// Stripe 1 of 4, with classes of 96 and 120 bytes.
pub(super) fn site() -> Site
    ensures stripe { result.stripe ≡ 1 }
    ensures stripes { result.stripes ≡ 4 }
{
    Site {
        stripe: 1,
        stripes: 4,
        sizes: ClassSizes::of(&[96, 120]),
    }
}

/// A key of these bytes.
pub(super) fn key(rt: &impl Abort, alloc: Global, bytes: &[u8]) -> Key {
    Key::of(alloc, bytes).expect(rt, "a key")
}

/// A value of these bytes.
pub(super) fn value(rt: &impl Abort, alloc: Global, bytes: &[u8]) -> Value {
    let bytes = Vec::from_slice(alloc, bytes).expect(rt, "memory");
    Value::of(alloc, bytes).expect(rt, "memory")
}

// A storage command of the key `k`, of flags 7 and ten seconds.
fn store(rt: &impl Abort, alloc: Global, verb: Verb, bytes: &[u8]) -> Command {
    let key = key(rt, alloc, b"k");
    let value = value(rt, alloc, bytes);
    Command::Store {
        verb,
        key,
        flags: 7,
        exptime: 10,
        value,
    }
}

fn huge(rt: &impl Abort, alloc: Global, verb: Verb) -> Command {
    let key = key(rt, alloc, b"k");
    Command::Huge { verb, key }
}

/// The command that is asked.
pub(super) fn command_of(rt: &impl Abort, alloc: Global, asked: Asked) -> Command {
    match asked {
        Asked::Get => Command::Get(key(rt, alloc, b"k")),
        Asked::Gat(exptime) => Command::Gat(key(rt, alloc, b"k"), exptime),
        Asked::Store(verb, bytes) => store(rt, alloc, verb, bytes),
        Asked::Huge(verb) => huge(rt, alloc, verb),
        Asked::Incr(delta) => Command::Incr(key(rt, alloc, b"k"), delta),
        Asked::Decr(delta) => Command::Decr(key(rt, alloc, b"k"), delta),
        Asked::Touch(exptime) => Command::Touch(key(rt, alloc, b"k"), exptime),
        Asked::Delete => Command::Delete(key(rt, alloc, b"k")),
    }
}

/// An item of flags 5, cas number 6 and the link 3 of class 1.
pub(super) fn item(rt: &impl Abort, alloc: Global, bytes: &[u8], marks: Marks) -> Item {
    Item {
        flags: 5,
        value: value(rt, alloc, bytes),
        expiry: Expiry::Never,
        cas: 6,
        link: Link {
            class: ClassNo(1),
            number: 3,
        },
        marks,
    }
}
