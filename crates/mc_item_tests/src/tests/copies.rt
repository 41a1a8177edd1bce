//! Copies are equal in each part.
use crate::tests::{Asked, command_of, same, same_bytes, value};
use bytes::Bytes;
use mc_item::{Command, Reply, Value, Verb};
use std::alloc::Global;
use std::process::Abort;

static COMMANDS: [(Asked, &str); 9] = [
    (Asked::Get, "Get(Key { bytes: [107] })"),
    (Asked::Gat(-4), "Gat(Key { bytes: [107] }, -4)"),
    (
        Asked::Huge(Verb::Add),
        "Huge { verb: Add, key: Key { bytes: [107] } }",
    ),
    (Asked::Incr(1), "Incr(Key { bytes: [107] }, 1)"),
    (Asked::Decr(2), "Decr(Key { bytes: [107] }, 2)"),
    (Asked::Touch(-3), "Touch(Key { bytes: [107] }, -3)"),
    (Asked::Delete, "Delete(Key { bytes: [107] })"),
    (
        Asked::Store(Verb::Cas(8), b"v"),
        "Store { verb: Cas(8), key: Key { bytes: [107] }, flags: 7, exptime: 10, value: Value { bytes: [118] } }",
    ),
    (
        Asked::Store(Verb::Append, b"v"),
        "Store { verb: Append, key: Key { bytes: [107] }, flags: 7, exptime: 10, value: Value { bytes: [118] } }",
    ),
];

fn command_copy(rt: &impl Abort, alloc: Global, command: &Command) -> Command {
    command.copy(alloc).expect(rt, "memory")
}

fn text_of_command(rt: &impl Abort, alloc: Global, command: &Command) -> String {
    format!(in alloc; "{command:?}").expect(rt, "memory")
}

// The copy of a command of the key `k` is shown so.
fn check_command(rt: &impl Abort, alloc: Global, asked: Asked, wanted: &str, place: usize) {
    let command = command_of(rt, alloc, asked);
    let copy = command_copy(rt, alloc, &command);
    same_bytes(rt, copy.key().bytes(), b"k".as_slice(), place);
    let shown = text_of_command(rt, alloc, &copy);
    same(rt, shown.as_str(), wanted, place);
}

fn check_commands(rt: &impl Abort, alloc: Global, rows: &[(Asked, &str)]) {
    for (place, row) in rows.iter().enumerate() {
        check_command(rt, alloc, row.0, row.1, place);
    }
}

#[test]
fn a_copy_of_a_command_is_equal(rt: HostRuntime) {
    check_commands(&rt, rt.alloc(), COMMANDS.as_slice());
}

fn reply_copy(rt: &impl Abort, reply: &Reply) -> Reply {
    reply.copy().expect(rt, "memory")
}

fn text_of_reply(rt: &impl Abort, alloc: Global, reply: &Reply) -> String {
    format!(in alloc; "{reply:?}").expect(rt, "memory")
}

// The copy of a reply is shown so.
fn check_reply(rt: &impl Abort, alloc: Global, reply: &Reply, wanted: &str) {
    let copy = reply_copy(rt, reply);
    let shown = text_of_reply(rt, alloc, &copy);
    same(rt, shown.as_str(), wanted, 0);
}

#[test]
fn copies_of_replies_of_values_and_numbers(rt: HostRuntime) {
    let alloc = rt.alloc();
    let found = Reply::Value {
        flags: 1,
        value: value(&rt, alloc, b"v"),
        cas: 2,
    };
    let shown = "Value { flags: 1, value: Value { bytes: [118] }, cas: 2 }";
    check_reply(&rt, alloc, &found, shown);
    check_reply(&rt, alloc, &Reply::Number(3), "Number(3)");
}

#[test]
fn copies_of_replies(rt: HostRuntime) {
    let alloc = rt.alloc();
    check_reply(&rt, alloc, &Reply::Miss, "Miss");
    check_reply(&rt, alloc, &Reply::Stored, "Stored");
    check_reply(&rt, alloc, &Reply::NotStored, "NotStored");
    check_reply(&rt, alloc, &Reply::Exists, "Exists");
    check_reply(&rt, alloc, &Reply::NotFound, "NotFound");
    check_reply(&rt, alloc, &Reply::Deleted, "Deleted");
    check_reply(&rt, alloc, &Reply::Touched, "Touched");
    check_reply(&rt, alloc, &Reply::NonNumeric, "NonNumeric");
    check_reply(&rt, alloc, &Reply::TooLarge, "TooLarge");
    check_reply(&rt, alloc, &Reply::NoRoom, "NoRoom");
    check_reply(&rt, alloc, &Reply::NoSpace, "NoSpace");
}

fn value_copy(rt: &impl Abort, value: &Value) -> Value {
    value.copy().expect(rt, "memory")
}

// A value of these bytes, its copy after the value is gone, and the copy's copy have just these bytes.
fn check_copies(rt: &impl Abort, value: Value, bytes: &[u8]) {
    same_bytes(rt, value.bytes(), bytes, 0);
    let copy = value_copy(rt, &value);
    drop(value);
    same_bytes(rt, copy.bytes(), bytes, 1);
    let again = value_copy(rt, &copy);
    same_bytes(rt, again.bytes(), bytes, 2);
}

/// The bytes within a larger block, without the block's first byte.
pub(super) fn block_of(rt: &impl Abort, alloc: Global, bytes: &[u8]) -> Bytes {
    let mut block = Vec::from_slice(alloc, b"<").expect(rt, "memory");
    block.extend_from_slice(bytes).expect(rt, "memory");
    block.push(b'>').expect(rt, "memory");
    let mut rest = Bytes::from_vec(block).expect(rt, "memory");
    rest.advance(rest.len().min(1));
    rest
}

/// The value of the first so many bytes, which are cut off.
pub(super) fn part_of(rt: &impl Abort, alloc: Global, rest: &mut Bytes, count: usize) -> Value {
    let part = rest.split_to(count.min(rest.len())).expect(rt, "memory");
    Value::of_part(alloc, part).expect(rt, "memory")
}

// The same of bytes within a larger block, which is gone too.
fn check_part(rt: &impl Abort, alloc: Global, bytes: &[u8]) {
    let mut rest = block_of(rt, alloc, bytes);
    let part = part_of(rt, alloc, &mut rest, bytes.len());
    same_bytes(rt, part.bytes(), bytes, 3);
    same_bytes(rt, rest.as_slice(), b">".as_slice(), 4);
    drop(rest);
    check_copies(rt, part, bytes);
}

// So many bytes, of which the last is another.
fn bytes_of(rt: &impl Abort, alloc: Global, count: usize) -> Vec<u8> {
    let mut bytes = Vec::new(alloc);
    bytes.resize(count, b'x').expect(rt, "memory");
    bytes.push(b'y').expect(rt, "memory");
    bytes
}

fn check_count(rt: &impl Abort, alloc: Global, count: usize) {
    let bytes = bytes_of(rt, alloc, count);
    check_copies(rt, value(rt, alloc, bytes.as_slice()), bytes.as_slice());
    check_part(rt, alloc, bytes.as_slice());
}

#[test]
fn copies_of_values_outlive_them(rt: HostRuntime) {
    let alloc = rt.alloc();
    check_copies(&rt, value(&rt, alloc, b""), b"");
    check_part(&rt, alloc, b"");
    check_count(&rt, alloc, 0);
    check_count(&rt, alloc, 1);
    check_count(&rt, alloc, 63);
    check_count(&rt, alloc, 1000);
}
