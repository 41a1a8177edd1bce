//! Commands on shared stores of one stripe and of two: what is answered, by protocol.txt and worked out by hand.
use super::asking::Ask::{Cas, Decr, Delete, Gat, Get, Huge, Incr, Store as Put, Touch};
use super::opening::two_classes;
use super::running::Act::On;
use super::running::{Row, check_script};
use mc_item::Verb::{Add, Append, Prepend, Replace, Set};
use std::alloc::Global;
use std::process::Abort;
use std::random::RandomSource;
use std::sync::Wait;

// Ends the test where the rows aren't answered as they say by a new store of one stripe, and by one of two, with so many chunks
// of each class.
fn check<R: Abort + Wait + RandomSource>(rt: &R, alloc: Global, chunks: u64, rows: &[Row]) {
    for stripes in 1..3u32 {
        let config = two_classes(rt, alloc, stripes, [chunks, chunks], 1);
        check_script(rt, alloc, config, rows, &[]);
    }
}

static EACH: [Row; 22] = [
    (0, 1000, On(b'a', Put(Set, 5, "1")), "Stored"),
    (0, 1000, On(b'a', Get), "5 1"),
    (0, 1000, On(b'b', Get), "Miss"),
    (0, 1000, On(b'a', Put(Add, 0, "2")), "NotStored"),
    (0, 1000, On(b'b', Put(Add, 0, "x")), "Stored"),
    (0, 1000, On(b'c', Put(Replace, 0, "y")), "NotStored"),
    (0, 1000, On(b'b', Put(Replace, 0, "y")), "Stored"),
    (0, 1000, On(b'b', Get), "0 y"),
    (0, 1000, On(b'a', Incr(5)), "Number(6)"),
    (0, 1000, On(b'a', Incr(10)), "Number(16)"),
    (0, 1000, On(b'a', Get), "5 16"),
    (0, 1000, On(b'a', Decr(3)), "Number(13)"),
    (0, 1000, On(b'b', Incr(1)), "NonNumeric"),
    (0, 1000, On(b'c', Incr(1)), "NotFound"),
    (0, 1000, On(b'b', Delete), "Deleted"),
    (0, 1000, On(b'b', Delete), "NotFound"),
    (0, 1000, On(b'c', Huge), "TooLarge"),
    (0, 1000, On(b'a', Touch(10)), "Touched"),
    (0, 1000, On(b'c', Touch(10)), "NotFound"),
    (0, 1009, On(b'a', Get), "5 13"),
    (0, 1010, On(b'a', Get), "Miss"),
    (0, 1010, On(b'a', Put(Set, 0, "7")), "Stored"),
];

// Each kind of command, where chunks are free.
#[test]
fn each_command_is_answered(rt: HostRuntime) {
    check(&rt, rt.alloc(), 9, EACH.as_slice());
}

static JOINED: [Row; 11] = [
    (0, 1000, On(b'a', Put(Append, 0, "x")), "NotStored"),
    (0, 1000, On(b'a', Gat(10)), "Miss"),
    (0, 1000, On(b'a', Put(Set, 5, "b")), "Stored"),
    (0, 1000, On(b'a', Gat(10)), "5 b"),
    (0, 1000, On(b'a', Put(Append, 7, "c")), "Stored"),
    (0, 1000, On(b'a', Put(Prepend, 7, "a")), "Stored"),
    (0, 1009, On(b'a', Get), "5 abc"),
    (0, 1010, On(b'a', Put(Append, 0, "x")), "NotStored"),
    (0, 1010, On(b'a', Gat(10)), "Miss"),
    (0, 1010, On(b'a', Put(Prepend, 0, "x")), "NotStored"),
    (0, 1010, On(b'a', Get), "Miss"),
];

// What is joined keeps the flags, and the expiry that a gat set.
#[test]
fn a_joined_value_keeps_flags_and_the_expiry_of_a_gat(rt: HostRuntime) {
    check(&rt, rt.alloc(), 9, JOINED.as_slice());
}

const LONG: &str = "0123456789012345678901234567890123456789";

const SHOWN: &str = "0 0123456789012345678901234567890123456789";

static CHANGING: [Row; 5] = [
    (0, 1000, On(b'a', Put(Set, 0, "1")), "Stored"),
    (0, 1000, On(b'a', Put(Set, 0, LONG)), "Stored"),
    (0, 1000, On(b'a', Get), SHOWN),
    (0, 1000, On(b'a', Put(Set, 0, "2")), "Stored"),
    (0, 1000, On(b'a', Get), "0 2"),
];

// A longer value has its chunk in the other class: both classes are locked, and the old chunk is free again.
#[test]
fn a_value_changes_its_class(rt: HostRuntime) {
    check(&rt, rt.alloc(), 1, CHANGING.as_slice());
}

const JOINED_SHOWN: &str = "0 10123456789012345678901234567890123456789";

static JOINED_CHANGING: [Row; 6] = [
    (0, 1000, On(b'a', Put(Set, 0, "1")), "Stored"),
    (0, 1000, On(b'a', Put(Append, 0, LONG)), "Stored"),
    (0, 1000, On(b'a', Get), JOINED_SHOWN),
    (0, 1000, On(b'a', Put(Prepend, 0, LONG)), "TooLarge"),
    (0, 1000, On(b'b', Put(Set, 0, "2")), "Stored"),
    (0, 1000, On(b'a', Get), JOINED_SHOWN),
];

// The same of a value that an append makes longer. The old chunk is free for another key, and with 40 bytes more the value has 81,
// for which each class is too small.
#[test]
fn a_joined_value_changes_its_class(rt: HostRuntime) {
    check(&rt, rt.alloc(), 1, JOINED_CHANGING.as_slice());
}

static EVICTING: [Row; 4] = [
    (0, 1000, On(b'a', Put(Set, 0, "1")), "Stored"),
    (0, 1000, On(b'b', Put(Set, 0, "9")), "Stored"),
    (0, 1000, On(b'a', Get), "Miss"),
    (0, 1000, On(b'b', Incr(1)), "NotFound"),
];

static REFUSING: [Row; 5] = [
    (0, 1000, On(b'a', Put(Set, 0, "1")), "Stored"),
    (0, 1000, On(b'a', Get), "0 1"),
    (0, 1000, On(b'a', Get), "0 1"),
    (0, 1000, On(b'b', Put(Set, 0, "2")), "NoRoom"),
    (0, 1000, On(b'a', Get), "0 1"),
];

// Each class has one chunk: another key takes it; an item that was hit twice keeps it; and a number that grows may lose
// its own item.
#[test]
fn a_full_class_evicts_or_refuses(rt: HostRuntime) {
    check(&rt, rt.alloc(), 1, EVICTING.as_slice());
    check(&rt, rt.alloc(), 1, REFUSING.as_slice());
}

static COMPARED: [Row; 6] = [
    (0, 1000, On(b'a', Cas("0")), "NotFound"),
    (0, 1000, On(b'a', Put(Set, 0, "1")), "Stored"),
    (0, 1000, On(b'a', Get), "0 1"),
    (0, 1000, On(b'a', Cas("2")), "Stored"),
    (0, 1000, On(b'a', Cas("3")), "Exists"),
    (0, 1000, On(b'a', Get), "0 2"),
];

static JOINED_COMPARED: [Row; 6] = [
    (0, 1000, On(b'a', Put(Set, 0, "1")), "Stored"),
    (0, 1000, On(b'a', Gat(0)), "0 1"),
    (0, 1000, On(b'a', Cas("2")), "Stored"),
    (0, 1000, On(b'a', Gat(0)), "0 2"),
    (0, 1000, On(b'a', Put(Append, 0, "")), "Stored"),
    (0, 1000, On(b'a', Cas("3")), "Exists"),
];

// A cas stores where its number is the one that was shown last, and not where the item was changed since.
#[test]
fn a_cas_is_compared(rt: HostRuntime) {
    check(&rt, rt.alloc(), 9, COMPARED.as_slice());
    check(&rt, rt.alloc(), 9, JOINED_COMPARED.as_slice());
}
