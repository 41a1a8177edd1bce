//! Each command on a store of one class without a free chunk, by the rules of commands and of making room. Room is made
//! first: COLD's tail is taken, or else HOT's tail is forced to COLD, so of entries in HOT the oldest goes. TEMP and WARM
//! are never taken from. Then the command is answered on what is left.
use super::asking::Ask::{Decr, Delete, Gat, Get, Incr, Store, Touch};
use super::full_store::{Before, IN_TEMP, Mode, PLAIN, Row, check_rows};
use mc_item::Verb::{Add, Append, Cas, Prepend, Replace, Set};

// A value of which no class of 96 bytes has the cost, under a key of one letter.
const LONG: &str = "xxxxxxxxxxxxxxxxxxxxxxxxxxxxxxxx";

// One byte less: it fits the class alone, but not joined to another byte.
const FILLS: &str = "xxxxxxxxxxxxxxxxxxxxxxxxxxxxxxx";

// Two chunks, those of `p` and `q`: a new item takes that of `p`, and what needs no chunk takes none.
static ABSENT: [Row; 16] = [
    (Gat(30), "Miss", "-", "1", &[2]),
    (Store(Append, 0, "x"), "NotStored", "-", "1", &[2]),
    (Store(Prepend, 0, LONG), "NotStored", "-", "1", &[2]),
    (Get, "Miss", "-", "1", &[2]),
    (Store(Set, 0, "x"), "Stored", "x", "-", &[2]),
    (Store(Add, 0, "x"), "Stored", "x", "-", &[2]),
    (Store(Replace, 0, "x"), "NotStored", "-", "1", &[2]),
    (Store(Cas(1), 0, "x"), "NotFound", "-", "1", &[2]),
    (Store(Set, 0, LONG), "TooLarge", "-", "1", &[2]),
    (Store(Add, 0, LONG), "TooLarge", "-", "1", &[2]),
    (Incr(5), "NotFound", "-", "1", &[2]),
    (Incr(2), "NotFound", "-", "1", &[2]),
    (Decr(2), "NotFound", "-", "1", &[2]),
    (Touch(30), "NotFound", "-", "1", &[2]),
    (Delete, "NotFound", "-", "1", &[2]),
    (Store(Cas(3), 0, "x"), "NotFound", "-", "1", &[2]),
];

// Two chunks, and the own item's is the older: it is itself what room takes, and the answer is that of an absent key.
static OLDER: [Row; 17] = [
    (Gat(30), "0 5", "5", "1", &[2]),
    (Store(Append, 0, "x"), "NotStored", "-", "1", &[1]),
    (Store(Prepend, 0, "x"), "NotStored", "-", "1", &[1]),
    (Store(Append, 0, FILLS), "TooLarge", "5", "1", &[2]),
    (Get, "0 5", "5", "1", &[2]),
    (Store(Set, 0, "x"), "Stored", "x", "1", &[2]),
    (Store(Add, 0, "x"), "NotStored", "5", "1", &[2]),
    (Store(Replace, 0, "x"), "NotStored", "-", "1", &[1]),
    (Store(Cas(1), 0, "x"), "NotFound", "-", "1", &[1]),
    (Store(Cas(2), 0, "x"), "Exists", "5", "1", &[2]),
    (Store(Set, 0, LONG), "TooLarge", "-", "1", &[1]),
    (Store(Replace, 0, LONG), "TooLarge", "5", "1", &[2]),
    (Incr(5), "NotFound", "-", "1", &[1]),
    (Incr(2), "Number(7)", "7", "1", &[2]),
    (Decr(2), "Number(3)", "3", "1", &[2]),
    (Touch(30), "Touched", "5", "1", &[2]),
    (Delete, "Deleted", "-", "1", &[1]),
];

// Two chunks, and the own item's is the newer: the other item is taken, and then the own old version's entry goes too.
static NEWER: [Row; 17] = [
    (Gat(30), "0 5", "5", "1", &[2]),
    (Store(Append, 0, "x"), "Stored", "5x", "-", &[1]),
    (Store(Prepend, 0, "x"), "Stored", "x5", "-", &[1]),
    (Store(Prepend, 0, FILLS), "TooLarge", "5", "1", &[2]),
    (Get, "0 5", "5", "1", &[2]),
    (Store(Set, 0, "x"), "Stored", "x", "-", &[1]),
    (Store(Add, 0, "x"), "NotStored", "5", "1", &[2]),
    (Store(Replace, 0, "x"), "Stored", "x", "-", &[1]),
    (Store(Cas(2), 0, "x"), "Stored", "x", "-", &[1]),
    (Store(Cas(1), 0, "x"), "Exists", "5", "1", &[2]),
    (Store(Set, 0, LONG), "TooLarge", "-", "1", &[1]),
    (Store(Replace, 0, LONG), "TooLarge", "5", "1", &[2]),
    (Incr(5), "Number(10)", "10", "-", &[1]),
    (Incr(2), "Number(7)", "7", "1", &[2]),
    (Decr(2), "Number(3)", "3", "1", &[2]),
    (Touch(30), "Touched", "5", "1", &[2]),
    (Delete, "Deleted", "-", "1", &[1]),
];

// One chunk, the own item's, which room takes.
static ONLY: [Row; 16] = [
    (Gat(30), "0 5", "5", "-", &[1]),
    (Store(Append, 0, "x"), "NotStored", "-", "-", &[0]),
    (Store(Append, 0, FILLS), "TooLarge", "5", "-", &[1]),
    (Get, "0 5", "5", "-", &[1]),
    (Store(Set, 0, "x"), "Stored", "x", "-", &[1]),
    (Store(Add, 0, "x"), "NotStored", "5", "-", &[1]),
    (Store(Replace, 0, "x"), "NotStored", "-", "-", &[0]),
    (Store(Cas(1), 0, "x"), "NotFound", "-", "-", &[0]),
    (Store(Cas(2), 0, "x"), "Exists", "5", "-", &[1]),
    (Store(Set, 0, LONG), "TooLarge", "-", "-", &[0]),
    (Store(Replace, 0, LONG), "TooLarge", "5", "-", &[1]),
    (Incr(5), "NotFound", "-", "-", &[0]),
    (Incr(2), "Number(7)", "7", "-", &[1]),
    (Decr(2), "Number(3)", "3", "-", &[1]),
    (Touch(30), "Touched", "5", "-", &[1]),
    (Delete, "Deleted", "-", "-", &[0]),
];

// The own item is dead: it goes first, its chunk is free, and the answer is that of an absent key.
static DEAD: [Row; 16] = [
    (Gat(30), "Miss", "-", "1", &[1]),
    (Store(Append, 0, "x"), "NotStored", "-", "1", &[1]),
    (Store(Prepend, 0, LONG), "NotStored", "-", "1", &[1]),
    (Get, "Miss", "-", "1", &[1]),
    (Store(Set, 0, "x"), "Stored", "x", "1", &[2]),
    (Store(Add, 0, "x"), "Stored", "x", "1", &[2]),
    (Store(Replace, 0, "x"), "NotStored", "-", "1", &[1]),
    (Store(Cas(1), 0, "x"), "NotFound", "-", "1", &[1]),
    (Store(Cas(2), 0, "x"), "NotFound", "-", "1", &[1]),
    (Store(Set, 0, LONG), "TooLarge", "-", "1", &[1]),
    (Store(Add, 0, LONG), "TooLarge", "-", "1", &[1]),
    (Incr(5), "NotFound", "-", "1", &[1]),
    (Incr(2), "NotFound", "-", "1", &[1]),
    (Decr(2), "NotFound", "-", "1", &[1]),
    (Touch(30), "NotFound", "-", "1", &[1]),
    (Delete, "NotFound", "-", "1", &[1]),
];

// Both chunks are in TEMP, and no room is found: a refused set removes the own item, which is absent.
static HELD_ABSENT: [Row; 12] = [
    (Gat(30), "Miss", "-", "1", &[2]),
    (Store(Append, 0, "x"), "NotStored", "-", "1", &[2]),
    (Get, "Miss", "-", "1", &[2]),
    (Store(Set, 0, "x"), "NoRoom", "-", "1", &[2]),
    (Store(Add, 0, "x"), "NoRoom", "-", "1", &[2]),
    (Store(Replace, 0, "x"), "NotStored", "-", "1", &[2]),
    (Store(Cas(1), 0, "x"), "NotFound", "-", "1", &[2]),
    (Store(Set, 0, LONG), "TooLarge", "-", "1", &[2]),
    (Incr(5), "NotFound", "-", "1", &[2]),
    (Decr(2), "NotFound", "-", "1", &[2]),
    (Touch(30), "NotFound", "-", "1", &[2]),
    (Delete, "NotFound", "-", "1", &[2]),
];

// Both chunks are in TEMP, one of them the own item's, which was set first: a refused set removes it, the others don't.
static HELD_THERE: [Row; 15] = [
    (Gat(30), "0 5", "5", "1", &[2]),
    (Store(Append, 0, "x"), "NoRoom", "5", "1", &[2]),
    (Store(Prepend, 0, FILLS), "TooLarge", "5", "1", &[2]),
    (Get, "0 5", "5", "1", &[2]),
    (Store(Set, 0, "x"), "NoRoom", "-", "1", &[1]),
    (Store(Add, 0, "x"), "NotStored", "5", "1", &[2]),
    (Store(Replace, 0, "x"), "NoRoom", "5", "1", &[2]),
    (Store(Cas(1), 0, "x"), "NoRoom", "5", "1", &[2]),
    (Store(Cas(2), 0, "x"), "Exists", "5", "1", &[2]),
    (Store(Set, 0, LONG), "TooLarge", "-", "1", &[1]),
    (Incr(5), "NoSpace", "5", "1", &[2]),
    (Incr(2), "Number(7)", "7", "1", &[2]),
    (Decr(2), "Number(3)", "3", "1", &[2]),
    (Touch(30), "Touched", "5", "1", &[2]),
    (Delete, "Deleted", "-", "1", &[1]),
];

// The only chunk is the own item's, in TEMP, or active, so that it goes to WARM: no room is found either way.
static HELD_ONLY: [Row; 15] = [
    (Gat(30), "0 5", "5", "-", &[1]),
    (Store(Append, 0, "x"), "NoRoom", "5", "-", &[1]),
    (Store(Prepend, 0, "x"), "NoRoom", "5", "-", &[1]),
    (Get, "0 5", "5", "-", &[1]),
    (Store(Set, 0, "x"), "NoRoom", "-", "-", &[0]),
    (Store(Add, 0, "x"), "NotStored", "5", "-", &[1]),
    (Store(Replace, 0, "x"), "NoRoom", "5", "-", &[1]),
    (Store(Cas(1), 0, "x"), "NoRoom", "5", "-", &[1]),
    (Store(Cas(2), 0, "x"), "Exists", "5", "-", &[1]),
    (Store(Set, 0, LONG), "TooLarge", "-", "-", &[0]),
    (Incr(5), "NoSpace", "5", "-", &[1]),
    (Incr(2), "Number(7)", "7", "-", &[1]),
    (Decr(2), "Number(3)", "3", "-", &[1]),
    (Touch(30), "Touched", "5", "-", &[1]),
    (Delete, "Deleted", "-", "-", &[0]),
];

// A class of two chunks of 96 bytes, both taken.
const PAIR: Before = Before {
    sizes: &[96],
    chunks: &[2],
    sets: &[(b'p', "1"), (b'q', "1")],
    other: b'p',
};

// The same with the own item first.
const FIRST: Before = Before {
    sets: &[(b'o', "5"), (b'p', "1")],
    ..PAIR
};

// The same with the own item last.
const LAST: Before = Before {
    sets: &[(b'p', "1"), (b'o', "5")],
    ..PAIR
};

// A class of one chunk, the own item's.
const ALONE: Before = Before {
    chunks: &[1],
    sets: &[(b'o', "5")],
    ..PAIR
};

// TEMP takes what dies within 60 seconds, where it is in use: in these three no entry is in TEMP.
#[test]
fn a_full_class_gives_its_oldest_chunk(rt: HostRuntime) {
    let alloc = rt.alloc();
    for (temp, exptime) in [(false, 0), (false, 30), (true, 0)] {
        let mode = Mode {
            temp,
            exptime,
            ..PLAIN
        };
        check_rows(&rt, alloc, &PAIR, mode, ABSENT.as_slice());
        check_rows(&rt, alloc, &FIRST, mode, OLDER.as_slice());
        check_rows(&rt, alloc, &LAST, mode, NEWER.as_slice());
        check_rows(&rt, alloc, &ALONE, mode, ONLY.as_slice());
    }
}

#[test]
fn a_dead_own_item_leaves_its_chunk(rt: HostRuntime) {
    let alloc = rt.alloc();
    for (temp, exptime) in [(false, 0), (false, 30), (true, 0), (true, 30)] {
        let mode = Mode {
            temp,
            exptime,
            dead: true,
            ..PLAIN
        };
        check_rows(&rt, alloc, &FIRST, mode, DEAD.as_slice());
        check_rows(&rt, alloc, &LAST, mode, DEAD.as_slice());
    }
}

#[test]
fn temp_and_warm_give_no_chunk(rt: HostRuntime) {
    let alloc = rt.alloc();
    check_rows(&rt, alloc, &PAIR, IN_TEMP, HELD_ABSENT.as_slice());
    check_rows(&rt, alloc, &FIRST, IN_TEMP, HELD_THERE.as_slice());
    check_rows(&rt, alloc, &ALONE, IN_TEMP, HELD_ONLY.as_slice());
    for temp in [false, true] {
        let active = Mode {
            temp,
            hits: 2,
            ..PLAIN
        };
        check_rows(&rt, alloc, &ALONE, active, HELD_ONLY.as_slice());
    }
}
