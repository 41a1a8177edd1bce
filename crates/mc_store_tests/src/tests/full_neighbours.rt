//! Storage commands across two classes of which one or both are full, and on the last of 63 classes. Room is made in
//! the new version's class alone, so an own item in another class isn't taken; its entry goes when the new one stands.
use super::asking::Ask::{Get, Incr, Store};
use super::full_store::{Before, IN_TEMP, PLAIN, Row, check_rows};
use mc_item::Verb::{Add, Append, Cas, Prepend, Replace, Set};

// Chunks of 66 and of 120 bytes, one each: a value of one letter is of class 1, a longer one of class 2. The own item has the
// chunk of class 1, and that of class 2 is free.
const LOW: Before = Before {
    sizes: &[66, 120],
    chunks: &[1, 1],
    sets: &[(b'o', "5")],
    other: b'q',
};

static LOW_FREE: [Row; 7] = [
    (Store(Append, 0, "y"), "Stored", "5y", "-", &[0, 1]),
    (Store(Set, 0, "xy"), "Stored", "xy", "-", &[0, 1]),
    (Store(Replace, 0, "xy"), "Stored", "xy", "-", &[0, 1]),
    (Store(Cas(1), 0, "xy"), "Stored", "xy", "-", &[0, 1]),
    (Store(Cas(2), 0, "xy"), "Exists", "5", "-", &[1, 0]),
    (Incr(5), "Number(10)", "10", "-", &[0, 1]),
    (Store(Set, 0, "x"), "Stored", "x", "-", &[1, 0]),
];

// Both classes are full: `q` has the chunk of class 2, and goes where a new version needs it.
const LOW_BOTH: Before = Before {
    sets: &[(b'o', "5"), (b'q', "42")],
    ..LOW
};

static LOW_TAKES: [Row; 10] = [
    (Store(Prepend, 0, "y"), "Stored", "y5", "-", &[0, 1]),
    (Store(Append, 0, ""), "NotStored", "-", "42", &[0, 1]),
    (Store(Set, 0, "xy"), "Stored", "xy", "-", &[0, 1]),
    (Store(Replace, 0, "xy"), "Stored", "xy", "-", &[0, 1]),
    (Store(Cas(1), 0, "xy"), "Stored", "xy", "-", &[0, 1]),
    (Store(Add, 0, "xy"), "NotStored", "5", "42", &[1, 1]),
    (Store(Cas(2), 0, "xy"), "Exists", "5", "42", &[1, 1]),
    (Incr(5), "Number(10)", "10", "-", &[0, 1]),
    (Store(Set, 0, "x"), "Stored", "x", "42", &[1, 1]),
    (Store(Replace, 0, "x"), "NotStored", "-", "42", &[0, 1]),
];

// `q` is in TEMP, and no room is found in class 2: a refused set removes the own item, the others leave it.
static LOW_HELD: [Row; 6] = [
    (Store(Append, 0, "y"), "NoRoom", "5", "42", &[1, 1]),
    (Store(Set, 0, "xy"), "NoRoom", "-", "42", &[0, 1]),
    (Store(Replace, 0, "xy"), "NoRoom", "5", "42", &[1, 1]),
    (Store(Cas(1), 0, "xy"), "NoRoom", "5", "42", &[1, 1]),
    (Incr(5), "NoSpace", "5", "42", &[1, 1]),
    (Store(Set, 0, "x"), "NoRoom", "-", "42", &[0, 1]),
];

// The own item has the chunk of class 2, and `p` that of class 1.
const HIGH_BOTH: Before = Before {
    sets: &[(b'o', "55"), (b'p', "1")],
    other: b'p',
    ..LOW
};

static HIGH_TAKES: [Row; 6] = [
    (Store(Append, 0, "y"), "NotStored", "-", "1", &[1, 0]),
    (Store(Set, 0, "x"), "Stored", "x", "-", &[1, 0]),
    (Store(Replace, 0, "x"), "Stored", "x", "-", &[1, 0]),
    (Store(Set, 0, "xy"), "Stored", "xy", "1", &[1, 1]),
    (Store(Replace, 0, "xy"), "NotStored", "-", "1", &[1, 0]),
    (Incr(45), "NotFound", "-", "1", &[1, 0]),
];

// The own key is absent, and `q` has the chunk of class 2. Class 1 is free, then full.
const HIGH_OTHER: Before = Before {
    sets: &[(b'q', "42")],
    ..LOW
};

static ABSENT: [Row; 3] = [
    (Store(Set, 0, "x"), "Stored", "x", "42", &[1, 1]),
    (Store(Set, 0, "xy"), "Stored", "xy", "-", &[0, 1]),
    (Store(Add, 0, "xy"), "Stored", "xy", "-", &[0, 1]),
];

const BOTH_OTHERS: Before = Before {
    sets: &[(b'p', "1"), (b'q', "42")],
    ..LOW
};

static ABSENT_FULL: [Row; 3] = [
    (Store(Set, 0, "x"), "Stored", "x", "42", &[1, 1]),
    (Store(Set, 0, "xy"), "Stored", "xy", "-", &[1, 1]),
    (Store(Replace, 0, "xy"), "NotStored", "-", "42", &[1, 1]),
];

#[test]
fn room_is_made_in_the_new_class_alone(rt: HostRuntime) {
    let alloc = rt.alloc();
    check_rows(&rt, alloc, &LOW, PLAIN, LOW_FREE.as_slice());
    check_rows(&rt, alloc, &LOW_BOTH, PLAIN, LOW_TAKES.as_slice());
    check_rows(&rt, alloc, &HIGH_BOTH, PLAIN, HIGH_TAKES.as_slice());
    check_rows(&rt, alloc, &HIGH_OTHER, PLAIN, ABSENT.as_slice());
    check_rows(&rt, alloc, &BOTH_OTHERS, PLAIN, ABSENT_FULL.as_slice());
    check_rows(&rt, alloc, &LOW_BOTH, IN_TEMP, LOW_HELD.as_slice());
}

const SIZES: &[u64] = &[
    65, 66, 67, 68, 69, 70, 71, 72, 73, 74, 75, 76, 77, 78, 79, 80, 81, 82, 83, 84, 85, 86, 87, 88,
    89, 90, 91, 92, 93, 94, 95, 96, 97, 98, 99, 100, 101, 102, 103, 104, 105, 106, 107, 108, 109,
    110, 111, 112, 113, 114, 115, 116, 117, 118, 119, 120, 121, 122, 123, 124, 125, 126, 127,
];

// Values of 61, 62 and 63 bytes: under a key of one letter they are of class 62, of class 63, and of none.
const V61: &str = "2222222222222222222222222222222222222222222222222222222222222";

const V62: &str = "33333333333333333333333333333333333333333333333333333333333333";

const V63: &str = "444444444444444444444444444444444444444444444444444444444444444";

// Classes of one chunk each, from 65 bytes to 127: `q` has the chunk of the last, and the own key is absent.
const LAST_FULL: Before = Before {
    sizes: SIZES,
    chunks: &[1; 63],
    sets: &[(b'q', V62)],
    ..LOW
};

static LAST_ABSENT: [Row; 6] = [
    (Get, "Miss", "-", V62, &[0, 1]),
    (Store(Set, 0, V62), "Stored", V62, "-", &[0, 1]),
    (Store(Add, 0, V62), "Stored", V62, "-", &[0, 1]),
    (Store(Replace, 0, V62), "NotStored", "-", V62, &[0, 1]),
    (Store(Set, 0, V61), "Stored", V61, V62, &[1, 1]),
    (Store(Set, 0, V63), "TooLarge", "-", V62, &[0, 1]),
];

// The own item has the chunk of the last class but one.
const LAST_TWO: Before = Before {
    sets: &[(b'o', V61), (b'q', V62)],
    ..LAST_FULL
};

static LAST_THERE: [Row; 7] = [
    (Store(Set, 0, V62), "Stored", V62, "-", &[0, 1]),
    (Store(Replace, 0, V62), "Stored", V62, "-", &[0, 1]),
    (Store(Cas(1), 0, V62), "Stored", V62, "-", &[0, 1]),
    (Store(Set, 0, V61), "Stored", V61, V62, &[1, 1]),
    (Store(Set, 0, V63), "TooLarge", "-", V62, &[0, 1]),
    (Store(Replace, 0, V63), "TooLarge", V61, V62, &[1, 1]),
    (Store(Append, 0, "22"), "TooLarge", V61, V62, &[1, 1]),
];

static LAST_HELD: [Row; 3] = [
    (Store(Set, 0, V62), "NoRoom", "-", V62, &[0, 1]),
    (Store(Replace, 0, V62), "NoRoom", V61, V62, &[1, 1]),
    (Store(Cas(1), 0, V62), "NoRoom", V61, V62, &[1, 1]),
];

#[test]
fn the_last_of_63_classes_may_be_full(rt: HostRuntime) {
    let alloc = rt.alloc();
    check_rows(&rt, alloc, &LAST_FULL, PLAIN, LAST_ABSENT.as_slice());
    check_rows(&rt, alloc, &LAST_TWO, PLAIN, LAST_THERE.as_slice());
    check_rows(&rt, alloc, &LAST_TWO, IN_TEMP, LAST_HELD.as_slice());
}
