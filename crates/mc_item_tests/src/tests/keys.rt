//! Keys and their stripes.
use crate::tests::{key, same, same_bytes};
use mc_item::{Key, KeyFault, stripe_of};
use std::alloc::Global;
use std::process::Abort;

static KEYS: [(&[u8], Option<KeyFault>); 10] = [
    (b"", Some(KeyFault::Empty)),
    (b"x", None),
    (&[b'x'; 250], None),
    (&[b'x'; 251], Some(KeyFault::TooLong)),
    (b"a\0b", Some(KeyFault::BadByte)),
    (b"\n", Some(KeyFault::BadByte)),
    (b"ab\r", Some(KeyFault::BadByte)),
    (b" ab", Some(KeyFault::BadByte)),
    (b"\x01\x7f\xff", None),
    (&[b' '; 251], Some(KeyFault::TooLong)),
];

fn same_fault(rt: &impl Abort, seen: Option<KeyFault>, wanted: Option<KeyFault>, place: usize) {
    assert_eq!(rt; seen, wanted, "at row {place}");
}

fn check_keys(rt: &impl Abort, alloc: Global, rows: &[(&[u8], Option<KeyFault>)]) {
    for (place, row) in rows.iter().enumerate() {
        same_fault(rt, Key::of(alloc, row.0).err(), row.1, place);
    }
}

#[test]
fn a_key_has_1_to_250_bytes_and_none_that_ends_a_token(rt: HostRuntime) {
    check_keys(&rt, rt.alloc(), KEYS.as_slice());
}

static EQUAL: [(&[u8], bool); 4] = [
    (b"abc", true),
    (b"abd", false),
    (b"ab", false),
    (b"abcd", false),
];

fn same_answer(rt: &impl Abort, seen: bool, wanted: bool, place: usize) {
    assert_eq!(rt; seen, wanted, "at row {place}");
}

fn check_equal(rt: &impl Abort, alloc: Global, first: &Key, rows: &[(&[u8], bool)]) {
    for (place, row) in rows.iter().enumerate() {
        let other = key(rt, alloc, row.0);
        same_answer(rt, *first == other, row.1, place);
    }
}

fn copy_of(rt: &impl Abort, alloc: Global, key: &Key) -> Key {
    key.copy(alloc).expect(rt, "memory")
}

#[test]
fn keys_are_equal_by_their_bytes(rt: HostRuntime) {
    let alloc = rt.alloc();
    let first = key(&rt, alloc, b"abc");
    same_bytes(&rt, first.bytes(), b"abc".as_slice(), 0);
    let copy = copy_of(&rt, alloc, &first);
    same_answer(&rt, first == copy, true, 0);
    check_equal(&rt, alloc, &first, EQUAL.as_slice());
}

// Against 31 bytes `x`: the least number of bytes that don't fit within a key itself.
static LONG_EQUAL: [(&[u8], bool); 5] = [
    (b"xxxxxxxxxxxxxxxxxxxxxxxxxxxxxxx", true),
    (b"xxxxxxxxxxxxxxxxxxxxxxxxxxxxxx", false),
    (b"xxxxxxxxxxxxxxxxxxxxxxxxxxxxxxxx", false),
    (b"xxxxxxxxxxxxxxxxxxxxxxxxxxxxxxy", false),
    (b"yxxxxxxxxxxxxxxxxxxxxxxxxxxxxxx", false),
];

#[test]
fn keys_of_more_than_30_bytes_are_equal_byte_by_byte(rt: HostRuntime) {
    let alloc = rt.alloc();
    let first = key(&rt, alloc, &[b'x'; 31]);
    same_bytes(&rt, first.bytes(), &[b'x'; 31], 0);
    let copy = copy_of(&rt, alloc, &first);
    same_bytes(&rt, copy.bytes(), &[b'x'; 31], 1);
    same_answer(&rt, first == copy, true, 1);
    check_equal(&rt, alloc, &first, LONG_EQUAL.as_slice());
}

// A key, and its stripe of 1, of 4 and of 64. The hashes of `a`, `b`, `c` are those of the authors' own list; the last one's is
// 9d5e284d.
static STRIPES: [(&[u8], &str); 4] = [
    (b"a", "0 0 44"),
    (b"b", "0 1 37"),
    (b"c", "0 2 18"),
    (&[b'x'; 250], "0 1 13"),
];

fn text_of_stripes(rt: &impl Abort, alloc: Global, key: &Key) -> String {
    let (one, four, many) = (
        stripe_of(key, 1).0,
        stripe_of(key, 4).0,
        stripe_of(key, 64).0,
    );
    format!(in alloc; "{one} {four} {many}").expect(rt, "memory")
}

fn check_stripes(rt: &impl Abort, alloc: Global, bytes: &[u8], wanted: &str, place: usize) {
    let key = key(rt, alloc, bytes);
    let stripes = text_of_stripes(rt, alloc, &key);
    same(rt, stripes.as_str(), wanted, place);
}

fn check_all_stripes(rt: &impl Abort, alloc: Global, rows: &[(&[u8], &str)]) {
    for (place, row) in rows.iter().enumerate() {
        check_stripes(rt, alloc, row.0, row.1, place);
    }
}

#[test]
fn a_key_has_the_stripe_of_its_hash(rt: HostRuntime) {
    check_all_stripes(&rt, rt.alloc(), STRIPES.as_slice());
}
