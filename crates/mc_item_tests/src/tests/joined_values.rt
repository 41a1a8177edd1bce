//! A joined value has the bytes of both of its parts, which stay as they were.
use crate::tests::copies::{block_of, part_of};
use crate::tests::{same_bytes, value};
use mc_item::Value;
use std::alloc::Global;
use std::process::Abort;

// The front, the back, and both joined.
type Row = (&'static [u8], &'static [u8], &'static [u8]);

static JOINS: [Row; 5] = [
    (b"", b"", b""),
    (b"", b"cd", b"cd"),
    (b"ab", b"", b"ab"),
    (b"ab", b"cd", b"abcd"),
    (b"a\r\n", b"\0", b"a\r\n\0"),
];

fn joined(rt: &impl Abort, alloc: Global, front: &Value, back: &Value) -> Value {
    Value::joined(alloc, front, back).expect(rt, "memory")
}

// The joined value is right while its parts are there, and once they are gone.
fn check_parts(rt: &impl Abort, alloc: Global, front: Value, back: Value, row: &Row, place: usize) {
    let both = joined(rt, alloc, &front, &back);
    same_bytes(rt, front.bytes(), row.0, place);
    same_bytes(rt, back.bytes(), row.1, place);
    same_bytes(rt, both.bytes(), row.2, place);
    drop(front);
    drop(back);
    same_bytes(rt, both.bytes(), row.2, place);
}

fn check_row(rt: &impl Abort, alloc: Global, row: &Row, place: usize) {
    let front = value(rt, alloc, row.0);
    let back = value(rt, alloc, row.1);
    check_parts(rt, alloc, front, back, row, place);
}

// The same of parts of one block, in which the back is before the front.
fn check_row_in_block(rt: &impl Abort, alloc: Global, row: &Row, place: usize) {
    let mut bytes = Vec::from_slice(alloc, row.1).expect(rt, "memory");
    bytes.extend_from_slice(row.0).expect(rt, "memory");
    let mut rest = block_of(rt, alloc, bytes.as_slice());
    let back = part_of(rt, alloc, &mut rest, row.1.len());
    let front = part_of(rt, alloc, &mut rest, row.0.len());
    check_parts(rt, alloc, front, back, row, place);
    same_bytes(rt, rest.as_slice(), b">".as_slice(), place);
}

fn check_rows(rt: &impl Abort, alloc: Global, rows: &[Row]) {
    for (place, row) in rows.iter().enumerate() {
        check_row(rt, alloc, row, place);
        check_row_in_block(rt, alloc, row, place);
    }
}

#[test]
fn joined_values_have_the_bytes_of_both(rt: HostRuntime) {
    check_rows(&rt, rt.alloc(), JOINS.as_slice());
}

#[test]
fn a_value_joins_itself(rt: HostRuntime) {
    let alloc = rt.alloc();
    let part = value(&rt, alloc, b"ab");
    let twice = joined(&rt, alloc, &part, &part);
    same_bytes(&rt, twice.bytes(), b"abab".as_slice(), 0);
    same_bytes(&rt, part.bytes(), b"ab".as_slice(), 1);
}
