//! Stores with full classes, and what a command answers and leaves there.
use super::asking::Ask;
use super::ends::{End, Ended};
use super::running::Act::{On, Value};
use super::running::{self, check_script};
use mc_item::{Config, Numbers};
use std::alloc::Global;
use std::process::Abort;
use std::random::RandomSource;
use std::sync::Wait;

/// A store before a command on the own key, `o`: its classes, what was set at 1000 in this order, and the other key that is
/// looked at behind the command.
#[derive(Clone, Copy)]
pub(super) struct Before {
    pub(super) sizes: &'static [u64],
    pub(super) chunks: &'static [u64],
    pub(super) sets: &'static [(u8, &'static str)],
    pub(super) other: u8,
}

/// How it came to that: whether items of at most 60 seconds go to TEMP, the exptime of all that was set, and how often the own
/// item was hit then. Where the own item is dead, it was set for 10 seconds, and the command comes at 1010.
#[derive(Clone, Copy)]
pub(super) struct Mode {
    pub(super) temp: bool,
    pub(super) exptime: i64,
    pub(super) hits: u64,
    pub(super) dead: bool,
}

/// Nothing expires or was hit, and TEMP isn't in use.
pub(super) const PLAIN: Mode = Mode {
    temp: false,
    exptime: 0,
    hits: 0,
    dead: false,
};

/// All entries are in TEMP.
pub(super) const IN_TEMP: Mode = Mode {
    temp: true,
    exptime: 30,
    ..PLAIN
};

/// A command on the own key; its reply; what the own key and the other have then, or `-`; and how many entries the last
/// classes have. Those before them have none.
pub(super) type Row = (
    Ask,
    &'static str,
    &'static str,
    &'static str,
    &'static [u64],
);

// What such a store is made with.
fn config_of<R: Abort>(rt: &R, alloc: Global, before: &Before, temp: bool) -> Config {
    let sizes = Vec::from_slice(alloc, before.sizes).expect(rt, "sizes");
    let chunks = Vec::from_slice(alloc, before.chunks).expect(rt, "numbers");
    let usual = Config::usual(alloc, 1).expect(rt, "a configuration");
    Config {
        sizes: Numbers::from_vec(sizes),
        chunks: Numbers::from_vec(chunks),
        temp,
        temp_ttl: 60,
        ..usual
    }
}

// The exptime of what was set under a key.
fn exptime_of(mode: Mode, letter: u8) -> i64 {
    if mode.dead && letter == b'o' {
        10
    } else {
        mode.exptime
    }
}

// The moment of the command.
fn moment_of(mode: Mode) -> u32 {
    if mode.dead { 1010 } else { 1000 }
}

// The rows of a script, as far as they are written.
#[derive(Drop)]
struct Script {
    rows: Vec<running::Row>,
}

fn add<R: Abort>(rt: &R, script: &mut Script, row: running::Row) {
    script.rows.push(row).ok().expect(rt, "room for a row");
}

// Sets what is there before the command, and hits the own item, whose value is the first one's.
fn fill<R: Abort>(rt: &R, script: &mut Script, before: &Before, mode: Mode) {
    for (letter, text) in before.sets {
        let put = Ask::Expiring(exptime_of(mode, *letter), *text);
        add(rt, script, (0, 1000, On(*letter, put), "Stored"));
    }
    for _hit in 0..mode.hits {
        add(rt, script, (0, 1000, Value(b'o'), "5"));
    }
}

// The command of a row, and what the own key and the other one have then.
fn look<R: Abort>(rt: &R, script: &mut Script, moment: u32, other: u8, row: &Row) {
    add(rt, script, (0, moment, On(b'o', row.0), row.1));
    add(rt, script, (0, moment, Value(b'o'), row.2));
    add(rt, script, (0, moment, Value(other), row.3));
}

// How many entries the class at a place should have: the last classes those of the list, the `others` before them none.
fn wanted_at(place: usize, others: usize, last: &[u64]) -> u64 {
    match last.get(place.wrapping_sub(others)) {
        Some(entries) => *entries,
        None => 0,
    }
}

// How many entries each of so many classes is to have.
fn entries_of<R: Abort>(rt: &R, alloc: Global, classes: usize, last: &[u64]) -> Vec<Ended> {
    let mut ends = Vec::new(alloc);
    let others = classes.saturating_sub(last.len());
    let mut class = 0u32;
    for place in 0..classes {
        class = class.wrapping_add(1);
        let end = (End::Entries(class), wanted_at(place, others, last));
        ends.push(end).ok().expect(rt, "room for an end");
    }
    ends
}

// Ends the test where a row isn't so of such a store.
fn check_row<R: Abort + Wait + RandomSource>(
    rt: &R,
    alloc: Global,
    before: &Before,
    mode: Mode,
    row: &Row,
) {
    let mut script = Script {
        rows: Vec::new(alloc),
    };
    fill(rt, &mut script, before, mode);
    look(rt, &mut script, moment_of(mode), before.other, row);
    let ends = entries_of(rt, alloc, before.sizes.len(), row.4);
    let config = config_of(rt, alloc, before, mode.temp);
    check_script(rt, alloc, config, script.rows.as_slice(), ends.as_slice());
}

/// Ends the test where one of the rows isn't so of such a store.
pub(super) fn check_rows<R: Abort + Wait + RandomSource>(
    rt: &R,
    alloc: Global,
    before: &Before,
    mode: Mode,
    rows: &[Row],
) {
    for row in rows {
        check_row(rt, alloc, before, mode, row);
    }
}
