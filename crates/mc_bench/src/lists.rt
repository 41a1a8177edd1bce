//! Times a class: links, forced moves from a tail, hits in a random order, and removals in a random order; and links
//! of which few stay.

use crate::{nanos_each, print_row};
use mc_item::{ClassNo, Config, Expiry, Fault, Key, Numbers, Passed, Seg, Shifted, Who, Why};
use mc_segment::{ClassState, EntryKey};
use std::alloc::Global;
use std::io;
use std::time::Instant;

const WHO: Who = Who { caller: 0, turn: 0 };

#[derive(Clone, Copy)]
enum Call {
    Link,
    // A link, of which each thousandth stays and the others go at once.
    LinkFew,
    // A move from HOT's tail to COLD.
    Force,
    Hit,
    Unlink,
}

// A call, its row's label, and what its random numbers begin with.
type Load = (Call, &'static str, u64);

static LOADS: [Load; 4] = [
    (Call::Link, "ns a link", 1),
    (Call::Force, "ns a forced move", 1),
    (Call::Hit, "ns a random hit", 1),
    (Call::Unlink, "ns a random unlink", 7),
];

static FEW: [Load; 1] = [(Call::LinkFew, "ns a link and removal", 1)];

fn link(alloc: Global, class: &mut ClassState, moment: u64) -> Result<(), Fault> {
    let Ok(key) = Key::of(alloc, b"a_key_of_twenty_byte") else {
        return Err(Fault::NoMemory);
    };
    if class.count() < class.chunks() {
        let copy = Some(key.copy(alloc)?);
        class.link(WHO, EntryKey { key, copy }, 66, moment, Expiry::Never)?;
    }
    Ok(())
}

fn link_few(alloc: Global, class: &mut ClassState, moment: u64) -> Result<(), Fault> {
    link(alloc, class, moment)?;
    if moment % 1000 == 0 {
        return Ok(());
    }
    unlink(class, moment)
}

fn force(class: &mut ClassState) -> Result<(), Fault> {
    if class.count() < class.chunks() {
        return Ok(());
    }
    let Some(entry) = class.from_tail(Seg::Hot, 0) else {
        return Ok(());
    };
    let shifted = Shifted {
        who: WHO,
        number: entry.number,
        from_seg: Seg::Hot,
        to_seg: Seg::Cold,
        why: Why::Forced,
        moment: 0,
        passed: Passed::of(&[]),
        at: 0,
    };
    class.shift(shifted)
}

fn hit(class: &mut ClassState, number: u64, moment: u64) -> Result<(), Fault> {
    if class.segment_of(number) != Some(Seg::Cold) {
        return Ok(());
    }
    class.shift(Shifted {
        who: WHO,
        number,
        from_seg: Seg::Cold,
        to_seg: Seg::Warm,
        why: Why::Hit,
        moment,
        passed: Passed::of(&[]),
        at: 0,
    })
}

fn unlink(class: &mut ClassState, number: u64) -> Result<(), Fault> {
    if class.segment_of(number).is_none() {
        return Ok(());
    }
    class.unlink(WHO, number)
}

// Makes a call, on an entry of this number where it doesn't choose one itself.
fn make(
    alloc: Global,
    class: &mut ClassState,
    call: Call,
    moment: u64,
    number: u64,
) -> Result<(), Fault> {
    match call {
        Call::Link => link(alloc, class, moment),
        Call::LinkFew => link_few(alloc, class, moment),
        Call::Force => force(class),
        Call::Hit => hit(class, number, moment),
        Call::Unlink => unlink(class, number),
    }
}

// Nanoseconds a call of a load, as many times as there are entries. Numbers are drawn without a division, to cost little.
fn time(rt: &HostRuntime, class: &mut ClassState, load: Load, entries: u64) -> Option<u64> {
    let start = Instant::now(rt).ok()?;
    let mut x = load.2;
    for moment in 0..entries {
        x = x
            .wrapping_mul(6_364_136_223_846_793_005)
            .wrapping_add(1_442_695_040_888_963_407);
        let number = (x >> 32).wrapping_mul(entries) >> 32;
        make(rt.alloc(), class, load.0, moment, number).ok()?;
    }
    nanos_each(rt, start, entries)
}

/// The most memory that the process had, in kilobytes.
pub(crate) fn peak(rt: &HostRuntime) -> Option<u64> {
    let status = std::fs::read_to_string(rt, "/proc/self/status").ok()?;
    let (_, after) = status.as_str().split_once("VmHWM:")?;
    after.split_whitespace().next()?.parse().ok()
}

fn time_loads(
    rt: &HostRuntime,
    class: &mut ClassState,
    loads: &[Load],
    entries: u64,
) -> io::Result<()> {
    for load in loads {
        print_row(rt, load.1, entries, time(rt, class, *load, entries))?;
    }
    print_row(rt, "entries left", entries, Some(class.count()))?;
    print_row(rt, "kilobytes at the peak", entries, peak(rt))
}

// The configuration of a class with this many chunks.
fn with_chunks(alloc: Global, chunks: u64) -> Option<Config> {
    let sizes = Numbers::from_vec(Vec::from_slice(alloc, &[96]).ok()?);
    let chunks = Numbers::from_vec(Vec::from_slice(alloc, &[chunks]).ok()?);
    let usual = Config::usual(alloc, 3).ok()?;
    Some(Config {
        sizes,
        chunks,
        max_events: 1 << 24,
        ..usual
    })
}

fn class_with(alloc: Global, chunks: u64) -> Option<ClassState> {
    let config = with_chunks(alloc, chunks)?.check().ok()?;
    Some(ClassState::new(alloc, ClassNo(1), &config))
}

// Times loads on a new class, and prints the most memory that the process had.
fn run(rt: &HostRuntime, loads: &[Load], entries: u64) -> io::Result<()> {
    match class_with(rt.alloc(), entries) {
        Some(mut class) => time_loads(rt, &mut class, loads, entries),
        None => println!(rt; "no memory"),
    }
}

/// Times classes of three sizes.
pub(crate) fn time_all(rt: &HostRuntime) -> io::Result<()> {
    run(rt, &LOADS, 10_000)?;
    run(rt, &LOADS, 100_000)?;
    run(rt, &LOADS, 1_000_000)
}

/// Times a million links of which a thousand stay.
pub(crate) fn time_few(rt: &HostRuntime) -> io::Result<()> {
    run(rt, &FEW, 1_000_000)
}
