//! Events that are let go: a store that lets them go answers and holds the same as one that keeps them.
ghost use Rattle.std.specs.Prelude.{◌≤◌, length};

use super::drawing::script_of;
use super::runs::{WHOLE, config_of, one_script, output_of, run_of};
use super::{SEED, add, same_bytes};
use mc_driver::Final;
use mc_item::{ClassNo, Entry, Item, Key, Seg, StripeNo};
use mc_segment::ClassState;
use mc_testing::Dice;
use std::alloc::{AllocError, Global};
use std::process::Abort;
use std::random::RandomSource;
use std::sync::Wait;
use std::thread::Threads;

// One class of two chunks, so that items are pulled, and many are too large.
static WORDS: [&str; 5] = ["mcseg", "--sizes", "96", "--chunks", "2"];

// The keys of drawn scripts.
static KEYS: [&str; 5] = ["a", "b", "c", "dd", "noreply"];

static SEGMENTS: [Seg; 4] = [Seg::Hot, Seg::Warm, Seg::Cold, Seg::Temp];

// So many scripts are drawn.
const MANY: usize = 100;

fn item_text(alloc: Global, key: &str, item: Option<&Item>) -> Result<String, AllocError> {
    format!(in alloc; "{key}: {item:?}\n")
}

fn entry_text(alloc: Global, seg: Seg, entry: &Entry) -> Result<String, AllocError> {
    format!(in alloc;
        "{seg:?}: {}, {:?}, {} bytes, {}\n",
        entry.number, entry.key, entry.cost, entry.time
    )
}

// Adds what the store holds under a key.
fn add_item<R: Abort>(rt: &R, alloc: Global, held: &mut Vec<u8>, ledger: &Final, name: &str)
    requires { 1 ≤ length ledger.now.stripes }
{
    let key = Key::of(alloc, name.as_bytes()).expect(rt, "a key");
    let item = ledger.stripe(StripeNo(0)).find(&key);
    let text = item_text(alloc, name, item).expect(rt, "memory");
    add(rt, held, text.as_str().as_bytes());
}

// Adds the entries of a list, from its tail.
fn add_list<R: Abort>(rt: &R, alloc: Global, held: &mut Vec<u8>, class: &ClassState, seg: Seg) {
    for place in 0..class.len(seg) {
        let entry = class.from_tail(seg, place).expect(rt, "an entry");
        let text = entry_text(alloc, seg, entry).expect(rt, "memory");
        add(rt, held, text.as_str().as_bytes());
    }
}

// What a store holds under each key and in each list.
fn held_in<R: Abort>(rt: &R, alloc: Global, ledger: &Final) -> Vec<u8>
    requires stripes { 1 ≤ length ledger.now.stripes }
    requires classes { 1 ≤ length ledger.now.classes }
{
    let mut held = Vec::new(alloc);
    for name in KEYS.as_slice() {
        add_item(rt, alloc, &mut held, ledger, name);
    }
    for seg in SEGMENTS.as_slice() {
        add_list(rt, alloc, &mut held, ledger.class(ClassNo(1)), *seg);
    }
    held
}

// The first event of each history can be read if it is kept, and else not.
fn asserts_kept<R: Abort>(rt: &R, ledger: &Final, keeps: bool)
    requires stripes { 1 ≤ length ledger.now.stripes }
    requires classes { 1 ≤ length ledger.now.classes }
{
    let stripe = ledger.stripe(StripeNo(0)).history();
    assert_eq!(rt; stripe.get(0).is_some(), keeps && stripe.len() > 0);
    let class = ledger.class(ClassNo(1)).history();
    assert_eq!(rt; class.get(0).is_some(), keeps && class.len() > 0);
}

// What a script printed and what it left in the store.
#[derive(Drop)]
struct Left {
    output: Vec<u8>,
    held: Vec<u8>,
}

// Runs a script on a store that keeps its events or lets them go.
fn left_by<'a, R: Abort + RandomSource + Threads + Wait + Sync>(
    rt: &'a R,
    alloc: Global,
    script: &'a [u8],
    keeps: bool,
) -> Left {
    let mut config = config_of(rt, alloc, WORDS.as_slice());
    config.keeps_events = keeps;
    let scripts = one_script(rt, alloc, script, WHOLE);
    let run = run_of(rt, alloc, config, scripts, &[]);
    asserts_kept(rt, &run.ledger, keeps);
    Left {
        output: output_of(rt, alloc, run.ends.as_slice()),
        held: held_in(rt, alloc, &run.ledger),
    }
}

fn check_script<R: Abort + RandomSource + Threads + Wait + Sync>(
    rt: &R,
    alloc: Global,
    script: &[u8],
    place: usize,
) {
    let kept = left_by(rt, alloc, script, true);
    let let_go = left_by(rt, alloc, script, false);
    same_bytes(
        rt,
        let_go.output.as_slice(),
        kept.output.as_slice(),
        "replies",
        place,
    );
    same_bytes(
        rt,
        let_go.held.as_slice(),
        kept.held.as_slice(),
        "items and lists",
        place,
    );
}

#[test]
fn what_is_let_go_changes_no_reply_no_item_and_no_list(rt: HostRuntime) {
    let mut dice = Dice::new(SEED);
    for place in 0..MANY {
        let script = script_of(&rt, rt.alloc(), &mut dice);
        check_script(&rt, rt.alloc(), script.as_slice(), place);
    }
}
