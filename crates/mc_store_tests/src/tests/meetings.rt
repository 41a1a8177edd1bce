//! What threads met on a store of four stripes and two classes, as its histories tell.
ghost use Rattle.std.specs.Prelude.{◌≡◌, length};

use super::ends::{class_event, stripe_event};
use super::paces::PLAYERS;
use mc_history::History;
use mc_item::{
    Cause, ClassEvent, ClassNo, Did, Key, Passed, Reply, Room, StripeEvent, StripeNo, Who,
};
use mc_segment::ClassState;
use mc_store::Final;
use mc_stripe::ShownStripe;
use std::process::Abort;

/// How often something was met.
#[derive(Clone, Copy, Debug)]
pub(super) struct Met {
    /// A command's search for a chunk took the item of its own key.
    own: u64,
    /// An item went from the first class to the second, for which both were locked.
    up: u64,
    /// One went from the second class to the first.
    down: u64,
    /// A command's walk passed entries, whose stripes were held, and took another.
    passed: u64,
    /// A walk of upkeep did.
    passed_by_upkeep: u64,
    /// A command found no chunk.
    refused: u64,
}

impl Met {
    /// Nothing.
    pub(super) fn none() -> Met {
        Met {
            own: 0,
            up: 0,
            down: 0,
            passed: 0,
            passed_by_upkeep: 0,
            refused: 0,
        }
    }
}

// What a stripe's history has told so far: the class of each letter's item, 0 if it has none, and whose call took which letter's
// item last.
#[derive(Drop)]
struct Told {
    classes: [u32; 26],
    taken: Option<(Who, u8)>,
}

fn letter_of(key: &Key) -> u8 {
    match key.bytes().first() {
        Some(letter) => *letter,
        None => b'a',
    }
}

// Notes the class of a letter's item, and answers that of the one before.
fn replaced(told: &mut Told, letter: u8, class: u32) -> u32 {
    let place = letter.wrapping_sub(b'a') % 26;
    let before = told.classes[place as usize];
    told.classes[place as usize] = class;
    before
}

// Counts a new entry of a letter's item.
fn count_link(met: &mut Met, told: &mut Told, letter: u8, class: u32) {
    match (replaced(told, letter, class), class) {
        (1, 2) => met.up = met.up.wrapping_add(1),
        (2, 1) => met.down = met.down.wrapping_add(1),
        _ => {}
    }
}

// Whether an answered command leaves no item under its key.
fn removes(reply: &Reply) -> bool {
    matches!(reply, Reply::Deleted | Reply::TooLarge | Reply::NoRoom)
}

fn count_did(met: &mut Met, told: &mut Told, did: &Did) {
    let letter = letter_of(did.command.key());
    if told.taken == Some((did.who, letter)) {
        met.own = met.own.wrapping_add(1);
    }
    match did.room {
        Room::At(link) => count_link(met, told, letter, link.class.0),
        _ => {
            if removes(&did.reply) {
                replaced(told, letter, 0);
            }
        }
    }
}

fn count_event(met: &mut Met, told: &mut Told, event: &StripeEvent) {
    match event {
        StripeEvent::Did(did) => count_did(met, told, did),
        StripeEvent::Lost(lost) => {
            let letter = letter_of(&lost.key);
            replaced(told, letter, 0);
            if let Cause::Taken { .. } = lost.cause {
                told.taken = Some((lost.who, letter));
            }
        }
        StripeEvent::Cooled(_) => {}
    }
}

fn count_stripe<R: Abort>(rt: &R, met: &mut Met, history: &History<StripeEvent, ShownStripe>) {
    let mut told = Told {
        classes: [0; 26],
        taken: None,
    };
    for place in 0..history.len() {
        count_event(met, &mut told, stripe_event(rt, history, place));
    }
}

// Counts a walk that took or moved an entry.
fn count_walk(met: &mut Met, who: Who, passed: &Passed) {
    if passed.as_slice().is_empty() {
        return;
    }
    if who.caller < PLAYERS {
        met.passed = met.passed.wrapping_add(1);
    } else {
        met.passed_by_upkeep = met.passed_by_upkeep.wrapping_add(1);
    }
}

fn count_class<R: Abort>(rt: &R, met: &mut Met, class: &ClassState) {
    let history = class.history();
    for place in 0..history.len() {
        match class_event(rt, history, place) {
            ClassEvent::Shifted(e) => count_walk(met, e.who, &e.passed),
            ClassEvent::Evicted(e) => count_walk(met, e.who, &e.passed),
            ClassEvent::Refused(_) => met.refused = met.refused.wrapping_add(1),
            _ => {}
        }
    }
}

/// Counts what a closed store's histories tell.
pub(super) fn count_met<R: Abort>(rt: &R, ledger: &Final, met: &mut Met)
    requires stripes { length ledger.now.stripes ≡ 4 }
    requires classes { length ledger.now.classes ≡ 2 }
{
    for stripe in 0..4 {
        count_stripe(rt, met, ledger.stripe(StripeNo(stripe)).history());
    }
    count_class(rt, met, ledger.class(ClassNo(1)));
    count_class(rt, met, ledger.class(ClassNo(2)));
}

/// Ends the test where something was never met.
pub(super) fn asserts_met<R: Abort>(rt: &R, met: Met) {
    let least = met.own.min(met.up).min(met.down);
    let least = least.min(met.passed).min(met.passed_by_upkeep);
    assert!(rt; least.min(met.refused) > 0, "{met:?}");
}
