//! A test of stripe 1 of 4 is a list of rows: what is done or looked at, and what it tells.
use super::Asked;
use super::calls::{
    cool, cools_without_memory, expire, is_b_active, is_dead_at, take, text_of_last, text_of_reply,
};
use super::noted::text_of_event;
use super::texts::{text, text_of_item};
use super::trying::{opened, turn_at};
use mc_item::{Key, Who};
use mc_stripe::{StripeState, Turn};
use std::alloc::Global;
use std::process::Abort;
use std::random::RandomSource;

/// What a row does or looks at. The moment is 1000 where none is named.
#[derive(Clone, Copy)]
pub(super) enum Ask {
    // A command that is given the classes that it wants: its reply, what else is wanted, or the fault.
    Answer(Asked),
    // The same of caller 9 in this turn, as many seconds after the moment 1000.
    Turn(u32, Asked),
    // The same where the class is full.
    FullTurn(u32, Asked),
    // So many gets: how many of them missed.
    Misses(u32),
    // Room for so many events.
    Reserve(usize),
    // The item's mark is cleared by caller 9 in this turn.
    Cool(u32),
    // A get, and the mark that it leaves is cleared, in room that was made for both.
    GetAndCool,
    // The item's chunk is taken, by the event at this place, in this turn of caller 9.
    Take(u32, u64),
    // The item goes, which is dead at this moment, in this turn of caller 9.
    Expire(u32, u64),
    // Whether the item is dead at a moment.
    Dead(u64),
    // Whether the item has the mark ACTIVE.
    Active,
    // Whether the stripe has the key of this letter.
    Owns(u8),
    // The item.
    Item,
    // The reply that the last event notes.
    Last,
    // The event at a place.
    Event(usize),
    // How many events the history has.
    Events,
    // The stripe's number.
    Number,
}

pub(super) type Row = (Ask, &'static str);

// Caller 9 in a turn.
fn nine(turn: u32) -> Who {
    Who {
        caller: 9,
        turn: u64::from(turn),
    }
}

// The reply to a command of caller 9 in a turn.
fn text_of_turn<R: Abort>(
    rt: &R,
    alloc: Global,
    stripe: &mut StripeState,
    turn: u32,
    asked: Asked,
    full: bool,
) -> String {
    let (who, moment) = (nine(turn), 1000 + u64::from(turn));
    text_of_reply(rt, alloc, stripe, Turn { who, moment }, asked, full)
}

fn number_text<R: Abort>(rt: &R, alloc: Global, number: u64) -> String {
    format!(in alloc; "{number}").expect(rt, "a text")
}

fn truth<R: Abort>(rt: &R, alloc: Global, holds: bool) -> String {
    text(rt, alloc, if holds { "true" } else { "false" })
}

// How many of so many gets missed.
fn text_of_misses<R: Abort>(rt: &R, alloc: Global, stripe: &mut StripeState, gets: u32) -> String {
    let mut misses = 0u64;
    for _i in 0..gets {
        let got = text_of_reply(rt, alloc, stripe, turn_at(1000), Asked::Get, false);
        if got.as_str() == "Miss" {
            misses = misses.saturating_add(1);
        }
    }
    number_text(rt, alloc, misses)
}

fn text_of_room<R: Abort>(
    rt: &R,
    alloc: Global,
    stripe: &mut StripeState,
    events: usize,
) -> String {
    let made = stripe.reserve(events);
    format!(in alloc; "{made:?}").expect(rt, "a text")
}

fn owns<R: Abort>(rt: &R, alloc: Global, stripe: &StripeState, letter: u8) -> bool {
    let key = Key::of(alloc, &[letter]).expect(rt, "a key");
    stripe.owns(&key)
}

// What a look at the stripe tells.
fn look<R: Abort>(rt: &R, alloc: Global, stripe: &StripeState, ask: Ask) -> String {
    match ask {
        Ask::Dead(moment) => truth(rt, alloc, is_dead_at(rt, alloc, stripe, moment)),
        Ask::Active => truth(rt, alloc, is_b_active(rt, alloc, stripe)),
        Ask::Owns(letter) => truth(rt, alloc, owns(rt, alloc, stripe, letter)),
        Ask::Item => text_of_item(rt, alloc, stripe),
        Ask::Last => text_of_last(rt, alloc, stripe),
        Ask::Event(place) => text_of_event(rt, alloc, stripe, place),
        Ask::Events => number_text(rt, alloc, stripe.history().len() as u64),
        Ask::Number => number_text(rt, alloc, u64::from(stripe.number().0)),
        _ => text(rt, alloc, "no look"),
    }
}

// What an upkeep of the stripe tells.
fn keep_up<R: Abort>(rt: &R, alloc: Global, stripe: &mut StripeState, ask: Ask) -> String {
    match ask {
        Ask::Reserve(events) => text_of_room(rt, alloc, stripe, events),
        Ask::GetAndCool => text(rt, alloc, cools_without_memory(rt, alloc, stripe)),
        Ask::Cool(turn) => {
            cool(rt, alloc, stripe, nine(turn));
            text(rt, alloc, "cooled")
        }
        Ask::Take(turn, place) => {
            take(rt, alloc, stripe, nine(turn), place);
            text(rt, alloc, "taken")
        }
        Ask::Expire(turn, moment) => {
            expire(rt, alloc, stripe, nine(turn), moment);
            text(rt, alloc, "expired")
        }
        _ => look(rt, alloc, stripe, ask),
    }
}

// What a row does, and what it tells.
fn tell<R: Abort>(rt: &R, alloc: Global, stripe: &mut StripeState, ask: Ask) -> String {
    match ask {
        Ask::Answer(asked) => text_of_reply(rt, alloc, stripe, turn_at(1000), asked, false),
        Ask::Turn(turn, asked) => text_of_turn(rt, alloc, stripe, turn, asked, false),
        Ask::FullTurn(turn, asked) => text_of_turn(rt, alloc, stripe, turn, asked, true),
        Ask::Misses(gets) => text_of_misses(rt, alloc, stripe, gets),
        _ => keep_up(rt, alloc, stripe, ask),
    }
}

fn same<R: Abort>(rt: &R, got: &str, wanted: &str, place: usize) {
    assert_eq!(rt; got, wanted, "at row {place}");
}

// Ends the test where a row tells something else.
fn check_row<R: Abort>(rt: &R, alloc: Global, stripe: &mut StripeState, row: &Row, place: usize) {
    let got = tell(rt, alloc, stripe, row.0);
    same(rt, got.as_str(), row.1, place);
}

/// Ends the test where a row tells something else.
pub(super) fn check_rows<R: Abort>(rt: &R, alloc: Global, stripe: &mut StripeState, rows: &[Row]) {
    for (place, row) in rows.iter().enumerate() {
        check_row(rt, alloc, stripe, row, place);
    }
}

/// Ends the test where a row tells something else of stripe 1 of 4, which begins empty.
pub(super) fn play<R: Abort + RandomSource>(rt: &R, alloc: Global, rows: &[Row]) {
    let mut stripe = opened(rt, alloc);
    check_rows(rt, alloc, &mut stripe, rows);
}
