//! Tries of commands on stripe 1 of 4. Each adds its event and does to its item what it tells, or nothing.
use super::calls::{asserts_owned, fault_text};
use super::noted::{command_text, text_of_event};
use super::texts::{reply_text, text, text_of_item};
use super::{Asked, b, checked, command_of, four_stripes};
use mc_item::{ClassNo, Fault, Item, Link, Marks, Room, StripeNo};
use mc_stripe::{Classes, Done, Fate, Given, Home, Other, StripeState, Turn, Want};
use mc_testing::{WHO, may_give};
use std::alloc::Global;
use std::hash::RandomState;
use std::process::Abort;
use std::random::RandomSource;

/// What a class lends: the link that has the number of the event, a refusal, or no room.
#[derive(Clone, Copy)]
pub(super) enum Lent {
    Link,
    Refusal,
    Nothing,
}

/// What a command holds: the class of its new version with what that lends, the class of its item, and the places of each.
#[derive(Clone, Copy)]
pub(super) enum Held {
    Nothing,
    Home(u32, Lent, u64),
    Other(u32, u64),
    Both(u32, Lent, u64, u32, u64),
}

/// What a try tells: the reply, the room that was taken, and what became of chunks; or what is wanted; or the fault.
#[derive(Clone, Copy)]
pub(super) enum Told {
    Made(&'static str, Lent, Fate),
    Wants(Want),
    Fails(Fault),
}

/// A command of the key `b`, what it holds, and what its try tells.
pub(super) type Row = (Asked, Held, Told);

/// Stripe 1 of four, without items or events.
pub(super) fn opened<R: Abort + RandomSource>(rt: &R, alloc: Global) -> StripeState {
    opened_up_to(rt, alloc, 70)
}

/// The same, where a chunk of class 2 has so many bytes.
pub(super) fn opened_up_to<R: Abort + RandomSource>(
    rt: &R,
    alloc: Global,
    largest: u64,
) -> StripeState {
    let config = checked(rt, four_stripes(rt, alloc, largest));
    let seed = RandomState::new(rt).expect(rt, "a seed");
    StripeState::new(alloc, StripeNo(1), &config, seed)
}

/// The turn of `WHO`, at a moment.
pub(super) fn turn_at(moment: u64) -> Turn {
    Turn { who: WHO, moment }
}

/// How many events a stripe has.
pub(super) fn events(stripe: &StripeState) -> u64 {
    stripe.history().len() as u64
}

// The room that a class lends to the event of this number.
fn room_of(class: u32, lent: Lent, number: u64) -> Room {
    let class = ClassNo(class);
    match lent {
        Lent::Link => Room::At(Link { class, number }),
        Lent::Refusal => Room::Refused { class, place: 77 },
        Lent::Nothing => Room::Keep,
    }
}

fn home(class: u32, lent: Lent, places: u64, number: u64) -> Option<Home> {
    Some(Home {
        class: ClassNo(class),
        room: room_of(class, lent, number),
        places,
    })
}

fn other(class: u32, places: u64) -> Option<Other> {
    let class = ClassNo(class);
    Some(Other { class, places })
}

/// What the command of the event of this number is given.
pub(super) fn given_of(held: Held, number: u64) -> Given {
    match held {
        Held::Nothing => Given {
            home: None,
            other: None,
        },
        Held::Home(class, lent, places) => Given {
            home: home(class, lent, places, number),
            other: None,
        },
        Held::Other(class, places) => Given {
            home: None,
            other: other(class, places),
        },
        Held::Both(class, lent, places, of, left) => Given {
            home: home(class, lent, places, number),
            other: other(of, left),
        },
    }
}

/// What is held of these classes, where that of a new version lends this and each history has so many places.
pub(super) fn held_of(classes: Classes, lent: Lent, places: u64) -> Held {
    match (classes.home, classes.other) {
        (Some(home), Some(other)) => Held::Both(home.0, lent, places, other.0, places),
        (Some(home), None) => Held::Home(home.0, lent, places),
        (None, Some(other)) => Held::Other(other.0, places),
        (None, None) => Held::Nothing,
    }
}

// The text of the last event, where there is one.
fn last_text<R: Abort>(rt: &R, alloc: Global, stripe: &StripeState) -> String {
    match stripe.history().len().checked_sub(1) {
        Some(place) => text_of_event(rt, alloc, stripe, place),
        None => text(rt, alloc, "none"),
    }
}

// The link and the marks of an item.
#[derive(Clone, Copy)]
struct Chunk {
    link: Link,
    marks: Marks,
}

// What a stripe has: how many events, the texts of the last one and of the item of the key `b`, and that item's chunk.
#[derive(Drop)]
struct Seen {
    events: u64,
    last: String,
    item: String,
    chunk: Option<Chunk>,
}

fn chunk_of<R: Abort>(rt: &R, alloc: Global, stripe: &StripeState) -> Option<Chunk> {
    let key = b(rt, alloc);
    let item = stripe.find(&key)?;
    Some(Chunk {
        link: item.link,
        marks: item.marks,
    })
}

fn seen_now<R: Abort>(rt: &R, alloc: Global, stripe: &StripeState) -> Seen {
    Seen {
        events: events(stripe),
        last: last_text(rt, alloc, stripe),
        item: text_of_item(rt, alloc, stripe),
        chunk: chunk_of(rt, alloc, stripe),
    }
}

fn link_in(chunk: Option<Chunk>) -> Option<Link> {
    Some(chunk?.link)
}

// What became of a chunk, or of the mark ACTIVE beside it, where the item is there now.
fn fate_to(before: Option<Chunk>, now: &Item) -> Fate {
    match before {
        Some(chunk) if chunk.link == now.link => {
            if now.marks.active && !chunk.marks.active {
                Fate::Woken(chunk.link)
            } else {
                Fate::Untouched
            }
        }
        _ => Fate::Renewed {
            cost: (now.value.bytes().len() as u64).saturating_add(65),
            expiry: now.expiry,
            old: link_in(before),
        },
    }
}

// The same, where the item may be absent now.
fn fate_between(before: Option<Chunk>, now: Option<&Item>) -> Fate {
    match (now, link_in(before)) {
        (Some(item), _) => fate_to(before, item),
        (None, Some(link)) => Fate::Goes(link),
        (None, None) => Fate::Untouched,
    }
}

// Whether a command hits an item.
fn is_hit(asked: Asked) -> bool {
    match asked {
        Asked::Get | Asked::Gat(_) | Asked::Touch(_) => true,
        _ => false,
    }
}

// The marks of an item that has this link now: the first hit leaves FETCHED, the next one ACTIVE.
fn marks_after(before: Option<Chunk>, link: Link, hit: bool) -> Marks {
    match before {
        Some(chunk) if chunk.link == link => Marks {
            fetched: chunk.marks.fetched || hit,
            active: chunk.marks.active || (hit && chunk.marks.fetched),
        },
        _ => Marks {
            fetched: false,
            active: false,
        },
    }
}

// Ends the test where a command that was made left other marks, or another fate than it tells.
fn check_item<R: Abort>(
    rt: &R,
    alloc: Global,
    before: Option<Chunk>,
    stripe: &StripeState,
    asked: Asked,
    fate: Fate,
) {
    let key = b(rt, alloc);
    let now = stripe.find(&key);
    assert_eq!(rt; fate, fate_between(before, now));
    if let Some(item) = now {
        assert_eq!(rt; item.marks, marks_after(before, item.link, is_hit(asked)));
    }
}

// Ends the test where this isn't the event that was added.
fn check_event<R: Abort>(rt: &R, alloc: Global, before: &Seen, stripe: &StripeState, event: &str) {
    assert_eq!(rt; events(stripe), before.events.saturating_add(1));
    let last = last_text(rt, alloc, stripe);
    assert_eq!(rt; last.as_str(), event);
}

// Ends the test where a command that wasn't made left something else than there was.
fn check_open<R: Abort>(rt: &R, before: &Seen, now: &Seen) {
    assert_eq!(rt; now.events, before.events);
    assert_eq!(rt; now.last.as_str(), before.last.as_str());
    assert_eq!(rt; now.item.as_str(), before.item.as_str());
}

/// What the try of a command in a caller's turn tells. The test ends where something else happened.
pub(super) fn try_command<R: Abort>(
    rt: &R,
    alloc: Global,
    stripe: &mut StripeState,
    turn: Turn,
    asked: Asked,
    held: Held,
) -> Result<Result<Done, Want>, Fault> {
    let command = command_of(rt, alloc, asked);
    let given = given_of(held, events(stripe));
    asserts_owned(rt, stripe, &command, turn.moment);
    assert!(rt; may_give(given, stripe.history()));
    let before = seen_now(rt, alloc, stripe);
    let got = stripe.attempt(&command, turn, &given);
    match &got {
        Ok(Ok(done)) => {
            let event = command_text(rt, alloc, turn, &command, &done.reply, done.room);
            check_event(rt, alloc, &before, stripe, event.as_str());
            check_item(rt, alloc, before.chunk, stripe, asked, done.fate);
        }
        Ok(Err(_)) | Err(_) => check_open(rt, &before, &seen_now(rt, alloc, stripe)),
    }
    got
}

// What became of a command with this reply, which took this room.
fn made_text<R: Abort>(rt: &R, alloc: Global, reply: &str, room: Room, fate: Fate) -> String {
    format!(in alloc; "{reply}; {room:?}; {fate:?}").expect(rt, "a text")
}

/// The text of what is wanted.
pub(super) fn want_text<R: Abort>(rt: &R, alloc: Global, want: Want) -> String {
    format!(in alloc; "{want:?}").expect(rt, "a text")
}

// The text of what a try tells.
fn text_of_text<R: Abort>(
    rt: &R,
    alloc: Global,
    got: &Result<Result<Done, Want>, Fault>,
) -> String {
    match got {
        Ok(Ok(done)) => {
            let reply = reply_text(rt, alloc, &done.reply);
            made_text(rt, alloc, reply.as_str(), done.room, done.fate)
        }
        Ok(Err(want)) => want_text(rt, alloc, *want),
        Err(fault) => fault_text(rt, alloc, *fault),
    }
}

// The class of a new version that is held, and else none.
fn class_in(held: Held) -> u32 {
    match held {
        Held::Home(class, ..) | Held::Both(class, ..) => class,
        Held::Nothing | Held::Other(..) => 0,
    }
}

// The text of what the try of this event is to tell.
fn wanted_text<R: Abort>(rt: &R, alloc: Global, got: Told, held: Held, number: u64) -> String {
    match got {
        Told::Made(reply, lent, fate) => {
            let room = room_of(class_in(held), lent, number);
            made_text(rt, alloc, reply, room, fate)
        }
        Told::Wants(want) => want_text(rt, alloc, want),
        Told::Fails(fault) => fault_text(rt, alloc, fault),
    }
}

// The texts of what a row tells, and of what it is to tell.
fn row_texts<R: Abort>(
    rt: &R,
    alloc: Global,
    stripe: &mut StripeState,
    moment: u64,
    row: Row,
) -> (String, String) {
    let (asked, held, got) = row;
    let wanted = wanted_text(rt, alloc, got, held, events(stripe));
    let got = try_command(rt, alloc, stripe, turn_at(moment), asked, held);
    (text_of_text(rt, alloc, &got), wanted)
}

/// Ends the test where a row tells something else at this moment.
pub(super) fn check_tries<R: Abort>(
    rt: &R,
    alloc: Global,
    stripe: &mut StripeState,
    moment: u64,
    rows: &[Row],
) {
    for (place, row) in rows.iter().enumerate() {
        let (got, wanted) = row_texts(rt, alloc, stripe, moment, *row);
        assert_eq!(rt; got.as_str(), wanted.as_str(), "at row {place}");
    }
}
