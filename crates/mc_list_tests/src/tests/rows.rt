//! A test of a class is a list of rows: what is done or looked at, and what it tells.
use super::class_lists::class_of;
use super::deeds::{
    Call, New, evict, force, hit, keep_active, link, link_until, reclaim, refuse, try_set_chunks,
    unlink, unlink_but,
};
use super::{WHO, same};
use mc_item::{Expiry, Fault, Key, Seg};
use mc_segment::{ClassState, Survey};
use std::alloc::Global;
use std::process::Abort;
use std::test::Fail;

/// What is done to a class. It tells the number of the entry, or the place of the event.
#[derive(Clone, Copy)]
pub(super) enum Deed {
    // A new entry: its key, cost, moment and expiry.
    Link(&'static str, u64, u64, Expiry),
    // HOT's tail goes to COLD at a moment.
    Force(u64),
    // COLD's tail is taken.
    Evict,
    // An entry goes with its item.
    Unlink(u64),
    // An entry goes whose item is dead at this moment.
    Reclaim(u64, u64),
    // A full class has no chunk.
    Refuse,
}

/// What of a class is looked at.
#[derive(Clone, Copy)]
pub(super) enum Sight {
    Bytes(Seg),
    Len(Seg),
    Count,
    Events,
    NextNumber,
    Chunks,
    Number,
    IsFull,
    // Whether the history has places for so many events.
    HasPlaces(usize),
    // The segment of an entry.
    Segment(u64),
    // The number of the j-th entry from a list's tail.
    Tail(Seg, u64),
    // The time of a list's tail.
    Time(Seg),
    // The key of the j-th entry from a list's tail.
    TailKey(Seg, u64),
    // The numbers of the j entries nearest HOT's tail.
    Passed(u64),
    // The number of the next newer entry.
    Newer(u64),
    // The cost of an entry.
    Cost(u64),
    // The key of an entry.
    Key(u64),
    // The bytes of HOT, WARM, COLD and TEMP, and then how many entries each has.
    Figures,
}

/// What a row does or looks at.
#[derive(Clone, Copy)]
pub(super) enum Ask {
    Do(Deed),
    // An entry of COLD is hit at this moment.
    Hit(u64, u64),
    // WARM's tail is found active at this moment.
    KeepActive(u64),
    // New entries until so many were linked.
    LinkUntil(u64),
    // The entries below the first number go, but for the second.
    UnlinkBut(u64, u64),
    // The survey at a moment: its place, its total and COLD's age; or the fault.
    Survey(u64),
    // So many surveys at the moment 1000.
    Surveys(u64),
    // Room for so many events.
    Reserve(usize),
    // A new limit of chunks.
    SetChunks(u64),
    See(Sight),
}

const CALL: Call = Call { who: WHO, at: 0 };

pub(super) type Row = (Ask, &'static str);

fn text<R: Abort>(rt: &R, alloc: Global, got: &str) -> String {
    format!(in alloc; "{got}").expect(rt, "a text")
}

fn number_text<R: Abort>(rt: &R, alloc: Global, number: u64) -> String {
    format!(in alloc; "{number}").expect(rt, "a text")
}

fn some_text<R: Abort>(rt: &R, alloc: Global, number: Option<u64>) -> String {
    match number {
        Some(number) => number_text(rt, alloc, number),
        None => text(rt, alloc, "none"),
    }
}

fn numbers_text<R: Abort>(rt: &R, alloc: Global, numbers: &[u64]) -> String {
    format!(in alloc; "{numbers:?}").expect(rt, "a text")
}

fn key_text<R: Abort>(rt: &R, alloc: Global, key: &Key) -> String {
    format!(in alloc; "{:?}", key.bytes()).expect(rt, "a text")
}

fn room_text<R: Abort>(rt: &R, alloc: Global, made: Result<(), Fault>) -> String {
    format!(in alloc; "{made:?}").expect(rt, "a text")
}

fn full_text<R: Abort>(rt: &R, alloc: Global, full: bool) -> String {
    text(rt, alloc, if full { "full" } else { "not full" })
}

fn places_text<R: Abort>(rt: &R, alloc: Global, places: bool) -> String {
    format!(in alloc; "{places}").expect(rt, "a text")
}

fn segment_text<R: Abort>(rt: &R, alloc: Global, segment: Option<Seg>) -> String {
    format!(in alloc; "{segment:?}").expect(rt, "a text")
}

fn survey_text<R: Abort>(rt: &R, alloc: Global, survey: Survey) -> String {
    let Survey {
        place,
        total,
        cold_age,
    } = survey;
    numbers_text(rt, alloc, &[place, total, cold_age])
}

fn text_of_survey<R: Abort>(rt: &R, alloc: Global, class: &mut ClassState, moment: u64) -> String {
    match class.survey(WHO, moment) {
        Ok(survey) => survey_text(rt, alloc, survey),
        Err(fault) => room_text(rt, alloc, Err(fault)),
    }
}

// How many of so many surveys at the moment 1000 have the next place and find nothing.
fn text_of_surveys<R: Abort>(
    rt: &R,
    alloc: Global,
    class: &mut ClassState,
    surveys: u64,
) -> String {
    let mut right = 0u64;
    for place in 0..surveys {
        let got = text_of_survey(rt, alloc, class, 1000);
        let wanted = numbers_text(rt, alloc, &[place, 0, 0]);
        if got.as_str() == wanted.as_str() {
            right = right.saturating_add(1);
        }
    }
    number_text(rt, alloc, right)
}

fn text_of_passed<R: Abort>(rt: &R, alloc: Global, class: &ClassState, j: u64) -> String {
    assert!(rt; j <= 4);
    assert!(rt; j <= class.len(Seg::Hot));
    numbers_text(rt, alloc, class.passed(Seg::Hot, j).as_slice())
}

fn text_of_tail_key<R: Abort>(
    rt: &R,
    alloc: Global,
    class: &ClassState,
    seg: Seg,
    j: u64,
) -> String {
    let entry = class.from_tail(seg, j).expect(rt, "an entry");
    key_text(rt, alloc, &entry.key)
}

fn text_of_key<R: Abort>(rt: &R, alloc: Global, class: &ClassState, number: u64) -> String {
    assert!(rt; class.segment_of(number).is_some());
    let key = class.key(number).expect(rt, "a key");
    key_text(rt, alloc, &key)
}

// What of a class is a number.
fn number_of(class: &ClassState, sight: Sight) -> Option<u64> {
    match sight {
        Sight::Bytes(seg) => Some(class.bytes(seg)),
        Sight::Len(seg) => Some(class.len(seg)),
        Sight::Count => Some(class.count()),
        Sight::Events => Some(class.history().len() as u64),
        Sight::NextNumber => Some(class.next_number()),
        Sight::Chunks => Some(class.chunks()),
        Sight::Number => Some(u64::from(class.number().0)),
        _ => entry_of(class, sight),
    }
}

// What of an entry is a number.
fn entry_of(class: &ClassState, sight: Sight) -> Option<u64> {
    match sight {
        Sight::Tail(seg, j) => Some(class.from_tail(seg, j)?.number),
        Sight::Time(seg) => Some(class.from_tail(seg, 0)?.time),
        Sight::Newer(number) => Some(class.next_newer(number)?.number),
        Sight::Cost(number) => Some(class.entry(number)?.cost),
        _ => None,
    }
}

// What a look at a class tells.
fn look<R: Abort>(rt: &R, alloc: Global, class: &ClassState, sight: Sight) -> String {
    match sight {
        Sight::IsFull => full_text(rt, alloc, class.is_full()),
        Sight::HasPlaces(n) => places_text(rt, alloc, class.has_places(n)),
        Sight::Segment(number) => segment_text(rt, alloc, class.segment_of(number)),
        Sight::TailKey(seg, j) => text_of_tail_key(rt, alloc, class, seg, j),
        Sight::Passed(j) => text_of_passed(rt, alloc, class, j),
        Sight::Key(number) => text_of_key(rt, alloc, class, number),
        Sight::Figures => numbers_text(rt, alloc, &class.figures()),
        _ => some_text(rt, alloc, number_of(class, sight)),
    }
}

fn act<R: Abort>(rt: &R, alloc: Global, class: &mut ClassState, deed: Deed) -> u64 {
    match deed {
        Deed::Link(text, cost, moment, expiry) => {
            let key = text.as_bytes();
            let new = New {
                key,
                cost,
                moment,
                expiry,
            };
            link(rt, alloc, class, WHO, new)
        }
        Deed::Force(moment) => force(rt, class, CALL, 0, moment),
        Deed::Evict => evict(rt, class, CALL, 0),
        Deed::Unlink(number) => unlink(rt, class, WHO, number),
        Deed::Reclaim(number, moment) => reclaim(rt, class, CALL, number, moment),
        Deed::Refuse => refuse(rt, class, WHO),
    }
}

// What a row does that tells a number.
fn answered_number<R: Abort>(rt: &R, alloc: Global, class: &mut ClassState, ask: Ask) -> u64 {
    match ask {
        Ask::Do(deed) => act(rt, alloc, class, deed),
        Ask::Hit(number, moment) => hit(rt, class, CALL, number, moment),
        Ask::KeepActive(moment) => keep_active(rt, class, moment),
        Ask::LinkUntil(count) => link_until(rt, alloc, class, count),
        Ask::UnlinkBut(until, kept) => unlink_but(rt, class, until, kept),
        _ => 0,
    }
}

// What a row does, and what it tells.
fn tell<R: Abort>(rt: &R, alloc: Global, class: &mut ClassState, ask: Ask) -> String {
    match ask {
        Ask::Survey(moment) => text_of_survey(rt, alloc, class, moment),
        Ask::Surveys(surveys) => text_of_surveys(rt, alloc, class, surveys),
        Ask::Reserve(events) => room_text(rt, alloc, class.reserve(events)),
        Ask::SetChunks(chunks) => room_text(rt, alloc, try_set_chunks(rt, class, WHO, chunks)),
        Ask::See(sight) => look(rt, alloc, class, sight),
        _ => number_text(rt, alloc, answered_number(rt, alloc, class, ask)),
    }
}

// Ends the test where a row tells something else.
fn check_row<R: Abort>(rt: &R, alloc: Global, class: &mut ClassState, row: &Row, place: usize) {
    let got = tell(rt, alloc, class, row.0);
    same(rt, got.as_str(), row.1, place);
}

fn check_rows<R: Abort>(rt: &R, alloc: Global, class: &mut ClassState, rows: &[Row]) {
    for (place, row) in rows.iter().enumerate() {
        check_row(rt, alloc, class, row, place);
    }
}

/// A class with this many chunks, TEMP in use or not, and a history that holds so many events, and keeps them or not.
#[derive(Clone, Copy)]
pub(super) struct Start {
    pub chunks: u64,
    pub temp: bool,
    pub max_events: u64,
    pub keeps_events: bool,
}

/// Ends the test where a row tells something else of a class that begins empty.
pub(super) fn play<R: Abort>(
    rt: &R,
    alloc: Global,
    start: Start,
    rows: &[Row],
) -> Result<(), Fail> {
    let mut class = class_of(alloc, start)?;
    check_rows(rt, alloc, &mut class, rows);
    Ok(())
}
