//! What a command wants and does to chunks, row by row of the table of commands: each row was worked out by hand.
//! An item of the key `b` costs 65 bytes and those of its value; class 1 has 66 bytes, class 2 has 70.
use super::Asked::{Decr, Delete, Gat, Get, Huge, Incr, Store, Touch};
use super::calls::expire;
use super::rows::Ask::{Answer, Events};
use super::rows::check_rows;
use super::tries::{GROWN, NEW_1, NEW_2, OLD, OVER_1, OVER_2};
use super::trying::{Held, Lent, held_of, opened, try_command, turn_at};
use super::{Asked, rows};
use mc_item::Need::{Fresh, Nothing, Same, TooLarge};
use mc_item::{ClassNo, Fault, Link, Need, Verb};
use mc_stripe::Fate::{Goes, Untouched, Woken};
use mc_stripe::{Classes, Done, Fate, StripeState, Want};
use mc_testing::WHO;
use std::alloc::Global;
use std::process::Abort;
use std::random::RandomSource;

// What is asked, what it needs, and what becomes of chunks with a link and without one.
type Row = (Asked, Need, Fate, Fate);

const FIRST: Need = Fresh(ClassNo(1));

const SECOND: Need = Fresh(ClassNo(2));

static ABSENT: [Row; 15] = [
    (Get, Nothing, Untouched, Untouched),
    (Gat(100), Nothing, Untouched, Untouched),
    (Store(Verb::Set, "1"), FIRST, NEW_1, Untouched),
    (Store(Verb::Add, "12"), SECOND, NEW_2, Untouched),
    (Store(Verb::Replace, "1"), Nothing, Untouched, Untouched),
    (Store(Verb::Cas(2), "1"), Nothing, Untouched, Untouched),
    (Store(Verb::Append, "123456"), Nothing, Untouched, Untouched),
    (Store(Verb::Set, "123456"), TooLarge, Untouched, Untouched),
    (Huge(Verb::Set), TooLarge, Untouched, Untouched),
    (Huge(Verb::Add), TooLarge, Untouched, Untouched),
    (Huge(Verb::Prepend), TooLarge, Untouched, Untouched),
    (Incr(1), Nothing, Untouched, Untouched),
    (Decr(1), Nothing, Untouched, Untouched),
    (Touch(100), Nothing, Untouched, Untouched),
    (Delete, Nothing, Untouched, Untouched),
];

// The item's value is `9`, its cas number 2, and it was never hit.
static THERE: [Row; 22] = [
    (Get, Nothing, Untouched, Untouched),
    (Gat(100), Nothing, Untouched, Untouched),
    (Store(Verb::Set, "12"), SECOND, OVER_2, Goes(OLD)),
    (Store(Verb::Add, "1"), Nothing, Untouched, Untouched),
    (Store(Verb::Replace, "1"), FIRST, OVER_1, Untouched),
    (Store(Verb::Cas(2), "1"), FIRST, OVER_1, Untouched),
    (Store(Verb::Cas(3), "1"), Nothing, Untouched, Untouched),
    (Store(Verb::Set, "123456"), TooLarge, Goes(OLD), Goes(OLD)),
    (Store(Verb::Add, "123456"), TooLarge, Untouched, Untouched),
    (Huge(Verb::Set), TooLarge, Goes(OLD), Goes(OLD)),
    (Huge(Verb::Replace), TooLarge, Untouched, Untouched),
    (Huge(Verb::Cas(2)), TooLarge, Untouched, Untouched),
    (Store(Verb::Append, "1"), SECOND, OVER_2, Untouched),
    (Store(Verb::Prepend, ""), FIRST, OVER_1, Untouched),
    (
        Store(Verb::Prepend, "12345"),
        TooLarge,
        Untouched,
        Untouched,
    ),
    (Huge(Verb::Append), TooLarge, Untouched, Untouched),
    (Incr(1), SECOND, OVER_2, Untouched),
    (Incr(1000000), TooLarge, Untouched, Untouched),
    (Decr(1), Same, Untouched, Untouched),
    (Decr(10), Same, Untouched, Untouched),
    (Touch(100), Nothing, Untouched, Untouched),
    (Delete, Nothing, Goes(OLD), Goes(OLD)),
];

// The item was hit by a touch, and dies at the moment 1100.
static TOUCHED: [Row; 7] = [
    (Get, Nothing, Woken(OLD), Woken(OLD)),
    (Gat(200), Nothing, Woken(OLD), Woken(OLD)),
    (Touch(200), Nothing, Woken(OLD), Woken(OLD)),
    (Store(Verb::Set, "1"), FIRST, OVER_1, Goes(OLD)),
    (Delete, Nothing, Goes(OLD), Goes(OLD)),
    (Incr(1), SECOND, GROWN, Untouched),
    (Store(Verb::Append, "1"), SECOND, GROWN, Untouched),
];

// The item is dead, so that the key has none once that is forgotten.
static DEAD: [Row; 7] = [
    (Get, Nothing, Untouched, Untouched),
    (Gat(100), Nothing, Untouched, Untouched),
    (Store(Verb::Set, "1"), FIRST, NEW_1, Untouched),
    (Store(Verb::Add, "1"), FIRST, NEW_1, Untouched),
    (Store(Verb::Replace, "1"), Nothing, Untouched, Untouched),
    (Store(Verb::Append, "1"), Nothing, Untouched, Untouched),
    (Delete, Nothing, Untouched, Untouched),
];

// What happened to a stripe, the moment at which a command is asked, and the link of the item that is dead then.
type State = (&'static [rows::Row], u64, Option<Link>);

// The class of an item whose chunk is touched: that it goes, or is replaced by a version of another class.
fn class_touched(need: Need, fate: Fate) -> Option<ClassNo> {
    match fate {
        Fate::Untouched | Fate::Woken(_) => None,
        Fate::Goes(link) => Some(link.class),
        Fate::Renewed { old, .. } => match (need, old) {
            (Fresh(class), Some(link)) if class.0 != link.class.0 => Some(link.class),
            _ => None,
        },
    }
}

// The classes that a row wants.
fn classes_in(row: Row) -> Classes {
    let home = match row.1 {
        Fresh(class) => Some(class),
        Nothing | Same | TooLarge => None,
    };
    let other = class_touched(row.1, row.2);
    Classes { home, other }
}

// The stripe to which that happened. The item that is dead has to be buried, and is.
fn begun<R: Abort + RandomSource>(
    rt: &R,
    alloc: Global,
    state: State,
    asked: Asked,
) -> StripeState {
    let (rows, moment, dead) = state;
    let mut stripe = opened(rt, alloc);
    check_rows(rt, alloc, &mut stripe, rows);
    if let Some(link) = dead {
        let turn = turn_at(moment);
        let got = try_command(rt, alloc, &mut stripe, turn, asked, Held::Nothing);
        check_want(rt, &got, Want::Burial(link));
        expire(rt, alloc, &mut stripe, WHO, moment);
    }
    stripe
}

pub(super) type Told = Result<Result<Done, Want>, Fault>;

/// Ends the test where something else is wanted.
pub(super) fn check_want<R: Abort>(rt: &R, got: &Told, wanted: Want) {
    match got {
        Ok(Err(want)) => assert_eq!(rt; *want, wanted),
        Ok(Ok(_)) | Err(_) => assert!(rt; false, "{wanted:?} should be wanted"),
    }
}

// Ends the test where something else becomes of chunks.
fn check_fate<R: Abort>(rt: &R, got: &Told, fate: Fate) {
    match got {
        Ok(Ok(done)) => assert_eq!(rt; done.fate, fate),
        Ok(Err(_)) | Err(_) => assert!(rt; false, "{fate:?} should become of chunks"),
    }
}

// Ends the test where a command wants something else than the row says, or else becomes of chunks with what a class lends.
fn check_lent<R: Abort + RandomSource>(
    rt: &R,
    alloc: Global,
    state: State,
    row: Row,
    lent: Lent,
    fate: Fate,
) {
    let (asked, turn) = (row.0, turn_at(state.1));
    let mut stripe = begun(rt, alloc, state, asked);
    let classes = classes_in(row);
    if classes.home.is_some() || classes.other.is_some() {
        let got = try_command(rt, alloc, &mut stripe, turn, asked, Held::Nothing);
        check_want(rt, &got, Want::Classes(classes));
    }
    let held = held_of(classes, lent, 2);
    let got = try_command(rt, alloc, &mut stripe, turn, asked, held);
    check_fate(rt, &got, fate);
}

// Ends the test where a command wants or does something else.
fn check_wants<R: Abort + RandomSource>(rt: &R, alloc: Global, state: State, rows: &[Row]) {
    for row in rows {
        check_lent(rt, alloc, state, *row, Lent::Link, row.2);
        check_lent(rt, alloc, state, *row, Lent::Refusal, row.3);
    }
}

static NONE: [rows::Row; 1] = [(Events, "0")];

#[test]
fn an_absent_item_takes_a_chunk_only_if_it_is_stored(rt: HostRuntime) {
    let state = (NONE.as_slice(), 1000, None);
    check_wants(&rt, rt.alloc(), state, ABSENT.as_slice());
}

static NINE: [rows::Row; 1] = [(Answer(Store(Verb::Set, "9")), "Stored")];

#[test]
fn an_item_keeps_its_chunk_unless_it_is_replaced_or_removed(rt: HostRuntime) {
    let state = (NINE.as_slice(), 1000, None);
    check_wants(&rt, rt.alloc(), state, THERE.as_slice());
}

static HIT: [rows::Row; 2] = [
    (Answer(Store(Verb::Set, "9")), "Stored"),
    (Answer(Touch(100)), "Touched"),
];

#[test]
fn an_item_that_was_hit_once_is_woken_by_the_next_hit(rt: HostRuntime) {
    let state = (HIT.as_slice(), 1000, None);
    check_wants(&rt, rt.alloc(), state, TOUCHED.as_slice());
    let state = (HIT.as_slice(), 1099, None);
    check_wants(&rt, rt.alloc(), state, TOUCHED.as_slice());
}

#[test]
fn a_dead_item_is_absent_once_it_is_buried(rt: HostRuntime) {
    let state = (HIT.as_slice(), 1100, Some(OLD));
    check_wants(&rt, rt.alloc(), state, DEAD.as_slice());
}
