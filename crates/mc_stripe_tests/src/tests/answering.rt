//! The runner of the rows of answers: a stripe after five versions, what a command wants, its reply, and what it leaves.
use super::Asked::{self, Get};
use super::calls::asserts_owned;
use super::texts::{text, text_of_item};
use super::trying::Held::{Home, Nothing};
use super::trying::Lent::Link;
use super::trying::{Held, events, given_of, opened, try_command, turn_at};
use super::value;
use super::wants::{Told, check_want};
use mc_item::{Command, Key, Verb};
use mc_stripe::{Classes, StripeState, Want};
use mc_testing::may_give;
use std::alloc::Global;
use std::process::Abort;
use std::random::RandomSource;

/// The item that is there, if one is: its value, and whether it was hit. It has the flags 5, the cas number 6 and the link 1.
pub(super) type There = Option<(&'static str, bool)>;

/// What is there, a command, what it holds, what it wants if it holds nothing, and its reply and what it leaves.
pub(super) type Row = (There, Asked, Held, Classes, &'static str);

/// No class.
pub(super) const NOTHING: Classes = Classes {
    home: None,
    other: None,
};

// A version of the item of a key of stripe 1 of 4, of these flags. A value of one byte is of class 1, and one of two to five
// bytes is of class 2. The link has the number of the event.
fn set<R: Abort>(
    rt: &R,
    alloc: Global,
    stripe: &mut StripeState,
    key: &[u8],
    flags: u32,
    text: &str,
) {
    let key = Key::of(alloc, key).expect(rt, "a key");
    let value = value(rt, alloc, text);
    let command = Command::Store {
        verb: Verb::Set,
        key,
        flags,
        exptime: 0,
        value,
    };
    let class = if text.len() < 2 { 1 } else { 2 };
    let given = given_of(Home(class, Link, 2), events(stripe));
    let turn = turn_at(1000);
    asserts_owned(rt, stripe, &command, turn.moment);
    assert!(rt; may_give(given, stripe.history()));
    let got = stripe
        .attempt(&command, turn, &given)
        .expect(rt, "no fault");
    assert!(rt; got.is_ok());
}

// Stripe 1 of 4 after five versions: the second is of the key `b`, where an item is there, and the others are of the key `f`.
fn begun<R: Abort + RandomSource>(rt: &R, alloc: Global, there: There) -> StripeState {
    let mut stripe = opened(rt, alloc);
    set(rt, alloc, &mut stripe, b"f", 0, "1");
    match there {
        None => set(rt, alloc, &mut stripe, b"f", 0, "1"),
        Some((text, _)) => set(rt, alloc, &mut stripe, b"b", 5, text),
    }
    for _ in 0..3 {
        set(rt, alloc, &mut stripe, b"f", 0, "1");
    }
    if let Some((_, true)) = there {
        let _hit = try_command(rt, alloc, &mut stripe, turn_at(1000), Get, Nothing);
    }
    stripe
}

// The reply to a command that was made, and what it left of the item that was there before.
fn answer_text<R: Abort>(
    rt: &R,
    alloc: Global,
    stripe: &StripeState,
    got: &Told,
    before: &str,
) -> String {
    let now = text_of_item(rt, alloc, stripe);
    let left = if now.as_str() == before && before != "none" {
        "the same"
    } else {
        now.as_str()
    };
    match got {
        Ok(Ok(done)) => format!(in alloc; "{:?}; {left}", done.reply).expect(rt, "a text"),
        Ok(Err(_)) | Err(_) => text(rt, alloc, "not made"),
    }
}

// Ends the test where a row tells something else.
fn check_row<R: Abort + RandomSource>(rt: &R, alloc: Global, row: &Row, place: usize) {
    let (there, asked, held, classes, wanted) = *row;
    let mut stripe = begun(rt, alloc, there);
    let before = text_of_item(rt, alloc, &stripe);
    if classes != NOTHING {
        let got = try_command(rt, alloc, &mut stripe, turn_at(1000), asked, Nothing);
        check_want(rt, &got, Want::Classes(classes));
    }
    let got = try_command(rt, alloc, &mut stripe, turn_at(1000), asked, held);
    let answer = answer_text(rt, alloc, &stripe, &got, before.as_str());
    assert_eq!(rt; answer.as_str(), wanted, "at row {place}");
}

/// Ends the test where a row tells something else.
pub(super) fn check_rows<R: Abort + RandomSource>(rt: &R, alloc: Global, rows: &[Row]) {
    for (place, row) in rows.iter().enumerate() {
        check_row(rt, alloc, row, place);
    }
}
