//! Tries as rows: what is asked, what it tells, and the events that each history gains.
ghost use Rattle.std.specs.Prelude.{OnOk};
ghost use Rattle.mc_pull_tests.specs.Met.{AreMet};

use super::seeing::{Seen, tell_seen, text_of_class, text_of_stripe};
use super::trying::{Lend, Pair, opened, tell_command};
use mc_history::GhostList;
use mc_item::{Command, StripeNo, Verb};
use mc_pull::{Judge, Lone, settle};
use mc_testing::{WHO, context, key, storage};
use std::alloc::Global;
use std::process::Abort;
use std::random::RandomSource;
use std::test::Fail;

/// What is asked: of commands, for the key of one letter.
#[derive(Clone, Copy)]
pub(super) enum Asked {
    Get(u8),
    /// A gat with exptime 0.
    Gat(u8),
    Delete(u8),
    /// A set to so many letters.
    Set(u8, usize),
    /// A set to one letter, with this exptime.
    SetUntil(u8, i64),
    /// A set to one letter, with the refusal at this place of the first class's history.
    SetRefused(u8, u64),
    /// An append of so many letters.
    Append(u8, usize),
    /// An append of one letter, with the refusal at this place of the first class's history.
    AppendRefused(u8, u64),
    /// A prepend of so many letters.
    Prepend(u8, usize),
    /// A set whose block no class can hold.
    SetHuge(u8),
    Incr(u8, u64),
    Decr(u8, u64),
    /// A touch with exptime 0.
    Touch(u8),
    /// The first class is juggled.
    Juggle,
    /// The first class, which is full, notes a refusal.
    Refuse,
    /// Whether the item of this entry of the first class is dead: then both go.
    Bury(u64),
    /// What follows is asked at this moment; the first rows are at 1000.
    At(u64),
    /// What is seen of the first class and the stripe.
    See(Seen),
}

/// What is asked, what it is lent, what it tells, and the events that the two classes and the stripe gain.
pub(super) type Row = (Asked, Lend, &'static str, [&'static str; 3]);

/// What gains no event.
pub(super) const NONE: [&str; 3] = ["", "", ""];

/// What gains the event of a command in the stripe alone.
pub(super) const DOES: [&str; 3] = ["", "", "[does]"];

/// What a command wants that needs the class of its item.
pub(super) const ITEM: &str = "Classes(Classes { home: None, other: Some(ClassNo(1)) })";

// A storage command for the key of one letter, with so many of that letter.
fn storage_of(
    alloc: Global,
    verb: Verb,
    letter: u8,
    len: usize,
    exptime: i64,
) -> Result<Command, Fail> {
    let text = [letter; 128];
    let text = &text[..usize::min(len, 128)];
    storage(alloc, verb, letter, 0, exptime, text)
}

// The command that is asked, where one is.
fn command_of(alloc: Global, asked: Asked) -> Result<Command, Fail> {
    match asked {
        Asked::Get(letter) => Ok(Command::Get(key(alloc, letter)?)),
        Asked::Gat(letter) => Ok(Command::Gat(key(alloc, letter)?, 0)),
        Asked::Delete(letter) => Ok(Command::Delete(key(alloc, letter)?)),
        Asked::Incr(letter, delta) => Ok(Command::Incr(key(alloc, letter)?, delta)),
        Asked::Decr(letter, delta) => Ok(Command::Decr(key(alloc, letter)?, delta)),
        Asked::Touch(letter) => Ok(Command::Touch(key(alloc, letter)?, 0)),
        Asked::Set(letter, len) => storage_of(alloc, Verb::Set, letter, len, 0),
        Asked::SetUntil(letter, exptime) => storage_of(alloc, Verb::Set, letter, 1, exptime),
        Asked::SetRefused(letter, _) => storage_of(alloc, Verb::Set, letter, 1, 0),
        Asked::Append(letter, len) => storage_of(alloc, Verb::Append, letter, len, 0),
        Asked::AppendRefused(letter, _) => storage_of(alloc, Verb::Append, letter, 1, 0),
        Asked::Prepend(letter, len) => storage_of(alloc, Verb::Prepend, letter, len, 0),
        Asked::SetHuge(letter) => {
            let key = key(alloc, letter)?;
            let verb = Verb::Set;
            Ok(Command::Huge { verb, key })
        }
        Asked::Juggle | Asked::Refuse | Asked::Bury(_) | Asked::At(_) | Asked::See(_) => {
            Err(Fail::from("that is no command"))
        }
    }
}

// The place of the refusal that is cited.
fn refused_of(asked: Asked) -> Option<u64> {
    match asked {
        Asked::SetRefused(_, place) | Asked::AppendRefused(_, place) => Some(place),
        _ => None,
    }
}

fn tell_juggle(pair: &mut Pair) -> Result<String, Fail>
    requires met { AreMet pair.old.config pair.old.stripe pair.old.first pair.old.second }
    ensures met { OnOk result (AreMet pair.new.config pair.new.stripe pair.new.first pair.new.second) }
{
    let mut gate = Lone {
        number: StripeNo(0),
        stripe: &mut pair.stripe,
        answers: &mut GhostList::new(),
    };
    let context = context(pair.moment, &pair.config);
    let moves = gate.juggle(context, &mut pair.first)?;
    Ok(format!(in pair.alloc; "{} moved", moves.moved)?)
}

fn tell_refusal(pair: &mut Pair) -> Result<String, Fail>
    requires met { AreMet pair.old.config pair.old.stripe pair.old.first pair.old.second }
    ensures met { OnOk result (AreMet pair.new.config pair.new.stripe pair.new.first pair.new.second) }
{
    if !pair.first.is_full() {
        return Err(Fail::from("a chunk is free"));
    }
    let place = pair.first.refuse(WHO)?;
    Ok(format!(in pair.alloc; "refused at {place}")?)
}

fn tell_burial(pair: &mut Pair, number: u64) -> Result<String, Fail>
    requires met { AreMet pair.old.config pair.old.stripe pair.old.first pair.old.second }
    ensures met { OnOk result (AreMet pair.new.config pair.new.stripe pair.new.first pair.new.second) }
{
    let alloc = pair.alloc;
    let Some(_) = pair.first.entry(number) else {
        return Err(Fail::from("there is no such entry"));
    };
    let context = context(pair.moment, &pair.config);
    let class = &mut pair.first;
    let done = settle(context, class, &mut pair.stripe, number, &Judge::Dead)?;
    Ok(format!(in alloc; "{done:?}")?)
}

// Another moment.
fn tell_moment(pair: &mut Pair, moment: u64) -> Result<String, Fail>
    requires met { AreMet pair.old.config pair.old.stripe pair.old.first pair.old.second }
    ensures met { OnOk result (AreMet pair.new.config pair.new.stripe pair.new.first pair.new.second) }
{
    pair.moment = moment;
    Ok(format!(in pair.alloc; "")?)
}

// Does what a row asks, and tells what came of it.
fn tell_asked(pair: &mut Pair, asked: Asked, lend: Lend) -> Result<String, Fail>
    requires met { AreMet pair.old.config pair.old.stripe pair.old.first pair.old.second }
    ensures met { OnOk result (AreMet pair.new.config pair.new.stripe pair.new.first pair.new.second) }
{
    match asked {
        Asked::Juggle => tell_juggle(pair),
        Asked::Refuse => tell_refusal(pair),
        Asked::Bury(number) => tell_burial(pair, number),
        Asked::At(moment) => tell_moment(pair, moment),
        Asked::See(seen) => tell_seen(pair.alloc, &pair.first, &pair.stripe, seen),
        asked => {
            let command = command_of(pair.alloc, asked)?;
            tell_command(pair, &command, lend, refused_of(asked))
        }
    }
}

// How many events the classes and the stripe have.
fn lengths(pair: &Pair) -> [usize; 3] {
    [
        pair.first.history().len(),
        pair.second.history().len(),
        pair.stripe.history().len(),
    ]
}

// Ends the test where a row tells something else, or another event comes.
fn check_row<R: Abort>(rt: &R, pair: &mut Pair, row: &Row, place: usize) -> Result<(), Fail>
    requires met { AreMet pair.old.config pair.old.stripe pair.old.first pair.old.second }
    ensures met { OnOk result (AreMet pair.new.config pair.new.stripe pair.new.first pair.new.second) }
{
    let before = lengths(pair);
    let got = tell_asked(pair, row.0, row.1)?;
    assert_eq!(rt; got.as_str(), row.2, "at row {place}");
    let first = text_of_class(pair.alloc, &pair.first, before[0])?;
    assert_eq!(rt;
        first.as_str(),
        row.3[0],
        "of the first class at row {place}"
    );
    let second = text_of_class(pair.alloc, &pair.second, before[1])?;
    assert_eq!(rt;
        second.as_str(),
        row.3[1],
        "of the second class at row {place}"
    );
    let stripe = text_of_stripe(pair.alloc, &pair.stripe, before[2])?;
    assert_eq!(rt; stripe.as_str(), row.3[2], "of the stripe at row {place}");
    Ok(())
}

// Plays rows on a stripe and its classes.
fn play_rows<R: Abort>(rt: &R, pair: &mut Pair, rows: &[Row]) -> Result<(), Fail>
    requires met { AreMet pair.old.config pair.old.stripe pair.old.first pair.old.second }
    ensures met { OnOk result (AreMet pair.new.config pair.new.stripe pair.new.first pair.new.second) }
{
    for (place, row) in rows.iter().enumerate() {
        check_row(rt, pair, row, place)?;
    }
    Ok(())
}

/// Plays rows, one part after the other, on classes of so many chunks, where each history has so many places.
pub(super) fn play<R: Abort + RandomSource>(
    rt: &R,
    alloc: Global,
    chunks: u64,
    places: u64,
    parts: &[&[Row]],
) -> Result<(), Fail> {
    let mut pair = opened(rt, alloc, chunks, places)?;
    for rows in parts {
        play_rows(rt, &mut pair, rows)?;
    }
    Ok(())
}
