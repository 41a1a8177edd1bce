//! Requests that are drawn and written as the table of lines in docs/GUIDE.md says, and what is read of them.
use super::dice::Dice;
use super::drawn::{alike, push_any, read_cut};
use super::show::{mark, number, read, text};
use super::spelling::{Row, TABLE, Token};
use std::alloc::Global;
use std::process::Abort;

// What is drawn for a request. Classes are all where the class is 0.
#[derive(Drop)]
struct Drawn {
    key: Vec<u8>,
    other: Vec<u8>,
    flags: u32,
    exptime: i64,
    value: Vec<u8>,
    number: u64,
    moment: u64,
    class: usize,
    quiet: bool,
}

// A byte that a key may have.
fn key_byte(dice: &mut Dice) -> u8 {
    match dice.byte() {
        b'\0' | b'\n' | b'\r' | b' ' => b'k',
        byte => byte,
    }
}

// Of eight keys one may be long.
fn key_length(dice: &mut Dice) -> usize {
    if dice.below(8) == 0 {
        dice.below(250)
    } else {
        dice.below(12)
    }
}

fn draw_key(rt: &impl Abort, alloc: Global, dice: &mut Dice) -> Vec<u8> {
    let mut key = Vec::from_slice(alloc, b"k").expect(rt, "memory");
    for _ in 0..key_length(dice) {
        key.push(key_byte(dice)).expect(rt, "memory");
    }
    key
}

fn draw_value(rt: &impl Abort, alloc: Global, dice: &mut Dice) -> Vec<u8> {
    let mut value = Vec::new(alloc);
    let count = dice.below(40);
    push_any(rt, dice, &mut value, count);
    value
}

fn draw_flags(dice: &mut Dice) -> u32 {
    u32::try_from(dice.of_any_length() % 4_294_967_296).unwrap_or(0)
}

// An exptime has at most 18 digits.
fn draw_exptime(dice: &mut Dice) -> i64 {
    let seconds = i64::try_from(dice.of_any_length() % 1_000_000_000_000_000_000).unwrap_or(0);
    if dice.below(2) == 0 {
        seconds
    } else {
        seconds.wrapping_neg()
    }
}

fn draw(rt: &impl Abort, alloc: Global, dice: &mut Dice) -> Drawn {
    let key = draw_key(rt, alloc, dice);
    let other = draw_key(rt, alloc, dice);
    let value = draw_value(rt, alloc, dice);
    let flags = draw_flags(dice);
    let exptime = draw_exptime(dice);
    let number = dice.of_any_length();
    let moment = dice.of_any_length() % 4_611_686_018_427_387_905;
    let class = dice.below(44);
    let quiet = dice.below(2) == 0;
    Drawn {
        key,
        other,
        flags,
        exptime,
        value,
        number,
        moment,
        class,
        quiet,
    }
}

// Adds a space and a word.
fn word(rt: &impl Abort, out: &mut Vec<u8>, word: &[u8]) {
    text(rt, out, b" ".as_slice());
    text(rt, out, word);
}

fn classes(rt: &impl Abort, out: &mut Vec<u8>, class: usize) {
    if class == 0 {
        word(rt, out, b"all".as_slice());
    } else {
        number(rt, out, class);
    }
}

fn both(rt: &impl Abort, out: &mut Vec<u8>, drawn: &Drawn) {
    word(rt, out, drawn.key.as_slice());
    word(rt, out, drawn.other.as_slice());
}

fn push_token(rt: &impl Abort, out: &mut Vec<u8>, token: Token, drawn: &Drawn) {
    match token {
        Token::Key => word(rt, out, drawn.key.as_slice()),
        Token::Keys => both(rt, out, drawn),
        Token::Flags => number(rt, out, drawn.flags),
        Token::Exptime => number(rt, out, drawn.exptime),
        Token::Bytes => number(rt, out, drawn.value.len()),
        Token::Value => word(rt, out, drawn.value.as_slice()),
        Token::Number => number(rt, out, drawn.number),
        Token::Moment => number(rt, out, drawn.moment),
        Token::Classes => classes(rt, out, drawn.class),
        Token::OneClass => number(rt, out, 1 + drawn.class % 43),
        Token::ChunkLimit => number(rt, out, 1 + drawn.number % 1_048_576),
    }
}

// Adds up to two spaces.
fn spaces(rt: &impl Abort, dice: &mut Dice, out: &mut Vec<u8>) {
    for _ in 0..dice.below(3) {
        text(rt, out, b" ".as_slice());
    }
}

fn spaced(rt: &impl Abort, dice: &mut Dice, out: &mut Vec<u8>, row: &Row, drawn: &Drawn) {
    for each in row.tokens {
        spaces(rt, dice, out);
        push_token(rt, out, *each, drawn);
    }
}

fn is_quiet(row: &Row, drawn: &Drawn) -> bool {
    row.takes_noreply && drawn.quiet
}

fn noreply(rt: &impl Abort, out: &mut Vec<u8>, is_quiet: bool) {
    if is_quiet {
        word(rt, out, b"noreply".as_slice());
    }
}

// A line ends in LF, with a CR or none before it.
fn end_line(rt: &impl Abort, dice: &mut Dice, out: &mut Vec<u8>) {
    if dice.below(2) == 0 {
        text(rt, out, b"\r\n".as_slice());
    } else {
        text(rt, out, b"\n".as_slice());
    }
}

fn block(rt: &impl Abort, out: &mut Vec<u8>, row: &Row, value: &[u8]) {
    if row.has_block {
        text(rt, out, value);
        text(rt, out, b"\r\n".as_slice());
    }
}

// Writes the line and the block of a request.
fn spell(rt: &impl Abort, dice: &mut Dice, out: &mut Vec<u8>, row: &Row, drawn: &Drawn) {
    spaces(rt, dice, out);
    text(rt, out, row.word);
    spaced(rt, dice, out, row, drawn);
    noreply(rt, out, is_quiet(row, drawn));
    spaces(rt, dice, out);
    end_line(rt, dice, out);
    block(rt, out, row, drawn.value.as_slice());
}

fn push_tokens(rt: &impl Abort, out: &mut Vec<u8>, tokens: &[Token], drawn: &Drawn) {
    for each in tokens {
        push_token(rt, out, *each, drawn);
    }
}

// Whether no class can hold the item: 64 and the bytes of key and value exceed the largest, which has 100.
fn is_huge(row: &Row, drawn: &Drawn) -> bool {
    row.has_block && drawn.key.len().saturating_add(drawn.value.len()) > 36
}

fn body(rt: &impl Abort, out: &mut Vec<u8>, row: &Row, drawn: &Drawn) {
    if is_huge(row, drawn) {
        text(rt, out, b"huge ".as_slice());
        text(rt, out, row.said);
        push_tokens(rt, out, row.huge, drawn);
    } else {
        text(rt, out, row.said);
        push_tokens(rt, out, row.shown, drawn);
    }
}

// Writes the request in short.
fn say(rt: &impl Abort, out: &mut Vec<u8>, row: &Row, drawn: &Drawn) {
    mark(rt, out, is_quiet(row, drawn));
    body(rt, out, row, drawn);
    text(rt, out, b";".as_slice());
}

fn push_request(
    rt: &impl Abort,
    alloc: Global,
    dice: &mut Dice,
    stream: &mut Vec<u8>,
    wanted: &mut Vec<u8>,
) {
    let row = TABLE.as_slice().get(dice.below(TABLE.len()));
    let row = row.expect(rt, "a row");
    let drawn = draw(rt, alloc, dice);
    spell(rt, dice, stream, row, &drawn);
    say(rt, wanted, row, &drawn);
}

fn push_requests(
    rt: &impl Abort,
    alloc: Global,
    dice: &mut Dice,
    stream: &mut Vec<u8>,
    wanted: &mut Vec<u8>,
) {
    for _ in 0..dice.below(16) {
        push_request(rt, alloc, dice, stream, wanted);
    }
    text(rt, wanted, b"nothing is left".as_slice());
}

/// A stream of drawn requests is read as just these, in one piece and cut at drawn places.
pub(super) fn check_requests(rt: &impl Abort, alloc: Global, dice: &mut Dice, round: usize) {
    let mut stream = Vec::new(alloc);
    let mut wanted = Vec::new(alloc);
    push_requests(rt, alloc, dice, &mut stream, &mut wanted);
    let whole = read(rt, alloc, stream.as_slice(), stream.len().max(1));
    alike(rt, whole.as_slice(), wanted.as_slice(), "requests", round);
    let cut = read_cut(rt, alloc, dice, stream.as_slice());
    alike(rt, cut.as_slice(), wanted.as_slice(), "cut requests", round);
}
