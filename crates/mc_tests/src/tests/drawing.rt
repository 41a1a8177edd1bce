//! Scripts and bytes that are drawn.
use super::add;
use mc_testing::Dice;
use std::alloc::Global;
use std::process::Abort;

// Lines of all commands. A capital letter or a bar stands for a word that is drawn (WORDS), `L` for a length and `B` for a
// block, mostly of this length; the rest stands for itself.
static LINES: [&str; 28] = [
    "GSK|",
    "GSKSK|",
    "GSKSKSKS|",
    "G|",
    "ASESK|",
    "ASESKSKSK|",
    "ASE|",
    "VSKSFSESLR|B|",
    "VSKSFSESLR|B|",
    "setSKSFSESLR|B|",
    "setSKS0S0SL|B|",
    "setSKS0S0SL|B|",
    "addSKS0SESL|B|",
    "casSKSFSESLSCR|B|",
    "casSKS0S0SLSCR|B|",
    "VSKSFSE|",
    "NSKSDR|",
    "NSKSDR|",
    "NSK|",
    "touchSKSER|",
    "deleteSKR|",
    "deleteSKSF|",
    "%atST|",
    "%juggleSM|",
    "%crawlSM|",
    "SGSK|",
    "WSK|",
    "W|",
];

// The words that a letter stands for.
static WORDS: [(u8, &[&str]); 15] = [
    (b'|', &["\r\n", "\r\n", "\r\n", "\r\n", "\r\n", "\n"]),
    (b'S', &[" ", " ", " ", " ", "  "]),
    (b'R', &["", "", "", " noreply", " noreplyx"]),
    (b'G', &["get", "gets"]),
    (b'A', &["gat", "gats"]),
    (b'V', &["set", "add", "replace", "append", "prepend"]),
    (b'N', &["incr", "decr"]),
    (
        b'K',
        &["a", "a", "b", "b", "c", "dd", "noreply", "\u{1}k", LONG],
    ),
    (b'F', &["0", "0", "7", "4294967295", "4294967296", "x"]),
    (b'E', &["0", "0", "-1", "5", "60", "2592001", "x", ""]),
    (b'C', &["1", "2", "3", "0", "18446744073709551616", "x"]),
    (b'D', &["1", "5", "0", "18446744073709551615", "-1", "x"]),
    (b'T', &["1000", "1005", "1060", "4611686018427387905", "x"]),
    (b'M', &["1", "2", "all", "0", "3", "ALL"]),
    (
        b'W',
        &[
            "bogus",
            "GET",
            "quit",
            "quite",
            "%nex",
            "",
            "%",
            "verbosity",
        ],
    ),
];

// A key of 251 letters, which is one too many.
const LONG: &str =
    "kkkkkkkkkkkkkkkkkkkkkkkkkkkkkkkkkkkkkkkkkkkkkkkkkkkkkkkkkkkkkkkkkkkkkkkkkkkkkkkkkkkkkkkkkkkkkkkkkkkkkkkkkkkkkkkkkkkkkkkkkkkkk\
kkkkkkkkkkkkkkkkkkkkkkkkkkkkkkkkkkkkkkkkkkkkkkkkkkkkkkkkkkkkkkkkkkkkkkkkkkkkkkkkkkkkkkkkkkkkkkkkkkkkkkkkkkkkkkkkkkkkkkkkkkkkkk";

// A block's length as a line says it, and the length that the block has.
static LENGTHS: [(&str, usize); 13] = [
    ("1", 1),
    ("1", 1),
    ("2", 2),
    ("2", 2),
    ("3", 3),
    ("0", 0),
    ("31", 31),
    ("40", 40),
    ("200", 200),
    ("3", 4),
    ("4", 3),
    ("x", 2),
    ("2147483646", 5),
];

// The bytes of blocks.
static BYTES: [u8; 16] = *b"0123456789x %|\r\n";

// One of some words.
fn word_of(dice: &mut Dice, words: &[&'static str]) -> &'static str {
    let place = dice.below(words.len().max(1) as u64) as usize;
    words.get(place).copied().unwrap_or("")
}

// The words that a letter stands for, if it stands for some.
fn words_for(letter: u8) -> Option<&'static [&'static str]> {
    for row in WORDS.as_slice() {
        if row.0 == letter {
            return Some(row.1);
        }
    }
    None
}

fn add_block<R: Abort>(rt: &R, dice: &mut Dice, script: &mut Vec<u8>, length: usize) {
    for _ in 0..length {
        let place = dice.below(16) as usize;
        add(rt, script, &[BYTES[place]]);
    }
}

fn add_word<R: Abort>(rt: &R, dice: &mut Dice, script: &mut Vec<u8>, letter: u8) {
    match words_for(letter) {
        Some(words) => add(rt, script, word_of(dice, words).as_bytes()),
        None => add(rt, script, &[letter]),
    }
}

// Adds what a letter of a line stands for. The length of the line's block goes in and comes out.
fn add_letter<R: Abort>(
    rt: &R,
    dice: &mut Dice,
    script: &mut Vec<u8>,
    letter: u8,
    length: usize,
) -> usize {
    match letter {
        b'L' => {
            let place = dice.below(13) as usize;
            add(rt, script, LENGTHS[place].0.as_bytes());
            LENGTHS[place].1
        }
        b'B' => {
            add_block(rt, dice, script, length);
            length
        }
        _ => {
            add_word(rt, dice, script, letter);
            length
        }
    }
}

fn add_line<R: Abort>(rt: &R, dice: &mut Dice, script: &mut Vec<u8>) {
    let line = word_of(dice, LINES.as_slice());
    let mut length = 0;
    for letter in line.as_bytes() {
        length = add_letter(rt, dice, script, *letter, length);
    }
}

/// A script of up to 24 lines.
pub(super) fn script_of<R: Abort>(rt: &R, alloc: Global, dice: &mut Dice) -> Vec<u8> {
    let mut script = Vec::new(alloc);
    for _ in 0..dice.below(25) {
        add_line(rt, dice, &mut script);
    }
    script
}

// A byte: one of those that end words and lines, a digit, or any.
fn byte_of(dice: &mut Dice) -> u8 {
    match dice.below(8) {
        0 => b'\r',
        1 | 2 => b'\n',
        3 => b' ',
        4 => b'0' + dice.below(10) as u8,
        _ => dice.below(256) as u8,
    }
}

/// Up to 400 bytes.
pub(super) fn bytes_of<R: Abort>(rt: &R, alloc: Global, dice: &mut Dice) -> Vec<u8> {
    let mut bytes = Vec::new(alloc);
    for _ in 0..dice.below(401) {
        add(rt, &mut bytes, &[byte_of(dice)]);
    }
    bytes
}

/// Sixteen sizes of pieces, of up to 20 bytes each.
pub(super) fn sizes_of<R: Abort>(rt: &R, alloc: Global, dice: &mut Dice) -> Vec<usize> {
    let mut sizes = Vec::new(alloc);
    for _ in 0..16 {
        let size = 1 + dice.below(20) as usize;
        sizes.push(size).expect(rt, "memory");
    }
    sizes
}
