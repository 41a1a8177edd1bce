//! Draws commands one after another: the same ones for the same seed and the same replies.
use crate::commands::{try_key, try_storage};
use crate::dice::Dice;
use mc_item::{Command, KeyFault, Reply, Verb};
use std::alloc::Global;

// No command has a later moment.
const LAST_MOMENT: u32 = 100_000;

// Numbers that a storage command stores. Other values are the first bytes of `LONGEST`.
static TEXTS: [&[u8]; 4] = [b"18446744073709551615", b"0000", b"9", b"107"];

static LONGEST: [u8; 59] = [b'x'; 59];

/// Draws commands on keys of one letter, at moments (times in seconds) that advance slowly.
#[derive(Drop)]
pub struct Drawing {
    dice: Dice,
    moment: u32,
    // The cas number that a reply showed last, and the letter of its key.
    letter: u8,
    cas: u64,
}

impl Drawing {
    /// Starts to draw at this seed. The first moment is 1000 or 1001.
    pub fn new(seed: u64) -> Drawing {
        Drawing {
            dice: Dice::new(seed),
            moment: 1000,
            letter: b'a',
            cas: 1,
        }
    }

    /// Draws the moment of the next command: that of the last one, or a second later.
    pub fn moment(&mut self) -> u32 {
        let passed = self.dice.below(2) as u32;
        self.moment = u32::min(self.moment.wrapping_add(passed), LAST_MOMENT);
        self.moment
    }

    // One of twelve letters, the first ones more often.
    fn letter(&mut self) -> u8 {
        let many = 1 + self.dice.below(12);
        b'a' + self.dice.below(many) as u8
    }

    // An exptime: never, some seconds, at once, or a time far ahead.
    fn exptime(&mut self) -> i64 {
        match self.dice.below(16) {
            0 => -1,
            1 => 2_592_001,
            2..=7 => 1 + self.dice.below(60) as i64,
            _ => 0,
        }
    }

    // The amount of an incr or decr.
    fn delta(&mut self) -> u64 {
        match self.dice.below(4) {
            0 => u64::MAX,
            _ => self.dice.below(200),
        }
    }

    // One of the numbers, or a text of up to 59 bytes.
    fn text(&mut self) -> &'static [u8] {
        let which = self.dice.below(6) as usize;
        match TEXTS.as_slice().get(which) {
            Some(text) => *text,
            None => {
                let len = self.dice.below(60) as usize;
                &LONGEST.as_slice()[..len]
            }
        }
    }

    // The verb of a storage command, and the letter of its key. A cas has the number that was shown last, mostly with its key.
    fn verb(&mut self) -> (Verb, u8) {
        let letter = self.letter();
        match self.dice.below(10) {
            0 => (Verb::Add, letter),
            1 => (Verb::Replace, letter),
            2 => (Verb::Cas(self.cas), letter),
            3 | 4 => (Verb::Cas(self.cas), self.letter),
            5 => (Verb::Append, letter),
            6 => (Verb::Prepend, letter),
            _ => (Verb::Set, letter),
        }
    }

    fn storage(&mut self, alloc: Global) -> Result<Command, KeyFault> {
        let (verb, letter) = self.verb();
        let flags = self.dice.below(3) as u32;
        let exptime = self.exptime();
        let text = self.text();
        try_storage(alloc, verb, letter, flags, exptime, text)
    }

    // The verb of a storage command whose block is too large for any class.
    fn huge_verb(&mut self) -> Verb {
        match self.dice.below(5) {
            0 => Verb::Set,
            1 => Verb::Add,
            2 => Verb::Append,
            3 => Verb::Prepend,
            _ => Verb::Cas(7),
        }
    }

    // A command of any other kind, by `which`: five of twelve are gets.
    fn other(&mut self, alloc: Global, letter: u8, which: u64) -> Result<Command, KeyFault> {
        let key = try_key(alloc, letter)?;
        Ok(match which {
            8 | 9 => Command::Incr(key, self.delta()),
            10 => Command::Decr(key, self.delta()),
            11 => Command::Touch(key, self.exptime()),
            12 => Command::Delete(key),
            13 => Command::Huge {
                verb: self.huge_verb(),
                key,
            },
            14 => Command::Gat(key, self.exptime()),
            _ => Command::Get(key),
        })
    }

    /// Draws the next command.
    pub fn command(&mut self, alloc: Global) -> Result<Command, KeyFault> {
        let letter = self.letter();
        let which = self.dice.below(20);
        if which < 8 {
            self.storage(alloc)
        } else {
            self.other(alloc, letter, which)
        }
    }

    /// Notes the cas number that a reply shows, for a later cas.
    pub fn note(&mut self, command: &Command, reply: &Reply) {
        if let Reply::Value { cas, .. } = reply {
            if let Some(letter) = command.key().bytes().first() {
                self.letter = *letter;
                self.cas = *cas;
            }
        }
    }
}
