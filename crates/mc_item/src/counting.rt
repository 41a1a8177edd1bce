//! The rows of `incr` and `decr` in the table of commands.
ghost use Rattle.std.specs.Prelude.{◌≡◌, ◌+◌, ◌<◌, ◌≤◌, ◌^◌, ◌++◌, IfOk, IfSome, Some, OnOk, None, length, ℕ, Option, replicate, decimal};
ghost use Rattle.std.specs.Option.{option_copied, option_map};
ghost use Rattle.mc_item.specs.Answer as answers;
ghost use Rattle.mc_item.specs.Cache as caches;
ghost use Rattle.mc_item.specs.Measure as measure;
ghost use Rattle.mc_item.specs.Measure.{IsNeedOf};
ghost use Rattle.mc_item.specs.declared.answer.Need.TheVariants as needs;

use crate::answer::{Answer, Change, Need, Site};
use crate::fault::NoMemory;
use crate::item::{ClassNo, Item, Marks};
use crate::key::Key;
use crate::measure::{cost, numeral_of};
use crate::reply::{Reply, Room};
use crate::value::Value;
use itoa::Buffer;
use std::alloc::Global;

/// What `incr` or `decr` does to a number.
#[derive(Clone, Copy, Debug, PartialEq, Eq)]
pub enum Step {
    /// Adds, and wraps to 0 at 2^64.
    Up(u64),
    /// Subtracts, and stops at 0.
    Down(u64),
}

impl Step {
    /// Returns the number after the step.
    pub fn taken(self, number: u64) -> u64
        ensures { result ≡ answers.stepped self number }
    {
        match self {
            Step::Up(delta) => number.wrapping_add(delta),
            Step::Down(delta) => number.saturating_sub(delta),
        }
    }
}

/// What an answer's new version is made with: the allocator, and how many versions the stripe has made before.
#[derive(Clone, Copy)]
pub struct Making {
    pub alloc: Global,
    pub versions: u64,
}

/// What a longer number is offered: a room, and the class of the chunk that it needs. A class that is given isn't looked up.
#[derive(Clone, Copy)]
pub struct Offer {
    pub class: Option<ClassNo>,
    pub room: Room,
}

/// Returns the number after the step, or `None` if the item's value is no number.
pub fn counted(item: &Item, step: Step) -> Option<u64>
    ensures { result ≡ option_map (answers.stepped step) (measure.numeral_of item.now.value) }
{
    match numeral_of(item.value.bytes()) {
        Some(number) => Some(step.taken(number)),
        None => None,
    }
}

/// Returns how many decimal digits a number has: at most 20.
pub fn digits_len(number: u64) -> usize
    ensures value { result ≡ length (decimal number) }
    ensures few { result ≤ 20 }
{
    let mut rest = number;
    let mut len = 1;
    while rest >= 100 {
        rest = rest / 10 / 10;
        len += 2;
    }
    if rest >= 10 { len + 1 } else { len }
}

// The digits of a number, padded with spaces to a length.
fn padded_text(alloc: Global, number: u64, len: usize) -> Result<Value, NoMemory>
    ensures { IfOk result (λ v. v ≡ answers.padded (decimal number) len) }
{
    let text = number.to_string(alloc)?;
    let mut bytes = text.into_bytes();
    let digits = bytes.len();
    if digits < len {
        push_spaces(&mut bytes, len - digits)?;
    }
    Value::of(alloc, bytes)
}

fn push_spaces(bytes: &mut Vec<u8>, count: usize) -> Result<(), NoMemory>
    ensures { OnOk result (bytes.new.items ≡ bytes.old.items ++ replicate count 32) }
{
    for _ in 0..count {
        bytes.push(b' ')?;
    }
    Ok(())
}

impl Item {
    /// Counts in place and returns the new number. The value becomes that number, padded with spaces to its old length, and the
    /// item gets this cas number. Returns `None` and changes nothing if the value is no number, the new one is longer than the
    /// value, or others share the value's bytes. Takes no memory.
    #[inline(always)]
    pub fn count(&mut self, step: Step, cas: u64) -> Option<u64>
        ensures number { IfSome result (λ number. option_map (answers.stepped step) (measure.numeral_of self.old.value) ≡ Some number) }
        ensures fits { IfSome result (λ number. length (decimal number) ≤ length self.old.value) }
        ensures done { IfSome result (λ number. self.new ≡ caches.counted (answers.padded (decimal number) (length self.old.value)) cas self.old) }
        ensures same { result ≡ None → self.new ≡ self.old }
    {
        let Some(number) = counted(self, step) else {
            return None;
        };
        let mut buffer = Buffer::new();
        if !self.value.put_padded(buffer.format(number).as_bytes()) {
            return None;
        }
        self.cas = cas;
        Some(number)
    }
}

impl Site {
    // The class for a cost, which is looked up only if it isn't known.
    #[inline(always)]
    fn class_for(&self, known: Option<ClassNo>, cost: u64) -> Option<ClassNo>
        requires { IfSome known (λ class. measure.class_of self.now.sizes cost ≡ Some class) }
        ensures { result ≡ measure.class_of self.now.sizes cost }
    {
        match known {
            Some(class) => Some(class),
            None => self.class_of(cost),
        }
    }

    // What the new number needs: nothing if the value is no number.
    fn number_need(&self, key: &Key, item: &Item, counted: Option<u64>) -> Need
        ensures need { (n : ℕ) → result ≡ (answers.number_row self.now n key.now item.now counted).need }
        ensures bound { IsNeedOf self.now.sizes result }
    {
        let Some(number) = counted else {
            return Need::Nothing;
        };
        let digits = digits_len(number);
        if digits <= item.value.bytes().len() {
            return Need::Same;
        }
        match self.class_of(cost(key.bytes().len() as u64, digits as u64)) {
            Some(class) => Need::Fresh(class),
            None => Need::TooLarge,
        }
    }

    /// Returns what `incr` or `decr` needs, by the key's item.
    pub fn count_need(&self, key: &Key, step: Step, found: Option<&Item>) -> Need
        ensures need { (n : ℕ) → result ≡ (answers.count_row self.now n key.now (answers.stepped step) (option_copied found.entry)).need }
        ensures bound { IsNeedOf self.now.sizes result }
    {
        match found {
            None => Need::Nothing,
            Some(item) => self.number_need(key, item, counted(item, step)),
        }
    }

    // The answer for a number that is longer than the old value.
    fn grown_answer(
        &self,
        making: Making,
        item: &Item,
        number: u64,
        class: Option<ClassNo>,
        room: Room,
    ) -> Result<Answer, NoMemory>
        requires { answers.cas_of self.now making.versions < 2 ^ 64 }
        ensures { IfOk result (λ a. a ≡ (answers.grown_row self.now making.versions item.now number class).answer room) }
    {
        let refused = Answer {
            reply: Reply::NoSpace,
            change: Change::Stays,
        };
        if class.is_none() {
            return Ok(refused);
        }
        match room {
            Room::Keep => Ok(refused),
            Room::Refused { .. } => Ok(refused),
            Room::At(link) => Ok(Answer {
                reply: Reply::Number(number),
                change: Change::Renewed(Item {
                    flags: item.flags,
                    value: padded_text(making.alloc, number, 0)?,
                    expiry: item.expiry,
                    cas: self.cas_of(making.versions),
                    link,
                    marks: Marks {
                        fetched: false,
                        active: false,
                    },
                }),
            }),
        }
    }

    // The answer for the new number, or for a value that is no number.
    fn number_answer(
        &self,
        making: Making,
        key: &Key,
        item: &Item,
        counted: Option<u64>,
        offer: Offer,
    ) -> Result<Answer, NoMemory>
        requires cas { answers.cas_of self.now making.versions < 2 ^ 64 }
        requires known { IfSome offer.class (λ class. (answers.number_row self.now making.versions key.now item.now counted).need ≡ needs.Fresh class) }
        ensures { IfOk result (λ a. a ≡ (answers.number_row self.now making.versions key.now item.now counted).answer offer.room) }
    {
        let Some(number) = counted else {
            return Ok(Answer {
                reply: Reply::NonNumeric,
                change: Change::Stays,
            });
        };
        let digits = digits_len(number);
        let len = item.value.bytes().len();
        if digits <= len {
            return Ok(Answer {
                reply: Reply::Number(number),
                change: Change::Counted(
                    padded_text(making.alloc, number, len)?,
                    self.cas_of(making.versions),
                ),
            });
        }
        let class = self.class_for(offer.class, cost(key.bytes().len() as u64, digits as u64));
        self.grown_answer(making, item, number, class, offer.room)
    }

    /// Returns the answer to `incr` or `decr`, by the key's item and what a longer number is offered. The cas number of a new
    /// version must be below 2^64. Fails with `NoMemory` if there is no memory for the new number's bytes.
    pub fn count_answer(
        &self,
        making: Making,
        key: &Key,
        step: Step,
        found: Option<&Item>,
        offer: Offer,
    ) -> Result<Answer, NoMemory>
        requires cas { answers.cas_of self.now making.versions < 2 ^ 64 }
        requires known { IfSome offer.class (λ class. (answers.count_row self.now making.versions key.now (answers.stepped step)
            (option_copied found)).need ≡ needs.Fresh class) }
        ensures { IfOk result (λ a. a ≡ (answers.count_row self.now making.versions key.now (answers.stepped step) (option_copied found.entry)).answer
            offer.room) }
    {
        match found {
            None => Ok(Answer {
                reply: Reply::NotFound,
                change: Change::Stays,
            }),
            Some(item) => {
                let counted = counted(item, step);
                self.number_answer(making, key, item, counted, offer)
            }
        }
    }
}
