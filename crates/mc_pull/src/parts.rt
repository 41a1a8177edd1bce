//! A class's part of a command: which of its entries are added or removed.
ghost use Rattle.std.specs.Prelude.{◌≡◌, ◌≤◌, ◌^◌, true, IfSome};
ghost use Rattle.mc_rule.specs.{Lists.HasFree, Lists.lists_of, Lawful.IsListed};
ghost use Rattle.mc_segment.specs.{ClassState.ClassView, Entries.entry_of};
ghost use Rattle.mc_pull.specs.Parts as words;
ghost use Rattle.mc_pull.specs.Parts.{MayMake};

use mc_item::{Expiry, Key, Link, Room};
use mc_segment::ClassState;

/// A class's part of a command.
#[derive(Drop)]
pub(crate) enum Part {
    /// No entry changes.
    Nothing,
    /// A new entry is added.
    Links {
        key: Key,
        cost: u64,
        expiry: Expiry,
    },
    /// A new entry is added, and the old one, of this number, is removed.
    Renews {
        key: Key,
        cost: u64,
        expiry: Expiry,
        number: u64,
    },
    /// The entry of this number is removed.
    Unlinks(u64),
}

// Whether a class has an entry of this number and this key.
#[inline(always)]
fn is_for(class: &ClassState, key: &Key, number: u64) -> bool
    ensures value { result ≡ words.is_for key.now (entry_of number (lists_of class.now.history)) }
    ensures listed { result ≡ true → IsListed number (lists_of class.now.history) }
{
    match class.entry(number) {
        None => false,
        Some(entry) => entry.key == *key,
    }
}

// The number of a link, if the class has its entry under this key.
#[inline(always)]
pub(crate) fn entry_number(class: &ClassState, key: &Key, link: Option<Link>) -> Option<u64>
    ensures value { result ≡ words.entry_number class.now key.now link }
    ensures listed { IfSome result (λ number. IsListed number (lists_of class.now.history)) }
{
    match link {
        None => None,
        Some(link) => {
            if link.class.0 == class.number().0 && is_for(class, key, link.number) {
                Some(link.number)
            } else {
                None
            }
        }
    }
}

// Whether a room is a link of the class.
pub(crate) fn is_here(class: &ClassState, room: Room) -> bool
    ensures { result ≡ words.is_here class.now room }
{
    match room {
        Room::At(link) => link.class.0 == class.number().0,
        Room::Refused { .. } | Room::Keep => false,
    }
}

/// The part if a new version's entry is added to the class. `old` is the replaced item's entry, if that is in the class too.
#[inline(always)]
pub(crate) fn linked_part(key: Key, cost: u64, expiry: Expiry, old: Option<u64>) -> Part
    requires cost { cost ≤ 2 ^ 20 }
    ensures part { result ≡ words.new_part key cost expiry true old }
    ensures may { (class : ClassView) → HasFree class.chunks class.history → IfSome old (λ number. IsListed number (lists_of class.history))
        → MayMake class result }
{
    match old {
        None => Part::Links { key, cost, expiry },
        Some(number) => Part::Renews {
            key,
            cost,
            expiry,
            number,
        },
    }
}

// The part if an item is removed: its entry, if the class has it, is removed.
#[inline(always)]
pub(crate) fn gone_part(number: Option<u64>) -> Part
    ensures part { result ≡ words.gone_part number }
    ensures may { (class : ClassView) → IfSome number (λ number. IsListed number (lists_of class.history)) → MayMake class result }
{
    match number {
        None => Part::Nothing,
        Some(number) => Part::Unlinks(number),
    }
}
