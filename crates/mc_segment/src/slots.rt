//! The slots of a class, under the numbers of its entries. A new entry gets a slot, which is freed when the entry is removed.
ghost use Rattle.std.specs.Prelude.{◌≡◌, ◌<◌, ◌≤◌, ◌+◌, ◌==◌, ℕ, Some, None, true, false, OnOk, IsOk, if◌then◌else◌};
ghost use Rattle.std.specs.{HashMap.spare, Option.option_copied, Option.option_map};
ghost use Rattle.mc_segment.specs.Slots.{slot, has_slot, place_newer, place_older, renewed, reolded, IsShaped};

use crate::arena::Listed;
use std::alloc::AllocError;
use std::collections::HashMap;

/// The slots, under their numbers. A slot is empty while its entry moves.
pub(crate) type Slots = HashMap<u64, Option<Listed>>;

// The place of a number (its node and its segment), if its slot isn't empty.
pub(crate) fn place_at(slots: &Slots, number: u64) -> Option<&Listed>
    ensures { option_copied result ≡ slot slots.now number }
{
    slots.get(&number)?.as_ref()
}

// Reserves memory for the slots of n more numbers.
pub(crate) fn reserve(slots: &mut Slots, n: usize) -> Result<(), AllocError>
    ensures slots { (q : ℕ) → slot slots.new q ≡ slot slots.old q }
    ensures ok { OnOk result (n ≤ spare slots.new) }
    ensures room { spare slots.old ≤ spare slots.new }
    ensures succeeds { n ≤ spare slots.old → IsOk result }
{
    slots.reserve(n)
}

// Takes the place out of a number's slot, and frees the slot unless it is kept for a later place.
#[inline(always)]
pub(crate) fn empty(slots: &mut Slots, number: u64, keeps: bool) -> Option<Listed>
    ensures place { result ≡ slot slots.old number }
    ensures slots { (q : ℕ) → slot slots.new q ≡ (if number == q then None else slot slots.old q) }
    ensures shape { keeps ≡ true → IsShaped slots.old slots.new }
    ensures room { spare slots.old ≤ spare slots.new }
{
    if keeps {
        slots.get_mut(&number)?.take()
    } else {
        slots.remove(&number)?
    }
}

// Puts a place into a number's slot. A new number first gets a slot.
#[inline(always)]
pub(crate) fn fill(slots: &mut Slots, number: u64, place: Listed, is_new: bool)
    requires room { is_new ≡ true → 0 < spare slots.old }
    requires slot { is_new ≡ false → has_slot slots.old number ≡ true }
    ensures slots { (q : ℕ) → slot slots.new q ≡ (if number == q then Some place else slot slots.old q) }
    ensures shape { is_new ≡ false → IsShaped slots.old slots.new }
    ensures spare { spare slots.old ≤ spare slots.new + 1 }
{
    if is_new {
        let _ = slots.insert(number, Some(place));
    } else {
        refill(slots, number, place);
    }
}

// Puts a place into a slot that was kept.
#[inline(always)]
fn refill(slots: &mut Slots, number: u64, place: Listed)
    requires { has_slot slots.old number ≡ true }
    ensures slots { (q : ℕ) → slot slots.new q ≡ (if number == q then Some place else slot slots.old q) }
    ensures shape { IsShaped slots.old slots.new }
{
    let Some(slot) = slots.get_mut(&number) else {
        unreachable!();
    };
    *slot = Some(place);
}

// Makes `to` the newer neighbour of the node with the number `at`, if there is such a node.
pub(crate) fn set_newer(slots: &mut Slots, at: Option<u64>, to: Option<u64>)
    ensures slots { (q : ℕ) → slot slots.new q ≡ place_newer at to q (slot slots.old q) }
    ensures shape { IsShaped slots.old slots.new }
{
    let Some(at) = at else {
        return;
    };
    if let Some(slot) = slots.get_mut(&at) {
        tell_newer(slot, to);
    }
}

// Makes `to` the older neighbour of the node with the number `at`, if there is such a node.
pub(crate) fn set_older(slots: &mut Slots, at: Option<u64>, to: Option<u64>)
    ensures slots { (q : ℕ) → slot slots.new q ≡ place_older at to q (slot slots.old q) }
    ensures shape { IsShaped slots.old slots.new }
{
    let Some(at) = at else {
        return;
    };
    if let Some(slot) = slots.get_mut(&at) {
        tell_older(slot, to);
    }
}

fn tell_newer(slot: &mut Option<Listed>, to: Option<u64>)
    ensures { slot.new ≡ option_map (renewed to) slot.old }
{
    if let Some(place) = slot {
        place.node.newer = to;
    }
}

fn tell_older(slot: &mut Option<Listed>, to: Option<u64>)
    ensures { slot.new ≡ option_map (reolded to) slot.old }
{
    if let Some(place) = slot {
        place.node.older = to;
    }
}
