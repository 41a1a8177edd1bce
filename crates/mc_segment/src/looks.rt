//! Finds entries of an arena by their numbers, and counted from a list's tail.
ghost use Rattle.std.specs.Prelude.{◌≡◌, ◌+◌, ◌-◌, ◌<◌, ◌≤◌, ℕ, length, None, Some, take, reverse, slice_get};
ghost use Rattle.std.specs.Option.{option_copied};
ghost use Rattle.mc_item.specs.declared.{lists.Entry.Entry, lists.Seg.Seg};
ghost use Rattle.mc_rule.specs.{Lists.list_of, Lists.found, Lists.segment_of, Segment.numbers_of};
ghost use Rattle.mc_segment.specs.Entries.{entry_of};

use crate::arena::Arena;
use crate::slots::place_at;
use mc_item::{Entry, Passed, Seg};

impl Arena {
    /// Returns the segment whose list has the entry with this number, if a list has it.
    pub fn segment_of(&self, number: u64) -> Option<Seg>
        ensures { result ≡ segment_of number self.now.lists }
    {
        Some(place_at(&self.slots, number)?.seg)
    }

    /// Returns the entry with this number, if a list has it.
    pub fn entry(&self, number: u64) -> Option<&Entry>
        ensures { option_copied result ≡ entry_of number self.now.lists }
    {
        Some(&place_at(&self.slots, number)?.node.entry)
    }

    /// Returns the j-th entry from a list's tail, counted from 0, or `None` if the list has at most j entries.
    pub fn from_tail(&self, seg: Seg, j: u64) -> Option<&Entry>
        ensures inside { j < length (list_of self.now.lists seg) → option_copied result
            ≡ slice_get (list_of self.now.lists seg) (length (list_of self.now.lists seg) - 1 - j) }
        ensures outside { length (list_of self.now.lists seg) ≤ j → result ≡ None }
    {
        let mut at = self.heads.of(seg).oldest;
        for _ in 0..j {
            let number = at?;
            let place = place_at(&self.slots, number)?;
            at = place.node.newer;
        }
        let number = at?;
        let place = place_at(&self.slots, number)?;
        Some(&place.node.entry)
    }

    /// Returns the numbers of the j entries nearest to a list's tail, tail first. The list has that many, and j is at most 4.
    pub fn passed(&self, seg: Seg, j: u64) -> Passed
        requires few { j ≤ 4 }
        requires there { j ≤ length (list_of self.now.lists seg) }
        ensures { result ≡ take j (reverse (numbers_of (list_of self.now.lists seg))) }
    {
        let mut numbers = [0; 4];
        let mut next = self.heads.of(seg).oldest;
        for i in 0..j {
            let Some(number) = next else {
                unreachable!();
            };
            let Some(place) = place_at(&self.slots, number) else {
                unreachable!();
            };
            numbers[i as usize] = number;
            next = place.node.newer;
        }
        Passed::of(&numbers[..j as usize])
    }

    /// Returns the newer neighbour of the entry with this number: `None` if that is the newest of its list, or in no list.
    pub fn next_newer(&self, number: u64) -> Option<&Entry>
        ensures newer { (s : Seg) (j : ℕ) (e : Entry) → Rattle.mc_rule.specs.Lists.from_tail (list_of self.now.lists s) j ≡ Some e → e.number ≡ number
            → option_copied result ≡ Rattle.mc_rule.specs.Lists.from_tail (list_of self.now.lists s) (j + 1) }
        ensures absent { found number self.now.lists ≡ None → result ≡ None }
    {
        let newer = place_at(&self.slots, number)?.node.newer?;
        Some(&place_at(&self.slots, newer)?.node.entry)
    }
}
