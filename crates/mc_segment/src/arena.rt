//! Four linked lists of entries in one hash map, under the entries' numbers. An entry is unlinked without walking its list.
ghost use Rattle.std.specs.Prelude.{◌≡◌, ◌+◌, ◌*◌, ◌<◌, ◌≤◌, ◌^◌, ℕ, length, None, Some, true, false, OnOk, IsOk, IfSome, IsSome};
ghost use Rattle.mc_rule.specs.Lists.{no_lists, list_of, found, segment_of, linked, unlinked, moved, cost_sum, count_of, times_in};
ghost use Rattle.mc_segment.specs.Arena.{all_bytes, HasSlot, IsTaken, MayPut};

use crate::ends::{Ends, Heads};
use crate::slots::{Slots, empty, fill, reserve, set_newer, set_older};
use mc_item::{Entry, Seg, Why};
use std::alloc::{AllocError, Global};
use std::collections::HashMap;
use std::marker::Model;

/// A node of a list: an entry, and the numbers of its newer and its older neighbour.
#[derive(Drop)]
pub struct Node {
    pub entry: Entry,
    pub newer: Option<u64>,
    pub older: Option<u64>,
}

/// A node, and the segment whose list it is in.
#[derive(Drop)]
pub struct Listed {
    pub seg: Seg,
    pub node: Node,
}

/// Four lists, newest entry first. No number is used twice. An entry's slot in the map is freed when the entry is removed.
#[derive(Drop)]
pub struct Arena {
    pub(crate) slots: Slots,
    pub(crate) next: u64,
    pub(crate) heads: Heads,
}

impl Model for Arena {
    ghost use Rattle.std.specs.HashMap.{spare};
    ghost use Rattle.mc_segment.specs.{Slots.slot, Arena.Held, Arena.held, Arena.lists_in, Arena.IsArena};

    ghost Value = { Held };

    ghost view = { λ a. held (lists_in (slot a.slots) a.heads) a.next (spare a.slots) a.slots.entries };

    ghost invariant = { λ a. IsArena (slot a.slots) a.next a.heads (lists_in (slot a.slots) a.heads) };
}

fn time_after(why: Why, moment: u64, time: u64) -> u64
    ensures { result ≡ Rattle.mc_rule.specs.Lists.time_after why moment time }
{
    match why {
        Why::Hit => moment,
        Why::Active => moment,
        Why::Over(_) => time,
        Why::Old(_) => time,
        Why::Forced => time,
    }
}

impl Arena {
    /// Makes four empty lists. It takes no memory.
    pub fn new(alloc: Global) -> Arena
        ensures { (result.lists ≡ no_lists) × (result.next ≡ 0) }
    {
        let ends = Ends {
            newest: None,
            oldest: None,
            count: 0,
            bytes: 0,
        };
        Arena {
            slots: HashMap::new(alloc),
            next: 0,
            heads: Heads {
                hot: ends,
                warm: ends,
                cold: ends,
                temp: ends,
            },
        }
    }

    /// Reserves slots for n more entries. It can fail only if n exceeds the room, which is how many more entries take no memory.
    /// The lists don't change, and the room doesn't shrink.
    #[inline(always)]
    pub fn reserve(&mut self, n: usize) -> Result<(), AllocError>
        ensures same { (self.new.lists ≡ self.old.lists) × (self.new.next ≡ self.old.next) }
        ensures room { OnOk result (n ≤ self.new.room) }
        ensures kept { self.old.room ≤ self.new.room }
        ensures succeeds { n ≤ self.old.room → IsOk result }
    {
        reserve(&mut self.slots, n)
    }

    /// Returns the number of the next new entry.
    pub fn next(&self) -> u64
        ensures { result ≡ self.now.next }
    {
        self.next
    }

    /// Returns the bytes of a list: the sum of its entries' costs, at most 2^52.
    pub fn bytes(&self, seg: Seg) -> u64
        ensures value { result ≡ cost_sum (list_of self.now.lists seg) }
        ensures bound { result ≤ 2 ^ 52 }
    {
        self.heads.of(seg).bytes
    }

    /// Returns how many entries the four lists have together.
    pub fn count(&self) -> u64
        ensures { result ≡ count_of self.now.lists }
    {
        self.heads.hot.count + self.heads.warm.count + self.heads.cold.count + self.heads.temp.count
    }

    /// Returns how many entries a list has.
    pub fn len(&self, seg: Seg) -> u64
        ensures { result ≡ length (list_of self.now.lists seg) }
    {
        self.heads.of(seg).count
    }

    /// States what always holds, and does nothing: each number is in the lists at most once, and is below the next one. The
    /// entries are at most that many, and have at most 2^20 times as many bytes.
    pub fn law(&self)
        ensures once { (q : ℕ) → times_in q self.now.lists ≤ 1 }
        ensures below { (q : ℕ) → self.now.next ≤ q → found q self.now.lists ≡ None }
        ensures sums { (count_of self.now.lists ≤ self.now.next) × (all_bytes self.now.lists ≤ 2 ^ 20 * self.now.next) }
    {
        let _ = self.heads.of(Seg::Hot);
    }

    // Takes the next number, which no entry has yet.
    fn grow(&mut self)
        requires limit { self.old.next < 2 ^ 32 }
        ensures same { self.new.lists ≡ self.old.lists }
        ensures fresh { found self.old.next self.new.lists ≡ None }
        ensures sums { (count_of self.new.lists < self.new.next) × (all_bytes self.new.lists + 2 ^ 20 ≤ 2 ^ 20 * self.new.next) }
        ensures room { (self.new.next ≡ self.old.next + 1) × (self.new.room ≡ self.old.room) }
    {
        self.next += 1;
    }

    // Puts an entry at a list's head. Its number is in no list. A new number gets a slot, any other one has kept its slot.
    #[inline(always)]
    fn put(&mut self, seg: Seg, entry: Entry, is_new: bool)
        requires may { MayPut self.old entry.number entry.cost }
        requires room { is_new ≡ true → 0 < self.old.room }
        requires slot { is_new ≡ false → HasSlot self.old entry.number }
        ensures lists { self.new.lists ≡ linked seg entry self.old.lists }
        ensures count { count_of self.new.lists ≡ count_of self.old.lists + 1 }
        ensures next { self.new.next ≡ self.old.next }
        ensures same { is_new ≡ false → self.new.room ≡ self.old.room }
        ensures spare { self.old.room ≤ self.new.room + 1 }
    {
        let number = entry.number;
        let cost = entry.cost;
        let ends = self.heads.of(seg);
        let older = ends.newest;
        set_newer(&mut self.slots, older, Some(number));
        let node = Node {
            entry,
            newer: None,
            older,
        };
        fill(&mut self.slots, number, Listed { seg, node }, is_new);
        self.heads.set(seg, ends.pushed(number, cost));
    }

    /// Puts a new entry at a list's head, in a reserved slot. The entry has the next number, and costs at most 2^20 bytes.
    pub fn push(&mut self, seg: Seg, entry: Entry)
        requires room { 0 < self.old.room }
        requires number { entry.number ≡ self.old.next }
        requires limit { self.old.next < 2 ^ 32 }
        requires cost { entry.cost ≤ 2 ^ 20 }
        ensures lists { self.new.lists ≡ linked seg entry self.old.lists }
        ensures count { count_of self.new.lists ≡ count_of self.old.lists + 1 }
        ensures room { (self.new.next ≡ self.old.next + 1) × (self.old.room ≤ self.new.room + 1) }
    {
        self.grow();
        self.put(seg, entry, true);
    }

    // Takes the entry with this number out of its list, if a list has it. The slot is kept if the entry is to come back.
    #[inline(always)]
    fn take(&mut self, number: u64, keeps: bool) -> Option<(Seg, Entry)>
        ensures entry { result ≡ found number self.old.lists }
        ensures taken { IfSome result (λ p. IsTaken self.old self.new number p.0 p.1) }
        ensures lists { self.new.lists ≡ unlinked number self.old.lists }
        ensures gone { found number self.new.lists ≡ None }
        ensures slot { keeps ≡ true → IfSome result (λ p. HasSlot self.new number) }
        ensures next { self.new.next ≡ self.old.next }
        ensures same { keeps ≡ true → self.new.room ≡ self.old.room }
        ensures room { self.old.room ≤ self.new.room }
    {
        let place = empty(&mut self.slots, number, keeps)?;
        let Listed { seg, node } = place;
        let Node {
            entry,
            newer,
            older,
        } = node;
        set_older(&mut self.slots, newer, older);
        set_newer(&mut self.slots, older, newer);
        let ends = self.heads.of(seg);
        self.heads.set(seg, ends.taken(newer, older, entry.cost));
        Some((seg, entry))
    }

    /// Removes the entry with this number, which is in a list, and frees its slot.
    pub fn remove(&mut self, number: u64)
        requires there { IsSome (found number self.old.lists) }
        ensures lists { self.new.lists ≡ unlinked number self.old.lists }
        ensures inside { number < self.old.next }
        ensures count { count_of self.new.lists ≤ count_of self.old.lists }
        ensures same { self.new.next ≡ self.old.next }
        ensures room { self.old.room ≤ self.new.room }
    {
        let _ = self.take(number, false).unwrap();
    }

    /// Moves the entry with this number from its list to the head of another one, or of its own. For a hit or an active entry,
    /// its time is set to the moment, which is in seconds.
    pub fn move_to(&mut self, number: u64, from_seg: Seg, to_seg: Seg, why: Why, moment: u64)
        requires there { segment_of number self.old.lists ≡ Some from_seg }
        ensures lists { self.new.lists ≡ moved number from_seg to_seg why moment self.old.lists }
        ensures inside { number < self.old.next }
        ensures count { count_of self.new.lists ≡ count_of self.old.lists }
        ensures same { (self.new.next ≡ self.old.next) × (self.new.room ≡ self.old.room) }
    {
        let (_, mut entry) = self.take(number, true).unwrap();
        entry.time = time_after(why, moment, entry.time);
        self.put(to_seg, entry, false);
    }
}
