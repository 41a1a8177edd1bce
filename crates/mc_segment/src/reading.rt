//! Reads a class's lists and history. Of these calls only `key` takes memory.
ghost use Rattle.std.specs.Prelude.{◌≡◌, ◌≤◌, ◌<◌, ◌^◌, ◌+◌, ◌↔◌, ℕ, false, None, Some, length, take, reverse, IsTrue, IfSome, IfOk, OnErr};
ghost use Rattle.std.specs.Option.{option_copied, IsSomeAnd};
ghost use Rattle.mc_item.specs.declared.{lists.Entry.Entry, lists.Seg.Seg};
ghost use Rattle.mc_rule.specs.Figures.{figures_of_lists};
ghost use Rattle.mc_rule.specs.Lists.{lists_of, entries_linked, list_of, bytes_of, count_of, times_in, find, found, chunks_from, IsFull};
ghost use Rattle.mc_segment.specs.Entries.{entry_of};
ghost use Rattle.mc_rule.specs.{Segment.numbers_of, Segment.numbers_behind, Lawful.is_named, Lawful.IsIn, Lawful.IsListed, Lawful.IsLawfulHistoryByLists};

use crate::shown::ShownClass;
use crate::state::ClassState;
use mc_history::History;
use mc_item::{ClassEvent, ClassNo, Entry, Key, NoMemory, Passed, Seg};

impl ClassState {
    /// Returns the class's number.
    pub fn number(&self) -> ClassNo
        ensures { result ≡ self.now.number }
    {
        self.number
    }

    /// Returns the class's history: its events, oldest first.
    pub fn history(&self) -> &History<ClassEvent, ShownClass>
        ensures value { result.now.items ≡ self.now.history }
        ensures kept { result.now.kept ≡ self.now.keeps_events }
    {
        &self.history
    }

    /// Returns whether the history keeps its events in memory, or only counts them.
    #[inline(always)]
    pub fn keeps_events(&self) -> bool
        ensures { result ≡ self.now.keeps_events }
    {
        self.history.keeps()
    }

    /// Returns the number of the next new entry. Entries are numbered from 0, and no number is used again.
    pub fn next_number(&self) -> u64
        ensures { result ≡ entries_linked self.now.history }
    {
        self.lists.next()
    }

    /// Returns how many entries the four lists have together.
    pub fn count(&self) -> u64
        ensures { result ≡ count_of (lists_of self.now.history) }
    {
        self.lists.count()
    }

    /// Returns the limit of chunks now: that of the last `set_chunks`, else the one with which the class opened. As a lower limit
    /// evicts nothing, the lists may have more entries.
    pub fn chunks(&self) -> u64
        ensures { result ≡ chunks_from self.now.chunks self.now.history }
    {
        self.chunks
    }

    /// Returns whether the class is full: it has no fewer entries than its limit of chunks now.
    pub fn is_full(&self) -> bool
        ensures { IsTrue result ↔ IsFull self.now.chunks self.now.history }
    {
        self.count() >= self.chunks
    }

    /// Returns the bytes of a segment: the sum of its entries' costs, at most 2^52.
    pub fn bytes(&self, seg: Seg) -> u64
        ensures value { result ≡ bytes_of (lists_of self.now.history) seg }
        ensures bound { result ≤ 2 ^ 52 }
    {
        self.lists.bytes(seg)
    }

    /// Returns the j-th entry from a segment's tail, counted from 0, or `None` if the list has at most j entries. Exactly j
    /// entries are between it and the tail, and its number is in no other list.
    pub fn from_tail(&self, seg: Seg, j: u64) -> Option<&Entry>
        ensures entry { option_copied result ≡ Rattle.mc_rule.specs.Lists.from_tail (list_of (lists_of self.now.history) seg) j }
        ensures there { IfSome (option_copied result)
            (λ e. (find e.number (list_of (lists_of self.now.history) seg) ≡ Some e) × (found e.number (lists_of self.now.history) ≡ Some (seg, e))) }
        ensures behind { IfSome (option_copied result)
            (λ e. numbers_behind e.number (list_of (lists_of self.now.history) seg) ≡ take j (reverse (numbers_of (list_of (lists_of self.now.history) seg)))) }
    {
        self.lists.law();
        self.lists.from_tail(seg, j)
    }

    /// Returns the numbers of the j entries nearest to a segment's tail, tail first: those between the tail and the j-th entry,
    /// if there is such an entry. The list has at least j entries, and j is at most 4.
    pub fn passed(&self, seg: Seg, j: u64) -> Passed
        requires few { j ≤ 4 }
        requires there { j ≤ length (list_of (lists_of self.now.history) seg) }
        ensures value { result ≡ take j (reverse (numbers_of (list_of (lists_of self.now.history) seg))) }
        ensures behind { IfSome (Rattle.mc_rule.specs.Lists.from_tail (list_of (lists_of self.now.history) seg) j)
            (λ e. numbers_behind e.number (list_of (lists_of self.now.history) seg) ≡ result) }
    {
        self.lists.law();
        self.lists.passed(seg, j)
    }

    /// Returns the newer neighbour of the entry with this number, as a walk from the tail needs it. Returns `None` if that entry
    /// is the newest of its list, or in no list.
    pub fn next_newer(&self, number: u64) -> Option<&Entry>
        ensures newer { (s : Seg) (j : ℕ) (e : Entry) → Rattle.mc_rule.specs.Lists.from_tail (list_of (lists_of self.now.history) s) j ≡ Some e
            → e.number ≡ number
            → option_copied result ≡ Rattle.mc_rule.specs.Lists.from_tail (list_of (lists_of self.now.history) s) (j + 1) }
        ensures absent { found number (lists_of self.now.history) ≡ None → result ≡ None }
    {
        self.lists.next_newer(number)
    }

    /// Returns the segment whose list has the entry with this number, if a list has it.
    pub fn segment_of(&self, number: u64) -> Option<Seg>
        ensures { result ≡ Rattle.mc_rule.specs.Lists.segment_of number (lists_of self.now.history) }
    {
        self.lists.segment_of(number)
    }

    /// Returns how many entries a segment's list has.
    pub fn len(&self, seg: Seg) -> u64
        ensures { result ≡ length (list_of (lists_of self.now.history) seg) }
    {
        self.lists.len(seg)
    }

    /// Returns the class's figures: the bytes of HOT, WARM, COLD and TEMP, then how many entries each has.
    pub fn figures(&self) -> [u64; 8]
        ensures { result ≡ figures_of_lists (lists_of self.now.history) }
    {
        [
            self.bytes(Seg::Hot),
            self.bytes(Seg::Warm),
            self.bytes(Seg::Cold),
            self.bytes(Seg::Temp),
            self.len(Seg::Hot),
            self.len(Seg::Warm),
            self.len(Seg::Cold),
            self.len(Seg::Temp),
        ]
    }

    /// Returns the entry with this number, if a list has it.
    pub fn entry(&self, number: u64) -> Option<&Entry>
        ensures { option_copied result ≡ entry_of number (lists_of self.now.history) }
    {
        self.lists.entry(number)
    }

    /// Returns a copy of the key of an entry that is in a list. Errors: `NoMemory`, only for a key of more than 30 bytes.
    pub fn key(&self, number: u64) -> Result<Key, NoMemory>
        requires there { IsListed number (lists_of self.now.history) }
        ensures ok { IfOk result (λ key. IsSomeAnd (entry_of number (lists_of self.now.history)) (λ e. key ≡ e.key)) }
        ensures short { OnErr result (IsSomeAnd (entry_of number (lists_of self.now.history)) (λ e. 30 < length e.key)) }
    {
        self.entry(number).unwrap().key.copy(self.alloc)
    }

    /// States what always holds, and does nothing. Each number is in the lists at most once, in the list of its segment. Numbers
    /// from the next one on are in no list and no event. Each event is lawful after the earlier ones, as far as the lists show.
    /// The history keeps to its limit, which is at most 2^32 events.
    pub fn law(&self)
        ensures once { (q : ℕ) → times_in q (lists_of self.now.history) ≤ 1 }
        ensures below { (q : ℕ) → entries_linked self.now.history ≤ q → found q (lists_of self.now.history) ≡ None }
        ensures inside { (s : Seg) (q : ℕ) → Rattle.mc_rule.specs.Lists.segment_of q (lists_of self.now.history) ≡ Some s
            → IsIn s q (lists_of self.now.history) }
        ensures lists { (s : Seg) (q : ℕ) → IsIn s q (lists_of self.now.history)
            → Rattle.mc_rule.specs.Lists.segment_of q (lists_of self.now.history) ≡ Some s }
        ensures fresh { (q : ℕ) → entries_linked self.now.history ≤ q → is_named q self.now.history ≡ false }
        ensures lawful { IsLawfulHistoryByLists self.now.chunks self.now.rule self.now.history }
        ensures places { (length self.now.history ≤ self.now.max_events) × (self.now.max_events ≤ 2 ^ 32) }
    {
        self.lists.law();
    }
}
