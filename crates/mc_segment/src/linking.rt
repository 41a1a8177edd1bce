//! Adds new entries to a class.
ghost use Rattle.std.specs.Prelude.{◌≡◌, ◌≤◌, ◌+◌, ◌^◌, Some, true, IfOk, OnOk, OnErr};
ghost use Rattle.mc_rule.specs.Lists.{entries_linked, HasFree};
ghost use Rattle.mc_rule.specs.Segment as rules;
ghost use Rattle.mc_segment.specs.ClassCalls.{linked_event, Makes, Stays, MayEnd};

use crate::shown::ShownClass;
use crate::state::ClassState;
use mc_item::{ClassEvent, Entry, Expiry, Fault, Key, Linked, Seg, Who};
use std::snapshot::Snapshot;

/// The key of a new entry. A class that keeps its events needs a copy of it for the event.
#[derive(Drop)]
pub struct EntryKey {
    pub key: Key,
    pub copy: Option<Key>,
}

impl ClassState {
    // The segment in which a new entry starts.
    fn segment_for(&self, moment: u64, expiry: Expiry) -> Seg
        ensures { result ≡ rules.segment_for self.now.rule moment expiry }
    {
        match expiry {
            Expiry::Never => Seg::Hot,
            Expiry::At(end) => {
                if self.temp && moment < end && end - moment <= self.temp_ttl {
                    Seg::Temp
                } else {
                    Seg::Hot
                }
            }
        }
    }

    /// Links a new entry, which takes the key, and returns its number. The entry starts at TEMP's head if TEMP is in use and the
    /// item dies within the next `temp_ttl` seconds, else at HOT's. The class is not full, and the cost is at most 2^20 bytes.
    /// Errors: as for `unlink`.
    pub fn link(
        &mut self,
        who: Who,
        key: EntryKey,
        cost: u64,
        moment: u64,
        expiry: Expiry,
    ) -> Result<u64, Fault>
        requires free { HasFree self.old.chunks self.old.history }
        requires cost { cost ≤ 2 ^ 20 }
        requires copy { self.old.keeps_events ≡ true → key.copy ≡ Some key.key }
        ensures number { IfOk result (λ number. number ≡ entries_linked self.old.history) }
        ensures ok { OnOk result (Makes self.old self.new (linked_event self.old who key.key cost moment expiry)) }
        ensures err { OnErr result (Stays self.old self.new) }
        ensures refusal { MayEnd self.old result }
        ensures room { self.old.room ≤ self.new.room + 1 }
    {
        let seg = self.segment_for(moment, expiry);
        if !self.has_places(1) {
            return Err(Fault::HistoryFull);
        }
        self.history.reserve(1)?;
        self.lists.reserve(1)?;
        let EntryKey { key, copy } = key;
        let number = self.lists.next();
        let shown = ShownClass::Linked {
            who,
            number,
            key: Snapshot::of(&key),
            cost,
            seg,
            moment,
        };
        let event = copy.map(|key| {
            ClassEvent::Linked(Linked {
                who,
                number,
                key,
                cost,
                seg,
                moment,
            })
        });
        let entry = Entry {
            number,
            key,
            cost,
            time: moment,
        };
        self.lists.push(seg, entry);
        self.history.push_reserved(&shown, event);
        Ok(number)
    }
}
