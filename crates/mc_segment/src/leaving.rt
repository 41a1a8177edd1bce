//! Removes entries for good: with their item, as dead, or by eviction.
ghost use Rattle.std.specs.Prelude.{◌≤◌, ◌+◌, ◌==◌, OnOk, OnErr};
ghost use Rattle.mc_rule.specs.{Lists.lists_of, Lists.unlinked, Lawful.IsListed};
ghost use Rattle.mc_segment.specs.ClassCalls.{unlinked_event, reclaimed_event, evicted_event, MayCome, Makes, Stays, MayEnd, ChangesLists};

use crate::shown::push_whole;
use crate::state::ClassState;
use mc_item::{ClassEvent, Evicted, Fault, Passed, Reclaimed, Unlinked, Who};

impl ClassState {
    // Removes an entry from its list, and notes the event that does so.
    #[inline(always)]
    fn leave(&mut self, number: u64, event: ClassEvent) -> Result<(), Fault>
        requires there { IsListed number (lists_of self.old.history) }
        requires lawful { MayCome self.old event }
        requires leaves { ChangesLists (lists_of self.old.history) (unlinked number (lists_of self.old.history)) (λ q. number == q) event }
        ensures ok { OnOk result (Makes self.old self.new event) }
        ensures err { OnErr result (Stays self.old self.new) }
        ensures refusal { MayEnd self.old result }
        ensures room { self.old.room ≤ self.new.room + 1 }
    {
        if !self.has_places(1) {
            return Err(Fault::HistoryFull);
        }
        self.history.reserve(1)?;
        self.lists.remove(number);
        push_whole(&mut self.history, event);
        Ok(())
    }

    /// Removes an entry whose item a command removed or replaced. The entry is in a list.
    /// Errors: `HistoryFull` exactly if the history has no place left, `NoMemory` only if the room is 0 (see `reserve`). The
    /// class is then unchanged, but may have more room. So after `reserve` the call can't fail and takes no memory.
    pub fn unlink(&mut self, who: Who, number: u64) -> Result<(), Fault>
        requires { MayCome self.old (unlinked_event who number) }
        ensures ok { OnOk result (Makes self.old self.new (unlinked_event who number)) }
        ensures err { OnErr result (Stays self.old self.new) }
        ensures refusal { MayEnd self.old result }
        ensures room { self.old.room ≤ self.new.room + 1 }
    {
        self.leave(number, ClassEvent::Unlinked(Unlinked { who, number }))
    }

    /// Removes an entry whose item is dead at the moment, which is in seconds. The entry is in a list, and the stripe of its key
    /// has `at` events. Errors: as for `unlink`.
    pub fn reclaim(&mut self, who: Who, number: u64, moment: u64, at: u64) -> Result<(), Fault>
        requires { MayCome self.old (reclaimed_event who number moment at) }
        ensures ok { OnOk result (Makes self.old self.new (reclaimed_event who number moment at)) }
        ensures err { OnErr result (Stays self.old self.new) }
        ensures refusal { MayEnd self.old result }
        ensures room { self.old.room ≤ self.new.room + 1 }
    {
        let event = ClassEvent::Reclaimed(Reclaimed {
            who,
            number,
            moment,
            at,
        });
        self.leave(number, event)
    }

    /// Evicts an entry near COLD's tail from a full class. `passed` has the numbers between it and the tail, tail first, at most
    /// four. The stripe of its key has `at` events. Errors: as for `unlink`.
    pub fn evict(&mut self, who: Who, number: u64, passed: Passed, at: u64) -> Result<(), Fault>
        requires { MayCome self.old (evicted_event who number passed at) }
        ensures ok { OnOk result (Makes self.old self.new (evicted_event who number passed at)) }
        ensures err { OnErr result (Stays self.old self.new) }
        ensures refusal { MayEnd self.old result }
        ensures room { self.old.room ≤ self.new.room + 1 }
    {
        let event = ClassEvent::Evicted(Evicted {
            who,
            number,
            passed,
            at,
        });
        self.leave(number, event)
    }
}
