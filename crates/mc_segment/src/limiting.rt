//! Sets how many chunks a class may use.
ghost use Rattle.std.specs.Prelude.{◌≤◌, ◌+◌, ◌^◌, OnOk, OnErr};
ghost use Rattle.mc_segment.specs.ClassCalls.{limited_event, Makes, Stays, MayEnd};

use crate::shown::push_whole;
use crate::state::ClassState;
use mc_item::{ClassEvent, Fault, Limited, Who};

impl ClassState {
    /// Sets the limit of chunks, from 1 to 2^20, and notes it as an event. From then on the class is full if it has at least that
    /// many entries. A lower limit evicts nothing by itself. Errors: as for `unlink`.
    pub fn set_chunks(&mut self, who: Who, chunks: u64) -> Result<(), Fault>
        requires some { 1 ≤ chunks }
        requires bound { chunks ≤ 2 ^ 20 }
        ensures ok { OnOk result (Makes self.old self.new (limited_event who chunks)) }
        ensures err { OnErr result (Stays self.old self.new) }
        ensures refusal { MayEnd self.old result }
        ensures room { self.old.room ≤ self.new.room + 1 }
    {
        if !self.has_places(1) {
            return Err(Fault::HistoryFull);
        }
        self.history.reserve(1)?;
        let event = ClassEvent::Limited(Limited { who, chunks });
        push_whole(&mut self.history, event);
        self.chunks = chunks;
        Ok(())
    }
}
