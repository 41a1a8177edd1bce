//! Moves entries between lists.
ghost use Rattle.std.specs.Prelude.{◌≤◌, ◌+◌, OnOk, OnErr};
ghost use Rattle.mc_item.specs.declared.class_event.ClassEvent.TheVariants as events;
ghost use Rattle.mc_segment.specs.ClassCalls.{MayCome, Makes, Stays, MayEnd};

use crate::shown::push_whole;
use crate::state::ClassState;
use mc_item::{ClassEvent, Fault, Shifted};

impl ClassState {
    /// Moves an entry from its segment to the head of another one, or of its own. For a hit or an active entry, the entry's time
    /// is set to the moment, which is in seconds. Other moves keep it. `passed` and `at` are as for `evict`, but for a hit
    /// `passed` is empty. The move is lawful as far as the lists show. Errors: as for `unlink`.
    pub fn shift(&mut self, shifted: Shifted) -> Result<(), Fault>
        requires { MayCome self.old (events.Shifted shifted) }
        ensures ok { OnOk result (Makes self.old self.new (events.Shifted shifted)) }
        ensures err { OnErr result (Stays self.old self.new) }
        ensures refusal { MayEnd self.old result }
        ensures room { self.old.room ≤ self.new.room + 1 }
    {
        if !self.has_places(1) {
            return Err(Fault::HistoryFull);
        }
        self.history.reserve(1)?;
        self.lists.law();
        self.lists.move_to(
            shifted.number,
            shifted.from_seg,
            shifted.to_seg,
            shifted.why,
            shifted.moment,
        );
        push_whole(&mut self.history, ClassEvent::Shifted(shifted));
        Ok(())
    }
}
