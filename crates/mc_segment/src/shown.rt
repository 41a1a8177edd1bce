//! How a class shows an event to a history that doesn't keep it: by snapshots, which have no bytes.
ghost use Rattle.std.specs.Prelude.{◌≡◌, ◌<◌, ◌+◌, ◌∷◌, ◌++◌, []};

use mc_history::{History, Shows};
use mc_item::{ClassEvent, Key, Seg, Who};
use std::snapshot::Snapshot;

/// An event as it is shown to a history that doesn't keep it. It owns no key.
#[derive(Drop)]
pub enum ShownClass {
    /// The event itself.
    Whole(Snapshot<ClassEvent>),
    /// The parts of a `Linked` event, since the entry has the key.
    Linked {
        who: Who,
        number: u64,
        key: Snapshot<Key>,
        cost: u64,
        seg: Seg,
        moment: u64,
    },
}

impl Shows<ClassEvent> for ShownClass {
    ghost use Rattle.mc_segment.specs.Shown.{shown_event};

    ghost event = { shown_event };
}

// Adds an event at the end of a history that has room for it.
#[inline(always)]
pub(crate) fn push_whole(history: &mut History<ClassEvent, ShownClass>, event: ClassEvent)
    requires { 0 < history.old.room }
    ensures items { history.new.items ≡ history.old.items ++ event ∷ [] }
    ensures room { history.old.room ≡ history.new.room + 1 }
    ensures kept { history.new.kept ≡ history.old.kept }
{
    let shown = ShownClass::Whole(Snapshot::of(&event));
    history.push_reserved(&shown, Some(event));
}
