//! The events of a slab class's history. `who` is the call that made the event, and a moment is a time in seconds. `passed` has
//! the numbers of the entries nearer to the tail. It is empty for a hit. `at` is how many events the stripe of the entry's key
//! had then.
use crate::item::Who;
use crate::key::Key;
use crate::lists::{Passed, Seg};

/// Why an entry was moved to the head of a list (new_lru.txt).
#[derive(Clone, Copy, Debug, PartialEq, Eq)]
pub enum Why {
    /// It was hit in COLD.
    Hit,
    /// It was found ACTIVE near its list's tail.
    Active,
    /// Its list's bytes exceeded the limit that follows from the survey at this place of the history.
    Over(u64),
    /// Its age exceeded the greatest age that follows from the survey at this place of the history.
    Old(u64),
    /// The class was full.
    Forced,
}

/// A new entry was linked at the head of a list.
#[derive(Debug, Drop)]
pub struct Linked {
    pub who: Who,
    pub number: u64,
    pub key: Key,
    pub cost: u64,
    pub seg: Seg,
    pub moment: u64,
}

/// An entry was removed because a command replaced or removed its item.
#[derive(Debug, Drop)]
pub struct Unlinked {
    pub who: Who,
    pub number: u64,
}

/// An entry was moved to the head of another list, or of its own.
#[derive(Debug, Drop)]
pub struct Shifted {
    pub who: Who,
    pub number: u64,
    pub from_seg: Seg,
    pub to_seg: Seg,
    pub why: Why,
    pub moment: u64,
    pub passed: Passed,
    pub at: u64,
}

/// An entry near COLD's tail was evicted.
#[derive(Debug, Drop)]
pub struct Evicted {
    pub who: Who,
    pub number: u64,
    pub passed: Passed,
    pub at: u64,
}

/// An entry was removed because its item was dead.
#[derive(Debug, Drop)]
pub struct Reclaimed {
    pub who: Who,
    pub number: u64,
    pub moment: u64,
    pub at: u64,
}

/// A survey: the bytes of HOT, WARM and COLD together, and the age of COLD's tail at a moment.
#[derive(Debug, Drop)]
pub struct Surveyed {
    pub who: Who,
    pub moment: u64,
    pub total: u64,
    pub cold_age: u64,
}

/// No chunk was found for a command.
#[derive(Debug, Drop)]
pub struct Refused {
    pub who: Who,
}

/// The class has a new limit of chunks from here on. A lower limit evicts nothing by itself.
#[derive(Debug, Drop)]
pub struct Limited {
    pub who: Who,
    pub chunks: u64,
}

/// An event of a slab class's history.
#[derive(Debug, Drop)]
pub enum ClassEvent {
    Linked(Linked),
    Unlinked(Unlinked),
    Shifted(Shifted),
    Evicted(Evicted),
    Reclaimed(Reclaimed),
    Surveyed(Surveyed),
    Refused(Refused),
    Limited(Limited),
}
