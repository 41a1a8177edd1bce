//! The events of a stripe's history. A moment is a time in seconds.
use crate::command::Command;
use crate::item::{ClassNo, Who};
use crate::key::Key;
use crate::reply::{Reply, Room};

/// A command was answered.
#[derive(Debug, Drop)]
pub struct Did {
    pub who: Who,
    pub command: Command,
    pub moment: u64,
    pub reply: Reply,
    pub room: Room,
}

/// Why an item was removed, other than by the answer to a command.
#[derive(Clone, Copy, Debug, PartialEq, Eq)]
pub enum Cause {
    /// It was dead at this moment.
    Expired(u64),
    /// Its chunk was taken, by the eviction at this place of the class's history.
    Taken { class: ClassNo, place: u64 },
}

/// An item was lost: it was removed for this cause.
#[derive(Debug, Drop)]
pub struct Lost {
    pub who: Who,
    pub key: Key,
    pub cause: Cause,
}

/// An item's ACTIVE mark was cleared.
#[derive(Debug, Drop)]
pub struct Cooled {
    pub who: Who,
    pub key: Key,
}

/// An event of a stripe's history.
#[derive(Debug, Drop)]
pub enum StripeEvent {
    Did(Did),
    Lost(Lost),
    Cooled(Cooled),
}
