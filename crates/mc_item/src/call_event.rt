//! The events of a caller's history. A moment is a time in seconds.
use crate::command::Command;
use crate::item::{ClassNo, StripeNo};

/// The caller asked for a command at a moment.
#[derive(Drop)]
pub struct Asked {
    pub command: Command,
    pub moment: u64,
}

/// The caller asked for a class to be juggled or crawled at a moment.
#[derive(Drop)]
pub struct Worked {
    pub class: ClassNo,
    pub moment: u64,
}

/// The caller's last command was answered by the event at this place (the number of earlier ones) of this stripe's history.
#[derive(Drop)]
pub struct Answered {
    pub stripe: StripeNo,
    pub place: u64,
}

/// The caller asked for a class to have this limit of chunks. The call has no moment.
#[derive(Drop)]
pub struct Limits {
    pub class: ClassNo,
    pub chunks: u64,
}

/// An event of a caller's history: a call, which has a turn, or the answer to a command. All calls but `Limits` have a moment.
#[derive(Drop)]
pub enum CallEvent {
    Asked(Asked),
    Juggled(Worked),
    Crawled(Worked),
    Answered(Answered),
    Limits(Limits),
}

/// An `Asked` event that borrows its command, which is still to be made.
#[derive(Drop)]
pub struct Asking<'a> {
    pub command: &'a Command,
    pub moment: u64,
}
