//! The rule of the board's table, and the views: what each seat knows. Views exist in proofs alone: no value of one is made.
use atomic_table::{Seat, Table, TableRule};
use mc_item::Event;
use std::alloc::Global;
use std::collections::LinkedList;

/// How many locks of each kind a board has. Locks are numbered in this order, from 0.
#[derive(Clone, Copy)]
pub struct Counts {
    pub stripes: usize,
    pub classes: usize,
    pub callers: usize,
}

/// Figures of a lock at one moment: how many events its history had, and the eight figures that these leave (`figures_of`).
pub struct Note {
    pub lock: usize,
    pub events: u64,
    pub values: LinkedList<u64>,
}

/// What a token knows of each lock: the list of events that it has seen, the length that it has noted, and the figures that it
/// has noted, the newest first.
pub struct Sight {
    pub seen: LinkedList<LinkedList<Event>>,
    pub noted: LinkedList<u64>,
    pub figures: LinkedList<Note>,
}

/// Whether an owner is writing, and what its lock's eight further words have then.
pub enum Stage {
    Still,
    Writing(LinkedList<u64>),
}

/// What a token has read of a lock: the number that it found first, and the figures after it.
pub struct Reading {
    pub lock: usize,
    pub at: u64,
    pub got: LinkedList<u64>,
}

/// Whether a token is reading figures.
pub enum Look {
    Away,
    Reading(Reading),
}

/// What the root knows: the counts, and that it has given out the owners of the locks below `given`.
pub struct Root {
    pub counts: Counts,
    pub given: usize,
}

/// Events that a caller made in one turn: those of a lock's history from one place on, up to another.
pub struct Span {
    pub turn: u64,
    pub lock: usize,
    pub from: u64,
    pub until: u64,
}

/// A caller's account: the lock of its own history, and the events that it made on other locks, the oldest first. `first` is the
/// lock of the first caller's history.
pub struct Account {
    pub first: usize,
    pub lock: usize,
    pub made: LinkedList<Span>,
}

/// What an owner knows: its lock, that lock's first word, the whole history, and whether it is writing. `told` is what a token
/// showed it last, to compare. A caller's owner knows the caller's account, whose events are `made`. `first` is the lock of the
/// first caller's history, and `shown` the account that was shown last.
pub struct Owned {
    pub lock: usize,
    pub word: usize,
    pub history: LinkedList<Event>,
    pub stage: Stage,
    pub told: Sight,
    pub first: usize,
    pub made: LinkedList<Span>,
    pub shown: Account,
}

/// What a token knows: what it has seen and noted, and what it is reading. `told` is what another token showed it last, to compare.
pub struct Known {
    pub sight: Sight,
    pub told: Sight,
    pub look: Look,
}

/// What a seat knows, by its kind. An account's seat has a copy of it. A spent seat was joined into another.
pub enum View {
    Root(Root),
    Owner(Owned),
    Seen(Known),
    Account(Account),
    Spent,
}

/// The rule of the board's table (`IsGrowing`). The table's key is the counts.
pub struct Law;

impl TableRule<(), View, Counts> for Law {
    ghost use Rattle.mc_board.specs.{Board.IsGrowing, Steps.opening_of};

    ghost holds = { λ counts state. IsGrowing counts state.words state.views };

    ghost first = { opening_of };
}

pub(crate) type Words = Table<(), View, Counts, Law, Global>;

pub(crate) type Place = Seat<(), View>;
