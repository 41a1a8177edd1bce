//! Replies to commands, and the room that a command is given for an item.
ghost use Rattle.std.specs.Prelude.{◌≡◌, IfOk};

use crate::fault::NoMemory;
use crate::item::{ClassNo, Link};
use crate::value::Value;

/// A reply to a command (protocol.txt, under each command).
#[derive(Debug, Drop)]
pub enum Reply {
    /// The item that was asked for.
    Value { flags: u32, value: Value, cas: u64 },
    /// There is no item under this key.
    Miss,
    Stored,
    NotStored,
    Exists,
    NotFound,
    Deleted,
    Touched,
    /// The number after `incr` or `decr`.
    Number(u64),
    /// The item's value is no number.
    NonNumeric,
    /// No slab class can hold the item.
    TooLarge,
    /// No chunk was found for a storage command.
    NoRoom,
    /// No chunk was found for a longer number, or no slab class can hold it.
    NoSpace,
}

/// The room that a command is given for a new version of an item.
#[derive(Clone, Copy, Debug, PartialEq, Eq)]
pub enum Room {
    /// None is needed.
    Keep,
    /// The chunk of this new entry.
    At(Link),
    /// None was found. The event at this place of the class's history says so.
    Refused { class: ClassNo, place: u64 },
}

impl Reply {
    /// Returns an equal reply. Fails with `NoMemory` if its value can't be copied.
    pub fn copy(&self) -> Result<Reply, NoMemory>
        ensures { IfOk result (λ reply. reply ≡ self.now) }
    {
        match self {
            Reply::Value { flags, value, cas } => Ok(Reply::Value {
                flags: *flags,
                value: value.copy()?,
                cas: *cas,
            }),
            Reply::Miss => Ok(Reply::Miss),
            Reply::Stored => Ok(Reply::Stored),
            Reply::NotStored => Ok(Reply::NotStored),
            Reply::Exists => Ok(Reply::Exists),
            Reply::NotFound => Ok(Reply::NotFound),
            Reply::Deleted => Ok(Reply::Deleted),
            Reply::Touched => Ok(Reply::Touched),
            Reply::Number(number) => Ok(Reply::Number(*number)),
            Reply::NonNumeric => Ok(Reply::NonNumeric),
            Reply::TooLarge => Ok(Reply::TooLarge),
            Reply::NoRoom => Ok(Reply::NoRoom),
            Reply::NoSpace => Ok(Reply::NoSpace),
        }
    }
}
