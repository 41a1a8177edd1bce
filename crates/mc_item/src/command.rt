//! What a caller can ask of the cache.
ghost use Rattle.std.specs.Prelude.{◌≡◌, IfOk};
ghost use Rattle.mc_item.specs.Command.{key_of};

use crate::fault::NoMemory;
use crate::key::Key;
use crate::value::Value;
use std::alloc::Global;

/// The kinds of storage command (protocol.txt, "Storage commands").
#[derive(Clone, Copy, Debug, PartialEq, Eq)]
pub enum Verb {
    /// Stores whether or not there is an item.
    Set,
    /// Stores only if there is no item.
    Add,
    /// Stores only if there is an item.
    Replace,
    /// Stores only if there is an item with this cas number.
    Cas(u64),
    /// Puts its data behind an item's value.
    Append,
    /// Puts its data before an item's value.
    Prepend,
}

/// A command on one key. `gets` is also `Get`, and `gats` also `Gat`: only the printed reply differs, by the cas number.
#[derive(Debug, Drop)]
pub enum Command {
    /// Reads an item.
    Get(Key),
    /// Reads an item and sets its exptime.
    Gat(Key, i64),
    /// Stores an item with these flags, exptime and value. `Append` and `Prepend` join the value to the old one, and keep the old
    /// flags and exptime.
    Store {
        verb: Verb,
        key: Key,
        flags: u32,
        exptime: i64,
        value: Value,
    },
    /// A storage command whose block was skipped, since no slab class can hold the item.
    Huge {
        verb: Verb,
        key: Key,
    },
    /// Adds to the number that is the item's value.
    Incr(Key, u64),
    /// Subtracts from the number that is the item's value.
    Decr(Key, u64),
    /// Sets an item's exptime.
    Touch(Key, i64),
    /// Removes an item.
    Delete(Key),
}

impl Command {
    /// Returns the key that the command names.
    pub fn key(&self) -> &Key
        ensures { result.now ≡ key_of self.now }
    {
        match self {
            Command::Get(key) => key,
            Command::Gat(key, _) => key,
            Command::Store { key, .. } => key,
            Command::Huge { key, .. } => key,
            Command::Incr(key, _) => key,
            Command::Decr(key, _) => key,
            Command::Touch(key, _) => key,
            Command::Delete(key) => key,
        }
    }

    /// Returns an equal command. Fails with `NoMemory` if its key or its value can't be copied.
    pub fn copy(&self, alloc: Global) -> Result<Command, NoMemory>
        ensures { IfOk result (λ command. command ≡ self.now) }
    {
        match self {
            Command::Get(key) => Ok(Command::Get(key.copy(alloc)?)),
            Command::Gat(key, exptime) => Ok(Command::Gat(key.copy(alloc)?, *exptime)),
            Command::Store {
                verb,
                key,
                flags,
                exptime,
                value,
            } => Ok(Command::Store {
                verb: *verb,
                key: key.copy(alloc)?,
                flags: *flags,
                exptime: *exptime,
                value: value.copy()?,
            }),
            Command::Huge { verb, key } => Ok(Command::Huge {
                verb: *verb,
                key: key.copy(alloc)?,
            }),
            Command::Incr(key, delta) => Ok(Command::Incr(key.copy(alloc)?, *delta)),
            Command::Decr(key, delta) => Ok(Command::Decr(key.copy(alloc)?, *delta)),
            Command::Touch(key, exptime) => Ok(Command::Touch(key.copy(alloc)?, *exptime)),
            Command::Delete(key) => Ok(Command::Delete(key.copy(alloc)?)),
        }
    }
}
