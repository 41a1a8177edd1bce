//! Commands on keys of one letter. A thread can't return a test's
//! `Fail`, so for threads there are `try_` calls that return a fault.
use mc_item::{Command, Key, KeyFault, Value, Verb};
use std::alloc::Global;
use std::test::Fail;

/// Makes the key of one letter, for use in threads.
pub fn try_key(alloc: Global, letter: u8) -> Result<Key, KeyFault> {
    Key::of(alloc, &[letter])
}

/// Makes a storage command for the key of one letter, with this text as its value, for use in threads.
pub fn try_storage(
    alloc: Global,
    verb: Verb,
    letter: u8,
    flags: u32,
    exptime: i64,
    text: &[u8],
) -> Result<Command, KeyFault> {
    let bytes = Vec::from_slice(alloc, text)?;
    let Ok(value) = Value::of(alloc, bytes) else {
        return Err(KeyFault::NoMemory);
    };
    let key = try_key(alloc, letter)?;
    Ok(Command::Store {
        verb,
        key,
        flags,
        exptime,
        value,
    })
}

/// Makes the key of one letter.
pub fn key(alloc: Global, letter: u8) -> Result<Key, Fail> {
    Ok(try_key(alloc, letter)?)
}

/// Makes a storage command for the key of one letter, with this text as its value.
pub fn storage(
    alloc: Global,
    verb: Verb,
    letter: u8,
    flags: u32,
    exptime: i64,
    text: &[u8],
) -> Result<Command, Fail> {
    Ok(try_storage(alloc, verb, letter, flags, exptime, text)?)
}
