//! Copies of a key and of a command, and the cut of an input into scripts.
use crate::asking::Asked::Store;
use crate::asking::{command_of, key_of};
use crate::end::{End, end_by};
use crate::marks::Marks;
use mc_item::{Key, NoMemory, Verb};
use mc_proto::{Limits, split_scripts};
use std::alloc::Global;
use std::collections::VecDeque;

fn copied(key: &Key, marks: Marks) -> End {
    marks.begin();
    let copy = key.copy(marks.alloc);
    marks.end();
    end_by(copy)
}

/// Copies a key.
pub(crate) fn key(alloc: Global, marks: Marks) -> End {
    match key_of(alloc, b'a') {
        Ok(key) => copied(&key, marks),
        Err(_) => End::Other,
    }
}

/// Copies a command that stores a value.
pub(crate) fn command(alloc: Global, marks: Marks) -> End {
    let Some(command) = command_of(alloc, b'a', Store(Verb::Set, "12345", 0)) else {
        return End::Other;
    };
    marks.begin();
    let copy = command.copy(alloc);
    marks.end();
    end_by(copy)
}

const LIMITS: Limits = Limits {
    largest: 200,
    classes: 1,
};

// Two scripts in two pieces, cut within a line and within a `%next`.
fn two_scripts(alloc: Global) -> Result<VecDeque<Vec<u8>>, NoMemory> {
    let mut input = VecDeque::new(alloc);
    input.push_back(Vec::from_slice(alloc, b"get a\r\n%ne")?)?;
    input.push_back(Vec::from_slice(alloc, b"xt\r\nget b\r\n")?)?;
    Ok(input)
}

/// Cuts an input into its scripts.
pub(crate) fn scripts(alloc: Global, marks: Marks) -> End {
    let Ok(input) = two_scripts(alloc) else {
        return End::Other;
    };
    marks.begin();
    let scripts = split_scripts(alloc, input, LIMITS);
    marks.end();
    end_by(scripts)
}
