//! Requests, as the lines and blocks of an input spell them.
ghost use Rattle.std.specs.Prelude.{◌≡◌, ◌∷◌, [], IfOk, IfErr};

use mc_item::{ClassNo, Command, Key};
use std::marker::Model;

/// The limits by which a reader checks requests.
#[derive(Clone, Copy, Debug, PartialEq, Eq)]
pub struct Limits {
    /// The size of the last slab class, the largest, in bytes. A block that no class can hold is skipped.
    pub largest: u64,
    /// How many slab classes there are. They are numbered from 1.
    pub classes: u32,
}

/// The keys of a line. A single key needs no list.
#[derive(Drop)]
pub(crate) enum Listed {
    One(Key),
    Many(Vec<Key>),
}

/// The keys of one line. Contracts see them as a list.
#[derive(Drop)]
pub struct Keys {
    listed: Listed,
}

impl Model for Keys {
    ghost use Rattle.std.specs.Prelude.{List, ℕ};
    ghost use Rattle.mc_proto.specs.Keys.{listed_keys};

    ghost Value = { List (List ℕ) };

    ghost view = { λ k. listed_keys k.listed };
}

impl Keys {
    /// Makes the list of one key. It takes no memory.
    pub fn one(key: Key) -> Keys
        ensures { result ≡ key ∷ [] }
    {
        Keys {
            listed: Listed::One(key),
        }
    }

    /// Makes the list of these keys. It takes no memory.
    pub fn from_vec(keys: Vec<Key>) -> Keys
        ensures { result ≡ keys.items }
    {
        Keys {
            listed: Listed::Many(keys),
        }
    }

    /// Returns the single key, or as an `Err` the list that the keys were made from. It takes no memory.
    pub fn into_one(self) -> Result<Key, Vec<Key>>
        ensures ok { IfOk result (λ key. self ≡ key ∷ []) }
        ensures err { IfErr result (λ keys. self ≡ keys.items) }
    {
        let Keys { listed } = self;
        match listed {
            Listed::One(key) => Ok(key),
            Listed::Many(keys) => Err(keys),
        }
    }
}

/// Which slab classes a directive names.
#[derive(Clone, Copy, Debug, PartialEq, Eq)]
pub enum Target {
    /// All classes, in rising number.
    All,
    /// One class, by its number.
    Class(ClassNo),
}

/// What is wrong with a line or its block.
#[derive(Clone, Copy, Debug, PartialEq, Eq)]
pub enum LineFault {
    /// The line is empty, its verb is unknown, or it has the wrong number of tokens.
    Error,
    /// A token is malformed or out of range, and neither `Delta` nor `Exptime` says so.
    Format,
    /// The bytes of a block aren't followed by CR LF.
    Chunk,
    /// The delta of `incr` or `decr` isn't a number below 2^64.
    Delta,
    /// 65,537 bytes of a line came without an LF. Nothing is read after them.
    LineTooLong,
    /// The exptime of `touch`, `gat` or `gats` is malformed.
    Exptime,
}

/// A request. A quiet one is answered, but nothing is printed for it.
#[derive(Drop)]
pub enum Request {
    /// `get`, or `gets` if `with_cas`: then the reply has cas numbers.
    Get {
        keys: Keys,
        with_cas: bool,
    },
    /// `gat`, or `gats` if `with_cas`: a get that also sets the exptime.
    Gat {
        exptime: i64,
        keys: Keys,
        with_cas: bool,
    },
    /// Any other command.
    One {
        command: Command,
        quiet: bool,
    },
    /// A refused line or block.
    Bad {
        why: LineFault,
        quiet: bool,
    },
    /// `%at`: the time of all that follows, in seconds.
    At(u64),
    /// `%next`: the next script begins.
    Next,
    /// `%juggle`: the LRU maintainer works on these classes.
    Juggle(Target),
    /// `%crawl`: the crawler works on these classes.
    Crawl(Target),
    /// `%chunks`: this class's limit becomes so many chunks.
    Chunks(ClassNo, u64),
    /// `quit`: the script ends.
    Quit,
}

/// What the end of an input left unfinished.
#[derive(Clone, Copy, Debug, PartialEq, Eq)]
pub enum Rest {
    /// Nothing. This is also the answer after a line that was too long.
    Nothing,
    /// A line without its LF.
    Line,
    /// A storage line whose block isn't whole.
    Block,
}
