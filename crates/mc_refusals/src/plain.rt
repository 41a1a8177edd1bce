//! Calls that need little or nothing before them, and change nothing that they are lent.
ghost use Rattle.mc_item.specs.Config.{IsBounded};

use crate::asking::{key_of, value_of};
use crate::configuring::store_config;
use crate::end::{End, end_by};
use crate::marks::Marks;
use mc_board::{Board, Counts};
use mc_hits::Queues;
use mc_item::{ClassNo, Config, Histogram, Key, KeyFault, Moves, Reply, Value};
use mc_options::{Options, PlanFault, WordsFault, plan_for, read_words};
use mc_proto::{
    LineFault, chunks_text, fault_text, histogram_text, moves_text, reply_text, value_text,
};
use mc_store::Tokens;
use std::alloc::Global;

/// A call that needs nothing before it. The texts are those of replies.
#[derive(Clone, Copy)]
pub(crate) enum Plain {
    Key,
    Config,
    /// Sizes and times of upkeep are read.
    Plan,
    /// The words of a command line are read.
    Words,
    Reply,
    Fault,
    Moves,
    Histogram,
    Chunks,
    /// A board of three locks is opened.
    Board,
    /// Two queues for two callers are opened.
    Queues,
}

const COUNTS: Counts = Counts {
    stripes: 1,
    classes: 1,
    callers: 1,
};

const MOVES: Moves = Moves {
    reclaimed: 1,
    moved: 2,
};

// Makes a key. Keys of more than 30 bytes take memory.
fn key(alloc: Global) -> End {
    match Key::of(alloc, b"a_key_of_thirty_one_bytes_of_it") {
        Ok(_) => End::Made,
        Err(KeyFault::NoMemory) => End::Refused,
        Err(_) => End::Other,
    }
}

const NO_OPTIONS: Options = Options {
    stripes: None,
    chunks: None,
    temp: false,
    temp_ttl: None,
    events: None,
    follow: false,
};

fn plan(alloc: Global) -> End {
    match plan_for(alloc, Some(b"96,120"), Some(b"1000,1001"), NO_OPTIONS) {
        Ok(_) => End::Made,
        Err(PlanFault::NoMemory) => End::Refused,
        Err(_) => End::Other,
    }
}

// Reads words that are taken. Where `clap` finds no memory, it refuses the words.
fn words(alloc: Global) -> End {
    match read_words(alloc, &["mcseg", "--sizes", "96,120", "--follow"]) {
        Ok(_) => End::Made,
        Err(WordsFault::NoMemory | WordsFault::Words(_)) => End::Refused,
        Err(_) => End::Other,
    }
}

fn end_after(alloc: Global, call: Plain) -> End {
    match call {
        Plain::Key => key(alloc),
        Plain::Config => end_by(Config::usual(alloc, 1)),
        Plain::Plan => plan(alloc),
        Plain::Words => words(alloc),
        Plain::Reply => end_by(reply_text(alloc, &Reply::Number(7))),
        Plain::Fault => end_by(fault_text(alloc, LineFault::Chunk)),
        Plain::Moves => end_by(moves_text(alloc, &MOVES)),
        Plain::Histogram => end_by(histogram_text(alloc, &Histogram::new())),
        Plain::Chunks => end_by(chunks_text(alloc, ClassNo(1), 2)),
        Plain::Board => end_by(Board::open(alloc, COUNTS)),
        Plain::Queues => end_by(Queues::open(alloc, 2, 4, 2)),
    }
}

/// Makes the call.
pub(crate) fn make(alloc: Global, call: Plain, marks: Marks) -> End {
    marks.begin();
    let end = end_after(alloc, call);
    marks.end();
    end
}

/// Makes a value of bytes.
pub(crate) fn value(alloc: Global, marks: Marks) -> End {
    let Ok(bytes) = Vec::from_slice(alloc, b"12345") else {
        return End::Other;
    };
    marks.begin();
    let value = Value::of(alloc, bytes);
    marks.end();
    end_by(value)
}

fn text_of(key: &Key, value: Value, marks: Marks) -> End {
    let found = Reply::Value {
        flags: 7,
        value,
        cas: 1,
    };
    marks.begin();
    let text = value_text(marks.alloc, key, &found, true);
    marks.end();
    end_by(text)
}

/// Writes the text of an item that was found.
pub(crate) fn found_text(alloc: Global, marks: Marks) -> End {
    match (key_of(alloc, b'a'), value_of(alloc, "12345")) {
        (Ok(key), Ok(value)) => text_of(&key, value, marks),
        _ => End::Other,
    }
}

fn tokens_for(config: &Config, marks: Marks) -> End
    requires { IsBounded config.now }
{
    marks.begin();
    let tokens = Tokens::open(marks.alloc, config);
    marks.end();
    end_by(tokens)
}

/// Opens what a store is opened with.
pub(crate) fn tokens(alloc: Global, marks: Marks) -> End {
    match store_config(alloc) {
        Some(config) => tokens_for(&config, marks),
        None => End::Other,
    }
}
