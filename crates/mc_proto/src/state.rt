//! What a line says, and the state of a reader. Outside the crate, only contracts see these.
use crate::request::Request;
use mc_item::{Key, Verb};
use std::marker::Model;

/// A good storage line. A block of `count` bytes and CR LF follows it.
#[derive(Drop)]
pub struct Start {
    pub verb: Verb,
    pub key: Key,
    pub flags: u32,
    pub exptime: i64,
    pub count: u64,
    pub quiet: bool,
}

/// What a line says.
#[derive(Drop)]
pub enum Said {
    /// The line is this request.
    Whole(Request),
    /// A block follows that is kept.
    Block(Start),
    /// A block follows that is skipped, since no slab class can hold it.
    Skip(Start),
}

/// The bytes of a block that have come so far. Contracts see them as a list.
#[derive(Drop)]
pub struct PartialBlock {
    pub(crate) bytes: Vec<u8>,
}

impl Model for PartialBlock {
    ghost use Rattle.std.specs.Prelude.{List, ℕ};

    ghost Value = { List ℕ };

    ghost view = { λ p. p.bytes.items };
}

/// What has come of the request that isn't complete yet.
#[derive(Drop)]
pub enum State {
    /// Part of a line, or nothing. The reader keeps its bytes beside the state.
    Line,
    /// A storage line, and these bytes of its block.
    Block(Start, PartialBlock),
    /// A storage line whose block is skipped. This many bytes of the block are still to come.
    Skip(Start, u64),
    /// A line was too long. Nothing more is read.
    Closed,
    /// Memory was refused. Nothing more is read.
    Failed,
}
