//! What a line means for the cut into scripts: its script goes on, or the line is a `%next` that begins the next script.
ghost use Rattle.std.specs.Prelude.{◌≡◌, true, IfOk};
ghost use Rattle.mc_proto.specs.Grammar.{IsFine, wanted};
ghost use Rattle.mc_proto.specs.Scripts as scripts;
ghost use Rattle.mc_proto.specs.declared.request.Limits.{Limits};

use crate::line::said_of;
use crate::request::{Limits, Request};
use crate::state::Said;
use crate::taking::MAX_LINE;
use crate::token::line_end;
use mc_item::NoMemory;
use std::alloc::Global;

/// What a stream begins with.
#[derive(Drop)]
pub enum First {
    /// A request of this many bytes. The script goes on after it.
    More(usize),
    /// A line of this many bytes, which begins the next script.
    Begins(usize),
    /// Part of a request, a line that is too long, or nothing: the script ends with the stream.
    Last,
}

// Whether a line says that the next script begins.
fn says_next(said: &Said) -> bool
    ensures { result ≡ scripts.says_next said.now }
{
    match said {
        Said::Whole(Request::Next) => true,
        _ => false,
    }
}

// How many bytes follow a line: none, or its block with CR LF.
fn block_len(said: &Said) -> usize
    requires { (limits : Limits) × IsFine limits said.now }
    ensures { result ≡ wanted said.now }
{
    match said {
        Said::Whole(_) => 0,
        Said::Block(start) | Said::Skip(start) => start.count as usize + 2,
    }
}

// Whether a line that begins with this byte needn't be read: it has no block, and isn't `%next`. Most lines are such.
fn is_plain(byte: u8) -> bool
    ensures { result ≡ true → scripts.IsPlain byte }
{
    byte == b'd' || byte == b'g' || byte == b'i' || byte == b't'
}

// How many bytes it has; 0 for `Last`.
pub(crate) fn first_len(first: &First) -> usize
    ensures { result ≡ scripts.first_len first.now }
{
    match first {
        First::More(count) | First::Begins(count) => *count,
        First::Last => 0,
    }
}

// What the first line asks for in every stream that begins with these bytes. `None` if they are at most 65,536 without an LF.
pub(crate) fn line_first(
    alloc: Global,
    limits: Limits,
    bytes: &[u8],
) -> Result<Option<First>, NoMemory>
    ensures { IfOk result (λ f. scripts.LineAsks limits bytes.now f) }
{
    let end = line_end(bytes);
    if end > MAX_LINE {
        return Ok(Some(First::Last));
    }
    if end == bytes.len() {
        return Ok(None);
    }
    if is_plain(bytes[0]) {
        return Ok(Some(First::More(end + 1)));
    }
    let said = said_of(alloc, limits, bytes.split_at(end).0)?;
    let count = end + 1 + block_len(&said);
    if says_next(&said) {
        return Ok(Some(First::Begins(count)));
    }
    Ok(Some(First::More(count)))
}
