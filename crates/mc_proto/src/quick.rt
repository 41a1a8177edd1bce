//! Reads the most frequent lines in one pass: get of one key, set, add, replace, append and prepend, if they begin with the verb
//! and a space. For other lines the answer may be `None`; then other functions read them.
ghost use Rattle.std.specs.Prelude.{◌≡◌, ◌∷◌, ◌++◌, [], ◌↔◌, IfOk, IsTrue, IfSome, MatchOption, codes, if◌then◌else◌, false};
ghost use Rattle.mc_proto.specs.{Grammar.IsFine, Lines.tokens, Words.store_word};
ghost use Rattle.mc_proto.specs.Table as table;
ghost use Rattle.mc_proto.specs.declared.request.Limits.{Limits};
ghost use Rattle.mc_proto.specs.declared.request.Request.TheVariants as requests;
ghost use Rattle.mc_proto.specs.declared.state.Said.TheVariants as said;

use crate::request::Limits;
use crate::state::{Said, Start};
use crate::storage::{MAX_BYTES, MAX_FLAGS, begun};
use crate::token::{key_of_token, next_number, next_token, without_cr};
use mc_item::{Key, NoMemory, Verb};
use std::alloc::Global;

// What follows `get` and a space, if the line begins with them.
#[inline(always)]
fn after_get(line: &[u8]) -> Option<&[u8]>
    ensures { IfSome result (λ rest. line.now ≡ codes "get " ++ rest.now) }
{
    let [b'g', b'e', b't', b' ', rest @ ..] = line else {
        return None;
    };
    Some(rest)
}

/// Returns the key of a line that is just `get`, one space and a key. `None` says nothing about the line.
#[inline(always)]
pub fn lone_get(alloc: Global, line: &[u8]) -> Result<Option<Key>, NoMemory>
    ensures value { IfOk result (λ found. IfSome found (λ key. (limits : Limits) → table.says limits line.now ≡ said.Whole (requests.Get (key ∷ []) false))) }
    ensures fine { (limits : Limits) → IfOk result (λ found. IfSome found (λ key. IsFine limits (said.Whole (requests.Get (key ∷ []) false)))) }
{
    let Some(token) = after_get(without_cr(line)) else {
        return Ok(None);
    };
    match key_of_token(alloc, token)? {
        Some(key) => Ok(Some(key)),
        None => Ok(None),
    }
}

// The verb and what follows it, if the line begins with `set`, `add`, `replace`, `append` or `prepend` and a space.
#[inline(always)]
fn after_store(line: &[u8]) -> Option<(Verb, &[u8])>
    ensures { IfSome result (λ x. MatchOption (store_word x.0) ⊥ (λ word. tokens line.now ≡ word ∷ tokens x.1.now)) }
{
    match line {
        [b's', b'e', b't', b' ', rest @ ..] => Some((Verb::Set, rest)),
        [b'a', b'd', b'd', b' ', rest @ ..] => Some((Verb::Add, rest)),
        [b'r', b'e', b'p', b'l', b'a', b'c', b'e', b' ', rest @ ..] => Some((Verb::Replace, rest)),
        [b'a', b'p', b'p', b'e', b'n', b'd', b' ', rest @ ..] => Some((Verb::Append, rest)),
        [b'p', b'r', b'e', b'p', b'e', b'n', b'd', b' ', rest @ ..] => Some((Verb::Prepend, rest)),
        _ => None,
    }
}

// Whether these bytes are a space and `noreply`.
#[inline(always)]
fn is_noreply(rest: &[u8]) -> bool
    ensures { IsTrue result ↔ (rest.now ≡ codes " noreply") }
{
    match rest {
        [b' ', b'n', b'o', b'r', b'e', b'p', b'l', b'y'] => true,
        _ => false,
    }
}

/// Whether this end of a line makes it quiet: `false` if it is empty, `true` if it is a space and `noreply`. `None` says nothing.
#[inline(always)]
pub fn quiet_end(rest: &[u8]) -> Option<bool>
    ensures { IfSome result (λ quiet. tokens rest.now ≡ (if quiet then codes "noreply" ∷ [] else [])) }
{
    if rest.is_empty() {
        return Some(false);
    }
    if !is_noreply(rest) {
        return None;
    }
    Some(true)
}

/// Reads a line `set`, `add`, `replace`, `append` or `prepend` of key, three numbers without sign and perhaps noreply, whose block
/// is kept. `None` says nothing about the line.
#[inline(always)]
pub fn quick_store(alloc: Global, limits: Limits, line: &[u8]) -> Result<Option<Start>, NoMemory>
    ensures value { IfOk result (λ found. IfSome found (λ start. table.says limits line.now ≡ said.Block start)) }
    ensures fine { IfOk result (λ found. IfSome found (λ start. IsFine limits (said.Block start))) }
{
    let Some((verb, rest)) = after_store(without_cr(line)) else {
        return Ok(None);
    };
    let Some((token, rest)) = next_token(rest) else {
        return Ok(None);
    };
    let Some((flags, rest)) = next_number(rest) else {
        return Ok(None);
    };
    let Some((exptime, rest)) = next_number(rest) else {
        return Ok(None);
    };
    let Some((count, rest)) = next_number(rest) else {
        return Ok(None);
    };
    let Some(quiet) = quiet_end(rest) else {
        return Ok(None);
    };
    if flags > MAX_FLAGS || count > MAX_BYTES {
        return Ok(None);
    }
    let Some(key) = key_of_token(alloc, token)? else {
        return Ok(None);
    };
    let start = Start {
        verb,
        key,
        flags: flags as u32,
        exptime: exptime as i64,
        count,
        quiet,
    };
    match begun(limits, start) {
        Said::Block(start) => Ok(Some(start)),
        Said::Skip(_) => Ok(None),
        Said::Whole(_) => Ok(None),
    }
}
