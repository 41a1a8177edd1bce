//! Reads the lines of get, gets, gat and gats: one or more keys, after the exptime of a gat.
ghost use Rattle.std.specs.Prelude.{◌≡◌, ◌∷◌, [], IfOk, Some, None, if◌then◌else◌, map};
ghost use Rattle.std.specs.List.{list_all};
ghost use Rattle.mc_proto.specs.{Grammar.IsFine, Lines.is_key, Table.row_says};
ghost use Rattle.mc_proto.specs.Kinds as kinds;
ghost use Rattle.mc_proto.specs.Table as table;
ghost use Rattle.mc_proto.specs.declared.request.Limits.{Limits};
ghost use Rattle.mc_proto.specs.declared.request.Request.TheVariants as requests;
ghost use Rattle.mc_proto.specs.declared.state.Said.TheVariants as said;

use crate::request::{Keys, LineFault, Request};
use crate::said::{bad, no_format, no_line};
use crate::state::Said;
use crate::token::{exptime, key_of_token};
use mc_item::NoMemory;
use std::alloc::Global;

// The keys that these tokens are, or `None` if one of them can't be a key. A single key takes no list.
#[inline(always)]
fn keys_of(alloc: Global, tokens: &[&[u8]]) -> Result<Option<Keys>, NoMemory>
    ensures { IfOk result (λ keys. keys ≡ (if list_all is_key (map (λ t. t.now) tokens.now) then Some (map (λ t. t.now) tokens.now) else None)) }
{
    if let [token] = tokens {
        return match key_of_token(alloc, *token)? {
            Some(key) => Ok(Some(Keys::one(key))),
            None => Ok(None),
        };
    }
    let mut keys = Vec::with_capacity(alloc, tokens.len())?;
    for token in tokens {
        match key_of_token(alloc, *token)? {
            Some(key) => {
                keys.push(key)?;
            }
            None => {
                return Ok(None);
            }
        }
    }
    Ok(Some(Keys::from_vec(keys)))
}

/// Reads the tokens after `get`, or after `gets` if `with_cas`: one or more keys. One bad key refuses the whole line.
#[inline(never)]
pub fn get_line(alloc: Global, with_cas: bool, tokens: &[&[u8]]) -> Result<Said, NoMemory>
    ensures value { (limits : Limits) → IfOk result (λ s. s ≡ row_says limits [] table.Keys (λ keys. said.Whole (requests.Get keys with_cas))
        (map (λ t. t.now) tokens.now)) }
    ensures fine { (limits : Limits) → IfOk result (λ s. IsFine limits s) }
{
    if tokens.is_empty() {
        return Ok(no_line());
    }
    let Some(keys) = keys_of(alloc, tokens)? else {
        return Ok(no_format(false));
    };
    Ok(Said::Whole(Request::Get { keys, with_cas }))
}

/// Reads the tokens after `gat`, or after `gats` if `with_cas`: an exptime, and one or more keys. A malformed exptime comes before
/// a bad key, and one bad key refuses the whole line.
#[inline(never)]
pub fn gat_line(alloc: Global, with_cas: bool, tokens: &[&[u8]]) -> Result<Said, NoMemory>
    ensures value { (limits : Limits) → IfOk result (λ s. s ≡ row_says limits (kinds.NewExptime ∷ []) table.Keys
        (λ e keys. said.Whole (requests.Gat e keys with_cas)) (map (λ t. t.now) tokens.now)) }
    ensures fine { (limits : Limits) → IfOk result (λ s. IsFine limits s) }
{
    let [first, rest @ ..] = tokens else {
        return Ok(no_line());
    };
    if rest.is_empty() {
        return Ok(no_line());
    }
    let Some(exptime) = exptime(*first) else {
        return Ok(bad(LineFault::Exptime, false));
    };
    let Some(keys) = keys_of(alloc, rest)? else {
        return Ok(no_format(false));
    };
    Ok(Said::Whole(Request::Gat {
        exptime,
        keys,
        with_cas,
    }))
}
