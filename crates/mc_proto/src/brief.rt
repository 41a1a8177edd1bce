//! Reads the lines of gat, gats, incr, decr, touch and delete in one pass, if they begin with the verb and a space, and appends
//! their requests. Other lines stay unread. `said_of` reads every line.
ghost use Rattle.std.specs.Prelude.{◌≡◌, ◌∷◌, IfOk, IfSome, codes, if◌then◌else◌};
ghost use Rattle.mc_proto.specs.{Brief.IsReadIf, Lines.no_cr, Lines.tokens};

use crate::command::counting;
use crate::quick::quiet_end;
use crate::request::{Keys, Request};
use crate::token::{key_of_token, next_number, next_token, without_cr};
use mc_item::{Command, NoMemory};
use std::alloc::Global;

// What follows the first byte, if that is a space.
#[inline(always)]
fn after_space(bytes: &[u8]) -> Option<&[u8]>
    ensures { IfSome result (λ rest. tokens bytes.now ≡ tokens rest.now) }
{
    let [b' ', rest @ ..] = bytes else {
        return None;
    };
    Some(rest)
}

// Reads what follows `gat`, or `gats` if `with_cas`: exptime (without a sign), one space and one key.
#[inline(never)]
fn read_gat(
    alloc: Global,
    with_cas: bool,
    rest: &[u8],
    requests: &mut Vec<Request>,
) -> Result<bool, NoMemory>
    ensures { IfOk result (λ read. IsReadIf read ((if with_cas then codes "gats" else codes "gat") ∷ tokens rest.now) requests.old.items requests.new.items) }
{
    let Some((exptime, rest)) = next_number(rest) else {
        return Ok(false);
    };
    let Some(token) = after_space(rest) else {
        return Ok(false);
    };
    let Some(key) = key_of_token(alloc, token)? else {
        return Ok(false);
    };
    requests.push(Request::Gat {
        exptime: exptime as i64,
        keys: Keys::one(key),
        with_cas,
    })?;
    Ok(true)
}

// Reads what follows `incr` (if `up`) or `decr`: key, delta (at most 18 digits) and perhaps noreply.
#[inline(never)]
fn read_count(
    alloc: Global,
    up: bool,
    rest: &[u8],
    requests: &mut Vec<Request>,
) -> Result<bool, NoMemory>
    ensures { IfOk result (λ read. IsReadIf read ((if up then codes "incr" else codes "decr") ∷ tokens rest.now) requests.old.items requests.new.items) }
{
    let Some((token, rest)) = next_token(rest) else {
        return Ok(false);
    };
    let Some((delta, rest)) = next_number(rest) else {
        return Ok(false);
    };
    let Some(quiet) = quiet_end(rest) else {
        return Ok(false);
    };
    let Some(key) = key_of_token(alloc, token)? else {
        return Ok(false);
    };
    let command = counting(up, key, delta);
    requests.push(Request::One { command, quiet })?;
    Ok(true)
}

// Reads what follows `touch`: key, exptime (without a sign) and perhaps noreply.
#[inline(never)]
fn read_touch(alloc: Global, rest: &[u8], requests: &mut Vec<Request>) -> Result<bool, NoMemory>
    ensures { IfOk result (λ read. IsReadIf read (codes "touch" ∷ tokens rest.now) requests.old.items requests.new.items) }
{
    let Some((token, rest)) = next_token(rest) else {
        return Ok(false);
    };
    let Some((exptime, rest)) = next_number(rest) else {
        return Ok(false);
    };
    let Some(quiet) = quiet_end(rest) else {
        return Ok(false);
    };
    let Some(key) = key_of_token(alloc, token)? else {
        return Ok(false);
    };
    let command = Command::Touch(key, exptime as i64);
    requests.push(Request::One { command, quiet })?;
    Ok(true)
}

// Reads what follows `delete`: key and perhaps noreply.
#[inline(never)]
fn read_delete(alloc: Global, rest: &[u8], requests: &mut Vec<Request>) -> Result<bool, NoMemory>
    ensures { IfOk result (λ read. IsReadIf read (codes "delete" ∷ tokens rest.now) requests.old.items requests.new.items) }
{
    let Some((token, rest)) = next_token(rest) else {
        return Ok(false);
    };
    let Some(quiet) = quiet_end(rest) else {
        return Ok(false);
    };
    let Some(key) = key_of_token(alloc, token)? else {
        return Ok(false);
    };
    let command = Command::Delete(key);
    requests.push(Request::One { command, quiet })?;
    Ok(true)
}

/// Reads a line of one of these verbs, and appends its request. Returns whether it did. `false` says nothing about the line. The
/// line comes without its LF.
#[inline(always)]
pub fn read_brief(alloc: Global, line: &[u8], requests: &mut Vec<Request>) -> Result<bool, NoMemory>
    ensures { IfOk result (λ read. IsReadIf read (tokens (no_cr line.now)) requests.old.items requests.new.items) }
{
    match without_cr(line) {
        [b'g', b'a', b't', b' ', rest @ ..] => read_gat(alloc, false, rest, requests),
        [b'g', b'a', b't', b's', b' ', rest @ ..] => read_gat(alloc, true, rest, requests),
        [b'i', b'n', b'c', b'r', b' ', rest @ ..] => read_count(alloc, true, rest, requests),
        [b'd', b'e', b'c', b'r', b' ', rest @ ..] => read_count(alloc, false, rest, requests),
        [b't', b'o', b'u', b'c', b'h', b' ', rest @ ..] => read_touch(alloc, rest, requests),
        [b'd', b'e', b'l', b'e', b't', b'e', b' ', rest @ ..] => read_delete(alloc, rest, requests),
        _ => Ok(false),
    }
}
