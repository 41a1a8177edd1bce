//! Finds the tokens of a line, and reads keys and numbers.
ghost use Rattle.std.specs.Prelude.{◌≡◌, ◌+◌, ◌-◌, ◌<◌, ◌≤◌, ◌^◌, ◌++◌, ℕ, IfOk, IfSome, MatchOption, length, take, drop, get_or, map, ◌∷◌, []};
ghost use Rattle.std.specs.Prelude.{List, Some, true, pos};
ghost use Rattle.std.specs.List.{list_all};
ghost use Rattle.mc_item.specs.Measure.{is_digit};
ghost use Rattle.mc_proto.specs.Lines as lines;
ghost use Rattle.mc_proto.specs.Lines.{Lacks, tokens};

use mc_item::{Key, KeyFault, NoMemory, number_of};
use memchr::memchr;
use std::alloc::{AllocError, Global};

/// Returns the index of the first LF, or the length if there is no LF.
pub fn line_end(bytes: &[u8]) -> usize
    ensures within { result ≤ length bytes.now }
    ensures before { Lacks 10 (take result bytes.now) }
    ensures found { result < length bytes.now → get_or bytes.now result 0 ≡ 10 }
{
    match memchr(b'\n', bytes) {
        Some(i) => i,
        None => bytes.len(),
    }
}

// The index of the first space, or the length if there is no space. Not inlined: in its callers the loop would count up a dozen
// numbers in each round.
#[inline(never)]
fn token_end(bytes: &[u8]) -> usize
    ensures within { result ≤ length bytes.now }
    ensures before { Lacks 32 (take result bytes.now) }
    ensures found { result < length bytes.now → get_or bytes.now result 0 ≡ 32 }
{
    for (i, b) in bytes.iter().enumerate() {
        if *b == b' ' {
            return i;
        }
    }
    bytes.len()
}

// The index of the first byte other than a space, or the length if all are spaces.
fn spaces_end(bytes: &[u8]) -> usize
    ensures within { result ≤ length bytes.now }
    ensures before { tokens (drop result bytes.now) ≡ tokens bytes.now }
    ensures found { result < length bytes.now → get_or bytes.now result 0 ≡ 32 → ⊥ }
{
    for (i, b) in bytes.iter().enumerate() {
        if *b != b' ' {
            return i;
        }
    }
    bytes.len()
}

/// Returns the line without one CR at its end.
pub fn without_cr(line: &[u8]) -> &[u8]
    ensures { result.now ≡ lines.no_cr line.now }
{
    let count = line.len();
    if count > 0 && line[count - 1] == b'\r' {
        &line[..count - 1]
    } else {
        line
    }
}

/// Returns the first token and what follows it, or `None` if the line has no token.
#[inline(always)]
pub fn next_token(line: &[u8]) -> Option<(&[u8], &[u8])>
    ensures { MatchOption result (tokens line.now ≡ []) (λ x. (tokens line.now ≡ x.0.now ∷ tokens x.1.now) × (length x.1.now < length line.now)) }
{
    let begin = spaces_end(line);
    let (_spaces, rest) = line.split_at(begin);
    let end = token_end(rest);
    if end == 0 {
        None
    } else {
        Some(rest.split_at(end))
    }
}

/// Writes the first tokens of a line, at most eight, into `few`. Returns how many they are and what follows. It takes no memory.
pub fn first_tokens<'a>(line: &'a [u8], few: &mut [&'a [u8]; 8]) -> (usize, &'a [u8])
    ensures within { result.0 ≤ 8 }
    ensures tokens { map (λ t. t.now) (take result.0 few.new) ++ tokens result.1.now ≡ tokens line.now }
    ensures whole { result.0 < 8 → tokens result.1.now ≡ [] }
    ensures places { length few.new ≡ 8 }
{
    let mut rest = line;
    for i in 0..8 {
        let Some((token, more)) = next_token(rest) else {
            return (i, rest);
        };
        few[i] = token;
        rest = more;
    }
    (8, rest)
}

/// Returns the tokens in `first`, then those of `line`.
pub fn more_tokens<'a>(
    alloc: Global,
    first: &[&'a [u8]],
    line: &'a [u8],
) -> Result<Vec<&'a [u8]>, AllocError>
    ensures { IfOk result (λ v. map (λ t. t.now) v.items ≡ map (λ t. t.now) first.now ++ tokens line.now) }
{
    let mut found = Vec::with_capacity(alloc, 32)?;
    found.extend_from_slice(first)?;
    let mut rest = line;
    while let Some((token, more)) = next_token(rest) {
        found.push(token)?;
        rest = more;
    }
    Ok(found)
}

/// Returns the key that a token is, or `None` if it can't be one.
#[inline(always)]
pub fn key_of_token(alloc: Global, token: &[u8]) -> Result<Option<Key>, NoMemory>
    ensures { IfOk result (λ key. key ≡ lines.key_of_token token.now) }
{
    match Key::of(alloc, token) {
        Ok(key) => Ok(Some(key)),
        Err(KeyFault::NoMemory) => Err(NoMemory),
        Err(KeyFault::Empty) => Ok(None),
        Err(KeyFault::TooLong) => Ok(None),
        Err(KeyFault::BadByte) => Ok(None),
    }
}

// The number of a token, if it has 1 to 18 digits.
fn number(token: &[u8]) -> Option<u64>
    ensures value { result ≡ lines.number 18 token.now }
    ensures bound { IfSome result (λ n. n < 10 ^ 18) }
{
    if token.len() > 18 {
        return None;
    }
    number_of(token)
}

/// Returns the number of a token of 1 to 20 digits, if it is at most `limit`.
pub fn number_up_to(limit: u64, token: &[u8]) -> Option<u64>
    ensures value { result ≡ lines.number_up_to limit token.now }
    ensures bound { IfSome result (λ n. n ≤ limit) }
{
    if token.len() > 20 {
        return None;
    }
    let number = number_of(token)?;
    if number <= limit { Some(number) } else { None }
}

// The number of the digits at the front of the bytes, at most 18 of them, and how many digits they are.
#[inline(always)]
fn digits_front(bytes: &[u8]) -> (u64, usize)
    ensures within { result.1 ≤ length bytes.now }
    ensures few { result.1 ≤ 18 }
    ensures digits { list_all is_digit (take result.1 bytes.now) ≡ true }
    ensures value { result.0 ≡ Rattle.mc_item.specs.Measure.number_of (take result.1 bytes.now) }
    ensures bound { result.0 < 10 ^ result.1 }
{
    let mut number: u64 = 0;
    for (i, b) in bytes.iter().enumerate() {
        if i == 18 || !b.is_ascii_digit() {
            return (number, i);
        }
        number = 10 * number + u64::from(*b - b'0');
    }
    (number, bytes.len())
}

// Whether a space or nothing follows the first `count` bytes.
#[inline(always)]
fn ends_token(bytes: &[u8], count: usize) -> bool
    ensures { result ≡ true → count < length bytes.now → get_or bytes.now count 0 ≡ 32 }
{
    if count < bytes.len() {
        bytes[count] == b' '
    } else {
        true
    }
}

/// Returns the number of the first token, if that has 1 to 18 digits, and what follows. `None` says nothing about the line.
#[inline(always)]
pub fn next_number(line: &[u8]) -> Option<(u64, &[u8])>
    ensures { IfSome result (λ x. (t : List ℕ) × (tokens line.now ≡ t ∷ tokens x.1.now) × (lines.number 20 t ≡ Some x.0) × (lines.exptime t ≡ Some (pos x.0))
        × (x.0 < 10 ^ 18)) }
{
    let begin = spaces_end(line);
    let (_spaces, rest) = line.split_at(begin);
    let (number, end) = digits_front(rest);
    if end == 0 {
        return None;
    }
    if !ends_token(rest, end) {
        return None;
    }
    Some((number, rest.split_at(end).1))
}

/// Returns the exptime of a token in seconds, if the token is an optional '-' and 1 to 18 digits.
pub fn exptime(token: &[u8]) -> Option<i64>
    ensures { result ≡ lines.exptime token.now }
{
    if token.is_empty() {
        return None;
    }
    if token[0] == b'-' {
        match number(&token[1..]) {
            Some(n) => Some(-(n as i64)),
            None => None,
        }
    } else {
        match number(token) {
            Some(n) => Some(n as i64),
            None => None,
        }
    }
}
