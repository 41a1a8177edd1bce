//! Says whether bytes have a `%` directly followed by an `n`, as `%next` does. Without one, an input is a single script. `after`
//! tells that a `%` comes directly before the bytes.
ghost use Rattle.std.specs.Prelude.{◌≡◌, true, false, slice_index};
ghost use Rattle.std.specs.List.{flat_map};
ghost use Rattle.mc_proto.specs.Lines.{LacksNextBehind, is_after};

use memchr::memchr;
use std::collections::VecDeque;

// Whether the bytes begin with an `n` directly after a `%`.
fn is_next(after: bool, bytes: &[u8]) -> bool
    ensures yes { result ≡ true → (after ≡ true) × (slice_index bytes.now 0 ≡ 110) }
    ensures no { result ≡ false → after ≡ true → slice_index bytes.now 0 ≡ 110 → ⊥ }
{
    if !after || bytes.is_empty() {
        return false;
    }
    bytes[0] == b'n'
}

// Whether no `%` is directly followed by an `n`. A `%` before the bytes counts too.
pub(crate) fn lacks_next(after: bool, bytes: &[u8]) -> bool
    ensures lacks { result ≡ true → LacksNextBehind after bytes.now }
    ensures has { LacksNextBehind after bytes.now → result ≡ true }
{
    let mut behind = after;
    let mut rest = bytes;
    loop {
        if is_next(behind, rest) {
            return false;
        }
        let Some(at) = memchr(b'%', rest) else {
            return true;
        };
        let from = rest.split_at(at).1;
        rest = from.split_at(1).1;
        behind = true;
    }
}

// Whether a `%` is the last byte, or comes before the bytes if they are empty.
pub(crate) fn ends_with_percent(after: bool, bytes: &[u8]) -> bool
    ensures { result ≡ is_after after bytes.now }
{
    if bytes.is_empty() {
        return after;
    }
    bytes[bytes.len() - 1] == b'%'
}

// Whether no `%` is directly followed by an `n`, within a piece or across two. A `%` before the pieces counts too.
pub(crate) fn pieces_lack_next(after: bool, pieces: &VecDeque<Vec<u8>>) -> bool
    ensures lacks { result ≡ true → LacksNextBehind after (flat_map (λ p. p.items) pieces.now.items) }
    ensures has { LacksNextBehind after (flat_map (λ p. p.items) pieces.now.items) → result ≡ true }
{
    let mut behind = after;
    for piece in pieces.iter() {
        if !lacks_next(behind, piece.as_slice()) {
            return false;
        }
        behind = ends_with_percent(behind, piece.as_slice());
    }
    true
}
