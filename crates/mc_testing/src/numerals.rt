//! Numbers of a plain memcached, which values spell (protocol.txt, "Increment/Decrement").
use mc_item::NoMemory;
use std::alloc::Global;

// The most digits of a number, leading zeros included: a rule of this project (docs/GUIDE.md, "Numbers").
const MOST_DIGITS: usize = 20;

// The number that these bytes are, if they are 1 to 20 digits and it is below 2^64.
fn number_of(digits: &[u8]) -> Option<u64> {
    if digits.is_empty() || digits.len() > MOST_DIGITS {
        return None;
    }
    let mut number = 0u64;
    for digit in digits {
        if !digit.is_ascii_digit() {
            return None;
        }
        number = number.checked_mul(10)?.checked_add(u64::from(*digit & 15))?;
    }
    Some(number)
}

/// Returns the number that a value is, if it is one: its digits, then spaces.
pub(crate) fn number_in(value: &[u8]) -> Option<u64> {
    let mut many = value.len();
    for place in 0..value.len() {
        if value[place] == b' ' && many == value.len() {
            many = place;
        }
        if value[place] != b' ' && many != value.len() {
            return None;
        }
    }
    number_of(value.get(..many)?)
}

/// Returns the digits of a number, then spaces up to this length.
pub(crate) fn numeral(alloc: Global, number: u64, len: usize) -> Result<Vec<u8>, NoMemory> {
    let mut text = number.to_string(alloc)?.into_bytes();
    for _ in text.len()..len {
        text.push(b' ')?;
    }
    Ok(text)
}

/// Returns the number after an incr, which wraps at 2^64, or a decr, which stops at 0.
pub(crate) fn counted(old: u64, up: bool, delta: u64) -> u64 {
    if up {
        old.wrapping_add(delta)
    } else {
        old.saturating_sub(delta)
    }
}
