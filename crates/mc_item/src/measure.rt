//! The size, slab class and stripe of an item, and which values are numbers. Rules marked (own) are this project's.
ghost use Rattle.std.specs.Prelude.{◌≡◌, ◌+◌, ◌-◌, ◌<◌, ◌≤◌, ◌^◌, ℕ, None, IfSome, IfNone, All, MatchOption, get_or, length};
ghost use Rattle.std.specs.List.{prefix_len, position, list_all};
ghost use Rattle.std.specs.Prelude.{nat_le, ◌==◌};
ghost use Rattle.mc_item.specs.Measure as measure;
ghost use Rattle.mc_item.specs.Measure.{IsLeastClass, IsTooLarge};

use crate::answer::Site;
use crate::config::Config;
use crate::item::{ClassNo, StripeNo};
use crate::key::Key;

/// Returns how many bytes of a chunk an item takes: 64, and those of its key and value (own). They must be below 2^64.
pub fn cost(key_len: u64, value_len: u64) -> u64
    requires { 64 + key_len + value_len < 2 ^ 64 }
    ensures { result ≡ 64 + key_len + value_len }
{
    64 + key_len + value_len
}

// The place of the first size that is at least the cost.
fn place_of(sizes: &[u64], cost: u64) -> Option<usize>
    ensures value { result ≡ position (λ size. nat_le cost size) sizes.now }
    ensures bound { IfSome result (λ place. place < length sizes.now) }
    ensures holds { IfSome result (λ place. cost ≤ get_or sizes.now place 0) }
    ensures first { IfSome result (λ place. (k : ℕ) → k < place → get_or sizes.now k 0 < cost) }
    ensures none { IfNone result ((k : ℕ) → k < length sizes.now → get_or sizes.now k 0 < cost) }
{
    sizes.iter().position(|size| cost <= *size)
}

fn are_spaces(bytes: &[u8]) -> bool
    ensures { result ≡ list_all (λ byte. byte == 32) bytes.now }
{
    bytes.iter().all(|byte| *byte == b' ')
}

/// Returns the least class, counted from 1, whose size is at least the cost, or `None` if all sizes (at most 63) are smaller.
pub fn least_class(sizes: &[u64], cost: u64) -> Option<ClassNo>
    requires { length sizes.now ≤ 63 }
    ensures value { result ≡ measure.class_of sizes.now cost }
    ensures least { MatchOption result (IsTooLarge sizes.now cost) (IsLeastClass sizes.now cost) }
{
    match place_of(sizes, cost) {
        Some(place) => Some(ClassNo(place as u32 + 1)),
        None => None,
    }
}

/// Returns the least class of a configuration whose size is at least the cost, or `None` if all sizes (at most 63) are smaller.
pub fn class_of(config: &Config, cost: u64) -> Option<ClassNo>
    requires { length config.now.sizes ≤ 63 }
    ensures value { result ≡ measure.class_of config.now.sizes cost }
    ensures least { MatchOption result (IsTooLarge config.now.sizes cost) (IsLeastClass config.now.sizes cost) }
{
    least_class(config.sizes.as_slice(), cost)
}

impl Site {
    /// Returns the least class whose size is at least the cost, or `None` if each size is smaller. If all sizes are at most 2^20,
    /// so is each cost that has a class.
    #[inline(always)]
    pub fn class_of(&self, cost: u64) -> Option<ClassNo>
        ensures value { result ≡ measure.class_of self.now.sizes cost }
        ensures least { MatchOption result (IsTooLarge self.now.sizes cost) (IsLeastClass self.now.sizes cost) }
        ensures small { All (λ size. size ≤ 2 ^ 20) self.now.sizes → IfSome result (λ class. cost ≤ 2 ^ 20) }
    {
        least_class(self.sizes.as_slice(), cost)
    }
}

const FNV_START: u32 = 2_166_136_261;

const FNV_PRIME: u32 = 16_777_619;

// The 32-bit hash FNV-1a.
fn fnv1a(bytes: &[u8]) -> u32
    ensures { result ≡ measure.fnv1a bytes.now }
{
    bytes.iter().fold(FNV_START, |hash, byte| {
        (hash ^ u32::from(*byte)).wrapping_mul(FNV_PRIME)
    })
}

/// Returns the stripe of a key: its 32-bit FNV-1a hash modulo the number of stripes, which isn't 0 (own).
pub fn stripe_of(key: &Key, stripes: u32) -> StripeNo
    requires { 0 < stripes }
    ensures { result ≡ measure.stripe_of key.now stripes }
{
    if stripes == 1 {
        return StripeNo(0);
    }
    StripeNo(fnv1a(key.bytes()) % stripes)
}

// How many digits the bytes begin with.
fn digits_end(bytes: &[u8]) -> usize
    ensures { result ≡ prefix_len measure.is_digit bytes.now }
{
    bytes
        .iter()
        .take_while(|byte| byte.is_ascii_digit())
        .count()
}

// The number that a text of at most 19 bytes spells. So few digits can't overflow.
#[inline(always)]
fn short_number_of(digits: &[u8]) -> Option<u64>
    requires few { length digits.now ≤ 19 }
    ensures value { result ≡ measure.number_in digits.now }
    ensures bound { IfSome result (λ n. n < 10 ^ length digits.now) }
{
    if digits.is_empty() {
        return None;
    }
    let mut number: u64 = 0;
    for digit in digits {
        if !digit.is_ascii_digit() {
            return None;
        }
        number = 10 * number + u64::from(*digit - b'0');
    }
    Some(number)
}

// The number that a longer text spells. It may have any number of leading zeros, so each step is checked.
#[cold]
#[inline(never)]
fn long_number_of(digits: &[u8]) -> Option<u64>
    requires many { 20 ≤ length digits.now }
    ensures value { result ≡ measure.number_in digits.now }
    ensures bound { IfSome result (λ n. n < 10 ^ length digits.now) }
{
    let mut number: u64 = 0;
    for digit in digits {
        if !digit.is_ascii_digit() {
            return None;
        }
        number = number
            .checked_mul(10)?
            .checked_add(u64::from(*digit - b'0'))?;
    }
    Some(number)
}

/// Returns the number below 2^64 that a text of one or more digits spells. Leading zeros are fine. Any other text gives `None`.
#[inline(always)]
pub fn number_of(digits: &[u8]) -> Option<u64>
    ensures value { result ≡ measure.number_in digits.now }
    ensures bound { IfSome result (λ n. n < 10 ^ length digits.now) }
{
    if digits.len() < 20 {
        short_number_of(digits)
    } else {
        long_number_of(digits)
    }
}

/// Returns the number that a value is: 1 to 20 digits of a number below 2^64, then only spaces (own). Other values give `None`.
pub fn numeral_of(value: &[u8]) -> Option<u64>
    ensures { result ≡ measure.numeral_of value.now }
{
    let (digits, rest) = value.split_at(digits_end(value));
    if digits.len() > 20 || !are_spaces(rest) {
        return None;
    }
    number_of(digits)
}
