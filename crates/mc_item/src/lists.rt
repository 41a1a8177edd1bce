//! The segments of a slab class, and the entries of their lists.
ghost use Rattle.std.specs.Prelude.{◌≡◌, ◌≤◌, length};

use crate::key::Key;
use std::marker::Model;

/// A segment of a slab class (new_lru.txt). Each has its own list.
#[derive(Clone, Copy, Debug, PartialEq, Eq)]
pub enum Seg {
    Hot,
    Warm,
    Cold,
    Temp,
}

/// An item's entry in a list: the number of its link, its key, its cost in bytes, and the second from which its age counts.
#[derive(Debug, Drop)]
pub struct Entry {
    pub number: u64,
    pub key: Key,
    pub cost: u64,
    pub time: u64,
}

/// The numbers of at most four entries that a walk passed over, from the tail on. Takes no memory. Contracts see a list.
#[derive(Debug, Drop)]
pub struct Passed {
    numbers: [u64; 4],
    count: usize,
}

impl Model for Passed {
    ghost use Rattle.std.specs.Prelude.{List, ℕ, ◌≤◌, take};

    ghost Value = { List ℕ };

    ghost view = { λ p. take p.count p.numbers };

    ghost invariant = { λ p. p.count ≤ 4 };
}

impl Passed {
    /// Makes the list of these numbers, at most four.
    pub fn of(numbers: &[u64]) -> Passed
        requires { length numbers.now ≤ 4 }
        ensures { result ≡ numbers.now }
    {
        let mut table = [0; 4];
        table[..numbers.len()].copy_from_slice(numbers);
        Passed {
            numbers: table,
            count: numbers.len(),
        }
    }

    /// Returns the numbers, at most four.
    pub fn as_slice(&self) -> &[u64]
        ensures value { result.now ≡ self.now }
        ensures few { length self.now ≤ 4 }
    {
        &self.numbers[..self.count]
    }
}
