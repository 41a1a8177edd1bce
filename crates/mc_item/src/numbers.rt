//! Lists of numbers: of any length in a configuration, and of at most 63 sizes in a stripe's `Site`.
ghost use Rattle.std.specs.Prelude.{◌≡◌, ◌≤◌, length};

use std::marker::Model;

/// Any number of numbers. Contracts see them as a list.
#[derive(Drop)]
pub struct Numbers {
    numbers: Vec<u64>,
}

impl Model for Numbers {
    ghost use Rattle.std.specs.Prelude.{List, ℕ};

    ghost Value = { List ℕ };

    ghost view = { λ n. n.numbers.items };
}

impl Numbers {
    /// Makes the list of these numbers. Takes no memory.
    pub fn from_vec(numbers: Vec<u64>) -> Numbers
        ensures { result ≡ numbers.items }
    {
        Numbers { numbers }
    }

    /// Returns the numbers.
    pub fn as_slice(&self) -> &[u64]
        ensures { result.now ≡ self.now }
    {
        self.numbers.as_slice()
    }
}

/// The most slab classes that a store may have.
pub const MAX_CLASSES: usize = 63;

/// The sizes of the slab classes, at most 63. They take no memory of their own. Contracts see them as a list.
#[derive(Drop)]
pub struct ClassSizes {
    sizes: [u64; 63],
    count: usize,
}

impl Model for ClassSizes {
    ghost use Rattle.std.specs.Prelude.{List, ℕ, ◌≤◌, take};

    ghost Value = { List ℕ };

    ghost view = { λ s. take s.count s.sizes };

    ghost invariant = { λ s. s.count ≤ 63 };
}

impl ClassSizes {
    /// Makes the list of these sizes, at most 63.
    pub fn of(sizes: &[u64]) -> ClassSizes
        requires { length sizes.now ≤ 63 }
        ensures { result ≡ sizes.now }
    {
        let mut table = [0; 63];
        table[..sizes.len()].copy_from_slice(sizes);
        ClassSizes {
            sizes: table,
            count: sizes.len(),
        }
    }

    /// Returns the sizes, at most 63.
    pub fn as_slice(&self) -> &[u64]
        ensures value { result.now ≡ self.now }
        ensures few { length self.now ≤ 63 }
    {
        &self.sizes[..self.count]
    }
}
