//! The ends of the four lists, with their lengths and bytes.
ghost use Rattle.std.specs.Prelude.{◌≡◌, ◌+◌, ◌<◌, ◌≤◌, ◌^◌};
ghost use Rattle.mc_segment.specs.{Neighbours.end_of, Arena.ends_of, Arena.with_ends, Arena.pushed_ends, Arena.taken_ends};

use mc_item::Seg;

/// The numbers of a list's newest and oldest entry, how many entries it has, and the sum of their costs.
#[derive(Clone, Copy)]
pub struct Ends {
    pub newest: Option<u64>,
    pub oldest: Option<u64>,
    pub count: u64,
    pub bytes: u64,
}

impl Ends {
    // The ends after an entry with this number and cost was put at the head.
    pub(crate) fn pushed(self, number: u64, cost: u64) -> Ends
        requires { (self.count + 1 < 2 ^ 64) × (self.bytes + cost < 2 ^ 64) }
        ensures { result ≡ pushed_ends self number cost }
    {
        Ends {
            newest: Some(number),
            oldest: end_after(self.newest, Some(number), self.oldest),
            count: self.count + 1,
            bytes: self.bytes + cost,
        }
    }

    // The ends after an entry with this cost was taken out from between these neighbours.
    pub(crate) fn taken(self, newer: Option<u64>, older: Option<u64>, cost: u64) -> Ends
        requires { (0 < self.count) × (cost ≤ self.bytes) }
        ensures { result ≡ taken_ends self newer older cost }
    {
        Ends {
            newest: end_after(newer, older, self.newest),
            oldest: end_after(older, newer, self.oldest),
            count: self.count - 1,
            bytes: self.bytes - cost,
        }
    }
}

/// The ends of the four lists, by segment.
#[derive(Clone, Copy)]
pub struct Heads {
    pub hot: Ends,
    pub warm: Ends,
    pub cold: Ends,
    pub temp: Ends,
}

impl Heads {
    pub(crate) fn of(&self, seg: Seg) -> Ends
        ensures { result ≡ ends_of self.now seg }
    {
        match seg {
            Seg::Hot => self.hot,
            Seg::Warm => self.warm,
            Seg::Cold => self.cold,
            Seg::Temp => self.temp,
        }
    }

    pub(crate) fn set(&mut self, seg: Seg, ends: Ends)
        ensures { self.new ≡ with_ends self.old seg ends }
    {
        match seg {
            Seg::Hot => self.hot = ends,
            Seg::Warm => self.warm = ends,
            Seg::Cold => self.cold = ends,
            Seg::Temp => self.temp = ends,
        }
    }
}

// An end of a list after a node came or left: it stays if the node has a neighbour on that side, else it becomes `end`.
fn end_after(beside: Option<u64>, end: Option<u64>, kept: Option<u64>) -> Option<u64>
    ensures { result ≡ end_of beside end kept }
{
    match beside {
        Some(_) => kept,
        None => end,
    }
}
