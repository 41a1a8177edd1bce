//! Items, and the small types around them.
ghost use Rattle.std.specs.Prelude.{◌≡◌, ◌≤◌, ◌^◌};
ghost use Rattle.mc_item.specs.Item as items;

use crate::value::Value;

/// The number of a stripe, from 0.
#[derive(Clone, Copy, Debug, PartialEq, Eq)]
pub struct StripeNo(pub u32);

/// The number of a slab class, from 1.
#[derive(Clone, Copy, Debug, PartialEq, Eq)]
pub struct ClassNo(pub u32);

/// The call that made an event: its caller, and its number among the caller's calls (its turn).
#[derive(Clone, Copy, Debug, PartialEq, Eq)]
pub struct Who {
    pub caller: u32,
    pub turn: u64,
}

/// Where an item's chunk is: the entry of this number in this slab class.
#[derive(Clone, Copy, Debug, PartialEq, Eq)]
pub struct Link {
    pub class: ClassNo,
    pub number: u64,
}

/// When an item dies: never, or at a moment. A moment is a time in seconds.
#[derive(Clone, Copy, Debug, PartialEq, Eq)]
pub enum Expiry {
    Never,
    At(u64),
}

/// The marks that hits set on an item: FETCHED by the first, ACTIVE by the next (new_lru.txt).
#[derive(Clone, Copy, Debug, PartialEq, Eq)]
pub struct Marks {
    pub fetched: bool,
    pub active: bool,
}

/// An item: what the cache holds under a key.
#[derive(Debug, Drop)]
pub struct Item {
    pub flags: u32,
    pub value: Value,
    pub expiry: Expiry,
    pub cas: u64,
    pub link: Link,
    pub marks: Marks,
}

/// Returns the expiry of an exptime at the moment `now`, at most 2^62 (protocol.txt, "Expiration times"). 0 never expires. A
/// negative exptime expires at once. One of up to 30 days counts in seconds from `now`. A larger one is itself a moment.
pub fn expiry_of(exptime: i64, now: u64) -> Expiry
    requires { now ≤ 2 ^ 62 }
    ensures { result ≡ items.expiry_of exptime now }
{
    if exptime < 0 {
        return Expiry::At(0);
    }
    let seconds = exptime as u64;
    if seconds == 0 {
        Expiry::Never
    } else if seconds <= 2_592_000 {
        Expiry::At(now + seconds)
    } else {
        Expiry::At(seconds)
    }
}

impl Marks {
    /// Returns the marks after one more hit.
    pub fn hit(self) -> Marks
        ensures { result ≡ items.hit_marks self }
    {
        if self.fetched {
            Marks {
                fetched: true,
                active: true,
            }
        } else {
            Marks {
                fetched: true,
                active: self.active,
            }
        }
    }
}

impl Item {
    /// Returns whether the item is dead at a moment: it is from the second of its expiry on.
    pub fn dead(&self, moment: u64) -> bool
        ensures { result ≡ items.is_dead self.now moment }
    {
        match self.expiry {
            Expiry::Never => false,
            Expiry::At(end) => end <= moment,
        }
    }
}
