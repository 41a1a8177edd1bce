//! The types of the table of commands: what a command needs, its reply, and what happens to its key's item.
use crate::item::{ClassNo, Expiry, Item, Marks};
use crate::numbers::ClassSizes;
use crate::reply::Reply;
use crate::value::Value;

/// The fixed data of one stripe: its number, the number of stripes, and the sizes of the slab classes.
#[derive(Drop)]
pub struct Site {
    pub stripe: u32,
    pub stripes: u32,
    pub sizes: ClassSizes,
}

/// What a command needs besides its stripe.
#[derive(Clone, Copy, Debug, PartialEq, Eq)]
pub enum Need {
    /// Nothing: its item keeps its value, is removed, or is absent.
    Nothing,
    /// Nothing: the value of its item changes in place.
    Same,
    /// A chunk of this class for a new version of its item.
    Fresh(ClassNo),
    /// A chunk that is larger than any class has.
    TooLarge,
}

/// What happens to the item of a command's key.
#[derive(Debug, Drop)]
pub enum Change {
    /// It stays as it is, present or absent.
    Stays,
    /// It is removed, if it is present.
    Goes,
    /// It was hit, and now has these marks.
    Hit(Marks),
    /// It was touched, and now has this expiry and these marks.
    Touched(Expiry, Marks),
    /// `incr` or `decr` gave it this value and this cas number.
    Counted(Value, u64),
    /// It is replaced by this new version, or stored if it was absent.
    Renewed(Item),
}

/// A command's reply, and what happens to its key's item.
#[derive(Debug, Drop)]
pub struct Answer {
    pub reply: Reply,
    pub change: Change,
}
