//! What becomes of a key's item and its chunk by a command.
ghost use Rattle.std.specs.Prelude.{◌≡◌, Some};
ghost use Rattle.mc_stripe.specs.Plan as plans;
ghost use Rattle.mc_stripe.specs.Plan.{fate_of, woken_of};

use mc_item::{Change, Expiry, Item, Key, Link, Marks, cost};

/// What becomes of a key's item and its chunk by a command. The caller notes it in the slab classes.
#[derive(Clone, Copy, Debug, PartialEq, Eq)]
pub enum Fate {
    /// Nothing that a class has to note.
    Untouched,
    /// A new version takes a chunk. It has this cost and expiry, and replaces the item with the link `old`, if there is one.
    Renewed {
        cost: u64,
        expiry: Expiry,
        old: Option<Link>,
    },
    /// The item with this link is removed.
    Goes(Link),
    /// A hit wakes the item with this link: it becomes ACTIVE, which it wasn't.
    Woken(Link),
}

impl Fate {
    /// Returns the link of the item that a hit woke, if one did.
    #[inline(always)]
    pub fn woken(self) -> Option<Link>
        ensures { result ≡ woken_of self }
    {
        match self {
            Fate::Woken(link) => Some(link),
            Fate::Untouched | Fate::Renewed { .. } | Fate::Goes(_) => None,
        }
    }
}

/// Returns what becomes of a key's item and its chunk by a change of the item.
pub(crate) fn fate_by_change(key: &Key, item: &Item, change: &Change) -> Fate
    ensures { result ≡ fate_of key.now (Some item.now) change.now }
{
    match change {
        Change::Stays => Fate::Untouched,
        Change::Counted(_, _) => Fate::Untouched,
        Change::Goes => Fate::Goes(item.link),
        Change::Hit(marks) => fate_by_marks(item, *marks),
        Change::Touched(_, marks) => fate_by_marks(item, *marks),
        Change::Renewed(new) => Fate::Renewed {
            cost: cost(key.bytes().len() as u64, new.value.bytes().len() as u64),
            expiry: new.expiry,
            old: Some(item.link),
        },
    }
}

/// Returns what becomes of an item by new marks.
#[inline(always)]
pub(crate) fn fate_by_marks(item: &Item, marks: Marks) -> Fate
    ensures { result ≡ plans.hit_fate marks.active (Some item.now) }
{
    if marks.active && !item.marks.active {
        Fate::Woken(item.link)
    } else {
        Fate::Untouched
    }
}
