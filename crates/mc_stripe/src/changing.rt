//! Changes the item under a key.
ghost use Rattle.std.specs.Prelude.{◌≡◌, ◌≤◌, ◌<◌, ℕ, List, nat_eq, if◌then◌else◌, Some, None};
ghost use Rattle.std.specs.{Cmp.Lexicographic.pointwise, HashMap.get, HashMap.spare};
ghost use Rattle.mc_item.specs.Cache.{changed};

use mc_item::{Change, Item, Key};
use std::collections::HashMap;
use std::hash::RandomState;

/// Returns how many new versions a change makes, 0 or 1.
pub(crate) fn versions_of(change: &Change) -> u64
    ensures value { result ≡ Rattle.mc_item.specs.Cache.versions_of change.now }
    ensures few { result ≤ 1 }
{
    match change {
        Change::Stays => 0,
        Change::Goes => 0,
        Change::Hit(_) => 0,
        Change::Touched(_, _) => 0,
        Change::Counted(_, _) => 1,
        Change::Renewed(_) => 1,
    }
}

/// Changes an item, and returns whether it stays. If not, it is to be removed.
#[inline(always)]
pub(crate) fn change_found(item: &mut Item, change: Change) -> bool
    ensures { changed (Some item.old) change ≡ (if result then Some item.new else None) }
{
    match change {
        Change::Stays => true,
        Change::Goes => false,
        Change::Hit(marks) => {
            item.marks = marks;
            true
        }
        Change::Touched(expiry, marks) => {
            item.expiry = expiry;
            item.marks = marks;
            true
        }
        Change::Counted(value, cas) => {
            item.value = value;
            item.cas = cas;
            true
        }
        Change::Renewed(renewed) => {
            *item = renewed;
            true
        }
    }
}

/// Removes the item under a key, if there is one.
pub(crate) fn remove(items: &mut HashMap<Key, Item, RandomState>, key: &Key)
    ensures items { (q : List ℕ) → get (pointwise nat_eq) items.new q ≡ (if pointwise nat_eq key.now q then None else get (pointwise nat_eq) items.old q) }
    ensures spare { spare items.old ≤ spare items.new }
{
    let _ = items.remove(key);
}
