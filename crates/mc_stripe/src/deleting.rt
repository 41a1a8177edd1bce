//! The `delete` command.
ghost use Rattle.std.specs.Prelude.{◌≤◌, IfOk, IfErr, nat_eq, true};
ghost use Rattle.std.specs.{Cmp.Lexicographic.pointwise, HashMap.get, HashMap.spare};
ghost use Rattle.mc_item.specs.Answer.{delete_row};
ghost use Rattle.mc_stripe.specs.Trying.{IsLeft, MakesRow};

use crate::changing::remove;
use crate::fate::Fate;
use crate::trying::{Made, made_with, untouched};
use crate::wanting::{Given, Want};
use mc_item::{Item, Key, Reply, Room};
use std::collections::HashMap;
use std::hash::RandomState;

/// Makes a delete. Removing the item wants the item's class, and a place in that class's history.
#[inline(always)]
pub(crate) fn delete_item(
    items: &mut HashMap<Key, Item, RandomState>,
    key: &Key,
    moment: u64,
    given: &Given,
) -> Result<Made, Want>
    ensures made { IfOk result (MakesRow true given.now (get (pointwise nat_eq) items.old) (get (pointwise nat_eq) items.new) key.now
        (delete_row (get (pointwise nat_eq) items.old key.now)) moment) }
    ensures wants { IfErr result (IsLeft given.now (get (pointwise nat_eq) items.old) (get (pointwise nat_eq) items.new) key.now moment
        (delete_row (get (pointwise nat_eq) items.old key.now))) }
    ensures spare { spare items.old ≤ spare items.new }
{
    let Some(item) = items.get(key) else {
        return Ok(untouched(Reply::NotFound, Reply::NotFound, 0));
    };
    let link = item.link;
    if item.dead(moment) {
        return Err(Want::Burial(link));
    }
    given.item(link)?;
    let fate = Fate::Goes(link);
    if let Some(class) = given.crowded(Room::Keep, fate) {
        return Err(Want::Place(class));
    }
    remove(items, key);
    Ok(made_with(Reply::Deleted, Reply::Deleted, Room::Keep, fate, 0))
}
