//! Storage commands with an item that is too large for any class.
ghost use Rattle.std.specs.Prelude.{◌≤◌, IfOk, IfErr, nat_eq, true};
ghost use Rattle.std.specs.{Cmp.Lexicographic.pointwise, HashMap.get, HashMap.spare};
ghost use Rattle.mc_item.specs.Answer.{huge_row};
ghost use Rattle.mc_stripe.specs.Trying.{IsLeft, MakesRow};

use crate::changing::remove;
use crate::fate::Fate;
use crate::trying::{Made, made_with, untouched};
use crate::wanting::{Given, Want};
use mc_item::{Item, Key, Reply, Room, Verb};
use std::collections::HashMap;
use std::hash::RandomState;

/// Refuses a storage command as too large. A set also removes its key's item, for which it wants the item's class.
#[inline(always)]
pub(crate) fn refuse_huge(
    items: &mut HashMap<Key, Item, RandomState>,
    key: &Key,
    verb: Verb,
    moment: u64,
    given: &Given,
) -> Result<Made, Want>
    ensures made { IfOk result (MakesRow true given.now (get (pointwise nat_eq) items.old) (get (pointwise nat_eq) items.new) key.now (huge_row verb) moment) }
    ensures wants { IfErr result (IsLeft given.now (get (pointwise nat_eq) items.old) (get (pointwise nat_eq) items.new) key.now moment (huge_row verb)) }
    ensures spare { spare items.old ≤ spare items.new }
{
    let Some(item) = items.get(key) else {
        return Ok(untouched(Reply::TooLarge, Reply::TooLarge, 0));
    };
    let link = item.link;
    if item.dead(moment) {
        return Err(Want::Burial(link));
    }
    match verb {
        Verb::Set => {}
        Verb::Add | Verb::Replace | Verb::Cas(_) | Verb::Append | Verb::Prepend => {
            return Ok(untouched(Reply::TooLarge, Reply::TooLarge, 0));
        }
    }
    given.item(link)?;
    let fate = Fate::Goes(link);
    if let Some(class) = given.crowded(Room::Keep, fate) {
        return Err(Want::Place(class));
    }
    remove(items, key);
    Ok(made_with(Reply::TooLarge, Reply::TooLarge, Room::Keep, fate, 0))
}
