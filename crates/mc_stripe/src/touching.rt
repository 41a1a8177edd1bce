//! The `touch` command.
ghost use Rattle.std.specs.Prelude.{◌≡◌, IfOk, IfErr, nat_eq, true};
ghost use Rattle.std.specs.{Cmp.Lexicographic.pointwise, HashMap.get, HashMap.spare};
ghost use Rattle.mc_item.specs.Answer.{touch_row};
ghost use Rattle.mc_stripe.specs.Trying.{IsLeft, MakesRow};
ghost use Rattle.mc_stripe.specs.declared.wanting.Given.{Given};

use crate::fate::fate_by_marks;
use crate::trying::{Made, made_with, untouched};
use crate::wanting::Want;
use mc_item::{Expiry, Item, Key, Reply, Room};
use std::collections::HashMap;
use std::hash::RandomState;

/// Makes a touch, with one look-up. A hit wants no class: if it wakes its item, the fate has the link.
#[inline(always)]
pub(crate) fn touch_item(
    items: &mut HashMap<Key, Item, RandomState>,
    key: &Key,
    expiry: Expiry,
    moment: u64,
) -> Result<Made, Want>
    ensures made { (given : Given) → IfOk result (MakesRow true given (get (pointwise nat_eq) items.old) (get (pointwise nat_eq) items.new)
        key.now (touch_row expiry (get (pointwise nat_eq) items.old key.now)) moment) }
    ensures wants { (given : Given) → IfErr result (IsLeft given (get (pointwise nat_eq) items.old) (get (pointwise nat_eq) items.new)
        key.now moment (touch_row expiry (get (pointwise nat_eq) items.old key.now))) }
    ensures spare { spare items.new ≡ spare items.old }
{
    let Some(item) = items.get_mut(key) else {
        return Ok(untouched(Reply::NotFound, Reply::NotFound, 0));
    };
    if item.dead(moment) {
        return Err(Want::Burial(item.link));
    }
    let marks = item.marks.hit();
    let fate = fate_by_marks(item, marks);
    item.expiry = expiry;
    item.marks = marks;
    Ok(made_with(Reply::Touched, Reply::Touched, Room::Keep, fate, 0))
}
