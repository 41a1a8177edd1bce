//! The `get` and `gat` commands.
ghost use Rattle.std.specs.Prelude.{◌≡◌, Some, IfOk, IfErr, OnErr, nat_eq, true};
ghost use Rattle.std.specs.{Cmp.Lexicographic.pointwise, HashMap.get, HashMap.spare};
ghost use Rattle.mc_item.specs.{Answer.gat_row, Answer.get_row, Cache.marked, Item.hit_marks};
ghost use Rattle.mc_item.specs.declared.reply.Room.TheVariants as rooms;
ghost use Rattle.mc_stripe.specs.{Plan.hit_fate, Trying.IsLeft, Trying.MakesRow, Trying.ItemsStay};
ghost use Rattle.mc_stripe.specs.declared.wanting.Given.{Given};

use crate::fate::fate_by_marks;
use crate::trying::{Done, Made, untouched};
use crate::wanting::Want;
use mc_item::{Expiry, Item, Key, NoMemory, Reply, Room};
use std::collections::HashMap;
use std::hash::RandomState;

// A copy of a reply for its event, if events are kept.
#[inline(always)]
fn noted_if(reply: &Reply, keeps: bool) -> Result<Option<Reply>, NoMemory>
    ensures { IfOk result (λ noted. keeps ≡ true → noted ≡ Some reply.now) }
{
    if keeps {
        Ok(Some(reply.copy()?))
    } else {
        Ok(None)
    }
}

// Hits an item and replies with its value. The copies are made first, since they may fail.
#[inline(always)]
fn hit_item(item: &mut Item, keeps: bool) -> Result<Made, NoMemory>
    ensures reply { IfOk result (λ m. m.done.reply ≡ ((get_row (Some item.old)).answer rooms.Keep).reply) }
    ensures done { IfOk result (λ m. (m.done.fate ≡ hit_fate (hit_marks item.old.marks).active (Some item.old)) × (m.done.room ≡ rooms.Keep) × (m.added ≡ 0)) }
    ensures noted { IfOk result (λ m. keeps ≡ true → m.noted ≡ Some m.done.reply) }
    ensures item { IfOk result (λ m. item.new ≡ marked (hit_marks item.old.marks) item.old) }
    ensures err { OnErr result (item.new ≡ item.old) }
{
    let reply = Reply::Value {
        flags: item.flags,
        value: item.value.copy()?,
        cas: item.cas,
    };
    let noted = noted_if(&reply, keeps)?;
    let marks = item.marks.hit();
    let fate = fate_by_marks(item, marks);
    item.marks = marks;
    let done = Done {
        reply,
        room: Room::Keep,
        fate,
    };
    Ok(Made {
        done,
        noted,
        added: 0,
    })
}

/// Makes a get, with one look-up. A hit wants no class: if it wakes its item, the fate has the link.
#[inline(always)]
pub(crate) fn get_item(
    items: &mut HashMap<Key, Item, RandomState>,
    key: &Key,
    moment: u64,
    keeps: bool,
) -> Result<Result<Made, Want>, NoMemory>
    ensures made { (given : Given) → IfOk result (λ t. IfOk t (MakesRow keeps given (get (pointwise nat_eq) items.old) (get (pointwise nat_eq) items.new)
        key.now (get_row (get (pointwise nat_eq) items.old key.now)) moment)) }
    ensures wants { (given : Given) → IfOk result (λ t. IfErr t (IsLeft given (get (pointwise nat_eq) items.old) (get (pointwise nat_eq) items.new)
        key.now moment (get_row (get (pointwise nat_eq) items.old key.now)))) }
    ensures err { OnErr result (ItemsStay (get (pointwise nat_eq) items.old) (get (pointwise nat_eq) items.new)) }
    ensures spare { spare items.new ≡ spare items.old }
{
    let Some(item) = items.get_mut(key) else {
        return Ok(Ok(untouched(Reply::Miss, Reply::Miss, 0)));
    };
    if item.dead(moment) {
        return Ok(Err(Want::Burial(item.link)));
    }
    Ok(Ok(hit_item(item, keeps)?))
}

/// Makes a gat, with one look-up: a get that also gives the item this expiry.
#[inline(always)]
pub(crate) fn gat_item(
    items: &mut HashMap<Key, Item, RandomState>,
    key: &Key,
    expiry: Expiry,
    moment: u64,
    keeps: bool,
) -> Result<Result<Made, Want>, NoMemory>
    ensures made { (given : Given) → IfOk result (λ t. IfOk t (MakesRow keeps given (get (pointwise nat_eq) items.old) (get (pointwise nat_eq) items.new)
        key.now (gat_row expiry (get (pointwise nat_eq) items.old key.now)) moment)) }
    ensures wants { (given : Given) → IfOk result (λ t. IfErr t (IsLeft given (get (pointwise nat_eq) items.old) (get (pointwise nat_eq) items.new)
        key.now moment (gat_row expiry (get (pointwise nat_eq) items.old key.now)))) }
    ensures err { OnErr result (ItemsStay (get (pointwise nat_eq) items.old) (get (pointwise nat_eq) items.new)) }
    ensures spare { spare items.new ≡ spare items.old }
{
    match items.get_mut(key) {
        None => Ok(Ok(untouched(Reply::Miss, Reply::Miss, 0))),
        Some(item) if item.dead(moment) => Ok(Err(Want::Burial(item.link))),
        Some(item) => {
            let made = hit_item(item, keeps)?;
            item.expiry = expiry;
            Ok(Ok(made))
        }
    }
}
