//! The `append` and `prepend` commands.
ghost use Rattle.std.specs.Prelude.{◌≡◌, ◌<◌, ◌+◌, ◌^◌, ◌++◌, IfOk, IfErr, IfSome, IfNone, OnErr, None, Some, nat_eq, true};
ghost use Rattle.std.specs.{Cmp.Lexicographic.pointwise, HashMap.get, HashMap.spare};
ghost use Rattle.mc_item.specs.{Answer.cas_of, Measure.cost_of};
ghost use Rattle.mc_item.specs.Measure as measure;
ghost use Rattle.mc_stripe.specs.{Joining.joining_row, Trying.IsLeft, Trying.MakesRow, Trying.ItemsStay};
ghost use Rattle.mc_stripe.specs.Joining as words;

use crate::putting::{Found, Measured, decide};
use crate::trying::{Made, Trial, untouched};
use crate::wanting::Want;
use mc_item::{Content, Item, Key, NoMemory, Reply, Room, Site, Value, Verb, cost, least_class};
use std::alloc::Global;
use std::collections::HashMap;
use std::hash::RandomState;

// On which side of the old value the data goes: an append's goes behind it, a prepend's before it.
#[derive(Clone, Copy)]
pub(crate) enum Side {
    Behind,
    Before,
}

impl Side {
    // The side of a storage command that joins its data to the old value. None if it replaces that.
    #[inline(always)]
    pub(crate) fn of(verb: Verb) -> Option<Side>
        ensures { result ≡ words.side_of verb }
    {
        match verb {
            Verb::Set | Verb::Add | Verb::Replace | Verb::Cas(_) => None,
            Verb::Append => Some(Side::Behind),
            Verb::Prepend => Some(Side::Before),
        }
    }
}

// The data of an append or prepend.
#[derive(Drop)]
pub(crate) struct Joint<'a> {
    pub(crate) side: Side,
    pub(crate) block: &'a Value,
}

impl Joint<'_> {
    // The value that joins the data to this one.
    #[inline(always)]
    fn joined(&self, alloc: Global, value: &Value) -> Result<Value, NoMemory>
        ensures { IfOk result (λ v. v ≡ words.joined self.now.side self.now.block.now value.now) }
    {
        match self.side {
            Side::Behind => Value::joined(alloc, value, self.block),
            Side::Before => Value::joined(alloc, self.block, value),
        }
    }
}

// The cost of an item with this key and the bytes of both values, and its class. None if each class is too small for it, as for a
// cost of 2^64 or more.
#[inline(always)]
fn cost_of_both(site: &Site, key: &Key, value: &Value, block: &Value) -> Option<Measured>
    ensures cost { IfSome result (λ measured. measured.cost ≡ cost_of key.now (value.now ++ block.now)) }
    ensures class { IfSome result (λ measured. measure.class_of site.now.sizes (cost_of key.now (value.now ++ block.now)) ≡ Some measured.class) }
    ensures none { IfNone result (measure.class_of site.now.sizes (cost_of key.now (value.now ++ block.now)) ≡ None) }
{
    let sizes = site.sizes.as_slice();
    let alone = cost(key.bytes().len() as u64, value.bytes().len() as u64);
    let Some(cost) = alone.checked_add(block.bytes().len() as u64) else {
        return None;
    };
    match least_class(sizes, cost) {
        None => None,
        Some(class) => Some(Measured { cost, class }),
    }
}

/// Makes an append or prepend, with one look-up. The item keeps its flags and its expiry.
#[inline(always)]
pub(crate) fn join_item(
    trial: Trial<'_>,
    items: &mut HashMap<Key, Item, RandomState>,
    key: &Key,
    joint: &Joint<'_>,
) -> Result<Result<Made, Want>, NoMemory>
    requires cas { cas_of trial.site.now trial.versions < 2 ^ 64 }
    ensures made { IfOk result (λ t. IfOk t (MakesRow true trial.entry.given.now (get (pointwise nat_eq) items.old) (get (pointwise nat_eq) items.new) key.now
        (joining_row trial.entry.site.now trial.entry.versions key.now joint.now.side joint.now.block.now (get (pointwise nat_eq) items.old key.now))
        trial.entry.moment)) }
    ensures wants { IfOk result (λ t. IfErr t (IsLeft trial.entry.given.now (get (pointwise nat_eq) items.old) (get (pointwise nat_eq) items.new) key.now
        trial.entry.moment
        (joining_row trial.entry.site.now trial.entry.versions key.now joint.now.side joint.now.block.now (get (pointwise nat_eq) items.old key.now)))) }
    ensures err { OnErr result (ItemsStay (get (pointwise nat_eq) items.old) (get (pointwise nat_eq) items.new)) }
    ensures spare { spare items.new ≡ spare items.old }
{
    let Some(item) = items.get_mut(key) else {
        return Ok(Ok(untouched(Reply::NotStored, Reply::NotStored, 0)));
    };
    if item.dead(trial.moment) {
        return Ok(Err(Want::Burial(item.link)));
    }
    let Some(measured) = cost_of_both(trial.site, key, &item.value, joint.block) else {
        return Ok(Ok(untouched(Reply::TooLarge, Reply::TooLarge, 0)));
    };
    let found = Found {
        link: item.link,
        cas: item.cas,
    };
    // A prepend is decided as an append.
    let put = match decide(
        Verb::Append,
        item.expiry,
        measured,
        Some(found),
        trial.given,
    ) {
        Ok(put) => put,
        Err(want) => return Ok(Err(want)),
    };
    if let Room::At(link) = put.room {
        let value = joint.joined(trial.alloc, &item.value)?;
        let content = Content {
            flags: item.flags,
            value: &value,
            expiry: item.expiry,
        };
        trial.site.renew(trial.versions, item, &content, link)?;
    }
    Ok(Ok(put.made()))
}
