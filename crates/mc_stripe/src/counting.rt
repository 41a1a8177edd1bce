//! The `incr` and `decr` commands.
ghost use Rattle.std.specs.Prelude.{◌≡◌, ◌<◌, ◌^◌, ℕ, IfOk, IfErr, OnOk, OnErr, IfSome, Some, nat_eq, true};
ghost use Rattle.std.specs.{Cmp.Lexicographic.pointwise, HashMap.get, HashMap.spare};
ghost use Rattle.mc_item.specs.{Answer.cas_of, Cache.changed, Cache.versions_of, Stripe.IsAlive};
ghost use Rattle.mc_item.specs.declared.answer.Need.TheVariants as needs;
ghost use Rattle.mc_item.specs.declared.item.ClassNo.{ClassNo as TheClass};
ghost use Rattle.mc_stripe.specs.{Counting.step_row, Trying.IsLeft, Trying.MakesRow, Trying.ItemsStay};
ghost use Rattle.mc_stripe.specs.Wanting.{Covers, IsLacking, IsTaken, IsWanting, Uses, class_beside};

use crate::changing::{change_found, versions_of as versions_in};
use crate::fate::fate_by_change;
use crate::trying::{Done, Made, Trial, untouched};
use crate::wanting::{Given, Want};
use mc_item::{Answer, Item, Key, Link, Making, Need, NoMemory, Offer, Reply, Room, Step};
use std::collections::HashMap;
use std::hash::RandomState;

// What a need is offered: the room for it, and the class if it is a chunk. If that class gives no room, what is wanted.
#[inline(always)]
fn room_for(need: Need, given: &Given, old: Link) -> Result<Offer, Want>
    ensures covers { OnOk result ((class : TheClass) → need ≡ needs.Fresh class
        → Covers given.now (record { home = Some class; other = class_beside class (Some old) })) }
    ensures room { IfOk result (λ offer. IsTaken given.now need offer.room) }
    ensures class { IfOk result (λ offer. IfSome offer.class (λ class. need ≡ needs.Fresh class)) }
    ensures wants { IfErr result (λ want. (class : TheClass) × (need ≡ needs.Fresh class)
        × IsLacking given.now (record { home = Some class; other = class_beside class (Some old) }) want) }
{
    match need {
        Need::Fresh(class) => Ok(Offer {
            class: Some(class),
            room: given.room(class, Some(old))?,
        }),
        Need::Nothing | Need::Same | Need::TooLarge => Ok(Offer {
            class: None,
            room: Room::Keep,
        }),
    }
}

// Makes an incr or decr that can't be done in place: the value is no number, is too short for the new one, or shares its bytes.
#[inline(never)]
fn count_anew(
    trial: Trial<'_>,
    item: &mut Item,
    key: &Key,
    step: Step,
) -> Result<Result<Made, Want>, NoMemory>
    requires cas { cas_of trial.site.now trial.versions < 2 ^ 64 }
    ensures made { (moment : ℕ) → IsAlive (Some item.old) moment
        → IfOk result (λ t. IfOk t (λ m. Uses trial.entry.given.now key.now (Some item.old) moment
        (step_row trial.entry.site.now trial.entry.versions key.now step (Some item.old)) m.done.room m.done.fate)) }
    ensures reply { IfOk result (λ t. IfOk t
        (λ m. (m.done.reply ≡ ((step_row trial.entry.site.now trial.entry.versions key.now step (Some item.old)).answer m.done.room).reply)
        × (m.noted ≡ Some m.done.reply))) }
    ensures item { IfOk result (λ t. IfOk t
        (λ m. changed (Some item.old) ((step_row trial.entry.site.now trial.entry.versions key.now step (Some item.old)).answer m.done.room).change
        ≡ Some item.new)) }
    ensures added { IfOk result (λ t. IfOk t
        (λ m. m.added ≡ versions_of ((step_row trial.entry.site.now trial.entry.versions key.now step (Some item.old)).answer m.done.room).change)) }
    ensures wants { (moment : ℕ) → IsAlive (Some item.old) moment
        → IfOk result (λ t. IfErr t (IsWanting trial.entry.given.now key.now (Some item.old) moment
        (step_row trial.entry.site.now trial.entry.versions key.now step (Some item.old)))) }
    ensures same { IfOk result (λ t. OnErr t (item.new ≡ item.old)) }
    ensures err { OnErr result (item.new ≡ item.old) }
{
    let Trial {
        alloc,
        site,
        versions,
        given,
        ..
    } = trial;
    let need = site.count_need(key, step, Some(&*item));
    let offer = match room_for(need, given, item.link) {
        Ok(offer) => offer,
        Err(want) => return Ok(Err(want)),
    };
    let room = offer.room;
    let making = Making { alloc, versions };
    let Answer { reply, change } = site.count_answer(making, key, step, Some(&*item), offer)?;
    let fate = fate_by_change(key, item, &change);
    if let Some(class) = given.crowded(room, fate) {
        return Ok(Err(Want::Place(class)));
    }
    let noted = reply.copy()?;
    let added = versions_in(&change);
    let _ = change_found(item, change);
    Ok(Ok(Made {
        done: Done { reply, room, fate },
        noted: Some(noted),
        added,
    }))
}

/// Makes an incr or decr, with one look-up.
#[inline(always)]
pub(crate) fn count_item(
    trial: Trial<'_>,
    items: &mut HashMap<Key, Item, RandomState>,
    key: &Key,
    step: Step,
) -> Result<Result<Made, Want>, NoMemory>
    requires cas { cas_of trial.site.now trial.versions < 2 ^ 64 }
    ensures made { IfOk result (λ t. IfOk t (MakesRow true trial.entry.given.now (get (pointwise nat_eq) items.old) (get (pointwise nat_eq) items.new) key.now
        (step_row trial.entry.site.now trial.entry.versions key.now step (get (pointwise nat_eq) items.old key.now)) trial.entry.moment)) }
    ensures wants { IfOk result (λ t. IfErr t (IsLeft trial.entry.given.now (get (pointwise nat_eq) items.old) (get (pointwise nat_eq) items.new) key.now
        trial.entry.moment
        (step_row trial.entry.site.now trial.entry.versions key.now step (get (pointwise nat_eq) items.old key.now)))) }
    ensures err { OnErr result (ItemsStay (get (pointwise nat_eq) items.old) (get (pointwise nat_eq) items.new)) }
    ensures spare { spare items.new ≡ spare items.old }
{
    let Some(item) = items.get_mut(key) else {
        return Ok(Ok(untouched(Reply::NotFound, Reply::NotFound, 0)));
    };
    if item.dead(trial.moment) {
        return Ok(Err(Want::Burial(item.link)));
    }
    match item.count(step, trial.site.cas_of(trial.versions)) {
        Some(number) => Ok(Ok(untouched(Reply::Number(number), Reply::Number(number), 1))),
        None => count_anew(trial, item, key, step),
    }
}
