//! Storage commands with an item that fits a class: set, add, replace and cas. The other two are decided here too.
ghost use Rattle.std.specs.Prelude.{◌≡◌, ◌<◌, ◌≤◌, ◌+◌, ◌^◌, ℕ, List, IfOk, IfErr, IfSome, OnErr, nat_eq, Option, Some, true};
ghost use Rattle.std.specs.{Cmp.Lexicographic.pointwise, HashMap.get, HashMap.spare};
ghost use Rattle.mc_item.specs.Answer as answers;
ghost use Rattle.mc_item.specs.{Answer.cas_of, Answer.store_row, Answer.version_of, Item.link_of_item, Measure.cost_of};
ghost use Rattle.mc_item.specs.declared.{item.ClassNo.ClassNo as TheClass, item.Item.Item as TheItem, item.Link.Link as TheLink};
ghost use Rattle.mc_stripe.specs.{Plan.fate_of, Trying.IsLeft, Trying.MakesRow, Trying.ItemsStay, Wanting.IsGiven, Wanting.IsWanting};
ghost use Rattle.mc_stripe.specs.Putting as words;
ghost use Rattle.mc_stripe.specs.Putting.{IsDecided, KnowsItem, answer_of_room, decline_of, goes, made_of, reply_of, storing_row};

use crate::changing::remove;
use crate::fate::Fate;
use crate::trying::{Made, Trial, made_with};
use crate::wanting::{Given, Want};
use mc_item::{
    ClassNo, Content, Expiry, Item, Key, Link, Marks, NoMemory, Reply, Room, Site, Verb,
};
use std::collections::HashMap;
use std::hash::RandomState;

// The outcome of a storage command, by which it replies.
#[derive(Clone, Copy, Debug, PartialEq, Eq)]
pub(crate) enum PutAnswer {
    Stored,
    NotStored,
    Exists,
    NotFound,
    NoRoom,
}

impl PutAnswer {
    #[inline(always)]
    fn reply(self) -> Reply
        ensures { result ≡ reply_of self }
    {
        match self {
            PutAnswer::Stored => Reply::Stored,
            PutAnswer::NotStored => Reply::NotStored,
            PutAnswer::Exists => Reply::Exists,
            PutAnswer::NotFound => Reply::NotFound,
            PutAnswer::NoRoom => Reply::NoRoom,
        }
    }

    // How many new versions the command stores.
    #[inline(always)]
    fn versions_added(self) -> u64
        ensures { result ≡ words.versions_added self }
    {
        match self {
            PutAnswer::Stored => 1,
            PutAnswer::NotStored | PutAnswer::Exists | PutAnswer::NotFound | PutAnswer::NoRoom => 0,
        }
    }
}

// A decided storage command: its reply, the room that it takes, and what becomes of its key's chunks.
#[derive(Clone, Copy, Debug)]
pub(crate) struct Put {
    answer: PutAnswer,
    pub(crate) room: Room,
    fate: Fate,
}

impl Put {
    // The decided command in the form that all commands share.
    #[inline(always)]
    pub(crate) fn made(self) -> Made
        ensures { result ≡ made_of self }
    {
        let answer = self.answer;
        made_with(
            answer.reply(),
            answer.reply(),
            self.room,
            self.fate,
            answer.versions_added(),
        )
    }
}

// The item that a storage command finds: its link, and its cas number.
#[derive(Clone, Copy, Debug)]
pub(crate) struct Found {
    pub(crate) link: Link,
    pub(crate) cas: u64,
}

#[inline(always)]
fn link_in(found: Option<Found>) -> Option<Link>
    ensures { result ≡ words.link_in found }
{
    match found {
        None => None,
        Some(it) => Some(it.link),
    }
}

#[inline(always)]
fn cas_in(found: Option<Found>) -> Option<u64>
    ensures { result ≡ words.cas_in found }
{
    match found {
        None => None,
        Some(it) => Some(it.cas),
    }
}

// The reply that declines a storage command, if any, by the cas number of its key's item.
#[inline(always)]
fn declines(verb: Verb, cas: Option<u64>) -> Option<PutAnswer>
    ensures value { result ≡ decline_of verb cas }
    ensures idle { IfSome result (λ answer. words.versions_added answer ≡ 0) }
{
    match cas {
        None => match verb {
            Verb::Set => None,
            Verb::Add => None,
            Verb::Replace => Some(PutAnswer::NotStored),
            Verb::Append | Verb::Prepend => Some(PutAnswer::NotStored),
            Verb::Cas(_) => Some(PutAnswer::NotFound),
        },
        Some(cas) => match verb {
            Verb::Set | Verb::Replace | Verb::Append | Verb::Prepend => None,
            Verb::Add => Some(PutAnswer::NotStored),
            Verb::Cas(unique) => {
                if cas == unique {
                    None
                } else {
                    Some(PutAnswer::Exists)
                }
            }
        },
    }
}

// What becomes of the old item if no chunk was found. A set removes it, so that nobody reads old bytes.
#[inline(always)]
fn let_go(verb: Verb, old: Option<Link>) -> Fate
    ensures { (key : List ℕ) (found : Option TheItem) → old ≡ link_of_item found → result ≡ fate_of key found (answers.let_go verb) }
{
    match verb {
        Verb::Set => match old {
            None => Fate::Untouched,
            Some(link) => Fate::Goes(link),
        },
        Verb::Add | Verb::Replace | Verb::Cas(_) | Verb::Append | Verb::Prepend => Fate::Untouched,
    }
}

// What is measured of a new version: its cost, and the class that holds it.
#[derive(Clone, Copy)]
pub(crate) struct Measured {
    pub(crate) cost: u64,
    pub(crate) class: ClassNo,
}

// What becomes of the key's chunks if nothing declines the command, by the room that it is given.
#[inline(always)]
fn fate_in(room: Room, verb: Verb, cost: u64, expiry: Expiry, old: Option<Link>) -> Fate
    requires { IsGiven room }
    ensures { (key : List ℕ) (item : Option TheItem) (class : TheClass) (version : TheLink → TheItem) → old ≡ link_of_item item
        → ((link : TheLink) → (cost ≡ cost_of key (version link).value) × (expiry ≡ (version link).expiry))
        → result ≡ fate_of key item ((storing_row class verb version).answer room).change }
{
    match room {
        Room::At(_) => Fate::Renewed { cost, expiry, old },
        Room::Refused { .. } | Room::Keep => let_go(verb, old),
    }
}

// The reply if nothing declines the command, by the room that it is given.
#[inline(always)]
fn answer_in(room: Room) -> PutAnswer
    ensures { result ≡ answer_of_room room }
{
    match room {
        Room::At(_) => PutAnswer::Stored,
        Room::Refused { .. } | Room::Keep => PutAnswer::NoRoom,
    }
}

// Decides a storage command by its verb, the item that it finds and the room that it is given, or says what it wants.
#[inline(always)]
pub(crate) fn decide(
    verb: Verb,
    expiry: Expiry,
    measured: Measured,
    found: Option<Found>,
    given: &Given,
) -> Result<Put, Want>
    ensures made { (key : List ℕ) (item : Option TheItem) (moment : ℕ) (version : TheLink → TheItem)
        → KnowsItem found measured.cost expiry key item moment version
        → IfOk result (IsDecided given.now key item moment (store_row (Some measured.class) verb item version) version) }
    ensures wants { (key : List ℕ) (item : Option TheItem) (moment : ℕ) (version : TheLink → TheItem)
        → KnowsItem found measured.cost expiry key item moment version
        → IfErr result (IsWanting given.now key item moment (store_row (Some measured.class) verb item version)) }
{
    if let Some(answer) = declines(verb, cas_in(found)) {
        return Ok(Put {
            answer,
            room: Room::Keep,
            fate: Fate::Untouched,
        });
    }
    let old = link_in(found);
    let room = given.room(measured.class, old)?;
    let fate = fate_in(room, verb, measured.cost, expiry, old);
    if let Some(class) = given.crowded(room, fate) {
        return Err(Want::Place(class));
    }
    let answer = answer_in(room);
    Ok(Put { answer, room, fate })
}

// A new version for a key that has no item.
#[inline(always)]
fn new_item(site: &Site, versions: u64, content: &Content<'_>, link: Link) -> Result<Item, NoMemory>
    requires { cas_of site.now versions < 2 ^ 64 }
    ensures { IfOk result (λ item. item ≡ version_of site.now versions content.now.flags content.now.value.now content.now.expiry link) }
{
    Ok(Item {
        flags: content.flags,
        value: content.value.copy()?,
        expiry: content.expiry,
        cas: site.cas_of(versions),
        link,
        marks: Marks {
            fetched: false,
            active: false,
        },
    })
}

/// Makes a storage command. One look-up finds the item. Adding or removing an item takes another.
#[inline(always)]
pub(crate) fn put_item(
    trial: Trial<'_>,
    items: &mut HashMap<Key, Item, RandomState>,
    key: &Key,
    verb: Verb,
    content: &Content<'_>,
    measured: Measured,
) -> Result<Result<Made, Want>, NoMemory>
    requires cas { cas_of trial.site.now trial.versions < 2 ^ 64 }
    requires cost { measured.cost ≡ cost_of key.now content.now.value.now }
    ensures made { IfOk result (λ t. IfOk t (MakesRow true trial.entry.given.now (get (pointwise nat_eq) items.old) (get (pointwise nat_eq) items.new) key.now
        (store_row (Some measured.class) verb (get (pointwise nat_eq) items.old key.now)
        (version_of trial.entry.site.now trial.entry.versions content.now.flags content.now.value.now content.now.expiry)) trial.entry.moment)) }
    ensures wants { IfOk result (λ t. IfErr t (IsLeft trial.entry.given.now (get (pointwise nat_eq) items.old) (get (pointwise nat_eq) items.new) key.now
        trial.entry.moment
        (store_row (Some measured.class) verb (get (pointwise nat_eq) items.old key.now)
        (version_of trial.entry.site.now trial.entry.versions content.now.flags content.now.value.now content.now.expiry)))) }
    ensures err { OnErr result (ItemsStay (get (pointwise nat_eq) items.old) (get (pointwise nat_eq) items.new)) }
    ensures spare { spare items.old ≤ spare items.new + 1 }
{
    let Some(item) = items.get_mut(key) else {
        let put = match decide(verb, content.expiry, measured, None, trial.given) {
            Ok(put) => put,
            Err(want) => return Ok(Err(want)),
        };
        if let Room::At(link) = put.room {
            items.reserve(1)?;
            let name = key.copy(trial.alloc)?;
            let item = new_item(trial.site, trial.versions, content, link)?;
            let _ = items.insert(name, item);
        }
        return Ok(Ok(put.made()));
    };
    if item.dead(trial.moment) {
        return Ok(Err(Want::Burial(item.link)));
    }
    let found = Found {
        link: item.link,
        cas: item.cas,
    };
    let put = match decide(verb, content.expiry, measured, Some(found), trial.given) {
        Ok(put) => put,
        Err(want) => return Ok(Err(want)),
    };
    if let Room::At(link) = put.room {
        trial.site.renew(trial.versions, item, content, link)?;
    } else if goes_by(put.fate) {
        remove(items, key);
    }
    Ok(Ok(put.made()))
}

// Whether the key's item is removed.
#[inline(always)]
fn goes_by(fate: Fate) -> bool
    ensures { result ≡ goes fate }
{
    matches!(fate, Fate::Goes(_))
}
