//! One try of a command on a stripe: it makes the command with its event, or says what the command wants.
ghost use Rattle.std.specs.Prelude.{◌≡◌, ◌≤◌, ◌<◌, ◌+◌, ◌^◌, ◌↔◌, IfOk, IfErr, OnErr, IsErrOf, nat_eq, length, true};
ghost use Rattle.std.specs.{Cmp.Lexicographic.pointwise, HashMap.get, HashMap.spare};
ghost use Rattle.mc_item.specs.{Answer.cas_of, Answer.row_of, Command.key_of, Stripe.Fits};
ghost use Rattle.mc_item.specs.Item as items;
ghost use Rattle.mc_item.specs.declared.answer.Need.TheVariants as needs;
ghost use Rattle.mc_item.specs.declared.fault.Fault.TheVariants as faults;
ghost use Rattle.mc_item.specs.declared.{item.ClassNo.ClassNo as TheClass, reply.Room.Room as TheRoom};
ghost use Rattle.mc_stripe.specs.{Joining.content_of, Joining.content_row, StripeCalls.KeepsSite, Wanting.IsTaken};
ghost use Rattle.mc_stripe.specs.Trying.{IsDone, IsLeft, IsOpen, MakesRow, MayTry, ItemsStay};

use crate::counting::count_item;
use crate::deleting::delete_item;
use crate::getting::{gat_item, get_item};
use crate::huge::refuse_huge;
use crate::joining::{Joint, Side, join_item};
use crate::putting::{Measured, put_item};
use crate::shown::{copy_if, push_answer};
use crate::state::{StripeState, is_full};
use crate::touching::touch_item;
use crate::trying::{Done, Made, Trial, Turn};
use crate::wanting::{Given, Want};
use mc_item::{Command, Content, Expiry, Fault, Item, Key, NoMemory, Step, Verb, cost, expiry_of};
use std::collections::HashMap;
use std::hash::RandomState;

// When an item dies that gets this exptime at the moment.
#[inline(always)]
fn expiry_at(exptime: &i64, moment: u64) -> Expiry
    requires { moment ≤ 2 ^ 62 }
    ensures { result ≡ items.expiry_of exptime.now moment }
{
    expiry_of(*exptime, moment)
}

// Makes a storage command on the items, or says what it wants.
#[inline(always)]
fn store_item(
    trial: Trial<'_>,
    items: &mut HashMap<Key, Item, RandomState>,
    key: &Key,
    verb: Verb,
    content: &Content<'_>,
) -> Result<Result<Made, Want>, NoMemory>
    requires cas { cas_of trial.site.now trial.versions < 2 ^ 64 }
    ensures made { IfOk result (λ t. IfOk t (MakesRow true trial.entry.given.now (get (pointwise nat_eq) items.old) (get (pointwise nat_eq) items.new) key.now
        (content_row trial.entry.site.now trial.entry.versions key.now verb (content_of content.now.flags content.now.value.now content.now.expiry)
        (get (pointwise nat_eq) items.old key.now)) trial.entry.moment)) }
    ensures wants { IfOk result (λ t. IfErr t (IsLeft trial.entry.given.now (get (pointwise nat_eq) items.old) (get (pointwise nat_eq) items.new) key.now
        trial.entry.moment
        (content_row trial.entry.site.now trial.entry.versions key.now verb (content_of content.now.flags content.now.value.now content.now.expiry)
        (get (pointwise nat_eq) items.old key.now)))) }
    ensures err { OnErr result (ItemsStay (get (pointwise nat_eq) items.old) (get (pointwise nat_eq) items.new)) }
    ensures spare { spare items.old ≤ spare items.new + 1 }
{
    match Side::of(verb) {
        Some(side) => {
            let joint = Joint {
                side,
                block: content.value,
            };
            join_item(trial, items, key, &joint)
        }
        None => {
            let cost = cost(key.bytes().len() as u64, content.value.bytes().len() as u64);
            match trial.site.class_of(cost) {
                None => Ok(refuse_huge(items, key, verb, trial.moment, trial.given)),
                Some(class) => put_item(trial, items, key, verb, content, Measured { cost, class }),
            }
        }
    }
}

// Makes a command on the items, or says what it wants. Each kind of command has a function of its own, by its row of the table.
#[inline(always)]
fn make(
    trial: Trial<'_>,
    items: &mut HashMap<Key, Item, RandomState>,
    command: &Command,
    keeps: bool,
) -> Result<Result<Made, Want>, NoMemory>
    requires cas { cas_of trial.site.now trial.versions < 2 ^ 64 }
    requires moment { trial.moment ≤ 2 ^ 62 }
    ensures made { IfOk result (λ t. IfOk t (MakesRow keeps trial.entry.given.now (get (pointwise nat_eq) items.old) (get (pointwise nat_eq) items.new)
        (key_of command.now) (row_of trial.entry.site.now trial.entry.versions (get (pointwise nat_eq) items.old (key_of command.now)) command.now
        trial.entry.moment) trial.entry.moment)) }
    ensures wants { IfOk result (λ t. IfErr t (IsLeft trial.entry.given.now (get (pointwise nat_eq) items.old) (get (pointwise nat_eq) items.new)
        (key_of command.now) trial.entry.moment (row_of trial.entry.site.now trial.entry.versions (get (pointwise nat_eq) items.old (key_of command.now))
        command.now trial.entry.moment))) }
    ensures err { OnErr result (ItemsStay (get (pointwise nat_eq) items.old) (get (pointwise nat_eq) items.new)) }
    ensures spare { spare items.old ≤ spare items.new + 1 }
{
    match command {
        Command::Get(key) => get_item(items, key, trial.moment, keeps),
        Command::Gat(key, exptime) => gat_item(
            items,
            key,
            expiry_at(exptime, trial.moment),
            trial.moment,
            keeps,
        ),
        Command::Store {
            verb,
            key,
            flags,
            exptime,
            value,
        } => {
            let content = Content {
                flags: *flags,
                value,
                expiry: expiry_at(exptime, trial.moment),
            };
            store_item(trial, items, key, *verb, &content)
        }
        Command::Huge { verb, key } => {
            Ok(refuse_huge(items, key, *verb, trial.moment, trial.given))
        }
        Command::Incr(key, delta) => count_item(trial, items, key, Step::Up(*delta)),
        Command::Decr(key, delta) => count_item(trial, items, key, Step::Down(*delta)),
        Command::Touch(key, exptime) => {
            let expiry = expiry_at(exptime, trial.moment);
            Ok(touch_item(items, key, expiry, trial.moment))
        }
        Command::Delete(key) => Ok(delete_item(items, key, trial.moment, trial.given)),
    }
}

impl StripeState {
    /// Tries a command with the classes that it is given. If it can be made, adds its event and
    /// returns what was done. If not, changes nothing and returns what it wants. A hit wants no class:
    /// if it wakes its item, the fate has the item's link. The key is of this stripe, and the moment is
    /// at most 2^62 seconds. A given room is a link of the home class that no event names, or a refusal
    /// of that class.
    /// Errors: `HistoryFull` exactly if the history has no place left, `NoMemory`
    /// if the allocator refuses. Items and history are then unchanged.
    pub fn attempt(
        &mut self,
        command: &Command,
        turn: Turn,
        given: &Given,
    ) -> Result<Result<Done, Want>, Fault>
        requires may { MayTry self.old command.now turn }
        requires given { (class : TheClass) (room : TheRoom) → IsTaken given.now (needs.Fresh class) room → Fits (needs.Fresh class) room self.old.history }
        ensures made { IfOk result (λ t. IfOk t (IsDone given.now self.old self.new turn.who command.now turn.moment)) }
        ensures wants { IfOk result (λ t. IfErr t (IsOpen given.now self.old self.new command.now turn.moment)) }
        ensures full { IsErrOf result faults.HistoryFull ↔ (self.old.limit ≤ length self.old.history) }
        ensures err { OnErr result (self.new.history ≡ self.old.history) }
        ensures site { KeepsSite self.old self.new }
        ensures room { self.old.room ≤ self.new.room + 1 }
    {
        if is_full(&self.history, self.limit) {
            return Err(Fault::HistoryFull);
        }
        self.history.reserve(1)?;
        let keeps = self.history.keeps();
        let copy = copy_if(self.alloc, command, keeps)?;
        let trial = Trial {
            alloc: self.alloc,
            site: &self.site,
            versions: self.versions,
            moment: turn.moment,
            given,
        };
        let Made { done, noted, added } = match make(trial, &mut self.items, command, keeps)? {
            Ok(made) => made,
            Err(want) => return Ok(Err(want)),
        };
        self.versions += added;
        push_answer(&mut self.history, turn, command, &done, copy, noted);
        Ok(Ok(done))
    }
}
