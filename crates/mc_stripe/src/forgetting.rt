//! Removes items without a command of their key, and clears ACTIVE marks.
ghost use Rattle.std.specs.Prelude.{◌≡◌, ◌≢◌, ◌≤◌, ◌<◌, ◌+◌, ℕ, List, OnOk, OnErr, IsErrOf, IsSomeAnd, ◌↔◌, nat_eq, if◌then◌else◌, length, true, Err};
ghost use Rattle.std.specs.{Cmp.Lexicographic.pointwise, HashMap.get, HashMap.spare};
ghost use Rattle.mc_item.specs.{Cache.changed, Stripe.IsDead, Stripe.MayLose, Stripe.cooled_change};
ghost use Rattle.mc_item.specs.declared.fault.Fault.TheVariants as faults;
ghost use Rattle.mc_item.specs.declared.stripe_event.Cause.TheVariants as causes;
ghost use Rattle.mc_item.specs.declared.stripe_event.StripeEvent.TheVariants as events;
ghost use Rattle.mc_stripe.specs.{StripeState.cache_now, StripeCalls.KeepsSite, StripeCalls.Gains};

use crate::changing::remove;
use crate::shown::push_event;
use crate::state::{StripeState, is_full};
use mc_item::{Cause, ClassNo, Cooled, Fault, Item, Key, Lost, StripeEvent, Who};
use std::collections::HashMap;
use std::hash::RandomState;

// Clears the ACTIVE mark of the item under a key, if there is one.
fn cool_item(items: &mut HashMap<Key, Item, RandomState>, key: &Key)
    ensures items { (q : List ℕ) → get (pointwise nat_eq) items.new q ≡ (if pointwise nat_eq key.now q then
        changed (get (pointwise nat_eq) items.old key.now) (cooled_change (get (pointwise nat_eq) items.old key.now)) else get (pointwise nat_eq) items.old q) }
    ensures spare { spare items.new ≡ spare items.old }
{
    if let Some(item) = items.get_mut(key) {
        item.marks.active = false;
    }
}

impl StripeState {
    // Removes an item for a cause that applies to it.
    fn lose(&mut self, who: Who, key: Key, cause: Cause) -> Result<(), Fault>
        requires { MayLose ((cache_now self.old).items key) cause }
        ensures ok { OnOk result (Gains self.old self.new (events.Lost (record { who = who; key = key; cause = cause }))) }
        ensures full { IsErrOf result faults.HistoryFull ↔ (self.old.limit ≤ length self.old.history) }
        ensures memory { 0 < self.old.room → result ≢ Err faults.NoMemory }
        ensures err { OnErr result (self.new.history ≡ self.old.history) }
        ensures site { KeepsSite self.old self.new }
        ensures room { self.old.room ≤ self.new.room + 1 }
    {
        if is_full(&self.history, self.limit) {
            return Err(Fault::HistoryFull);
        }
        self.history.reserve(1)?;
        remove(&mut self.items, &key);
        push_event(
            &mut self.history,
            StripeEvent::Lost(Lost { who, key, cause }),
        );
        Ok(())
    }

    /// Removes an item that is dead at the moment, as items.c and crawler.c do. The moment is in seconds. Errors: `HistoryFull`
    /// exactly if the history has no place left, `NoMemory` only if the room is 0. The history is then unchanged.
    pub fn forget_expired(&mut self, who: Who, key: Key, moment: u64) -> Result<(), Fault>
        requires { IsDead ((cache_now self.old).items key) moment }
        ensures ok { OnOk result (Gains self.old self.new (events.Lost (record { who = who; key = key; cause = causes.Expired moment }))) }
        ensures full { IsErrOf result faults.HistoryFull ↔ (self.old.limit ≤ length self.old.history) }
        ensures memory { 0 < self.old.room → result ≢ Err faults.NoMemory }
        ensures err { OnErr result (self.new.history ≡ self.old.history) }
        ensures site { KeepsSite self.old self.new }
        ensures room { self.old.room ≤ self.new.room + 1 }
    {
        self.lose(who, key, Cause::Expired(moment))
    }

    /// Removes an item whose chunk, which is of this class, was taken by the event
    /// at this place of the class's history. Errors: as for `forget_expired`.
    pub fn forget_taken(
        &mut self,
        who: Who,
        key: Key,
        class: ClassNo,
        place: u64,
    ) -> Result<(), Fault>
        requires { IsSomeAnd ((cache_now self.old).items key) (λ item. item.link.class ≡ class) }
        ensures ok { OnOk result (Gains self.old self.new (events.Lost (record { who = who; key = key; cause = causes.Taken class place }))) }
        ensures full { IsErrOf result faults.HistoryFull ↔ (self.old.limit ≤ length self.old.history) }
        ensures memory { 0 < self.old.room → result ≢ Err faults.NoMemory }
        ensures err { OnErr result (self.new.history ≡ self.old.history) }
        ensures site { KeepsSite self.old self.new }
        ensures room { self.old.room ≤ self.new.room + 1 }
    {
        self.lose(who, key, Cause::Taken { class, place })
    }

    /// Clears the ACTIVE mark of an item that has it, and changes nothing else of the item. Errors: as for `forget_expired`.
    pub fn cool(&mut self, who: Who, key: Key) -> Result<(), Fault>
        requires { IsSomeAnd ((cache_now self.old).items key) (λ item. item.marks.active ≡ true) }
        ensures ok { OnOk result (Gains self.old self.new (events.Cooled (record { who = who; key = key }))) }
        ensures full { IsErrOf result faults.HistoryFull ↔ (self.old.limit ≤ length self.old.history) }
        ensures memory { 0 < self.old.room → result ≢ Err faults.NoMemory }
        ensures err { OnErr result (self.new.history ≡ self.old.history) }
        ensures site { KeepsSite self.old self.new }
        ensures room { self.old.room ≤ self.new.room + 1 }
    {
        if is_full(&self.history, self.limit) {
            return Err(Fault::HistoryFull);
        }
        self.history.reserve(1)?;
        cool_item(&mut self.items, &key);
        push_event(&mut self.history, StripeEvent::Cooled(Cooled { who, key }));
        Ok(())
    }
}
