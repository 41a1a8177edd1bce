//! The state of a stripe: its fields, how it is made, and how memory is reserved for its events.
ghost use Rattle.std.specs.Prelude.{◌≡◌, ◌≢◌, ◌≤◌, ◌<◌, ◌+◌, [], Err, OnOk, IsErrOf, IsTrue, MatchBool, ◌↔◌, length};
ghost use Rattle.std.specs.Option.{option_copied};
ghost use Rattle.mc_item.specs.{Config.IsBounded, Stripe.IsLegal};
ghost use Rattle.mc_item.specs.Measure as measure;
ghost use Rattle.mc_item.specs.declared.fault.Fault.TheVariants as faults;
ghost use Rattle.mc_stripe.specs.{StripeState.HasBounds, StripeState.cache_now, StripeCalls.KeepsSite};

use crate::shown::ShownStripe;
use mc_history::History;
use mc_item::{ClassSizes, Config, Fault, Item, Key, Site, StripeEvent, StripeNo, stripe_of};
use std::alloc::Global;
use std::collections::HashMap;
use std::hash::RandomState;
use std::marker::Model;

/// One stripe's items, under their keys, and its history. Contracts see its site (number, number of stripes, class sizes), its
/// limit of events, whether it keeps them in memory, the history, and the room: how many more events take no memory. Keys are
/// hashed with the seed that is handed in. No reply depends on the seed. If it is random, nobody can prepare keys that collide.
#[derive(Drop)]
pub struct StripeState {
    pub(crate) limit: u64,
    pub(crate) versions: u64,
    pub(crate) history: History<StripeEvent, ShownStripe>,
    pub(crate) items: HashMap<Key, Item, RandomState>,
    pub(crate) alloc: Global,
    pub(crate) site: Site,
}

impl Model for StripeState {
    ghost use Rattle.std.specs.Prelude.{min, nat_eq};
    ghost use Rattle.std.specs.{Cmp.Lexicographic.pointwise, HashMap.get, HashMap.spare};
    ghost use Rattle.mc_stripe.specs.StripeState.{Stripe, stripe, IsKept};

    ghost Value = { Stripe };

    ghost view = { λ s. stripe s.site s.limit s.history.kept s.history.items (min (spare s.items) s.history.room) };

    ghost invariant = { λ s. IsKept s.site s.limit s.history.items s.versions (get (pointwise nat_eq) s.items) };
}

// Whether the history has no place left under this limit.
#[inline(always)]
pub(crate) fn is_full(history: &History<StripeEvent, ShownStripe>, limit: u64) -> bool
    ensures { MatchBool result (limit ≤ length history.now.items) (length history.now.items < limit) }
{
    history.len() as u64 >= limit
}

impl StripeState {
    /// Makes the stripe with this number of a checked configuration, without items or events. Stripes are numbered from 0. It
    /// takes no memory. Keys are hashed with the seed, on which no reply depends.
    pub fn new(alloc: Global, number: StripeNo, config: &Config, seed: RandomState) -> StripeState
        requires config { IsBounded config.now }
        requires number { number.0 < config.now.stripes }
        ensures site { result.site ≡ record { stripe = number.0; stripes = config.now.stripes; sizes = config.now.sizes } }
        ensures limit { result.limit ≡ config.now.max_events }
        ensures kept { result.keeps_events ≡ config.now.keeps_events }
        ensures history { result.history ≡ [] }
    {
        StripeState {
            limit: config.max_events,
            versions: 0,
            history: History::keeping(alloc, config.keeps_events),
            items: HashMap::with_hasher(alloc, seed),
            alloc,
            site: Site {
                stripe: number.0,
                stripes: config.stripes,
                sizes: ClassSizes::of(config.sizes.as_slice()),
            },
        }
    }

    /// Returns the stripe's number.
    pub fn number(&self) -> StripeNo
        ensures { result.0 ≡ self.now.site.stripe }
    {
        StripeNo(self.site.stripe)
    }

    /// Returns whether a key belongs to this stripe, as the key of each of its commands must. It takes no memory.
    pub fn owns(&self, key: &Key) -> bool
        ensures { IsTrue result ↔ (measure.stripe_of key.now self.now.site.stripes ≡ record { 0 = self.now.site.stripe }) }
    {
        stripe_of(key, self.site.stripes).0 == self.site.stripe
    }

    /// Returns the item under a key, dead or alive.
    pub fn find(&self, key: &Key) -> Option<&Item>
        ensures { option_copied result ≡ (cache_now self.now).items key.now }
    {
        self.items.get(key)
    }

    /// Returns the stripe's history: its events, oldest first. It is legal, and has at most `limit` events.
    pub fn history(&self) -> &History<StripeEvent, ShownStripe>
        ensures value { result.now.items ≡ self.now.history }
        ensures kept { result.now.kept ≡ self.now.keeps_events }
        ensures legal { IsLegal self.now.site self.now.history }
        ensures within { length self.now.history ≤ self.now.limit }
        ensures bounds { HasBounds self.now.site self.now.limit }
    {
        &self.history
    }

    /// Reserves memory for n more events. Each event uses at most one of this room, and `forget_expired`, `forget_taken` and
    /// `cool` take no other memory. Only the room changes, and it doesn't shrink. Errors: `HistoryFull` exactly if the history
    /// has fewer than n places left, `NoMemory` only if the room was less than n.
    #[inline(always)]
    pub fn reserve(&mut self, n: usize) -> Result<(), Fault>
        ensures ok { OnOk result (n ≤ self.new.room) }
        ensures full { IsErrOf result faults.HistoryFull ↔ (self.old.limit < length self.old.history + n) }
        ensures memory { n ≤ self.old.room → result ≢ Err faults.NoMemory }
        ensures site { KeepsSite self.old self.new }
        ensures history { self.new.history ≡ self.old.history }
        ensures room { self.old.room ≤ self.new.room }
    {
        if self.limit - (self.history.len() as u64) < n as u64 {
            return Err(Fault::HistoryFull);
        }
        self.items.reserve(n)?;
        self.history.reserve(n)?;
        Ok(())
    }
}
