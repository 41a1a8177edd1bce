//! Events that can't be refused: the caller has made room for them, and the histories have places. None takes memory.
ghost use Rattle.std.specs.Prelude.{◌≡◌, ◌<◌, ◌≤◌, ◌+◌, ◌^◌, length, true, Some, IsSomeAnd};
ghost use Rattle.mc_rule.specs.Lists.{HasFree, lists_of, segment_of};
ghost use Rattle.mc_item.specs.Stripe.{IsDead};
ghost use Rattle.mc_item.specs.declared.stripe_event.Cause.TheVariants as causes;
ghost use Rattle.mc_segment.specs.ClassState.{appended, HasPlaces};
ghost use Rattle.mc_segment.specs.ClassCalls.{linked_event, unlinked_event, reclaimed_event, evicted_event, shifted_event, MayCome};
ghost use Rattle.mc_pull.specs.Settled.{lost_event, cooled_event};
ghost use Rattle.mc_stripe.specs.{StripeState.cache_now, StripeCalls.KeepsSite, StripeCalls.Gains};

use crate::judge::Ask;
use mc_item::{ClassNo, Expiry, Key, Passed, Seg, Shifted, Who, Why};
use mc_segment::{ClassState, EntryKey};
use mc_stripe::{StripeState, Turn};

// Adds an entry.
pub(crate) fn link(
    class: &mut ClassState,
    turn: Turn,
    key: Key,
    copy: Option<Key>,
    cost: u64,
    expiry: Expiry,
)
    requires copy { class.old.keeps_events ≡ true → copy ≡ Some key }
    requires room { 0 < class.old.room }
    requires place { HasPlaces class.old 1 }
    requires free { HasFree class.old.chunks class.old.history }
    requires cost { cost ≤ 2 ^ 20 }
    ensures event { class.new ≡ appended class.old (linked_event class.old turn.who key cost turn.moment expiry) class.new.room }
    ensures room { class.old.room ≤ class.new.room + 1 }
{
    let key = EntryKey { key, copy };
    match class.link(turn.who, key, cost, turn.moment, expiry) {
        Ok(_) => {}
        Err(_) => unreachable!(),
    }
}

// Removes an entry whose item is removed or replaced.
pub(crate) fn unlink(class: &mut ClassState, who: Who, number: u64)
    requires room { 0 < class.old.room }
    requires place { HasPlaces class.old 1 }
    requires lawful { MayCome class.old (unlinked_event who number) }
    ensures event { class.new ≡ appended class.old (unlinked_event who number) class.new.room }
{
    match class.unlink(who, number) {
        Ok(()) => {}
        Err(_) => unreachable!(),
    }
}

// Removes the entry of a dead item.
pub(crate) fn reclaim(class: &mut ClassState, who: Who, number: u64, moment: u64, at: u64)
    requires room { 0 < class.old.room }
    requires place { HasPlaces class.old 1 }
    requires lawful { MayCome class.old (reclaimed_event who number moment at) }
    ensures event { class.new ≡ appended class.old (reclaimed_event who number moment at) class.new.room }
{
    match class.reclaim(who, number, moment, at) {
        Ok(()) => {}
        Err(_) => unreachable!(),
    }
}

// Removes an entry of COLD, to free its chunk.
pub(crate) fn evict(class: &mut ClassState, who: Who, number: u64, passed: Passed, at: u64)
    requires room { 0 < class.old.room }
    requires place { HasPlaces class.old 1 }
    requires lawful { MayCome class.old (evicted_event who number passed at) }
    ensures event { class.new ≡ appended class.old (evicted_event who number passed at) class.new.room }
{
    match class.evict(who, number, passed, at) {
        Ok(()) => {}
        Err(_) => unreachable!(),
    }
}

// Moves the entry that was asked about.
pub(crate) fn shift(
    class: &mut ClassState,
    ask: &Ask<'_>,
    to_seg: Seg,
    why: Why,
    passed: Passed,
    at: u64,
)
    requires room { 0 < class.old.room }
    requires place { HasPlaces class.old 1 }
    requires lawful { IsSomeAnd (segment_of ask.now.number (lists_of class.old.history))
        (λ from_seg. MayCome class.old (shifted_event ask.now.who ask.now.number to_seg why ask.now.moment passed at from_seg)) }
    ensures event { IsSomeAnd (segment_of ask.now.number (lists_of class.old.history))
        (λ from_seg. class.new ≡ appended class.old (shifted_event ask.now.who ask.now.number to_seg why ask.now.moment passed at from_seg) class.new.room) }
{
    let shifted = Shifted {
        who: ask.who,
        number: ask.number,
        from_seg: class.segment_of(ask.number).unwrap(),
        to_seg,
        why,
        moment: ask.moment,
        passed,
        at,
    };
    match class.shift(shifted) {
        Ok(()) => {}
        Err(_) => unreachable!(),
    }
}

// Removes a dead item.
pub(crate) fn forget_expired(stripe: &mut StripeState, who: Who, key: Key, moment: u64)
    requires room { 0 < stripe.old.room }
    requires place { length stripe.old.history < stripe.old.limit }
    requires dead { IsDead ((cache_now stripe.old).items key) moment }
    ensures event { Gains stripe.old stripe.new (lost_event who key (causes.Expired moment)) }
    ensures site { KeepsSite stripe.old stripe.new }
{
    match stripe.forget_expired(who, key, moment) {
        Ok(()) => {}
        Err(_) => unreachable!(),
    }
}

// Removes an item whose chunk was evicted.
pub(crate) fn forget_taken(stripe: &mut StripeState, who: Who, key: Key, class: ClassNo, place: u64)
    requires room { 0 < stripe.old.room }
    requires place { length stripe.old.history < stripe.old.limit }
    requires there { IsSomeAnd ((cache_now stripe.old).items key) (λ item. item.link.class ≡ class) }
    ensures event { Gains stripe.old stripe.new (lost_event who key (causes.Taken class place)) }
    ensures site { KeepsSite stripe.old stripe.new }
{
    match stripe.forget_taken(who, key, class, place) {
        Ok(()) => {}
        Err(_) => unreachable!(),
    }
}

// Clears an item's ACTIVE mark.
pub(crate) fn cool(stripe: &mut StripeState, who: Who, key: Key)
    requires room { 0 < stripe.old.room }
    requires place { length stripe.old.history < stripe.old.limit }
    requires active { IsSomeAnd ((cache_now stripe.old).items key) (λ item. item.marks.active ≡ true) }
    ensures event { Gains stripe.old stripe.new (cooled_event who key) }
    ensures site { KeepsSite stripe.old stripe.new }
{
    match stripe.cool(who, key) {
        Ok(()) => {}
        Err(_) => unreachable!(),
    }
}
