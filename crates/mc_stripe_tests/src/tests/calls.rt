//! Calls of a stripe and what they tell. Where what a call requires doesn't hold, the test ends.
ghost use Rattle.std.specs.Prelude.{◌≡◌, ◌<◌, ◌≤◌, ◌^◌, IsSomeAnd, true};
ghost use Rattle.mc_item.specs.{Command.key_of, Measure.stripe_of, Stripe.IsDead};
ghost use Rattle.mc_stripe.specs.StripeState.{cache_now};

use super::noted::reply_in;
use super::texts::{reply_text, text};
use super::trying::{Held, Lent, held_of, try_command, want_text};
use super::{Asked, b};
use mc_item::{ClassNo, Command, Fault, Key, Who};
use mc_stripe::{Done, Given, StripeState, Turn, Want};
use mc_testing::{WHO, is_dead};
use std::alloc::Global;
use std::process::Abort;

/// The test goes on where the command may be asked at this moment.
pub(super) fn asserts_owned<R: Abort>(rt: &R, stripe: &StripeState, command: &Command, moment: u64)
    ensures moment { moment ≤ 2 ^ 62 }
    ensures stripe { stripe_of (key_of command.now) stripe.now.site.stripes ≡ record { 0 = stripe.now.site.stripe } }
{
    assert!(rt; moment <= 1 << 62);
    assert!(rt; stripe.owns(command.key()));
}

// What a command in a caller's turn tells, which is given the classes that it wants.
fn try_with_classes<R: Abort>(
    rt: &R,
    alloc: Global,
    stripe: &mut StripeState,
    turn: Turn,
    asked: Asked,
    lent: Lent,
) -> Result<Result<Done, Want>, Fault> {
    match try_command(rt, alloc, stripe, turn, asked, Held::Nothing) {
        Ok(Err(Want::Classes(classes))) => {
            let held = held_of(classes, lent, 2);
            try_command(rt, alloc, stripe, turn, asked, held)
        }
        told => told,
    }
}

/// The reply to a command in a caller's turn, which is given the classes that it wants; or what else is wanted, or the fault. A class gives
/// the link that has the number of the event; where it is full, a refusal.
pub(super) fn text_of_reply<R: Abort>(
    rt: &R,
    alloc: Global,
    stripe: &mut StripeState,
    turn: Turn,
    asked: Asked,
    full: bool,
) -> String {
    let lent = if full { Lent::Refusal } else { Lent::Link };
    match try_with_classes(rt, alloc, stripe, turn, asked, lent) {
        Ok(Ok(done)) => reply_text(rt, alloc, &done.reply),
        Ok(Err(want)) => want_text(rt, alloc, want),
        Err(fault) => fault_text(rt, alloc, fault),
    }
}

/// A fault's text.
pub(super) fn fault_text<R: Abort>(rt: &R, alloc: Global, fault: Fault) -> String {
    format!(in alloc; "{fault:?}").expect(rt, "a text")
}

/// The reply that the last event notes.
pub(super) fn text_of_last<R: Abort>(rt: &R, alloc: Global, stripe: &StripeState) -> String {
    let history = stripe.history();
    match history.get(history.len().saturating_sub(1)) {
        Some(event) => reply_in(rt, alloc, event),
        None => text(rt, alloc, "none"),
    }
}

// Whether the key's item has the mark ACTIVE.
fn is_active(stripe: &StripeState, key: &Key) -> bool
    ensures { result ≡ true → IsSomeAnd ((cache_now stripe.now).items key.now) (λ item. item.marks.active ≡ true) }
{
    match stripe.find(key) {
        Some(item) => item.marks.active,
        None => false,
    }
}

// The test goes on where the key's item has the mark ACTIVE.
fn asserts_active<R: Abort>(rt: &R, stripe: &StripeState, key: &Key)
    ensures { IsSomeAnd ((cache_now stripe.now).items key.now) (λ item. item.marks.active ≡ true) }
{
    assert!(rt; is_active(stripe, key));
}

/// The mark ACTIVE of the item under the key `b` is cleared.
pub(super) fn cool<R: Abort>(rt: &R, alloc: Global, stripe: &mut StripeState, who: Who) {
    let key = b(rt, alloc);
    asserts_active(rt, stripe, &key);
    stripe.cool(who, key).expect(rt, "a cooled item");
}

// Whether the key's item has a chunk of class 1.
fn is_of_first(stripe: &StripeState, key: &Key) -> bool
    ensures { result ≡ true → IsSomeAnd ((cache_now stripe.now).items key.now) (λ item. item.link.class ≡ record { 0 = 1 }) }
{
    match stripe.find(key) {
        Some(item) => item.link.class.0 == 1,
        None => false,
    }
}

// The test goes on where the key's item has a chunk of class 1.
fn asserts_first<R: Abort>(rt: &R, stripe: &StripeState, key: &Key)
    ensures { IsSomeAnd ((cache_now stripe.now).items key.now) (λ item. item.link.class ≡ record { 0 = 1 }) }
{
    assert!(rt; is_of_first(stripe, key));
}

/// The item under the key `b`, which has a chunk of class 1, goes since its chunk was taken, by the event at this place.
pub(super) fn take<R: Abort>(
    rt: &R,
    alloc: Global,
    stripe: &mut StripeState,
    who: Who,
    place: u64,
) {
    let key = b(rt, alloc);
    asserts_first(rt, stripe, &key);
    stripe
        .forget_taken(who, key, ClassNo(1), place)
        .expect(rt, "an item that goes");
}

// The test goes on where the key's item is dead.
fn asserts_dead<R: Abort>(rt: &R, stripe: &StripeState, key: &Key, moment: u64)
    ensures { IsDead ((cache_now stripe.now).items key.now) moment }
{
    assert!(rt; is_dead(stripe, key, moment));
}

/// The item under the key `b`, which is dead, goes.
pub(super) fn expire<R: Abort>(
    rt: &R,
    alloc: Global,
    stripe: &mut StripeState,
    who: Who,
    moment: u64,
) {
    let key = b(rt, alloc);
    asserts_dead(rt, stripe, &key, moment);
    stripe
        .forget_expired(who, key, moment)
        .expect(rt, "an item that goes");
}

// The item's mark is cleared, for which room was made.
fn cool_in_room(stripe: &mut StripeState, key: Key) -> &'static str
    requires active { IsSomeAnd ((cache_now stripe.old).items key) (λ item. item.marks.active ≡ true) }
    requires room { 0 < stripe.old.room }
{
    match stripe.cool(WHO, key) {
        Ok(()) => "cooled",
        Err(Fault::HistoryFull) => "a full history",
        Err(Fault::NoMemory) => unreachable!(),
    }
}

/// Makes a get of the key `b`, which wakes its item, and clears the mark that it leaves, with room that was made
/// for both before: the second call can't be refused for want of memory.
pub(super) fn cools_without_memory<R: Abort>(
    rt: &R,
    alloc: Global,
    stripe: &mut StripeState,
) -> &'static str {
    let (key, asked) = (b(rt, alloc), Command::Get(b(rt, alloc)));
    let turn = Turn {
        who: WHO,
        moment: 1000,
    };
    let given = Given {
        home: None,
        other: None,
    };
    stripe.reserve(2).expect(rt, "room");
    assert!(rt; stripe.owns(asked.key()));
    let _told = stripe.attempt(&asked, turn, &given).expect(rt, "a reply");
    asserts_active(rt, stripe, &key);
    cool_in_room(stripe, key)
}

/// Whether the item under the key `b` is dead at a moment.
pub(super) fn is_dead_at<R: Abort>(
    rt: &R,
    alloc: Global,
    stripe: &StripeState,
    moment: u64,
) -> bool {
    let key = b(rt, alloc);
    is_dead(stripe, &key, moment)
}

/// Whether the item under the key `b` has the mark ACTIVE.
pub(super) fn is_b_active<R: Abort>(rt: &R, alloc: Global, stripe: &StripeState) -> bool {
    let key = b(rt, alloc);
    is_active(stripe, &key)
}
