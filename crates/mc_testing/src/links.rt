//! Checks at run time what the calls of a stripe require: which room a try may be given, and whether an item is dead.
ghost use Rattle.std.specs.Prelude.{◌≡◌, ◌≢◌, MatchBool, Some, true, false};
ghost use Rattle.mc_item.specs.Stripe.{Fits, IsAlive, IsDead, IsUnnamed, link_named};
ghost use Rattle.mc_item.specs.declared.answer.Need.TheVariants as needs;
ghost use Rattle.mc_item.specs.declared.{item.ClassNo.ClassNo as TheClass, reply.Room.Room as TheRoom};
ghost use Rattle.mc_stripe.specs.{StripeState.cache_now, Wanting.IsGiven, Wanting.IsTaken};

use mc_history::History;
use mc_item::{Key, Link, Room, StripeEvent};
use mc_stripe::{Given, Home, ShownStripe, StripeState};

type Events = History<StripeEvent, ShownStripe>;

// Whether an event gives the link to a new version.
fn gives(event: &StripeEvent, link: Link) -> bool
    ensures { result ≡ false → link_named event.now ≢ Some link }
{
    match event {
        StripeEvent::Did(did) => match did.room {
            Room::At(given) => given == link,
            Room::Keep => false,
            Room::Refused { .. } => false,
        },
        StripeEvent::Lost(_) => false,
        StripeEvent::Cooled(_) => false,
    }
}

// Whether no event gives the link. False also if the events aren't kept in memory.
fn is_unnamed(events: &Events, link: Link) -> bool
    ensures { result ≡ true → IsUnnamed link events.now.items }
{
    for place in 0..events.len() {
        let Some(event) = events.get(place) else {
            return false;
        };
        if gives(event, link) {
            return false;
        }
    }
    true
}

// Whether a class may give its room: a link of the class that no event gives, a refusal of the class, or nothing.
fn lends(home: Home, events: &Events) -> bool
    ensures { result ≡ true → IsGiven home.room → Fits (needs.Fresh home.class) home.room events.now.items }
{
    match home.room {
        Room::At(link) => link.class.0 == home.class.0 && is_unnamed(events, link),
        Room::Refused { class, .. } => class.0 == home.class.0,
        Room::Keep => true,
    }
}

/// Returns whether a try on a stripe with these events may be given this room.
pub fn may_give(given: Given, events: &Events) -> bool
    ensures { result ≡ true → (class : TheClass) (room : TheRoom) → IsTaken given (needs.Fresh class) room → Fits (needs.Fresh class) room events.now.items }
{
    match given.home {
        None => true,
        Some(home) => lends(home, events),
    }
}

/// Returns whether the key has an item that is dead at the moment.
pub fn is_dead(stripe: &StripeState, key: &Key, moment: u64) -> bool
    ensures { MatchBool result (IsDead ((cache_now stripe.now).items key.now) moment) (IsAlive ((cache_now stripe.now).items key.now) moment) }
{
    match stripe.find(key) {
        Some(item) => item.dead(moment),
        None => false,
    }
}
