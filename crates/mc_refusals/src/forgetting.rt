//! Calls of a stripe that name no command.
ghost use Rattle.std.specs.Prelude.{◌≡◌, true, IsSomeAnd};
ghost use Rattle.mc_stripe.specs.StripeState.{cache_now};

use crate::asking::key_of;
use crate::end::{End, end_of};
use crate::marks::Marks;
use mc_item::{ClassNo, Key};
use mc_stripe::StripeState;
use mc_testing::{WHO, World, is_dead};

// The moment at which the items that expire are dead.
const LATER: u64 = 1001;

/// Makes room for so many events of the stripe.
pub(crate) fn reserve(world: &mut World, events: usize, marks: Marks) -> End {
    marks.begin();
    let reserved = world.stripe.reserve(events);
    marks.end();
    end_of(reserved)
}

fn forget_dead(world: &mut World, key: Key, marks: Marks) -> End {
    if !is_dead(&world.stripe, &key, LATER) {
        return End::Other;
    }
    marks.begin();
    let forgot = world.stripe.forget_expired(WHO, key, LATER);
    marks.end();
    end_of(forgot)
}

/// Forgets the item of a key, which is dead.
pub(crate) fn expire(world: &mut World, marks: Marks) -> End {
    match key_of(world.alloc, b'a') {
        Ok(key) => forget_dead(world, key, marks),
        Err(_) => End::Other,
    }
}

// Whether the item of a key has a chunk of this class.
fn has_chunk(stripe: &StripeState, key: &Key, class: ClassNo) -> bool
    ensures { result ≡ true → IsSomeAnd ((cache_now stripe.now).items key.now) (λ item. item.link.class ≡ class) }
{
    match stripe.find(key) {
        Some(item) => item.link.class.0 == class.0,
        None => false,
    }
}

fn forget_taken(world: &mut World, key: Key, marks: Marks) -> End {
    let class = ClassNo(1);
    if !has_chunk(&world.stripe, &key, class) {
        return End::Other;
    }
    marks.begin();
    let forgot = world.stripe.forget_taken(WHO, key, class, 0);
    marks.end();
    end_of(forgot)
}

/// Forgets the item of a key, whose chunk was taken.
pub(crate) fn take(world: &mut World, marks: Marks) -> End {
    match key_of(world.alloc, b'a') {
        Ok(key) => forget_taken(world, key, marks),
        Err(_) => End::Other,
    }
}

// Whether the item of a key is marked ACTIVE.
fn is_active(stripe: &StripeState, key: &Key) -> bool
    ensures { result ≡ true → IsSomeAnd ((cache_now stripe.now).items key.now) (λ item. item.marks.active ≡ true) }
{
    match stripe.find(key) {
        Some(item) => item.marks.active,
        None => false,
    }
}

fn cool_item(world: &mut World, key: Key, marks: Marks) -> End {
    if !is_active(&world.stripe, &key) {
        return End::Other;
    }
    marks.begin();
    let cooled = world.stripe.cool(WHO, key);
    marks.end();
    end_of(cooled)
}

/// Clears the ACTIVE mark of the item of a key.
pub(crate) fn cool(world: &mut World, marks: Marks) -> End {
    match key_of(world.alloc, b'a') {
        Ok(key) => cool_item(world, key, marks),
        Err(_) => End::Other,
    }
}
