//! Commands that are drawn one after another: a command is given what its tries want, and no more, until it is made. A plain
//! memcached answers it too.
use super::Asked::{self, Decr, Delete, Gat, Get, Huge, Incr, Store, StoreUntil, Touch};
use super::calls::{expire, is_dead_at};
use super::texts::reply_text;
use super::trying::{Held, Lent, held_of, opened_up_to, try_command, turn_at};
use super::{SEED, b, command_of};
use mc_item::{Cause, Reply, Verb};
use mc_stripe::{StripeState, Want};
use mc_testing::{Dice, Plain, WHO};
use std::alloc::Global;
use std::process::Abort;
use std::random::RandomSource;

// The bytes of the largest chunk. With the key `b` it holds a value of 55 bytes.
const LARGEST: u64 = 120;

const LONG: &str = "xxxxxxxxxxxxxxxxxxxxxxxxxxxxxxxxxxxxxxxxxxxxxxxxxxxxxxx";

const TOO_LONG: &str = "xxxxxxxxxxxxxxxxxxxxxxxxxxxxxxxxxxxxxxxxxxxxxxxxxxxxxxxx";

static ASKS: [Asked; 26] = [
    Get,
    Get,
    Touch(2),
    Touch(0),
    Delete,
    Incr(1),
    Incr(93),
    Decr(1),
    Store(Verb::Set, "9"),
    Store(Verb::Set, "12"),
    StoreUntil(Verb::Set, "8", 2),
    StoreUntil(Verb::Set, "13", 3),
    StoreUntil(Verb::Set, "9", -1),
    Store(Verb::Add, "7"),
    Store(Verb::Replace, "14"),
    Store(Verb::Cas(2), "6"),
    Store(Verb::Cas(6), "15"),
    Store(Verb::Set, LONG),
    Store(Verb::Set, TOO_LONG),
    Huge(Verb::Set),
    Huge(Verb::Add),
    Gat(3),
    Store(Verb::Append, "1"),
    Store(Verb::Append, ""),
    Store(Verb::Append, LONG),
    StoreUntil(Verb::Prepend, "12", 2),
];

// What is held where a room was wanted, too.
fn with_room(held: Held, lent: Lent) -> Held {
    match held {
        Held::Home(class, _, places) => Held::Home(class, lent, places),
        Held::Both(class, _, places, other, left) => Held::Both(class, lent, places, other, left),
        Held::Nothing | Held::Other(..) => held,
    }
}

// One place more, where this is the class.
fn more(places: u64, class: u32, wanted: u32) -> u64 {
    places.saturating_add((class == wanted) as u64)
}

// What is held where a place in the history of a class was wanted, too.
fn with_place(held: Held, wanted: u32) -> Held {
    match held {
        Held::Nothing => held,
        Held::Home(class, lent, places) => Held::Home(class, lent, more(places, class, wanted)),
        Held::Other(class, places) => Held::Other(class, more(places, class, wanted)),
        Held::Both(class, lent, places, other, left) => {
            let places = more(places, class, wanted);
            Held::Both(class, lent, places, other, more(left, other, wanted))
        }
    }
}

// What is held once what is wanted is given, where a class lends this.
fn held_with(held: Held, want: Want, lent: Lent) -> Held {
    match want {
        Want::Burial(_) => held,
        Want::Classes(classes) => held_of(classes, Lent::Nothing, 0),
        Want::Room => with_room(held, lent),
        Want::Place(class) => with_place(held, class.0),
    }
}

// A stripe, and the plain memcached beside it.
#[derive(Drop)]
struct Beside {
    stripe: StripeState,
    plain: Plain,
}

// The item of the key `b` goes, which is dead in the plain memcached too.
fn bury<R: Abort>(rt: &R, alloc: Global, beside: &mut Beside, moment: u64) {
    expire(rt, alloc, &mut beside.stripe, WHO, moment);
    assert!(rt; beside.plain.lose(b"b", Cause::Expired(moment)));
}

// The reply to a command that is made within seven tries: a burial, the classes, a room and three places may be wanted before.
fn reply_to<R: Abort>(
    rt: &R,
    alloc: Global,
    beside: &mut Beside,
    drawn: Drawn,
    moment: u64,
) -> Option<Reply> {
    let Drawn { asked, lent } = drawn;
    let mut held = Held::Nothing;
    for _ in 0..7 {
        match try_command(rt, alloc, &mut beside.stripe, turn_at(moment), asked, held) {
            Ok(Ok(done)) => return Some(done.reply),
            Ok(Err(want)) => {
                if let Want::Burial(_) = want {
                    bury(rt, alloc, beside, moment);
                }
                held = held_with(held, want, lent);
            }
            Err(_) => return None,
        }
    }
    None
}

// A command, and what the class of its new version lends.
#[derive(Clone, Copy)]
struct Drawn {
    asked: Asked,
    lent: Lent,
}

// A command that is drawn.
fn draw(dice: &mut Dice) -> Drawn {
    let asked = ASKS[dice.below(26) as usize];
    let lent = match dice.below(4) {
        0 => Lent::Refusal,
        _ => Lent::Link,
    };
    Drawn { asked, lent }
}

// The reply that shows the item of the key `b`.
fn shown<R: Abort>(rt: &R, alloc: Global, stripe: &StripeState) -> Reply {
    let key = b(rt, alloc);
    match stripe.find(&key) {
        None => Reply::Miss,
        Some(item) => Reply::Value {
            flags: item.flags,
            value: item.value.copy().expect(rt, "a value"),
            cas: item.cas,
        },
    }
}

// Ends the test where the plain memcached replies something else.
fn check_reply<R: Abort>(
    rt: &R,
    alloc: Global,
    plain: &mut Plain,
    drawn: Drawn,
    moment: u64,
    reply: &Reply,
) {
    let refused = match drawn.lent {
        Lent::Refusal => true,
        Lent::Link | Lent::Nothing => false,
    };
    let command = command_of(rt, alloc, drawn.asked);
    let wanted = plain.answer(&command, moment, refused).expect(rt, "memory");
    let got = reply_text(rt, alloc, reply);
    let wanted = reply_text(rt, alloc, &wanted);
    assert_eq!(rt; got.as_str(), wanted.as_str(), "to {command:?}");
}

const SHOWN: Drawn = Drawn {
    asked: Get,
    lent: Lent::Link,
};

// Ends the test where a command isn't made, or the plain memcached replies something else, or has another item then.
fn check_drawn<R: Abort>(rt: &R, alloc: Global, beside: &mut Beside, drawn: Drawn, moment: u64) {
    let reply = reply_to(rt, alloc, beside, drawn, moment).expect(rt, "a reply");
    check_reply(rt, alloc, &mut beside.plain, drawn, moment, &reply);
    if !is_dead_at(rt, alloc, &beside.stripe, moment) {
        let item = shown(rt, alloc, &beside.stripe);
        check_reply(rt, alloc, &mut beside.plain, SHOWN, moment, &item);
    }
}

// Draws commands by a seed. Each takes two events at most.
fn play<R: Abort + RandomSource>(rt: &R, alloc: Global, seed: u64) {
    let mut dice = Dice::new(seed);
    let mut beside = Beside {
        stripe: opened_up_to(rt, alloc, LARGEST),
        plain: Plain::new(alloc, 1, 4),
    };
    let mut moment = 1000u64;
    for _ in 0..15 {
        if beside.stripe.history().len() > 14 {
            return;
        }
        let drawn = draw(&mut dice);
        moment = u64::min(moment.saturating_add(dice.below(2)), 2000);
        check_drawn(rt, alloc, &mut beside, drawn, moment);
    }
}

#[test]
fn a_command_is_made_once_it_has_what_it_wants(rt: HostRuntime) {
    for number in 0..40 {
        play(&rt, rt.alloc(), SEED.wrapping_add(number));
    }
}
