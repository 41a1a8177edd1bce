//! The histories of a closed store's classes, done once more by a plain class, and held against the stripes': each new
//! entry has one command that was given its chunk, by the same call, for the same key.
ghost use Rattle.std.specs.Prelude.{◌≡◌, length};

use super::ends::{class_event, stripe_event};
use mc_history::History;
use mc_item::{ClassEvent, ClassNo, Did, Link, Linked, Room, StripeEvent, StripeNo, Who};
use mc_segment::ClassState;
use mc_store::Final;
use mc_stripe::ShownStripe;
use mc_testing::{Checked, PlainClass};
use std::alloc::Global;
use std::process::Abort;

// Who was given a chunk, and for which key; found again or not.
#[derive(Drop)]
struct Given {
    link: Link,
    who: Who,
    key: Vec<u8>,
    found: bool,
}

// The chunk that a command was given.
fn given_to<R: Abort>(rt: &R, alloc: Global, link: Link, did: &Did) -> Given {
    let key = Vec::from_slice(alloc, did.command.key().bytes()).expect(rt, "a copy");
    Given {
        link,
        who: did.who,
        key,
        found: false,
    }
}

// Notes a command that was given a chunk.
fn note_given<R: Abort>(rt: &R, alloc: Global, given: &mut Vec<Given>, event: &StripeEvent) {
    if let StripeEvent::Did(did) = event {
        if let Room::At(link) = did.room {
            let one = given_to(rt, alloc, link, did);
            given.push(one).ok().expect(rt, "room for a chunk");
        }
    }
}

// Notes the chunks that a stripe's commands were given.
fn note_all<R: Abort>(
    rt: &R,
    alloc: Global,
    given: &mut Vec<Given>,
    history: &History<StripeEvent, ShownStripe>,
) {
    for place in 0..history.len() {
        let event = stripe_event(rt, history, place);
        note_given(rt, alloc, given, event);
    }
}

// All chunks that the stripes' commands were given.
fn all_given<R: Abort>(rt: &R, alloc: Global, ledger: &Final, stripes: u32) -> Vec<Given>
    requires { length ledger.now.stripes ≡ stripes }
{
    let mut given = Vec::new(alloc);
    for stripe in 0..stripes {
        let history = ledger.stripe(StripeNo(stripe)).history();
        note_all(rt, alloc, &mut given, history);
    }
    given
}

// Ends the test where a chunk was found before, or was given by another call or for another key.
fn check_given<R: Abort>(rt: &R, one: &mut Given, linked: &Linked) {
    assert!(rt; !one.found);
    assert_eq!(rt; one.who, linked.who);
    assert_eq!(rt; one.key.as_slice(), linked.key.bytes());
    one.found = true;
}

// Ends the test where no command, or more than one, was given the chunk of a new entry by the same call for its key.
fn find_given<R: Abort>(rt: &R, given: &mut Vec<Given>, link: Link, linked: &Linked) {
    let mut many = 0u64;
    for one in given.as_mut_slice() {
        if one.link == link {
            check_given(rt, one, linked);
            many = many.wrapping_add(1);
        }
    }
    assert_eq!(rt; many, 1);
}

// Ends the test where something is wrong.
fn check<R: Abort>(rt: &R, checked: Checked, place: usize) {
    assert_eq!(rt; checked, Ok(()), "at event {place}");
}

// Looks for the command of a new entry.
fn check_event<R: Abort>(rt: &R, given: &mut Vec<Given>, class: ClassNo, event: &ClassEvent) {
    if let ClassEvent::Linked(linked) = event {
        let link = Link {
            class,
            number: linked.number,
        };
        find_given(rt, given, link, linked);
    }
}

// Replays a class's history.
fn replay<R: Abort>(rt: &R, class: &ClassState, plain: &mut PlainClass, given: &mut Vec<Given>) {
    let history = class.history();
    for place in 0..history.len() {
        let event = class_event(rt, history, place);
        check(rt, plain.next(event, history), place);
        check_event(rt, given, class.number(), event);
    }
}

// Replays the history of a class that opened with this limit of chunks, and compares what it leaves with the class.
fn check_class<R: Abort>(
    rt: &R,
    alloc: Global,
    class: &ClassState,
    chunks: u64,
    given: &mut Vec<Given>,
) {
    let mut plain = PlainClass::new(alloc, chunks);
    replay(rt, class, &mut plain, given);
    check(rt, plain.compare(class), class.history().len());
}

// Ends the test where a chunk was found nowhere.
fn check_all<R: Abort>(rt: &R, given: &Vec<Given>) {
    for one in given {
        assert!(rt; one.found);
    }
}

/// Replays the histories of both classes, which opened with these limits of chunks. Ends the test where an event may not happen,
/// where a list isn't what its history leaves, or where a chunk and the command that was given it aren't each other's.
pub(super) fn check_classes<R: Abort>(
    rt: &R,
    alloc: Global,
    ledger: &Final,
    stripes: u32,
    chunks: [u64; 2],
)
    requires stripes { length ledger.now.stripes ≡ stripes }
    requires classes { length ledger.now.classes ≡ 2 }
{
    let mut given = all_given(rt, alloc, ledger, stripes);
    let [first, second] = chunks;
    check_class(rt, alloc, ledger.class(ClassNo(1)), first, &mut given);
    check_class(rt, alloc, ledger.class(ClassNo(2)), second, &mut given);
    check_all(rt, &given);
}
