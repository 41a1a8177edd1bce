//! Threads make drawn commands on a shared store while others juggle and crawl its classes, set their limits and read their
//! figures; then a plain memcached replays what the closed store's stripes say happened, and each thread finds there what it was
//! answered.
ghost use Rattle.std.specs.Prelude.{◌≡◌, length};

use super::SEED;
use super::class_checker::check_classes;
use super::ends::stripe_event;
use super::opening::two_classes;
use super::playing::{COMMANDS, OTHERS, PLAYERS};
use super::sharing::{Call, Task, share};
use mc_history::History;
use mc_item::{Cause, ClassEvent, ClassNo, Did, Lost, Reply, Room, StripeEvent, StripeNo};
use mc_store::Final;
use mc_stripe::ShownStripe;
use mc_testing::Plain;
use std::alloc::Global;
use std::fmt::Debug;
use std::process::Abort;
use std::random::RandomSource;
use std::sync::Wait;
use std::thread::Threads;

/// So many chunks has each class when its store opens.
pub(super) const CHUNKS: [u64; 2] = [4, 1];

// A value as a text.
fn shown<T: Debug, R: Abort>(rt: &R, alloc: Global, value: &T) -> String {
    format!(in alloc; "{value:?}").expect(rt, "a text")
}

// Ends the test where two values aren't shown by the same text.
fn check_same<T: Debug, R: Abort>(rt: &R, alloc: Global, one: &T, other: &T) {
    let first = shown(rt, alloc, one);
    let second = shown(rt, alloc, other);
    assert_eq!(rt; first.as_str(), second.as_str());
}

// Ends the test where an answered command isn't this call, which is found for the first time, with the reply that its caller
// was given.
fn check_call<R: Abort>(rt: &R, alloc: Global, call: &mut Call, did: &Did) {
    assert!(rt; !call.found);
    call.found = true;
    assert_eq!(rt; u64::from(call.moment), did.moment);
    check_same(rt, alloc, &call.command, &did.command);
    check_same(rt, alloc, &call.reply, &did.reply);
}

// Ends the test where an answered command isn't one that its caller made in that turn, with the reply that the caller was
// given, or is found a second time.
fn find_call<R: Abort>(rt: &R, alloc: Global, threads: &mut Vec<Vec<Call>>, did: &Did) {
    let caller = did.who.caller as usize;
    let calls = threads.get_mut(caller).expect(rt, "a caller");
    let call = calls
        .get_mut(did.who.turn as usize)
        .expect(rt, "a turn that was had");
    check_call(rt, alloc, call, did);
}

// The event at a place of a class's history, if the class is one of the two.
fn event_of(ledger: &Final, class: ClassNo, place: u64) -> Option<&ClassEvent>
    requires { length ledger.now.classes ≡ 2 }
{
    if class.0 != 1 && class.0 != 2 {
        return None;
    }
    ledger.class(class).history().get(place as usize)
}

// Whether a command found no chunk, as the event that it cites says.
fn is_refused(ledger: &Final, room: Room) -> bool
    requires { length ledger.now.classes ≡ 2 }
{
    match room {
        Room::Refused { class, place } => match event_of(ledger, class, place) {
            Some(ClassEvent::Refused(_)) => true,
            _ => false,
        },
        _ => false,
    }
}

// Whether an item may go for a cause: where its chunk was taken, the event that is cited says so.
fn has_event(alloc: Global, ledger: &Final, cause: Cause) -> bool
    requires { length ledger.now.classes ≡ 2 }
{
    match cause {
        Cause::Expired(_) => true,
        Cause::Taken { class, place } => match event_of(ledger, class, place) {
            Some(ClassEvent::Evicted(_)) => true,
            _ => false,
        },
    }
}

// Ends the test where an item that goes wasn't there, or wasn't dead where that is said, or else the event that is cited isn't
// an eviction.
fn check_lost<R: Abort>(rt: &R, alloc: Global, ledger: &Final, plain: &mut Plain, lost: &Lost)
    requires { length ledger.now.classes ≡ 2 }
{
    assert!(rt; plain.lose(lost.key.bytes(), lost.cause));
    assert!(rt; has_event(alloc, ledger, lost.cause));
}

// Ends the test where an answered command's reply isn't that of the plain memcached.
fn check_text<R: Abort>(rt: &R, alloc: Global, did: &Did, wanted: &Reply) {
    let reply = shown(rt, alloc, &did.reply);
    let wanted = shown(rt, alloc, wanted);
    assert_eq!(rt; reply.as_str(), wanted.as_str(), "to {:?}", did.command);
}

// The same, where the plain memcached answers the command too.
fn check_reply<R: Abort>(rt: &R, alloc: Global, ledger: &Final, plain: &mut Plain, did: &Did)
    requires { length ledger.now.classes ≡ 2 }
{
    let refused = is_refused(ledger, did.room);
    let wanted = plain
        .answer(&did.command, did.moment, refused)
        .expect(rt, "memory");
    check_text(rt, alloc, did, &wanted);
}

// Ends the test where an event of a stripe's history isn't one that may happen to the plain memcached, or an answered
// command isn't among the threads' calls.
fn check_event<R: Abort>(
    rt: &R,
    alloc: Global,
    ledger: &Final,
    plain: &mut Plain,
    threads: &mut Vec<Vec<Call>>,
    event: &StripeEvent,
)
    requires { length ledger.now.classes ≡ 2 }
{
    match event {
        StripeEvent::Did(did) => {
            check_reply(rt, alloc, ledger, plain, did);
            find_call(rt, alloc, threads, did);
        }
        StripeEvent::Lost(lost) => check_lost(rt, alloc, ledger, plain, lost),
        StripeEvent::Cooled(cooled) => assert!(rt; plain.has(cooled.key.bytes())),
    }
}

// Replays a history of a closed store, and looks for each answered command among the threads' calls.
fn replay_one<R: Abort>(
    rt: &R,
    alloc: Global,
    ledger: &Final,
    plain: &mut Plain,
    threads: &mut Vec<Vec<Call>>,
    history: &History<StripeEvent, ShownStripe>,
)
    requires { length ledger.now.classes ≡ 2 }
{
    for place in 0..history.len() {
        let event = stripe_event(rt, history, place);
        check_event(rt, alloc, ledger, plain, threads, event);
    }
}

/// Replays the history of each stripe of a closed store, and looks for each answered command among the threads' calls.
pub(super) fn replay<R: Abort>(
    rt: &R,
    alloc: Global,
    ledger: &Final,
    stripes: u32,
    threads: &mut Vec<Vec<Call>>,
)
    requires stripes { length ledger.now.stripes ≡ stripes }
    requires classes { length ledger.now.classes ≡ 2 }
{
    for stripe in 0..stripes {
        let mut plain = Plain::new(alloc, stripe, stripes);
        let history = ledger.stripe(StripeNo(stripe)).history();
        replay_one(rt, alloc, ledger, &mut plain, threads, history);
    }
}

// Whether each call was found.
fn are_found(calls: &Vec<Call>) -> bool {
    for call in calls {
        if !call.found {
            return false;
        }
    }
    true
}

/// Ends the test where a call that was answered was found nowhere.
pub(super) fn are_all_found<R: Abort>(rt: &R, threads: &Vec<Vec<Call>>) {
    for (caller, calls) in threads.iter().enumerate() {
        assert!(rt; are_found(calls), "calls of {caller}");
    }
}

// Ends the test where a call that was answered was found nowhere, or a player didn't make all its calls.
fn check_found<R: Abort>(rt: &R, threads: &Vec<Vec<Call>>) {
    assert_eq!(rt; threads.len(), (PLAYERS + OTHERS) as usize);
    for (caller, calls) in threads.iter().enumerate() {
        let wanted = if caller < PLAYERS as usize {
            COMMANDS
        } else {
            0
        };
        assert_eq!(rt; calls.len() as u64, wanted, "calls of {caller}");
        assert!(rt; are_found(calls), "calls of {caller}");
    }
}

/// Replays the closed store's histories, and ends the test where they aren't what the threads were answered.
pub(super) fn check_played<R: Abort>(
    rt: &R,
    alloc: Global,
    ledger: &Final,
    stripes: u32,
    threads: &mut Vec<Vec<Call>>,
)
    requires stripes { length ledger.now.stripes ≡ stripes }
    requires classes { length ledger.now.classes ≡ 2 }
{
    replay(rt, alloc, ledger, stripes, threads);
    check_classes(rt, alloc, ledger, stripes, CHUNKS);
    check_found(rt, threads);
}

/// Threads play what a seed draws on a new store of so many stripes.
pub(super) fn run<R: Threads + Abort + Wait + RandomSource + Sync>(
    rt: &R,
    alloc: Global,
    stripes: u32,
    seed: u64,
) {
    let config = two_classes(rt, alloc, stripes, CHUNKS, PLAYERS + OTHERS + 1);
    share(rt, alloc, config, Task::Play(seed), &[], &[]);
}

// On one lock for all keys, on four, and on more than there are keys.
#[test]
fn drawn_commands_are_answered_as_memcached_does(rt: HostRuntime) {
    for stripes in [1, 4, 64] {
        run(&rt, rt.alloc(), stripes, SEED);
    }
}
