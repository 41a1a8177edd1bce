//! What a closed store has.
ghost use Rattle.std.specs.Prelude.{◌≡◌, ◌<◌, length};

use super::opening::Shape;
use mc_history::History;
use mc_item::{ClassEvent, ClassNo, StripeEvent, StripeNo, Why};
use mc_segment::{ClassState, ShownClass};
use mc_store::Final;
use mc_stripe::ShownStripe;
use std::alloc::Global;
use std::process::Abort;

/// What is counted of a closed store.
#[derive(Clone, Copy)]
pub(super) enum End {
    /// The entries of a class.
    Entries(u32),
    /// The events of a class.
    OfClass(u32),
    /// The events of a stripe.
    OfStripe(u32),
    /// The moves of a class's entries by hits.
    ByHits(u32),
    /// The answered commands that name a caller.
    Named(u32),
}

/// What is counted, and how many there are.
pub(super) type Ended = (End, u64);

/// The event at a place of a stripe's history.
pub(super) fn stripe_event<'a, R: Abort>(
    rt: &R,
    history: &'a History<StripeEvent, ShownStripe>,
    place: usize,
) -> &'a StripeEvent {
    history.get(place).expect(rt, "an event")
}

/// The event at a place of a class's history.
pub(super) fn class_event<'a, R: Abort>(
    rt: &R,
    history: &'a History<ClassEvent, ShownClass>,
    place: usize,
) -> &'a ClassEvent {
    history.get(place).expect(rt, "an event")
}

// One where an event is an answered command of a caller.
fn one_of(event: &StripeEvent, caller: u32) -> u64 {
    match event {
        StripeEvent::Did(did) => { if did.who.caller == caller { 1 } else { 0 } }
        _ => 0,
    }
}

// How many answered commands of a history name a caller.
fn named_in<R: Abort>(rt: &R, history: &History<StripeEvent, ShownStripe>, caller: u32) -> u64 {
    let mut many = 0u64;
    for place in 0..history.len() {
        let event = stripe_event(rt, history, place);
        many = many.wrapping_add(one_of(event, caller));
    }
    many
}

// How many answered commands name a caller.
fn named<R: Abort>(rt: &R, ledger: &Final, stripes: u32, caller: u32) -> u64
    requires { length ledger.now.stripes ≡ stripes }
{
    let mut many = 0u64;
    for stripe in 0..stripes {
        let history = ledger.stripe(StripeNo(stripe)).history();
        many = many.wrapping_add(named_in(rt, history, caller));
    }
    many
}

// Whether an event is the move of an entry by a hit.
fn is_by_hit(event: &ClassEvent) -> bool {
    match event {
        ClassEvent::Shifted(shifted) => shifted.why == Why::Hit,
        _ => false,
    }
}

// How many moves of a class's entries were by hits.
fn by_hits<R: Abort>(rt: &R, class: &ClassState) -> u64 {
    let history = class.history();
    let mut many = 0u64;
    for place in 0..history.len() {
        if is_by_hit(class_event(rt, history, place)) {
            many = many.wrapping_add(1);
        }
    }
    many
}

// The class of a number.
fn class_of<'a, R: Abort>(rt: &R, ledger: &'a Final, shape: Shape, class: u32) -> &'a ClassState
    requires { length ledger.now.classes ≡ shape.classes }
{
    assert!(rt; class > 0 && class as usize <= shape.classes);
    ledger.class(ClassNo(class))
}

// How many events a stripe has.
fn of_stripe<R: Abort>(rt: &R, ledger: &Final, shape: Shape, stripe: u32) -> u64
    requires { length ledger.now.stripes ≡ shape.stripes }
{
    assert!(rt; stripe < shape.stripes);
    ledger.stripe(StripeNo(stripe)).history().len() as u64
}

fn counted<R: Abort>(rt: &R, alloc: Global, ledger: &Final, shape: Shape, end: End) -> u64
    requires { (length ledger.now.stripes ≡ shape.stripes) × (length ledger.now.classes ≡ shape.classes) }
{
    match end {
        End::Entries(class) => class_of(rt, ledger, shape, class).count(),
        End::OfClass(class) => class_of(rt, ledger, shape, class).history().len() as u64,
        End::OfStripe(stripe) => of_stripe(rt, ledger, shape, stripe),
        End::ByHits(class) => by_hits(rt, class_of(rt, ledger, shape, class)),
        End::Named(caller) => named(rt, ledger, shape.stripes, caller),
    }
}

/// Ends the test where a closed store has something else.
pub(super) fn check_ends<R: Abort>(
    rt: &R,
    alloc: Global,
    ledger: &Final,
    shape: Shape,
    ends: &[Ended],
)
    requires { (length ledger.now.stripes ≡ shape.stripes) × (length ledger.now.classes ≡ shape.classes) }
{
    for (place, end) in ends.iter().enumerate() {
        let many = counted(rt, alloc, ledger, shape, end.0);
        assert_eq!(rt; many, end.1, "at end {place}");
    }
}
