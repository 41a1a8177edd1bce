//! Which entries the walks of a schedule passed and took, by the stripes that were held.
ghost use Rattle.std.specs.Prelude.{◌≡◌, length};

use super::ends::class_event;
use mc_item::{ClassEvent, ClassNo, Passed, stripe_of};
use mc_segment::ClassState;
use mc_store::Final;
use std::alloc::Global;
use std::process::Abort;

/// A step of a schedule: the first stripe that is held and how many are from there on, in turn; and how many events both classes
/// have after it.
#[derive(Clone, Copy)]
pub(super) struct Step {
    pub(super) first: u32,
    pub(super) many: u32,
    pub(super) events: [u64; 2],
}

/// Whether a step holds a stripe.
pub(super) fn is_held(step: Step, stripe: u32) -> bool {
    stripe.wrapping_add(4).wrapping_sub(step.first) % 4 < step.many
}

// The stripe of an entry's key.
fn stripe_at<R: Abort>(rt: &R, stripes: &Vec<u32>, number: u64) -> u32 {
    *stripes.get(number as usize).expect(rt, "an entry")
}

// Ends the test where an entry was taken or moved whose stripe was held.
fn check_taken<R: Abort>(rt: &R, stripes: &Vec<u32>, number: u64, step: Step, seed: u64) {
    let held = is_held(step, stripe_at(rt, stripes, number));
    assert!(rt;
        !held,
        "{number} is taken from a stripe that is held: seed {seed}"
    );
}

// Ends the test where an entry was passed whose stripe wasn't held.
fn check_passed<R: Abort>(rt: &R, stripes: &Vec<u32>, passed: &Passed, step: Step, seed: u64) {
    for number in passed.as_slice() {
        let held = is_held(step, stripe_at(rt, stripes, *number));
        assert!(rt; held, "{number} is passed: seed {seed}");
    }
}

// Ends the test where an event of a step passed or took another entry than it may. The stripe of a new entry is noted.
fn check_event<R: Abort>(
    rt: &R,
    stripes: &mut Vec<u32>,
    event: &ClassEvent,
    step: Step,
    seed: u64,
) {
    match event {
        ClassEvent::Linked(e) => {
            let stripe = stripe_of(&e.key, 4).0;
            stripes.push(stripe).expect(rt, "room for a stripe");
        }
        ClassEvent::Evicted(e) => {
            check_taken(rt, stripes, e.number, step, seed);
            check_passed(rt, stripes, &e.passed, step, seed);
        }
        ClassEvent::Shifted(e) => {
            check_taken(rt, stripes, e.number, step, seed);
            check_passed(rt, stripes, &e.passed, step, seed);
        }
        ClassEvent::Reclaimed(e) => check_taken(rt, stripes, e.number, step, seed),
        _ => {}
    }
}

// Ends the test where an event of a class passed or took another entry than it may. It is the second of the two, or the first.
fn check_class<R: Abort>(
    rt: &R,
    alloc: Global,
    class: &ClassState,
    steps: &[Step],
    second: bool,
    seed: u64,
) {
    let mut stripes = Vec::new(alloc);
    let mut place = 0usize;
    for step in steps {
        let [one, two] = step.events;
        let end = if second { two } else { one };
        for at in place..end as usize {
            check_event(
                rt,
                &mut stripes,
                class_event(rt, class.history(), at),
                *step,
                seed,
            );
        }
        place = end as usize;
    }
}

/// Ends the test where a walk of a schedule passed an entry whose stripe wasn't held, or took one whose stripe was.
pub(super) fn check_passes<R: Abort>(
    rt: &R,
    alloc: Global,
    ledger: &Final,
    steps: &[Step],
    seed: u64,
)
    requires { length ledger.now.classes ≡ 2 }
{
    check_class(rt, alloc, ledger.class(ClassNo(1)), steps, false, seed);
    check_class(rt, alloc, ledger.class(ClassNo(2)), steps, true, seed);
}
