//! What a call leaves of a stripe and its classes, as numbers alone, and what came of the call by these.
use crate::asking::key_of;
use crate::end::{End, Outcome};
use crate::sums::{mixed, sum_of};
use mc_history::{History, Shows};
use mc_item::{NoMemory, Seg, StripeEvent};
use mc_segment::ClassState;
use mc_stripe::StripeState;
use std::alloc::Global;
use std::fmt::Debug;

/// What a stripe or a class has: a checksum of its items, or of its lists and figures, and one of each event, in their order.
#[derive(Drop, PartialEq)]
pub(crate) struct Side {
    sum: u64,
    events: Vec<u64>,
}

/// What a call leaves: how it ended, what the stripe and then each class has, and how many commands were answered.
#[derive(Drop)]
pub(crate) struct Left {
    end: End,
    sides: Vec<Side>,
    answered: usize,
}

// The checksum of the items of the keys that cases name.
fn sum_of_items(alloc: Global, stripe: &StripeState) -> u64 {
    let mut sum = 0;
    for letter in b'a'..b'g' {
        if let Ok(key) = key_of(alloc, letter) {
            sum = mixed(sum, sum_of(&stripe.find(&key)));
        }
    }
    sum
}

// The checksum of a list.
fn sum_of_list(class: &ClassState, seg: Seg) -> u64 {
    let mut sum = 0;
    for place in 0..class.len(seg) {
        if let Some(entry) = class.from_tail(seg, place) {
            sum = mixed(sum, sum_of(entry));
        }
    }
    sum
}

// The checksum of a class's lists, their bytes and the limit.
fn sum_of_lists(class: &ClassState) -> u64 {
    sum_of(&[
        sum_of_list(class, Seg::Hot),
        sum_of_list(class, Seg::Warm),
        sum_of_list(class, Seg::Cold),
        sum_of_list(class, Seg::Temp),
        sum_of(&class.figures()),
        class.chunks(),
    ])
}

// Notes the events of a stripe or a class beside the checksum of what it has.
fn side_of<E: Debug + Drop, S: Shows<E> + Drop>(
    alloc: Global,
    sum: u64,
    history: &History<E, S>,
) -> Result<Side, NoMemory> {
    let mut events = Vec::new(alloc);
    for place in 0..history.len() {
        if let Some(event) = history.get(place) {
            events.push(sum_of(event))?;
        }
    }
    Ok(Side { sum, events })
}

fn answered_by(stripe: &StripeState) -> usize {
    let mut many = 0usize;
    for place in 0..stripe.history().len() {
        if let Some(StripeEvent::Did(_)) = stripe.history().get(place) {
            many = many.saturating_add(1);
        }
    }
    many
}

fn push_class(alloc: Global, sides: &mut Vec<Side>, class: &ClassState) -> Result<(), NoMemory> {
    let side = side_of(alloc, sum_of_lists(class), class.history())?;
    sides.push(side)?;
    Ok(())
}

fn push_all(
    alloc: Global,
    sides: &mut Vec<Side>,
    stripe: &StripeState,
    classes: &[&ClassState],
) -> Result<(), NoMemory> {
    let side = side_of(alloc, sum_of_items(alloc, stripe), stripe.history())?;
    sides.push(side)?;
    for class in classes {
        push_class(alloc, sides, *class)?;
    }
    Ok(())
}

/// Notes what a call leaves that ended so. `None`: there is no memory for the note.
pub(crate) fn left_of(
    alloc: Global,
    end: End,
    stripe: &StripeState,
    classes: &[&ClassState],
) -> Option<Left> {
    let mut sides = Vec::new(alloc);
    match push_all(alloc, &mut sides, stripe, classes) {
        Ok(()) => Some(Left {
            end,
            sides,
            answered: answered_by(stripe),
        }),
        Err(_) => None,
    }
}

// Whether the events of each side begin those of the whole call.
fn begins(sides: &[Side], whole: &[Side]) -> bool {
    for (side, all) in sides.iter().zip(whole.iter()) {
        if !all.events.starts_with(side.events.as_slice()) {
            return false;
        }
    }
    true
}

fn count(sides: &[Side]) -> usize {
    let mut many = 0usize;
    for side in sides {
        many = many.saturating_add(side.events.len());
    }
    many
}

// What came of a call that was refused memory.
fn outcome_of_refused(old: &Left, whole: &Left, left: &Left) -> Outcome {
    if left.sides == old.sides {
        return Outcome::Same;
    }
    let (before, after) = (count(old.sides.as_slice()), count(left.sides.as_slice()));
    let begun = begins(left.sides.as_slice(), whole.sides.as_slice());
    if begun && before < after && left.answered == old.answered {
        Outcome::Begun(after - before)
    } else {
        Outcome::Changed
    }
}

/// Returns what came of a call, by what there is before it, what it leaves if nothing is refused, and what it left.
pub(crate) fn outcome_of(old: &Left, whole: &Left, left: &Left) -> Outcome {
    if old.end != End::Made || whole.end != End::Made {
        return Outcome::Other;
    }
    match left.end {
        End::Made if left.sides == whole.sides => Outcome::Made,
        End::Made => Outcome::Changed,
        End::Refused => outcome_of_refused(old, whole, left),
        End::Other => Outcome::Other,
    }
}
