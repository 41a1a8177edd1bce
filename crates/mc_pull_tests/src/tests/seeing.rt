//! What a class and a stripe tell of themselves.
use mc_crawl::snapshot;
use mc_history::{History, Shows};
use mc_item::{Cause, ClassEvent, Lost, Seg, StripeEvent};
use mc_segment::ClassState;
use mc_stripe::StripeState;
use mc_testing::key;
use std::alloc::Global;
use std::test::Fail;

/// What is looked at.
#[derive(Clone, Copy)]
pub enum Seen {
    /// How many events the class and the stripe have.
    Lengths,
    /// The numbers of a list's entries, from its tail.
    List(Seg),
    /// The links of a snapshot: the class and the number of each.
    Links,
    /// When the entry of this number was last used.
    Time(u64),
    /// Whether the key of one letter has an item.
    Item(u8),
    /// The class's last event.
    LastOfClass,
    /// The stripe's last event.
    LastOfStripe,
}

/// How many events the class and the stripe have.
pub(super) fn events(class: &ClassState, stripe: &StripeState) -> (usize, usize) {
    (class.history().len(), stripe.history().len())
}

/// The numbers of a list's entries, from its tail.
pub(super) fn numbers(alloc: Global, class: &ClassState, seg: Seg) -> Result<Vec<u64>, Fail> {
    let mut numbers = Vec::new(alloc);
    for place in 0..class.len(seg) {
        if let Some(entry) = class.from_tail(seg, place) {
            numbers.push(entry.number)?;
        }
    }
    Ok(numbers)
}

// The last event of a history.
fn last_in<E: Drop, S: Shows<E> + Drop>(history: &History<E, S>) -> Option<&E> {
    history.get(history.len().checked_sub(1)?)
}

/// The last event of a class, where there is one.
pub(super) fn last_event(class: &ClassState) -> Option<&ClassEvent> {
    last_in(class.history())
}

// What an event of a class says.
fn text_of_event(alloc: Global, event: &ClassEvent) -> Result<String, Fail> {
    match event {
        ClassEvent::Linked(e) => Ok(format!(in alloc; "links {}", e.number)?),
        ClassEvent::Unlinked(e) => Ok(format!(in alloc; "unlinks {}", e.number)?),
        ClassEvent::Reclaimed(e) => Ok(format!(in alloc;
            "reclaims {} dead at {}, at {}",
            e.number, e.moment, e.at
        )?),
        ClassEvent::Evicted(e) => {
            let passed = e.passed.as_slice();
            Ok(format!(in alloc; "evicts {} past {passed:?} at {}", e.number, e.at)?)
        }
        ClassEvent::Shifted(e) => {
            let (from, to, passed) = (e.from_seg, e.to_seg, e.passed.as_slice());
            let moved = format!(in alloc; "moves {} from {from:?} to {to:?}", e.number)?;
            Ok(format!(in alloc; "{moved} for {:?} past {passed:?} at {}", e.why, e.at)?)
        }
        ClassEvent::Surveyed(_) => Ok(format!(in alloc; "surveys")?),
        ClassEvent::Refused(_) => Ok(format!(in alloc; "refuses")?),
        ClassEvent::Limited(e) => Ok(format!(in alloc; "limits to {}", e.chunks)?),
    }
}

// The same of an event that may be absent.
fn text_of_if(alloc: Global, event: Option<&ClassEvent>) -> Result<String, Fail> {
    match event {
        Some(event) => text_of_event(alloc, event),
        None => Ok(format!(in alloc; "no event")?),
    }
}

// What the loss of an item says.
fn text_of_loss(alloc: Global, lost: &Lost) -> Result<String, Fail> {
    let key = lost.key.bytes();
    match lost.cause {
        Cause::Expired(moment) => Ok(format!(in alloc; "loses {key:?} dead at {moment}")?),
        Cause::Taken { class, place } => {
            Ok(format!(in alloc; "loses {key:?} taken by {place} of class {}", class.0)?)
        }
    }
}

// What an event of a stripe says.
fn text_of_item_event(alloc: Global, event: &StripeEvent) -> Result<String, Fail> {
    match event {
        StripeEvent::Lost(lost) => text_of_loss(alloc, lost),
        StripeEvent::Cooled(e) => Ok(format!(in alloc; "cools {:?}", e.key.bytes())?),
        StripeEvent::Did(_) => Ok(format!(in alloc; "does")?),
    }
}

// What a stripe's last event says.
fn last_of_stripe(alloc: Global, stripe: &StripeState) -> Result<String, Fail> {
    match last_in(stripe.history()) {
        Some(last) => text_of_item_event(alloc, last),
        None => Ok(format!(in alloc; "no event")?),
    }
}

/// The events of a class from a place on.
pub(super) fn text_of_class(
    alloc: Global,
    class: &ClassState,
    from: usize,
) -> Result<String, Fail> {
    let mut got = format!(in alloc; "")?;
    for place in from..class.history().len() {
        let event = text_of_if(alloc, class.history().get(place))?;
        got = format!(in alloc; "{got}[{event}]")?;
    }
    Ok(got)
}

/// Those of a stripe.
pub(super) fn text_of_stripe(
    alloc: Global,
    stripe: &StripeState,
    from: usize,
) -> Result<String, Fail> {
    let mut got = format!(in alloc; "")?;
    for place in from..stripe.history().len() {
        if let Some(event) = stripe.history().get(place) {
            let event = text_of_item_event(alloc, event)?;
            got = format!(in alloc; "{got}[{event}]")?;
        }
    }
    Ok(got)
}

fn text_of_lengths(
    alloc: Global,
    class: &ClassState,
    stripe: &StripeState,
) -> Result<String, Fail> {
    let (class, stripe) = events(class, stripe);
    Ok(format!(in alloc; "{class} {stripe}")?)
}

fn text_of_list(alloc: Global, class: &ClassState, seg: Seg) -> Result<String, Fail> {
    let numbers = numbers(alloc, class, seg)?;
    Ok(format!(in alloc; "{:?}", numbers.as_slice())?)
}

fn text_of_links(alloc: Global, class: &ClassState) -> Result<String, Fail> {
    let mut links = Vec::new(alloc);
    for link in snapshot(alloc, class)? {
        links.push((link.class.0, link.number))?;
    }
    Ok(format!(in alloc; "{:?}", links.as_slice())?)
}

fn text_of_time(alloc: Global, class: &ClassState, number: u64) -> Result<String, Fail> {
    match class.entry(number) {
        Some(entry) => Ok(format!(in alloc; "{}", entry.time)?),
        None => Ok(format!(in alloc; "no entry")?),
    }
}

fn text_of_item(alloc: Global, stripe: &StripeState, letter: u8) -> Result<String, Fail> {
    let key = key(alloc, letter)?;
    let got = if stripe.find(&key).is_none() {
        "absent"
    } else {
        "there"
    };
    Ok(format!(in alloc; "{got}")?)
}

/// What is seen of a class and its stripe.
pub(super) fn tell_seen(
    alloc: Global,
    class: &ClassState,
    stripe: &StripeState,
    seen: Seen,
) -> Result<String, Fail> {
    match seen {
        Seen::Lengths => text_of_lengths(alloc, class, stripe),
        Seen::List(seg) => text_of_list(alloc, class, seg),
        Seen::Links => text_of_links(alloc, class),
        Seen::Time(number) => text_of_time(alloc, class, number),
        Seen::Item(letter) => text_of_item(alloc, stripe, letter),
        Seen::LastOfClass => text_of_if(alloc, last_event(class)),
        Seen::LastOfStripe => last_of_stripe(alloc, stripe),
    }
}
