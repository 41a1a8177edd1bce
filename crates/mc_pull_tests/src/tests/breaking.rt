//! Gates that fail at each of their visits: the histories are then a beginning of what they are without the failure.
use super::by_list::Walked::{Evict, Force, Juggle, Pull, Room};
use super::by_list::{Walked, tell_walked, walk_broken};
use super::rows::{Row, SIX, SIX_AND_A_DIES, SIX_AND_FIVE_DIE, six};
use super::seeing::{text_of_class, text_of_stripe};
use mc_item::Fault;
use mc_testing::World;
use std::alloc::Global;
use std::process::Abort;
use std::random::RandomSource;
use std::test::Fail;

// Whether any of the six items dies.
#[derive(Clone, Copy)]
enum Before {
    NoneDies,
    OneDies,
    FiveDie,
}

fn rows_of(before: Before) -> &'static [Row] {
    match before {
        Before::NoneDies => SIX.as_slice(),
        Before::OneDies => SIX_AND_A_DIES.as_slice(),
        Before::FiveDie => SIX_AND_FIVE_DIE.as_slice(),
    }
}

// What is done before, a walk or a round, and how many visits it makes.
type Visited = (Before, Walked, usize);

static VISITED: [Visited; 9] = [
    (Before::NoneDies, Evict(1000, &[]), 5),
    (Before::NoneDies, Evict(1000, &[false, false, true]), 3),
    (Before::NoneDies, Force(1000, &[true]), 1),
    (Before::NoneDies, Room(1000, &[]), 60),
    // COLD gives nothing, HOT's entry is forced to COLD, and in the next round COLD's tail is taken.
    (
        Before::NoneDies,
        Room(1000, &[false, false, false, false, false, true, true]),
        7,
    ),
    (Before::OneDies, Evict(1001, &[true; 5]), 1),
    (Before::FiveDie, Pull(1001, &[true; 5]), 5),
    (
        Before::FiveDie,
        Pull(1001, &[true, false, true, false, true]),
        5,
    ),
    // HOT's entry is old and goes to COLD; then the five that are dead are reclaimed; then the one that is left stays.
    (Before::FiveDie, Juggle(1001), 7),
];

// The events of both histories.
fn events_of(world: &World) -> Result<(String, String), Fail> {
    let class = text_of_class(world.alloc, &world.class, 0)?;
    let stripe = text_of_stripe(world.alloc, &world.stripe, 0)?;
    Ok((class, stripe))
}

// What both histories have after a walk.
fn whole<R: Abort + RandomSource>(
    rt: &R,
    alloc: Global,
    visited: &Visited,
) -> Result<(String, String), Fail> {
    let mut world = six(rt, alloc, rows_of(visited.0))?;
    tell_walked(&mut world, visited.1)?;
    events_of(&world)
}

// How a walk ends whose visit of this number fails, if it makes it, and what both histories have then.
fn broken<R: Abort + RandomSource>(
    rt: &R,
    alloc: Global,
    visited: &Visited,
    fails: usize,
) -> Result<(Option<Fault>, (String, String)), Fail> {
    let mut world = six(rt, alloc, rows_of(visited.0))?;
    let fault = walk_broken(&mut world, visited.1, fails).err();
    Ok((fault, events_of(&world)?))
}

fn asserts_begins<R: Abort>(rt: &R, got: &str, whole: &str, row: usize, fails: usize) {
    assert!(rt;
        whole.starts_with(got),
        "{got} at visit {fails} of row {row}"
    );
}

fn asserts_fault<R: Abort>(
    rt: &R,
    got: Option<Fault>,
    wanted: Option<Fault>,
    row: usize,
    fails: usize,
) {
    assert_eq!(rt; got, wanted, "at visit {fails} of row {row}");
}

// The visits of a walk fail one after another, and at last none does.
fn check_visits<R: Abort + RandomSource>(
    rt: &R,
    alloc: Global,
    visited: &Visited,
    row: usize,
) -> Result<(), Fail> {
    let (class, stripe) = whole(rt, alloc, visited)?;
    for fails in 0..visited.2 {
        let (fault, got) = broken(rt, alloc, visited, fails)?;
        asserts_fault(rt, fault, Some(Fault::NoMemory), row, fails);
        asserts_begins(rt, got.0.as_str(), class.as_str(), row, fails);
        asserts_begins(rt, got.1.as_str(), stripe.as_str(), row, fails);
    }
    let (fault, got) = broken(rt, alloc, visited, visited.2)?;
    asserts_fault(rt, fault, None, row, visited.2);
    asserts_begins(rt, class.as_str(), got.0.as_str(), row, visited.2);
    asserts_begins(rt, stripe.as_str(), got.1.as_str(), row, visited.2);
    Ok(())
}

#[test]
fn a_visit_that_fails_leaves_a_beginning(rt: HostRuntime) -> Result<(), Fail> {
    for (row, visited) in VISITED.iter().enumerate() {
        check_visits(&rt, rt.alloc(), visited, row)?;
    }
    Ok(())
}
