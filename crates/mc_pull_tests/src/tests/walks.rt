//! Walks and rounds along lists of six items, by the answers that a gate is told to give.
use super::by_list::Walked::{Evict, Force, Juggle, Room};
use super::by_list::{evict, pull};
use super::rows::Ask::{Limit, See, Store, Walk};
use super::rows::{Row, SIX, SIX_AND_A_DIES, SIX_AND_FIVE_DIE, play, six};
use super::seeing::Seen::{LastOfClass, LastOfStripe, Lengths, List};
use super::seeing::{numbers, tell_seen};
use mc_item::Seg::{Cold, Hot};
use mc_testing::{World, one_class};
use std::alloc::Global;
use std::process::Abort;
use std::random::RandomSource;
use std::test::Fail;

static JUGGLED: [Row; 4] = [
    (See(List(Cold)), "[0, 1, 2, 3, 4]"),
    (See(List(Hot)), "[5]"),
    (
        See(LastOfClass),
        "moves 4 from Hot to Cold for Over(6) past [] at 6",
    ),
    (See(Lengths), "12 6"),
];

#[test]
fn six_items_are_juggled_by_the_rule(rt: HostRuntime) -> Result<(), Fail> {
    let alloc = rt.alloc();
    play(
        &rt,
        alloc,
        one_class(alloc, 6)?,
        SIX.as_slice(),
        JUGGLED.as_slice(),
    )
}

static FIRST_THAT_IS_HAD: [Row; 4] = [
    (
        Walk(Evict(1000, &[false, false, true])),
        "0 reclaimed, 0 moved, 1 evicted, 2 passed",
    ),
    (See(LastOfClass), "evicts 2 past [0, 1] at 6"),
    (See(LastOfStripe), "loses [99] taken by 12 of class 1"),
    (See(List(Cold)), "[0, 1, 3, 4]"),
];

#[test]
fn the_first_entry_whose_stripe_is_lent_is_evicted(rt: HostRuntime) -> Result<(), Fail> {
    let alloc = rt.alloc();
    play(
        &rt,
        alloc,
        one_class(alloc, 6)?,
        SIX.as_slice(),
        FIRST_THAT_IS_HAD.as_slice(),
    )
}

static NONE_IS_HAD: [Row; 2] = [
    (
        Walk(Evict(1000, &[])),
        "0 reclaimed, 0 moved, 0 evicted, 5 passed",
    ),
    (See(Lengths), "12 6"),
];

#[test]
fn five_that_are_not_had_are_passed(rt: HostRuntime) -> Result<(), Fail> {
    let alloc = rt.alloc();
    play(
        &rt,
        alloc,
        one_class(alloc, 6)?,
        SIX.as_slice(),
        NONE_IS_HAD.as_slice(),
    )
}

static CHUNK_OF_THE_DEAD: [Row; 4] = [
    (
        Walk(Evict(1001, &[true; 5])),
        "1 reclaimed, 0 moved, 0 evicted, 0 passed",
    ),
    (See(LastOfClass), "reclaims 0 dead at 1001, at 6"),
    (See(LastOfStripe), "loses [97] dead at 1001"),
    (See(List(Cold)), "[1, 2, 3, 4]"),
];

#[test]
fn a_chunk_of_the_dead_ends_a_walk(rt: HostRuntime) -> Result<(), Fail> {
    let alloc = rt.alloc();
    play(
        &rt,
        alloc,
        one_class(alloc, 6)?,
        SIX_AND_A_DIES.as_slice(),
        CHUNK_OF_THE_DEAD.as_slice(),
    )
}

static SIXTY_LOOKS: [Row; 2] = [
    (Walk(Room(1000, &[])), "false after 60"),
    (See(Lengths), "12 6"),
];

#[test]
fn room_is_looked_for_sixty_times(rt: HostRuntime) -> Result<(), Fail> {
    let alloc = rt.alloc();
    play(
        &rt,
        alloc,
        one_class(alloc, 6)?,
        SIX.as_slice(),
        SIXTY_LOOKS.as_slice(),
    )
}

static HOT_IS_FORCED: [Row; 4] = [
    (
        Walk(Room(1000, &[false, false, false, false, false, true, true])),
        "true after 7",
    ),
    (See(LastOfClass), "evicts 0 past [] at 6"),
    (See(List(Cold)), "[1, 2, 3, 4, 5]"),
    (See(Lengths), "14 7"),
];

// COLD gives nothing, and HOT's entry is forced to COLD; in the next round COLD's tail is taken.
#[test]
fn hot_is_forced_where_cold_gave_nothing(rt: HostRuntime) -> Result<(), Fail> {
    let alloc = rt.alloc();
    play(
        &rt,
        alloc,
        one_class(alloc, 6)?,
        SIX.as_slice(),
        HOT_IS_FORCED.as_slice(),
    )
}

static FORCED: [Row; 3] = [
    (
        Walk(Force(1000, &[true])),
        "0 reclaimed, 1 moved, 0 evicted, 0 passed",
    ),
    (
        See(LastOfClass),
        "moves 5 from Hot to Cold for Forced past [] at 6",
    ),
    (See(List(Cold)), "[0, 1, 2, 3, 4, 5]"),
];

#[test]
fn a_forced_entry_goes_to_colds_head(rt: HostRuntime) -> Result<(), Fail> {
    let alloc = rt.alloc();
    play(
        &rt,
        alloc,
        one_class(alloc, 6)?,
        SIX.as_slice(),
        FORCED.as_slice(),
    )
}

// Three chunks, all taken, and all three entries in COLD: HOT may have a fifth of the bytes, which is 39. Then one chunk.
static THREE_AND_ONE_CHUNK: [Row; 7] = [
    (Store(b'a', 0, 1000), "stored"),
    (Store(b'b', 0, 1000), "stored"),
    (Store(b'c', 0, 1000), "stored"),
    (Walk(Juggle(1000)), "0 reclaimed, 3 moved"),
    (See(List(Cold)), "[0, 1, 2]"),
    (Limit(1), "limited"),
    (See(LastOfClass), "limits to 1"),
];

static FREE_BELOW_ONE: [Row; 7] = [
    // Two rounds evict one entry each, and eight pass the one that is left.
    (Walk(Room(1000, &[true, true])), "false after 10"),
    (See(LastOfClass), "evicts 1 past [] at 4"),
    (See(List(Cold)), "[2]"),
    (See(Lengths), "10 5"),
    (Walk(Room(1000, &[true])), "true after 1"),
    (See(List(Cold)), "[]"),
    (See(Lengths), "11 6"),
];

#[test]
fn a_lowered_limit_has_no_chunk_free_while_an_entry_is_left(rt: HostRuntime) -> Result<(), Fail> {
    let alloc = rt.alloc();
    play(
        &rt,
        alloc,
        one_class(alloc, 3)?,
        THREE_AND_ONE_CHUNK.as_slice(),
        FREE_BELOW_ONE.as_slice(),
    )
}

// The answers of a pattern, the first by its lowest digit.
fn pattern(digits: u32) -> [bool; 5] {
    let digit = |place: u32| digits >> place & 1 == 1;
    [digit(0), digit(1), digit(2), digit(3), digit(4)]
}

// Where a walk for a chunk takes the first that it gets, the first yes ends it: how many were evicted, passed, and are left, and
// the class's last event. Where no answer is yes it is the last move of the juggling.
fn plain_walk(yes: [bool; 5]) -> ((u64, u64, u64), &'static str) {
    match yes {
        [true, ..] => ((1, 0, 5), "evicts 0 past [] at 6"),
        [_, true, ..] => ((1, 1, 5), "evicts 1 past [0] at 6"),
        [_, _, true, ..] => ((1, 2, 5), "evicts 2 past [0, 1] at 6"),
        [_, _, _, true, _] => ((1, 3, 5), "evicts 3 past [0, 1, 2] at 6"),
        [_, _, _, _, true] => ((1, 4, 5), "evicts 4 past [0, 1, 2, 3] at 6"),
        _ => (
            (0, 5, 6),
            "moves 4 from Hot to Cold for Over(6) past [] at 6",
        ),
    }
}

fn asserts_last<R: Abort>(rt: &R, world: &World, last: &str, digits: u32) -> Result<(), Fail> {
    let told = tell_seen(world.alloc, &world.class, &world.stripe, LastOfClass)?;
    assert_eq!(rt; told.as_str(), last, "at {digits}");
    Ok(())
}

fn check_walk<R: Abort>(rt: &R, world: &mut World, digits: u32) -> Result<(), Fail> {
    let yes = pattern(digits);
    let (counts, last) = plain_walk(yes);
    let pulled = evict(world, 1000, &yes)?.expect(rt, "a walk");
    let got = (pulled.evicted, pulled.passed, world.class.count());
    assert_eq!(rt; got, counts, "at {digits}");
    assert_eq!(rt; (pulled.reclaimed, pulled.moved), (0, 0), "at {digits}");
    asserts_last(rt, world, last, digits)
}

fn walk_by<R: Abort + RandomSource>(rt: &R, alloc: Global, digits: u32) -> Result<(), Fail> {
    let mut world = six(rt, alloc, SIX.as_slice())?;
    check_walk(rt, &mut world, digits)
}

#[test]
fn each_answer_ends_a_walk_or_lets_it_go_on(rt: HostRuntime) -> Result<(), Fail> {
    for digits in 0..32 {
        walk_by(&rt, rt.alloc(), digits)?;
    }
    Ok(())
}

// The numbers from 0 to 4 that have this answer.
fn with_answer(alloc: Global, yes: [bool; 5], answer: bool) -> Result<Vec<u64>, Fail> {
    let mut numbers = Vec::new(alloc);
    for (number, had) in yes.into_iter().enumerate() {
        if had == answer {
            numbers.push(number as u64)?;
        }
    }
    Ok(numbers)
}

// By a survey the dead are reclaimed and the walk goes on: those whose stripe isn't lent stay, in their order.
fn check_pull<R: Abort>(rt: &R, world: &mut World, digits: u32) -> Result<(), Fail> {
    let yes = pattern(digits);
    let pulled = pull(world, 1001, &yes)?.expect(rt, "a walk");
    let rest = with_answer(world.alloc, yes, false)?;
    let cold = numbers(world.alloc, &world.class, Cold)?;
    let passed = rest.len() as u64;
    let wanted = (5_u64.saturating_sub(passed), passed);
    assert_eq!(rt; (pulled.reclaimed, pulled.passed), wanted, "at {digits}");
    assert_eq!(rt; cold.as_slice(), rest.as_slice(), "at {digits}");
    Ok(())
}

fn pull_by<R: Abort + RandomSource>(rt: &R, alloc: Global, digits: u32) -> Result<(), Fail> {
    let mut world = six(rt, alloc, SIX_AND_FIVE_DIE.as_slice())?;
    check_pull(rt, &mut world, digits)
}

#[test]
fn the_dead_go_by_all_answers(rt: HostRuntime) -> Result<(), Fail> {
    for digits in 0..32 {
        pull_by(&rt, rt.alloc(), digits)?;
    }
    Ok(())
}
