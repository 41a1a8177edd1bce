//! Hits that wait in the queue of their class until it is juggled, worked out by hand. The items cost 66 bytes each and are of
//! class 1. HOT may have a fifth of the bytes of two and WARM two fifths, so juggling moves both to COLD. With four stripes `a`
//! is of stripe 0 and `b` of stripe 1.
use super::asking::Ask::{Delete, Gat, Get, Store as Put, Touch};
use super::ends::{End, Ended};
use super::opening::two_classes;
use super::running::Act::{Juggle, On};
use super::running::{Row, check_script};
use mc_item::Verb::Set;
use std::alloc::Global;
use std::process::Abort;
use std::random::RandomSource;
use std::sync::Wait;

static MOVED_BY_ONE: [Ended; 1] = [(End::ByHits(1), 1)];

static MOVED_BY_TWO: [Ended; 1] = [(End::ByHits(1), 2)];

static MOVED_BY_NONE: [Ended; 1] = [(End::ByHits(1), 0)];

// Runs rows on a store with free chunks.
fn check<R: Abort + Wait + RandomSource>(rt: &R, alloc: Global, rows: &[Row], ends: &[Ended]) {
    let config = two_classes(rt, alloc, 4, [8, 8], 3);
    check_script(rt, alloc, config, rows, ends);
}

// The second get makes `a` active. Its hit moves it to WARM, and from there, over the limit, it goes to COLD.
static IN_COLD: [Row; 7] = [
    (0, 1000, On(b'a', Put(Set, 0, "1")), "Stored"),
    (0, 1000, On(b'b', Put(Set, 0, "2")), "Stored"),
    (2, 1000, Juggle(1), "reclaimed 0, moved 2"),
    (0, 1000, On(b'a', Get), "0 1"),
    (0, 1000, On(b'a', Get), "0 1"),
    (2, 1000, Juggle(1), "reclaimed 0, moved 1"),
    (2, 1000, Juggle(1), "reclaimed 0, moved 0"),
];

#[test]
fn a_hit_moves_its_entry_from_cold_when_the_class_is_juggled(rt: HostRuntime) {
    check(&rt, rt.alloc(), IN_COLD.as_slice(), MOVED_BY_ONE.as_slice());
}

// The same by a gat, which is a hit as a get is.
static BY_GAT: [Row; 7] = [
    (0, 1000, On(b'a', Put(Set, 0, "1")), "Stored"),
    (0, 1000, On(b'b', Put(Set, 0, "2")), "Stored"),
    (2, 1000, Juggle(1), "reclaimed 0, moved 2"),
    (0, 1000, On(b'a', Gat(9)), "0 1"),
    (0, 1000, On(b'a', Gat(9)), "0 1"),
    (2, 1000, Juggle(1), "reclaimed 0, moved 1"),
    (2, 1000, Juggle(1), "reclaimed 0, moved 0"),
];

#[test]
fn a_gat_moves_its_entry_as_a_get_does(rt: HostRuntime) {
    check(&rt, rt.alloc(), BY_GAT.as_slice(), MOVED_BY_ONE.as_slice());
}

// The active entry goes from HOT to WARM by the walk of HOT, and then to COLD.
static IN_HOT: [Row; 4] = [
    (0, 1000, On(b'a', Put(Set, 0, "1")), "Stored"),
    (0, 1000, On(b'a', Get), "0 1"),
    (0, 1000, On(b'a', Get), "0 1"),
    (2, 1000, Juggle(1), "reclaimed 0, moved 2"),
];

#[test]
fn a_hit_in_hot_moves_nothing(rt: HostRuntime) {
    check(&rt, rt.alloc(), IN_HOT.as_slice(), MOVED_BY_NONE.as_slice());
}

// The item was deleted before its class is juggled, and `b` stays at COLD's tail.
static DELETED: [Row; 7] = [
    (0, 1000, On(b'a', Put(Set, 0, "1")), "Stored"),
    (0, 1000, On(b'b', Put(Set, 0, "2")), "Stored"),
    (2, 1000, Juggle(1), "reclaimed 0, moved 2"),
    (0, 1000, On(b'a', Get), "0 1"),
    (0, 1000, On(b'a', Get), "0 1"),
    (1, 1000, On(b'a', Delete), "Deleted"),
    (2, 1000, Juggle(1), "reclaimed 0, moved 0"),
];

// The item was replaced: the new one has another number, and goes from HOT, over the limit, to COLD.
static REPLACED: [Row; 8] = [
    (0, 1000, On(b'a', Put(Set, 0, "1")), "Stored"),
    (0, 1000, On(b'b', Put(Set, 0, "2")), "Stored"),
    (2, 1000, Juggle(1), "reclaimed 0, moved 2"),
    (0, 1000, On(b'a', Get), "0 1"),
    (0, 1000, On(b'a', Get), "0 1"),
    (1, 1000, On(b'a', Put(Set, 0, "3")), "Stored"),
    (2, 1000, Juggle(1), "reclaimed 0, moved 1"),
    (0, 1000, On(b'a', Get), "0 3"),
];

// The item is dead by a touch, and the walk of COLD, at whose tail it is, reclaims it.
static DEAD: [Row; 8] = [
    (0, 1000, On(b'a', Put(Set, 0, "1")), "Stored"),
    (0, 1000, On(b'b', Put(Set, 0, "2")), "Stored"),
    (2, 1000, Juggle(1), "reclaimed 0, moved 2"),
    (0, 1000, On(b'a', Get), "0 1"),
    (0, 1000, On(b'a', Get), "0 1"),
    (1, 1000, On(b'a', Touch(-1)), "Touched"),
    (2, 1000, Juggle(1), "reclaimed 1, moved 0"),
    (0, 1000, On(b'a', Get), "Miss"),
];

#[test]
fn a_hit_of_an_item_that_is_no_more_moves_nothing(rt: HostRuntime) {
    check(
        &rt,
        rt.alloc(),
        DELETED.as_slice(),
        MOVED_BY_NONE.as_slice(),
    );
    check(
        &rt,
        rt.alloc(),
        REPLACED.as_slice(),
        MOVED_BY_NONE.as_slice(),
    );
    check(&rt, rt.alloc(), DEAD.as_slice(), MOVED_BY_NONE.as_slice());
}

// The second caller's get makes `a` active, and the first one's next get changes no mark. The move clears the mark, so that the
// first caller's hit makes it active again, and that moves it once more.
static BY_TURNS: [Row; 11] = [
    (0, 1000, On(b'a', Put(Set, 0, "1")), "Stored"),
    (0, 1000, On(b'b', Put(Set, 0, "2")), "Stored"),
    (2, 1000, Juggle(1), "reclaimed 0, moved 2"),
    (0, 1000, On(b'a', Get), "0 1"),
    (1, 1000, On(b'a', Get), "0 1"),
    (0, 1000, On(b'a', Get), "0 1"),
    (2, 1000, Juggle(1), "reclaimed 0, moved 1"),
    (0, 1000, On(b'a', Get), "0 1"),
    (1, 1000, On(b'a', Get), "0 1"),
    (2, 1000, Juggle(1), "reclaimed 0, moved 1"),
    (2, 1000, Juggle(1), "reclaimed 0, moved 0"),
];

#[test]
fn hits_of_two_callers_move_an_entry_each(rt: HostRuntime) {
    check(
        &rt,
        rt.alloc(),
        BY_TURNS.as_slice(),
        MOVED_BY_TWO.as_slice(),
    );
}
