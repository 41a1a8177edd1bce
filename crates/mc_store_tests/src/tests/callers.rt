//! Callers of a shared store: what each can know without a lock, and how many answered commands name each. With four stripes
//! `a` is of stripe 0 and `b` of stripe 1.
use super::asking::Ask::{Get, Store as Put};
use super::ends::{End, Ended};
use super::opening::four_stripes;
use super::running::Act::{Callers, Juggle, OfClass, OfStripe, On, Places, Turn, Visit};
use super::running::{Row, check_script};
use mc_item::Verb::Set;

// Two of three callers make commands by turns, and the third juggles. The only entry was read three times, so that it is active:
// it goes from HOT to WARM, and from there, where the limit is below its bytes, to COLD.
static BY_TURNS: [Row; 12] = [
    (0, 1000, On(b'a', Put(Set, 0, "1")), "Stored"),
    (0, 1000, On(b'a', Get), "0 1"),
    (0, 1000, On(b'b', Get), "Miss"),
    (1, 1000, On(b'a', Put(Set, 0, "1")), "Stored"),
    (1, 1000, On(b'a', Get), "0 1"),
    (1, 1000, On(b'b', Get), "Miss"),
    (1, 1000, On(b'a', Get), "0 1"),
    (1, 1000, On(b'b', Get), "Miss"),
    (1, 1000, On(b'a', Get), "0 1"),
    (1, 1000, On(b'b', Get), "Miss"),
    (2, 1000, Juggle(1), "reclaimed 0, moved 2"),
    (0, 1000, On(b'a', Put(Set, 0, "1")), "Stored"),
];

static NAMED: [Ended; 3] = [(End::Named(0), 4), (End::Named(1), 7), (End::Named(2), 0)];

// As many answered commands name a caller as its pass was answered.
#[test]
fn commands_are_named_for_who_made_them(rt: HostRuntime) {
    let alloc = rt.alloc();
    let config = four_stripes(&rt, alloc);
    check_script(&rt, alloc, config, BY_TURNS.as_slice(), NAMED.as_slice());
}

// Each caller's next turn is its first one, and no stripe or class has an event.
static NEW: [Row; 14] = [
    (0, 1000, Callers, "3"),
    (0, 1000, Turn, "0 0"),
    (1, 1000, Turn, "1 0"),
    (2, 1000, Turn, "2 0"),
    (2, 1000, OfStripe(0), "0"),
    (2, 1000, OfStripe(1), "0"),
    (2, 1000, OfStripe(2), "0"),
    (2, 1000, OfStripe(3), "0"),
    (2, 1000, OfClass(1), "0"),
    (2, 1000, OfClass(2), "0"),
    (2, 1000, Visit(0), "0"),
    (2, 1000, Visit(1), "0"),
    (2, 1000, Visit(2), "0"),
    (2, 1000, Visit(3), "0"),
];

static EMPTY: [Ended; 6] = [
    (End::OfStripe(0), 0),
    (End::OfStripe(1), 0),
    (End::OfStripe(2), 0),
    (End::OfStripe(3), 0),
    (End::OfClass(1), 0),
    (End::OfClass(2), 0),
];

#[test]
fn a_store_opens_is_looked_at_and_closes(rt: HostRuntime) {
    let alloc = rt.alloc();
    let config = four_stripes(&rt, alloc);
    check_script(&rt, alloc, config, NEW.as_slice(), EMPTY.as_slice());
}

// A get of an absent key is one event of its stripe. The caller who counts has made no call.
static OF_ANOTHER: [Row; 8] = [
    (1, 1000, OfStripe(0), "0"),
    (0, 1000, On(b'a', Get), "Miss"),
    (1, 1000, OfStripe(0), "1"),
    (1, 1000, OfStripe(1), "0"),
    (1, 1000, Visit(0), "1"),
    (1, 1000, Visit(1), "0"),
    (1, 1000, Turn, "1 0"),
    (0, 1000, Turn, "0 1"),
];

#[test]
fn a_second_pass_counts_a_first_ones_command(rt: HostRuntime) {
    let alloc = rt.alloc();
    let config = four_stripes(&rt, alloc);
    check_script(&rt, alloc, config, OF_ANOTHER.as_slice(), &[]);
}

// A pass has a place for each answered command: the turn, the stripe, and the place of its event there. Juggling takes a turn,
// and has no place.
static PLACED: [Row; 7] = [
    (0, 1000, On(b'a', Put(Set, 0, "1")), "Stored"),
    (0, 1000, On(b'a', Get), "0 1"),
    (0, 1000, Places, "0 0 0;1 0 1;"),
    (0, 1000, Juggle(1), "reclaimed 0, moved 1"),
    (0, 1000, On(b'b', Get), "Miss"),
    (0, 1000, Places, "0 0 0;1 0 1;3 1 0;"),
    (1, 1000, Places, ""),
];

#[test]
fn a_pass_has_the_places_of_its_commands(rt: HostRuntime) {
    let alloc = rt.alloc();
    let config = four_stripes(&rt, alloc);
    check_script(&rt, alloc, config, PLACED.as_slice(), &[]);
}

// A store that lets its histories go has no place to show.
static LET_GO: [Row; 2] = [(0, 1000, On(b'a', Get), "Miss"), (0, 1000, Places, "")];

#[test]
fn no_place_is_kept_where_histories_are_let_go(rt: HostRuntime) {
    let alloc = rt.alloc();
    let mut config = four_stripes(&rt, alloc);
    config.keeps_events = false;
    check_script(&rt, alloc, config, LET_GO.as_slice(), &[]);
}
