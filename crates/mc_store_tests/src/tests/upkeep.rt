//! A class of a shared store is crawled and juggled: what is counted, worked out by hand.
use super::asking::Ask::{Expiring, Store as Put};
use super::opening::four_stripes;
use super::running::Act::{Crawl, Juggle, On};
use super::running::{Row, check_script};
use mc_item::Verb::Set;

// Of two items one is dead ten seconds later: it is reclaimed, and the other doesn't expire. That one goes from HOT, which may
// hold a fifth of its bytes, to COLD.
static LATER: [Row; 4] = [
    (2, 1000, On(b'a', Expiring(5, "1")), "Stored"),
    (2, 1000, On(b'b', Put(Set, 0, "1")), "Stored"),
    (
        2,
        1010,
        Crawl(1),
        "seen 2, reclaimed 1, no expiry 1, passed 0",
    ),
    (2, 1010, Juggle(1), "reclaimed 0, moved 1"),
];

// A crawl reclaims the dead item, and juggling moves the other.
#[test]
fn a_crawl_reclaims_what_is_dead(rt: HostRuntime) {
    let alloc = rt.alloc();
    let config = four_stripes(&rt, alloc);
    check_script(&rt, alloc, config, LATER.as_slice(), &[]);
}
