//! The work of the maintainer and the crawler, over calls that are made up.
use super::noted::keep_up_noted;
use mc_script::{Keeper, Outcome};
use std::alloc::Global;
use std::process::Abort;
use std::sync::Wait;

// A keeper and how many of its calls may go well; then how its work ends, how many calls are the crawler's, and the class and the
// moment of each call.
#[derive(Clone, Copy)]
struct Row {
    keeper: Keeper,
    most: u64,
    outcome: Outcome,
    crawled: u64,
    upkeep: &'static [(u32, u64)],
}

// Three classes at two moments.
const BOTH: &[(u32, u64)] = &[
    (1, 1000),
    (2, 1000),
    (3, 1000),
    (1, 1001),
    (2, 1001),
    (3, 1001),
];

// Ends the test if a keeper did something else.
fn check_row<R: Abort + Wait>(rt: &R, alloc: Global, row: &Row, place: usize) {
    let (outcome, crawled, upkeep) = keep_up_noted(rt, alloc, row.keeper, row.most);
    assert_eq!(rt; outcome, row.outcome, "at row {place}");
    assert_eq!(rt; crawled, row.crawled, "at row {place}");
    assert_eq!(rt; upkeep.as_slice(), row.upkeep, "at row {place}");
}

fn check_rows<R: Abort + Wait>(rt: &R, alloc: Global, rows: &[Row]) {
    for (place, row) in rows.iter().enumerate() {
        check_row(rt, alloc, row, place);
    }
}

static KEPT_UP: [Row; 3] = [
    Row {
        keeper: Keeper::Maintainer,
        most: 99,
        outcome: Outcome::Done,
        crawled: 0,
        upkeep: BOTH,
    },
    Row {
        keeper: Keeper::Crawler,
        most: 99,
        outcome: Outcome::Done,
        crawled: 6,
        upkeep: BOTH,
    },
    Row {
        keeper: Keeper::Crawler,
        most: 4,
        outcome: Outcome::Memory,
        crawled: 4,
        upkeep: &[(1, 1000), (2, 1000), (3, 1000), (1, 1001)],
    },
];

#[test]
fn a_keeper_works_on_all_classes_at_each_moment(rt: HostRuntime) {
    check_rows(&rt, rt.alloc(), KEPT_UP.as_slice());
}
