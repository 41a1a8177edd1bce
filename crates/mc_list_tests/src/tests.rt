//! What the tests share: the one who calls, and the assertion of a row.
mod class_events;
mod class_lists;
mod deeds;
mod growing_histories;
mod histories_in_pieces;
mod queued_hits;
mod rows;
mod walks;

use mc_item::Who;
use std::process::Abort;

const WHO: Who = Who { caller: 0, turn: 0 };

// Ends the test where the row at a place tells something else.
fn same<R: Abort>(rt: &R, got: &str, wanted: &str, place: usize) {
    assert_eq!(rt; got, wanted, "at row {place}");
}
