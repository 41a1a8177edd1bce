//! The crawler's parts. `snapshot` takes the links of all entries of a class. `crawl_one` looks at one of them, removes a dead
//! item, and counts what it found in a histogram. Nothing here locks.
#![tactic(auto)]

mod crawling;
mod kind;
mod laws;
mod lone;
mod snapping;

pub use crawling::crawl_one;
pub use laws::{a_histogram_counts_the_living, kinds_add_up, kinds_go_by_minutes};
pub use lone::crawl_lone;
pub use mc_item::Histogram;
pub use snapping::snapshot;
