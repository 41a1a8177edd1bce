//! One slab class: its lists HOT, WARM, COLD and TEMP, and the history from which they follow. Nothing here locks.
//! A call that makes an event first checks the history's limit, then reserves memory. If it fails, it has changed nothing but
//! the room.
#![tactic(auto)]

mod arena;
mod ends;
mod leaving;
mod limiting;
mod linking;
mod looks;
mod reading;
mod shifting;
mod shown;
mod slots;
mod state;
mod surveying;

pub use linking::EntryKey;
pub use mc_item::Passed;
pub use shown::ShownClass;
pub use state::ClassState;
pub use surveying::Survey;
