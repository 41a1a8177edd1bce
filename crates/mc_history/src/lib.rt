//! A history: a list of events that only grows. Events are kept in pieces, so that growing copies none, or are only counted.
#![tactic(auto)]

mod ghost_list;
mod history;
mod let_go;
mod pieces;

pub use ghost_list::GhostList;
pub use history::{History, Shows};
