//! The board has one growing history for each lock. A lock's one owner adds events, and each token has seen a beginning of them.
//! A history's length, and the figures of its class's lists, can be read without the lock. At run time they are all that is
//! kept, in nine atomic words: the list itself exists in proofs alone.
#![tactic(auto)]

mod board;
mod figures;
mod naming;
mod owner;
mod rule;
mod seen;
mod steps;
mod writing;

pub use board::Board;
pub use figures::{Busy, Figures};
pub use owner::Owner;
pub use rule::{
    Account, Counts, Known, Law, Look, Note, Owned, Reading, Root, Sight, Span, Stage, View,
};
pub use seen::Seen;
