//! Queues of hits, one for each slab class. A queue is used without the class's lock.
#![tactic(auto)]

mod hand;
mod hands;
mod hits;
mod queues;
mod rule;
mod steps;

pub use hands::Hands;
pub use queues::Queues;
pub use rule::{Held, Hit, Law, Root, View};
