//! One stripe: its items, and the history from which they follow. Nothing here locks.
#![tactic(auto)]

mod attempting;
mod changing;
mod counting;
mod deleting;
mod fate;
mod forgetting;
mod getting;
mod huge;
mod joining;
mod putting;
mod shown;
mod state;
mod touching;
mod trying;
mod waking;
mod wanting;

pub use fate::Fate;
pub use shown::ShownStripe;
pub use state::StripeState;
pub use trying::{Done, Turn};
pub use waking::a_woken_link_is_of_an_item_made_active;
pub use wanting::{Classes, Given, Home, Other, Want};
