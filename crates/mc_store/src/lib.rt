//! The shared store: stripes and slab classes, each under a lock of its own, and what callers can know of them without it.
#![tactic(auto)]

mod answering;
mod caller;
mod closing;
mod commands;
mod comparing;
mod crawling;
mod final_store;
mod gates;
mod held;
mod judging;
mod juggling;
mod laws;
mod limiting;
mod lock_no;
mod locked;
mod looking;
mod named;
mod offering;
mod opening;
mod owned_class;
mod owned_stripe;
mod pairing;
mod pass;
mod placed;
mod shelf;
mod store;
mod taking;
mod task;
mod tokens;
mod trying;
mod walking;

pub use final_store::Final;
pub use laws::{
    a_closed_store_bears_out_each_reply, a_closed_store_bears_out_figures,
    a_turn_of_a_closed_store_is_answered_once, a_turn_that_failed_is_not_answered,
    between_commands_a_closed_store_only_lost, each_class_event_of_a_closed_store_was_called,
    each_event_of_a_closed_store_was_called, each_loss_of_a_closed_store_was_called_for,
};
pub use lock_no::LockNo;
pub use named::Named;
pub use pass::Pass;
pub use placed::Placed;
pub use store::Store;
pub use taking::MOST_HITS;
pub use tokens::Tokens;
