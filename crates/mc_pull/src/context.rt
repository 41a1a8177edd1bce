//! What the steps of one call share.
use mc_item::Config;
use mc_stripe::Turn;

/// What is fixed for the steps of one call: who makes the call and its time, and the configuration of the store.
#[derive(Clone, Copy)]
pub struct Context<'a> {
    pub turn: Turn,
    pub config: &'a Config,
}
