//! The locks of a store.
use mc_item::{ClassNo, StripeNo};

/// The lock of a stripe or of a class, by its number.
#[derive(Clone, Copy)]
pub enum LockNo {
    Stripe(StripeNo),
    Class(ClassNo),
}
