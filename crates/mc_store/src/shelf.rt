//! The memory that closing a store needs. A token of the board can be sent to another thread but not shared between threads, so
//! the shelf has a lock of its own.
ghost use Rattle.std.specs.Prelude.{◌≡◌, ◌≤◌, [], length, vec_capacity};

use crate::named::Named;
use crate::owned_class::OwnedClass;
use crate::owned_stripe::OwnedStripe;
use std::marker::PhantomData;

/// Empty vectors with room for all stripes and classes of a store.
#[derive(Drop)]
pub(crate) struct Shelf<N: Named> {
    pub(crate) stripes: Vec<OwnedStripe>,
    pub(crate) classes: Vec<OwnedClass>,
    pub(crate) of: PhantomData<N>,
    ghost empty: { (stripes.items ≡ []) × (classes.items ≡ []) },
    ghost room: { (N.config.stripes ≤ vec_capacity stripes) × (length N.config.sizes ≤ vec_capacity classes) },
}
