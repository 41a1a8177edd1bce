//! What the steps of one call share, and those of one command.
use crate::named::Named;
use crate::store::Store;
use mc_item::Command;
use mc_stripe::Turn;
use std::alloc::Global;

/// What the steps of one call share: the store, and the call's turn.
#[derive_where(Clone, Copy)]
pub(crate) struct Call<'a, N: Named> {
    pub(crate) store: &'a Store<N>,
    pub(crate) turn: Turn,
}

/// One command and what its steps share: the allocator, the store, and the command's turn.
#[derive_where(Clone, Copy)]
pub(crate) struct Task<'a, N: Named> {
    pub(crate) alloc: Global,
    pub(crate) store: &'a Store<N>,
    pub(crate) command: &'a Command,
    pub(crate) turn: Turn,
}
