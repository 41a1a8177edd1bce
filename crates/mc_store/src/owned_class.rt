//! A slab class with its tokens of the board: its owner, and what it has seen.
ghost use Rattle.std.specs.Prelude.{◌≡◌, []};
ghost use Rattle.mc_board.specs.Histories.{list_at, with_seen, Grows};
ghost use Rattle.mc_store.specs.{Finals.IsBehindAt, Sides.class_told, Sides.stripe_told, Serving.GrowsBut, Serving.IsLater};

use crate::owned_stripe::OwnedStripe;
use mc_board::{Board, Owner, Seen};
use mc_item::ClassNo;
use mc_segment::ClassState;
use std::marker::Model;

/// A class, its history's owner on the board, and a token with what it has seen of all locks. The board has its whole history.
/// The parts can be lent apart: the class to a walk, and the tokens to the gate of that walk. The owner catches up afterwards
/// (`Caller::catch_up_class`).
#[derive(Drop)]
pub(crate) struct OwnedClass {
    pub(crate) owner: Owner,
    pub(crate) seen: Seen,
    pub(crate) state: ClassState,
}

impl Model for OwnedClass {
    ghost use Rattle.std.specs.Prelude.{◌≡◌};
    ghost use Rattle.mc_store.specs.Sides.{ClassSide, class_told};

    ghost Value = { ClassSide };

    ghost view = { λ s. record { board = s.owner.board; lock = s.owner.lock; class = s.state; sight = s.seen.sight } };

    ghost invariant = { λ s.
        (s.owner.history ≡ class_told s.state.history)
        × (s.seen.board ≡ s.owner.board) };
}

impl OwnedClass {
    // A class without events, its owner and its token.
    pub(crate) fn new(state: ClassState, owner: Owner, seen: Seen) -> OwnedClass
        requires empty { (state.history ≡ []) × (owner.history ≡ []) }
        requires board { seen.board ≡ owner.board }
        ensures { result ≡ record { board = owner.board; lock = owner.lock; class = state; sight = seen.sight } }
    {
        OwnedClass { state, owner, seen }
    }

    // The owner alone.
    pub(crate) fn into_owner(self) -> Owner
        ensures { (result.board ≡ self.board) × (result.lock ≡ self.lock) }
    {
        let OwnedClass { owner, .. } = self;
        owner
    }

    pub(crate) fn number(&self) -> ClassNo
        ensures { result ≡ self.now.class.number }
    {
        self.state.number()
    }

    // The class, for reading.
    pub(crate) fn state(&self) -> &ClassState
        ensures { result.now ≡ self.now.class }
    {
        &self.state
    }

    // Compares the history with a token: it has seen a beginning of it, and noted at most its length. Nothing changes.
    pub(crate) fn compare(&mut self, board: &Board, seen: &mut Seen)
        requires board { (self.old.board ≡ board.now.table) × (seen.old.board ≡ board.now.table) }
        ensures same { (self.new ≡ self.old) × (seen.new ≡ seen.old) }
        ensures behind { IsBehindAt seen.old.sight self.old.lock (class_told self.old.class.history) }
    {
        self.owner.compare(board, seen);
    }

    // Shows a token the whole history.
    #[inline(always)]
    pub(crate) fn tell(&mut self, board: &Board, seen: &mut Seen)
        requires board { (self.old.board ≡ board.now.table) × (seen.old.board ≡ board.now.table) }
        ensures same { self.new ≡ self.old }
        ensures told { seen.new ≡ record seen.old { sight = with_seen seen.old.sight self.old.lock (class_told self.old.class.history) } }
        ensures grows { Grows seen.old.sight seen.new.sight }
    {
        self.owner.tell(board, seen);
    }

    // Shows the class a stripe's whole history.
    #[inline(always)]
    pub(crate) fn hear(&mut self, board: &Board, stripe: &mut OwnedStripe)
        requires board { (self.old.board ≡ board.now.table) × (stripe.old.board ≡ board.now.table) }
        ensures stripe { stripe.new ≡ stripe.old }
        ensures told { self.new ≡ record self.old { sight = with_seen self.old.sight stripe.old.lock (stripe_told stripe.old.stripe.history) } }
        ensures grows { Grows self.old.sight self.new.sight }
    {
        stripe.tell(board, &mut self.seen);
    }

    // The class learns all that a stripe has seen.
    pub(crate) fn learn(&mut self, board: &Board, stripe: &mut OwnedStripe)
        requires board { (self.old.board ≡ board.now.table) × (stripe.old.board ≡ board.now.table) }
        ensures stripe { stripe.new ≡ stripe.old }
        ensures class { self.new ≡ record self.old { sight = self.new.sight } }
        ensures grows { Grows self.old.sight self.new.sight }
        ensures learnt { Grows stripe.old.sight self.new.sight }
    {
        self.seen.learn(board, &mut stripe.seen);
    }

    // Shows a token the whole history, and all that the class has seen of other locks.
    pub(crate) fn share(&mut self, board: &Board, seen: &mut Seen)
        requires board { (self.old.board ≡ board.now.table) × (seen.old.board ≡ board.now.table) }
        ensures same { self.new ≡ self.old }
        ensures board { seen.new.board ≡ seen.old.board }
        ensures told { list_at seen.new.sight.seen self.old.lock ≡ class_told self.old.class.history }
        ensures grows { IsLater seen.old.sight seen.new.sight }
        ensures theirs { GrowsBut self.old.lock self.old.sight seen.new.sight }
        ensures all { Grows self.old.sight seen.new.sight }
    {
        seen.learn(board, &mut self.seen);
        self.owner.tell(board, seen);
    }
}
