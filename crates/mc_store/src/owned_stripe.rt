//! A stripe with its tokens of the board: its owner, and what it has seen.
ghost use Rattle.std.specs.Prelude.{◌≡◌, [], length};
ghost use Rattle.mc_board.specs.Histories.{list_at, with_seen, Grows};
ghost use Rattle.mc_store.specs.{Finals.IsBehindAt, Sides.class_told, Sides.stripe_told, Serving.GrowsBut, Serving.IsLater};

use crate::owned_class::OwnedClass;
use mc_board::{Board, Owner, Seen};
use mc_item::StripeNo;
use mc_stripe::StripeState;
use std::marker::Model;

/// A stripe, its history's owner on the board, and a token with what it has seen of all locks. The board has its whole history.
/// The parts can be lent apart: the stripe to a walk, and the tokens to the gate of that walk. The owner catches up afterwards
/// (`Caller::catch_up_stripe`).
#[derive(Drop)]
pub(crate) struct OwnedStripe {
    pub(crate) owner: Owner,
    pub(crate) seen: Seen,
    pub(crate) state: StripeState,
}

impl Model for OwnedStripe {
    ghost use Rattle.std.specs.Prelude.{◌≡◌};
    ghost use Rattle.mc_store.specs.Sides.{StripeSide, stripe_told};

    ghost Value = { StripeSide };

    ghost view = { λ s. record { board = s.owner.board; lock = s.owner.lock; stripe = s.state; sight = s.seen.sight } };

    ghost invariant = { λ s.
        (s.owner.history ≡ stripe_told s.state.history)
        × (s.seen.board ≡ s.owner.board) };
}

impl OwnedStripe {
    // A stripe without events, its owner and its token.
    pub(crate) fn new(state: StripeState, owner: Owner, seen: Seen) -> OwnedStripe
        requires empty { (state.history ≡ []) × (owner.history ≡ []) }
        requires board { seen.board ≡ owner.board }
        ensures { result ≡ record { board = owner.board; lock = owner.lock; stripe = state; sight = seen.sight } }
    {
        OwnedStripe { state, owner, seen }
    }

    // The owner alone.
    pub(crate) fn into_owner(self) -> Owner
        ensures { (result.board ≡ self.board) × (result.lock ≡ self.lock) }
    {
        let OwnedStripe { owner, .. } = self;
        owner
    }

    pub(crate) fn number(&self) -> StripeNo
        ensures { result.0 ≡ self.now.stripe.site.stripe }
    {
        self.state.number()
    }

    // How many events the stripe has had.
    pub(crate) fn events(&self) -> u64
        ensures { result ≡ length self.now.stripe.history }
    {
        self.state.history().len() as u64
    }

    // The stripe, for reading.
    pub(crate) fn state(&self) -> &StripeState
        ensures { result.now ≡ self.now.stripe }
    {
        &self.state
    }

    // Compares the history with a token: it has seen a beginning of it, and noted at most its length. Nothing changes.
    pub(crate) fn compare(&mut self, board: &Board, seen: &mut Seen)
        requires board { (self.old.board ≡ board.now.table) × (seen.old.board ≡ board.now.table) }
        ensures same { (self.new ≡ self.old) × (seen.new ≡ seen.old) }
        ensures behind { IsBehindAt seen.old.sight self.old.lock (stripe_told self.old.stripe.history) }
    {
        self.owner.compare(board, seen);
    }

    // Shows a token the whole history.
    #[inline(always)]
    pub(crate) fn tell(&mut self, board: &Board, seen: &mut Seen)
        requires board { (self.old.board ≡ board.now.table) × (seen.old.board ≡ board.now.table) }
        ensures same { self.new ≡ self.old }
        ensures told { seen.new ≡ record seen.old { sight = with_seen seen.old.sight self.old.lock (stripe_told self.old.stripe.history) } }
        ensures grows { Grows seen.old.sight seen.new.sight }
    {
        self.owner.tell(board, seen);
    }

    // Shows the stripe a class's whole history.
    #[inline(always)]
    pub(crate) fn hear(&mut self, board: &Board, class: &mut OwnedClass)
        requires board { (self.old.board ≡ board.now.table) × (class.old.board ≡ board.now.table) }
        ensures class { class.new ≡ class.old }
        ensures told { self.new ≡ record self.old { sight = with_seen self.old.sight class.old.lock (class_told class.old.class.history) } }
        ensures grows { Grows self.old.sight self.new.sight }
    {
        class.tell(board, &mut self.seen);
    }

    // Shows a token the whole history, and all that the stripe has seen of other locks.
    pub(crate) fn share(&mut self, board: &Board, seen: &mut Seen)
        requires board { (self.old.board ≡ board.now.table) × (seen.old.board ≡ board.now.table) }
        ensures same { self.new ≡ self.old }
        ensures board { seen.new.board ≡ seen.old.board }
        ensures told { list_at seen.new.sight.seen self.old.lock ≡ stripe_told self.old.stripe.history }
        ensures grows { IsLater seen.old.sight seen.new.sight }
        ensures theirs { GrowsBut self.old.lock self.old.sight seen.new.sight }
        ensures all { Grows self.old.sight seen.new.sight }
    {
        seen.learn(board, &mut self.seen);
        self.owner.tell(board, seen);
    }
}
