//! What lies under the locks. Each stripe and class belongs to the board and the configuration that `N` names, and its history is
//! sound by what it has seen of the others.
ghost use Rattle.std.specs.Prelude.{◌≡◌};
ghost use Rattle.mc_board.specs.Histories.{Grows};
ghost use Rattle.mc_store.specs.{Locked.IsLockedClass, Locked.IsLockedStripe, Sides.stripe_sight};

use crate::named::Named;
use crate::owned_class::OwnedClass;
use crate::owned_stripe::OwnedStripe;
use mc_board::{Board, Seen};
use std::marker::{Model, PhantomData};

/// A stripe under its lock.
#[derive(Drop)]
pub(crate) struct LockedStripe<N: Named> {
    pub(crate) side: OwnedStripe,
    of: PhantomData<N>,
}

impl<N: Named> Model for LockedStripe<N> {
    ghost use Rattle.mc_store.specs.{Sides.StripeSide, Locked.IsLockedStripe};

    ghost Value = { StripeSide };

    ghost view = { λ l. l.side };

    ghost invariant = { λ l. IsLockedStripe N.board.table N.config l.side };
}

impl<N: Named> LockedStripe<N> {
    // Wraps a stripe that is as its lock keeps it.
    pub(crate) fn new(side: OwnedStripe) -> LockedStripe<N>
        requires { IsLockedStripe N.board.table N.config side }
        ensures { result ≡ side }
    {
        LockedStripe {
            side,
            of: PhantomData,
        }
    }

    // The stripe, for reading.
    pub(crate) fn side(&self) -> &OwnedStripe
        ensures value { result.now ≡ self.now }
        ensures kept { IsLockedStripe N.board.table N.config self.now }
    {
        &self.side
    }

    // Does nothing. Its contract says what the lock keeps.
    pub(crate) fn law(&self)
        ensures { IsLockedStripe N.board.table N.config self.now }
    {
        let _side = &self.side;
    }

    // The stripe learns all that a token has seen.
    pub(crate) fn learn(&mut self, board: &Board, seen: &mut Seen)
        requires board { (board.now.table ≡ N.board.table) × (seen.old.board ≡ N.board.table) }
        ensures same { seen.new ≡ seen.old }
        ensures stripe { self.new ≡ record self.old { sight = self.new.sight } }
        ensures grows { Grows self.old.sight self.new.sight }
        ensures learnt { Grows seen.old.sight self.new.sight }
    {
        let side = &mut self.side;
        side.seen.learn(board, seen);
    }

    // Unwraps the stripe, which is as its lock kept it.
    pub(crate) fn into_side(self) -> OwnedStripe
        ensures value { result ≡ self }
        ensures kept { IsLockedStripe N.board.table N.config result }
    {
        let LockedStripe { side, of: _ } = self;
        side
    }
}

/// A class under its lock.
#[derive(Drop)]
pub(crate) struct LockedClass<N: Named> {
    pub(crate) side: OwnedClass,
    of: PhantomData<N>,
}

impl<N: Named> Model for LockedClass<N> {
    ghost use Rattle.mc_store.specs.{Sides.ClassSide, Locked.IsLockedClass};

    ghost Value = { ClassSide };

    ghost view = { λ l. l.side };

    ghost invariant = { λ l. IsLockedClass N.board.table N.config l.side };
}

impl<N: Named> LockedClass<N> {
    // Wraps a class that is as its lock keeps it.
    pub(crate) fn new(side: OwnedClass) -> LockedClass<N>
        requires { IsLockedClass N.board.table N.config side }
        ensures { result ≡ side }
    {
        LockedClass {
            side,
            of: PhantomData,
        }
    }

    // The class, for reading.
    pub(crate) fn side(&self) -> &OwnedClass
        ensures value { result.now ≡ self.now }
        ensures kept { IsLockedClass N.board.table N.config self.now }
    {
        &self.side
    }

    // The class learns all that a token has seen.
    pub(crate) fn learn(&mut self, board: &Board, seen: &mut Seen)
        requires board { (board.now.table ≡ N.board.table) × (seen.old.board ≡ N.board.table) }
        ensures same { seen.new ≡ seen.old }
        ensures class { self.new ≡ record self.old { sight = self.new.sight } }
        ensures grows { Grows self.old.sight self.new.sight }
        ensures learnt { Grows seen.old.sight self.new.sight }
    {
        let side = &mut self.side;
        side.seen.learn(board, seen);
    }

    // The class learns a stripe's whole history, and all that the stripe has seen.
    pub(crate) fn learn_from(&mut self, board: &Board, stripe: &mut LockedStripe<N>)
        requires board { board.now.table ≡ N.board.table }
        ensures same { stripe.new ≡ stripe.old }
        ensures class { self.new ≡ record self.old { sight = self.new.sight } }
        ensures grows { Grows self.old.sight self.new.sight }
        ensures learnt { Grows stripe.old.sight self.new.sight }
        ensures heard { Grows (stripe_sight stripe.old) self.new.sight }
    {
        let side = &mut self.side;
        let other = &mut stripe.side;
        side.learn(board, other);
        side.hear(board, other);
    }

    // Unwraps the class, which is as its lock kept it.
    pub(crate) fn into_side(self) -> OwnedClass
        ensures value { result ≡ self }
        ensures kept { IsLockedClass N.board.table N.config result }
    {
        let LockedClass { side, of: _ } = self;
        side
    }
}
