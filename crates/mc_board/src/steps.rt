//! The kinds of step on the board's table: what each ensures, and how views are split and joined.
use crate::naming::{NamesEvents, NamesSpan};
use crate::rule::View;
use atomic_table::{Join, Play, Split};
use std::marker::PhantomData;

/// Add: an owner adds events to its history.
pub(crate) struct Adds<N: NamesEvents> {
    of: PhantomData<N>,
}

impl<N: NamesEvents> Play<(), View> for Adds<N> {
    ghost use Rattle.mc_board.specs.Writing.{Added};

    ghost then = { Added N.entries };
}

/// Begin: an owner is about to change figures.
pub(crate) struct Begins;

impl Play<(), View> for Begins {
    ghost use Rattle.mc_board.specs.Writing.{Begun};

    ghost then = { Begun };
}

/// Write: an owner changes one figure.
pub(crate) struct Writes;

impl Play<(), View> for Writes {
    ghost use Rattle.mc_board.specs.Writing.{Wrote};

    ghost then = { Wrote };
}

/// End: an owner adds the events whose figures it has written to its history.
pub(crate) struct Ends<N: NamesEvents> {
    of: PhantomData<N>,
}

impl<N: NamesEvents> Play<(), View> for Ends<N> {
    ghost use Rattle.mc_board.specs.Writing.{Ended};

    ghost then = { Ended N.entries };
}

/// Open: a token notes the length of the lock's history, and is about to read its figures.
pub(crate) struct OpensLook;

impl Play<(), View> for OpensLook {
    ghost use Rattle.mc_board.specs.{Looking.Opened, Views.lock_of};

    ghost then = { λ step. Opened (lock_of step.word) step };
}

/// Read: a token reads one figure.
pub(crate) struct ReadsOne;

impl Play<(), View> for ReadsOne {
    ghost use Rattle.mc_board.specs.Looking.{Read};

    ghost then = { Read };
}

/// Check: a token notes the figures that it has read, if they are of one moment.
pub(crate) struct Checks;

impl Play<(), View> for Checks {
    ghost use Rattle.mc_board.specs.Looking.{Checked};

    ghost then = { Checked };
}

/// An owner compares what a token showed it with its own history.
pub(crate) struct Compares;

impl Play<(), View> for Compares {
    ghost use Rattle.mc_board.specs.Steps.{Compared};

    ghost then = { Compared };
}

/// A token compares what another token showed it with what it has seen itself.
pub(crate) struct Meets;

impl Play<(), View> for Meets {
    ghost use Rattle.mc_board.specs.Steps.{Met};

    ghost then = { Met };
}

/// A token learns what another token showed it.
pub(crate) struct Learns;

impl Play<(), View> for Learns {
    ghost use Rattle.mc_board.specs.Learning.{Learned};

    ghost then = { Learned };
}

/// The root gives out a token that has seen nothing.
pub(crate) struct Opens;

impl Split<View> for Opens {
    ghost use Rattle.mc_board.specs.Steps.{newcomer};

    ghost left = { λ v. v };

    ghost right = { λ _. newcomer };
}

/// The root gives out the next owner.
pub(crate) struct Deals;

impl Split<View> for Deals {
    ghost use Rattle.mc_board.specs.Steps.{root_after, next_owner};

    ghost left = { root_after };

    ghost right = { next_owner };
}

/// A token splits off a second one, which has seen and noted the same.
pub(crate) struct Copies;

impl Split<View> for Copies {
    ghost use Rattle.mc_board.specs.Steps.{copy_of};

    ghost left = { λ v. v };

    ghost right = { copy_of };
}

/// An owner gives out a token that has seen what the owner was shown, and the owner's whole history.
pub(crate) struct Tells;

impl Split<View> for Tells {
    ghost use Rattle.mc_board.specs.Steps.{told_of};

    ghost left = { λ v. v };

    ghost right = { told_of };
}

/// A token's copy is joined into an owner or another token, which is thereby shown what the copy has seen.
pub(crate) struct Hears;

impl Join<View> for Hears {
    ghost use Rattle.mc_board.specs.Steps.{hearing};
    ghost use Rattle.mc_board.specs.declared.rule.View.TheVariants.{Spent};

    ghost both = { hearing };

    ghost spent = { Spent };
}

/// A caller's owner enters events in the caller's account, and gives out a copy of the account.
pub(crate) struct Enters<N: NamesSpan> {
    of: PhantomData<N>,
}

impl<N: NamesSpan> Split<View> for Enters<N> {
    ghost use Rattle.mc_board.specs.Steps.{entered, entered_copy};

    ghost left = { entered N.span };

    ghost right = { entered_copy N.span };
}

/// A copy of an account is joined into an owner, which is thereby shown it.
pub(crate) struct ShowsAccount;

impl Join<View> for ShowsAccount {
    ghost use Rattle.mc_board.specs.Steps.{showing};
    ghost use Rattle.mc_board.specs.declared.rule.View.TheVariants.{Spent};

    ghost both = { showing };

    ghost spent = { Spent };
}

/// Two owners of one lock would be joined into a view that no seat has.
pub(crate) struct Clashes;

impl Join<View> for Clashes {
    ghost use Rattle.mc_board.specs.Steps.{no_view};
    ghost use Rattle.mc_board.specs.declared.rule.View.TheVariants.{Spent};

    ghost both = { λ _ _. no_view };

    ghost spent = { Spent };
}

/// A step that no seat can make.
pub(crate) struct Never;

impl Play<(), View> for Never {
    ghost use Rattle.mc_board.specs.Steps.{NeverHappens};

    ghost then = { NeverHappens };
}
