//! Steps on a stripe and classes under their locks. Before each step the views of stripe and classes are synced. After it the
//! board gets the new events, and the views are synced again.
ghost use Rattle.std.specs.Prelude.{ℕ, ◌≡◌, ◌≤◌, ◌<◌, ◌∷◌, [], true, false, ◌++◌, IfOk, OnErr, IsErrOf, length};
ghost use Rattle.mc_item.specs.declared.fault.Fault.TheVariants.{HistoryFull};
ghost use Rattle.mc_evidence.specs.Seen.{classes_seen};
ghost use Rattle.mc_rule.specs.Lists.{IsFull};
ghost use Rattle.mc_segment.specs.ClassCalls.{Makes, Stays, refused_event};
ghost use Rattle.mc_board.specs.Histories.{Grows, list_at};
ghost use Rattle.mc_pull.specs.Agreeing.{AgreeNow};
ghost use Rattle.mc_store.specs.{Callers.IsUnanswered, Callers.answered_at, Callers.calls_told, Locked.HasBegunSearch, Locked.caller_place};
ghost use Rattle.mc_store.specs.{Accounts.IsOfStretch, Accounts.StillCalls, Accounts.stretch_of, Searches.HasSeenOf, Sides.class_told, Sides.stripe_sight};

use crate::caller::Caller;
use crate::locked::{LockedClass, LockedStripe};
use crate::named::Named;
use mc_board::{Board, Seen};
use mc_item::{Fault, Who};
use mc_stripe::StripeState;

// Syncs the views of a stripe and a class: each has then seen the other's whole history, and the histories agree.
#[inline(always)]
pub(crate) fn meet<N: Named>(board: &Board, own: &mut LockedStripe<N>, lent: &mut LockedClass<N>)
    requires board { board.now ≡ N.board }
    ensures own { own.new ≡ record own.old { sight = own.new.sight } }
    ensures lent { lent.new ≡ record lent.old { sight = lent.new.sight } }
    ensures met { AgreeNow lent.new.class own.new.stripe }
    ensures grows { Grows own.old.sight own.new.sight }
    ensures told { list_at own.new.sight.seen lent.old.lock ≡ class_told lent.old.class.history }
    ensures heard { classes_seen N.config.stripes (list_at own.new.sight.seen) lent.old.class.number ≡ lent.old.class.history }
{
    own.side.hear(board, &mut lent.side);
    lent.side.hear(board, &mut own.side);
}

// Adds a refusal to a full class's history, and returns its place there. The class learns of the call from the stripe, and the stripe
// of the refusal.
#[inline(never)]
pub(crate) fn refuse<N: Named>(
    board: &Board,
    own: &mut LockedStripe<N>,
    lent: &mut LockedClass<N>,
    who: Who,
    caller: &mut Caller<N>,
) -> Result<u64, Fault>
    requires board { board.now ≡ N.board }
    requires begun { ((moment : ℕ) × HasBegunSearch N.config own.old.sight who moment) × (who.caller ≡ caller.old.number) }
    requires full { IsFull lent.old.class.chunks lent.old.class.history }
    ensures refused { IfOk result (λ place. (place ≡ length lent.old.class.history) × Makes lent.old.class lent.new.class (refused_event who)) }
    ensures err { OnErr result (Stays lent.old.class lent.new.class) }
    ensures own { (own.new ≡ record own.old { sight = own.new.sight }) × Grows own.old.sight own.new.sight
        × HasSeenOf N.config own.new.sight lent.old.class.number lent.new.class.history }
    ensures still { StillCalls (IsOfStretch N.config lent.old.class.number (stretch_of lent.old.class lent.new.class)) who.turn (stripe_sight own.old)
        (stripe_sight own.new) caller.old caller.new }
    ensures full { IsErrOf result HistoryFull → lent.new.class.max_events ≤ length lent.new.class.history }
{
    let place = lent.side.state.refuse(who);
    lent.side.state.law();
    caller.catch_up_class(board, who, &lent.side.state, &mut lent.side.owner);
    lent.side.learn(board, &mut own.side);
    own.side.hear(board, &mut lent.side);
    place
}

// If a command was answered, its caller notes where in the stripe's history, and the stripe sees that.
#[inline(always)]
pub(crate) fn note_if<N: Named>(
    board: &Board,
    caller: &mut Caller<N>,
    state: &StripeState,
    seen: &mut Seen,
    place: u64,
    done: bool,
)
    requires board { (board.now ≡ N.board) × (seen.old.board ≡ N.board.table) }
    requires last { IsUnanswered caller.old.calls }
    ensures board { seen.new.board ≡ seen.old.board }
    ensures grows { Grows seen.old.sight seen.new.sight }
    ensures of { done ≡ true → caller.old.number < N.config.callers }
    ensures told { done ≡ true → list_at seen.new.sight.seen (caller_place N.config caller.old.number) ≡ calls_told caller.new.calls }
    ensures noted { done ≡ true → caller.new ≡ record caller.old { calls = caller.old.calls ++ answered_at state.now.site.stripe place ∷ [] } }
    ensures unnoted { done ≡ false → caller.new ≡ caller.old }
{
    if done {
        caller.note(board, state.number(), place, seen);
    }
}
