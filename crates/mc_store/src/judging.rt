//! Judging one entry with its key's stripe, both under locks.
ghost use Rattle.std.specs.Prelude.{◌≡◌, ◌≤◌, Some, IfErr, IfOk, MatchResult, length};
ghost use Rattle.mc_segment.specs.ClassState.{with_room};
ghost use Rattle.mc_pull.specs.{Question.question_of, Walker.walker_of};
ghost use Rattle.mc_store.specs.Serving.{MayFailSeen};
ghost use Rattle.mc_store.specs.Walking.{IsJudgedUnder, LeavesJudged, MayJudgeUnder, StillWalksFrom};

use crate::caller::Caller;
use crate::locked::LockedStripe;
use crate::named::Named;
use mc_board::{Board, Owner, Seen};
use mc_item::Fault;
use mc_pull::{Judged, Look};

// Judges the entry of a look with its key's stripe, whose lock is held, and returns what was done. The tokens of the entry's class are lent apart from the
// class. Syncs the views of class and stripe before and after, also after a fault. The events are of the caller's call, and its
// account gains only events of these two.
pub(crate) fn judge<N: Named>(
    board: &Board,
    stripe: &mut LockedStripe<N>,
    caller: &mut Caller<N>,
    owner: &mut Owner,
    seen: &mut Seen,
    look: &mut Look<'_>,
) -> Result<Judged, Fault>
    requires board { board.now ≡ N.board }
    requires look { MayJudgeUnder N.board.table N.config caller.old owner.old seen.old look.old stripe.old.sight }
    ensures same_reference { look.new.class.ghost_name ≡ look.old.class.ghost_name }
    ensures still { (length owner.old.history ≤ length owner.new.history) × StillWalksFrom N.config look.old.class.now.number (length owner.old.history)
        look.old.ask.who.turn seen.old.sight seen.new.sight look.old.class.now.history look.new.class.now.history caller.old caller.new }
    ensures noted { IfOk result (λ judged. look.new.done ≡ Some judged.done) }
    ensures judged { MatchResult result (IsJudgedUnder N.config stripe.old.stripe (question_of look.old.ask) look.old.class.now look.new.class.now)
        (λ fault. look.new.class.now ≡ with_room look.old.class.now look.new.class.now.room) }
    ensures left { LeavesJudged N.board.table N.config (walker_of look.old.class.now look.old.ask.who look.old.ask.moment) seen.old.sight stripe.old.stripe
        owner.new seen.new look.new.class.now stripe.new.stripe }
    ensures fault { IfErr result (MayFailSeen N.config seen.new.sight look.new.class.now) }
{
    let who = look.ask.who;
    caller.catch_up_class(board, who, look.class, owner);
    owner.tell(board, &mut stripe.side.seen);
    stripe.side.tell(board, seen);
    let settled = look.settle(&mut stripe.side.state);
    look.class.law();
    stripe.side.state.history();
    caller.catch_up_stripe(board, who, &stripe.side.state, &mut stripe.side.owner);
    caller.catch_up_class(board, who, look.class, owner);
    owner.tell(board, &mut stripe.side.seen);
    stripe.side.tell(board, seen);
    settled
}
