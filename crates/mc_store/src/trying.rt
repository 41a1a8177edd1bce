//! One try of a command on its stripe and the classes that it has locked. The board gets the command's events first, then the caller
//! notes where it was answered.
ghost use Rattle.std.specs.Prelude.{◌≡◌, ◌≤◌, ◌∷◌, [], None, IfOk, OnErr, IsErrOf, length};
ghost use Rattle.mc_item.specs.declared.fault.Fault.TheVariants.{HistoryFull};
ghost use Rattle.mc_board.specs.Histories.{Grows};
ghost use Rattle.mc_pull.specs.Attempt.{HasRoomFor, MayTryOn};
ghost use Rattle.mc_stripe.specs.StripeCalls.{KeepsSite};
ghost use Rattle.mc_store.specs.{Passes.HasAsked, Trying.IsTriedUnder, Trying.StillTries};
ghost use Rattle.mc_store.specs.Trying as words;

use crate::caller::Caller;
use crate::locked::{LockedClass, LockedStripe};
use crate::named::Named;
use crate::pairing::note_if;
use crate::task::Task;
use mc_item::Fault;
use mc_pull::{Attempt, Tried, attempt_none, attempt_one, attempt_two};
use mc_stripe::Given;

// Whether a try made its command.
#[inline(always)]
fn is_made(tried: &Result<Tried, Fault>) -> bool
    ensures { result ≡ words.is_made tried.now }
{
    matches!(tried, Ok(Tried::Made(_)))
}

// Tries a command once on its stripe alone.
#[inline(always)]
pub(crate) fn try_alone<N: Named>(
    task: Task<'_, N>,
    own: &mut LockedStripe<N>,
    caller: &mut Caller<N>,
) -> Result<Tried, Fault>
    requires asked { HasAsked caller.old task.turn.who task.command.now task.turn.moment }
    requires may { MayTryOn own.old.stripe [] task.command.now task.turn (record { home = None; other = None }) }
    ensures tried { IfOk result (IsTriedUnder N.config own.old own.new caller.old caller.new task.entry.command.now task.entry.turn (record {
      home =
          None;
      other = None;
    }) [] []) }
    ensures err { OnErr result (own.new.stripe.history ≡ own.old.stripe.history) }
    ensures unnoted { OnErr result (StillTries N.config task.entry.turn own.old own.new caller.old caller.new) }
    ensures sees { Grows own.old.sight own.new.sight }
    ensures site { KeepsSite own.old.stripe own.new.stripe }
    ensures full { IsErrOf result HistoryFull → own.new.stripe.limit ≤ length own.new.stripe.history }
{
    let store = task.store;
    let board = &store.board;
    let who = task.turn.who;
    let place = own.side.events();
    let tried = attempt_none(&mut own.side.state, task.command, task.turn);
    own.side.state.history();
    caller.catch_up_stripe(board, who, &own.side.state, &mut own.side.owner);
    note_if(
        board,
        caller,
        &own.side.state,
        &mut own.side.seen,
        place,
        is_made(&tried),
    );
    tried
}

// Tries a command once on its stripe and a class whose views are synced, with what the class offers. Shows the class the call.
#[inline(always)]
pub(crate) fn try_on_one<N: Named>(
    task: Task<'_, N>,
    own: &mut LockedStripe<N>,
    class: &mut LockedClass<N>,
    caller: &mut Caller<N>,
    given: Given,
) -> Result<Tried, Fault>
    requires asked { HasAsked caller.old task.turn.who task.command.now task.turn.moment }
    requires may { MayTryOn own.old.stripe (class.old.class ∷ []) task.command.now task.turn given }
    requires room { HasRoomFor given class.old.class }
    ensures tried { IfOk result (IsTriedUnder N.config own.old own.new caller.old caller.new task.entry.command.now task.entry.turn given
        (class.old ∷ []) (class.new ∷ [])) }
    ensures err { OnErr result ((own.new.stripe.history ≡ own.old.stripe.history)
        × StillTries N.config task.entry.turn own.old own.new caller.old caller.new) }
    ensures sees { Grows own.old.sight own.new.sight }
    ensures site { KeepsSite own.old.stripe own.new.stripe }
    ensures full { IsErrOf result HistoryFull → own.new.stripe.limit ≤ length own.new.stripe.history }
{
    let store = task.store;
    let board = &store.board;
    let who = task.turn.who;
    let place = own.side.events();
    let tried = attempt_one(
        Attempt {
            alloc: task.alloc,
            command: task.command,
            turn: task.turn,
            given,
        },
        &mut own.side.state,
        &mut class.side.state,
    );
    own.side.state.history();
    caller.catch_up_stripe(board, who, &own.side.state, &mut own.side.owner);
    class.side.state.law();
    caller.catch_up_class(board, who, &class.side.state, &mut class.side.owner);
    note_if(
        board,
        caller,
        &own.side.state,
        &mut own.side.seen,
        place,
        is_made(&tried),
    );
    own.side.hear(board, &mut class.side);
    class.side.hear(board, &mut own.side);
    caller.tell_owned(board, &mut class.side);
    tried
}

// Tries a command once on its stripe and two classes whose views are synced, with what they offer. Shows the classes the call.
#[inline(never)]
pub(crate) fn try_on_two<N: Named>(
    task: Task<'_, N>,
    own: &mut LockedStripe<N>,
    home: &mut LockedClass<N>,
    other: &mut LockedClass<N>,
    caller: &mut Caller<N>,
    given: Given,
) -> Result<Tried, Fault>
    requires asked { HasAsked caller.old task.turn.who task.command.now task.turn.moment }
    requires may { MayTryOn own.old.stripe (home.old.class ∷ other.old.class ∷ []) task.command.now task.turn given }
    requires room { HasRoomFor given home.old.class × HasRoomFor given other.old.class }
    ensures tried { IfOk result (IsTriedUnder N.config own.old own.new caller.old caller.new task.entry.command.now task.entry.turn given
        (home.old ∷ other.old ∷ []) (home.new ∷ other.new ∷ [])) }
    ensures err { OnErr result ((own.new.stripe.history ≡ own.old.stripe.history)
        × StillTries N.config task.entry.turn own.old own.new caller.old caller.new) }
    ensures sees { Grows own.old.sight own.new.sight }
    ensures site { KeepsSite own.old.stripe own.new.stripe }
    ensures full { IsErrOf result HistoryFull → own.new.stripe.limit ≤ length own.new.stripe.history }
{
    let store = task.store;
    let board = &store.board;
    let who = task.turn.who;
    let place = own.side.events();
    let tried = attempt_two(
        Attempt {
            alloc: task.alloc,
            command: task.command,
            turn: task.turn,
            given,
        },
        &mut own.side.state,
        &mut home.side.state,
        &mut other.side.state,
    );
    own.side.state.history();
    caller.catch_up_stripe(board, who, &own.side.state, &mut own.side.owner);
    home.side.state.law();
    caller.catch_up_class(board, who, &home.side.state, &mut home.side.owner);
    other.side.state.law();
    caller.catch_up_class(board, who, &other.side.state, &mut other.side.owner);
    note_if(
        board,
        caller,
        &own.side.state,
        &mut own.side.seen,
        place,
        is_made(&tried),
    );
    own.side.hear(board, &mut home.side);
    own.side.hear(board, &mut other.side);
    home.side.hear(board, &mut own.side);
    other.side.hear(board, &mut own.side);
    caller.tell_owned(board, &mut home.side);
    caller.tell_owned(board, &mut other.side);
    tried
}
