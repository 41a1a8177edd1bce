//! Walks under the locks of a store: making room in a class, juggling it, removing a dead item.
ghost use Rattle.std.specs.Prelude.{◌≡◌, ◌≤◌, ◌+◌, ◌++◌, ◌∷◌, ◌⊎◌, [], Some, IfOk, IfErr, OnOk, OnErr, IsErrOf, MatchResult, false, length, true};
ghost use Rattle.mc_item.specs.Command.{key_of};
ghost use Rattle.mc_item.specs.declared.{fault.Fault.TheVariants.HistoryFull, stripe_event.Cause.TheVariants.Expired};
ghost use Rattle.mc_stripe.specs.{Plan.dead_link, StripeCalls.KeepsSite, StripeState.cache_now};
ghost use Rattle.mc_pull.specs.Growth as classes;
ghost use Rattle.mc_pull.specs.{Lone.StripeGrows, Rounds.rounds, Settled.lost_event, Walker.walker_of};
ghost use Rattle.mc_store.specs.{
  Accounts.IsOfWalk,
  Accounts.StillCalls,
  Callers.juggling_of,
  Calls.IsJuggleCut,
  Calls.IsJuggledWith,
  Earned.HasSearchedForAny,
  Full.LacksPlaces,
  Reached.IsSeenState,
  Serving.IsShortFor,
  Serving.MayFailSeen,
};
ghost use Rattle.mc_store.specs.{Locked.HasBegunAs, Locked.HasBegunCommand, Locked.HasBegunSearch, Walking.LeavesSearch, Walking.MayWalkWith};
ghost use Rattle.mc_store.specs.Searches.{HasSeenOf, IsSearchBroken, IsSearchedWith};
ghost use Rattle.mc_store.specs.{Accounts.stretch_of, Trying.StillBuries, Trying.StillSearches, Walking.StillWalksFrom};
ghost use Rattle.mc_store.specs.{Sides.stripe_sight, Walking.class_sight};
ghost use Rattle.mc_board.specs.Histories.{Grows};

use crate::caller::Caller;
use crate::gates::{Holding, Trying};
use crate::locked::{LockedClass, LockedStripe};
use crate::named::Named;
use crate::pairing::meet;
use crate::task::{Call, Task};
use mc_board::{Owner, Seen};
use mc_history::GhostList;
use mc_item::{Fault, Link, Moves};
use mc_pull::{Context, Judge, settle};
use mc_segment::ClassState;

// Makes room in a class whose tokens are lent apart from it, for a caller that has locked one stripe. Others are only tried. The
// caller's account gains only events of the class and of stripes.
fn make_room_with<N: Named>(
    task: Task<'_, N>,
    own: &mut LockedStripe<N>,
    class: &mut ClassState,
    owner: &mut Owner,
    seen: &mut Seen,
    caller: &mut Caller<N>,
) -> Result<bool, Fault>
    requires tokens { MayWalkWith N.board.table N.config caller.old owner.old seen.old class.old task.turn.who task.turn.moment }
    ensures room { MatchResult result
        (IsSearchedWith (rounds class.old task.entry.turn.who task.entry.turn.moment N.config) (record { 0 = own.old.stripe.site.stripe })
        (IsSeenState N.config.stripes seen.old.sight seen.new.sight) class.old.history class.new.history)
        (λ fault. IsSearchBroken (rounds class.old task.entry.turn.who task.entry.turn.moment N.config) (record { 0 = own.old.stripe.site.stripe })
        (IsSeenState N.config.stripes seen.old.sight seen.new.sight) class.old.history class.new.history) }
    ensures gains { classes.GainsFor true class.old class.new }
    ensures left { LeavesSearch N.board.table N.config (walker_of class.old task.entry.turn.who task.entry.turn.moment) seen.old.sight class.old
        own.old.stripe owner.new seen.new class.new own.new.stripe }
    ensures tried { IfOk result (λ found. found ≡ false → HasSearchedForAny N.config.stripes own.old.stripe task.entry.turn.who task.entry.turn.moment
        class.new.history) }
    ensures still { (length owner.old.history ≤ length owner.new.history) × StillWalksFrom N.config class.old.number (length owner.old.history)
        task.entry.turn.who.turn seen.old.sight seen.new.sight class.old.history class.new.history caller.old caller.new }
    ensures fault { IfErr result (MayFailSeen N.config seen.new.sight class.new) }
{
    let store = task.store;
    let mut gate = Holding {
        own: &mut *own,
        others: Trying {
            store,
            caller: &mut *caller,
            owner: &mut *owner,
            seen: &mut *seen,
            answers: &mut GhostList::new(),
            who: task.turn.who,
            moment: task.turn.moment,
        },
    };
    let context = Context {
        turn: task.turn,
        config: &store.config,
    };
    gate.make_room(context, class)
}

// Makes room in a class under its lock, for a caller that has locked one stripe. Other stripes' locks are only tried. Returns
// whether a chunk is free then; if not, the search has tried for one. After a fault what happened so far stays. The stripe learns
// all that the class has seen. The caller's account gains only events of the class and of stripes.
pub(crate) fn make_room_under<N: Named>(
    task: Task<'_, N>,
    own: &mut LockedStripe<N>,
    class: &mut LockedClass<N>,
    caller: &mut Caller<N>,
) -> Result<bool, Fault>
    requires begun { HasBegunSearch N.config own.old.sight task.turn.who task.turn.moment × (task.turn.who.caller ≡ caller.old.number) }
    ensures room { MatchResult result
        (IsSearchedWith (rounds class.old.class task.entry.turn.who task.entry.turn.moment N.config) (record { 0 = own.old.stripe.site.stripe })
        (IsSeenState N.config.stripes (stripe_sight own.old) own.new.sight) class.old.class.history class.new.class.history)
        (λ fault. IsSearchBroken (rounds class.old.class task.entry.turn.who task.entry.turn.moment N.config) (record { 0 = own.old.stripe.site.stripe })
        (IsSeenState N.config.stripes (stripe_sight own.old) own.new.sight) class.old.class.history class.new.class.history) }
    ensures class { classes.GainsEvents class.old.class class.new.class }
    ensures leaves { StripeGrows (walker_of class.old.class task.entry.turn.who task.entry.turn.moment) own.old.stripe own.new.stripe
        × StillSearches N.config class.old.class.number (stretch_of class.old.class class.new.class) task.entry.turn own.old own.new caller.old
        caller.new }
    ensures tried { IfOk result (λ found. found ≡ false → HasSearchedForAny N.config.stripes own.old.stripe task.entry.turn.who task.entry.turn.moment
        class.new.class.history) }
    ensures begun { HasBegunSearch N.config own.new.sight task.entry.turn.who task.entry.turn.moment }
    ensures seen { HasSeenOf N.config own.new.sight class.old.class.number class.new.class.history }
    ensures full { IsErrOf result HistoryFull → IsShortFor N.config class.old.class.number own.new.sight }
{
    let store = task.store;
    let board = &store.board;
    own.law();
    class.learn_from(board, own);
    let side = &mut class.side;
    let found = make_room_with(
        task,
        own,
        &mut side.state,
        &mut side.owner,
        &mut side.seen,
        caller,
    );
    caller.catch_up_class(board, task.turn.who, &side.state, &mut side.owner);
    own.side.compare(board, &mut side.seen);
    own.side.seen.learn(board, &mut side.seen);
    own.side.hear(board, side);
    found
}

// Juggles a class under its lock. The locks of stripes are only tried. The caller's account gains only events of the class and of
// stripes.
pub(crate) fn juggle_under<N: Named>(
    call: Call<'_, N>,
    class: &mut LockedClass<N>,
    caller: &mut Caller<N>,
) -> Result<Moves, Fault>
    requires begun { HasBegunAs N.config class.old.sight call.turn.who call.turn.moment (juggling_of class.old.class.number call.turn.moment) }
    requires caller { call.turn.who.caller ≡ caller.old.number }
    ensures juggle { MatchResult result
        (IsJuggledWith (IsSeenState N.config.stripes class.old.sight class.new.sight) (rounds class.old.class call.entry.turn.who
        call.entry.turn.moment N.config) class.old.class.history class.new.class.history)
        (λ fault. IsJuggleCut (IsSeenState N.config.stripes class.old.sight class.new.sight) (rounds class.old.class call.entry.turn.who
        call.entry.turn.moment N.config) fault class.old.class.history class.new.class.history) }
    ensures few { IfOk result (λ moves. moves.reclaimed + moves.moved ≤ 10000) }
    ensures class { classes.GainsEvents class.old.class class.new.class }
    ensures still { StillCalls (IsOfWalk N.config class.old.class.number) call.entry.turn.who.turn (class_sight N.config class.old)
        (class_sight N.config class.new) caller.old caller.new }
    ensures fault { IfErr result (MayFailSeen N.config class.new.sight class.new.class) }
{
    let store = call.store;
    let who = call.turn.who;
    let side = &mut class.side;
    let mut gate = Trying {
        store,
        caller: &mut *caller,
        owner: &mut side.owner,
        seen: &mut side.seen,
        answers: &mut GhostList::new(),
        who,
        moment: call.turn.moment,
    };
    let context = Context {
        turn: call.turn,
        config: &store.config,
    };
    gate.juggle(context, &mut side.state)
}

// Removes the dead item of a key, and its entry. `link` is the item's, and the class is the link's. After a fault both histories
// are as they were. The class learns of the call from the stripe, which has seen it. The caller's account gains only events of
// this stripe, and that the item's entry was removed.
pub(crate) fn bury_under<N: Named>(
    task: Task<'_, N>,
    own: &mut LockedStripe<N>,
    class: &mut LockedClass<N>,
    caller: &mut Caller<N>,
    link: Link,
) -> Result<(), Fault>
    requires begun { HasBegunCommand N.config own.old.sight task.turn.who task.turn.moment × (task.turn.who.caller ≡ caller.old.number) }
    requires dead { dead_link ((cache_now own.old.stripe).items (key_of task.command.now)) task.turn.moment ≡ Some link }
    requires class { class.old.class.number ≡ link.class }
    ensures lost { OnOk result (own.new.stripe.history ≡ own.old.stripe.history ++ lost_event task.entry.turn.who (key_of task.entry.command.now) (Expired
        task.entry.turn.moment) ∷ []) }
    ensures err { OnErr result (own.new.stripe.history ≡ own.old.stripe.history) }
    ensures sees { Grows own.old.sight own.new.sight }
    ensures same { KeepsSite own.old.stripe own.new.stripe × StillBuries N.config link task.entry.turn own.old own.new caller.old caller.new }
    ensures full { IsErrOf result HistoryFull → (own.new.stripe.limit ≤ length own.new.stripe.history) ⊎ LacksPlaces N.config own.new.sight link.class 1 }
{
    let store = task.store;
    let board = &store.board;
    meet(board, own, class);
    class.side.state.law();
    own.side.state.history();
    let context = Context {
        turn: task.turn,
        config: &store.config,
    };
    let done = settle(
        context,
        &mut class.side.state,
        &mut own.side.state,
        link.number,
        &Judge::Dead,
    );
    class.side.state.law();
    own.side.state.history();
    let who = task.turn.who;
    caller.catch_up_stripe(board, who, &own.side.state, &mut own.side.owner);
    caller.catch_up_class(board, who, &class.side.state, &mut class.side.owner);
    own.side.hear(board, &mut class.side);
    class.side.hear(board, &mut own.side);
    class.side.learn(board, &mut own.side);
    done?;
    Ok(())
}
