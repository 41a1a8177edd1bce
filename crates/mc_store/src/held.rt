//! A command on the classes that it has locked: their views are synced with the stripe's, and it is tried on what they offer.
ghost use Rattle.std.specs.Prelude.{◌≡◌, ◌≢◌, ◌≤◌, ◌⊎◌, Some, None, IfOk, MatchResult, OnOk, OnErr, IsErrOf, length};
ghost use Rattle.mc_item.specs.Command.{key_of};
ghost use Rattle.mc_item.specs.declared.fault.Fault.TheVariants.{HistoryFull};
ghost use Rattle.mc_board.specs.Histories.{Grows};
ghost use Rattle.mc_pull.specs.Attempt.{IsReady};
ghost use Rattle.mc_rule.specs.Lists.{IsFull};
ghost use Rattle.mc_segment.specs.ClassState.{with_room};
ghost use Rattle.mc_stripe.specs.StripeCalls.{KeepsSite};
ghost use Rattle.mc_store.specs.Held.{Ends, HasGivenUpAny, IsCallOn, IsRefusedAt, IsStillFull, IsTriedOn, IsWalked, Suffice, WantsChunk, class_held};
ghost use Rattle.mc_store.specs.{Callers.asked_for, Full.HasSeenFull, Locked.HasBegunAs, Locked.HasBegunSearch, Serving.IsShortFor, Trying.StillSearches};
ghost use Rattle.mc_store.specs.{Accounts.stretch_of, Searches.IsCutSearch, Searches.IsSearchedIf, Searches.searcher_at, Sides.stripe_sight, Trying.StillTries};

use crate::caller::Caller;
use crate::locked::{LockedClass, LockedStripe};
use crate::named::Named;
use crate::pairing::{meet, refuse};
use crate::task::Task;
use crate::trying::{try_on_one, try_on_two};
use crate::walking::make_room_under;
use mc_item::Fault;
use mc_pull::{Replied, Tried, offer_home, offer_other, ready};
use mc_stripe::{Given, Want};
use std::sync::MutexGuard;

// Reserves memory for up to two more events of a class, as far as its history has places for them.
#[inline(always)]
fn ready_class<N: Named>(class: &mut LockedClass<N>) -> Result<(), Fault>
    ensures ready { OnOk result (IsReady class.new.class) }
    ensures same { class.new ≡ record class.old { class = with_room class.old.class class.new.class.room } }
    ensures memory { IsErrOf result HistoryFull → ⊥ }
{
    ready(&mut class.side.state)
}

// Tries a command once on the class of its key's item, which it removes.
#[inline(always)]
fn try_other<N: Named>(
    task: Task<'_, N>,
    own: &mut LockedStripe<N>,
    other: &mut LockedClass<N>,
    caller: &mut Caller<N>,
) -> Result<Tried, Fault>
    requires called { IsCallOn N.config own.old.stripe caller.old task.command.now task.turn }
    ensures tried { IfOk result (IsTriedOn N.config own.old own.new caller.old caller.new task.entry.command.now task.entry.turn None (Some
        other.old.class.number) ⊥) }
    ensures err { OnErr result ((own.new.stripe.history ≡ own.old.stripe.history)
        × StillTries N.config task.entry.turn own.old own.new caller.old caller.new) }
    ensures sees { Grows own.old.sight own.new.sight }
    ensures site { KeepsSite own.old.stripe own.new.stripe }
    ensures full { IsErrOf result HistoryFull → own.new.stripe.limit ≤ length own.new.stripe.history }
{
    let store = task.store;
    meet(&store.board, own, other);
    ready_class(other)?;
    own.law();
    let given = Given {
        home: None,
        other: Some(offer_other(other.side().state())),
    };
    try_on_one(task, own, other, caller, given)
}

// Tries a command once on the class of its new version, and on that of its key's item if that is another one. `refused` is the
// place of the refusal that the class noted for this call, if it did.
#[inline(always)]
pub(crate) fn try_home<N: Named>(
    task: Task<'_, N>,
    own: &mut LockedStripe<N>,
    home: &mut LockedClass<N>,
    other: &mut Option<MutexGuard<'_, LockedClass<N>>>,
    caller: &mut Caller<N>,
    refused: Option<u64>,
) -> Result<Tried, Fault>
    requires called { IsCallOn N.config own.old.stripe caller.old task.command.now task.turn }
    requires apart { class_held other.old ≢ Some home.old.class.number }
    requires refused { IsRefusedAt N.config own.old.stripe task.turn (key_of task.command.now) home.old.class refused }
    ensures tried { IfOk result (IsTriedOn N.config own.old own.new caller.old caller.new task.entry.command.now task.entry.turn (Some
        home.old.class.number) (class_held other.old) (IsStillFull N.config own.new.sight refused home.old.class home.new.class × (class_held other.new ≡
        class_held other.old) × WantsChunk home.old.class.number (class_held other.old) own.old.stripe task.entry.command.now task.entry.turn.moment)) }
    ensures err { OnErr result ((own.new.stripe.history ≡ own.old.stripe.history)
        × StillTries N.config task.entry.turn own.old own.new caller.old caller.new) }
    ensures sees { Grows own.old.sight own.new.sight }
    ensures site { KeepsSite own.old.stripe own.new.stripe }
    ensures full { IsErrOf result HistoryFull → own.new.stripe.limit ≤ length own.new.stripe.history }
{
    let store = task.store;
    match other {
        None => {
            meet(&store.board, own, home);
            ready_class(home)?;
            own.law();
            let given = Given {
                home: Some(offer_home(home.side().state(), refused, task.turn)),
                other: None,
            };
            try_on_one(task, own, home, caller, given)
        }
        Some(guard) => {
            let beside = &mut **guard;
            meet(&store.board, own, home);
            meet(&store.board, own, beside);
            ready_class(home)?;
            ready_class(beside)?;
            own.law();
            let given = Given {
                home: Some(offer_home(home.side().state(), refused, task.turn)),
                other: Some(offer_other(beside.side().state())),
            };
            try_on_two(task, own, home, beside, caller, given)
        }
    }
}

// Looks for a chunk in the class of a new version, if none is free.
fn search<N: Named>(
    task: Task<'_, N>,
    own: &mut LockedStripe<N>,
    home: &mut LockedClass<N>,
    caller: &mut Caller<N>,
) -> Result<(), Fault>
    requires begun { HasBegunSearch N.config own.old.sight task.turn.who task.turn.moment × (task.turn.who.caller ≡ caller.old.number) }
    ensures tried { MatchResult result
        (λ done. (IsFull home.new.class.chunks home.new.class.history → HasGivenUpAny N.config own.old.stripe task.entry.turn home.new.class)
        × IsSearchedIf (searcher_at N.config own.old.stripe task.entry.turn) (stripe_sight own.old) own.new.sight home.old.class home.new.class)
        (λ fault. IsCutSearch (searcher_at N.config own.old.stripe task.entry.turn) home.old.class.number (stripe_sight own.old) own.new.sight (stretch_of
        home.old.class home.new.class)) }
    ensures walked { IsWalked N.config task.entry.turn home.old.class.number own.old.stripe own.new.stripe }
    ensures same { (home.new.class.number ≡ home.old.class.number) × StillSearches N.config home.old.class.number (stretch_of home.old.class
        home.new.class) task.entry.turn own.old own.new caller.old caller.new }
    ensures begun { HasBegunSearch N.config own.new.sight task.entry.turn.who task.entry.turn.moment }
    ensures site { KeepsSite own.old.stripe own.new.stripe }
    ensures seen { (own.new ≡ own.old) ⊎ HasSeenFull N.config own.new.sight home.old.class.number }
    ensures full { IsErrOf result HistoryFull → HasSeenFull N.config own.new.sight home.old.class.number
        × IsShortFor N.config home.old.class.number own.new.sight }
{
    if !home.side().state().is_full() {
        return Ok(());
    }
    make_room_under(task, own, home, caller)?;
    Ok(())
}

// Makes a command whose new version is of this class. Its key's item is of the other class, if that is held. If no chunk is free
// it looks for one, and if it finds none, the class notes a refusal.
pub(crate) fn answer_at_home<N: Named>(
    task: Task<'_, N>,
    own: &mut LockedStripe<N>,
    home: &mut LockedClass<N>,
    other: &mut Option<MutexGuard<'_, LockedClass<N>>>,
    caller: &mut Caller<N>,
) -> Result<Replied, Fault>
    requires called { IsCallOn N.config own.old.stripe caller.old task.command.now task.turn }
    requires begun { HasBegunAs N.config own.old.sight task.turn.who task.turn.moment (asked_for task.command.now task.turn.moment) }
    requires apart { class_held other.old ≢ Some home.old.class.number }
    requires wants { WantsChunk home.old.class.number (class_held other.old) own.old.stripe task.command.now task.turn.moment }
    ensures { Ends N.config own.old own.new caller.old caller.new task.entry.command.now task.entry.turn result }
{
    let store = task.store;
    own.law();
    search(task, own, home, caller)?;
    match try_home(task, own, home, other, caller, None)? {
        Tried::Made(replied) => Ok(replied),
        Tried::Wants(want) => match want {
            Want::Room => {
                let place = refuse(&store.board, own, home, task.turn.who, caller)?;
                match try_home(task, own, home, other, caller, Some(place))? {
                    Tried::Made(replied) => Ok(replied),
                    Tried::Wants(_) => Err(Fault::HistoryFull),
                }
            }
            Want::Place(_) => Err(Fault::HistoryFull),
            Want::Burial(_) => unreachable!(),
            Want::Classes(_) => unreachable!(),
        },
    }
}

// Makes a command that needs only the class of its key's item.
pub(crate) fn answer_at_item<N: Named>(
    task: Task<'_, N>,
    own: &mut LockedStripe<N>,
    other: &mut LockedClass<N>,
    caller: &mut Caller<N>,
) -> Result<Replied, Fault>
    requires called { IsCallOn N.config own.old.stripe caller.old task.command.now task.turn }
    requires suffice { Suffice None (Some other.old.class.number) own.old.stripe task.command.now task.turn.moment }
    ensures { Ends N.config own.old own.new caller.old caller.new task.entry.command.now task.entry.turn result }
{
    own.law();
    match try_other(task, own, other, caller)? {
        Tried::Made(replied) => Ok(replied),
        Tried::Wants(_) => Err(Fault::HistoryFull),
    }
}
