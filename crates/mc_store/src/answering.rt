//! One command under the lock of its key's stripe. It is tried, gets what it turns out to want, and is tried again.
ghost use Rattle.std.specs.Prelude.{◌≡◌, ◌≤◌, ◌++◌, ◌⊎◌, Some, IfSome, OnOk, OnErr, IsErrOf, length};
ghost use Rattle.std.specs.Sync.Mutex.{mutex_guard_value};
ghost use Rattle.mc_item.specs.Command.{key_of};
ghost use Rattle.mc_item.specs.declared.fault.Fault.TheVariants.{HistoryFull};
ghost use Rattle.mc_board.specs.Histories.{Grows};
ghost use Rattle.mc_evidence.specs.Setting.{IsClass};
ghost use Rattle.mc_stripe.specs.{Plan.dead_link, StripeCalls.KeepsSite, StripeState.cache_now};
ghost use Rattle.mc_stripe.specs.declared.wanting.Want.TheVariants as wants;
ghost use Rattle.mc_store.specs.{Callers.asked_for, Commands.burial, Full.LacksPlaces, Locked.HasBegunAs, Locked.HasBegunCommand, Locked.setting_of};
ghost use Rattle.mc_store.specs.Trying.{StillBuries};
ghost use Rattle.mc_store.specs.Held.{Ends, IsCallOn, WantsAlone, class_held};

use crate::caller::Caller;
use crate::held::{answer_at_home, answer_at_item, try_home};
use crate::locked::{LockedClass, LockedStripe};
use crate::named::Named;
use crate::store::Store;
use crate::task::Task;
use crate::trying::try_alone;
use crate::walking::bury_under;
use mc_item::{ClassNo, Fault, Link};
use mc_pull::{Replied, Tried};
use mc_stripe::{Classes, Want};
use std::sync::{MutexGuard, Wait};

// Locks the class of a new version, and the item's class if that is another one, the lower number first.
#[inline(always)]
fn lock_both<'a, N: Named>(
    store: &'a Store<N>,
    rt: &impl Wait,
    home: ClassNo,
    other: Option<ClassNo>,
) -> (
    MutexGuard<'a, LockedClass<N>>,
    Option<MutexGuard<'a, LockedClass<N>>>,
)
    requires home { IsClass (setting_of N.config) home }
    requires other { IfSome other (λ n. IsClass (setting_of N.config) n) }
    ensures home { (mutex_guard_value result.0).class.number ≡ home }
    ensures other { class_held result.1 ≡ other }
{
    match other {
        None => (store.lock_class(rt, home), None),
        Some(class) => {
            if class.0 < home.0 {
                let lower = store.lock_class(rt, class);
                (store.lock_class(rt, home), Some(lower))
            } else {
                let lower = store.lock_class(rt, home);
                (lower, Some(store.lock_class(rt, class)))
            }
        }
    }
}

// Locks the classes that a command wants, and makes it on them.
#[inline(always)]
fn answer_with<N: Named>(
    task: Task<'_, N>,
    rt: &impl Wait,
    own: &mut LockedStripe<N>,
    caller: &mut Caller<N>,
    wanted: Classes,
) -> Result<Replied, Fault>
    requires called { IsCallOn N.config own.old.stripe caller.old task.command.now task.turn }
    requires begun { HasBegunAs N.config own.old.sight task.turn.who task.turn.moment (asked_for task.command.now task.turn.moment) }
    requires wanted { WantsAlone own.old.stripe task.command.now task.turn.moment (wants.Classes wanted) }
    ensures { Ends N.config own.old own.new caller.old caller.new task.entry.command.now task.entry.turn result }
{
    let store = task.store;
    own.law();
    match wanted.home {
        Some(class) => {
            let (mut guard, mut other) = lock_both(store, rt, class, wanted.other);
            let home = &mut *guard;
            answer_at_home(task, own, home, &mut other, caller)
        }
        None => match wanted.other {
            Some(class) => {
                let mut guard = store.lock_class(rt, class);
                let other = &mut *guard;
                answer_at_item(task, own, other, caller)
            }
            None => unreachable!(),
        },
    }
}

// Removes the dead item of a key under the lock of its class. `link` is the item's link.
#[inline(always)]
fn bury<N: Named>(
    task: Task<'_, N>,
    rt: &impl Wait,
    own: &mut LockedStripe<N>,
    caller: &mut Caller<N>,
    link: Link,
) -> Result<(), Fault>
    requires begun { HasBegunCommand N.config own.old.sight task.turn.who task.turn.moment }
    requires caller { task.turn.who.caller ≡ caller.old.number }
    requires dead { dead_link ((cache_now own.old.stripe).items (key_of task.command.now)) task.turn.moment ≡ Some link }
    ensures lost { OnOk result (own.new.stripe.history ≡ own.old.stripe.history ++ burial task.entry.turn.who (key_of task.entry.command.now)
        task.entry.turn.moment (Some link)) }
    ensures err { OnErr result (own.new.stripe.history ≡ own.old.stripe.history) }
    ensures sees { Grows own.old.sight own.new.sight }
    ensures same { KeepsSite own.old.stripe own.new.stripe × StillBuries N.config link task.entry.turn own.old own.new caller.old caller.new }
    ensures full { IsErrOf result HistoryFull → (own.new.stripe.limit ≤ length own.new.stripe.history) ⊎ LacksPlaces N.config own.new.sight link.class 1 }
{
    let store = task.store;
    own.law();
    let mut guard = store.lock_class(rt, link.class);
    let class = &mut *guard;
    bury_under(task, own, class, caller, link)
}

// Makes a command that wanted this when tried alone: removes its key's dead item, locks the classes that it needs, or both.
#[inline(never)]
fn answer_want<N: Named>(
    task: Task<'_, N>,
    rt: &impl Wait,
    own: &mut LockedStripe<N>,
    caller: &mut Caller<N>,
    want: Want,
) -> Result<Replied, Fault>
    requires called { IsCallOn N.config own.old.stripe caller.old task.command.now task.turn }
    requires wants { WantsAlone own.old.stripe task.command.now task.turn.moment want }
    ensures { Ends N.config own.old own.new caller.old caller.new task.entry.command.now task.entry.turn result }
{
    let store = task.store;
    own.law();
    caller.tell_stripe(&store.board, own);
    match want {
        Want::Classes(wanted) => answer_with(task, rt, own, caller, wanted),
        Want::Burial(link) => {
            bury(task, rt, own, caller, link)?;
            match try_alone(task, own, caller)? {
                Tried::Made(replied) => Ok(replied),
                Tried::Wants(left) => match left {
                    Want::Classes(wanted) => { answer_with(task, rt, own, caller, wanted) }
                    Want::Burial(_) => unreachable!(),
                    Want::Room => unreachable!(),
                    Want::Place(_) => unreachable!(),
                },
            }
        }
        Want::Room => unreachable!(),
        Want::Place(_) => unreachable!(),
    }
}

// Makes a command on its key's stripe, whose lock is held. It is tried on the stripe alone first.
#[inline(always)]
pub(crate) fn answer<N: Named>(
    task: Task<'_, N>,
    rt: &impl Wait,
    own: &mut LockedStripe<N>,
    caller: &mut Caller<N>,
) -> Result<Replied, Fault>
    requires called { IsCallOn N.config own.old.stripe caller.old task.command.now task.turn }
    ensures { Ends N.config own.old own.new caller.old caller.new task.entry.command.now task.entry.turn result }
{
    own.law();
    match try_alone(task, own, caller)? {
        Tried::Made(replied) => Ok(replied),
        Tried::Wants(want) => answer_want(task, rt, own, caller, want),
    }
}

// Makes a command whose new version would be of this class, on its key's stripe, whose lock is held. The class is locked at once,
// and the command is tried on it first.
#[inline(always)]
pub(crate) fn answer_for<'a, N: Named>(
    task: Task<'a, N>,
    rt: &impl Wait,
    own: &mut LockedStripe<N>,
    caller: &mut Caller<N>,
    class: ClassNo,
) -> Result<Replied, Fault>
    requires called { IsCallOn N.config own.old.stripe caller.old task.command.now task.turn }
    requires class { IsClass (setting_of N.config) class }
    ensures { Ends N.config own.old own.new caller.old caller.new task.entry.command.now task.entry.turn result }
{
    let store = task.store;
    let board = &store.board;
    own.law();
    let mut none: Option<MutexGuard<'a, LockedClass<N>>> = None;
    let mut guard = store.lock_class(rt, class);
    let home = &mut *guard;
    match try_home(task, own, home, &mut none, caller, None)? {
        Tried::Made(replied) => Ok(replied),
        Tried::Wants(want) => match want {
            Want::Place(_) => Err(Fault::HistoryFull),
            Want::Room => {
                caller.tell_stripe(board, own);
                answer_at_home(task, own, home, &mut none, caller)
            }
            Want::Burial(_) | Want::Classes(_) => {
                drop(guard);
                answer_want(task, rt, own, caller, want)
            }
        },
    }
}
