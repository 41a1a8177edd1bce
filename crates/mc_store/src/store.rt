//! The shared store: stripes and slab classes, each under a lock of its own, and the queues of hits, which need no lock.
ghost use Rattle.std.specs.Prelude.{◌≡◌, ◌<◌, IfSome};
ghost use Rattle.std.specs.Sync.Mutex.{mutex_guard_value};
ghost use Rattle.mc_evidence.specs.Setting.{IsClass};
ghost use Rattle.mc_store.specs.Locked.{setting_of};

use crate::locked::{LockedClass, LockedStripe};
use crate::named::Named;
use crate::shelf::Shelf;
use crossbeam_utils::Backoff;
use mc_board::Board;
use mc_hits::Queues;
use mc_item::{ClassNo, Config, StripeNo};
use std::marker::{Model, PhantomData};
use std::sync::{Mutex, MutexGuard, Wait};

/// A store that threads share: its stripes and its classes, each under a lock of its own, and for each class a queue of hits.
/// Contracts see its configuration.
#[derive(Drop)]
pub struct Store<N: Named> {
    pub(crate) board: Board,
    pub(crate) config: Config,
    pub(crate) stripes: Vec<Mutex<LockedStripe<N>>>,
    pub(crate) classes: Vec<Mutex<LockedClass<N>>>,
    pub(crate) queues: Queues,
    pub(crate) shelf: Mutex<Shelf<N>>,
    pub(crate) of: PhantomData<N>,
}

impl<N: Named> Model for Store<N> {
    ghost use Rattle.std.specs.Prelude.{◌≡◌, length, vec_len};
    ghost use Rattle.mc_item.specs.Config.{IsBounded};
    ghost use Rattle.mc_item.specs.declared.config.Config.{Config};
    ghost use Rattle.mc_board.specs.Views.{locks_of};
    ghost use Rattle.mc_store.specs.Locked.{histories_for};

    ghost Value = { Config };

    ghost view = { λ s. s.config };

    ghost invariant = { λ s.
        (s.board ≡ N.board)
        × (s.config ≡ N.config)
        × IsBounded N.config
        × (locks_of N.board.counts ≡ histories_for N.config)
        × (vec_len s.stripes ≡ N.config.stripes)
        × (vec_len s.classes ≡ length N.config.sizes)
        × (s.queues ≡ N.queues)
        × (length N.queues ≡ length N.config.sizes) };
}

// Locks, and waits if it has to. A lock is held for about a microsecond, and to sleep and be woken takes longer. So it first
// tries a few times, with growing pauses.
#[inline(always)]
fn wait_for<'a, T: Drop>(rt: &impl Wait, lock: &'a Mutex<T>) -> MutexGuard<'a, T> {
    let pause = Backoff::new();
    for _ in 0..TRIES {
        if let Some(guard) = lock.try_lock() {
            return guard;
        }
        pause.snooze();
    }
    lock.lock(rt)
}

// How often a lock is tried before the thread sleeps. The last 25 pauses yield the processor, for some microseconds more.
const TRIES: usize = 32;

impl<N: Named> Store<N> {
    // Locks a stripe. The loop runs once: `open` puts each stripe at the place of its number, but a lock's type can't say so.
    pub(crate) fn lock_stripe<'a>(
        &'a self,
        rt: &impl Wait,
        stripe: StripeNo,
    ) -> MutexGuard<'a, LockedStripe<N>>
        requires { stripe.0 < N.config.stripes }
        ensures { (mutex_guard_value result).stripe.site.stripe ≡ stripe.0 }
    {
        let pause = Backoff::new();
        for _ in rt.forever() {
            let guard = wait_for(rt, &self.stripes[stripe.0 as usize]);
            if guard.side().number() == stripe {
                return guard;
            }
            drop(guard);
            pause.snooze();
        }
        unreachable!()
    }

    // Locks a stripe, if its lock is free.
    pub(crate) fn try_stripe(&self, stripe: StripeNo) -> Option<MutexGuard<'_, LockedStripe<N>>>
        ensures { IfSome result (λ guard. (mutex_guard_value guard).stripe.site.stripe ≡ stripe.0) }
    {
        let guard = self.stripes.get(stripe.0 as usize)?.try_lock()?;
        if guard.side().number() == stripe {
            Some(guard)
        } else {
            None
        }
    }

    // Locks a class. The loop runs once: `open` puts each class at the place of its number, but a lock's type can't say so.
    #[inline(always)]
    pub(crate) fn lock_class<'a>(
        &'a self,
        rt: &impl Wait,
        class: ClassNo,
    ) -> MutexGuard<'a, LockedClass<N>>
        requires { IsClass (setting_of N.config) class }
        ensures { (mutex_guard_value result).class.number ≡ class }
    {
        let pause = Backoff::new();
        for _ in rt.forever() {
            let guard = wait_for(rt, &self.classes[class.0 as usize - 1]);
            if guard.side().number() == class {
                return guard;
            }
            drop(guard);
            pause.snooze();
        }
        unreachable!()
    }
}
