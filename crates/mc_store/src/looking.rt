//! Calls that change nothing but what a pass has noted: visits, counts, figures and meetings.
ghost use Rattle.std.specs.Prelude.{◌≡◌, ◌<◌, ◌≤◌, ◌⊎◌, ◌/◌, ◌%◌, IfErr, IfOk, MatchResult, length};
ghost use Rattle.std.specs.Fn.{FnOnceReturnsAt, FnOnceTakesAt};
ghost use Rattle.mc_board.specs.{Histories.list_at, Histories.number_at, Histories.with_figures, Histories.with_noted, Histories.AreInLine, Views.locks_of};
ghost use Rattle.mc_board.specs.Looking.{note_of};
ghost use Rattle.mc_evidence.specs.Setting.{IsClass};
ghost use Rattle.mc_store.specs.{Locked.class_lock, Locked.lock_of, Locked.setting_of, Locked.IsLock, Locked.IsStripeUnder, Sides.StripeSide};

use crate::lock_no::LockNo;
use crate::named::Named;
use crate::pass::Pass;
use crate::store::Store;
use mc_board::{Busy, Figures};
use mc_item::{ClassNo, StripeNo};
use mc_stripe::StripeState;
use std::sync::Wait;

impl<N: Named> Store<N> {
    /// Lends a stripe to the job for reading, and returns what the job returns. It waits for the stripe's lock, and holds it
    /// meanwhile. The stripe is as its lock keeps it.
    pub fn visit_stripe<T, J: FnOnce(&StripeState) -> T>(
        &self,
        rt: &impl Wait,
        stripe: StripeNo,
        job: J,
    ) -> T
        requires number { stripe.0 < N.config.stripes }
        requires job { (s : StripeSide) → IsStripeUnder N.board.table N.config stripe.0 s → FnOnceTakesAt J.FnOnce job s.stripe }
        ensures visited { (s : StripeSide) × IsStripeUnder N.board.table N.config stripe.0 s × FnOnceReturnsAt J.FnOnce job s.stripe result }
    {
        let guard = self.lock_stripe(rt, stripe);
        job(guard.side().state())
    }

    // The number of a lock on the board.
    fn lock_of(&self, lock: LockNo) -> usize
        requires { IsLock N.config lock }
        ensures place { result ≡ lock_of N.config lock }
        ensures within { result < locks_of N.board.counts }
    {
        match lock {
            LockNo::Stripe(number) => number.0 as usize,
            LockNo::Class(number) => self.config.stripes as usize + (number.0 as usize - 1),
        }
    }

    /// Returns how many events the history of a lock has, read in one atomic step without the lock. The pass notes the number,
    /// which is no less than what it had seen and noted of the lock. Allocates nothing and never waits.
    pub fn events(&self, pass: &mut Pass<N>, lock: LockNo) -> u64
        requires { IsLock N.config lock }
        ensures noted { pass.new ≡ record pass.old { sight = with_noted pass.old.sight (lock_of N.config lock) result } }
        ensures seen { length (list_at pass.old.sight.seen (lock_of N.config lock)) ≤ result }
        ensures later { number_at pass.old.sight.noted (lock_of N.config lock) ≤ result }
    {
        let place = self.lock_of(lock);
        pass.seen.count(&self.board, place)
    }

    /// Reads a slab class's figures without its lock: how many events its history has, and how many bytes and items HOT, WARM, COLD
    /// and TEMP had after these events. They are of one moment. The pass notes them, and they are no older than what it had seen
    /// and noted of the class. Allocates nothing and never waits.
    /// Errors: `Busy` if the class was changed meanwhile. Then the pass notes a number of events alone, as `events` does. Try again.
    pub fn figures(&self, pass: &mut Pass<N>, class: ClassNo) -> Result<Figures, Busy>
        requires { IsClass (setting_of N.config) class }
        ensures noted { MatchResult result
            (λ figures. pass.new ≡ record pass.old {
              sight = with_figures (with_noted pass.old.sight (class_lock N.config class) figures.events)
                  (note_of (class_lock N.config class) figures);
            })
            (λ busy. pass.new ≡ record pass.old { sight = with_noted pass.old.sight (class_lock N.config class) (busy.last / 2) }) }
        ensures seen { IfOk result (λ figures. length (list_at pass.old.sight.seen (class_lock N.config class)) ≤ figures.events) }
        ensures later { MatchResult result (λ figures. number_at pass.old.sight.noted (class_lock N.config class) ≤ figures.events)
            (λ busy. number_at pass.old.sight.noted (class_lock N.config class) ≤ busy.first / 2) }
        ensures busy { IfErr result (λ busy. ((busy.first % 2 ≡ 1) × (busy.last ≡ busy.first)) ⊎ (busy.first < busy.last)) }
    {
        let place = self.lock_of(LockNo::Class(class));
        pass.seen.figures(&self.board, place)
    }

    /// Compares two passes: for each lock, what one of them has seen is a beginning of what the other has. Nothing changes.
    /// Allocates nothing and never waits.
    pub fn meet(&self, pass: &mut Pass<N>, other: &mut Pass<N>)
        ensures same { (pass.new ≡ pass.old) × (other.new ≡ other.old) }
        ensures in_line { AreInLine pass.old.sight other.old.sight }
    {
        pass.seen.meet(&self.board, &mut other.seen);
    }
}
