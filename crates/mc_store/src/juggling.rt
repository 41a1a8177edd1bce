//! Juggling a class that threads share, which is the LRU maintainer's work.
ghost use Rattle.std.specs.Prelude.{◌≡◌, ◌≤◌, ◌⊎◌, ◌+◌, IfErr, IfOk, OnOk, length};
ghost use Rattle.mc_evidence.specs.Setting.{IsClass};
ghost use Rattle.mc_store.specs.{Callers.turns_of, Calls.IsJuggledBy, Calls.IsJuggledTill, Calls.IsUnbegun};
ghost use Rattle.mc_store.specs.{Hits.Takes, Hits.queue_of, Locked.setting_of, Serving.IsLater};

use crate::named::Named;
use crate::pass::Pass;
use crate::store::Store;
use crate::taking::upkeep_under;
use crate::task::Call;
use mc_item::{CallEvent, ClassNo, Fault, Moves, Worked};
use mc_stripe::Turn;
use std::sync::Wait;

impl<N: Named> Store<N> {
    /// Juggles a class (the LRU maintainer's work), and returns how many entries it reclaimed and moved, at most 10000 in all.
    /// It waits for the class's lock, and only tries those of stripes: an entry is passed if its stripe's lock isn't free.
    /// First it takes up to 256 hits from the class's queue. It moves the entry of each from COLD to WARM, if the item is ACTIVE and
    /// alive. These moves aren't counted. Then come the rounds. Both judge an entry by its item, as its stripe has it after all that the
    /// pass had seen of the stripe. `moment` is the time in whole seconds. The events that the call makes are of this class and of
    /// stripes.
    /// After a fault what happened so far stays. `HistoryFull` comes only if the history of this class or of a stripe is full, or the
    /// pass has had `max_events` turns. `NoMemory` comes if an allocation fails.
    pub fn juggle(
        &self,
        rt: &impl Wait,
        pass: &mut Pass<N>,
        class: ClassNo,
        moment: u64,
    ) -> Result<Moves, Fault>
        requires class { IsClass (setting_of N.config) class }
        ensures juggled { IfOk result (IsJuggledBy N.config class pass.old pass.new moment) }
        ensures cut { IfErr result (λ fault. IsUnbegun N.config pass.old pass.new fault ⊎ IsJuggledTill N.config class pass.old pass.new moment fault) }
        ensures taken { Takes (queue_of class) pass.old.hands pass.new.hands }
        ensures few { IfOk result (λ moves. moves.reclaimed + moves.moved ≤ 10000) }
        ensures grows { IsLater pass.old.sight pass.new.sight }
        ensures caller { pass.new.caller ≡ pass.old.caller }
        ensures turn { (pass.new.turn ≡ length (turns_of pass.new.calls)) × OnOk result (pass.new.turn ≡ pass.old.turn + 1) }
    {
        let event = CallEvent::Juggled(Worked { class, moment });
        let mut guard = self.lock_class(rt, class);
        let own = &mut *guard;
        let who = pass.take_turn_in(self, &event, own)?;
        own.side.compare(&self.board, &mut pass.seen);
        own.learn(&self.board, &mut pass.seen);
        pass.caller.tell_class(&self.board, own);
        let call = Call {
            store: self,
            turn: Turn { who, moment },
        };
        let moves = upkeep_under(call, rt, own, &mut pass.hands, &mut pass.caller);
        own.side.share(&self.board, &mut pass.seen);
        moves
    }
}
