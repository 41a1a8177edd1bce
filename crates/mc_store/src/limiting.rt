//! Setting how many chunks a class that threads share may use.
ghost use Rattle.std.specs.Prelude.{◌≡◌, ◌<◌, ◌≤◌, ◌⊎◌, ◌+◌, ◌^◌, ◌++◌, ◌∷◌, [], IfErr, OnOk, OnErr, IsErrOf, length};
ghost use Rattle.mc_item.specs.declared.fault.Fault.TheVariants.{HistoryFull};
ghost use Rattle.mc_evidence.specs.Setting.{IsClass};
ghost use Rattle.mc_board.specs.Histories.{list_at};
ghost use Rattle.mc_segment.specs.ClassCalls.{limited_event};
ghost use Rattle.mc_pull.specs.Growth as classes;
ghost use Rattle.mc_store.specs.Accounts.{StillCalls};
ghost use Rattle.mc_store.specs.{Callers.call_events, Callers.turns_of, Calls.IsLimitedBy, Calls.IsLimitedTill, Calls.IsUnbegun};
ghost use Rattle.mc_store.specs.Locked.{caller_place, class_lock, setting_of};
ghost use Rattle.mc_store.specs.{Made.IsLimitCalled, Passes.next_who, Serving.IsLater, Walking.class_sight};

use crate::caller::Caller;
use crate::locked::LockedClass;
use crate::named::Named;
use crate::pass::Pass;
use crate::store::Store;
use mc_board::Board;
use mc_item::{CallEvent, ClassNo, Fault, Limits, Who};
use std::sync::Wait;

// Sets the limit of a class under its lock, which has seen the call. The caller's account gains only events of the class.
fn limit_under<N: Named>(
    board: &Board,
    class: &mut LockedClass<N>,
    who: Who,
    chunks: u64,
    caller: &mut Caller<N>,
) -> Result<(), Fault>
    requires board { board.now ≡ N.board }
    requires caller { (who.caller ≡ caller.old.number) × (who.caller < N.config.callers) }
    requires bounds { (1 ≤ chunks) × (chunks ≤ 2 ^ 20) }
    requires called { IsLimitCalled (call_events (list_at class.old.sight.seen (caller_place N.config who.caller))) class.old.class.number
        (record { who = who; chunks = chunks }) }
    ensures made { OnOk result (class.new.class.history ≡ class.old.class.history ++ limited_event who chunks ∷ []) }
    ensures stays { OnErr result (class.new.class.history ≡ class.old.class.history) }
    ensures same { classes.GainsEvents class.old.class class.new.class
        × StillCalls (λ lock place event. lock ≡ class_lock N.config class.old.class.number) who.turn (class_sight N.config class.old)
        (class_sight N.config class.new) caller.old caller.new }
    ensures full { IsErrOf result HistoryFull → class.new.class.max_events ≤ length class.new.class.history }
{
    let side = &mut class.side;
    let limited = side.state.set_chunks(who, chunks);
    side.state.law();
    caller.catch_up_class(board, who, &side.state, &mut side.owner);
    limited
}

impl<N: Named> Store<N> {
    /// Sets a class's limit of chunks, from 1 to 2^20. From then on the class is full if it has at least that many entries. A lower
    /// limit evicts nothing by itself: commands that need a chunk make room. It waits for the class's lock alone. The events that
    /// it makes are of this class alone.
    /// After a fault the limit is what it was. `HistoryFull` comes only if the class's history has no place left, or the
    /// pass has had `max_events` turns. `NoMemory` comes if an allocation fails.
    pub fn chunks(
        &self,
        rt: &impl Wait,
        pass: &mut Pass<N>,
        class: ClassNo,
        chunks: u64,
    ) -> Result<(), Fault>
        requires class { IsClass (setting_of N.config) class }
        requires chunks { (1 ≤ chunks) × (chunks ≤ 2 ^ 20) }
        ensures limited { OnOk result (IsLimitedBy N.config class pass.old pass.new chunks (limited_event (next_who pass.old) chunks ∷ [])) }
        ensures cut { IfErr result (λ fault. IsUnbegun N.config pass.old pass.new fault ⊎ IsLimitedTill N.config class pass.old pass.new chunks fault) }
        ensures hands { pass.new.hands ≡ pass.old.hands }
        ensures grows { IsLater pass.old.sight pass.new.sight }
        ensures caller { pass.new.caller ≡ pass.old.caller }
        ensures turn { (pass.new.turn ≡ length (turns_of pass.new.calls)) × OnOk result (pass.new.turn ≡ pass.old.turn + 1) }
    {
        let event = CallEvent::Limits(Limits { class, chunks });
        let mut guard = self.lock_class(rt, class);
        let own = &mut *guard;
        let who = pass.take_turn_in(self, &event, own)?;
        own.side.compare(&self.board, &mut pass.seen);
        pass.caller.tell_class(&self.board, own);
        let limited = limit_under(&self.board, own, who, chunks, &mut pass.caller);
        own.side.share(&self.board, &mut pass.seen);
        limited
    }
}
