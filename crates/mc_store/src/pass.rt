//! Passes: what a caller has called and seen.
ghost use Rattle.std.specs.Prelude.{◌≡◌, ◌≤◌, ◌∷◌, IfOk, OnErr, IsErrOf, [], if◌then◌else◌, length};
ghost use Rattle.mc_item.specs.declared.fault.Fault.TheVariants.{HistoryFull};
ghost use Rattle.mc_hits.specs.Views.{tables_of, untouched_hands};
ghost use Rattle.mc_store.specs.{Callers.HasNoneOf, Callers.call_events, Callers.calls_told, Callers.placed_in, Callers.turns_of};
ghost use Rattle.mc_store.specs.{Made.HasNoneMadeBy, Passes.TookTurn, Passes.next_who};

use crate::caller::Caller;
use crate::locked::{LockedClass, LockedStripe};
use crate::named::Named;
use crate::placed::Placed;
use crate::store::Store;
use mc_board::Seen;
use mc_hits::Hands;
use mc_item::{Fault, Logged, Who};
use std::marker::Model;

/// A caller's pass: its number, its history and its account (which events of stripes and classes it made), how many turns (calls)
/// it has had, what it has seen and noted of each lock, and its hands in the queues of hits.
#[derive(Drop)]
pub struct Pass<N: Named> {
    pub(crate) caller: Caller<N>,
    pub(crate) seen: Seen,
    pub(crate) hands: Hands,
}

impl<N: Named> Model for Pass<N> {
    ghost use Rattle.std.specs.Prelude.{◌≡◌, length};
    ghost use Rattle.mc_evidence.specs.Seen.{stripes_seen};
    ghost use Rattle.mc_board.specs.Histories.{list_at};
    ghost use Rattle.mc_hits.specs.{Rule.AreBefore, Views.tables_of};
    ghost use Rattle.mc_store.specs.{Callers.turns_of, Passes.ArePlaced, Passes.PassView, Passes.pass_of};

    ghost Value = { PassView };

    ghost view = { λ p. pass_of p.caller p.seen.sight p.hands };

    ghost invariant = { λ p.
        (p.seen.board ≡ N.board.table)
        × ArePlaced N.config p.caller (stripes_seen (list_at p.seen.sight.seen))
        × (p.hands.tables ≡ tables_of N.queues)
        × (p.hands.caller ≡ p.caller.number)
        × AreBefore (length (turns_of p.caller.calls)) p.hands.offers };
}

impl<N: Named> Pass<N> {
    // The pass of a caller that has had no turn.
    pub(crate) fn new(caller: Caller<N>, seen: Seen, hands: Hands) -> Pass<N>
        requires empty { caller.calls ≡ [] }
        requires board { seen.board ≡ N.board.table }
        requires hands { hands ≡ untouched_hands (tables_of N.queues) caller.number }
        ensures { result ≡ record { caller = caller.number; turn = 0; calls = []; sight = seen.sight; hands = hands; made = caller.made } }
    {
        Pass {
            caller,
            seen,
            hands,
        }
    }

    /// Returns who makes the next call by this pass: the caller, in its next turn. A pass has had at most `max_events` turns.
    pub fn next_who(&self) -> Who
        ensures who { result ≡ next_who self.now }
        ensures few { self.now.turn ≤ N.config.max_events }
    {
        Who {
            caller: self.caller.number(),
            turn: self.caller.turn(),
        }
    }

    /// Returns where the pass's commands were answered, in their order: each one's turn, its stripe, and the place of its event in
    /// the stripe's history. It returns nothing if the store lets its histories go (`Config::keeps_events`).
    pub fn places(&self) -> &[Placed]
        ensures { result.now ≡ (if N.config.keeps_events then placed_in self.now.calls else []) }
    {
        self.caller.places()
    }

    // Takes the next turn for a call, adds the call to the caller's history, and returns who makes it.
    // Errors: `HistoryFull` if the pass has had `max_events` turns, then `NoMemory` if there is no memory to note where the call is
    // answered. Then nothing changes.
    pub(crate) fn take_turn<E: Logged>(&mut self, store: &Store<N>, event: &E) -> Result<Who, Fault>
        requires call { calls_told (call_events (E.entry event.now ∷ [])) ≡ E.entry event.now ∷ [] }
        requires one { length (turns_of (call_events (E.entry event.now ∷ []))) ≡ 1 }
        ensures took { IfOk result (TookTurn self.old self.new (call_events (E.entry event.now ∷ []))) }
        ensures err { OnErr result (self.new ≡ self.old) }
        ensures full { IsErrOf result HistoryFull → N.config.max_events ≤ self.old.turn }
        ensures turns { length (turns_of self.old.calls) ≡ self.old.turn }
    {
        let who = self.next_who();
        self.caller.begin(store, event)?;
        Ok(who)
    }

    // Takes the next turn for a call on a stripe whose lock is held, as `take_turn` does. No event of the stripe is of that turn.
    pub(crate) fn take_turn_on<E: Logged>(
        &mut self,
        store: &Store<N>,
        event: &E,
        stripe: &mut LockedStripe<N>,
    ) -> Result<Who, Fault>
        requires call { calls_told (call_events (E.entry event.now ∷ [])) ≡ E.entry event.now ∷ [] }
        requires one { length (turns_of (call_events (E.entry event.now ∷ []))) ≡ 1 }
        ensures took { IfOk result (TookTurn self.old self.new (call_events (E.entry event.now ∷ []))) }
        ensures err { OnErr result (self.new ≡ self.old) }
        ensures full { IsErrOf result HistoryFull → N.config.max_events ≤ self.old.turn }
        ensures turns { length (turns_of self.old.calls) ≡ self.old.turn }
        ensures stripe { stripe.new ≡ stripe.old }
        ensures first { HasNoneOf (next_who self.old) stripe.old.stripe.history }
    {
        self.caller.compare_stripe(&store.board, stripe);
        self.take_turn(store, event)
    }

    // Takes the next turn for a call on a class whose lock is held, as `take_turn` does. No event of the class is of that turn.
    pub(crate) fn take_turn_in<E: Logged>(
        &mut self,
        store: &Store<N>,
        event: &E,
        class: &mut LockedClass<N>,
    ) -> Result<Who, Fault>
        requires call { calls_told (call_events (E.entry event.now ∷ [])) ≡ E.entry event.now ∷ [] }
        requires one { length (turns_of (call_events (E.entry event.now ∷ []))) ≡ 1 }
        ensures took { IfOk result (TookTurn self.old self.new (call_events (E.entry event.now ∷ []))) }
        ensures err { OnErr result (self.new ≡ self.old) }
        ensures full { IsErrOf result HistoryFull → N.config.max_events ≤ self.old.turn }
        ensures turns { length (turns_of self.old.calls) ≡ self.old.turn }
        ensures class { class.new ≡ class.old }
        ensures first { HasNoneMadeBy (next_who self.old) class.old.class.history }
    {
        self.caller.compare_class(&store.board, class);
        self.take_turn(store, event)
    }
}
