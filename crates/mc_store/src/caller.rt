//! A caller and its history. In its presence the board gets the events that it makes on stripes and classes.
ghost use Rattle.std.specs.Prelude.{◌≡◌, ◌<◌, ◌≤◌, ◌^◌, ◌++◌, ◌∷◌, ℕ, [], if◌then◌else◌, drop, length, OnOk, OnErr, IsErrOf};
ghost use mathlib.Core.List.{IsPrefix};
ghost use Rattle.mc_item.specs.declared.fault.Fault.TheVariants.{HistoryFull};
ghost use Rattle.mc_item.specs.declared.{call_event.CallEvent.CallEvent, item.Who.Who};
ghost use Rattle.mc_board.specs.{Accounts.AreBy, Accounts.IsAccount, Accounts.with_new, Histories.list_at, Histories.with_seen};
ghost use Rattle.mc_board.specs.{Histories.Grows, Histories.HasSeen, Views.new_owner};
ghost use Rattle.mc_store.specs.{Callers.HasNoneOf, Callers.IsUnanswered, Callers.answered_at, Callers.call_events, Callers.calls_told, Callers.placed_in};
ghost use Rattle.mc_store.specs.{Callers.turns_of, Locked.caller_place, Locked.locks_for, Locked.HasBegunAs};
ghost use Rattle.mc_store.specs.{Made.HasNoneMadeBy, Passes.HasCalled, Passes.next_call, Sides.class_told, Sides.stripe_told};

use crate::locked::{LockedClass, LockedStripe};
use crate::named::Named;
use crate::owned_class::OwnedClass;
use crate::placed::Placed;
use crate::store::Store;
use mc_board::{Board, Owner, Seen};
use mc_item::{Answered, CallEvent, Config, Fault, Logged, StripeNo, Who};
use mc_segment::ClassState;
use mc_stripe::StripeState;
use std::alloc::Global;
use std::marker::{Model, PhantomData};

/// A caller: its number, the owner of its history on the board, which has its account too, how many turns (calls) it has had, and
/// where its commands were answered, if the store keeps histories.
#[derive(Drop)]
pub(crate) struct Caller<N: Named> {
    number: u32,
    owner: Owner,
    turn: u64,
    keeps: bool,
    places: Vec<Placed>,
    of: PhantomData<N>,
}

impl<N: Named> Model for Caller<N> {
    ghost use Rattle.std.specs.Prelude.{◌≡◌, ◌<◌, ◌≤◌, ◌+◌, ◌^◌, [], true, if◌then◌else◌, length, vec_capacity, vec_len};
    ghost use Rattle.mc_store.specs.{Callers.IsUnanswered, Callers.call_events, Callers.calls_told, Callers.placed_in, Callers.turns_of};
    ghost use Rattle.mc_store.specs.{Locked.caller_place, Locked.locks_for, Passes.CallerView};

    ghost Value = { CallerView };

    ghost view = { λ c. record { number = c.number; calls = call_events c.owner.history; made = c.owner.made } };

    ghost invariant = { λ c.
        (c.number < N.config.callers)
        × (c.owner.board ≡ N.board.table)
        × (c.owner.first ≡ locks_for N.config)
        × (c.owner.lock ≡ caller_place N.config c.number)
        × (c.owner.history ≡ calls_told (call_events c.owner.history))
        × (c.turn ≡ length (turns_of (call_events c.owner.history)))
        × (c.turn ≤ N.config.max_events)
        × (length c.owner.history ≤ c.turn + c.turn)
        × (c.keeps ≡ N.config.keeps_events)
        × (c.places.items ≡ (if c.keeps then placed_in (call_events c.owner.history) else []))
        × (IsUnanswered (call_events c.owner.history)
        → (length c.owner.history < c.turn + c.turn) × (c.keeps ≡ true → vec_len c.places < vec_capacity c.places))
        × (N.config.max_events ≤ 2 ^ 32) };
}

impl<N: Named> Caller<N> {
    // A caller that has made no call yet.
    pub(crate) fn new(alloc: Global, config: &Config, number: u32, owner: Owner) -> Caller<N>
        requires config { (config.now ≡ N.config) × (N.config.max_events ≤ 2 ^ 32) }
        requires of { number < N.config.callers }
        requires owner { owner ≡ new_owner N.board.table (locks_for N.config) (caller_place N.config number) }
        ensures { result ≡ record { number = number; calls = []; made = [] } }
    {
        Caller {
            number,
            owner,
            turn: 0,
            keeps: config.keeps_events,
            places: Vec::new(alloc),
            of: PhantomData,
        }
    }

    pub(crate) fn number(&self) -> u32
        ensures { result ≡ self.now.number }
    {
        self.number
    }

    // How many turns (calls) it has had, at most `max_events`.
    pub(crate) fn turn(&self) -> u64
        ensures turns { result ≡ length (turns_of self.now.calls) }
        ensures few { result ≤ N.config.max_events }
    {
        self.turn
    }

    // Where its commands were answered, in order, if the store keeps histories, and else nothing.
    pub(crate) fn places(&self) -> &[Placed]
        ensures { result.now ≡ (if N.config.keeps_events then placed_in self.now.calls else []) }
    {
        self.places.as_slice()
    }

    // Adds a call to the history, before it is made.
    // Errors: `HistoryFull` if the caller has had `max_events` turns, then `NoMemory` if there is no memory to note where the call
    // is answered. Then nothing changes.
    pub(crate) fn begin<E: Logged>(&mut self, store: &Store<N>, event: &E) -> Result<(), Fault>
        requires call { calls_told (call_events (E.entry event.now ∷ [])) ≡ E.entry event.now ∷ [] }
        requires one { length (turns_of (call_events (E.entry event.now ∷ []))) ≡ 1 }
        ensures begun { OnOk result (self.new ≡ record self.old { calls = self.old.calls ++ call_events (E.entry event.now ∷ []) }) }
        ensures err { OnErr result (self.new ≡ self.old) }
        ensures full { IsErrOf result HistoryFull → N.config.max_events ≤ length (turns_of self.old.calls) }
    {
        if self.turn >= store.config.max_events {
            return Err(Fault::HistoryFull);
        }
        if self.keeps {
            self.places.reserve(1)?;
        }
        self.owner.append(&store.board, event);
        self.turn += 1;
        Ok(())
    }

    // Adds that its last call, a command, was answered by the event at this place of the stripe's history, and shows a token the
    // whole history.
    #[inline(always)]
    pub(crate) fn note(&mut self, board: &Board, stripe: StripeNo, place: u64, seen: &mut Seen)
        requires board { (board.now.table ≡ N.board.table) × (seen.old.board ≡ N.board.table) }
        requires last { IsUnanswered self.old.calls }
        ensures of { self.old.number < N.config.callers }
        ensures noted { self.new ≡ record self.old { calls = self.old.calls ++ answered_at stripe.0 place ∷ [] } }
        ensures told { seen.new ≡ record seen.old { sight = with_seen seen.old.sight (caller_place N.config self.old.number) (calls_told self.new.calls) } }
        ensures grows { Grows seen.old.sight seen.new.sight }
    {
        let event = CallEvent::Answered(Answered { stripe, place });
        self.owner.append(board, &event);
        if self.keeps {
            self.places.push_reserved(Placed {
                turn: self.turn - 1,
                stripe,
                place,
            });
        }
        self.owner.tell(board, seen);
    }

    // Adds to the board the events of the stripe that the board lacks. All are of this call of the caller, whose account gains them.
    #[inline(always)]
    pub(crate) fn catch_up_stripe(
        &mut self,
        board: &Board,
        who: Who,
        state: &StripeState,
        owner: &mut Owner,
    )
        requires board { (owner.old.board ≡ board.now.table) × (board.now.table ≡ N.board.table) }
        requires behind { IsPrefix owner.old.history (stripe_told state.now.history) }
        requires by { AreBy who (drop (length owner.old.history) (stripe_told state.now.history)) }
        requires caller { who.caller ≡ self.old.number }
        ensures entered { self.new ≡ record self.old {
          made = with_new self.old.made who.turn owner.old.lock (length owner.old.history) (length state.now.history);
        } }
        ensures told { owner.new ≡ record owner.old { history = stripe_told state.now.history } }
    {
        owner.catch_up(board, state.history(), who, &mut self.owner);
    }

    // Adds to the board the events of the class that the board lacks, with the figures that they leave. All are of this call of the
    // caller, whose account gains them.
    #[inline(always)]
    pub(crate) fn catch_up_class(
        &mut self,
        board: &Board,
        who: Who,
        state: &ClassState,
        owner: &mut Owner,
    )
        requires board { (owner.old.board ≡ board.now.table) × (board.now.table ≡ N.board.table) }
        requires behind { IsPrefix owner.old.history (class_told state.now.history) }
        requires by { AreBy who (drop (length owner.old.history) (class_told state.now.history)) }
        requires caller { who.caller ≡ self.old.number }
        ensures entered { self.new ≡ record self.old {
          made = with_new self.old.made who.turn owner.old.lock (length owner.old.history) (length state.now.history);
        } }
        ensures told { owner.new ≡ record owner.old { history = class_told state.now.history } }
    {
        state.law();
        owner.publish(
            board,
            state.history(),
            &state.figures(),
            who,
            &mut self.owner,
        );
    }

    // Shows a token the whole history. It has then seen each call that the caller began.
    #[inline(always)]
    fn tell(&mut self, board: &Board, seen: &mut Seen)
        requires board { (board.now.table ≡ N.board.table) × (seen.old.board ≡ N.board.table) }
        ensures same { self.new ≡ self.old }
        ensures board { seen.new.board ≡ seen.old.board }
        ensures grows { Grows seen.old.sight seen.new.sight }
        ensures begun { (who : Who) (moment : ℕ) (call : CallEvent) → HasCalled self.old who moment call → HasBegunAs N.config seen.new.sight who moment call }
        ensures of { self.old.number < N.config.callers }
        ensures whole { list_at seen.new.sight.seen (caller_place N.config self.old.number) ≡ calls_told self.old.calls }
    {
        self.owner.tell(board, seen);
    }

    // Shows the history to a stripe under its lock.
    #[inline(always)]
    pub(crate) fn tell_stripe(&mut self, board: &Board, stripe: &mut LockedStripe<N>)
        requires board { board.now.table ≡ N.board.table }
        ensures same { self.new ≡ self.old }
        ensures stripe { stripe.new ≡ record stripe.old { sight = stripe.new.sight } }
        ensures grows { Grows stripe.old.sight stripe.new.sight }
        ensures begun { (who : Who) (moment : ℕ) (call : CallEvent) → HasCalled self.old who moment call
            → HasBegunAs N.config stripe.new.sight who moment call }
    {
        self.tell(board, &mut stripe.side.seen);
    }

    // Shows the history to a class that may not meet its lock's invariant yet, as it has new events of the call.
    #[inline(always)]
    pub(crate) fn tell_owned(&mut self, board: &Board, class: &mut OwnedClass)
        requires board { (board.now.table ≡ N.board.table) × (class.old.board ≡ N.board.table) }
        ensures same { self.new ≡ self.old }
        ensures class { class.new ≡ record class.old { sight = class.new.sight } }
        ensures grows { Grows class.old.sight class.new.sight }
        ensures begun { (who : Who) (moment : ℕ) (call : CallEvent) → HasCalled self.old who moment call → HasBegunAs N.config class.new.sight who moment call }
    {
        self.tell(board, &mut class.seen);
    }

    // Shows the history to a class under its lock.
    pub(crate) fn tell_class(&mut self, board: &Board, class: &mut LockedClass<N>)
        requires board { board.now.table ≡ N.board.table }
        ensures same { self.new ≡ self.old }
        ensures class { class.new ≡ record class.old { sight = class.new.sight } }
        ensures grows { Grows class.old.sight class.new.sight }
        ensures begun { (who : Who) (moment : ℕ) (call : CallEvent) → HasCalled self.old who moment call → HasBegunAs N.config class.new.sight who moment call }
        ensures of { self.old.number < N.config.callers }
        ensures whole { list_at class.new.sight.seen (caller_place N.config self.old.number) ≡ calls_told self.old.calls }
    {
        self.tell(board, &mut class.side.seen);
    }

    // Compares the history with a stripe under its lock, which has seen a beginning of it. So no event of the stripe is of the
    // caller's next turn. Nothing changes.
    pub(crate) fn compare_stripe(&mut self, board: &Board, stripe: &mut LockedStripe<N>)
        requires board { board.now.table ≡ N.board.table }
        ensures same { (self.new ≡ self.old) × (stripe.new ≡ stripe.old) }
        ensures first { HasNoneOf (next_call self.old) stripe.old.stripe.history }
    {
        self.compare(board, &mut stripe.side.seen);
    }

    // Compares the history with a class under its lock, as `compare_stripe` does with a stripe.
    pub(crate) fn compare_class(&mut self, board: &Board, class: &mut LockedClass<N>)
        requires board { board.now.table ≡ N.board.table }
        ensures same { (self.new ≡ self.old) × (class.new ≡ class.old) }
        ensures first { HasNoneMadeBy (next_call self.old) class.old.class.history }
    {
        self.compare(board, &mut class.side.seen);
    }

    // Compares the history with a token: it has seen a beginning of it, and of what it has seen, the account has each event that the
    // caller made. Nothing changes.
    pub(crate) fn compare(&mut self, board: &Board, seen: &mut Seen)
        requires board { (board.now.table ≡ N.board.table) × (seen.old.board ≡ N.board.table) }
        ensures same { (self.new ≡ self.old) × (seen.new ≡ seen.old) }
        ensures behind { HasSeen (calls_told self.old.calls) seen.old.sight (caller_place N.config self.old.number) }
        ensures account { IsAccount (locks_for N.config) (caller_place N.config self.old.number) self.old.made (list_at seen.old.sight.seen) }
    {
        self.owner.compare(board, seen);
    }
}
