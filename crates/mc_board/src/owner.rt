//! The owner of a lock's history.
ghost use Rattle.std.specs.Prelude.{◌≡◌, ◌<◌, ◌≤◌, ◌+◌, ◌^◌, ◌++◌, ◌∷◌, [], None, drop, length, map};
ghost use mathlib.Core.List.{IsPrefix};
ghost use Rattle.mc_evidence.specs.Seen.{class_events};
ghost use Rattle.mc_board.specs.Accounts.{AreBy, IsAccount, maker_in, with_new};
ghost use Rattle.mc_board.specs.Histories.{list_at, with_seen, Grows, HasFigures, HasNoted, HasSeen, IsAhead};
ghost use Rattle.mc_board.specs.{Figures.figures_of, Steps.owned_of, Steps.owned_told, Writing.IsOwnerAt};
ghost use Rattle.mc_board.specs.declared.rule.Stage.TheVariants as stages;
ghost use Rattle.mc_board.specs.declared.rule.View.TheVariants as views;

use crate::board::Board;
use crate::rule::Place;
use crate::seen::Seen;
use crate::steps::{Clashes, Compares, Hears, Never, Tells};
use crate::writing::{add, begin, end, enter, write};
use mc_history::{History, Shows};
use mc_item::{Logged, Who};
use std::marker::{Brand, Model};

/// The only token that can add to a lock's history. It knows the whole history, and has its figures in memory.
/// The owner of a caller's history also keeps the caller's account: which events of stripes and classes the caller made. It is
/// needed to make them. The account exists in proofs alone.
#[derive(Drop)]
pub struct Owner {
    word: usize,
    events: usize,
    figures: [u64; 8],
    place: Place,
}

impl Model for Owner {
    ghost use Rattle.std.specs.Prelude.{◌≡◌, ◌<◌, ◌+◌, ◌^◌, length};
    ghost use Rattle.mc_board.specs.{Figures.figures_of, Steps.owned_of, Views.OwnerView, Writing.IsOwnerAt};
    ghost use Rattle.mc_board.specs.declared.rule.Stage.TheVariants as stages;

    ghost Value = { OwnerView };

    ghost view = { λ o. record {
      board = o.place.table_id;
      lock = (owned_of o.place.me.0).lock;
      history = (owned_of o.place.me.0).history;
      first = (owned_of o.place.me.0).first;
      made = (owned_of o.place.me.0).made;
    } };

    ghost invariant = { λ o.
        IsOwnerAt o.word stages.Still o.place.me
        × (length (owned_of o.place.me.0).history ≡ o.events)
        × (o.figures ≡ figures_of (owned_of o.place.me.0).history)
        × (o.word + 8 < o.place.table_id.words)
        × (o.place.table_id.words < 2 ^ 64) };
}

impl Owner {
    // Makes an owner from its seat at the table. The history has no event yet.
    pub(crate) fn at(word: usize, place: Place) -> Owner
        requires owner { IsOwnerAt word stages.Still place.me }
        requires word { (word + 8 < place.table_id.words) × (place.table_id.words < 2 ^ 64) }
        requires empty { (owned_of place.me.0).history ≡ [] }
        ensures { result ≡ record {
          board = place.table_id;
          lock = (owned_of place.me.0).lock;
          history = (owned_of place.me.0).history;
          first = (owned_of place.me.0).first;
          made = (owned_of place.me.0).made;
        } }
    {
        Owner {
            word,
            events: 0,
            figures: [0; 8],
            place,
        }
    }

    /// Adds the event of a caller's own history at the end, in one atomic step. Allocates nothing and never waits.
    /// It is no class's event, so the figures stay. Before the call the history has fewer than 2^63 - 1 events.
    #[inline(always)]
    pub fn append<E: Logged>(&mut self, board: &Board, event: &E)
        requires board { self.old.board ≡ board.now.table }
        requires room { length self.old.history + 1 < 2 ^ 63 }
        requires plain { class_events (E.entry event.now ∷ []) ≡ [] }
        requires own { maker_in (E.entry event.now) ≡ None }
        ensures history { self.new ≡ record self.old {
          history = self.old.history ++ E.entry event.now ∷ [];
        } }
    {
        add::<Brand, E>(board, self.word, &mut self.place, 1, event);
        self.events += 1;
    }

    /// Adds the events of the list that the history doesn't have yet, in order and in one atomic step. Allocates nothing and never
    /// waits. None is a class's event, so the figures stay.
    /// Before the call the history is a beginning of the list, and after it the two are equal. The list has at most 2^32 events.
    /// All new events are of one call, `who`. `caller` is the owner of its caller's history, and enters them in its account.
    #[inline(always)]
    pub fn catch_up<E: Logged + Drop, S: Shows<E> + Drop>(
        &mut self,
        board: &Board,
        events: &History<E, S>,
        who: Who,
        caller: &mut Owner,
    )
        requires board { (self.old.board ≡ board.now.table) × (caller.old.board ≡ board.now.table) }
        requires behind { IsPrefix self.old.history (map E.entry events.now.items) }
        requires room { length events.now.items ≤ 2 ^ 32 }
        requires plain { class_events (map E.entry events.now.items) ≡ [] }
        requires by { AreBy who (drop (length self.old.history) (map E.entry events.now.items)) × (caller.old.first + who.caller ≡ caller.old.lock) }
        ensures history { self.new ≡ record self.old { history = map E.entry events.now.items } }
        ensures caller { caller.new ≡ record caller.old {
          made = with_new caller.old.made who.turn self.old.lock (length self.old.history) (length events.now.items);
        } }
    {
        let count = events.len() - self.len();
        if count > 0 {
            enter::<Brand, History<E, S>>(board, &mut caller.place, &mut self.place, who, events);
            add::<Brand, History<E, S>>(board, self.word, &mut self.place, count, events);
            self.events = events.len();
        }
    }

    fn len(&self) -> usize
        ensures { result ≡ length self.now.history }
    {
        self.events
    }

    /// Adds the events of the list that the history doesn't have yet, in order and in one atomic step, once the figures that changed
    /// are written. These are the figures that the whole list leaves. In between, a token that reads them finds the lock busy.
    /// Allocates nothing and never waits. Without such events it does nothing.
    /// Before the call the history is a beginning of the list, and after it the two are equal. The list has at most 2^32 events.
    /// All new events are of one call, `who`. `caller` is the owner of its caller's history, and enters them in its account.
    #[inline(always)]
    pub fn publish<E: Logged + Drop, S: Shows<E> + Drop>(
        &mut self,
        board: &Board,
        events: &History<E, S>,
        figures: &[u64; 8],
        who: Who,
        caller: &mut Owner,
    )
        requires board { (self.old.board ≡ board.now.table) × (caller.old.board ≡ board.now.table) }
        requires behind { IsPrefix self.old.history (map E.entry events.now.items) }
        requires room { length events.now.items ≤ 2 ^ 32 }
        requires figures { figures.now ≡ figures_of (map E.entry events.now.items) }
        requires by { AreBy who (drop (length self.old.history) (map E.entry events.now.items)) × (caller.old.first + who.caller ≡ caller.old.lock) }
        ensures history { self.new ≡ record self.old { history = map E.entry events.now.items } }
        ensures caller { caller.new ≡ record caller.old {
          made = with_new caller.old.made who.turn self.old.lock (length self.old.history) (length events.now.items);
        } }
    {
        let count = events.len() - self.len();
        if count > 0 {
            enter::<Brand, History<E, S>>(board, &mut caller.place, &mut self.place, who, events);
            begin(board, self.word, &mut self.place);
            write(board, self.word, &mut self.place, &self.figures, figures);
            end::<Brand, History<E, S>>(board, self.word, &mut self.place, count, events);
            self.events = events.len();
            self.figures = *figures;
        }
    }

    /// Compares the history and the account with a token. Nothing changes.
    /// What the token has seen of this lock is a beginning of the history. What it has noted is at most the history's length. The
    /// figures that it has noted of this lock are those of beginnings of the history. If the lock is a caller's, the account has each
    /// event of a stripe or class that the token has seen and that this caller made.
    pub fn compare(&mut self, board: &Board, seen: &mut Seen)
        requires board { (self.old.board ≡ board.now.table) × (seen.old.board ≡ board.now.table) }
        ensures same { (self.new ≡ self.old) × (seen.new ≡ seen.old) }
        ensures seen { HasSeen self.old.history seen.old.sight self.old.lock }
        ensures noted { HasNoted self.old.history seen.old.sight self.old.lock }
        ensures figures { HasFigures self.old.history seen.old.sight self.old.lock }
        ensures account { IsAccount self.old.first self.old.lock self.old.made (list_at seen.old.sight.seen) }
    {
        hear(board, self.word, &mut self.place, seen);
    }

    /// Shows a token this lock's whole history, which the token has then seen. What it has seen of other locks stays.
    /// What it had seen of this lock was a beginning of the history, and what it has noted is at most the history's length.
    #[inline(always)]
    pub fn tell(&mut self, board: &Board, seen: &mut Seen)
        requires board { (self.old.board ≡ board.now.table) × (seen.old.board ≡ board.now.table) }
        ensures same { self.new ≡ self.old }
        ensures whole { seen.new ≡ record seen.old {
          sight = with_seen seen.old.sight self.old.lock self.old.history;
        } }
        ensures grown { HasSeen self.old.history seen.old.sight self.old.lock }
        ensures grows { Grows seen.old.sight seen.new.sight }
        ensures noted { HasNoted self.old.history seen.old.sight self.old.lock }
    {
        let place = &mut self.place;
        hear(board, self.word, place, seen);
        *seen = Seen::at(board.table.shared.split_seat::<Tells>(place));
    }

    /// Says that a point is never reached, as no two owners of a board have the same lock. So whoever has two and finds the same
    /// number in both can call it.
    pub fn clash(self, board: &Board, other: Owner) -> !
        requires board { (self.board ≡ board.now.table) × (other.board ≡ board.now.table) }
        requires same { self.lock ≡ other.lock }
    {
        let Owner { mut place, .. } = self;
        let Owner { place: taken, .. } = other;
        board.table.shared.join_seat::<Clashes>(&mut place, taken);
        board.table.shared.load::<Never>(&mut place, 0);
        unreachable!()
    }
}

// Shows the owner a copy of what the token has seen, and compares it with the owner's history.
#[inline(always)]
fn hear(board: &Board, word: usize, place: &mut Place, seen: &mut Seen)
    requires board { (place.old.table_id ≡ board.now.table) × (seen.old.board ≡ board.now.table) }
    requires owner { place.old.me ≡ (views.Owner (owned_of place.old.me.0), []) }
    requires word { word < board.now.table.words }
    ensures place { (place.new.table_id ≡ place.old.table_id) × (place.new.id ≡ place.old.id) }
    ensures told { place.new.me ≡ (views.Owner (owned_told (owned_of place.old.me.0) seen.old.sight), []) }
    ensures same { seen.new ≡ seen.old }
    ensures ahead { IsAhead (owned_of place.old.me.0).history seen.old.sight (owned_of place.old.me.0).lock }
    ensures account { IsAccount (owned_of place.old.me.0).first (owned_of place.old.me.0).lock (owned_of place.old.me.0).made (list_at seen.old.sight.seen) }
{
    let copy = seen.copy(board);
    board.table.shared.join_seat::<Hears>(place, copy);
    board.table.shared.load::<Compares>(place, word);
}
