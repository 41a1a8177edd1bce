//! Tokens: what a thread knows of histories whose locks it doesn't hold.
ghost use Rattle.std.specs.Prelude.{◌≡◌, ◌<◌, ◌≤◌, ◌/◌, ◌%◌, ◌⊎◌, [], length, IfErr, IfOk, MatchResult};
ghost use Rattle.mc_board.specs.Histories.{list_at, number_at, with_figures, with_noted, AreInLine, Grows};
ghost use Rattle.mc_board.specs.{Learning.known_learned, Learning.with_learned, Looking.note_of, Views.locks_of};
ghost use Rattle.mc_board.specs.Steps.{known_of, known_told, seeing};
ghost use Rattle.mc_board.specs.declared.rule.View.TheVariants as views;

use crate::board::Board;
use crate::figures::{Busy, Figures, check_look, gather, open_look};
use crate::rule::Place;
use crate::steps::{Copies, Hears, Learns, Meets};
use std::marker::Model;

/// A token. For each lock it has seen a beginning of the history, and has noted a length that the history has reached. It may
/// also have noted figures of beginnings.
#[derive(Drop)]
pub struct Seen {
    place: Place,
}

impl Model for Seen {
    ghost use Rattle.std.specs.Prelude.{◌≡◌, []};
    ghost use Rattle.mc_board.specs.{Views.SeenView, Steps.known_of};
    ghost use Rattle.mc_board.specs.declared.rule.View.TheVariants as views;

    ghost Value = { SeenView };

    ghost view = { λ s. record { board = s.place.table_id; sight = (known_of s.place.me.0).sight } };

    ghost invariant = { λ s. s.place.me ≡ (views.Seen (known_of s.place.me.0), []) };
}

impl Seen {
    // Makes a token from its seat at the table.
    pub(crate) fn at(place: Place) -> Seen
        requires { place.me ≡ (views.Seen (known_of place.me.0), []) }
        ensures { result ≡ record { board = place.table_id; sight = (known_of place.me.0).sight } }
    {
        Seen { place }
    }

    // A second seat, which has seen and noted what this token has.
    pub(crate) fn copy(&mut self, board: &Board) -> Place
        requires { self.old.board ≡ board.now.table }
        ensures same { self.new ≡ self.old }
        ensures copy { (result.table_id ≡ board.now.table) × (result.me ≡ (seeing self.old.sight, [])) }
    {
        board.table.shared.split_seat::<Copies>(&mut self.place)
    }

    /// Splits off a second token, which has seen and noted the same.
    pub fn split(&mut self, board: &Board) -> Seen
        requires { self.old.board ≡ board.now.table }
        ensures same { self.new ≡ self.old }
        ensures second { result ≡ self.old }
    {
        Seen::at(self.copy(board))
    }

    /// Reads the length of a lock's history in one atomic step, and notes it. Allocates nothing and never waits.
    /// The result is no less than the length of what the token has seen of the lock, and no less than what it had noted.
    pub fn count(&mut self, board: &Board, lock: usize) -> u64
        requires board { self.old.board ≡ board.now.table }
        requires lock { lock < locks_of board.now.counts }
        ensures noted { self.new ≡ record self.old { sight = with_noted self.old.sight lock result } }
        ensures seen { length (list_at self.old.sight.seen lock) ≤ result }
        ensures later { number_at self.old.sight.noted lock ≤ result }
    {
        let word = board.first_word(lock);
        open_look(board, lock, word, &mut self.place) / 2
    }

    /// Reads the figures of a lock's history, all of one moment, and notes them. It is one try, of ten atomic loads at most.
    /// Allocates nothing and never waits. The figures are of no fewer events than the token has seen or noted of the lock.
    /// Errors: `Busy` if the lock's owner was writing, or has written between the loads. Then half of the last number is noted, as
    /// by `count`.
    pub fn figures(&mut self, board: &Board, lock: usize) -> Result<Figures, Busy>
        requires board { self.old.board ≡ board.now.table }
        requires lock { lock < locks_of board.now.counts }
        ensures noted { MatchResult result
            (λ f. self.new ≡ record self.old { sight = with_figures (with_noted self.old.sight lock f.events) (note_of lock f) })
            (λ b. self.new ≡ record self.old { sight = with_noted self.old.sight lock (b.last / 2) }) }
        ensures seen { IfOk result (λ f. length (list_at self.old.sight.seen lock) ≤ f.events) }
        ensures later { MatchResult result
            (λ f. number_at self.old.sight.noted lock ≤ f.events)
            (λ b. number_at self.old.sight.noted lock ≤ b.first / 2) }
        ensures busy { IfErr result (λ b. ((b.first % 2 ≡ 1) × (b.last ≡ b.first)) ⊎ (b.first < b.last)) }
    {
        let word = board.first_word(lock);
        let first = open_look(board, lock, word, &mut self.place);
        if first % 2 == 1 {
            return Err(Busy { first, last: first });
        }
        let v = gather(board, word, &mut self.place);
        let last = check_look(board, word, &mut self.place);
        if last != first {
            return Err(Busy { first, last });
        }
        Ok(Figures {
            events: first / 2,
            bytes: [v[0], v[1], v[2], v[3]],
            counts: [v[4], v[5], v[6], v[7]],
        })
    }

    /// Learns what another token has seen. Afterwards this token has seen, for each lock, all that either of the two had.
    /// What it has noted stays, and the other token is unchanged. Allocates nothing and never waits.
    pub fn learn(&mut self, board: &Board, other: &mut Seen)
        requires board { (self.old.board ≡ board.now.table) × (other.old.board ≡ board.now.table) }
        ensures other { other.new ≡ other.old }
        ensures board { self.new.board ≡ self.old.board }
        ensures learned { self.new.sight ≡ with_learned self.old.sight other.old.sight }
        ensures mine { Grows self.old.sight self.new.sight }
        ensures theirs { Grows other.old.sight self.new.sight }
    {
        let theirs = other.copy(board);
        take_in(board, &mut self.place, theirs);
    }

    /// Compares two tokens: for each lock, what one of them has seen is a beginning of what the other has. Nothing changes.
    pub fn meet(&mut self, board: &Board, other: &mut Seen)
        requires board { (self.old.board ≡ board.now.table) × (other.old.board ≡ board.now.table) }
        ensures same { (self.new ≡ self.old) × (other.new ≡ other.old) }
        ensures in_line { AreInLine self.old.sight other.old.sight }
    {
        let copy = other.copy(board);
        line_up(board, &mut self.place, copy);
    }
}

// Joins another token's copy into this seat, which has then seen all that either had.
fn take_in(board: &Board, place: &mut Place, copy: Place)
    requires board { (place.old.table_id ≡ board.now.table) × (copy.table_id ≡ board.now.table) }
    requires token { place.old.me ≡ (views.Seen (known_of place.old.me.0), []) }
    requires copy { copy.me ≡ (views.Seen (known_of copy.me.0), []) }
    ensures place { (place.new.table_id ≡ place.old.table_id) × (place.new.id ≡ place.old.id) }
    ensures learned { place.new.me
        ≡ (views.Seen (known_learned (known_told (known_of place.old.me.0) (known_of copy.me.0).sight)), []) }
    ensures mine { Grows (known_of place.old.me.0).sight (known_of place.new.me.0).sight }
    ensures theirs { Grows (known_of copy.me.0).sight (known_of place.new.me.0).sight }
{
    board.table.shared.join_seat::<Hears>(place, copy);
    board.table.shared.load::<Learns>(place, 0);
}

// Joins another token's copy into this seat, and compares what the two have seen.
fn line_up(board: &Board, place: &mut Place, copy: Place)
    requires board { (place.old.table_id ≡ board.now.table) × (copy.table_id ≡ board.now.table) }
    requires token { place.old.me ≡ (views.Seen (known_of place.old.me.0), []) }
    requires copy { copy.me ≡ (views.Seen (known_of copy.me.0), []) }
    ensures place { (place.new.table_id ≡ place.old.table_id) × (place.new.id ≡ place.old.id) }
    ensures told { place.new.me
        ≡ (views.Seen (known_told (known_of place.old.me.0) (known_of copy.me.0).sight), []) }
    ensures in_line { AreInLine (known_of place.old.me.0).sight (known_of copy.me.0).sight }
{
    board.table.shared.join_seat::<Hears>(place, copy);
    board.table.shared.load::<Meets>(place, 0);
}
