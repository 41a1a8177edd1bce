//! The steps of an owner on its lock's words, and of a caller's owner on its account.
ghost use Rattle.std.specs.Prelude.{◌≡◌, ◌<◌, ◌≤◌, ◌+◌, ◌-◌, ◌^◌, ◌++◌, [], length, slice_index};
ghost use Rattle.mc_evidence.specs.Seen.{class_events};
ghost use Rattle.mc_board.specs.{Accounts.AreShown, Figures.figures_of, Steps.account_of, Steps.owned_entered, Steps.owned_of, Steps.owned_shown};
ghost use Rattle.mc_board.specs.Writing.{owned_in, owned_with, values_in, written_in, IsOwnerAt};
ghost use Rattle.mc_board.specs.declared.rule.Stage.TheVariants as stages;
ghost use Rattle.mc_board.specs.declared.rule.View.TheVariants as views;

use crate::board::Board;
use crate::naming::{NamesEvents, NamesSpan};
use crate::rule::Place;
use crate::steps::{Adds, Begins, Ends, Enters, ShowsAccount, Writes};
use mc_item::Who;

// Enters in a caller's account the events that `N` names, and shows the account to the owner of their lock.
// Only proofs need `_who` and `_named_by`: no byte of them is read.
#[inline(always)]
pub(crate) fn enter<N: NamesSpan, A>(
    board: &Board,
    caller: &mut Place,
    place: &mut Place,
    _who: Who,
    _named_by: &A,
)
    requires board { (place.old.table_id ≡ board.now.table) × (caller.old.table_id ≡ board.now.table) }
    requires caller { caller.old.me ≡ (views.Owner (owned_of caller.old.me.0), []) }
    requires owner { place.old.me ≡ (views.Owner (owned_of place.old.me.0), []) }
    ensures caller { (caller.new.table_id ≡ caller.old.table_id) × (caller.new.id ≡ caller.old.id) }
    ensures place { (place.new.table_id ≡ place.old.table_id) × (place.new.id ≡ place.old.id) }
    ensures entered { caller.new.me ≡ (views.Owner (owned_entered (owned_of caller.old.me.0) N.span), []) }
    ensures shown { place.new.me
        ≡ (views.Owner (owned_shown (owned_of place.old.me.0) (account_of (owned_entered (owned_of caller.old.me.0) N.span))), []) }
{
    let copy = board.table.shared.split_seat::<Enters<N>>(caller);
    board.table.shared.join_seat::<ShowsAccount>(place, copy);
}

// Adds the events that `N` names, `count` of them, in one atomic step. None is a class's, so no figure changes.
// Only proofs need `_named_by`: no byte of it is read.
#[inline(always)]
pub(crate) fn add<N: NamesEvents, A>(
    board: &Board,
    word: usize,
    place: &mut Place,
    count: usize,
    _named_by: &A,
)
    requires board { place.old.table_id ≡ board.now.table }
    requires owner { IsOwnerAt word stages.Still place.old.me }
    requires word { word < board.now.table.words }
    requires count { (0 < count) × (count ≡ length N.entries) × (length (owned_of place.old.me.0).history + count < 2 ^ 63) }
    requires plain { class_events N.entries ≡ [] }
    requires shown { AreShown (owned_of place.old.me.0) N.entries }
    ensures place { (place.new.table_id ≡ place.old.table_id) × (place.new.id ≡ place.old.id) }
    ensures added { place.new.me
        ≡ (views.Owner (owned_with (owned_of place.old.me.0) N.entries), []) }
{
    board
        .table
        .shared
        .fetch_add::<Adds<N>>(place, word, 2 * count as u64);
}

// Says in one atomic step that figures are about to change.
#[inline(always)]
pub(crate) fn begin(board: &Board, word: usize, place: &mut Place)
    requires board { place.old.table_id ≡ board.now.table }
    requires owner { IsOwnerAt word stages.Still place.old.me }
    requires word { word < board.now.table.words }
    requires room { length (owned_of place.old.me.0).history < 2 ^ 63 }
    ensures place { (place.new.table_id ≡ place.old.table_id) × (place.new.id ≡ place.old.id) }
    ensures begun { place.new.me ≡ (
      views.Owner
          (owned_in (owned_of place.old.me.0) (stages.Writing (figures_of (owned_of place.old.me.0).history))),
      [],
    ) }
{
    board.table.shared.fetch_add::<Begins>(place, word, 1);
}

// Writes the figures that differ from the old ones, each in one atomic step.
#[inline(always)]
pub(crate) fn write(
    board: &Board,
    word: usize,
    place: &mut Place,
    old: &[u64; 8],
    figures: &[u64; 8],
)
    requires board { place.old.table_id ≡ board.now.table }
    requires owner { IsOwnerAt word (stages.Writing old.now) place.old.me }
    requires word { (word + 8 < board.now.table.words) × (board.now.table.words < 2 ^ 64) }
    ensures place { (place.new.table_id ≡ place.old.table_id) × (place.new.id ≡ place.old.id) }
    ensures written { place.new.me
        ≡ (views.Owner (owned_in (owned_of place.old.me.0) (stages.Writing figures.now)), []) }
{
    for i in 0..8 {
        write_one(board, word + (i + 1), place, old[i], figures[i]);
    }
}

// Writes one figure in one atomic step, if it differs from the old one.
#[inline(always)]
fn write_one(board: &Board, word: usize, place: &mut Place, old: u64, figure: u64)
    requires board { place.old.table_id ≡ board.now.table }
    requires owner { IsOwnerAt (owned_of place.old.me.0).word (stages.Writing (values_in (owned_of place.old.me.0).stage)) place.old.me }
    requires word { word < board.now.table.words }
    requires place { ((owned_of place.old.me.0).word < word) × (word ≤ (owned_of place.old.me.0).word + 8) }
    requires old { slice_index (values_in (owned_of place.old.me.0).stage) (word - ((owned_of place.old.me.0).word + 1)) ≡ old }
    ensures place { (place.new.table_id ≡ place.old.table_id) × (place.new.id ≡ place.old.id) }
    ensures written { place.new.me ≡ (written_in word figure place.old.me.0, []) }
{
    if old != figure {
        board.table.shared.store::<Writes>(place, word, figure);
    }
}

// Adds the events that `N` names, `count` of them, in one atomic step, once their figures are written.
// Only proofs need `_named_by`: no byte of it is read.
#[inline(always)]
pub(crate) fn end<N: NamesEvents, A>(
    board: &Board,
    word: usize,
    place: &mut Place,
    count: usize,
    _named_by: &A,
)
    requires board { place.old.table_id ≡ board.now.table }
    requires owner { IsOwnerAt word (stages.Writing (figures_of ((owned_of place.old.me.0).history ++ N.entries))) place.old.me }
    requires word { word < board.now.table.words }
    requires count { (0 < count) × (count ≡ length N.entries) }
    requires room { length (owned_of place.old.me.0).history + count < 2 ^ 63 }
    requires shown { AreShown (owned_of place.old.me.0) N.entries }
    ensures place { (place.new.table_id ≡ place.old.table_id) × (place.new.id ≡ place.old.id) }
    ensures ended { place.new.me
        ≡ (views.Owner (owned_in (owned_with (owned_of place.old.me.0) N.entries) stages.Still), []) }
{
    board
        .table
        .shared
        .fetch_add::<Ends<N>>(place, word, 2 * count as u64 - 1);
}
