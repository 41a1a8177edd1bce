//! Comparing the stripes and classes of a closed store with tokens and with each other, which changes nothing.
ghost use Rattle.std.specs.Prelude.{◌≡◌, ◌<◌, ℕ, Some, slice_get};
ghost use Rattle.mc_evidence.specs.Sound.{IsSoundStore};
ghost use Rattle.mc_board.specs.Histories.{HasSeen};
ghost use Rattle.mc_store.specs.{Callers.calls_told, Locked.caller_place, Locked.setting_of};
ghost use Rattle.mc_store.specs.Finals.{AreClasses, AreEntered, AreExactlyEntries, AreStripes, IsBehindClasses, IsBehindStripes};
ghost use Rattle.mc_store.specs.Finals.{class_histories, stripe_histories};
ghost use Rattle.mc_store.specs.Sides.{AreClassesOn, AreStripesOn, ClassSide, StripeSide, class_told, stripe_told};

use crate::caller::Caller;
use crate::named::Named;
use crate::owned_class::OwnedClass;
use crate::owned_stripe::OwnedStripe;
use mc_board::{Board, Seen};

// Compares a token with each stripe: the token has seen a beginning of the stripe's history, and noted at most its length.
pub(crate) fn compare_stripes(board: &Board, stripes: &mut Vec<OwnedStripe>, seen: &mut Seen)
    requires board { seen.old.board ≡ board.now.table }
    requires stripes { AreStripesOn board.now.table stripes.old.items }
    ensures same { (stripes.new.items ≡ stripes.old.items) × (seen.new ≡ seen.old) }
    ensures behind { IsBehindStripes seen.old.sight stripes.old.items }
{
    for i in 0..stripes.len() {
        stripes[i].compare(board, seen);
    }
}

// Compares a token with each class: the token has seen a beginning of the class's history, and noted at most its length.
pub(crate) fn compare_classes(board: &Board, classes: &mut Vec<OwnedClass>, seen: &mut Seen)
    requires board { seen.old.board ≡ board.now.table }
    requires classes { AreClassesOn board.now.table classes.old.items }
    ensures same { (classes.new.items ≡ classes.old.items) × (seen.new ≡ seen.old) }
    ensures behind { IsBehindClasses seen.old.sight classes.old.items }
{
    for i in 0..classes.len() {
        classes[i].compare(board, seen);
    }
}

// Compares a stripe with a caller: the stripe has seen a beginning of the caller's history, and the caller's account has each event
// of the stripe that the caller made. For the account, a token that has seen the stripe's whole history is compared too.
fn compare_call<N: Named>(board: &Board, stripe: &mut OwnedStripe, caller: &mut Caller<N>)
    requires board { (board.now.table ≡ N.board.table) × (stripe.old.board ≡ N.board.table) }
    ensures same { (stripe.new ≡ stripe.old) × (caller.new ≡ caller.old) }
    ensures behind { HasSeen (calls_told caller.old.calls) stripe.old.sight (caller_place N.config caller.old.number) }
    ensures entered { AreEntered caller.old stripe.old.lock (stripe_told stripe.old.stripe.history) }
{
    caller.compare(board, &mut stripe.seen);
    let mut whole = stripe.seen.split(board);
    stripe.owner.tell(board, &mut whole);
    caller.compare(board, &mut whole);
}

// The same for each stripe.
pub(crate) fn compare_calls<N: Named>(
    board: &Board,
    stripes: &mut Vec<OwnedStripe>,
    caller: &mut Caller<N>,
)
    requires board { board.now.table ≡ N.board.table }
    requires stripes { AreStripesOn N.board.table stripes.old.items }
    ensures same { (stripes.new.items ≡ stripes.old.items) × (caller.new ≡ caller.old) }
    ensures behind { (k : ℕ) (s : StripeSide) → slice_get stripes.old.items k ≡ Some s
        → HasSeen (calls_told caller.old.calls) s.sight (caller_place N.config caller.old.number) }
    ensures entered { (k : ℕ) (s : StripeSide) → slice_get stripes.old.items k ≡ Some s
        → AreEntered caller.old s.lock (stripe_told s.stripe.history) }
{
    for i in 0..stripes.len() {
        compare_call(board, &mut stripes[i], caller);
    }
}

// Compares a class with a caller: the class has seen a beginning of the caller's history, and the caller's account has each event of
// the class that the caller made.
fn compare_class_call<N: Named>(board: &Board, class: &mut OwnedClass, caller: &mut Caller<N>)
    requires board { (board.now.table ≡ N.board.table) × (class.old.board ≡ N.board.table) }
    ensures same { (class.new ≡ class.old) × (caller.new ≡ caller.old) }
    ensures behind { HasSeen (calls_told caller.old.calls) class.old.sight (caller_place N.config caller.old.number) }
    ensures entered { AreEntered caller.old class.old.lock (class_told class.old.class.history) }
{
    caller.compare(board, &mut class.seen);
    let mut whole = class.seen.split(board);
    class.owner.tell(board, &mut whole);
    caller.compare(board, &mut whole);
}

// The same for each class.
pub(crate) fn compare_class_calls<N: Named>(
    board: &Board,
    classes: &mut Vec<OwnedClass>,
    caller: &mut Caller<N>,
)
    requires board { board.now.table ≡ N.board.table }
    requires classes { AreClassesOn N.board.table classes.old.items }
    ensures same { (classes.new.items ≡ classes.old.items) × (caller.new ≡ caller.old) }
    ensures behind { (k : ℕ) (s : ClassSide) → slice_get classes.old.items k ≡ Some s
        → HasSeen (calls_told caller.old.calls) s.sight (caller_place N.config caller.old.number) }
    ensures entered { (k : ℕ) (s : ClassSide) → slice_get classes.old.items k ≡ Some s
        → AreEntered caller.old s.lock (class_told s.class.history) }
{
    for i in 0..classes.len() {
        compare_class_call(board, &mut classes[i], caller);
    }
}

// Compares a stripe with each class: the stripe has seen a beginning of the class's history, and noted at most its length.
fn compare_from_stripe(board: &Board, stripe: &mut OwnedStripe, classes: &mut Vec<OwnedClass>)
    requires board { stripe.old.board ≡ board.now.table }
    requires classes { AreClassesOn board.now.table classes.old.items }
    ensures same { (stripe.new ≡ stripe.old) × (classes.new.items ≡ classes.old.items) }
    ensures behind { IsBehindClasses stripe.old.sight classes.old.items }
{
    compare_classes(board, classes, &mut stripe.seen);
}

// Compares a class with each stripe: the class has seen a beginning of the stripe's history, and noted at most its length.
fn compare_from_class(board: &Board, class: &mut OwnedClass, stripes: &mut Vec<OwnedStripe>)
    requires board { class.old.board ≡ board.now.table }
    requires stripes { AreStripesOn board.now.table stripes.old.items }
    ensures same { (class.new ≡ class.old) × (stripes.new.items ≡ stripes.old.items) }
    ensures behind { IsBehindStripes class.old.sight stripes.old.items }
{
    compare_stripes(board, stripes, &mut class.seen);
}

// The same for each stripe.
fn compare_from_stripes(
    board: &Board,
    stripes: &mut Vec<OwnedStripe>,
    classes: &mut Vec<OwnedClass>,
)
    requires stripes { AreStripesOn board.now.table stripes.old.items }
    requires classes { AreClassesOn board.now.table classes.old.items }
    ensures same { (stripes.new.items ≡ stripes.old.items) × (classes.new.items ≡ classes.old.items) }
    ensures behind { (k : ℕ) (s : StripeSide) → slice_get stripes.old.items k ≡ Some s → IsBehindClasses s.sight classes.old.items }
{
    for i in 0..stripes.len() {
        compare_from_stripe(board, &mut stripes[i], classes);
    }
}

// The same for each class.
fn compare_from_classes(
    board: &Board,
    stripes: &mut Vec<OwnedStripe>,
    classes: &mut Vec<OwnedClass>,
)
    requires stripes { AreStripesOn board.now.table stripes.old.items }
    requires classes { AreClassesOn board.now.table classes.old.items }
    ensures same { (stripes.new.items ≡ stripes.old.items) × (classes.new.items ≡ classes.old.items) }
    ensures behind { (k : ℕ) (s : ClassSide) → slice_get classes.old.items k ≡ Some s → IsBehindStripes s.sight stripes.old.items }
{
    for i in 0..classes.len() {
        compare_from_class(board, &mut classes[i], stripes);
    }
}

// Shows that all stripes and classes, each as its lock kept it, are sound together, and that the items are exactly the entries.
// This follows as each has seen a beginning of each other's history.
pub(crate) fn compare_each_other<N: Named>(
    board: &Board,
    stripes: &mut Vec<OwnedStripe>,
    classes: &mut Vec<OwnedClass>,
)
    requires board { board.now ≡ N.board }
    requires some { 0 < N.config.stripes }
    requires stripes { AreStripes N.board.table N.config stripes.old.items }
    requires classes { AreClasses N.board.table N.config classes.old.items }
    ensures same { (stripes.new.items ≡ stripes.old.items) × (classes.new.items ≡ classes.old.items) }
    ensures sound { IsSoundStore (setting_of N.config) (stripe_histories stripes.old.items) (class_histories classes.old.items) }
    ensures entries { AreExactlyEntries (setting_of N.config) (stripe_histories stripes.old.items) (class_histories classes.old.items) }
{
    compare_from_stripes(board, stripes, classes);
    compare_from_classes(board, stripes, classes);
}
