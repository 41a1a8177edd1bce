//! Histories counted by one thread, and raced for by three.
ghost use Rattle.std.specs.Prelude.{◌≡◌, ◌+◌, ◌<◌, ◌≤◌, ◌^◌, ◌∷◌, [], None, length, map};
ghost use Rattle.mc_item.specs.declared.event.Event.TheVariants.{Call, Stripe};
ghost use Rattle.mc_evidence.specs.Seen.{class_events};
ghost use Rattle.mc_board.specs.{Accounts.maker_in, Accounts.AreBy, Views.locks_of};

use super::WHO;
use mc_board::{Board, Busy, Counts, Figures, Owner, Seen};
use mc_history::{History, Shows};
use mc_item::{CallEvent, ClassNo, Cooled, Key, Logged, StripeEvent, Who, Worked};
use std::alloc::Global;
use std::process::Abort;
use std::snapshot::Snapshot;
use std::thread;
use std::thread::Threads;

// So many histories of callers, and no other.
fn callers(callers: usize) -> Counts
    ensures { result ≡ record { stripes = 0; classes = 0; callers = callers } }
{
    Counts {
        stripes: 0,
        classes: 0,
        callers,
    }
}

// So many histories of stripes and classes, and the caller's.
fn with_caller(stripes: usize, classes: usize) -> Counts
    ensures { result ≡ record { stripes = stripes; classes = classes; callers = 1 } }
{
    Counts {
        stripes,
        classes,
        callers: 1,
    }
}

// An event of a caller: it asked for a class to be juggled.
fn juggled() -> CallEvent
    ensures plain { class_events (Call result ∷ []) ≡ [] }
    ensures own { maker_in (Call result) ≡ None }
{
    CallEvent::Juggled(Worked {
        class: ClassNo(1),
        moment: 0,
    })
}

// Appends the event this many times.
fn append_many<E: Logged>(board: &Board, owner: &mut Owner, event: &E, times: u64)
    requires board { owner.old.board ≡ board.now.table }
    requires room { length owner.old.history + times ≤ 2 ^ 32 }
    requires plain { class_events (E.entry event.now ∷ []) ≡ [] }
    requires own { maker_in (E.entry event.now) ≡ None }
    ensures same { (owner.new.board ≡ owner.old.board) × (owner.new.lock ≡ owner.old.lock) }
{
    for _i in 0..times {
        owner.append(board, event);
    }
}

// What a history is shown of a stripe's event that it lets go.
#[derive(Drop)]
struct ShownEvent(Snapshot<StripeEvent>);

impl Shows<StripeEvent> for ShownEvent {
    ghost event = { λ s. s.0.value };
}

type StripeHistory = History<StripeEvent, ShownEvent>;

// A stripe's history in which this caller has cooled an item this many times.
fn cooled(rt: &impl Abort, alloc: Global, who: Who, times: usize) -> StripeHistory
    ensures many { length result.items ≡ times }
    ensures plain { class_events (map Stripe result.items) ≡ [] }
    ensures by { AreBy who (map Stripe result.items) }
{
    let mut events = History::new(alloc);
    events.reserve(times).expect(rt, "room");
    for _i in 0..times {
        let key = Key::of(alloc, b"a").expect(rt, "a key");
        let event = StripeEvent::Cooled(Cooled { who, key });
        events.push_reserved(&ShownEvent(Snapshot::of(&event)), Some(event));
    }
    events
}

// A stripe's owner without events catches up with three of the caller.
fn catch_up_cooled(
    rt: &impl Abort,
    alloc: Global,
    board: &Board,
    owner: &mut Owner,
    caller: &mut Owner,
)
    requires board { (owner.old.board ≡ board.now.table) × (caller.old.board ≡ board.now.table) }
    requires empty { owner.old.history ≡ [] }
    requires caller { caller.old.first ≡ caller.old.lock }
    ensures { (owner.new.board ≡ owner.old.board) × (owner.new.lock ≡ owner.old.lock) }
{
    let events = cooled(rt, alloc, WHO, 3);
    owner.catch_up(board, &events, WHO, caller);
}

// The owner appends the event this many times, and tells a token its history.
fn append_and_tell<E: Logged>(
    board: &Board,
    owner: &mut Owner,
    event: &E,
    times: u64,
    token: &mut Seen,
)
    requires board { (owner.old.board ≡ board.now.table) × (token.old.board ≡ board.now.table) }
    requires room { length owner.old.history + times ≤ 2 ^ 32 }
    requires plain { class_events (E.entry event.now ∷ []) ≡ [] }
    requires own { maker_in (E.entry event.now) ≡ None }
    ensures owner { (owner.new.board ≡ owner.old.board) × (owner.new.lock ≡ owner.old.lock) }
    ensures token { token.new.board ≡ token.old.board }
{
    append_many(board, owner, event, times);
    owner.tell(board, token);
}

// The owner tells one token its history, and is compared with another.
fn tell_and_compare(board: &Board, owner: &mut Owner, told: &mut Seen, other: &mut Seen)
    requires board { owner.old.board ≡ board.now.table }
    requires tokens { (told.old.board ≡ board.now.table) × (other.old.board ≡ board.now.table) }
    ensures tokens { (told.new.board ≡ told.old.board) × (other.new.board ≡ other.old.board) }
{
    owner.tell(board, told);
    owner.compare(board, other);
}

// The counts of the locks 0, 1 and 2.
fn three_counts(board: &Board, token: &mut Seen) -> [u64; 3]
    requires board { token.old.board ≡ board.now.table }
    requires locks { 2 < locks_of board.now.counts }
    ensures { token.new.board ≡ token.old.board }
{
    [
        token.count(board, 0),
        token.count(board, 1),
        token.count(board, 2),
    ]
}

// Asserts the counts of the locks 0, 1 and 2.
fn asserts_counts(rt: &impl Abort, board: &Board, token: &mut Seen, wanted: [u64; 3])
    requires board { token.old.board ≡ board.now.table }
    requires locks { 2 < locks_of board.now.counts }
    ensures { token.new.board ≡ token.old.board }
{
    assert_eq!(rt; three_counts(board, token), wanted);
}

// The board has this many owners.
fn asserts_many<R: Abort>(rt: &R, owners: usize, wanted: usize)
    ensures { owners ≡ wanted }
{
    assert_eq!(rt; owners, wanted);
}

#[test]
fn three_events_that_an_owner_caught_up_with_are_counted(rt: HostRuntime) {
    let (board, mut owners, mut root) = Board::open(rt.alloc(), with_caller(2, 0)).expect(
        &rt, "a board",
    );
    let mut token = root.split(&board);
    asserts_many(&rt, owners.len(), 3);
    let mut caller = owners.pop().expect(&rt, "an owner");
    asserts_counts(&rt, &board, &mut root, [0, 0, 0]);
    catch_up_cooled(&rt, rt.alloc(), &board, &mut owners[1], &mut caller);
    asserts_counts(&rt, &board, &mut token, [0, 3, 0]);
    tell_and_compare(&board, &mut owners[1], &mut root, &mut token);
    token.meet(&board, &mut root);
    asserts_counts(&rt, &board, &mut root, [0, 3, 0]);
}

// Lets an owner without events catch up with a list, and once more.
fn catch_up_twice<E: Logged + Drop, S: Shows<E> + Drop>(
    board: &Board,
    owner: &mut Owner,
    events: &History<E, S>,
    who: Who,
    caller: &mut Owner,
)
    requires board { (owner.old.board ≡ board.now.table) × (caller.old.board ≡ board.now.table) }
    requires empty { owner.old.history ≡ [] }
    requires few { length events.now.items ≤ 2 ^ 32 }
    requires plain { class_events (map E.entry events.now.items) ≡ [] }
    requires by { AreBy who (map E.entry events.now.items) }
    requires caller { caller.old.first + who.caller ≡ caller.old.lock }
    ensures { (owner.new.board ≡ owner.old.board) × (owner.new.lock ≡ owner.old.lock) }
{
    owner.catch_up(board, events, who, caller);
    owner.catch_up(board, events, who, caller);
}

// An owner without events catches up with two, each of which is added once.
#[test]
fn an_owner_catches_up_with_a_list(rt: HostRuntime) {
    let events = cooled(&rt, rt.alloc(), WHO, 2);
    let (board, mut owners, mut token) = Board::open(rt.alloc(), with_caller(3, 0)).expect(
        &rt, "a board",
    );
    asserts_many(&rt, owners.len(), 4);
    let mut caller = owners.pop().expect(&rt, "an owner");
    catch_up_twice(&board, &mut owners[2], &events, WHO, &mut caller);
    asserts_counts(&rt, &board, &mut token, [0, 0, 2]);
}

// The first owner tells the first token of two events, the other one the second token of one. Then the second token learns what
// the first has seen, and is compared with both.
fn tell_and_learn(
    board: &Board,
    owner: &mut Owner,
    other: &mut Owner,
    first: &mut Seen,
    second: &mut Seen,
)
    requires owners { (owner.old.board ≡ board.now.table) × (other.old.board ≡ board.now.table) }
    requires tokens { (first.old.board ≡ board.now.table) × (second.old.board ≡ board.now.table) }
    requires empty { (owner.old.history ≡ []) × (other.old.history ≡ []) }
    ensures { second.new.board ≡ second.old.board }
{
    let event = juggled();
    append_and_tell(board, owner, &event, 2, first);
    append_and_tell(board, other, &event, 1, second);
    second.learn(board, first);
    owner.compare(board, second);
    other.compare(board, second);
}

// One token was told of lock 0, another of lock 1. Once the second has learnt what the first has seen, it counts both.
#[test]
fn a_token_learns_what_another_has_seen(rt: HostRuntime) {
    let (board, mut owners, mut first) = Board::open(rt.alloc(), callers(3)).expect(&rt, "a board");
    owners.pop().expect(&rt, "an owner");
    let mut other = owners.pop().expect(&rt, "an owner");
    let mut owner = owners.pop().expect(&rt, "an owner");
    let mut second = first.split(&board);
    tell_and_learn(&board, &mut owner, &mut other, &mut first, &mut second);
    asserts_counts(&rt, &board, &mut second, [2, 1, 0]);
}

#[test]
fn a_board_without_locks_opens(rt: HostRuntime) {
    let (board, owners, mut root) = Board::open(rt.alloc(), callers(0)).expect(&rt, "a board");
    asserts_many(&rt, owners.len(), 0);
    let mut token = root.split(&board);
    token.meet(&board, &mut root);
}

// Counts the locks 0 and 1 in turn, and says whether no answer fell.
fn count_many(board: &Board, token: &mut Seen, rounds: u64) -> bool
    requires board { token.old.board ≡ board.now.table }
    requires locks { 1 < locks_of board.now.counts }
    ensures { token.new.board ≡ token.old.board }
{
    let mut last = [0, 0];
    let mut rising = true;
    for _i in 0..rounds {
        let now = [token.count(board, 0), token.count(board, 1)];
        rising = rising && last[0] <= now[0] && last[1] <= now[1];
        last = now;
    }
    rising
}

// One thread appends to lock 1 and another counts 1,000 times.
fn append_and_count<R: Threads + Sync>(
    rt: &R,
    board: &Board,
    owner: &mut Owner,
    token: &mut Seen,
) -> bool
    requires board { (owner.old.board ≡ board.now.table) × (token.old.board ≡ board.now.table) }
    requires locks { 1 < locks_of board.now.counts }
    requires empty { owner.old.history ≡ [] }
{
    let event = juggled();
    let (_, rising) = thread::join(
        rt,
        || append_many(board, owner, &event, 10_000),
        || count_many(board, token, 500),
    );
    rising
}

// Two threads append and a third counts: whether no answer fell, and the counts at the end.
fn race<R: Threads + Sync>(
    rt: &R,
    board: &Board,
    mut first: Owner,
    mut second: Owner,
    token: &mut Seen,
) -> (bool, [u64; 2])
    requires board { (first.board ≡ board.now.table) × (second.board ≡ board.now.table) }
    requires token { token.old.board ≡ board.now.table }
    requires locks { 1 < locks_of board.now.counts }
    requires empty { (first.history ≡ []) × (second.history ≡ []) }
{
    let event = juggled();
    let mut other = token.split(board);
    let (_, rising) = thread::join(
        rt,
        || append_many(board, &mut first, &event, 10_000),
        || -> bool
            requires board { (second.board ≡ board.now.table) × (other.board ≡ board.now.table) }
            requires locks { 1 < locks_of board.now.counts }
            requires empty { second.history ≡ [] }
        { append_and_count(rt, board, &mut second, &mut other) },
    );
    (rising, [token.count(board, 0), token.count(board, 1)])
}

// No answer fell, and both histories were counted at the end.
fn asserts_race<R: Abort>(rt: &R, rising: bool, counts: [u64; 2]) {
    assert!(rt; rising);
    assert_eq!(rt; counts, [10_000, 10_000]);
}

#[test]
fn no_count_falls_while_two_threads_append(rt: HostRuntime) {
    let (board, mut owners, mut token) = Board::open(rt.alloc(), callers(2)).expect(&rt, "a board");
    let second = owners.pop().expect(&rt, "an owner");
    let first = owners.pop().expect(&rt, "an owner");
    let (rising, counts) = race(&rt, &board, first, second, &mut token);
    asserts_race(&rt, rising, counts);
}

// A try gave figures after so many events, which are all 0.
fn asserts_none<R: Abort>(rt: &R, found: Result<Figures, Busy>, events: u64) {
    let wanted = Figures {
        events,
        bytes: [0; 4],
        counts: [0; 4],
    };
    assert_eq!(rt; found, Ok(wanted));
}

// Lock 0 has three events, and lock 1 none. Neither has figures.
fn asserts_two<R: Abort>(rt: &R, board: &Board, token: &mut Seen)
    requires board { token.old.board ≡ board.now.table }
    requires locks { 1 < locks_of board.now.counts }
    ensures { token.new.board ≡ token.old.board }
{
    let found = token.figures(board, 0);
    asserts_none(rt, found, 3);
    let found = token.figures(board, 1);
    asserts_none(rt, found, 0);
}

// A stripe's owner adds three events, which leave no figures, and a class has no events. Each is read by one try.
#[test]
fn no_lock_is_busy_at_rest(rt: HostRuntime) {
    let (board, mut owners, mut token) = Board::open(rt.alloc(), with_caller(1, 1)).expect(
        &rt, "a board",
    );
    asserts_many(&rt, owners.len(), 3);
    let mut caller = owners.pop().expect(&rt, "an owner");
    owners.pop().expect(&rt, "an owner");
    let mut owner = owners.pop().expect(&rt, "an owner");
    catch_up_cooled(&rt, rt.alloc(), &board, &mut owner, &mut caller);
    asserts_two(&rt, &board, &mut token);
    owner.compare(&board, &mut token);
}
