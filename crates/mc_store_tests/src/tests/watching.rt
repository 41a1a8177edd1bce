//! A caller reads the figures of both classes while others change them. A plain class replays the histories afterwards, and has
//! the same figures after as many events.
ghost use Rattle.std.specs.Prelude.{◌≡◌, length};

use super::asking;
use super::ends::class_event;
use super::playing::PLAYERS;
use super::sharing::Work;
use mc_board::Figures;
use mc_item::ClassNo;
use mc_segment::ClassState;
use mc_store::{Final, Named, Store};
use mc_testing::PlainClass;
use std::alloc::Global;
use std::process::Abort;
use std::sync::atomic::{AtomicU64, Ordering};

/// Figures of both classes, as a caller read them. Of those after the same events the first are kept.
#[derive(Drop)]
pub(super) struct Reads {
    first: Vec<Figures>,
    second: Vec<Figures>,
}

impl Reads {
    /// None.
    pub(super) fn new(alloc: Global) -> Reads {
        Reads {
            first: Vec::new(alloc),
            second: Vec::new(alloc),
        }
    }
}

// Keeps figures, unless the last ones are after the same events. The test ends if these are others.
fn keep<R: Abort>(rt: &R, reads: &mut Vec<Figures>, figures: Figures) {
    if let Some(last) = reads.as_slice().last() {
        if last.events == figures.events {
            assert_eq!(rt; *last, figures);
            return;
        }
    }
    reads.push(figures).ok().expect(rt, "room for figures");
}

// The reader ends after so many rounds in any case.
const WATCHES: u64 = 1 << 32;

/// Reads the figures of both classes until all players have ended, and once more.
pub(super) fn watch<N: Named, R: Abort>(
    rt: &R,
    store: &Store<N>,
    work: &mut Work<N>,
    ended: &AtomicU64,
)
    requires { length N.config.sizes ≡ 2 }
{
    for _ in 0..WATCHES {
        let last = ended.load(Ordering::SeqCst) == u64::from(PLAYERS);
        let first = asking::figures(rt, store, &mut work.pass, ClassNo(1));
        keep(rt, &mut work.reads.first, first);
        let second = asking::figures(rt, store, &mut work.pass, ClassNo(2));
        keep(rt, &mut work.reads.second, second);
        if last {
            break;
        }
    }
}

// A plain class's figures before the first event of a class's history, and after each. The class opened with this limit of
// chunks.
fn replayed<R: Abort>(rt: &R, alloc: Global, class: &ClassState, chunks: u64) -> Vec<[u64; 8]> {
    let mut plain = PlainClass::new(alloc, chunks);
    let mut all = Vec::new(alloc);
    all.push(plain.figures())
        .ok()
        .expect(rt, "room for figures");
    let history = class.history();
    for place in 0..history.len() {
        plain
            .next(class_event(rt, history, place), history)
            .expect(rt, "a lawful event");
        all.push(plain.figures())
            .ok()
            .expect(rt, "room for figures");
    }
    all
}

// Ends the test where figures aren't those after so many events.
fn check_read<R: Abort>(rt: &R, all: &[[u64; 8]], read: Figures) {
    let wanted = all.get(read.events as usize).expect(rt, "so many events");
    let (bytes, counts) = wanted.split_at(4);
    assert_eq!(rt;
        read.bytes.as_slice(),
        bytes,
        "after {} events",
        read.events
    );
    assert_eq!(rt;
        read.counts.as_slice(),
        counts,
        "after {} events",
        read.events
    );
}

// Ends the test where what was read of a class isn't what a plain class has, or nothing was read after an event.
fn check_class<R: Abort>(
    rt: &R,
    alloc: Global,
    class: &ClassState,
    chunks: u64,
    reads: &Vec<Figures>,
) {
    let all = replayed(rt, alloc, class, chunks);
    for read in reads {
        check_read(rt, all.as_slice(), *read);
    }
    let last = reads.as_slice().last().expect(rt, "figures");
    assert!(rt; last.events > 0);
}

/// Ends the test where the figures that were read of a class aren't those of a plain class that replays as many of its events.
pub(super) fn check_reads<R: Abort>(
    rt: &R,
    alloc: Global,
    ledger: &Final,
    reads: &Reads,
    chunks: [u64; 2],
)
    requires { length ledger.now.classes ≡ 2 }
{
    let [first, second] = chunks;
    check_class(rt, alloc, ledger.class(ClassNo(1)), first, &reads.first);
    check_class(rt, alloc, ledger.class(ClassNo(2)), second, &reads.second);
}
