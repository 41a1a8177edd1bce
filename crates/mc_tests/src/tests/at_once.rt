//! Scripts that run at once, over sources and sinks of these tests.
use super::runs::{
    Ends, Supply, WHOLE, add_script, asserts_outcomes, asserts_output, config_of, run_of,
};
use super::supplies::{Pieces, Slow};
use super::{add, host_of, lines};
use mc_driver::{Outcome, RunFault, Source, SourceFault, run_scripts};
use mc_history::History;
use mc_item::{Key, Reply, StripeEvent, StripeNo};
use mc_proto::{ReplyText, Sink, SinkFault};
use mc_stripe::{ShownStripe, StripeState};
use std::alloc::Global;
use std::process::Abort;
use std::random::RandomSource;
use std::sync::Wait;
use std::sync::atomic::{AtomicBool, Ordering};
use std::thread::{self, Threads};

// What a script tells others: that its second piece was asked for, and that a reply was taken.
#[derive(Drop)]
struct Signs {
    asked: AtomicBool,
    took: AtomicBool,
}

impl Signs {
    // Nothing was asked for or taken.
    fn new() -> Signs {
        Signs {
            asked: AtomicBool::new(false),
            took: AtomicBool::new(false),
        }
    }
}

// A sink that tells that it took something.
#[derive(Drop)]
struct Told<'a, R: Abort> {
    kept: Slow<'a, R>,
    signs: &'a Signs,
}

impl<R: Abort> Sink for Told<'_, R> {
    ghost use Rattle.std.specs.Prelude.{if◌then◌else◌};

    ghost taken = { λ s. s.kept.little.bytes.items };

    ghost failures = { λ s. if s.kept.little.failed then 1 else 0 };

    fn put(&mut self, bytes: &[u8]) -> Result<usize, SinkFault> {
        let taken = self.kept.put(bytes);
        self.signs.took.store(true, Ordering::SeqCst);
        taken
    }

    fn put_whole(&mut self, text: &mut ReplyText) -> Result<(), SinkFault> {
        let taken = self.kept.put_whole(text);
        self.signs.took.store(true, Ordering::SeqCst);
        taken
    }
}

// So many turns a source waits at most.
const TURNS: u64 = 10_000_000;

// Waits till a script's second piece was asked for and a reply of it taken, and answers whether that came.
fn meets(other: &Signs) -> bool {
    for _ in 0..TURNS {
        if other.asked.load(Ordering::SeqCst) && other.took.load(Ordering::SeqCst) {
            return true;
        }
        thread::yield_now();
    }
    false
}

// A source whose second piece comes only when another script is as far. It fails, once, if that isn't so in time.
#[derive(Drop)]
struct Meeting<'a> {
    source: Pieces<'a>,
    own: &'a Signs,
    other: &'a Signs,
    given: bool,
}

impl Source for Meeting<'_> {
    ghost use Rattle.std.specs.Prelude.{if◌then◌else◌};

    ghost coming = { λ s. s.source.rest.now };

    ghost failures = { λ s. if s.source.failed then 1 else 0 };

    fn piece(&mut self) -> Result<Option<Vec<u8>>, SourceFault> {
        if self.given && !self.source.failed {
            self.own.asked.store(true, Ordering::SeqCst);
            if !meets(self.other) {
                self.source.failed = true;
                return Err(SourceFault::Failed);
            }
        }
        self.given = true;
        self.source.piece()
    }
}

// A script that tells of its own signs, and waits for another's.
fn meeting_script<'a, R: Abort>(
    rt: &'a R,
    alloc: Global,
    input: &'a [u8],
    own: &'a Signs,
    other: &'a Signs,
) -> (Meeting<'a>, Told<'a, R>) {
    let source = Meeting {
        source: Pieces::new(alloc, input, &[7], None),
        own,
        other,
        given: false,
    };
    let sink = Told {
        kept: Slow::new(rt, alloc, 1 << 20, None),
        signs: own,
    };
    (source, sink)
}

// Two scripts whose second pieces wait for each other.
fn meeting_scripts<'a, R: Abort>(
    rt: &'a R,
    alloc: Global,
    input: &'a [u8],
    one: &'a Signs,
    two: &'a Signs,
) -> Vec<(Meeting<'a>, Told<'a, R>)> {
    let mut scripts = Vec::new(alloc);
    let first = meeting_script(rt, alloc, input, one, two);
    scripts.push(first).expect(rt, "memory");
    let second = meeting_script(rt, alloc, input, two, one);
    scripts.push(second).expect(rt, "memory");
    scripts
}

fn asserts_replies<R: Abort>(rt: &R, ends: &[(Meeting<'_>, Told<'_, R>)], output: &[u8]) {
    for end in ends {
        assert_eq!(rt; end.1.kept.little.bytes.as_slice(), output);
    }
}

// Each script goes on only when the other has replied: run one after the other, they would never go on.
#[test]
fn two_scripts_run_at_once(rt: HostRuntime) {
    let input = lines(&rt, rt.alloc(), "get a|get b|");
    let output = lines(&rt, rt.alloc(), "END|END|");
    let (one, two) = (Signs::new(), Signs::new());
    let config = config_of(&rt, rt.alloc(), &["mcseg"]);
    let scripts = meeting_scripts(&rt, rt.alloc(), input.as_slice(), &one, &two);
    let run = run_of(&rt, rt.alloc(), config, scripts, &[]);
    asserts_outcomes(&rt, run.outcomes.as_slice(), &[Outcome::Done; 4]);
    asserts_replies(&rt, run.ends.as_slice(), output.as_slice());
}

// So many scripts of the same bytes. The first read of one of them fails, if its number is one of theirs.
fn equal_scripts<'a, R: Abort>(
    rt: &'a R,
    alloc: Global,
    input: &'a [u8],
    count: u64,
    fails: u64,
) -> Vec<Ends<'a, R>> {
    let mut scripts = Vec::new(alloc);
    for number in 0..count {
        let read = if fails == number { Some(0) } else { None };
        let supply = Supply { read, ..WHOLE };
        add_script(rt, alloc, &mut scripts, input, supply);
    }
    scripts
}

const NONE: u64 = 99;

// The number that a command answered, if it did.
fn number_in(event: &StripeEvent) -> Option<u64> {
    match event {
        StripeEvent::Did(did) => match &did.reply {
            Reply::Number(number) => Some(*number),
            _ => None,
        },
        _ => None,
    }
}

fn number_at<R: Abort>(
    rt: &R,
    history: &History<StripeEvent, ShownStripe>,
    place: usize,
) -> Option<u64> {
    number_in(history.get(place).expect(rt, "an event"))
}

// The numbers that a stripe's commands answered.
fn numbers_of<R: Abort>(
    rt: &R,
    alloc: Global,
    history: &History<StripeEvent, ShownStripe>,
) -> Vec<u64> {
    let mut numbers = Vec::new(alloc);
    for place in 0..history.len() {
        if let Some(number) = number_at(rt, history, place) {
            numbers.push(number).expect(rt, "memory");
        }
    }
    numbers
}

// A counter of four bytes, and 200 counts.
fn counting<R: Abort>(rt: &R, alloc: Global) -> Vec<u8> {
    let mut input = lines(rt, alloc, "add n 0 0 4|0   |");
    for _ in 0..200 {
        add(rt, &mut input, b"incr n 1\r\n");
    }
    input
}

// Asserts that the numbers from 1 to 800 are answered in order.
fn asserts_numbers<R: Abort>(rt: &R, numbers: &[u64]) {
    assert_eq!(rt; numbers.len(), 800);
    for (number, want) in numbers.iter().zip(1..801u64) {
        assert_eq!(rt; *number, want);
    }
}

fn asserts_counter<R: Abort>(rt: &R, alloc: Global, stripe: &StripeState) {
    let key = Key::of(alloc, b"n").expect(rt, "a key");
    let item = stripe.find(&key).expect(rt, "an item");
    assert_eq!(rt; item.value.bytes(), b"800 ".as_slice());
}

fn asserts_counts<R: Abort>(rt: &R, alloc: Global, stripe: &StripeState) {
    let numbers = numbers_of(rt, alloc, stripe.history());
    asserts_numbers(rt, numbers.as_slice());
    asserts_counter(rt, alloc, stripe);
}

// No count is lost, and none answered twice: a stripe's history has them in order.
#[test]
fn counts_of_four_scripts_add_up(rt: HostRuntime) {
    let input = counting(&rt, rt.alloc());
    let config = config_of(&rt, rt.alloc(), &["mcseg"]);
    let scripts = equal_scripts(&rt, rt.alloc(), input.as_slice(), 4, NONE);
    let run = run_of(&rt, rt.alloc(), config, scripts, &[]);
    asserts_outcomes(&rt, run.outcomes.as_slice(), &[Outcome::Done; 6]);
    asserts_counts(&rt, rt.alloc(), run.ledger.stripe(StripeNo(0)));
}

// Why so many scripts aren't run.
fn fault_for<R: Abort + RandomSource + Threads + Wait + Sync>(
    rt: &R,
    alloc: Global,
    count: u64,
) -> Option<RunFault> {
    let config = config_of(rt, alloc, &["mcseg"]);
    let scripts = equal_scripts(rt, alloc, b"", count, NONE);
    match run_scripts(host_of(rt, alloc), config, scripts, &[]) {
        Ok(_) => None,
        Err(fault) => Some(fault),
    }
}

#[test]
fn no_script_and_63_are_refused(rt: HostRuntime) {
    for count in [0, 63] {
        let fault = fault_for(&rt, rt.alloc(), count);
        assert_eq!(rt; fault, Some(RunFault::Scripts), "{count} scripts");
    }
}

#[test]
fn a_read_that_fails_ends_its_own_script_alone(rt: HostRuntime) {
    let config = config_of(&rt, rt.alloc(), &["mcseg"]);
    let scripts = equal_scripts(&rt, rt.alloc(), b"get a\r\n", 3, 1);
    let run = run_of(&rt, rt.alloc(), config, scripts, &[]);
    let outcomes = [
        Outcome::Done,
        Outcome::Input,
        Outcome::Done,
        Outcome::Done,
        Outcome::Done,
    ];
    asserts_outcomes(&rt, run.outcomes.as_slice(), outcomes.as_slice());
    asserts_output(&rt, rt.alloc(), run.ends.as_slice(), "END|END|");
}
