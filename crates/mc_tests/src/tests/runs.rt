//! Scripts that run on a store of their own, and what they leave.
ghost use Rattle.std.specs.Prelude.{◌≡◌, ◌≤◌, ◌^◌, length};
ghost use Rattle.std.specs.List.{All};

use super::supplies::{Pieces, Slow};
use super::{add, host_of};
use mc_driver::{Outcome, Run, Source, run_scripts};
use mc_item::Config;
use mc_options::read_words;
use mc_proto::Sink;
use std::alloc::Global;
use std::process::Abort;
use std::random::RandomSource;
use std::sync::Wait;
use std::thread::Threads;

/// The sizes of a script's pieces, of which the last one goes on, the read that fails, how many bytes one write takes, and
/// the write that fails. It is refused, or takes none of its bytes. A write may also be of a whole text.
#[derive(Clone, Copy)]
pub(super) struct Supply<'a> {
    pub(super) sizes: &'a [usize],
    pub(super) read: Option<u64>,
    pub(super) taken: usize,
    pub(super) write: Option<u64>,
    pub(super) takes_none: bool,
    pub(super) at_once: bool,
}

/// One piece and one write.
pub(super) const WHOLE: Supply<'static> = Supply {
    sizes: &[],
    read: None,
    taken: 1 << 20,
    write: None,
    takes_none: false,
    at_once: false,
};

/// The source and the sink of a script.
pub(super) type Ends<'a, R> = (Pieces<'a>, Slow<'a, R>);

/// One script more.
pub(super) fn add_script<'a, R: Abort>(
    rt: &'a R,
    alloc: Global,
    scripts: &mut Vec<Ends<'a, R>>,
    input: &'a [u8],
    supply: Supply<'a>,
) {
    let source = Pieces::new(alloc, input, supply.sizes, supply.read);
    let mut sink = Slow::new(rt, alloc, supply.taken, supply.write);
    sink.little.takes_none = supply.takes_none;
    sink.at_once = supply.at_once;
    scripts.push((source, sink)).expect(rt, "memory");
}

/// One script.
pub(super) fn one_script<'a, R: Abort>(
    rt: &'a R,
    alloc: Global,
    input: &'a [u8],
    supply: Supply<'a>,
) -> Vec<Ends<'a, R>> {
    let mut scripts = Vec::new(alloc);
    add_script(rt, alloc, &mut scripts, input, supply);
    scripts
}

/// The configuration that words ask for, with histories that can be read.
pub(super) fn config_of<R: Abort>(rt: &R, alloc: Global, words: &[&str]) -> Config
    ensures stripes { 1 ≤ result.stripes }
    ensures classes { 1 ≤ length result.sizes }
{
    let Ok(plan) = read_words(alloc, words) else {
        panic!(rt; "words are refused");
    };
    let mut config = plan.config;
    config.keeps_events = true;
    assert!(rt; config.stripes >= 1);
    assert!(rt; !config.sizes.as_slice().is_empty());
    config
}

/// A run of scripts, with upkeep at these moments.
pub(super) fn run_of<
    S: Source + Send,
    K: Sink + Send,
    R: Abort + RandomSource + Threads + Wait + Sync,
>(rt: &R, alloc: Global, config: Config, scripts: Vec<(S, K)>, upkeep: &[u64]) -> Run<(S, K)>
    requires early { All (λ moment. moment ≤ 2 ^ 62) upkeep.now }
    ensures stripes { length result.ledger.stripes ≡ config.stripes }
    ensures classes { length result.ledger.classes ≡ length config.sizes }
{
    let Ok(run) = run_scripts(host_of(rt, alloc), config, scripts, upkeep) else {
        panic!(rt; "no run");
    };
    run
}

/// How the first script ended.
pub(super) fn first_of<R: Abort>(rt: &R, outcomes: &[Outcome]) -> Outcome {
    *outcomes.first().expect(rt, "an outcome")
}

/// What the sinks took, one after the other.
pub(super) fn output_of<R: Abort>(rt: &R, alloc: Global, ends: &[Ends<'_, R>]) -> Vec<u8> {
    let mut output = Vec::new(alloc);
    for end in ends {
        add(rt, &mut output, end.1.little.bytes.as_slice());
    }
    output
}

/// How many bytes the first script's sink had taken after each write.
pub(super) fn writes_of<R: Abort>(rt: &R, alloc: Global, ends: &[Ends<'_, R>]) -> Vec<usize> {
    let first = ends.first().expect(rt, "a script");
    Vec::from_slice(alloc, first.1.little.writes.as_slice()).expect(rt, "memory")
}

/// Asserts how the scripts and upkeep ended.
pub(super) fn asserts_outcomes<R: Abort>(rt: &R, outcomes: &[Outcome], wanted: &[Outcome]) {
    assert_eq!(rt; outcomes, wanted);
}

/// Asserts what the sinks took, one after the other; a bar stands for CR LF.
pub(super) fn asserts_output<R: Abort>(rt: &R, alloc: Global, ends: &[Ends<'_, R>], wanted: &str) {
    let output = output_of(rt, alloc, ends);
    let wanted = super::lines(rt, alloc, wanted);
    assert_eq!(rt; output.as_slice(), wanted.as_slice());
}
