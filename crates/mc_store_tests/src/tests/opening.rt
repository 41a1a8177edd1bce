//! Stores for the tests: what they are opened with, by a name that the caller picks.
ghost use Rattle.std.specs.Prelude.{◌≡◌, length};
ghost use Rattle.mc_store.specs.Opening.{AreParts};

use mc_item::{Config, Numbers};
use mc_store::{Final, Named, Pass, Store, Tokens};
use std::alloc::Global;
use std::hash::RandomState;
use std::process::Abort;
use std::random::RandomSource;

/// What a store is opened with.
#[derive(Drop)]
pub(super) struct Parts {
    pub(super) config: Config,
    pub(super) tokens: Tokens,
    pub(super) seed: RandomState,
}

/// So many stripes and callers, and two classes of 96 and of 120 bytes with these many chunks.
pub(super) fn two_classes<R: Abort>(
    rt: &R,
    alloc: Global,
    stripes: u32,
    chunks: [u64; 2],
    callers: u32,
) -> Config
    ensures stripes { result.stripes ≡ stripes }
    ensures classes { length result.sizes ≡ 2 }
    ensures callers { result.callers ≡ callers }
{
    let sizes = Vec::from_slice(alloc, &[96, 120]).expect(rt, "two sizes");
    let chunks = Vec::from_slice(alloc, &chunks).expect(rt, "two numbers");
    let usual = Config::usual(alloc, callers).expect(rt, "a configuration");
    Config {
        stripes,
        sizes: Numbers::from_vec(sizes),
        chunks: Numbers::from_vec(chunks),
        ..usual
    }
}

/// The parts of a store of a configuration.
pub(super) fn parts_for<R: Abort + RandomSource>(rt: &R, alloc: Global, config: Config) -> Parts
    ensures config { result.config ≡ config }
    ensures fit { AreParts result.tokens.board result.config result.tokens.queues result.tokens }
{
    let config = config.check().expect(rt, "a sound configuration");
    let tokens = Tokens::open(alloc, &config).expect(rt, "tokens");
    let seed = RandomState::new(rt).expect(rt, "a seed");
    Parts {
        config,
        tokens,
        seed,
    }
}

/// A store of its parts, and a pass for each caller.
pub(super) fn opened<N: Named, R: Abort>(
    rt: &R,
    alloc: Global,
    parts: Parts,
) -> (Store<N>, Vec<Pass<N>>)
    requires named { (parts.tokens.board ≡ N.board) × (parts.config ≡ N.config) × (parts.tokens.queues ≡ N.queues) }
    requires fit { AreParts N.board N.config N.queues parts.tokens }
    ensures { length result.1.items ≡ N.config.callers }
{
    let Parts {
        config,
        tokens,
        seed,
    } = parts;
    Store::<N>::open(alloc, config, tokens, seed).expect(rt, "a store")
}

/// How many stripes and classes a store has.
#[derive(Clone, Copy)]
pub(super) struct Shape {
    pub(super) stripes: u32,
    pub(super) classes: usize,
}

/// How many stripes and classes a store of a configuration has.
pub(super) fn shape_of(config: &Config) -> Shape
    ensures { (result.stripes ≡ config.now.stripes) × (result.classes ≡ length config.now.sizes) }
{
    Shape {
        stripes: config.stripes,
        classes: config.sizes.as_slice().len(),
    }
}

/// A store of four stripes, three callers and two classes: two chunks of 96 bytes, and three of 120.
pub(super) fn four_stripes<R: Abort>(rt: &R, alloc: Global) -> Config
    ensures shape { (result.stripes ≡ 4) × (length result.sizes ≡ 2) × (result.callers ≡ 3) }
{
    two_classes(rt, alloc, 4, [2, 3], 3)
}

/// Takes the last pass out, alone.
pub(super) fn last_of<N: Named, R: Abort>(
    rt: &R,
    alloc: Global,
    passes: &mut Vec<Pass<N>>,
) -> Vec<Pass<N>> {
    let pass = passes.pop().expect(rt, "a pass");
    let mut last = Vec::new(alloc);
    last.push(pass).ok().expect(rt, "room for a pass");
    last
}

/// Compares all passes with the closed store.
pub(super) fn compare_all<N: Named>(ledger: &mut Final, passes: &mut Vec<Pass<N>>)
    requires { ledger.old.board ≡ N.board.table }
    ensures { ledger.new ≡ ledger.old }
{
    for pass in passes.as_mut_slice() {
        ledger.compare(pass);
    }
}
