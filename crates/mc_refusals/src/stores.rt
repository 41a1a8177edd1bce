//! Cases on a store of two classes, of 100 and 200 bytes, that threads may share: what is done before the call, and the call.
ghost use Rattle.std.specs.Prelude.{◌≡◌, ◌<◌, IfSome, length};
ghost use Rattle.mc_store.specs.Opening.{AreParts};

use crate::asking::{Asked, MOMENT, command_of};
use crate::configuring::store_config;
use crate::end::{End, Outcome, end_by, end_of};
use crate::marks::Marks;
use crate::noting::{Left, left_of, outcome_of as outcome_by};
use mc_item::{ClassNo, Config, NoMemory, StripeNo};
use mc_store::{Final, Named, Pass, Store, Tokens};
use std::alloc::Global;
use std::hash::RandomState;
use std::marker::Brand;
use std::sync::Wait;

/// A call of a store. Work on a class is done on the first one, at 1001.
#[derive(Clone, Copy)]
pub(crate) enum Called {
    /// A command at 1000 on the key of 31 times this letter.
    Command(u8, Asked),
    /// So many gets of a key without an item.
    Misses(u32),
    Juggle,
    Crawl,
    /// The limit becomes two chunks.
    Limit,
}

const LATER: u64 = 1001;

const FIRST: ClassNo = ClassNo(1);

// What a store is opened with.
#[derive(Drop)]
struct Parts {
    config: Config,
    tokens: Tokens,
    seed: RandomState,
}

// A store with its callers.
type Opened<N> = (Store<N>, Vec<Pass<N>>);

// Makes a command.
fn ask<N: Named>(
    rt: &impl Wait,
    store: &Store<N>,
    pass: &mut Pass<N>,
    letter: u8,
    asked: Asked,
    marks: Marks,
) -> End {
    let Some(command) = command_of(marks.alloc, letter, asked) else {
        return End::Other;
    };
    marks.begin();
    let reply = store.command(marks.alloc, rt, pass, command, MOMENT);
    marks.end();
    end_of(reply)
}

// Gets a key without an item so many times.
fn miss<N: Named>(
    rt: &impl Wait,
    store: &Store<N>,
    pass: &mut Pass<N>,
    count: u32,
    marks: Marks,
) -> End {
    for _ in 0..count {
        if ask(rt, store, pass, b'z', Asked::Get, marks) != End::Made {
            return End::Other;
        }
    }
    End::Made
}

fn work<N: Named>(
    rt: &impl Wait,
    store: &Store<N>,
    pass: &mut Pass<N>,
    called: Called,
    alloc: Global,
) -> End
    requires class { 0 < length N.config.sizes }
{
    match called {
        Called::Juggle => end_of(store.juggle(rt, pass, FIRST, LATER)),
        Called::Crawl => end_of(store.crawl(alloc, rt, pass, FIRST, LATER)),
        Called::Limit => end_of(store.chunks(rt, pass, FIRST, 2)),
        Called::Command(_, _) | Called::Misses(_) => End::Other,
    }
}

fn make<N: Named>(
    rt: &impl Wait,
    store: &Store<N>,
    pass: &mut Pass<N>,
    called: Called,
    marks: Marks,
) -> End
    requires class { 0 < length N.config.sizes }
{
    match called {
        Called::Command(letter, asked) => ask(rt, store, pass, letter, asked, marks),
        Called::Misses(count) => miss(rt, store, pass, count, marks),
        _ => {
            marks.begin();
            let end = work(rt, store, pass, called, marks.alloc);
            marks.end();
            end
        }
    }
}

// Makes calls, and returns how the last one ended. That one has the marks, if they are on.
fn make_all<N: Named>(
    rt: &impl Wait,
    store: &Store<N>,
    pass: &mut Pass<N>,
    before: &[Called],
    call: Option<Called>,
    marks: Marks,
) -> End
    requires class { 0 < length N.config.sizes }
{
    let off = Marks { on: false, ..marks };
    for called in before {
        if make(rt, store, pass, *called, off) != End::Made {
            return End::Other;
        }
    }
    match call {
        Some(called) => make(rt, store, pass, called, marks),
        None => End::Made,
    }
}

fn left_in(alloc: Global, ledger: &Final, end: End) -> Option<Left>
    requires stripe { 0 < length ledger.now.stripes }
    requires classes { 1 < length ledger.now.classes }
{
    let classes = [ledger.class(FIRST), ledger.class(ClassNo(2))];
    left_of(alloc, end, ledger.stripe(StripeNo(0)), &classes)
}

fn played<N: Named>(
    rt: &impl Wait,
    opened: Opened<N>,
    before: &[Called],
    call: Option<Called>,
    marks: Marks,
) -> Option<Left>
    requires stripe { 0 < N.config.stripes }
    requires classes { 1 < length N.config.sizes }
{
    let (store, mut passes) = opened;
    let mut pass = passes.pop()?;
    let end = make_all(rt, &store, &mut pass, before, call, marks);
    let ledger = store.close();
    left_in(marks.alloc, &ledger, end)
}

fn opened<N: Named>(alloc: Global, parts: Parts) -> Result<Opened<N>, NoMemory>
    requires named { (parts.tokens.board ≡ N.board) × (parts.config ≡ N.config) × (parts.tokens.queues ≡ N.queues) }
    requires fit { AreParts N.board N.config N.queues parts.tokens }
{
    let Parts {
        config,
        tokens,
        seed,
    } = parts;
    Store::<N>::open(alloc, config, tokens, seed)
}

fn with_parts<N: Named>(
    rt: &impl Wait,
    parts: Parts,
    before: &[Called],
    call: Option<Called>,
    marks: Marks,
) -> Option<Left>
    requires named { (parts.tokens.board ≡ N.board) × (parts.config ≡ N.config) × (parts.tokens.queues ≡ N.queues) }
    requires fit { AreParts N.board N.config N.queues parts.tokens }
    requires classes { 1 < length N.config.sizes }
{
    match opened::<N>(marks.alloc, parts) {
        Ok(opened) => played(rt, opened, before, call, marks),
        Err(_) => None,
    }
}

fn parts_for(rt: &HostRuntime) -> Option<Parts>
    ensures parts { IfSome result (λ p. AreParts p.tokens.board p.config p.tokens.queues p.tokens) }
    ensures classes { IfSome result (λ p. 1 < length p.config.sizes) }
{
    let seed = RandomState::new(rt).ok()?;
    let config = store_config(rt.alloc())?;
    match Tokens::open(rt.alloc(), &config) {
        Ok(tokens) => Some(Parts {
            config,
            tokens,
            seed,
        }),
        Err(_) => None,
    }
}

fn open_named<N: Named>(parts: Parts, marks: Marks) -> End
    requires named { (parts.tokens.board ≡ N.board) × (parts.config ≡ N.config) × (parts.tokens.queues ≡ N.queues) }
    requires fit { AreParts N.board N.config N.queues parts.tokens }
{
    marks.begin();
    let store = opened::<N>(marks.alloc, parts);
    marks.end();
    end_by(store)
}

/// Opens a store.
pub(crate) fn open(rt: &HostRuntime, marks: Marks) -> End {
    match parts_for(rt) {
        Some(parts) => open_named::<Brand>(parts, marks),
        None => End::Other,
    }
}

// What a store has after these calls.
fn left_after(
    rt: &HostRuntime,
    wait: &impl Wait,
    before: &[Called],
    call: Option<Called>,
    on: bool,
) -> Option<Left> {
    let alloc = rt.alloc();
    let parts = parts_for(rt)?;
    with_parts::<Brand>(wait, parts, before, call, Marks { alloc, on })
}

/// Returns what came of a call after these. `None`: there is no store to make it on.
pub(crate) fn outcome_of(
    rt: &HostRuntime,
    wait: &impl Wait,
    before: &[Called],
    call: Called,
) -> Option<Outcome> {
    let old = left_after(rt, wait, before, None, false)?;
    let whole = left_after(rt, wait, before, Some(call), false)?;
    let left = left_after(rt, wait, before, Some(call), true)?;
    Some(outcome_by(&old, &whole, &left))
}
