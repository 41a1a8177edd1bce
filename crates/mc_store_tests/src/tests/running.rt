//! Scripts on shared stores: rows of what callers ask and look at, one after another.
ghost use Rattle.std.specs.Prelude.{◌≡◌, length};
ghost use Rattle.mc_store.specs.Opening.{AreParts};

use super::asking::Ask;
use super::ends::{Ended, check_ends};
use super::opening::{Parts, Shape, compare_all, opened, parts_for, shape_of};
use super::telling::Desk;
use mc_item::Config;
use mc_store::{Named, Pass, Store};
use std::alloc::Global;
use std::marker::Brand;
use std::process::Abort;
use std::random::RandomSource;
use std::sync::Wait;

/// What a row does.
#[derive(Clone, Copy)]
pub(super) enum Act {
    /// Asks for the key of one letter, and tells the reply.
    On(u8, Ask),
    /// Tells the value that the key of one letter has, or `-`.
    Value(u8),
    /// Juggles a class, and tells what became of its entries.
    Juggle(u32),
    /// Crawls a class, and tells what became of its entries.
    Crawl(u32),
    /// Sets a class's limit of chunks, and tells it.
    Limit(u32, u64),
    /// Tells a class's figures, or `busy`.
    Figures(u32),
    /// Tells how many items a class's figures have.
    Items(u32),
    /// Tells how many events the caller's pass counts of a stripe.
    OfStripe(u32),
    /// Tells how many events the caller's pass counts of a class.
    OfClass(u32),
    /// Tells how many events a stripe has.
    Visit(u32),
    /// Tells whose the caller's next turn is, and its number.
    Turn,
    /// Tells where the caller's commands were answered: the turn, the stripe and the place of each.
    Places,
    /// Tells how many callers there are.
    Callers,
}

/// A row of a script: a caller, a moment, what is done, and what that tells.
pub(super) type Row = (usize, u32, Act, &'static str);

/// Ends the test where one of the rows tells something else.
pub(super) fn check_rows<N: Named, R: Abort + Wait>(
    rt: &R,
    alloc: Global,
    store: &Store<N>,
    passes: &mut Vec<Pass<N>>,
    shape: Shape,
    rows: &[Row],
)
    requires { (N.config.stripes ≡ shape.stripes) × (length N.config.sizes ≡ shape.classes) }
{
    let mut shown = 0;
    for (place, row) in rows.iter().enumerate() {
        let desk = Desk {
            rt,
            alloc,
            store,
            shape,
            moment: row.1,
        };
        let text = desk.tell_row(passes, row, &mut shown);
        assert_eq!(rt; text.as_str(), row.3, "at row {place}");
    }
}

// The same of a new store, which is then closed and held against its passes.
fn check_store<N: Named, R: Abort + Wait>(
    rt: &R,
    alloc: Global,
    parts: Parts,
    shape: Shape,
    rows: &[Row],
    ends: &[Ended],
)
    requires named { (parts.tokens.board ≡ N.board) × (parts.config ≡ N.config) × (parts.tokens.queues ≡ N.queues) }
    requires fit { AreParts N.board N.config N.queues parts.tokens }
    requires shape { (N.config.stripes ≡ shape.stripes) × (length N.config.sizes ≡ shape.classes) }
{
    let (store, mut passes) = opened::<N, R>(rt, alloc, parts);
    check_rows(rt, alloc, &store, &mut passes, shape, rows);
    let mut ledger = store.close();
    compare_all(&mut ledger, &mut passes);
    check_ends(rt, alloc, &ledger, shape, ends);
}

/// Ends the test where a row of a script tells something else of a new store of this configuration, or where the closed store
/// has something else.
pub(super) fn check_script<R: Abort + Wait + RandomSource>(
    rt: &R,
    alloc: Global,
    config: Config,
    rows: &[Row],
    ends: &[Ended],
) {
    let shape = shape_of(&config);
    let parts = parts_for(rt, alloc, config);
    check_store::<Brand, R>(rt, alloc, parts, shape, rows, ends);
}
