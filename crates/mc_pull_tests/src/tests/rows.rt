//! Tests as rows: what is done or looked at, and what it tells.
use super::by_list::{Walked, tell_walked};
use super::crawling::{Crawled, tell_crawled};
use super::hitting::{Taken, tell_taken};
use super::judging::{Judged, tell_judged};
use super::seeing::{Seen, tell_seen};
use mc_item::Config;
use mc_testing::{WHO, World, one_class, opened, store};
use std::alloc::Global;
use std::process::Abort;
use std::random::RandomSource;
use std::test::Fail;

/// What a row does, or looks at.
#[derive(Clone, Copy)]
pub enum Ask {
    /// An item of 66 bytes under the key of one letter and its entry, with an exptime and at a moment.
    Store(u8, i64, u64),
    /// The class's limit of chunks is set.
    Limit(u64),
    /// The entry of this number goes, and its item stays.
    Unlink(u64),
    /// A walk or a round.
    Walk(Walked),
    /// A judgement.
    Judge(Judged),
    /// A hit that is taken to the class.
    Hit(Taken),
    /// A crawl.
    Crawl(Crawled),
    /// What is there.
    See(Seen),
}

/// What is asked, and what it tells.
pub type Row = (Ask, &'static str);

/// Six items of 66 bytes, juggled at 1000: COLD has the entries 0 to 4 from its tail, and HOT has 5, since a fifth of the
/// bytes is 79. The stripe has six events, the class twelve.
pub(super) static SIX: [Row; 7] = [
    (Ask::Store(b'a', 0, 1000), "stored"),
    (Ask::Store(b'b', 0, 1000), "stored"),
    (Ask::Store(b'c', 0, 1000), "stored"),
    (Ask::Store(b'd', 0, 1000), "stored"),
    (Ask::Store(b'e', 0, 1000), "stored"),
    (Ask::Store(b'f', 0, 1000), "stored"),
    (Ask::Walk(Walked::Juggle(1000)), "0 reclaimed, 5 moved"),
];

/// The same where the item of `a` is dead at 1001.
pub(super) static SIX_AND_A_DIES: [Row; 7] = [
    (Ask::Store(b'a', 1, 1000), "stored"),
    (Ask::Store(b'b', 0, 1000), "stored"),
    (Ask::Store(b'c', 0, 1000), "stored"),
    (Ask::Store(b'd', 0, 1000), "stored"),
    (Ask::Store(b'e', 0, 1000), "stored"),
    (Ask::Store(b'f', 0, 1000), "stored"),
    (Ask::Walk(Walked::Juggle(1000)), "0 reclaimed, 5 moved"),
];

/// The same where those of COLD are dead at 1001.
pub(super) static SIX_AND_FIVE_DIE: [Row; 7] = [
    (Ask::Store(b'a', 1, 1000), "stored"),
    (Ask::Store(b'b', 1, 1000), "stored"),
    (Ask::Store(b'c', 1, 1000), "stored"),
    (Ask::Store(b'd', 1, 1000), "stored"),
    (Ask::Store(b'e', 1, 1000), "stored"),
    (Ask::Store(b'f', 0, 1000), "stored"),
    (Ask::Walk(Walked::Juggle(1000)), "0 reclaimed, 5 moved"),
];

fn text_of_store(world: &mut World, letter: u8, exptime: i64, moment: u64) -> Result<String, Fail> {
    store(world, letter, exptime, moment)?;
    Ok(format!(in world.alloc; "stored")?)
}

fn text_of_limit(world: &mut World, chunks: u64) -> Result<String, Fail> {
    if chunks < 1 || chunks > 1 << 20 {
        return Err(Fail::from("no class has such a limit"));
    }
    let class = &mut world.class;
    class.set_chunks(WHO, chunks)?;
    Ok(format!(in world.alloc; "limited")?)
}

fn text_of_unlink(world: &mut World, number: u64) -> Result<String, Fail> {
    let class = &mut world.class;
    if class.entry(number).is_none() {
        return Err(Fail::from("there is no such entry"));
    }
    class.unlink(WHO, number)?;
    Ok(format!(in world.alloc; "unlinked")?)
}

// What a row does, and what it tells.
fn tell(world: &mut World, ask: Ask) -> Result<String, Fail> {
    match ask {
        Ask::Store(letter, exptime, moment) => text_of_store(world, letter, exptime, moment),
        Ask::Limit(chunks) => text_of_limit(world, chunks),
        Ask::Unlink(number) => text_of_unlink(world, number),
        Ask::Walk(walked) => tell_walked(world, walked),
        Ask::Judge(judged) => tell_judged(world, judged),
        Ask::Hit(taken) => tell_taken(world, taken),
        Ask::Crawl(crawled) => tell_crawled(world, crawled),
        Ask::See(seen) => tell_seen(world.alloc, &world.class, &world.stripe, seen),
    }
}

// Ends the test where a row tells something else.
fn check_row<R: Abort>(rt: &R, world: &mut World, row: &Row, place: usize) -> Result<(), Fail> {
    let got = tell(world, row.0)?;
    assert_eq!(rt; got.as_str(), row.1, "at row {place}");
    Ok(())
}

/// Ends the test where one of the rows tells something else.
pub(super) fn check_rows<R: Abort>(rt: &R, world: &mut World, rows: &[Row]) -> Result<(), Fail> {
    for (place, row) in rows.iter().enumerate() {
        check_row(rt, world, row, place)?;
    }
    Ok(())
}

/// Plays rows on a store of this configuration.
pub(super) fn play<R: Abort + RandomSource>(
    rt: &R,
    alloc: Global,
    config: Config,
    before: &[Row],
    rows: &[Row],
) -> Result<(), Fail> {
    let mut world = opened(rt, alloc, config)?;
    check_rows(rt, &mut world, before)?;
    check_rows(rt, &mut world, rows)
}

/// A store of one class of six chunks, on which rows were played.
pub(super) fn six<R: Abort + RandomSource>(
    rt: &R,
    alloc: Global,
    rows: &[Row],
) -> Result<World, Fail> {
    let mut world = opened(rt, alloc, one_class(alloc, 6)?)?;
    check_rows(rt, &mut world, rows)?;
    Ok(world)
}
