//! Limits that are met exactly, and one more.
use super::by_list::Walked::Juggle;
use super::rows::Ask::{See, Store, Walk};
use super::rows::{Row, play};
use super::seeing::Seen::{LastOfClass, List};
use mc_item::Config;
use mc_item::Seg::{Cold, Hot, Temp};
use mc_testing::one_class;
use std::alloc::Global;
use std::test::Fail;

// A configuration with this share of the bytes for HOT.
fn hot_of(alloc: Global, hot_percent: u64) -> Result<Config, Fail> {
    let mut config = one_class(alloc, 6)?;
    config.hot_percent = hot_percent;
    Ok(config)
}

// Two items of 66 bytes in HOT: half of 132 bytes is 66, which one of them doesn't exceed; 49 hundredths are 64.
static AT_THE_LIMIT: [Row; 4] = [
    (Store(b'a', 0, 1000), "stored"),
    (Store(b'b', 0, 1000), "stored"),
    (Walk(Juggle(1000)), "0 reclaimed, 1 moved"),
    (See(List(Cold)), "[0]"),
];

static PAST_THE_LIMIT: [Row; 4] = [
    (Store(b'a', 0, 1000), "stored"),
    (Store(b'b', 0, 1000), "stored"),
    (Walk(Juggle(1000)), "0 reclaimed, 2 moved"),
    (See(List(Cold)), "[0, 1]"),
];

#[test]
fn bytes_at_the_limit_stay(rt: HostRuntime) -> Result<(), Fail> {
    let alloc = rt.alloc();
    play(&rt, alloc, hot_of(alloc, 50)?, &[], AT_THE_LIMIT.as_slice())?;
    play(
        &rt,
        alloc,
        hot_of(alloc, 49)?,
        &[],
        PAST_THE_LIMIT.as_slice(),
    )
}

// COLD's tail is 20 seconds old: half of that is 10, and so old is HOT's tail at 1020. At 1021 it is 11.
static AT_THE_GREATEST_AGE: [Row; 6] = [
    (Store(b'a', 0, 1000), "stored"),
    (Walk(Juggle(1000)), "0 reclaimed, 1 moved"),
    (Store(b'b', 0, 1010), "stored"),
    (Walk(Juggle(1020)), "0 reclaimed, 0 moved"),
    (Walk(Juggle(1021)), "0 reclaimed, 1 moved"),
    (
        See(LastOfClass),
        "moves 1 from Hot to Cold for Old(5) past [] at 2",
    ),
];

#[test]
fn an_age_at_the_greatest_stays(rt: HostRuntime) -> Result<(), Fail> {
    let mut config = hot_of(rt.alloc(), 50)?;
    config.warm_percent = 40;
    config.hot_factor = 50;
    play(&rt, rt.alloc(), config, &[], AT_THE_GREATEST_AGE.as_slice())
}

// TEMP takes what dies within 61 seconds, and its walks reclaim it then; one second more, and HOT has it.
static AT_TEMPS_LIFE: [Row; 10] = [
    (Store(b'a', 61, 1000), "stored"),
    (Store(b'b', 62, 1000), "stored"),
    (See(List(Temp)), "[0]"),
    (See(List(Hot)), "[1]"),
    (Walk(Juggle(1060)), "0 reclaimed, 1 moved"),
    (See(List(Cold)), "[1]"),
    (Walk(Juggle(1061)), "1 reclaimed, 0 moved"),
    (See(List(Temp)), "[]"),
    (Walk(Juggle(1062)), "1 reclaimed, 0 moved"),
    (See(List(Cold)), "[]"),
];

#[test]
fn an_expiry_at_temps_life_is_temps(rt: HostRuntime) -> Result<(), Fail> {
    let mut config = hot_of(rt.alloc(), 59)?;
    config.temp = true;
    play(&rt, rt.alloc(), config, &[], AT_TEMPS_LIFE.as_slice())
}

// Both entries are 2^62 seconds old. The cold age times the factor 10,000 is past 64 bits; a hundredfold of it is HOT's greatest
// age, so HOT's entry stays.
static PAST_64_BITS: [Row; 5] = [
    (Store(b'a', 0, 0), "stored"),
    (Walk(Juggle(0)), "0 reclaimed, 1 moved"),
    (Store(b'b', 0, 0), "stored"),
    (Walk(Juggle(1 << 62)), "0 reclaimed, 0 moved"),
    (See(List(Hot)), "[1]"),
];

#[test]
fn a_share_past_64_bits_does_not_wrap(rt: HostRuntime) -> Result<(), Fail> {
    let mut config = hot_of(rt.alloc(), 50)?;
    config.hot_factor = 10_000;
    play(&rt, rt.alloc(), config, &[], PAST_64_BITS.as_slice())
}

// Three rounds: HOT's tail goes to COLD, and COLD's dead tail goes before HOT's next entry does.
static IN_EVERY_ROUND: [Row; 7] = [
    (Store(b'a', 1, 1000), "stored"),
    (Walk(Juggle(1000)), "0 reclaimed, 1 moved"),
    (Store(b'b', 0, 1001), "stored"),
    (Store(b'c', 0, 1001), "stored"),
    (Walk(Juggle(1001)), "1 reclaimed, 2 moved"),
    (See(List(Cold)), "[1, 2]"),
    (
        See(LastOfClass),
        "moves 2 from Hot to Cold for Over(5) past [] at 4",
    ),
];

#[test]
fn cold_is_pulled_in_every_round(rt: HostRuntime) -> Result<(), Fail> {
    let alloc = rt.alloc();
    play(
        &rt,
        alloc,
        one_class(alloc, 6)?,
        &[],
        IN_EVERY_ROUND.as_slice(),
    )
}
