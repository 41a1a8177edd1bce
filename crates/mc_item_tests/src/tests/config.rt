//! The usual configuration, and what is wrong with others.
use crate::tests::same;
use mc_item::{Config, ConfigFault, Numbers};
use std::alloc::Global;
use std::process::Abort;

// The usual configuration.
fn usual(rt: &impl Abort, alloc: Global, callers: u32) -> Config {
    Config::usual(alloc, callers).expect(rt, "memory")
}

static SIZES: [u64; 43] = [
    96, 120, 152, 192, 240, 304, 384, 480, 600, 752, 944, 1184, 1480, 1856, 2320, 2904, 3632, 4544,
    5680, 7104, 8880, 11104, 13880, 17352, 21696, 27120, 33904, 42384, 52984, 66232, 82792, 103496,
    129376, 161720, 202152, 252696, 315872, 394840, 493552, 616944, 771184, 963984, 1_048_576,
];

static CHUNKS: [u64; 43] = [1024; 43];

fn same_numbers(rt: &impl Abort, seen: &[u64], wanted: &[u64]) {
    assert_eq!(rt; seen, wanted);
}

fn text_of_limits(rt: &impl Abort, alloc: Global, config: &Config) -> String {
    let (stripes, callers, events) = (config.stripes, config.callers, config.max_events);
    format!(in alloc; "{stripes} {callers} {events}").expect(rt, "memory")
}

fn text_of_rule(rt: &impl Abort, alloc: Global, config: &Config) -> String {
    let (hot, warm) = (config.hot_percent, config.warm_percent);
    let (hotter, warmer) = (config.hot_factor, config.warm_factor);
    format!(in alloc; "{hot} {warm} {hotter} {warmer}").expect(rt, "memory")
}

fn text_of_temp(rt: &impl Abort, alloc: Global, config: &Config) -> String {
    let (temp, temp_ttl, keeps) = (config.temp, config.temp_ttl, config.keeps_events);
    format!(in alloc; "{temp} {temp_ttl}, events kept {keeps}").expect(rt, "memory")
}

fn checked(rt: &impl Abort, alloc: Global) -> Config {
    usual(rt, alloc, 3).check().expect(rt, "no fault")
}

#[test]
fn the_usual_configuration_has_the_values_of_the_guide(rt: HostRuntime) {
    let alloc = rt.alloc();
    let config = checked(&rt, alloc);
    let limits = text_of_limits(&rt, alloc, &config);
    same(&rt, limits.as_str(), "1 3 1048576", 0);
    let rule = text_of_rule(&rt, alloc, &config);
    same(&rt, rule.as_str(), "20 40 20 200", 1);
    let temp = text_of_temp(&rt, alloc, &config);
    same(&rt, temp.as_str(), "false 61, events kept true", 2);
}

#[test]
fn the_usual_classes_grow_by_a_quarter(rt: HostRuntime) {
    let config = checked(&rt, rt.alloc());
    same_numbers(&rt, config.sizes.as_slice(), SIZES.as_slice());
    same_numbers(&rt, config.chunks.as_slice(), CHUNKS.as_slice());
}

// Percents, a factor and the life in TEMP, callers, events, and the fault.
type Row = ((u64, u64), (u64, u64), u32, u64, ConfigFault);

static FAULTS: [Row; 12] = [
    ((0, 40), (20, 61), 1, 16, ConfigFault::Percent),
    ((20, 80), (20, 61), 1, 16, ConfigFault::Percent),
    ((20, 40), (10_001, 61), 1, 16, ConfigFault::Factor),
    ((20, 40), (20, 0), 1, 16, ConfigFault::Factor),
    ((20, 40), (20, 2_592_001), 1, 16, ConfigFault::Factor),
    ((20, 40), (20, 61), 0, 16, ConfigFault::Callers),
    ((20, 40), (20, 61), 65, 16, ConfigFault::Callers),
    ((20, 40), (20, 61), 1, 15, ConfigFault::Events),
    ((20, 40), (20, 61), 1, 4_294_967_297, ConfigFault::Events),
    ((100, 40), (20, 0), 0, 15, ConfigFault::Percent),
    ((20, 40), (20, 0), 0, 15, ConfigFault::Factor),
    ((20, 40), (20, 61), 0, 15, ConfigFault::Callers),
];

// The fault of the usual configuration with so many stripes and what a row has.
fn fault_of(rt: &impl Abort, alloc: Global, stripes: u32, row: &Row) -> Option<ConfigFault> {
    let (percents, factor, callers, events, _) = *row;
    let mut config = usual(rt, alloc, callers);
    config.stripes = stripes;
    config.hot_percent = percents.0;
    config.warm_percent = percents.1;
    config.hot_factor = factor.0;
    config.temp_ttl = factor.1;
    config.max_events = events;
    config.check().err()
}

fn same_fault(
    rt: &impl Abort,
    seen: Option<ConfigFault>,
    wanted: Option<ConfigFault>,
    place: usize,
) {
    assert_eq!(rt; seen, wanted, "at row {place}");
}

// Three stripes are a fault before all others.
fn check_faults(rt: &impl Abort, alloc: Global, rows: &[Row]) {
    for (place, row) in rows.iter().enumerate() {
        same_fault(rt, fault_of(rt, alloc, 64, row), Some(row.4), place);
        let stripes = Some(ConfigFault::Stripes);
        same_fault(rt, fault_of(rt, alloc, 3, row), stripes, place);
    }
}

#[test]
fn faults_alone_and_with_an_earlier_one(rt: HostRuntime) {
    check_faults(&rt, rt.alloc(), FAULTS.as_slice());
}

// Sizes, limits of chunks, and the fault.
type ListsRow = (&'static [u64], &'static [u64], Option<ConfigFault>);

static LISTS: [ListsRow; 9] = [
    (&[], &[], Some(ConfigFault::Sizes)),
    (&[70; 64], &[70; 64], Some(ConfigFault::Sizes)),
    (&[64], &[1], Some(ConfigFault::Sizes)),
    (&[96, 96], &[1, 1], Some(ConfigFault::Sizes)),
    (&[1_048_577], &[0], Some(ConfigFault::Sizes)),
    (&[65, 96], &[1], Some(ConfigFault::Chunks)),
    (&[65, 96], &[1, 0], Some(ConfigFault::Chunks)),
    (&[65], &[1_048_577], Some(ConfigFault::Chunks)),
    (&[65, 1_048_576], &[1, 1_048_576], None),
];

// These numbers.
fn numbers(rt: &impl Abort, alloc: Global, list: &[u64]) -> Numbers {
    Numbers::from_vec(Vec::from_slice(alloc, list).expect(rt, "memory"))
}

// The fault of the usual configuration with these sizes and limits.
fn fault_of_lists(rt: &impl Abort, alloc: Global, row: &ListsRow) -> Option<ConfigFault> {
    let mut config = usual(rt, alloc, 64);
    config.sizes = numbers(rt, alloc, row.0);
    config.chunks = numbers(rt, alloc, row.1);
    config.check().err()
}

fn check_lists(rt: &impl Abort, alloc: Global, rows: &[ListsRow]) {
    for (place, row) in rows.iter().enumerate() {
        same_fault(rt, fault_of_lists(rt, alloc, row), row.2, place);
    }
}

#[test]
fn faults_of_sizes_and_limits(rt: HostRuntime) {
    check_lists(&rt, rt.alloc(), LISTS.as_slice());
}
