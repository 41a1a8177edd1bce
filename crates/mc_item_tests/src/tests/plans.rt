//! Plans of options and words, where there is memory enough. A row holds options without upkeep, the words that give them,
//! and what both come to.
use mc_item::Config;
use mc_options::{Options, Plan, PlanFault, WordsFault, plan_for, read_words};
use std::alloc::Global;
use std::process::Abort;

// The options of stripes, chunks, TEMP, its life in seconds, events, and whether the input is followed.
type Given = (
    Option<u32>,
    Option<u64>,
    bool,
    Option<u64>,
    Option<u64>,
    bool,
);

// The text of sizes, the other options, the words, and the plan or its fault.
type Row = (
    Option<&'static [u8]>,
    Given,
    &'static [&'static str],
    &'static str,
);

pub(crate) const NONE: Given = (None, None, false, None, None, false);

const USUAL: [u64; 43] = [
    96, 120, 152, 192, 240, 304, 384, 480, 600, 752, 944, 1184, 1480, 1856, 2320, 2904, 3632, 4544,
    5680, 7104, 8880, 11104, 13880, 17352, 21696, 27120, 33904, 42384, 52984, 66232, 82792, 103496,
    129376, 161720, 202152, 252696, 315872, 394840, 493552, 616944, 771184, 963984, 1048576,
];

// What no option of a row changes: callers, percents, factors and upkeep.
const USUAL_REST: &str = ", 3 callers, 20 40 percent, 20 200 factors, upkeep []";

static WANTED: [Row; 24] = [
    (
        None,
        NONE,
        &["mcseg"],
        "1 stripes, sizes usual, 43 of 1024 chunks, no temp 61, 1048576 events let go",
    ),
    (
        Some(b"96,1024"),
        (None, None, false, None, Some(20), false),
        &["mcseg", "--events", "20", "--sizes", "96,1024"],
        "1 stripes, sizes [96, 1024], 2 of 1024 chunks, no temp 61, 20 events let go",
    ),
    (
        Some(b"0065"),
        NONE,
        &["mcseg", "--sizes=0065"],
        "1 stripes, sizes [65], 1 of 1024 chunks, no temp 61, 1048576 events let go",
    ),
    (
        None,
        (None, None, false, None, Some(16), false),
        &["mcseg", "--events", "+16"],
        "1 stripes, sizes usual, 43 of 1024 chunks, no temp 61, 16 events let go",
    ),
    (
        Some(b"96,1024,2048"),
        (None, Some(3), true, Some(2_592_000), None, false),
        &[
            "mcseg",
            "--temp",
            "--chunks",
            "3",
            "--temp-ttl",
            "2592000",
            "--sizes",
            "96,1024,2048",
        ],
        "1 stripes, sizes [96, 1024, 2048], 3 of 3 chunks, temp 2592000, 1048576 events let go",
    ),
    (
        None,
        (None, Some(1_048_576), false, Some(1), None, false),
        &["mcseg", "--chunks=+1048576", "--temp-ttl=1"],
        "1 stripes, sizes usual, 43 of 1048576 chunks, no temp 1, 1048576 events let go",
    ),
    (
        None,
        (None, None, true, None, None, false),
        &["mcseg", "--temp"],
        "1 stripes, sizes usual, 43 of 1024 chunks, temp 61, 1048576 events let go",
    ),
    (
        Some(b"96,"),
        (None, None, false, None, Some(15), false),
        &["mcseg", "--sizes", "96,", "--events", "15"],
        "List",
    ),
    (
        Some(b"96,80"),
        (None, None, false, None, Some(15), false),
        &["mcseg", "--sizes", "96,80", "--events", "15"],
        "Configuration(2)",
    ),
    (
        Some(b"96"),
        (None, None, false, None, Some(15), false),
        &["mcseg", "--sizes", "96", "--events", "15"],
        "Configuration(7)",
    ),
    (
        None,
        (None, None, false, None, Some(4_294_967_297), false),
        &["mcseg", "--events", "4294967297"],
        "Configuration(7)",
    ),
    (
        None,
        (None, Some(0), false, Some(0), None, false),
        &["mcseg", "--chunks", "0", "--temp-ttl", "0"],
        "Configuration(3)",
    ),
    (
        None,
        (None, Some(1_048_577), false, None, None, false),
        &["mcseg", "--chunks", "1048577"],
        "Configuration(3)",
    ),
    (
        None,
        (None, None, true, Some(0), Some(15), false),
        &["mcseg", "--temp-ttl", "0", "--temp", "--events", "15"],
        "Configuration(5)",
    ),
    (
        None,
        (None, None, false, Some(2_592_001), None, false),
        &["mcseg", "--temp-ttl", "2592001"],
        "Configuration(5)",
    ),
    (
        None,
        (Some(4), None, false, None, Some(20), false),
        &["mcseg", "--stripes", "4", "--events", "20"],
        "4 stripes, sizes usual, 43 of 1024 chunks, no temp 61, 20 events let go",
    ),
    (
        None,
        (Some(64), None, false, None, None, false),
        &["mcseg", "--stripes=+64"],
        "64 stripes, sizes usual, 43 of 1024 chunks, no temp 61, 1048576 events let go",
    ),
    (
        Some(b"96,80"),
        (Some(3), None, false, None, None, false),
        &["mcseg", "--sizes", "96,80", "--stripes", "3"],
        "Configuration(1)",
    ),
    (
        None,
        (Some(0), None, false, None, None, false),
        &["mcseg", "--stripes=-0"],
        "Configuration(1)",
    ),
    (
        None,
        (Some(4_294_967_295), None, false, None, None, false),
        &["mcseg", "--stripes", "4294967295"],
        "Configuration(1)",
    ),
    (
        None,
        (None, None, false, None, None, true),
        &["mcseg", "--follow"],
        "1 stripes, sizes usual, 43 of 1024 chunks, no temp 61, 1048576 events let go, followed",
    ),
    (
        Some(b"96"),
        (Some(2), Some(3), true, Some(1), Some(20), true),
        &[
            "mcseg",
            "--stripes",
            "2",
            "--follow",
            "--chunks",
            "3",
            "--temp",
            "--temp-ttl",
            "1",
            "--events",
            "20",
            "--sizes=96",
        ],
        "2 stripes, sizes [96], 1 of 3 chunks, temp 1, 20 events let go, followed",
    ),
    (
        Some(b"96,"),
        (None, None, false, None, None, true),
        &["mcseg", "--sizes", "96,", "--follow"],
        "List",
    ),
    (
        None,
        (None, None, false, None, Some(15), true),
        &["mcseg", "--follow", "--events", "15"],
        "Configuration(7)",
    ),
];

// The options that are given.
pub(super) fn options_of(given: Given) -> Options {
    let (stripes, chunks, temp, temp_ttl, events, follow) = given;
    Options {
        stripes,
        chunks,
        temp,
        temp_ttl,
        events,
        follow,
    }
}

// The sizes of the classes.
fn text_of_sizes(rt: &impl Abort, alloc: Global, sizes: &[u64]) -> String {
    if sizes == USUAL.as_slice() {
        format!(in alloc; "usual").expect(rt, "memory")
    } else {
        format!(in alloc; "{sizes:?}").expect(rt, "memory")
    }
}

// How many classes have a limit of chunks, and which one all of them have.
fn text_of_chunks(rt: &impl Abort, alloc: Global, chunks: &[u64]) -> String {
    let count = chunks.len();
    let limit = chunks.first().copied().unwrap_or(0);
    if chunks.iter().all(|other| *other == limit) {
        format!(in alloc; "{count} of {limit}").expect(rt, "memory")
    } else {
        format!(in alloc; "{chunks:?}").expect(rt, "memory")
    }
}

// Callers, percents, factors and upkeep, in any case.
fn text_of_others(rt: &impl Abort, alloc: Global, config: &Config, upkeep: &[u64]) -> String {
    let callers = config.callers;
    let (hot, warm) = (config.hot_percent, config.warm_percent);
    let (hotter, warmer) = (config.hot_factor, config.warm_factor);
    format!(in alloc;
        ", {callers} callers, {hot} {warm} percent, {hotter} {warmer} factors, upkeep {upkeep:?}"
    ).expect(rt, "memory")
}

// The same where they aren't the usual ones.
fn text_of_rest(rt: &impl Abort, alloc: Global, plan: &Plan) -> String {
    let rest = text_of_others(rt, alloc, &plan.config, plan.upkeep.as_slice());
    if rest.as_str() == USUAL_REST {
        String::new(alloc)
    } else {
        rest
    }
}

fn text_of_temp(temp: bool) -> &'static str {
    if temp { "temp" } else { "no temp" }
}

fn text_of_kept(kept: bool) -> &'static str {
    if kept { "kept" } else { "let go" }
}

fn text_of_followed(follow: bool) -> &'static str {
    if follow { ", followed" } else { "" }
}

// What a plan has.
fn text_of_plan(rt: &impl Abort, alloc: Global, plan: &Plan) -> String {
    let config = &plan.config;
    let sizes = text_of_sizes(rt, alloc, config.sizes.as_slice());
    let chunks = text_of_chunks(rt, alloc, config.chunks.as_slice());
    let temp = text_of_temp(config.temp);
    let rest = text_of_rest(rt, alloc, plan);
    let (stripes, life, events) = (config.stripes, config.temp_ttl, config.max_events);
    let kept = text_of_kept(config.keeps_events);
    let followed = text_of_followed(plan.follow);
    format!(in alloc;
        "{stripes} stripes, sizes {sizes}, {chunks} chunks, {temp} {life}, {events} events {kept}{rest}{followed}"
    ).expect(rt, "memory")
}

// The plan of options, or its fault.
fn text_of_options(rt: &impl Abort, alloc: Global, sizes: Option<&[u8]>, given: Given) -> String {
    match plan_for(alloc, sizes, None, options_of(given)) {
        Ok(plan) => text_of_plan(rt, alloc, &plan),
        Err(fault) => text_of_fault(rt, alloc, fault),
    }
}

// What is wrong with words that the reader of the command line takes.
fn fault_of(fault: &WordsFault) -> Option<PlanFault> {
    match fault {
        WordsFault::Words(_) => None,
        WordsFault::List => Some(PlanFault::List),
        WordsFault::Configuration(number) => Some(PlanFault::Configuration(*number)),
        WordsFault::NoMemory => Some(PlanFault::NoMemory),
    }
}

/// What is wrong with options.
pub(super) fn text_of_fault(rt: &impl Abort, alloc: Global, fault: PlanFault) -> String {
    format!(in alloc; "{fault:?}").expect(rt, "memory")
}

fn text_of_refusal(rt: &impl Abort, alloc: Global) -> String {
    format!(in alloc; "Words").expect(rt, "memory")
}

/// What is wrong with words.
pub(super) fn text_of_words_fault(rt: &impl Abort, alloc: Global, fault: &WordsFault) -> String {
    match fault_of(fault) {
        Some(fault) => text_of_fault(rt, alloc, fault),
        None => text_of_refusal(rt, alloc),
    }
}

// The plan of words, or what is wrong with them.
fn text_of_words(rt: &impl Abort, alloc: Global, words: &[&str]) -> String {
    match read_words(alloc, words) {
        Ok(plan) => text_of_plan(rt, alloc, &plan),
        Err(fault) => text_of_words_fault(rt, alloc, &fault),
    }
}

/// Ends the test where a row tells something else.
pub(super) fn same(rt: &impl Abort, got: &str, wanted: &str, place: usize) {
    assert_eq!(rt; got, wanted, "at row {place}");
}

fn check_row(rt: &impl Abort, alloc: Global, row: &Row, place: usize) {
    let by_options = text_of_options(rt, alloc, row.0, row.1);
    same(rt, by_options.as_str(), row.3, place);
    let by_words = text_of_words(rt, alloc, row.2);
    same(rt, by_words.as_str(), row.3, place);
}

fn check_rows(rt: &impl Abort, alloc: Global, rows: &[Row]) {
    for (place, row) in rows.iter().enumerate() {
        check_row(rt, alloc, row, place);
    }
}

#[test]
fn options_and_words_ask_for_one_plan(rt: HostRuntime) {
    check_rows(&rt, rt.alloc(), WANTED.as_slice());
}

static REFUSED: [&[&str]; 15] = [
    &["mcseg", "--color"],
    &["mcseg", "--version"],
    &["mcseg", "--events", "18446744073709551616"],
    &["mcseg", "--stripes", "4294967296"],
    &["mcseg", "--stripes=-1"],
    &["mcseg", "--chunks", "-1"],
    &["mcseg", "--temp-ttl", "x"],
    &["mcseg", "--temp=yes"],
    &["mcseg", "--temp", "--temp"],
    &["mcseg", "--follow=1"],
    &["mcseg", "--follow=true"],
    &["mcseg", "--follow", "1"],
    &["mcseg", "--follow", "--follow"],
    &["mcseg", "--upkeep"],
    &["mcseg", "--upkeep", "1", "--upkeep", "1"],
];

fn check_refused(rt: &impl Abort, alloc: Global, words: &[&str], place: usize) {
    let got = text_of_words(rt, alloc, words);
    same(rt, got.as_str(), "Words", place);
}

fn check_all_refused(rt: &impl Abort, alloc: Global, rows: &[&[&str]]) {
    for (place, words) in rows.iter().enumerate() {
        check_refused(rt, alloc, *words, place);
    }
}

#[test]
fn words_that_no_option_takes_are_refused_by_clap(rt: HostRuntime) {
    check_all_refused(&rt, rt.alloc(), REFUSED.as_slice());
}
