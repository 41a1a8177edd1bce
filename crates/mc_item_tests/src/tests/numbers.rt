//! Sizes, moments, numerals, marks and counts.
use crate::tests::{NO_MARKS, item, same, site};
use mc_item::{
    ClassNo, ClassSizes, Config, Expiry, Histogram, Item, Marks, Passed, Step, class_of, cost,
    digits_len, expiry_of, least_class, number_of, numeral_of,
};
use std::alloc::Global;
use std::process::Abort;

static CLASSES: [(u64, Option<ClassNo>); 5] = [
    (0, Some(ClassNo(1))),
    (96, Some(ClassNo(1))),
    (97, Some(ClassNo(2))),
    (1_048_576, Some(ClassNo(43))),
    (1_048_577, None),
];

// The class of a cost in the usual configuration.
fn usual_class(rt: &impl Abort, alloc: Global, cost: u64) -> Option<ClassNo> {
    let config = Config::usual(alloc, 1).expect(rt, "memory");
    class_of(&config, cost)
}

fn same_class(rt: &impl Abort, seen: Option<ClassNo>, wanted: Option<ClassNo>, cost: u64) {
    assert_eq!(rt; seen, wanted, "{cost}");
}

#[test]
fn a_cost_goes_to_the_smallest_class_that_holds_it(rt: HostRuntime) {
    for (cost, wanted) in CLASSES.as_slice() {
        same_class(&rt, usual_class(&rt, rt.alloc(), *cost), *wanted, *cost);
    }
}

// The classes have 96 and 120 bytes.
static CLASSES_OF_SIZES: [(u64, Option<ClassNo>); 5] = [
    (0, Some(ClassNo(1))),
    (96, Some(ClassNo(1))),
    (97, Some(ClassNo(2))),
    (120, Some(ClassNo(2))),
    (121, None),
];

#[test]
fn sizes_and_a_site_give_a_cost_the_same_class(rt: HostRuntime) {
    for (cost, wanted) in CLASSES_OF_SIZES.as_slice() {
        same_class(&rt, least_class(&[96, 120], *cost), *wanted, *cost);
        same_class(&rt, site().class_of(*cost), *wanted, *cost);
    }
}

#[test]
fn a_cost_is_64_bytes_and_those_of_key_and_value(rt: HostRuntime) {
    assert_eq!(rt; cost(250, 1), 315);
}

static EXPIRIES: [(i64, Expiry); 5] = [
    (0, Expiry::Never),
    (-1, Expiry::At(0)),
    (1, Expiry::At(1_001)),
    (2_592_000, Expiry::At(2_593_000)),
    (2_592_001, Expiry::At(2_592_001)),
];

#[test]
fn an_exptime_is_relative_up_to_30_days(rt: HostRuntime) {
    for (exptime, wanted) in EXPIRIES.as_slice() {
        assert_eq!(rt; expiry_of(*exptime, 1_000), *wanted, "{exptime}");
    }
}

static DEATHS: [(Expiry, u64, bool); 4] = [
    (Expiry::Never, 18_446_744_073_709_551_615, false),
    (Expiry::At(10), 9, false),
    (Expiry::At(10), 10, true),
    (Expiry::At(10), 11, true),
];

fn check_deaths(rt: &impl Abort, one: &mut Item, rows: &[(Expiry, u64, bool)]) {
    for (expiry, moment, wanted) in rows {
        one.expiry = *expiry;
        assert_eq!(rt; one.dead(*moment), *wanted, "{moment}");
    }
}

#[test]
fn an_item_is_dead_from_its_expiry_on(rt: HostRuntime) {
    let mut one = item(&rt, rt.alloc(), b"x", NO_MARKS);
    check_deaths(&rt, &mut one, DEATHS.as_slice());
}

static NUMERALS: [(&[u8], Option<u64>); 13] = [
    (b"1 ", Some(1)),
    (b"007  ", Some(7)),
    (b"1x", None),
    (b"1 2", None),
    (b"", None),
    (b" ", None),
    (b" 1", None),
    (b"-1", None),
    (b"1\0", None),
    (b"18446744073709551615", Some(18_446_744_073_709_551_615)),
    (b"18446744073709551616", None),
    (b"99999999999999999999", None),
    (b"000000000000000000001", None),
];

fn same_number(rt: &impl Abort, seen: Option<u64>, wanted: Option<u64>, place: usize) {
    assert_eq!(rt; seen, wanted, "at row {place}");
}

fn check_numerals(rt: &impl Abort, rows: &[(&[u8], Option<u64>)]) {
    for (place, row) in rows.iter().enumerate() {
        same_number(rt, numeral_of(row.0), row.1, place);
    }
}

#[test]
fn a_numeral_is_digits_and_then_spaces(rt: HostRuntime) {
    check_numerals(&rt, NUMERALS.as_slice());
}

const FETCHED: Marks = Marks {
    fetched: true,
    active: false,
};

const BOTH: Marks = Marks {
    fetched: true,
    active: true,
};

static HITS: [(Marks, Marks); 3] = [(NO_MARKS, FETCHED), (FETCHED, BOTH), (BOTH, BOTH)];

#[test]
fn a_hit_sets_fetched_and_the_next_active(rt: HostRuntime) {
    for (before, after) in HITS.as_slice() {
        assert_eq!(rt; before.hit(), *after, "{before:?}");
    }
}

fn same_list(rt: &impl Abort, seen: &[u64], wanted: &[u64]) {
    assert_eq!(rt; seen, wanted);
}

#[test]
fn short_lists_give_back_their_numbers(rt: HostRuntime) {
    same_list(&rt, Passed::of(&[]).as_slice(), &[]);
    same_list(&rt, Passed::of(&[4, 3, 2, 1]).as_slice(), &[4, 3, 2, 1]);
    same_list(&rt, ClassSizes::of(&[96, 120]).as_slice(), &[96, 120]);
}

static DIGITS: [(u64, usize); 8] = [
    (0, 1),
    (9, 1),
    (10, 2),
    (99, 2),
    (100, 3),
    (1_000, 4),
    (9_999_999_999_999_999_999, 19),
    (18_446_744_073_709_551_615, 20),
];

#[test]
fn a_number_has_its_decimal_digits(rt: HostRuntime) {
    for (number, wanted) in DIGITS.as_slice() {
        assert_eq!(rt; digits_len(*number), *wanted, "{number}");
    }
}

// A step, a number, and the number after the step.
static STEPS: [(Step, u64, u64); 5] = [
    (Step::Up(1), 9, 10),
    (Step::Up(1), 18_446_744_073_709_551_615, 0),
    (Step::Up(18_446_744_073_709_551_615), 2, 1),
    (Step::Down(1), 10, 9),
    (Step::Down(5), 3, 0),
];

#[test]
fn a_step_up_wraps_and_a_step_down_stops_at_0(rt: HostRuntime) {
    for (step, number, wanted) in STEPS.as_slice() {
        assert_eq!(rt; step.taken(*number), *wanted, "{step:?} of {number}");
    }
}

#[test]
fn the_versions_of_stripe_1_of_4_are_2_6_and_so_on(rt: HostRuntime) {
    let seen = [site().cas_of(0), site().cas_of(1), site().cas_of(5)];
    same_list(&rt, seen.as_slice(), &[2, 6, 22]);
}

fn text_of_minutes(rt: &impl Abort, alloc: Global, counts: &Histogram) -> String {
    let (first, second, last) = (counts.minutes[0], counts.minutes[1], counts.minutes[59]);
    format!(in alloc; "{first} {second} {last}").expect(rt, "memory")
}

fn text_of_others(rt: &impl Abort, alloc: Global, counts: &Histogram) -> String {
    let (hour_plus, no_expiry, seen) = (counts.hour_plus, counts.no_expiry, counts.seen);
    let (reclaimed, passed, gone) = (counts.reclaimed, counts.passed, counts.gone);
    format!(in alloc; "{hour_plus} {no_expiry} {seen} {reclaimed} {passed} {gone}").expect(
        rt, "memory",
    )
}

#[test]
fn a_sum_adds_each_count(rt: HostRuntime) {
    let mut sum = Histogram::new();
    let mut other = Histogram::new();
    other.minutes[0] = 1;
    other.minutes[59] = 2;
    other.hour_plus = 3;
    other.no_expiry = 4;
    other.seen = 5;
    other.reclaimed = 6;
    other.passed = 7;
    other.gone = 8;
    sum.add(&other);
    let minutes = text_of_minutes(&rt, rt.alloc(), &sum);
    same(&rt, minutes.as_str(), "1 0 2", 0);
    let others = text_of_others(&rt, rt.alloc(), &sum);
    same(&rt, others.as_str(), "3 4 5 6 7 8", 1);
}

static NUMBERS: [(&[u8], Option<u64>); 14] = [
    (b"0", Some(0)),
    (b"007", Some(7)),
    (b"9999999999999999999", Some(9_999_999_999_999_999_999)),
    (b"18446744073709551615", Some(18_446_744_073_709_551_615)),
    (b"18446744073709551616", None),
    (b"99999999999999999999", None),
    (b"000000000000000000000000000042", Some(42)),
    (b"00000000000000000000000000004x", None),
    (b"", None),
    (b"+5", None),
    (b"-1", None),
    (b"1 ", None),
    (b"1/", None),
    (b"1:", None),
];

fn check_numbers(rt: &impl Abort, rows: &[(&[u8], Option<u64>)]) {
    for (place, row) in rows.iter().enumerate() {
        same_number(rt, number_of(row.0), row.1, place);
    }
}

#[test]
fn a_text_of_digits_below_2_64_is_a_number(rt: HostRuntime) {
    check_numbers(&rt, NUMBERS.as_slice());
}
