//! The moments of upkeep: which texts are a list of them, and of which.
use super::plans::{NONE, options_of, same, text_of_fault, text_of_words_fault};
use mc_options::{plan_for, read_words};
use std::alloc::Global;
use std::process::Abort;

// Texts of upkeep, and their moments, or `List` where they are no list of such.
static MOMENTS: [(&str, &str); 24] = [
    ("0", "[0]"),
    ("1000,1001,1002", "[1000, 1001, 1002]"),
    ("9,8,8", "[9, 8, 8]"),
    ("007,00", "[7, 0]"),
    ("0000000000000000000000000000012", "[12]"),
    ("4611686018427387904", "[4611686018427387904]"),
    ("1,04611686018427387904", "[1, 4611686018427387904]"),
    ("4611686018427387905", "List"),
    ("1,4611686018427387905,2", "List"),
    ("18446744073709551615", "List"),
    ("18446744073709551616", "List"),
    ("", "List"),
    (",", "List"),
    ("1,", "List"),
    (",1", "List"),
    ("1,,2", "List"),
    (" 1", "List"),
    ("1, 2", "List"),
    ("1 2", "List"),
    ("+5", "List"),
    ("-1", "List"),
    ("1,-1", "List"),
    ("1.5", "List"),
    ("now", "List"),
];

fn text_of_moments(rt: &impl Abort, alloc: Global, moments: &[u64]) -> String {
    format!(in alloc; "{moments:?}").expect(rt, "memory")
}

// The moments of a text as an option, or the fault.
fn text_of_option(rt: &impl Abort, alloc: Global, text: &str) -> String {
    match plan_for(alloc, None, Some(text.as_bytes()), options_of(NONE)) {
        Ok(plan) => text_of_moments(rt, alloc, plan.upkeep.as_slice()),
        Err(fault) => text_of_fault(rt, alloc, fault),
    }
}

// The moments of a word behind the program's name, or the fault.
fn text_of_word(rt: &impl Abort, alloc: Global, word: &str) -> String {
    let words = ["mcseg", word];
    match read_words(alloc, words.as_slice()) {
        Ok(plan) => text_of_moments(rt, alloc, plan.upkeep.as_slice()),
        Err(fault) => text_of_words_fault(rt, alloc, &fault),
    }
}

// The word of the option of upkeep with this text.
fn word_of(rt: &impl Abort, alloc: Global, text: &str) -> String {
    format!(in alloc; "--upkeep={text}").expect(rt, "memory")
}

fn check_text(rt: &impl Abort, alloc: Global, text: &str, wanted: &str, place: usize) {
    let by_option = text_of_option(rt, alloc, text);
    same(rt, by_option.as_str(), wanted, place);
    let word = word_of(rt, alloc, text);
    let by_word = text_of_word(rt, alloc, word.as_str());
    same(rt, by_word.as_str(), wanted, place);
}

fn check_texts(rt: &impl Abort, alloc: Global, rows: &[(&str, &str)]) {
    for (place, row) in rows.iter().enumerate() {
        check_text(rt, alloc, row.0, row.1, place);
    }
}

#[test]
fn moments_of_upkeep_are_those_of_the_text(rt: HostRuntime) {
    check_texts(&rt, rt.alloc(), MOMENTS.as_slice());
}

fn push_moment(rt: &impl Abort, text: &mut String, alloc: Global, between: &str, moment: usize) {
    let next = format!(in alloc; "{between}{moment}").expect(rt, "memory");
    text.push_str(next.as_str()).expect(rt, "memory");
}

fn push_moments(rt: &impl Abort, text: &mut String, alloc: Global, between: &str, count: usize) {
    for moment in 1..count {
        push_moment(rt, text, alloc, between, moment);
    }
}

// So many moments from 0 on, with a text between two.
fn joined(rt: &impl Abort, alloc: Global, count: usize, between: &str) -> String {
    let mut text = String::new(alloc);
    push_moment(rt, &mut text, alloc, "", 0);
    push_moments(rt, &mut text, alloc, between, count);
    text
}

// The same between brackets.
fn listed(rt: &impl Abort, alloc: Global, count: usize) -> String {
    let list = joined(rt, alloc, count, ", ");
    format!(in alloc; "[{list}]").expect(rt, "memory")
}

#[test]
fn upkeep_has_at_most_1000_moments(rt: HostRuntime) {
    let alloc = rt.alloc();
    let fine = joined(&rt, alloc, 1000, ",");
    let wanted = listed(&rt, alloc, 1000);
    check_text(&rt, alloc, fine.as_str(), wanted.as_str(), 1000);
    let long = joined(&rt, alloc, 1001, ",");
    check_text(&rt, alloc, long.as_str(), "List", 1001);
}
