//! Each kind of event of a class, read back from its history.
ghost use Rattle.std.specs.Prelude.{◌≡◌, ◌≤◌, ◌^◌};

use super::class_lists::class_of;
use super::deeds::{
    Call, New, evict, force, hit, link, reclaim, refuse, try_set_chunks, unlink, wake,
};
use super::rows::Start;
use super::same;
use mc_item::{Expiry, Seg, Shifted, Who, Why};
use mc_segment::ClassState;
use std::alloc::Global;
use std::process::Abort;
use std::test::Fail;

// Who makes the event of a turn.
fn who_of(turn: u64) -> Who
    ensures { result ≡ record { caller = 9; turn = turn } }
{
    Who { caller: 9, turn }
}

// A class of six chunks, whose history holds 32 events.
const SIX: Start = Start {
    chunks: 6,
    temp: false,
    max_events: 32,
    keeps_events: true,
};

// Who makes the event of a turn, and the place that it cites.
fn call_of(turn: u64, at: u64) -> Call {
    Call {
        who: who_of(turn),
        at,
    }
}

// A new entry in a turn, as many seconds after the moment 1000.
fn links<R: Abort>(rt: &R, alloc: Global, class: &mut ClassState, turn: u64, text: &[u8], cost: u64)
    requires { turn ≤ 2 ^ 20 }
    ensures { class.new.rule ≡ class.old.rule }
{
    let new = New {
        key: text,
        cost,
        moment: 1000 + turn,
        expiry: Expiry::Never,
    };
    link(rt, alloc, class, who_of(turn), new);
}

// A survey, and by it a move of the entry at a place from HOT's tail to COLD, for HOT's bytes.
fn moves_for_bytes<R: Abort>(rt: &R, class: &mut ClassState, turn: u64, j: u64)
    requires percent { class.old.rule.hot_percent ≡ 20 }
    requires turn { turn ≤ 2 ^ 20 }
    ensures { class.new.rule ≡ class.old.rule }
{
    let moment = 1000 + turn;
    let survey = class.survey(who_of(turn), moment).expect(rt, "a survey");
    assert!(rt; j <= 4 && j < class.len(Seg::Hot));
    let number = class.from_tail(Seg::Hot, j).expect(rt, "an entry").number;
    let passed = class.passed(Seg::Hot, j);
    assert!(rt; survey.total < 2000 && survey.total * 20 / 100 < class.bytes(Seg::Hot));
    let shifted = Shifted {
        who: who_of(turn),
        number,
        from_seg: Seg::Hot,
        to_seg: Seg::Cold,
        why: Why::Over(survey.place),
        moment,
        passed,
        at: 31,
    };
    class.shift(shifted).expect(rt, "a move");
}

// A survey at a moment, and by it a move of HOT's tail to COLD, for its age.
fn moves_for_age<R: Abort>(rt: &R, class: &mut ClassState, turn: u64, moment: u64)
    requires factor { (class.old.rule.hot_percent ≡ 20) × (class.old.rule.hot_factor ≡ 20) }
    ensures { class.new.rule ≡ class.old.rule }
{
    let survey = class.survey(who_of(turn), moment).expect(rt, "a survey");
    let tail = class.from_tail(Seg::Hot, 0).expect(rt, "an entry");
    let (number, age) = (tail.number, moment.saturating_sub(tail.time));
    let passed = class.passed(Seg::Hot, 0);
    assert!(rt; survey.total < 2000 && class.bytes(Seg::Hot) <= survey.total * 20 / 100);
    assert!(rt; survey.cold_age < 2000 && survey.cold_age * 20 / 100 < age);
    let shifted = Shifted {
        who: who_of(turn),
        number,
        from_seg: Seg::Hot,
        to_seg: Seg::Cold,
        why: Why::Old(survey.place),
        moment,
        passed,
        at: 32,
    };
    class.shift(shifted).expect(rt, "a move");
}

// The event at a place of the history.
fn text_of_event<R: Abort>(rt: &R, alloc: Global, class: &ClassState, place: usize) -> String {
    let event = class.history().get(place).expect(rt, "an event");
    format!(in alloc; "{event:?}").expect(rt, "a text")
}

fn check_event<R: Abort>(rt: &R, alloc: Global, class: &ClassState, place: usize, text: &str) {
    let got = text_of_event(rt, alloc, class, place);
    same(rt, got.as_str(), text, place);
}

// The events of a class are these.
fn check_events<R: Abort>(rt: &R, alloc: Global, class: &ClassState, texts: &[&str]) {
    assert_eq!(rt; class.history().len(), texts.len());
    for (place, text) in texts.iter().enumerate() {
        check_event(rt, alloc, class, place, text);
    }
}

// What happens in the test below.
static TEXTS: [&str; 22] = [
    "Linked(Linked { who: Who { caller: 9, turn: 1 }, number: 0, key: Key { bytes: [107, 101, 121, 45, 111, 102, 45, 109, 111, 114, 101, 45, 116, 104, 97, 110, 45, 116, 104, 105, 114, 116, 121, 45, 98, 121, 116, 101, 115, 45, 45, 97] }, cost: 60, seg: Hot, moment: 1001 })",
    "Linked(Linked { who: Who { caller: 9, turn: 2 }, number: 1, key: Key { bytes: [98] }, cost: 61, seg: Hot, moment: 1002 })",
    "Linked(Linked { who: Who { caller: 9, turn: 3 }, number: 2, key: Key { bytes: [99] }, cost: 62, seg: Hot, moment: 1003 })",
    "Linked(Linked { who: Who { caller: 9, turn: 4 }, number: 3, key: Key { bytes: [100] }, cost: 63, seg: Hot, moment: 1004 })",
    "Linked(Linked { who: Who { caller: 9, turn: 5 }, number: 4, key: Key { bytes: [101] }, cost: 64, seg: Hot, moment: 1005 })",
    "Linked(Linked { who: Who { caller: 9, turn: 6 }, number: 5, key: Key { bytes: [102] }, cost: 10, seg: Hot, moment: 1006 })",
    "Surveyed(Surveyed { who: Who { caller: 9, turn: 7 }, moment: 1007, total: 320, cold_age: 0 })",
    "Shifted(Shifted { who: Who { caller: 9, turn: 7 }, number: 4, from_seg: Hot, to_seg: Cold, why: Over(6), moment: 1007, passed: Passed { numbers: [0, 1, 2, 3], count: 4 }, at: 31 })",
    "Shifted(Shifted { who: Who { caller: 9, turn: 8 }, number: 1, from_seg: Hot, to_seg: Cold, why: Forced, moment: 1008, passed: Passed { numbers: [0, 0, 0, 0], count: 1 }, at: 33 })",
    "Shifted(Shifted { who: Who { caller: 9, turn: 9 }, number: 3, from_seg: Hot, to_seg: Warm, why: Active, moment: 1009, passed: Passed { numbers: [0, 2, 0, 0], count: 2 }, at: 34 })",
    "Shifted(Shifted { who: Who { caller: 9, turn: 10 }, number: 0, from_seg: Hot, to_seg: Cold, why: Forced, moment: 1010, passed: Passed { numbers: [0, 0, 0, 0], count: 0 }, at: 35 })",
    "Shifted(Shifted { who: Who { caller: 9, turn: 11 }, number: 2, from_seg: Hot, to_seg: Cold, why: Forced, moment: 1011, passed: Passed { numbers: [0, 0, 0, 0], count: 0 }, at: 36 })",
    "Refused(Refused { who: Who { caller: 9, turn: 12 } })",
    "Evicted(Evicted { who: Who { caller: 9, turn: 13 }, number: 2, passed: Passed { numbers: [4, 1, 0, 0], count: 3 }, at: 37 })",
    "Shifted(Shifted { who: Who { caller: 9, turn: 14 }, number: 1, from_seg: Cold, to_seg: Warm, why: Hit, moment: 1014, passed: Passed { numbers: [0, 0, 0, 0], count: 0 }, at: 38 })",
    "Reclaimed(Reclaimed { who: Who { caller: 9, turn: 15 }, number: 4, moment: 1015, at: 39 })",
    "Surveyed(Surveyed { who: Who { caller: 9, turn: 16 }, moment: 2000, total: 194, cold_age: 999 })",
    "Shifted(Shifted { who: Who { caller: 9, turn: 16 }, number: 5, from_seg: Hot, to_seg: Cold, why: Old(16), moment: 2000, passed: Passed { numbers: [0, 0, 0, 0], count: 0 }, at: 32 })",
    "Unlinked(Unlinked { who: Who { caller: 9, turn: 17 }, number: 3 })",
    "Unlinked(Unlinked { who: Who { caller: 9, turn: 18 }, number: 0 })",
    "Limited(Limited { who: Who { caller: 9, turn: 19 }, chunks: 1 })",
    "Limited(Limited { who: Who { caller: 9, turn: 20 }, chunks: 1048576 })",
];

// The limit of chunks becomes the least one, and the greatest one.
fn sets_limits<R: Abort>(rt: &R, class: &mut ClassState) {
    try_set_chunks(rt, class, who_of(19), 1).expect(rt, "a limit");
    try_set_chunks(rt, class, who_of(20), 1 << 20).expect(rt, "a limit");
}

// Six entries, what becomes of them, and two new limits.
fn plays<R: Abort>(rt: &R, alloc: Global, class: &mut ClassState)
    requires rule { (class.old.rule.hot_percent ≡ 20) × (class.old.rule.hot_factor ≡ 20) }
{
    links(rt, alloc, class, 1, b"key-of-more-than-thirty-bytes--a", 60);
    links(rt, alloc, class, 2, b"b", 61);
    links(rt, alloc, class, 3, b"c", 62);
    links(rt, alloc, class, 4, b"d", 63);
    links(rt, alloc, class, 5, b"e", 64);
    links(rt, alloc, class, 6, b"f", 10);
    moves_for_bytes(rt, class, 7, 4);
    force(rt, class, call_of(8, 33), 1, 1008);
    wake(rt, class, call_of(9, 34), 2, 1009);
    force(rt, class, call_of(10, 35), 0, 1010);
    force(rt, class, call_of(11, 36), 0, 1011);
    refuse(rt, class, who_of(12));
    evict(rt, class, call_of(13, 37), 3);
    hit(rt, class, call_of(14, 38), 1, 1014);
    reclaim(rt, class, call_of(15, 39), 4, 1015);
    moves_for_age(rt, class, 16, 2000);
    unlink(rt, class, who_of(17), 3);
    unlink(rt, class, who_of(18), 0);
    sets_limits(rt, class);
}

#[test]
fn each_class_event_is_read_as_it_was_noted(rt: HostRuntime) -> Result<(), Fail> {
    let alloc = rt.alloc();
    let mut class = class_of(alloc, SIX)?;
    plays(&rt, alloc, &mut class);
    check_events(&rt, alloc, &class, TEXTS.as_slice());
    Ok(())
}
