//! Upkeep that runs beside scripts.
ghost use Rattle.std.specs.Prelude.{◌≤◌, length};

use super::lines;
use super::runs::{Ends, WHOLE, add_script, asserts_outcomes, asserts_output, config_of, run_of};
use mc_driver::{Final, Outcome};
use mc_history::History;
use mc_item::{ClassEvent, ClassNo, Who};
use mc_segment::ShownClass;
use std::alloc::Global;
use std::process::Abort;
use std::random::RandomSource;
use std::sync::Wait;
use std::thread::Threads;

// Scripts beside upkeep at the moments 1000, 1001 and 1002: what words the store has, what the scripts print together, how
// each ends, then the maintainer and the crawler, and which caller the maintainer is.
struct Upkeep {
    words: &'static [&'static str],
    scripts: &'static [&'static str],
    output: &'static str,
    outcomes: &'static [Outcome],
    maintainer: u32,
}

static UPKEEP: [Upkeep; 2] = [
    Upkeep {
        words: &["mcseg", "--sizes", "96"],
        scripts: &["set a 0 0 1|1|set b 0 0 1|2|set c 0 0 1|3|"],
        output: "STORED|STORED|STORED|",
        outcomes: &[Outcome::Done; 3],
        maintainer: 1,
    },
    Upkeep {
        words: &["mcseg", "--stripes", "4", "--sizes", "96"],
        scripts: &[
            "set a 0 0 1|1|get a|incr a 5|gets a|%next|",
            "set b 0 0 1|7|gets b|delete b|get b|",
        ],
        output: "STORED|VALUE a 0 1|1|END|6|VALUE a 0 1 5|6|END|STORED|VALUE b 0 1 2|7|END|DELETED|END|",
        outcomes: &[Outcome::Done; 4],
        maintainer: 2,
    },
];

// The bytes of scripts.
fn inputs_of<R: Abort>(rt: &R, alloc: Global, scripts: &[&str]) -> Vec<Vec<u8>> {
    let mut inputs = Vec::new(alloc);
    for script in scripts {
        inputs.push(lines(rt, alloc, script)).expect(rt, "memory");
    }
    inputs
}

fn whole_scripts<'a, R: Abort>(
    rt: &'a R,
    alloc: Global,
    inputs: &'a [Vec<u8>],
) -> Vec<Ends<'a, R>> {
    let mut scripts = Vec::new(alloc);
    for input in inputs {
        add_script(rt, alloc, &mut scripts, input.as_slice(), WHOLE);
    }
    scripts
}

// The caller and the moment of a survey.
fn survey_in(event: &ClassEvent) -> Option<(u32, u64)> {
    match event {
        ClassEvent::Surveyed(survey) => Some((survey.who.caller, survey.moment)),
        _ => None,
    }
}

fn survey_at<R: Abort>(
    rt: &R,
    history: &History<ClassEvent, ShownClass>,
    place: usize,
) -> Option<(u32, u64)> {
    survey_in(history.get(place).expect(rt, "an event"))
}

// The caller and the moment of each survey of a class.
fn surveys_of<R: Abort>(
    rt: &R,
    alloc: Global,
    history: &History<ClassEvent, ShownClass>,
) -> Vec<(u32, u64)> {
    let mut surveys = Vec::new(alloc);
    for place in 0..history.len() {
        if let Some(survey) = survey_at(rt, history, place) {
            surveys.push(survey).expect(rt, "memory");
        }
    }
    surveys
}

// Asserts that the class was surveyed once at each moment, by this caller.
fn asserts_surveys<R: Abort>(rt: &R, alloc: Global, ledger: &Final, caller: u32)
    requires { 1 ≤ length ledger.now.classes }
{
    let surveys = surveys_of(rt, alloc, ledger.class(ClassNo(1)).history());
    let wanted = [(caller, 1000), (caller, 1001), (caller, 1002)];
    assert_eq!(rt; surveys.as_slice(), wanted.as_slice());
}

// Who made an event of a class.
fn maker_of(event: &ClassEvent) -> Who {
    match event {
        ClassEvent::Linked(e) => e.who,
        ClassEvent::Unlinked(e) => e.who,
        ClassEvent::Shifted(e) => e.who,
        ClassEvent::Evicted(e) => e.who,
        ClassEvent::Reclaimed(e) => e.who,
        ClassEvent::Surveyed(e) => e.who,
        ClassEvent::Refused(e) => e.who,
        ClassEvent::Limited(e) => e.who,
    }
}

// The turns of a caller's events of a class: one for each stretch of events of one turn.
fn turns_of<R: Abort>(
    rt: &R,
    alloc: Global,
    history: &History<ClassEvent, ShownClass>,
    caller: u32,
) -> Vec<u64> {
    let mut turns = Vec::new(alloc);
    let mut last = None;
    for place in 0..history.len() {
        let who = maker_of(history.get(place).expect(rt, "an event"));
        if who.caller == caller && last != Some(who) {
            turns.push(who.turn).expect(rt, "memory");
        }
        last = Some(who);
    }
    turns
}

// Asserts that each of this caller's three calls made its events of the class in one stretch.
fn asserts_stretches<R: Abort>(rt: &R, alloc: Global, ledger: &Final, caller: u32)
    requires { 1 ≤ length ledger.now.classes }
{
    let turns = turns_of(rt, alloc, ledger.class(ClassNo(1)).history(), caller);
    assert_eq!(rt; turns.as_slice(), [0, 1, 2].as_slice());
}

fn check_upkeep<R: Abort + RandomSource + Threads + Wait + Sync>(
    rt: &R,
    alloc: Global,
    row: &Upkeep,
) {
    let inputs = inputs_of(rt, alloc, row.scripts);
    let config = config_of(rt, alloc, row.words);
    let scripts = whole_scripts(rt, alloc, inputs.as_slice());
    let run = run_of(rt, alloc, config, scripts, &[1000, 1001, 1002]);
    asserts_outcomes(rt, run.outcomes.as_slice(), row.outcomes);
    asserts_output(rt, alloc, run.ends.as_slice(), row.output);
    asserts_surveys(rt, alloc, &run.ledger, row.maintainer);
    asserts_stretches(rt, alloc, &run.ledger, row.maintainer);
}

// Of so many scripts the maintainer is the caller behind the last one.
#[test]
fn the_maintainer_juggles_a_class_once_a_moment(rt: HostRuntime) {
    for row in UPKEEP.as_slice() {
        check_upkeep(&rt, rt.alloc(), row);
    }
}
