//! The directives that make calls, in scripts over calls that are made up. Expected values are written from
//! the rules by hand.
use super::noted::{Ran, run_noted};
use mc_script::Outcome;
use std::alloc::Global;
use std::fmt::Debug;
use std::process::Abort;
use std::sync::Wait;

// A script and how many of its calls may go well; then how it ends, what it prints, how many calls it makes, and the class
// and the moment of each that is upkeep, or the class and the limit that it sets.
#[derive(Clone, Copy)]
struct Row {
    script: &'static str,
    most: u64,
    outcome: Outcome,
    text: &'static str,
    made: u64,
    upkeep: &'static [(u32, u64)],
}

// More calls than any script here makes.
const ALL: u64 = 99;

fn same<R: Abort, T: PartialEq + Debug>(rt: &R, got: &[T], wanted: &[T], script: &str) {
    assert_eq!(rt; got, wanted, "at {script}");
}

// Ends the test if a script did something else.
fn asserts_ran<R: Abort>(rt: &R, ran: &Ran, row: &Row) {
    same(rt, &[ran.outcome], &[row.outcome], row.script);
    same(rt, ran.text.as_slice(), row.text.as_bytes(), row.script);
    same(rt, &[ran.made], &[row.made], row.script);
    same(rt, ran.upkeep.as_slice(), row.upkeep, row.script);
}

fn check_row<R: Abort + Wait>(rt: &R, alloc: Global, row: &Row) {
    let script = Vec::from_slice(alloc, row.script.as_bytes()).expect(rt, "memory");
    let ran = run_noted(rt, alloc, script, row.most, false);
    asserts_ran(rt, &ran, row);
}

fn check_rows<R: Abort + Wait>(rt: &R, alloc: Global, rows: &[Row]) {
    for row in rows {
        check_row(rt, alloc, row);
    }
}

static JUGGLED: [Row; 6] = [
    Row {
        script: "%juggle 2\r\n",
        most: ALL,
        outcome: Outcome::Done,
        text: "JUGGLED 2 20\r\n",
        made: 1,
        upkeep: &[(2, 1000)],
    },
    Row {
        script: "%juggle 3\r\n",
        most: ALL,
        outcome: Outcome::Done,
        text: "JUGGLED 3 30\r\n",
        made: 1,
        upkeep: &[(3, 1000)],
    },
    Row {
        script: "%juggle all\r\n",
        most: ALL,
        outcome: Outcome::Done,
        text: "JUGGLED 6 60\r\n",
        made: 3,
        upkeep: &[(1, 1000), (2, 1000), (3, 1000)],
    },
    Row {
        script: "get a\r\n%juggle 1\r\nget b\r\n",
        most: ALL,
        outcome: Outcome::Done,
        text: "END\r\nJUGGLED 1 10\r\nEND\r\n",
        made: 3,
        upkeep: &[(1, 1000)],
    },
    Row {
        script: "%juggle all\r\n%juggle 1\r\n",
        most: ALL,
        outcome: Outcome::Done,
        text: "JUGGLED 6 60\r\nJUGGLED 1 10\r\n",
        made: 4,
        upkeep: &[(1, 1000), (2, 1000), (3, 1000), (1, 1000)],
    },
    Row {
        script: "%juggle 1\r\n%at 5\r\n%juggle 2\r\n",
        most: ALL,
        outcome: Outcome::Done,
        text: "JUGGLED 1 10\r\nJUGGLED 2 20\r\n",
        made: 2,
        upkeep: &[(1, 1000), (2, 5)],
    },
];

#[test]
fn one_class_and_all_are_juggled_at_the_scripts_moment(rt: HostRuntime) {
    check_rows(&rt, rt.alloc(), JUGGLED.as_slice());
}

static CRAWLED: [Row; 5] = [
    Row {
        script: "%crawl 1\r\n",
        most: ALL,
        outcome: Outcome::Done,
        text: "CRAWL 111111 1000 10000 100000 100 10\r\nMINUTE 1 1\r\nEND\r\n",
        made: 1,
        upkeep: &[(1, 1000)],
    },
    Row {
        script: "%crawl 2\r\n",
        most: ALL,
        outcome: Outcome::Done,
        text: "CRAWL 222222 2000 20000 200000 200 20\r\nMINUTE 0 2\r\nEND\r\n",
        made: 1,
        upkeep: &[(2, 1000)],
    },
    Row {
        script: "%crawl all\r\n",
        most: ALL,
        outcome: Outcome::Done,
        text: "CRAWL 666666 6000 60000 600000 600 60\r\nMINUTE 0 2\r\nMINUTE 1 4\r\nEND\r\n",
        made: 3,
        upkeep: &[(1, 1000), (2, 1000), (3, 1000)],
    },
    Row {
        script: "get a\r\n%crawl 3\r\n%juggle 3\r\n",
        most: ALL,
        outcome: Outcome::Done,
        text: "END\r\nCRAWL 333333 3000 30000 300000 300 30\r\nMINUTE 1 3\r\nEND\r\nJUGGLED 3 30\r\n",
        made: 3,
        upkeep: &[(3, 1000), (3, 1000)],
    },
    Row {
        script: "%crawl all\r\n%at 5\r\n%crawl 2\r\n",
        most: ALL,
        outcome: Outcome::Done,
        text: "CRAWL 666666 6000 60000 600000 600 60\r\nMINUTE 0 2\r\nMINUTE 1 4\r\nEND\r\n\
CRAWL 222222 2000 20000 200000 200 20\r\nMINUTE 0 2\r\nEND\r\n",
        made: 4,
        upkeep: &[(1, 1000), (2, 1000), (3, 1000), (2, 5)],
    },
];

#[test]
fn one_class_and_all_are_crawled_at_the_scripts_moment(rt: HostRuntime) {
    check_rows(&rt, rt.alloc(), CRAWLED.as_slice());
}

static LIMITED: [Row; 4] = [
    Row {
        script: "%chunks 1 5\r\n",
        most: ALL,
        outcome: Outcome::Done,
        text: "CHUNKS 1 5\r\n",
        made: 1,
        upkeep: &[(1, 5)],
    },
    Row {
        script: "%chunks 3 1048576\r\n%chunks 3 1\r\n",
        most: ALL,
        outcome: Outcome::Done,
        text: "CHUNKS 3 1048576\r\nCHUNKS 3 1\r\n",
        made: 2,
        upkeep: &[(3, 1_048_576), (3, 1)],
    },
    Row {
        script: "%chunks 2 7\r\n%juggle 2\r\nget a\r\n",
        most: ALL,
        outcome: Outcome::Done,
        text: "CHUNKS 2 7\r\nJUGGLED 2 20\r\nEND\r\n",
        made: 3,
        upkeep: &[(2, 7), (2, 1000)],
    },
    Row {
        script: "%chunks 2 7\r\n%chunks 2 8\r\n",
        most: 1,
        outcome: Outcome::Memory,
        text: "CHUNKS 2 7\r\n",
        made: 1,
        upkeep: &[(2, 7)],
    },
];

#[test]
fn a_new_limit_is_one_call_and_its_text(rt: HostRuntime) {
    check_rows(&rt, rt.alloc(), LIMITED.as_slice());
}

static FAULTS: [Row; 2] = [
    Row {
        script: "%crawl all\r\nget a\r\n",
        most: 2,
        outcome: Outcome::Memory,
        text: "",
        made: 2,
        upkeep: &[(1, 1000), (2, 1000)],
    },
    Row {
        script: "%juggle all\r\nget a\r\n",
        most: 1,
        outcome: Outcome::Memory,
        text: "",
        made: 1,
        upkeep: &[(1, 1000)],
    },
];

#[test]
fn a_fault_in_one_of_three_classes_prints_nothing(rt: HostRuntime) {
    check_rows(&rt, rt.alloc(), FAULTS.as_slice());
}

static NOT_THERE: [&str; 10] = [
    "%juggle 0\r\n",
    "%juggle 4\r\n",
    "%juggle 44\r\n",
    "%juggle none\r\n",
    "%crawl 0\r\n",
    "%crawl 4\r\n",
    "%crawl ALL\r\n",
    "%chunks 0 1\r\n",
    "%chunks 4 1\r\n",
    "%chunks all 1\r\n",
];

#[test]
fn a_class_that_is_not_there_is_a_bad_line(rt: HostRuntime) {
    for script in NOT_THERE.as_slice() {
        let row = Row {
            script: *script,
            most: ALL,
            outcome: Outcome::Done,
            text: "CLIENT_ERROR bad command line format\r\n",
            made: 0,
            upkeep: &[],
        };
        check_row(&rt, rt.alloc(), &row);
    }
}
