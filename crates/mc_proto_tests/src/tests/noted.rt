//! Calls that are made up, with a source and a sink in memory.
ghost use Rattle.std.specs.Prelude.{◌≡◌, ◌+◌, ◌<◌, IfOk, OnErr, OnOk};

use mc_item::{ClassNo, Command, Fault, Histogram, Moves, Reply};
use mc_proto::{Limits, ReplyText, Sink, SinkFault};
use mc_script::{Calls, Keeper, Outcome, Source, SourceFault, run_script, run_upkeep};
use std::alloc::Global;
use std::mem;
use std::process::Abort;
use std::sync::Wait;

// Three slab classes.
const LIMITS: Limits = Limits {
    largest: 1024,
    classes: 3,
};

// Calls that are noted; all after so many fail. Each `get` misses; the maintainer reclaims as many entries of a
// class as its number says, and moves ten times as many. The crawler counts as many with a minute to live, or with none
// if the number is even, ten times as many with an hour, and so on by tens: without an expiry, reclaimed, passed, gone.
// The call that sets a limit is noted with the limit in place of a moment.
#[derive(Drop)]
struct Noted {
    made: u64,
    most: u64,
    crawled: u64,
    upkeep: Vec<(u32, u64)>,
}

impl Noted {
    // Makes a call on a class, and answers its number.
    fn note(&mut self, class: ClassNo, moment: u64) -> Result<u64, Fault>
        ensures ok { OnOk result (self.new.made ≡ self.old.made + 1) }
        ensures err { OnErr result (self.new.made ≡ self.old.made) }
        ensures small { IfOk result (λ number. number < 99) }
    {
        if self.made >= self.most || class.0 >= 99 {
            return Err(Fault::NoMemory);
        }
        self.upkeep.push((class.0, moment))?;
        self.made += 1;
        Ok(u64::from(class.0))
    }
}

impl Calls for Noted {
    ghost use Rattle.std.specs.Prelude.{length};

    ghost view = { λ m. record {
      caller = 0;
      turn = m.made;
      notes = λ calls begun. length calls ≡ m.made;
      has_class = λ class. Unit {0};
      may_call = Unit {0};
    } };

    fn command(&mut self, _rt: &impl Wait, command: Command, _moment: u64) -> Result<Reply, Fault> {
        let Command::Get(_) = command else {
            return Err(Fault::NoMemory);
        };
        if self.made >= self.most {
            return Err(Fault::NoMemory);
        }
        self.made += 1;
        Ok(Reply::Miss)
    }

    fn juggle(&mut self, _rt: &impl Wait, class: ClassNo, moment: u64) -> Result<Moves, Fault> {
        match self.note(class, moment) {
            Ok(number) => Ok(Moves {
                reclaimed: number,
                moved: 10 * number,
            }),
            Err(fault) => Err(fault),
        }
    }

    fn crawl(&mut self, _rt: &impl Wait, class: ClassNo, moment: u64) -> Result<Histogram, Fault> {
        let number = match self.note(class, moment) {
            Ok(number) => number,
            Err(fault) => return Err(fault),
        };
        self.crawled = self.crawled.wrapping_add(1);
        let mut histogram = Histogram::new();
        histogram.minutes[number as usize % 2] = number;
        histogram.hour_plus = 10 * number;
        histogram.no_expiry = 100 * number;
        histogram.reclaimed = 1_000 * number;
        histogram.passed = 10_000 * number;
        histogram.gone = 100_000 * number;
        histogram.seen = 111_111 * number;
        Ok(histogram)
    }

    fn limit(&mut self, _rt: &impl Wait, class: ClassNo, chunks: u64) -> Result<(), Fault> {
        match self.note(class, chunks) {
            Ok(_) => Ok(()),
            Err(fault) => Err(fault),
        }
    }
}

// A source of one piece. Then comes the end, or memory is short.
#[derive(Drop)]
struct Whole {
    alloc: Global,
    bytes: Vec<u8>,
    short: bool,
}

impl Source for Whole {
    ghost coming = { λ s. s.bytes.items };

    ghost failures = { λ s. 0 };

    fn piece(&mut self) -> Result<Option<Vec<u8>>, SourceFault> {
        if !self.bytes.is_empty() {
            return Ok(Some(mem::replace(&mut self.bytes, Vec::new(self.alloc))));
        }
        if self.short {
            return Err(SourceFault::NoMemory);
        }
        Ok(None)
    }
}

// A sink that keeps what it takes.
#[derive(Drop)]
struct Kept<'a, R: Abort> {
    rt: &'a R,
    bytes: Vec<u8>,
}

impl<R: Abort> Sink for Kept<'_, R> {
    ghost taken = { λ s. s.bytes.items };

    ghost failures = { λ s. 0 };

    fn put(&mut self, bytes: &[u8]) -> Result<usize, SinkFault> {
        assert!(self.rt; !bytes.is_empty());
        self.bytes
            .extend_from_slice(bytes)
            .expect(self.rt, "memory");
        Ok(bytes.len())
    }

    fn put_whole(&mut self, text: &mut ReplyText) -> Result<(), SinkFault> {
        text.copy_behind(&mut self.bytes).expect(self.rt, "memory");
        text.truncate(0);
        Ok(())
    }
}

/// How a script ended, what it printed, how many calls were made, and the classes and moments of those of upkeep.
#[derive(Drop)]
pub(super) struct Ran {
    pub(super) outcome: Outcome,
    pub(super) text: Vec<u8>,
    pub(super) made: u64,
    pub(super) upkeep: Vec<(u32, u64)>,
}

// Calls of which so many go well.
fn calls_up_to(alloc: Global, most: u64) -> Noted
    ensures { result.made ≡ 0 }
{
    Noted {
        made: 0,
        most,
        crawled: 0,
        upkeep: Vec::new(alloc),
    }
}

/// A keeper's work at the moments 1000 and 1001, over calls of which so many go well: how it ended, how many calls were the
/// crawler's, and the classes and moments of all.
pub(super) fn keep_up_noted<R: Abort + Wait>(
    rt: &R,
    alloc: Global,
    keeper: Keeper,
    most: u64,
) -> (Outcome, u64, Vec<(u32, u64)>) {
    let mut calls = calls_up_to(alloc, most);
    let outcome = run_upkeep(rt, LIMITS, &mut calls, keeper, &[1000, 1001]);
    (outcome, calls.crawled, calls.upkeep)
}

/// A script over calls of which so many go well. Memory may be short for what follows its bytes.
pub(super) fn run_noted<R: Abort + Wait>(
    rt: &R,
    alloc: Global,
    script: Vec<u8>,
    most: u64,
    short: bool,
) -> Ran {
    let mut calls = calls_up_to(alloc, most);
    let source = Whole {
        alloc,
        bytes: script,
        short,
    };
    let sink = Kept {
        rt,
        bytes: Vec::new(alloc),
    };
    let mut ends = (source, sink);
    let outcome = run_script(rt, alloc, LIMITS, &mut calls, &mut ends);
    Ran {
        outcome,
        text: ends.1.bytes,
        made: calls.made,
        upkeep: calls.upkeep,
    }
}
