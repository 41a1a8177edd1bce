//! A source that sees its sink: each piece is asked for only when the replies to all that came are out.
ghost use Rattle.std.specs.Prelude.{◌≡◌, ◌++◌, ℕ, List, []};

use super::supplies::{Pieces, Slow};
use mc_driver::Outcome;
use mc_item::{ClassNo, Command, Fault, Histogram, Moves, Reply};
use mc_proto::{Limits, ReplyText, Sink, SinkFault};
use mc_script::{Calls, Ends, Source, SourceFault, run_script};
use std::alloc::Global;
use std::process::Abort;
use std::sync::Wait;

// The only script of these tests: three lines of 7 bytes, the one that ends it, of 6, and one behind that.
const SCRIPT: &[u8] = b"get a\r\nget b\r\nget c\r\nquit\r\nget d\r\n";

const LIMITS: Limits = Limits {
    largest: 1024,
    classes: 1,
};

// A source and a sink that notes at each read how many bytes were taken. It may be asked only while no read failed, its end
// wasn't reached, and the replies to all that came are out.
#[derive(Drop)]
struct Watched<'a, R: Abort> {
    source: Pieces<'a>,
    sink: Slow<'a, R>,
    seen: Vec<usize>,
    ended: bool,
}

impl<R: Abort> Ends for Watched<'_, R> {
    ghost use Rattle.std.specs.Prelude.{if◌then◌else◌};
    ghost use Rattle.std.proofs.Common.{refl, ◌∙◌, ap, sym, append_assoc};
    ghost use Rattle.mc_tests.specs.Asking.{MayAsk};
    ghost use Rattle.mc_tests.specs.declared.tests.asking.TheConstants.{LIMITS, SCRIPT};

    ghost gave = { λ first second came. first.source.rest.now ≡ came ++ second.source.rest.now };

    ghost ended = { λ e. e.source.rest.now ≡ [] };

    ghost taken = { λ e. e.sink.little.bytes.items };

    ghost reads = { λ e. if e.source.failed then 1 else 0 };

    ghost writes = { λ e. if e.sink.little.failed then 1 else 0 };

    ghost over = { λ e. if e.ended then 1 else 0 };

    ghost may_ask = { λ e. MayAsk LIMITS SCRIPT.now e.source.rest.now e.sink.little.bytes.items e.source.failed e.ended };

    fn piece(&mut self) -> Result<Option<Vec<u8>>, SourceFault> {
        if self.ended || self.source.failed {
            unreachable!()
        }
        let _ = self.seen.push(self.sink.little.bytes.len());
        let piece = self.source.piece()?;
        self.ended = piece.is_none();
        Ok(piece)
    }

    fn keeps_pieces(&self) -> bool {
        true
    }

    fn put_whole(&mut self, text: &mut ReplyText) -> Result<(), SinkFault> {
        self.sink.put_whole(text)
    }

    ghost stays = { λ e. refl };

    ghost goes_on = { λ first second third came more one two. one ∙ ap (λ (rest : List ℕ). came ++ rest) two
        ∙ sym (append_assoc came more third.source.rest.now) };
}

// A `get` misses, up to a number of calls.
#[derive(Drop)]
struct Misses {
    made: u64,
}

// So many calls may be made.
const MOST: u64 = 3;

impl Calls for Misses {
    ghost use Rattle.std.specs.Prelude.{◌≤◌, length};
    ghost use Rattle.mc_tests.specs.declared.tests.asking.TheConstants.{MOST};

    ghost view = { λ m. record {
      caller = 0;
      turn = m.made;
      notes = λ calls begun. length calls ≡ m.made;
      has_class = λ class. Unit {0};
      may_call = Unit {0};
    } };

    fn command(&mut self, _rt: &impl Wait, command: Command, _moment: u64) -> Result<Reply, Fault> {
        let Command::Get(_) = command else {
            return Err(Fault::NoMemory);
        };
        if self.made >= MOST {
            return Err(Fault::HistoryFull);
        }
        self.made += 1;
        Ok(Reply::Miss)
    }

    fn juggle(&mut self, _rt: &impl Wait, _class: ClassNo, _moment: u64) -> Result<Moves, Fault> {
        if self.made >= MOST {
            return Err(Fault::HistoryFull);
        }
        self.made += 1;
        Ok(Moves {
            reclaimed: 0,
            moved: 0,
        })
    }

    fn crawl(
        &mut self,
        _rt: &impl Wait,
        _class: ClassNo,
        _moment: u64,
    ) -> Result<Histogram, Fault> {
        if self.made >= MOST {
            return Err(Fault::HistoryFull);
        }
        self.made += 1;
        Ok(Histogram::new())
    }

    fn limit(&mut self, _rt: &impl Wait, _class: ClassNo, _chunks: u64) -> Result<(), Fault> {
        if self.made >= MOST {
            return Err(Fault::HistoryFull);
        }
        self.made += 1;
        Ok(())
    }
}

// How a script ended, how many bytes were taken at each read, and which are still to come.
#[derive(Drop)]
struct Asked {
    outcome: Outcome,
    seen: Vec<usize>,
    left: usize,
}

// The script in pieces of these sizes, of which one may fail to be read.
fn run_watched<R: Abort + Wait>(
    rt: &R,
    alloc: Global,
    sizes: &[usize],
    read: Option<u64>,
) -> Asked {
    let mut calls = Misses { made: 0 };
    let mut ends = Watched {
        source: Pieces::new(alloc, SCRIPT, sizes, read),
        sink: Slow::new(rt, alloc, 2, None),
        seen: Vec::new(alloc),
        ended: false,
    };
    let outcome = run_script(rt, alloc, LIMITS, &mut calls, &mut ends);
    Asked {
        outcome,
        left: ends.source.rest.len(),
        seen: ends.seen,
    }
}

// The size of the script's pieces and the read that fails; then how the script ends, how many bytes were taken at each read,
// and how many are still to come.
struct Row {
    sizes: &'static [usize],
    read: Option<u64>,
    outcome: Outcome,
    seen: &'static [usize],
    left: usize,
}

// A reply has 5 bytes. A line's reply is out when the piece behind its last byte is asked for, and none is asked for behind
// that which ends the script, nor behind a failed read.
static ROWS: [Row; 9] = [
    Row {
        sizes: &[7],
        read: None,
        outcome: Outcome::Done,
        seen: &[0, 5, 10, 15],
        left: 6,
    },
    Row {
        sizes: &[14],
        read: None,
        outcome: Outcome::Done,
        seen: &[0, 10],
        left: 6,
    },
    Row {
        sizes: &[10],
        read: None,
        outcome: Outcome::Done,
        seen: &[0, 5, 10],
        left: 4,
    },
    Row {
        sizes: &[20],
        read: None,
        outcome: Outcome::Done,
        seen: &[0, 10],
        left: 0,
    },
    Row {
        sizes: &[100],
        read: None,
        outcome: Outcome::Done,
        seen: &[0],
        left: 0,
    },
    Row {
        sizes: &[7],
        read: Some(0),
        outcome: Outcome::Input,
        seen: &[0],
        left: 34,
    },
    Row {
        sizes: &[7],
        read: Some(1),
        outcome: Outcome::Input,
        seen: &[0, 5],
        left: 27,
    },
    Row {
        sizes: &[7],
        read: Some(2),
        outcome: Outcome::Input,
        seen: &[0, 5, 10],
        left: 20,
    },
    Row {
        sizes: &[7],
        read: Some(3),
        outcome: Outcome::Input,
        seen: &[0, 5, 10, 15],
        left: 13,
    },
];

fn same_outcome<R: Abort>(rt: &R, got: Outcome, wanted: Outcome, place: usize) {
    assert_eq!(rt; got, wanted, "at row {place}");
}

fn same_counts<R: Abort>(rt: &R, got: &[usize], wanted: &[usize], place: usize) {
    assert_eq!(rt; got, wanted, "at row {place}");
}

fn asserts_asked<R: Abort>(rt: &R, asked: &Asked, row: &Row, place: usize) {
    same_outcome(rt, asked.outcome, row.outcome, place);
    same_counts(rt, asked.seen.as_slice(), row.seen, place);
    same_counts(rt, &[asked.left], &[row.left], place);
}

#[test]
fn a_piece_is_asked_for_when_all_replies_are_out(rt: HostRuntime) {
    for (place, row) in ROWS.iter().enumerate() {
        let asked = run_watched(&rt, rt.alloc(), row.sizes, row.read);
        asserts_asked(&rt, &asked, row, place);
    }
}
