//! Runs a script: answers its requests as they come, and prints their texts.
ghost use Rattle.std.specs.Prelude.{◌≡◌, ◌≤◌, ◌<◌, ◌++◌, ◌^◌, All, List, ℕ, [], IfOk, OnErr, OnOk, unwrap_or};
ghost use Rattle.mc_proto.specs.{Grammar.IsModerate, Reader.After, Text.IsBeginning};
ghost use Rattle.mc_script.specs.Calls.{MayAnswer};
ghost use Rattle.mc_script.specs.Progress.{AreModerate, AsksNothing, Goes, HasAnswered, HasCome, LeavesPiece, outcome_of};
ghost use Rattle.mc_script.specs.Run.{AreCounted, HasLeft, LeavesCaller, MayRunFrom, MayStart};
ghost use Rattle.mc_script.specs.Script.{Answered, ends};
ghost use Rattle.mc_script.specs.declared.outcome.Outcome.TheVariants.{Done};
ghost use Rattle.mc_proto.specs.declared.request.Request.{Request};

use crate::answering::answer_request;
use crate::calls::Calls;
use crate::ends::Ends;
use crate::outcome::Outcome;
use crate::source::SourceFault;
use mc_item::{Fault, NoMemory};
use mc_proto::{Limits, Reader, ReplyText, Request, SinkFault};
use std::alloc::Global;
use std::sync::Wait;

// How far the requests of a piece were answered.
#[derive(Clone, Copy)]
pub(crate) enum Progress {
    More,
    Ended,
    Memory,
    Full,
    Output,
}

// What a script carries from request to request: the text that isn't printed yet, and the moment (time in seconds) of its calls.
#[derive(Drop)]
struct RunState {
    text: ReplyText,
    moment: u64,
}

// How many bytes of text are gathered before they are printed.
const GATHERED: usize = 65536;

fn ends_script(request: &Request) -> bool
    ensures { result ≡ ends request.now }
{
    matches!(request, Request::Next | Request::Quit)
}

// Prints the gathered text, if there is any.
fn print_text<E: Ends>(ends: &mut E, text: &mut ReplyText) -> Result<(), SinkFault>
    ensures ok { OnOk result ((E.taken ends.new ≡ E.taken ends.old ++ text.old.items) × (text.new.items ≡ []) × (E.writes ends.new ≡ E.writes ends.old)) }
    ensures err { OnErr result ((E.writes ends.old < E.writes ends.new) × IsBeginning (E.taken ends.old) (E.taken ends.new) text.old.items) }
    ensures asks_nothing { AsksNothing E.gave E.reads E.over ends.old ends.new }
{
    if text.len() == 0 {
        return Ok(());
    }
    ends.put_whole(text)
}

// Prints the gathered text if it has `GATHERED` bytes or more.
fn print_much<E: Ends>(ends: &mut E, text: &mut ReplyText) -> Result<(), SinkFault>
    ensures ok { OnOk result ((more : List ℕ) × (E.taken ends.new ≡ E.taken ends.old ++ more) × (text.old.items ≡ more ++ text.new.items)) }
    ensures fine { OnOk result (E.writes ends.new ≡ E.writes ends.old) }
    ensures err { OnErr result ((E.writes ends.old < E.writes ends.new) × IsBeginning (E.taken ends.old) (E.taken ends.new) text.old.items) }
    ensures asks_nothing { AsksNothing E.gave E.reads E.over ends.old ends.new }
{
    if text.len() < GATHERED {
        return Ok(());
    }
    print_text(ends, text)
}

// Answers the requests of a piece, up to one that ends the script. Prints their texts whenever enough is gathered.
fn answer_all<E: Ends, C: Calls>(
    rt: &impl Wait,
    limits: Limits,
    calls: &mut C,
    ends: &mut E,
    state: &mut RunState,
    requests: Vec<Request>,
) -> Progress
    requires ready { MayAnswer limits state.old.moment (C.view calls.old) }
    requires moderate { AreModerate limits requests.items }
    ensures caller { LeavesCaller (outcome_of result) (C.view calls.old) (C.view calls.new) }
    ensures early { state.new.moment ≤ 2 ^ 62 }
    ensures goes { (before : List Answered) (start : List ℕ)
        → HasAnswered limits before start (E.taken ends.old) state.old.text.items (C.view calls.old) state.old.moment
        → Goes result limits requests.items before start (E.taken ends.new) state.new.text.items (C.view calls.new) state.new.moment }
    ensures counted { AreCounted (outcome_of result) (E.reads ends.old) (E.reads ends.new) (E.writes ends.old) (E.writes ends.new) }
    ensures asks_nothing { AsksNothing E.gave E.reads E.over ends.old ends.new }
{
    for request in requests {
        if ends_script(&request) {
            return Progress::Ended;
        }
        match answer_request(
            rt,
            limits,
            calls,
            &mut state.text,
            request,
            &mut state.moment,
        ) {
            Ok(()) => {}
            Err(Fault::NoMemory) => {
                return Progress::Memory;
            }
            Err(Fault::HistoryFull) => {
                return Progress::Full;
            }
        }
        match print_much(ends, &mut state.text) {
            Ok(()) => {}
            Err(_) => {
                return Progress::Output;
            }
        }
    }
    Progress::More
}

// Answers the requests of a piece, and prints all their texts. Returns how the script ended, or `None` if it goes on.
fn answer_piece<E: Ends, C: Calls>(
    rt: &impl Wait,
    limits: Limits,
    calls: &mut C,
    ends: &mut E,
    state: &mut RunState,
    requests: Vec<Request>,
) -> Option<Outcome>
    requires ready { MayAnswer limits state.old.moment (C.view calls.old) }
    requires moderate { AreModerate limits requests.items }
    requires none { state.old.text.items ≡ [] }
    ensures caller { LeavesCaller (unwrap_or result Done) (C.view calls.old) (C.view calls.new) }
    ensures early { state.new.moment ≤ 2 ^ 62 }
    ensures leaves { (came left start : List ℕ) (done : List Answered) → HasCome limits came done requests.items
        → HasAnswered limits done start (E.taken ends.old) state.old.text.items (C.view calls.old) state.old.moment
        → LeavesPiece result limits (came ++ left) left start (E.taken ends.new) state.new.text.items (C.view calls.new) state.new.moment
        done requests.items }
    ensures counted { AreCounted (unwrap_or result Done) (E.reads ends.old) (E.reads ends.new) (E.writes ends.old) (E.writes ends.new) }
    ensures asks_nothing { AsksNothing E.gave E.reads E.over ends.old ends.new }
{
    let progress = answer_all(rt, limits, calls, ends, state, requests);
    if let Progress::Output = progress {
        return Some(Outcome::Output);
    }
    match print_text(ends, &mut state.text) {
        Ok(()) => {}
        Err(_) => return Some(Outcome::Output),
    }
    match progress {
        Progress::More => None,
        Progress::Ended => Some(Outcome::Done),
        Progress::Memory => Some(Outcome::Memory),
        Progress::Full => Some(Outcome::HistoryFull),
        Progress::Output => Some(Outcome::Output),
    }
}

// Reads the requests that a piece completes. If pieces aren't kept, it copies their values.
fn read_piece(reader: &mut Reader, piece: Vec<u8>, keeps: bool) -> Result<Vec<Request>, NoMemory>
    ensures limits { reader.new.limits ≡ reader.old.limits }
    ensures reads { IfOk result (λ v. (stream : List ℕ) (requests : List Request) → After reader.old.limits reader.old.state reader.old.unread stream requests
        → After reader.new.limits reader.new.state reader.new.unread (stream ++ piece.items) (requests ++ v.items)) }
    ensures moderate { IfOk result (λ v. All (IsModerate reader.old.limits) v.items) }
{
    if keeps {
        reader.take(piece)
    } else {
        reader.feed(piece.as_slice())
    }
}

/// Runs a script, and returns how it ended. Reads requests up to the end of the bytes or to one that ends the script, answers
/// them, and prints their texts.
///
/// Asks for the next piece only after all replies to the earlier pieces are out. Asks for none after the end, a failure, or a
/// request that ends the script. Makes no call after one that failed.
/// The caller must be at turn 0. The slab classes of `limits` must exist, as `%juggle`, `%crawl` and `%chunks` work on them.
pub fn run_script<E: Ends, C: Calls>(
    rt: &impl Wait,
    alloc: Global,
    limits: Limits,
    calls: &mut C,
    ends: &mut E,
) -> Outcome
    requires starts { MayStart limits (C.view calls.old) }
    requires asks { MayRunFrom E.gave E.taken E.reads E.writes E.over E.may_ask limits ends.old }
    ensures leaves { HasLeft E.gave E.ended E.taken result limits ends.old ends.new (C.view calls.new).notes (C.view calls.old).caller }
    ensures counted { AreCounted result (E.reads ends.old) (E.reads ends.new) (E.writes ends.old) (E.writes ends.new) }
    ensures caller { LeavesCaller result (C.view calls.old) (C.view calls.new) }
{
    let mut reader = Reader::new(alloc, limits);
    let mut state = RunState {
        text: ReplyText::new(alloc),
        moment: 1000,
    };
    for _ in rt.forever() {
        let piece = match ends.piece() {
            Ok(Some(piece)) => piece,
            Ok(None) => return Outcome::Done,
            Err(SourceFault::Failed) => return Outcome::Input,
            Err(SourceFault::NoMemory) => return Outcome::Memory,
        };
        let requests = match read_piece(&mut reader, piece, ends.keeps_pieces()) {
            Ok(requests) => requests,
            Err(_) => return Outcome::Memory,
        };
        match answer_piece(rt, limits, calls, ends, &mut state, requests) {
            None => {}
            Some(outcome) => return outcome,
        }
    }
    Outcome::Done
}
