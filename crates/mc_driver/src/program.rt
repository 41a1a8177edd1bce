//! The whole program, over any reader and writers.
ghost use Rattle.std.specs.Prelude.{◌≡◌, ◌≢◌, ◌≤◌, ◌<◌, ◌^◌, ◌⊎◌, [], false, true};
ghost use Rattle.std.specs.{List.All, List.flat_map, Io.KnownBytes.Appends, Io.KnownBytes.Keeps};
ghost use Rattle.clap.specs.Words.{kind_of};
ghost use Rattle.clap.specs.Walk.{texts};
ghost use Rattle.clap.specs.declared.error.kind.ErrorKind.TheVariants.{DisplayHelp, DisplayVersion, OutOfMemory};
ghost use Rattle.mc_item.specs.Config.{IsSound};
ghost use Rattle.mc_proto.specs.Gathered.{bytes_of_parts};
ghost use Rattle.mc_script.specs.declared.outcome.Outcome.TheVariants.{Done};
ghost use Rattle.mc_driver.specs.Input.{HasServed, IsInputAnswered, IsUnrun, OfAllBytes};
ghost use Rattle.mc_driver.specs.Status.{AreForHelp, AreRefused, HasServedInPart, HasTooMany, IsAnsweredInPart, IsFirstFault, status_of};
ghost use Rattle.mc_driver.specs.declared.fault.RunFault.TheVariants as unrun;
ghost use Rattle.mc_options.specs.Words.{refusals};

use crate::conversing::converse;
use crate::cutting::{MOST_SCRIPTS, run_cut};
use crate::fault::RunFault;
use crate::memory::{Kept, Pieces};
use crate::printing::print_scripts;
use crate::reading::read_pieces;
use crate::running::{Host, Run};
use clap::Error;
use clap::error::ErrorKind;
use mc_options::{Plan, WordsFault, read_words};
use mc_script::Outcome;
use std::alloc::Global;
use std::collections::VecDeque;
use std::io::{self, Read, Write};
use std::marker::Brand;
use std::mem;
use std::sync::ledger::{Blank, Ledger};
use std::sync::{Mutex, Wait};
use std::thread::Threads;

const MEMORY: &[u8] = b"mcseg: out of memory\n";

const HISTORY: &[u8] = b"mcseg: history full\n";

const CONFIGURATION: &[u8] = b"mcseg: bad configuration\n";

const LIST: &[u8] = b"mcseg: bad list\n";

const SCRIPTS: &[u8] = b"mcseg: too many scripts\n";

const INPUT: &[u8] = b"mcseg: input failed\n";

const OUTPUT: &[u8] = b"mcseg: output failed\n";

// Writes a line to standard error, and returns the status, even if the write fails.
fn say_line<E: Write>(errors: &mut E, line: &[u8], status: u8) -> u8
    ensures { result ≡ status }
{
    let _ = errors.write_all(line);
    status
}

// Writes a text, and flushes the writer.
fn print_all<W: Write>(writer: &mut W, text: &[u8]) -> io::Result<()> {
    writer.write_all(text)?;
    writer.flush()
}

// Prints what the reader of the command line says: help and version to the output, refusals to standard error.
fn say_words<W: Write, E: Write>(alloc: Global, error: &Error, writer: &mut W, errors: &mut E) -> u8
    ensures memory { kind_of error.now ≡ OutOfMemory → result ≡ 1 }
    ensures shown { result ≡ 0 → (kind_of error.now ≡ DisplayHelp) ⊎ (kind_of error.now ≡ DisplayVersion) }
    ensures mistake { result ≡ 2 → (kind_of error.now ≢ DisplayHelp) × (kind_of error.now ≢ DisplayVersion) }
    ensures kept { result ≡ 1 ⊎ (result ≡ 2) → Keeps (W.contents writer.old) (W.contents writer.new) }
    ensures quiet { result ≡ 0 → Keeps (E.contents errors.old) (E.contents errors.new) }
    ensures few { result ≤ 3 }
{
    if let ErrorKind::OutOfMemory = error.kind() {
        return say_line(errors, MEMORY, 1);
    }
    let Ok(text) = error.to_string(alloc) else {
        return say_line(errors, MEMORY, 1);
    };
    if error.use_stderr() {
        return say_line(errors, text.as_bytes(), 2);
    }
    match print_all(writer, text.as_bytes()) {
        Ok(()) => 0,
        Err(_) => say_line(errors, OUTPUT, 3),
    }
}

// Says what is wrong with a configuration, by the fault's number.
fn say_configuration<E: Write>(alloc: Global, number: u8, errors: &mut E) -> u8
    ensures { (result ≡ 1) ⊎ (result ≡ 2) }
{
    match format!(in alloc; "mcseg: bad configuration {number}\n") {
        Ok(text) => say_line(errors, text.as_bytes(), 2),
        Err(_) => say_line(errors, MEMORY, 1),
    }
}

// Returns the status of an outcome, and says its fault on standard error. A conversation (`follow`) writes to the output, other
// scripts into memory, which fails only if memory runs out.
fn say_outcome<E: Write>(outcome: Outcome, follow: bool, errors: &mut E) -> u8
    ensures status { result ≡ status_of follow outcome }
    ensures quiet { result ≡ 0 → Keeps (E.contents errors.old) (E.contents errors.new) }
{
    match outcome {
        Outcome::Done => 0,
        Outcome::Memory => say_line(errors, MEMORY, 1),
        Outcome::Output if follow => say_line(errors, OUTPUT, 3),
        Outcome::Output => say_line(errors, MEMORY, 1),
        Outcome::HistoryFull => say_line(errors, HISTORY, 1),
        Outcome::Input => say_line(errors, INPUT, 3),
    }
}

// Returns the status of a run: that of the first caller that isn't done. Callers are the scripts, the maintainer, the crawler.
fn say_outcomes<E: Write>(outcomes: &[Outcome], follow: bool, errors: &mut E) -> u8
    ensures done { result ≡ 0 → All (λ outcome. outcome ≡ Done) outcomes.now }
    ensures first { 0 < result → IsFirstFault follow result outcomes.now }
    ensures quiet { result ≡ 0 → Keeps (E.contents errors.old) (E.contents errors.new) }
{
    for outcome in outcomes {
        let status = say_outcome(*outcome, follow, errors);
        if status != 0 {
            return status;
        }
    }
    0
}

// Says why an input wasn't run.
fn say_fault<E: Write>(fault: RunFault, errors: &mut E) -> u8
    ensures memory { fault ≡ unrun.NoMemory → result ≡ 1 }
    ensures refused { fault ≢ unrun.NoMemory → result ≡ 2 }
{
    match fault {
        RunFault::NoMemory => say_line(errors, MEMORY, 1),
        RunFault::Configuration => say_line(errors, CONFIGURATION, 2),
        RunFault::Scripts => say_line(errors, SCRIPTS, 2),
    }
}

// After a run, prints what was answered, script by script, and returns the status. No status but 3 (reading or writing failed)
// leaves a reply unwritten, whether memory ran out, a history was full, or all went well.
fn print_answered<R: Wait, L: Ledger, W: Write, E: Write>(
    run: &Run<(Pieces, Kept<'_, R, L>)>,
    writer: &mut W,
    errors: &mut E,
) -> u8
    ensures printed { result ≢ 3 → Appends (W.contents writer.old) (W.contents writer.new)
        (flat_map (λ end. bytes_of_parts end.1.pieces.items) run.now.ends.items) }
    ensures done { result ≡ 0 → All (λ outcome. outcome ≡ Done) run.now.outcomes.items }
    ensures first { result ≡ 1 → IsFirstFault false 1 run.now.outcomes.items }
    ensures quiet { result ≡ 0 → Keeps (E.contents errors.old) (E.contents errors.new) }
    ensures never { result ≢ 2 }
    ensures few { result ≤ 3 }
{
    let Ok(()) = print_scripts(writer, run.ends.as_slice()) else {
        return say_line(errors, OUTPUT, 3);
    };
    say_outcomes(run.outcomes.as_slice(), false, errors)
}

// Runs the scripts of an input, and prints their replies.
fn run_input<R: Threads + Wait + Sync, L: Ledger + Send + Sync, W: Write, E: Write>(
    host: Host<'_, R>,
    plan: Plan,
    input: VecDeque<Vec<u8>>,
    blank: Blank,
    writer: &mut W,
    errors: &mut E,
) -> u8
    requires blank { (blank.name ≡ L.name) × (blank.parts ≡ L.parts) × (62 ≤ blank.parts) }
    requires plan { IsSound plan.config × All (λ moment. moment ≤ 2 ^ 62) plan.upkeep }
    ensures done { result ≡ 0 → IsInputAnswered false plan.config plan.upkeep (flat_map (λ v. v.items) input.items) (W.contents writer.old)
        (W.contents writer.new) }
    ensures broken { result ≡ 1 → Keeps (W.contents writer.old) (W.contents writer.new)
        ⊎ IsAnsweredInPart 1 false plan.config plan.upkeep (flat_map (λ v. v.items) input.items) (W.contents writer.old) (W.contents writer.new) }
    ensures refused { result ≡ 2 → IsUnrun unrun.Scripts plan.config (flat_map (λ v. v.items) input.items) }
    ensures kept { result ≡ 2 → Keeps (W.contents writer.old) (W.contents writer.new) }
    ensures quiet { result ≡ 0 → Keeps (E.contents errors.old) (E.contents errors.new) }
    ensures few { result ≤ 3 }
{
    let (book, share) = blank.open::<L>();
    let book = Mutex::new(book);
    let run = match run_cut(host, plan, input, &book, share) {
        Ok(run) => run,
        Err(fault) => return say_fault(fault, errors),
    };
    let status = print_answered(&run, writer, errors);
    // Freeing the store and the replies piece by piece costs time, and the process is about to end.
    mem::forget(run);
    status
}

// Runs an input as a conversation: its requests are answered as they come.
fn run_conversation<T: Threads + Wait + Sync, R: Read + Send, W: Write + Send, E: Write>(
    host: Host<'_, T>,
    plan: Plan,
    reader: &mut R,
    writer: &mut W,
    errors: &mut E,
) -> u8
    requires sound { IsSound plan.config }
    requires early { All (λ moment. moment ≤ 2 ^ 62) plan.upkeep }
    ensures done { result ≡ 0 → OfAllBytes (R.remaining reader.old)
        (λ input. IsInputAnswered true plan.config plan.upkeep input (W.contents writer.old) (W.contents writer.new)) }
    ensures broken { result ≡ 1 → Keeps (W.contents writer.old) (W.contents writer.new) ⊎ OfAllBytes (R.remaining reader.old)
        (λ input. IsAnsweredInPart 1 true plan.config plan.upkeep input (W.contents writer.old) (W.contents writer.new)) }
    ensures never { result ≢ 2 }
    ensures quiet { result ≡ 0 → Keeps (E.contents errors.old) (E.contents errors.new) }
    ensures few { result ≤ 3 }
{
    match converse(host, plan, reader, writer) {
        Ok(outcomes) => say_outcomes(outcomes.as_slice(), true, errors),
        Err(_) => say_line(errors, MEMORY, 1),
    }
}

/// Runs the whole program, and returns the exit status. Reads the command line and the input, runs the input's scripts at once,
/// with the upkeep asked for, and prints the replies script by script. With `--follow` the input is one script, which is answered
/// as it comes. `words` begin with the program's name.
///
/// - 0: all went well. All that the reader had to give is answered as the words ask, or help or the version is shown. `errors` got
///   nothing.
/// - 1: memory ran out, or a history was full. `writer` got nothing, or all replies up to what went wrong.
/// - 2: the words were refused, or there were more than 62 scripts. `writer` got nothing.
/// - 3: reading or writing failed.
///
/// If several callers went wrong, the first script decides, then the maintainer, then the crawler.
/// The store's memory isn't freed, as the process is about to end.
pub fn run_words<T: Threads + Wait + Sync, R: Read + Send, W: Write + Send, E: Write>(
    host: Host<'_, T>,
    words: &[&str],
    reader: &mut R,
    writer: &mut W,
    errors: &mut E,
) -> u8
    // Status 0: the program did its work, or showed help or the version, and wrote no error.
    ensures done { result ≡ 0 → refusals (texts words.now) ≡ []
        → HasServed (texts words.now) (R.remaining reader.old) (W.contents writer.old) (W.contents writer.new) }
    ensures shown { result ≡ 0 → (refusals (texts words.now) ≡ []) ⊎ AreForHelp (texts words.now) }
    ensures quiet { result ≡ 0 → Keeps (E.contents errors.old) (E.contents errors.new) }

    // Status 1: nothing is written, or the scripts' replies up to where memory ran out or a history was full.
    ensures broken { result ≡ 1 → Keeps (W.contents writer.old) (W.contents writer.new)
        ⊎ HasServedInPart 1 (texts words.now) (R.remaining reader.old) (W.contents writer.old) (W.contents writer.new) }

    // Status 2: nothing is written, because the words are refused or there are too many scripts.
    ensures refused { result ≡ 2 → AreRefused (texts words.now) ⊎ HasTooMany (texts words.now) (R.remaining reader.old) }
    ensures kept { result ≡ 2 → Keeps (W.contents writer.old) (W.contents writer.new) }
    ensures few { result ≤ 3 }
{
    let alloc = host.alloc;
    let plan = match read_words(alloc, words) {
        Ok(plan) => plan,
        Err(WordsFault::Words(error)) => {
            return say_words(alloc, &error, writer, errors);
        }
        Err(WordsFault::List) => {
            return say_line(errors, LIST, 2);
        }
        Err(WordsFault::Configuration(number)) => {
            return say_configuration(alloc, number, errors);
        }
        Err(WordsFault::NoMemory) => {
            return say_line(errors, MEMORY, 1);
        }
    };
    if plan.follow {
        return run_conversation(host, plan, reader, writer, errors);
    }
    let input = match read_pieces(alloc, reader) {
        Ok(input) => input,
        Err(error) => {
            if error.kind() == io::ErrorKind::OutOfMemory {
                return say_line(errors, MEMORY, 1);
            }
            return say_line(errors, INPUT, 3);
        }
    };
    let blank = Blank::new(MOST_SCRIPTS as u64);
    run_input::<T, Brand, W, E>(host, plan, input, blank, writer, errors)
}
