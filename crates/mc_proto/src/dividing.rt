//! Cuts an input that lies in pieces of bytes into scripts, each in pieces of its own.
ghost use Rattle.std.specs.Prelude.{◌≡◌, ◌++◌, [], IfOk, OnOk, map};
ghost use Rattle.std.specs.List.{flat_map};
ghost use Rattle.mc_proto.specs.Scripts as scripts;
ghost use Rattle.mc_proto.specs.Uncut.{PassesScript};

use crate::request::Limits;
use crate::splitting::{First, first_len, line_first};
use crate::uncut::Uncut;
use mc_item::NoMemory;
use std::alloc::Global;
use std::collections::VecDeque;

// What the next line asks for. The line is copied only if the current piece doesn't hold all of it.
fn asked_ahead(alloc: Global, limits: Limits, uncut: &Uncut) -> Result<First, NoMemory>
    ensures { IfOk result (λ f. scripts.AsksFirst limits uncut.now.coming f) }
{
    if let Some(first) = line_first(alloc, limits, uncut.window())? {
        return Ok(first);
    }
    let line = uncut.line(alloc)?;
    match line_first(alloc, limits, line.as_slice())? {
        Some(first) => Ok(first),
        None => Ok(First::Last),
    }
}

// What comes next: a request of this script, the line that begins the next one, or the end of the last script. A block is passed
// over by its length.
fn first_ahead(alloc: Global, limits: Limits, uncut: &Uncut) -> Result<First, NoMemory>
    ensures { IfOk result (λ f. scripts.StandsFirst limits uncut.now.coming f) }
{
    let first = asked_ahead(alloc, limits, uncut)?;
    if uncut.has(first_len(&first)) {
        return Ok(first);
    }
    Ok(First::Last)
}

// Passes one script, and returns the length of the line after it, which begins the next script. `None`: this is the last one, and
// some of it may be passed. An input without `%n` is one script, so its lines aren't read.
fn pass_script(alloc: Global, limits: Limits, uncut: &mut Uncut) -> Result<Option<usize>, NoMemory>
    requires { uncut.old.passed ≡ [] }
    ensures stays { OnOk result (uncut.new.passed ++ uncut.new.coming ≡ uncut.old.coming) }
    ensures line { IfOk result (λ o. PassesScript limits uncut.new o) }
{
    if uncut.lacks_next() {
        return Ok(None);
    }
    loop {
        match first_ahead(alloc, limits, uncut)? {
            First::More(count) => uncut.pass(alloc, count)?,
            First::Begins(line) => return Ok(Some(line)),
            First::Last => return Ok(None),
        }
    }
}

/// Cuts an input, given in pieces, into scripts at each line `%next` that comes where a command is due. Returns at least one
/// script. The `%next` lines are part of none. A `%next` within a data block is data, and no script begins after a line that is
/// too long. Only pieces that a cut touches are copied; the others are moved.
/// *Errors*: `NoMemory` if memory is refused.
pub fn split_scripts(
    alloc: Global,
    input: VecDeque<Vec<u8>>,
    limits: Limits,
) -> Result<Vec<VecDeque<Vec<u8>>>, NoMemory>
    ensures { IfOk result (λ v. scripts.AreScripts limits (flat_map (λ p. p.items) input.items) (map (λ s. flat_map (λ p. p.items) s.items) v.items)) }
{
    let mut scripts = Vec::new(alloc);
    let mut uncut = Uncut::new(alloc, input);
    while let Some(line) = pass_script(alloc, limits, &mut uncut)? {
        scripts.push(uncut.take(alloc)?)?;
        uncut.pass(alloc, line)?;
        uncut.take(alloc)?;
    }
    scripts.push(uncut.take_all(alloc)?)?;
    Ok(scripts)
}
