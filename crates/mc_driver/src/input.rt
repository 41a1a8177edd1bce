//! Cuts an input into scripts, with a source and a sink for each.
ghost use Rattle.std.specs.Prelude.{◌≡◌, ◌≤◌, [], IfOk, length, map};
ghost use Rattle.std.specs.List.{All, flat_map};
ghost use Rattle.mc_proto.specs.Scripts.{AreScripts};

use crate::memory::{Kept, Pieces};
use mc_item::NoMemory;
use mc_proto::{Limits, split_scripts};
use std::alloc::Global;
use std::collections::VecDeque;
use std::sync::ledger::{Book, Ledger, Share};
use std::sync::{Mutex, Wait};

/// How many bytes a piece has at most. A script has only the requests of one piece in memory at a time.
pub(crate) const PIECE: usize = 65536;

/// Cuts an input into its scripts, and returns a source for each, in order. A piece that is whole in one script isn't copied.
pub(crate) fn sources_of(
    alloc: Global,
    limits: Limits,
    input: VecDeque<Vec<u8>>,
) -> Result<Vec<Pieces>, NoMemory>
    ensures { IfOk result (λ sources. AreScripts limits (flat_map (λ v. v.items) input.items) sources.items) }
{
    let mut sources = Vec::new(alloc);
    for script in split_scripts(alloc, input, limits)? {
        sources.push(Pieces::new(script))?;
    }
    Ok(sources)
}

/// Gives each source, in order, an empty sink in memory. One book counts the failures of all sinks.
pub(crate) fn scripts_of<'a, R: Wait, L: Ledger>(
    rt: &'a R,
    alloc: Global,
    sources: Vec<Pieces>,
    book: &'a Mutex<Book<L>>,
    share: Share<L>,
) -> Result<Vec<(Pieces, Kept<'a, R, L>)>, NoMemory>
    requires parts { length sources.items ≤ share.parts }
    requires none { share.amount ≡ 0 }
    ensures sources { IfOk result (λ scripts. map (λ s. s.0) scripts.items ≡ sources.items) }
    ensures fresh { IfOk result (λ scripts. All (λ s. s.1.pieces.items ≡ []) scripts.items) }
{
    let mut share = share;
    let mut scripts = Vec::new(alloc);
    for source in sources {
        let part = share.split_off(1, 0);
        scripts.push((source, Kept::new(rt, alloc, book, part)))?;
    }
    Ok(scripts)
}
