//! Reads any line by its tokens.
ghost use Rattle.std.specs.Prelude.{◌≡◌, IfOk};
ghost use Rattle.mc_proto.specs.{Grammar.IsFine};
ghost use Rattle.mc_proto.specs.Table as table;

use crate::request::Limits;
use crate::state::Said;
use crate::token::{first_tokens, more_tokens, without_cr};
use crate::verb::tokens_said;
use mc_item::NoMemory;
use std::alloc::Global;

/// Returns what a line says. It comes without its LF.
#[inline(never)]
#[tactic(auto, unfolding(crate::specs::Table::says))]
pub fn said_of(alloc: Global, limits: Limits, line: &[u8]) -> Result<Said, NoMemory>
    ensures value { IfOk result (λ s. s ≡ table.says limits line.now) }
    ensures fine { IfOk result (λ s. IsFine limits s) }
{
    let line = without_cr(line);
    let mut few = [line; 8];
    let (count, rest) = first_tokens(line, &mut few);
    if count < 8 {
        return tokens_said(alloc, limits, few.as_slice().split_at(count).0);
    }
    let tokens = more_tokens(alloc, few.as_slice(), rest)?;
    tokens_said(alloc, limits, tokens.as_slice())
}
