//! Reads the lines of incr, decr, touch and delete, given the tokens after the verb.
ghost use Rattle.std.specs.Prelude.{◌≡◌, ◌∷◌, [], IfOk, if◌then◌else◌, map};
ghost use Rattle.mc_proto.specs.{Grammar.IsFine, Table.row_says, Table.Noreply};
ghost use Rattle.mc_proto.specs.Kinds as kinds;
ghost use Rattle.mc_proto.specs.Table as table;
ghost use Rattle.mc_proto.specs.declared.request.Limits.{Limits};
ghost use Rattle.mc_item.specs.declared.command.Command.TheVariants as commands;

use crate::request::LineFault;
use crate::said::{bad, no_format, no_line, one, quiet_by};
use crate::state::Said;
use crate::token::{exptime, key_of_token, number_up_to};
use mc_item::{Command, Key, NoMemory};
use std::alloc::Global;

/// Returns the command of a good line: incr if `up`, otherwise decr.
#[inline(always)]
pub fn counting(up: bool, key: Key, delta: u64) -> Command
    ensures { result ≡ (if up then commands.Incr key delta else commands.Decr key delta) }
{
    if up {
        Command::Incr(key, delta)
    } else {
        Command::Decr(key, delta)
    }
}

/// Reads the tokens after `incr` (if `up`) or `decr`: key and delta, and perhaps noreply.
pub fn count_line(alloc: Global, up: bool, args: &[&[u8]]) -> Result<Said, NoMemory>
    ensures value { (limits : Limits) → IfOk result (λ s. s ≡ row_says limits (kinds.Key ∷ kinds.Delta ∷ []) Noreply (table.count up)
        (map (λ t. t.now) args.now)) }
    ensures fine { (limits : Limits) → IfOk result (λ s. IsFine limits s) }
{
    let [key, delta, rest @ ..] = args else {
        return Ok(no_line());
    };
    let Some(quiet) = quiet_by(rest) else {
        return Ok(no_line());
    };
    let Some(key) = key_of_token(alloc, *key)? else {
        return Ok(no_format(quiet));
    };
    let Some(delta) = number_up_to(u64::MAX, *delta) else {
        return Ok(bad(LineFault::Delta, quiet));
    };
    Ok(one(quiet, counting(up, key, delta)))
}

/// Reads the tokens after `touch`: key and exptime, and perhaps noreply.
pub fn touch_line(alloc: Global, args: &[&[u8]]) -> Result<Said, NoMemory>
    ensures value { (limits : Limits) → IfOk result (λ s. s ≡ row_says limits (kinds.Key ∷ kinds.NewExptime ∷ []) Noreply
        (λ key e quiet. table.one quiet (commands.Touch key e)) (map (λ t. t.now) args.now)) }
    ensures fine { (limits : Limits) → IfOk result (λ s. IsFine limits s) }
{
    let [key, e, rest @ ..] = args else {
        return Ok(no_line());
    };
    let Some(quiet) = quiet_by(rest) else {
        return Ok(no_line());
    };
    let Some(key) = key_of_token(alloc, *key)? else {
        return Ok(no_format(quiet));
    };
    let Some(e) = exptime(*e) else {
        return Ok(bad(LineFault::Exptime, quiet));
    };
    Ok(one(quiet, Command::Touch(key, e)))
}

/// Reads the tokens after `delete`: key, and perhaps noreply.
pub fn delete_line(alloc: Global, args: &[&[u8]]) -> Result<Said, NoMemory>
    ensures value { (limits : Limits) → IfOk result (λ s. s ≡ row_says limits (kinds.Key ∷ []) Noreply (λ key quiet. table.one quiet (commands.Delete key))
        (map (λ t. t.now) args.now)) }
    ensures fine { (limits : Limits) → IfOk result (λ s. IsFine limits s) }
{
    let [key, rest @ ..] = args else {
        return Ok(no_line());
    };
    let Some(quiet) = quiet_by(rest) else {
        return Ok(no_line());
    };
    let Some(key) = key_of_token(alloc, *key)? else {
        return Ok(no_format(quiet));
    };
    Ok(one(quiet, Command::Delete(key)))
}
