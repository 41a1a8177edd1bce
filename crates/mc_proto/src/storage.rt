//! Reads the storage lines: set, add, replace, cas, append and prepend.
ghost use Rattle.std.specs.Prelude.{◌≡◌, ◌∷◌, [], ◌+◌, ◌<◌, ◌≤◌, IfOk, map};
ghost use Rattle.mc_item.specs.declared.command.Verb.TheVariants as verbs;
ghost use Rattle.mc_proto.specs.{Grammar.IsFine, Table.row_says, Table.kinds_say, Table.Noreply};
ghost use Rattle.mc_proto.specs.Kinds as kinds;
ghost use Rattle.mc_proto.specs.Table as table;

use crate::request::Limits;
use crate::said::{no_format, no_line, quiet_by};
use crate::state::{Said, Start};
use crate::token::{exptime, key_of_token, number_up_to};
use mc_item::{Key, NoMemory, Verb};
use std::alloc::Global;

/// The most bytes that a storage line may announce. With its CR LF the block has at most 2^31 - 1.
pub const MAX_BYTES: u64 = 2_147_483_645;

/// The largest flags: 2^32 - 1.
pub const MAX_FLAGS: u64 = 4_294_967_295;

/// Returns what a good storage line says. Its block is skipped if 64 bytes, the key and the value exceed the largest slab class.
#[inline(always)]
pub fn begun(limits: Limits, start: Start) -> Said
    requires { start.count ≤ 2147483645 }
    ensures value { result ≡ table.begun limits start }
    ensures fine { IsFine limits result }
{
    if limits.largest < 64 + start.key.bytes().len() as u64 + start.count {
        Said::Skip(start)
    } else {
        Said::Block(start)
    }
}

// The tokens of a storage line's numbers.
#[derive(Drop)]
struct Numbers<'a> {
    flags: &'a [u8],
    exptime: &'a [u8],
    count: &'a [u8],
}

// What a storage line with a good key says, by the tokens of its numbers.
fn stored_said(limits: Limits, verb: Verb, key: Key, numbers: &Numbers<'_>, quiet: bool) -> Said
    ensures value { result ≡ kinds_say limits quiet (kinds.Flags ∷ kinds.Exptime ∷ kinds.Bytes ∷ []) Noreply (table.store limits verb key)
        (numbers.now.flags.now ∷ numbers.now.exptime.now ∷ numbers.now.count.now ∷ []) }
    ensures fine { IsFine limits result }
{
    let Some(flags) = number_up_to(MAX_FLAGS, numbers.flags) else {
        return no_format(quiet);
    };
    let Some(exptime) = exptime(numbers.exptime) else {
        return no_format(quiet);
    };
    let Some(count) = number_up_to(MAX_BYTES, numbers.count) else {
        return no_format(quiet);
    };
    let start = Start {
        verb,
        key,
        flags: flags as u32,
        exptime,
        count,
        quiet,
    };
    begun(limits, start)
}

/// Reads the tokens after `set`, `add`, `replace`, `append` or `prepend`: key, flags, exptime and bytes, and perhaps noreply.
pub fn store_line(
    alloc: Global,
    limits: Limits,
    verb: Verb,
    args: &[&[u8]],
) -> Result<Said, NoMemory>
    ensures value { IfOk result (λ s. s ≡ row_says limits (kinds.Key ∷ kinds.Flags ∷ kinds.Exptime ∷ kinds.Bytes ∷ []) Noreply (table.store limits verb)
        (map (λ t. t.now) args.now)) }
    ensures fine { IfOk result (λ s. IsFine limits s) }
{
    let [key, flags, exptime, count, rest @ ..] = args else {
        return Ok(no_line());
    };
    let Some(quiet) = quiet_by(rest) else {
        return Ok(no_line());
    };
    let Some(key) = key_of_token(alloc, *key)? else {
        return Ok(no_format(quiet));
    };
    let numbers = Numbers {
        flags: *flags,
        exptime: *exptime,
        count: *count,
    };
    Ok(stored_said(limits, verb, key, &numbers, quiet))
}

/// Reads the tokens after `cas`: key, flags, exptime, bytes and cas number, and perhaps noreply.
pub fn cas_line(alloc: Global, limits: Limits, args: &[&[u8]]) -> Result<Said, NoMemory>
    ensures value { IfOk result (λ s. s ≡ row_says limits (kinds.Key ∷ kinds.Flags ∷ kinds.Exptime ∷ kinds.Bytes ∷ kinds.CasNumber ∷ []) Noreply
        (λ key flags e n unique. table.store limits (verbs.Cas unique) key flags e n) (map (λ t. t.now) args.now)) }
    ensures fine { IfOk result (λ s. IsFine limits s) }
{
    let [key, flags, exptime, count, unique, rest @ ..] = args else {
        return Ok(no_line());
    };
    let Some(quiet) = quiet_by(rest) else {
        return Ok(no_line());
    };
    let Some(key) = key_of_token(alloc, *key)? else {
        return Ok(no_format(quiet));
    };
    let Some(unique) = number_up_to(u64::MAX, *unique) else {
        return Ok(no_format(quiet));
    };
    let numbers = Numbers {
        flags: *flags,
        exptime: *exptime,
        count: *count,
    };
    Ok(stored_said(limits, Verb::Cas(unique), key, &numbers, quiet))
}
