//! Reads the lines of the directives and of quit. Their verbs take two tokens at most, and never noreply.
ghost use Rattle.std.specs.Prelude.{◌≡◌, ◌∷◌, [], ◌<◌, ◌≤◌, IfSome, map, false};
ghost use Rattle.mc_proto.specs.{Grammar.IsFine, Grammar.IsModerate, Grammar.closes, Table.row_says, Table.Nothing};
ghost use Rattle.mc_proto.specs.Kinds as kinds;
ghost use Rattle.mc_proto.specs.Lines as lines;
ghost use Rattle.mc_proto.specs.declared.request.Limits.{Limits};
ghost use Rattle.mc_proto.specs.declared.request.Request.TheVariants as requests;
ghost use Rattle.mc_proto.specs.declared.state.Said.TheVariants as said;

use crate::request::{Limits, Request, Target};
use crate::said::{no_format, no_line};
use crate::state::Said;
use crate::token::number_up_to;
use mc_item::ClassNo;

/// The latest time that `%at` can set: 2^62 seconds. The code calls a time a moment.
const MAX_MOMENT: u64 = 4_611_686_018_427_387_904;

/// Reads the token after `%at`: a time in seconds, at most 2^62.
pub fn at_line(args: &[&[u8]]) -> Said
    ensures value { (limits : Limits) → result ≡ row_says limits (kinds.Moment ∷ []) Nothing (λ moment. said.Whole (requests.At moment))
        (map (λ t. t.now) args.now) }
    ensures fine { (limits : Limits) → IsFine limits result }
{
    let [moment] = args else {
        return no_line();
    };
    match number_up_to(MAX_MOMENT, *moment) {
        Some(moment) => Said::Whole(Request::At(moment)),
        None => no_format(false),
    }
}

/// The highest limit of chunks that `%chunks` can set: 2^20.
const MAX_CHUNKS: u64 = 1_048_576;

// The slab class of this number; `None` for 0 or without a number.
fn class_target(number: Option<u64>) -> Option<Target>
    requires { IfSome number (λ n. n < 4294967296) }
    ensures { result ≡ lines.class_target number }
{
    match number {
        Some(n) => {
            if n == 0 {
                None
            } else {
                Some(Target::Class(ClassNo(n as u32)))
            }
        }
        None => None,
    }
}

// The slab classes that a token names: `all`, or one by its number.
fn target_of(limits: Limits, token: &[u8]) -> Option<Target>
    ensures { result ≡ lines.target_of limits token.now }
{
    if token == b"all".as_slice() {
        Some(Target::All)
    } else {
        class_target(number_up_to(u64::from(limits.classes), token))
    }
}

/// Reads the token after `%juggle`: `all`, or the number of a slab class.
pub fn juggle_line(limits: Limits, args: &[&[u8]]) -> Said
    ensures value { result ≡ row_says limits (kinds.Classes ∷ []) Nothing (λ target. said.Whole (requests.Juggle target)) (map (λ t. t.now) args.now) }
    ensures fine { IsFine limits result }
{
    let [token] = args else {
        return no_line();
    };
    match target_of(limits, *token) {
        Some(target) => Said::Whole(Request::Juggle(target)),
        None => no_format(false),
    }
}

/// Reads the token after `%crawl`: `all`, or the number of a slab class.
pub fn crawl_line(limits: Limits, args: &[&[u8]]) -> Said
    ensures value { result ≡ row_says limits (kinds.Classes ∷ []) Nothing (λ target. said.Whole (requests.Crawl target)) (map (λ t. t.now) args.now) }
    ensures fine { IsFine limits result }
{
    let [token] = args else {
        return no_line();
    };
    match target_of(limits, *token) {
        Some(target) => Said::Whole(Request::Crawl(target)),
        None => no_format(false),
    }
}

// The number of a token, if it is from 1 to `limit`.
fn number_from_one(limit: u64, token: &[u8]) -> Option<u64>
    ensures value { result ≡ lines.number_from_one limit token.now }
    ensures bound { IfSome result (λ n. (1 ≤ n) × (n ≤ limit)) }
{
    let number = number_up_to(limit, token)?;
    if number == 0 { None } else { Some(number) }
}

/// Reads the tokens after `%chunks`: the number of a slab class, and its new limit of chunks, from 1 to 2^20.
pub fn chunks_line(limits: Limits, args: &[&[u8]]) -> Said
    ensures value { result ≡ row_says limits (kinds.OneClass ∷ kinds.ChunkLimit ∷ []) Nothing (λ class n. said.Whole (requests.Chunks class n))
        (map (λ t. t.now) args.now) }
    ensures fine { IsFine limits result }
{
    let [class, chunks] = args else {
        return no_line();
    };
    let Some(class) = number_from_one(u64::from(limits.classes), *class) else {
        return no_format(false);
    };
    let Some(chunks) = number_from_one(MAX_CHUNKS, *chunks) else {
        return no_format(false);
    };
    Said::Whole(Request::Chunks(ClassNo(class as u32), chunks))
}

/// Reads a line `%next` or `quit`, which takes no tokens: returns `request`, or the fault `Error` if tokens follow the verb.
pub fn lone_line(request: Request, args: &[&[u8]]) -> Said
    requires stays { closes request ≡ false }
    requires moderate { (limits : Limits) → IsModerate limits request }
    ensures value { (limits : Limits) → result ≡ row_says limits [] Nothing (said.Whole request) (map (λ t. t.now) args.now) }
    ensures fine { (limits : Limits) → IsFine limits result }
{
    if args.is_empty() {
        Said::Whole(request)
    } else {
        no_line()
    }
}
