//! Reads a line by its verb and the tokens after it. The verbs are tried in the table's order, at most five in a function.
ghost use Rattle.std.specs.Prelude.{◌≡◌, IfOk, drop, map};
ghost use Rattle.mc_proto.specs.{Grammar.IsFine, Table.rows_say, Table.tokens_say};
ghost use Rattle.mc_proto.specs.Table as table;

use crate::command::{count_line, delete_line, touch_line};
use crate::directive::{at_line, chunks_line, crawl_line, juggle_line, lone_line};
use crate::get::{gat_line, get_line};
use crate::request::{Limits, Request};
use crate::said::no_line;
use crate::state::Said;
use crate::storage::{cas_line, store_line};
use mc_item::{NoMemory, Verb};
use std::alloc::Global;

// What a line says by the table's rows from `%next` on.
fn line_from_next(limits: Limits, verb: &[u8], args: &[&[u8]]) -> Said
    ensures value { result ≡ rows_say limits (drop 18 (table.table limits)) verb.now (map (λ t. t.now) args.now) }
    ensures fine { IsFine limits result }
{
    if verb == b"%next".as_slice() {
        lone_line(Request::Next, args)
    } else if verb == b"quit".as_slice() {
        lone_line(Request::Quit, args)
    } else {
        no_line()
    }
}

// What a line says by the table's rows from `%at` on: the directives and quit.
#[cold]
#[inline(never)]
fn line_from_at(limits: Limits, verb: &[u8], args: &[&[u8]]) -> Said
    ensures value { result ≡ rows_say limits (drop 14 (table.table limits)) verb.now (map (λ t. t.now) args.now) }
    ensures fine { IsFine limits result }
{
    if verb == b"%at".as_slice() {
        at_line(args)
    } else if verb == b"%juggle".as_slice() {
        juggle_line(limits, args)
    } else if verb == b"%crawl".as_slice() {
        crawl_line(limits, args)
    } else if verb == b"%chunks".as_slice() {
        chunks_line(limits, args)
    } else {
        line_from_next(limits, verb, args)
    }
}

// What a line says by the table's rows from `prepend` on.
fn line_from_prepend(
    alloc: Global,
    limits: Limits,
    verb: &[u8],
    args: &[&[u8]],
) -> Result<Said, NoMemory>
    ensures value { IfOk result (λ s. s ≡ rows_say limits (drop 9 (table.table limits)) verb.now (map (λ t. t.now) args.now)) }
    ensures fine { IfOk result (λ s. IsFine limits s) }
{
    if verb == b"prepend".as_slice() {
        store_line(alloc, limits, Verb::Prepend, args)
    } else if verb == b"incr".as_slice() {
        count_line(alloc, true, args)
    } else if verb == b"decr".as_slice() {
        count_line(alloc, false, args)
    } else if verb == b"touch".as_slice() {
        touch_line(alloc, args)
    } else if verb == b"delete".as_slice() {
        delete_line(alloc, args)
    } else {
        Ok(line_from_at(limits, verb, args))
    }
}

// What a line says by the table's rows from `set` on.
#[inline(never)]
fn line_from_set(
    alloc: Global,
    limits: Limits,
    verb: &[u8],
    args: &[&[u8]],
) -> Result<Said, NoMemory>
    ensures value { IfOk result (λ s. s ≡ rows_say limits (drop 4 (table.table limits)) verb.now (map (λ t. t.now) args.now)) }
    ensures fine { IfOk result (λ s. IsFine limits s) }
{
    if verb == b"set".as_slice() {
        store_line(alloc, limits, Verb::Set, args)
    } else if verb == b"add".as_slice() {
        store_line(alloc, limits, Verb::Add, args)
    } else if verb == b"replace".as_slice() {
        store_line(alloc, limits, Verb::Replace, args)
    } else if verb == b"cas".as_slice() {
        cas_line(alloc, limits, args)
    } else if verb == b"append".as_slice() {
        store_line(alloc, limits, Verb::Append, args)
    } else {
        line_from_prepend(alloc, limits, verb, args)
    }
}

// What a line says by all rows of the table.
#[inline(always)]
fn line_from_get(
    alloc: Global,
    limits: Limits,
    verb: &[u8],
    args: &[&[u8]],
) -> Result<Said, NoMemory>
    ensures value { IfOk result (λ s. s ≡ rows_say limits (table.table limits) verb.now (map (λ t. t.now) args.now)) }
    ensures fine { IfOk result (λ s. IsFine limits s) }
{
    if verb == b"get".as_slice() {
        get_line(alloc, false, args)
    } else if verb == b"gets".as_slice() {
        get_line(alloc, true, args)
    } else if verb == b"gat".as_slice() {
        gat_line(alloc, false, args)
    } else if verb == b"gats".as_slice() {
        gat_line(alloc, true, args)
    } else {
        line_from_set(alloc, limits, verb, args)
    }
}

/// Returns what the tokens of a line say. The first one is the verb.
#[inline(always)]
pub fn tokens_said(alloc: Global, limits: Limits, tokens: &[&[u8]]) -> Result<Said, NoMemory>
    ensures value { IfOk result (λ s. s ≡ tokens_say limits (map (λ t. t.now) tokens.now)) }
    ensures fine { IfOk result (λ s. IsFine limits s) }
{
    let [verb, args @ ..] = tokens else {
        return Ok(no_line());
    };
    line_from_get(alloc, limits, *verb, args)
}
