//! Answers one request: makes its calls, and gathers its text.
ghost use Rattle.std.specs.Prelude.{◌≡◌, ◌≤◌, ◌++◌, ◌^◌, ℕ, [], OnErr, OnOk, IfErr, if◌then◌else◌};
ghost use Rattle.mc_item.specs.declared.fault.Fault.TheVariants as faults;
ghost use Rattle.mc_proto.specs.{Grammar.IsModerate, Text.fault_text, Text.reply_text};
ghost use Rattle.mc_proto.specs.declared.request.Limits.{Limits};
ghost use Rattle.mc_proto.specs.declared.request.Request.TheVariants as requests;
ghost use Rattle.mc_script.specs.Calls.{Answers, AnswersKey, Begins, Fails, FailsKey, GoesOn, MayAnswer, reading_command, reading_request};
ghost use Rattle.mc_script.specs.Script.{moment_after};

use crate::calls::Calls;
use crate::crawling::answer_crawl;
use crate::juggling::answer_juggle;
use mc_item::{ClassNo, Command, Fault, Key, NoMemory, Reply};
use mc_proto::{Keys, Limits, LineFault, ReplyText, Request};
use std::sync::Wait;

// How a request reads its keys: with a gat that sets this exptime, or with a get. The reply has cas numbers if `with_cas`.
#[derive(Clone, Copy)]
pub(crate) struct Reading {
    exptime: Option<i64>,
    with_cas: bool,
}

// The command that reads a key.
#[inline(always)]
fn command_for(key: Key, exptime: Option<i64>) -> Command
    ensures { result ≡ reading_command exptime key }
{
    match exptime {
        None => Command::Get(key),
        Some(exptime) => Command::Gat(key, exptime),
    }
}

// Looks up one key of a get or gat, and on a hit adds the value's text. The text is begun before the call takes the key, and cut off
// again on a miss, so no key is copied.
#[inline(always)]
fn answer_key<C: Calls>(
    rt: &impl Wait,
    calls: &mut C,
    text: &mut ReplyText,
    key: Key,
    reading: Reading,
    moment: u64,
) -> Result<(), Fault>
    requires may { (C.view calls.old).may_call }
    requires early { moment ≤ 2 ^ 62 }
    ensures caller { GoesOn (C.view calls.old) (C.view calls.new) result }
    ensures ok { OnOk result (AnswersKey key reading.exptime reading.with_cas moment (C.view calls.old) (C.view calls.new) text.old.items text.new.items) }
    ensures err { IfErr result (λ e. FailsKey e key reading.exptime moment (C.view calls.old) (C.view calls.new)) }
    ensures front { Begins text.old.items text.new.items }
{
    let start = text.len();
    text.push_value_head(key.bytes())?;
    let reply = calls.command(rt, command_for(key, reading.exptime), moment)?;
    match &reply {
        Reply::Value { .. } => text.push_value_tail(&reply, reading.with_cas)?,
        _ => text.truncate(start),
    }
    Ok(())
}

// Answers a get or gat of one key or more, in order, and ends its text.
#[inline(always)]
fn answer_reading<C: Calls>(
    rt: &impl Wait,
    calls: &mut C,
    text: &mut ReplyText,
    keys: Keys,
    reading: Reading,
    moment: u64,
) -> Result<(), Fault>
    requires may { (C.view calls.old).may_call }
    requires early { moment ≤ 2 ^ 62 }
    ensures caller { GoesOn (C.view calls.old) (C.view calls.new) result }
    ensures ok { (limits : Limits) → OnOk result (Answers limits (reading_request reading.exptime keys reading.with_cas) moment
        (C.view calls.old) (C.view calls.new) text.old.items text.new.items) }
    ensures err { (limits : Limits) → IfErr result (λ e. Fails e limits (reading_request reading.exptime keys reading.with_cas) moment
        (C.view calls.old) (C.view calls.new)) }
    ensures front { Begins text.old.items text.new.items }
{
    match keys.into_one() {
        Ok(key) => answer_key(rt, calls, text, key, reading, moment)?,
        Err(keys) => {
            for key in keys {
                answer_key(rt, calls, text, key, reading, moment)?;
            }
        }
    }
    text.push_end()?;
    Ok(())
}

// Adds a reply's text, unless the request was quiet (`noreply`).
fn push_unless(text: &mut ReplyText, reply: &Reply, quiet: bool) -> Result<(), NoMemory>
    ensures ok { OnOk result (text.new.items ≡ text.old.items ++ (if quiet then [] else reply_text reply.now)) }
    ensures err { OnErr result (text.new.items ≡ text.old.items) }
{
    if quiet {
        return Ok(());
    }
    text.push_reply(reply)
}

// Answers a command other than a get or gat.
#[inline(always)]
fn answer_one<C: Calls>(
    rt: &impl Wait,
    calls: &mut C,
    text: &mut ReplyText,
    command: Command,
    quiet: bool,
    moment: u64,
) -> Result<(), Fault>
    requires may { (C.view calls.old).may_call }
    requires early { moment ≤ 2 ^ 62 }
    ensures caller { GoesOn (C.view calls.old) (C.view calls.new) result }
    ensures ok { (limits : Limits) → OnOk result (Answers limits (requests.One command quiet) moment (C.view calls.old) (C.view calls.new) text.old.items
        text.new.items) }
    ensures err { (limits : Limits) → IfErr result (λ e. Fails e limits (requests.One command quiet) moment (C.view calls.old) (C.view calls.new)) }
    ensures front { Begins text.old.items text.new.items }
{
    let reply = calls.command(rt, command, moment)?;
    push_unless(text, &reply, quiet)?;
    Ok(())
}

// Answers `%chunks`: makes its one call, and adds its text.
#[cold]
#[inline(never)]
fn answer_chunks<C: Calls>(
    rt: &impl Wait,
    calls: &mut C,
    text: &mut ReplyText,
    class: ClassNo,
    chunks: u64,
) -> Result<(), Fault>
    requires may { (C.view calls.old).may_call }
    requires there { (C.view calls.old).has_class class }
    requires some { 1 ≤ chunks }
    requires bound { chunks ≤ 2 ^ 20 }
    ensures caller { GoesOn (C.view calls.old) (C.view calls.new) result }
    ensures ok { (limits : Limits) (moment : ℕ) → OnOk result (Answers limits (requests.Chunks class chunks) moment (C.view calls.old)
        (C.view calls.new) text.old.items text.new.items) }
    ensures err { (limits : Limits) (moment : ℕ) → IfErr result (λ e. Fails e limits (requests.Chunks class chunks) moment (C.view calls.old)
        (C.view calls.new)) }
    ensures front { Begins text.old.items text.new.items }
{
    calls.limit(rt, class, chunks)?;
    text.push_chunks(class, chunks)?;
    Ok(())
}

// Adds the text for a refused line or block, unless it was quiet.
fn refuse(text: &mut ReplyText, why: LineFault, quiet: bool) -> Result<(), Fault>
    ensures ok { OnOk result (text.new.items ≡ text.old.items ++ (if quiet then [] else fault_text why)) }
    ensures err { IfErr result (λ e. (e ≡ faults.NoMemory) × (text.new.items ≡ text.old.items)) }
{
    if !quiet {
        text.push_fault(why)?;
    }
    Ok(())
}

// Answers a request. After an `Err` a part of its text may have been added.
#[inline(always)]
fn answer_whole<C: Calls>(
    rt: &impl Wait,
    limits: Limits,
    calls: &mut C,
    text: &mut ReplyText,
    request: Request,
    moment: &mut u64,
) -> Result<(), Fault>
    requires ready { MayAnswer limits moment.old (C.view calls.old) }
    requires moderate { IsModerate limits request }
    ensures early { moment.new ≤ 2 ^ 62 }
    ensures moment { OnOk result (moment.new ≡ moment_after moment.old request) }
    ensures caller { GoesOn (C.view calls.old) (C.view calls.new) result }
    ensures ok { OnOk result (Answers limits request moment.old (C.view calls.old) (C.view calls.new) text.old.items text.new.items) }
    ensures err { IfErr result (λ e. Fails e limits request moment.old (C.view calls.old) (C.view calls.new)) }
    ensures front { Begins text.old.items text.new.items }
{
    match request {
        Request::Get { keys, with_cas } => {
            let reading = Reading {
                exptime: None,
                with_cas,
            };
            answer_reading(rt, calls, text, keys, reading, *moment)
        }
        Request::Gat {
            exptime,
            keys,
            with_cas,
        } => {
            let reading = Reading {
                exptime: Some(exptime),
                with_cas,
            };
            answer_reading(rt, calls, text, keys, reading, *moment)
        }
        Request::One { command, quiet } => answer_one(rt, calls, text, command, quiet, *moment),
        Request::Bad { why, quiet } => refuse(text, why, quiet),
        Request::At(next) => {
            *moment = next;
            Ok(())
        }
        Request::Juggle(target) => answer_juggle(rt, limits, calls, text, target, *moment),
        Request::Crawl(target) => answer_crawl(rt, limits, calls, text, target, *moment),
        Request::Chunks(class, chunks) => answer_chunks(rt, calls, text, class, chunks),
        Request::Next => Ok(()),
        Request::Quit => Ok(()),
    }
}

/// Answers a request at a moment: makes its calls, and adds its text. `%at` sets the moment for later requests.
/// A request that ends its script makes no call and adds no text.
/// After `NoMemory` or `HistoryFull` the first calls may have been made, and the text is unchanged.
#[inline(always)]
pub fn answer_request<C: Calls>(
    rt: &impl Wait,
    limits: Limits,
    calls: &mut C,
    text: &mut ReplyText,
    request: Request,
    moment: &mut u64,
) -> Result<(), Fault>
    requires ready { MayAnswer limits moment.old (C.view calls.old) }
    requires moderate { IsModerate limits request }
    ensures early { moment.new ≤ 2 ^ 62 }
    ensures moment { OnOk result (moment.new ≡ moment_after moment.old request) }
    ensures caller { GoesOn (C.view calls.old) (C.view calls.new) result }
    ensures ok { OnOk result (Answers limits request moment.old (C.view calls.old) (C.view calls.new) text.old.items text.new.items) }
    ensures err { IfErr result (λ e. Fails e limits request moment.old (C.view calls.old) (C.view calls.new)) }
    ensures text { OnErr result (text.new.items ≡ text.old.items) }
{
    let start = text.len();
    match answer_whole(rt, limits, calls, text, request, moment) {
        Ok(()) => Ok(()),
        Err(fault) => {
            text.truncate(start);
            Err(fault)
        }
    }
}
