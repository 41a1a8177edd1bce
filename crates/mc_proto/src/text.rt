//! Writes the texts of replies, as `specs/Text.antt` defines them.
ghost use Rattle.std.specs.Prelude.{◌≡◌, ◌++◌, IfOk, OnOk, OnErr, length, take, codes, decimal, ◌<◌};
ghost use Rattle.mc_proto.specs.Text as texts;

use crate::appending::{make_room, push_parts, push_text};
use crate::request::LineFault;
use itoa::Buffer;
use mc_item::{ClassNo, Histogram, Key, Moves, NoMemory, Reply};
use std::alloc::Global;

// Appends a number and CR LF.
fn push_number(out: &mut Vec<u8>, number: u64) -> Result<(), NoMemory>
    ensures ok { OnOk result (out.new.items ≡ out.old.items ++ (decimal number ++ texts.crlf)) }
    ensures err { OnErr result (out.new.items ≡ out.old.items) }
{
    let mut buffer = Buffer::new();
    let digits = buffer.format(number).as_bytes();
    push_parts(out, &[digits, b"\r\n".as_slice()])
}

/// Appends the text of a reply. A value and a miss add nothing: a value is printed with its key (`push_value_head`,
/// `push_value_tail`). After `NoMemory` nothing is added.
pub fn push_reply(out: &mut Vec<u8>, reply: &Reply) -> Result<(), NoMemory>
    ensures ok { OnOk result (out.new.items ≡ out.old.items ++ texts.reply_text reply.now) }
    ensures err { OnErr result (out.new.items ≡ out.old.items) }
{
    match reply {
        Reply::Value { .. } => Ok(()),
        Reply::Miss => Ok(()),
        Reply::Stored => push_text(out, b"STORED\r\n".as_slice()),
        Reply::NotStored => push_text(out, b"NOT_STORED\r\n".as_slice()),
        Reply::Exists => push_text(out, b"EXISTS\r\n".as_slice()),
        Reply::NotFound => push_text(out, b"NOT_FOUND\r\n".as_slice()),
        Reply::Deleted => push_text(out, b"DELETED\r\n".as_slice()),
        Reply::Touched => push_text(out, b"TOUCHED\r\n".as_slice()),
        Reply::Number(number) => push_number(out, *number),
        Reply::NonNumeric => push_text(
            out,
            b"CLIENT_ERROR cannot increment or decrement non-numeric value\r\n".as_slice(),
        ),
        Reply::TooLarge => push_text(
            out,
            b"SERVER_ERROR object too large for cache\r\n".as_slice(),
        ),
        Reply::NoRoom => push_text(
            out,
            b"SERVER_ERROR out of memory storing object\r\n".as_slice(),
        ),
        Reply::NoSpace => push_text(out, b"SERVER_ERROR out of memory\r\n".as_slice()),
    }
}

/// Appends the text of a refused line or block. After `NoMemory` nothing is added.
pub fn push_fault(out: &mut Vec<u8>, why: LineFault) -> Result<(), NoMemory>
    ensures ok { OnOk result (out.new.items ≡ out.old.items ++ texts.fault_text why) }
    ensures err { OnErr result (out.new.items ≡ out.old.items) }
{
    match why {
        LineFault::Error => push_text(out, b"ERROR\r\n".as_slice()),
        LineFault::Format => push_text(out, b"CLIENT_ERROR bad command line format\r\n".as_slice()),
        LineFault::Chunk => push_text(out, b"CLIENT_ERROR bad data chunk\r\n".as_slice()),
        LineFault::Delta => push_text(
            out,
            b"CLIENT_ERROR invalid numeric delta argument\r\n".as_slice(),
        ),
        LineFault::LineTooLong => push_text(out, b"CLIENT_ERROR line too long\r\n".as_slice()),
        LineFault::Exptime => push_text(
            out,
            b"CLIENT_ERROR invalid exptime argument\r\n".as_slice(),
        ),
    }
}

/// Appends the `END` of a `get`. After `NoMemory` nothing is added.
pub fn push_end(out: &mut Vec<u8>) -> Result<(), NoMemory>
    ensures ok { OnOk result (out.new.items ≡ out.old.items ++ texts.end_text) }
    ensures err { OnErr result (out.new.items ≡ out.old.items) }
{
    push_text(out, b"END\r\n".as_slice())
}

/// Appends the beginning of a value's text: `VALUE` and the key. After `NoMemory` nothing is added.
#[inline(always)]
pub fn push_value_head(out: &mut Vec<u8>, key: &[u8]) -> Result<(), NoMemory>
    ensures ok { OnOk result (out.new.items ≡ out.old.items ++ texts.value_head key.now) }
    ensures err { OnErr result (out.new.items ≡ out.old.items) }
{
    let before = out.len();
    push_text(out, b"VALUE ".as_slice())?;
    match push_text(out, key) {
        Ok(()) => Ok(()),
        Err(fault) => {
            out.truncate(before);
            Err(fault)
        }
    }
}

// Appends the rest of a `VALUE` line with flags 0 and a length below 1,000. It is one text, and its digits need no buffer.
#[inline(always)]
fn push_short_line(out: &mut Vec<u8>, len: usize) -> Result<(), NoMemory>
    requires short { len < 1000 }
    ensures ok { OnOk result (out.new.items ≡ out.old.items ++ (codes " 0 " ++ decimal len ++ texts.crlf)) }
    ensures err { OnErr result (out.new.items ≡ out.old.items) }
{
    if len < 10 {
        let one = b'0' + len as u8;
        return push_text(out, &[b' ', b'0', b' ', one, b'\r', b'\n']);
    }
    let last = b'0' + (len % 10) as u8;
    let tens = b'0' + (len / 10 % 10) as u8;
    if len < 100 {
        return push_text(out, &[b' ', b'0', b' ', tens, last, b'\r', b'\n']);
    }
    let first = b'0' + (len / 100) as u8;
    push_text(out, &[b' ', b'0', b' ', first, tens, last, b'\r', b'\n'])
}

// Appends a value and CR LF. After `NoMemory` a part of the value may have been added.
#[inline(always)]
fn push_line(out: &mut Vec<u8>, value: &[u8]) -> Result<(), NoMemory>
    ensures ok { OnOk result (out.new.items ≡ out.old.items ++ (value.now ++ texts.crlf)) }
    ensures err { OnErr result (take (length out.old.items) out.new.items ≡ out.old.items) }
{
    push_text(out, value)?;
    push_text(out, b"\r\n".as_slice())
}

// Appends the rest of any `VALUE` line.
fn push_any_line(
    out: &mut Vec<u8>,
    flags: u32,
    len: usize,
    cas: u64,
    with_cas: bool,
) -> Result<(), NoMemory>
    ensures ok { OnOk result (out.new.items ≡ out.old.items ++ (codes " " ++ decimal flags ++ codes " " ++ decimal len ++ texts.cas_text with_cas cas
        ++ texts.crlf)) }
    ensures err { OnErr result (out.new.items ≡ out.old.items) }
{
    let mut for_flags = Buffer::new();
    let mut for_len = Buffer::new();
    let mut for_cas = Buffer::new();
    let flags = for_flags.format(flags).as_bytes();
    let len = for_len.format(len).as_bytes();
    let cas = for_cas.format(cas).as_bytes();
    let space = b" ".as_slice();
    let crlf = b"\r\n".as_slice();
    if with_cas {
        push_parts(out, &[space, flags, space, len, space, cas, crlf])
    } else {
        push_parts(out, &[space, flags, space, len, crlf])
    }
}

/// Appends the rest of a `VALUE` line: flags, number of bytes, and for `gets` the cas number. The usual flags of 0 and a short
/// length are written faster. After `NoMemory` nothing is added.
#[inline(always)]
pub(crate) fn push_value_line(
    out: &mut Vec<u8>,
    flags: u32,
    len: usize,
    cas: u64,
    with_cas: bool,
) -> Result<(), NoMemory>
    ensures ok { OnOk result (out.new.items ≡ out.old.items ++ (codes " " ++ decimal flags ++ codes " " ++ decimal len ++ texts.cas_text with_cas cas
        ++ texts.crlf)) }
    ensures err { OnErr result (out.new.items ≡ out.old.items) }
{
    if !with_cas && flags == 0 && len < 1000 {
        return push_short_line(out, len);
    }
    push_any_line(out, flags, len, cas, with_cas)
}

// More bytes than a value's text has around the value, with the `END` of a get. Room for all of it is made first, so that a long
// text grows at most once, and isn't copied with the value in it.
const AROUND: usize = 64;

/// Appends what follows the key in a value's text: flags, number of bytes, for `gets` the cas number, then the value in a line of
/// its own. Other replies add nothing. After `NoMemory` nothing is added.
#[inline(always)]
pub fn push_value_tail(out: &mut Vec<u8>, reply: &Reply, with_cas: bool) -> Result<(), NoMemory>
    ensures ok { OnOk result (out.new.items ≡ out.old.items ++ texts.value_tail reply.now with_cas) }
    ensures err { OnErr result (out.new.items ≡ out.old.items) }
{
    let Reply::Value { flags, value, cas } = reply else {
        return Ok(());
    };
    let bytes = value.bytes();
    make_room(out, bytes.len() + AROUND)?;
    let before = out.len();
    push_value_line(out, *flags, bytes.len(), *cas, with_cas)?;
    match push_line(out, bytes) {
        Ok(()) => Ok(()),
        Err(fault) => {
            out.truncate(before);
            Err(fault)
        }
    }
}

/// Returns the text of a reply; empty for a value or a miss. *Errors*: `NoMemory` if memory is refused.
pub fn reply_text(alloc: Global, reply: &Reply) -> Result<Vec<u8>, NoMemory>
    ensures { IfOk result (λ text. text.items ≡ texts.reply_text reply.now) }
{
    let mut out = Vec::new(alloc);
    push_reply(&mut out, reply)?;
    Ok(out)
}

/// Returns a key's text for `get`, or `gets` if `with_cas`; empty without a value. *Errors*: `NoMemory` if memory is refused.
pub fn value_text(
    alloc: Global,
    key: &Key,
    reply: &Reply,
    with_cas: bool,
) -> Result<Vec<u8>, NoMemory>
    ensures { IfOk result (λ text. text.items ≡ texts.value_text key.now reply.now with_cas) }
{
    let mut out = Vec::new(alloc);
    if let Reply::Value { .. } = reply {
        push_value_head(&mut out, key.bytes())?;
        push_value_tail(&mut out, reply, with_cas)?;
    }
    Ok(out)
}

/// Returns the text of a refused line or block. *Errors*: `NoMemory` if memory is refused.
pub fn fault_text(alloc: Global, why: LineFault) -> Result<Vec<u8>, NoMemory>
    ensures { IfOk result (λ text. text.items ≡ texts.fault_text why) }
{
    let mut out = Vec::new(alloc);
    push_fault(&mut out, why)?;
    Ok(out)
}

// Appends a word, two numbers, and CR LF.
fn push_pair(out: &mut Vec<u8>, word: &[u8], first: u64, second: u64) -> Result<(), NoMemory>
    ensures ok { OnOk result (out.new.items ≡ out.old.items ++ (word.now ++ decimal first ++ codes " " ++ decimal second ++ texts.crlf)) }
    ensures err { OnErr result (out.new.items ≡ out.old.items) }
{
    let mut for_first = Buffer::new();
    let mut for_second = Buffer::new();
    let first = for_first.format(first).as_bytes();
    let second = for_second.format(second).as_bytes();
    push_parts(
        out,
        &[word, first, b" ".as_slice(), second, b"\r\n".as_slice()],
    )
}

/// Appends the text of `%juggle`: how many entries were reclaimed, and how many moved. After `NoMemory` nothing is added.
pub fn push_moves(out: &mut Vec<u8>, moves: &Moves) -> Result<(), NoMemory>
    ensures ok { OnOk result (out.new.items ≡ out.old.items ++ texts.moves_text moves.now) }
    ensures err { OnErr result (out.new.items ≡ out.old.items) }
{
    push_pair(out, b"JUGGLED ".as_slice(), moves.reclaimed, moves.moved)
}

/// Returns the text of `%juggle`: how many entries were reclaimed, and how many moved. *Errors*: `NoMemory` if memory is refused.
pub fn moves_text(alloc: Global, moves: &Moves) -> Result<Vec<u8>, NoMemory>
    ensures { IfOk result (λ text. text.items ≡ texts.moves_text moves.now) }
{
    let mut out = Vec::new(alloc);
    push_moves(&mut out, moves)?;
    Ok(out)
}

/// Appends the text of `%chunks`: the slab class, and its new limit of chunks. After `NoMemory` nothing is added.
pub fn push_chunks(out: &mut Vec<u8>, class: ClassNo, chunks: u64) -> Result<(), NoMemory>
    ensures ok { OnOk result (out.new.items ≡ out.old.items ++ texts.chunks_text class chunks) }
    ensures err { OnErr result (out.new.items ≡ out.old.items) }
{
    push_pair(out, b"CHUNKS ".as_slice(), class.0 as u64, chunks)
}

/// Returns the text of `%chunks`: the slab class, and its new limit of chunks. *Errors*: `NoMemory` if memory is refused.
pub fn chunks_text(alloc: Global, class: ClassNo, chunks: u64) -> Result<Vec<u8>, NoMemory>
    ensures { IfOk result (λ text. text.items ≡ texts.chunks_text class chunks) }
{
    let mut out = Vec::new(alloc);
    push_chunks(&mut out, class, chunks)?;
    Ok(out)
}

// Appends the bytes `before`, then a number.
fn push_count(out: &mut Vec<u8>, before: &[u8], number: u64) -> Result<(), NoMemory>
    ensures ok { OnOk result (out.new.items ≡ out.old.items ++ (before.now ++ decimal number)) }
    ensures err { OnErr result (out.new.items ≡ out.old.items) }
{
    let mut buffer = Buffer::new();
    push_parts(out, &[before, buffer.format(number).as_bytes()])
}

// Appends the first line of a histogram's text.
fn push_counts(out: &mut Vec<u8>, h: &Histogram) -> Result<(), NoMemory>
    ensures ok { OnOk result (out.new.items ≡ out.old.items ++ texts.counts_text h.now) }
{
    push_count(out, b"CRAWL ".as_slice(), h.seen)?;
    push_count(out, b" ".as_slice(), h.reclaimed)?;
    push_count(out, b" ".as_slice(), h.passed)?;
    push_count(out, b" ".as_slice(), h.gone)?;
    push_count(out, b" ".as_slice(), h.no_expiry)?;
    push_count(out, b" ".as_slice(), h.hour_plus)?;
    push_text(out, b"\r\n".as_slice())
}

// Appends the line of a minute: how many entries have that many minutes left. Adds nothing if that is 0.
fn push_minute(out: &mut Vec<u8>, minute: u64, n: u64) -> Result<(), NoMemory>
    ensures ok { OnOk result (out.new.items ≡ out.old.items ++ texts.minute_text minute n) }
{
    if n == 0 {
        return Ok(());
    }
    push_count(out, b"MINUTE ".as_slice(), minute)?;
    push_count(out, b" ".as_slice(), n)?;
    push_text(out, b"\r\n".as_slice())
}

// Appends the lines of all minutes.
fn push_minutes(out: &mut Vec<u8>, minutes: &[u64]) -> Result<(), NoMemory>
    ensures ok { OnOk result (out.new.items ≡ out.old.items ++ texts.minutes_text 0 minutes.now) }
{
    for (i, n) in minutes.iter().enumerate() {
        push_minute(out, i as u64, *n)?;
    }
    Ok(())
}

/// Returns the text of `%crawl`: a line of counts, a line for each whole minute that entries have left to live, and `END`.
/// *Errors*: `NoMemory` if memory is refused.
pub fn histogram_text(alloc: Global, h: &Histogram) -> Result<Vec<u8>, NoMemory>
    ensures { IfOk result (λ text. text.items ≡ texts.histogram_text h.now) }
{
    let mut out = Vec::new(alloc);
    push_counts(&mut out, h)?;
    push_minutes(&mut out, h.minutes.as_slice())?;
    push_end(&mut out)?;
    Ok(out)
}

/// Appends the text of `%crawl`, as `histogram_text` returns it. After `NoMemory` nothing is added.
pub fn push_histogram(out: &mut Vec<u8>, h: &Histogram) -> Result<(), NoMemory>
    ensures ok { OnOk result (out.new.items ≡ out.old.items ++ texts.histogram_text h.now) }
    ensures err { OnErr result (out.new.items ≡ out.old.items) }
{
    let text = histogram_text(*out.allocator(), h)?;
    push_text(out, text.as_slice())
}
