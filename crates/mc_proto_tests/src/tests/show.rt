//! Requests in short: `~` before a quiet one, then the verb, its tokens and `;`.
ghost use Rattle.std.specs.Prelude.{◌<◌};

use itoa::{Buffer, Integer};
use mc_item::{ClassNo, Command, Key, Value, Verb};
use mc_proto::{Keys, Limits, LineFault, Reader, Request, Rest, Target};
use std::alloc::Global;
use std::process::Abort;

/// The limits of the tests: items of at most 100 bytes, and 43 classes.
pub(super) fn limits() -> Limits {
    Limits {
        largest: 100,
        classes: 43,
    }
}

/// Adds a text.
pub(super) fn text(rt: &impl Abort, out: &mut Vec<u8>, bytes: &[u8]) {
    out.extend_from_slice(bytes).expect(rt, "memory");
}

/// Adds a space and a number.
pub(super) fn number<I: Integer>(rt: &impl Abort, out: &mut Vec<u8>, n: I) {
    text(rt, out, b" ".as_slice());
    let mut buffer = Buffer::new();
    text(rt, out, buffer.format(n).as_bytes());
}

// Adds a word, a space and a key.
fn keyed(rt: &impl Abort, out: &mut Vec<u8>, word: &[u8], key: &Key) {
    text(rt, out, word);
    text(rt, out, b" ".as_slice());
    text(rt, out, key.bytes());
}

fn verb(rt: &impl Abort, out: &mut Vec<u8>, verb: Verb) {
    match verb {
        Verb::Set => text(rt, out, b"set".as_slice()),
        Verb::Add => text(rt, out, b"add".as_slice()),
        Verb::Replace => text(rt, out, b"replace".as_slice()),
        Verb::Cas(unique) => {
            text(rt, out, b"cas".as_slice());
            number(rt, out, unique);
        }
        Verb::Append => text(rt, out, b"append".as_slice()),
        Verb::Prepend => text(rt, out, b"prepend".as_slice()),
    }
}

fn target(rt: &impl Abort, out: &mut Vec<u8>, word: &[u8], target: Target) {
    text(rt, out, word);
    match target {
        Target::All => text(rt, out, b" all".as_slice()),
        Target::Class(ClassNo(n)) => number(rt, out, n),
    }
}

fn stored(rt: &impl Abort, out: &mut Vec<u8>, key: &Key, flags: u32, exptime: i64, value: &Value) {
    keyed(rt, out, b"".as_slice(), key);
    number(rt, out, flags);
    number(rt, out, exptime);
    text(rt, out, b" ".as_slice());
    text(rt, out, value.bytes());
}

fn counted(rt: &impl Abort, out: &mut Vec<u8>, word: &[u8], key: &Key, delta: u64) {
    keyed(rt, out, word, key);
    number(rt, out, delta);
}

fn touched(rt: &impl Abort, out: &mut Vec<u8>, word: &[u8], key: &Key, exptime: i64) {
    keyed(rt, out, word, key);
    number(rt, out, exptime);
}

fn command(rt: &impl Abort, out: &mut Vec<u8>, command: &Command) {
    match command {
        Command::Get(key) => keyed(rt, out, b"get".as_slice(), key),
        Command::Store {
            verb: v,
            key,
            flags,
            exptime,
            value,
        } => {
            verb(rt, out, *v);
            stored(rt, out, key, *flags, *exptime, value);
        }
        Command::Huge { verb: v, key } => {
            text(rt, out, b"huge ".as_slice());
            verb(rt, out, *v);
            keyed(rt, out, b"".as_slice(), key);
        }
        Command::Incr(key, delta) => counted(rt, out, b"incr".as_slice(), key, *delta),
        Command::Decr(key, delta) => counted(rt, out, b"decr".as_slice(), key, *delta),
        Command::Touch(key, exptime) => touched(rt, out, b"touch".as_slice(), key, *exptime),
        Command::Gat(key, exptime) => touched(rt, out, b"gat".as_slice(), key, *exptime),
        Command::Delete(key) => keyed(rt, out, b"delete".as_slice(), key),
    }
}

fn fault(why: LineFault) -> &'static [u8] {
    match why {
        LineFault::Error => b"error".as_slice(),
        LineFault::Format => b"format".as_slice(),
        LineFault::Chunk => b"chunk".as_slice(),
        LineFault::Delta => b"delta".as_slice(),
        LineFault::LineTooLong => b"long".as_slice(),
        LineFault::Exptime => b"exptime".as_slice(),
    }
}

pub(super) fn mark(rt: &impl Abort, out: &mut Vec<u8>, quiet: bool) {
    if quiet {
        text(rt, out, b"~".as_slice());
    }
}

fn one(rt: &impl Abort, out: &mut Vec<u8>, asked: &Command, quiet: bool) {
    mark(rt, out, quiet);
    command(rt, out, asked);
}

fn bad(rt: &impl Abort, out: &mut Vec<u8>, why: LineFault, quiet: bool) {
    mark(rt, out, quiet);
    text(rt, out, fault(why));
}

fn at(rt: &impl Abort, out: &mut Vec<u8>, moment: u64) {
    text(rt, out, b"at".as_slice());
    number(rt, out, moment);
}

fn listed(rt: &impl Abort, out: &mut Vec<u8>, keys: &[Key]) {
    for key in keys {
        keyed(rt, out, b"".as_slice(), key);
    }
}

fn limited(rt: &impl Abort, out: &mut Vec<u8>, class: ClassNo, chunks: u64) {
    text(rt, out, b"chunks".as_slice());
    number(rt, out, class.0);
    number(rt, out, chunks);
}

// Adds a word, with an `s` behind it if cas numbers are asked for.
fn reading(rt: &impl Abort, out: &mut Vec<u8>, word: &[u8], with_cas: bool) {
    text(rt, out, word);
    if with_cas {
        text(rt, out, b"s".as_slice());
    }
}

fn all_keys(rt: &impl Abort, out: &mut Vec<u8>, keys: Keys) {
    match keys.into_one() {
        Ok(alone) => keyed(rt, out, b"".as_slice(), &alone),
        Err(keys) => listed(rt, out, keys.as_slice()),
    }
}

fn got(rt: &impl Abort, out: &mut Vec<u8>, keys: Keys, with_cas: bool) {
    reading(rt, out, b"get".as_slice(), with_cas);
    all_keys(rt, out, keys);
}

fn got_and_touched(rt: &impl Abort, out: &mut Vec<u8>, exptime: i64, keys: Keys, with_cas: bool) {
    reading(rt, out, b"gat".as_slice(), with_cas);
    number(rt, out, exptime);
    all_keys(rt, out, keys);
}

// Adds a request in short, without its `;`.
fn request(rt: &impl Abort, out: &mut Vec<u8>, request: Request) {
    match request {
        Request::Get { keys, with_cas } => got(rt, out, keys, with_cas),
        Request::Gat {
            exptime,
            keys,
            with_cas,
        } => got_and_touched(rt, out, exptime, keys, with_cas),
        Request::One { command, quiet } => one(rt, out, &command, quiet),
        Request::Bad { why, quiet } => bad(rt, out, why, quiet),
        Request::At(moment) => at(rt, out, moment),
        Request::Next => text(rt, out, b"next".as_slice()),
        Request::Juggle(classes) => target(rt, out, b"juggle".as_slice(), classes),
        Request::Crawl(classes) => target(rt, out, b"crawl".as_slice(), classes),
        Request::Chunks(class, chunks) => limited(rt, out, class, chunks),
        Request::Quit => text(rt, out, b"quit".as_slice()),
    }
}

// Adds requests in short.
fn show(rt: &impl Abort, out: &mut Vec<u8>, requests: Vec<Request>) {
    for each in requests {
        request(rt, out, each);
        text(rt, out, b";".as_slice());
    }
}

/// Feeds a piece, and adds its requests in short.
pub(super) fn feed(rt: &impl Abort, reader: &mut Reader, out: &mut Vec<u8>, piece: &[u8]) {
    let requests = reader.feed(piece).expect(rt, "memory");
    show(rt, out, requests);
}

/// The same, of a copy of the piece that is given away.
pub(super) fn give(
    rt: &impl Abort,
    alloc: Global,
    reader: &mut Reader,
    out: &mut Vec<u8>,
    piece: &[u8],
) {
    let copy = Vec::from_slice(alloc, piece).expect(rt, "memory");
    let requests = reader.take(copy).expect(rt, "memory");
    show(rt, out, requests);
}

fn feed_all(rt: &impl Abort, reader: &mut Reader, out: &mut Vec<u8>, input: &[u8], size: usize)
    requires { 0 < size }
{
    for piece in input.chunks(size) {
        feed(rt, reader, out, piece);
    }
}

fn give_all(
    rt: &impl Abort,
    alloc: Global,
    reader: &mut Reader,
    out: &mut Vec<u8>,
    input: &[u8],
    size: usize,
)
    requires { 0 < size }
{
    for piece in input.chunks(size) {
        give(rt, alloc, reader, out, piece);
    }
}

/// Adds what is left unfinished.
pub(super) fn push_rest(rt: &impl Abort, out: &mut Vec<u8>, rest: Rest) {
    match rest {
        Rest::Nothing => text(rt, out, b"nothing is left".as_slice()),
        Rest::Line => text(rt, out, b"a line is left".as_slice()),
        Rest::Block => text(rt, out, b"a block is left".as_slice()),
    }
}

/// The requests of an input that comes in pieces of a size, in short.
pub(super) fn requests_of(rt: &impl Abort, alloc: Global, input: &[u8], size: usize) -> Vec<u8>
    requires { 0 < size }
{
    let mut reader = Reader::new(alloc, limits());
    let mut out = Vec::new(alloc);
    feed_all(rt, &mut reader, &mut out, input, size);
    out
}

/// The same, and what is left unfinished.
pub(super) fn read(rt: &impl Abort, alloc: Global, input: &[u8], size: usize) -> Vec<u8>
    requires { 0 < size }
{
    let mut reader = Reader::new(alloc, limits());
    let mut out = Vec::new(alloc);
    feed_all(rt, &mut reader, &mut out, input, size);
    push_rest(rt, &mut out, reader.end());
    out
}

/// The same, of pieces that are given away.
pub(super) fn read_given(rt: &impl Abort, alloc: Global, input: &[u8], size: usize) -> Vec<u8>
    requires { 0 < size }
{
    let mut reader = Reader::new(alloc, limits());
    let mut out = Vec::new(alloc);
    give_all(rt, alloc, &mut reader, &mut out, input, size);
    push_rest(rt, &mut out, reader.end());
    out
}

/// Ends the test where something else was seen.
pub(super) fn same(rt: &impl Abort, seen: &[u8], wanted: &[u8], what: &str, place: usize) {
    assert_eq!(rt; seen, wanted, "{what} {place}");
}
