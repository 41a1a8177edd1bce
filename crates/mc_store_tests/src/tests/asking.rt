//! What the tests ask stores for; where that fails, the test ends.
ghost use Rattle.std.specs.Prelude.{◌<◌, ◌≤◌, ◌^◌, length};

use mc_board::Figures;
use mc_item::{ClassNo, Command, Histogram, Moves, Reply, Verb};
use mc_store::{Named, Pass, Store};
use mc_testing::{try_key, try_storage};
use std::alloc::Global;
use std::process::Abort;
use std::sync::Wait;
use std::thread;

// A class that is busy is read so often, and lets others run in between.
const TRIES: u32 = 10_000_000;

/// What is asked for a key.
#[derive(Clone, Copy)]
pub(super) enum Ask {
    Get,
    Gat(i64),
    /// A storage command of these flags and this value, which doesn't expire.
    Store(Verb, u32, &'static str),
    /// A set of this exptime and value, without flags.
    Expiring(i64, &'static str),
    /// A cas to this value, with the number that was shown last, or 0.
    Cas(&'static str),
    Incr(u64),
    Decr(u64),
    Touch(i64),
    Delete,
    /// A set of a block that was skipped.
    Huge,
}

// A command that stores no text, or a get.
fn other_of<R: Abort>(rt: &R, alloc: Global, letter: u8, ask: Ask) -> Command {
    let key = try_key(alloc, letter).expect(rt, "a key");
    match ask {
        Ask::Gat(exptime) => Command::Gat(key, exptime),
        Ask::Incr(delta) => Command::Incr(key, delta),
        Ask::Decr(delta) => Command::Decr(key, delta),
        Ask::Touch(exptime) => Command::Touch(key, exptime),
        Ask::Delete => Command::Delete(key),
        Ask::Huge => Command::Huge {
            verb: Verb::Set,
            key,
        },
        _ => Command::Get(key),
    }
}

/// What is asked for the key of one letter, where this cas number was shown last.
pub(super) fn command_of<R: Abort>(
    rt: &R,
    alloc: Global,
    letter: u8,
    ask: Ask,
    shown: u64,
) -> Command {
    let (verb, flags, exptime, text) = match ask {
        Ask::Store(verb, flags, text) => (verb, flags, 0, text),
        Ask::Expiring(exptime, text) => (Verb::Set, 0, exptime, text),
        Ask::Cas(text) => (Verb::Cas(shown), 0, 0, text),
        other => return other_of(rt, alloc, letter, other),
    };
    try_storage(alloc, verb, letter, flags, exptime, text.as_bytes()).expect(rt, "a command")
}

/// What a command is answered.
pub(super) fn answer<N: Named, R: Abort + Wait>(
    rt: &R,
    alloc: Global,
    store: &Store<N>,
    pass: &mut Pass<N>,
    command: Command,
    moment: u32,
) -> Reply {
    store
        .command(alloc, rt, pass, command, u64::from(moment))
        .expect(rt, "a reply")
}

/// Juggles a class.
pub(super) fn juggle<N: Named, R: Abort + Wait>(
    rt: &R,
    store: &Store<N>,
    pass: &mut Pass<N>,
    class: ClassNo,
    moment: u32,
) -> Moves
    requires { (0 < class.0) × (class.0 ≤ length N.config.sizes) }
{
    store
        .juggle(rt, pass, class, u64::from(moment))
        .expect(rt, "moves")
}

/// Crawls a class.
pub(super) fn crawl<N: Named, R: Abort + Wait>(
    rt: &R,
    alloc: Global,
    store: &Store<N>,
    pass: &mut Pass<N>,
    class: ClassNo,
    moment: u32,
) -> Histogram
    requires { (0 < class.0) × (class.0 ≤ length N.config.sizes) }
{
    store
        .crawl(alloc, rt, pass, class, u64::from(moment))
        .expect(rt, "a histogram")
}

/// Sets a class's limit of chunks.
pub(super) fn limit<N: Named, R: Abort + Wait>(
    rt: &R,
    store: &Store<N>,
    pass: &mut Pass<N>,
    class: ClassNo,
    chunks: u64,
)
    requires class { (0 < class.0) × (class.0 ≤ length N.config.sizes) }
    requires chunks { (1 ≤ chunks) × (chunks ≤ 2 ^ 20) }
{
    store.chunks(rt, pass, class, chunks).expect(rt, "a limit");
}

/// Reads a class's figures, once it isn't busy.
pub(super) fn figures<N: Named, R: Abort>(
    rt: &R,
    store: &Store<N>,
    pass: &mut Pass<N>,
    class: ClassNo,
) -> Figures
    requires { (0 < class.0) × (class.0 ≤ length N.config.sizes) }
{
    for _ in 0..TRIES {
        match store.figures(pass, class) {
            Ok(figures) => return figures,
            Err(_) => thread::yield_now(),
        }
    }
    panic!(rt; "too often busy")
}

// A text of its own.
fn owned<R: Abort>(rt: &R, alloc: Global, text: &str) -> String {
    format!(in alloc; "{text}").expect(rt, "a text")
}

// Bytes as a text.
fn text_of<R: Abort>(rt: &R, alloc: Global, bytes: &[u8]) -> String {
    let text = str::from_utf8(bytes).expect(rt, "a text");
    owned(rt, alloc, text)
}

// The flags and the text of an item.
fn shown_item<R: Abort>(rt: &R, alloc: Global, flags: u32, bytes: &[u8]) -> String {
    let text = text_of(rt, alloc, bytes);
    format!(in alloc; "{flags} {}", text.as_str()).expect(rt, "a line")
}

/// The reply in one line: of an item its flags and its value.
pub(super) fn text_of_reply<R: Abort>(rt: &R, alloc: Global, reply: &Reply) -> String {
    match reply {
        Reply::Value { flags, value, .. } => shown_item(rt, alloc, *flags, value.bytes()),
        other => format!(in alloc; "{other:?}").expect(rt, "a line"),
    }
}

/// An item's value, or `-` where there is none.
pub(super) fn text_of_value<R: Abort>(rt: &R, alloc: Global, reply: &Reply) -> String {
    match reply {
        Reply::Value { value, .. } => text_of(rt, alloc, value.bytes()),
        _ => owned(rt, alloc, "-"),
    }
}

// Four numbers as a text.
fn four<R: Abort>(rt: &R, alloc: Global, numbers: [u64; 4]) -> String {
    let [hot, warm, cold, temp] = numbers;
    format!(in alloc; "{hot} {warm} {cold} {temp}").expect(rt, "a text")
}

/// A class's figures in one line.
pub(super) fn text_of_figures<R: Abort>(rt: &R, alloc: Global, figures: Figures) -> String {
    let bytes = four(rt, alloc, figures.bytes);
    let items = four(rt, alloc, figures.counts);
    format!(in alloc;
        "events {}; bytes {}; items {}",
        figures.events,
        bytes.as_str(),
        items.as_str()
    )
    .expect(rt, "a text")
}
