//! The text of replies as it is gathered: bytes, and long values that are shared instead of copied.
ghost use Rattle.std.specs.Prelude.{◌≡◌, ◌<◌, ◌≤◌, ◌+◌, ◌-◌, ◌^◌, ◌++◌, [], IfOk, OnOk, OnErr, length, take, vec_len, vec_capacity};
ghost use Rattle.mc_proto.specs.Gathered.{bytes_of_parts, part_bytes};
ghost use Rattle.mc_item.specs.declared.reply.Reply.TheVariants as replies;
ghost use Rattle.mc_proto.specs.Text as texts;

use crate::request::LineFault;
use crate::text;
use mc_item::{ClassNo, Histogram, Moves, NoMemory, Reply, Value};
use std::alloc::Global;
use std::marker::Model;
use std::mem;

/// A value of this many bytes or more is shared by a text instead of copied into it. It is the size of a memory page.
pub const LONG: usize = 4_096;

// The most bytes that the parts of a text may have, so that its length always fits a usize.
const MOST: usize = 1 << 62;

// The first capacity for the bytes after a shared value.
const BEHIND: usize = 64;

/// A part of a text.
#[derive(Drop)]
pub enum TextPart {
    /// Bytes of its own.
    Own(Vec<u8>),
    /// The first bytes of a value, this many. They aren't copied.
    Shared(Value, usize),
}

// The first `count` bytes, or all if there are fewer.
fn first_of(bytes: &[u8], count: usize) -> &[u8]
    ensures { result.now ≡ take count bytes.now }
{
    if count < bytes.len() {
        bytes.split_at(count).0
    } else {
        bytes
    }
}

impl TextPart {
    /// Returns the bytes of the part.
    pub fn bytes(&self) -> &[u8]
        ensures { result.now ≡ part_bytes self.now }
    {
        match self {
            TextPart::Own(bytes) => bytes.as_slice(),
            TextPart::Shared(value, count) => first_of(value.bytes(), *count),
        }
    }
}

/// A text of replies, which grows at its end. Contracts see its bytes. A value of `LONG` bytes or more isn't copied into the
/// text: a part of the text shares it with its other owners.
#[derive(Drop)]
pub struct ReplyText {
    parts: Vec<TextPart>,
    before: usize,
    last: Vec<u8>,
}

impl Model for ReplyText {
    ghost use Rattle.std.specs.Prelude.{◌≡◌, ◌≤◌, ◌^◌, length};
    ghost use Rattle.mc_proto.specs.Gathered.{Gathered, bytes_of_parts, gathered};

    ghost Value = { Gathered };

    ghost view = { λ t. gathered t.parts.items t.last.items };

    ghost invariant = { λ t. (length (bytes_of_parts t.parts.items) ≡ t.before) × (t.before ≤ 2 ^ 62) };
}

// Takes out the part with the byte at `place`, and drops all parts after it. Returns the part, and how many bytes precede it.
fn part_at(parts: &mut Vec<TextPart>, bytes: usize, place: usize) -> (TextPart, usize)
    requires many { length (bytes_of_parts parts.old.items) ≡ bytes }
    requires place { place < bytes }
    ensures before { length (bytes_of_parts parts.new.items) ≡ result.1 }
    ensures behind { result.1 ≤ place }
    ensures within { place < result.1 + length (part_bytes result.0) }
    ensures front { take place (bytes_of_parts parts.new.items ++ part_bytes result.0) ≡ take place (bytes_of_parts parts.old.items) }
    ensures room { vec_len parts.new < vec_capacity parts.new }
{
    let mut before = bytes;
    while let Some(part) = parts.pop() {
        before -= part.bytes().len();
        if before <= place {
            return (part, before);
        }
    }
    unreachable!()
}

// Cuts the parts to their first `count` bytes; they had more. If the cut falls in an `Own` part, what is left of it becomes
// `last`. Returns how many bytes the parts have then.
#[cold]
#[inline(never)]
fn cut_parts(parts: &mut Vec<TextPart>, last: &mut Vec<u8>, bytes: usize, count: usize) -> usize
    requires many { length (bytes_of_parts parts.old.items) ≡ bytes }
    requires fewer { count < bytes }
    ensures before { length (bytes_of_parts parts.new.items) ≡ result }
    ensures fewer { result ≤ bytes }
    ensures items { bytes_of_parts parts.new.items ++ last.new.items ≡ take count (bytes_of_parts parts.old.items) }
{
    let (part, before) = part_at(parts, bytes, count);
    match part {
        TextPart::Own(own) => {
            *last = own;
            last.truncate(count - before);
            before
        }
        TextPart::Shared(value, _) => {
            last.clear();
            parts.push_reserved(TextPart::Shared(value, count - before));
            count
        }
    }
}

// Appends copies of the parts to `bytes`, or nothing if memory is refused.
fn copy_parts(bytes: &mut Vec<u8>, parts: &[TextPart]) -> Result<(), NoMemory>
    ensures ok { OnOk result (bytes.new.items ≡ bytes.old.items ++ bytes_of_parts parts.now) }
    ensures err { OnErr result (bytes.new.items ≡ bytes.old.items) }
{
    let before = bytes.len();
    for part in parts {
        match bytes.extend_from_slice(part.bytes()) {
            Ok(()) => {}
            Err(_) => {
                bytes.truncate(before);
                return Err(NoMemory);
            }
        }
    }
    Ok(())
}

// A CR LF with room for more after it.
fn line_end(alloc: Global) -> Result<Vec<u8>, NoMemory>
    ensures { IfOk result (λ text. text.items ≡ texts.crlf) }
{
    let mut text = Vec::with_capacity(alloc, BEHIND)?;
    text.extend_from_slice(b"\r\n".as_slice())?;
    Ok(text)
}

impl ReplyText {
    /// Returns an empty text. It takes no memory.
    pub fn new(alloc: Global) -> ReplyText
        ensures items { result.items ≡ [] }
    {
        ReplyText {
            parts: Vec::new(alloc),
            before: 0,
            last: Vec::new(alloc),
        }
    }

    /// Returns how many bytes the text has.
    #[inline(always)]
    pub fn len(&self) -> usize
        ensures { result ≡ length self.now.items }
    {
        self.before + self.last.len()
    }

    /// Cuts the text to its first `count` bytes, if it has more. It takes no memory.
    #[inline(always)]
    pub fn truncate(&mut self, count: usize)
        ensures items { self.new.items ≡ take count self.old.items }
    {
        if count < self.before {
            self.before = cut_parts(&mut self.parts, &mut self.last, self.before, count);
        } else {
            self.last.truncate(count - self.before);
        }
    }

    /// Appends the text of a reply, as the function `push_reply` does. After `NoMemory` nothing is added.
    pub fn push_reply(&mut self, reply: &Reply) -> Result<(), NoMemory>
        ensures ok { OnOk result (self.new.items ≡ self.old.items ++ texts.reply_text reply.now) }
        ensures err { OnErr result (self.new.items ≡ self.old.items) }
    {
        text::push_reply(&mut self.last, reply)
    }

    /// Appends the text of a refused line or block. After `NoMemory` nothing is added.
    pub fn push_fault(&mut self, why: LineFault) -> Result<(), NoMemory>
        ensures ok { OnOk result (self.new.items ≡ self.old.items ++ texts.fault_text why) }
        ensures err { OnErr result (self.new.items ≡ self.old.items) }
    {
        text::push_fault(&mut self.last, why)
    }

    /// Appends the `END` of a `get`. After `NoMemory` nothing is added.
    #[inline(always)]
    pub fn push_end(&mut self) -> Result<(), NoMemory>
        ensures ok { OnOk result (self.new.items ≡ self.old.items ++ texts.end_text) }
        ensures err { OnErr result (self.new.items ≡ self.old.items) }
    {
        text::push_end(&mut self.last)
    }

    /// Appends the text of `%juggle`. After `NoMemory` nothing is added.
    pub fn push_moves(&mut self, moves: &Moves) -> Result<(), NoMemory>
        ensures ok { OnOk result (self.new.items ≡ self.old.items ++ texts.moves_text moves.now) }
        ensures err { OnErr result (self.new.items ≡ self.old.items) }
    {
        text::push_moves(&mut self.last, moves)
    }

    /// Appends the text of `%crawl`. After `NoMemory` nothing is added.
    pub fn push_histogram(&mut self, h: &Histogram) -> Result<(), NoMemory>
        ensures ok { OnOk result (self.new.items ≡ self.old.items ++ texts.histogram_text h.now) }
        ensures err { OnErr result (self.new.items ≡ self.old.items) }
    {
        text::push_histogram(&mut self.last, h)
    }

    /// Appends the text of `%chunks`. After `NoMemory` nothing is added.
    pub fn push_chunks(&mut self, class: ClassNo, chunks: u64) -> Result<(), NoMemory>
        ensures ok { OnOk result (self.new.items ≡ self.old.items ++ texts.chunks_text class chunks) }
        ensures err { OnErr result (self.new.items ≡ self.old.items) }
    {
        text::push_chunks(&mut self.last, class, chunks)
    }

    /// Appends the beginning of a value's text: `VALUE` and the key. After `NoMemory` nothing is added.
    #[inline(always)]
    pub fn push_value_head(&mut self, key: &[u8]) -> Result<(), NoMemory>
        ensures ok { OnOk result (self.new.items ≡ self.old.items ++ texts.value_head key.now) }
        ensures err { OnErr result (self.new.items ≡ self.old.items) }
    {
        text::push_value_head(&mut self.last, key)
    }

    /// Appends what follows the key in a value's text, as the function `push_value_tail` does, but shares a value of `LONG` bytes
    /// or more. Other replies add nothing. After `NoMemory` nothing is added.
    #[inline(always)]
    pub fn push_value_tail(&mut self, reply: &Reply, with_cas: bool) -> Result<(), NoMemory>
        ensures ok { OnOk result (self.new.items ≡ self.old.items ++ texts.value_tail reply.now with_cas) }
        ensures err { OnErr result (self.new.items ≡ self.old.items) }
    {
        if let Reply::Value { flags, value, cas } = reply {
            if value.bytes().len() >= LONG {
                return self.push_long(*flags, value, *cas, with_cas);
            }
        }
        text::push_value_tail(&mut self.last, reply, with_cas)
    }

    // Appends the same for a long value, which is shared.
    #[inline(never)]
    fn push_long(
        &mut self,
        flags: u32,
        value: &Value,
        cas: u64,
        with_cas: bool,
    ) -> Result<(), NoMemory>
        ensures ok { OnOk result (self.new.items ≡ self.old.items ++ texts.value_tail (replies.Value flags value.now cas) with_cas) }
        ensures err { OnErr result (self.new.items ≡ self.old.items) }
    {
        let start = self.len();
        text::push_value_line(&mut self.last, flags, value.bytes().len(), cas, with_cas)?;
        match self.share(value) {
            Ok(()) => Ok(()),
            Err(fault) => {
                self.truncate(start);
                Err(fault)
            }
        }
    }

    // Appends a shared value and CR LF. After `NoMemory` nothing is added.
    fn share(&mut self, value: &Value) -> Result<(), NoMemory>
        ensures ok { OnOk result (self.new.items ≡ self.old.items ++ (value.now ++ texts.crlf)) }
        ensures err { OnErr result (self.new.items ≡ self.old.items) }
    {
        let count = value.bytes().len();
        let before = self.len().saturating_add(count);
        if before > MOST {
            return Err(NoMemory);
        }
        let shared = value.copy()?;
        let behind = line_end(*self.last.allocator())?;
        self.parts.reserve(2)?;
        let own = mem::replace(&mut self.last, behind);
        self.parts.push_reserved(TextPart::Own(own));
        self.parts.push_reserved(TextPart::Shared(shared, count));
        self.before = before;
        Ok(())
    }

    /// Moves the whole text to the end of `parts`, without a copy. The text is then empty, with capacity `room`, or with little
    /// if values were shared, as more of them may come. After `NoMemory` both are unchanged.
    pub fn move_behind(&mut self, parts: &mut Vec<TextPart>, room: usize) -> Result<(), NoMemory>
        ensures ok { OnOk result ((bytes_of_parts parts.new.items ≡ bytes_of_parts parts.old.items ++ self.old.items) × (self.new.items ≡ [])) }
        ensures err { OnErr result ((bytes_of_parts parts.new.items ≡ bytes_of_parts parts.old.items) × (self.new.items ≡ self.old.items)) }
    {
        let room = if self.parts.is_empty() { room } else { BEHIND };
        let empty = Vec::with_capacity(*self.last.allocator(), room)?;
        parts.reserve(self.parts.len() + 1)?;
        parts.append(&mut self.parts)?;
        parts.push_reserved(TextPart::Own(mem::replace(&mut self.last, empty)));
        self.before = 0;
        Ok(())
    }

    /// Returns the text as it lies in memory: its parts, and the bytes after them.
    pub fn lying(&self) -> (&[TextPart], &[u8])
        ensures { bytes_of_parts result.0.now ++ result.1.now ≡ self.now.items }
    {
        (self.parts.as_slice(), self.last.as_slice())
    }

    /// Appends a copy of the text to `bytes`. After `NoMemory` nothing is added.
    pub fn copy_behind(&self, bytes: &mut Vec<u8>) -> Result<(), NoMemory>
        ensures ok { OnOk result (bytes.new.items ≡ bytes.old.items ++ self.now.items) }
        ensures err { OnErr result (bytes.new.items ≡ bytes.old.items) }
    {
        let before = bytes.len();
        copy_parts(bytes, self.parts.as_slice())?;
        match bytes.extend_from_slice(self.last.as_slice()) {
            Ok(()) => Ok(()),
            Err(_) => {
                bytes.truncate(before);
                Err(NoMemory)
            }
        }
    }
}
