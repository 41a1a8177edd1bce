//! Sinks, which take the texts of replies.
ghost use Rattle.std.specs.Prelude.{[], ◌≡◌, ◌++◌, ◌<◌, ◌≤◌, ℕ, List, IfOk, OnOk, OnErr, length, take};
ghost use Rattle.mc_proto.specs.{Gathered.bytes_of_parts, Text.IsBeginning};

use crate::gathering::{ReplyText, TextPart};

/// The error of a failed write.
#[derive(Clone, Copy, Debug, PartialEq, Eq)]
pub struct SinkFault;

/// Takes the texts of replies. Contracts see the bytes that it has taken, and count its failures.
pub trait Sink: Drop {
    ghost taken: { Self → List ℕ };

    ghost failures: { Self → ℕ };

    /// Takes a beginning of the bytes, and returns how many. Taking none of some bytes counts as a failure.
    /// *Errors*: `SinkFault` if the write fails. Then nothing is taken.
    fn put(&mut self, bytes: &[u8]) -> Result<usize, SinkFault>
        ensures ok { IfOk result (λ n. (n ≤ length bytes.now) × (taken self.new ≡ taken self.old ++ take n bytes.now)) }
        ensures none { IfOk result (λ n. n ≡ 0 → 0 < length bytes.now → failures self.old < failures self.new) }
        ensures fine { IfOk result (λ n. 0 < n → failures self.new ≡ failures self.old) }
        ensures err { OnErr result ((failures self.old < failures self.new) × (taken self.new ≡ taken self.old)) }
        ensures count { failures self.old ≤ failures self.new };

    /// Takes a whole text, and leaves it empty. After `SinkFault` a beginning of the text was taken, and nothing else.
    fn put_whole(&mut self, text: &mut ReplyText) -> Result<(), SinkFault>
        ensures ok { OnOk result ((taken self.new ≡ taken self.old ++ text.old.items) × (text.new.items ≡ [])) }
        ensures fine { OnOk result (failures self.new ≡ failures self.old) }
        ensures err { OnErr result ((failures self.old < failures self.new) × IsBeginning (taken self.old) (taken self.new) text.old.items) }
        ensures count { failures self.old ≤ failures self.new };
}

/// Writes a whole text part by part, and clears it. After `SinkFault` a beginning of the text is written, and nothing else. This
/// can be the body of `put_whole` in a sink that keeps no text itself.
pub fn write_whole<K: Sink>(sink: &mut K, text: &mut ReplyText) -> Result<(), SinkFault>
    ensures ok { OnOk result ((K.taken sink.new ≡ K.taken sink.old ++ text.old.items) × (text.new.items ≡ [])) }
    ensures fine { OnOk result (K.failures sink.new ≡ K.failures sink.old) }
    ensures err { OnErr result ((K.failures sink.old < K.failures sink.new) × IsBeginning (K.taken sink.old) (K.taken sink.new) text.old.items) }
    ensures count { K.failures sink.old ≤ K.failures sink.new }
{
    let (parts, last) = text.lying();
    write_parts(sink, parts)?;
    write_reply(sink, last)?;
    text.truncate(0);
    Ok(())
}

// Writes the parts of a text in order. After `SinkFault` a beginning of their bytes is written, and nothing else.
fn write_parts<K: Sink>(sink: &mut K, parts: &[TextPart]) -> Result<(), SinkFault>
    ensures ok { OnOk result (K.taken sink.new ≡ K.taken sink.old ++ bytes_of_parts parts.now) }
    ensures fine { OnOk result (K.failures sink.new ≡ K.failures sink.old) }
    ensures err { OnErr result ((K.failures sink.old < K.failures sink.new) × IsBeginning (K.taken sink.old) (K.taken sink.new) (bytes_of_parts parts.now)) }
    ensures count { K.failures sink.old ≤ K.failures sink.new }
{
    for part in parts {
        write_reply(sink, part.bytes())?;
    }
    Ok(())
}

/// Writes a whole text, by as many calls of `put` as it takes.
/// *Errors*: `SinkFault` if one fails or takes nothing. Then a beginning of the text is written, and nothing else.
pub fn write_reply<K: Sink>(sink: &mut K, text: &[u8]) -> Result<(), SinkFault>
    ensures ok { OnOk result (K.taken sink.new ≡ K.taken sink.old ++ text.now) }
    ensures fine { OnOk result (K.failures sink.new ≡ K.failures sink.old) }
    ensures err { OnErr result ((K.failures sink.old < K.failures sink.new) × IsBeginning (K.taken sink.old) (K.taken sink.new) text.now) }
    ensures count { K.failures sink.old ≤ K.failures sink.new }
{
    let mut rest = text;
    while !rest.is_empty() {
        let count = sink.put(rest)?;
        if count == 0 {
            return Err(SinkFault);
        }
        rest = rest.split_at(count).1;
    }
    Ok(())
}
