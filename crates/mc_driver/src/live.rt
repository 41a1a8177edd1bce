//! The ends of a conversation: the bytes of a reader are answered on a writer as they come.
ghost use Rattle.std.specs.Prelude.{◌≡◌, [], Err, IfOk, OnErr, OnOk, false};
ghost use Rattle.std.specs.Io.KnownBytes.{Appends, Consumes, IsAtEnd, Keeps};
ghost use Rattle.mc_script.specs.declared.source.SourceFault.TheVariants.{NoMemory};

use crate::printing::print_pieces;
use crate::reading::read_once;
use mc_history::GhostList;
use mc_proto::{Limits, ReplyText, SinkFault};
use mc_script::{Ends, SourceFault};
use std::alloc::Global;
use std::io::{self, Read, Write};
use std::snapshot::Snapshot;

// How many bytes one read may give.
const ROOM: usize = 16_384;

/// The ends of a conversation: a reader, and a writer that is flushed after each text. The bytes that came and the texts that were
/// written aren't kept: only contracts see them.
/// The next bytes may be asked for only when all requests in the bytes that came are answered, and their texts are written.
#[derive(Drop)]
pub(crate) struct Live<'a, R: Read, W: Write> {
    pub(crate) reader: &'a mut R,
    pub(crate) writer: &'a mut W,
    alloc: Global,
    failed: bool,
    limits: Snapshot<Limits>,
    came: GhostList<Vec<u8>>,
    put: GhostList<ReplyText>,
    faults: GhostList<SinkFault>,
}

impl<'a, R: Read, W: Write> Live<'a, R, W> {
    /// Creates the ends of a conversation in which nothing was read or written yet. These are the limits of its requests.
    pub(crate) fn new(
        alloc: Global,
        limits: &Limits,
        reader: &'a mut R,
        writer: &'a mut W,
    ) -> Live<'a, R, W>
        ensures reader { result.reader.ghost_name ≡ reader.entry.ghost_name }
        ensures writer { result.writer.ghost_name ≡ writer.entry.ghost_name }
        ensures now { (result.reader.now ≡ reader.old) × (result.writer.now ≡ writer.old) }
        ensures none { (result.failed ≡ false) × (result.came ≡ []) × (result.put ≡ []) × (result.faults ≡ []) }
        ensures limits { result.limits.value ≡ limits.now }
    {
        Live {
            reader,
            writer,
            alloc,
            failed: false,
            limits: Snapshot::of(limits),
            came: GhostList::new(),
            put: GhostList::new(),
            faults: GhostList::new(),
        }
    }

    /// Ends the conversation: whoever lent the reader and the writer has them back.
    pub(crate) fn hang_up(self)
        ensures { (self.exit.0.now ≡ self.entry.reader.now) × (self.exit.1.0.now ≡ self.entry.writer.now) }
    {
        let Live {
            reader: _reader,
            writer: _writer,
            ..
        } = self;
    }
}

// Reads once. Returns no bytes at the reader's end alone. After `NoMemory` nothing was read.
fn read_some<R: Read>(alloc: Global, reader: &mut R) -> Result<Vec<u8>, SourceFault>
    ensures bytes { IfOk result (λ piece. Consumes (R.remaining reader.old) (R.remaining reader.new) piece.items) }
    ensures end { IfOk result (λ piece. piece.items ≡ [] → IsAtEnd (R.remaining reader.new)) }
    ensures err { OnErr result (Keeps (R.remaining reader.old) (R.remaining reader.new)) }
    ensures none { result ≡ Err NoMemory → reader.new ≡ reader.old }
{
    let mut piece = Vec::new(alloc);
    if piece.resize(ROOM, 0).is_err() {
        return Err(SourceFault::NoMemory);
    }
    let Ok(came) = read_once(reader, piece.as_mut_slice()) else {
        return Err(SourceFault::Failed);
    };
    piece.truncate(came);
    Ok(piece)
}

// Writes a text, and flushes the writer.
fn write_text<W: Write>(writer: &mut W, text: &ReplyText) -> io::Result<()>
    ensures { OnOk result (Appends (W.contents writer.old) (W.contents writer.new) text.now.items) }
{
    let (parts, last) = text.lying();
    print_pieces(writer, parts)?;
    writer.write_all(last)?;
    writer.flush()
}

impl<'a, R: Read, W: Write> Ends for Live<'a, R, W> {
    ghost use Rattle.std.specs.Prelude.{◌≡◌, [], false, if◌then◌else◌, length};
    ghost use Rattle.std.specs.Io.KnownBytes.{IsAtEnd};
    ghost use Rattle.mc_script.specs.Run.{IsOut};
    ghost use Rattle.mc_driver.specs.Live.{IsLater, came_in, later_stays, later_goes_on, written_in};

    ghost gave = { IsLater R.remaining W.contents };

    ghost ended = { λ l. IsAtEnd (R.remaining l.reader.now) };

    ghost taken = { λ l. written_in l.put };

    ghost reads = { λ l. if l.failed then 1 else 0 };

    ghost writes = { λ l. length l.faults };

    ghost over = { λ l. 0 };

    ghost may_ask = { λ l. (l.failed ≡ false) × IsOut l.limits.value (came_in l.came) [] (written_in l.put) };

    fn piece(&mut self) -> Result<Option<Vec<u8>>, SourceFault> {
        match read_some(self.alloc, self.reader) {
            Ok(piece) => {
                if piece.is_empty() {
                    return Ok(None);
                }
                self.came.push(&piece);
                Ok(Some(piece))
            }
            Err(SourceFault::Failed) => {
                self.failed = true;
                Err(SourceFault::Failed)
            }
            Err(SourceFault::NoMemory) => Err(SourceFault::NoMemory),
        }
    }

    fn keeps_pieces(&self) -> bool {
        false
    }

    fn put_whole(&mut self, text: &mut ReplyText) -> Result<(), SinkFault> {
        match write_text(self.writer, text) {
            Ok(()) => {
                self.put.push(text);
                text.truncate(0);
                Ok(())
            }
            Err(_) => {
                self.faults.push(&SinkFault);
                Err(SinkFault)
            }
        }
    }

    ghost stays = { later_stays R.remaining W.contents };

    ghost goes_on = { later_goes_on R.remaining W.contents };
}
