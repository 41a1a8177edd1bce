//! Prints the replies of scripts.
ghost use Rattle.std.specs.Prelude.{OnOk};
ghost use Rattle.std.specs.{List.flat_map, Io.KnownBytes.Appends};
ghost use Rattle.mc_proto.specs.Gathered.{bytes_of_parts};

use crate::memory::{Kept, Pieces};
use mc_proto::TextPart;
use std::io::{self, Write};
use std::sync::Wait;
use std::sync::ledger::Ledger;

/// Writes pieces one after the other.
pub(crate) fn print_pieces<W: Write>(writer: &mut W, pieces: &[TextPart]) -> io::Result<()>
    ensures { OnOk result (Appends (W.contents writer.old) (W.contents writer.new) (bytes_of_parts pieces.now)) }
{
    for piece in pieces {
        writer.write_all(piece.bytes())?;
    }
    Ok(())
}

/// Prints the replies of scripts, script by script, and flushes the writer.
pub(crate) fn print_scripts<R: Wait, L: Ledger, W: Write>(
    writer: &mut W,
    ends: &[(Pieces, Kept<'_, R, L>)],
) -> io::Result<()>
    ensures { OnOk result (Appends (W.contents writer.old) (W.contents writer.new) (flat_map (λ e. bytes_of_parts e.1.pieces.items) ends.now)) }
{
    for end in ends {
        print_pieces(writer, end.1.pieces.as_slice())?;
    }
    writer.flush()
}
