//! Readers of requests: after a refusal each later call is refused too.
use crate::end::{End, Outcome, end_by};
use crate::marks::Marks;
use mc_proto::{Limits, Reader};
use std::alloc::Global;

/// A piece that is read, lent or given away, after the beginning of a line or a block was read.
#[derive(Clone, Copy)]
pub(crate) enum Piece {
    Lent(&'static str),
    Given(&'static str),
}

const LIMITS: Limits = Limits {
    largest: 200,
    classes: 1,
};

fn feed(reader: &mut Reader, piece: &str, marks: Marks) -> End {
    marks.begin();
    let requests = reader.feed(piece.as_bytes());
    marks.end();
    end_by(requests)
}

fn take(reader: &mut Reader, piece: &str, marks: Marks) -> End {
    let Ok(bytes) = Vec::from_slice(marks.alloc, piece.as_bytes()) else {
        return End::Other;
    };
    marks.begin();
    let requests = reader.take(bytes);
    marks.end();
    end_by(requests)
}

// Whether a reader refuses each further call, with ample memory.
fn is_closed(reader: &mut Reader) -> bool {
    reader.feed(b"quit\r\n").is_err() && reader.feed(b"").is_err()
}

fn read(reader: &mut Reader, first: &str, piece: Piece, marks: Marks) -> End {
    if reader.feed(first.as_bytes()).is_err() {
        return End::Other;
    }
    match piece {
        Piece::Lent(text) => feed(reader, text, marks),
        Piece::Given(text) => take(reader, text, marks),
    }
}

fn outcome_in(reader: &mut Reader, first: &str, piece: Piece, marks: Marks) -> Outcome {
    match read(reader, first, piece, marks) {
        End::Made => Outcome::Made,
        End::Refused if is_closed(reader) => Outcome::Closed,
        End::Refused => Outcome::Changed,
        End::Other => Outcome::Other,
    }
}

/// Returns what came of reading a piece after a first one.
pub(crate) fn outcome_of(alloc: Global, first: &str, piece: Piece) -> Outcome {
    let mut reader = Reader::new(alloc, LIMITS);
    outcome_in(&mut reader, first, piece, Marks { alloc, on: true })
}
