//! Readers and writers that fail at a place, under the program.
use super::{Ran, host_of};
use mc_driver::run_words;
use std::alloc::Global;
use std::io::{self, ErrorKind, Read, Write};
use std::process::Abort;
use std::random::RandomSource;
use std::sync::Wait;
use std::thread::Threads;

// A reader that gives at most three bytes of some at a time, behind which it fails or ends.
#[derive(Drop)]
struct Drops<'a> {
    rest: &'a [u8],
    fails: bool,
}

impl Read for Drops<'_> {
    fn read(&mut self, buf: &mut [u8]) -> io::Result<usize> {
        if self.fails && self.rest.is_empty() {
            return Err(io::Error::from(ErrorKind::Other));
        }
        let few = buf.len().min(3);
        self.rest.read(buf.split_at_mut(few).0)
    }
}

// A writer that keeps so many bytes, and refuses what comes behind them. Its flushes may fail.
#[derive(Drop)]
struct Narrow {
    bytes: Vec<u8>,
    room: usize,
    holds_back: bool,
}

impl Write for Narrow {
    fn write(&mut self, buf: &[u8]) -> io::Result<usize> {
        if self.room == 0 {
            return Err(io::Error::from(ErrorKind::Other));
        }
        let few = buf.len().min(self.room);
        let count = self.bytes.write(buf.split_at(few).0)?;
        self.room = self.room.saturating_sub(count);
        Ok(count)
    }

    fn flush(&mut self) -> io::Result<()> {
        if self.holds_back {
            return Err(io::Error::from(ErrorKind::Other));
        }
        Ok(())
    }
}

/// What fails: the read behind the input, the writes behind so many bytes, and the flush of the output.
#[derive(Clone, Copy)]
pub(super) struct Fails {
    pub(super) read: bool,
    pub(super) output: usize,
    pub(super) flush: bool,
    pub(super) errors: usize,
}

// More bytes than any run here writes.
const ENOUGH: usize = 1000;

pub(super) const NOTHING: Fails = Fails {
    read: false,
    output: ENOUGH,
    flush: false,
    errors: ENOUGH,
};

pub(super) const READ: Fails = Fails {
    read: true,
    ..NOTHING
};

pub(super) const WRITE: Fails = Fails {
    output: 0,
    ..NOTHING
};

pub(super) const FLUSH: Fails = Fails {
    flush: true,
    ..NOTHING
};

pub(super) const ERRORS: Fails = Fails {
    errors: 0,
    ..NOTHING
};

/// The program where something fails. No flush of the errors goes well.
pub(super) fn run_faulty<R: Abort + RandomSource + Threads + Wait + Sync>(
    rt: &R,
    alloc: Global,
    words: &[&str],
    input: &[u8],
    fails: Fails,
) -> Ran {
    let mut reader = Drops {
        rest: input,
        fails: fails.read,
    };
    let mut output = Narrow {
        bytes: Vec::new(alloc),
        room: fails.output,
        holds_back: fails.flush,
    };
    let mut errors = Narrow {
        bytes: Vec::new(alloc),
        room: fails.errors,
        holds_back: true,
    };
    let status = run_words(
        host_of(rt, alloc),
        words,
        &mut reader,
        &mut output,
        &mut errors,
    );
    Ran {
        status,
        output: output.bytes,
        errors: errors.bytes,
    }
}
