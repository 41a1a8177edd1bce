//! A conversation whose reader gives the next piece only once all that is owed was written and flushed.
use super::{host_of, same_bytes, same_status};
use mc_driver::run_words;
use std::alloc::Global;
use std::io::{self, ErrorKind, Read, Write};
use std::process::Abort;
use std::random::RandomSource;
use std::sync::{Mutex, Wait};
use std::thread::Threads;

// The pieces of a conversation, each with what is owed before it is given: the replies to all requests in the pieces before it.
static PIECES: [(&[u8], &[u8]); 6] = [
    (b"set a 0 0 2\r\n10\r\n", b""),
    (b"incr a 1\r\nget a\r\n", b"STORED\r\n"),
    (b"get ", b"STORED\r\n11\r\nVALUE a 0 2\r\n11\r\nEND\r\n"),
    (
        b"b\r\nset a 0 0 9\r\n",
        b"STORED\r\n11\r\nVALUE a 0 2\r\n11\r\nEND\r\n",
    ),
    (
        b"123456789\r\nbogus\r\n",
        b"STORED\r\n11\r\nVALUE a 0 2\r\n11\r\nEND\r\nEND\r\n",
    ),
    (
        b"",
        b"STORED\r\n11\r\nVALUE a 0 2\r\n11\r\nEND\r\nEND\r\nSTORED\r\nERROR\r\n",
    ),
];

// A reader that gives one piece a read. It fails, and notes that the read was early, if what was written isn't just what is owed.
#[derive(Drop)]
struct Asks<'a> {
    place: usize,
    early: bool,
    written: &'a Mutex<Vec<u8>>,
}

impl Read for Asks<'_> {
    fn read(&mut self, buf: &mut [u8]) -> io::Result<usize> {
        let Some((piece, owed)) = PIECES.get(self.place) else {
            return Ok(0);
        };
        let Some(written) = self.written.try_lock() else {
            return Err(io::Error::from(ErrorKind::Other));
        };
        if written.as_slice() != *owed {
            self.early = true;
            return Err(io::Error::from(ErrorKind::Other));
        }
        self.place += 1;
        let mut rest: &[u8] = piece;
        rest.read(buf)
    }
}

// A writer that holds bytes back until it is flushed.
#[derive(Drop)]
struct Says<'a> {
    held: Vec<u8>,
    written: &'a Mutex<Vec<u8>>,
}

impl Write for Says<'_> {
    fn write(&mut self, buf: &[u8]) -> io::Result<usize> {
        self.held.write(buf)
    }

    fn flush(&mut self) -> io::Result<()> {
        let Some(mut written) = self.written.try_lock() else {
            return Err(io::Error::from(ErrorKind::Other));
        };
        let _ = written.write(self.held.as_slice())?;
        self.held.clear();
        Ok(())
    }
}

// The status of the conversation, and whether a read was early.
fn held_with<R: Abort + RandomSource + Threads + Wait + Sync>(
    rt: &R,
    alloc: Global,
    written: &Mutex<Vec<u8>>,
) -> (u8, bool) {
    let mut reader = Asks {
        place: 0,
        early: false,
        written,
    };
    let mut output = Says {
        held: Vec::new(alloc),
        written,
    };
    let mut errors = Vec::new(alloc);
    let status = run_words(
        host_of(rt, alloc),
        &["mcseg", "--follow"],
        &mut reader,
        &mut output,
        &mut errors,
    );
    (status, reader.early)
}

#[test]
fn each_reply_is_written_before_the_next_read(rt: HostRuntime) {
    let written = Mutex::new(Vec::new(rt.alloc()));
    let (status, early) = held_with(&rt, rt.alloc(), &written);
    same_status(&rt, status, 0, "a prompt conversation", 0);
    assert!(rt; !early, "a read came before all replies were out");
    let all = written.into_inner();
    same_bytes(&rt, all.as_slice(), PIECES[5].1, "a prompt conversation", 0);
}
