//! Sinks that take a little at a time.
ghost use Rattle.std.specs.Prelude.{List, ℕ, ◌≡◌, ◌<◌};

use super::show::{same, text};
use mc_item::Reply;
use mc_proto::{ReplyText, Sink, SinkFault, write_reply, write_whole};
use std::alloc::Global;
use std::process::Abort;

// Takes at most so many bytes a call; where that is 0 it fails.
#[derive(Drop)]
struct Slow<'a, R: Abort> {
    rt: &'a R,
    most: usize,
    taken: Vec<u8>,
    failures: u64,
}

impl<R: Abort> Slow<'_, R> {
    // A write that fails.
    fn fail(&mut self) -> SinkFault
        ensures taken { self.new.taken.items ≡ self.old.taken.items }
        ensures count { self.old.failures < self.new.failures }
    {
        assert!(self.rt; self.failures < 9);
        self.failures += 1;
        SinkFault
    }
}

impl<R: Abort> Sink for Slow<'_, R> {
    ghost taken = { λ s. s.taken.items };

    ghost failures = { λ s. s.failures };

    fn put(&mut self, bytes: &[u8]) -> Result<usize, SinkFault> {
        if self.most == 0 {
            return Err(self.fail());
        }
        let count = self.most.min(bytes.len());
        self.taken
            .extend_from_slice(bytes.split_at(count).0)
            .expect(self.rt, "memory");
        Ok(count)
    }

    // It takes a text at once that isn't handed to it by `put`.
    fn put_whole(&mut self, text: &mut ReplyText) -> Result<(), SinkFault> {
        if self.most == 0 {
            return Err(self.fail());
        }
        text.copy_behind(&mut self.taken).expect(self.rt, "memory");
        text.truncate(0);
        Ok(())
    }
}

// A sink that has taken nothing.
fn new_sink<'a, R: Abort>(rt: &'a R, alloc: Global, most: usize) -> Slow<'a, R> {
    Slow {
        rt,
        most,
        taken: Vec::new(alloc),
        failures: 0,
    }
}

// Adds whether all was written.
fn push_written(rt: &impl Abort, out: &mut Vec<u8>, is_written: bool) {
    if is_written {
        text(rt, out, b"written ".as_slice());
    } else {
        text(rt, out, b"failed ".as_slice());
    }
}

// What the sinks of this file are to tell.
fn wanted(most: usize) -> &'static [u8] {
    if 0 < most {
        b"written STORED\r\n".as_slice()
    } else {
        b"failed ".as_slice()
    }
}

fn check_little(rt: &impl Abort, alloc: Global, most: usize) {
    let mut sink = new_sink(rt, alloc, most);
    let written = write_reply(&mut sink, b"STORED\r\n");
    let mut got = Vec::new(alloc);
    push_written(rt, &mut got, written.is_ok());
    text(rt, &mut got, sink.taken.as_slice());
    same(rt, got.as_slice(), wanted(most), "at most", most);
}

#[test]
fn a_sink_that_takes_a_little_gets_the_whole(rt: HostRuntime) {
    for most in 0..9 {
        check_little(&rt, rt.alloc(), most);
    }
}

// Ends the test where a text that was written isn't empty.
fn check_empty(rt: &impl Abort, is_written: bool, left: usize) {
    assert!(rt; !is_written || left == 0, "{left} bytes are left");
}

fn check_whole(rt: &impl Abort, alloc: Global, most: usize) {
    let mut sink = new_sink(rt, alloc, most);
    let mut reply = ReplyText::new(alloc);
    reply.push_reply(&Reply::Stored).expect(rt, "memory");
    let written = write_whole(&mut sink, &mut reply).is_ok();
    let mut got = Vec::new(alloc);
    push_written(rt, &mut got, written);
    text(rt, &mut got, sink.taken.as_slice());
    same(rt, got.as_slice(), wanted(most), "at most", most);
    check_empty(rt, written, reply.len());
}

#[test]
fn a_text_that_is_written_whole_is_cleared(rt: HostRuntime) {
    for most in 0..9 {
        check_whole(&rt, rt.alloc(), most);
    }
}
