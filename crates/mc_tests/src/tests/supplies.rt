//! Sources and sinks for tests: pieces of any size, one read that fails, one write that fails or takes nothing, slow sinks.
ghost use Rattle.std.specs.Prelude.{◌≡◌, [], false};

use mc_driver::{Source, SourceFault};
use mc_proto::{ReplyText, Sink, SinkFault, write_whole};
use std::alloc::Global;
use std::process::Abort;

/// A source of some bytes, in pieces of these sizes, of which the last one goes on. The read of one number fails, once, if
/// there is one.
#[derive(Drop)]
pub struct Pieces<'a> {
    alloc: Global,
    pub rest: &'a [u8],
    sizes: &'a [usize],
    reads: Option<u64>,
    pub failed: bool,
}

impl<'a> Pieces<'a> {
    /// These bytes, in pieces of these sizes.
    pub(super) fn new(
        alloc: Global,
        bytes: &'a [u8],
        sizes: &'a [usize],
        reads: Option<u64>,
    ) -> Pieces<'a>
        ensures bytes { result.rest.now ≡ bytes.now }
        ensures fine { result.failed ≡ false }
    {
        Pieces {
            alloc,
            rest: bytes,
            sizes,
            reads,
            failed: false,
        }
    }
}

// The size of the next piece, behind which the next size comes, if there is one more.
fn next_size<'a>(sizes: &mut &'a [usize]) -> usize {
    let left: &'a [usize] = *sizes;
    let Some((first, more)) = left.split_first() else {
        return usize::MAX;
    };
    if !more.is_empty() {
        *sizes = more;
    }
    *first
}

impl Source for Pieces<'_> {
    ghost use Rattle.std.specs.Prelude.{if◌then◌else◌};

    ghost coming = { λ s. s.rest.now };

    ghost failures = { λ s. if s.failed then 1 else 0 };

    fn piece(&mut self) -> Result<Option<Vec<u8>>, SourceFault> {
        match self.reads {
            Some(0) => {
                if !self.failed {
                    self.failed = true;
                    return Err(SourceFault::Failed);
                }
            }
            Some(left) => {
                self.reads = Some(left - 1);
            }
            None => {}
        }
        let size = next_size(&mut self.sizes);
        let rest = self.rest;
        if rest.is_empty() {
            return Ok(None);
        }
        let (front, behind) = rest.split_at(size.min(rest.len()));
        let Ok(piece) = Vec::from_slice(self.alloc, front) else {
            return Ok(Some(Vec::new(self.alloc)));
        };
        self.rest = behind;
        Ok(Some(piece))
    }
}

/// A sink that takes so many bytes at a time, but one at least, and keeps them; a whole text it takes at once. The write of
/// one number fails, once, if there is one: it is refused, or takes none of its bytes. It notes how many bytes were taken
/// after each write. Want of memory ends the test.
#[derive(Drop)]
pub struct Little<'a, R: Abort> {
    rt: &'a R,
    pub bytes: Vec<u8>,
    pub(super) writes: Vec<usize>,
    size: usize,
    left: Option<u64>,
    pub(super) takes_none: bool,
    pub failed: bool,
}

// Counts one write more. Whether it is the one that fails.
fn is_due(left: &mut Option<u64>) -> bool {
    match *left {
        Some(0) => true,
        Some(more) => {
            *left = Some(more - 1);
            false
        }
        None => false,
    }
}

impl<R: Abort> Sink for Little<'_, R> {
    ghost use Rattle.std.specs.Prelude.{if◌then◌else◌};

    ghost taken = { λ s. s.bytes.items };

    ghost failures = { λ s. if s.failed then 1 else 0 };

    fn put(&mut self, bytes: &[u8]) -> Result<usize, SinkFault> {
        if is_due(&mut self.left) && !self.failed {
            self.failed = true;
            return if self.takes_none {
                Ok(0)
            } else {
                Err(SinkFault)
            };
        }
        let end = self.size.max(1).min(bytes.len());
        self.bytes
            .extend_from_slice(bytes.split_at(end).0)
            .expect(self.rt, "memory");
        self.writes.push(self.bytes.len()).expect(self.rt, "memory");
        Ok(end)
    }

    fn put_whole(&mut self, text: &mut ReplyText) -> Result<(), SinkFault> {
        if is_due(&mut self.left) && !self.failed {
            self.failed = true;
            return Err(SinkFault);
        }
        text.copy_behind(&mut self.bytes).expect(self.rt, "memory");
        text.truncate(0);
        self.writes.push(self.bytes.len()).expect(self.rt, "memory");
        Ok(())
    }
}

/// A sink that takes whole texts at once, or a little at a time too.
#[derive(Drop)]
pub struct Slow<'a, R: Abort> {
    pub little: Little<'a, R>,
    pub(super) at_once: bool,
}

impl<'a, R: Abort> Slow<'a, R> {
    /// A sink that has taken nothing, and takes whole texts a little at a time.
    pub(super) fn new(rt: &'a R, alloc: Global, size: usize, left: Option<u64>) -> Slow<'a, R>
        ensures { result.little.bytes.items ≡ [] }
    {
        Slow {
            little: Little {
                rt,
                bytes: Vec::new(alloc),
                writes: Vec::new(alloc),
                size,
                left,
                takes_none: false,
                failed: false,
            },
            at_once: false,
        }
    }
}

impl<R: Abort> Sink for Slow<'_, R> {
    ghost use Rattle.std.specs.Prelude.{if◌then◌else◌};

    ghost taken = { λ s. s.little.bytes.items };

    ghost failures = { λ s. if s.little.failed then 1 else 0 };

    fn put(&mut self, bytes: &[u8]) -> Result<usize, SinkFault> {
        self.little.put(bytes)
    }

    fn put_whole(&mut self, text: &mut ReplyText) -> Result<(), SinkFault> {
        if self.at_once {
            return self.little.put_whole(text);
        }
        write_whole(&mut self.little, text)
    }
}
