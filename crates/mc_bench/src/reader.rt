//! Times the reader over streams in pieces of several sizes: short commands, long lines, large blocks.
ghost use Rattle.std.specs.Prelude.{◌<◌};

use crate::{nanos_each, print_row};
use mc_proto::{Limits, Reader};
use std::alloc::AllocError;
use std::io;
use std::time::Instant;

const LIMITS: Limits = Limits {
    largest: 1_048_576,
    classes: 43,
};

// Requests of one kind, in a short and in a long stream: each has a head, a part that comes several times, and CR LF.
struct Stream {
    label: &'static str,
    lengths: [u64; 2],
    head: &'static [u8],
    part: &'static [u8],
    parts: u64,
}

static STREAMS: [Stream; 3] = [
    Stream {
        label: "thousand bytes of pairs of commands",
        lengths: [10_000, 100_000],
        head: b"get a_key_of_twenty_byte\r\nset a_key_of_twenty_byte 7 0 10\r\n",
        part: b"0123456789",
        parts: 1,
    },
    Stream {
        label: "thousand bytes of lines of 65,000",
        lengths: [10, 100],
        head: b"get",
        part: b" a_key_of_twenty_byte",
        parts: 3095,
    },
    Stream {
        label: "thousand bytes of blocks of 1,000,000",
        lengths: [2, 20],
        head: b"set a 7 0 1000000\r\n",
        part: b"0123456789",
        parts: 100_000,
    },
];

fn write(bytes: &mut Vec<u8>, stream: &Stream, requests: u64) -> Result<(), AllocError> {
    for _ in 0..requests {
        bytes.extend_from_slice(stream.head)?;
        for _ in 0..stream.parts {
            bytes.extend_from_slice(stream.part)?;
        }
        bytes.extend_from_slice(b"\r\n")?;
    }
    Ok(())
}

fn feed(reader: &mut Reader, bytes: &[u8], size: usize) -> Option<()>
    requires { 0 < size }
{
    for piece in bytes.chunks(size) {
        reader.feed(piece).ok()?;
    }
    Some(())
}

// Nanoseconds for a thousand bytes in pieces of this size.
fn time(rt: &HostRuntime, bytes: &[u8], size: usize) -> Option<u64>
    requires { 0 < size }
{
    let start = Instant::now(rt).ok()?;
    feed(&mut Reader::new(rt.alloc(), LIMITS), bytes, size)?;
    nanos_each(rt, start, bytes.len() as u64 / 1000)
}

// Times bytes in pieces of each size.
fn time_pieces(rt: &HostRuntime, bytes: &[u8]) -> io::Result<()> {
    for size in [1, 16, 1024, 65_536, 1 << 30] {
        print_row(
            rt,
            "ns a thousand bytes in pieces",
            size as u64,
            time(rt, bytes, size),
        )?;
    }
    Ok(())
}

fn time_stream(rt: &HostRuntime, stream: &Stream, requests: u64) -> io::Result<()> {
    let mut bytes = Vec::new(rt.alloc());
    write(&mut bytes, stream, requests)?;
    print_row(rt, stream.label, requests, Some(bytes.len() as u64 / 1000))?;
    time_pieces(rt, bytes.as_slice())
}

/// Times streams of three kinds, each in two lengths.
pub(crate) fn time_all(rt: &HostRuntime) -> io::Result<()> {
    for stream in &STREAMS {
        for requests in stream.lengths {
            time_stream(rt, stream, requests)?;
        }
    }
    Ok(())
}
