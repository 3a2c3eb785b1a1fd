//! Streams that are read to their end or fail before it, and streams that take bytes up to a fault.

use crate::trial::Trial;
use standard_streams::{ReadFault, WriteFault, read_past, write_whole};
use std::alloc::Global;
use std::io::{self, ErrorKind, Read, Write};

/// The trials.
pub fn trials(alloc: Global) -> [(&'static str, Trial); 3] {
    [
        (
            "reads_one_byte_past_the_limit",
            reads_one_byte_past_the_limit(alloc),
        ),
        (
            "a_failed_read_is_not_the_end",
            a_failed_read_is_not_the_end(alloc),
        ),
        ("a_failed_write_is_not_done", a_failed_write_is_not_done()),
    ]
}

// A stream that gives its bytes one by one, and fails behind them with an error of this kind, where there is one.
#[derive(Drop)]
struct Source {
    left: &'static [u8],
    failure: Option<ErrorKind>,
}

impl Read for Source {
    fn read(&mut self, buf: &mut [u8]) -> io::Result<usize> {
        let Some((next, rest)) = self.left.split_first() else {
            return match self.failure {
                Some(kind) => Err(io::Error::from(kind)),
                None => Ok(0),
            };
        };
        let Some(place) = buf.first_mut() else {
            return Ok(0);
        };
        *place = *next;
        self.left = rest;
        Ok(1)
    }
}

// A sink that takes so many bytes one by one, and fails at the next.
#[derive(Drop)]
struct Sink {
    room: usize,
}

impl Write for Sink {
    fn write(&mut self, buf: &[u8]) -> io::Result<usize> {
        if self.room == 0 {
            return Err(io::Error::from(ErrorKind::BrokenPipe));
        }
        if buf.is_empty() {
            return Ok(0);
        }
        self.room -= 1;
        Ok(1)
    }

    fn flush(&mut self) -> io::Result<()> {
        Ok(())
    }
}

// Whether the bytes are read so far.
fn reads(alloc: Global, limit: u32, wanted: &[u8]) -> bool {
    let stream = Source {
        left: b"123",
        failure: None,
    };
    match read_past(alloc, stream, u64::from(limit)) {
        Ok(read) => read.as_slice() == wanted,
        Err(_) => false,
    }
}

fn reads_one_byte_past_the_limit(alloc: Global) -> Trial {
    Trial::of(&[
        reads(alloc, 0, b"1"),
        reads(alloc, 1, b"12"),
        reads(alloc, 2, b"123"),
        reads(alloc, 9, b"123"),
    ])
}

// Why a stream is not read that fails so behind its bytes.
fn refusal(alloc: Global, kind: ErrorKind) -> Option<ReadFault> {
    let stream = Source {
        left: b"[1]",
        failure: Some(kind),
    };
    read_past(alloc, stream, 9).err()
}

fn a_failed_read_is_not_the_end(alloc: Global) -> Trial {
    Trial::of(&[
        refusal(alloc, ErrorKind::ConnectionReset)
            == Some(ReadFault::Failed(ErrorKind::ConnectionReset)),
        refusal(alloc, ErrorKind::OutOfMemory) == Some(ReadFault::Memory),
    ])
}

// How three bytes are written where there is so much room, and how much of it is left.
fn written(room: usize) -> (Result<(), WriteFault>, usize) {
    let mut sink = Sink { room };
    (write_whole(&mut sink, b"abc"), sink.room)
}

fn a_failed_write_is_not_done() -> Trial {
    Trial::of(&[
        written(4) == (Ok(()), 1),
        written(3) == (Ok(()), 0),
        written(2) == (Err(WriteFault(ErrorKind::BrokenPipe)), 0),
        written(0) == (Err(WriteFault(ErrorKind::BrokenPipe)), 0),
    ])
}
