//! A wire over a stream.
ghost use Rattle.std.specs.Prelude.{◌≡◌, ◌-◌, ◌^◌, ◌≤◌, ◌<◌, ◌∷◌, [], IfOk, OnErr, length, take};
ghost use Rattle.std.specs.Io.{ReadsAtMost, WritesAtMost};
ghost use Rattle.std.specs.Io.KnownBytes.{ReadConsumes, WriteAppends};
ghost use Rattle.path_hub.specs.Wires.{Reads, HasEnded, Writes, Faults};
ghost use Rattle.socket_wire.specs.StreamWires.{meaning_of, unused, stream_of};

use path_hub::{Wire, WireFault};
use std::io::{ErrorKind, Read, Result as IoResult, Write};

/// How often a call that signals interrupt is made again.
const MOST_TRIES: u64 = u64::MAX;

/// A wire over a stream that reads and writes, which does not tell its bytes. A call that a signal interrupted is made again. Every
/// other error is a fault, and so is a write that takes none of the bytes.
#[derive(Drop)]
pub struct StreamWire<S> {
    stream: S,
    failures: u64,
    reads: u64,
}

impl<S: Read + Write> StreamWire<S> {
    /// A wire that has done nothing yet.
    pub fn new(stream: S) -> StreamWire<S>
        ensures meaning { meaning_of result ≡ unused }
        ensures stream { stream_of result ≡ stream }
    {
        StreamWire {
            stream,
            failures: 0,
            reads: 0,
        }
    }
}

impl<S: Read + Write> Wire for StreamWire<S> {
    ghost meaning = { meaning_of };

    fn read(&mut self, into: &mut [u8]) -> Result<usize, WireFault>
        requires { (meaning_of self.old).failures < 2 ^ 64 - 1 }
        ensures within { IfOk result (λ n. n ≤ length into.old) }
        ensures ok { IfOk result (λ n. Reads (meaning_of self.old) (take n into.new) (meaning_of self.new)) }
        ensures end { IfOk result (λ n. n ≡ 0 → 0 < length into.old → HasEnded (meaning_of self.new).traffic) }
        ensures err { OnErr result (Faults (meaning_of self.old) (meaning_of self.new)) }
        ensures stream { ReadConsumes (S.remaining (stream_of self.old)) (S.remaining (stream_of self.new)) result into.new }
    {
        match read_again(&mut self.stream, into) {
            Ok(n) => {
                if n > 0 {
                    self.reads = self.reads.saturating_add(1);
                }
                Ok(n)
            }
            Err(_) => {
                self.failures += 1;
                Err(WireFault)
            }
        }
    }

    fn write(&mut self, from: &[u8]) -> Result<usize, WireFault>
        requires { (meaning_of self.old).failures < 2 ^ 64 - 1 }
        ensures within { IfOk result (λ n. n ≤ length from.now) }
        ensures takes { IfOk result (λ n. 0 < length from.now → 0 < n) }
        ensures ok { IfOk result (λ n. Writes (meaning_of self.old) (take n from.now ∷ []) (meaning_of self.new)) }
        ensures err { OnErr result (Faults (meaning_of self.old) (meaning_of self.new)) }
        ensures stream { WriteAppends (S.contents (stream_of self.old)) (S.contents (stream_of self.new)) result from.now }
    {
        match write_again(&mut self.stream, from) {
            Ok(n) if n > 0 || from.is_empty() => Ok(n),
            _ => {
                self.failures += 1;
                Err(WireFault)
            }
        }
    }

    fn failures(&self) -> u64 {
        self.failures
    }

    fn reads(&self) -> u64 {
        self.reads
    }
}

/// One read, made again where a signal interrupted it.
fn read_again<S: Read>(stream: &mut S, into: &mut [u8]) -> IoResult<usize>
    ensures within { ReadsAtMost result into.new }
    ensures stream { ReadConsumes (S.remaining stream.old) (S.remaining stream.new) result into.new }
{
    'tries: for _ in 1..MOST_TRIES {
        match stream.read(into) {
            Err(error) if error.kind() == ErrorKind::Interrupted => {}
            read => return read,
        }
    }
    stream.read(into)
}

/// One write, made again where a signal interrupted it.
fn write_again<S: Write>(stream: &mut S, from: &[u8]) -> IoResult<usize>
    ensures within { WritesAtMost result from.now }
    ensures stream { WriteAppends (S.contents stream.old) (S.contents stream.new) result from.now }
{
    'tries: for _ in 1..MOST_TRIES {
        match stream.write(from) {
            Err(error) if error.kind() == ErrorKind::Interrupted => {}
            written => return written,
        }
    }
    stream.write(from)
}
