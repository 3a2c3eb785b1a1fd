//! A wire that takes no memory.
ghost use Rattle.std.specs.Prelude.{◌≡◌, None};

use path_hub::{Wire, WireFault};

/// The bytes that a wire has room for.
const ROOM: usize = 256;

/// Gives the bytes of an input and takes as many as it has room for, and takes no memory for either.
#[derive(Drop)]
pub struct FixedWire<'a> {
    input: &'a [u8],
    written: [u8; ROOM],
    length: usize,
    failures: u64,
    reads: u64,
}

impl<'a> FixedWire<'a> {
    /// A wire that gives these bytes.
    pub fn new(input: &'a [u8]) -> FixedWire<'a>
        ensures failures { result.failures ≡ 0 }
        ensures reads { result.reads ≡ 0 }
    {
        FixedWire {
            input,
            written: [0; ROOM],
            length: 0,
            failures: 0,
            reads: 0,
        }
    }

    /// What was written.
    pub fn written(&self) -> &[u8] {
        self.written.get(..self.length).unwrap_or_default()
    }
}

impl<'a> Wire for FixedWire<'a> {
    ghost use Rattle.path_hub.specs.Wires.{Meaning};

    ghost meaning = { λ w. record { failures = w.failures; reads = w.reads; traffic = None } };

    fn read(&mut self, into: &mut [u8]) -> Result<usize, WireFault> {
        let count = self.input.len().min(into.len());
        if count == 0 {
            return Ok(0);
        }
        into[..count].copy_from_slice(&self.input[..count]);
        self.input = &self.input[count..];
        self.reads = self.reads.saturating_add(1);
        Ok(count)
    }

    fn write(&mut self, from: &[u8]) -> Result<usize, WireFault> {
        let at = self.length;
        let count = from.len().min(ROOM.saturating_sub(at));
        if count == 0 && !from.is_empty() {
            self.failures += 1;
            return Err(WireFault);
        }
        if count > 0 {
            self.written[at..at + count].copy_from_slice(&from[..count]);
            self.length = at + count;
        }
        Ok(count)
    }

    fn failures(&self) -> u64 {
        self.failures
    }

    fn reads(&self) -> u64 {
        self.reads
    }
}
