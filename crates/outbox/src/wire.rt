//! Connections that never wait.
ghost use Rattle.std.specs.Prelude.{Option};
ghost use Rattle.outbox.specs.Traffic.{Traffic};
ghost use Rattle.outbox.specs.Moves.{Gives, Takes};

/// The outcome of a read.
#[derive(Clone, Copy, Debug, PartialEq, Eq)]
pub enum Given {
    /// This many bytes were read into the front of the buffer.
    Bytes(usize),
    /// The end of the input.
    Ended,
    /// No byte is there yet.
    Blocked,
    /// A fault.
    Failed,
}

/// The outcome of a write.
#[derive(Clone, Copy, Debug, PartialEq, Eq)]
pub enum Taken {
    /// This many bytes were written from the front.
    Bytes(usize),
    /// There is no room yet.
    Blocked,
    /// A fault.
    Failed,
}

/// A connection whose reads and writes return at once.
pub trait Wire {
    /// The bytes that went each way, if the wire shows them: one over memory does, one over a socket does not.
    ghost told: { Self → Option Traffic };

    /// Reads into the front of a buffer: at least one byte, if the buffer is not empty.
    fn read(&mut self, buffer: &mut [u8]) -> Given
        ensures { Gives (told self.old) result buffer.new (told self.new) };

    /// Writes from the front of a slice: at least one byte, if the slice is not empty.
    fn write(&mut self, bytes: &[u8]) -> Taken
        ensures { Takes (told self.old) bytes.now result (told self.new) };
}
