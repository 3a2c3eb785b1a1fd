//! A stream of bytes taken apart into frames.
ghost use Rattle.std.specs.Prelude.{◌≡◌, ◌<◌, ◌↔◌, length, IfOk, OnOk, OnErr, IsErrOf, true};
ghost use Rattle.wire_frames.specs.Looks.{Shows};
ghost use Rattle.wire_frames.specs.Framing.{fresh, with_piece, framing_after, HasFrame};
ghost use Rattle.wire_frames.specs.NextFrame.{next_of, lent_as};

use crate::block::Waiting;
use bytes::Bytes;
use std::alloc::{AllocError, Global};
use std::marker::Model;
use store_names::LENGTH_BYTES;
use thiserror::Error;

/// The most bytes in the body of a request frame.
pub const LONGEST_BODY: usize = 6_291_456;

/// What the bytes that wait begin with.
#[derive(Debug, Drop)]
pub enum Next {
    /// The body of a whole frame, which was taken off.
    Frame(Bytes),
    /// Less than a frame.
    Wait,
    /// A length above [`LONGEST_BODY`]. The framer is closed.
    Fault,
}

/// What the bytes that wait begin with, lent.
#[derive(Clone, Copy, Debug)]
pub enum Front<'a> {
    /// The body of a whole frame.
    Frame(&'a [u8]),
    /// Less than a frame.
    Wait,
    /// A length above [`LONGEST_BODY`].
    Fault,
}

/// Why a piece was not taken.
#[derive(Clone, Copy, Debug, PartialEq, Eq, Error)]
pub enum AcceptFault {
    /// A length above the limit came before.
    #[error("a length above the limit came before")]
    Closed,
    /// A growth was refused.
    #[error("a growth was refused")]
    Memory,
}

/// Takes the stream of one connection apart into frames: a length in four bytes, the most significant first, and a body
/// of that length.
#[derive(Debug, Drop)]
pub struct Framer {
    waiting: Waiting,
    closed: bool,
}

impl Model for Framer {
    ghost use Rattle.wire_frames.specs.Framing.{Framing, IsClosedByFault};

    ghost Value = { Framing };

    ghost view = { λ f. record { waiting = f.waiting; closed = f.closed } };

    ghost invariant = { λ f. IsClosedByFault f.waiting f.closed };
}

impl Framer {
    /// A framer that waits for the first byte of a stream. It takes no memory before that, so it is never refused.
    pub fn new(alloc: Global) -> Result<Framer, AllocError>
        ensures { result ≡ Ok fresh }
    {
        Ok(Framer {
            waiting: Waiting::new(alloc),
            closed: false,
        })
    }

    /// Adds a piece of the stream at the end of the bytes that wait.
    ///
    /// # Errors
    ///
    /// `Closed` exactly where a fault was given, `Memory` where a growth was refused, as an empty piece never asks. Both
    /// change nothing.
    pub fn accept(&mut self, piece: &[u8]) -> Result<(), AcceptFault>
        ensures accepted { OnOk result (self.new ≡ with_piece self.old piece.now) }
        ensures closed { IsErrOf result AcceptFault.Closed ↔ (self.old.closed ≡ true) }
        ensures grown { IsErrOf result AcceptFault.Memory → 0 < length piece.now }
        ensures unchanged { OnErr result (self.new ≡ self.old) }
    {
        if self.closed {
            return Err(AcceptFault::Closed);
        }
        match self.waiting.extend_from_slice(piece) {
            Ok(()) => Ok(()),
            Err(_) => Err(AcceptFault::Memory),
        }
    }

    /// Takes the first frame off the bytes that wait.
    ///
    /// # Errors
    ///
    /// Where a growth was refused, and only where a whole frame is there to be taken. It changes nothing.
    pub fn next_frame(&mut self) -> Result<Next, AllocError>
        ensures next { IfOk result (λ next. next ≡ next_of self.old) }
        ensures taken { OnOk result (self.new ≡ framing_after self.old) }
        ensures had_frame { OnErr result (HasFrame self.old) }
        ensures unchanged { OnErr result (self.new ≡ self.old) }
    {
        match front_of(self.waiting.as_slice()) {
            Look::Frame(length) => {
                let mut frame = self.waiting.freeze_to(LENGTH_BYTES + length)?;
                frame.advance(LENGTH_BYTES);
                Ok(Next::Frame(frame))
            }
            Look::Wait => Ok(Next::Wait),
            Look::Fault => {
                self.closed = true;
                Ok(Next::Fault)
            }
        }
    }

    /// Lends what the bytes that wait begin with. It takes no memory.
    pub fn front(&self) -> Front<'_>
        ensures { lent_as result ≡ next_of self.now }
    {
        let waiting = self.waiting.as_slice();
        match front_of(waiting) {
            Look::Frame(length) => Front::Frame(&waiting[LENGTH_BYTES..LENGTH_BYTES + length]),
            Look::Wait => Front::Wait,
            Look::Fault => Front::Fault,
        }
    }

    /// Takes the first frame off the bytes that wait, or closes at a fault.
    ///
    /// The bytes that still wait are moved to a new block once at least as many were taken off before them. So the memory kept is proportional
    /// to the bytes that wait, and there is none if none waits. If that allocation fails, they stay where they are.
    pub fn pass(&mut self)
        ensures { self.new ≡ framing_after self.old }
    {
        match front_of(self.waiting.as_slice()) {
            Look::Frame(length) => {
                self.waiting.advance(LENGTH_BYTES + length);
            }
            Look::Wait => {}
            Look::Fault => self.closed = true,
        }
    }

    /// How many bytes wait: those of whole frames that were not taken off, and what came of the next one.
    pub fn waiting(&self) -> usize
        ensures { result ≡ length self.now.waiting }
    {
        self.waiting_bytes().len()
    }

    /// The bytes that wait.
    pub fn waiting_bytes(&self) -> &[u8]
        ensures { result.now ≡ self.now.waiting }
    {
        self.waiting.as_slice()
    }

    /// Whether a fault was given.
    pub fn is_closed(&self) -> bool
        ensures { result ≡ self.now.closed }
    {
        self.closed
    }
}

/// What bytes begin with: a whole frame with a body of that length, less than one, or too long a length.
#[derive(Clone, Copy)]
enum Look {
    Frame(usize),
    Wait,
    Fault,
}

#[tactic(auto, unfolding(crate::specs::Frames::front))]
fn front_of(bytes: &[u8]) -> Look
    ensures { Shows bytes.now result }
{
    if bytes.len() < LENGTH_BYTES {
        return Look::Wait;
    }
    let length = u32::from_be_bytes([bytes[0], bytes[1], bytes[2], bytes[3]]) as usize;
    if length > LONGEST_BODY {
        Look::Fault
    } else if bytes.len() - LENGTH_BYTES < length {
        Look::Wait
    } else {
        Look::Frame(length)
    }
}
