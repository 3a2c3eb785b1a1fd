//! Turns over a wire in memory that gives and takes a few bytes at a time, and a core that answers each byte.

ghost use Rattle.std.specs.Prelude.{None, false};

use crate::trial::Trial;
use outbox::{Core, Given, Outbox, Readiness, Step, Taken, Wire, turn};
use std::alloc::{AllocError, Global};

/// The trials.
pub fn trials(alloc: Global) -> [(&'static str, Trial); 3] {
    [
        ("writes_each_reply_once", writes_each_reply_once(alloc)),
        (
            "writes_nothing_after_a_fault",
            writes_nothing_after_a_fault(alloc),
        ),
        (
            "writes_what_is_owed_at_a_declined_piece",
            writes_what_is_owed_at_a_declined_piece(alloc),
        ),
    ]
}

/// Gives some bytes, at most so many at a time, and takes as few. Every other call would wait; writes from one on fail.
#[derive(Drop)]
struct ShortWire {
    left: usize,
    most: usize,
    calls: usize,
    sound_writes: usize,
    written: Vec<u8>,
}

impl ShortWire {
    fn new(alloc: Global, left: usize, most: usize, sound_writes: usize) -> ShortWire {
        ShortWire {
            left,
            most,
            calls: 0,
            sound_writes,
            written: Vec::new(alloc),
        }
    }

    fn would_wait(&mut self) -> bool {
        self.calls = self.calls.wrapping_add(1);
        self.calls % 2 == 0
    }
}

impl Wire for ShortWire {
    ghost told = { λ _. None };

    fn read(&mut self, buffer: &mut [u8]) -> Given {
        if self.would_wait() {
            return Given::Blocked;
        }
        let count = self.left.min(buffer.len()).min(self.most);
        if count == 0 {
            return Given::Ended;
        }
        self.left -= count;
        Given::Bytes(count)
    }

    fn write(&mut self, bytes: &[u8]) -> Taken {
        if self.would_wait() || self.most == 0 {
            return Taken::Blocked;
        }
        if self.sound_writes == 0 {
            return Taken::Failed;
        }
        self.sound_writes -= 1;
        let count = bytes.len().min(self.most);
        match self.written.extend_from_slice(&bytes[..count]) {
            Ok(()) => Taken::Bytes(count),
            Err(_) => Taken::Failed,
        }
    }
}

/// Answers each byte by the same reply, so many of them, and declines pieces from then on.
#[derive(Drop)]
struct Repeating {
    waiting: usize,
    most: usize,
    reply: Vec<u8>,
}

impl Core for Repeating {
    ghost use Rattle.std.specs.Prelude.{None};

    ghost Seen = { Unit {0} };

    ghost seen = { λ core. tt };

    ghost takes = { λ conn old piece new. Unit {0} };

    ghost answers = { λ conn old reply new. Unit {0} };

    ghost idle = { λ conn now. Unit {0} };

    ghost over = { λ conn now. false };

    ghost left = { λ conn now. None };

    ghost holds = { λ is_brief conn now. false };

    fn take(&mut self, _conn: u32, piece: &[u8]) -> bool {
        if self.most == 0 {
            return false;
        }
        self.waiting = self.waiting.saturating_add(piece.len());
        true
    }

    fn answer_next(&mut self, _conn: u32, _is_brief: bool, out: &mut Vec<u8>) -> Step {
        if self.waiting == 0 || self.most == 0 {
            return Step::Idle;
        }
        if out.reserve(self.reply.len()).is_err() {
            return Step::Refused;
        }
        out.extend_from_slice(self.reply.as_slice()).unwrap();
        self.waiting -= 1;
        self.most -= 1;
        Step::Replied
    }
}

/// Turns, so many of them, each after a report that all may be done.
fn turns(
    alloc: Global,
    wire: &mut ShortWire,
    most: usize,
    reply: &[u8],
    count: usize,
) -> Result<Outbox, AllocError> {
    let mut outbox = Outbox::new(alloc);
    let mut core = Repeating {
        waiting: 0,
        most,
        reply: Vec::from_slice(alloc, reply)?,
    };
    let mut buffer = [0u8; 64];
    let mut waiting = false;
    for _ in 0..count {
        let mut ready = Readiness {
            readable: true,
            writable: true,
            waiting,
        };
        turn(
            &mut outbox,
            wire,
            &mut core,
            0,
            false,
            &mut buffer,
            &mut ready,
        );
        waiting = ready.waiting;
    }
    Ok(outbox)
}

/// Whether 100 turns over a wire that gives 30 bytes, 7 at a time, bring these bytes and come to an end.
fn writes(alloc: Global, sound_writes: usize, most: usize, reply: &[u8], wanted: &[u8]) -> bool {
    let mut wire = ShortWire::new(alloc, 30, 7, sound_writes);
    match turns(alloc, &mut wire, most, reply, 100) {
        Ok(outbox) => wire.written.as_slice() == wanted && outbox.is_over(),
        Err(_) => false,
    }
}

/// 30 bytes in pieces of 7, each answered by `ok`, go out at most 7 bytes at a time.
fn writes_each_reply_once(alloc: Global) -> Trial {
    let wanted = b"okokokokokokokokokokokokokokokokokokokokokokokokokokokokokok";
    Trial::of(&[writes(alloc, 1000, 1000, b"ok", wanted)])
}

/// The third write fails: 2 writes of at most 7 bytes went out, and nothing is owed.
fn writes_nothing_after_a_fault(alloc: Global) -> Trial {
    Trial::of(&[writes(alloc, 2, 1000, b"abcdefgh", b"abcdefghabcdef")])
}

/// After 4 replies pieces are declined: what is owed is written, and then it is over.
fn writes_what_is_owed_at_a_declined_piece(alloc: Global) -> Trial {
    Trial::of(&[writes(alloc, 1000, 4, b"ok", b"okokokok")])
}
