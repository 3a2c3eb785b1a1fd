//! One connection: what its peer sent and takes, and what the system reports of it.
ghost use Rattle.std.specs.Prelude.{◌≡◌};
ghost use Rattle.outbox.specs.Traffic.{IsUnused};
ghost use Rattle.simulated_peers.specs.Pieces.{HasGiven, HasTaken};

use event_loop::{End as How, Peer, Report};
use outbox::{Given, Taken, Wire};
use std::alloc::Global;
use std::cell::{Cell, RefCell};
use std::collections::VecDeque;
use std::io::{Read, Write};

/// The bytes that a peer's side has room for.
const ROOM: usize = 50_000;

/// What is on its way.
#[derive(Drop)]
pub struct Pipe {
    to_server: VecDeque<u8>,
    to_peer: VecDeque<u8>,
    // How many bytes more the server may write.
    room: usize,
    /// It waits to be accepted.
    pub is_asking: bool,
    // The peer has reset it, or ended its side.
    is_reset: bool,
    is_ended: bool,
    /// The server has ended its side, or closed it, or never had it.
    pub is_over: bool,
    pub is_closed: bool,
    /// How it ended, as the server told.
    pub how: Option<How>,
    /// The key that it is watched under, and how many were watched before it.
    pub key: Option<usize>,
    pub number: u64,
    // What is to be reported, and whether a write found no room.
    is_readable: bool,
    is_writable: bool,
    is_blocked: bool,
    /// The millisecond in which the server last moved a byte, or took it in, the one in which it took it in, and the one in which it closed it.
    pub moved: u64,
    pub taken: u64,
    pub closed: u64,
    /// The reads and writes of the server.
    pub calls: u64,
}

impl Pipe {
    /// One that was closed.
    pub fn new(alloc: Global) -> Pipe {
        Pipe {
            to_server: VecDeque::new(alloc),
            to_peer: VecDeque::new(alloc),
            room: ROOM,
            is_asking: false,
            is_reset: false,
            is_ended: false,
            is_over: false,
            is_closed: true,
            how: None,
            key: None,
            number: 0,
            is_readable: false,
            is_writable: false,
            is_blocked: false,
            moved: 0,
            taken: 0,
            closed: 0,
            calls: 0,
        }
    }

    /// Opens it anew: it waits to be accepted.
    pub fn open(&mut self) {
        self.to_server.clear();
        self.to_peer.clear();
        self.room = ROOM;
        self.is_asking = true;
        self.is_reset = false;
        self.is_ended = false;
        self.is_over = false;
        self.is_closed = false;
        self.how = None;
        self.key = None;
        self.is_readable = false;
        self.is_writable = false;
        self.is_blocked = false;
    }

    /// It is watched under this key, after so many others.
    pub fn watch(&mut self, key: usize, number: u64, now: u64) {
        self.key = Some(key);
        self.number = number;
        self.is_readable = !self.to_server.is_empty() || self.is_reset || self.is_ended;
        self.is_writable = true;
        self.moved = now;
        self.taken = now;
    }

    /// What is reported once.
    pub fn report(&mut self) -> Option<Report> {
        let key = self.key?;
        if self.is_closed || !self.is_readable && !self.is_writable {
            return None;
        }
        let report = Report {
            key,
            is_readable: self.is_readable,
            is_writable: self.is_writable,
            is_ending: self.is_reset || self.is_ended,
            is_urgent: false,
            is_gone: self.is_reset,
        };
        self.is_readable = false;
        self.is_writable = false;
        Some(report)
    }

    /// The peer sends a byte.
    pub fn send(&mut self, byte: u8) {
        if self.to_server.push_back(byte).is_ok() {
            self.is_readable = true;
        }
    }

    /// How many bytes were sent and not read.
    pub fn unread(&self) -> usize {
        self.to_server.len()
    }

    /// The peer takes a byte.
    pub fn take(&mut self) -> Option<u8> {
        let byte = self.to_peer.pop_front()?;
        self.room = self.room.saturating_add(1);
        if self.is_blocked {
            self.is_blocked = false;
            self.is_writable = true;
        }
        Some(byte)
    }

    /// The peer resets it: what is on its way is lost.
    pub fn reset(&mut self) {
        self.is_reset = true;
        self.is_readable = true;
        self.is_writable = true;
        self.to_server.clear();
        self.to_peer.clear();
    }

    /// The peer ends its side.
    pub fn end(&mut self) {
        self.is_ended = true;
        self.is_readable = true;
    }
}

/// The server's end of a connection. It keeps a record of all that the server reads and writes.
pub struct End<'w> {
    // What it reads and writes.
    pipe: &'w RefCell<Pipe>,
    // The clock, in milliseconds.
    millis: &'w Cell<u64>,
    read: Vec<u8>,
    written: Vec<u8>,
}

impl<'w> End<'w> {
    ghost use Rattle.simulated_peers.specs.Records.{record_of};

    /// The end of this pipe, on which nothing was read or written.
    pub fn new(alloc: Global, pipe: &'w RefCell<Pipe>, millis: &'w Cell<u64>) -> End<'w>
        ensures { IsUnused (record_of result) }
    {
        End {
            pipe,
            millis,
            read: Vec::new(alloc),
            written: Vec::new(alloc),
        }
    }

    /// It is watched under this key, after so many others. `false` if the pipe is lent.
    pub fn watch(&mut self, key: usize, number: u64) -> bool
        ensures { record_of self.new ≡ record_of self.old }
    {
        match self.pipe.try_borrow_mut() {
            Ok(mut pipe) => {
                pipe.watch(key, number, self.millis.get());
                true
            }
            Err(_) => false,
        }
    }

    // If there is no memory for the record, nothing moves, and the pipe is reported once more.
    fn report_again(&self) {
        if let Ok(mut pipe) = self.pipe.try_borrow_mut() {
            pipe.is_readable = true;
            pipe.is_writable = true;
        }
    }

    // Takes all that is there and fits off the pipe: a read that is shorter than its buffer tells that no more is there.
    fn take(&self, buffer: &mut [u8]) -> Given
        ensures { HasGiven result buffer.new }
    {
        let Ok(mut pipe) = self.pipe.try_borrow_mut() else {
            return Given::Blocked;
        };
        pipe.calls = pipe.calls.saturating_add(1);
        if pipe.is_reset {
            return Given::Failed;
        }
        let _ = pipe.to_server.make_contiguous();
        let Ok(count) = pipe.to_server.read(buffer) else {
            return Given::Failed;
        };
        if count > 0 {
            pipe.moved = self.millis.get();
            Given::Bytes(count)
        } else if pipe.is_ended {
            pipe.moved = self.millis.get();
            Given::Ended
        } else {
            Given::Blocked
        }
    }

    // Puts as many bytes as there is room for into the pipe.
    fn put(&self, bytes: &[u8]) -> Taken
        ensures { HasTaken result bytes.now }
    {
        let Ok(mut pipe) = self.pipe.try_borrow_mut() else {
            return Taken::Blocked;
        };
        pipe.calls = pipe.calls.saturating_add(1);
        if pipe.is_reset {
            return Taken::Failed;
        }
        let most = pipe.room.min(bytes.len());
        let Ok(count) = pipe.to_peer.write(bytes.get(..most).unwrap_or_default()) else {
            return Taken::Failed;
        };
        pipe.room = pipe.room.saturating_sub(count);
        if count == 0 {
            pipe.is_blocked = true;
            return Taken::Blocked;
        }
        pipe.moved = self.millis.get();
        Taken::Bytes(count.min(bytes.len()))
    }
}

impl Drop for End<'_> {
    fn drop(self) {
        if let Ok(mut pipe) = self.pipe.try_borrow_mut() {
            pipe.is_closed = true;
            pipe.closed = self.millis.get();
        }
        let End {
            pipe: _,
            millis: _,
            read: _,
            written: _,
        } = self;
    }
}

impl Wire for End<'_> {
    ghost use Rattle.simulated_peers.specs.Records.{record_of};

    ghost told = { record_of };

    fn read(&mut self, buffer: &mut [u8]) -> Given {
        if self.read.reserve(buffer.len()).is_err() {
            self.report_again();
            return Given::Blocked;
        }
        let given = self.take(&mut *buffer);
        if let Given::Bytes(count) = given {
            let piece = buffer.get(..count).unwrap_or_default();
            if self.read.extend_from_slice(piece).is_err() {
                return Given::Failed;
            }
        }
        given
    }

    fn write(&mut self, bytes: &[u8]) -> Taken {
        if self.written.reserve(bytes.len()).is_err() {
            self.report_again();
            return Taken::Blocked;
        }
        let taken = self.put(bytes);
        if let Taken::Bytes(count) = taken {
            let piece = bytes.get(..count).unwrap_or_default();
            if self.written.extend_from_slice(piece).is_err() {
                return Taken::Failed;
            }
        }
        taken
    }
}

impl Peer for End<'_> {
    fn end_writing(&mut self) {
        if let Ok(mut pipe) = self.pipe.try_borrow_mut() {
            pipe.is_over = true;
        }
    }
}
