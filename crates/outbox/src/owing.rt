//! The bytes that a connection is owed: replies that are not written yet.
ghost use Rattle.std.specs.Prelude.{◌≡◌, ◌≤◌, length};
ghost use Rattle.outbox.specs.Lines as lines;
ghost use Rattle.outbox.specs.Lines.{fresh, after, Fails, Ends, Writable};
ghost use Rattle.outbox.specs.Appends as appends;

use crate::answers::{Core, Step};
use crate::stage::Stage;
use std::alloc::Global;
use std::marker::Model;

/// A connection that is owed as many bytes is not read.
pub const CAP: usize = 262_144;

/// The capacity that may stay unused.
const FIT: usize = 65_536;

/// The bytes that a connection is owed, and whether it is still read.
#[derive(Drop)]
pub struct Outbox {
    bytes: Vec<u8>,
    // The bytes before here were written.
    start: usize,
    stage: Stage,
}

impl Model for Outbox {
    ghost use Rattle.std.specs.Prelude.{◌≤◌, drop, length};
    ghost use Rattle.outbox.specs.Lines.{Line};

    ghost Value = { Line };

    ghost view = { λ o. record { owed = drop o.start o.bytes.items; stage = o.stage } };

    ghost invariant = { λ o. o.start ≤ length o.bytes.items };
}

impl Outbox {
    /// The empty outbox of an open connection.
    pub fn new(alloc: Global) -> Outbox
        ensures { result ≡ fresh }
    {
        Outbox {
            bytes: Vec::new(alloc),
            start: 0,
            stage: Stage::Open,
        }
    }

    /// The bytes owed.
    pub fn owed(&self) -> &[u8]
        ensures { result.now ≡ self.now.owed }
    {
        &self.bytes[self.start..]
    }

    /// Whether any byte is owed.
    pub fn owes(&self) -> bool
        ensures { result ≡ lines.owes self.now }
    {
        self.start < self.bytes.len()
    }

    /// Whether the connection is read: it is open, and owed less than [`CAP`].
    pub fn reads(&self) -> bool
        ensures { result ≡ lines.reads self.now }
    {
        matches!(self.stage, Stage::Open) && self.bytes.len() - self.start < CAP
    }

    /// Whether the connection is over: it is no longer read, and nothing is owed.
    pub fn is_over(&self) -> bool
        ensures { result ≡ lines.is_over self.now }
    {
        !matches!(self.stage, Stage::Open) && !self.owes()
    }

    /// Notes that the first `count` bytes owed were written.
    pub fn wrote(&mut self, count: usize)
        requires { count ≤ length self.old.owed }
        ensures { self.new ≡ after self.old (Writable count) }
    {
        self.start += count;
        self.shift();
        self.fit();
    }

    /// Notes the end of the input: the bytes owed are still written.
    pub fn end(&mut self)
        ensures { self.new ≡ after self.old Ends }
    {
        if matches!(self.stage, Stage::Open) {
            self.stage = Stage::Ending;
        }
    }

    /// Notes a fault: the bytes owed are discarded.
    pub fn fail(&mut self)
        ensures { self.new ≡ after self.old Fails }
    {
        self.stage = Stage::Broken;
        self.bytes.clear();
        self.bytes.shrink_to_fit();
        self.start = 0;
    }

    /// Has the next request answered, and appends its reply to the bytes owed.
    pub fn answer_next<C: Core>(&mut self, core: &mut C, conn: u32, is_brief: bool) -> Step
        ensures owes { appends.Owes (C.answers conn) (C.idle conn) (C.over conn) result (C.seen core.old) self.old self.new (C.seen core.new) }
        ensures works { appends.Works result (C.holds is_brief conn core.old) (C.left conn core.old) (C.left conn core.new) }
        ensures others { appends.OthersKeep C.left conn core.old core.new }
    {
        self.shift();
        let step = core.answer_next(conn, is_brief, &mut self.bytes);
        self.fit();
        step
    }

    // Gives back room that a reply took and did not keep, as one that was refused for its length or written for the most part.
    fn fit(&mut self)
        ensures { self.new ≡ self.old }
    {
        let room = self.bytes.capacity();
        if self.bytes.is_empty() || (room > FIT && self.bytes.len() <= room / 2) {
            self.bytes.shrink_to_fit();
        }
    }

    // Moves what is owed to the front, where at least half of the bytes were written. Each byte is moved at most once for
    // each byte that was written before it. Where memory runs out, all stays.
    fn shift(&mut self)
        ensures { self.new ≡ self.old }
    {
        if self.start > 0 && self.start >= self.bytes.len() - self.start {
            let left = self.bytes.len() - self.start;
            self.bytes.copy_within(self.start.., 0);
            self.bytes.truncate(left);
            self.start = 0;
        }
    }
}
