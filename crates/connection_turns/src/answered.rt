//! What a core of turns is asked to do, and what came of it.

use outbox::Step;
use std::time::Duration;

/// How much a step may do.
#[derive(Clone, Copy, Debug, PartialEq, Eq)]
pub struct Work {
    /// The units for which a query goes on before others are served, or for which a text is read.
    pub units: u64,
    /// The microseconds that the request in front took so far.
    pub micros: u64,
    /// Since when it takes more of them, where a clock tells it.
    pub since: Option<Duration>,
}

/// A request, as it is counted.
#[derive(Clone, Copy, Debug, PartialEq, Eq)]
pub struct RequestKind {
    /// The byte of its command. 0 if its body is empty, or its frame too long.
    pub command: u8,
    /// The place of its key in the list of keys, if it is a tenant's.
    pub tenant: Option<usize>,
    /// How many bytes its body has. 0 if its frame is too long.
    pub bytes: u64,
}

/// What a step came to.
#[derive(Clone, Copy, Debug, PartialEq, Eq)]
pub struct Answered {
    /// How it ended.
    pub step: Step,
    /// What the request in front asked.
    pub asked: RequestKind,
    /// The units that it was charged, where hits are its reply.
    pub units: Option<u64>,
    /// The microseconds that it took so far.
    pub micros: u64,
    /// When the step ended, where a clock tells it.
    pub ended: Option<Duration>,
    /// A query went on, or the reading of a text, which is under way.
    pub has_gone_on: bool,
    /// A query was answered that took longer than it should.
    pub is_slow: bool,
}

impl Answered {
    /// Whether a reply was given.
    pub fn is_reply(&self) -> bool {
        matches!(self.step, Step::Replied | Step::Last)
    }

    /// The microseconds that the request in front took so far: none where another one is in front now.
    pub fn worked(&self) -> u64 {
        if self.is_reply() { 0 } else { self.micros }
    }

    /// The tenant that asked last: this one, or the one before.
    pub fn heard(&self, before: Option<usize>) -> Option<usize> {
        match self.asked.tenant {
            Some(tenant) => Some(tenant),
            None => before,
        }
    }
}
