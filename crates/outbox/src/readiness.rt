//! What is known about a connection between two turns.
ghost use Rattle.std.specs.Prelude.{◌≡◌};
ghost use Rattle.outbox.specs.Turns as turns;

use crate::owing::Outbox;

/// What can be done on a connection without waiting.
#[derive(Clone, Copy, Debug, PartialEq, Eq)]
pub struct Readiness {
    /// A read may give bytes: the system reported it, and no read since then would have waited.
    pub readable: bool,
    /// A write may take bytes.
    pub writable: bool,
    /// A request may wait for its answer.
    pub waiting: bool,
}

impl Readiness {
    /// Whether a turn would do anything.
    pub fn can_go_on(&self, outbox: &Outbox) -> bool
        ensures { result ≡ turns.can_go_on self.now outbox.now }
    {
        (self.readable || self.waiting) && outbox.reads() || self.can_write(outbox)
    }

    /// Whether a turn would write.
    pub(crate) fn can_write(&self, outbox: &Outbox) -> bool
        ensures { result ≡ turns.can_write self.now outbox.now }
    {
        self.writable && outbox.owes()
    }

    /// Whether a turn would read.
    pub(crate) fn can_read(&self, outbox: &Outbox) -> bool
        ensures { result ≡ turns.can_read self.now outbox.now }
    {
        self.readable && !self.waiting && outbox.reads()
    }

    /// Whether a turn would answer.
    pub(crate) fn can_answer(&self, outbox: &Outbox) -> bool
        ensures { result ≡ turns.can_answer self.now outbox.now }
    {
        self.waiting && outbox.reads()
    }
}
