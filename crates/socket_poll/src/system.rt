//! What a loop needs of the operating system: what is ready, who connects, and the time.
ghost use Rattle.std.specs.Prelude.{◌≡◌, ⊤, Bool, Option, IfSome, IsFalse, IsTrue, OnErr};
ghost use Rattle.socket_poll.specs.Streams.{IsNew};
ghost use Rattle.socket_poll.specs.Reports.{ended_at};

use outbox::Wire;
use std::io::ErrorKind;
use std::net::SocketAddr;
use std::time::Duration;

/// A connection's stream: a wire, whose reads and writes return at once, with a writing side that can be ended.
pub trait Peer: Wire + Drop {
    /// Ends the writing side, so that the bytes written arrive although some are unread.
    fn end_writing(&mut self)
        ensures { Self.told self.new ≡ Self.told self.old };
}

/// A report on a connection.
#[derive(Clone, Copy, Debug, PartialEq, Eq)]
pub struct Report {
    /// The key that it is watched under.
    pub key: usize,
    /// A read may give bytes.
    pub is_readable: bool,
    /// A write may take bytes.
    pub is_writable: bool,
    /// Its peer ended, or a fault came.
    pub is_ending: bool,
    /// It has urgent data (RFC 9293, section 3.8.5). A read ends at its mark, although bytes stand behind it.
    pub is_urgent: bool,
    /// Its peer is gone: it sends nothing more and takes nothing more.
    pub is_gone: bool,
}

impl Report {
    /// The peer of the connection with this key ended its side.
    pub fn ended(key: usize) -> Report
        ensures { result ≡ ended_at key }
    {
        Report {
            key,
            is_readable: true,
            is_writable: false,
            is_ending: true,
            is_urgent: false,
            is_gone: false,
        }
    }
}

/// The result of a wait, beside the reports.
#[derive(Clone, Copy, Debug, PartialEq, Eq)]
pub struct Woken {
    /// A connection may wait to be accepted.
    pub is_asked: bool,
    /// The server should take in no more connections.
    pub is_closed: bool,
}

/// The result of an accept.
#[derive(Drop)]
pub enum Accepted<S: Drop> {
    /// A stream on which nothing moved yet, and the address of its peer.
    Stream(S, SocketAddr),
    /// None waits.
    Blocked,
    /// The peer of one that waited is gone.
    Aborted,
    /// The system has no descriptor or memory for it.
    Refused,
}

/// The operating system of a loop.
pub trait System {
    /// A connection's stream.
    type Stream: Peer;

    /// Whether it was asked for a connection since the last wait, if it shows that.
    ghost tried: { Self → Option Bool };

    /// Whether the last wait failed, if it shows that.
    ghost failed: { Self → Option Bool };

    /// Waits until something is ready, for at most this time. An error is the system's reason.
    fn wait(&mut self, most: Duration) -> Result<Woken, ErrorKind>
        ensures tried { IfSome (tried self.new) IsFalse }
        ensures failed { OnErr result (IfSome (failed self.new) IsTrue) };

    /// The report of the last wait with this number, from 0.
    fn report(&self, number: usize) -> Option<Report>;

    /// Accepts a connection.
    fn accept(&mut self) -> Accepted<Self::Stream>
        ensures unused { IsNew Self.Stream.told result }
        ensures tried { IfSome (tried self.new) IsTrue };

    /// Accepts a connection of the administration address. None waits if there is no such address.
    fn accept_caller(&mut self) -> Accepted<Self::Stream>
        ensures unused { IsNew Self.Stream.told result }
        ensures tried { tried self.new ≡ tried self.old }
    {
        Accepted::Blocked
    }

    /// Has a stream reported under this key when it is ready. `false` if the system refuses.
    fn watch(&mut self, stream: &mut Self::Stream, key: usize) -> bool
        ensures stream { Self.Stream.told stream.new ≡ Self.Stream.told stream.old }
        ensures tried { tried self.new ≡ tried self.old };

    /// The address that connections come to. An error is the system's reason.
    fn local_addr(&self) -> Result<SocketAddr, ErrorKind>;
}

/// A clock.
pub trait Time {
    ghost use Rattle.std.specs.declared.time.Duration.{Duration};

    /// What it may tell.
    ghost tells: { Self → Option Duration → Type 0 } = { λ _ _. ⊤ };

    /// The time since some fixed moment, if the clock works.
    fn now(&self) -> Option<Duration>
        ensures { tells self.now result };
}
