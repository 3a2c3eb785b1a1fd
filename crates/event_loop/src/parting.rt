//! What a drain does: to connections that come, and to those that are open.
ghost use Rattle.std.specs.Prelude.{◌≡◌, is_some, IfSome, IsTrue, IsFalse};
ghost use Rattle.outbox.specs.Traffic.{IsUnused};
ghost use Rattle.open_connections.specs.Looping.{Stays, DoesAtMost, LetGo};
ghost use Rattle.open_connections.specs.Opened.{lanes_of, rests_at};
ghost use Rattle.open_connections.specs.Woken.{StaysWoken};
ghost use Rattle.event_loop.specs.Drains.{LeavesAt, Parts, parting_at, parting_of};

use crate::rounds::{ACCEPTS, Rounds};
use connection_turns::End;
use open_connections::{Journal, LoopCore};
use socket_poll::{Accepted, System, Time};

/// The seconds behind the grace in which what is owed can still be written.
const PARTING: u64 = 10;

/// What a drain does to a connection that is open.
#[derive(Clone, Copy, PartialEq, Eq)]
pub(crate) enum Parting {
    /// It is served on: the server does not drain, or the grace lasts.
    Served,
    /// It is closed if it rests, and else read no more: what was read whole is answered, and what is owed is written.
    Leaves,
    /// It is closed, whatever is owed.
    Cut,
}

impl<S: System + Drop, C: LoopCore, T: Time + Drop> Rounds<S, C, T> {
    /// If a drain was asked for, the server serves no new connection from now on.
    pub fn heed_drain(&mut self)
        ensures opened { self.new.opened ≡ self.old.opened }
        ensures asked { self.new.desk.standing ≡ self.old.desk.standing }
        ensures deaf { IsTrue (is_some self.old.desk.standing.grace) → IsFalse self.new.acceptor.listens }
        ensures begun { IsTrue (is_some self.old.desk.standing.grace) → IsTrue (is_some self.new.drained) }
    {
        if self.desk.standing().grace.is_none() {
            return;
        }
        self.acceptor.listens = false;
        if self.drained.is_none() {
            self.drained = Some(self.seconds.last());
        }
    }

    /// Closes the connections that wait, without a byte.
    pub fn turn_away(&mut self)
        ensures lanes { Stays (lanes_of C.steps S.Stream.told self.old.opened) (lanes_of C.steps S.Stream.told self.new.opened) }
        ensures woken { StaysWoken self.old.opened self.new.opened }
    {
        'asking: for _ in 0..ACCEPTS {
            if !self.may_accept() {
                return;
            }
            let _closed = self.late();
        }
    }

    // Accepts one that waits, and hands it out to be closed as it came: nothing was read of it or written to it.
    fn late(&mut self) -> Option<S::Stream>
        ensures lanes { Stays (lanes_of C.steps S.Stream.told self.old.opened) (lanes_of C.steps S.Stream.told self.new.opened) }
        ensures unused { IfSome result (λ stream. IsUnused (S.Stream.told stream)) }
        ensures woken { StaysWoken self.old.opened self.new.opened }
    {
        match self.system.accept() {
            Accepted::Stream(stream, _) => Some(stream),
            Accepted::Aborted => None,
            Accepted::Blocked => {
                self.acceptor.is_asked = false;
                None
            }
            Accepted::Refused => {
                self.acceptor.is_refused = true;
                None
            }
        }
    }

    /// What a drain does to a connection that is open. Behind the grace it is closed if it rests, and else leaves; some seconds later it is closed.
    pub fn drain<J: Journal>(&mut self, key: usize, journal: &mut J)
        ensures lanes { DoesAtMost C.steps (LetGo key) (lanes_of C.steps S.Stream.told self.old.opened) (lanes_of C.steps S.Stream.told self.new.opened) }
        ensures parts { Parts C.steps S.Stream.told (parting_of self.old.drained self.old.desk.standing.grace self.old.seconds.last) key self.old.opened self.new.opened }
        ensures woken { StaysWoken self.old.opened self.new.opened }
    {
        match self.parting() {
            Parting::Served => {}
            Parting::Leaves => self.part_with(key, journal),
            Parting::Cut => self.cut(key, journal),
        }
    }

    // What a drain does by now.
    fn parting(&self) -> Parting
        ensures { result ≡ parting_of self.now.drained self.now.desk.standing.grace self.now.seconds.last }
    {
        match (self.drained, self.desk.standing().grace) {
            (Some(since), Some(grace)) => parting_at(since, grace, self.seconds.last()),
            _ => Parting::Served,
        }
    }

    // One at rest is closed at once, and any other leaves.
    fn part_with<J: Journal>(&mut self, key: usize, journal: &mut J)
        ensures lanes { DoesAtMost C.steps (LetGo key) (lanes_of C.steps S.Stream.told self.old.opened) (lanes_of C.steps S.Stream.told self.new.opened) }
        ensures busy { IsFalse (rests_at key self.old.opened) → LeavesAt C.steps S.Stream.told key self.old.opened self.new.opened }
        ensures woken { StaysWoken self.old.opened self.new.opened }
    {
        if self.opened.rests(key) {
            self.cut(key, journal);
        } else {
            self.leave(key);
        }
    }

    // A connection leaves.
    fn leave(&mut self, key: usize)
        ensures lanes { LeavesAt C.steps S.Stream.told key self.old.opened self.new.opened }
        ensures woken { StaysWoken self.old.opened self.new.opened }
    {
        self.opened.leave(key);
    }

    // Closes one that is served.
    fn cut<J: Journal>(&mut self, key: usize, journal: &mut J)
        ensures lanes { DoesAtMost C.steps (LetGo key) (lanes_of C.steps S.Stream.told self.old.opened) (lanes_of C.steps S.Stream.told self.new.opened) }
        ensures woken { StaysWoken self.old.opened self.new.opened }
    {
        if !self.opened.is_served(key) {
            return;
        }
        self.tell_end(key, End::Drained, journal);
        self.close(key);
    }
}

// What a drain since a second does, with so many seconds of grace.
fn parting_at(since: u64, grace: u32, now: u64) -> Parting
    ensures { result ≡ parting_at since grace now }
{
    let grace = u64::from(grace);
    match now.checked_sub(since) {
        Some(passed) if passed >= grace + PARTING => Parting::Cut,
        Some(passed) if passed >= grace => Parting::Leaves,
        _ => Parting::Served,
    }
}
