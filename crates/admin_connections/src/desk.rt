//! The few connections of the administration address.
ghost use Rattle.std.specs.Prelude.{◌≡◌, ◌≤◌, None, IfSome, true, false, nat_lt, take};
ghost use Rattle.slab.specs.Slab.{get, slab_len, Updates};
ghost use Rattle.admin_pages.specs.Standings.{at_start};
ghost use Rattle.admin_connections.specs.Visits.{hosts_of, owed_of};
ghost use Rattle.admin_connections.specs.Desks.{BeginsAt, IsLate, IsSilent, KeepsAnswered, SaysAt, SaysBy, Sends, SendsAt, is_own};

use crate::visit::{PIECE, Stage, Visit, is_head};
use admin_pages::{About, Gauges, Metrics, Standing};
use outbox::{Given, Taken, Wire};
use slab::Slab;
use socket_poll::{Peer, Report};
use std::alloc::Global;

/// The most connections that are open at once; further ones wait to be accepted.
pub const PLACES: usize = 8;

/// The seconds after which a connection is closed, whatever it waits for.
const PATIENCE: u64 = 5;

/// The most bytes of a write.
const MOST_WRITTEN: usize = 16_384;

/// The key of the first connection. Those of the others are below it.
const FIRST_KEY: usize = usize::MAX - 16;

/// One connection.
#[derive(Drop)]
struct Caller<S: Peer> {
    stream: S,
    visit: Visit,
    // The second in which it was accepted.
    since: u64,
    is_readable: bool,
    is_writable: bool,
}

/// The connections, and what was said on them. A step of one reads a piece, makes a few lines of a page, or writes a part of a reply.
#[derive(Drop)]
pub struct Desk<S: Peer> {
    alloc: Global,
    callers: Slab<Caller<S>>,
    standing: Standing,
    about: About,
}

impl<S: Peer> Desk<S> {
    /// None is open.
    pub fn new(alloc: Global) -> Desk<S>
        ensures unsaid { result.standing ≡ at_start }
        ensures empty { slab_len result.callers ≡ 0 }
    {
        Desk {
            alloc,
            callers: Slab::new(alloc),
            standing: Standing::new(),
            about: About::new(alloc),
        }
    }

    /// Tells it what the server is. It serves the hosts of that from now on.
    pub fn introduce(&mut self, about: About)
        ensures about { self.new.about ≡ about }
        ensures standing { self.new.standing ≡ self.old.standing }
    {
        self.about = about;
    }

    /// What was said.
    pub fn standing(&self) -> &Standing
        ensures { result.now ≡ self.now.standing }
    {
        &self.standing
    }

    /// The server takes in no connections any more.
    pub fn end(&mut self)
        ensures { self.new.standing ≡ record self.old.standing { is_ending = true } }
    {
        self.standing.is_ending = true;
    }

    /// Whether none is open.
    pub fn is_empty(&self) -> bool {
        self.callers.len() == 0
    }

    /// Whether one can go on.
    pub fn has_due(&self) -> bool {
        let mut has_due = false;
        for place in 0..PLACES {
            if let Some(caller) = self.callers.get(place) {
                has_due |= caller.can_go_on();
            }
        }
        has_due
    }

    /// Whether there is room for one more.
    pub fn has_room(&self) -> bool
        ensures { result ≡ nat_lt (slab_len self.now.callers) 8 }
    {
        self.callers.len() < PLACES
    }

    /// The key of the next connection, if there is room for one, or if one makes room: the oldest whose request has not come whole.
    pub fn vacant(&mut self) -> Option<usize>
        ensures standing { self.new.standing ≡ self.old.standing }
        ensures about { self.new.about ≡ self.old.about }
    {
        if !self.has_room() {
            return FIRST_KEY.checked_sub(self.oldest_silent()?);
        }
        if self.callers.reserve(1).is_ok() {
            FIRST_KEY.checked_sub(self.callers.vacant_key())
        } else {
            None
        }
    }

    /// Takes one in under the key that is vacant. One that makes room is closed; those that are answered stay.
    pub fn take_in(&mut self, stream: S, now: u64)
        ensures standing { self.new.standing ≡ self.old.standing }
        ensures about { self.new.about ≡ self.old.about }
        ensures few { slab_len self.old.callers ≤ 8 → slab_len self.new.callers ≤ 8 }
        ensures answered { KeepsAnswered self.old.callers self.new.callers }
    {
        self.make_room();
        if !self.has_room() || self.callers.reserve(1).is_err() {
            return;
        }
        self.callers.insert_reserved(Caller {
            stream,
            visit: Visit::new(self.alloc),
            since: now,
            is_readable: false,
            is_writable: false,
        });
    }

    // Closes the oldest connection whose request has not come whole, if there is no room.
    fn make_room(&mut self)
        ensures standing { self.new.standing ≡ self.old.standing }
        ensures about { self.new.about ≡ self.old.about }
        ensures few { slab_len self.new.callers ≤ slab_len self.old.callers }
        ensures answered { KeepsAnswered self.old.callers self.new.callers }
    {
        if self.has_room() {
            return;
        }
        if let Some(place) = self.oldest_silent() {
            self.close(place);
        }
    }

    // The place of the oldest connection whose request has not come whole.
    fn oldest_silent(&self) -> Option<usize>
        ensures { IfSome result (λ place. IsSilent (get self.now.callers place)) }
    {
        let mut oldest = None;
        let mut since = u64::MAX;
        for place in 0..PLACES {
            if let Some(caller) = self.callers.get(place) {
                if is_head(caller.visit.stage) && caller.since < since {
                    oldest = Some(place);
                    since = caller.since;
                }
            }
        }
        oldest
    }

    /// Notes a report. `false` if its key is not one of these connections'.
    pub fn note_report(&mut self, report: Report) -> bool
        ensures own { result ≡ is_own report.key }
        ensures standing { self.new.standing ≡ self.old.standing }
        ensures about { self.new.about ≡ self.old.about }
    {
        if report.key > FIRST_KEY || report.key <= FIRST_KEY - PLACES {
            return false;
        }
        if let Some(caller) = self.callers.get_mut(FIRST_KEY - report.key) {
            caller.is_readable |= report.is_readable;
            caller.is_writable |= report.is_writable;
        }
        true
    }

    /// Whether the page of one is to be begun.
    pub fn wants_page(&self, place: usize) -> bool {
        match self.callers.get(place) {
            Some(caller) => caller.visit.stage == Stage::Figures,
            None => false,
        }
    }

    /// Begins the page of one.
    pub fn begin_page(&mut self, place: usize, metrics: &Metrics, gauges: &Gauges)
        ensures begins { BeginsAt metrics.now gauges.now (get self.old.callers place) (get self.new.callers place) }
        ensures standing { self.new.standing ≡ self.old.standing }
        ensures about { self.new.about ≡ self.old.about }
    {
        let Some(caller) = self.callers.get_mut(place) else {
            return;
        };
        if caller.visit.begin_page(metrics, gauges).is_err() {
            self.close(place);
        }
    }

    /// One step of a connection. It is closed if its time is up, or it is done with.
    pub fn step(&mut self, place: usize, now: u64)
        ensures said { SaysAt (hosts_of self.old.about) S.told (get self.old.callers place) (get self.new.callers place) self.old.standing self.new.standing }
        ensures sent { SendsAt S.told (get self.old.callers place) (get self.new.callers place) }
        ensures late { IsLate (get self.old.callers place) now → get self.new.callers place ≡ None }
        ensures about { self.new.about ≡ self.old.about }
    {
        if !self.go_on(place, now) {
            self.close(place);
        }
    }

    // One step of a connection, and whether it stays open.
    fn go_on(&mut self, place: usize, now: u64) -> bool
        ensures said { SaysAt (hosts_of self.old.about) S.told (get self.old.callers place) (get self.new.callers place) self.old.standing self.new.standing }
        ensures sent { SendsAt S.told (get self.old.callers place) (get self.new.callers place) }
        ensures late { IsLate (get self.old.callers place) now → result ≡ false }
        ensures about { self.new.about ≡ self.old.about }
    {
        match self.callers.get_mut(place) {
            Some(caller) if now.saturating_sub(caller.since) > PATIENCE => false,
            Some(caller) => caller.step(&self.about, &mut self.standing, now),
            None => true,
        }
    }

    fn close(&mut self, place: usize)
        ensures standing { self.new.standing ≡ self.old.standing }
        ensures about { self.new.about ≡ self.old.about }
        ensures few { slab_len self.new.callers ≤ slab_len self.old.callers }
        ensures others { Updates self.old.callers self.new.callers place None }
        ensures gone { get self.new.callers place ≡ None }
    {
        let _ = self.callers.try_remove(place);
    }
}

impl<S: Peer> Caller<S> {
    fn can_go_on(&self) -> bool {
        match self.visit.stage {
            Stage::Head | Stage::Done => self.is_readable,
            Stage::Figures | Stage::Lines => true,
            Stage::Reply => self.is_writable,
        }
    }

    // One step, and whether it stays open.
    fn step(&mut self, about: &About, standing: &mut Standing, now: u64) -> bool
        ensures sent { self.old.visit.stage ≡ Stage.Reply → Sends (S.told self.old.stream) (S.told self.new.stream) (owed_of self.old.visit) (owed_of self.new.visit) }
        ensures said { SaysBy (hosts_of about.now) (S.told self.old.stream) (S.told self.new.stream) self.old.visit.head.items standing.old standing.new }
    {
        if !self.can_go_on() {
            return true;
        }
        match self.visit.stage {
            Stage::Head | Stage::Done => self.read(about, standing, now),
            Stage::Figures => true,
            Stage::Lines => self.visit.go_on(about).is_ok(),
            Stage::Reply => self.write(),
        }
    }

    // Reads a piece. What comes behind the request is thrown away.
    fn read(&mut self, about: &About, standing: &mut Standing, now: u64) -> bool
        ensures { SaysBy (hosts_of about.now) (S.told self.old.stream) (S.told self.new.stream) self.old.visit.head.items standing.old standing.new }
    {
        let mut buffer = [0u8; PIECE];
        match self.stream.read(&mut buffer) {
            Given::Bytes(count) => {
                let piece = buffer.get(..count).unwrap_or_default();
                self.visit.hear(about, piece, standing, now).is_ok()
            }
            Given::Blocked => {
                self.is_readable = false;
                true
            }
            Given::Ended | Given::Failed => false,
        }
    }

    // Writes a part of the reply, and ends the writing side behind the last.
    fn write(&mut self) -> bool
        ensures { Sends (S.told self.old.stream) (S.told self.new.stream) (owed_of self.old.visit) (owed_of self.new.visit) }
    {
        match self.stream.write(front(self.visit.owed())) {
            Taken::Bytes(0) | Taken::Failed => false,
            Taken::Bytes(count) => {
                self.visit.took(count);
                if self.visit.stage == Stage::Done {
                    self.stream.end_writing();
                }
                true
            }
            Taken::Blocked => {
                self.is_writable = false;
                true
            }
        }
    }
}

// As many of these bytes as one write has at most.
fn front(bytes: &[u8]) -> &[u8]
    ensures { result.now ≡ take 16384 bytes.now }
{
    if bytes.len() > MOST_WRITTEN {
        &bytes[..MOST_WRITTEN]
    } else {
        bytes
    }
}
