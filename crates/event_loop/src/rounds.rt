//! The rounds of a loop: each waits for what is ready, takes connections in, and gives turns.
ghost use Rattle.std.specs.Prelude.{◌≡◌, ◌<◌, ◌^◌, ◌&&◌, [], ℕ, None, is_some, not, IfErr, IfOk, IfSome, OnOk, IsFalse, IsTrue};
ghost use Rattle.std.specs.Bool.{MatchBool};
ghost use Rattle.outbox.specs.Traffic.{IsUnused};
ghost use Rattle.open_connections.specs.Looping.{Stays, Does, DoesSome, DoesOn, DoesAtMost, TurnsAtMost, LetGo};
ghost use Rattle.open_connections.specs.Opened.{lanes_of, connected_in, expiry_at, has_time, is_open_at, is_there, IsPutOff};
ghost use Rattle.open_connections.specs.Joined.{Joined};
ghost use Rattle.open_connections.specs.Shares.{claim_at, fresh_budgets};
ghost use Rattle.event_loop.specs.Drains.{parting_of};
ghost use Rattle.event_loop.specs.Servers.{ComesOfWaiting};
ghost use Rattle.event_loop.specs.Turns.{Follows, GetsTurnAt, GoesRound, ServesOne, TakesTurnAt, TakesTurns};
ghost use Rattle.open_connections.specs.Turns.{OthersStand, StatesStay};
ghost use Rattle.open_connections.specs.Woken.{IsWoken, Passes, Serves, StaysWoken, TakesOff, Wakes};
ghost use Rattle.event_loop.specs.Clocked.{IsNoted, IsRead, NotesMoved};

use crate::fault::LoopFault;
use crate::last_lines::{Holding, LastLines};
use crate::parting::Parting;
use crate::seconds::Seconds;
use admin_connections::Desk;
use connection_turns::{Counts, End, Limits, Outcome};
use open_connections::{Due, Journal, LoopCore, Open, Totals, states_join, steps_join, turns_pass};
use socket_poll::{Accepted, Report, System, Time, Woken};
use std::alloc::Global;
use std::net::SocketAddr;
use std::time::Duration;

/// The most connections that are taken in between two waits.
pub(crate) const ACCEPTS: u32 = 32;

/// The least number of reports that a wait gives where so many connections are ready.
const REPORTS: usize = 1_024;

/// The milliseconds after which a failed accept is tried again.
const RETRY: u64 = 50;

/// The milliseconds between two looks at the time.
const TICK: u64 = 1_000;

/// What accepts connections.
#[derive(Clone, Copy)]
pub(crate) struct Acceptor {
    // It takes in connections. If not, it closes those that come.
    pub listens: bool,
    // A connection may wait to be accepted.
    pub is_asked: bool,
    // The last accept failed.
    pub is_refused: bool,
    // How many were taken in.
    pub taken: u64,
}

/// Where there is room for one more connection.
#[derive(Clone, Copy)]
enum Room {
    /// Beside those that are open.
    Free,
    /// In the place of the one with this key, which has been idle for long.
    Idle(usize),
    /// Nowhere.
    Full,
}

/// What accepts, what is open, and the clock. Each method does steps of the loop: takes a connection in, gives it a turn, serves it no further.
#[derive(Drop)]
pub(crate) struct Rounds<S: System + Drop, C: LoopCore, T: Time + Drop> {
    pub system: S,
    pub acceptor: Acceptor,
    pub opened: Open<S::Stream, C, T>,
    pub seconds: Seconds<T>,
    pub limits: Limits,
    told: LastLines,
    // The connections of the administration address.
    pub desk: Desk<S::Stream>,
    // The keys of the tenants that a page of metrics tells of.
    pub keys: Vec<[u8; 16]>,
    // The second in which the server began to drain.
    pub drained: Option<u64>,
}

impl<S: System + Drop, C: LoopCore, T: Time + Drop> Rounds<S, C, T> {
    /// None is open.
    ///
    /// # Errors
    ///
    /// `Memory` where a growth was refused.
    pub fn new(
        alloc: Global,
        system: S,
        seconds: T,
        turns: T,
        core: C,
        limits: Limits,
    ) -> Result<Rounds<S, C, T>, LoopFault>
        ensures listening { IfOk result (λ rounds. IsTrue rounds.acceptor.listens) }
        ensures unconnected { IfOk result (λ rounds. connected_in rounds.opened ≡ 0) }
        ensures none_taken { IfOk result (λ rounds. rounds.acceptor.taken ≡ 0) }
        ensures limits { IfOk result (λ rounds. rounds.limits ≡ limits) }
        ensures core { IfOk result (λ rounds. rounds.opened.core ≡ core) }
        ensures none { IfOk result (λ rounds. (q : ℕ) → (lanes_of C.steps S.Stream.told rounds.opened).lines q ≡ None) }
        ensures budgets { IfOk result (λ rounds. rounds.opened.budgets ≡ fresh_budgets limits.memory) }
        ensures woken { IfOk result (λ rounds. IsWoken [] rounds.opened) }
        ensures joined { IfOk result (λ rounds. Joined (claim_at rounds.opened.connections) rounds.opened.budgets) }
    {
        let opened = Open::new(alloc, turns, core, limits.memory)?;
        Ok(Rounds {
            system,
            acceptor: Acceptor {
                listens: true,
                is_asked: true,
                is_refused: false,
                taken: 0,
            },
            opened,
            seconds: Seconds::new(seconds),
            limits,
            told: LastLines::new(),
            desk: Desk::new(alloc),
            keys: Vec::new(alloc),
            drained: None,
        })
    }

    /// What was done so far.
    pub fn totals(&self) -> Totals
        ensures connections { result.connections ≡ self.now.acceptor.taken }
        ensures open_ones { result.connected ≡ connected_in self.now.opened }
        ensures bytes_read { result.read ≡ self.now.opened.read }
        ensures bytes_written { result.written ≡ self.now.opened.written }
    {
        let (read, written) = self.opened.bytes();
        Totals {
            connections: self.acceptor.taken,
            connected: self.opened.count(),
            counts: Counts::of(self.opened.metrics()),
            read,
            written,
        }
    }

    /// One round: waits for what is ready, takes in those that wait, and gives each that can go on a turn.
    ///
    /// # Errors
    ///
    /// `Net` where the system does not say what is ready, `Memory` where a growth was refused that no connection asked for.
    pub fn step<J: Journal>(&mut self, journal: &mut J) -> Result<(), LoopFault>
        ensures lanes { DoesSome C.steps (lanes_of C.steps S.Stream.told self.old.opened) (lanes_of C.steps S.Stream.told self.new.opened) }
        ensures deaf { IsFalse self.old.acceptor.listens → IsFalse self.new.acceptor.listens }
        ensures on { IsFalse self.old.acceptor.listens → DoesOn C.steps (lanes_of C.steps S.Stream.told self.old.opened) (lanes_of C.steps S.Stream.told self.new.opened) }
        ensures drains { OnOk result (IsTrue (is_some self.new.desk.standing.grace) → IsFalse self.new.acceptor.listens) }
        ensures turns { OnOk result (GoesRound C.steps S.Stream.told C.waits C.longs self.old.opened self.new.opened) }
        ensures woken { IsWoken [] self.old.opened → OnOk result (IsWoken [] self.new.opened) }
        ensures fault { IfErr result (λ e. ComesOfWaiting e (S.failed self.new.system)) }
    {
        let listens = self.acceptor.listens;
        let done = self.go_round(listens, journal);
        self.stay_deaf(listens);
        done
    }

    // A server that did not listen listens no more.
    fn stay_deaf(&mut self, listens: bool)
        ensures opened { self.new.opened ≡ self.old.opened }
        ensures deaf { IsFalse listens → IsFalse self.new.acceptor.listens }
        ensures fewer { IsFalse self.old.acceptor.listens → IsFalse self.new.acceptor.listens }
        ensures asked { self.new.desk.standing ≡ self.old.desk.standing }
        ensures system { self.new.system ≡ self.old.system }
    {
        self.acceptor.listens = self.acceptor.listens && listens;
    }

    // One round of a server that listens, or does not.
    fn go_round<J: Journal>(&mut self, listens: bool, journal: &mut J) -> Result<(), LoopFault>
        ensures lanes { DoesSome C.steps (lanes_of C.steps S.Stream.told self.old.opened) (lanes_of C.steps S.Stream.told self.new.opened) }
        ensures on { IsFalse listens → DoesOn C.steps (lanes_of C.steps S.Stream.told self.old.opened) (lanes_of C.steps S.Stream.told self.new.opened) }
        ensures drains { OnOk result (IsTrue (is_some self.new.desk.standing.grace) → IsFalse self.new.acceptor.listens) }
        ensures turns { OnOk result (GoesRound C.steps S.Stream.told C.waits C.longs self.old.opened self.new.opened) }
        ensures woken { IsWoken [] self.old.opened → OnOk result (IsWoken [] self.new.opened) }
        ensures fault { IfErr result (λ e. ComesOfWaiting e (S.failed self.new.system)) }
    {
        steps_join::<C>();
        // the clock is read before the wait: what it says of idle connections is so only if nothing was reported since
        let is_later = self.is_later();
        self.wait(is_later)?;
        self.look(is_later, journal);
        self.stay_deaf(listens);
        self.accept(journal);
        self.opened.recall();
        self.take_turns(journal)?;
        self.administer(journal);
        Ok(())
    }

    // Reads the clock, and tells whether a second passed since that was last told.
    fn is_later(&mut self) -> bool
        ensures lanes { Stays (lanes_of C.steps S.Stream.told self.old.opened) (lanes_of C.steps S.Stream.told self.new.opened) }
        ensures woken { StaysWoken self.old.opened self.new.opened }
    {
        self.seconds.is_later()
    }

    // Notes what is ready. Where a second passed, that is all that is ready by now; else it is waited for.
    fn wait(&mut self, is_later: bool) -> Result<(), LoopFault>
        ensures lanes { Stays (lanes_of C.steps S.Stream.told self.old.opened) (lanes_of C.steps S.Stream.told self.new.opened) }
        ensures woken { StaysWoken self.old.opened self.new.opened }
        ensures fault { IfErr result (λ e. ComesOfWaiting e (S.failed self.new.system)) }
    {
        if is_later {
            return self.catch_up();
        }
        self.wait_once(self.most())
    }

    // Notes what is ready by now, a wait's reports at a time.
    fn catch_up(&mut self) -> Result<(), LoopFault>
        ensures lanes { Stays (lanes_of C.steps S.Stream.told self.old.opened) (lanes_of C.steps S.Stream.told self.new.opened) }
        ensures woken { StaysWoken self.old.opened self.new.opened }
        ensures fault { IfErr result (λ e. ComesOfWaiting e (S.failed self.new.system)) }
    {
        'waits: for _ in 0..=self.opened.count() / REPORTS {
            self.wait_once(Duration::from_millis(0))?;
        }
        Ok(())
    }

    // Waits for what is ready, so long at most, and notes it.
    fn wait_once(&mut self, most: Duration) -> Result<(), LoopFault>
        ensures lanes { Stays (lanes_of C.steps S.Stream.told self.old.opened) (lanes_of C.steps S.Stream.told self.new.opened) }
        ensures woken { StaysWoken self.old.opened self.new.opened }
        ensures fault { IfErr result (λ e. ComesOfWaiting e (S.failed self.new.system)) }
    {
        let woken = self.system.wait(most)?;
        self.heed(woken);
        self.note_reports();
        Ok(())
    }

    // How long a wait may last: not at all where a connection can go on or may be taken in, a little where that failed, a second else.
    fn most(&self) -> Duration {
        if self.opened.has_due() || self.desk.has_due() {
            Duration::from_millis(0)
        } else if self.acceptor.is_asked && !(self.acceptor.listens && self.is_full()) {
            Duration::from_millis(if self.acceptor.is_refused { RETRY } else { 0 })
        } else {
            Duration::from_millis(TICK)
        }
    }

    // Whether as many are open as may be.
    fn is_full(&self) -> bool
        ensures { connected_in self.now.opened < self.now.limits.connections → IsFalse result }
    {
        self.opened.count() >= self.limits.connections
    }

    // Notes what came of a wait beside the reports.
    fn heed(&mut self, woken: Woken)
        ensures lanes { Stays (lanes_of C.steps S.Stream.told self.old.opened) (lanes_of C.steps S.Stream.told self.new.opened) }
        ensures woken { StaysWoken self.old.opened self.new.opened }
    {
        self.acceptor.is_asked = self.acceptor.is_asked || woken.is_asked;
        if woken.is_closed {
            self.acceptor.listens = false;
            self.desk.end();
        }
    }

    // Notes what was reported.
    fn note_reports(&mut self)
        ensures lanes { Stays (lanes_of C.steps S.Stream.told self.old.opened) (lanes_of C.steps S.Stream.told self.new.opened) }
        ensures woken { StaysWoken self.old.opened self.new.opened }
    {
        'reports: for number in 0..usize::MAX {
            let Some(report) = self.system.report(number) else {
                return;
            };
            if !self.desk.note_report(report) {
                self.opened.note_report(report);
            }
        }
    }

    // Takes in connections that wait, as long as the limits allow. A server that does not listen closes them.
    fn accept<J: Journal>(&mut self, journal: &mut J)
        ensures lanes { DoesSome C.steps (lanes_of C.steps S.Stream.told self.old.opened) (lanes_of C.steps S.Stream.told self.new.opened) }
        ensures deaf { IsFalse self.old.acceptor.listens → Stays (lanes_of C.steps S.Stream.told self.old.opened) (lanes_of C.steps S.Stream.told self.new.opened) }
        ensures woken { StaysWoken self.old.opened self.new.opened }
        ensures tried { IsTrue self.old.acceptor.listens → IsTrue self.old.acceptor.is_asked → connected_in self.old.opened < self.old.limits.connections → IfSome (S.tried self.new.system) IsTrue }
    {
        self.acceptor.is_refused = false;
        if !self.acceptor.listens {
            self.turn_away();
            return;
        }
        self.accept_some(journal);
    }

    fn accept_some<J: Journal>(&mut self, journal: &mut J)
        ensures lanes { DoesSome C.steps (lanes_of C.steps S.Stream.told self.old.opened) (lanes_of C.steps S.Stream.told self.new.opened) }
        ensures woken { StaysWoken self.old.opened self.new.opened }
        ensures tried { IsTrue (self.old.acceptor.is_asked && not self.old.acceptor.is_refused) → connected_in self.old.opened < self.old.limits.connections → IfSome (S.tried self.new.system) IsTrue }
    {
        steps_join::<C>();
        'accepts: for _accepted in 0..ACCEPTS {
            if !self.accept_next(journal) {
                return;
            }
        }
    }

    // Accepts one, if one may wait and there is room for it, and tells whether that was so.
    fn accept_next<J: Journal>(&mut self, journal: &mut J) -> bool
        ensures lanes { DoesSome C.steps (lanes_of C.steps S.Stream.told self.old.opened) (lanes_of C.steps S.Stream.told self.new.opened) }
        ensures woken { StaysWoken self.old.opened self.new.opened }
        ensures tried { IsTrue (self.old.acceptor.is_asked && not self.old.acceptor.is_refused) → connected_in self.old.opened < self.old.limits.connections → IsTrue result }
        ensures asked { MatchBool result (IfSome (S.tried self.new.system) IsTrue) (S.tried self.new.system ≡ S.tried self.old.system) }
    {
        steps_join::<C>();
        let may_come = self.may_accept();
        if !may_come {
            return false;
        }
        let place = self.place();
        if matches!(place, Room::Full) {
            return false;
        }
        self.accept_one(place, journal);
        true
    }

    pub(crate) fn may_accept(&self) -> bool
        ensures { result ≡ (self.now.acceptor.is_asked && not self.now.acceptor.is_refused) }
    {
        self.acceptor.is_asked && !self.acceptor.is_refused
    }

    // Where there is room for one more.
    fn place(&mut self) -> Room
        ensures lanes { Stays (lanes_of C.steps S.Stream.told self.old.opened) (lanes_of C.steps S.Stream.told self.new.opened) }
        ensures woken { StaysWoken self.old.opened self.new.opened }
        ensures room { connected_in self.old.opened < self.old.limits.connections → result ≡ Room.Free }
        ensures tried { S.tried self.new.system ≡ S.tried self.old.system }
    {
        if self.is_full() {
            self.spare()
        } else {
            Room::Free
        }
    }

    // That of the one that has been idle longest.
    fn spare(&mut self) -> Room
        ensures lanes { Stays (lanes_of C.steps S.Stream.told self.old.opened) (lanes_of C.steps S.Stream.told self.new.opened) }
        ensures woken { StaysWoken self.old.opened self.new.opened }
        ensures tried { S.tried self.new.system ≡ S.tried self.old.system }
    {
        match self.opened.spare(self.seconds.last(), &self.limits) {
            Some(key) => Room::Idle(key),
            None => Room::Full,
        }
    }

    // Accepts one, in this place.
    fn accept_one<J: Journal>(&mut self, place: Room, journal: &mut J)
        ensures lanes { DoesSome C.steps (lanes_of C.steps S.Stream.told self.old.opened) (lanes_of C.steps S.Stream.told self.new.opened) }
        ensures woken { StaysWoken self.old.opened self.new.opened }
        ensures tried { IfSome (S.tried self.new.system) IsTrue }
    {
        match self.system.accept() {
            Accepted::Stream(stream, peer) => self.admit(place, stream, peer, journal),
            Accepted::Blocked => self.acceptor.is_asked = false,
            Accepted::Aborted => {}
            Accepted::Refused => self.make_room(place, journal),
        }
    }

    // No descriptor or no memory is left: one that is idle makes room, and where none is, it is tried again after a wait.
    fn make_room<J: Journal>(&mut self, place: Room, journal: &mut J)
        ensures lanes { DoesSome C.steps (lanes_of C.steps S.Stream.told self.old.opened) (lanes_of C.steps S.Stream.told self.new.opened) }
        ensures woken { StaysWoken self.old.opened self.new.opened }
        ensures tried { S.tried self.new.system ≡ S.tried self.old.system }
    {
        steps_join::<C>();
        let place = self.instead_of(place);
        self.acceptor.is_refused = !matches!(place, Room::Idle(_));
        self.displace(place, journal);
    }

    // A place that is not beside those that are open.
    fn instead_of(&mut self, place: Room) -> Room
        ensures lanes { Stays (lanes_of C.steps S.Stream.told self.old.opened) (lanes_of C.steps S.Stream.told self.new.opened) }
        ensures woken { StaysWoken self.old.opened self.new.opened }
        ensures tried { S.tried self.new.system ≡ S.tried self.old.system }
    {
        match place {
            Room::Free => self.spare(),
            Room::Idle(_) | Room::Full => place,
        }
    }

    // Takes a connection in, once the one in whose place it comes is closed.
    fn admit<J: Journal>(
        &mut self,
        place: Room,
        stream: S::Stream,
        peer: SocketAddr,
        journal: &mut J,
    )
        requires { IsUnused (S.Stream.told stream) }
        ensures lanes { DoesSome C.steps (lanes_of C.steps S.Stream.told self.old.opened) (lanes_of C.steps S.Stream.told self.new.opened) }
        ensures woken { StaysWoken self.old.opened self.new.opened }
        ensures tried { S.tried self.new.system ≡ S.tried self.old.system }
    {
        steps_join::<C>();
        self.displace(place, journal);
        self.take_in(stream, peer);
    }

    // Closes one that makes room.
    fn displace<J: Journal>(&mut self, place: Room, journal: &mut J)
        ensures lanes { DoesSome C.steps (lanes_of C.steps S.Stream.told self.old.opened) (lanes_of C.steps S.Stream.told self.new.opened) }
        ensures woken { StaysWoken self.old.opened self.new.opened }
        ensures tried { S.tried self.new.system ≡ S.tried self.old.system }
    {
        turns_pass::<S::Stream, C, T>();
        match place {
            Room::Idle(key) => self.finish(key, End::Displaced, journal),
            Room::Free | Room::Full => {}
        }
    }

    // Takes a connection in. Where memory is refused, or it can't be waited for, it is closed.
    fn take_in(&mut self, mut stream: S::Stream, peer: SocketAddr)
        requires { IsUnused (S.Stream.told stream) }
        ensures lanes { DoesSome C.steps (lanes_of C.steps S.Stream.told self.old.opened) (lanes_of C.steps S.Stream.told self.new.opened) }
        ensures woken { StaysWoken self.old.opened self.new.opened }
        ensures tried { S.tried self.new.system ≡ S.tried self.old.system }
    {
        steps_join::<C>();
        let Some(key) = self.opened.vacant() else {
            return;
        };
        if !self.system.watch(&mut stream, key) {
            return;
        }
        self.open(key, stream, peer);
    }

    // Opens a connection under a key, and counts it.
    fn open(&mut self, key: usize, stream: S::Stream, peer: SocketAddr)
        requires { IsUnused (S.Stream.told stream) }
        ensures lanes { DoesSome C.steps (lanes_of C.steps S.Stream.told self.old.opened) (lanes_of C.steps S.Stream.told self.new.opened) }
        ensures woken { StaysWoken self.old.opened self.new.opened }
        ensures tried { S.tried self.new.system ≡ S.tried self.old.system }
    {
        let number = self.acceptor.taken;
        let is_taken = self
            .opened
            .take_in(key, number, peer, stream, self.seconds.last());
        self.acceptor.taken = number.saturating_add(u64::from(is_taken));
    }

    // One turn for each connection that is due.
    fn take_turns<J: Journal>(&mut self, journal: &mut J) -> Result<(), LoopFault>
        ensures lanes { DoesOn C.steps (lanes_of C.steps S.Stream.told self.old.opened) (lanes_of C.steps S.Stream.told self.new.opened) }
        ensures each { OnOk result (TakesTurns C.steps S.Stream.told C.waits C.longs self.old.opened self.new.opened) }
        ensures woken { IsWoken [] self.old.opened → OnOk result (IsWoken [] self.new.opened) }
        ensures refused { IfErr result (λ e. e ≡ LoopFault.Memory) }
    {
        steps_join::<C>();
        let list = self.opened.take_due()?;
        'turns: for due in &list {
            self.serve(*due, journal)?;
        }
        self.opened.give_back(list);
        Ok(())
    }

    // One turn for a connection that is due, where there is time for it in this round, and it was not closed since.
    fn serve<J: Journal>(&mut self, due: Due, journal: &mut J) -> Result<(), LoopFault>
        ensures lanes { DoesOn C.steps (lanes_of C.steps S.Stream.told self.old.opened) (lanes_of C.steps S.Stream.told self.new.opened) }
        ensures kept { IsFalse (has_time C.longs due self.old.opened) → OnOk result (IsPutOff due self.old.opened self.new.opened) }
        ensures gone { IsFalse (is_there due self.old.opened) → Stays (lanes_of C.steps S.Stream.told self.old.opened) (lanes_of C.steps S.Stream.told self.new.opened) }
        ensures serves { OnOk result (ServesOne C.steps S.Stream.told C.waits C.longs due self.old.opened self.new.opened) }
        ensures woken { OnOk result (Passes due self.old.opened self.new.opened) }
        ensures refused { IfErr result (λ e. e ≡ LoopFault.Memory) }
    {
        turns_pass::<S::Stream, C, T>();
        if !self.opened.has_time(due) {
            return self.put_off(due);
        }
        if !self.opened.is_there(due) {
            return Ok(());
        }
        self.take_turn(due.key, journal);
        Ok(())
    }

    // Its turn comes in the next round.
    fn put_off(&mut self, due: Due) -> Result<(), LoopFault>
        ensures lanes { Stays (lanes_of C.steps S.Stream.told self.old.opened) (lanes_of C.steps S.Stream.told self.new.opened) }
        ensures ready { StatesStay self.old.opened self.new.opened }
        ensures kept { OnOk result (IsPutOff due self.old.opened self.new.opened) }
        ensures woken { OnOk result (Passes due self.old.opened self.new.opened) }
        ensures refused { IfErr result (λ e. e ≡ LoopFault.Memory) }
    {
        Ok(self.opened.put_off(due)?)
    }

    // One turn for a connection, and what follows from it.
    fn take_turn<J: Journal>(&mut self, key: usize, journal: &mut J)
        ensures lanes { DoesOn C.steps (lanes_of C.steps S.Stream.told self.old.opened) (lanes_of C.steps S.Stream.told self.new.opened) }
        ensures takes { IsTrue (is_open_at key self.old.opened) → key < 2 ^ 32 → TakesTurnAt C.steps S.Stream.told C.waits key self.old.opened self.new.opened }
        ensures woken { Serves key self.old.opened self.new.opened }
    {
        steps_join::<C>();
        states_join::<S::Stream, C, T>();
        let outcome = self.turn(key);
        self.follow(key, outcome, journal);
    }

    // One turn for a connection. If bytes moved, the second that the clock tells behind it is noted.
    fn turn(&mut self, key: usize) -> Outcome
        ensures lanes { TurnsAtMost C.steps key (lanes_of C.steps S.Stream.told self.old.opened) (lanes_of C.steps S.Stream.told self.new.opened) }
        ensures others { OthersStand key self.old.opened self.new.opened }
        ensures clock { NotesMoved key self.old.opened self.new.opened self.new.seconds.counted self.new.seconds.last }
        ensures gets { key < 2 ^ 32 → (turned : Open S.Stream C T) × GetsTurnAt C.steps S.Stream.told C.waits key result self.old.opened turned × Stays (lanes_of C.steps S.Stream.told turned) (lanes_of C.steps S.Stream.told self.new.opened) × StatesStay turned self.new.opened × (self.new.opened.core ≡ turned.core) }
        ensures there { is_open_at key self.new.opened ≡ is_open_at key self.old.opened }
        ensures woken { TakesOff key self.old.opened self.new.opened }
    {
        steps_join::<C>();
        states_join::<S::Stream, C, T>();
        let (outcome, has_moved) = self.opened.turn(key, self.seconds.last());
        self.mark_moved(key, has_moved);
        outcome
    }

    // If bytes moved on a connection, notes when.
    fn mark_moved(&mut self, key: usize, has_moved: bool)
        ensures lanes { Stays (lanes_of C.steps S.Stream.told self.old.opened) (lanes_of C.steps S.Stream.told self.new.opened) }
        ensures ready { StatesStay self.old.opened self.new.opened }
        ensures core { self.new.opened.core ≡ self.old.opened.core }
        ensures clock { IsTrue has_moved → IsNoted key self.new.opened self.new.seconds.counted self.new.seconds.last }
        ensures read { IsTrue has_moved → IsRead T.tells self.old.seconds.time self.old.seconds.last self.new.seconds.last }
        ensures there { is_open_at key self.new.opened ≡ is_open_at key self.old.opened }
        ensures woken { StaysWoken self.old.opened self.new.opened }
    {
        if !has_moved {
            return;
        }
        let now = self.seconds.read_behind(self.opened.bytes());
        self.opened.mark_moved(key, now);
    }

    // What follows from a turn.
    fn follow<J: Journal>(&mut self, key: usize, outcome: Outcome, journal: &mut J)
        ensures lanes { DoesAtMost C.steps (LetGo key) (lanes_of C.steps S.Stream.told self.old.opened) (lanes_of C.steps S.Stream.told self.new.opened) }
        ensures others { OthersStand key self.old.opened self.new.opened }
        ensures follows { IsTrue (is_open_at key self.old.opened) → key < 2 ^ 32 → Follows C.steps S.Stream.told key outcome self.old.opened self.new.opened }
        ensures woken { Wakes key self.old.opened self.new.opened }
    {
        match outcome {
            Outcome::Over(how) => self.finish(key, how, journal),
            Outcome::Closed => self.close(key),
            Outcome::Open => self.go_on(key, journal),
        }
    }

    // After a turn at a connection that is open.
    fn go_on<J: Journal>(&mut self, key: usize, journal: &mut J)
        ensures lanes { DoesAtMost C.steps (LetGo key) (lanes_of C.steps S.Stream.told self.old.opened) (lanes_of C.steps S.Stream.told self.new.opened) }
        ensures others { OthersStand key self.old.opened self.new.opened }
        ensures follows { IsTrue (is_open_at key self.old.opened) → key < 2 ^ 32 → Follows C.steps S.Stream.told key Outcome.Open self.old.opened self.new.opened }
        ensures woken { Wakes key self.old.opened self.new.opened }
    {
        steps_join::<C>();
        states_join::<S::Stream, C, T>();
        self.tell_slow(journal);
        match self.opened.settle(key, self.seconds.last()) {
            Ok(()) => {}
            Err(_) => self.finish(key, End::Memory, journal),
        }
    }

    // Tells the journal of a slow query.
    fn tell_slow<J: Journal>(&mut self, journal: &mut J)
        ensures lanes { Stays (lanes_of C.steps S.Stream.told self.old.opened) (lanes_of C.steps S.Stream.told self.new.opened) }
        ensures ready { StatesStay self.old.opened self.new.opened }
        ensures core { self.new.opened.core ≡ self.old.opened.core }
        ensures woken { StaysWoken self.old.opened self.new.opened }
    {
        if let Some(slow) = self.opened.take_slow() {
            journal.slow(&slow);
        }
    }

    // A connection that is over is closed. Where bytes may be unread, what still comes is read for a little while before, since a close
    // with bytes unread can take the last replies with it.
    pub fn finish<J: Journal>(&mut self, key: usize, how: End, journal: &mut J)
        ensures lanes { DoesAtMost C.steps (LetGo key) (lanes_of C.steps S.Stream.told self.old.opened) (lanes_of C.steps S.Stream.told self.new.opened) }
        ensures others { OthersStand key self.old.opened self.new.opened }
        ensures closes { IsTrue (is_open_at key self.old.opened) → key < 2 ^ 32 → Does C.steps (LetGo key) (lanes_of C.steps S.Stream.told self.old.opened) (lanes_of C.steps S.Stream.told self.new.opened) }
        ensures woken { Wakes key self.old.opened self.new.opened }
        ensures tried { S.tried self.new.system ≡ S.tried self.old.system }
    {
        self.tell_end(key, how, journal);
        match how {
            End::FrameFault | End::Memory | End::Drained => self.linger(key),
            _ => self.close(key),
        }
    }

    // Tells the journal how a connection ended.
    pub(crate) fn tell_end<J: Journal>(&self, key: usize, how: End, journal: &mut J) {
        if let Some(ending) = self.opened.ending(key, how) {
            journal.ended(&ending);
        }
    }

    fn linger(&mut self, key: usize)
        ensures lanes { DoesAtMost C.steps (LetGo key) (lanes_of C.steps S.Stream.told self.old.opened) (lanes_of C.steps S.Stream.told self.new.opened) }
        ensures others { OthersStand key self.old.opened self.new.opened }
        ensures closes { IsTrue (is_open_at key self.old.opened) → key < 2 ^ 32 → Does C.steps (LetGo key) (lanes_of C.steps S.Stream.told self.old.opened) (lanes_of C.steps S.Stream.told self.new.opened) }
        ensures woken { Wakes key self.old.opened self.new.opened }
        ensures tried { S.tried self.new.system ≡ S.tried self.old.system }
    {
        self.opened.linger(key, self.seconds.last());
    }

    pub(crate) fn close(&mut self, key: usize)
        ensures lanes { DoesAtMost C.steps (LetGo key) (lanes_of C.steps S.Stream.told self.old.opened) (lanes_of C.steps S.Stream.told self.new.opened) }
        ensures others { OthersStand key self.old.opened self.new.opened }
        ensures closes { IsTrue (is_open_at key self.old.opened) → key < 2 ^ 32 → Does C.steps (LetGo key) (lanes_of C.steps S.Stream.told self.old.opened) (lanes_of C.steps S.Stream.told self.new.opened) }
        ensures woken { Wakes key self.old.opened self.new.opened }
        ensures tried { S.tried self.new.system ≡ S.tried self.old.system }
    {
        self.opened.close(key, self.seconds.last());
    }

    // Where a second passed, connections whose time is up are closed, and the journal is told what there is to tell.
    fn look<J: Journal>(&mut self, is_later: bool, journal: &mut J)
        ensures lanes { DoesOn C.steps (lanes_of C.steps S.Stream.told self.old.opened) (lanes_of C.steps S.Stream.told self.new.opened) }
        ensures woken { StaysWoken self.old.opened self.new.opened }
    {
        steps_join::<C>();
        if !is_later {
            return;
        }
        self.tick(journal);
        self.tell_journal(journal);
    }

    // Closes the connections whose time is up.
    fn tick<J: Journal>(&mut self, journal: &mut J)
        ensures lanes { DoesOn C.steps (lanes_of C.steps S.Stream.told self.old.opened) (lanes_of C.steps S.Stream.told self.new.opened) }
        ensures woken { StaysWoken self.old.opened self.new.opened }
    {
        steps_join::<C>();
        'keys: for key in 0..self.opened.bound() {
            self.expire(key, journal);
        }
    }

    // Closes a connection whose time is up.
    fn expire<J: Journal>(&mut self, key: usize, journal: &mut J)
        ensures lanes { DoesAtMost C.steps (LetGo key) (lanes_of C.steps S.Stream.told self.old.opened) (lanes_of C.steps S.Stream.told self.new.opened) }
        ensures spares { expiry_at key self.old.seconds.last self.old.limits self.old.opened ≡ Outcome.Open → parting_of self.old.drained self.old.desk.standing.grace self.old.seconds.last ≡ Parting.Served → Stays (lanes_of C.steps S.Stream.told self.old.opened) (lanes_of C.steps S.Stream.told self.new.opened) }
        ensures woken { StaysWoken self.old.opened self.new.opened }
    {
        match self.opened.expiry(key, self.seconds.last(), &self.limits) {
            Outcome::Over(how) => self.finish(key, how, journal),
            Outcome::Closed => self.close(key),
            Outcome::Open => self.tend(key, journal),
        }
    }

    // Has a connection that is owed bytes try to write, and does what a drain does to it. The system reports room only once a third of its buffer
    // is free: a slow peer takes a minute and more for that.
    fn tend<J: Journal>(&mut self, key: usize, journal: &mut J)
        ensures lanes { DoesAtMost C.steps (LetGo key) (lanes_of C.steps S.Stream.told self.old.opened) (lanes_of C.steps S.Stream.told self.new.opened) }
        ensures served { parting_of self.old.drained self.old.desk.standing.grace self.old.seconds.last ≡ Parting.Served → Stays (lanes_of C.steps S.Stream.told self.old.opened) (lanes_of C.steps S.Stream.told self.new.opened) }
        ensures woken { StaysWoken self.old.opened self.new.opened }
    {
        steps_join::<C>();
        if !self.opened.rests(key) {
            self.opened.note_report(room_at(key));
        }
        self.drain(key, journal);
    }

    // Tells the journal what there is to tell.
    fn tell_journal<J: Journal>(&mut self, journal: &mut J)
        ensures lanes { Stays (lanes_of C.steps S.Stream.told self.old.opened) (lanes_of C.steps S.Stream.told self.new.opened) }
        ensures woken { StaysWoken self.old.opened self.new.opened }
    {
        let holding = Holding {
            connections: self.acceptor.listens && self.acceptor.is_asked && self.is_full(),
            descriptors: self.acceptor.is_refused,
            memory: self.opened.is_short(),
        };
        let totals = self.totals();
        self.told
            .tell_lines(self.seconds.last(), &holding, &totals, journal);
    }
}

// A report that a connection may take bytes, which nobody gave.
fn room_at(key: usize) -> Report {
    Report {
        key,
        is_readable: false,
        is_writable: true,
        is_ending: false,
        is_urgent: false,
        is_gone: false,
    }
}
