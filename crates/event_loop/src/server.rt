//! A server of many connections.
ghost use Rattle.std.specs.Prelude.{◌≡◌, ℕ, None, is_some, OnOk, IfErr, IfOk, IsTrue, IsFalse};
ghost use Rattle.event_loop.specs.Servers.{AreJoined, ComesOfWaiting, FailsBehind, GivesTurns, GoesSomeRounds, IsOver, NobodyIsForgotten, StaysDeaf, lanes_in};
ghost use Rattle.open_connections.specs.Looping.{DoesSome};
ghost use Rattle.open_connections.specs.Shares.{fresh_budgets, limits_in, IsWithin};

use crate::fault::LoopFault;
use crate::rounds::Rounds;
use admin_pages::About;
use connection_turns::Limits;
use open_connections::{Journal, LoopCore, Totals, steps_join};
use socket_poll::{Since, Sockets, System, Time};
use std::alloc::Global;
use std::io::ErrorKind;
use std::marker::Model;
use std::net::{Net, SocketAddr};
use std::time::Clock;

/// A server of many connections. Its value has whether it takes in connections, the grace of a drain that was asked for, and its limits. It has the
/// budgets of memory, with what each connection claims of them. It has the core, with the bytes that each served connection is owed. It also has the
/// bytes that moved on each stream, as far as that shows them. It also has how many connections are open and were accepted, and how many bytes were
/// read and written.
#[derive(Drop)]
pub struct Server<S: System + Drop, C: LoopCore, T: Time + Drop> {
    rounds: Rounds<S, C, T>,
}

impl<S: System + Drop, C: LoopCore, T: Time + Drop> Model for Server<S, C, T> {
    ghost use Rattle.event_loop.specs.Servers.{Serving};
    ghost use Rattle.open_connections.specs.Opened.{claimed, listed, shown, connected_in};
    ghost use Rattle.event_loop.specs.Seats.{seats_of, turns_of};

    ghost Value = { Serving C };

    ghost view = { λ s. record { listens = s.rounds.acceptor.listens; grace = s.rounds.desk.standing.grace; connected = connected_in s.rounds.opened; taken = s.rounds.acceptor.taken; read = s.rounds.opened.read; written = s.rounds.opened.written; limits = s.rounds.limits; budgets = s.rounds.opened.budgets; core = s.rounds.opened.core; lines = listed s.rounds.opened.connections; wires = shown S.Stream.told s.rounds.opened.connections; claims = claimed s.rounds.opened.connections; seats = seats_of s.rounds.opened.connections; turns = turns_of s.rounds.opened; bound = s.rounds.opened.bound; has_missed = s.rounds.opened.has_missed; failed = S.failed s.rounds.system } };
}

impl<'r, R: Net + Clock + AllocGlobal, C: LoopCore> Server<Sockets, C, Since<'r, R>> {
    /// Binds the address.
    ///
    /// # Errors
    ///
    /// `Net` if it cannot be bound, `Memory` if an allocation failed.
    pub fn bind(
        rt: &'r R,
        addr: SocketAddr,
        core: C,
        limits: Limits,
    ) -> Result<Server<Sockets, C, Since<'r, R>>, LoopFault>
        ensures listening { IfOk result (λ server. IsTrue server.listens) }
        ensures unconnected { IfOk result (λ server. server.connected ≡ 0) }
        ensures none_taken { IfOk result (λ server. server.taken ≡ 0) }
        ensures limits { IfOk result (λ server. server.limits ≡ limits) }
        ensures core { IfOk result (λ server. server.core ≡ core) }
        ensures none { IfOk result (λ server. (q : ℕ) → (lanes_in C.steps server).lines q ≡ None) }
        ensures budgets { IfOk result (λ server. server.budgets ≡ fresh_budgets limits.memory) }
        ensures woken { IfOk result (λ server. NobodyIsForgotten server) }
        ensures joined { IfOk result (λ server. AreJoined server) }
    {
        let time = Since::new(rt)?;
        let system = Sockets::bind(rt, rt.alloc(), addr)?;
        Server::over(rt.alloc(), system, time.again(), time, core, limits)
    }

    /// Binds the administration address, and returns the one that is bound. A page of metrics tells of the tenants with these keys, and what the
    /// server is.
    ///
    /// # Errors
    ///
    /// `Net` if it cannot be bound.
    pub fn administer(
        &mut self,
        rt: &'r R,
        addr: SocketAddr,
        keys: Vec<[u8; 16]>,
        about: About,
    ) -> Result<SocketAddr, LoopFault> {
        let bound = self.rounds.system.administer(rt, addr)?;
        self.rounds.keys = keys;
        self.rounds.desk.introduce(about);
        Ok(bound)
    }
}

impl<S: System + Drop, C: LoopCore, T: Time + Drop> Server<S, C, T> {
    /// A server over this system and two clocks: one counts the seconds, and one the time of a turn.
    ///
    /// # Errors
    ///
    /// `Memory` if an allocation failed.
    pub fn over(
        alloc: Global,
        system: S,
        seconds: T,
        turns: T,
        core: C,
        limits: Limits,
    ) -> Result<Server<S, C, T>, LoopFault>
        ensures listening { IfOk result (λ server. IsTrue server.listens) }
        ensures unconnected { IfOk result (λ server. server.connected ≡ 0) }
        ensures none_taken { IfOk result (λ server. server.taken ≡ 0) }
        ensures limits { IfOk result (λ server. server.limits ≡ limits) }
        ensures core { IfOk result (λ server. server.core ≡ core) }
        ensures none { IfOk result (λ server. (q : ℕ) → (lanes_in C.steps server).lines q ≡ None) }
        ensures budgets { IfOk result (λ server. server.budgets ≡ fresh_budgets limits.memory) }
        ensures woken { IfOk result (λ server. NobodyIsForgotten server) }
        ensures joined { IfOk result (λ server. AreJoined server) }
    {
        let rounds = Rounds::new(alloc, system, seconds, turns, core, limits)?;
        Ok(Server { rounds })
    }

    /// The address that is bound.
    ///
    /// # Errors
    ///
    /// `Net` if the system does not tell it, or the server takes in no connection any more.
    pub fn local_addr(&self) -> Result<SocketAddr, LoopFault>
        ensures listening { OnOk result (IsTrue self.now.listens) }
    {
        if !self.rounds.acceptor.listens {
            return Err(LoopFault::Net(ErrorKind::NotConnected));
        }
        Ok(self.rounds.system.local_addr()?)
    }

    /// The system that it runs over.
    pub fn system(&mut self) -> &mut S {
        &mut self.rounds.system
    }

    /// What it has done so far.
    pub fn totals(&self) -> Totals
        ensures connections { result.connections ≡ self.now.taken }
        ensures open_ones { result.connected ≡ self.now.connected }
        ensures bytes_read { result.read ≡ self.now.read }
        ensures bytes_written { result.written ≡ self.now.written }
    {
        self.rounds.totals()
    }

    /// Serves until standard input is closed or a drain is asked for, and then each open connection to its end. Connections that come meanwhile are closed
    /// without a byte. It reports each end of a connection to the journal, and the totals each minute.
    ///
    /// # Errors
    ///
    /// `Net` if the system does not say what is ready, `Memory` if an allocation failed that was not for one connection.
    pub fn serve<J: Journal>(&mut self, journal: &mut J) -> Result<(), LoopFault>
        ensures over { OnOk result (IsOver self.new) }
        ensures steps { DoesSome C.steps (lanes_in C.steps self.old) (lanes_in C.steps self.new) }
        ensures rounds { OnOk result (GoesSomeRounds S.Stream T C.steps S.Stream.told C.waits C.longs self.old self.new) }
        ensures fails { IfErr result (λ fault. FailsBehind S.Stream T C.steps S.Stream.told C.waits C.longs fault self.old self.new) }
        ensures deaf { IsFalse self.old.listens → StaysDeaf C.steps self.old self.new }
        ensures limits { limits_in self.new.budgets ≡ limits_in self.old.budgets }
        ensures joined { AreJoined self.old → AreJoined self.new }
        ensures within { IsWithin self.new.budgets }
    {
        let done = self.run(journal);
        self.is_within();
        done
    }

    // No more memory is held than the limits allow.
    fn is_within(&self)
        ensures { IsWithin self.now.budgets }
    {
        self.rounds.opened.is_within();
    }

    // Goes round until it is over.
    fn run<J: Journal>(&mut self, journal: &mut J) -> Result<(), LoopFault>
        ensures over { OnOk result (IsOver self.new) }
        ensures steps { DoesSome C.steps (lanes_in C.steps self.old) (lanes_in C.steps self.new) }
        ensures rounds { OnOk result (GoesSomeRounds S.Stream T C.steps S.Stream.told C.waits C.longs self.old self.new) }
        ensures fails { IfErr result (λ fault. FailsBehind S.Stream T C.steps S.Stream.told C.waits C.longs fault self.old self.new) }
        ensures deaf { IsFalse self.old.listens → StaysDeaf C.steps self.old self.new }
    {
        steps_join::<C>();
        'rounds: for _gone in 0..u64::MAX {
            if self.is_over() {
                return Ok(());
            }
            self.round(journal)?;
        }
        Err(LoopFault::Net(ErrorKind::Other))
    }

    /// Whether it takes in no connection any more, and none is open.
    pub fn is_over(&self) -> bool
        ensures { IsTrue result → IsOver self.now }
    {
        !self.rounds.acceptor.listens
            && self.rounds.opened.count() == 0
            && self.rounds.desk.is_empty()
    }

    /// One round: waits until something is ready, accepts connections, and gives a turn to each that can make progress. Once it takes in none, it never does
    /// again, and closes those that come.
    ///
    /// # Errors
    ///
    /// Those of [`Server::serve`].
    pub fn step<J: Journal>(&mut self, journal: &mut J) -> Result<(), LoopFault>
        ensures steps { DoesSome C.steps (lanes_in C.steps self.old) (lanes_in C.steps self.new) }
        ensures deaf { IsFalse self.old.listens → StaysDeaf C.steps self.old self.new }
        ensures drains { OnOk result (IsTrue (is_some self.new.grace) → IsFalse self.new.listens) }
        ensures turns { OnOk result (GivesTurns S.Stream T C.steps S.Stream.told C.waits C.longs self.old self.new) }
        ensures woken { NobodyIsForgotten self.old → OnOk result (NobodyIsForgotten self.new) }
        ensures fault { IfErr result (λ fault. ComesOfWaiting fault self.new.failed) }
        ensures limits { limits_in self.new.budgets ≡ limits_in self.old.budgets }
        ensures joined { AreJoined self.old → AreJoined self.new }
        ensures within { IsWithin self.new.budgets }
    {
        let done = self.round(journal);
        self.is_within();
        done
    }

    fn round<J: Journal>(&mut self, journal: &mut J) -> Result<(), LoopFault>
        ensures steps { DoesSome C.steps (lanes_in C.steps self.old) (lanes_in C.steps self.new) }
        ensures deaf { IsFalse self.old.listens → StaysDeaf C.steps self.old self.new }
        ensures drains { OnOk result (IsTrue (is_some self.new.grace) → IsFalse self.new.listens) }
        ensures turns { OnOk result (GivesTurns S.Stream T C.steps S.Stream.told C.waits C.longs self.old self.new) }
        ensures woken { NobodyIsForgotten self.old → OnOk result (NobodyIsForgotten self.new) }
        ensures fault { IfErr result (λ fault. ComesOfWaiting fault self.new.failed) }
    {
        steps_join::<C>();
        self.rounds.step(journal)
    }
}
