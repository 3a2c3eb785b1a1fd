//! The connections that are open, the core that answers them, and the memory that they share.
ghost use Rattle.std.specs.Prelude.{Bool, nat_lt, ◌≡◌, ◌<◌, ◌-◌, ◌^◌, ◌++◌, ◌&&◌, [], ℕ, None, IfOk, OnErr, OnOk, IfSome, IsTrue, IsFalse};
ghost use Rattle.std.specs.Option.{option_map};
ghost use Rattle.slab.specs.Slab.{get, slab_len};
ghost use Rattle.open_connections.specs.Looping.{Stays, Does, DoesAtMost, PassedBy, TurnsAtMost, TakenIn, LetGo};
ghost use Rattle.std.specs.Bool.{MatchBool};
ghost use Rattle.outbox.specs.Traffic.{IsUnused};
ghost use Rattle.connection_turns.specs.Owed.{is_lost};
ghost use Rattle.connection_turns.specs.Turning.{is_answering};
ghost use Rattle.due_list.specs.Long.{begun, is_crowded};
ghost use Rattle.due_list.specs.Rounds.{IsFresh, after_turn, party_of};
ghost use Rattle.open_connections.specs.Opened.{lanes_of, bytes_of, expiry_at, has_time, is_long, is_there, is_open_at, owes_much, IsMarked, IsPutOff, IsStanding, IsListed, IsAsDue, is_due_in, HasLeft, lost_at, rests_at, tenant_at};
ghost use Rattle.open_connections.specs.Joined.{Joined};
ghost use Rattle.open_connections.specs.Shares.{fresh_budgets, left_of, limit_of, IsWithin, IsGivenBack, claim_at};
ghost use Rattle.open_connections.specs.Turns.{AreCovered, ClaimsStay, GetsTurn, HasTurnBy, IsLeft, IsShort, OthersStand, Prepares, StatesStay, held_at, plan_at};
ghost use Rattle.open_connections.specs.Woken.{Hands, IsWoken, Passes, Recalls, StaysWoken, TakesOff, TurnsStay, Wakes, WakesOthers, is_awake};

use crate::bounds::share_of;
use crate::budgets::Budgets;
use crate::needs::{has_part, piece_of};
use crate::numbers::{added, conn_of, has_moved};
use crate::waiting::{Waiting, waiting_among};
use admin_pages::Metrics;
use connection_turns::{
    Ahead, Connection, Counted, End, Ending, Limits, LoopCore, Outcome, Phase, Pool, Slow, TurnPlan,
};
use due_list::{Due, DueList};
use outbox::CAP;
use slab::Slab;
use socket_poll::{Peer, Report, Time};
use std::alloc::{AllocError, Global};
use std::net::SocketAddr;
use tenant_map::Usage;
use wire_frames::MOST_REPLY;

/// The most bytes that one turn reads.
pub(crate) const PIECE: usize = 65_536;

/// No connection's key is so large.
const KEYS: usize = 1 << 32;

/// The room in which a turn may answer whatever waits: it answers while less than the cap is owed.
const ROOM: usize = CAP + MOST_REPLY;

/// The connections that are open.
#[derive(Drop)]
pub struct Open<S: Peer, C: LoopCore, T: Time + Drop> {
    alloc: Global,
    pub(crate) connections: Slab<Connection<S>>,
    pub(crate) core: Counted<C, T>,
    pub(crate) budgets: Budgets,
    buffer: Box<[u8; PIECE]>,
    // No key was above it.
    pub(crate) bound: usize,
    // Those that get a turn.
    due: DueList,
    // Memory for that list was refused: all connections are looked at before the next round.
    has_missed: bool,
    // Those that make room for others, the longest idle last, each with the second since which it is, and when they were looked for.
    pub(crate) idle: Vec<(u64, usize)>,
    pub(crate) looked: Option<u64>,
    // The bytes that were read and written.
    read: u64,
    written: u64,
}

impl<S: Peer, C: LoopCore, T: Time + Drop> Open<S, C, T> {
    /// None is open.
    pub fn new(alloc: Global, time: T, core: C, memory: usize) -> Result<Open<S, C, T>, AllocError>
        ensures empty { IfOk result (λ opened. slab_len opened.connections ≡ 0) }
        ensures unread { IfOk result (λ opened. opened.read ≡ 0) }
        ensures unwritten { IfOk result (λ opened. opened.written ≡ 0) }
        ensures core { IfOk result (λ opened. opened.core ≡ core) }
        ensures none { IfOk result (λ opened. (q : ℕ) → (lanes_of C.steps S.told opened).lines q ≡ None) }
        ensures budgets { IfOk result (λ opened. opened.budgets ≡ fresh_budgets memory) }
        ensures woken { IfOk result (λ opened. IsWoken [] opened) }
        ensures joined { IfOk result (λ opened. Joined (claim_at opened.connections) opened.budgets) }
    {
        let buffer = match Box::new(alloc, [0; PIECE]) {
            Ok(buffer) => buffer,
            Err(_) => return Err(AllocError),
        };
        let budgets = Budgets::new(alloc, memory)?;
        Ok(Open {
            alloc,
            connections: Slab::new(alloc),
            core: Counted::new(time, core),
            budgets,
            buffer,
            bound: 0,
            due: DueList::new(alloc),
            has_missed: false,
            idle: Vec::new(alloc),
            looked: None,
            read: 0,
            written: 0,
        })
    }

    /// No more memory is held than the limits allow: the function does nothing, and its contract says it.
    pub fn is_within(&self)
        ensures { IsWithin self.now.budgets }
    {
        self.budgets.are_within();
    }

    /// How many are open.
    pub fn count(&self) -> usize
        ensures { result ≡ slab_len self.now.connections }
    {
        self.connections.len()
    }

    /// No key was so large.
    pub fn bound(&self) -> usize {
        self.bound
    }

    /// The last slow query, which is told once.
    pub fn take_slow(&mut self) -> Option<Slow>
        ensures lanes { Stays (lanes_of C.steps S.told self.old) (lanes_of C.steps S.told self.new) }
        ensures ready { StatesStay self.old self.new }
        ensures core { self.new.core ≡ self.old.core }
        ensures woken { StaysWoken self.old self.new }
    {
        self.core.take_slow()
    }

    /// What was counted of requests.
    pub fn metrics(&self) -> &Metrics
        ensures { result.now ≡ C.counted self.now.core }
    {
        self.core.inner().metrics()
    }

    /// How much the tenant with this key holds.
    pub fn usage(&self, key: &[u8; 16]) -> Option<Usage>
        ensures { result ≡ C.held key.now self.now.core }
    {
        self.core.inner().usage(key)
    }

    /// The bytes of memory that the documents of the tenant with this key take. 0 if there is none.
    pub fn memory_of(&self, key: &[u8; 16]) -> u64 {
        self.core.inner().memory(key)
    }

    /// The bytes that connections hold of the budgets, and those that there are.
    pub fn memory(&self) -> (usize, usize)
        ensures { result ≡ (limit_of self.now.budgets - left_of self.now.budgets, limit_of self.now.budgets) }
    {
        self.budgets.held_and_limit()
    }

    /// How many connections wait for some.
    pub fn waiting(&self) -> Waiting {
        waiting_among(&self.connections, self.bound)
    }

    /// The bytes that were read and written.
    pub fn bytes(&self) -> (u64, u64)
        ensures read { result.0 ≡ self.now.read }
        ensures written { result.1 ≡ self.now.written }
    {
        (self.read, self.written)
    }

    /// Whether a connection can go on.
    pub fn has_due(&self) -> bool {
        self.has_missed || !self.due.is_empty()
    }

    /// Whether connections wait for memory.
    pub fn is_short(&self) -> bool {
        self.budgets.is_waited_for(Pool::Tenants) || self.budgets.is_waited_for(Pool::Strangers)
    }

    /// The key that the next connection gets, and whether there is room for it.
    pub fn vacant(&mut self) -> Option<usize>
        ensures lanes { Stays (lanes_of C.steps S.told self.old) (lanes_of C.steps S.told self.new) }
        ensures woken { StaysWoken self.old self.new }
    {
        let room = self.count().saturating_add(1);
        let has_room = self.due.reserve(room) && self.connections.reserve(1).is_ok();
        if has_room {
            Some(self.connections.vacant_key())
        } else {
            None
        }
    }

    /// Takes a connection in under a key, which is the next one. `false` where it is not, or a growth is refused.
    pub fn take_in(
        &mut self,
        key: usize,
        number: u64,
        peer: SocketAddr,
        stream: S,
        now: u64,
    ) -> bool
        requires { IsUnused (S.told stream) }
        ensures lanes { MatchBool result (Does C.steps (TakenIn key) (lanes_of C.steps S.told self.old) (lanes_of C.steps S.told self.new)) (Stays (lanes_of C.steps S.told self.old) (lanes_of C.steps S.told self.new)) }
        ensures budgets { self.new.budgets ≡ self.old.budgets }
        ensures woken { StaysWoken self.old self.new }
    {
        let Some(conn) = conn_of(key) else {
            return false;
        };
        if self.connections.vacant_key() != key || self.connections.reserve(1).is_err() {
            return false;
        }
        if !self.core.connect(conn) {
            return false;
        }
        let connection = Connection::new(self.alloc, number, peer, stream, now);
        self.connections.insert_reserved(connection);
        self.bound = self.bound.max(key.saturating_add(1));
        true
    }

    /// Notes a report, and that the connection gets a turn.
    pub fn note_report(&mut self, report: Report)
        ensures lanes { Stays (lanes_of C.steps S.told self.old) (lanes_of C.steps S.told self.new) }
        ensures awake { IsTrue (is_awake report.key self.new) }
        ensures woken { Wakes report.key self.old self.new }
    {
        self.hear(report);
        self.give_turn(report.key);
    }

    // Notes a report.
    fn hear(&mut self, report: Report)
        ensures lanes { Stays (lanes_of C.steps S.told self.old) (lanes_of C.steps S.told self.new) }
        ensures woken { WakesOthers report.key self.old self.new }
    {
        if let Some(connection) = self.connections.get_mut(report.key) {
            connection.note_report(report);
        }
    }

    /// Begins a round, and hands out those that get a turn in it, in order. The list comes back by [`Open::give_back`].
    pub fn take_due(&mut self) -> Result<Vec<Due>, AllocError>
        ensures lanes { Stays (lanes_of C.steps S.told self.old) (lanes_of C.steps S.told self.new) }
        ensures connections { self.new.connections ≡ self.old.connections }
        ensures all { IfOk result (λ list. list.items ≡ self.old.due.first.items ++ self.old.due.rest.items) }
        ensures fresh { OnOk result (IsFresh self.new.due) }
        ensures woken { IfOk result (λ list. Hands list.items self.old self.new) }
    {
        self.due.take()
    }

    /// Where memory for the list of turns was refused, looks at each connection: one that can go on gets a turn.
    pub fn recall(&mut self)
        ensures lanes { Stays (lanes_of C.steps S.told self.old) (lanes_of C.steps S.told self.new) }
        ensures stand { TurnsStay self.old self.new }
        ensures woken { Recalls self.old self.new }
    {
        if !self.has_missed {
            return;
        }
        self.has_missed = false;
        'keys: for key in 0..self.bound {
            self.give_turn(key);
        }
    }

    /// Whether a connection gets its turn in this round. Where the turns of its tenant took long in it, it is put off. So is one that asks what may take long,
    /// while others do. The connection itself is not looked at where its tenant has no time left, so that passing over many is quick.
    pub fn has_time(&self, due: Due) -> bool
        ensures { result ≡ has_time C.longs due self.now }
    {
        self.due.has_span(due) && self.due.has_time(due, self.is_long(due.key))
    }

    // Whether a turn of a connection may take long. It is looked at only where turns took long lately, or where the connection has a share of memory.
    fn is_long(&self, key: usize) -> bool
        ensures { result ≡ is_long C.longs key self.now }
    {
        match conn_of(key) {
            Some(conn) => {
                (self.due.is_crowded() || self.claim_of(key).is_some())
                    && (self.owes_much(key) || self.core.inner().front(conn).is_long)
            }
            None => false,
        }
    }

    // Whether so much is owed on a connection that it takes long to write.
    fn owes_much(&self, key: usize) -> bool
        ensures { result ≡ owes_much key self.now }
    {
        match self.connections.get(key) {
            Some(connection) => connection.outbox.owed().len() > PIECE,
            None => false,
        }
    }

    /// Whether the connection of a turn is open still.
    pub fn is_there(&self, due: Due) -> bool
        ensures { result ≡ is_there due self.now }
    {
        match self.connections.get(due.key) {
            Some(connection) => connection.number == due.number && due.key < KEYS,
            None => false,
        }
    }

    /// Has a turn come in the next round, before the turns of those that had one in this round.
    pub fn put_off(&mut self, due: Due) -> Result<(), AllocError>
        ensures lanes { Stays (lanes_of C.steps S.told self.old) (lanes_of C.steps S.told self.new) }
        ensures ready { StatesStay self.old self.new }
        ensures kept { OnOk result (IsPutOff due self.old self.new) }
        ensures woken { OnOk result (Passes due self.old self.new) }
    {
        self.due.put_off(due)
    }

    /// The list of a round.
    pub fn give_back(&mut self, list: Vec<Due>)
        ensures lanes { Stays (lanes_of C.steps S.told self.old) (lanes_of C.steps S.told self.new) }
        ensures ready { StatesStay self.old self.new }
        ensures first { self.new.due.first.items ≡ self.old.due.first.items }
        ensures woken { StaysWoken self.old self.new }
    {
        self.due.give_back(list);
    }

    // Whether a connection is served although its peer is gone.
    fn is_lost(&self, key: usize) -> bool
        ensures { result ≡ lost_at key self.now }
    {
        match self.connections.get(key) {
            Some(connection) => connection.is_lost(),
            None => false,
        }
    }

    /// One turn for a connection, and whether bytes moved. Where the peer is gone, nothing is done any more.
    pub fn turn(&mut self, key: usize, now: u64) -> (Outcome, bool)
        ensures lanes { TurnsAtMost C.steps key (lanes_of C.steps S.told self.old) (lanes_of C.steps S.told self.new) }
        ensures others { OthersStand key self.old self.new }
        ensures bytes { IsFalse result.1 → bytes_of self.new ≡ bytes_of self.old }
        ensures lost { IsTrue (lost_at key self.old) → result.0 ≡ Outcome.Over End.ReadFault }
        ensures idle { IsTrue (lost_at key self.old) → IsLeft C.steps S.told key self.old self.new }
        ensures given { IfSome (get self.old.connections key) (λ c. key < 2 ^ 32 → IsFalse (is_lost c) → GetsTurn C.steps S.told C.waits key c result.0 self.old self.new) }
        ensures there { is_open_at key self.new ≡ is_open_at key self.old }
        ensures woken { TakesOff key self.old self.new }
    {
        if self.is_lost(key) {
            self.take_off(key);
            return (Outcome::Over(End::ReadFault), false);
        }
        match self.prepare(key, now) {
            Ok(plan) => self.work(key, plan),
            Err(outcome) => (outcome, false),
        }
    }

    // A connection is due no more.
    fn take_off(&mut self, key: usize)
        ensures lanes { PassedBy key (lanes_of C.steps S.told self.old) (lanes_of C.steps S.told self.new) }
        ensures ready { StatesStay self.old self.new }
        ensures core { self.new.core ≡ self.old.core }
        ensures there { is_open_at key self.new ≡ is_open_at key self.old }
        ensures woken { TakesOff key self.old self.new }
    {
        if let Some(connection) = self.connections.get_mut(key) {
            connection.is_due = false;
        }
    }

    // What the turn of a connection does, which is due no more; an error is what comes of one that does nothing.
    fn prepare(&mut self, key: usize, now: u64) -> Result<TurnPlan, Outcome>
        ensures lanes { PassedBy key (lanes_of C.steps S.told self.old) (lanes_of C.steps S.told self.new) }
        ensures ready { StatesStay self.old self.new }
        ensures core { self.new.core ≡ self.old.core }
        ensures plan { IfSome (get self.old.connections key) (λ c. key < 2 ^ 32 → Prepares C.waits key (plan_at c self.old) result self.old self.new) }
        ensures covered { IfOk result (λ plan. plan ≡ TurnPlan.Answer → AreCovered C.steps key self.old self.new) }
        ensures short { OnErr result (key < 2 ^ 32 → IfSome (get self.old.connections key) (λ _. IsShort C.steps key self.old)) }
        ensures held { IfOk result (λ plan. IsTrue (is_answering plan) → key < 2 ^ 32 → IfSome (get self.old.connections key) (λ _. IsFalse (held_at C.waits C.longs key self.new))) }
        ensures woken { TakesOff key self.old self.new }
    {
        let Some(plan) = self.plan(key) else {
            return Err(Outcome::Closed);
        };
        if self.stands_by(key, plan) {
            self.yield_reply(key, now);
            return Ok(TurnPlan::Write);
        }
        match plan {
            TurnPlan::Answer => self.prepare_answer(key, now),
            TurnPlan::Write | TurnPlan::Read | TurnPlan::All => Ok(plan),
        }
    }

    // The turn of a connection that answers one request, if there is memory for the reply.
    fn prepare_answer(&mut self, key: usize, now: u64) -> Result<TurnPlan, Outcome>
        ensures lanes { Stays (lanes_of C.steps S.told self.old) (lanes_of C.steps S.told self.new) }
        ensures ready { StatesStay self.old self.new }
        ensures core { self.new.core ≡ self.old.core }
        ensures longs { self.new.due.longs ≡ self.old.due.longs }
        ensures plan { IfSome (get self.old.connections key) (λ _. key < 2 ^ 32 → Prepares C.waits key TurnPlan.Answer result self.old self.new) }
        ensures covered { IfOk result (λ _. AreCovered C.steps key self.old self.new) }
        ensures short { OnErr result (key < 2 ^ 32 → IfSome (get self.old.connections key) (λ _. IsShort C.steps key self.old)) }
        ensures woken { WakesOthers key self.old self.new }
    {
        match self.may_answer(key, now) {
            Ok(true) => Ok(TurnPlan::Answer),
            Ok(false) => Err(Outcome::Open),
            Err(_) => Err(Outcome::Over(End::Memory)),
        }
    }

    // What a connection's turn would do, which begins. It is due no more.
    fn plan(&mut self, key: usize) -> Option<TurnPlan>
        ensures lanes { PassedBy key (lanes_of C.steps S.told self.old) (lanes_of C.steps S.told self.new) }
        ensures ready { StatesStay self.old self.new }
        ensures plan { result ≡ option_map (λ c. plan_at c self.old) (get self.old.connections key) }
        ensures claim { claim_at self.new.connections key ≡ claim_at self.old.connections key }
        ensures core { self.new.core ≡ self.old.core }
        ensures begun { IfSome (get self.old.connections key) (λ c. self.new.due.longs ≡ begun (party_of c.tenant) (is_long C.longs key self.old) self.old.due.longs) }
        ensures woken { TakesOff key self.old self.new }
    {
        let has_room = self.budgets.has_room(ROOM);
        let is_long = self.is_long(key);
        let connection = self.connections.get_mut(key)?;
        connection.is_due = false;
        self.due.begin(connection.tenant, is_long);
        self.core.prepare();
        match connection.phase {
            Phase::Served => Some(connection.plan(has_room)),
            Phase::Lingering => Some(TurnPlan::Read),
        }
    }

    // Whether a turn would answer a request that waits for a query of its tenant, which another connection has under way.
    fn stands_by(&self, key: usize, plan: TurnPlan) -> bool
        ensures { result ≡ (nat_lt key (2 ^ 32) && (is_answering plan && C.waits key self.now.core)) }
    {
        match conn_of(key) {
            Some(conn) => {
                matches!(plan, TurnPlan::Answer | TurnPlan::All)
                    && self.core.inner().front(conn).waits
            }
            None => false,
        }
    }

    // One turn by a plan.
    fn work(&mut self, key: usize, plan: TurnPlan) -> (Outcome, bool)
        ensures lanes { TurnsAtMost C.steps key (lanes_of C.steps S.told self.old) (lanes_of C.steps S.told self.new) }
        ensures others { OthersStand key self.old self.new }
        ensures bytes { IsFalse result.1 → bytes_of self.new ≡ bytes_of self.old }
        ensures given { IfSome (get self.old.connections key) (λ c. key < 2 ^ 32 → HasTurnBy C.steps S.told plan (held_at C.waits C.longs key self.old) key c result.0 self.old self.new) }
        ensures claim { claim_at self.new.connections key ≡ claim_at self.old.connections key }
        ensures there { is_open_at key self.new ≡ is_open_at key self.old }
        ensures woken { WakesOthers key self.old self.new }
    {
        let Some(conn) = conn_of(key) else {
            return (Outcome::Closed, false);
        };
        let Some(connection) = self.connections.get_mut(key) else {
            return (Outcome::Closed, false);
        };
        match connection.phase {
            Phase::Lingering => (connection.drain(&mut *self.buffer), false),
            Phase::Served => {
                let most = piece_of(connection, plan, self.core.inner(), conn);
                let share = share_of(&self.due, connection.worked);
                let (read, written) = connection.turn(
                    &mut self.core,
                    conn,
                    &mut *self.buffer,
                    most,
                    plan,
                    share,
                );
                self.read = added(self.read, read);
                self.written = added(self.written, written);
                (connection.outcome(), has_moved(read, written))
            }
        }
    }

    /// Notes the second in which bytes moved.
    pub fn mark_moved(&mut self, key: usize, now: u64)
        ensures lanes { Stays (lanes_of C.steps S.told self.old) (lanes_of C.steps S.told self.new) }
        ensures ready { StatesStay self.old self.new }
        ensures core { self.new.core ≡ self.old.core }
        ensures marked { IsMarked self.new key now }
        ensures there { is_open_at key self.new ≡ is_open_at key self.old }
        ensures woken { StaysWoken self.old self.new }
    {
        let Some(connection) = self.connections.get_mut(key) else {
            return;
        };
        connection.moved = now;
    }

    /// After a turn: what is done with is given back, and what the next step needs is asked for. If the connection can go on, it gets a further
    /// turn; if not, it has no query under way.
    pub fn settle(&mut self, key: usize, now: u64) -> Result<(), AllocError>
        ensures lanes { Stays (lanes_of C.steps S.told self.old) (lanes_of C.steps S.told self.new) }
        ensures ready { StatesStay self.old self.new }
        ensures works { OnOk result (IsTrue (is_due_in self.new.connections key) → self.new.core ≡ self.old.core) }
        ensures standing { OnOk result (IsStanding key self.new) }
        ensures awake { OnOk result (IsTrue (is_awake key self.new)) }
        ensures woken { OnOk result (Wakes key self.old self.new) }
        ensures others { WakesOthers key self.old self.new }
    {
        self.settle_memory(key, now)?;
        self.give_turn(key);
        Ok(())
    }

    // What is done with is given back, and what the next step needs is asked for.
    fn settle_memory(&mut self, key: usize, now: u64) -> Result<(), AllocError>
        ensures lanes { Stays (lanes_of C.steps S.told self.old) (lanes_of C.steps S.told self.new) }
        ensures ready { StatesStay self.old self.new }
        ensures core { self.new.core ≡ self.old.core }
        ensures woken { WakesOthers key self.old self.new }
    {
        let Some(conn) = conn_of(key) else {
            return Ok(());
        };
        self.count_turn(key, now);
        let front = self.front_of_part(key, conn);
        self.note_part(key, front);
        let has_answered = self.core.done().answered > 0;
        if self.claim_of(key).is_none() {
            return self.ask(key, front, now);
        }
        self.settle_claim(key, has_answered, now);
        Ok(())
    }

    // What is in front on a connection, unless it may be answered.
    fn front_of_part(&self, key: usize, conn: u32) -> Option<Ahead> {
        if self.connections.get(key)?.ready.waiting {
            return None;
        }
        Some(self.core.inner().front(conn))
    }

    // Notes whether a frame came in part, or is not answered.
    fn note_part(&mut self, key: usize, front: Option<Ahead>)
        ensures lanes { Stays (lanes_of C.steps S.told self.old) (lanes_of C.steps S.told self.new) }
        ensures ready { StatesStay self.old self.new }
        ensures core { self.new.core ≡ self.old.core }
        ensures woken { WakesOthers key self.old self.new }
    {
        if let Some(connection) = self.connections.get_mut(key) {
            connection.has_part = has_part(front);
        }
    }

    // Counts the time that a turn took. One in which a query went on takes a span, and one that stood by does not: its tenant's query is to have its turn.
    fn count_turn(&mut self, key: usize, now: u64)
        ensures lanes { Stays (lanes_of C.steps S.told self.old) (lanes_of C.steps S.told self.new) }
        ensures ready { StatesStay self.old self.new }
        ensures core { self.new.core ≡ self.old.core }
        ensures times { IfSome (get self.new.connections key) (λ c. (micros : ℕ) × ((has_worked : Bool) × (self.new.due.micros ≡ after_turn self.old.due.micros (party_of (tenant_at key self.old)) (party_of c.tenant) micros (c.is_working && has_worked)))) }
        ensures woken { WakesOthers key self.old self.new }
    {
        let micros = self.core.take_micros();
        let has_worked = self.core.done().has_worked;
        let stood = self.tenant_of(key);
        self.note_turn(key);
        self.renew(key, now);
        if let Some(connection) = self.connections.get(key) {
            let has_gone_on = connection.is_working & has_worked;
            self.due
                .count(stood, connection.tenant, micros, has_gone_on);
        }
    }

    // The tenant that was answered last on a connection.
    fn tenant_of(&self, key: usize) -> Option<usize>
        ensures { result ≡ tenant_at key self.now }
    {
        self.connections.get(key)?.tenant
    }

    // Notes what the core tells of a turn.
    fn note_turn(&mut self, key: usize)
        ensures lanes { Stays (lanes_of C.steps S.told self.old) (lanes_of C.steps S.told self.new) }
        ensures ready { StatesStay self.old self.new }
        ensures core { self.new.core ≡ self.old.core }
        ensures due { self.new.due ≡ self.old.due }
        ensures woken { WakesOthers key self.old self.new }
    {
        let Some(answered) = self.core.done().last else {
            return;
        };
        let Some(connection) = self.connections.get_mut(key) else {
            return;
        };
        connection.worked = answered.worked();
        connection.tenant = answered.heard(connection.tenant);
        connection.is_working = answered.has_gone_on;
    }

    // While a query goes on, the time for which its connection may hold a share begins anew.
    fn renew(&mut self, key: usize, now: u64)
        ensures lanes { Stays (lanes_of C.steps S.told self.old) (lanes_of C.steps S.told self.new) }
        ensures ready { StatesStay self.old self.new }
        ensures core { self.new.core ≡ self.old.core }
        ensures due { self.new.due ≡ self.old.due }
        ensures woken { WakesOthers key self.old self.new }
    {
        if !self.core.done().has_worked {
            return;
        }
        if let Some(connection) = self.connections.get_mut(key) {
            if connection.is_working {
                connection.renew(now);
            }
        }
    }

    // A connection that can go on gets a further turn. One that gets none has no query under way: so nobody waits for one that waits.
    fn give_turn(&mut self, key: usize)
        ensures lanes { Stays (lanes_of C.steps S.told self.old) (lanes_of C.steps S.told self.new) }
        ensures works { IsTrue (is_due_in self.new.connections key) → self.new.core ≡ self.old.core }
        ensures budgets { self.new.budgets ≡ self.old.budgets }
        ensures standing { IsStanding key self.new }
        ensures listed { IsListed key self.old self.new }
        ensures once { IsTrue (is_due_in self.old.connections key) → self.new.due ≡ self.old.due }
        ensures ready { StatesStay self.old self.new }
        ensures claims { ClaimsStay self.old self.new }
        ensures awake { IsTrue (is_awake key self.new) }
        ensures bound { self.new.bound ≡ self.old.bound }
        ensures woken { Wakes key self.old self.new }
    {
        if !self.add_turn(key) {
            self.give_up_query(key);
        }
    }

    // A connection that can go on gets a further turn, and nothing is given up. Whether it has one. Where there is no memory for the turn, the connection
    // is looked at again before the next round.
    pub(crate) fn add_turn(&mut self, key: usize) -> bool
        ensures lanes { Stays (lanes_of C.steps S.told self.old) (lanes_of C.steps S.told self.new) }
        ensures due { result ≡ is_due_in self.new.connections key }
        ensures core { self.new.core ≡ self.old.core }
        ensures longs { self.new.due.longs ≡ self.old.due.longs }
        ensures budgets { self.new.budgets ≡ self.old.budgets }
        ensures listed { IsListed key self.old self.new }
        ensures once { IsTrue (is_due_in self.old.connections key) → IsTrue result × (self.new.due ≡ self.old.due) }
        ensures ready { StatesStay self.old self.new }
        ensures claims { ClaimsStay self.old self.new }
        ensures awake { IsTrue (is_awake key self.new) }
        ensures bound { self.new.bound ≡ self.old.bound }
        ensures woken { Wakes key self.old self.new }
    {
        let has_room = self.budgets.has_room(ROOM);
        let Some(connection) = self.connections.get_mut(key) else {
            return false;
        };
        if connection.is_due {
            return true;
        }
        if !connection.can_go_on(has_room) {
            return false;
        }
        let (tenant, is_working) = (connection.tenant, connection.is_working);
        match self.due.add(key, connection.number, tenant, is_working) {
            Ok(()) => {
                connection.is_due = true;
                true
            }
            Err(_) => {
                self.has_missed = true;
                false
            }
        }
    }

    // A connection that gets no turn has no query under way.
    fn give_up_query(&mut self, key: usize)
        ensures lanes { IsFalse (is_due_in self.old.connections key) → Stays (lanes_of C.steps S.told self.old) (lanes_of C.steps S.told self.new) }
        ensures budgets { self.new.budgets ≡ self.old.budgets }
        ensures due { IsAsDue key self.old self.new }
        ensures given_up { IfSome (get self.new.connections key) (λ c. IsFalse c.is_working) }
        ensures ready { StatesStay self.old self.new }
        ensures claims { ClaimsStay self.old self.new }
        ensures awake { is_awake key self.new ≡ is_awake key self.old }
        ensures missed { self.new.has_missed ≡ self.old.has_missed }
        ensures bound { self.new.bound ≡ self.old.bound }
        ensures woken { WakesOthers key self.old self.new }
    {
        let Some(connection) = self.connections.get_mut(key) else {
            return;
        };
        connection.is_working = false;
        if let Some(conn) = conn_of(key) {
            self.core.give_up(conn);
        }
    }

    /// A connection that ended, as a journal is told of it.
    pub fn ending(&self, key: usize, how: End) -> Option<Ending> {
        Some(self.connections.get(key)?.ending(how))
    }

    /// Whether a connection is served and at rest: nothing came that is not answered, and nothing is owed.
    pub fn rests(&self, key: usize) -> bool
        ensures { result ≡ rests_at key self.now }
    {
        match self.connections.get(key) {
            Some(connection) => connection.rests(),
            None => false,
        }
    }

    /// A connection is read no more, as if its peer had ended its side: what was read whole is answered, and what is owed is written.
    pub fn leave(&mut self, key: usize)
        ensures lanes { Stays (lanes_of C.steps S.told self.old) (lanes_of C.steps S.told self.new) }
        ensures left { HasLeft key self.new }
        ensures woken { Wakes key self.old self.new }
    {
        self.note_report(Report::ended(key));
        if let Some(connection) = self.connections.get_mut(key) {
            connection.leave();
        }
    }

    /// Ends a connection's session, and reads what still comes for a little while.
    pub fn linger(&mut self, key: usize, now: u64)
        ensures lanes { DoesAtMost C.steps (LetGo key) (lanes_of C.steps S.told self.old) (lanes_of C.steps S.told self.new) }
        ensures others { OthersStand key self.old self.new }
        ensures share { key < 2 ^ 32 → IsGivenBack (claim_at self.old.connections key) self.new.budgets }
        ensures closes { IsTrue (is_open_at key self.old) → key < 2 ^ 32 → Does C.steps (LetGo key) (lanes_of C.steps S.told self.old) (lanes_of C.steps S.told self.new) }
        ensures awake { IsTrue (is_awake key self.new) }
        ensures woken { Wakes key self.old self.new }
    {
        self.end(key, now);
        self.grant(now);
        self.give_turn(key);
    }

    // Ends a connection's session, and gives its share back.
    fn end(&mut self, key: usize, now: u64)
        ensures lanes { DoesAtMost C.steps (LetGo key) (lanes_of C.steps S.told self.old) (lanes_of C.steps S.told self.new) }
        ensures others { OthersStand key self.old self.new }
        ensures share { key < 2 ^ 32 → IsGivenBack (claim_at self.old.connections key) self.new.budgets }
        ensures closes { IsTrue (is_open_at key self.old) → key < 2 ^ 32 → Does C.steps (LetGo key) (lanes_of C.steps S.told self.old) (lanes_of C.steps S.told self.new) }
        ensures woken { WakesOthers key self.old self.new }
    {
        let Some(conn) = conn_of(key) else {
            return;
        };
        let Some(connection) = self.connections.get_mut(key) else {
            return;
        };
        connection.linger(now);
        self.core.disconnect(conn);
        self.release(key);
    }

    /// Closes a connection.
    pub fn close(&mut self, key: usize, now: u64)
        ensures lanes { DoesAtMost C.steps (LetGo key) (lanes_of C.steps S.told self.old) (lanes_of C.steps S.told self.new) }
        ensures others { OthersStand key self.old self.new }
        ensures share { key < 2 ^ 32 → IsGivenBack (claim_at self.old.connections key) self.new.budgets }
        ensures closes { IsTrue (is_open_at key self.old) → key < 2 ^ 32 → Does C.steps (LetGo key) (lanes_of C.steps S.told self.old) (lanes_of C.steps S.told self.new) }
        ensures woken { Wakes key self.old self.new }
    {
        self.let_go(key);
        self.grant(now);
    }

    // Takes a connection off, and gives its share back.
    fn let_go(&mut self, key: usize)
        ensures lanes { DoesAtMost C.steps (LetGo key) (lanes_of C.steps S.told self.old) (lanes_of C.steps S.told self.new) }
        ensures others { OthersStand key self.old self.new }
        ensures share { key < 2 ^ 32 → IsGivenBack (claim_at self.old.connections key) self.new.budgets }
        ensures closes { IsTrue (is_open_at key self.old) → key < 2 ^ 32 → Does C.steps (LetGo key) (lanes_of C.steps S.told self.old) (lanes_of C.steps S.told self.new) }
        ensures woken { Wakes key self.old self.new }
    {
        let Some(conn) = conn_of(key) else {
            return;
        };
        self.release(key);
        let Some(_removed) = self.connections.try_remove(key) else {
            return;
        };
        self.core.disconnect(conn);
    }

    /// Whether a connection is open and served.
    pub fn is_served(&self, key: usize) -> bool {
        match self.connections.get(key) {
            Some(connection) => matches!(connection.phase, Phase::Served),
            None => false,
        }
    }

    /// How a connection's time is up, where it is.
    pub fn expiry(&self, key: usize, now: u64, limits: &Limits) -> Outcome
        ensures { result ≡ expiry_at key now limits.now self.now }
    {
        let Some(connection) = self.connections.get(key) else {
            return Outcome::Open;
        };
        match connection.phase {
            Phase::Lingering => {
                if connection.has_lingered(now) {
                    Outcome::Closed
                } else {
                    Outcome::Open
                }
            }
            Phase::Served => {
                let is_waited_for = match &connection.claim {
                    Some(claim) => self.budgets.is_waited_for(claim.pool),
                    None => false,
                };
                match connection.expiry(now, limits, is_waited_for) {
                    Some(how) => Outcome::Over(how),
                    None => Outcome::Open,
                }
            }
        }
    }
}
