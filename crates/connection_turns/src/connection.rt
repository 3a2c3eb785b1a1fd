//! One connection and what is known of it.
ghost use Rattle.std.specs.Prelude.{◌≡◌, ◌<◌, ◌≤◌, ◌||◌, length, Bool, Some, None, true, false, IsFalse, IsTrue, if◌then◌else◌};
ghost use Rattle.outbox.specs.Appends.{OthersKeep};
ghost use Rattle.outbox.specs.Lines.{fresh, is_over};
ghost use Rattle.outbox.specs.Traffic.{HasMoved, IsReadOn};
ghost use Rattle.outbox.specs.Turns as turns;
ghost use Rattle.outbox.specs.Turns.{Flushes};
ghost use Rattle.connection_turns.specs.Cores.{is_held};
ghost use Rattle.connection_turns.specs.Expiring.{expiry_of, end_in, has_lingered, idle_end, is_quiet};
ghost use Rattle.connection_turns.specs.Held.{renewed};
ghost use Rattle.connection_turns.specs.Owed.{line_of, wire_of, is_lost, has_left, rests};
ghost use Rattle.connection_turns.specs.Planning as planning;
ghost use Rattle.connection_turns.specs.Planning.{raised, ends, end_of, outcome_of, plan_of, next_of, plan_in, can_go_by, KeepsTurn};
ghost use Rattle.connection_turns.specs.Turning.{Adds, AdvancesAt, DrainsOn, Progresses, dried, is_answering, moment_of};

use crate::claim::{Claim, Pool, Purpose};
use crate::counted::{Counted, TurnBounds};
use crate::ending::{End, Ending};
use crate::limits::Limits;
use crate::loop_core::LoopCore;
use crate::socket::{Fate, Socket};
use outbox::{Given, Outbox, Readiness, Wire, feed, flush, reply, turn};
use socket_poll::{Peer, Report, Time};
use std::alloc::Global;
use std::net::SocketAddr;

/// The longest frame and the longest reply of a connection without a share of the budget. Such a connection also reads at most as many bytes at a
/// time, and nothing of it is answered while it is owed as many.
pub const ALLOWANCE: usize = 16_384;

/// The seconds for which what a peer still sends is read and thrown away, so that the last replies reach it.
const LINGER: u64 = 2;

/// The seconds that a peer has at least to take some of what it is owed. Its system tells only in steps that it was read: of 131,072 bytes and less
/// with Linux's first receive buffer, which take 13 seconds at 10,000 bytes a second.
const PATIENCE: u64 = 30;

/// What is done with a connection.
#[derive(Clone, Copy)]
pub enum Phase {
    /// It is served.
    Served,
    /// Its last replies were written; what comes is thrown away.
    Lingering,
}

/// What comes of a turn.
#[derive(Clone, Copy)]
pub enum Outcome {
    /// The connection is open.
    Open,
    /// It is served no further, and ended so.
    Over(End),
    /// It is to be closed, or is closed already.
    Closed,
}

/// What a turn does.
#[derive(Clone, Copy, PartialEq, Eq)]
pub enum TurnPlan {
    /// It writes what is owed.
    Write,
    /// It reads a piece.
    Read,
    /// It answers one request, and writes.
    Answer,
    /// It reads a piece, answers as many requests as there is time for, and writes.
    All,
}

/// One connection.
#[derive(Drop)]
pub struct Connection<S: Peer> {
    /// Connections are numbered from 0 on, in the order in which they were taken in.
    pub number: u64,
    /// The address of its peer.
    pub peer: SocketAddr,
    /// The second in which a byte last moved, or in which it was served no further.
    pub moved: u64,
    // The second in which it was accepted.
    accepted: u64,
    /// The microseconds that the request which is answered next took so far.
    pub worked: u64,
    /// The place of the last tenant that asked on it.
    pub tenant: Option<usize>,
    /// Its share of the budgets.
    pub claim: Option<Claim>,
    /// What its peer is owed.
    pub outbox: Outbox,
    socket: Socket<S>,
    /// What may be done at it without a wait.
    pub ready: Readiness,
    /// What is done with it.
    pub phase: Phase,
    // Its last answer was given.
    has_faulted: bool,
    // A tenant was answered on it.
    is_known: bool,
    // Its peer is gone.
    is_gone: bool,
    /// It is among those that get a turn.
    pub is_due: bool,
    /// A frame came in part, or is not answered.
    pub has_part: bool,
    /// A query of it is under way.
    pub is_working: bool,
}

impl<S: Peer> Connection<S> {
    /// One that was just taken in.
    pub fn new(alloc: Global, number: u64, peer: SocketAddr, stream: S, now: u64) -> Connection<S>
        ensures line { line_of result ≡ Some fresh }
        ensures wire { wire_of S.told result ≡ S.told stream }
        ensures claim { result.claim ≡ None }
        ensures quiet { (result.is_due ≡ false) × (planning.can_go_on false result ≡ false) }
    {
        Connection {
            number,
            peer,
            moved: now,
            accepted: now,
            claim: None,
            outbox: Outbox::new(alloc),
            socket: Socket::new(stream),
            ready: Readiness {
                readable: false,
                writable: false,
                waiting: false,
            },
            phase: Phase::Served,
            has_faulted: false,
            is_known: false,
            is_gone: false,
            is_due: false,
            has_part: false,
            tenant: None,
            worked: 0,
            is_working: false,
        }
    }

    /// Notes what was reported. It stays known until a call says that it would wait.
    pub fn note_report(&mut self, report: Report)
        ensures line { line_of self.new ≡ line_of self.old }
        ensures wire { wire_of S.told self.new ≡ wire_of S.told self.old }
        ensures gone { self.new.is_gone ≡ (self.old.is_gone || report.is_gone) }
        ensures ready { self.new.ready ≡ raised report self.old.ready }
        ensures due { KeepsTurn self.old self.new }
        ensures claim { self.new.claim ≡ self.old.claim }
    {
        self.is_gone = self.is_gone || report.is_gone;
        self.socket.report(report.is_ending || report.is_urgent);
        self.ready.readable = self.ready.readable || report.is_readable;
        self.ready.writable = self.ready.writable || report.is_writable;
    }

    /// The share with this ticket is granted.
    pub fn hold(&mut self, ticket: u64, now: u64)
        ensures line { line_of self.new ≡ line_of self.old }
        ensures wire { wire_of S.told self.new ≡ wire_of S.told self.old }
        ensures claim { self.new.claim ≡ planning.granted ticket now self.old.claim }
        ensures phase { self.new.phase ≡ self.old.phase }
        ensures ready { self.new.ready ≡ self.old.ready }
        ensures due { KeepsTurn self.old self.new }
    {
        self.moved = now;
        self.claim = granted(self.claim, ticket, now);
    }

    /// Its query went on in this second, or it stands by for others: the time for which it may hold its share begins anew.
    pub fn renew(&mut self, now: u64)
        ensures line { line_of self.new ≡ line_of self.old }
        ensures wire { wire_of S.told self.new ≡ wire_of S.told self.old }
        ensures claim { self.new.claim ≡ renewed now self.old.claim }
        ensures phase { self.new.phase ≡ self.old.phase }
        ensures ready { self.new.ready ≡ self.old.ready }
        ensures due { KeepsTurn self.old self.new }
    {
        self.claim = renewed(self.claim, now);
    }

    /// What its next turn does: all where there is room for any reply and its peer takes what it is owed, and else one thing after the other.
    /// While a query of it is under way, it goes on with a share of memory only.
    pub fn plan(&self, has_room: bool) -> TurnPlan
        ensures { result ≡ plan_of has_room self.now }
    {
        match &self.claim {
            Some(claim) => self.plan_with(claim),
            None => {
                if has_room && !self.is_working && self.outbox.owed().len() < ALLOWANCE {
                    TurnPlan::All
                } else {
                    self.plan_without()
                }
            }
        }
    }

    fn plan_with(&self, claim: &Claim) -> TurnPlan
        ensures { result ≡ plan_in false false (Some claim.now) self.now.ready self.now.outbox }
    {
        if !claim.is_granted || self.can_write() {
            return TurnPlan::Write;
        }
        match claim.purpose {
            Purpose::Frame => self.read_or_answer(),
            Purpose::Reply => TurnPlan::Answer,
            Purpose::Written => TurnPlan::Write,
        }
    }

    fn plan_without(&self) -> TurnPlan
        ensures { result ≡ plan_in false false None self.now.ready self.now.outbox }
    {
        if self.can_write() || self.outbox.owed().len() >= ALLOWANCE {
            TurnPlan::Write
        } else {
            self.read_or_answer()
        }
    }

    fn read_or_answer(&self) -> TurnPlan
        ensures { result ≡ next_of self.now.ready }
    {
        if self.ready.waiting {
            TurnPlan::Answer
        } else {
            TurnPlan::Read
        }
    }

    /// One turn by this plan, which reads so many bytes at most, and how many bytes were read and written.
    pub fn turn<C: LoopCore, T: Time + Drop>(
        &mut self,
        core: &mut Counted<C, T>,
        conn: u32,
        buffer: &mut [u8],
        most: usize,
        plan: TurnPlan,
        share: TurnBounds,
    ) -> (usize, usize)
        requires some { 0 < most }
        requires within { most ≤ length buffer.old }
        ensures turn { Progresses (C.steps.takes conn) (C.steps.answers conn) (C.steps.idle conn) (can_go_by plan self.old.ready self.old.outbox) (moment_of S.told (C.steps.seen core.old) (C.steps.left conn core.old) self.old) (moment_of S.told (C.steps.seen core.new) (C.steps.left conn core.new) self.new) }
        ensures moved { HasMoved (wire_of S.told self.old) (wire_of S.told self.new) result.0 result.1 }
        ensures owed { Adds plan (C.steps.answers conn) (C.steps.seen core.old) (length self.old.outbox.owed) (length self.new.outbox.owed) }
        ensures writes { plan ≡ TurnPlan.Write → core.new ≡ core.old }
        ensures phase { self.new.phase ≡ self.old.phase }
        ensures due { KeepsTurn self.old self.new }
        ensures claim { self.new.claim ≡ self.old.claim }
        ensures advances { IsTrue (is_answering plan) → turns.can_answer self.old.ready self.old.outbox ≡ true → IsFalse (is_held C.waits C.longs share.is_brief conn core.old)
            → AdvancesAt C.steps S.told conn core.old core.new self.old self.new }
        ensures others { OthersKeep C.steps.left conn core.old core.new }
    {
        core.begin(share);
        let counts = self.go(core, conn, &mut buffer[..most], plan, share.is_brief);
        let done = core.done();
        self.has_faulted = self.has_faulted || done.has_faulted();
        self.is_known = self.is_known || done.has_heard();
        counts
    }

    // What a turn by this plan does.
    #[tactic(auto, using(crate::proofs::Progress::only_written))]
    fn go<C: LoopCore, T: Time + Drop>(
        &mut self,
        core: &mut Counted<C, T>,
        conn: u32,
        buffer: &mut [u8],
        plan: TurnPlan,
        is_brief: bool,
    ) -> (usize, usize)
        requires { 0 < length buffer.old }
        ensures turn { Progresses (C.steps.takes conn) (C.steps.answers conn) (C.steps.idle conn) (can_go_by plan self.old.ready self.old.outbox) (moment_of S.told (C.steps.seen core.old) (C.steps.left conn core.old) self.old) (moment_of S.told (C.steps.seen core.new) (C.steps.left conn core.new) self.new) }
        ensures moved { HasMoved (wire_of S.told self.old) (wire_of S.told self.new) result.0 result.1 }
        ensures owed { Adds plan (C.steps.answers conn) (C.steps.seen core.old) (length self.old.outbox.owed) (length self.new.outbox.owed) }
        ensures writes { plan ≡ TurnPlan.Write → core.new ≡ core.old }
        ensures phase { self.new.phase ≡ self.old.phase }
        ensures due { KeepsTurn self.old self.new }
        ensures claim { self.new.claim ≡ self.old.claim }
        ensures advances { IsTrue (is_answering plan) → turns.can_answer self.old.ready self.old.outbox ≡ true → IsFalse (is_held C.waits C.longs is_brief conn core.old)
            → AdvancesAt C.steps S.told conn core.old core.new self.old self.new }
        ensures others { OthersKeep C.steps.left conn core.old core.new }
    {
        match plan {
            TurnPlan::Read => (self.read(core, conn, buffer), 0),
            TurnPlan::Write => (0, self.write()),
            TurnPlan::Answer => (0, self.answer(core, conn, is_brief)),
            TurnPlan::All => self.serve(core, conn, buffer, is_brief),
        }
    }

    // Once a read gave less than it had room for, a further one would only say that it would wait.
    fn note_drained(&mut self)
        ensures drained { self.new ≡ (if self.old.socket.is_drained then dried self.old else self.old) }
        ensures outbox { self.new.outbox ≡ self.old.outbox }
        ensures phase { self.new.phase ≡ self.old.phase }
        ensures due { KeepsTurn self.old self.new }
        ensures claim { self.new.claim ≡ self.old.claim }
    {
        if self.socket.is_drained() {
            self.ready.readable = false;
        }
    }

    // Reads a piece, answers and writes.
    fn serve<C: LoopCore, T: Time + Drop>(
        &mut self,
        core: &mut Counted<C, T>,
        conn: u32,
        buffer: &mut [u8],
        is_brief: bool,
    ) -> (usize, usize)
        requires { 0 < length buffer.old }
        ensures turn { Progresses (C.steps.takes conn) (C.steps.answers conn) (C.steps.idle conn) (turns.can_go_on self.old.ready self.old.outbox) (moment_of S.told (C.steps.seen core.old) (C.steps.left conn core.old) self.old) (moment_of S.told (C.steps.seen core.new) (C.steps.left conn core.new) self.new) }
        ensures moved { HasMoved (wire_of S.told self.old) (wire_of S.told self.new) result.0 result.1 }
        ensures owed { Adds TurnPlan.All (C.steps.answers conn) (C.steps.seen core.old) (length self.old.outbox.owed) (length self.new.outbox.owed) }
        ensures phase { self.new.phase ≡ self.old.phase }
        ensures due { KeepsTurn self.old self.new }
        ensures claim { self.new.claim ≡ self.old.claim }
        ensures advances { turns.can_answer self.old.ready self.old.outbox ≡ true → IsFalse (is_held C.waits C.longs is_brief conn core.old)
            → AdvancesAt C.steps S.told conn core.old core.new self.old self.new }
        ensures others { OthersKeep C.steps.left conn core.old core.new }
    {
        let counts = turn(
            &mut self.outbox,
            &mut self.socket,
            core,
            conn,
            is_brief,
            buffer,
            &mut self.ready,
        );
        self.note_drained();
        counts
    }

    // Answers one request, and writes. It does not read, so that the reply is the one whose length was told.
    fn answer<C: LoopCore, T: Time + Drop>(
        &mut self,
        core: &mut Counted<C, T>,
        conn: u32,
        is_brief: bool,
    ) -> usize
        ensures turn { Progresses (C.steps.takes conn) (C.steps.answers conn) (C.steps.idle conn) (turns.can_answer self.old.ready self.old.outbox) (moment_of S.told (C.steps.seen core.old) (C.steps.left conn core.old) self.old) (moment_of S.told (C.steps.seen core.new) (C.steps.left conn core.new) self.new) }
        ensures moved { HasMoved (wire_of S.told self.old) (wire_of S.told self.new) 0 result }
        ensures owed { Adds TurnPlan.Answer (C.steps.answers conn) (C.steps.seen core.old) (length self.old.outbox.owed) (length self.new.outbox.owed) }
        ensures phase { self.new.phase ≡ self.old.phase }
        ensures due { KeepsTurn self.old self.new }
        ensures claim { self.new.claim ≡ self.old.claim }
        ensures advances { turns.can_answer self.old.ready self.old.outbox ≡ true → IsFalse (is_held C.waits C.longs is_brief conn core.old)
            → AdvancesAt C.steps S.told conn core.old core.new self.old self.new }
        ensures others { OthersKeep C.steps.left conn core.old core.new }
    {
        reply(
            &mut self.outbox,
            &mut self.socket,
            core,
            conn,
            is_brief,
            &mut self.ready,
        )
    }

    // Reads a piece.
    fn read<C: LoopCore, T: Time + Drop>(
        &mut self,
        core: &mut Counted<C, T>,
        conn: u32,
        buffer: &mut [u8],
    ) -> usize
        requires { 0 < length buffer.old }
        ensures turn { Progresses (C.steps.takes conn) (C.steps.answers conn) (C.steps.idle conn) (turns.can_read self.old.ready self.old.outbox) (moment_of S.told (C.steps.seen core.old) (C.steps.left conn core.old) self.old) (moment_of S.told (C.steps.seen core.new) (C.steps.left conn core.new) self.new) }
        ensures moved { HasMoved (wire_of S.told self.old) (wire_of S.told self.new) result 0 }
        ensures owed { length self.new.outbox.owed ≤ length self.old.outbox.owed }
        ensures phase { self.new.phase ≡ self.old.phase }
        ensures due { KeepsTurn self.old self.new }
        ensures claim { self.new.claim ≡ self.old.claim }
        ensures others { OthersKeep C.steps.left conn core.old core.new }
    {
        let count = feed(
            &mut self.outbox,
            &mut self.socket,
            core,
            conn,
            buffer,
            &mut self.ready,
        );
        self.note_drained();
        count
    }

    // Writes.
    fn write(&mut self) -> usize
        ensures turn { Flushes self.old.outbox (wire_of S.told self.old) self.old.ready self.new.outbox (wire_of S.told self.new) self.new.ready }
        ensures moved { HasMoved (wire_of S.told self.old) (wire_of S.told self.new) 0 result }
        ensures owed { length self.new.outbox.owed ≤ length self.old.outbox.owed }
        ensures phase { self.new.phase ≡ self.old.phase }
        ensures due { KeepsTurn self.old self.new }
        ensures claim { self.new.claim ≡ self.old.claim }
    {
        flush(&mut self.outbox, &mut self.socket, &mut self.ready)
    }

    /// Whether it is served although its peer is gone. Its next turn ends it.
    pub fn is_lost(&self) -> bool
        ensures { result ≡ is_lost self.now }
    {
        match self.phase {
            Phase::Served => self.is_gone,
            Phase::Lingering => false,
        }
    }

    // Whether there is something to write, and room for it.
    fn can_write(&self) -> bool
        ensures { result ≡ turns.can_write self.now.ready self.now.outbox }
    {
        self.ready.writable && self.outbox.owes()
    }

    /// Whether a turn does something.
    pub fn can_go_on(&self, has_room: bool) -> bool
        ensures { result ≡ planning.can_go_on has_room self.now }
    {
        if self.is_lost() {
            return true;
        }
        if let Phase::Lingering = self.phase {
            return self.ready.readable;
        }
        match self.plan(has_room) {
            TurnPlan::Write => self.can_write(),
            TurnPlan::Read => self.ready.readable && !self.ready.waiting && self.outbox.reads(),
            TurnPlan::Answer => self.ready.waiting && self.outbox.reads(),
            TurnPlan::All => self.ready.can_go_on(&self.outbox),
        }
    }

    // How it ended, where it is over.
    fn end(&self) -> End
        ensures { result ≡ end_of self.now.socket.fate self.now.has_faulted }
    {
        match self.socket.fate {
            Fate::Unread => End::ReadFault,
            Fate::Unwritten => End::WriteFault,
            Fate::Ended => End::Done,
            Fate::Left => End::Drained,
            Fate::Lives if self.has_faulted => End::FrameFault,
            Fate::Lives => End::Memory,
        }
    }

    /// What comes of a turn at it.
    pub fn outcome(&self) -> Outcome
        ensures over { ends result ≡ is_over self.now.outbox }
        ensures how { result ≡ outcome_of self.now }
    {
        if self.outbox.is_over() {
            Outcome::Over(self.end())
        } else {
            Outcome::Open
        }
    }

    /// How it ended, as a journal is told.
    pub fn ending(&self, how: End) -> Ending {
        Ending {
            number: self.number,
            peer: self.peer,
            how,
        }
    }

    /// Whether it is served and at rest: nothing came that is not answered, and nothing is owed.
    pub fn rests(&self) -> bool
        ensures { result ≡ rests self.now }
    {
        match self.phase {
            Phase::Served => {
                !self.is_due
                    && !self.has_part
                    && !self.ready.readable
                    && !self.ready.waiting
                    && !self.outbox.owes()
            }
            Phase::Lingering => false,
        }
    }

    /// From now on it is read no more, as if its input had ended: what was read whole is answered, and what is owed is written.
    pub fn leave(&mut self)
        ensures line { line_of self.new ≡ line_of self.old }
        ensures wire { wire_of S.told self.new ≡ wire_of S.told self.old }
        ensures left { IsTrue (has_left self.new) }
        ensures due { KeepsTurn self.old self.new }
        ensures claim { self.new.claim ≡ self.old.claim }
        ensures goes { (has_room : Bool) → planning.can_go_on has_room self.new ≡ planning.can_go_on has_room self.old }
    {
        self.socket.leave();
    }

    /// Serves it no further. The writing side ends, so that what was written arrives although bytes are unread.
    pub fn linger(&mut self, now: u64)
        ensures line { line_of self.new ≡ None }
        ensures wire { wire_of S.told self.new ≡ wire_of S.told self.old }
        ensures due { KeepsTurn self.old self.new }
        ensures claim { self.new.claim ≡ self.old.claim }
    {
        self.socket.stream.end_writing();
        self.is_working = false;
        self.moved = now;
        self.phase = Phase::Lingering;
    }

    /// Whether it lingers no longer in this second.
    pub fn has_lingered(&self, now: u64) -> bool
        ensures { result ≡ has_lingered now self.now }
    {
        now.saturating_sub(self.moved) >= LINGER
    }

    /// Reads once and throws away what comes, and tells whether more may come.
    pub fn drain(&mut self, buffer: &mut [u8]) -> Outcome
        ensures line { line_of self.new ≡ line_of self.old }
        ensures wire { IsReadOn (wire_of S.told self.old) (wire_of S.told self.new) }
        ensures goes_on { 0 < length buffer.old → DrainsOn (wire_of S.told self.old) (wire_of S.told self.new) self.new.ready result }
        ensures phase { self.new.phase ≡ self.old.phase }
        ensures due { KeepsTurn self.old self.new }
        ensures claim { self.new.claim ≡ self.old.claim }
    {
        match self.socket.stream.read(buffer) {
            Given::Bytes(_) => Outcome::Open,
            Given::Blocked => {
                self.ready.readable = false;
                Outcome::Open
            }
            Given::Ended | Given::Failed => Outcome::Closed,
        }
    }

    /// The second since which it is idle, or a stranger's, if it makes room for another one.
    pub fn spare_since(&self, now: u64, limits: &Limits) -> Option<u64> {
        match self.phase {
            Phase::Lingering => None,
            Phase::Served => {
                if self.is_strangers(now, limits) {
                    Some(self.accepted)
                } else if self.is_idle(now, limits) {
                    Some(self.moved)
                } else {
                    None
                }
            }
        }
    }

    // Whether no tenant was ever answered on it for `frame_time` seconds: then nothing that its peer sends or waits for keeps it open, but a
    // share of the tenants' budget.
    fn is_strangers(&self, now: u64, limits: &Limits) -> bool {
        let has_share = match &self.claim {
            Some(claim) => claim.pool == Pool::Tenants,
            None => false,
        };
        !self.is_known && !has_share && now.saturating_sub(self.accepted) >= limits.frame_time
    }

    // Whether it was idle for so long that it makes room: `spare` seconds where it owes nothing and has nothing in part, and else `frame_time`
    // seconds. One that waits for memory, or is to have a turn, is not idle.
    fn is_idle(&self, now: u64, limits: &Limits) -> bool {
        let seconds = if self.has_part || self.claim.is_some() || self.outbox.owes() {
            limits.frame_time
        } else {
            limits.spare
        };
        !self.is_due && !self.waits_for_memory() && now.saturating_sub(self.moved) >= seconds
    }

    // Whether its share is not granted yet.
    fn waits_for_memory(&self) -> bool {
        match &self.claim {
            Some(claim) => !claim.is_granted,
            None => false,
        }
    }

    /// How its time is up in this second, where it is; others may wait for what it holds. One that is to have a turn is not quiet.
    pub fn expiry(&self, now: u64, limits: &Limits, is_waited_for: bool) -> Option<End>
        ensures { result ≡ expiry_of now limits.now is_waited_for self.now }
    {
        match &self.claim {
            Some(claim) => self.expiry_with(claim, now, limits, is_waited_for),
            None => self.idle_end(now, limits.idle),
        }
    }

    // What becomes by now of a connection that has a share, or waits for one.
    fn expiry_with(
        &self,
        claim: &Claim,
        now: u64,
        limits: &Limits,
        is_waited_for: bool,
    ) -> Option<End>
        ensures { result ≡ end_in now limits.now is_waited_for (Some claim.now) self.now }
    {
        if !claim.is_granted {
            return None;
        }
        if is_waited_for && self.is_quiet(now, limits.stall) {
            return Some(End::Stalled);
        }
        if is_waited_for && now.saturating_sub(claim.since) > limits.frame_time {
            return Some(End::Slow);
        }
        self.idle_end(now, limits.idle)
    }

    // By the limit on idle time.
    fn idle_end(&self, now: u64, limit: Option<u64>) -> Option<End>
        ensures { result ≡ idle_end now limit self.now }
    {
        match limit {
            Some(seconds) if self.is_quiet(now, seconds) => Some(End::Idle),
            _ => None,
        }
    }

    // Whether no byte moved for longer than so many seconds, or [`PATIENCE`] where it is owed some, and it is not to have a turn.
    fn is_quiet(&self, now: u64, seconds: u64) -> bool
        ensures { result ≡ is_quiet now seconds self.now }
    {
        let seconds = if self.outbox.owes() {
            seconds.max(PATIENCE)
        } else {
            seconds
        };
        !self.is_due && now.saturating_sub(self.moved) > seconds
    }
}

// A share that is granted, where it has this ticket.
fn granted(claim: Option<Claim>, ticket: u64, now: u64) -> Option<Claim>
    ensures { result ≡ planning.granted ticket now claim }
{
    match claim {
        Some(claim) if claim.ticket == ticket => Some(Claim {
            is_granted: true,
            since: now,
            ..claim
        }),
        _ => claim,
    }
}

// A share that is held since this second.
fn renewed(claim: Option<Claim>, now: u64) -> Option<Claim>
    ensures { result ≡ renewed now claim }
{
    match claim {
        Some(claim) => Some(Claim {
            since: now,
            ..claim
        }),
        None => None,
    }
}
