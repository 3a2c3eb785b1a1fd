//! A core in a turn: what it may do, what it did, and the time that it took.
ghost use Rattle.std.specs.Prelude.{◌≡◌, None};
ghost use Rattle.std.specs.Bool.{MatchBool};
ghost use Rattle.outbox.specs.Appends.{OthersKeep};
ghost use Rattle.connection_turns.specs.Cores.{is_held};

use crate::answered::{Answered, Work};
use crate::journal::Slow;
use crate::loop_core::LoopCore;
use outbox::{Core, Step};
use socket_poll::Time;
use std::marker::Model;
use std::time::Duration;

/// The milliseconds after which a turn ends, with the request that it is at.
const SPAN: u64 = 1;

/// How much a turn may do.
#[derive(Clone, Copy, Debug, PartialEq, Eq)]
pub struct TurnBounds {
    /// What each of its steps may do.
    pub work: Work,
    /// No request that may take long is answered.
    pub is_brief: bool,
    /// Others wait for a turn: it ends behind a share of work on a query.
    pub is_shared: bool,
}

/// What a turn came to so far.
#[derive(Clone, Copy, Debug)]
pub struct Done {
    /// How many requests were answered.
    pub answered: u32,
    /// The last step in which a request was answered or worked on.
    pub last: Option<Answered>,
    /// A share of work was done, or a request waits for one.
    pub has_worked: bool,
    // The last answer was given: a framing fault.
    has_faulted: bool,
    // A tenant was answered.
    has_heard: bool,
}

/// A core that answers in turns, and rests once a turn took long. Its value is the core's.
#[derive(Drop)]
pub struct Counted<C: LoopCore, T: Time + Drop> {
    core: C,
    time: T,
    // When this turn began, where the clock tells it.
    began: Option<Duration>,
    share: TurnBounds,
    done: Done,
    // The slow query that was not told yet.
    slow: Option<Slow>,
}

impl<C: LoopCore, T: Time + Drop> Model for Counted<C, T> {
    ghost Value = { C };

    ghost view = { λ counted. counted.core };
}

impl<C: LoopCore, T: Time + Drop> Counted<C, T> {
    /// Over this core, before its first turn.
    pub fn new(time: T, core: C) -> Counted<C, T>
        ensures { result ≡ core }
    {
        Counted {
            core,
            time,
            began: None,
            share: TurnBounds {
                work: Work {
                    units: 0,
                    micros: 0,
                    since: None,
                },
                is_brief: false,
                is_shared: false,
            },
            done: nothing(),
            slow: None,
        }
    }

    /// The core itself, to look at.
    pub fn inner(&self) -> &C
        ensures { result.now ≡ self.now }
    {
        &self.core
    }

    /// Opens a connection's session, and tells whether that was not refused.
    pub fn connect(&mut self, conn: u32) -> bool
        ensures opened { MatchBool result (C.steps.opens conn (C.steps.seen self.old) (C.steps.seen self.new)) (self.new ≡ self.old) }
        ensures others { OthersKeep C.steps.left conn self.old self.new }
    {
        self.core.connect(conn)
    }

    /// Ends a connection's session, and the work that it has under way.
    pub fn disconnect(&mut self, conn: u32)
        ensures closed { C.steps.closes conn (C.steps.seen self.old) (C.steps.seen self.new) }
        ensures ended { C.steps.left conn self.new ≡ None }
        ensures others { OthersKeep C.steps.left conn self.old self.new }
    {
        self.core.disconnect(conn);
    }

    /// Gives up the work that a connection has under way.
    pub fn give_up(&mut self, conn: u32)
        ensures seen { C.steps.seen self.new ≡ C.steps.seen self.old }
        ensures ended { C.steps.left conn self.new ≡ None }
        ensures others { OthersKeep C.steps.left conn self.old self.new }
    {
        self.core.give_up(conn);
    }

    /// A turn is prepared, which came to nothing yet.
    pub fn prepare(&mut self)
        ensures { self.new ≡ self.old }
    {
        self.done = nothing();
    }

    /// A turn begins.
    pub(crate) fn begin(&mut self, share: TurnBounds)
        ensures { self.new ≡ self.old }
    {
        self.began = self.time.now();
        self.share = share;
        self.share.work.since = self.began;
        self.done = nothing();
    }

    /// What this turn came to so far.
    pub fn done(&self) -> Done {
        self.done
    }

    /// The last slow query, which is told once.
    pub fn take_slow(&mut self) -> Option<Slow>
        ensures { self.new ≡ self.old }
    {
        let slow = self.slow;
        self.slow = None;
        slow
    }

    /// The microseconds since this turn began, told once. 0 where the clock does not tell them.
    pub fn take_micros(&mut self) -> u64
        ensures { self.new ≡ self.old }
    {
        let began = self.began;
        self.began = None;
        match (began, self.time.now()) {
            (Some(began), Some(now)) => {
                u64::try_from(now.saturating_sub(began).as_micros()).unwrap_or(u64::MAX)
            }
            _ => 0,
        }
    }

    // Whether this turn did what it may do, however long it took. Where the request in front waits, or is not answered in a brief turn, nothing is left to do.
    fn is_over(&self) -> bool {
        self.done.has_worked && (self.share.is_shared || !self.done.has_gone_on())
    }

    // Notes a step.
    fn note_answer(&mut self, answered: &Answered)
        ensures { self.new ≡ self.old }
    {
        self.done.note_answer(answered);
        self.share.work = work_behind(self.share.work, answered);
        if answered.is_slow {
            self.slow = Some(slow_of(answered));
        }
    }
}

impl<C: LoopCore, T: Time + Drop> Core for Counted<C, T> {
    ghost Seen = { C.steps.Seen };

    ghost seen = { C.steps.seen };

    ghost takes = { C.steps.takes };

    ghost answers = { C.steps.answers };

    ghost idle = { C.steps.idle };

    ghost over = { C.over };

    ghost left = { C.steps.left };

    ghost holds = { is_held C.waits C.longs };

    fn take(&mut self, conn: u32, piece: &[u8]) -> bool {
        self.share.work.since = self.time.now();
        self.core.take(conn, piece)
    }

    fn answer_next(&mut self, conn: u32, is_brief: bool, out: &mut Vec<u8>) -> Step {
        let answered = self
            .core
            .answer(conn, self.share.work, is_brief, &self.time, out);
        self.note_answer(&answered);
        answered.step
    }

    fn rests(&self) -> bool {
        if self.is_over() {
            return true;
        }
        match (self.began, self.share.work.since) {
            (Some(began), Some(now)) => now.saturating_sub(began) >= Duration::from_millis(SPAN),
            _ => false,
        }
    }
}

impl Done {
    // Notes a step.
    fn note_answer(&mut self, answered: &Answered) {
        match answered.step {
            Step::Replied | Step::Last => {
                self.answered = self.answered.saturating_add(1);
                self.has_heard = self.has_heard || answered.asked.tenant.is_some();
                self.has_faulted = self.has_faulted || answered.step == Step::Last;
                self.last = Some(*answered);
            }
            Step::Working => {
                self.has_worked = true;
                self.last = Some(*answered);
            }
            Step::Idle | Step::Refused => {}
        }
    }

    /// Whether the last step went on with a query or a text, which is under way.
    pub fn has_gone_on(&self) -> bool {
        match &self.last {
            Some(answered) => answered.has_gone_on,
            None => false,
        }
    }

    /// Whether a tenant was answered.
    pub(crate) fn has_heard(&self) -> bool {
        self.has_heard
    }

    /// Whether the last answer was given.
    pub(crate) fn has_faulted(&self) -> bool {
        self.has_faulted
    }
}

// No step was done.
fn nothing() -> Done {
    Done {
        answered: 0,
        last: None,
        has_worked: false,
        has_faulted: false,
        has_heard: false,
    }
}

fn slow_of(answered: &Answered) -> Slow {
    Slow {
        tenant: answered.asked.tenant,
        units: answered.units,
        micros: answered.micros,
    }
}

// What the next step may do behind one: a request that was answered takes no more time.
fn work_behind(work: Work, answered: &Answered) -> Work {
    Work {
        micros: answered.worked(),
        since: answered.ended,
        ..work
    }
}
