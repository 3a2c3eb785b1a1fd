//! A hub whose answers are counted.
ghost use Rattle.std.specs.Prelude.{◌≡◌, drop, slice_index, unwrap_or};
ghost use Rattle.hub_server.specs.Measuring.{Counts, is_of_limit, is_slow, measured, refused_by, served};

use admin_pages::{Metrics, Served};
use connection_turns::{Ahead, Answered, LoopCore, RequestKind, Work};
use hub_core::HubCore;
use outbox::Step;
use socket_poll::Time;
use std::marker::Model;
use std::time::Duration;
use tenant_map::Usage;

/// The place of the status in a reply, behind its length.
const STATUS: usize = 4;

/// The command that a query has.
const QUERY: u8 = 5;

/// A hub whose answers are counted. Its value is the hub and the counts, and what is under way.
#[derive(Drop)]
pub struct MeasuredHub {
    core: HubCore,
    metrics: Metrics,
    // The microseconds above which a query is slow, if one can be.
    bound: Option<u64>,
}

impl Model for MeasuredHub {
    ghost use Rattle.std.specs.Coded.{codes};
    ghost use Rattle.path_hub.specs.contracts.tasks.Tasks as under_way;
    ghost use Rattle.hub_server.specs.Measuring.{MeasuredWork};

    ghost Value = { MeasuredWork };

    ghost coded = { Prim.hlevel (codes, under_way.the_row.coded) };

    ghost view = { λ m. record { seen = record { hub = m.core.hub; metrics = m.metrics }; tasks = m.core.tasks } };
}

impl MeasuredHub {
    /// Over this hub. Nothing is counted yet.
    pub fn new(core: HubCore) -> MeasuredHub
        ensures { result.seen ≡ measured core.hub }
    {
        MeasuredHub {
            core,
            metrics: Metrics::new(),
            bound: None,
        }
    }

    /// Counts and tells queries that took longer than so many microseconds from now on.
    pub fn tell_slow(&mut self, micros: u64)
        ensures { self.new ≡ self.old }
    {
        self.bound = Some(micros);
    }

    // Counts a reply to what was asked, and tells whether it is one to a slow query.
    fn count(&mut self, answered: Answered, reply: &[u8]) -> Answered
        ensures counts { Counts answered.asked reply.now self.old.seen self.new.seen }
        ensures tasks { self.new.tasks ≡ self.old.tasks }
        ensures step { result.step ≡ answered.step }
        ensures goes_on { result.has_gone_on ≡ answered.has_gone_on }
    {
        let served = served(
            answered.asked,
            reply,
            answered.micros,
            answered.units,
            self.bound,
        );
        self.metrics.count(&served);
        Answered {
            is_slow: served.is_slow,
            ..answered
        }
    }
}

impl LoopCore for MeasuredHub {
    ghost use Rattle.std.specs.Prelude.{List};
    ghost use Rattle.std.specs.Option.{option_map};
    ghost use Rattle.request_replies.specs.Tenants.{map_of};
    ghost use Rattle.tenant_map.specs.Quotas.{usage_of};
    ghost use Rattle.hub_core.specs.Needs.{front_at};
    ghost use Rattle.hub_server.specs.Measuring.{hub_longs, hub_steps, hub_waits, is_over};

    ghost steps = { hub_steps };

    ghost over = { is_over };

    ghost counted = { λ m. m.seen.metrics };

    ghost fronts = { λ conn m. front_at conn m.seen.hub };

    ghost waits = { hub_waits };

    ghost longs = { hub_longs };

    ghost held = { λ key m. option_map usage_of (map_of key m.seen.hub.tenants) };

    fn connect(&mut self, conn: u32) -> bool {
        self.core.connect(conn).is_ok()
    }

    fn disconnect(&mut self, conn: u32) {
        self.core.disconnect(conn);
    }

    fn take(&mut self, conn: u32, piece: &[u8]) -> bool {
        self.core.take(conn, piece)
    }

    fn answer<T: Time>(
        &mut self,
        conn: u32,
        work: Work,
        is_brief: bool,
        time: &T,
        out: &mut Vec<u8>,
    ) -> Answered {
        let before = out.as_slice().len();
        let answered = self.core.answer(conn, work, is_brief, out);
        match answered.step {
            Step::Replied => self.count(
                timed(answered, work, time),
                behind(out.as_slice(), before),
            ),
            Step::Last => self.count(timed(answered, work, time), behind(out.as_slice(), before)),
            Step::Working => timed(answered, work, time),
            Step::Idle => answered,
            Step::Refused => answered,
        }
    }

    fn front(&self, conn: u32) -> Ahead {
        self.core.front(conn)
    }

    fn give_up(&mut self, conn: u32) {
        self.core.give_up(conn);
    }

    fn metrics(&self) -> &Metrics {
        &self.metrics
    }

    fn usage(&self, key: &[u8; 16]) -> Option<Usage> {
        self.core.usage(key)
    }

    fn memory(&self, key: &[u8; 16]) -> u64 {
        self.core.memory(key)
    }
}

// A step that ended now, with the microseconds that its request took so far.
fn timed<T: Time>(answered: Answered, work: Work, time: &T) -> Answered
    ensures step { result.step ≡ answered.step }
    ensures asked { result.asked ≡ answered.asked }
    ensures goes_on { result.has_gone_on ≡ answered.has_gone_on }
{
    let now = time.now();
    Answered {
        micros: work.micros.saturating_add(between(work.since, now)),
        ended: now,
        ..answered
    }
}

// What is counted of a request that took so many microseconds and was charged so many units.
fn served(
    asked: RequestKind,
    reply: &[u8],
    micros: u64,
    units: Option<u64>,
    bound: Option<u64>,
) -> Served
    ensures { result ≡ served asked reply.now micros (unwrap_or units 0) bound }
{
    let status = status_of(reply);
    Served {
        command: asked.command,
        status,
        tenant: asked.tenant,
        micros,
        units: units.unwrap_or(0),
        refused: refused_by(status, asked.bytes),
        is_slow: is_slow(asked.command, micros, bound),
    }
}

fn status_of(reply: &[u8]) -> u8
    ensures { result ≡ slice_index reply.now 4 }
{
    reply.get(STATUS).copied().unwrap_or(0)
}

// The bytes of a request that a limit refused.
fn refused_by(status: u8, bytes: u64) -> u64
    ensures { result ≡ refused_by status bytes }
{
    if is_of_limit(status) { bytes } else { 0 }
}

// Whether a limit refuses a request by this status: TooLong, TooDeep and NumberLimit, the quotas, QueryTooLong, ReplyTooLarge, NoMemory and Costly.
fn is_of_limit(status: u8) -> bool
    ensures { result ≡ is_of_limit status }
{
    matches!(status, 5 | 8 | 9 | 12..=14 | 16 | 20..=22)
}

// Whether it is a query that took longer than the bound.
fn is_slow(command: u8, micros: u64, bound: Option<u64>) -> bool
    ensures { result ≡ is_slow command micros bound }
{
    match bound {
        Some(bound) => command == QUERY && micros > bound,
        None => false,
    }
}

// What follows so many bytes.
fn behind(bytes: &[u8], count: usize) -> &[u8]
    ensures { result.now ≡ drop count bytes.now }
{
    bytes.get(count..).unwrap_or_default()
}

// The microseconds between two times. 0 if the clock does not tell them.
fn between(before: Option<Duration>, after: Option<Duration>) -> u64 {
    match (before, after) {
        (Some(before), Some(after)) => {
            u64::try_from(after.saturating_sub(before).as_micros()).unwrap_or(u64::MAX)
        }
        _ => 0,
    }
}
