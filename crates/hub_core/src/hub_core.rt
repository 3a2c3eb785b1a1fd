//! The hub as the core of turns.
ghost use Rattle.std.specs.Prelude.{◌≡◌, ◌↔◌, [], OnOk, OnErr, IsErrOf, IsFalse, IsSome, IsTrue, None, is_some};
ghost use Rattle.std.specs.Bool.{MatchBool};
ghost use Rattle.std.specs.Option.{option_map};
ghost use Rattle.outbox.specs.Appends.{Appends, IsLess, KeepsWork, OthersKeep};
ghost use Rattle.path_hub.specs.Sessions.{session};
ghost use Rattle.path_hub.specs.UnderWay.{Clears, SpendsAt, is_first_held};
ghost use Rattle.hub_core.specs.Answering.{Opens, Closes, Answers, IsIdle, is_over, takes};
ghost use Rattle.hub_core.specs.Asking.{asks};
ghost use Rattle.hub_core.specs.InFront.{IsAhead, waiting_on};
ghost use Rattle.hub_core.specs.Replies.{body_at};
ghost use Rattle.hub_core.specs.Steps.{Works, is_kept_back, left_at, share_of};
ghost use Rattle.request_replies.specs.Tenants.{map_of};
ghost use Rattle.tenant_map.specs.Quotas.{usage_of};
ghost use Rattle.wire_frames.specs.Frames.{front};

use crate::asked::asked_of;
use crate::needs::{front_of, part_of};
use crate::weights::weigh;
use connection_turns::{Ahead, Answered, Work};
use outbox::Step;
use path_hub::{Advance, ConnectFault, Hub, Tasks, work_is_left};
use std::alloc::Global;
use std::marker::Model;
use tenant_map::Usage;
use wire_frames::splits_from_the_front;

/// A hub that answers one request at a time, and a query or a long put a share at a time, as a turn needs it. Its value is the hub's.
#[derive(Drop)]
pub struct HubCore {
    hub: Hub,
    alloc: Global,
    tasks: Tasks,
}

impl Model for HubCore {
    ghost use Rattle.std.specs.Coded.{codes};
    ghost use Rattle.path_hub.specs.contracts.tasks.Tasks as under_way;
    ghost use Rattle.path_hub.specs.UnderWay.{AreOnWay};
    ghost use Rattle.hub_core.specs.Steps.{AtWork};

    ghost Value = { AtWork };

    ghost coded = { Prim.hlevel (codes, under_way.the_row.coded) };

    ghost view = { λ core. record { hub = core.hub; tasks = core.tasks } };

    ghost invariant = { λ core. AreOnWay core.hub.tenants core.tasks };
}

impl HubCore {
    /// The core of this hub, where nothing is under way. The names of long texts are hashed by the factor: whoever does not know it cannot make names that meet.
    pub fn new(alloc: Global, hub: Hub, factor: u64) -> HubCore
        ensures hub { result.hub ≡ hub }
        ensures none { result.tasks.asked.entries ≡ [] }
    {
        HubCore {
            hub,
            alloc,
            tasks: Tasks::new(alloc, factor),
        }
    }

    /// Opens a connection's session.
    ///
    /// # Errors
    ///
    /// `Taken` if it has one, `Memory` if an allocation failed. Both change nothing.
    pub fn connect(&mut self, conn: u32) -> Result<(), ConnectFault>
        ensures ok { OnOk result (Opens conn self.old.hub self.new.hub) }
        ensures taken { IsErrOf result ConnectFault.Taken ↔ IsSome (session conn self.old.hub.sessions) }
        ensures err { OnErr result (self.new ≡ self.old) }
        ensures stays { self.new.tasks ≡ self.old.tasks }
        ensures others { OthersKeep left_at conn self.old self.new }
    {
        work_is_left();
        self.hub.connect(self.alloc, conn)
    }

    /// Ends a connection's session with all that waits on it and is under way, and returns whether there was one.
    pub fn disconnect(&mut self, conn: u32) -> bool
        ensures was { result ≡ is_some (session conn self.old.hub.sessions) }
        ensures closes { Closes conn self.old.hub self.new.hub }
        ensures gives_up { Clears conn self.old.tasks self.new.tasks }
        ensures ended { left_at conn self.new ≡ None }
        ensures others { OthersKeep left_at conn self.old self.new }
    {
        work_is_left();
        self.give_up(conn);
        self.hub.disconnect(conn)
    }

    /// Takes a piece, which is not empty. It is declined where the connection has no session, where a framing fault closed it, and where a growth was refused.
    pub fn take(&mut self, conn: u32, piece: &[u8]) -> bool
        ensures taken { MatchBool result (takes conn self.old.hub piece.now self.new.hub × (is_over conn self.new.hub ≡ is_over conn self.old.hub)) (self.new ≡ self.old) }
        ensures stays { self.new.tasks ≡ self.old.tasks }
        ensures keeps { KeepsWork (left_at conn self.old) (left_at conn self.new) }
        ensures others { OthersKeep left_at conn self.old self.new }
    {
        work_is_left();
        splits_from_the_front();
        self.hub.take(conn, piece).is_ok()
    }

    /// Appends the reply to the connection's next request, or does a share of the work on it. A query goes on for so many units before others are served, and a
    /// text is read for five places a unit. A request that may take long is not answered where only brief work is wanted.
    pub fn answer(&mut self, conn: u32, work: Work, is_brief: bool, out: &mut Vec<u8>) -> Answered
        ensures appends { Appends (Answers conn) (IsIdle conn) (is_over conn) result.step self.old.hub out.old.items out.new.items self.new.hub }
        ensures asked { result.asked ≡ asks self.old.hub.tenants (body_at (front (waiting_on conn self.old.hub))) }
        ensures works { Works result.step result.units result.has_gone_on is_brief conn self.old self.new }
        ensures little { SpendsAt (share_of result.step result.units result.has_gone_on) conn self.old.hub self.old.tasks self.new.tasks work.units }
        ensures less { result.step ≡ Step.Working → IsTrue result.has_gone_on → IsLess (left_at conn self.old) (left_at conn self.new) }
        ensures waiting { result.step ≡ Step.Working → IsFalse result.has_gone_on → IsTrue (is_kept_back is_brief conn self.old) × (self.new ≡ self.old) }
        ensures none { result.step ≡ Step.Idle → left_at conn self.new ≡ left_at conn self.old }
        ensures others { OthersKeep left_at conn self.old self.new }
    {
        work_is_left();
        let asked = asked_of(self.hub.tenants(), self.hub.waiting_bytes(conn));
        let (step, units, has_gone_on) = self.step(conn, work, is_brief, out);
        Answered {
            step,
            asked,
            units,
            micros: work.micros,
            ended: work.since,
            has_gone_on,
            is_slow: false,
        }
    }

    // One step: how it ended, what was charged, and whether work went on. The reply to a framing fault is the last. Nothing goes on for a connection of which no
    // further request is answered.
    fn step(
        &mut self,
        conn: u32,
        work: Work,
        is_brief: bool,
        out: &mut Vec<u8>,
    ) -> (Step, Option<u64>, bool)
        ensures appends { Appends (Answers conn) (IsIdle conn) (is_over conn) result.0 self.old.hub out.old.items out.new.items self.new.hub }
        ensures works { Works result.0 result.1 result.2 is_brief conn self.old self.new }
        ensures little { SpendsAt (share_of result.0 result.1 result.2) conn self.old.hub self.old.tasks self.new.tasks work.units }
    {
        if self.is_kept_back(conn, is_brief) {
            return (Step::Working, None, false);
        }
        match self
            .hub
            .answer_some(self.alloc, conn, work.units, &mut self.tasks, out)
        {
            Ok(Advance::Replied { charge }) => {
                if self.hub.is_closed(conn) {
                    (Step::Last, charge, false)
                } else {
                    (Step::Replied, charge, false)
                }
            }
            Ok(Advance::Idle) => (Step::Idle, None, false),
            Ok(Advance::Working) => (Step::Working, None, true),
            Err(_) => {
                self.tasks.abandon(conn);
                (Step::Refused, None, false)
            }
        }
    }

    // Whether the request that is answered next waits for what other connections have under way, or may take long in a brief turn.
    fn is_kept_back(&self, conn: u32, is_brief: bool) -> bool
        ensures kept { result ≡ is_kept_back is_brief conn self.now }
        ensures free { IsFalse result → IsFalse (is_first_held conn self.now.hub self.now.tasks) }
    {
        self.hub.waits(conn, &self.tasks)
            || (is_brief && weigh(self.hub.tenants(), self.hub.waiting_bytes(conn)).1)
    }

    /// What is in front on a connection, and whether it waits for what other connections have under way. One with a list has at most the length of as many longest
    /// names, and one with hits the greatest length.
    pub fn front(&self, conn: u32) -> Ahead
        ensures ahead { IsAhead conn self.now.hub result }
        ensures waits { result.waits ≡ is_first_held conn self.now.hub self.now.tasks }
    {
        let (tenants, bytes) = (self.hub.tenants(), self.hub.waiting_bytes(conn));
        let (most_reply, is_long) = weigh(tenants, bytes);
        Ahead {
            waiting: bytes.len(),
            part: part_of(tenants, bytes),
            tenant: front_of(tenants, bytes),
            most_reply,
            waits: self.hub.waits(conn, &self.tasks),
            is_long,
        }
    }

    /// Gives up the work that a connection has under way, so that no request waits for it. It begins anew where the request is answered next.
    pub fn give_up(&mut self, conn: u32)
        ensures hub { self.new.hub ≡ self.old.hub }
        ensures gives_up { Clears conn self.old.tasks self.new.tasks }
        ensures ended { left_at conn self.new ≡ None }
        ensures others { OthersKeep left_at conn self.old self.new }
    {
        work_is_left();
        self.tasks.abandon(conn);
    }

    /// How much the tenant with this key holds.
    pub fn usage(&self, key: &[u8; 16]) -> Option<Usage>
        ensures { result ≡ option_map usage_of (map_of key.now self.now.hub.tenants) }
    {
        let tenants = self.hub.tenants();
        match tenants.place_of(key) {
            Some(place) => Some(tenants.tenant(place).usage()),
            None => None,
        }
    }

    /// The bytes of memory that the documents of the tenant with this key take. 0 if there is none.
    pub fn memory(&self, key: &[u8; 16]) -> u64 {
        let tenants = self.hub.tenants();
        match tenants.place_of(key) {
            Some(place) => tenants.tenant(place).memory(),
            None => 0,
        }
    }
}
