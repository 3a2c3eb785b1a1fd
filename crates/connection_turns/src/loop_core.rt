//! What a loop asks of the core that answers its connections.
ghost use Rattle.std.specs.Prelude.{◌≡◌, ℕ, Bool, IsFalse, IsTrue, List, None, Option};
ghost use Rattle.std.specs.Bool.{MatchBool};
ghost use Rattle.admin_pages.specs.declared.counted.Metrics.{Metrics};
ghost use Rattle.connection_turns.specs.Cores.{CoreSteps, IsMost, is_held};
ghost use Rattle.outbox.specs.Appends.{Appends, IsLess, KeepsWork, OthersKeep};
ghost use Rattle.tenant_map.specs.declared.usage.Usage.{Usage};

use crate::ahead::Ahead;
use crate::answered::{Answered, Work};
use admin_pages::Metrics;
use outbox::Step;
use socket_poll::Time;
use tenant_map::Usage;

/// A core of turns, as a loop over many connections needs it: each connection has a session, and its answers are counted.
pub trait LoopCore: Drop {
    /// What it does at a connection.
    ghost steps: { CoreSteps Self };

    /// No further request of the connection is answered.
    ghost over: { ℕ → steps.Seen → Bool };

    /// What it has counted.
    ghost counted: { Self → Metrics };

    /// The place of the tenant whose key is in front of what waits on a connection.
    ghost fronts: { ℕ → Self → Option ℕ };

    /// Whether the request that is answered next on a connection waits for what others have under way.
    ghost waits: { ℕ → Self → Bool };

    /// Whether the request that is answered next on a connection may take long.
    ghost longs: { ℕ → Self → Bool };

    /// How much the tenant with a key holds.
    ghost held: { List ℕ → Self → Option Usage };

    /// Opens a connection's session, and tells whether that was not refused.
    fn connect(&mut self, conn: u32) -> bool
        ensures opened { MatchBool result (steps.opens conn (steps.seen self.old) (steps.seen self.new)) (self.new ≡ self.old) }
        ensures others { OthersKeep steps.left conn self.old self.new };

    /// Ends a connection's session, and the work that it has under way.
    fn disconnect(&mut self, conn: u32)
        ensures closed { steps.closes conn (steps.seen self.old) (steps.seen self.new) }
        ensures ended { steps.left conn self.new ≡ None }
        ensures others { OthersKeep steps.left conn self.old self.new };

    /// Takes a piece, which is not empty. `false` if it declines the piece and changes nothing.
    fn take(&mut self, conn: u32, piece: &[u8]) -> bool
        ensures taken { MatchBool result (steps.takes conn (steps.seen self.old) piece.now (steps.seen self.new) × (over conn (steps.seen self.new) ≡ over conn (steps.seen self.old))) (self.new ≡ self.old) }
        ensures works { KeepsWork (steps.left conn self.old) (steps.left conn self.new) }
        ensures others { OthersKeep steps.left conn self.old self.new };

    /// Appends the reply to the connection's next request, or does a share of the work on it, which leaves less of it. Nothing is done where the request waits for
    /// others, or where it may take long and only brief work is wanted.
    fn answer<T: Time>(
        &mut self,
        conn: u32,
        work: Work,
        is_brief: bool,
        time: &T,
        out: &mut Vec<u8>,
    ) -> Answered
        ensures appends { Appends (steps.answers conn) (steps.idle conn) (over conn) result.step (steps.seen self.old) out.old.items out.new.items (steps.seen self.new) }
        ensures less { result.step ≡ Step.Working → IsTrue result.has_gone_on → IsLess (steps.left conn self.old) (steps.left conn self.new) }
        ensures waiting { result.step ≡ Step.Working → IsFalse result.has_gone_on → IsTrue (is_held waits longs is_brief conn self.old) × (self.new ≡ self.old) }
        ensures none { result.step ≡ Step.Idle → steps.left conn self.new ≡ steps.left conn self.old }
        ensures others { OthersKeep steps.left conn self.old self.new };

    /// What is in front on a connection.
    fn front(&self, conn: u32) -> Ahead
        ensures ahead { steps.aheads conn self.now result }
        ensures most { IsMost (steps.answers conn) (steps.seen self.now) result.most_reply }
        ensures tenant { result.tenant ≡ fronts conn self.now }
        ensures waits { result.waits ≡ waits conn self.now }
        ensures long { result.is_long ≡ longs conn self.now };

    /// Gives up the work that a connection has under way.
    fn give_up(&mut self, conn: u32)
        ensures seen { steps.seen self.new ≡ steps.seen self.old }
        ensures ended { steps.left conn self.new ≡ None }
        ensures others { OthersKeep steps.left conn self.old self.new };

    /// What was counted.
    fn metrics(&self) -> &Metrics
        ensures { result.now ≡ counted self.now };

    /// How much the tenant with this key holds.
    fn usage(&self, key: &[u8; 16]) -> Option<Usage>
        ensures { result ≡ held key.now self.now };

    /// The bytes of memory that the documents of the tenant with this key take. 0 if there is none.
    fn memory(&self, key: &[u8; 16]) -> u64;
}
