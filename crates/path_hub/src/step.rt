//! One step of a connection: a frame or a fault is taken and answered.
ghost use Rattle.std.specs.Prelude.{◌≡◌, IfOk, OnOk, OnErr, [], IsTrue, false};
ghost use Rattle.std.specs.Bool.{MatchBool};
ghost use Rattle.path_hub.specs.Pending.{Answered, IsIdle, IsDue, AnswersSome, pending};

use crate::event::Reply;
use crate::sharing::{Work, answer_some};
use crate::tasks::{Advance, Tasks};
use query_cache::Cache;
use std::alloc::{AllocError, Global};
use tape_select::BUDGET;
use tenant_store::Tenants;
use wire_frames::{Framer, Front, splits_from_the_front};

// By which the names of long texts are hashed: one connection alone has no strangers.
const FACTOR: u64 = 0x9E37_79B9_7F4A_7C15;

/// Takes one frame or fault of a connection and answers it: a share with nothing under way, of so many units that nothing is left. There is
/// `false` where none is whole. Only where one is, growth may be refused, and that changes nothing.
pub fn answer_next(
    framer: &mut Framer,
    tenants: &mut Tenants,
    cache: &mut Cache,
    alloc: Global,
    out: &mut Vec<u8>,
) -> Result<bool, AllocError>
    ensures step { IfOk result (λ more. MatchBool more
        (Answered framer.old tenants.old out.old.items framer.new tenants.new out.new.items)
        (IsIdle framer.old tenants.old out.old.items framer.new tenants.new out.new.items)) }
    ensures due { OnErr result (IsDue framer.old) }
    ensures same_framer { OnErr result (framer.new ≡ framer.old) }
    ensures same_tenants { OnErr result (tenants.new ≡ tenants.old) }
    ensures same_out { OnErr result (out.new.items ≡ out.old.items) }
{
    let mut tasks = Tasks::new(alloc, FACTOR);
    let work = Work {
        alloc,
        conn: 0,
        units: BUDGET,
    };
    match answer_some(framer, tenants, cache, &mut tasks, work, out) {
        Ok(Advance::Idle) => Ok(false),
        Ok(Advance::Replied { .. } | Advance::Working) => Ok(true),
        Err(fault) => Err(fault),
    }
}

// Whether a whole frame or a fault waits.
fn is_due(framer: &Framer) -> bool
    ensures due { IsTrue result → IsDue framer.now }
    ensures none { result ≡ false → pending framer.now ≡ [] }
{
    splits_from_the_front();
    if framer.is_closed() {
        return false;
    }
    match framer.front() {
        Front::Wait => false,
        Front::Fault | Front::Frame(_) => true,
    }
}

/// Answers all that is whole on a connection, a reply for each frame and for a fault. Where memory runs out some of it
/// is answered, and more waits.
pub fn answer_all(
    conn: u32,
    framer: &mut Framer,
    tenants: &mut Tenants,
    cache: &mut Cache,
    alloc: Global,
    out: &mut Vec<Reply>,
) -> Result<(), AllocError>
    ensures some { AnswersSome conn framer.old tenants.old out.old.items framer.new tenants.new out.new.items }
    ensures all { OnOk result (pending framer.new ≡ []) }
    ensures due { OnErr result (IsDue framer.new) }
{
    splits_from_the_front();
    'frames: loop {
        if !is_due(framer) {
            return Ok(());
        }
        out.reserve(1)?;
        let mut frame = Vec::new(alloc);
        answer_next(framer, tenants, cache, alloc, &mut frame)?;
        out.push(Reply { conn, frame }).unwrap();
    }
}
