//! How much a turn may do.
ghost use Rattle.std.specs.Prelude.{◌≡◌, ◌&&◌, if◌then◌else◌, nat_lt, not};
ghost use Rattle.due_list.specs.Long.{is_crowded};

use connection_turns::{TurnBounds, Work};
use due_list::DueList;

/// The units for which a query goes on where others wait for turns.
const SHARE: u64 = 400;

/// The units for which it goes on where nobody does.
const LONG_SHARE: u64 = 10_000;

/// How much a turn may do, for whose next request earlier ones took so many microseconds. Where others wait for turns, a query goes on for few units at a time,
/// and the turn ends behind them.
pub(crate) fn share_of(due: &DueList, micros: u64) -> TurnBounds
    ensures shared { result.is_shared ≡ nat_lt due.now.since_shared 16 }
    ensures units { result.work.units ≡ (if nat_lt due.now.since_shared 16 then 400 else 10000) }
    ensures brief { result.is_brief ≡ (is_crowded due.now.longs && not due.now.longs.is_under_way) }
    ensures micros { result.work.micros ≡ micros }
{
    let is_shared = due.is_shared();
    TurnBounds {
        work: Work {
            units: if is_shared { SHARE } else { LONG_SHARE },
            micros,
            since: None,
        },
        is_brief: due.is_brief(),
        is_shared,
    }
}
