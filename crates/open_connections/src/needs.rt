//! What a connection needs of the budgets before its next step.
ghost use Rattle.std.specs.Prelude.{◌≡◌, ◌<◌, ◌≤◌, length, IsFalse, IsTrue, is_some};
ghost use Rattle.due_list.specs.Rounds.{party_of};
ghost use Rattle.outbox.specs.Lines as lines;
ghost use Rattle.open_connections.specs.Shares.{is_covered, needed, needed_for};
ghost use Rattle.open_connections.specs.Turns.{is_held_in, is_queued_in};

use crate::open::PIECE;
use connection_turns::{
    ALLOWANCE, Ahead, Claim, Connection, LoopCore, Need, OWED, Pool, Purpose, TurnPlan,
};
use due_list::party_of;
use socket_poll::Peer;

/// Whether a reply of so many bytes may be given with this share, or with none.
pub(crate) fn covers(claim: Option<Claim>, reply: usize) -> bool
    ensures { result ≡ is_covered claim reply }
{
    match claim {
        Some(claim) => claim.covers(reply),
        None => reply <= ALLOWANCE,
    }
}

/// Whether a share is for a reply that is to be given.
pub(crate) fn is_for_reply(claim: Option<Claim>) -> bool {
    match claim {
        Some(claim) => matches!(claim.purpose, Purpose::Reply),
        None => false,
    }
}

/// Whether a share is held, and waits no more.
pub(crate) fn is_held(claim: Option<Claim>) -> bool
    ensures held { result ≡ is_held_in claim }
    ensures queued { IsFalse result → IsTrue (is_some claim) → IsTrue (is_queued_in claim) }
{
    match claim {
        Some(claim) => claim.is_granted,
        None => false,
    }
}

/// Whether bytes wait where this is in front, or a request that may be answered.
pub(crate) fn has_part(front: Option<Ahead>) -> bool {
    match front {
        Some(front) => front.waiting > 0,
        None => true,
    }
}

/// The most bytes that a turn reads: what is left of a frame that there is room for, and else what each may have.
pub(crate) fn piece_of<S: Peer, C: LoopCore>(
    connection: &Connection<S>,
    plan: TurnPlan,
    core: &C,
    conn: u32,
) -> usize
    ensures some { 0 < result }
    ensures within { result ≤ 65536 }
{
    if plan == TurnPlan::Read && connection.claim.is_some() {
        match core.front(conn).part {
            Some(part) => part.left.min(PIECE).max(1),
            None => ALLOWANCE,
        }
    } else {
        ALLOWANCE
    }
}

/// The need of a reply to what is in front on a connection.
pub(crate) fn need_of_reply(front: &Ahead) -> Need
    ensures { result ≡ record { pool = Pool.Tenants; party = party_of front.now.tenant; purpose = Purpose.Reply; bytes = front.now.most_reply } }
{
    Need {
        pool: Pool::Tenants,
        party: party_of(front.tenant),
        purpose: Purpose::Reply,
        bytes: front.most_reply,
    }
}

/// What a connection without a share needs beside a reply, where this is in front and not to be answered.
pub(crate) fn need<S: Peer>(connection: &Connection<S>, front: Option<Ahead>) -> Option<Need>
    ensures { result ≡ needed (length connection.now.outbox.owed) (lines.reads connection.now.outbox) connection.now.tenant front }
{
    let owed = connection.outbox.owed().len();
    if owed > OWED {
        return Some(Need {
            pool: Pool::Tenants,
            party: party_of(connection.tenant),
            purpose: Purpose::Written,
            bytes: owed,
        });
    }
    match front {
        Some(front) if connection.outbox.reads() => need_of_frame(&front),
        _ => None,
    }
}

// The share of a frame that came in part.
fn need_of_frame(front: &Ahead) -> Option<Need>
    ensures { result ≡ needed_for front.now.tenant front.now.part }
{
    let part = front.part?;
    if part.length <= ALLOWANCE {
        return None;
    }
    let (pool, party) = match front.tenant {
        Some(place) => (Pool::Tenants, party_of(Some(place))),
        None => (Pool::Strangers, 0),
    };
    Some(Need {
        pool,
        party,
        purpose: Purpose::Frame,
        bytes: part.length,
    })
}
