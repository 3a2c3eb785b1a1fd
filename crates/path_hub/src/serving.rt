//! A connection served over a wire.
ghost use Rattle.std.specs.Prelude.{◌≡◌, ◌-◌, ◌^◌, ◌<◌, ◌≤◌, length, None, IfOk, vec_len};
ghost use Rattle.path_hub.specs.Sessions.{session};
ghost use Rattle.path_hub.specs.Serving.{ServesConnection, longest_piece};
ghost use Rattle.path_hub.specs.Turns.{Turns, PieceTurns, IsPiece, EndsTurns, KeepsFailures};

use crate::hub::Hub;
use crate::sending::send_replies;
use crate::wire::{ConnEnd, Wire};
use std::alloc::{AllocError, Global};
use wire_frames::splits_from_the_front;

/// The most bytes that one read takes.
const LONGEST_PIECE: usize = 65_536;

/// The most reads that give bytes.
const MOST_TURNS: u32 = 1_000_000;

/// Serves a connection until its input ends or a fault comes, and closes its session. The replies to each piece are written before the
/// next is read.
///
/// The result is `Done` at the end of the input, `FrameFault` once the reply to a framing fault is written, and `TurnLimit` after
/// 1,000,000 reads that gave bytes. All replies are then written. It is `ReadFault` or `WriteFault` only if a read or write of the
/// wire failed, and `Memory` if an allocation failed. The wire must be able to count one more failure and 1,000,000 more reads.
pub fn serve_connection<W: Wire>(alloc: Global, hub: &mut Hub, conn: u32, wire: &mut W) -> ConnEnd
    requires free { session conn hub.old.sessions ≡ None }
    requires failures { (W.meaning wire.old).failures < 2 ^ 64 - 1 }
    requires reads { (W.meaning wire.old).reads ≤ 18446744073708551615 }
    ensures { ServesConnection conn hub.old (W.meaning wire.old) result hub.new (W.meaning wire.new) }
{
    splits_from_the_front();
    if hub.connect(alloc, conn).is_err() {
        return ConnEnd::Memory;
    }
    let end = serve_turns(alloc, hub, conn, wire);
    hub.disconnect(conn);
    end
}

fn zeros(alloc: Global, n: usize) -> Result<Vec<u8>, AllocError>
    ensures { IfOk result (λ v. vec_len v ≡ n) }
{
    vec![in alloc; 0u8; n]
}

/// Serves an open connection.
fn serve_turns<W: Wire>(alloc: Global, hub: &mut Hub, conn: u32, wire: &mut W) -> ConnEnd
    requires failures { (W.meaning wire.old).failures < 2 ^ 64 - 1 }
    requires reads { (W.meaning wire.old).reads ≤ 18446744073708551615 }
    ensures { EndsTurns conn hub.old (W.meaning wire.old) result hub.new (W.meaning wire.new) }
{
    let Ok(mut buffer) = zeros(alloc, LONGEST_PIECE) else {
        return ConnEnd::Memory;
    };
    let mut out = Vec::new(alloc);
    'turns: for _ in 0..MOST_TURNS {
        if let Some(end) = serve_turn(alloc, hub, conn, wire, buffer.as_mut_slice(), &mut out) {
            return end;
        }
    }
    ConnEnd::TurnLimit
}

/// One read, and the replies to what it gave. `None` where another may follow.
fn serve_turn<W: Wire>(
    alloc: Global,
    hub: &mut Hub,
    conn: u32,
    wire: &mut W,
    buffer: &mut [u8],
    out: &mut Vec<u8>,
) -> Option<ConnEnd>
    requires failures { (W.meaning wire.old).failures < 2 ^ 64 - 1 }
    requires some { 0 < length buffer.old }
    requires few { length buffer.old ≤ longest_piece }
    ensures kept { KeepsFailures (W.meaning wire.old) result (W.meaning wire.new) }
    ensures turn { Turns conn hub.old (W.meaning wire.old) result hub.new (W.meaning wire.new) }
    ensures len { length buffer.new ≡ length buffer.old }
{
    match wire.read(buffer) {
        Err(_) => Some(ConnEnd::ReadFault),
        Ok(n) => {
            if n == 0 {
                return Some(ConnEnd::Done);
            }
            answer_piece(alloc, hub, conn, wire, &buffer[..n], out)
        }
    }
}

/// Writes the replies to a piece.
fn answer_piece<W: Wire>(
    alloc: Global,
    hub: &mut Hub,
    conn: u32,
    wire: &mut W,
    piece: &[u8],
    out: &mut Vec<u8>,
) -> Option<ConnEnd>
    requires failures { (W.meaning wire.old).failures < 2 ^ 64 - 1 }
    requires piece { IsPiece piece.now }
    ensures kept { KeepsFailures (W.meaning wire.old) result (W.meaning wire.new) }
    ensures turn { PieceTurns conn piece.now hub.old (W.meaning wire.old) result hub.new (W.meaning wire.new) }
{
    splits_from_the_front();
    out.clear();
    let (answered, written) = send_replies(alloc, hub, conn, wire, piece, out);
    if answered.is_err() {
        return Some(ConnEnd::Memory);
    }
    if !written {
        return Some(ConnEnd::WriteFault);
    }
    if hub.is_closed(conn) {
        return Some(ConnEnd::FrameFault);
    }
    None
}
