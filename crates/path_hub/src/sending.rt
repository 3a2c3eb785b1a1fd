//! The replies to a piece of a connection, written to its wire.
ghost use Rattle.std.specs.Prelude.{◌≡◌, ◌-◌, ◌^◌, ◌<◌, [], true};
ghost use Rattle.path_hub.specs.Sending.{Sends, SendsMore};

use crate::fault::{HubFault, TakeFault};
use crate::hub::Hub;
use crate::wire::{Wire, write_all};
use std::alloc::Global;
use wire_frames::splits_from_the_front;

/// From so many bytes on, replies are written before further ones are gathered.
const MOST_UNSENT: usize = 65_536;

/// Takes a piece of a connection's stream, answers what is whole then, and writes the replies, tells what `Hub::bytes` would, and
/// whether all of the replies are written. After a write that failed, the other frames are answered all the same.
///
/// Replies are gathered up to [`MOST_UNSENT`] bytes and one reply, so that a piece of many requests for large texts takes no more
/// memory than one of them.
pub fn send_replies<W: Wire>(
    alloc: Global,
    hub: &mut Hub,
    conn: u32,
    wire: &mut W,
    piece: &[u8],
    out: &mut Vec<u8>,
) -> (Result<(), HubFault>, bool)
    requires failures { (W.meaning wire.old).failures < 2 ^ 64 - 1 }
    requires empty { out.old.items ≡ [] }
    ensures { Sends conn piece.now hub.old (W.meaning wire.old) result.0 result.1 hub.new (W.meaning wire.new) }
{
    splits_from_the_front();
    match hub.take(conn, piece) {
        Ok(()) => {}
        Err(TakeFault::NoConnection) => return (Err(HubFault::NoConnection), true),
        Err(TakeFault::Closed) => return (Err(HubFault::Closed), true),
        Err(TakeFault::Memory) => return (Err(HubFault::Memory { taken: false }), true),
    }
    let mut written = true;
    'frames: loop {
        match hub.answer_next(alloc, conn, out) {
            Ok(true) => {
                if out.len() >= MOST_UNSENT {
                    written = send(wire, out, written);
                }
            }
            Ok(false) => return (Ok(()), send(wire, out, written)),
            Err(_) => {
                return (
                    Err(HubFault::Memory { taken: true }),
                    send(wire, out, written),
                );
            }
        }
    }
}

/// Writes what is gathered, where no write failed before, and lets it go. Whether no write failed.
fn send<W: Wire>(wire: &mut W, out: &mut Vec<u8>, written: bool) -> bool
    requires failures { written ≡ true → (W.meaning wire.old).failures < 2 ^ 64 - 1 }
    ensures sent { SendsMore (W.meaning wire.old) written out.old.items result (W.meaning wire.new) }
    ensures empty { out.new.items ≡ [] }
{
    if !written {
        out.clear();
        return false;
    }
    let done = write_all(wire, out);
    out.clear();
    done
}
