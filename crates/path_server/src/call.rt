//! Requests sent over a wire, a line each, and the lines of the replies.

ghost use Rattle.std.specs.Prelude.{◌≡◌, ◌-◌, ◌^◌, ◌<◌, IfOk, map, vec_len};
ghost use Rattle.path_server.specs.Calls.{Calls, CallsOver, frame_of};

use crate::call_fault::CallFault;
use crate::exchange::exchange;
use crate::frame_lines::append_frame;
use crate::replay::SCRIPT_LIMIT;
use crate::request_lines::Request;
use crate::text_lines::read_lines;
use path_hub::Wire;
use std::alloc::{AllocError, Global};

/// The most bytes of one read.
const LONGEST_PIECE: usize = 65_536;

fn zeros(alloc: Global, n: usize) -> Result<Vec<u8>, AllocError>
    ensures { IfOk result (λ v. vec_len v ≡ n) }
{
    vec![in alloc; 0u8; n]
}

fn exchange_all<W: Wire>(
    alloc: Global,
    wire: &mut W,
    requests: &[Request],
    out: &mut Vec<u8>,
) -> Result<(), CallFault>
    requires { (W.meaning wire.old).failures < 2 ^ 64 - 1 }
    ensures { Calls (map frame_of requests.now) (W.meaning wire.old) out.old.items result (W.meaning wire.new) out.new.items }
{
    let mut buffer = zeros(alloc, LONGEST_PIECE)?;
    let mut reply = Vec::new(alloc);
    for request in requests {
        exchange(
            wire,
            request.frame.as_slice(),
            buffer.as_mut_slice(),
            &mut reply,
        )?;
        append_frame(alloc, reply.as_slice(), out)?;
    }
    Ok(())
}

/// Sends requests over a wire, one after another, and appends a line for each reply: the frame's bytes in lower-case hexadecimal
/// digits, and a line feed.
///
/// A line is the hexadecimal digits, in either case, of exactly one whole request frame within [`wire_frames::LONGEST_BODY`]. Each
/// ends in a line feed, which the last may lack. A request is sent once the reply to the one before was read whole, and no byte
/// beyond that reply is taken off the wire before.
///
/// Refused are, in this order and before anything is sent, more than [`SCRIPT_LIMIT`] bytes (TooLong) and a line that spells no
/// request (BadLine). ReadFault comes if a read failed, if the input ended before a reply was whole, or after a length above
/// [`tenant_store::LONGEST_REPLY`]. WriteFault comes if a write failed, and Memory if an allocation failed. The lines of the replies that were read stay, at
/// Memory perhaps without the last. The wire's count of failures has room for one more.
pub fn call_over<W: Wire>(
    alloc: Global,
    wire: &mut W,
    lines: &[u8],
    out: &mut Vec<u8>,
) -> Result<(), CallFault>
    requires { (W.meaning wire.old).failures < 2 ^ 64 - 1 }
    ensures { CallsOver lines.now (W.meaning wire.old) out.old.items result (W.meaning wire.new) out.new.items }
{
    if lines.len() > SCRIPT_LIMIT {
        return Err(CallFault::TooLong);
    }
    let requests: Vec<Request> = read_lines(alloc, lines)?;
    exchange_all(alloc, wire, requests.as_slice(), out)
}
