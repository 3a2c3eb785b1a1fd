//! The frames of replies.
ghost use Rattle.std.specs.Prelude.{◌≡◌, ◌≤◌, ◌+◌, ◌++◌, length, OnOk, OnErr, IsOk, vec_len};
ghost use Rattle.std.specs.Vec.{vec_capacity};
ghost use Rattle.store_names.specs.Lengths.{payload_limit};
ghost use Rattle.wire_frames.specs.Replies.{head, reply};

use std::alloc::AllocError;
use store_names::BEFORE_PAYLOAD;

/// The first bytes of a reply frame, up to its payload, of which only the length is asked: at most
/// [`store_names::PAYLOAD_LIMIT`] bytes.
pub fn reply_head(status: u8, number: u32, payload: u32) -> [u8; 9]
    requires { payload ≤ payload_limit }
    ensures { result ≡ head status number payload }
{
    let [a, b, c, d] = (BEFORE_PAYLOAD + payload).to_be_bytes();
    let [e, f, g, h] = number.to_be_bytes();
    [a, b, c, d, status, e, f, g, h]
}

/// Appends a reply frame with a payload of at most [`store_names::PAYLOAD_LIMIT`] bytes. It grows the vector at most once.
///
/// # Errors
///
/// Where a growth was refused, which is never where the frame fits into the vector's capacity. The vector's bytes are
/// unchanged then.
#[tactic(auto, unfolding(crate::specs::Replies::reply))]
pub fn write_reply(
    status: u8,
    number: u32,
    payload: &[u8],
    out: &mut Vec<u8>,
) -> Result<(), AllocError>
    requires { length payload.now ≤ payload_limit }
    ensures appended { OnOk result (out.new.items ≡ out.old.items ++ reply status number payload.now) }
    ensures fits { vec_len out.old + (9 + length payload.now) ≤ vec_capacity out.old → IsOk result }
    ensures unchanged { OnErr result (out.new.items ≡ out.old.items) }
    ensures same_length { OnErr result (vec_len out.new ≡ vec_len out.old) }
    ensures capacity { vec_capacity out.old ≤ vec_capacity out.new }
{
    let head = reply_head(status, number, payload.len() as u32);
    out.reserve(head.len() + payload.len())?;
    out.extend_from_slice(&head)?;
    out.extend_from_slice(payload)
}
