//! Replies in the bytes received.

ghost use Rattle.std.specs.Prelude.{◌≡◌, ◌≤◌, ◌+◌, ◌∷◌, ◌++◌, length};
ghost use Rattle.std.specs.Int.{w32, to_be_bytes};
ghost use Rattle.client_frames.specs.Came.{Shows};

use crate::numbers::spelled;
use store_names::{LENGTH_BYTES, LONGEST_REPLY};

/// The bytes of a reply's body before the payload: the status and the number.
const BEFORE_PAYLOAD: usize = store_names::BEFORE_PAYLOAD as usize;

/// A reply: its status, its request's number and its payload, which is empty unless the status is Ok (0).
#[derive(Clone, Copy, Debug)]
pub struct Reply<'a> {
    pub status: u8,
    pub number: u32,
    pub payload: &'a [u8],
}

/// What is at the front of the bytes received.
#[derive(Clone, Copy, Debug)]
pub enum Front<'a> {
    /// A whole reply, and the bytes after it.
    Whole(Reply<'a>, &'a [u8]),
    /// A part of a reply.
    Wait,
    /// A length that no reply has, so no reply can follow.
    NoReply,
}

/// Looks for a reply at the front of the bytes received.
pub fn front_of(bytes: &[u8]) -> Front<'_>
    ensures { Shows bytes.now result }
{
    if bytes.len() < LENGTH_BYTES {
        return Front::Wait;
    }
    let length = spelled(bytes) as usize;
    if length < BEFORE_PAYLOAD || length > LONGEST_REPLY {
        return Front::NoReply;
    }
    if bytes.len() - LENGTH_BYTES < length {
        return Front::Wait;
    }
    let (body, rest) = bytes.split_at(LENGTH_BYTES).1.split_at(length);
    Front::Whole(reply_of(body), rest)
}

/// The parts of a reply's body.
fn reply_of(body: &[u8]) -> Reply<'_>
    requires { 5 ≤ length body.now }
    ensures parts { body.now ≡ result.status ∷ (to_be_bytes w32 result.number ++ result.payload.now) }
    ensures long { length body.now ≡ 5 + length result.payload.now }
{
    let behind = body.split_at(1).1;
    Reply {
        status: body[0],
        number: spelled(behind),
        payload: behind.split_at(4).1,
    }
}
