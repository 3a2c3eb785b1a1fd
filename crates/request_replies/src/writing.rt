//! How a reply is written: a short one at once, a long one by its payload and then the head in front.
ghost use Rattle.std.specs.Prelude.{◌≡◌, ◌≤◌, ◌+◌, ◌++◌, length, take, drop, vec_len, []};
ghost use Rattle.std.specs.Vec.{vec_capacity};
ghost use Rattle.store_names.specs.Lengths.{payload_limit};
ghost use Rattle.tenant_map.specs.Statuses.{status_of};
ghost use Rattle.wire_frames.specs.Replies.{reply};
ghost use Rattle.request_replies.specs.Answers.{query_status};

use path_types::QueryFault;
use tenant_store::StoreFault;
use wire_frames::{reply_head, write_reply};

/// A short reply fits into so many bytes, as does that to a request for the usage.
pub const SHORT_REPLY: usize = 21;

pub const OK: u8 = 0;

const QUERY_TOO_LONG: u8 = 16;

const NOT_WELL_FORMED: u8 = 17;

const NOT_VALID: u8 = 18;

/// The status of a request that an allocation failed for.
pub const NO_MEMORY: u8 = 21;

/// Appends a short reply: one of at most [`SHORT_REPLY`] bytes, for which there is room.
pub fn write_small(status: u8, number: u32, payload: &[u8], out: &mut Vec<u8>)
    requires small { length payload.now ≤ 12 }
    requires room { vec_len out.old + 21 ≤ vec_capacity out.old }
    ensures { out.new.items ≡ out.old.items ++ reply status number payload.now }
{
    write_reply(status, number, payload, out).unwrap()
}

/// Appends 9 bytes, the room for the head of a reply whose payload is appended next.
pub fn begin(out: &mut Vec<u8>)
    requires { vec_len out.old + 21 ≤ vec_capacity out.old }
    ensures items { take (length out.old.items) out.new.items ≡ out.old.items }
    ensures len { vec_len out.new ≡ vec_len out.old + 9 }
    ensures capacity { vec_capacity out.old ≤ vec_capacity out.new }
{
    out.extend_from_slice(&[0; 9]).unwrap();
}

/// Writes the head of an `Ok` reply that was begun at `start`, in front of its payload.
pub fn finish(start: usize, number: u32, out: &mut Vec<u8>)
    requires started { start + 9 ≤ vec_len out.old }
    requires short { vec_len out.old ≤ start + (9 + payload_limit) }
    ensures { out.new.items ≡ take start out.old.items ++ reply 0 number (drop (start + 9) out.old.items) }
{
    let payload = (out.len() - start - 9) as u32;
    let head = reply_head(OK, number, payload);
    write_head(out.as_mut_slice(), start, &head);
}

/// Takes away a reply that was begun at `start`, and appends a refusal.
pub fn take_back(fault: StoreFault, start: usize, number: u32, out: &mut Vec<u8>)
    requires started { start ≤ vec_len out.old }
    requires room { start + 21 ≤ vec_capacity out.old }
    ensures { out.new.items ≡ take start out.old.items ++ reply (status_of fault) number [] }
{
    out.truncate(start);
    write_small(fault.status(), number, &[], out);
}

fn write_head(out: &mut [u8], start: usize, head: &[u8; 9])
    requires { start + 9 ≤ length out.old }
    ensures { out.new ≡ take start out.old ++ (head.now ++ drop (start + 9) out.old) }
{
    out[start..start + 9].copy_from_slice(head);
}

/// The status of a request whose query's text is refused.
pub fn status_of_query(fault: QueryFault) -> u8
    ensures { result ≡ query_status fault }
{
    match fault {
        QueryFault::QueryTooLong => QUERY_TOO_LONG,
        QueryFault::NotWellFormed => NOT_WELL_FORMED,
        QueryFault::NotValid => NOT_VALID,
        QueryFault::Memory => NO_MEMORY,
    }
}
