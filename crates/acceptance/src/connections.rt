//! Connections served over wires in memory, which fail, end or cut at any call.

use crate::moved::took;
use crate::session::{KEY, REPLIES, REQUESTS, front};
use crate::trial::Trial;
use path_hub::{Call, ConnEnd, Hub, MemoryWire, serve_connection};
use std::alloc::Global;

/// `1` is put at c/d.
const PUT: &[u8] =
    b"\0\0\0\x1a\x01\0\0\0\x01\x00\x11\x22\x33\x44\x55\x66\x77\x88\x99\xaa\xbb\xcc\xdd\xee\xff\x01c\x01d1";

/// The text at c/d, and its reply.
const GET: &[u8] =
    b"\0\0\0\x19\x02\0\0\0\x02\x00\x11\x22\x33\x44\x55\x66\x77\x88\x99\xaa\xbb\xcc\xdd\xee\xff\x01c\x01d";

const GOT: &[u8] = b"\0\0\0\x06\0\0\0\0\x021";

/// The trials.
pub fn trials(alloc: Global) -> [(&'static str, Trial); 5] {
    [
        ("serves_wires", serves_wires(alloc)),
        (
            "keeps_a_put_whose_reply_was_not_written",
            Trial::of(&[keeps_a_put_whose_reply_was_not_written(alloc)]),
        ),
        ("serves_every_prefix", serves_every_prefix(alloc)),
        (
            "answers_what_came_before_a_failed_read",
            answers_what_came_before_a_failed_read(alloc),
        ),
        (
            "writes_a_prefix_before_a_fault",
            writes_a_prefix_before_a_fault(alloc),
        ),
    ]
}

/// How a connection with this input and plan of calls ends, if a new hub serves it and writes exactly these bytes. `None` if it writes
/// others, or leaves the connection open.
fn served(alloc: Global, input: &[u8], plan: &[Call], written: &[u8]) -> Option<ConnEnd> {
    let (Ok(mut hub), Ok(mut wire)) = (Hub::new(alloc, &[KEY]), MemoryWire::new(alloc, input, plan))
    else {
        return None;
    };
    let end = serve_connection(alloc, &mut hub, 7, &mut wire);
    if took(&wire, written) && !hub.is_connected(7) {
        Some(end)
    } else {
        None
    }
}

fn serves_wires(alloc: Global) -> Trial {
    let failing = served(alloc, PUT, &[Call::Fails], b"");
    let cut = served(alloc, front(PUT, 10), &[], b"");
    let above = served(alloc, b"\0\x60\0\x01", &[], b"\0\0\0\x05\xff\0\0\0\0");
    Trial::of(&[
        failing == Some(ConnEnd::ReadFault),
        cut == Some(ConnEnd::Done),
        above == Some(ConnEnd::FrameFault),
    ])
}

/// Whether the hub answers the get of the text on a new connection.
fn has_the_text(alloc: Global, hub: &mut Hub) -> bool {
    let mut out = Vec::new(alloc);
    hub.connect(alloc, 1).is_ok()
        && hub.bytes(alloc, 1, GET, &mut out).is_ok()
        && out.as_slice() == GOT
}

fn keeps_a_put_whose_reply_was_not_written(alloc: Global) -> bool {
    let plan = [Call::Moves(99), Call::Moves(3), Call::Fails];
    let (Ok(mut hub), Ok(mut wire)) = (Hub::new(alloc, &[KEY]), MemoryWire::new(alloc, PUT, &plan))
    else {
        return false;
    };
    let end = serve_connection(alloc, &mut hub, 7, &mut wire);
    end == ConnEnd::WriteFault && took(&wire, b"\0\0\0") && has_the_text(alloc, &mut hub)
}

/// The bytes of the replies that the first so many bytes of the four requests get.
fn due(bytes: usize) -> usize {
    match bytes {
        0..=35 => 0,
        36..=65 => 9,
        66..=94 => 39,
        95..=119 => 55,
        _ => 76,
    }
}

fn serves_every_prefix(alloc: Global) -> Trial {
    let mut trial = Trial::of(&[(REQUESTS.len(), REPLIES.len()) == (120, 76)]);
    for k in 0..=120usize {
        let end = served(alloc, front(REQUESTS, k), &[], front(REPLIES, due(k)));
        trial.case(end == Some(ConnEnd::Done));
    }
    trial
}

/// The most calls of one byte each that a test plans.
const MOST: usize = 196;

/// Reads and writes of one byte, until the read fails that would bring one byte more.
fn answers_what_came_before_a_failed_read(alloc: Global) -> Trial {
    let mut trial = Trial::new();
    let mut plan = [Call::Moves(1); MOST + 1];
    plan[MOST] = Call::Fails;
    for k in 0..120usize {
        let calls = k.saturating_add(due(k));
        let last = plan.get(MOST.saturating_sub(calls)..).unwrap_or_default();
        let end = served(alloc, REQUESTS, last, front(REPLIES, due(k)));
        trial.case(end == Some(ConnEnd::ReadFault));
    }
    trial
}

/// One read of all, and writes of one byte, of which one fails: those before it are written.
fn writes_a_prefix_before_a_fault(alloc: Global) -> Trial {
    let mut trial = Trial::new();
    for j in 0..76usize {
        let mut plan = [Call::Moves(1); 77];
        plan[0] = Call::Moves(999);
        plan[j + 1] = Call::Fails;
        let end = served(alloc, REQUESTS, &plan, front(REPLIES, j));
        trial.case(end == Some(ConnEnd::WriteFault));
    }
    trial
}
