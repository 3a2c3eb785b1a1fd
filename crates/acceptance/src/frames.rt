//! Streams, requests and heads of replies as bytes, written out by hand from the tables of the protocol.

use crate::session::{KEY, REQUESTS, front};
use crate::trial::Trial;
use std::alloc::Global;
use wire_frames::{AcceptFault, Command, Framer, Next, RequestFault, read_request, reply_head};

/// The trials.
pub fn trials(alloc: Global) -> [(&'static str, Trial); 4] {
    [
        (
            "closes_at_a_length_above_the_limit",
            closes_at_a_length_above_the_limit(alloc),
        ),
        (
            "takes_frames_byte_by_byte",
            takes_frames_byte_by_byte(alloc),
        ),
        ("reads_requests", reads_requests()),
        ("writes_heads_of_replies", writes_heads_of_replies()),
    ]
}

/// Whether the next frame has this body.
fn takes(framer: &mut Framer, wanted: &[u8]) -> bool {
    match framer.next_frame() {
        Ok(Next::Frame(body)) => body.as_slice() == wanted,
        _ => false,
    }
}

/// Whether the framer is closed, tells of it and takes nothing more.
fn is_over(framer: &mut Framer) -> bool {
    matches!(framer.next_frame(), Ok(Next::Fault))
        && framer.is_closed()
        && framer.accept(b"\0\0\0\0") == Err(AcceptFault::Closed)
        && matches!(framer.next_frame(), Ok(Next::Fault))
}

/// A frame with the body `ab`, and a length above the limit.
const FRAME_AND_FAULT: &[u8] = b"\0\0\0\x02ab\0\x60\0\x01";

/// Whether the frame comes and then the fault, where the stream is cut there.
fn closes(alloc: Global, cut: usize) -> bool {
    let Ok(mut framer) = Framer::new(alloc) else {
        return false;
    };
    let rest = FRAME_AND_FAULT.get(cut..).unwrap_or_default();
    framer.accept(front(FRAME_AND_FAULT, cut)).is_ok()
        && !framer.is_closed()
        && framer.accept(rest).is_ok()
        && takes(&mut framer, b"ab")
        && is_over(&mut framer)
}

fn closes_at_a_length_above_the_limit(alloc: Global) -> Trial {
    let mut trial = Trial::new();
    for cut in 0..10usize {
        trial.case(closes(alloc, cut));
    }
    trial
}

/// Whether the bodies of two frames come from the bytes one by one, and each at its last byte.
fn takes_bytes(alloc: Global) -> bool {
    let Ok(mut framer) = Framer::new(alloc) else {
        return false;
    };
    let mut is_as_wanted = true;
    for (at, byte) in front(REQUESTS, 66).iter().enumerate() {
        is_as_wanted &= framer.accept(&[*byte]).is_ok();
        is_as_wanted &= match at {
            35 => takes(&mut framer, REQUESTS.get(4..36).unwrap_or_default()),
            65 => takes(&mut framer, REQUESTS.get(40..66).unwrap_or_default()),
            _ => matches!(framer.next_frame(), Ok(Next::Wait)),
        };
    }
    is_as_wanted
}

fn takes_frames_byte_by_byte(alloc: Global) -> Trial {
    Trial::of(&[takes_bytes(alloc)])
}

/// Whether this body asks for the first of the four requests.
fn is_put(body: &[u8]) -> bool {
    match read_request(body) {
        Ok(request) => {
            let is_written = match request.command {
                Command::Put {
                    collection,
                    document,
                    text,
                } => (collection.bytes, document.bytes, text) == (b"c", b"d", b"{\"a\":1}"),
                _ => false,
            };
            is_written && request.number == 1 && request.key == KEY
        }
        Err(_) => false,
    }
}

fn reads_requests() -> Trial {
    let short = read_request(b"\x07\0\0\0\x09").err();
    Trial::of(&[
        is_put(REQUESTS.get(4..36).unwrap_or_default()),
        matches!(short, Some(RequestFault::Short { number: 9 })),
    ])
}

fn writes_heads_of_replies() -> Trial {
    Trial::of(&[reply_head(0, 2, 16) == *b"\0\0\0\x15\0\0\0\0\x02"])
}
