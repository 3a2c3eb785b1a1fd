//! The calls on frames.

use crate::telling::{begins, ends, tell_end, tell_fault, tell_left, unprepared};
use std::io;
use wire_frames::{Framer, Front, Next, write_reply};

// Two frames, of which the second has a longer body.
const STREAM: &[u8] = b"\0\0\0\x02ab\0\0\0\x03cde";

/// Makes the call of this name, where it is one of these. Whether it is.
pub fn make<R: Print + AllocGlobal>(rt: &R, name: &str) -> io::Result<bool> {
    match name {
        "framer_new" => new_framer_twice(rt)?,
        "accept" => accept_twice(rt)?,
        "next_frame" => next_frame_twice(rt)?,
        "write_reply" => write_reply_twice(rt)?,
        _ => return Ok(false),
    }
    Ok(true)
}

// Whether it is closed.
fn new_framer_twice<R: Print + AllocGlobal>(rt: &R) -> io::Result<()> {
    for _ in 0..2 {
        begins(rt);
        let came = Framer::new(rt.alloc());
        ends(rt);
        match came {
            Ok(framer) => tell_left(rt, "Ok", &[u8::from(framer.is_closed())]),
            Err(fault) => tell_fault(rt, &fault, b""),
        }
    }
    Ok(())
}

// The body of the first frame that waits.
fn accept_twice<R: Print + AllocGlobal>(rt: &R) -> io::Result<()> {
    let mut framer = Framer::new(rt.alloc())?;
    for _ in 0..2 {
        begins(rt);
        let came = framer.accept(STREAM);
        ends(rt);
        match framer.front() {
            Front::Frame(body) => tell_end(rt, came, body),
            _ => tell_end(rt, came, b""),
        }
    }
    Ok(())
}

// The body of the frame.
fn next_frame_twice<R: Print + AllocGlobal>(rt: &R) -> io::Result<()> {
    let mut framer = Framer::new(rt.alloc())?;
    if framer.accept(STREAM).is_err() {
        return unprepared(rt);
    }
    for _ in 0..2 {
        begins(rt);
        let came = framer.next_frame();
        ends(rt);
        match came {
            Ok(Next::Frame(body)) => tell_left(rt, "Ok", body.as_slice()),
            Ok(_) => tell_left(rt, "no frame", b""),
            Err(fault) => tell_fault(rt, &fault, b""),
        }
    }
    Ok(())
}

// The frame, behind what stood there.
fn write_reply_twice<R: Print + AllocGlobal>(rt: &R) -> io::Result<()> {
    let mut out = Vec::from_slice(rt.alloc(), b"p")?;
    for _ in 0..2 {
        begins(rt);
        let came = write_reply(0, 3, b"{\"a\":1}", &mut out);
        ends(rt);
        tell_end(rt, came, out.as_slice());
    }
    Ok(())
}
