//! The calls of the hub.

use crate::store::KEYS;
use crate::telling::{begins, ends, tell_end, tell_fault, tell_left, unprepared};
use crate::wire::FixedWire;
use path_hub::{ConnEnd, Event, Hub, Reply, run, serve_connection};
use std::alloc::{AllocError, Global};
use std::io;

// `1` is put as the document `d` of the collection `c`.
const PUT: &[u8] =
    b"\0\0\0\x1a\x01\0\0\0\x01\x00\x11\x22\x33\x44\x55\x66\x77\x88\x99\xaa\xbb\xcc\xdd\xee\xff\x01c\x01d1";

// The query `$` over that collection.
const QUERY: &[u8] =
    b"\0\0\0\x18\x05\0\0\0\x02\x00\x11\x22\x33\x44\x55\x66\x77\x88\x99\xaa\xbb\xcc\xdd\xee\xff\x01c$";

/// Makes the call of this name, where it is one of these. Whether it is.
pub fn make<R: Print + AllocGlobal>(rt: &R, name: &str) -> io::Result<bool> {
    match name {
        "hub_new" => new_hub_twice(rt)?,
        "connect" => connect_twice(rt)?,
        "bytes_put" => bytes_twice(rt, PUT)?,
        "bytes_query" => bytes_twice(rt, QUERY)?,
        "run" => run_twice(rt)?,
        "serve_connection" => serve_twice(rt)?,
        _ => return Ok(false),
    }
    Ok(true)
}

// Whether a connection is open.
fn new_hub_twice<R: Print + AllocGlobal>(rt: &R) -> io::Result<()> {
    for _ in 0..2 {
        begins(rt);
        let came = Hub::new(rt.alloc(), &KEYS);
        ends(rt);
        match came {
            Ok(hub) => tell_left(rt, "Ok", &[u8::from(hub.is_connected(0))]),
            Err(fault) => tell_fault(rt, &fault, b""),
        }
    }
    Ok(())
}

// Whether it is open.
fn connect_twice<R: Print + AllocGlobal>(rt: &R) -> io::Result<()> {
    let Ok(mut hub) = Hub::new(rt.alloc(), &KEYS) else {
        return unprepared(rt);
    };
    for _ in 0..2 {
        begins(rt);
        let came = hub.connect(rt.alloc(), 2);
        ends(rt);
        tell_end(rt, came, &[u8::from(hub.is_connected(2))]);
    }
    Ok(())
}

// The replies, behind what stood there. The document is there before.
fn bytes_twice<R: Print + AllocGlobal>(rt: &R, piece: &[u8]) -> io::Result<()> {
    let Ok(mut hub) = Hub::new(rt.alloc(), &KEYS) else {
        return unprepared(rt);
    };
    let mut before = Vec::new(rt.alloc());
    if hub.connect(rt.alloc(), 1).is_err() || hub.bytes(rt.alloc(), 1, PUT, &mut before).is_err() {
        return unprepared(rt);
    }
    let mut out = Vec::from_slice(rt.alloc(), b"p")?;
    for _ in 0..2 {
        begins(rt);
        let came = hub.bytes(rt.alloc(), 1, piece, &mut out);
        ends(rt);
        tell_end(rt, came, out.as_slice());
    }
    Ok(())
}

// All replies.
fn run_twice<R: Print + AllocGlobal>(rt: &R) -> io::Result<()> {
    let events = events(rt.alloc())?;
    let mut replies = Vec::new(rt.alloc());
    for _ in 0..2 {
        begins(rt);
        let came = run(rt.alloc(), &KEYS, events.as_slice(), &mut replies);
        ends(rt);
        tell_end(rt, came, joined(rt.alloc(), replies.as_slice())?.as_slice());
    }
    Ok(())
}

fn events(alloc: Global) -> Result<Vec<Event>, AllocError> {
    let mut events = Vec::new(alloc);
    events.push(Event::Connect(1))?;
    events.push(Event::Bytes(1, Vec::from_slice(alloc, PUT)?))?;
    events.push(Event::Bytes(1, Vec::from_slice(alloc, QUERY)?))?;
    events.push(Event::Disconnect(1))?;
    Ok(events)
}

fn joined(alloc: Global, replies: &[Reply]) -> Result<Vec<u8>, AllocError> {
    let mut bytes = Vec::new(alloc);
    for reply in replies {
        bytes.extend_from_slice(reply.frame.as_slice())?;
    }
    Ok(bytes)
}

// What was written.
fn serve_twice<R: Print + AllocGlobal>(rt: &R) -> io::Result<()> {
    let Ok(mut hub) = Hub::new(rt.alloc(), &KEYS) else {
        return unprepared(rt);
    };
    let mut input = Vec::from_slice(rt.alloc(), PUT)?;
    input.extend_from_slice(QUERY)?;
    for conn in 0..2 {
        let mut wire = FixedWire::new(input.as_slice());
        if hub.is_connected(conn) {
            return unprepared(rt);
        }
        begins(rt);
        let came = serve_connection(rt.alloc(), &mut hub, conn, &mut wire);
        ends(rt);
        tell_left(rt, end_name(came), wire.written());
    }
    Ok(())
}

fn end_name(end: ConnEnd) -> &'static str {
    match end {
        ConnEnd::Done => "Done",
        ConnEnd::Memory => "Memory",
        ConnEnd::ReadFault | ConnEnd::WriteFault => "a fault of the wire",
        ConnEnd::FrameFault | ConnEnd::TurnLimit => "another end",
    }
}
