//! The calls on lines.

use crate::store::KEYS;
use crate::telling::{begins, ends, tell_end, tell_fault, tell_left};
use crate::wire::FixedWire;
use path_server::{call_over, read_keys, replay_script};
use std::io;

const PUT: &[u8] = b"0000001a010000000100112233445566778899aabbccddeeff0163016431";

const SCRIPT: &[u8] =
    b"1 open\n1 0000001a010000000100112233445566778899aabbccddeeff0163016431\n1 close\n";

const KEY: &[u8] = b"00112233445566778899aabbccddeeff";

/// Makes the call of this name, where it is one of these. Whether it is.
pub fn make<R: Print + AllocGlobal>(rt: &R, name: &str) -> io::Result<bool> {
    match name {
        "read_keys" => read_keys_twice(rt)?,
        "replay_script" => replay_twice(rt)?,
        "call_over" => call_twice(rt)?,
        _ => return Ok(false),
    }
    Ok(true)
}

// The keys.
fn read_keys_twice<R: Print + AllocGlobal>(rt: &R) -> io::Result<()> {
    for _ in 0..2 {
        begins(rt);
        let came = read_keys(rt.alloc(), KEY);
        ends(rt);
        match came {
            Ok(keys) => match keys.as_slice() {
                [key] => tell_left(rt, "Ok", key),
                _ => tell_left(rt, "other keys", b""),
            },
            Err(fault) => tell_fault(rt, &fault, b""),
        }
    }
    Ok(())
}

// The lines, behind what stood there.
fn replay_twice<R: Print + AllocGlobal>(rt: &R) -> io::Result<()> {
    let mut out = Vec::from_slice(rt.alloc(), b"p")?;
    for _ in 0..2 {
        begins(rt);
        let came = replay_script(rt.alloc(), &KEYS, SCRIPT, &mut out);
        ends(rt);
        tell_end(rt, came, out.as_slice());
    }
    Ok(())
}

// The lines of the replies, behind what stood there.
fn call_twice<R: Print + AllocGlobal>(rt: &R) -> io::Result<()> {
    let mut out = Vec::from_slice(rt.alloc(), b"p")?;
    for _ in 0..2 {
        let mut wire = FixedWire::new(b"\0\0\0\x05\0\0\0\0\x01");
        begins(rt);
        let came = call_over(rt.alloc(), &mut wire, PUT, &mut out);
        ends(rt);
        tell_end(rt, came, out.as_slice());
    }
    Ok(())
}
