//! Connections of a listener over memory, served one after the other.

use crate::moved::took;
use crate::session::KEY;
use crate::trial::Trial;
use path_hub::Hub;
use socket_wire::{AcceptFault, EndLog, Ending, MemoryListener, serve_streams};
use std::alloc::{AllocError, Global};
use std::collections::VecDeque;
use std::io::ErrorKind;

/// `1` is put at c/d.
const PUT: &[u8] =
    b"\0\0\0\x1a\x01\0\0\0\x01\x00\x11\x22\x33\x44\x55\x66\x77\x88\x99\xaa\xbb\xcc\xdd\xee\xff\x01c\x01d1";

/// The text at c/d.
const GET: &[u8] =
    b"\0\0\0\x19\x02\0\0\0\x02\x00\x11\x22\x33\x44\x55\x66\x77\x88\x99\xaa\xbb\xcc\xdd\xee\xff\x01c\x01d";

/// The trials.
pub fn trials(alloc: Global) -> [(&'static str, Trial); 1] {
    [(
        "serves_one_after_the_other",
        serves_one_after_the_other(alloc),
    )]
}

/// How many ends it got.
#[derive(Drop)]
struct Count(u32);

impl EndLog for Count {
    fn tell_end(&mut self, _ending: Ending) {
        self.0 = self.0.saturating_add(1);
    }
}

/// A listener for two connections: a put and a get.
fn listener(alloc: Global) -> Result<MemoryListener, AllocError> {
    let mut inputs = VecDeque::new(alloc);
    inputs.push_back(Vec::from_slice(alloc, PUT)?)?;
    inputs.push_back(Vec::from_slice(alloc, GET)?)?;
    Ok(MemoryListener::new(alloc, inputs))
}

/// Whether the connections that were taken back got these replies.
fn got(listener: &MemoryListener) -> bool {
    match listener.closed() {
        [put, get] => took(put, b"\0\0\0\x05\0\0\0\0\x01") && took(get, b"\0\0\0\x06\0\0\0\0\x021"),
        _ => false,
    }
}

fn serves_one_after_the_other(alloc: Global) -> Trial {
    let (Ok(mut hub), Ok(mut listener)) = (Hub::new(alloc, &[KEY]), listener(alloc)) else {
        return Trial::unprepared();
    };
    let mut log = Count(0);
    let served = serve_streams(alloc, &mut hub, &mut listener, 2, &mut log);
    let is_got = got(&listener);
    let further = serve_streams(alloc, &mut hub, &mut listener, 1, &mut log);
    Trial::of(&[
        served == Ok(()),
        log.0 == 0,
        is_got,
        further == Err(AcceptFault(ErrorKind::WouldBlock)),
    ])
}
