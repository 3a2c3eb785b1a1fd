//! Frames of one connection, through a hub with one tenant.

use crate::queries::{Counted, REFUSED};
use path_hub::Hub;
use std::alloc::Global;

const KEY: [u8; 16] = [0; 16];

fn opened(alloc: Global, before: &[u8]) -> Option<Hub> {
    let mut hub = Hub::new(alloc, &[KEY]).ok()?;
    hub.connect(alloc, 0).ok()?;
    let mut out = Vec::new(alloc);
    hub.bytes(alloc, 0, before, &mut out).ok()?;
    Some(hub)
}

/// Gives a new hub the first bytes, and then the piece so many times. Counts the bytes of the replies to the pieces.
#[unsafe(no_mangle)]
pub extern "C" fn path_bench_hub(
    alloc: Global,
    before: &[u8],
    piece: &[u8],
    times: usize,
) -> Counted {
    let Some(mut hub) = opened(alloc, before) else {
        return REFUSED;
    };
    let mut out = Vec::new(alloc);
    let mut count: u64 = 0;
    for _ in 0..times {
        out.clear();
        if hub.bytes(alloc, 0, piece, &mut out).is_err() {
            return REFUSED;
        }
        count = count.wrapping_add(out.len() as u64);
    }
    Counted {
        count,
        refused: false,
    }
}
