//! Frames of a stream.

ghost use Rattle.std.specs.Prelude.{◌<◌};

use std::alloc::Global;
use wire_frames::{Framer, Next, read_request};

/// What `path_bench_frames` answers.
#[repr(C)]
#[derive(Clone, Copy, Drop)]
pub struct Taken {
    /// The frames that were taken.
    pub frames: u64,
    /// Those among them that ask something, where requests were read.
    pub requests: u64,
    /// Whether memory was refused or a fault came, before the end of the stream.
    pub ended: bool,
}

/// Feeds the stream to a framer in pieces of that length and takes its frames as they become whole.
#[unsafe(no_mangle)]
pub extern "C" fn path_bench_frames(
    alloc: Global,
    stream: &[u8],
    piece: usize,
    reads: bool,
) -> Taken
    requires { 0 < piece }
{
    let mut taken = Taken {
        frames: 0,
        requests: 0,
        ended: true,
    };
    let Ok(mut framer) = Framer::new(alloc) else {
        return taken;
    };
    for part in stream.chunks(piece) {
        let Ok(()) = framer.accept(part) else {
            return taken;
        };
        for _ in 0..=part.len() {
            match framer.next_frame() {
                Ok(Next::Frame(body)) => {
                    taken.frames = taken.frames.wrapping_add(1);
                    if reads && read_request(body.as_slice()).is_ok() {
                        taken.requests = taken.requests.wrapping_add(1);
                    }
                }
                Ok(Next::Wait) => break,
                Ok(Next::Fault) | Err(_) => return taken,
            }
        }
    }
    taken.ended = false;
    taken
}
