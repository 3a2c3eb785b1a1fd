//! Requests, a line each.

ghost use Rattle.std.specs.Prelude.{◌↔◌, ◌≤◌, IsTrue, length};
ghost use Rattle.path_server.specs.Calls.{IsRequest};
ghost use Rattle.path_server.specs.Exchanges.{SpellsLength};

use crate::text_lines::Line;
use hex::FromHexError;
use std::alloc::{AllocError, Global};
use store_names::LENGTH_BYTES;
use wire_frames::LONGEST_BODY;

/// A whole request frame.
#[derive(Drop)]
pub struct Request {
    pub frame: Vec<u8>,
}

/// The length of the body that the first four bytes of a frame spell.
pub fn spelled_length(frame: &[u8]) -> usize
    requires { 4 ≤ length frame.now }
    ensures { SpellsLength frame.now result }
{
    u32::from_be_bytes([frame[0], frame[1], frame[2], frame[3]]) as usize
}

fn is_request(frame: &[u8]) -> bool
    ensures { IsTrue result ↔ IsRequest frame.now }
{
    if frame.len() < LENGTH_BYTES {
        return false;
    }
    let length = spelled_length(frame);
    length <= LONGEST_BODY && length == frame.len() - LENGTH_BYTES
}

impl Line for Request {
    ghost use Rattle.path_server.specs.Calls.{SpellsRequest};

    ghost spells = { SpellsRequest };

    fn read_line(alloc: Global, line: &[u8]) -> Result<Option<Request>, AllocError> {
        match hex::decode(alloc, line) {
            Ok(frame) => {
                if is_request(frame.as_slice()) {
                    return Ok(Some(Request { frame }));
                }
                Ok(None)
            }
            Err(FromHexError::OutOfMemory) => Err(AllocError),
            Err(_) => Ok(None),
        }
    }
}
