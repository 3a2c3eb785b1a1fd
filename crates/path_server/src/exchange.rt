//! A request sent over a wire, and the reply to it read.

ghost use Rattle.std.specs.Prelude.{◌≡◌, ◌-◌, ◌^◌, ◌<◌, length};
ghost use Rattle.path_server.specs.Exchanges.{Exchanges, ReadsBytes, ReadsReply};

use crate::call_fault::CallFault;
use crate::request_lines::spelled_length;
use path_hub::{Wire, write_all};
use store_names::LENGTH_BYTES;
use tenant_store::LONGEST_REPLY;

// Reads so many bytes, and puts them behind those that stand there. No more are taken off the wire.
fn read_bytes<W: Wire>(
    wire: &mut W,
    count: usize,
    buffer: &mut [u8],
    bytes: &mut Vec<u8>,
) -> Result<(), CallFault>
    requires failures { (W.meaning wire.old).failures < 2 ^ 64 - 1 }
    requires some { 0 < length buffer.old }
    ensures read { ReadsBytes count (W.meaning wire.old) bytes.old.items result (W.meaning wire.new) bytes.new.items }
    ensures len { length buffer.new ≡ length buffer.old }
{
    let mut left = count;
    'reading: while left > 0 {
        let most = left.min(buffer.len());
        match wire.read(&mut buffer[..most]) {
            Err(_) => return Err(CallFault::ReadFault),
            Ok(n) => {
                if n == 0 {
                    return Err(CallFault::ReadFault);
                }
                if bytes.extend_from_slice(&buffer[..n]).is_err() {
                    return Err(CallFault::Memory);
                }
                left -= n;
            }
        }
    }
    Ok(())
}

// Reads one whole reply, in the place of what stood there.
fn read_reply<W: Wire>(
    wire: &mut W,
    buffer: &mut [u8],
    reply: &mut Vec<u8>,
) -> Result<(), CallFault>
    requires failures { (W.meaning wire.old).failures < 2 ^ 64 - 1 }
    requires some { 0 < length buffer.old }
    ensures read { ReadsReply (W.meaning wire.old) result (W.meaning wire.new) reply.new.items }
    ensures len { length buffer.new ≡ length buffer.old }
{
    reply.clear();
    read_bytes(wire, LENGTH_BYTES, buffer, reply)?;
    let length = spelled_length(reply.as_slice());
    if length > LONGEST_REPLY {
        return Err(CallFault::ReadFault);
    }
    read_bytes(wire, length, buffer, reply)
}

/// Sends a request, all of it, and reads the reply to it.
pub fn exchange<W: Wire>(
    wire: &mut W,
    request: &[u8],
    buffer: &mut [u8],
    reply: &mut Vec<u8>,
) -> Result<(), CallFault>
    requires failures { (W.meaning wire.old).failures < 2 ^ 64 - 1 }
    requires some { 0 < length buffer.old }
    ensures exchanged { Exchanges request.now (W.meaning wire.old) result (W.meaning wire.new) reply.new.items }
    ensures len { length buffer.new ≡ length buffer.old }
{
    if !write_all(wire, request) {
        return Err(CallFault::WriteFault);
    }
    read_reply(wire, buffer, reply)
}
