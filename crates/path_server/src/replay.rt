//! A script of events, replayed on a new hub.

ghost use Rattle.std.specs.Prelude.{◌≡◌, ◌++◌, IfErr, OnErr, OnOk, length, take};
ghost use Rattle.path_server.specs.Replays.{RefusesScript, Replays, of_lines, of_run, reply_line, reply_lines};
ghost use Rattle.path_server.specs.declared.replay.ScriptFault.TheVariants.{Memory};

use crate::frame_lines::write_frame;
use crate::text_lines::{LinesFault, read_lines};
use itoa::Buffer;
use path_hub::{Event, Reply, RunFault, run};
use std::alloc::{AllocError, Global};
use tenant_store::TenantsFault;
use thiserror::Error;

/// The most bytes of a script.
pub const SCRIPT_LIMIT: usize = 67_108_864;

/// Why a script is not replayed, in the order in which it is found.
#[derive(Clone, Copy, Debug, Drop, PartialEq, Eq, Error)]
pub enum ScriptFault {
    /// The script has more bytes than [`SCRIPT_LIMIT`].
    #[error("TooLong")]
    TooLong,
    /// The first bad line has this number, counted from 1.
    #[error("BadLine {0}")]
    BadLine(u64),
    /// The keys are refused, but not because an allocation failed.
    #[error("{0}")]
    Keys(TenantsFault),
    /// An allocation failed.
    #[error("NoMemory")]
    Memory,
}

impl From<LinesFault> for ScriptFault {
    ghost from_gives = { λ fault made. made ≡ of_lines fault };

    fn from(fault: LinesFault) -> ScriptFault {
        match fault {
            LinesFault::BadLine(number) => ScriptFault::BadLine(number),
            LinesFault::Memory => ScriptFault::Memory,
        }
    }
}

impl From<RunFault> for ScriptFault {
    ghost from_gives = { λ fault made. made ≡ of_run fault };

    fn from(fault: RunFault) -> ScriptFault {
        match fault {
            RunFault::Keys(fault) => ScriptFault::Keys(fault),
            RunFault::Memory => ScriptFault::Memory,
        }
    }
}

impl From<AllocError> for ScriptFault {
    ghost from_gives = { λ _ made. made ≡ Memory };

    fn from(_: AllocError) -> ScriptFault {
        ScriptFault::Memory
    }
}

// Appends the line of a reply; at a refusal a part of it may stand there.
fn write_reply(alloc: Global, reply: &Reply, out: &mut Vec<u8>) -> Result<(), AllocError>
    ensures written { OnOk result (out.new.items ≡ out.old.items ++ reply_line reply.now) }
    ensures kept { take (length out.old.items) out.new.items ≡ out.old.items }
{
    let mut buffer = Buffer::new();
    out.extend_from_slice(buffer.format(reply.conn).as_bytes())?;
    out.push(b' ')?;
    write_frame(alloc, reply.frame.as_slice(), out)
}

// Appends the lines of replies; at a refusal a part of them may stand there.
fn write_all(alloc: Global, replies: &[Reply], out: &mut Vec<u8>) -> Result<(), AllocError>
    ensures written { OnOk result (out.new.items ≡ out.old.items ++ reply_lines replies.now) }
    ensures kept { take (length out.old.items) out.new.items ≡ out.old.items }
{
    for reply in replies {
        write_reply(alloc, reply, out)?;
    }
    Ok(())
}

// Appends the lines of replies, in order. A refused growth leaves the vector unchanged.
fn write_replies(alloc: Global, replies: &[Reply], out: &mut Vec<u8>) -> Result<(), AllocError>
    ensures written { OnOk result (out.new.items ≡ out.old.items ++ reply_lines replies.now) }
    ensures unchanged { OnErr result (out.new.items ≡ out.old.items) }
{
    let before = out.len();
    let written = write_all(alloc, replies, out);
    if written.is_err() {
        out.truncate(before);
    }
    written
}

/// Runs the events of a script on a new hub with a tenant for each key, and appends a line for each reply. A line is the connection's number,
/// a space, the frame in lower-case hexadecimal digits, and a line feed.
///
/// A line of the script is a connection's number in decimal, a space, and `open`, `close` or the hexadecimal digits of a piece.
/// Each ends in a line feed, which the last may lack. Refused are, in this order: more than [`SCRIPT_LIMIT`] bytes (TooLong); a
/// line that spells no event (BadLine); the keys (Keys). Memory comes if an allocation failed. A refusal leaves the vector
/// unchanged.
pub fn replay_script(
    alloc: Global,
    keys: &[[u8; 16]],
    script: &[u8],
    out: &mut Vec<u8>,
) -> Result<(), ScriptFault>
    ensures answered { OnOk result (Replays keys.now script.now out.old.items out.new.items) }
    ensures refused { IfErr result (RefusesScript keys.now script.now) }
    ensures unchanged { OnErr result (out.new.items ≡ out.old.items) }
{
    if script.len() > SCRIPT_LIMIT {
        return Err(ScriptFault::TooLong);
    }
    let events: Vec<Event> = read_lines(alloc, script)?;
    let mut replies = Vec::new(alloc);
    run(alloc, keys, events.as_slice(), &mut replies)?;
    write_replies(alloc, replies.as_slice(), out)?;
    Ok(())
}
