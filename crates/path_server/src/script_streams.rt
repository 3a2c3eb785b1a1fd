//! The replay of the script that a reader has, answered to a writer.

ghost use Rattle.std.specs.Prelude.{OnOk, IfErr};
ghost use Rattle.path_server.specs.ReplayStream.{FailsReplay, ReplaysStream};

use crate::replay::{SCRIPT_LIMIT, ScriptFault, replay_script};
use standard_streams::{ReadFault, WriteFault, read_past, write_whole};
use std::alloc::Global;
use std::io::{Read, Write};
use thiserror::Error;

/// Why the replay of a script on a stream is not answered.
#[derive(Clone, Copy, Debug, PartialEq, Eq, Error)]
pub enum ReplayStreamFault {
    /// The script could not be read.
    #[error("{0}")]
    Read(ReadFault),
    /// The script is refused.
    #[error("{0}")]
    Refused(ScriptFault),
    /// The lines could not be written whole.
    #[error("{0}")]
    Write(WriteFault),
}

/// Reads a script to its end, at most one byte past [`SCRIPT_LIMIT`], and writes what [`replay_script`] appends for it.
///
/// If the script cannot be read (Read), or [`replay_script`] refuses it (Refused), nothing is written. If the lines cannot all be written
/// (Write), a prefix of them is written and no other byte.
pub fn replay_stream<R: Read + Drop, W: Write>(
    alloc: Global,
    keys: &[[u8; 16]],
    reader: R,
    writer: &mut W,
) -> Result<(), ReplayStreamFault>
    ensures answered { OnOk result (ReplaysStream keys.now (R.remaining reader) (W.contents writer.old) (W.contents writer.new)) }
    ensures failed { IfErr result (λ fault. FailsReplay keys.now (R.remaining reader) (W.contents writer.old) (W.contents writer.new) fault) }
{
    let script = match read_past(alloc, reader, SCRIPT_LIMIT as u64) {
        Ok(script) => script,
        Err(fault) => return Err(ReplayStreamFault::Read(fault)),
    };
    let mut lines = Vec::new(alloc);
    if let Err(fault) = replay_script(alloc, keys, script.as_slice(), &mut lines) {
        return Err(ReplayStreamFault::Refused(fault));
    }
    match write_whole(writer, lines.as_slice()) {
        Ok(()) => Ok(()),
        Err(fault) => Err(ReplayStreamFault::Write(fault)),
    }
}
