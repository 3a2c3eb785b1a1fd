//! A text written whole.

ghost use Rattle.std.specs.Prelude.{OnErr, OnOk};
ghost use Rattle.std.specs.Io.KnownBytes.{Appends};
ghost use Rattle.standard_streams.specs.Fronts.{StopsShort};

use std::io::{ErrorKind, Write};
use thiserror::Error;

/// A writer did not take all bytes, for this reason.
#[derive(Clone, Copy, Debug, PartialEq, Eq, Error)]
#[error("WriteFault\nstandard output: {0}")]
pub struct WriteFault(pub ErrorKind);

/// Writes all bytes to a writer.
///
/// WriteFault comes if a write fails or takes nothing: a prefix of the bytes may be written then, but not all of them. A write that a signal interrupted
/// is tried again.
pub fn write_whole<W: Write>(writer: &mut W, bytes: &[u8]) -> Result<(), WriteFault>
    ensures written { OnOk result (Appends (W.contents writer.old) (W.contents writer.new) bytes.now) }
    ensures short { OnErr result (StopsShort bytes.now (W.contents writer.old) (W.contents writer.new)) }
{
    let mut rest = bytes;
    for _ in 0..u64::MAX {
        if rest.is_empty() {
            return Ok(());
        }
        match writer.write(rest) {
            Ok(0) => return Err(WriteFault(ErrorKind::WriteZero)),
            Ok(taken) => rest = &rest[taken..],
            Err(error) if error.kind() == ErrorKind::Interrupted => {}
            Err(error) => return Err(WriteFault(error.kind())),
        }
    }
    if rest.is_empty() {
        Ok(())
    } else {
        Err(WriteFault(ErrorKind::Interrupted))
    }
}
