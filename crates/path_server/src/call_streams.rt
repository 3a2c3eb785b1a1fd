//! The call over a wire whose lines a reader has, answered to a writer.

ghost use Rattle.std.specs.Prelude.{◌-◌, ◌^◌, ◌<◌, ℕ, List, IfOk, IfSome};
ghost use Rattle.path_server.specs.CallStream.{CallsStream, IsReadFrom};

use crate::call::call_over;
use crate::call_fault::CallFault;
use crate::replay::SCRIPT_LIMIT;
use path_hub::Wire;
use standard_streams::{ReadFault, WriteFault, read_past, write_whole};
use std::alloc::Global;
use std::io::{Read, Write};
use thiserror::Error;

/// Why a call with its lines is not answered.
#[derive(Clone, Copy, Debug, PartialEq, Eq, Error)]
pub enum CallStreamFault {
    /// The call ended with a fault, and the lines of its replies were written whole.
    #[error("{0}")]
    Call(CallFault),
    /// The call ended with a fault, and the lines of its replies could not be written whole.
    #[error("{0}")]
    Unwritten(CallFault),
    /// The call was done, and the lines of its replies could not be written whole.
    #[error("{0}")]
    Write(WriteFault),
}

/// The lines of a call that a reader has, to its end or one byte past [`SCRIPT_LIMIT`].
///
/// Failed comes if a read fails, and Memory if an allocation fails.
pub fn read_call<R: Read + Drop>(alloc: Global, reader: R) -> Result<Vec<u8>, ReadFault>
    ensures { IfOk result (λ lines. IfSome (R.remaining reader) (λ left. IsReadFrom left lines.items)) }
{
    read_past(alloc, reader, SCRIPT_LIMIT as u64)
}

/// Does what [`call_over`] does, and then writes what it appends, also where it ended with a fault.
///
/// The lines are those that [`read_call`] gave. The call's own fault (Call or Unwritten) comes before that of the writer (Write).
/// Where the lines of the replies are not written whole (Unwritten or Write), a front of them is written and no other byte.
pub fn call_stream<V: Wire, W: Write>(
    alloc: Global,
    wire: &mut V,
    lines: &[u8],
    writer: &mut W,
) -> Result<(), CallStreamFault>
    requires { (V.meaning wire.old).failures < 2 ^ 64 - 1 }
    ensures { (left : List ℕ) → IsReadFrom left lines.now → CallsStream left (V.meaning wire.old) (W.contents writer.old) result (V.meaning wire.new) (W.contents writer.new) }
{
    let mut replies = Vec::new(alloc);
    let called = call_over(alloc, wire, lines, &mut replies);
    let written = write_whole(writer, replies.as_slice());
    match (called, written) {
        (Ok(()), Ok(())) => Ok(()),
        (Ok(()), Err(fault)) => Err(CallStreamFault::Write(fault)),
        (Err(fault), Ok(())) => Err(CallStreamFault::Call(fault)),
        (Err(fault), Err(_)) => Err(CallStreamFault::Unwritten(fault)),
    }
}
