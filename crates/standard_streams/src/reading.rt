//! A stream read whole.

ghost use Rattle.std.specs.Prelude.{◌≡◌, ◌+◌, ◌-◌, ◌<◌, ◌^◌, ◌↔◌, IfOk, IfSome, take};
ghost use Rattle.std.specs.IoError.{error_kind};

use std::alloc::Global;
use std::io::{self, ErrorKind, Read};
use thiserror::Error;

/// Why a stream is not read whole.
#[derive(Clone, Copy, Debug, PartialEq, Eq, Error)]
pub enum ReadFault {
    /// A read failed, for this reason.
    #[error("ReadFault\nstandard input: {0}")]
    Failed(ErrorKind),
    /// An allocation failed.
    #[error("NoMemory")]
    Memory,
}

impl ReadFault {
    /// What a failed read means: want of memory, by the error's kind, or a fault of the stream.
    pub fn of(error: &io::Error) -> ReadFault
        ensures memory { (result ≡ ReadFault.Memory) ↔ (error_kind error.now ≡ ErrorKind.OutOfMemory) }
    {
        match error.kind() {
            ErrorKind::OutOfMemory => ReadFault::Memory,
            reason => ReadFault::Failed(reason),
        }
    }
}

/// The bytes that a reader has left, all of them or one more than `limit`, so that a stream above the limit shows as one.
///
/// Failed comes if a read fails, and Memory if an allocation fails: the bytes read before that are given up.
pub fn read_past<R: Read + Drop>(alloc: Global, reader: R, limit: u64) -> Result<Vec<u8>, ReadFault>
    requires { limit < 2 ^ 64 - 1 }
    ensures read { IfOk result (λ bytes. IfSome (R.remaining reader) (λ left. bytes.items ≡ take (limit + 1) left)) }
{
    let mut bytes = Vec::new(alloc);
    match reader.take(limit + 1).read_to_end(&mut bytes) {
        Ok(_) => Ok(bytes),
        Err(error) => Err(ReadFault::of(&error)),
    }
}
