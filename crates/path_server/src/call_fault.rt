//! How a call over a wire fails.

ghost use Rattle.std.specs.Prelude.{◌≡◌};
ghost use Rattle.path_server.specs.CallFaults.{of_lines};
ghost use Rattle.path_server.specs.declared.call_fault.CallFault.TheVariants.{Memory};

use crate::text_lines::LinesFault;
use std::alloc::AllocError;
use thiserror::Error;

/// Why a call over a wire ended before all of its replies were read.
#[derive(Clone, Copy, Debug, Drop, PartialEq, Eq, Error)]
pub enum CallFault {
    /// The lines have more bytes than [`crate::SCRIPT_LIMIT`].
    #[error("TooLong")]
    TooLong,
    /// The first bad line has this number, counted from 1.
    #[error("BadLine {0}")]
    BadLine(u64),
    /// A read failed, the input ended before a reply was whole, or the length of a reply is above
    /// [`tenant_store::LONGEST_REPLY`].
    #[error("ReadFault")]
    ReadFault,
    /// A write failed.
    #[error("WriteFault")]
    WriteFault,
    /// An allocation failed.
    #[error("NoMemory")]
    Memory,
}

impl From<LinesFault> for CallFault {
    ghost from_gives = { λ fault made. made ≡ of_lines fault };

    fn from(fault: LinesFault) -> CallFault {
        match fault {
            LinesFault::BadLine(number) => CallFault::BadLine(number),
            LinesFault::Memory => CallFault::Memory,
        }
    }
}

impl From<AllocError> for CallFault {
    ghost from_gives = { λ _ made. made ≡ Memory };

    fn from(_: AllocError) -> CallFault {
        CallFault::Memory
    }
}
