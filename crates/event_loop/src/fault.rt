//! Why a server ends early.

ghost use Rattle.std.specs.Prelude.{◌≡◌};

use socket_poll::BindFault;
use std::alloc::{AllocError, AllocFailed};
use std::io::{self, ErrorKind};
use thiserror::Error;

/// Why a server ends early.
#[derive(Clone, Copy, Debug, PartialEq, Eq, Error)]
pub enum LoopFault {
    /// The address could not be bound, or the system did not say what is ready, for this reason.
    #[error("NetFault")]
    Net(ErrorKind),
    /// An allocation failed.
    #[error("NoMemory")]
    Memory,
}

impl From<io::Error> for LoopFault {
    fn from(error: io::Error) -> LoopFault {
        LoopFault::Net(error.kind())
    }
}

impl From<ErrorKind> for LoopFault {
    fn from(reason: ErrorKind) -> LoopFault {
        LoopFault::Net(reason)
    }
}

impl From<BindFault> for LoopFault {
    fn from(fault: BindFault) -> LoopFault {
        match fault {
            BindFault::Net(reason) => LoopFault::Net(reason),
            BindFault::Memory => LoopFault::Memory,
        }
    }
}

impl From<AllocError> for LoopFault {
    ghost use Rattle.event_loop.specs.declared.fault.LoopFault.TheVariants.{Memory};

    ghost from_gives = { λ _ fault. fault ≡ Memory };

    fn from(_: AllocError) -> LoopFault {
        LoopFault::Memory
    }
}

impl<T: Drop> From<AllocFailed<T>> for LoopFault {
    fn from(_: AllocFailed<T>) -> LoopFault {
        LoopFault::Memory
    }
}
