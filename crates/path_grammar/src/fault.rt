//! Why a query text is refused.

ghost use Rattle.std.specs.Prelude.{◌≡◌};
ghost use Rattle.path_grammar.specs.declared.fault.ParseFault.TheVariants.{Memory};

use std::alloc::{AllocError, AllocFailed};
use thiserror::Error;

/// Why a query text is refused, in the order of the checks.
#[derive(Clone, Copy, Debug, Drop, PartialEq, Eq, Error)]
pub enum ParseFault {
    /// The text has more than 4,096 bytes.
    #[error("QueryTooLong")]
    QueryTooLong,
    /// The text is not UTF-8, or not a query of the grammar.
    #[error("NotWellFormed")]
    NotWellFormed,
    /// An allocation failed.
    #[error("NoMemory")]
    Memory,
}

impl From<AllocError> for ParseFault {
    ghost from_gives = { λ _ e. e ≡ Memory };

    fn from(_e: AllocError) -> ParseFault {
        ParseFault::Memory
    }
}

impl<T: Drop> From<AllocFailed<T>> for ParseFault {
    ghost from_gives = { λ _ e. e ≡ Memory };

    fn from(_e: AllocFailed<T>) -> ParseFault {
        ParseFault::Memory
    }
}
