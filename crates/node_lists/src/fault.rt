//! Why a query has no answer.

use thiserror::Error;

/// Why a query has no nodelist.
#[derive(Clone, Copy, Debug, PartialEq, Eq, Error)]
pub enum SelectFault {
    /// The charge is above the units.
    #[error("Costly")]
    Costly,
    /// A growth was refused.
    #[error("NoMemory")]
    Memory,
}
