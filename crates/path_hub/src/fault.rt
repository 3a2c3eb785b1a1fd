//! Why the hub refuses a call.
use tenant_store::TenantsFault;
use thiserror::Error;

/// Why a connection is not opened.
#[derive(Clone, Copy, Debug, Drop, PartialEq, Eq, Error)]
pub enum ConnectFault {
    /// The connection is open already.
    #[error("the connection is open")]
    Taken,
    /// An allocation failed.
    #[error("a growth was refused")]
    Memory,
}

/// Why a piece is not taken.
#[derive(Clone, Copy, Debug, Drop, PartialEq, Eq, Error)]
pub enum TakeFault {
    /// The connection is not open.
    #[error("the connection is not open")]
    NoConnection,
    /// A framing fault came before.
    #[error("a framing fault came before")]
    Closed,
    /// An allocation failed.
    #[error("a growth was refused")]
    Memory,
}

/// Why the requests of a piece are not all answered.
#[derive(Clone, Copy, Debug, Drop, PartialEq, Eq, Error)]
pub enum HubFault {
    /// The connection is not open.
    #[error("the connection is not open")]
    NoConnection,
    /// A framing fault came before.
    #[error("a framing fault came before")]
    Closed,
    /// An allocation failed. If the piece was taken, frames may wait for the next call.
    #[error("a growth was refused")]
    Memory { taken: bool },
}

/// Why a run ends early.
#[derive(Clone, Copy, Debug, Drop, PartialEq, Eq, Error)]
pub enum RunFault {
    /// The keys are refused, but not because an allocation failed.
    #[error("the keys are refused: {0}")]
    Keys(TenantsFault),
    /// An allocation failed.
    #[error("a growth was refused")]
    Memory,
}
