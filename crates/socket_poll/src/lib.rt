//! What a loop over connections asks of the system: which of them are ready, who connects, and what the time is.
//!
//! [`System`], [`Peer`] and [`Time`] are what it asks. [`Sockets`] answers by TCP and epoll, [`Since`] by the system's clock. [`Gate`] tells
//! whether a descriptor takes a line without a wait.
#![tactic(auto)]

mod gate;
mod sockets;
mod stream;
mod system;

pub use gate::Gate;
pub use sockets::{BindFault, Since, Sockets};
pub use stream::Stream;
pub use system::{Accepted, Peer, Report, System, Time, Woken};
