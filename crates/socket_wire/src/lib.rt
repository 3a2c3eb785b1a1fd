//! Wires over streams of the system, such as sockets, and the loop that serves one connection after the other.
#![tactic(auto)]

mod end_log;
mod listener;
mod memory_listener;
mod serving;
mod stream_wire;

pub use end_log::{EndLog, Ending};
pub use listener::{AcceptFault, Listener, StreamListener};
pub use memory_listener::MemoryListener;
pub use serving::serve_streams;
pub use stream_wire::StreamWire;
