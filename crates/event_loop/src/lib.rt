//! A server of many connections in one thread. It waits until some are ready, accepts new ones, and gives a turn to each that can make progress.
//!
//! [`Server`] goes round over a system and a clock (`socket_poll`). The open connections and their turns are in `open_connections`.
#![tactic(auto)]

mod administering;
mod fault;
mod last_lines;
mod parting;
mod rounds;
mod seconds;
mod server;

pub use admin_pages::About;
pub use connection_turns::{Counts, End, Ending, Limits};
pub use fault::LoopFault;
pub use open_connections::{Held, Journal, LEAST_MEMORY, LoopCore, Slow, Totals};
pub use server::Server;
pub use socket_poll::{Accepted, Gate, Peer, Report, Since, Sockets, System, Time, Woken};
