//! Peers of a server of many connections, and the pipes between them, for a simulation that follows from a seed.
#![tactic(auto)]

mod chance;
mod peer;
mod pipe;
mod wanted;

pub use chance::Chance;
pub use peer::{Peer, Shared, TENANTS, Tally, Times, key_of};
pub use pipe::{End, Pipe};
