//! The limits of a server.

/// The limits of a server.
#[derive(Clone, Copy, Debug, PartialEq, Eq)]
pub struct Limits {
    /// The most connections open at once. Further ones wait to be accepted, or replace an idle one.
    pub connections: usize,
    /// The most bytes buffered for long frames and long replies, in addition to what each connection may always buffer. At least a longest
    /// request and a longest reply.
    pub memory: usize,
    /// The seconds after which an idle connection is closed.
    pub idle: Option<u64>,
    /// The seconds after which an idle connection is closed while it holds memory that others wait for.
    pub stall: u64,
    /// The seconds after which a connection that holds memory is closed while others wait for it.
    pub frame_time: u64,
    /// The seconds that a connection must have been idle to make room for a new one at the limit.
    pub spare: u64,
}
