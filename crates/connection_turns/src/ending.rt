//! How connections end.

use std::net::SocketAddr;

/// How a connection ended.
#[derive(Clone, Copy, Debug, PartialEq, Eq)]
pub enum End {
    /// The input ended, and all its requests were answered.
    Done,
    /// A read failed.
    ReadFault,
    /// A write failed.
    WriteFault,
    /// The length of a frame was above the limit.
    FrameFault,
    /// An allocation failed.
    Memory,
    /// No byte moved for longer than the limit.
    Idle,
    /// It held memory that others waited for, and no byte moved for longer than the limit.
    Stalled,
    /// It held memory that others waited for, for longer than the limit.
    Slow,
    /// It was idle, and made room for a new one at the limit on connections.
    Displaced,
    /// The server drained, and its seconds for that passed. What was read whole was answered and written, if the peer took it in time.
    Drained,
}

/// A connection that ended.
#[derive(Clone, Copy)]
pub struct Ending {
    /// Its number: connections are numbered from 0, in the order in which they were accepted.
    pub number: u64,
    /// The address of its peer.
    pub peer: SocketAddr,
    /// How it ended.
    pub how: End,
}
