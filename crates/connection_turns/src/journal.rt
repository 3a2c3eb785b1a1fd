//! What a server reports while it runs.

use crate::counts::Counts;
use crate::ending::Ending;

/// A query that took long.
#[derive(Clone, Copy, Debug, PartialEq, Eq)]
pub struct Slow {
    /// The place of the tenant that asked it.
    pub tenant: Option<usize>,
    /// The units that it was charged, unless it was refused.
    pub units: Option<u64>,
    /// The microseconds that it took.
    pub micros: u64,
}

/// The totals of a server.
#[derive(Clone, Copy, Debug)]
pub struct Totals {
    /// Connections that were accepted.
    pub connections: u64,
    /// Connections that are open.
    pub connected: usize,
    /// Requests that were answered.
    pub counts: Counts,
    /// Bytes read.
    pub read: u64,
    /// Bytes written.
    pub written: u64,
}

/// A limit because of which clients wait.
#[derive(Clone, Copy, Debug, PartialEq, Eq)]
pub enum Held {
    /// As many connections are open as are allowed, and more ask.
    Connections,
    /// The system has no descriptor or memory for a connection that asks.
    Descriptors,
    /// Connections wait for memory.
    Memory,
}

/// Gets the reports of a server. A call must not wait, since all connections would wait for it.
pub trait Journal {
    /// A connection ended.
    fn ended(&mut self, ending: &Ending);

    /// A minute passed.
    fn counted(&mut self, totals: &Totals);

    /// Clients wait because of a limit: reported at once, and then each minute.
    fn tell_held(&mut self, limit: Held, totals: &Totals);

    /// A second passed.
    fn ticked(&mut self);

    /// A query took longer than a server was told to bear.
    fn slow(&mut self, slow: &Slow) {
        let _ = slow;
    }

    /// How many lines it dropped so far.
    fn dropped(&self) -> u64 {
        0
    }

    /// How many lines it could not write so far.
    fn lost(&self) -> u64 {
        0
    }
}
