//! The buffered replies of a connection, and one turn of reading, answering and writing.
//!
//! An [`Outbox`] holds the bytes that a connection is owed: replies that are not written yet. [`turn`] reads at most one piece, answers a few
//! requests and writes at most twice; it never waits. [`in_order`] states what holds over every list of events.
#![tactic(auto)]

mod answers;
mod laws;
mod owing;
mod readiness;
mod stage;
mod turns;
mod wire;

pub use answers::{Core, Step};
pub use laws::{alone, bounded, drains, in_order};
pub use owing::{CAP, Outbox};
pub use readiness::Readiness;
pub use stage::Stage;
pub use turns::{REQUESTS, feed, flush, reply, turn};
pub use wire::{Given, Taken, Wire};
