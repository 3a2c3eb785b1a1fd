//! Tapes of JSON texts in memory: 16 bytes for each value, and 12 more for an array or an object.
//!
//! A `Tape` is a list of entries to whoever reads it. A `Builder` makes one, depth first, with the open containers in a list.
#![tactic(auto)]

mod builder;
mod cells;
mod compact;
mod growth;

pub use builder::Builder;
pub use compact::Tape;
pub use growth::push;
