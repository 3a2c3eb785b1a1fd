//! An LRU cache of compiled queries by their texts.
#![tactic(auto)]

mod cache;
mod compiled;

pub use cache::{Cache, LARGEST_CAPACITY};
pub use compiled::Compiled;
