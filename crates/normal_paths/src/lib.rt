//! Normalized paths (RFC 9535, section 2.7): the query of names and indexes that selects exactly one node.
//!
//! The time of [`write_path`] is proportional to the node's depth and the path's length. It allocates for the vector, and for the way
//! up from a node deeper than 32 levels.
#![tactic(auto)]

mod name;
mod path;

pub use path::{path_length, write_path};
