//! What a query means (RFC 9535, sections 2.3 to 2.5), over trees alone: the values that it compares, the nodes that it selects, and what it is charged.
//!
//! The definitions stand here, so that the crates that make something of a query need no document for them. Of code there are the names and indexes
//! of a query, ready to be followed, and the operators of comparisons.
#![tactic(auto)]

mod links;
mod operators;

pub use links::{Link, Name};
pub use operators::{comparisons_are_told, tells, told_of};
