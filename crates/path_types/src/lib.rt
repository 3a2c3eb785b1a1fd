//! Decides whether a query is valid (RFC 9535, section 2.1).
//!
//! [`check`] walks the syntax tree and wraps a valid one in [`ValidQuery`]. [`compile`] parses a query text and checks it.
#![tactic(auto)]

mod laws;
mod query_text;
mod valid;
mod valid_query;

pub use laws::{judges_numbers, numbers_have_one_grammar};
pub use query_text::{QueryFault, compile};
pub use valid::INT_LIMIT;
pub use valid_query::{NotValid, ValidQuery, check};
