//! A query evaluated node by node, which can stop at any node: a stack of cursors, one for each segment under way, and levels for queries in filters.
//!
//! [`begin`] and [`advance`] go on by shares of units. Between two of them a [`Machine`] holds numbers of nodes and nothing of the document, and
//! [`take_out`] hands out what was selected so far. An [`Evaluator`] does so on one document after the other. [`select`] is all at once.
#![tactic(auto)]

mod cursor;
mod evaluation;
mod evaluator;
mod levels;
mod placing;
mod runs;
mod stepping;
mod visits;

pub use evaluation::{advance, begin, select, take_out};
pub use evaluator::Evaluator;
pub use levels::Machine;
