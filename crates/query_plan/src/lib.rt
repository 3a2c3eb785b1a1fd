//! A valid query made ready for evaluation on any document.
//!
//! [`parts_of`] decides the kind of each part once, so that names and literals are ready to be compared. A query in a filter is split into the names
//! and indexes that it begins with, and the segments behind them. If it begins at `$` or has such segments, it has a slot for its result. A condition
//! that compares one side with literals is decided beforehand (`decisions`). [`units_of`] tells what a condition is charged, where no look at the child
//! is needed for that.
#![tactic(auto)]

mod finding;
mod laws;
mod lone;
mod making;
mod plan;
mod short;
mod told;
mod units;

pub use laws::{finds_slots, follows_links, means_conditions};
pub use lone::{is_wild, lone_link, only_link};
pub use making::parts_of;
pub use plan::{Condition, Nested, Operand, Parts, Selection, Stage};
pub use units::units_of;
