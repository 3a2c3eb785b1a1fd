//! Finds the conditions of a filter that compare one side with literals, and decides them (`decisions`).
//!
//! [`decide`] takes a whole expression. The operands of `||` or `&&` can be on several sides: [`grouped`] gives those on one side the same number,
//! wherever they stand, and [`decide_group`] takes those with a number. [`side_in`] and [`side_in_group`] propose the side. An expression that is no
//! such condition has no decision, and is evaluated as it stands.
#![tactic(auto)]

mod groups;
mod reading;

pub use groups::{Groups, grouped, parts_in, side_in_group};
pub use reading::{decide, decide_group, side_in};
