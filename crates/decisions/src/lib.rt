//! Conditions that compare one side with literals, decided beforehand for each place of its value among the literals.
//!
//! A [`Test`] is such a condition: `||`, `&&` and `!` over comparisons (RFC 9535, section 2.3.5). Its [`Decision`] has the literals in order,
//! and the truth for each kind of value at each place among them. Places are below the first literal, at it, between it and the next, and so on.
//! [`Decision::holds`] finds the place by binary search and looks the truth up, whatever the number of comparisons. A [`Scale`] has the literals
//! of a condition on several sides, whose truth depends on the marks of these. A side is whatever can be compared with them ([`ComparedSide`]).
#![tactic(auto)]

mod counting;
mod decision;
mod gathering;
mod laws;
mod order;
mod places;
mod relation;
mod scale;
mod side;
mod tables;
mod telling;
mod test;

pub use decision::Decision;
pub use laws::{tells_as_compared, tells_by_marks, tells_by_places};
pub use order::literal_kind;
pub use relation::Relation;
pub use scale::Scale;
pub use side::ComparedSide;
pub use test::{Constant, Test};
