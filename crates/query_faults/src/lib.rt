//! Where a query is refused, and what was expected there.
#![tactic(auto)]

mod classes;
mod hints;
mod messages;
mod reading;
mod rules;
mod states;

pub use messages::{Refusal, find, told};
pub use reading::Reading;
pub use rules::Rule;
