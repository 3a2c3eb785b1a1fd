//! Evaluation of a query over the tape of a text (RFC 9535, sections 2.3 to 2.5), with an exact charge.
//!
//! A [`Plan`] is a valid query, prepared for evaluation (`query_plan`). [`Plan::select`] returns the nodes and the charge, or refuses a charge above
//! the units. [`select`] makes the plan too. What selects without a condition is in `node_lists`, and what filters compare in `compared_sides`.
#![tactic(auto)]

mod awaiting;
mod evaluation;
mod planning;
mod selecting;
mod state;
mod truths;

pub use awaiting::{Awaited, first_awaited};
pub use evaluation::{does_hold, from_node};
pub use node_lists::SelectFault;
pub use planning::{BUDGET, Plan, select};
pub use selecting::{Selected, empty_slots, select_all};
pub use state::{State, beginning, found_in, keep_found};
