//! The connections that a loop has open over one core, and the memory that they share.
//!
//! [`Open`] takes connections in, gives each a turn and lets it go. The core is anything that does what [`LoopCore`] says.
#![tactic(auto)]

mod bounds;
mod budgets;
mod claims;
mod laws;
mod needs;
mod numbers;
mod open;
mod spares;
mod waiting;

pub use budgets::LEAST_MEMORY;
pub use connection_turns::{Held, Journal, LoopCore, Slow, Totals};
pub use due_list::Due;
pub use laws::{states_join, steps_join, turns_pass};
pub use open::Open;
pub use waiting::Waiting;
