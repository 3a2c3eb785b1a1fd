//! A hub whose answers are counted: by command and status, by tenant, and by the time that they took.
//!
//! [`MeasuredHub`] is a core of turns, as `hub_core::HubCore` is. What it answers is what the hub answers, and it counts each answer once. It also tells
//! queries that took long.
//!
//! A loop over it is served by [`serve`], or a round at a time by [`step`]. What the loop's steps come to, in any order, is a law ([`loop_is_served`]).
//! Another law joins rounds, one behind the other ([`rounds_join`]).
#![tactic(auto)]

mod laws;
mod measured_hub;
mod serving;

pub use laws::{loop_is_served, rounds_join};
pub use measured_hub::MeasuredHub;
pub use serving::{serve, step};
