//! Turns of many connections over one hub.
//!
//! [`HubCore`] is the hub as a loop needs it: it takes a piece, and then answers one request after the other.
//! [`turns_are_served`] joins the contract of a turn with that of the hub.
#![tactic(auto)]

mod asked;
mod hub_core;
mod laws;
mod long;
mod needs;
mod weights;

pub use hub_core::HubCore;
pub use laws::{turns_are_served, wires_show_their_events};
