//! The tables of the protocol (docs/PROTOCOL.md): its commands and its statuses.
#![tactic(auto)]

mod commands;
mod statuses;

pub use commands::{COMMANDS, Command, command_at};
pub use statuses::{STATUSES, Status, status_at};
