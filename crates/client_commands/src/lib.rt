//! The command line of the program `path_client`: its commands and options, and the message and exit status of each failure.
//!
//! [`read_options`] parses a command line. [`Failure`] says why a command fails.
#![tactic(auto)]

mod failure;
mod messages;
mod notes;
mod options;
mod statuses;

pub use failure::Failure;
pub use messages::Context;
pub use notes::{Members, Note, Quoted};
pub use options::{CommandLineFault, Operation, Options, Verb, read_options};
pub use statuses::status_name;
