//! The command line of the program `path_server`: its commands and options, and the message and exit status of each failure.
//!
//! [`read_request`] parses a command line. [`Failure`] says why the program fails.
#![tactic(auto)]

mod failure;
mod request;

pub use failure::{AddressFault, BrokenCall, Failure, FileFault, KeyLine, RefusedAt};
pub use request::{Listening, Request, VERSION, read_request};
