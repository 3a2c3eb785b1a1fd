//! The frames of requests and replies, for clients. It works on bytes and has no sockets.
//!
//! [`write_request`] writes the frame of a request. [`front_of`] finds the reply at the front of the bytes received, and [`answer_to`] the
//! answer in it. [`read_hits`], [`read_names`] and [`read_usage`] read the payloads of QUERY, LIST and USAGE.
#![tactic(auto)]

mod answers;
mod numbers;
mod payloads;
mod replies;
mod requests;

pub use answers::{Answer, AnswerFault, answer_to};
pub use payloads::{Hit, PayloadFault, Usage, read_hits, read_names, read_usage};
pub use replies::{Front, Reply, front_of};
pub use requests::{SendFault, write_request};
