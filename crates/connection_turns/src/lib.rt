//! One of many connections: its stream as a wire, what it holds of the memory that all share, and its turns.
//!
//! A turn ([`outbox::turn`]) makes at most three system calls and answers at most 64 requests. It ends early once a millisecond has passed,
//! so that no connection keeps the others waiting for long. A report of readiness is kept until a call would wait.
#![tactic(auto)]

mod ahead;
mod answered;
mod claim;
mod connection;
mod counted;
mod counts;
mod ending;
mod journal;
mod limits;
mod loop_core;
mod socket;

pub use ahead::Ahead;
pub use answered::{Answered, RequestKind, Work};
pub use claim::{After, Claim, Need, OWED, Pool, Purpose};
pub use connection::{ALLOWANCE, Connection, Outcome, Phase, TurnPlan};
pub use counted::{Counted, Done, TurnBounds};
pub use counts::Counts;
pub use ending::{End, Ending};
pub use journal::{Held, Journal, Slow, Totals};
pub use limits::Limits;
pub use loop_core::LoopCore;
