//! The connections that get a turn in a round, and the time that each tenant's turns took in it.
#![tactic(auto)]

mod due;
mod long_turns;

pub use due::{Due, DueList, PARTIES, party_of};
pub use long_turns::LongTurns;
