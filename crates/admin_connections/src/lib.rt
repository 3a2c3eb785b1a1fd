//! The few connections of the administration address: what came on each, its one reply, and what was said on all of them.
//!
//! A step of a connection reads a piece, writes some lines of a page, or writes a part of a reply, so that none holds a loop. How many are open,
//! how long each may be, and what it holds are bounded.
#![tactic(auto)]

mod desk;
mod visit;

pub use desk::{Desk, PLACES};
