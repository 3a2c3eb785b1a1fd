//! The duplicate check while a text is walked: names are compared by stamps, short hashes of their bytes.
//!
//! If the stamps of an object differ, so do its names. The other objects are suspects, and the walk gives their list.
#![tactic(auto)]

mod seen;

pub use seen::{Quoted, SeenNames, Slot, StampedName, stamped};
