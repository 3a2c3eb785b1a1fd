//! Whole streams: what a reader gives up to a limit, and all bytes of a text to a writer.
#![tactic(auto)]

mod reading;
mod writing;

pub use reading::{ReadFault, read_past};
pub use writing::{WriteFault, write_whole};
