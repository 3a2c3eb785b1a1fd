//! The lines on standard error that tell how connections ended and what was done, of a server of one connection at a time and of one of many.
#![tactic(auto)]

mod end_lines;
mod line_writer;
mod loop_lines;

pub use end_lines::EndLines;
pub use line_writer::{LineWriter, Outlet};
pub use loop_lines::LoopLines;
