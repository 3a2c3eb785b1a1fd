//! The words of a program's command line, and which of them is not UTF-8.
#![tactic(auto)]

mod words;

pub use words::{WordFault, read_words};
