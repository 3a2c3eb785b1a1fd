//! What a JSON text is (RFC 8259): the grammar, the tree of a text, what strings mean, which texts are refused, and the tape of a tree.
//!
//! The definitions are in `specs/`. The code is the types that they speak of, and laws about them.
#![tactic(auto)]

pub mod laws;
mod modes;
mod tape;

pub use modes::{Mode, Turn};
pub use tape::{
    BuildFault, Entry, Extent, Kind, Lead, Level, NodeId, Open, Role, Seat, Shape, TextFault, Want,
};
