//! Names and indexes, which select one node at most.

use path_grammar::IntLit;
use std::cell::Cell;

/// A name of a member, ready to be looked up.
#[derive(Drop)]
pub struct Name {
    pub scalars: Vec<char>,
    /// How many numbers behind its object the member stood that was found last.
    pub distance: Cell<u32>,
}

/// A selector that selects one node at most: a segment of a singular query (RFC 9535, section 2.3.5.1), or one of a bracket.
#[derive(Drop)]
pub enum Link {
    Key(Name),
    Place(IntLit),
}
