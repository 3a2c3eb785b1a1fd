//! The sides of a comparison.

use json_tape::NodeId;
use path_grammar::Literal;

/// A value that is compared, or Nothing (RFC 9535, section 2.4.1).
#[derive(Clone, Copy)]
pub enum Side<'a> {
    Nothing,
    Node(NodeId),
    Literal(&'a Literal),
    /// A length or a count.
    Whole(usize),
}
