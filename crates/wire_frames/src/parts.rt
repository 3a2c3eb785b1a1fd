//! How long frames may be, and a frame of which a part came.

use crate::framing::LONGEST_BODY;
use store_names::{LENGTH_BYTES, LONGEST_REPLY};

/// The most bytes of a request, with its length.
pub const LONGEST_FRAME: usize = LENGTH_BYTES + LONGEST_BODY;

/// The most bytes of a reply, with its length.
pub const MOST_REPLY: usize = LENGTH_BYTES + LONGEST_REPLY;

/// A request of which not all came yet.
#[derive(Clone, Copy, Debug, PartialEq, Eq)]
pub struct Part {
    /// The bytes of the whole frame, with its length.
    pub length: usize,
    /// Those of them that are still to come.
    pub left: usize,
    /// Whether its key names a tenant.
    pub is_known: bool,
}
