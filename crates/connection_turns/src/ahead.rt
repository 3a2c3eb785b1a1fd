//! What is in front on a connection.

use wire_frames::Part;

/// What is in front of the bytes that came on a connection and are not answered.
#[derive(Clone, Copy, Debug, PartialEq, Eq)]
pub struct Ahead {
    /// How many bytes these are.
    pub waiting: usize,
    /// The part of a frame, where its key came and its end did not.
    pub part: Option<Part>,
    /// The place of the tenant whose key is in the frame, whole or in part.
    pub tenant: Option<usize>,
    /// The most bytes of the reply to the first request, or to the fault.
    pub most_reply: usize,
    /// The request waits for what another connection has under way.
    pub waits: bool,
    /// The request may take long.
    pub is_long: bool,
}
