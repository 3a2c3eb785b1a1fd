//! Where the fields of a frame stand, and how long a reply may be.

/// The bytes of a frame's length.
pub const LENGTH_BYTES: usize = 4;

/// Where the key begins in a request's body: behind the command and the number.
pub const KEY_AT: usize = 5;

/// Where the fields begin in a request's body: behind the key.
pub const FIELDS_AT: usize = 21;

/// The most bytes in the body of a reply.
pub const LONGEST_REPLY: usize = 8_388_608;

/// The bytes of a reply's body that stand before its payload: the status and the request's number.
pub const BEFORE_PAYLOAD: u32 = 5;

/// The most bytes of a reply's payload.
pub const PAYLOAD_LIMIT: usize = LONGEST_REPLY - BEFORE_PAYLOAD as usize;
