//! Frames of a connection's stream, requests and replies.
//!
//! A [`Framer`] takes a stream apart into whole frames, however it is cut into pieces: [`cuts_do_not_matter`] says so of
//! every stream. [`read_request`] reads a frame's body, [`write_reply`] writes a reply. A body is lent without a copy. The bytes after it are
//! moved only once at least as many were taken off before them, so that the time is linear in the stream.
#![tactic(auto)]

mod block;
mod framing;
mod laws;
mod parts;
mod replies;
mod requests;

pub use framing::{AcceptFault, Framer, Front, LONGEST_BODY, Next};
pub use laws::{
    cuts_do_not_matter, nothing_follows_a_fault, prefix_comes_first, reads_only_what_is_written,
    reads_what_is_written, splits_from_the_front, splits_one_way,
};
pub use parts::{LONGEST_FRAME, MOST_REPLY, Part};
pub use replies::{reply_head, write_reply};
pub use requests::{Command, Request, RequestFault, read_request};
