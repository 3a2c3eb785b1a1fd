//! JSON texts (RFC 8259) as tapes.
//!
//! `Document::read` accepts exactly the texts within the limits that have no lone surrogate and no object with a repeated name. It keeps
//! the text, and one entry for each value: 16 bytes, and 12 more for an array or an object. The methods of `Document` return each
//! value's kind, bytes, length, children and name. Most take constant time. Those that read a string or a name take time linear in its
//! length. `member`, `member_near` and `twin` use binary search in an object of more than 64 members, and go over the members of a
//! smaller one.
//!
//! Reading has three steps. The index finds the places of all tokens (`structural_index`). One walk over the places makes the entries.
//! Then the entries are checked. Open containers stand in a list, so that depth needs no stack. Numbers and strings are not converted:
//! they are read from the text when they are asked for. Repeated names are found by hashes, and compared if two hashes are equal.
#![tactic(auto)]

mod children;
mod document;
mod judge;
pub mod laws;
mod progress;
mod read_task;
mod verdict;

pub use children::Children;
pub use document::{Document, TEXT_LIMIT};
pub use json_strings::Scalars;
pub use json_text::{BuildFault, Kind, Lead, NodeId, TextFault};
pub use json_walk::build;
pub use judge::DEPTH_LIMIT;
pub use progress::Progress;
pub use read_task::ReadTask;
pub use tape_cells::Tape;
pub use verdict::{Refusal, Verdict};
