//! The lines that the client prints and reads.
//!
//! [`append_hits`], [`append_json_hits`] and [`append_names`] write the lines of a reply, [`documents_of`] has the documents of its hits, and
//! [`append_hits_in`] finds the hits in one document. [`append_document`] writes a line of a dump, and
//! [`read_document`] reads it. [`name_in`] finds a document's name in its text. [`read_key`] reads a key file.
#![tactic(auto)]

mod answers;
mod documents;
mod hits;
mod keys;
mod naming;
mod pieces;

pub use answers::append_hits_in;
pub use documents::{LineFault, NamedText, append_document, read_document};
pub use hits::{append_hits, append_json_hits, append_names, documents_of};
pub use keys::{KeyFault, read_key};
pub use naming::{name_in, read_name_query};
