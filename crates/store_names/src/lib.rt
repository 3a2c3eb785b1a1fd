//! What the store and its frames agree on: names of collections and documents, where the fields of a frame stand, and how long a reply may be.
#![tactic(auto)]

mod lengths;
mod names;

pub use lengths::{BEFORE_PAYLOAD, FIELDS_AT, KEY_AT, LENGTH_BYTES, LONGEST_REPLY, PAYLOAD_LIMIT};
pub use names::{CollName, DocName, LONGEST_COLLECTION_NAME, LONGEST_DOCUMENT_NAME};
