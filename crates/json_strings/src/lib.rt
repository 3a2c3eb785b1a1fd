//! Strings of a JSON text (RFC 8259, section 7), from quote to quote.
//!
//! A string is read where it stands: `quote_past` finds its end, `Scalars` gives the scalar values that it means, and names are hashed and compared
//! by these. What stands for itself is compared byte by byte.
#![tactic(auto)]

mod characters;
mod extents;
mod hashes;
mod keys;
mod names;
mod plain;
mod scalars;
mod scan;
mod sought;

pub use extents::{bytes_at, part_at};
pub use hashes::{FACTOR, bytes_word, hash, mixed, spread};
pub use keys::Key;
pub use plain::{Words, is_meant_by, is_meant_plainly, words_of};
pub use scalars::{Scalars, count_of, unquoted};
pub use scan::quote_past;
pub use sought::{Sought, compare_sought, is_sought, sought_hash};
