//! The sides of a comparison in a filter (RFC 9535, section 2.3.5), compared for one node after the other.
//!
//! What may take long is kept: how two arrays, objects, long strings or numbers with exponents compare, and the lengths of strings that are counted
//! again and again. Where nothing is kept, since memory is refused or the place is taken, it is found again. [`decision_holds`] tells a
//! condition that is decided beforehand.
#![tactic(auto)]

mod answers;
mod deciding;
mod lengths;
mod sides;

pub use answers::Compared;
pub use deciding::decision_holds;
pub use lengths::{Lengths, no_lengths};
pub use sides::{cell_of, compare, compare_length, length_of, related, side_found};
