//! Where a text is no longer JSON, what may stand there, and a place as people count it.
//!
//! The reader of texts says which refusal applies and not where, so that it reads fast. Whoever holds a refused text asks here, and the crate
//! `text_places` for the other refusals.
#![tactic(auto)]

mod finder;
mod findings;
mod hints;
mod marks;
mod moves;
mod spots;
mod steps;
mod utf8;

pub use finder::not_json;
pub use findings::Finding;
pub use hints::hint;
pub use marks::{Expected, Place};
pub use spots::{Found, Spot, found_at, shown_at, shown_if, spot_at, spot_from};
pub use utf8::not_utf8;
