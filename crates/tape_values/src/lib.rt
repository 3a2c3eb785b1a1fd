//! Values of a text as a query sees them (RFC 9535, sections 2.3.3 to 2.3.5): compared, and found by indexes and slices.
//!
//! [`equal_values`] and [`less_values`] compare the values of a text as a filter does: numbers as exact decimals, strings by
//! scalar values, objects whatever the order of their members. [`compare_sides`] does so for the sides of a comparison. They take
//! no memory.
//!
//! [`element`] finds the element with an index, [`elements_from`] the one at a place with those behind it, and [`slice_places`] the
//! places of a slice.
#![tactic(auto)]

mod compare;
mod digits;
mod fronts;
mod guesses;
mod indexes;
mod letters;
mod settling;
mod sides;
mod slices;
mod strings;
mod values;

pub use compare::{compare as compare_sides, compare_found, compare_whole, equal_and_less};
pub use indexes::{element, element_total, elements_from};
pub use sides::Side;
pub use slices::{Places, slice_places};
pub use values::{equal_values, less_values};
