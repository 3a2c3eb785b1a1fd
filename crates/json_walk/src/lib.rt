//! The walk over the places of a text's tokens, which makes its tape.
//!
//! `walk` takes the token at each place, and the tape is that of the text's tree, or the text is no JSON. `build` is only this walk; its contract bounds
//! the looks at bytes. Open containers stand in a list, so that depth needs no stack.
#![tactic(auto)]

mod exponents;
pub mod laws;
mod lexing;
mod second_stage;
mod short_numbers;

pub use exponents::has_short_exponent;
pub use second_stage::{Reading, Way, begin, build, go_on, walk};
