//! The places of the refusals of a text that is JSON, and what is said of each refused text.
//!
//! [`told`] is what a program prints beside a refusal's name. Names are compared in the tape of the text. All else is found in its bytes.
#![tactic(auto)]

mod firsts;
mod marks;
mod messages;
mod names;
mod surrogates;
mod tapes;

pub use firsts::{number_limit, too_deep};
pub use messages::{find, told};
pub use names::{Twins, duplicate_name};
pub use surrogates::lone_surrogate;
