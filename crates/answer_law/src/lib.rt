//! The law of answers: each request has one, whatever the tenant holds.
#![tactic(auto)]

mod laws;

pub use laws::bodies_are_answered;
