//! The reply to one request: what it is, by the maps of all tenants and the request's body alone, and how it is written.
//!
//! [`place_request`] says of which tenant a body asks what, or is the reply where it asks none. [`answer`] is what that tenant's map says.
#![tactic(auto)]

mod laws;
mod placing;
mod queries;
mod replies;
mod writing;

pub use laws::{places_are_served, tenants_are_apart, told_once};
pub use placing::{Placed, Refused, place_request};
pub use replies::{SoFar, answer};
pub use writing::{NO_MEMORY, SHORT_REPLY, write_small};
