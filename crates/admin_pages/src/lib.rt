//! What a server tells whoever runs it: the requests of its administration address (RFC 9112), the replies, and metrics in the text format of
//! Prometheus. Nothing here opens a socket or reads a clock.
#![tactic(auto)]

mod about;
mod counted;
mod families;
mod heads;
mod hosts;
mod labels;
mod laws;
mod page;
mod pieces;
mod replies;
mod routes;
mod standing;

pub use about::About;
pub use counted::{Metrics, Served};
pub use heads::{Reading, read_request};
pub use labels::STATUS_PLACES;
pub use laws::{counted_once, named_once};
pub use page::{Gauges, Page};
pub use replies::{Reply, append_body, append_reply};
pub use routes::{AdminRequest, Refusal};
pub use standing::Standing;
