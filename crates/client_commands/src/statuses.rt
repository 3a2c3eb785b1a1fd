//! What to do about a status of the protocol.

use protocol::status_at;

/// The name of a status.
pub fn status_name(status: u8) -> &'static str {
    refusal(status).0
}

/// The name of a status, and what to do about it.
pub fn refusal(status: u8) -> (&'static str, &'static str) {
    match status_at(usize::from(status)) {
        Some(status) => (status.name, status.advice),
        None => ("Unknown", "the server is newer than this client"),
    }
}
