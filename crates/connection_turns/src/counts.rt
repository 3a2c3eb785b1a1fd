//! How many requests were answered.

use admin_pages::{Metrics, STATUS_PLACES};

/// How many requests were answered. A count stops at its greatest number.
#[derive(Clone, Copy, Debug)]
pub struct Counts {
    /// All of them.
    pub requests: u64,
    /// Those with each status, and behind these FrameFault.
    pub statuses: [u64; STATUS_PLACES],
}

impl Counts {
    /// Those that were counted so far.
    pub fn of(metrics: &Metrics) -> Counts {
        let mut requests = 0u64;
        let mut statuses = [0u64; STATUS_PLACES];
        'cells: for (place, count) in metrics.requests.iter().enumerate() {
            let status = place % STATUS_PLACES;
            statuses[status] = statuses[status].saturating_add(*count);
            requests = requests.saturating_add(*count);
        }
        Counts { requests, statuses }
    }
}
