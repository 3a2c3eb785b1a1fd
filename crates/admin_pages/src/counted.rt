//! What is counted.
ghost use Rattle.std.specs.Prelude.{◌≡◌, ◌<◌, ◌≤◌, length, nat_lt};
ghost use Rattle.std.specs.List.{count_by};
ghost use Rattle.admin_pages.specs.Counting.{added_at, added_each, after_request, cell, none, time_place};
ghost use Rattle.admin_pages.specs.Labels.{cells, time_places};

use crate::labels::{BOUNDS, CELLS, COMMAND_PLACES, STATUS_PLACES, TIMES};
use protocol::STATUSES;

pub(crate) const TENANTS: usize = 256;

/// How many sums there are over all requests.
const TOTALS: usize = 2;

/// How many there are over the requests of each tenant.
const TENANT_TOTALS: usize = 3;

/// A request that was answered.
#[derive(Clone, Copy, Debug)]
pub struct Served {
    /// The command's byte, or 0 if there is none.
    pub command: u8,
    /// The status of the reply.
    pub status: u8,
    /// The tenant's number, if the key is one's.
    pub tenant: Option<usize>,
    /// How long it took, in microseconds.
    pub micros: u64,
    /// The units that it was charged.
    pub units: u64,
    /// Its bytes, if a limit refused it, and else 0.
    pub refused: u64,
    /// Whether it was a slow query.
    pub is_slow: bool,
}

/// Counts of requests since the start. A count stays at its greatest number, 2^64 - 1.
#[derive(Clone, Copy, Debug)]
pub struct Metrics {
    /// Requests by command and status.
    pub requests: [u64; CELLS],
    /// Requests by how long they took: up to each bound, and above the last.
    pub times: [u64; TIMES],
    /// The microseconds of all requests.
    pub micros: u64,
    /// The sums over all requests.
    pub totals: [u64; TOTALS],
    /// Those over the requests of each tenant.
    pub tenants: [[u64; TENANT_TOTALS]; TENANTS],
}

impl Metrics {
    /// None was answered.
    pub fn new() -> Metrics
        ensures { result ≡ none }
    {
        Metrics {
            requests: [0; CELLS],
            times: [0; TIMES],
            micros: 0,
            totals: [0; TOTALS],
            tenants: [[0; TENANT_TOTALS]; TENANTS],
        }
    }

    /// Counts a request once: under its command and status, and its time. What it adds to the sums over all requests is added to them, and to those of
    /// its tenant if it has one.
    pub fn count(&mut self, served: &Served)
        ensures { self.new ≡ after_request self.old served.now }
    {
        let place = cell(served.command, served.status);
        self.requests[place] = self.requests[place].saturating_add(1);
        let place = time_place(served.micros);
        self.times[place] = self.times[place].saturating_add(1);
        self.micros = self.micros.saturating_add(served.micros);
        add_each(&mut self.totals, &[served.units, u64::from(served.is_slow)]);
        if let Some(tenant) = served.tenant {
            add_at(
                &mut self.tenants,
                tenant,
                &[1, served.units, served.refused],
            );
        }
    }
}

// So much more at a place, if there is such a place.
fn add_at(tenants: &mut [[u64; TENANT_TOTALS]; TENANTS], place: usize, more: &[u64; TENANT_TOTALS])
    ensures { tenants.new ≡ added_at tenants.old (Some place) more.now }
{
    if place < TENANTS {
        add_each(&mut tenants[place], more);
    }
}

fn add_each(sums: &mut [u64], more: &[u64])
    requires { length sums.old ≡ length more.now }
    ensures { sums.new ≡ added_each sums.old more.now }
{
    for (place, more) in more.iter().enumerate() {
        sums[place] = sums[place].saturating_add(*more);
    }
}

// The place of a command and a status.
fn cell(command: u8, status: u8) -> usize
    ensures place { result ≡ cell command status }
    ensures within { result < cells }
{
    let command = usize::from(command);
    let row = if command < COMMAND_PLACES { command } else { 0 };
    row * STATUS_PLACES + usize::from(status).min(STATUSES.len())
}

// How many bounds are below a time.
fn time_place(micros: u64) -> usize
    ensures place { result ≡ time_place micros }
    ensures within { result < time_places }
{
    count_below(BOUNDS, micros)
}

fn count_below(bounds: &[(u64, &str)], micros: u64) -> usize
    ensures count { result ≡ count_by (λ bound. nat_lt bound.0 micros) bounds.now }
    ensures within { result ≤ length bounds.now }
{
    bounds.iter().filter(|bound| bound.0 < micros).count()
}
