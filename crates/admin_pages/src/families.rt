//! The metrics: their names, types and texts, and whose numbers their samples are.
ghost use Rattle.std.specs.Prelude.{◌≡◌, ◌<◌, length, map, option_map, slice_get, IsSome};
ghost use Rattle.admin_pages.specs.Families.{families, rows_of, shown};

use crate::labels::{CELLS, TIMES};

/// Whose numbers the samples of a metric are. Those of a list have their place in it.
#[derive(Clone, Copy)]
pub(crate) enum Samples {
    /// The number 1, with labels that tell what the program is.
    Build,
    /// One of the server's gauges.
    Gauge(usize),
    /// Requests by command and status.
    Cells,
    /// Requests by how long they took, the sum of these times, and how many there are.
    Times,
    /// A sum over all requests.
    Total(usize),
    /// A sum over the requests of each tenant.
    TenantTotal(usize),
    /// One of the gauges of each tenant.
    TenantGauge(usize),
}

/// A metric: its name, its type, whose numbers it tells, and what it is in a sentence.
#[derive(Clone, Copy)]
pub(crate) struct Family {
    pub(crate) name: &'static str,
    pub(crate) kind: &'static str,
    pub(crate) samples: Samples,
    pub(crate) help: &'static str,
}

macro_rules! rows {
    ($($name:literal $kind:literal $samples:ident $(($place:literal))? $help:literal;)*) => {
        &[$(($name, $kind, Samples::$samples $(($place))?, $help)),*]
    };
}

/// The metrics, in the order in which they are told: the fields of [`Family`].
const FAMILIES: &[(&str, &str, Samples, &str)] = rows![
    "path_server_build_info" "gauge" Build "The program: its version, its commit, whether it was proved, and its kit.";
    "path_server_uptime_seconds" "gauge" Gauge(0) "Seconds since the start.";
    "path_server_ready" "gauge" Gauge(1) "Whether it was said that the server is ready.";
    "path_server_connections_open" "gauge" Gauge(2) "Connections that are open.";
    "path_server_connections_limit" "gauge" Gauge(3) "The most connections that may be open.";
    "path_server_accept_refused" "gauge" Gauge(4) "Whether the system had no descriptor or no memory for the last connection.";
    "path_server_connections_waiting" "gauge" Gauge(5) "Connections that wait for memory.";
    "path_server_buffered_bytes" "gauge" Gauge(6) "Bytes buffered for all connections.";
    "path_server_buffered_limit_bytes" "gauge" Gauge(7) "The most bytes that are buffered.";
    "path_server_connections_total" "counter" Gauge(8) "Connections that were accepted.";
    "path_server_read_bytes_total" "counter" Gauge(9) "Bytes read.";
    "path_server_written_bytes_total" "counter" Gauge(10) "Bytes written.";
    "path_server_dropped_lines_total" "counter" Gauge(11) "Lines of the log that were dropped.";
    "path_server_lost_lines_total" "counter" Gauge(12) "Lines of the log that could not be written.";
    "path_server_requests_total" "counter" Cells "Requests by command and status.";
    "path_server_request_seconds" "histogram" Times "How long requests took.";
    "path_server_charged_units_total" "counter" Total(0) "Units that queries were charged.";
    "path_server_slow_queries_total" "counter" Total(1) "Queries that took longer than --slow.";
    "path_server_tenant_requests_total" "counter" TenantTotal(0) "Requests of a tenant.";
    "path_server_tenant_charged_units_total" "counter" TenantTotal(1) "Units that a tenant's queries were charged.";
    "path_server_tenant_refused_bytes_total" "counter" TenantTotal(2) "Bytes of a tenant's requests that a limit refused.";
    "path_server_tenant_collections" "gauge" TenantGauge(0) "Collections of a tenant.";
    "path_server_tenant_documents" "gauge" TenantGauge(1) "Documents of a tenant.";
    "path_server_tenant_text_bytes" "gauge" TenantGauge(2) "Bytes of texts of a tenant.";
    "path_server_tenant_memory_bytes" "gauge" TenantGauge(3) "Bytes of memory that the documents of a tenant take.";
    "path_server_tenant_connections_waiting" "gauge" TenantGauge(4) "Connections that wait for memory, of the tenant that was answered on each last.";
];

/// How many samples a metric has.
pub(crate) fn rows_of(samples: Samples, tenants: usize) -> usize
    ensures { result ≡ rows_of samples tenants }
{
    match samples {
        Samples::Build | Samples::Gauge(_) | Samples::Total(_) => 1,
        Samples::Cells => CELLS,
        Samples::Times => TIMES + 2,
        Samples::TenantTotal(_) | Samples::TenantGauge(_) => tenants,
    }
}

/// How many metrics there are.
#[tactic(auto, unfolding(crate::specs::Families::families))]
pub(crate) fn family_count() -> usize
    ensures { result ≡ length families }
{
    FAMILIES.len()
}

/// The metric with this number.
#[tactic(auto, unfolding(crate::specs::Families::families))]
pub(crate) fn family_at(number: usize) -> Option<Family>
    ensures metric { option_map shown result ≡ slice_get families number }
    ensures within { IsSome result → number < 64 }
{
    at(FAMILIES, number)
}

fn at(rows: &[(&'static str, &'static str, Samples, &'static str)], number: usize) -> Option<Family>
    ensures metric { option_map shown result ≡ slice_get (map (λ row. record { name = row.0.now; kind = row.1.now; samples = row.2; help = row.3.now }) rows.now) number }
    ensures within { IsSome result → number < length rows.now }
{
    let (name, kind, samples, help) = *rows.get(number)?;
    Some(Family {
        name,
        kind,
        samples,
        help,
    })
}
