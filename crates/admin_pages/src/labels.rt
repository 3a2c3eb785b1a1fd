//! The values of labels, and how many counters they tell apart.
ghost use Rattle.std.specs.Prelude.{◌≡◌, codes, map, slice_get, unwrap_or};
ghost use Rattle.admin_pages.specs.Labels.{bound_name, command_name, status_name};

use protocol::{COMMANDS, STATUSES, command_at, status_at};

/// A place for each command by its byte, and 0 for what has none.
pub(crate) const COMMAND_PLACES: usize = COMMANDS.len() + 1;

/// A place for each status by its number, and the last for FrameFault.
pub const STATUS_PLACES: usize = STATUSES.len() + 1;

/// A counter for each command and status.
pub(crate) const CELLS: usize = COMMAND_PLACES * STATUS_PLACES;

/// The bounds of request times, in microseconds and as they are told in seconds.
pub(crate) const BOUNDS: &[(u64, &str)] = &[
    (100, "0.0001"),
    (250, "0.00025"),
    (500, "0.0005"),
    (1_000, "0.001"),
    (2_500, "0.0025"),
    (5_000, "0.005"),
    (10_000, "0.01"),
    (25_000, "0.025"),
    (50_000, "0.05"),
    (100_000, "0.1"),
    (250_000, "0.25"),
    (500_000, "0.5"),
    (1_000_000, "1"),
    (2_500_000, "2.5"),
    (5_000_000, "5"),
    (10_000_000, "10"),
];

/// A place for the times up to each bound, and the last for those above.
pub(crate) const TIMES: usize = BOUNDS.len() + 1;

/// A command of the protocol, by its byte.
pub(crate) fn command_name(place: usize) -> &'static str
    ensures { result.now ≡ command_name place }
{
    match command_at(place) {
        Some(command) => command.name,
        None => "none",
    }
}

/// A status of the protocol.
pub(crate) fn status_name(place: usize) -> &'static str
    ensures { result.now ≡ status_name place }
{
    match status_at(place) {
        Some(status) => status.name,
        None => "FrameFault",
    }
}

/// A bound of the times, in seconds.
pub(crate) fn bound_name(place: usize) -> &'static str
    ensures { result.now ≡ bound_name place }
{
    seconds_of(BOUNDS, place)
}

fn seconds_of(bounds: &[(u64, &'static str)], place: usize) -> &'static str
    ensures { result.now ≡ unwrap_or (slice_get (map (λ bound. bound.1.now) bounds.now) place) (codes "+Inf") }
{
    match bounds.get(place) {
        Some((_, seconds)) => seconds,
        None => "+Inf",
    }
}
