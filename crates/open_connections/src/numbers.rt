//! Numbers of connections and of bytes.
ghost use Rattle.std.specs.Prelude.{◌≡◌, ◌<◌, ◌≤◌, ◌^◌, IfSome, IsFalse, MatchOption};
ghost use Rattle.open_connections.specs.Looping.{counted};

/// The number that the core knows a connection by.
pub(crate) fn conn_of(key: usize) -> Option<u32>
    ensures same { MatchOption result (2 ^ 32 ≤ key) (λ conn. conn ≡ key) }
    ensures small { IfSome result (λ _. key < 2 ^ 32) }
{
    u32::try_from(key).ok()
}

/// Whether one of these numbers of bytes is not 0.
pub(crate) fn has_moved(read: usize, written: usize) -> bool
    ensures { IsFalse result → (read ≡ 0) × (written ≡ 0) }
{
    read > 0 || written > 0
}

/// A count of bytes with so many more. It stops at its greatest number.
pub(crate) fn added(count: u64, more: usize) -> u64
    ensures all { result ≡ counted count more }
    ensures none { more ≡ 0 → result ≡ count }
{
    count.saturating_add(more as u64)
}
