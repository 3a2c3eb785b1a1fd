// Masks of lanes.
ghost use Rattle.std.specs.Prelude.{ℕ, ◌≡◌, ◌<◌, ◌≤◌};
ghost use Rattle.std.specs.Int.{bit_at};

/// How many of so many lanes come before the first whose bit is set.
#[inline(always)]
pub fn lanes_before(stops: u64, lanes: usize) -> usize
    requires { lanes < 64 }
    ensures few { result ≤ lanes }
    ensures clear { (i : ℕ) → i < result → bit_at stops i ≡ 0 }
{
    (stops | (1 << lanes)).trailing_zeros() as usize
}
