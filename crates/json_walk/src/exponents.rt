// Numbers that are surely within the limits.

ghost use Rattle.std.specs.Prelude.{IsTrue};
ghost use Rattle.decimal_order.specs.Limits.{IsWithinLimits};

use decimal_order::{MAX_LENGTH, SHORT_LENGTH, late_exponents_keep_limits};

/// Whether there are few bytes, and none but the last few are an e, so that a number of these bytes is within the limits.
pub fn has_short_exponent(bytes: &[u8]) -> bool
    ensures { IsTrue result → IsWithinLimits bytes.now }
{
    late_exponents_keep_limits();
    if bytes.len() <= SHORT_LENGTH {
        return true;
    }
    if bytes.len() > MAX_LENGTH {
        return false;
    }
    for i in 0..bytes.len().saturating_sub(SHORT_LENGTH) {
        if bytes[i] == b'e' || bytes[i] == b'E' {
            return false;
        }
    }
    true
}
