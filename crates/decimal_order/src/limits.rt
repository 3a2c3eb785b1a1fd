ghost use Rattle.std.specs.Prelude.{◌≡◌, ◌≤◌, ◌<◌, ◌↔◌, IsTrue, MatchOption};
ghost use Rattle.decimal_order.specs.Number.{AreDigits};
ghost use Rattle.decimal_order.specs.Value.{digits_value};
ghost use Rattle.decimal_order.specs.Limits.{IsWithinLimits};

use crate::number::Decimal;
use crate::parts::Parts;

/// The greatest number of bytes of a number within the limits.
pub const MAX_LENGTH: usize = 256;

/// So many bytes from an e on hold no exponent that is beyond its limit.
pub const SHORT_LENGTH: usize = 10;

// The greatest absolute value of its exponent.
const MAX_EXPONENT: u64 = 999_999_999;

// What digits write, unless it is above the greatest exponent. Their number has no limit.
pub(crate) fn small_value(digits: &[u8]) -> Option<u64>
    requires { AreDigits digits.now }
    ensures { MatchOption result (999999999 < digits_value digits.now) (λ n. (n ≡ digits_value digits.now) × (n ≤ 999999999)) }
{
    let mut value = 0;
    for digit in digits {
        value = value * 10 + u64::from(*digit - b'0');
        if value > MAX_EXPONENT {
            return None;
        }
    }
    Some(value)
}

fn has_small_exponent(parts: &Parts) -> bool
    requires { AreDigits parts.now.exponent }
    ensures { IsTrue result ↔ (digits_value parts.now.exponent ≤ 999999999) }
{
    small_value(parts.exponent).is_some()
}

/// Whether a number has at most 256 bytes and an exponent of absolute value at most 999,999,999.
///
/// The exponent is that of the text, whatever its sign and leading zeros, and 0 without one:
/// `1e-0999999999` is within the limits, and `0e1000000000` is not.
pub fn within_limits(decimal: &Decimal) -> bool
    ensures { IsTrue result ↔ IsWithinLimits decimal.now }
{
    decimal.text.len() <= MAX_LENGTH && has_small_exponent(&decimal.parts)
}
