//! Comparisons of numbers.

ghost use Rattle.decimal_order.specs.Limits.{IsWithinLimits};
ghost use Rattle.decimal_order.specs.Number.{IsNumber};

use decimal_order::compare;
use std::cmp::Ordering;

/// How two number texts compare: -1, 0 or 1 for less, equal or greater.
#[unsafe(no_mangle)]
pub extern "C" fn decimal_compare(left: &[u8], right: &[u8]) -> i32
    requires left_number { IsNumber left.now }
    requires left_within_limits { IsWithinLimits left.now }
    requires right_number { IsNumber right.now }
    requires right_within_limits { IsWithinLimits right.now }
{
    match compare(left, right) {
        Ordering::Less => -1,
        Ordering::Equal => 0,
        Ordering::Greater => 1,
    }
}
