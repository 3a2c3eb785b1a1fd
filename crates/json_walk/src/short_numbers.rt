//! Short numbers without an exponent, by the bits of those of their bytes that are no digits.

ghost use Rattle.std.specs.Prelude.{ℕ, ◌≡◌, ◌+◌, ◌<◌, ◌≤◌, get_or, length, IsTrue};
ghost use Rattle.std.specs.Int.{bit_at};
ghost use Rattle.decimal_order.specs.Limits.{IsWithinLimits};
ghost use Rattle.decimal_order.specs.Number.{IsNumber};
ghost use Rattle.json_walk.specs.Lexing.{DigitsStand, IsFraction};
ghost use Rattle.structural_index.specs.Runs.{AreDigitsBut};

use decimal_order::late_exponents_keep_limits;

// How many bits from this one on come before the first that is set, where the last is.
#[inline(always)]
fn clear_bits(mask: u64, from: usize) -> usize
    requires from { from < 64 }
    requires end { bit_at mask 63 ≡ 1 }
    ensures few { (n : ℕ) → from ≤ n → n < 64 → bit_at mask n ≡ 1 → from + result ≤ n }
    ensures clear { (i : ℕ) → i < result → bit_at mask (from + i) ≡ 0 }
{
    (mask >> from).trailing_zeros() as usize
}

// The place behind the digits from this one on.
#[inline(always)]
fn digits_end(bytes: &[u8], others: u64, start: usize) -> usize
    requires start { start ≤ 32 }
    requires others { AreDigitsBut bytes.now others }
    ensures lower_bound { start ≤ result }
    ensures upper_bound { result ≤ 32 }
    ensures few { start < 32 → result < 32 }
    ensures inside { start < result → result ≤ length bytes.now }
    ensures digits { DigitsStand bytes.now start result }
{
    start + clear_bits(others, start)
}

// Whether there are digits from one place to before another, and the first is no 0 before another one.
#[inline(always)]
fn has_no_leading_zero(bytes: &[u8], first: usize, point: usize) -> bool
    requires { first < point → point ≤ length bytes.now }
    ensures some { IsTrue result → first < point }
    ensures lead { IsTrue result → get_or bytes.now first 0 ≡ 48 → point ≤ first + 1 }
{
    first < point && (bytes[first] != b'0' || point == first + 1)
}

// Whether a point stands here, and digits from there to the end, which is near.
#[inline(always)]
fn is_fraction(bytes: &[u8], others: u64, point: usize) -> bool
    requires inside { point < length bytes.now }
    requires few { point < 32 }
    requires others { AreDigitsBut bytes.now others }
    ensures fraction { IsTrue result → IsFraction bytes.now point }
    ensures few { IsTrue result → length bytes.now ≤ 32 }
{
    if bytes[point] != b'.' {
        return false;
    }
    let end = digits_end(bytes, others, point + 1);
    point + 1 < end && end == bytes.len()
}

// Whether the bytes are a number of at most 32 bytes without an exponent, if so many are its minus sign.
#[inline(always)]
fn is_signed_decimal(bytes: &[u8], others: u64, first: usize) -> bool
    requires others { AreDigitsBut bytes.now others }
    requires sign { first ≤ 1 }
    requires minus { first ≡ 1 → get_or bytes.now 0 0 ≡ 45 }
    ensures number { IsTrue result → IsNumber bytes.now }
    ensures limits { IsTrue result → IsWithinLimits bytes.now }
{
    late_exponents_keep_limits();
    let point = digits_end(bytes, others, first);
    if !has_no_leading_zero(bytes, first, point) {
        return false;
    }
    if point == bytes.len() {
        return true;
    }
    is_fraction(bytes, others, point)
}

/// Whether the bytes are a number of at most 32 bytes without an exponent. With the sign known, its place costs nothing.
#[inline(always)]
pub fn is_short_decimal(bytes: &[u8], others: u64) -> bool
    requires some { 0 < length bytes.now }
    requires others { AreDigitsBut bytes.now others }
    ensures number { IsTrue result → IsNumber bytes.now }
    ensures limits { IsTrue result → IsWithinLimits bytes.now }
{
    if bytes[0] == b'-' {
        is_signed_decimal(bytes, others, 1)
    } else {
        is_signed_decimal(bytes, others, 0)
    }
}
