ghost use Rattle.std.specs.Prelude.{◌≡◌};
ghost use Rattle.decimal_order.specs.Number.{IsNumber};
ghost use Rattle.decimal_order.specs.Limits.{IsWithinLimits};
ghost use Rattle.decimal_order.specs.Order.{number_cmp, value_cmp};
ghost use Rattle.decimal_order.specs.Parts.{AreWithinLimits, parts_value};

use crate::integers::compare_integers;
use crate::magnitude::{compare_magnitudes, is_zero};
use crate::parts::{Parts, split};
use crate::short::compare_short;
use std::cmp::Ordering;

fn compare_parts(x: &Parts, y: &Parts) -> Ordering
    requires x_within { AreWithinLimits x.now }
    requires y_within { AreWithinLimits y.now }
    ensures { result ≡ value_cmp (parts_value x.now) (parts_value y.now) }
{
    if x.negative == y.negative {
        return if x.negative {
            compare_magnitudes(y, x)
        } else {
            compare_magnitudes(x, y)
        };
    }
    if is_zero(x) && is_zero(y) {
        return Ordering::Equal;
    }
    if x.negative {
        Ordering::Less
    } else {
        Ordering::Greater
    }
}

// Kept out of line, so that `compare_long` needs no room for the parts where it compares integers.
#[inline(never)]
fn compare_by_parts(a: &[u8], b: &[u8]) -> Ordering
    requires a_number { IsNumber a.now }
    requires a_within_limits { IsWithinLimits a.now }
    requires b_number { IsNumber b.now }
    requires b_within_limits { IsWithinLimits b.now }
    ensures { result ≡ number_cmp a.now b.now }
{
    let Some(x) = split(a) else { unreachable!() };
    let Some(y) = split(b) else { unreachable!() };
    compare_parts(&x, &y)
}

// Kept out of line, so that `compare` is short where it compares short numbers.
#[inline(never)]
fn compare_long(a: &[u8], b: &[u8]) -> Ordering
    requires a_number { IsNumber a.now }
    requires a_within_limits { IsWithinLimits a.now }
    requires b_number { IsNumber b.now }
    requires b_within_limits { IsWithinLimits b.now }
    ensures { result ≡ number_cmp a.now b.now }
{
    match compare_integers(a, b) {
        Some(order) => order,
        None => compare_by_parts(a, b),
    }
}

/// Compares two numbers by their exact values.
///
/// Equal values compare as equal however they are written: `1` and `10e-1`, `-0` and `0e5`.
/// Both texts are numbers within the limits, as [`scan`](crate::scan) and
/// [`within_limits`](crate::within_limits) say. No memory is taken, and the time is linear in the
/// bytes of the texts: the zeros of an exponent are never written out.
#[inline(always)]
pub fn compare(a: &[u8], b: &[u8]) -> Ordering
    requires a_number { IsNumber a.now }
    requires a_within_limits { IsWithinLimits a.now }
    requires b_number { IsNumber b.now }
    requires b_within_limits { IsWithinLimits b.now }
    ensures { result ≡ number_cmp a.now b.now }
{
    if let Some(order) = compare_short(a, b) {
        return order;
    }
    compare_long(a, b)
}
