// The order of numbers of any form without their signs: the places of their first digits that
// are not 0 decide, and then the digits from there on. No zero of an exponent is written out.
ghost use Rattle.std.specs.Prelude.{◌≡◌, ◌+◌, ◌≤◌, ◌↔◌, length, IsTrue};
ghost use Rattle.decimal_order.specs.Value.{digits_value};
ghost use Rattle.decimal_order.specs.Parts.{digits, AreWithinLimits};
ghost use Rattle.decimal_order.specs.Places.{digit, made, magnitude, Ranks, AreLeadingZeros, IsLead};

use crate::limits::small_value;
use crate::parts::Parts;
use std::cmp::Ordering;

// More than any number within the limits lies below 1.
const ABOVE_ZERO: u64 = 2_000_000_000;

fn digit_count(parts: &Parts) -> usize
    requires { AreWithinLimits parts.now }
    ensures count { result ≡ length (digits parts.now) }
    ensures few { result ≤ 256 }
{
    parts.int.len() + parts.frac.len()
}

// The digit at a place, 0 past the end.
fn digit_at(parts: &Parts, place: usize) -> u8
    requires { AreWithinLimits parts.now }
    ensures value { result ≡ digit (digits parts.now) place }
    ensures one { result ≤ 9 }
{
    let int = parts.int;
    if place < int.len() {
        return int[place] - b'0';
    }
    let behind = place - int.len();
    let frac = parts.frac;
    if behind < frac.len() {
        frac[behind] - b'0'
    } else {
        0
    }
}

fn leading_zeros(parts: &Parts) -> usize
    requires { AreWithinLimits parts.now }
    ensures { AreLeadingZeros (digits parts.now) result }
{
    let count = digit_count(parts);
    for place in 0..count {
        if digit_at(parts, place) != 0 {
            return place;
        }
    }
    count
}

pub(crate) fn is_zero(parts: &Parts) -> bool
    requires { AreWithinLimits parts.now }
    ensures { IsTrue result ↔ (digits_value (digits parts.now) ≡ 0) }
{
    leading_zeros(parts) == digit_count(parts)
}

// The exponent's absolute value.
fn exponent_size(parts: &Parts) -> u64
    requires { AreWithinLimits parts.now }
    ensures value { result ≡ digits_value parts.now.exponent }
    ensures near { result ≤ 999999999 }
{
    let Some(size) = small_value(parts.exponent) else {
        unreachable!()
    };
    size
}

// ABOVE_ZERO and the power of ten above the first digit that is not 0: of 0.05 one less than ABOVE_ZERO.
fn lead(parts: &Parts, zeros: usize) -> u64
    requires within { AreWithinLimits parts.now }
    requires zeros { AreLeadingZeros (digits parts.now) zeros }
    ensures { IsLead parts.now zeros result }
{
    let size = exponent_size(parts);
    let unmoved = ABOVE_ZERO + parts.int.len() as u64 - zeros as u64;
    if parts.exponent_negative {
        unmoved - size
    } else {
        unmoved + size
    }
}

// Compares the digits from two places on, over as many places.
fn compare_from(x: &Parts, x_from: usize, y: &Parts, y_from: usize, places: usize) -> Ordering
    requires x_within { AreWithinLimits x.now }
    requires y_within { AreWithinLimits y.now }
    requires x_near { x_from ≤ 256 }
    requires y_near { y_from ≤ 256 }
    requires few { places ≤ 256 }
    ensures { Ranks result (made (λ i. digit (digits x.now) (x_from + i)) places) (made (λ i. digit (digits y.now) (y_from + i)) places) }
{
    for i in 0..places {
        let a = digit_at(x, x_from + i);
        let b = digit_at(y, y_from + i);
        if a != b {
            return a.cmp(&b);
        }
    }
    Ordering::Equal
}

pub(crate) fn compare_magnitudes(x: &Parts, y: &Parts) -> Ordering
    requires x_within { AreWithinLimits x.now }
    requires y_within { AreWithinLimits y.now }
    ensures { Ranks result (magnitude x.now y.now) (magnitude y.now x.now) }
{
    let x_zeros = leading_zeros(x);
    let y_zeros = leading_zeros(y);
    let x_places = digit_count(x) - x_zeros;
    let y_places = digit_count(y) - y_zeros;
    if x_places == 0 {
        return if y_places == 0 {
            Ordering::Equal
        } else {
            Ordering::Less
        };
    }
    if y_places == 0 {
        return Ordering::Greater;
    }
    let x_lead = lead(x, x_zeros);
    let y_lead = lead(y, y_zeros);
    if x_lead != y_lead {
        return x_lead.cmp(&y_lead);
    }
    compare_from(x, x_zeros, y, y_zeros, x_places.max(y_places))
}
