// The order of integers, whose texts are digits alone but for a minus.
ghost use Rattle.std.specs.Prelude.{◌≡◌, ◌↔◌, IsTrue, IfSome, length};
ghost use Rattle.decimal_order.specs.Number.{AreDigits, IsInt, IsNumber};
ghost use Rattle.decimal_order.specs.Value.{digits_value};
ghost use Rattle.decimal_order.specs.Order.{number_cmp};
ghost use Rattle.decimal_order.specs.Places.{Ranks};

use crate::parts::split_minus;
use std::cmp::Ordering;
use std::simd::prelude::*;

// Whether each lane is a digit: none is below '0', and all are below the byte that follows '9'.
#[inline(always)]
fn are_sixteen_digits(lanes: u8x16) -> bool
    ensures { IsTrue result ↔ AreDigits lanes }
{
    lanes.simd_lt(u8x16::splat(b'0')).to_bitmask() == 0
        && lanes.simd_lt(u8x16::splat(b'9' + 1)).to_bitmask() == 0xffff
}

#[inline(always)]
fn are_eight_digits(lanes: u8x8) -> bool
    ensures { IsTrue result ↔ AreDigits lanes }
{
    lanes.simd_lt(u8x8::splat(b'0')).to_bitmask() == 0
        && lanes.simd_lt(u8x8::splat(b'9' + 1)).to_bitmask() == 0xff
}

fn are_digit_bytes(bytes: &[u8]) -> bool
    ensures { IsTrue result ↔ AreDigits bytes.now }
{
    for b in bytes {
        if !b.is_ascii_digit() {
            return false;
        }
    }
    true
}

// Whether there are digits alone.
fn are_digits(text: &[u8]) -> bool
    ensures { IsTrue result ↔ AreDigits text.now }
{
    let mut left = text;
    while let Some((chunk, next)) = left.split_first_chunk::<16>() {
        if !are_sixteen_digits(u8x16::from_array(*chunk)) {
            return false;
        }
        left = next;
    }
    // Of 8 to 15 bytes the first eight and the last eight.
    match (left.first_chunk::<8>(), left.last_chunk::<8>()) {
        (Some(first), Some(last)) => {
            are_eight_digits(u8x8::from_array(*first)) && are_eight_digits(u8x8::from_array(*last))
        }
        _ => are_digit_bytes(left),
    }
}

fn is_zero(int: &[u8]) -> bool
    requires { IsInt int.now }
    ensures { IsTrue result ↔ (digits_value int.now ≡ 0) }
{
    int[0] == b'0'
}

fn compare_bytes(x: &[u8], y: &[u8]) -> Ordering
    requires same_length { length x.now ≡ length y.now }
    requires x_digits { AreDigits x.now }
    requires y_digits { AreDigits y.now }
    ensures { Ranks result (digits_value x.now) (digits_value y.now) }
{
    for (i, a) in x.iter().enumerate() {
        let b = y[i];
        if *a != b {
            return a.cmp(&b);
        }
    }
    Ordering::Equal
}

// Compares digits of equal number, eight at a time: in big-endian order the words compare as the
// numbers that the digits write.
fn compare_digits(x: &[u8], y: &[u8]) -> Ordering
    requires same_length { length x.now ≡ length y.now }
    requires x_digits { AreDigits x.now }
    requires y_digits { AreDigits y.now }
    ensures { Ranks result (digits_value x.now) (digits_value y.now) }
{
    let mut x_left = x;
    let mut y_left = y;
    while let Some((a, x_next)) = x_left.split_first_chunk::<8>() {
        let Some((b, y_next)) = y_left.split_first_chunk::<8>() else {
            unreachable!()
        };
        let x_word = u64::from_be_bytes(*a);
        let y_word = u64::from_be_bytes(*b);
        if x_word != y_word {
            return x_word.cmp(&y_word);
        }
        x_left = x_next;
        y_left = y_next;
    }
    compare_bytes(x_left, y_left)
}

// With no leading zeros, the longer of two whole numbers is the greater.
fn compare_ints(x: &[u8], y: &[u8]) -> Ordering
    requires x_int { IsInt x.now }
    requires y_int { IsInt y.now }
    ensures { Ranks result (digits_value x.now) (digits_value y.now) }
{
    if x.len() < y.len() {
        return Ordering::Less;
    }
    if x.len() > y.len() {
        return Ordering::Greater;
    }
    compare_digits(x, y)
}

// The order of two integers, and `None` where a text has a fraction or an exponent.
pub(crate) fn compare_integers(a: &[u8], b: &[u8]) -> Option<Ordering>
    requires a_number { IsNumber a.now }
    requires b_number { IsNumber b.now }
    ensures { IfSome result (λ order. order ≡ number_cmp a.now b.now) }
{
    let (a_negative, x) = split_minus(a);
    let (b_negative, y) = split_minus(b);
    if !are_digits(x) || !are_digits(y) {
        return None;
    }
    if a_negative == b_negative {
        return if a_negative {
            Some(compare_ints(y, x))
        } else {
            Some(compare_ints(x, y))
        };
    }
    if is_zero(x) && is_zero(y) {
        return Some(Ordering::Equal);
    }
    if a_negative {
        Some(Ordering::Less)
    } else {
        Some(Ordering::Greater)
    }
}
