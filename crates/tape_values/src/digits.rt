//! Numbers of a text and of a query, and whole numbers, as exact decimals.

ghost use Rattle.std.specs.Prelude.{◌≡◌, decimal};
ghost use Rattle.decimal_order.specs.Order.{number_cmp};
ghost use Rattle.tape_values.specs.Contents.{digits_text, AreDigits, IsNumberText};

use decimal_order::{compare, writes_whole_numbers};
use itoa::Buffer;
use std::cmp::Ordering;

/// A number.
#[derive(Clone, Copy)]
pub enum Digits<'a> {
    /// As a text or a query writes it.
    Written(&'a [u8]),
    /// As a length or a count.
    Whole(usize),
}

// The digits of a whole number.
fn whole_text(buffer: &mut Buffer, n: usize) -> &[u8]
    ensures text { result.now ≡ decimal n }
    ensures number { IsNumberText result.now }
{
    writes_whole_numbers();
    buffer.format(n).as_bytes()
}

// The digits of a number. Those of a whole number are written to the buffer.
fn text_of<'a>(buffer: &'a mut Buffer, number: Digits<'a>) -> &'a [u8]
    requires { AreDigits number }
    ensures text { result.now ≡ digits_text number.entry }
    ensures number { IsNumberText result.now }
{
    match number {
        Digits::Written(text) => text,
        Digits::Whole(n) => whole_text(buffer, n),
    }
}

// How two numbers compare, whatever they come from.
#[inline(never)]
fn compare_texts(a: Digits<'_>, b: Digits<'_>) -> Ordering
    requires left { AreDigits a }
    requires right { AreDigits b }
    ensures { result ≡ number_cmp (digits_text a.entry) (digits_text b.entry) }
{
    let mut left = Buffer::new();
    let mut right = Buffer::new();
    compare(text_of(&mut left, a), text_of(&mut right, b))
}

// How a whole number compares with a written one.
#[inline(never)]
fn compare_whole(n: usize, text: &[u8]) -> Ordering
    requires { IsNumberText text.now }
    ensures { result ≡ number_cmp (decimal n) text.now }
{
    compare(whole_text(&mut Buffer::new(), n), text)
}

/// How two numbers compare. Most are written.
#[inline(always)]
pub fn compare_digits(a: Digits<'_>, b: Digits<'_>) -> Ordering
    requires left { AreDigits a }
    requires right { AreDigits b }
    ensures { result ≡ number_cmp (digits_text a.entry) (digits_text b.entry) }
{
    match (a, b) {
        (Digits::Written(a), Digits::Written(b)) => compare(a, b),
        (Digits::Whole(n), Digits::Written(b)) => compare_whole(n, b),
        _ => compare_texts(a, b),
    }
}
