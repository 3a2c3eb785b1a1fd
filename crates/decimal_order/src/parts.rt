// A number text, read from its front into its parts (RFC 8259, section 6).
ghost use Rattle.std.specs.Prelude.{◌≡◌, MatchOption, option_map};
ghost use Rattle.decimal_order.specs.Number.{IsNumber};
ghost use Rattle.decimal_order.specs.Value.{is_negative};
ghost use Rattle.decimal_order.specs.Parts.{HasParts};
ghost use Rattle.decimal_order.specs.Reading.{front, after, past_minus, past_sign, is_int, read_frac, read_exp};

use std::marker::Model;

#[derive(Drop)]
pub(crate) struct Parts<'a> {
    pub(crate) negative: bool,
    pub(crate) int: &'a [u8],
    pub(crate) frac: &'a [u8],
    pub(crate) exponent_negative: bool,
    pub(crate) exponent: &'a [u8],
}

impl<'a> Model for Parts<'a> {
    ghost use Rattle.decimal_order.specs.Parts.{Parts as PartsOf};

    ghost Value = { PartsOf };

    ghost view = { λ p. record { negative = p.negative; int = p.int.now; frac = p.frac.now; exponent_negative = p.exponent_negative; exponent = p.exponent.now } };
}

// The digits in front of the text, and what follows them.
fn split_digits(text: &[u8]) -> (&[u8], &[u8])
    ensures digits { result.0.now ≡ front text.now }
    ensures rest { result.1.now ≡ after text.now }
{
    for (i, b) in text.iter().enumerate() {
        if !b.is_ascii_digit() {
            return text.split_at(i);
        }
    }
    text.split_at(text.len())
}

// Whether a minus stands in front, and what follows it.
pub(crate) fn split_minus(text: &[u8]) -> (bool, &[u8])
    ensures minus { result.0 ≡ is_negative text.now }
    ensures rest { result.1.now ≡ past_minus text.now }
{
    let [first, rest @ ..] = text else {
        return (false, text);
    };
    if *first == b'-' {
        (true, rest)
    } else {
        (false, text)
    }
}

// Whether a minus stands in front, and what follows it or a plus.
fn split_sign(text: &[u8]) -> (bool, &[u8])
    ensures minus { result.0 ≡ is_negative text.now }
    ensures rest { result.1.now ≡ past_sign text.now }
{
    let [first, rest @ ..] = text else {
        return (false, text);
    };
    if *first == b'-' {
        return (true, rest);
    }
    if *first == b'+' {
        (false, rest)
    } else {
        (false, text)
    }
}

// Whether digits have no leading zero but the one that stands alone.
fn is_int(digits: &[u8]) -> bool
    ensures { result ≡ is_int digits.now }
{
    let [first, rest @ ..] = digits else {
        return false;
    };
    if rest.is_empty() {
        return true;
    }
    *first != b'0'
}

// The digits after a point in front, and what follows them.
fn split_frac(text: &[u8]) -> Option<(&[u8], &[u8])>
    ensures { option_map (λ p. (p.0.now, p.1.now)) result ≡ read_frac text.now }
{
    let [first, rest @ ..] = text else {
        return Some((text, text));
    };
    if *first != b'.' {
        return Some((&text[..0], text));
    }
    let (digits, tail) = split_digits(rest);
    if digits.is_empty() {
        None
    } else {
        Some((digits, tail))
    }
}

// The sign and the digits of an exponent that is the whole text.
fn exponent(text: &[u8]) -> Option<(bool, &[u8])>
    ensures { option_map (λ p. (p.0, p.1.now)) result ≡ read_exp text.now }
{
    let [first, rest @ ..] = text else {
        return Some((false, text));
    };
    if *first != b'e' && *first != b'E' {
        return None;
    }
    let (negative, unsigned) = split_sign(rest);
    let (digits, tail) = split_digits(unsigned);
    if digits.is_empty() || !tail.is_empty() {
        None
    } else {
        Some((negative, digits))
    }
}

// The parts of a number text. Put into its callers, it makes no more of them than they use.
#[inline(always)]
pub(crate) fn split(text: &[u8]) -> Option<Parts<'_>>
    ensures { MatchOption result (¬ IsNumber text.now) (λ parts. HasParts text.now parts) }
{
    let (negative, unsigned) = split_minus(text);
    let (int, rest) = split_digits(unsigned);
    if !is_int(int) {
        return None;
    }
    let (frac, tail) = split_frac(rest)?;
    let (exponent_negative, exponent) = exponent(tail)?;
    Some(Parts {
        negative,
        int,
        frac,
        exponent_negative,
        exponent,
    })
}
