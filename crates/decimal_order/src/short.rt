// The order of short numbers with no sign and no exponent, whose texts fit words of eight bytes.
ghost use Rattle.std.specs.Prelude.{◌≡◌, ◌≤◌, length, IfSome};
ghost use Rattle.decimal_order.specs.Number.{IsNumber};
ghost use Rattle.decimal_order.specs.Order.{number_cmp};
ghost use Rattle.decimal_order.specs.Words.{word, marks, digit_places};

use std::cmp::Ordering;

// The bytes of a word.
const BYTES: usize = 8;

// A bit that each digit has, and no other byte of a number, nor a zero byte.
const DIGITS: u64 = 0x1010_1010_1010_1010;

// A bit that each letter has, and no other byte of a number.
const LETTERS: u64 = 0x4040_4040_4040_4040;

// The bit that the first byte has where it is a digit, and not where it is a minus.
const FIRST_DIGIT: u64 = 0x1000_0000_0000_0000;

// The word of four to eight bytes: the first four, and of the last four those behind them.
#[inline(always)]
fn long_word(text: &[u8]) -> u64
    requires at_least { 4 ≤ length text.now }
    requires at_most { length text.now ≤ 8 }
    ensures { result ≡ word text.now }
{
    let (Some(first), Some(last)) = (text.first_chunk::<4>(), text.last_chunk::<4>()) else {
        unreachable!()
    };
    let high = u64::from(u32::from_be_bytes(*first)) << 32;
    let low = u64::from(u32::from_be_bytes(*last)) << (64 - 8 * text.len());
    high + (low & 0xffff_ffff)
}

// The bytes of a text, the first one the highest, with zeros behind them.
#[inline(always)]
fn word(text: &[u8]) -> u64
    requires at_least { 1 ≤ length text.now }
    requires at_most { length text.now ≤ 8 }
    ensures { result ≡ word text.now }
{
    if text.len() >= 4 {
        return long_word(text);
    }
    match text {
        [a, b, c] => u64::from_be_bytes([*a, *b, *c, 0, 0, 0, 0, 0]),
        [a, b] => u64::from_be_bytes([*a, *b, 0, 0, 0, 0, 0, 0]),
        [a] => u64::from_be_bytes([*a, 0, 0, 0, 0, 0, 0, 0]),
        _ => unreachable!(),
    }
}

// A mark in each byte that is no digit.
#[inline(always)]
fn marks(bytes: u64) -> u64
    ensures { result ≡ marks bytes }
{
    DIGITS - (bytes & DIGITS)
}

// The values of the digits, and zeros in the other bytes.
#[inline(always)]
fn digit_places(bytes: u64) -> u64
    ensures { result ≡ digit_places bytes }
{
    let digits = (bytes & DIGITS) >> 4;
    bytes & (digits * 15)
}

// The order of two short numbers, and `None` where a text is longer, or has a sign or an exponent.
#[inline(always)]
pub(crate) fn compare_short(a: &[u8], b: &[u8]) -> Option<Ordering>
    requires a_number { IsNumber a.now }
    requires b_number { IsNumber b.now }
    ensures { IfSome result (λ order. order ≡ number_cmp a.now b.now) }
{
    if a.len() > BYTES || b.len() > BYTES {
        return None;
    }
    let x = word(a);
    let y = word(b);
    if (x | y) & LETTERS != 0 {
        return None;
    }
    if (x & y) & FIRST_DIGIT == 0 {
        return None;
    }
    let a_marks = marks(x);
    let b_marks = marks(y);
    // With the digits at the same places the words compare as the numbers.
    if a_marks == b_marks {
        return Some(x.cmp(&y));
    }
    // The first mark stands behind the whole part, and with no leading zeros the longer is the greater.
    if a_marks >> 3 > b_marks {
        return Some(Ordering::Less);
    }
    if b_marks >> 3 > a_marks {
        return Some(Ordering::Greater);
    }
    Some(digit_places(x).cmp(&digit_places(y)))
}
