//! The bytes of a query by their kinds (RFC 9535, appendix A).

use crate::states::{Decimal, Inside};

pub fn is_blank(b: u8) -> bool {
    matches!(b, b' ' | b'\t' | b'\n' | b'\r')
}

pub fn is_lower(b: u8) -> bool {
    matches!(b, b'a'..=b'z')
}

pub fn is_digit(b: u8) -> bool {
    matches!(b, b'0'..=b'9')
}

/// Whether a byte may be in a function's name.
pub fn is_function(b: u8) -> bool {
    is_lower(b) || is_digit(b) || b == b'_'
}

/// Whether a byte may begin a name without quotes. Bytes from 0x80 on are of characters that may.
pub fn is_first(b: u8) -> bool {
    is_lower(b) || matches!(b, b'A'..=b'Z' | b'_' | 0x80..=0xFF)
}

pub fn is_short(b: u8) -> bool {
    is_first(b) || is_digit(b)
}

fn is_hex(b: u8) -> bool {
    matches!(b, b'0'..=b'9' | b'A'..=b'F' | b'a'..=b'f')
}

fn is_d(b: u8) -> bool {
    b == b'D' || b == b'd'
}

// The first digit behind a D: of a scalar value, or of the first half of a pair.
fn behind_d(b: u8) -> Option<Inside> {
    match b {
        b'0'..=b'7' => Some(Inside::Digits(2)),
        b'8' | b'9' | b'A' | b'B' | b'a' | b'b' => Some(Inside::HighDigits(2)),
        _ => None,
    }
}

fn counted(b: u8, more: Inside, last: Inside, left: u8) -> Option<Inside> {
    match (is_hex(b), left) {
        (false, _) => None,
        (true, 1) => Some(last),
        (true, _) => Some(more),
    }
}

/// What a byte does inside a string, but for the quote that ends it.
pub fn inside_next(inside: Inside, b: u8, quote: u8) -> Option<Inside> {
    match inside {
        Inside::Between if b == b'\\' => Some(Inside::Escape),
        Inside::Between if b < 0x20 => None,
        Inside::Between => Some(Inside::Between),
        Inside::Escape if b == b'u' => Some(Inside::Unit),
        Inside::Escape if b == quote => Some(Inside::Between),
        Inside::Escape => match b {
            b'b' | b'f' | b'n' | b'r' | b't' | b'/' | b'\\' => Some(Inside::Between),
            _ => None,
        },
        Inside::Unit if is_d(b) => Some(Inside::UnitBehindD),
        Inside::Unit if is_hex(b) => Some(Inside::Digits(3)),
        Inside::Unit => None,
        Inside::UnitBehindD => behind_d(b),
        Inside::Digits(left) => {
            counted(
                b,
                Inside::Digits(left.saturating_sub(1)),
                Inside::Between,
                left,
            )
        }
        Inside::HighDigits(left) => {
            counted(
                b,
                Inside::HighDigits(left.saturating_sub(1)),
                Inside::LowSlash,
                left,
            )
        }
        Inside::LowSlash if b == b'\\' => Some(Inside::LowU),
        Inside::LowU if b == b'u' => Some(Inside::LowD),
        Inside::LowD if is_d(b) => Some(Inside::LowSecond),
        Inside::LowSecond => match b {
            b'C' | b'D' | b'E' | b'F' | b'c' | b'd' | b'e' | b'f' => Some(Inside::Digits(2)),
            _ => None,
        },
        Inside::LowSlash | Inside::LowU | Inside::LowD => None,
    }
}

fn behind_int(b: u8) -> Option<Decimal> {
    match b {
        b'.' => Some(Decimal::Point),
        b'e' | b'E' => Some(Decimal::E),
        _ => None,
    }
}

/// A byte that goes on with a number literal.
pub fn decimal_next(decimal: Decimal, b: u8) -> Option<Decimal> {
    match decimal {
        Decimal::Minus if b == b'0' => Some(Decimal::Zero),
        Decimal::Minus if is_digit(b) => Some(Decimal::Int),
        Decimal::Zero => behind_int(b),
        Decimal::Int if is_digit(b) => Some(Decimal::Int),
        Decimal::Int => behind_int(b),
        Decimal::Point | Decimal::Frac if is_digit(b) => Some(Decimal::Frac),
        Decimal::Frac if b == b'e' || b == b'E' => Some(Decimal::E),
        Decimal::E if b == b'-' || b == b'+' => Some(Decimal::Sign),
        Decimal::E | Decimal::Sign | Decimal::Exp if is_digit(b) => Some(Decimal::Exp),
        _ => None,
    }
}

pub fn may_end(decimal: Decimal) -> bool {
    matches!(
        decimal,
        Decimal::Zero | Decimal::Int | Decimal::Frac | Decimal::Exp
    )
}
