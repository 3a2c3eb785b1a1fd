//! What comes for the cases of numbers.

use decimal_order::{compare, scan, within_limits};
use std::cmp::Ordering;

/// Where a number text stands to the limits: `within`, `beyond`, or `none` where it is no number.
pub fn limits_of(text: &[u8]) -> &'static str {
    match scan(text) {
        Some(decimal) => {
            if within_limits(&decimal) {
                "within"
            } else {
                "beyond"
            }
        }
        None => "none",
    }
}

// None unless both are numbers within the limits.
fn order(left: &[u8], right: &[u8]) -> Option<Ordering> {
    let first = scan(left)?;
    let second = scan(right)?;
    if within_limits(&first) && within_limits(&second) {
        Some(compare(left, right))
    } else {
        None
    }
}

/// How two number texts compare, asked both ways: `less`, `equal`, `greater`, or `none`.
pub fn number_order(left: &[u8], right: &[u8]) -> &'static str {
    match (order(left, right), order(right, left)) {
        (Some(Ordering::Less), Some(Ordering::Greater)) => "less",
        (Some(Ordering::Equal), Some(Ordering::Equal)) => "equal",
        (Some(Ordering::Greater), Some(Ordering::Less)) => "greater",
        (Some(_), Some(_)) => "another order the other way",
        _ => "none",
    }
}

/// Where a number of one value with another is not above those before, or these are not equal, what comes for the two.
pub fn break_of_order<'a>(
    below: &'a [Vec<u8>],
    numbers: &'a [Vec<u8>],
) -> Option<(&'a [u8], &'a [u8], &'static str)> {
    for right in numbers {
        if let Some((left, came)) = first_unlike(below, right.as_slice(), "less") {
            return Some((left, right.as_slice(), came));
        }
        if let Some((left, came)) = first_unlike(numbers, right.as_slice(), "equal") {
            return Some((left, right.as_slice(), came));
        }
    }
    None
}

fn first_unlike<'a>(
    all: &'a [Vec<u8>],
    right: &[u8],
    wanted: &str,
) -> Option<(&'a [u8], &'static str)> {
    for left in all {
        let came = number_order(left.as_slice(), right);
        if came != wanted {
            return Some((left.as_slice(), came));
        }
    }
    None
}
