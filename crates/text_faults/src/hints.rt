//! What a usual mistake is, beside its place.

use crate::marks::{Expected, Place};

// The last byte before a place that is no blank.
fn before(text: &[u8], at: usize) -> Option<u8> {
    for byte in text.get(..at).unwrap_or(text).iter().rev() {
        if !matches!(*byte, b' ' | b'\t' | b'\n' | b'\r') {
            return Some(*byte);
        }
    }
    None
}

fn byte_before(text: &[u8], at: usize) -> Option<u8> {
    match at {
        0 => None,
        _ => text.get(at - 1).copied(),
    }
}

fn is_after_comma(text: &[u8], at: usize) -> bool {
    before(text, at) == Some(b',')
}

fn is_value(expected: Expected) -> bool {
    matches!(expected, Expected::Value | Expected::ValueOrBracket)
}

fn is_name(expected: Expected) -> bool {
    matches!(expected, Expected::Name | Expected::NameOrBrace)
}

// Whether blanks stand between a whole value and this place.
fn is_second(text: &[u8], place: Place) -> bool {
    place.expected == Expected::End
        && matches!(
            byte_before(text, place.at),
            Some(b' ' | b'\t' | b'\n' | b'\r')
        )
}

/// The habit that led to a text that is no JSON, if it looks like one.
pub fn hint(text: &[u8], place: Place) -> Option<&'static str> {
    let Some(found) = text.get(place.at) else {
        return match before(text, place.at) {
            None => Some("the text is empty"),
            Some(_) => None,
        };
    };
    let next = text.get(place.at.saturating_add(1)).copied();
    match *found {
        0xEF if place.at == 0 && next == Some(0xBB) => Some(
            "a byte order mark stands before the text",
        ),
        b'/' if next == Some(b'/') || next == Some(b'*') => Some("JSON has no comments"),
        b'#' if place.expected != Expected::Character => Some("JSON has no comments"),
        b'}' | b']' if is_after_comma(text, place.at) => Some(
            "no comma stands behind the last one",
        ),
        b'\'' if is_value(place.expected) || is_name(place.expected) => {
            Some("strings and names stand in double quotes")
        }
        b'N' if next == Some(b'a') => Some("JSON has no NaN and no Infinity"),
        b'I' if next == Some(b'n') => Some("JSON has no NaN and no Infinity"),
        b'T' | b'F' | b'N' if is_value(place.expected) => {
            Some("true, false and null are written in lower case")
        }
        b'+' if is_value(place.expected) => Some("a number has no plus sign"),
        b'.' if is_value(place.expected) => Some("a digit stands before the point"),
        b'0'..=b'9' if byte_before(text, place.at) == Some(b'0') => {
            Some("a number has no leading zeros")
        }
        b'A'..=b'Z' | b'a'..=b'z' | b'_' if is_name(place.expected) => {
            Some("names stand in double quotes")
        }
        b'{' | b'[' | b'"' if place.expected == Expected::End => Some("one text is one value"),
        b'-' | b'0'..=b'9' | b't' | b'f' | b'n' if is_second(text, place) => {
            Some("one text is one value")
        }
        _ => None,
    }
}
