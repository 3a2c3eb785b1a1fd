//! What a usual mistake in a query is, beside its place.

use crate::states::{Now, Operand, Side};

fn word_at<'a>(query: &'a [u8], at: usize, word: &[u8]) -> bool {
    match query.get(at..) {
        Some(rest) => rest.starts_with(word),
        None => false,
    }
}

fn ends_with(query: &[u8], at: usize, word: &[u8]) -> bool {
    match query.get(..at) {
        Some(front) => front.ends_with(word),
        None => false,
    }
}

/// The habit that led to a query that is not well-formed, if it looks like one.
pub fn hint(query: &[u8], at: usize, now: Now) -> Option<&'static str> {
    let Some(found) = query.get(at).copied() else {
        return match now {
            Now::Root => Some("a query begins with $"),
            Now::Segment { blank: true } => Some("a query does not end with a blank"),
            Now::Behind(Side::Left, Operand::Literal) => Some("a literal is no test: compare it"),
            _ => None,
        };
    };
    match now {
        Now::Root => Some("a query begins with $"),
        Now::Short | Now::Segment { .. } if found == b'-' => {
            Some("quote a name with other characters: ['a-b']")
        }
        Now::Short | Now::Segment { .. } if found == b'(' => Some("a function stands in a filter"),
        Now::Compared(b'=') if found == b'~' => Some("there are no regular expressions"),
        Now::Compared(b'=') => Some("equality is =="),
        Now::Operand(Side::Right) if found == b'=' => Some("equality is =="),
        Now::Behind(_, Operand::Query) if matches!(found, b'=' | b'!' | b'<' | b'>') => {
            Some("a side that is compared is made of names and indexes only")
        }
        Now::Behind(_, _) if word_at(query, at, b"and") => Some("and is &&"),
        Now::Behind(_, _) if word_at(query, at, b"or") => Some("or is ||"),
        Now::Behind(_, _) if matches!(found, b'+' | b'-' | b'*' | b'/' | b'%') => {
            Some("a filter does not compute")
        }
        Now::Word(_) if found == b' ' && ends_with(query, at, b"not") => Some("not is !"),
        Now::Word(_) if found == b' ' => Some("no blank stands before ("),
        Now::Operand(_) if matches!(found, b'A'..=b'Z') => {
            Some("a function is written in lower case")
        }
        Now::Selector if matches!(found, b'A'..=b'Z' | b'a'..=b'z' | b'_') => {
            Some("a name in brackets stands in quotes")
        }
        Now::Behind(Side::Left, Operand::Literal)
            if matches!(found, b']' | b')' | b',' | b'&' | b'|') => {
            Some("a literal is no test: compare it")
        }
        Now::Selector if found == b'(' => Some("a filter begins with ?"),
        _ => None,
    }
}
