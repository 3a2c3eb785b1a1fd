//! A place as people count it.

use memchr::memrchr;
use std::alloc::{AllocError, Global};
use std::fmt;

/// A place in a text: its line and column, counted from 1, and the bytes before it. A column is a character.
#[derive(Clone, Copy, Debug, PartialEq, Eq)]
pub struct Spot {
    pub line: usize,
    pub column: usize,
    pub byte: usize,
}

impl fmt::Display for Spot {
    fn fmt<W: fmt::Write>(&self, f: &mut fmt::Formatter<W>) -> fmt::Result {
        write!(
            f,
            "line {}, column {} (byte {})",
            self.line, self.column, self.byte
        )
    }
}

/// The place behind so many bytes. A line ends with its line feed.
pub fn spot_at(text: &[u8], at: usize) -> Spot {
    let before = text.get(..at).unwrap_or(text);
    Spot {
        line: count(before, 0xFF, b'\n').saturating_add(1),
        column: width(last_line(before)).saturating_add(1),
        byte: at,
    }
}

/// The line and column of a byte of a text whose first line has this number.
pub fn spot_from(text: &[u8], at: usize, first_line: usize) -> Spot {
    let spot = spot_at(text, at);
    Spot {
        line: spot.line.saturating_add(first_line.saturating_sub(1)),
        column: spot.column,
        byte: spot.byte,
    }
}

/// What stands at a place.
#[derive(Clone, Copy, Debug, PartialEq, Eq)]
pub enum Found {
    End,
    Byte(u8),
}

/// What stands behind so many bytes.
pub fn found_at(text: &[u8], at: usize) -> Found {
    match text.get(at) {
        Some(byte) => Found::Byte(*byte),
        None => Found::End,
    }
}

impl fmt::Display for Found {
    fn fmt<W: fmt::Write>(&self, f: &mut fmt::Formatter<W>) -> fmt::Result {
        match self {
            Found::End => write!(f, "the end of the text"),
            Found::Byte(byte) if 0x20 <= *byte && *byte < 0x7F => write!(f, "'{}'", *byte as char),
            Found::Byte(byte) => write!(f, "byte 0x{byte:02x}"),
        }
    }
}

/// The most characters of a line before a place, and from it on, that are shown.
const SHOWN: usize = 36;

/// In so many bytes stand all these, and one that is cut.
const ROOM: usize = 4 * (SHOWN + 1);

// The bytes behind the last line feed.
fn last_line(text: &[u8]) -> &[u8] {
    match memrchr(b'\n', text) {
        Some(feed) => text.get(feed + 1..).unwrap_or(text),
        None => text,
    }
}

// How many bytes have these bits of those in the mask. Counts of 8 bits are added many at once.
fn count(bytes: &[u8], mask: u8, bits: u8) -> usize {
    let mut all = 0usize;
    for chunk in bytes.chunks(240) {
        let mut some = 0u8;
        for byte in chunk {
            some = some.wrapping_add(u8::from(*byte & mask == bits));
        }
        all = all.saturating_add(some as usize);
    }
    all
}

// How many characters these bytes begin.
fn width(bytes: &[u8]) -> usize {
    bytes.len().saturating_sub(count(bytes, 0xC0, 0x80))
}

// A character as it is shown, a blank for a control character.
fn shown(c: char) -> char {
    if c < ' ' || c == '\x7f' { ' ' } else { c }
}

/// The line of a place, at most 72 characters of it, and below it a caret. Each of the two begins with a line feed. What is not UTF-8 is shown as
/// U+FFFD.
pub fn shown_at(alloc: Global, text: &[u8], at: usize) -> Result<String, AllocError> {
    let line = last_line(text.get(..at).unwrap_or(text));
    let near = line.get(line.len().saturating_sub(ROOM)..).unwrap_or(line);
    let before = String::from_utf8_lossy(alloc, near)?;
    let rest = text.get(at..).unwrap_or(&text[..0]);
    let from = String::from_utf8_lossy(alloc, rest.get(..ROOM).unwrap_or(rest))?;
    let count = before.chars().count();
    let skipped = count.saturating_sub(SHOWN);
    let mut out = String::from_str(alloc, "\n")?;
    for (n, c) in before.chars().enumerate() {
        if n >= skipped {
            out.push(shown(c))?;
        }
    }
    for (n, c) in from.chars().enumerate() {
        if n == SHOWN || c == '\n' {
            break;
        }
        out.push(shown(c))?;
    }
    out.push('\n')?;
    for _ in skipped..count {
        out.push(' ')?;
    }
    out.push('^')?;
    Ok(out)
}

/// The shown line of a place if it is to be shown, and nothing otherwise.
pub fn shown_if(shows: bool, alloc: Global, text: &[u8], at: usize) -> Result<String, AllocError> {
    if shows {
        shown_at(alloc, text, at)
    } else {
        Ok(String::new(alloc))
    }
}
