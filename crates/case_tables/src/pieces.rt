//! Fields as they are written in a table, and the bytes that they stand for.

use std::alloc::{AllocError, Global};

/// A named run of bytes, which later lines of a table may cite.
#[derive(Drop)]
pub struct Piece {
    pub name: String,
    pub bytes: Vec<u8>,
}

/// The bytes that a field stands for, or none where what stands between two backquotes is no piece.
pub fn expanded(
    alloc: Global,
    pieces: &[Piece],
    field: &str,
) -> Result<Option<Vec<u8>>, AllocError> {
    let mut bytes = Vec::new(alloc);
    let mut is_piece = false;
    for part in field.split('`') {
        if !is_piece {
            bytes.extend_from_slice(part.as_bytes())?;
        } else if !push_piece(alloc, pieces, part, &mut bytes)? {
            return Ok(None);
        }
        is_piece = !is_piece;
    }
    Ok(if is_piece { Some(bytes) } else { None })
}

// Whether the text between two backquotes is a piece; then its bytes go to the end.
fn push_piece(
    alloc: Global,
    pieces: &[Piece],
    part: &str,
    bytes: &mut Vec<u8>,
) -> Result<bool, AllocError> {
    if let Some(name) = part.strip_prefix("=") {
        return push_named(pieces, name, bytes);
    }
    if let Some((times, body)) = part.split_once('*') {
        if let Ok(times) = times.parse::<u32>() {
            return push_repeated(alloc, times, body, bytes);
        }
    }
    match hexadecimal(alloc, part)? {
        Some(body) => {
            bytes.extend_from_slice(body.as_slice())?;
            Ok(true)
        }
        None => Ok(false),
    }
}

fn push_named(pieces: &[Piece], name: &str, bytes: &mut Vec<u8>) -> Result<bool, AllocError> {
    for piece in pieces {
        if piece.name.as_str() == name {
            bytes.extend_from_slice(piece.bytes.as_slice())?;
            return Ok(true);
        }
    }
    Ok(false)
}

fn push_repeated(
    alloc: Global,
    times: u32,
    body: &str,
    bytes: &mut Vec<u8>,
) -> Result<bool, AllocError> {
    let body = match hexadecimal(alloc, body)? {
        Some(body) => body,
        None => Vec::from_slice(alloc, body.as_bytes())?,
    };
    for _ in 0..times {
        bytes.extend_from_slice(body.as_slice())?;
    }
    Ok(true)
}

// The bytes of `x` and pairs of hexadecimal digits, at least one.
fn hexadecimal(alloc: Global, text: &str) -> Result<Option<Vec<u8>>, AllocError> {
    let Some(digits) = text.strip_prefix("x") else {
        return Ok(None);
    };
    let mut bytes = Vec::new(alloc);
    let mut first = None;
    for digit in digits.chars() {
        let Some(low) = digit.to_digit(16) else {
            return Ok(None);
        };
        match first {
            None => first = Some(low as u8),
            Some(high) => {
                bytes.push(high << 4 | low as u8)?;
                first = None;
            }
        }
    }
    Ok(if first.is_none() && !bytes.is_empty() {
        Some(bytes)
    } else {
        None
    })
}
