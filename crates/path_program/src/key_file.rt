//! The keys of a file, and what their tenants are called.

use crate::named_keys::NamedKeys;
use path_server::{KeysFault, read_keys};
use server_arguments::{Failure, KeyLine};
use std::alloc::Global;
use std::fs;
use std::io::{self, Read};
use std::rt::Files;
use store_names::CollName;

/// The most bytes of a file of keys.
const MOST_BYTES: u64 = 65_536;

/// Why the text of a file of keys is refused.
#[derive(Clone, Copy)]
enum TextFault {
    TooLong,
    /// The line with this number, from 1 on, is not of the keys' written form.
    BadLine(u64),
    Memory,
}

/// The keys of a file, in its order: in each line some keys, joined by commas, or a key, blanks and the name of its tenant. A name is like one of a
/// collection. Blank lines, and those that begin with `#`, have none. A file above the limit is one line that is too long.
pub fn read_key_file<R: Files + AllocGlobal>(rt: &R, path: &str) -> Result<NamedKeys, Failure> {
    match text_of(rt, path) {
        Ok(text) => keys_of(rt.alloc(), path, text.as_slice()),
        Err(error) => Err(Failure::of_file(rt.alloc(), path, &error)),
    }
}

// The text of a file, or its first bytes where it is above the limit.
fn text_of<R: Files + AllocGlobal>(rt: &R, path: &str) -> io::Result<Vec<u8>> {
    let file = fs::open(rt, path)?;
    let mut text = Vec::new(rt.alloc());
    match file.take(MOST_BYTES + 1).read_to_end(&mut text) {
        Ok(_) => Ok(text),
        Err(error) => Err(error),
    }
}

// The keys of a file's text.
fn keys_of(alloc: Global, path: &str, text: &[u8]) -> Result<NamedKeys, Failure> {
    let mut keys = NamedKeys::new(alloc);
    match add_lines(alloc, text, &mut keys) {
        Ok(()) => Ok(keys),
        Err(fault) => Err(failure_of(alloc, path, fault)),
    }
}

fn failure_of(alloc: Global, path: &str, fault: TextFault) -> Failure {
    match fault {
        TextFault::TooLong => Failure::Keys(KeysFault::BadKeys),
        TextFault::BadLine(number) => bad_line(alloc, path, number),
        TextFault::Memory => Failure::Memory,
    }
}

// Appends the keys of each line.
fn add_lines(alloc: Global, text: &[u8], keys: &mut NamedKeys) -> Result<(), TextFault> {
    if text.len() as u64 > MOST_BYTES {
        return Err(TextFault::TooLong);
    }
    let mut number = 0u64;
    'lines: for line in text.split(|byte| *byte == b'\n') {
        number = number.saturating_add(1);
        match add_keys(alloc, line, keys) {
            Ok(()) => {}
            Err(KeysFault::BadKeys) => return Err(TextFault::BadLine(number)),
            Err(KeysFault::Memory) => return Err(TextFault::Memory),
        }
    }
    Ok(())
}

// Appends the keys of a line.
fn add_keys(alloc: Global, line: &[u8], keys: &mut NamedKeys) -> Result<(), KeysFault> {
    let line = line.trim_ascii();
    if line.is_empty() || line.first() == Some(&b'#') {
        return Ok(());
    }
    match line.iter().position(|byte| byte.is_ascii_whitespace()) {
        Some(place) => add_named(
            alloc,
            line.get(..place).unwrap_or_default(),
            line.get(place..).unwrap_or_default(),
            keys,
        ),
        None => add_some(alloc, line, keys),
    }
}

// Appends keys that are joined by commas.
fn add_some(alloc: Global, text: &[u8], keys: &mut NamedKeys) -> Result<(), KeysFault> {
    let more = read_keys(alloc, text)?;
    Ok(keys.add_all(alloc, more.as_slice())?)
}

// Appends a key with a name.
fn add_named(
    alloc: Global,
    text: &[u8],
    name: &[u8],
    keys: &mut NamedKeys,
) -> Result<(), KeysFault> {
    let name = name.trim_ascii();
    if CollName::read(name).is_none() {
        return Err(KeysFault::BadKeys);
    }
    let Ok(name) = str::from_utf8(name) else {
        return Err(KeysFault::BadKeys);
    };
    let one = read_keys(alloc, text)?;
    match one.as_slice() {
        [key] => Ok(keys.add(alloc, *key, Some(name))?),
        _ => Err(KeysFault::BadKeys),
    }
}

// A line that is not of the keys' written form.
fn bad_line(alloc: Global, path: &str, number: u64) -> Failure {
    match String::from_str(alloc, path) {
        Ok(file) => Failure::KeyLine(KeyLine { file, number }),
        Err(_) => Failure::Memory,
    }
}
