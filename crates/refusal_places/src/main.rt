//! The program `refusal_places`: says of each refused text or query on its standard input where it is refused.
//!
//! A line is the name of a refusal, a blank, and the bytes of the text or query as hexadecimal digits. The line that answers it is what is said
//! beside the name, with ` | ` before a hint. `tests/mistakes.py` compares what it prints.
#![tactic(auto)]

use json_text::TextFault;
use query_faults::Refusal;
use standard_streams::{read_past, write_whole};
use std::alloc::{AllocError, Global};
use std::io;
use std::process::ExitCode;

/// The most bytes that are read.
const MOST_BYTES: u64 = 268_435_456;

fn main(rt: HostRuntime) -> ExitCode {
    match run(&rt) {
        Ok(true) => ExitCode::SUCCESS,
        _ => ExitCode::from(4),
    }
}

// Whether all was read and written.
fn run<R: Input + Print + AllocGlobal>(rt: &R) -> io::Result<bool> {
    let Ok(bytes) = read_past(rt.alloc(), rt.reader(), MOST_BYTES) else {
        return Ok(false);
    };
    let mut out = Vec::new(rt.alloc());
    'lines: for line in bytes.as_slice().split(|byte| *byte == b'\n') {
        if !line.is_empty() {
            append_answer(rt.alloc(), line, &mut out)?;
        }
    }
    Ok(write_whole(&mut io::writer(rt), out.as_slice()).is_ok())
}

fn append_answer(alloc: Global, line: &[u8], out: &mut Vec<u8>) -> Result<(), AllocError> {
    let told = answer(alloc, line)?;
    for byte in told.as_bytes() {
        if *byte == b'\n' {
            out.extend_from_slice(b" | ")?;
        } else {
            out.extend_from_slice(&[*byte])?;
        }
    }
    out.extend_from_slice(b"\n")
}

fn answer(alloc: Global, line: &[u8]) -> Result<String, AllocError> {
    let blank = line
        .iter()
        .position(|byte| *byte == b' ')
        .unwrap_or(line.len());
    let name = line.get(..blank).unwrap_or(line);
    let digits = line.get(blank..).unwrap_or(line).trim_ascii();
    let bytes = bytes_of(alloc, digits)?;
    if let Some(refusal) = query_refusal(name) {
        return query_faults::told(alloc, bytes.as_slice(), refusal, false);
    }
    match text_fault(name) {
        Some(fault) => text_places::told(alloc, bytes.as_slice(), fault, false),
        None => String::from_str(alloc, "no refusal"),
    }
}

fn query_refusal(name: &[u8]) -> Option<Refusal> {
    match name {
        b"QueryTooLong" => Some(Refusal::TooLong),
        b"NotWellFormed" => Some(Refusal::NotWellFormed),
        b"NotValid" => Some(Refusal::NotValid),
        _ => None,
    }
}

fn text_fault(name: &[u8]) -> Option<TextFault> {
    match name {
        b"TooLong" => Some(TextFault::TooLong),
        b"NotUtf8" => Some(TextFault::NotUtf8),
        b"NotJson" => Some(TextFault::NotJson),
        b"TooDeep" => Some(TextFault::TooDeep),
        b"NumberLimit" => Some(TextFault::NumberLimit),
        b"LoneSurrogate" => Some(TextFault::LoneSurrogate),
        b"DuplicateName" => Some(TextFault::DuplicateName),
        _ => None,
    }
}

fn bytes_of(alloc: Global, digits: &[u8]) -> Result<Vec<u8>, AllocError> {
    let mut bytes = Vec::new(alloc);
    for pair in digits.chunks(2) {
        if let [high, low] = pair {
            bytes.extend_from_slice(&[digit(*high) << 4 | digit(*low)])?;
        }
    }
    Ok(bytes)
}

fn digit(byte: u8) -> u8 {
    match byte {
        b'0'..=b'9' => byte - b'0',
        b'a'..=b'f' => byte - b'a' + 10,
        _ => 0,
    }
}
