//! The places of what is refused, found in what was sent.

use client_commands::{Failure, Note};
use client_frames::SendFault;
use json_tape::TextFault;
use query_faults::Refusal;
use std::alloc::{AllocError, Global};
use text_faults::Finding;

/// The place at which a text is refused, if there is one and memory for it. The text's first line has this number.
pub fn of_text(
    alloc: Global,
    text: &[u8],
    first_line: usize,
    fault: TextFault,
    shows: bool,
) -> Option<Note> {
    noted(
        alloc,
        text,
        first_line,
        text_places::find(alloc, text, fault),
        shows,
    )
}

/// The place at which a query is refused.
pub fn of_query(alloc: Global, query: &[u8], failure: Failure, shows: bool) -> Option<Note> {
    let refusal = match failure {
        Failure::Send(SendFault::QueryTooLong) | Failure::Refused(16) => Refusal::TooLong,
        Failure::Refused(17) => Refusal::NotWellFormed,
        Failure::Refused(18) => Refusal::NotValid,
        _ => return None,
    };
    noted(
        alloc,
        query,
        1,
        query_faults::find(alloc, query, refusal),
        shows,
    )
}

fn noted(
    alloc: Global,
    text: &[u8],
    first_line: usize,
    found: Result<Option<Finding>, AllocError>,
    shows: bool,
) -> Option<Note> {
    match found {
        Ok(Some(finding)) => Note::new(alloc, text, first_line, finding, shows).ok(),
        _ => None,
    }
}

/// The refusal of a text, if the failure is one.
pub fn text_fault(failure: Failure) -> Option<TextFault> {
    match failure {
        Failure::Send(SendFault::TextTooLong) => Some(TextFault::TooLong),
        Failure::Refused(status) => fault_of(status),
        _ => None,
    }
}

/// The refusal of a text by a reply's status.
pub fn fault_of(status: u8) -> Option<TextFault> {
    match status {
        5 => Some(TextFault::TooLong),
        6 => Some(TextFault::NotUtf8),
        7 => Some(TextFault::NotJson),
        8 => Some(TextFault::TooDeep),
        9 => Some(TextFault::NumberLimit),
        10 => Some(TextFault::LoneSurrogate),
        11 => Some(TextFault::DuplicateName),
        _ => None,
    }
}
