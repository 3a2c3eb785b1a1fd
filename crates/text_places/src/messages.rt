//! What is said of a refused text beside the refusal's name.

ghost use Rattle.std.specs.Prelude.{◌≤◌, length};
ghost use Rattle.json_text.specs.Verdict.{text_limit};

use crate::firsts::{number_limit, too_deep};
use crate::names::duplicate_name;
use crate::surrogates::lone_surrogate;
use json_tape::TEXT_LIMIT;
use json_text::TextFault;
use std::alloc::{AllocError, Global};
use text_faults::{Expected, Finding, hint, not_json, not_utf8};

/// What is said of a refused text, as lines. If `shows`, two of them show the place in its line. Where there is nothing to say, it is empty.
pub fn told(
    alloc: Global,
    text: &[u8],
    fault: TextFault,
    shows: bool,
) -> Result<String, AllocError> {
    match find(alloc, text, fault)? {
        Some(finding) => finding.lines(alloc, text, shows),
        None => Ok(String::new(alloc)),
    }
}

/// Where a text is refused for this reason, and why there, if it is.
pub fn find(alloc: Global, text: &[u8], fault: TextFault) -> Result<Option<Finding>, AllocError> {
    match fault {
        TextFault::TooLong => of_length(alloc, text.len()),
        TextFault::NotUtf8 => {
            let at = not_utf8(text);
            Ok(Some(Finding::of_expected(alloc, text, at, "UTF-8", None)?))
        }
        TextFault::Memory => Ok(None),
        _ => match simdutf8::basic::from_utf8(text) {
            Ok(whole) if whole.len() <= TEXT_LIMIT => of_text(alloc, whole, fault),
            _ => Ok(None),
        },
    }
}

fn of_length(alloc: Global, length: usize) -> Result<Option<Finding>, AllocError> {
    Ok(Some(Finding {
        at: None,
        expected: String::new(alloc),
        message: format!(in alloc; "{length} bytes or more, at most {TEXT_LIMIT} are read")?,
        hint: None,
        first: None,
    }))
}

fn of_text(alloc: Global, text: &str, fault: TextFault) -> Result<Option<Finding>, AllocError>
    requires { length text.now ≤ text_limit }
{
    match fault {
        TextFault::NotJson => of_no_json(alloc, text),
        TextFault::DuplicateName => of_twins(alloc, text),
        TextFault::TooDeep => of_rule(
            alloc,
            too_deep(alloc, text)?,
            "level 257, at most 256 are read",
        ),
        TextFault::NumberLimit => of_rule(
            alloc,
            number_limit(alloc, text)?,
            "a number of more than 256 bytes, or with an exponent above 999999999",
        ),
        TextFault::LoneSurrogate => of_rule(
            alloc,
            lone_surrogate(text.as_bytes()),
            "a surrogate without its partner",
        ),
        TextFault::TooLong | TextFault::NotUtf8 | TextFault::Memory => Ok(None),
    }
}

fn of_rule(alloc: Global, at: Option<usize>, rule: &str) -> Result<Option<Finding>, AllocError> {
    match at {
        Some(at) => Ok(Some(Finding::of_rule(alloc, at, rule)?)),
        None => Ok(None),
    }
}

fn of_no_json(alloc: Global, text: &str) -> Result<Option<Finding>, AllocError> {
    let place = not_json(alloc, text)?;
    if place.at == text.len() && place.expected == Expected::End {
        return Ok(None);
    }
    let bytes = text.as_bytes();
    let expected = format!(in alloc; "{}", place.expected)?;
    let hint = hint(bytes, place);
    Ok(Some(Finding::of_expected(alloc, bytes, place.at, expected.as_str(), hint)?))
}

fn of_twins(alloc: Global, text: &str) -> Result<Option<Finding>, AllocError>
    requires { length text.now ≤ text_limit }
{
    let Some(twins) = duplicate_name(alloc, text)? else {
        return Ok(None);
    };
    let name = text.get(twins.second..twins.end).unwrap_or("");
    Ok(Some(Finding {
        at: Some(twins.second),
        expected: String::new(alloc),
        message: format!(in alloc; "the name {name} again")?,
        hint: None,
        first: Some(twins.first),
    }))
}
