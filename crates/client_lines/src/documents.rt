//! The lines of a dump.

ghost use Rattle.std.specs.Prelude.{◌≡◌, ◌++◌, Some, codes, option_and_then, string_bytes, IfErr, IfOk, IsOk, IsUtf8, OnOk};
ghost use Rattle.std.specs.Option.{option_map};
ghost use Rattle.serde_json.specs.Find.{as_str, get};
ghost use Rattle.serde_json.specs.Read.{read};
ghost use Rattle.serde_json.specs.View.{view};
ghost use Rattle.client_lines.specs.Documents as spec;
ghost use Rattle.client_lines.specs.Documents.{Refuses, document, document_line, document_text, string_in};
ghost use Rattle.client_lines.specs.Faults.{fault_of, fault_name, text_fault_name};

use json_tape::TextFault;
use serde_json::{Value, json};
use std::alloc::{AllocError, AllocFailed, Global};
use thiserror::Error;

/// Why a line could not be read or written.
#[derive(Clone, Copy, Debug, Drop, PartialEq, Eq, Error)]
pub enum LineFault {
    /// It is not UTF-8.
    #[error("it is not UTF-8")]
    NotUtf8,
    /// It is not a JSON text (RFC 8259), or lies deeper than 127 levels, or has a number above the range of a double.
    #[error("it is not a JSON text")]
    NotJson,
    /// It has no string `name`, or none where the query of `--name` looks.
    #[error("it has no name")]
    NoName,
    /// It has no string `text`.
    #[error("it has no text")]
    NoText,
    /// The server would refuse it as a document.
    #[error("it is not a document: {0}")]
    NoDocument(TextFault),
    /// A query on it costs more than the budget.
    #[error("a query on it costs more than the budget")]
    Costly,
    /// An allocation failed.
    #[error("an allocation failed")]
    Memory,
}

impl LineFault {
    /// The name of the refusal: that of the protocol's status, if there is one.
    pub fn name(&self) -> &'static str
        ensures { result.now ≡ fault_name self.now }
    {
        match self {
            LineFault::NotUtf8 => "NotUtf8",
            LineFault::NotJson => "NotJson",
            LineFault::NoName => "NoName",
            LineFault::NoText => "NoText",
            LineFault::NoDocument(fault) => text_fault_name(*fault),
            LineFault::Costly => "Costly",
            LineFault::Memory => "NoMemory",
        }
    }

    /// The fault of a text that is refused.
    pub fn of_text(fault: TextFault) -> LineFault
        ensures { result ≡ fault_of fault }
    {
        match fault {
            TextFault::Memory => LineFault::Memory,
            _ => LineFault::NoDocument(fault),
        }
    }
}

fn text_fault_name(fault: TextFault) -> &'static str
    ensures { result.now ≡ text_fault_name fault }
{
    match fault {
        TextFault::TooLong => "TooLong",
        TextFault::NotUtf8 => "NotUtf8",
        TextFault::NotJson => "NotJson",
        TextFault::TooDeep => "TooDeep",
        TextFault::NumberLimit => "NumberLimit",
        TextFault::LoneSurrogate => "LoneSurrogate",
        TextFault::DuplicateName => "DuplicateName",
        TextFault::Memory => "NoMemory",
    }
}

impl From<AllocError> for LineFault {
    ghost use Rattle.client_lines.specs.declared.documents.LineFault.TheVariants.{Memory};

    ghost from_gives = { λ _ made. made ≡ Memory };

    fn from(_: AllocError) -> LineFault {
        LineFault::Memory
    }
}

impl<T: Drop> From<AllocFailed<T>> for LineFault {
    ghost use Rattle.client_lines.specs.declared.documents.LineFault.TheVariants.{Memory};

    ghost from_gives = { λ _ made. made ≡ Memory };

    fn from(_: AllocFailed<T>) -> LineFault {
        LineFault::Memory
    }
}

/// A document's name and text.
#[derive(Drop)]
pub struct NamedText {
    pub name: String,
    pub text: String,
}

/// Appends the line of a document: a JSON object with the strings `name` and `text`, and a line feed. [`read_document`] reads it back.
pub fn append_document(
    alloc: Global,
    name: &str,
    text: &str,
    out: &mut Vec<u8>,
) -> Result<(), AllocError>
    ensures appended { OnOk result (out.new.items ≡ out.old.items ++ document_line name.now text.now) }
    ensures reads { OnOk result (read (document_text name.now text.now) ≡ Some (document name.now text.now)) }
{
    let line = document_text(alloc, name, text)?;
    out.extend_from_slice(line.as_bytes())?;
    out.extend_from_slice(b"\n")
}

fn document_value(alloc: Global, name: &str, text: &str) -> Result<Value, AllocError>
    ensures { IfOk result (λ v. view v ≡ document name.now text.now) }
{
    json!(in alloc; {"name": name, "text": text})
}

/// A JSON object with the strings `name` and `text`.
fn document_text(alloc: Global, name: &str, text: &str) -> Result<String, AllocError>
    ensures line { IfOk result (λ s. string_bytes s ≡ spec.document_text name.now text.now) }
    ensures reads { IfOk result (λ s. read (string_bytes s) ≡ Some (document name.now text.now)) }
{
    let value = document_value(alloc, name, text)?;
    value.to_string(alloc)
}

fn parse(alloc: Global, line: &[u8]) -> Result<Value, LineFault>
    ensures utf8 { IsOk result → IsUtf8 line.now }
    ensures value { IfOk result (λ v. read line.now ≡ Some (view v)) }
    ensures refused { IfErr result (λ fault. Refuses fault line.now) }
{
    let Ok(text) = simdutf8::basic::from_utf8(line) else {
        return Err(LineFault::NotUtf8);
    };
    match Value::from_str(alloc, text) {
        Ok(value) => Ok(value),
        Err(error) if error.is_memory() => Err(LineFault::Memory),
        Err(_) => Err(LineFault::NotJson),
    }
}

/// A copy of the string with this name, if there is one.
fn string_at(alloc: Global, value: &Value, key: &str) -> Result<Option<String>, AllocError>
    ensures { IfOk result (λ o. option_map string_bytes o ≡ option_and_then as_str (get key.now (view value.now))) }
{
    match value.get(key).and_then(Value::as_str) {
        Some(text) => Ok(Some(String::from_str(alloc, text)?)),
        None => Ok(None),
    }
}

/// Reads the name and the text from a line of a dump.
///
/// # Errors
///
/// The first that applies in this order: NotUtf8; NotJson; NoName if the line is no object with a string `name`; NoText likewise.
/// Memory if an allocation failed, which comes after NotUtf8.
pub fn read_document(alloc: Global, line: &[u8]) -> Result<NamedText, LineFault>
    ensures utf8 { IsOk result → IsUtf8 line.now }
    ensures name { IfOk result (λ d. string_in line.now (codes "name") ≡ Some (string_bytes d.name)) }
    ensures text { IfOk result (λ d. string_in line.now (codes "text") ≡ Some (string_bytes d.text)) }
    ensures refused { IfErr result (λ fault. Refuses fault line.now) }
{
    let value = parse(alloc, line)?;
    let Some(name) = string_at(alloc, &value, "name")? else {
        return Err(LineFault::NoName);
    };
    let Some(text) = string_at(alloc, &value, "text")? else {
        return Err(LineFault::NoText);
    };
    Ok(NamedText { name, text })
}
