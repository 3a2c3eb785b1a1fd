//! The frames of requests.

ghost use Rattle.std.specs.Prelude.{◌≡◌, ◌≤◌, ◌+◌, ◌∷◌, ◌++◌, length, take, vec_len, OnOk, OnErr, IfErr};
ghost use Rattle.std.specs.Int.{w32, to_be_bytes};
ghost use Rattle.json_tape.specs.Verdict.{text_limit};
ghost use Rattle.wire_frames.specs.Encoding.{command_byte, fields};
ghost use Rattle.wire_frames.specs.Readings.{asked_of};
ghost use Rattle.client_frames.specs.Sent.{IsAbove, IsWithin, given_field, parts, request};

use json_tape::TEXT_LIMIT;
use path_grammar::QUERY_LIMIT;
use std::alloc::AllocError;
use store_names::FIELDS_AT;
use thiserror::Error;
use wire_frames::Command;

/// Why a request could not be written.
#[derive(Clone, Copy, Debug, Drop, PartialEq, Eq, Error)]
pub enum SendFault {
    /// The text is longer than [`json_tape::TEXT_LIMIT`].
    #[error("the text is too long")]
    TextTooLong,
    /// The query is longer than [`path_grammar::QUERY_LIMIT`].
    #[error("the query is too long")]
    QueryTooLong,
    /// An allocation failed.
    #[error("an allocation failed")]
    Memory,
}

impl From<AllocError> for SendFault {
    ghost use Rattle.client_frames.specs.declared.requests.SendFault.TheVariants.{Memory};

    ghost from_gives = { λ _ made. made ≡ Memory };

    fn from(_: AllocError) -> SendFault {
        SendFault::Memory
    }
}

/// The parts of a body other than number and key. A name that the command does not have is empty.
#[derive(Clone, Copy)]
struct Parts<'a> {
    command: u8,
    collection: &'a [u8],
    document: &'a [u8],
    rest: &'a [u8],
}

fn parts_of<'a>(command: &Command<'a>) -> Parts<'a>
    ensures command { result.command ≡ command_byte (asked_of command.now) }
    ensures fields { parts result.collection.now result.document.now result.rest.now ≡ fields (asked_of command.now) }
    ensures collection { length result.collection.now ≤ 64 }
    ensures document { length result.document.now ≤ 128 }
    ensures rest { IsWithin (asked_of command.now) → length result.rest.now ≤ text_limit }
{
    let (command, collection, document, rest): (u8, &'a [u8], &'a [u8], &'a [u8]) = match *command {
        Command::Put {
            collection,
            document,
            text,
        } => (1, collection.bytes, document.bytes, text),
        Command::Get {
            collection,
            document,
        } => (2, collection.bytes, document.bytes, &[]),
        Command::Remove {
            collection,
            document,
        } => (3, collection.bytes, document.bytes, &[]),
        Command::List { collection } => (4, collection.bytes, &[], &[]),
        Command::Query { collection, query } => (5, collection.bytes, &[], query),
        Command::DropCollection { collection } => (6, collection.bytes, &[], &[]),
        Command::Usage => (7, &[], &[], &[]),
        Command::PutNew {
            collection,
            document,
            text,
        } => (8, collection.bytes, document.bytes, text),
    };
    Parts {
        command,
        collection,
        document,
        rest,
    }
}

/// Checks that the text or query of a command is within its limit.
fn check(command: &Command<'_>) -> Result<(), SendFault>
    ensures within { OnOk result (IsWithin (asked_of command.now)) }
    ensures refused { IfErr result (λ fault. IsAbove fault (asked_of command.now)) }
{
    match *command {
        Command::Put { text, .. } | Command::PutNew { text, .. } if text.len() > TEXT_LIMIT => {
            Err(SendFault::TextTooLong)
        }
        Command::Query { query, .. } if query.len() > QUERY_LIMIT => Err(SendFault::QueryTooLong),
        _ => Ok(()),
    }
}

fn field_length(name: &[u8]) -> usize
    requires { length name.now ≤ 128 }
    ensures { result ≡ length (given_field name.now) }
{
    if name.is_empty() { 0 } else { 1 + name.len() }
}

/// The length of a body with these parts.
#[tactic(auto, using(crate::proofs::Sending::long_body))]
fn body_length(given: &Parts<'_>) -> u32
    requires collection { length given.now.collection.now ≤ 64 }
    requires document { length given.now.document.now ≤ 128 }
    requires rest { length given.now.rest.now ≤ text_limit }
    ensures { result ≡ 21 + length (parts given.now.collection.now given.now.document.now given.now.rest.now) }
{
    let names = field_length(given.collection) + field_length(given.document);
    (FIELDS_AT + names + given.rest.len()) as u32
}

/// The first bytes of a frame, up to the key.
fn head_of(length: u32, number: u32, command: u8) -> [u8; 9]
    ensures { result ≡ to_be_bytes w32 length ++ command ∷ to_be_bytes w32 number }
{
    let [a, b, c, d] = length.to_be_bytes();
    let [e, f, g, h] = number.to_be_bytes();
    [a, b, c, d, command, e, f, g, h]
}

fn append_field(name: &[u8], out: &mut Vec<u8>) -> Result<(), AllocError>
    requires { length name.now ≤ 128 }
    ensures appended { OnOk result (out.new.items ≡ out.old.items ++ given_field name.now) }
    ensures kept { take (vec_len out.old) out.new.items ≡ out.old.items }
{
    if name.is_empty() {
        return Ok(());
    }
    out.extend_from_slice(&[name.len() as u8])?;
    out.extend_from_slice(name)
}

#[tactic(auto, using(crate::proofs::Sending::joined))]
fn append(head: &[u8], key: &[u8], given: &Parts<'_>, out: &mut Vec<u8>) -> Result<(), AllocError>
    requires collection { length given.now.collection.now ≤ 64 }
    requires document { length given.now.document.now ≤ 128 }
    ensures appended { OnOk result (out.new.items ≡ out.old.items ++ (head.now ++ (key.now ++ parts given.now.collection.now given.now.document.now given.now.rest.now))) }
    ensures kept { take (vec_len out.old) out.new.items ≡ out.old.items }
{
    out.extend_from_slice(head)?;
    out.extend_from_slice(key)?;
    append_field(given.collection, out)?;
    append_field(given.document, out)?;
    out.extend_from_slice(given.rest)
}

/// Appends the frame of a request: the number, which its reply repeats, the tenant's key and a command.
///
/// # Errors
///
/// TextTooLong or QueryTooLong if the text or the query is above its limit; Memory if an allocation failed. The vector's bytes are then
/// unchanged.
pub fn write_request(
    number: u32,
    key: &[u8; 16],
    command: &Command<'_>,
    out: &mut Vec<u8>,
) -> Result<(), SendFault>
    ensures appended { OnOk result (out.new.items ≡ out.old.items ++ request number key.now (asked_of command.now)) }
    ensures within { OnOk result (IsWithin (asked_of command.now)) }
    ensures refused { IfErr result (λ fault. IsAbove fault (asked_of command.now)) }
    ensures unchanged { OnErr result (out.new.items ≡ out.old.items) }
{
    check(command)?;
    let before = out.len();
    let given = parts_of(command);
    let head = head_of(body_length(&given), number, given.command);
    match append(&head, key, &given, out) {
        Ok(()) => Ok(()),
        Err(_) => {
            out.truncate(before);
            Err(SendFault::Memory)
        }
    }
}
