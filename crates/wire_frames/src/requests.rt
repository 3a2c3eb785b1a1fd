//! What the body of a request frame asks.
ghost use Rattle.std.specs.Prelude.{◌≡◌, ◌==◌, is_some, length, IfOk};
ghost use Rattle.std.specs.List.{All};
ghost use Rattle.std.specs.Option.{option_map};
ghost use Rattle.store_names.specs.Names.{is_collection_name, is_document_name};
ghost use Rattle.wire_frames.specs.Requests.{reading, asked_at, is_known, place_at, whole_place_at, whole_collection_at, name_at, prefixed};
ghost use Rattle.wire_frames.specs.Frames.{IsByte};
ghost use Rattle.wire_frames.specs.Readings.{reading_of, asked_by, asked_of, place_of};
ghost use Rattle.wire_frames.specs.Written.{IsWritten};

use store_names::{CollName, DocName, FIELDS_AT, KEY_AT};
use thiserror::Error;

const PUT: u8 = 1;

const GET: u8 = 2;

const REMOVE: u8 = 3;

const LIST: u8 = 4;

const QUERY: u8 = 5;

const DROP: u8 = 6;

const USAGE: u8 = 7;

const PUT_NEW: u8 = 8;

/// What a tenant asks.
#[derive(Clone, Copy, Debug)]
pub enum Command<'a> {
    /// Put a text under a name.
    Put {
        collection: CollName<'a>,
        document: DocName<'a>,
        text: &'a [u8],
    },
    /// Get the text under a name.
    Get {
        collection: CollName<'a>,
        document: DocName<'a>,
    },
    /// Remove the text under a name.
    Remove {
        collection: CollName<'a>,
        document: DocName<'a>,
    },
    /// List the names of a collection.
    List {
        collection: CollName<'a>,
    },
    /// Ask a query (RFC 9535) of each document of a collection.
    Query {
        collection: CollName<'a>,
        query: &'a [u8],
    },
    /// Remove all documents of a collection.
    DropCollection {
        collection: CollName<'a>,
    },
    /// Tell how much the tenant holds.
    Usage,
    /// Put a text under a name that has none.
    PutNew {
        collection: CollName<'a>,
        document: DocName<'a>,
        text: &'a [u8],
    },
}

/// A request: its number, which the reply repeats, the tenant's key, and what is asked.
#[derive(Clone, Copy, Debug)]
pub struct Request<'a> {
    pub number: u32,
    pub key: [u8; 16],
    pub command: Command<'a>,
}

/// Why a body is no request, in the order in which the reasons are looked for.
#[derive(Clone, Copy, Debug, PartialEq, Eq, Error)]
pub enum RequestFault {
    /// The body has fewer than 21 bytes. The number is 0 where it has fewer than 5.
    #[error("the body of request {number} is too short")]
    Short { number: u32 },
    /// No command has this byte.
    #[error("request {number} has no command of the table")]
    BadCommand { number: u32, key: [u8; 16] },
    /// A name is empty, too long or of other bytes than a name's, bytes are missing, or some are left over.
    #[error("the fields of request {number} are not those of its command")]
    BadFields { number: u32, key: [u8; 16] },
}

/// Reads the body of a request frame: a command byte, a number in four bytes, the most significant first, a key of 16
/// bytes, and the command's fields. A name among them stands behind its length in one byte; a text or a query goes to the
/// end.
///
/// # Errors
///
/// The first [`RequestFault`] that applies.
pub fn read_request(body: &[u8]) -> Result<Request<'_>, RequestFault>
    ensures value { reading_of result ≡ reading body.now }
    ensures written { All IsByte body.now → IfOk result (λ request. IsWritten request.number request.key (asked_of request.command) body.now) }
{
    read(body)
}

#[tactic(auto, unfolding(crate::specs::Requests::reading))]
fn read(body: &[u8]) -> Result<Request<'_>, RequestFault>
    ensures { reading_of result ≡ reading body.now }
{
    if body.len() < KEY_AT {
        return Err(RequestFault::Short { number: 0 });
    }
    let number = u32::from_be_bytes([body[1], body[2], body[3], body[4]]);
    if body.len() < FIELDS_AT {
        return Err(RequestFault::Short { number });
    }
    let mut key = [0u8; 16];
    key.copy_from_slice(&body[KEY_AT..FIELDS_AT]);
    let command = body[0];
    if !is_command(command) {
        return Err(RequestFault::BadCommand { number, key });
    }
    match read_fields(command, &body[FIELDS_AT..]) {
        Some(command) => Ok(Request {
            number,
            key,
            command,
        }),
        None => Err(RequestFault::BadFields { number, key }),
    }
}

fn is_command(byte: u8) -> bool
    ensures { result ≡ is_known byte }
{
    matches!(byte, PUT..=PUT_NEW)
}

#[tactic(auto, unfolding(crate::specs::Requests::asked_at))]
fn read_fields(command: u8, fields: &[u8]) -> Option<Command<'_>>
    ensures { asked_by result ≡ asked_at command fields.now }
{
    match command {
        PUT => {
            let Place {
                collection,
                document,
                rest,
            } = read_place(fields)?;
            Some(Command::Put {
                collection,
                document,
                text: rest,
            })
        }
        GET => {
            let (collection, document) = read_whole_place(fields)?;
            Some(Command::Get {
                collection,
                document,
            })
        }
        REMOVE => {
            let (collection, document) = read_whole_place(fields)?;
            Some(Command::Remove {
                collection,
                document,
            })
        }
        LIST => {
            let collection = read_whole_collection(fields)?;
            Some(Command::List { collection })
        }
        QUERY => {
            let (collection, query) = read_collection(fields)?;
            Some(Command::Query { collection, query })
        }
        DROP => {
            let collection = read_whole_collection(fields)?;
            Some(Command::DropCollection { collection })
        }
        USAGE => {
            read_end(fields)?;
            Some(Command::Usage)
        }
        PUT_NEW => {
            let Place {
                collection,
                document,
                rest,
            } = read_place(fields)?;
            Some(Command::PutNew {
                collection,
                document,
                text: rest,
            })
        }
        _ => None,
    }
}

/// A document's place, and the bytes behind it.
struct Place<'a> {
    collection: CollName<'a>,
    document: DocName<'a>,
    rest: &'a [u8],
}

#[tactic(auto, unfolding(crate::specs::Requests::place_at))]
fn read_place(fields: &[u8]) -> Option<Place<'_>>
    ensures { option_map place_of result ≡ place_at fields.now }
{
    let (collection, rest) = read_collection(fields)?;
    let (document, rest) = read_document(rest)?;
    Some(Place {
        collection,
        document,
        rest,
    })
}

#[tactic(auto, unfolding(crate::specs::Requests::whole_place_at))]
fn read_whole_place(fields: &[u8]) -> Option<(CollName<'_>, DocName<'_>)>
    ensures { option_map (λ p. (p.0.bytes.now, p.1.bytes.now)) result ≡ whole_place_at fields.now }
{
    let Place {
        collection,
        document,
        rest,
    } = read_place(fields)?;
    read_end(rest)?;
    Some((collection, document))
}

#[tactic(auto, unfolding(crate::specs::Requests::whole_collection_at))]
fn read_whole_collection(fields: &[u8]) -> Option<CollName<'_>>
    ensures { option_map (λ name. name.bytes.now) result ≡ whole_collection_at fields.now }
{
    let (collection, rest) = read_collection(fields)?;
    read_end(rest)?;
    Some(collection)
}

#[tactic(auto, unfolding(crate::specs::Requests::name_at))]
fn read_collection(fields: &[u8]) -> Option<(CollName<'_>, &[u8])>
    ensures { option_map (λ p. (p.0.bytes.now, p.1.now)) result ≡ name_at is_collection_name fields.now }
{
    let (name, rest) = split_prefixed(fields)?;
    let collection = CollName::read(name)?;
    Some((collection, rest))
}

#[tactic(auto, unfolding(crate::specs::Requests::name_at))]
fn read_document(fields: &[u8]) -> Option<(DocName<'_>, &[u8])>
    ensures { option_map (λ p. (p.0.bytes.now, p.1.now)) result ≡ name_at is_document_name fields.now }
{
    let (name, rest) = split_prefixed(fields)?;
    let document = DocName::read(name)?;
    Some((document, rest))
}

/// Nothing more.
fn read_end(fields: &[u8]) -> Option<()>
    ensures { is_some result ≡ (length fields.now == 0) }
{
    if fields.is_empty() { Some(()) } else { None }
}

/// The bytes behind a length byte, as many as it says, and what follows them.
#[tactic(auto, unfolding(crate::specs::Requests::prefixed))]
fn split_prefixed(fields: &[u8]) -> Option<(&[u8], &[u8])>
    ensures { option_map (λ p. (p.0.now, p.1.now)) result ≡ prefixed fields.now }
{
    let (length, rest) = fields.split_first()?;
    let length = *length as usize;
    if rest.len() < length {
        return None;
    }
    Some(rest.split_at(length))
}
