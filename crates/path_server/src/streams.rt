//! A query on a text, or on the one that a reader has, answered to a writer.

ghost use Rattle.std.specs.Prelude.{OnOk, IfErr, Some};
ghost use Rattle.path_server.specs.QueryStream.{AnswersStream, FailsStream};

use crate::fault::QueryTextFault;
use crate::found::find;
use crate::pieces::{PieceFault, write_pieces};
use json_tape::{Document, TEXT_LIMIT};
use standard_streams::{ReadFault, WriteFault, read_past};
use std::alloc::Global;
use std::io::{Read, Write};
use thiserror::Error;

/// Why a query on a stream is not answered.
#[derive(Clone, Copy, Debug, PartialEq, Eq, Error)]
pub enum QueryStreamFault {
    /// The text could not be read.
    #[error("{0}")]
    Read(ReadFault),
    /// The query on the text is refused, or a growth was.
    #[error("{0}")]
    Refused(QueryTextFault),
    /// The lines could not be written whole.
    #[error("{0}")]
    Write(WriteFault),
}

/// Reads a text to its end, at most one byte past [`json_tape::TEXT_LIMIT`], and writes what [`crate::query_text`] appends for it, as [`query_to`]
/// does.
///
/// If the text cannot be read (Read), nothing is written.
pub fn query_stream<R: Read + Drop, W: Write>(
    alloc: Global,
    query: &[u8],
    reader: R,
    writer: &mut W,
) -> Result<(), QueryStreamFault>
    ensures answered { OnOk result (AnswersStream query.now (R.remaining reader) (W.contents writer.old) (W.contents writer.new)) }
    ensures failed { IfErr result (λ fault. FailsStream query.now (R.remaining reader) (W.contents writer.old) (W.contents writer.new) fault) }
{
    let text = match read_past(alloc, reader, TEXT_LIMIT as u64) {
        Ok(text) => text,
        Err(fault) => return Err(QueryStreamFault::Read(fault)),
    };
    query_to(alloc, query, text.as_slice(), writer)
}

/// Writes what [`crate::query_text`] appends for a text. It writes in pieces of some 65,536 bytes, so that it holds at most a piece and a path.
///
/// If [`crate::query_text`] refuses the text (Refused), nothing is written. Once lines are being written, a failed allocation (Refused, with Memory)
/// or a failed write (Write) breaks them off: a prefix of them is written, and not all.
pub fn query_to<W: Write>(
    alloc: Global,
    query: &[u8],
    text: &[u8],
    writer: &mut W,
) -> Result<(), QueryStreamFault>
    ensures answered { OnOk result (AnswersStream query.now (Some text.now) (W.contents writer.old) (W.contents writer.new)) }
    ensures failed { IfErr result (λ fault. FailsStream query.now (Some text.now) (W.contents writer.old) (W.contents writer.new) fault) }
{
    let document = match Document::read(alloc, text) {
        Ok(document) => document,
        Err(fault) => return Err(QueryStreamFault::Refused(fault.into())),
    };
    let found = match find(alloc, query, document) {
        Ok(found) => found,
        Err(fault) => return Err(QueryStreamFault::Refused(fault)),
    };
    match write_pieces(alloc, &found.document, found.nodes.as_slice(), writer) {
        Ok(()) => Ok(()),
        Err(PieceFault::Memory) => Err(QueryStreamFault::Refused(QueryTextFault::Memory)),
        Err(PieceFault::Write(fault)) => Err(QueryStreamFault::Write(fault)),
    }
}
