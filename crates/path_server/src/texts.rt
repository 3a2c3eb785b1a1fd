//! A query on a text.

ghost use Rattle.std.specs.Prelude.{◌≡◌, IfErr, OnErr, OnOk};
ghost use Rattle.path_server.specs.Paths.{PathsLeadBack};
ghost use Rattle.path_server.specs.QueryText.{Answers, Refuses};

use crate::fault::QueryTextFault;
use crate::found::find;
use crate::laws::hits_lead_back;
use crate::lines::write_lines;
use json_tape::Document;
use std::alloc::Global;

/// Appends a line for each node that a query selects from a text, in the query's order. A line is the normalized path (RFC 9535, section 2.7), a
/// tab, the value as it stands in the text, and a line feed. The path of each hit, as a query on this text, selects this hit alone.
///
/// # Errors
///
/// In this order: those of the text (TooLong to DuplicateName), those of the query (QueryTooLong, NotWellFormed, NotValid), and Costly if its
/// charge is above [`tape_select::BUDGET`]. Memory if an allocation failed, but never for a text that is too long or not UTF-8. After an error
/// the vector is unchanged.
pub fn query_text(
    alloc: Global,
    query: &[u8],
    document: &[u8],
    out: &mut Vec<u8>,
) -> Result<(), QueryTextFault>
    ensures answered { OnOk result (Answers query.now document.now out.old.items out.new.items) }
    ensures paths { OnOk result (PathsLeadBack query.now document.now) }
    ensures refused { IfErr result (λ fault. Refuses query.now document.now fault) }
    ensures unchanged { OnErr result (out.new.items ≡ out.old.items) }
{
    hits_lead_back();
    let document = Document::read(alloc, document)?;
    let found = find(alloc, query, document)?;
    write_lines(alloc, &found.document, found.nodes.as_slice(), out)?;
    Ok(())
}
