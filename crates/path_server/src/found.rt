//! What a query finds in a document.

ghost use Rattle.std.specs.Prelude.{◌<◌, [], IfErr, IfOk, map};
ghost use Rattle.std.specs.List.{All};
ghost use Rattle.json_tape.specs.Document.{count, tree_of};
ghost use Rattle.json_tape.specs.Verdict.{IsAccepted};
ghost use Rattle.tape_select.specs.Nodelists.{nodes_of};
ghost use Rattle.tenant_store.specs.Hits.{hit_of};
ghost use Rattle.path_server.specs.Lines.{lines_of};
ghost use Rattle.path_server.specs.QueryText.{Answers, Refuses};

use crate::fault::QueryTextFault;
use json_tape::{Document, NodeId};
use path_types::compile;
use std::alloc::Global;
use tape_select::{BUDGET, select};

/// A text that was read, and the nodes that a query selects from it, in the query's order.
#[derive(Drop)]
pub struct Found {
    pub document: Document,
    pub nodes: Vec<NodeId>,
}

/// Finds the nodes that a query selects from a document whose text is accepted, or why the query is refused. The refusals are those of
/// [`crate::query_text`] after it has read its text, in the same order.
pub fn find(alloc: Global, query: &[u8], document: Document) -> Result<Found, QueryTextFault>
    requires accepted { IsAccepted document.text (tree_of document) }
    ensures answered { IfOk result (λ found. Answers query.now document.text [] (lines_of (map hit_of (nodes_of found.document found.nodes.items)))) }
    ensures inside { IfOk result (λ found. All (λ node. node.0 < count found.document) found.nodes.items) }
    ensures refused { IfErr result (λ fault. Refuses query.now document.text fault) }
{
    let query = compile(alloc, query)?;
    let selected = select(alloc, &query, &document, BUDGET)?;
    Ok(Found {
        document,
        nodes: selected.nodes,
    })
}
