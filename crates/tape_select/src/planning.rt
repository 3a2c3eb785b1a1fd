//! Plans that callers hold, and queries evaluated by them.

ghost use Rattle.std.specs.Prelude.{◌≡◌, ◌<◌, ◌≤◌, IfOk, IsOk, IsErrOf};
ghost use Rattle.std.specs.List.{All};
ghost use Rattle.json_tape.specs.Document.{tree_of, count};
ghost use Rattle.path_grammar.specs.View.{query_view};
ghost use Rattle.node_lists.specs.Charge.{charge};
ghost use Rattle.node_lists.specs.Evaluation.{nodes_selected};
ghost use Rattle.node_lists.specs.Nodelists.{nodes_of};

use crate::selecting::{Selected, select_all};
use json_tape::Document;
use node_lists::SelectFault;
use path_types::ValidQuery;
use query_plan::{Parts, parts_of};
use std::alloc::{AllocError, Global};
use std::marker::Model;

/// The most units of a query over all that it is evaluated on.
pub const BUDGET: u64 = 10_000_000;

/// A valid query, made ready to be evaluated on any document. It stands for the query.
#[derive(Drop)]
pub struct Plan<'q> {
    query: &'q ValidQuery,
    parts: Parts,
}

impl<'q> Model for Plan<'q> {
    ghost use Rattle.std.specs.Prelude.{◌≡◌, Some};
    ghost use Rattle.std.specs.Coded.{codes};
    ghost use Rattle.path_grammar.specs.contracts.ast.Segment as segment;
    ghost use Rattle.path_grammar.specs.declared.ast.Query.{Query};
    ghost use Rattle.path_grammar.specs.View.{query_view};
    ghost use Rattle.query_plan.specs.Planned.{query_of, claims_of, numbered};

    ghost Value = { Query };

    ghost coded = { Prim.hlevel (codes, segment.the_row.coded) };

    ghost view = { λ v. v.query.now };

    ghost invariant = { λ v. (query_of v.parts.stages.items ≡ query_view v.query.now) × (numbered (claims_of v.parts.stages.items) 0 ≡ Some v.parts.slots) };
}

impl<'q> Plan<'q> {
    /// The plan of a query. `AllocError` where a growth was refused.
    pub fn new(alloc: Global, query: &'q ValidQuery) -> Result<Plan<'q>, AllocError>
        ensures { IfOk result (λ plan. plan ≡ query.now) }
    {
        let parts = parts_of(alloc, query)?;
        Ok(Plan { query, parts })
    }

    /// The nodes that the query selects from a document, and its charge.
    ///
    /// Costly where the charge is above the units; Memory where a growth was refused.
    pub fn select(&self, alloc: Global, doc: &Document, units: u64) -> Result<Selected, SelectFault>
        ensures nodes { IfOk result (λ s. nodes_of doc.now s.nodes.items ≡ nodes_selected (tree_of doc.now) (query_view self.now)) }
        ensures inside { IfOk result (λ s. All (λ id. id.0 < count doc.now) s.nodes.items) }
        ensures charge { IfOk result (λ s. s.charge ≡ charge (tree_of doc.now) (query_view self.now)) }
        ensures within { IsOk result → charge (tree_of doc.now) (query_view self.now) ≤ units }
        ensures costly { IsErrOf result SelectFault.Costly → units < charge (tree_of doc.now) (query_view self.now) }
    {
        match select_all(alloc, &self.parts, doc, units) {
            Ok(selected) => Ok(selected),
            Err(SelectFault::Costly) => Err(SelectFault::Costly),
            Err(SelectFault::Memory) => Err(SelectFault::Memory),
        }
    }
}

/// The nodes that a query selects from a document, and its charge: by a plan that is made for this document alone.
///
/// Costly where the charge is above the units; Memory where a growth was refused.
pub fn select(
    alloc: Global,
    query: &ValidQuery,
    doc: &Document,
    units: u64,
) -> Result<Selected, SelectFault>
    ensures nodes { IfOk result (λ s. nodes_of doc.now s.nodes.items ≡ nodes_selected (tree_of doc.now) (query_view query.now)) }
    ensures inside { IfOk result (λ s. All (λ id. id.0 < count doc.now) s.nodes.items) }
    ensures charge { IfOk result (λ s. s.charge ≡ charge (tree_of doc.now) (query_view query.now)) }
    ensures within { IsOk result → charge (tree_of doc.now) (query_view query.now) ≤ units }
    ensures costly { IsErrOf result SelectFault.Costly → units < charge (tree_of doc.now) (query_view query.now) }
{
    match Plan::new(alloc, query) {
        Err(_) => Err(SelectFault::Memory),
        Ok(plan) => plan.select(alloc, doc, units),
    }
}
