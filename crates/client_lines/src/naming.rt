//! The name that a query finds in a document.

ghost use Rattle.std.specs.Prelude.{◌≡◌, ◌<◌, ◌≤◌, IfErr, IfNone, IfOk, IfSome, IsErrOf, IsOk, IsTrue, Some, string_bytes};
ghost use Rattle.std.specs.Option.{option_map};
ghost use Rattle.json_tape.specs.Document.{count, node_at, tree_of};
ghost use Rattle.path_grammar.specs.Singular as singular;
ghost use Rattle.path_grammar.specs.View.{query_view};
ghost use Rattle.path_types.specs.Verdict.{IsValidQuery};
ghost use Rattle.tape_select.specs.Budget.{budget};
ghost use Rattle.tape_select.specs.Charge.{charge};
ghost use Rattle.tape_select.specs.Evaluation.{nodes_selected};
ghost use Rattle.client_lines.specs.Naming as naming;
ghost use Rattle.client_lines.specs.Naming.{IsNoNameQuery, RefusesName, TellsName};

use crate::documents::LineFault;
use json_tape::{Document, Kind, NodeId};
use path_grammar::{is_singular, queries_have_one_tree};
use path_types::{QueryFault, ValidQuery, compile};
use std::alloc::{AllocError, Global};
use tape_select::{BUDGET, SelectFault, select};

/// Reads a singular query (RFC 9535, section 2.3.5.1); `None` if the text is not one. An error if an allocation failed.
pub fn read_name_query(alloc: Global, text: &[u8]) -> Result<Option<ValidQuery>, AllocError>
    ensures valid { IfOk result (λ o. IfSome o (λ q. IsValidQuery text.now (query_view q))) }
    ensures singular { IfOk result (λ o. IfSome o (λ q. IsTrue (singular.is_singular (query_view q)))) }
    ensures none { IfOk result (λ o. IfNone o (IsNoNameQuery text.now)) }
{
    queries_have_one_tree();
    match compile(alloc, text) {
        Ok(query) if is_singular(query.segments()) => Ok(Some(query)),
        Err(QueryFault::Memory) => Err(AllocError),
        _ => Ok(None),
    }
}

/// The string that a query selects from a text, as its first node.
///
/// # Errors
///
/// The first that applies in this order:
///
/// - `NoDocument` with the reason: the server would refuse the text.
/// - `Costly`: the query's charge is above the budget.
/// - `NoName`: the first node is not a string, or there is none.
///
/// `Memory` if an allocation failed, which comes after the first two reasons of `NoDocument`.
pub fn name_in(alloc: Global, query: &ValidQuery, text: &[u8]) -> Result<String, LineFault>
    ensures told { IfOk result (λ name. TellsName (query_view query.now) text.now (Some (string_bytes name))) }
    ensures refused { IfErr result (λ fault. RefusesName (query_view query.now) text.now fault) }
{
    let document = match Document::read(alloc, text) {
        Ok(document) => document,
        Err(fault) => return Err(LineFault::of_text(fault)),
    };
    match first_string(alloc, query, &document) {
        Ok(Some(name)) => Ok(name),
        Ok(None) => Err(LineFault::NoName),
        Err(SelectFault::Memory) => Err(LineFault::Memory),
        Err(SelectFault::Costly) => Err(LineFault::Costly),
    }
}

/// The string that the first selected node is, if it is one.
#[tactic(auto, using(crate::proofs::FirstNodes::first_is, crate::proofs::FirstNodes::none_is))]
fn first_string(
    alloc: Global,
    query: &ValidQuery,
    document: &Document,
) -> Result<Option<String>, SelectFault>
    ensures string { IfOk result (λ o. option_map string_bytes o ≡ naming.first_string (nodes_selected (tree_of document.now) (query_view query.now))) }
    ensures within { IsOk result → charge (tree_of document.now) (query_view query.now) ≤ budget }
    ensures costly { IsErrOf result SelectFault.Costly → budget < charge (tree_of document.now) (query_view query.now) }
{
    let selected = select(alloc, query, document, BUDGET)?;
    let Some(node) = selected.nodes.first() else {
        return Ok(None);
    };
    match string_of(alloc, document, *node) {
        Ok(string) => Ok(string),
        Err(_) => Err(SelectFault::Memory),
    }
}

/// The string that a node is, if it is one.
#[tactic(auto, using(crate::proofs::FirstNodes::is_string))]
fn string_of(alloc: Global, document: &Document, node: NodeId) -> Result<Option<String>, AllocError>
    requires { node.0 < count document.now }
    ensures { IfOk result (λ o. option_map string_bytes o ≡ naming.string_of (node_at document.now node.0).tree) }
{
    if document.kind(node) != Kind::Text {
        return Ok(None);
    }
    let mut string = String::new(alloc);
    for letter in document.string_scalars(node) {
        string.push(letter)?;
    }
    Ok(Some(string))
}
