//! The hits of a query in one document that the client has whole.

ghost use Rattle.std.specs.Prelude.{◌≡◌, ◌<◌, ◌++◌, map, take, IfErr, OnOk};
ghost use Rattle.std.specs.List.{All};
ghost use Rattle.json_tape.specs.Document.{count, node_at};
ghost use Rattle.normal_paths.specs.NormalPath.{normal_path};
ghost use Rattle.path_grammar.specs.View.{query_view};
ghost use Rattle.tape_select.specs.Nodelists.{nodes_of};
ghost use Rattle.client_lines.specs.Answers.{Tells, found_in, node_lines};
ghost use Rattle.client_lines.specs.Faults.{RefusesQuery};
ghost use Rattle.client_frames.specs.Readings.{found_of};
ghost use Rattle.client_lines.specs.Lines.{RefusesHits, RefusesPath, line_in};

use crate::documents::LineFault;
use crate::hits::{append_hit, append_json_hit};
use client_frames::Hit;
use json_tape::{Document, NodeId};
use normal_paths::write_path;
use path_law::paths_lead_back;
use path_types::ValidQuery;
use std::alloc::Global;
use store_names::DocName;
use tape_select::{BUDGET, SelectFault, select};

// Appends a hit's line in the form that is asked for.
fn append_in(alloc: Global, hit: &Hit<'_>, json: bool, out: &mut Vec<u8>) -> Result<(), LineFault>
    ensures line { OnOk result (out.new.items ≡ out.old.items ++ line_in json (found_of hit.now)) }
    ensures refused { IfErr result (λ fault. RefusesPath hit.now.path.now fault) }
{
    if json {
        append_json_hit(alloc, hit, out)
    } else {
        Ok(append_hit(hit, out)?)
    }
}

// Appends the line of a node.
fn append_node(
    alloc: Global,
    name: DocName<'_>,
    document: &Document,
    node: NodeId,
    json: bool,
    out: &mut Vec<u8>,
) -> Result<(), LineFault>
    requires { node.0 < count document.now }
    ensures line { OnOk result (out.new.items ≡ out.old.items ++ line_in json (found_in name.entry.bytes.now (node_at document.now node.0))) }
    ensures refused { IfErr result (λ fault. RefusesPath (normal_path (node_at document.now node.0)) fault) }
{
    let mut path = Vec::new(alloc);
    write_path(alloc, document, node, &mut path)?;
    let hit = Hit {
        document: name,
        path: path.as_slice(),
        value: document.text(node),
    };
    append_in(alloc, &hit, json, out)
}

// Appends the lines of nodes.
#[tactic(auto, using(crate::proofs::Paths::passed_node))]
fn append_nodes(
    alloc: Global,
    name: DocName<'_>,
    document: &Document,
    nodes: &[NodeId],
    json: bool,
    out: &mut Vec<u8>,
) -> Result<(), LineFault>
    requires { All (λ node. node.0 < count document.now) nodes.now }
    ensures lines { OnOk result (out.new.items ≡ out.old.items ++ node_lines json name.entry.bytes.now (nodes_of document.now nodes.now)) }
    ensures refused { IfErr result (λ fault. RefusesHits (map (found_in name.entry.bytes.now) (nodes_of document.now nodes.now)) fault) }
{
    for node in nodes {
        if let Err(fault) = append_node(alloc, name, document, *node, json, out) {
            return Err(fault);
        }
    }
    Ok(())
}

// The first so many of nodes, or all.
fn first(nodes: &[NodeId], limit: usize) -> &[NodeId]
    ensures { result.now ≡ take limit nodes.now }
{
    match nodes.get(..limit) {
        Some(some) => some,
        None => nodes,
    }
}

/// Appends a line for each of the first `limit` hits of a query in a document, as [`crate::append_hits`] and [`crate::append_json_hits`] do of a reply.
///
/// # Errors
///
/// NoDocument with the reason, if a server would refuse the text; then Costly, if the query's charge is above the budget. Memory if an allocation
/// failed, which comes after the first two reasons of NoDocument.
pub fn append_hits_in(
    alloc: Global,
    query: &ValidQuery,
    name: DocName<'_>,
    text: &[u8],
    json: bool,
    limit: usize,
    out: &mut Vec<u8>,
) -> Result<(), LineFault>
    ensures lines { OnOk result (Tells (query_view query.now) name.entry.bytes.now text.now json limit out.old.items out.new.items) }
    ensures refused { IfErr result (λ fault. RefusesQuery (query_view query.now) text.now fault) }
{
    paths_lead_back();
    let document = match Document::read(alloc, text) {
        Ok(document) => document,
        Err(fault) => return Err(LineFault::of_text(fault)),
    };
    match select(alloc, query, &document, BUDGET) {
        Ok(selected) => append_nodes(
            alloc,
            name,
            &document,
            first(selected.nodes.as_slice(), limit),
            json,
            out,
        ),
        Err(SelectFault::Memory) => Err(LineFault::Memory),
        Err(SelectFault::Costly) => Err(LineFault::Costly),
    }
}
