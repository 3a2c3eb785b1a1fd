//! The lines of hits.

ghost use Rattle.std.specs.Prelude.{◌≡◌, ◌<◌, ◌++◌, IfOk, OnErr, OnOk, length, take, map};
ghost use Rattle.std.specs.List.{All};
ghost use Rattle.json_tape.specs.Document.{count, node_at};
ghost use Rattle.tape_select.specs.Nodelists.{nodes_of};
ghost use Rattle.tenant_store.specs.Hits.{hit_of};
ghost use Rattle.path_server.specs.Lines.{head_of, line_of, lines_of};

use json_tape::{Document, NodeId};
use normal_paths::write_path;
use std::alloc::{AllocError, Global};

/// Appends what a node's line begins with, the path and the tab; at a refusal a part of it may stand there.
pub fn write_head(
    alloc: Global,
    document: &Document,
    node: NodeId,
    out: &mut Vec<u8>,
) -> Result<(), AllocError>
    requires { node.0 < count document.now }
    ensures written { OnOk result (out.new.items ≡ out.old.items ++ head_of (hit_of (node_at document.now node.0))) }
    ensures kept { take (length out.old.items) out.new.items ≡ out.old.items }
{
    write_path(alloc, document, node, out)?;
    out.push(b'\t')?;
    Ok(())
}

// Appends the line of a node; at a refusal a part of it may stand there.
fn write_line(
    alloc: Global,
    document: &Document,
    node: NodeId,
    out: &mut Vec<u8>,
) -> Result<(), AllocError>
    requires { node.0 < count document.now }
    ensures written { IfOk result (λ _. out.new.items ≡ out.old.items ++ line_of (hit_of (node_at document.now node.0))) }
    ensures kept { take (length out.old.items) out.new.items ≡ out.old.items }
{
    write_head(alloc, document, node, out)?;
    out.extend_from_slice(document.text(node))?;
    out.push(b'\n')?;
    Ok(())
}

// Appends the lines of nodes; at a refusal a part of them may stand there.
fn write_all(
    alloc: Global,
    document: &Document,
    nodes: &[NodeId],
    out: &mut Vec<u8>,
) -> Result<(), AllocError>
    requires { All (λ node. node.0 < count document.now) nodes.now }
    ensures written { IfOk result (λ _. out.new.items ≡ out.old.items ++ lines_of (map hit_of (nodes_of document.now nodes.now))) }
    ensures kept { take (length out.old.items) out.new.items ≡ out.old.items }
{
    for node in nodes {
        write_line(alloc, document, *node, out)?;
    }
    Ok(())
}

/// Appends the lines of nodes, in order. A failed allocation leaves the vector unchanged.
pub fn write_lines(
    alloc: Global,
    document: &Document,
    nodes: &[NodeId],
    out: &mut Vec<u8>,
) -> Result<(), AllocError>
    requires { All (λ node. node.0 < count document.now) nodes.now }
    ensures written { IfOk result (λ _. out.new.items ≡ out.old.items ++ lines_of (map hit_of (nodes_of document.now nodes.now))) }
    ensures unchanged { OnErr result (out.new.items ≡ out.old.items) }
{
    let before = out.len();
    let written = write_all(alloc, document, nodes, out);
    if written.is_err() {
        out.truncate(before);
    }
    written
}
