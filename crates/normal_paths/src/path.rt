//! The steps from the root to a node.

ghost use Rattle.std.specs.Prelude.{◌≡◌, ◌+◌, ◌<◌, ◌≤◌, ◌++◌, ◌∷◌, [], IfOk, OnErr, length, decimal, reverse, take};
ghost use Rattle.std.specs.Vec.{vec_capacity};
ghost use Rattle.json_tape.specs.Document.{count, node_at};
ghost use Rattle.std.specs.List.{All};
ghost use Rattle.normal_paths.specs.NormalPath.{name_text, normal_path, path_limit};
ghost use Rattle.normal_paths.specs.Ways.{last_text, way_text, IsWay};

use crate::name::{name_length, write_name};
use itoa::Buffer;
use json_tape::laws::ways_are_short;
use json_tape::{Document, Lead, NodeId, Scalars};
use smallvec::SmallVec;
use std::alloc::{AllocError, Global};

// Most nodes lie no deeper than that.
const USUAL_DEPTH: usize = 32;

fn write_index(out: &mut Vec<u8>, index: u32) -> Result<(), AllocError>
    ensures written { IfOk result (λ _. out.new.items ≡ out.old.items ++ (91 ∷ (decimal index ++ 93 ∷ []))) }
    ensures kept { take (length out.old.items) out.new.items ≡ out.old.items }
    ensures capacity { vec_capacity out.old ≤ vec_capacity out.new }
{
    let mut buffer = Buffer::new();
    out.extend_from_slice(b"[")?;
    out.extend_from_slice(buffer.format(index).as_bytes())?;
    out.extend_from_slice(b"]")
}

fn write_key(out: &mut Vec<u8>, name: Scalars<'_>) -> Result<(), AllocError>
    ensures written { IfOk result (λ _. out.new.items ≡ out.old.items ++ (91 ∷ 39 ∷ (name_text name.entry ++ 39 ∷ 93 ∷ []))) }
    ensures kept { take (length out.old.items) out.new.items ≡ out.old.items }
    ensures capacity { vec_capacity out.old ≤ vec_capacity out.new }
{
    out.extend_from_slice(b"['")?;
    write_name(out, name)?;
    out.extend_from_slice(b"']")
}

// Appends what leads to a node from the one that it lies in.
fn write_step(doc: &Document, node: NodeId, out: &mut Vec<u8>) -> Result<(), AllocError>
    requires { node.0 < count doc.now }
    ensures written { IfOk result (λ _. out.new.items ≡ out.old.items ++ last_text (node_at doc.now node.0)) }
    ensures kept { take (length out.old.items) out.new.items ≡ out.old.items }
    ensures capacity { vec_capacity out.old ≤ vec_capacity out.new }
{
    match doc.lead(node) {
        Lead::Root => Ok(()),
        Lead::Index(index) => write_index(out, index),
        Lead::Name => write_key(out, doc.name_scalars(node)),
    }
}

// The node, the one that it lies in, and so on, without the root.
fn way_up(
    alloc: Global,
    doc: &Document,
    node: NodeId,
) -> Result<SmallVec<NodeId, USUAL_DEPTH>, AllocError>
    requires { node.0 < count doc.now }
    ensures { IfOk result (λ way. IsWay doc.now node way.items) }
{
    let mut way = SmallVec::new(alloc);
    let mut last = node;
    while let Some(parent) = doc.parent(last) {
        way.push(last)?;
        last = parent;
    }
    Ok(way)
}

fn write_way(
    doc: &Document,
    mut way: SmallVec<NodeId, USUAL_DEPTH>,
    out: &mut Vec<u8>,
) -> Result<(), AllocError>
    requires { All (λ node. node.0 < count doc.now) way.items }
    ensures written { IfOk result (λ _. out.new.items ≡ out.old.items ++ 36 ∷ way_text doc.now (reverse way.items)) }
    ensures kept { take (length out.old.items) out.new.items ≡ out.old.items }
    ensures capacity { vec_capacity out.old ≤ vec_capacity out.new }
{
    out.extend_from_slice(b"$")?;
    while let Some(node) = way.pop() {
        write_step(doc, node, out)?;
    }
    Ok(())
}

/// Appends the normalized path of a node in UTF-8, at most 6,291,457 bytes. If an allocation fails, the vector is unchanged.
pub fn write_path(
    alloc: Global,
    doc: &Document,
    node: NodeId,
    out: &mut Vec<u8>,
) -> Result<(), AllocError>
    requires { node.0 < count doc.now }
    ensures written { IfOk result (λ _. out.new.items ≡ out.old.items ++ normal_path (node_at doc.now node.0)) }
    ensures short { length out.new.items ≤ length out.old.items + path_limit }
    ensures unchanged { OnErr result (out.new.items ≡ out.old.items) }
    ensures capacity { vec_capacity out.old ≤ vec_capacity out.new }
{
    ways_are_short(doc);
    let way = way_up(alloc, doc, node)?;
    let before = out.len();
    let written = write_way(doc, way, out);
    if written.is_err() {
        out.truncate(before);
    }
    written
}

fn step_length(doc: &Document, node: NodeId) -> usize
    requires { node.0 < count doc.now }
    ensures length { result ≡ length (last_text (node_at doc.now node.0)) }
    ensures short { result ≤ path_limit + 3 }
{
    match doc.lead(node) {
        Lead::Root => 0,
        Lead::Index(index) => {
            let mut buffer = Buffer::new();
            buffer.format(index).len() + 2
        }
        Lead::Name => name_length(doc.name_scalars(node)) + 4,
    }
}

/// The length of a node's normalized path in bytes: at most one more than six times the length of the text.
pub fn path_length(doc: &Document, node: NodeId) -> usize
    requires { node.0 < count doc.now }
    ensures value { result ≡ length (normal_path (node_at doc.now node.0)) }
    ensures short { result ≤ path_limit }
{
    ways_are_short(doc);
    let mut total = 1;
    let mut last = node;
    while let Some(parent) = doc.parent(last) {
        total += step_length(doc, last);
        last = parent;
    }
    total
}
