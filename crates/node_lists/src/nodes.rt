//! Steps that add nodes. They pay what they are charged beyond the unit that each selector costs, which is paid in front of them.

ghost use Rattle.std.specs.Prelude.{◌≡◌, ◌<◌, ◌≤◌, ◌+◌, ◌∷◌, [], ◌++◌, length, vec_len, vec_capacity, MatchResult};
ghost use Rattle.json_tape.specs.Cells.{is_container as is_container_kind};
ghost use Rattle.json_tape.specs.Document.{count, kind_of, node_at, single, IsIn};
ghost use Rattle.json_tape.specs.Nodes.{children};
ghost use Rattle.node_lists.specs.Nodelists.{nodes_of, children_between};
ghost use Rattle.node_lists.specs.Paying.{Inside, Holds, Adds};

use crate::fault::SelectFault;
use crate::meter::Meter;
use json_tape::{Children, Document, Kind, NodeId};
use std::alloc::Global;

/// One node more.
#[tactic(auto, using(crate::proofs::Adding::adding))]
pub fn push(doc: &Document, out: &mut Vec<NodeId>, n: NodeId) -> Result<(), SelectFault>
    requires inside { n.0 < count doc.now }
    requires sound { Inside doc.now out.old.items }
    ensures { MatchResult result (λ _. Holds doc.now out.new.items (nodes_of doc.now out.old.items ++ node_at doc.now n.0 ∷ [])) (λ e. e ≡ SelectFault.Memory) }
{
    let _ = doc;
    if out.push(n).is_err() {
        return Err(SelectFault::Memory);
    }
    Ok(())
}

/// The node, where there is one.
#[tactic(auto, using(crate::proofs::Adding::adding))]
pub fn push_some(
    doc: &Document,
    out: &mut Vec<NodeId>,
    node: Option<NodeId>,
) -> Result<(), SelectFault>
    requires inside { IsIn doc.now node }
    requires sound { Inside doc.now out.old.items }
    ensures { MatchResult result (λ _. Holds doc.now out.new.items (nodes_of doc.now out.old.items ++ single doc.now node)) (λ e. e ≡ SelectFault.Memory) }
{
    match node {
        None => Ok(()),
        Some(found) => push(doc, out, found),
    }
}

/// A list of one node.
#[tactic(auto, using(crate::proofs::Adding::adding))]
pub fn lone(alloc: Global, doc: &Document, n: NodeId) -> Result<Vec<NodeId>, SelectFault>
    requires { n.0 < count doc.now }
    ensures { MatchResult result (λ v. Holds doc.now v.items (node_at doc.now n.0 ∷ [])) (λ e. e ≡ SelectFault.Memory) }
{
    let mut nodes = Vec::new(alloc);
    push(doc, &mut nodes, n)?;
    Ok(nodes)
}

/// How many children there are.
#[tactic(auto, using(crate::proofs::Totals::totals))]
pub fn child_total(doc: &Document, n: NodeId) -> u32
    requires { n.0 < count doc.now }
    ensures { result ≡ length (children (node_at doc.now n.0)) }
{
    match doc.kind(n) {
        Kind::Array | Kind::Object => match doc.length(n) {
            Some(total) => total,
            None => 0,
        },
        Kind::Null | Kind::Bool(_) | Kind::Number | Kind::Text => 0,
    }
}

/// All children.
pub fn wild(
    doc: &Document,
    n: NodeId,
    meter: &mut Meter,
    out: &mut Vec<NodeId>,
) -> Result<(), SelectFault>
    requires inside { n.0 < count doc.now }
    requires sound { Inside doc.now out.old.items }
    ensures { Adds doc.now result out.new.items (nodes_of doc.now out.old.items ++ children (node_at doc.now n.0)) (length (children (node_at doc.now n.0))) meter.old.left meter.new.left }
{
    let total = child_total(doc, n);
    meter.spend(u64::from(total))?;
    reserve(out, total)?;
    push_children(doc, n, out);
    Ok(())
}

/// Room for so many nodes more.
pub fn reserve(out: &mut Vec<NodeId>, more: u32) -> Result<(), SelectFault>
    ensures same { out.new.items ≡ out.old.items }
    ensures room { MatchResult result (λ _. vec_len out.old + more ≤ vec_capacity out.new) (λ e. e ≡ SelectFault.Memory) }
{
    if out.reserve(more as usize).is_err() {
        return Err(SelectFault::Memory);
    }
    Ok(())
}

// Whether a node is an array or an object.
#[inline(always)]
fn is_container(doc: &Document, n: NodeId) -> bool
    requires { n.0 < count doc.now }
    ensures { result ≡ is_container_kind (kind_of (node_at doc.now n.0).tree) }
{
    matches!(doc.kind(n), Kind::Array | Kind::Object)
}

// The first children, up to an array or an object. Returns the number behind those before it.
#[inline(always)]
#[tactic(auto, using(crate::proofs::Adding::adding))]
fn push_leaves(doc: &Document, left: &mut Children<'_>, from: u32, out: &mut Vec<NodeId>) -> u32
    requires ahead { Inside doc.now left.old }
    requires sound { Inside doc.now out.old.items }
    requires room { vec_len out.old + length left.old ≤ vec_capacity out.old }
    ensures added { nodes_of doc.now out.new.items ++ nodes_of doc.now left.new ≡ nodes_of doc.now out.old.items ++ nodes_of doc.now left.old }
    ensures ahead { Inside doc.now left.new }
    ensures sound { Inside doc.now out.new.items }
    ensures room { vec_len out.new + length left.new ≤ vec_capacity out.new }
    ensures capacity { vec_capacity out.new ≡ vec_capacity out.old }
    ensures past { from ≤ result }
    ensures childless { children_between doc.now from result ≡ [] }
{
    let mut next = from;
    while let Some(child) = left.next() {
        let after = doc.after(child);
        let holds_others = is_container(doc, child);
        out.push_reserved(child);
        if child.0 != next || holds_others {
            return next;
        }
        next = after;
    }
    next
}

/// The children of a node, for which there is room. Returns a number behind the node's: none in between has children.
#[inline(always)]
#[tactic(auto, using(crate::proofs::Adding::adding))]
pub fn push_children(doc: &Document, n: NodeId, out: &mut Vec<NodeId>) -> u32
    requires inside { n.0 < count doc.now }
    requires sound { Inside doc.now out.old.items }
    requires room { vec_len out.old + length (children (node_at doc.now n.0)) ≤ vec_capacity out.old }
    ensures added { Holds doc.now out.new.items (nodes_of doc.now out.old.items ++ children (node_at doc.now n.0)) }
    ensures capacity { vec_capacity out.new ≡ vec_capacity out.old }
    ensures past { n.0 < result }
    ensures childless { children_between doc.now (n.0 + 1) result ≡ [] }
{
    let _ = doc.root();
    let mut left = doc.children(n);
    let next = push_leaves(doc, &mut left, n.0 + 1, out);
    for child in left {
        out.push_reserved(child);
    }
    next
}
