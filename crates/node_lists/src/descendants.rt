//! Segments that select by a lone name or wildcard from a node and all its descendants (RFC 9535, section 2.5.2).

ghost use Rattle.std.specs.Prelude.{◌≡◌, ◌<◌, ◌≤◌, ◌+◌, ◌++◌, length, flat_map, vec_len, vec_capacity, MatchResult};
ghost use Rattle.json_tape.specs.Document.{count, node_at};
ghost use Rattle.json_tape.specs.Nodes.{children, visit};
ghost use Rattle.path_grammar.specs.Tree.{selector, no_selectors, name};
ghost use Rattle.node_lists.specs.Evaluation.{selected};
ghost use Rattle.node_lists.specs.Nodelists.{nodes_of};
ghost use Rattle.node_lists.specs.Paying.{Inside, Holds, Adds};

use crate::fault::SelectFault;
use crate::meter::Meter;
use crate::nodes::{push_children, push_some, reserve};
use json_tape::{Document, Kind, NodeId};
use path_meaning::Name;

/// The members of this name of a node and of all its descendants, of which most are no objects.
#[tactic(auto, using(crate::proofs::Naming::looking))]
pub fn named(
    doc: &Document,
    wanted: &Name,
    n: NodeId,
    out: &mut Vec<NodeId>,
) -> Result<(), SelectFault>
    requires inside { n.0 < count doc.now }
    requires sound { Inside doc.now out.old.items }
    ensures { MatchResult result (λ _. Holds doc.now out.new.items (nodes_of doc.now out.old.items ++ flat_map (selected (node_at doc.now 0) (selector (name wanted.now.scalars.items) no_selectors)) (visit (node_at doc.now n.0)))) (λ e. e ≡ SelectFault.Memory) }
{
    let end = doc.after(n);
    for k in n.0..end {
        let node = NodeId(k);
        if let Kind::Object = doc.kind(node) {
            push_some(doc, out, doc.member(node, &wanted.scalars))?;
        }
    }
    Ok(())
}

/// How many nodes there are from a node on to the last below it.
#[tactic(auto, using(crate::proofs::Visits::visit_length))]
pub fn visit_total(doc: &Document, n: NodeId) -> u32
    requires { n.0 < count doc.now }
    ensures { result ≡ length (visit (node_at doc.now n.0)) }
{
    let after = doc.after(n);
    after - n.0
}

/// How many nodes there are below a node. Each is the child of one.
#[tactic(auto, using(crate::proofs::Below::below_total))]
pub fn below_total(doc: &Document, n: NodeId) -> u32
    requires { n.0 < count doc.now }
    ensures { result ≡ length (flat_map children (visit (node_at doc.now n.0))) }
{
    doc.after(n) - n.0 - 1
}

// The children of a node and of all its descendants, for which there is room. Those without children are passed by.
fn push_below(doc: &Document, n: NodeId, out: &mut Vec<NodeId>)
    requires inside { n.0 < count doc.now }
    requires sound { Inside doc.now out.old.items }
    requires room { vec_len out.old + length (flat_map children (visit (node_at doc.now n.0))) ≤ vec_capacity out.old }
    ensures { Holds doc.now out.new.items (nodes_of doc.now out.old.items ++ flat_map children (visit (node_at doc.now n.0))) }
{
    let end = doc.after(n);
    let mut k = n.0;
    while k < end {
        k = push_children(doc, NodeId(k), out);
    }
}

/// The children of a node and of all its descendants.
pub fn children_below(
    doc: &Document,
    n: NodeId,
    meter: &mut Meter,
    out: &mut Vec<NodeId>,
) -> Result<(), SelectFault>
    requires inside { n.0 < count doc.now }
    requires sound { Inside doc.now out.old.items }
    ensures { Adds doc.now result out.new.items (nodes_of doc.now out.old.items ++ flat_map children (visit (node_at doc.now n.0))) (length (flat_map children (visit (node_at doc.now n.0)))) meter.old.left meter.new.left }
{
    let total = below_total(doc, n);
    meter.spend(u64::from(total))?;
    reserve(out, total)?;
    push_below(doc, n, out);
    Ok(())
}
