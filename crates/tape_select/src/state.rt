//! What an evaluation keeps: what was found for queries in filters.

ghost use Rattle.std.specs.Prelude.{◌≡◌, ◌<◌, length, IfSome};
ghost use Rattle.json_tape.specs.Document.{count, node_at, IsIn};
ghost use Rattle.tape_values.specs.Functions.{only_value};
ghost use Rattle.node_lists.specs.Evaluation.{start};
ghost use Rattle.node_lists.specs.Nodelists.{nodes_of};
ghost use Rattle.node_lists.specs.Paying.{Inside};
ghost use Rattle.tape_select.specs.Memo.{Right, IsKept, IsFoundAt, FindsNodes};
ghost use Rattle.compared_sides.specs.Values.{value_found};
ghost use Rattle.query_plan.specs.Planned.{claims_of, look};
ghost use Rattle.node_lists.specs.Links.{links_view};

use compared_sides::{Compared, Lengths};
use json_tape::{Document, NodeId};
use node_lists::{Link, Meter, SelectFault, followed};
use query_plan::Parts;
use std::alloc::Global;

/// What is asked of a query's nodelist, and what finding it is charged.
#[derive(Clone, Copy)]
pub struct Found {
    /// The node, where there is exactly one.
    pub only: Option<NodeId>,
    /// How many nodes there are.
    pub total: usize,
    pub charge: u64,
}

/// What was found for a query, and the node that it was found from: the root, or a child.
#[derive(Clone, Copy)]
pub struct Kept {
    pub from: NodeId,
    pub found: Found,
}

/// The units that are left, a slot for each query that is kept, and comparisons, lengths and truths that were found.
#[derive(Drop)]
pub struct State {
    pub alloc: Global,
    pub meter: Meter,
    /// What was found last for each of the queries.
    pub slots: Vec<Option<Kept>>,
    pub answers: Vec<Option<Compared>>,
    pub lengths: Lengths,
    /// For each slot of a condition its truths, by cells.
    pub truths: Vec<Vec<Option<bool>>>,
}

// What the slot holds.
#[inline(always)]
#[tactic(auto, using(crate::proofs::Slots::slots))]
fn kept_in(doc: &Document, plan: &Parts, slots: &[Option<Kept>], slot: u32) -> Option<Kept>
    requires { Right doc.now (claims_of plan.now.stages.items) slots.now }
    ensures { IsKept doc.now (look (claims_of plan.now.stages.items) slot) result }
{
    let _ = doc;
    let _ = plan;
    if (slot as usize) < slots.len() {
        slots[slot as usize]
    } else {
        None
    }
}

/// What the slot holds, where it was found from this node.
#[inline(always)]
#[tactic(auto, using(crate::proofs::Slots::from_node))]
pub fn recall(
    doc: &Document,
    plan: &Parts,
    slots: &[Option<Kept>],
    slot: u32,
    n: NodeId,
) -> Option<Found>
    requires right { Right doc.now (claims_of plan.now.stages.items) slots.now }
    ensures { IfSome result (λ found. IsFoundAt doc.now (look (claims_of plan.now.stages.items) slot) (node_at doc.now n.0) found) }
{
    let kept = kept_in(doc, plan, slots, slot)?;
    if kept.from.0 == n.0 {
        Some(kept.found)
    } else {
        None
    }
}

/// Keeps what was found from a node.
#[tactic(auto, using(crate::proofs::Slots::slots))]
pub fn keep_found(
    doc: &Document,
    plan: &Parts,
    slots: &mut [Option<Kept>],
    slot: u32,
    n: NodeId,
    found: Found,
)
    requires right { Right doc.now (claims_of plan.now.stages.items) slots.old }
    requires found { IsFoundAt doc.now (look (claims_of plan.now.stages.items) slot) (node_at doc.now n.0) found }
    ensures { Right doc.now (claims_of plan.now.stages.items) slots.new }
{
    let _ = doc;
    let _ = plan;
    if (slot as usize) < slots.len() {
        slots[slot as usize] = Some(Kept { from: n, found });
    }
}

/// Where a query in a filter begins: at the root, or at the child.
#[inline(always)]
pub fn beginning(doc: &Document, from_root: bool, child: NodeId) -> NodeId
    requires { child.0 < count doc.now }
    ensures inside { result.0 < count doc.now }
    ensures begins { node_at doc.now result.0 ≡ start (node_at doc.now 0) from_root (node_at doc.now child.0) }
{
    if from_root { doc.root() } else { child }
}

/// What is asked of a nodelist that was charged so much.
#[tactic(auto, using(crate::proofs::Found::lists))]
pub fn found_in(doc: &Document, nodes: &[NodeId], charge: u64) -> Found
    requires { Inside doc.now nodes.now }
    ensures value { only_value (nodes_of doc.now nodes.now) ≡ value_found doc.now result.only }
    ensures inside { IsIn doc.now result.only }
    ensures total { result.total ≡ length (nodes_of doc.now nodes.now) }
    ensures charge { result.charge ≡ charge }
{
    let _ = doc;
    let only = match nodes {
        [n] => Some(*n),
        _ => None,
    };
    Found {
        only,
        total: nodes.len(),
        charge,
    }
}

/// What names and indexes find from a node.
#[inline(always)]
pub fn found_by_links(
    doc: &Document,
    links: &[Link],
    n: NodeId,
    meter: &mut Meter,
) -> Result<Found, SelectFault>
    requires inside { n.0 < count doc.now }
    ensures { FindsNodes doc.now result (links_view links.now) (node_at doc.now n.0) meter.old.left meter.new.left }
{
    let units = meter.left;
    let only = followed(doc, links, n, meter)?;
    let total = if only.is_some() { 1 } else { 0 };
    Ok(Found {
        only,
        total,
        charge: units - meter.left,
    })
}
