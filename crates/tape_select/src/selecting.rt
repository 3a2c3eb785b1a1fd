//! A whole query by the parts of its plan.

ghost use Rattle.std.specs.Prelude.{◌≡◌, ◌≤◌, Some, MatchResult};
ghost use Rattle.json_tape.specs.Document.{tree_of};
ghost use Rattle.node_lists.specs.Evaluation.{nodes_selected};
ghost use Rattle.node_lists.specs.Charge.{charge};
ghost use Rattle.tape_select.specs.Memo.{Right};
ghost use Rattle.node_lists.specs.Paying.{Holds, Refuses};
ghost use Rattle.query_plan.specs.Planned.{query_of, claims_of, numbered};

use crate::evaluation::all_selected;
use crate::state::{Kept, State};
use compared_sides::no_lengths;
use json_tape::{Document, NodeId};
use node_lists::{Meter, SelectFault};
use query_plan::{Parts, finds_slots};
use std::alloc::Global;

/// The nodes that a query selects, in its order, with duplicates, and what it is charged.
#[derive(Drop)]
pub struct Selected {
    pub nodes: Vec<NodeId>,
    pub charge: u64,
}

#[tactic(auto, using(crate::proofs::Slots::emptied))]
pub fn empty_slots(
    alloc: Global,
    doc: &Document,
    plan: &Parts,
) -> Result<Vec<Option<Kept>>, SelectFault>
    ensures { MatchResult result (λ slots. Right doc.now (claims_of plan.now.stages.items) slots.items) (λ e. e ≡ SelectFault.Memory) }
{
    let _ = doc;
    let mut slots: Vec<Option<Kept>> = Vec::new(alloc);
    for _ in 0..plan.slots {
        if slots.push(None).is_err() {
            return Err(SelectFault::Memory);
        }
    }
    Ok(slots)
}

/// The nodes that a query selects, where its charge is within the units.
#[tactic(auto, using(crate::proofs::Slots::claimed))]
pub fn select_all(
    alloc: Global,
    plan: &Parts,
    doc: &Document,
    units: u64,
) -> Result<Selected, SelectFault>
    requires { numbered (claims_of plan.now.stages.items) 0 ≡ Some plan.now.slots }
    ensures { MatchResult result (λ s. Holds doc.now s.nodes.items (nodes_selected (tree_of doc.now) (query_of plan.now.stages.items)) × ((s.charge ≡ charge (tree_of doc.now) (query_of plan.now.stages.items)) × (s.charge ≤ units))) (λ e. Refuses (charge (tree_of doc.now) (query_of plan.now.stages.items)) units e) }
{
    finds_slots();
    let slots = empty_slots(alloc, doc, plan)?;
    let mut state = State {
        alloc,
        meter: Meter { left: units },
        slots,
        answers: Vec::new(alloc),
        lengths: no_lengths(alloc, doc),
        truths: Vec::new(alloc),
    };
    let nodes = all_selected(doc, plan, &plan.stages, doc.root(), &mut state)?;
    Ok(Selected {
        nodes,
        charge: units - state.meter.left,
    })
}
