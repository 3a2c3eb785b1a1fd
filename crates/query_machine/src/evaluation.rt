//! A query on a document: at once, or in shares between which nothing of the document is held.

ghost use Rattle.std.specs.Prelude.{◌≡◌, ◌≤◌, ◌∷◌, ◌++◌, [], Some, MatchResult};
ghost use Rattle.json_tape.specs.Document.{node_at, tree_of};
ghost use Rattle.node_lists.specs.Charge.{charge, charge_from};
ghost use Rattle.node_lists.specs.Evaluation.{nodes_selected};
ghost use Rattle.node_lists.specs.Nodelists.{nodes_of};
ghost use Rattle.node_lists.specs.Paying.{Holds, Inside, Refuses};
ghost use Rattle.query_plan.specs.Planned.{claims_of, numbered, query_of};
ghost use Rattle.query_machine.specs.Levels.{left_in, lowest, rest_of, Advances, Begun, IsOnWay};

use crate::levels::{Machine, Move, Origin, run_on, track_from};
use compared_sides::no_lengths;
use json_tape::{Document, NodeId};
use node_lists::{Meter, SelectFault};
use query_plan::Parts;
use std::alloc::Global;
use std::mem;
use tape_select::{Selected, State, empty_slots};

/// The beginning of an evaluation with so many units. Memory where a growth was refused.
pub fn begin(
    alloc: Global,
    plan: &Parts,
    doc: &Document,
    units: u64,
) -> Result<Machine, SelectFault>
    requires { numbered (claims_of plan.now.stages.items) 0 ≡ Some plan.now.slots }
    ensures { MatchResult result (λ machine. Begun doc.now plan.now units machine) (λ e. e ≡ SelectFault.Memory) }
{
    let slots = empty_slots(alloc, doc, plan)?;
    let from = doc.root();
    let track = track_from(alloc, doc, &plan.stages, from)?;
    let state = State {
        alloc,
        meter: Meter { left: units },
        slots,
        answers: Vec::new(alloc),
        lengths: no_lengths(alloc, doc),
        truths: Vec::new(alloc),
    };
    Ok(Machine {
        origin: Origin {
            slot: 0,
            from,
            units,
        },
        track,
        state,
        below: Vec::new(alloc),
    })
}

/// Goes on to the end, or until more than a share of units is spent. Whether it came to its end.
///
/// # Errors
///
/// Costly where the charge is above the units; Memory where a growth was refused. Then there is nothing to go on with.
pub fn advance(
    doc: &Document,
    plan: &Parts,
    units: u64,
    share: u64,
    machine: &mut Machine,
) -> Result<bool, SelectFault>
    requires numbered { numbered (claims_of plan.now.stages.items) 0 ≡ Some plan.now.slots }
    requires on_way { IsOnWay doc.now plan.now units (rest_of doc.now plan.now machine.old) machine.old }
    ensures { MatchResult result (λ ended. Advances doc.now plan.now units share ended machine.old machine.new) (λ e. Refuses (charge_from (node_at doc.now 0) (query_of plan.now.stages.items) (node_at doc.now 0 ∷ [])) units e) }
{
    let least = machine.state.meter.left.saturating_sub(share);
    for _ in 0..u64::MAX {
        match run_on(doc, plan, units, least, machine)? {
            Move::Ends => return Ok(true),
            Move::GoesOn => {}
            Move::Lost => return Err(SelectFault::Memory),
        }
        if machine.state.meter.left < least {
            return Ok(false);
        }
    }
    Err(SelectFault::Memory)
}

/// The nodes that a query selects from a document, in its order, with duplicates, and its charge.
///
/// # Errors
///
/// Costly where the charge is above the units; Memory where a growth was refused.
pub fn select(
    alloc: Global,
    plan: &Parts,
    doc: &Document,
    units: u64,
) -> Result<Selected, SelectFault>
    requires { numbered (claims_of plan.now.stages.items) 0 ≡ Some plan.now.slots }
    ensures { MatchResult result (λ s. Holds doc.now s.nodes.items (nodes_selected (tree_of doc.now) (query_of plan.now.stages.items)) × ((s.charge ≡ charge (tree_of doc.now) (query_of plan.now.stages.items)) × (s.charge ≤ units))) (λ e. Refuses (charge (tree_of doc.now) (query_of plan.now.stages.items)) units e) }
{
    let _ = doc.root();
    let mut machine = begin(alloc, plan, doc, units)?;
    if !advance(doc, plan, units, units, &mut machine)? {
        unreachable!()
    }
    let charge = units - machine.state.meter.left;
    let track = machine.track;
    Ok(Selected {
        nodes: track.out,
        charge,
    })
}

/// The nodes that were selected since the beginning, or since the last call. What remains follows on them.
pub fn take_out(
    alloc: Global,
    doc: &Document,
    plan: &Parts,
    units: u64,
    machine: &mut Machine,
) -> Vec<NodeId>
    requires { IsOnWay doc.now plan.now units (rest_of doc.now plan.now machine.old) machine.old }
    ensures all { result.items ≡ (lowest doc.now plan.now machine.old.below.items machine.old.track).out.items }
    ensures nodes { nodes_of doc.now result.items ++ rest_of doc.now plan.now machine.new ≡ rest_of doc.now plan.now machine.old }
    ensures inside { Inside doc.now result.items }
    ensures on_way { IsOnWay doc.now plan.now units (rest_of doc.now plan.now machine.new) machine.new }
    ensures left { left_in machine.new ≡ left_in machine.old }
{
    let _ = doc.root();
    let _ = plan;
    let _ = units;
    let empty = Vec::new(alloc);
    if machine.below.is_empty() {
        return mem::replace(&mut machine.track.out, empty);
    }
    mem::replace(&mut machine.below[0].track.out, empty)
}
