//! Where the nodes go that a segment selects.

ghost use Rattle.std.specs.Prelude.{◌≡◌, ◌<◌, ◌≤◌, ◌+◌, ◌∷◌, [], length, MatchResult, map, IfOk, IfSome, IsTrue};
ghost use Rattle.json_tape.specs.Document.{count, node_at};
ghost use Rattle.node_lists.specs.Charge.{charge_from};
ghost use Rattle.node_lists.specs.Extra.{charge_at};
ghost use Rattle.node_lists.specs.Paying.{Inside, Refuses};
ghost use Rattle.path_grammar.specs.Tree.{selectors_of};
ghost use Rattle.query_plan.specs.Planned.{claims_of, selection_view, stage_view, trees};
ghost use Rattle.query_plan.specs.Slots.{AreClaimed};
ghost use Rattle.tape_select.specs.Memo.{Keeps};
ghost use Rattle.query_machine.specs.Cursors.{AreUnasked, Takes};
ghost use Rattle.query_machine.specs.Stacks.{after, segments_in, Follows, Puts};

use crate::cursor::condition_of;
use json_tape::{Document, NodeId};
use node_lists::{Meter, SelectFault, below_total, child_total, push, step, visit_total};
use query_plan::{Parts, Selection, Stage, lone_link};
use tape_select::{State, from_node};

// Follows a node through the segments behind this one that are lone names or indexes, until fewer units are left. The number of the last of them, and
// the node that it leads to.
fn followed_on(
    doc: &Document,
    stages: &[Stage],
    number: usize,
    least: u64,
    n: NodeId,
    meter: &mut Meter,
) -> Result<(usize, Option<NodeId>), SelectFault>
    requires inside { n.0 < count doc.now }
    requires number { number < length stages.now }
    ensures follows { MatchResult result (λ to. Follows doc.now (segments_in stages.now) number (node_at doc.now n.0) to.0 to.1 meter.old.left meter.new.left) (λ e. Refuses (charge_from (node_at doc.now 0) (after doc.now (segments_in stages.now) number) (node_at doc.now n.0 ∷ [])) meter.old.left e) }
    ensures number { IfOk result (λ to. to.0 < length stages.now) }
    ensures little { IfOk result (λ _. least ≤ meter.old.left → least ≤ meter.new.left + 1) }
    ensures still { IfOk result (λ _. meter.old.left < least → meter.new.left ≡ meter.old.left) }
{
    let mut at = number;
    let mut node = n;
    while at + 1 < stages.len() {
        if meter.left < least {
            break;
        }
        let Some(link) = lone_link(&stages[at + 1]) else {
            break;
        };
        meter.spend(1)?;
        at += 1;
        match step(doc, link, node) {
            None => return Ok((at, None)),
            Some(found) => node = found,
        }
    }
    Ok((at, Some(node)))
}

// Whether no selector asks children.
fn are_unasked(selections: &[Selection]) -> bool
    ensures { IsTrue result → AreUnasked (selectors_of (trees (map selection_view selections.now))) }
{
    for selection in selections {
        if condition_of(selection).is_some() {
            return false;
        }
    }
    true
}

// The most that a segment is charged for what it selects from a node. None where it asks children.
fn most_units(doc: &Document, stage: &Stage, n: NodeId) -> Option<u64>
    requires { n.0 < count doc.now }
    ensures { IfSome result (λ most. charge_at (node_at doc.now 0) (stage_view stage.now).tree (node_at doc.now n.0) ≤ most) }
{
    if !are_unasked(&stage.selections) {
        return None;
    }
    let nodes = if stage.descend {
        u64::from(visit_total(doc, n)) + u64::from(below_total(doc, n))
    } else {
        1 + u64::from(child_total(doc, n))
    };
    (stage.selections.len() as u64).checked_mul(nodes)
}

/// All that a segment selects from a node is out, where it asks no children and the units certainly suffice. Whether it is.
pub fn take_whole(
    doc: &Document,
    plan: &Parts,
    stage: &Stage,
    least: u64,
    n: NodeId,
    out: &mut Vec<NodeId>,
    state: &mut State,
) -> Result<bool, SelectFault>
    requires inside { n.0 < count doc.now }
    requires claimed { AreClaimed (claims_of plan.now.stages.items) (stage_view stage.now).claims }
    requires kept { Keeps doc.now (claims_of plan.now.stages.items) state.old }
    requires sound { Inside doc.now out.old.items }
    ensures takes { MatchResult result (λ taken. Takes doc.now (stage_view stage.now).tree (node_at doc.now n.0) taken out.old.items out.new.items state.old.meter.left state.new.meter.left) (λ e. Refuses (charge_at (node_at doc.now 0) (stage_view stage.now).tree (node_at doc.now n.0)) state.old.meter.left e) }
    ensures least { IfOk result (λ _. least ≤ state.old.meter.left → least ≤ state.new.meter.left) }
    ensures still { IfOk result (λ _. state.old.meter.left < least → state.new.meter.left ≡ state.old.meter.left) }
    ensures kept { Keeps doc.now (claims_of plan.now.stages.items) state.new }
{
    let room = state.meter.left.saturating_sub(least);
    let Some(most) = most_units(doc, stage, n) else {
        return Ok(false);
    };
    if room < most {
        return Ok(false);
    }
    from_node(doc, plan, stage, n, state, out)?;
    Ok(true)
}

/// A node that a segment selected is out, or all that is selected from it. Or the segment with this number selected this node, from which a cursor goes on.
pub fn put(
    doc: &Document,
    plan: &Parts,
    stages: &[Stage],
    number: usize,
    least: u64,
    n: NodeId,
    out: &mut Vec<NodeId>,
    state: &mut State,
) -> Result<Option<(usize, NodeId)>, SelectFault>
    requires inside { n.0 < count doc.now }
    requires number { number < length stages.now }
    requires sound { Inside doc.now out.old.items }
    requires claimed { AreClaimed (claims_of plan.now.stages.items) (claims_of stages.now) }
    requires kept { Keeps doc.now (claims_of plan.now.stages.items) state.old }
    ensures puts { MatchResult result (λ rest. Puts doc.now (segments_in stages.now) number (node_at doc.now n.0 ∷ []) rest out.old.items out.new.items state.old.meter.left state.new.meter.left) (λ e. Refuses (charge_from (node_at doc.now 0) (after doc.now (segments_in stages.now) number) (node_at doc.now n.0 ∷ [])) state.old.meter.left e) }
    ensures little { IfOk result (λ _. least ≤ state.old.meter.left → least ≤ state.new.meter.left + 1) }
    ensures still { IfOk result (λ _. state.old.meter.left < least → state.new.meter.left ≡ state.old.meter.left) }
    ensures kept { Keeps doc.now (claims_of plan.now.stages.items) state.new }
{
    let (at, found) = followed_on(doc, stages, number, least, n, &mut state.meter)?;
    let Some(node) = found else {
        return Ok(None);
    };
    let next = at + 1;
    if next >= stages.len() {
        push(doc, out, node)?;
        return Ok(None);
    }
    if next + 1 == stages.len() {
        if take_whole(doc, plan, &stages[next], least, node, out, state)? {
            return Ok(None);
        }
    }
    Ok(Some((at, node)))
}
