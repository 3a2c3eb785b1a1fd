//! Evaluation by a plan.

ghost use Rattle.std.specs.Prelude.{◌≡◌, ◌<◌, ◌+◌, ◌*◌, ◌∷◌, [], ◌++◌, length, map, flat_map, filter, Some, IsTrue};
ghost use Rattle.json_tape.specs.Document.{count, node_at};
ghost use Rattle.json_tape.specs.Nodes.{children, visit};
ghost use Rattle.path_grammar.specs.Tree.{exprs_of, selectors_of};
ghost use Rattle.decisions.specs.Tree.{expr_of, listed};
ghost use Rattle.decisions.specs.Views.{test_view};
ghost use Rattle.decisions.specs.Decided.{is_told_on};
ghost use Rattle.node_lists.specs.Evaluation.{evaluated, selected, selected_by, holds, some_hold, all_hold, result as side_result};
ghost use Rattle.node_lists.specs.Links.{link_view};
ghost use Rattle.node_lists.specs.Nodelists.{nodes_of};
ghost use Rattle.node_lists.specs.Charge.{total_of, charge_from, charge_expr, charge_exprs, charge_side};
ghost use Rattle.node_lists.specs.Extra.{extra_in, extra_by, nodes_from, charge_at, nodes_after, charge_after};
ghost use Rattle.node_lists.specs.Paying.{Inside, Pays, Adds, Finds, FindsList};
ghost use Rattle.query_plan.specs.Planned.{a_query, a_condition, trees, joined, query_of, path_of, claims_of, all_claims, look, condition_view, operand_view, selection_view, nested_view, stage_view};
ghost use Rattle.query_plan.specs.Slots.{AreClaimed};
ghost use Rattle.tape_select.specs.Memo.{FindsNodes, FindsFor, FindsSide, Keeps};

use crate::state::{Found, State, beginning, found_by_links, found_in, keep_found, recall};
use crate::truths::{keep_truth, known_truth};
use compared_sides::{
    cell_of, compare, compare_length, decision_holds, length_of, related, side_found,
};
use decisions::{Decision, Scale, tells_as_compared, tells_by_marks};
use json_tape::{Document, NodeId};
use node_lists::{
    Link, SelectFault, child_total, children_below, followed, lone, named, push, push_some,
    selectors_pay_in_parts, sliced, step, stepped, visit_total, wild,
};
use query_plan::{
    Condition, Nested, Operand, Parts, Selection, Stage, follows_links, is_wild, lone_link,
    means_conditions, only_link, units_of,
};
use std::slice::from_ref;
use tape_values::{Side, compare_found};

// The children for which a condition holds.
#[cycle(evaluation)]
#[tactic(auto, using(crate::proofs::Filtering::filtering))]
fn filtered(
    doc: &Document,
    plan: &Parts,
    condition: &Condition,
    n: NodeId,
    state: &mut State,
    out: &mut Vec<NodeId>,
) -> Result<(), SelectFault>
    requires inside { n.0 < count doc.now }
    requires claimed { AreClaimed (claims_of plan.now.stages.items) (condition_view condition.now).claims }
    requires kept { Keeps doc.now (claims_of plan.now.stages.items) state.old }
    requires sound { Inside doc.now out.old.items }
    ensures added { Adds doc.now result out.new.items (nodes_of doc.now out.old.items ++ filter (holds (node_at doc.now 0) (condition_view condition.now).tree) (children (node_at doc.now n.0))) (2 * length (children (node_at doc.now n.0)) + total_of (charge_expr (node_at doc.now 0) (condition_view condition.now).tree) (children (node_at doc.now n.0))) state.old.meter.left state.new.meter.left }
    ensures kept { Keeps doc.now (claims_of plan.now.stages.items) state.new }
{
    state.meter.spend_each(2, u64::from(child_total(doc, n)))?;
    for child in doc.children(n) {
        if does_hold(doc, plan, condition, child, state)? {
            push(doc, out, child)?;
        }
    }
    Ok(())
}

// Whether a condition holds for a child. A comparison with a literal, as most are, takes no call.
#[cycle(evaluation)]
#[inline(always)]
pub fn does_hold(
    doc: &Document,
    plan: &Parts,
    condition: &Condition,
    child: NodeId,
    state: &mut State,
) -> Result<bool, SelectFault>
    requires inside { child.0 < count doc.now }
    requires claimed { AreClaimed (claims_of plan.now.stages.items) (condition_view condition.now).claims }
    requires kept { Keeps doc.now (claims_of plan.now.stages.items) state.old }
    ensures found { Finds result (holds (node_at doc.now 0) (condition_view condition.now).tree (node_at doc.now child.0)) (charge_expr (node_at doc.now 0) (condition_view condition.now).tree (node_at doc.now child.0)) state.old.meter.left state.new.meter.left }
    ensures kept { Keeps doc.now (claims_of plan.now.stages.items) state.new }
{
    match condition {
        Condition::Compare(Operand::Single(query), op, Operand::Constant(constant)) => {
            let found = found(doc, plan, query, child, state)?;
            Ok(compare_found(doc, found.only, op, &constant.literal))
        }
        Condition::Compare(Operand::Length(operand), op, Operand::Constant(constant)) => {
            let side = side_of(doc, plan, operand, child, state)?;
            Ok(compare_length(doc, side, op, constant, &mut state.lengths))
        }
        _ => holds_by_kind(doc, plan, condition, child, state),
    }
}

// Whether a condition of any kind holds for a child.
#[cycle(evaluation)]
#[inline(never)]
#[tactic(auto, using(crate::proofs::Filtering::holding))]
fn holds_by_kind(
    doc: &Document,
    plan: &Parts,
    condition: &Condition,
    child: NodeId,
    state: &mut State,
) -> Result<bool, SelectFault>
    requires inside { child.0 < count doc.now }
    requires claimed { AreClaimed (claims_of plan.now.stages.items) (condition_view condition.now).claims }
    requires kept { Keeps doc.now (claims_of plan.now.stages.items) state.old }
    ensures found { Finds result (holds (node_at doc.now 0) (condition_view condition.now).tree (node_at doc.now child.0)) (charge_expr (node_at doc.now 0) (condition_view condition.now).tree (node_at doc.now child.0)) state.old.meter.left state.new.meter.left }
    ensures kept { Keeps doc.now (claims_of plan.now.stages.items) state.new }
{
    match condition {
        Condition::Any(operands) => some_hold(doc, plan, operands, child, state),
        Condition::Each(operands) => all_hold(doc, plan, operands, child, state),
        Condition::Not(operand) => {
            let held = does_hold(doc, plan, operand, child, state)?;
            Ok(!held)
        }
        Condition::Compare(left, op, right) => {
            let left = side_of(doc, plan, left, child, state)?;
            let right = side_of(doc, plan, right, child, state)?;
            Ok(compare(doc, *op, &left, &right, &mut state.answers))
        }
        Condition::Exists(query) => {
            let found = found(doc, plan, query, child, state)?;
            Ok(found.total != 0)
        }
        Condition::Decided(operand, decision) => {
            decided(doc, plan, operand, decision, child, state)
        }
        Condition::Remembered(slot, scale, operand) => {
            remembered(doc, plan, *slot, scale, operand, child, state)
        }
        Condition::Joined(is_any, numbers, parts) => {
            joined_hold(doc, plan, *is_any, numbers, parts, child, state)
        }
    }
}

// Whether a condition that is told on a scale holds: found once for each cell.
#[cycle(evaluation)]
#[inline(never)]
fn remembered(
    doc: &Document,
    plan: &Parts,
    slot: u32,
    scale: &Scale,
    condition: &Condition,
    child: NodeId,
    state: &mut State,
) -> Result<bool, SelectFault>
    requires inside { child.0 < count doc.now }
    requires claimed { AreClaimed (claims_of plan.now.stages.items) (condition_view condition.now).claims }
    requires told { IsTrue (is_told_on scale.now (condition_view condition.now).tree) }
    requires mine { look (claims_of plan.now.stages.items) slot ≡ Some (a_condition scale.now (condition_view condition.now).tree) }
    requires kept { Keeps doc.now (claims_of plan.now.stages.items) state.old }
    ensures found { Finds result (holds (node_at doc.now 0) (condition_view condition.now).tree (node_at doc.now child.0)) (charge_expr (node_at doc.now 0) (condition_view condition.now).tree (node_at doc.now child.0)) state.old.meter.left state.new.meter.left }
    ensures kept { Keeps doc.now (claims_of plan.now.stages.items) state.new }
{
    tells_as_compared();
    tells_by_marks();
    let Some(cell) = cell_of(doc, scale, child, &mut state.lengths, &mut state.answers) else {
        return holds_by_kind(doc, plan, condition, child, state);
    };
    if let Some(held) = known_truth(doc, plan, &state.truths, slot, cell) {
        return Ok(held);
    }
    let held = holds_by_kind(doc, plan, condition, child, state)?;
    keep_truth(state.alloc, doc, plan, &mut state.truths, slot, cell, held);
    Ok(held)
}

// Whether one of the operands of all parts holds, or each.
#[cycle(evaluation)]
#[inline(never)]
#[tactic(auto, using(crate::proofs::Filtering::joining))]
fn joined_hold(
    doc: &Document,
    plan: &Parts,
    is_any: bool,
    numbers: &[usize],
    parts: &[Condition],
    child: NodeId,
    state: &mut State,
) -> Result<bool, SelectFault>
    requires inside { child.0 < count doc.now }
    requires claimed { AreClaimed (claims_of plan.now.stages.items) (all_claims (map condition_view parts.now)) }
    requires kept { Keeps doc.now (claims_of plan.now.stages.items) state.old }
    ensures found { Finds result (holds (node_at doc.now 0) (listed is_any (joined is_any numbers.now (trees (map condition_view parts.now)))) (node_at doc.now child.0)) (charge_expr (node_at doc.now 0) (listed is_any (joined is_any numbers.now (trees (map condition_view parts.now)))) (node_at doc.now child.0)) state.old.meter.left state.new.meter.left }
    ensures kept { Keeps doc.now (claims_of plan.now.stages.items) state.new }
{
    means_conditions();
    let _ = numbers;
    if is_any {
        return some_hold(doc, plan, parts, child, state);
    }
    all_hold(doc, plan, parts, child, state)
}

// Whether a decided condition holds. Its side is evaluated once, and charged as often as it is written.
#[cycle(evaluation)]
#[inline(never)]
fn decided(
    doc: &Document,
    plan: &Parts,
    operand: &Operand,
    decision: &Decision,
    child: NodeId,
    state: &mut State,
) -> Result<bool, SelectFault>
    requires inside { child.0 < count doc.now }
    requires claimed { AreClaimed (claims_of plan.now.stages.items) (operand_view operand.now).claims }
    requires kept { Keeps doc.now (claims_of plan.now.stages.items) state.old }
    ensures found { Finds result (holds (node_at doc.now 0) (expr_of (operand_view operand.now).tree (test_view decision.now)) (node_at doc.now child.0)) (charge_expr (node_at doc.now 0) (expr_of (operand_view operand.now).tree (test_view decision.now)) (node_at doc.now child.0)) state.old.meter.left state.new.meter.left }
    ensures kept { Keeps doc.now (claims_of plan.now.stages.items) state.new }
{
    means_conditions();
    tells_as_compared();
    let relation = related(doc, decision, child, &mut state.answers);
    let times = decision.uses();
    if times == 0 {
        return Ok(decision_holds(doc, decision, Side::Nothing, relation));
    }
    let before = state.meter.left;
    let side = side_of(doc, plan, operand, child, state)?;
    let once = before - state.meter.left;
    state.meter.spend_each(u64::from(times - 1), once)?;
    Ok(decision_holds(doc, decision, side, relation))
}

// Pays what a condition is charged that cannot change the answer: without a look at the child where that is the same for all.
#[cycle(evaluation)]
#[inline(always)]
fn pass_by(
    doc: &Document,
    plan: &Parts,
    condition: &Condition,
    child: NodeId,
    state: &mut State,
) -> Result<(), SelectFault>
    requires inside { child.0 < count doc.now }
    requires claimed { AreClaimed (claims_of plan.now.stages.items) (condition_view condition.now).claims }
    requires kept { Keeps doc.now (claims_of plan.now.stages.items) state.old }
    ensures paid { Pays result (charge_expr (node_at doc.now 0) (condition_view condition.now).tree (node_at doc.now child.0)) state.old.meter.left state.new.meter.left }
    ensures kept { Keeps doc.now (claims_of plan.now.stages.items) state.new }
{
    match units_of(condition) {
        Some(units) => state.meter.spend(u64::from(units)),
        None => {
            holds_by_kind(doc, plan, condition, child, state)?;
            Ok(())
        }
    }
}

// Each operand is charged, the ones behind one that holds too.
#[cycle(evaluation)]
#[inline(never)]
#[tactic(auto, using(crate::proofs::Filtering::somes))]
fn some_hold(
    doc: &Document,
    plan: &Parts,
    operands: &[Condition],
    child: NodeId,
    state: &mut State,
) -> Result<bool, SelectFault>
    requires inside { child.0 < count doc.now }
    requires claimed { AreClaimed (claims_of plan.now.stages.items) (all_claims (map condition_view operands.now)) }
    requires kept { Keeps doc.now (claims_of plan.now.stages.items) state.old }
    ensures found { Finds result (some_hold (node_at doc.now 0) (exprs_of (trees (map condition_view operands.now))) (node_at doc.now child.0)) (charge_exprs (node_at doc.now 0) (exprs_of (trees (map condition_view operands.now))) (node_at doc.now child.0)) state.old.meter.left state.new.meter.left }
    ensures kept { Keeps doc.now (claims_of plan.now.stages.items) state.new }
{
    let mut some = false;
    for operand in operands {
        if some {
            pass_by(doc, plan, operand, child, state)?;
        } else {
            some = does_hold(doc, plan, operand, child, state)?;
        }
    }
    Ok(some)
}

#[cycle(evaluation)]
#[inline(always)]
#[tactic(auto, using(crate::proofs::Filtering::alls))]
fn all_hold(
    doc: &Document,
    plan: &Parts,
    operands: &[Condition],
    child: NodeId,
    state: &mut State,
) -> Result<bool, SelectFault>
    requires inside { child.0 < count doc.now }
    requires claimed { AreClaimed (claims_of plan.now.stages.items) (all_claims (map condition_view operands.now)) }
    requires kept { Keeps doc.now (claims_of plan.now.stages.items) state.old }
    ensures found { Finds result (all_hold (node_at doc.now 0) (exprs_of (trees (map condition_view operands.now))) (node_at doc.now child.0)) (charge_exprs (node_at doc.now 0) (exprs_of (trees (map condition_view operands.now))) (node_at doc.now child.0)) state.old.meter.left state.new.meter.left }
    ensures kept { Keeps doc.now (claims_of plan.now.stages.items) state.new }
{
    let mut all = true;
    for operand in operands {
        if all {
            all = does_hold(doc, plan, operand, child, state)?;
        } else {
            pass_by(doc, plan, operand, child, state)?;
        }
    }
    Ok(all)
}

// A side of a comparison. A singular query, as most are, takes no call.
#[cycle(evaluation)]
#[inline(always)]
fn side_of<'a>(
    doc: &Document,
    plan: &Parts,
    operand: &'a Operand,
    child: NodeId,
    state: &mut State,
) -> Result<Side<'a>, SelectFault>
    requires inside { child.0 < count doc.now }
    requires claimed { AreClaimed (claims_of plan.now.stages.items) (operand_view operand.now).claims }
    requires kept { Keeps doc.now (claims_of plan.now.stages.items) state.old }
    ensures found { FindsSide doc.now result (side_result (node_at doc.now 0) (operand_view operand.now).tree (node_at doc.now child.0)) (charge_side (node_at doc.now 0) (operand_view operand.now).tree (node_at doc.now child.0)) state.old.meter.left state.new.meter.left }
    ensures kept { Keeps doc.now (claims_of plan.now.stages.items) state.new }
{
    match operand {
        Operand::Single(query) => {
            let found = found(doc, plan, query, child, state)?;
            Ok(side_found(doc, found.only))
        }
        _ => side_by_kind(doc, plan, operand, child, state),
    }
}

// What a side of any kind is for a child.
#[cycle(evaluation)]
#[inline(never)]
#[tactic(auto, using(crate::proofs::Filtering::siding))]
fn side_by_kind<'a>(
    doc: &Document,
    plan: &Parts,
    operand: &'a Operand,
    child: NodeId,
    state: &mut State,
) -> Result<Side<'a>, SelectFault>
    requires inside { child.0 < count doc.now }
    requires claimed { AreClaimed (claims_of plan.now.stages.items) (operand_view operand.now).claims }
    requires kept { Keeps doc.now (claims_of plan.now.stages.items) state.old }
    ensures found { FindsSide doc.now result (side_result (node_at doc.now 0) (operand_view operand.now).tree (node_at doc.now child.0)) (charge_side (node_at doc.now 0) (operand_view operand.now).tree (node_at doc.now child.0)) state.old.meter.left state.new.meter.left }
    ensures kept { Keeps doc.now (claims_of plan.now.stages.items) state.new }
{
    match operand {
        Operand::Constant(constant) => Ok(Side::Literal(&constant.literal)),
        Operand::Length(operand) => {
            let side = side_of(doc, plan, operand, child, state)?;
            Ok(length_of(doc, side, &mut state.lengths))
        }
        Operand::Count(query) => {
            let found = found(doc, plan, query, child, state)?;
            Ok(Side::Whole(found.total))
        }
        Operand::Single(query) | Operand::Value(query) => {
            let found = found(doc, plan, query, child, state)?;
            Ok(side_found(doc, found.only))
        }
    }
}

// What is asked of a query in a filter. With a slot it is found once for each node that it begins at, while that is the last.
#[cycle(evaluation)]
#[inline(always)]
fn found(
    doc: &Document,
    plan: &Parts,
    query: &Nested,
    child: NodeId,
    state: &mut State,
) -> Result<Found, SelectFault>
    requires inside { child.0 < count doc.now }
    requires claimed { AreClaimed (claims_of plan.now.stages.items) (nested_view query.now).claims }
    requires kept { Keeps doc.now (claims_of plan.now.stages.items) state.old }
    ensures found { FindsFor doc.now result (nested_view query.now).tree (node_at doc.now child.0) state.old.meter.left state.new.meter.left }
    ensures kept { Keeps doc.now (claims_of plan.now.stages.items) state.new }
{
    match query.slot {
        None => found_from(doc, plan, &query.links, &query.stages, child, state),
        Some(slot) => {
            let n = beginning(doc, query.from_root, child);
            found_once(
                doc,
                plan,
                query.from_root,
                &query.links,
                &query.stages,
                slot,
                n,
                state,
            )
        }
    }
}

#[cycle(evaluation)]
#[inline(always)]
fn found_once(
    doc: &Document,
    plan: &Parts,
    from_root: bool,
    links: &[Link],
    stages: &[Stage],
    slot: u32,
    n: NodeId,
    state: &mut State,
) -> Result<Found, SelectFault>
    requires inside { n.0 < count doc.now }
    requires mine { look (claims_of plan.now.stages.items) slot ≡ Some (a_query from_root (map link_view links.now) (trees (map stage_view stages.now))) }
    requires claimed { AreClaimed (claims_of plan.now.stages.items) (claims_of stages.now) }
    requires kept { Keeps doc.now (claims_of plan.now.stages.items) state.old }
    ensures found { FindsNodes doc.now result (path_of links.now stages.now) (node_at doc.now n.0) state.old.meter.left state.new.meter.left }
    ensures kept { Keeps doc.now (claims_of plan.now.stages.items) state.new }
{
    let _ = from_root;
    match recall(doc, plan, &state.slots, slot, n) {
        Some(found) => {
            state.meter.spend(found.charge)?;
            Ok(found)
        }
        None => {
            let found = found_from(doc, plan, links, stages, n, state)?;
            keep_found(doc, plan, &mut state.slots, slot, n, found);
            Ok(found)
        }
    }
}

#[cycle(evaluation)]
#[inline(always)]
fn found_from(
    doc: &Document,
    plan: &Parts,
    links: &[Link],
    stages: &[Stage],
    n: NodeId,
    state: &mut State,
) -> Result<Found, SelectFault>
    requires inside { n.0 < count doc.now }
    requires claimed { AreClaimed (claims_of plan.now.stages.items) (claims_of stages.now) }
    requires kept { Keeps doc.now (claims_of plan.now.stages.items) state.old }
    ensures found { FindsNodes doc.now result (path_of links.now stages.now) (node_at doc.now n.0) state.old.meter.left state.new.meter.left }
    ensures kept { Keeps doc.now (claims_of plan.now.stages.items) state.new }
{
    if stages.is_empty() {
        found_by_links(doc, links, n, &mut state.meter)
    } else {
        found_behind(doc, plan, links, stages, n, state)
    }
}

// What a query finds that has segments behind its names and indexes.
#[cycle(evaluation)]
#[inline(never)]
fn found_behind(
    doc: &Document,
    plan: &Parts,
    links: &[Link],
    stages: &[Stage],
    n: NodeId,
    state: &mut State,
) -> Result<Found, SelectFault>
    requires inside { n.0 < count doc.now }
    requires claimed { AreClaimed (claims_of plan.now.stages.items) (claims_of stages.now) }
    requires kept { Keeps doc.now (claims_of plan.now.stages.items) state.old }
    ensures found { FindsNodes doc.now result (path_of links.now stages.now) (node_at doc.now n.0) state.old.meter.left state.new.meter.left }
    ensures kept { Keeps doc.now (claims_of plan.now.stages.items) state.new }
{
    follows_links();
    let units = state.meter.left;
    let Some(first) = followed(doc, links, n, &mut state.meter)? else {
        return Ok(found_in(doc, &[], units - state.meter.left));
    };
    let nodes = all_selected(doc, plan, stages, first, state)?;
    Ok(found_in(doc, &nodes, units - state.meter.left))
}

/// The nodes that the stages select from a node. One stage, as most queries in filters have, takes no list of that node.
#[cycle(evaluation)]
pub fn all_selected(
    doc: &Document,
    plan: &Parts,
    stages: &[Stage],
    n: NodeId,
    state: &mut State,
) -> Result<Vec<NodeId>, SelectFault>
    requires inside { n.0 < count doc.now }
    requires claimed { AreClaimed (claims_of plan.now.stages.items) (claims_of stages.now) }
    requires kept { Keeps doc.now (claims_of plan.now.stages.items) state.old }
    ensures found { FindsList doc.now result (evaluated (node_at doc.now 0) (query_of stages.now) (node_at doc.now n.0 ∷ [])) (charge_from (node_at doc.now 0) (query_of stages.now) (node_at doc.now n.0 ∷ [])) state.old.meter.left state.new.meter.left }
    ensures kept { Keeps doc.now (claims_of plan.now.stages.items) state.new }
{
    match stages {
        [stage] => after_stage(doc, plan, stage, from_ref(&n), state),
        _ => selected_in_turn(doc, plan, stages, n, state),
    }
}

// The nodes that some stages, or none, select from a node, one after the other.
#[cycle(evaluation)]
fn selected_in_turn(
    doc: &Document,
    plan: &Parts,
    stages: &[Stage],
    n: NodeId,
    state: &mut State,
) -> Result<Vec<NodeId>, SelectFault>
    requires inside { n.0 < count doc.now }
    requires claimed { AreClaimed (claims_of plan.now.stages.items) (claims_of stages.now) }
    requires kept { Keeps doc.now (claims_of plan.now.stages.items) state.old }
    ensures found { FindsList doc.now result (evaluated (node_at doc.now 0) (query_of stages.now) (node_at doc.now n.0 ∷ [])) (charge_from (node_at doc.now 0) (query_of stages.now) (node_at doc.now n.0 ∷ [])) state.old.meter.left state.new.meter.left }
    ensures kept { Keeps doc.now (claims_of plan.now.stages.items) state.new }
{
    let mut nodes = lone(state.alloc, doc, n)?;
    for stage in stages {
        nodes = after_stage(doc, plan, stage, &nodes, state)?;
    }
    Ok(nodes)
}

// What a segment selects from several nodes. A lone name or index takes a loop of its own.
#[cycle(evaluation)]
fn after_stage(
    doc: &Document,
    plan: &Parts,
    stage: &Stage,
    input: &[NodeId],
    state: &mut State,
) -> Result<Vec<NodeId>, SelectFault>
    requires from { Inside doc.now input.now }
    requires claimed { AreClaimed (claims_of plan.now.stages.items) (stage_view stage.now).claims }
    requires kept { Keeps doc.now (claims_of plan.now.stages.items) state.old }
    ensures found { FindsList doc.now result (nodes_after (node_at doc.now 0) (stage_view stage.now).tree (nodes_of doc.now input.now)) (charge_after (node_at doc.now 0) (stage_view stage.now).tree (nodes_of doc.now input.now)) state.old.meter.left state.new.meter.left }
    ensures kept { Keeps doc.now (claims_of plan.now.stages.items) state.new }
{
    match lone_link(stage) {
        Some(link) => stepped(state.alloc, doc, link, input, &mut state.meter),
        None => after_each(doc, plan, stage, input, state),
    }
}

// The nodes that a segment of any kind selects from those of a list.
#[cycle(evaluation)]
#[tactic(auto, using(crate::proofs::Filtering::each_input))]
fn after_each(
    doc: &Document,
    plan: &Parts,
    stage: &Stage,
    input: &[NodeId],
    state: &mut State,
) -> Result<Vec<NodeId>, SelectFault>
    requires from { Inside doc.now input.now }
    requires claimed { AreClaimed (claims_of plan.now.stages.items) (stage_view stage.now).claims }
    requires kept { Keeps doc.now (claims_of plan.now.stages.items) state.old }
    ensures found { FindsList doc.now result (nodes_after (node_at doc.now 0) (stage_view stage.now).tree (nodes_of doc.now input.now)) (charge_after (node_at doc.now 0) (stage_view stage.now).tree (nodes_of doc.now input.now)) state.old.meter.left state.new.meter.left }
    ensures kept { Keeps doc.now (claims_of plan.now.stages.items) state.new }
{
    let mut out = Vec::new(state.alloc);
    for n in input {
        from_node(doc, plan, stage, *n, state, &mut out)?;
    }
    Ok(out)
}

fn selector_total(stage: &Stage) -> u64
    ensures { result ≡ length stage.now.selections.items }
{
    stage.selections.len() as u64
}

// What a segment selects from one node. Each selector's unit is paid here, for all nodes at once.
#[cycle(evaluation)]
pub fn from_node(
    doc: &Document,
    plan: &Parts,
    stage: &Stage,
    n: NodeId,
    state: &mut State,
    out: &mut Vec<NodeId>,
) -> Result<(), SelectFault>
    requires inside { n.0 < count doc.now }
    requires claimed { AreClaimed (claims_of plan.now.stages.items) (stage_view stage.now).claims }
    requires kept { Keeps doc.now (claims_of plan.now.stages.items) state.old }
    requires sound { Inside doc.now out.old.items }
    ensures added { Adds doc.now result out.new.items (nodes_of doc.now out.old.items ++ nodes_from (node_at doc.now 0) (stage_view stage.now).tree (node_at doc.now n.0)) (charge_at (node_at doc.now 0) (stage_view stage.now).tree (node_at doc.now n.0)) state.old.meter.left state.new.meter.left }
    ensures kept { Keeps doc.now (claims_of plan.now.stages.items) state.new }
{
    selectors_pay_in_parts();
    let selectors = selector_total(stage);
    if stage.descend {
        state
            .meter
            .spend_each(u64::from(visit_total(doc, n)), selectors)?;
        visited(doc, plan, &stage.selections, n, state, out)
    } else {
        state.meter.spend(selectors)?;
        selected_from(doc, plan, &stage.selections, n, state, out)
    }
}

// What the selectors select from a node and all its descendants. A lone name or wildcard takes a loop of its own.
#[cycle(evaluation)]
fn visited(
    doc: &Document,
    plan: &Parts,
    selections: &[Selection],
    n: NodeId,
    state: &mut State,
    out: &mut Vec<NodeId>,
) -> Result<(), SelectFault>
    requires inside { n.0 < count doc.now }
    requires claimed { AreClaimed (claims_of plan.now.stages.items) (all_claims (map selection_view selections.now)) }
    requires kept { Keeps doc.now (claims_of plan.now.stages.items) state.old }
    requires sound { Inside doc.now out.old.items }
    ensures added { Adds doc.now result out.new.items (nodes_of doc.now out.old.items ++ flat_map (selected (node_at doc.now 0) (selectors_of (trees (map selection_view selections.now)))) (visit (node_at doc.now n.0))) (total_of (extra_in (node_at doc.now 0) (selectors_of (trees (map selection_view selections.now)))) (visit (node_at doc.now n.0))) state.old.meter.left state.new.meter.left }
    ensures kept { Keeps doc.now (claims_of plan.now.stages.items) state.new }
{
    if is_wild(selections) {
        return children_below(doc, n, &mut state.meter, out);
    }
    match only_link(selections) {
        Some(Link::Key(name)) => named(doc, name, n, out),
        _ => visited_each(doc, plan, selections, n, state, out),
    }
}

// What selectors of any kind select from a node and all its descendants.
#[cycle(evaluation)]
#[tactic(auto, using(crate::proofs::Filtering::visiting))]
fn visited_each(
    doc: &Document,
    plan: &Parts,
    selections: &[Selection],
    n: NodeId,
    state: &mut State,
    out: &mut Vec<NodeId>,
) -> Result<(), SelectFault>
    requires inside { n.0 < count doc.now }
    requires claimed { AreClaimed (claims_of plan.now.stages.items) (all_claims (map selection_view selections.now)) }
    requires kept { Keeps doc.now (claims_of plan.now.stages.items) state.old }
    requires sound { Inside doc.now out.old.items }
    ensures added { Adds doc.now result out.new.items (nodes_of doc.now out.old.items ++ flat_map (selected (node_at doc.now 0) (selectors_of (trees (map selection_view selections.now)))) (visit (node_at doc.now n.0))) (total_of (extra_in (node_at doc.now 0) (selectors_of (trees (map selection_view selections.now)))) (visit (node_at doc.now n.0))) state.old.meter.left state.new.meter.left }
    ensures kept { Keeps doc.now (claims_of plan.now.stages.items) state.new }
{
    let end = doc.after(n);
    for k in n.0..end {
        selected_within(doc, plan, selections, NodeId(k), state, out)?;
    }
    Ok(())
}

// What the selectors select from one node. From one without children they select nothing.
#[cycle(evaluation)]
fn selected_within(
    doc: &Document,
    plan: &Parts,
    selections: &[Selection],
    n: NodeId,
    state: &mut State,
    out: &mut Vec<NodeId>,
) -> Result<(), SelectFault>
    requires inside { n.0 < count doc.now }
    requires claimed { AreClaimed (claims_of plan.now.stages.items) (all_claims (map selection_view selections.now)) }
    requires kept { Keeps doc.now (claims_of plan.now.stages.items) state.old }
    requires sound { Inside doc.now out.old.items }
    ensures added { Adds doc.now result out.new.items (nodes_of doc.now out.old.items ++ selected (node_at doc.now 0) (selectors_of (trees (map selection_view selections.now))) (node_at doc.now n.0)) (extra_in (node_at doc.now 0) (selectors_of (trees (map selection_view selections.now))) (node_at doc.now n.0)) state.old.meter.left state.new.meter.left }
    ensures kept { Keeps doc.now (claims_of plan.now.stages.items) state.new }
{
    selectors_pay_in_parts();
    match doc.first_child(n) {
        None => Ok(()),
        Some(_) => selected_from(doc, plan, selections, n, state, out),
    }
}

// What the selectors select from one node.
#[cycle(evaluation)]
#[tactic(auto, using(crate::proofs::Filtering::selections))]
fn selected_from(
    doc: &Document,
    plan: &Parts,
    selections: &[Selection],
    n: NodeId,
    state: &mut State,
    out: &mut Vec<NodeId>,
) -> Result<(), SelectFault>
    requires inside { n.0 < count doc.now }
    requires claimed { AreClaimed (claims_of plan.now.stages.items) (all_claims (map selection_view selections.now)) }
    requires kept { Keeps doc.now (claims_of plan.now.stages.items) state.old }
    requires sound { Inside doc.now out.old.items }
    ensures added { Adds doc.now result out.new.items (nodes_of doc.now out.old.items ++ selected (node_at doc.now 0) (selectors_of (trees (map selection_view selections.now))) (node_at doc.now n.0)) (extra_in (node_at doc.now 0) (selectors_of (trees (map selection_view selections.now))) (node_at doc.now n.0)) state.old.meter.left state.new.meter.left }
    ensures kept { Keeps doc.now (claims_of plan.now.stages.items) state.new }
{
    for selection in selections {
        selected_by(doc, plan, selection, n, state, out)?;
    }
    Ok(())
}

#[cycle(evaluation)]
#[tactic(auto, using(crate::proofs::Filtering::selecting))]
fn selected_by(
    doc: &Document,
    plan: &Parts,
    selection: &Selection,
    n: NodeId,
    state: &mut State,
    out: &mut Vec<NodeId>,
) -> Result<(), SelectFault>
    requires inside { n.0 < count doc.now }
    requires claimed { AreClaimed (claims_of plan.now.stages.items) (selection_view selection.now).claims }
    requires kept { Keeps doc.now (claims_of plan.now.stages.items) state.old }
    requires sound { Inside doc.now out.old.items }
    ensures added { Adds doc.now result out.new.items (nodes_of doc.now out.old.items ++ selected_by (node_at doc.now 0) (selection_view selection.now).tree (node_at doc.now n.0)) (extra_by (node_at doc.now 0) (selection_view selection.now).tree (node_at doc.now n.0)) state.old.meter.left state.new.meter.left }
    ensures kept { Keeps doc.now (claims_of plan.now.stages.items) state.new }
{
    match selection {
        Selection::One(link) => push_some(doc, out, step(doc, link, n)),
        Selection::Wild => wild(doc, n, &mut state.meter, out),
        Selection::Sliced { start, stop, step } => {
            sliced(doc, n, *start, *stop, *step, &mut state.meter, out)
        }
        Selection::Where(condition) => filtered(doc, plan, condition, n, state, out),
    }
}
