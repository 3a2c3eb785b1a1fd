//! Which query a condition awaits: the first that is not kept for a child.

ghost use Rattle.std.specs.Prelude.{◌<◌, ◌≤◌, ◌+◌, map};
ghost use Rattle.json_tape.specs.Document.{count, node_at};
ghost use Rattle.path_grammar.specs.Tree.{exprs_of};
ghost use Rattle.decisions.specs.Tree.{expr_of, listed};
ghost use Rattle.decisions.specs.Views.{test_view};
ghost use Rattle.node_lists.specs.Charge.{charge_expr, charge_exprs, charge_side, charge_nested};
ghost use Rattle.query_plan.specs.Planned.{trees, joined, claims_of, all_claims, condition_view, operand_view, nested_view};
ghost use Rattle.query_plan.specs.Slots.{AreClaimed};
ghost use Rattle.tape_select.specs.Awaiting.{AwaitsSome};
ghost use Rattle.tape_select.specs.Memo.{Right};

use crate::state::{Kept, beginning, recall};
use decisions::Decision;
use json_tape::{Document, NodeId};
use query_plan::{Condition, Nested, Operand, Parts, means_conditions};

/// What a condition awaits for a child.
#[derive(Clone, Copy)]
pub struct Awaited<'p> {
    /// What the queries are charged that are kept for the child and stand before the first that is not.
    pub paid: u64,
    /// The first query that is not.
    pub query: Option<&'p Nested>,
}

fn sum(paid: u64, more: u64) -> u64
    ensures { result ≤ paid + more }
{
    paid.saturating_add(more)
}

/// The first of a condition's own queries with a slot that is not kept for the child.
#[cycle(awaiting)]
pub fn first_awaited<'p>(
    doc: &Document,
    plan: &Parts,
    slots: &[Option<Kept>],
    condition: &'p Condition,
    child: NodeId,
) -> Awaited<'p>
    requires inside { child.0 < count doc.now }
    requires claimed { AreClaimed (claims_of plan.now.stages.items) (condition_view condition.now).claims }
    requires right { Right doc.now (claims_of plan.now.stages.items) slots.now }
    ensures { AwaitsSome doc.now (claims_of plan.now.stages.items) (node_at doc.now child.0) result.query result.paid (charge_expr (node_at doc.now 0) (condition_view condition.now).tree (node_at doc.now child.0)) }
{
    match condition {
        Condition::Any(operands) => of_operands(doc, plan, slots, operands, child),
        Condition::Each(operands) => of_operands(doc, plan, slots, operands, child),
        Condition::Not(operand) => first_awaited(doc, plan, slots, operand, child),
        Condition::Compare(left, _, right) => of_sides(doc, plan, slots, left, right, child),
        Condition::Exists(query) => of_query(doc, plan, slots, query, child),
        Condition::Decided(operand, decision) => {
            of_decided(doc, plan, slots, operand, decision, child)
        }
        Condition::Remembered(..) => Awaited {
            paid: 0,
            query: None,
        },
        Condition::Joined(is_any, numbers, parts) => {
            of_parts(doc, plan, slots, *is_any, numbers, parts, child)
        }
    }
}

#[cycle(awaiting)]
#[tactic(auto, using(crate::proofs::Awaits::operands))]
fn of_operands<'p>(
    doc: &Document,
    plan: &Parts,
    slots: &[Option<Kept>],
    operands: &'p [Condition],
    child: NodeId,
) -> Awaited<'p>
    requires inside { child.0 < count doc.now }
    requires claimed { AreClaimed (claims_of plan.now.stages.items) (all_claims (map condition_view operands.now)) }
    requires right { Right doc.now (claims_of plan.now.stages.items) slots.now }
    ensures { AwaitsSome doc.now (claims_of plan.now.stages.items) (node_at doc.now child.0) result.query result.paid (charge_exprs (node_at doc.now 0) (exprs_of (trees (map condition_view operands.now))) (node_at doc.now child.0)) }
{
    let mut paid = 0;
    for operand in operands {
        let next = first_awaited(doc, plan, slots, operand, child);
        paid = sum(paid, next.paid);
        if next.query.is_some() {
            return Awaited {
                paid,
                query: next.query,
            };
        }
    }
    Awaited { paid, query: None }
}

// The operands of all parts.
#[cycle(awaiting)]
#[tactic(auto, using(crate::proofs::Awaits::parts))]
fn of_parts<'p>(
    doc: &Document,
    plan: &Parts,
    slots: &[Option<Kept>],
    is_any: bool,
    numbers: &[usize],
    parts: &'p [Condition],
    child: NodeId,
) -> Awaited<'p>
    requires inside { child.0 < count doc.now }
    requires claimed { AreClaimed (claims_of plan.now.stages.items) (all_claims (map condition_view parts.now)) }
    requires right { Right doc.now (claims_of plan.now.stages.items) slots.now }
    ensures { AwaitsSome doc.now (claims_of plan.now.stages.items) (node_at doc.now child.0) result.query result.paid (charge_expr (node_at doc.now 0) (listed is_any (joined is_any numbers.now (trees (map condition_view parts.now)))) (node_at doc.now child.0)) }
{
    means_conditions();
    let _ = is_any;
    let _ = numbers;
    of_operands(doc, plan, slots, parts, child)
}

// A decided condition. Its side is not looked at where it is not written.
fn of_decided<'p>(
    doc: &Document,
    plan: &Parts,
    slots: &[Option<Kept>],
    operand: &'p Operand,
    decision: &Decision,
    child: NodeId,
) -> Awaited<'p>
    requires inside { child.0 < count doc.now }
    requires claimed { AreClaimed (claims_of plan.now.stages.items) (operand_view operand.now).claims }
    requires right { Right doc.now (claims_of plan.now.stages.items) slots.now }
    ensures { AwaitsSome doc.now (claims_of plan.now.stages.items) (node_at doc.now child.0) result.query result.paid (charge_expr (node_at doc.now 0) (expr_of (operand_view operand.now).tree (test_view decision.now)) (node_at doc.now child.0)) }
{
    means_conditions();
    if decision.uses() == 0 {
        return Awaited {
            paid: 0,
            query: None,
        };
    }
    of_side(doc, plan, slots, operand, child)
}

fn of_sides<'p>(
    doc: &Document,
    plan: &Parts,
    slots: &[Option<Kept>],
    left: &'p Operand,
    right: &'p Operand,
    child: NodeId,
) -> Awaited<'p>
    requires inside { child.0 < count doc.now }
    requires left { AreClaimed (claims_of plan.now.stages.items) (operand_view left.now).claims }
    requires right { AreClaimed (claims_of plan.now.stages.items) (operand_view right.now).claims }
    requires kept { Right doc.now (claims_of plan.now.stages.items) slots.now }
    ensures { AwaitsSome doc.now (claims_of plan.now.stages.items) (node_at doc.now child.0) result.query result.paid (charge_side (node_at doc.now 0) (operand_view left.now).tree (node_at doc.now child.0) + charge_side (node_at doc.now 0) (operand_view right.now).tree (node_at doc.now child.0)) }
{
    let first = of_side(doc, plan, slots, left, child);
    if first.query.is_some() {
        return first;
    }
    let next = of_side(doc, plan, slots, right, child);
    Awaited {
        paid: sum(first.paid, next.paid),
        query: next.query,
    }
}

#[cycle(awaiting_side)]
#[tactic(auto, using(crate::proofs::Awaits::arguments))]
fn of_side<'p>(
    doc: &Document,
    plan: &Parts,
    slots: &[Option<Kept>],
    operand: &'p Operand,
    child: NodeId,
) -> Awaited<'p>
    requires inside { child.0 < count doc.now }
    requires claimed { AreClaimed (claims_of plan.now.stages.items) (operand_view operand.now).claims }
    requires right { Right doc.now (claims_of plan.now.stages.items) slots.now }
    ensures { AwaitsSome doc.now (claims_of plan.now.stages.items) (node_at doc.now child.0) result.query result.paid (charge_side (node_at doc.now 0) (operand_view operand.now).tree (node_at doc.now child.0)) }
{
    match operand {
        Operand::Constant(_) => Awaited {
            paid: 0,
            query: None,
        },
        Operand::Length(operand) => of_side(doc, plan, slots, operand, child),
        Operand::Single(query) | Operand::Count(query) | Operand::Value(query) => {
            of_query(doc, plan, slots, query, child)
        }
    }
}

// A query without a slot is not kept.
fn of_query<'p>(
    doc: &Document,
    plan: &Parts,
    slots: &[Option<Kept>],
    query: &'p Nested,
    child: NodeId,
) -> Awaited<'p>
    requires inside { child.0 < count doc.now }
    requires claimed { AreClaimed (claims_of plan.now.stages.items) (nested_view query.now).claims }
    requires right { Right doc.now (claims_of plan.now.stages.items) slots.now }
    ensures { AwaitsSome doc.now (claims_of plan.now.stages.items) (node_at doc.now child.0) result.query result.paid (charge_nested (node_at doc.now 0) (nested_view query.now).tree (node_at doc.now child.0)) }
{
    let Some(slot) = query.slot else {
        return Awaited {
            paid: 0,
            query: None,
        };
    };
    let n = beginning(doc, query.from_root, child);
    match recall(doc, plan, slots, slot, n) {
        Some(found) => Awaited {
            paid: found.charge,
            query: None,
        },
        None => Awaited {
            paid: 0,
            query: Some(query),
        },
    }
}
