//! What a condition is charged for a child, where that is known without a look at the child.

ghost use Rattle.std.specs.Prelude.{◌≡◌, ◌∷◌, [], map, IfSome};
ghost use Rattle.json_text.specs.Nodes.{Node};
ghost use Rattle.path_grammar.specs.Tree.{exprs_of};
ghost use Rattle.decisions.specs.Tree.{expr_of, listed};
ghost use Rattle.decisions.specs.Views.{test_view};
ghost use Rattle.path_meaning.specs.Charge.{charge_from, charge_nested, charge_side, charge_expr, charge_exprs};
ghost use Rattle.query_plan.specs.Planned.{trees, joined, condition_view, nested_view, operand_view};
ghost use Rattle.path_meaning.specs.Links.{links_view};

use crate::plan::{Condition, Nested, Operand};
use decisions::Decision;
use path_meaning::Link;
use std::slice::from_ref;

// Names and indexes, where there is one at most.
#[inline(always)]
fn units_of_links(links: &[Link]) -> Option<u32>
    ensures { IfSome result (λ units. (root n : Node) → charge_from root (links_view links.now) (n ∷ []) ≡ units) }
{
    match links {
        [] => Some(0),
        [_] => Some(1),
        _ => None,
    }
}

#[inline(always)]
fn units_of_query(query: &Nested) -> Option<u32>
    ensures { IfSome result (λ units. (root n : Node) → charge_nested root (nested_view query.now).tree n ≡ units) }
{
    if query.stages.is_empty() {
        units_of_links(&query.links)
    } else {
        None
    }
}

// A side of a comparison. What is no call, as most are, takes none.
#[cycle(side_units)]
#[inline(always)]
fn units_of_side(operand: &Operand) -> Option<u32>
    ensures { IfSome result (λ units. (root n : Node) → charge_side root (operand_view operand.now).tree n ≡ units) }
{
    match operand {
        Operand::Constant(_) => Some(0),
        Operand::Single(query) => units_of_query(query),
        _ => units_of_call(operand),
    }
}

#[cycle(side_units)]
#[inline(never)]
fn units_of_call(operand: &Operand) -> Option<u32>
    ensures { IfSome result (λ units. (root n : Node) → charge_side root (operand_view operand.now).tree n ≡ units) }
{
    match operand {
        Operand::Length(operand) => units_of_side(operand),
        _ => None,
    }
}

// A decided condition, whose side counts as often as it is written.
#[inline(always)]
#[tactic(auto, using(crate::proofs::Deciding::charge_decided))]
fn units_of_decided(operand: &Operand, decision: &Decision) -> Option<u32>
    ensures { IfSome result (λ units. (root n : Node) → charge_expr root (expr_of (operand_view operand.now).tree (test_view decision.now)) n ≡ units) }
{
    let units = units_of_side(operand)?;
    let all = decision.uses().checked_mul(units)?;
    Some(all)
}

/// What a condition is charged for a child, if that is known without a look at it. It calls itself by the one behind it alone, and is put in line.
#[cycle(units)]
#[inline(always)]
pub fn units_of(condition: &Condition) -> Option<u32>
    ensures { IfSome result (λ units. (root n : Node) → charge_expr root (condition_view condition.now).tree n ≡ units) }
{
    match condition {
        Condition::Any(operands) => units_of_all(operands),
        Condition::Each(operands) => units_of_all(operands),
        Condition::Not(operand) => units_of_all(from_ref(operand)),
        Condition::Compare(left, _, right) => {
            let left = units_of_side(left)?;
            let right = units_of_side(right)?;
            left.checked_add(right)
        }
        Condition::Exists(query) => units_of_query(query),
        Condition::Decided(operand, decision) => units_of_decided(operand, decision),
        Condition::Remembered(..) => None,
        Condition::Joined(is_any, numbers, parts) => units_of_joined(*is_any, numbers, parts),
    }
}

// The operands of all parts.
#[cycle(units)]
#[inline(always)]
fn units_of_joined(is_any: bool, numbers: &[usize], parts: &[Condition]) -> Option<u32>
    ensures { IfSome result (λ units. (root n : Node) → charge_expr root (listed is_any (joined is_any numbers.now (trees (map condition_view parts.now)))) n ≡ units) }
{
    let _ = is_any;
    let _ = numbers;
    units_of_all(parts)
}

#[cycle(units)]
#[inline(never)]
#[tactic(auto, using(crate::proofs::Operands::operand_charges))]
fn units_of_all(operands: &[Condition]) -> Option<u32>
    ensures { IfSome result (λ units. (root n : Node) → charge_exprs root (exprs_of (trees (map condition_view operands.now))) n ≡ units) }
{
    let mut sum: u32 = 0;
    for operand in operands {
        let units = units_of(operand)?;
        sum = sum.checked_add(units)?;
    }
    Some(sum)
}
