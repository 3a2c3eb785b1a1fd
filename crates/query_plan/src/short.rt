//! Conditions that are decided when a plan is made.

ghost use Rattle.std.specs.Prelude.{◌≡◌, codes, length, map, Some, IsTrue, IfOk, IfSome, MatchOption};
ghost use Rattle.path_grammar.specs.Tree as tree;
ghost use Rattle.path_grammar.specs.Tree.{exprs_of};
ghost use Rattle.path_grammar.specs.View.{call_view, expr_view, nested_view as query_tree, comparable_view};
ghost use Rattle.path_types.specs.Validity.{is_valid_expr, are_valid_exprs};
ghost use Rattle.decisions.specs.Tree.{expr_of, listed};
ghost use Rattle.condition_reader.specs.Turns.{dealt};
ghost use Rattle.decisions.specs.Views.{test_view};
ghost use Rattle.query_plan.specs.Planned.{calling, numbered, condition_view, operand_view, nested_view};

use crate::making::{links, slot};
use crate::plan::{Condition, Nested, Operand};
use condition_reader::{decide, decide_group, side_in, side_in_group};
use decisions::Decision;
use path_grammar::{Argument, Call, Comparable, Expr, SubQuery};
use std::alloc::{AllocError, Global};

// A query of names and indexes alone.
fn short_nested(
    alloc: Global,
    query: &SubQuery,
    next: &mut u32,
) -> Result<Option<Nested>, AllocError>
    ensures same { IfOk result (λ made. IfSome made (λ nested. (nested_view nested).tree ≡ query_tree query.now)) }
    ensures numbered { IfOk result (λ made. MatchOption made (next.new ≡ next.old) (λ nested. numbered (nested_view nested).claims next.old ≡ Some next.new)) }
{
    let links = links(alloc, &query.segments)?;
    if links.len() != query.segments.len() {
        return Ok(None);
    }
    let slot = slot(query.from_root, false, next)?;
    let stages = Vec::new(alloc);
    Ok(Some(Nested {
        slot,
        from_root: query.from_root,
        links,
        stages,
    }))
}

// The functions of such a query.
fn short_length(
    alloc: Global,
    query: &SubQuery,
    next: &mut u32,
) -> Result<Option<Operand>, AllocError>
    ensures same { IfOk result (λ made. IfSome made (λ operand. (operand_view operand).tree ≡ calling (codes "length") (tree.nodes_argument (query_tree query.now)))) }
    ensures numbered { IfOk result (λ made. MatchOption made (next.new ≡ next.old) (λ operand. numbered (operand_view operand).claims next.old ≡ Some next.new)) }
{
    match short_nested(alloc, query, next)? {
        None => Ok(None),
        Some(nested) => {
            let single = Operand::Single(nested);
            Ok(Some(Operand::Length(Box::new(alloc, single)?)))
        }
    }
}

fn short_count(
    alloc: Global,
    query: &SubQuery,
    next: &mut u32,
) -> Result<Option<Operand>, AllocError>
    ensures same { IfOk result (λ made. IfSome made (λ operand. (operand_view operand).tree ≡ calling (codes "count") (tree.nodes_argument (query_tree query.now)))) }
    ensures numbered { IfOk result (λ made. MatchOption made (next.new ≡ next.old) (λ operand. numbered (operand_view operand).claims next.old ≡ Some next.new)) }
{
    match short_nested(alloc, query, next)? {
        None => Ok(None),
        Some(nested) => Ok(Some(Operand::Count(nested))),
    }
}

fn short_value(
    alloc: Global,
    query: &SubQuery,
    next: &mut u32,
) -> Result<Option<Operand>, AllocError>
    ensures same { IfOk result (λ made. IfSome made (λ operand. (operand_view operand).tree ≡ calling (codes "value") (tree.nodes_argument (query_tree query.now)))) }
    ensures numbered { IfOk result (λ made. MatchOption made (next.new ≡ next.old) (λ operand. numbered (operand_view operand).claims next.old ≡ Some next.new)) }
{
    match short_nested(alloc, query, next)? {
        None => Ok(None),
        Some(nested) => Ok(Some(Operand::Value(nested))),
    }
}

fn short_call(alloc: Global, call: &Call, next: &mut u32) -> Result<Option<Operand>, AllocError>
    ensures same { IfOk result (λ made. IfSome made (λ operand. (operand_view operand).tree ≡ tree.func (call_view call.now))) }
    ensures numbered { IfOk result (λ made. MatchOption made (next.new ≡ next.old) (λ operand. numbered (operand_view operand).claims next.old ≡ Some next.new)) }
{
    match call.arguments.as_slice() {
        [Argument::Nodes(query)] => {
            let name = call.name.as_slice();
            if name == b"length".as_slice() {
                short_length(alloc, query, next)
            } else if name == b"count".as_slice() {
                short_count(alloc, query, next)
            } else if name == b"value".as_slice() {
                short_value(alloc, query, next)
            } else {
                Ok(None)
            }
        }
        _ => Ok(None),
    }
}

// Such a query, or a function of it, as a side.
fn short_operand(
    alloc: Global,
    side: &Comparable,
    next: &mut u32,
) -> Result<Option<Operand>, AllocError>
    ensures same { IfOk result (λ made. IfSome made (λ operand. (operand_view operand).tree ≡ comparable_view side.now)) }
    ensures numbered { IfOk result (λ made. MatchOption made (next.new ≡ next.old) (λ operand. numbered (operand_view operand).claims next.old ≡ Some next.new)) }
{
    match side {
        Comparable::Lit(_) => Ok(None),
        Comparable::Func(call) => short_call(alloc, call, next),
        Comparable::Single(query) => match short_nested(alloc, query, next)? {
            None => Ok(None),
            Some(nested) => Ok(Some(Operand::Single(nested))),
        },
    }
}

// The condition on this side that was decided.
fn on_side(
    alloc: Global,
    side: &Comparable,
    decision: Decision,
    next: &mut u32,
) -> Result<Option<Condition>, AllocError>
    ensures same { IfOk result (λ made. IfSome made (λ condition. (condition_view condition).tree ≡ expr_of (comparable_view side.now) (test_view decision))) }
    ensures numbered { IfOk result (λ made. MatchOption made (next.new ≡ next.old) (λ condition. numbered (condition_view condition).claims next.old ≡ Some next.new)) }
{
    let boxed = Box::new(alloc, decision)?;
    match short_operand(alloc, side, next)? {
        None => Ok(None),
        Some(operand) => Ok(Some(Condition::Decided(operand, boxed))),
    }
}

// The condition on this side, decided, if the expression is one.
fn decided_on(
    alloc: Global,
    side: &Comparable,
    expr: &Expr,
    next: &mut u32,
) -> Result<Option<Condition>, AllocError>
    requires valid { IsTrue (is_valid_expr (expr_view expr.now)) }
    ensures same { IfOk result (λ made. IfSome made (λ condition. (condition_view condition).tree ≡ expr_view expr.now)) }
    ensures numbered { IfOk result (λ made. MatchOption made (next.new ≡ next.old) (λ condition. numbered (condition_view condition).claims next.old ≡ Some next.new)) }
{
    match decide(alloc, side, expr)? {
        None => Ok(None),
        Some(decision) => on_side(alloc, side, decision, next),
    }
}

/// The condition that compares one side with literals, decided, if the expression is one of several comparisons.
pub fn decided(alloc: Global, expr: &Expr, next: &mut u32) -> Result<Option<Condition>, AllocError>
    requires valid { IsTrue (is_valid_expr (expr_view expr.now)) }
    ensures same { IfOk result (λ made. IfSome made (λ condition. (condition_view condition).tree ≡ expr_view expr.now)) }
    ensures numbered { IfOk result (λ made. MatchOption made (next.new ≡ next.old) (λ condition. numbered (condition_view condition).claims next.old ≡ Some next.new)) }
{
    match side_in(expr) {
        Some(side) => decided_on(alloc, side, expr, next),
        None => {
            let side = current(alloc);
            decided_on(alloc, &side, expr, next)
        }
    }
}

// `@` by itself.
fn current(alloc: Global) -> Comparable {
    Comparable::Single(SubQuery {
        from_root: false,
        segments: Vec::new(alloc),
    })
}

// The decision of a group's operands on one side, with `||` between them, or with `&&`.
fn group_on(
    alloc: Global,
    side: &Comparable,
    is_any: bool,
    operands: &[Expr],
    numbers: &[usize],
    number: usize,
    next: &mut u32,
) -> Result<Option<Condition>, AllocError>
    requires valid { IsTrue (are_valid_exprs (exprs_of (map expr_view operands.now))) }
    requires each { length numbers.now ≡ length operands.now }
    ensures same { IfOk result (λ made. IfSome made (λ condition. (condition_view condition).tree ≡ listed is_any (exprs_of (map expr_view (dealt numbers.now number operands.now))))) }
    ensures numbered { IfOk result (λ made. MatchOption made (next.new ≡ next.old) (λ condition. numbered (condition_view condition).claims next.old ≡ Some next.new)) }
{
    match decide_group(alloc, side, is_any, operands, numbers, number)? {
        None => Ok(None),
        Some(decision) => on_side(alloc, side, decision, next),
    }
}

/// The operands with this number decided together, if they compare one side with literals and there are several comparisons in them.
pub fn decided_group(
    alloc: Global,
    is_any: bool,
    operands: &[Expr],
    numbers: &[usize],
    number: usize,
    next: &mut u32,
) -> Result<Option<Condition>, AllocError>
    requires valid { IsTrue (are_valid_exprs (exprs_of (map expr_view operands.now))) }
    requires each { length numbers.now ≡ length operands.now }
    ensures same { IfOk result (λ made. IfSome made (λ condition. (condition_view condition).tree ≡ listed is_any (exprs_of (map expr_view (dealt numbers.now number operands.now))))) }
    ensures numbered { IfOk result (λ made. MatchOption made (next.new ≡ next.old) (λ condition. numbered (condition_view condition).claims next.old ≡ Some next.new)) }
{
    match side_in_group(operands, numbers, number) {
        Some(side) => group_on(alloc, side, is_any, operands, numbers, number, next),
        None => {
            let side = current(alloc);
            group_on(alloc, &side, is_any, operands, numbers, number, next)
        }
    }
}
