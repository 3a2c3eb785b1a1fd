//! A plan made of a query.

ghost use Rattle.std.specs.Prelude.{◌≡◌, ℕ, List, ◌<◌, ◌≤◌, ◌++◌, length, drop, map, Some, IfOk, IfSome, IsTrue, codes};
ghost use Rattle.std.specs.List.{All};
ghost use Rattle.path_grammar.specs.Tree as tree;
ghost use Rattle.path_grammar.specs.Tree.{OneSegment, exprs_of};
ghost use Rattle.path_grammar.specs.View.{segments_view, selectors_view, segment_view, selector_view, expr_view, nested_view as query_tree, comparable_view, call_view, argument_view, literal_view, query_view};
ghost use Rattle.path_types.specs.Validity.{is_literal, is_valid, are_valid, is_valid_selector, is_valid_expr, are_valid_exprs, is_valid_nested, is_valid_comparable, is_valid_call, is_valid_argument};
ghost use Rattle.decisions.specs.Tree.{listed};
ghost use Rattle.condition_reader.specs.Turns.{dealt};
ghost use Rattle.query_plan.specs.Planned.{trees, joined, all_claims, query_of, claims_of, is_rooted, own_claim, as_argument, calling, condition_view, operand_view, selection_view, nested_view, stage_view, numbered};
ghost use Rattle.decisions.specs.Views.{constant_view};
ghost use Rattle.decisions.specs.Decided.{is_told_on};
ghost use Rattle.path_meaning.specs.Links.{link_view};
ghost use Rattle.query_plan.specs.Making.{is_valid_nodes};

use crate::plan::{Condition, Nested, Operand, Parts, Selection, Stage};
use crate::short::{decided, decided_group};
use crate::told::{in_groups, scale_of};
use condition_reader::Groups;
use decisions::{Constant, Scale};
use path_grammar::{Argument, Call, Comparable, Expr, Literal, Segment, Selector, SubQuery};
use path_meaning::{Link, Name};
use path_types::ValidQuery;
use std::alloc::{AllocError, Global};
use std::cell::Cell;

fn name(alloc: Global, name: &[char]) -> Result<Name, AllocError>
    ensures { IfOk result (λ made. made.scalars.items ≡ name.now) }
{
    let scalars = name.to_vec(alloc)?;
    Ok(Name {
        scalars,
        distance: Cell::new(1),
    })
}

pub fn literal(alloc: Global, literal: &Literal) -> Result<Literal, AllocError>
    ensures { IfOk result (λ made. literal_view made ≡ literal_view literal.now) }
{
    match literal {
        Literal::Number(digits) => Ok(Literal::Number(digits.to_vec(alloc)?)),
        Literal::Text(scalars) => Ok(Literal::Text(scalars.to_vec(alloc)?)),
        Literal::Bool(is_true) => Ok(Literal::Bool(*is_true)),
        Literal::Null => Ok(Literal::Null),
    }
}

fn constant(alloc: Global, written: &Literal) -> Result<Constant, AllocError>
    requires valid { IsTrue (is_literal (literal_view written.now)) }
    ensures { IfOk result (λ made. constant_view made ≡ literal_view written.now) }
{
    let literal = literal(alloc, written)?;
    Ok(Constant { literal })
}

// The slot of a query from the root, or of one with segments behind its names and indexes.
pub fn slot(from_root: bool, has_stages: bool, next: &mut u32) -> Result<Option<u32>, AllocError>
    ensures rooted { IfOk result (λ slot. is_rooted slot from_root ≡ from_root) }
    ensures numbered { IfOk result (λ slot. (before behind : List OneSegment) → numbered (own_claim slot from_root before behind) next.old ≡ Some next.new) }
{
    if from_root {
        return next_slot(from_root, next);
    }
    if has_stages {
        next_slot(from_root, next)
    } else {
        Ok(None)
    }
}

// The slot with the next number.
fn next_slot(from_root: bool, next: &mut u32) -> Result<Option<u32>, AllocError>
    ensures rooted { IfOk result (λ slot. is_rooted slot from_root ≡ from_root) }
    ensures numbered { IfOk result (λ slot. (before behind : List OneSegment) → numbered (own_claim slot from_root before behind) next.old ≡ Some next.new) }
{
    let _ = from_root;
    let slot = *next;
    match slot.checked_add(1) {
        None => Err(AllocError),
        Some(more) => {
            *next = more;
            Ok(Some(slot))
        }
    }
}

// The name or the index that a segment selects by alone.
fn link(alloc: Global, segment: &Segment) -> Result<Option<Link>, AllocError>
    ensures { IfOk result (λ made. IfSome made (λ link. link_view link ≡ segment_view segment.now)) }
{
    if segment.descend {
        return Ok(None);
    }
    match segment.selectors.as_slice() {
        [Selector::Name(scalars)] => Ok(Some(Link::Key(name(alloc, scalars)?))),
        [Selector::Index(i)] => Ok(Some(Link::Place(*i))),
        _ => Ok(None),
    }
}

// The names and indexes that segments begin with.
pub fn links(alloc: Global, segments: &[Segment]) -> Result<Vec<Link>, AllocError>
    ensures few { IfOk result (λ made. length made.items ≤ length segments.now) }
    ensures same { IfOk result (λ made. map link_view made.items ++ map segment_view (drop (length made.items) segments.now) ≡ map segment_view segments.now) }
{
    let mut made = Vec::new(alloc);
    for segment in segments {
        match link(alloc, segment)? {
            None => return Ok(made),
            Some(link) => made.push(link)?,
        }
    }
    Ok(made)
}

#[cycle(making)]
fn selection(alloc: Global, selector: &Selector, next: &mut u32) -> Result<Selection, AllocError>
    requires valid { IsTrue (is_valid_selector (selector_view selector.now)) }
    ensures same { IfOk result (λ made. (selection_view made).tree ≡ selector_view selector.now) }
    ensures numbered { IfOk result (λ made. numbered (selection_view made).claims next.old ≡ Some next.new) }
{
    match selector {
        Selector::Name(scalars) => Ok(Selection::One(Link::Key(name(alloc, scalars)?))),
        Selector::Wild => Ok(Selection::Wild),
        Selector::Index(i) => Ok(Selection::One(Link::Place(*i))),
        Selector::Slice { start, stop, step } => Ok(Selection::Sliced {
            start: *start,
            stop: *stop,
            step: *step,
        }),
        Selector::Filter(test) => {
            let made = condition(alloc, test, next)?;
            Ok(Selection::Where(Box::new(alloc, made)?))
        }
    }
}

#[cycle(making)]
fn selections(
    alloc: Global,
    selectors: &[Selector],
    next: &mut u32,
) -> Result<Vec<Selection>, AllocError>
    requires valid { IsTrue (are_valid (selectors_view selectors.now)) }
    ensures same { IfOk result (λ made. trees (map selection_view made.items) ≡ map selector_view selectors.now) }
    ensures numbered { IfOk result (λ made. numbered (all_claims (map selection_view made.items)) next.old ≡ Some next.new) }
{
    let mut made = Vec::new(alloc);
    for selector in selectors {
        let one = selection(alloc, selector, next)?;
        made.push(one)?;
    }
    Ok(made)
}

#[cycle(making)]
fn stage(alloc: Global, segment: &Segment, next: &mut u32) -> Result<Stage, AllocError>
    requires valid { IsTrue (are_valid (segment_view segment.now).selectors) }
    ensures same { IfOk result (λ made. (stage_view made).tree ≡ segment_view segment.now) }
    ensures numbered { IfOk result (λ made. numbered (stage_view made).claims next.old ≡ Some next.new) }
{
    let selections = selections(alloc, &segment.selectors, next)?;
    Ok(Stage {
        descend: segment.descend,
        selections,
    })
}

// The segments from this one on.
#[cycle(making)]
#[tactic(auto, using(crate::proofs::Links::valid_behind))]
fn stages(
    alloc: Global,
    segments: &[Segment],
    from: usize,
    next: &mut u32,
) -> Result<Vec<Stage>, AllocError>
    requires inside { from ≤ length segments.now }
    requires valid { IsTrue (is_valid (segments_view segments.now)) }
    ensures same { IfOk result (λ made. trees (map stage_view made.items) ≡ map segment_view (drop from segments.now)) }
    ensures numbered { IfOk result (λ made. numbered (claims_of made.items) next.old ≡ Some next.new) }
{
    let mut made = Vec::new(alloc);
    for i in from..segments.len() {
        let one = stage(alloc, &segments[i], next)?;
        made.push(one)?;
    }
    Ok(made)
}

#[cycle(making)]
#[tactic(auto, using(crate::proofs::Links::behind))]
fn nested(alloc: Global, query: &SubQuery, next: &mut u32) -> Result<Nested, AllocError>
    requires valid { IsTrue (is_valid_nested (query_tree query.now)) }
    ensures same { IfOk result (λ made. (nested_view made).tree ≡ query_tree query.now) }
    ensures numbered { IfOk result (λ made. numbered (nested_view made).claims next.old ≡ Some next.new) }
{
    let links = links(alloc, &query.segments)?;
    let has_stages = links.len() < query.segments.len();
    let slot = slot(query.from_root, has_stages, next)?;
    let stages = stages(alloc, &query.segments, links.len(), next)?;
    Ok(Nested {
        slot,
        from_root: query.from_root,
        links,
        stages,
    })
}

#[cycle(making)]
fn condition(alloc: Global, expr: &Expr, next: &mut u32) -> Result<Condition, AllocError>
    requires valid { IsTrue (is_valid_expr (expr_view expr.now)) }
    ensures same { IfOk result (λ made. (condition_view made).tree ≡ expr_view expr.now) }
    ensures numbered { IfOk result (λ made. numbered (condition_view made).claims next.old ≡ Some next.new) }
{
    match decided(alloc, expr, next)? {
        Some(made) => Ok(made),
        None => condition_by_kind(alloc, expr, next),
    }
}

// A condition that is not decided beforehand, by its kind.
#[cycle(making)]
fn condition_by_kind(alloc: Global, expr: &Expr, next: &mut u32) -> Result<Condition, AllocError>
    requires valid { IsTrue (is_valid_expr (expr_view expr.now)) }
    ensures same { IfOk result (λ made. (condition_view made).tree ≡ expr_view expr.now) }
    ensures numbered { IfOk result (λ made. numbered (condition_view made).claims next.old ≡ Some next.new) }
{
    match expr {
        Expr::Any(operands) => match in_groups(alloc, operands)? {
            None => Ok(Condition::Any(conditions(alloc, operands, next)?)),
            Some(groups) => joined_parts(alloc, true, operands, groups, next),
        },
        Expr::Each(operands) => match in_groups(alloc, operands)? {
            None => Ok(Condition::Each(conditions(alloc, operands, next)?)),
            Some(groups) => joined_parts(alloc, false, operands, groups, next),
        },
        Expr::Not(operand) => {
            let made = condition(alloc, operand, next)?;
            Ok(Condition::Not(Box::new(alloc, made)?))
        }
        Expr::Compare(left, op, right) => {
            let left = operand(alloc, left, next)?;
            let right = operand(alloc, right, next)?;
            Ok(Condition::Compare(left, *op, right))
        }
        Expr::Test(query) => Ok(Condition::Exists(nested(alloc, query, next)?)),
        Expr::TestCall(_) => unreachable!(),
    }
}

#[cycle(making)]
fn conditions(
    alloc: Global,
    operands: &[Expr],
    next: &mut u32,
) -> Result<Vec<Condition>, AllocError>
    requires valid { IsTrue (are_valid_exprs (exprs_of (map expr_view operands.now))) }
    ensures same { IfOk result (λ made. trees (map condition_view made.items) ≡ map expr_view operands.now) }
    ensures numbered { IfOk result (λ made. numbered (all_claims (map condition_view made.items)) next.old ≡ Some next.new) }
{
    let mut made = Vec::new(alloc);
    for operand in operands {
        let one = condition(alloc, operand, next)?;
        made.push(one)?;
    }
    Ok(made)
}

// A list in parts, one for each group of its operands.
#[cycle(making)]
fn joined_parts(
    alloc: Global,
    is_any: bool,
    operands: &[Expr],
    groups: Groups,
    next: &mut u32,
) -> Result<Condition, AllocError>
    requires valid { IsTrue (are_valid_exprs (exprs_of (map expr_view operands.now))) }
    requires each { length groups.numbers.items ≡ length operands.now }
    requires below { All (λ k. k < groups.count) groups.numbers.items }
    ensures same { IfOk result (λ made. (condition_view made).tree ≡ listed is_any (exprs_of (map expr_view operands.now))) }
    ensures numbered { IfOk result (λ made. numbered (condition_view made).claims next.old ≡ Some next.new) }
{
    let parts = parts(alloc, is_any, operands, &groups.numbers, groups.count, next)?;
    Ok(Condition::Joined(is_any, groups.numbers, parts))
}

#[cycle(making)]
fn parts(
    alloc: Global,
    is_any: bool,
    operands: &[Expr],
    numbers: &[usize],
    count: usize,
    next: &mut u32,
) -> Result<Vec<Condition>, AllocError>
    requires valid { IsTrue (are_valid_exprs (exprs_of (map expr_view operands.now))) }
    requires each { length numbers.now ≡ length operands.now }
    requires below { All (λ k. k < count) numbers.now }
    ensures same { IfOk result (λ made. joined is_any numbers.now (trees (map condition_view made.items)) ≡ exprs_of (map expr_view operands.now)) }
    ensures numbered { IfOk result (λ made. numbered (all_claims (map condition_view made.items)) next.old ≡ Some next.new) }
{
    let mut made = Vec::new(alloc);
    for number in 0..count {
        let one = group_part(alloc, is_any, operands, numbers, number, next)?;
        made.push(one)?;
    }
    Ok(made)
}

// The operands of a group, decided together if they can be, or with their truths kept.
#[cycle(making)]
fn group_part(
    alloc: Global,
    is_any: bool,
    operands: &[Expr],
    numbers: &[usize],
    number: usize,
    next: &mut u32,
) -> Result<Condition, AllocError>
    requires valid { IsTrue (are_valid_exprs (exprs_of (map expr_view operands.now))) }
    requires each { length numbers.now ≡ length operands.now }
    ensures same { IfOk result (λ made. (condition_view made).tree ≡ listed is_any (exprs_of (map expr_view (dealt numbers.now number operands.now)))) }
    ensures numbered { IfOk result (λ made. numbered (condition_view made).claims next.old ≡ Some next.new) }
{
    match decided_group(alloc, is_any, operands, numbers, number, next)? {
        Some(made) => Ok(made),
        None => {
            let scale = scale_of(alloc, operands, numbers, number)?;
            let made = part_by_kind(alloc, is_any, operands, numbers, number, next)?;
            with_slot(alloc, scale, made, next)
        }
    }
}

// The condition, with a slot for its truths where it has a scale.
#[tactic(auto, using(crate::proofs::Claims::numbered_kept))]
fn with_slot(
    alloc: Global,
    scale: Option<Scale>,
    made: Condition,
    next: &mut u32,
) -> Result<Condition, AllocError>
    requires { IfSome scale (λ s. IsTrue (is_told_on s (condition_view made).tree)) }
    ensures same { IfOk result (λ kept. (condition_view kept).tree ≡ (condition_view made).tree) }
    ensures numbered { IfOk result (λ kept. (k : ℕ) → numbered (condition_view made).claims k ≡ Some next.old → numbered (condition_view kept).claims k ≡ Some next.new) }
{
    let Some(scale) = scale else {
        return Ok(made);
    };
    let slot = *next;
    match slot.checked_add(1) {
        None => Err(AllocError),
        Some(behind) => {
            *next = behind;
            Ok(Condition::Remembered(slot, scale, Box::new(alloc, made)?))
        }
    }
}

// A part of a group whose operands are not decided, by its kind.
#[cycle(making)]
fn part_by_kind(
    alloc: Global,
    is_any: bool,
    operands: &[Expr],
    numbers: &[usize],
    number: usize,
    next: &mut u32,
) -> Result<Condition, AllocError>
    requires valid { IsTrue (are_valid_exprs (exprs_of (map expr_view operands.now))) }
    requires each { length numbers.now ≡ length operands.now }
    ensures same { IfOk result (λ made. (condition_view made).tree ≡ listed is_any (exprs_of (map expr_view (dealt numbers.now number operands.now)))) }
    ensures numbered { IfOk result (λ made. numbered (condition_view made).claims next.old ≡ Some next.new) }
{
    let made = group(alloc, operands, numbers, number, next)?;
    if is_any {
        Ok(Condition::Any(made))
    } else {
        Ok(Condition::Each(made))
    }
}

#[cycle(making)]
fn group(
    alloc: Global,
    operands: &[Expr],
    numbers: &[usize],
    number: usize,
    next: &mut u32,
) -> Result<Vec<Condition>, AllocError>
    requires valid { IsTrue (are_valid_exprs (exprs_of (map expr_view operands.now))) }
    requires each { length numbers.now ≡ length operands.now }
    ensures same { IfOk result (λ made. trees (map condition_view made.items) ≡ map expr_view (dealt numbers.now number operands.now)) }
    ensures numbered { IfOk result (λ made. numbered (all_claims (map condition_view made.items)) next.old ≡ Some next.new) }
{
    let mut made = Vec::new(alloc);
    for i in 0..operands.len() {
        if numbers[i] != number {
            continue;
        }
        let one = condition(alloc, &operands[i], next)?;
        made.push(one)?;
    }
    Ok(made)
}

#[cycle(making)]
fn operand(alloc: Global, side: &Comparable, next: &mut u32) -> Result<Operand, AllocError>
    requires valid { IsTrue (is_valid_comparable (comparable_view side.now)) }
    ensures same { IfOk result (λ made. (operand_view made).tree ≡ comparable_view side.now) }
    ensures numbered { IfOk result (λ made. numbered (operand_view made).claims next.old ≡ Some next.new) }
{
    match side {
        Comparable::Lit(literal) => Ok(Operand::Constant(constant(alloc, literal)?)),
        Comparable::Single(query) => Ok(Operand::Single(nested(alloc, query, next)?)),
        Comparable::Func(call) => function(alloc, call, next),
    }
}

#[cycle(making)]
fn function(alloc: Global, call: &Call, next: &mut u32) -> Result<Operand, AllocError>
    requires valid { IsTrue (is_valid_call (call_view call.now)) }
    ensures same { IfOk result (λ made. (operand_view made).tree ≡ tree.func (call_view call.now)) }
    ensures numbered { IfOk result (λ made. numbered (operand_view made).claims next.old ≡ Some next.new) }
{
    match call.arguments.as_slice() {
        [argument] => applied(alloc, &call.name, argument, next),
        _ => unreachable!(),
    }
}

// A function of this name with this argument.
#[cycle(making)]
fn applied(
    alloc: Global,
    function: &[u8],
    argument: &Argument,
    next: &mut u32,
) -> Result<Operand, AllocError>
    requires valid { IsTrue (is_valid_argument function.now (argument_view argument.now)) }
    ensures same { IfOk result (λ made. (operand_view made).tree ≡ calling function.now (argument_view argument.now)) }
    ensures numbered { IfOk result (λ made. numbered (operand_view made).claims next.old ≡ Some next.new) }
{
    if function == b"length".as_slice() {
        let made = value(alloc, argument, next)?;
        Ok(Operand::Length(Box::new(alloc, made)?))
    } else if function == b"count".as_slice() {
        Ok(Operand::Count(nodes(alloc, argument, next)?))
    } else {
        Ok(Operand::Value(nodes(alloc, argument, next)?))
    }
}

// The argument of `length`.
#[cycle(making)]
fn value(alloc: Global, argument: &Argument, next: &mut u32) -> Result<Operand, AllocError>
    requires valid { IsTrue (is_valid_argument (codes "length") (argument_view argument.now)) }
    ensures same { IfOk result (λ made. as_argument (operand_view made).tree ≡ argument_view argument.now) }
    ensures numbered { IfOk result (λ made. numbered (operand_view made).claims next.old ≡ Some next.new) }
{
    match argument {
        Argument::Lit(literal) => Ok(Operand::Constant(constant(alloc, literal)?)),
        Argument::Nodes(query) => Ok(Operand::Single(nested(alloc, query, next)?)),
        Argument::Func(call) => function(alloc, call, next),
        Argument::Logical(_) => unreachable!(),
    }
}

// The argument of `count` or of `value`.
#[cycle(making)]
fn nodes(alloc: Global, argument: &Argument, next: &mut u32) -> Result<Nested, AllocError>
    requires valid { IsTrue (is_valid_nodes (argument_view argument.now)) }
    ensures same { IfOk result (λ made. tree.nodes_argument (nested_view made).tree ≡ argument_view argument.now) }
    ensures numbered { IfOk result (λ made. numbered (nested_view made).claims next.old ≡ Some next.new) }
{
    match argument {
        Argument::Nodes(query) => nested(alloc, query, next),
        Argument::Lit(_) | Argument::Func(_) | Argument::Logical(_) => unreachable!(),
    }
}

/// The parts of a query's plan.
pub fn parts_of(alloc: Global, query: &ValidQuery) -> Result<Parts, AllocError>
    ensures same { IfOk result (λ made. query_of made.stages.items ≡ query_view query.now) }
    ensures numbered { IfOk result (λ made. numbered (claims_of made.stages.items) 0 ≡ Some made.slots) }
{
    let mut slots = 0;
    let stages = stages(alloc, query.segments(), 0, &mut slots)?;
    Ok(Parts { stages, slots })
}
