//! The truth of a condition for each kind of value, at each place.

ghost use Rattle.std.specs.Prelude.{◌≡◌, ℕ, ◌+◌, ◌*◌, ◌<◌, ◌≤◌, length, map, slice_index_or, EachIndex, false, not, ◌||◌, ◌&&◌, Some, IfOk};
ghost use Rattle.std.specs.Ordering.{nat_cmp};
ghost use Rattle.std.specs.List.Sorted.{IsSortedByKey};
ghost use Rattle.path_meaning.specs.Comparison.{compared};
ghost use Rattle.decisions.specs.Order.{value_cmp};
ghost use Rattle.decisions.specs.Places.{AreCells, from_place};
ghost use Rattle.decisions.specs.Tree.{tests_of};
ghost use Rattle.decisions.specs.Truth.{told_apart, told_by, turned_if, truth_by, some_true, all_true};
ghost use Rattle.decisions.specs.Views.{constant_view, constant_value, test_view};

use crate::laws::tells_as_compared;
use crate::order::{KINDS, compare_literals, literal_kind};
use crate::places::literal_place;
use crate::relation::Relation;
use crate::test::{Constant, Test};
use path_grammar::Op;
use path_meaning::{tells, told_of};
use std::alloc::{AllocError, Global};
use std::cmp::Ordering;

// Whether a comparison holds where its sides are of two kinds.
fn tells_apart(op: Op) -> bool
    ensures { result ≡ told_apart op }
{
    told_of(false, false, false, false, op)
}

// Whether a comparison, or the one with its sides exchanged, holds of sides that have this order.
fn tells_turned(is_turned: bool, op: Op, order: Ordering) -> bool
    ensures { result ≡ told_by op (turned_if is_turned (Some order)) }
{
    if is_turned {
        tells(op, order.reverse())
    } else {
        tells(op, order)
    }
}

// Whether a comparison of two literals holds.
pub fn compare_two(left: &Constant, op: Op, right: &Constant) -> bool
    ensures { result ≡ compared op (constant_value left.now) (constant_value right.now) }
{
    tells_as_compared();
    if literal_kind(&left.literal) == literal_kind(&right.literal) {
        tells(op, compare_literals(left, right))
    } else {
        tells_apart(op)
    }
}

// The truth of either.
fn join(cells: &mut [bool], others: &[bool])
    requires { length others.now ≡ length cells.old }
    ensures { EachIndex cells.old (λ k. slice_index_or cells.new k false ≡ (slice_index_or cells.old k false || slice_index_or others.now k false)) }
{
    for i in 0..cells.len() {
        cells[i] |= others[i];
    }
}

// The truth of both.
fn meet(cells: &mut [bool], others: &[bool])
    requires { length others.now ≡ length cells.old }
    ensures { EachIndex cells.old (λ k. slice_index_or cells.new k false ≡ (slice_index_or cells.old k false && slice_index_or others.now k false)) }
{
    for i in 0..cells.len() {
        cells[i] &= others[i];
    }
}

// The truth turned.
fn turn(cells: &mut [bool])
    ensures { EachIndex cells.old (λ k. slice_index_or cells.new k false ≡ (not (slice_index_or cells.old k false))) }
{
    for i in 0..cells.len() {
        cells[i] = !cells[i];
    }
}

// One truth at each place.
fn all_cells(alloc: Global, literals: &[Constant], truth: bool) -> Result<Vec<bool>, AllocError>
    ensures { IfOk result (λ cells. AreCells (length literals.now) cells.items (λ p. truth)) }
{
    let cells = vec![in alloc; truth; 2 * literals.len() + 1]?;
    Ok(cells)
}

// Whether a comparison with what stands at a place holds, at each place.
fn told_cells(
    alloc: Global,
    literals: &[Constant],
    is_turned: bool,
    op: Op,
    there: usize,
) -> Result<Vec<bool>, AllocError>
    requires { there ≤ 2 * length literals.now }
    ensures { IfOk result (λ cells. AreCells (length literals.now) cells.items (λ p. told_by op (turned_if is_turned (Some (nat_cmp p there))))) }
{
    let below = tells_turned(is_turned, op, Ordering::Less);
    let above = tells_turned(is_turned, op, Ordering::Greater);
    let mut cells = all_cells(alloc, literals, above)?;
    for at in 0..there {
        cells[at] = below;
    }
    cells[there] = tells_turned(is_turned, op, Ordering::Equal);
    Ok(cells)
}

// Whether a comparison of the value with this literal holds, or of the literal with the value, at each place.
fn one_table(
    alloc: Global,
    literals: &[Constant],
    kind: usize,
    is_turned: bool,
    op: Op,
    literal: &Constant,
) -> Result<Vec<bool>, AllocError>
    requires { IsSortedByKey constant_value value_cmp literals.now }
    ensures { IfOk result (λ cells. AreCells (length literals.now) cells.items (λ p. told_by op (turned_if is_turned (from_place (map constant_value literals.now) kind p (constant_view literal.now))))) }
{
    let own = literal_kind(&literal.literal);
    if own == kind {
        let there = literal_place(literals, literal);
        told_cells(alloc, literals, is_turned, op, there)
    } else {
        let apart = tells_apart(op);
        all_cells(alloc, literals, apart)
    }
}

// The truth of a condition at each place.
#[cycle(tabling)]
fn table(
    alloc: Global,
    literals: &[Constant],
    kind: usize,
    relation: Relation,
    test: &Test,
) -> Result<Vec<bool>, AllocError>
    requires { IsSortedByKey constant_value value_cmp literals.now }
    ensures { IfOk result (λ cells. AreCells (length literals.now) cells.items (λ p. truth_by (from_place (map constant_value literals.now) kind p) relation (test_view test.now))) }
{
    match test {
        Test::Any(operands) => some_table(alloc, literals, kind, relation, operands),
        Test::Each(operands) => all_table(alloc, literals, kind, relation, operands),
        Test::Not(operand) => {
            let mut cells = table(alloc, literals, kind, relation, operand)?;
            turn(&mut cells);
            Ok(cells)
        }
        Test::Value(op, literal) => one_table(alloc, literals, kind, false, *op, literal),
        Test::Against(literal, op) => one_table(alloc, literals, kind, true, *op, literal),
        Test::Literals(left, op, right) => {
            let truth = compare_two(left, *op, right);
            all_cells(alloc, literals, truth)
        }
        Test::Present(_) => all_cells(alloc, literals, true),
        Test::Itself(_, op) => all_cells(alloc, literals, tells(*op, Ordering::Equal)),
        Test::Rooted(turned, op) => all_cells(alloc, literals, relation.tells(*turned, *op)),
    }
}

// Whether one of the conditions holds, at each place.
#[cycle(tabling)]
fn some_table(
    alloc: Global,
    literals: &[Constant],
    kind: usize,
    relation: Relation,
    operands: &[Test],
) -> Result<Vec<bool>, AllocError>
    requires { IsSortedByKey constant_value value_cmp literals.now }
    ensures { IfOk result (λ cells. AreCells (length literals.now) cells.items (λ p. some_true (from_place (map constant_value literals.now) kind p) relation (tests_of (map test_view operands.now)))) }
{
    let mut cells = all_cells(alloc, literals, false)?;
    for operand in operands {
        let part = table(alloc, literals, kind, relation, operand)?;
        join(&mut cells, &part);
    }
    Ok(cells)
}

// Whether each of the conditions holds, at each place.
#[cycle(tabling)]
fn all_table(
    alloc: Global,
    literals: &[Constant],
    kind: usize,
    relation: Relation,
    operands: &[Test],
) -> Result<Vec<bool>, AllocError>
    requires { IsSortedByKey constant_value value_cmp literals.now }
    ensures { IfOk result (λ cells. AreCells (length literals.now) cells.items (λ p. all_true (from_place (map constant_value literals.now) kind p) relation (tests_of (map test_view operands.now)))) }
{
    let mut cells = all_cells(alloc, literals, true)?;
    for operand in operands {
        let part = table(alloc, literals, kind, relation, operand)?;
        meet(&mut cells, &part);
    }
    Ok(cells)
}

/// The truth of a condition for each kind of value, at each place.
pub fn tables(
    alloc: Global,
    literals: &[Constant],
    relation: Relation,
    test: &Test,
) -> Result<Vec<Vec<bool>>, AllocError>
    requires { IsSortedByKey constant_value value_cmp literals.now }
    ensures kinds { IfOk result (λ tables. length tables.items ≡ 7) }
    ensures right { IfOk result (λ tables. (k : ℕ) (d : _) → k < length tables.items → AreCells (length literals.now) (slice_index_or tables.items k d).items (λ p. truth_by (from_place (map constant_value literals.now) k p) relation (test_view test.now))) }
{
    let mut made = Vec::new(alloc);
    for kind in 0..KINDS {
        let cells = table(alloc, literals, kind, relation, test)?;
        made.push(cells)?;
    }
    Ok(made)
}
