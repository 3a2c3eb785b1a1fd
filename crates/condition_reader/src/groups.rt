//! Operands of a list in groups: those that compare one side with literals, wherever they stand.

ghost use Rattle.std.specs.Prelude.{◌≡◌, ◌<◌, ◌≤◌, length, IfOk, IfSome};
ghost use Rattle.std.specs.List.{All};

use crate::reading::{FEW, are_one_side, side_in};
use path_grammar::{Comparable, Expr};
use std::alloc::{AllocError, Global};

// Whether a comparison is one of this side with a literal, of two literals, or of `@` and `$`.
fn compares(left: &Comparable, right: &Comparable, side: Option<&Comparable>) -> bool {
    match (left, right) {
        (Comparable::Lit(_), Comparable::Lit(_)) => true,
        (Comparable::Lit(_), other) | (other, Comparable::Lit(_)) => match side {
            None => false,
            Some(side) => are_one_side(side, other),
        },
        (Comparable::Single(x), Comparable::Single(y)) => {
            x.segments.is_empty() && y.segments.is_empty()
        }
        _ => false,
    }
}

// Whether an expression compares this side with literals alone.
#[cycle(ons)]
fn is_on(expr: &Expr, side: Option<&Comparable>) -> bool {
    match expr {
        Expr::Any(operands) => are_on(operands, side),
        Expr::Each(operands) => are_on(operands, side),
        Expr::Not(operand) => is_on(operand, side),
        Expr::Compare(left, _, right) => compares(left, right, side),
        Expr::Test(query) => query.segments.is_empty(),
        Expr::TestCall(_) => false,
    }
}

#[cycle(ons)]
fn are_on(operands: &[Expr], side: Option<&Comparable>) -> bool {
    for operand in operands {
        if !is_on(operand, side) {
            return false;
        }
    }
    true
}

/// How many comparisons and tests there are.
#[cycle(parts)]
pub fn parts_in(expr: &Expr) -> usize {
    match expr {
        Expr::Any(operands) => parts_in_all(operands),
        Expr::Each(operands) => parts_in_all(operands),
        Expr::Not(operand) => parts_in(operand),
        Expr::Compare(..) | Expr::Test(_) | Expr::TestCall(_) => 1,
    }
}

#[cycle(parts)]
fn parts_in_all(operands: &[Expr]) -> usize {
    let mut sum: usize = 0;
    for operand in operands {
        sum = sum.saturating_add(parts_in(operand));
    }
    sum
}

// How many comparisons and tests there are in the operands that are on this side.
fn parts_on(operands: &[Expr], side: Option<&Comparable>) -> usize {
    let mut sum: usize = 0;
    for operand in operands {
        if is_on(operand, side) {
            sum = sum.saturating_add(parts_in(operand));
        }
    }
    sum
}

// The most sides of a list that have a group.
const MOST: usize = 8;

// The number of an operand's group: 1 where its side is that of the operand at the first of these places, and 0 where it is of none.
fn group_of(operands: &[Expr], firsts: &[usize], operand: &Expr) -> usize
    ensures { result ≤ length firsts.now }
{
    for k in 0..firsts.len() {
        if let Some(first) = operands.get(firsts[k]) {
            if is_on(operand, side_in(first)) {
                return k + 1;
            }
        }
    }
    0
}

// The places of operands whose sides have more than three comparisons.
fn firsts_in(alloc: Global, operands: &[Expr]) -> Result<Vec<usize>, AllocError> {
    let mut firsts = Vec::new(alloc);
    for i in 0..operands.len() {
        let operand = &operands[i];
        let side = side_in(operand);
        if firsts.len() < MOST
            && is_on(operand, side)
            && group_of(operands, &firsts, operand) == 0
            && FEW < parts_on(operands, side)
        {
            firsts.push(i)?;
        }
    }
    Ok(firsts)
}

/// The number of each operand's group, and how many groups there are. In group 0 are those that are in no other.
#[derive(Drop)]
pub struct Groups {
    pub numbers: Vec<usize>,
    pub count: usize,
}

/// The operands of a list in groups, one for each of the first eight sides that have more than three comparisons, if there is one.
pub fn grouped(alloc: Global, operands: &[Expr]) -> Result<Option<Groups>, AllocError>
    ensures each { IfOk result (λ made. IfSome made (λ groups. length groups.numbers.items ≡ length operands.now)) }
    ensures below { IfOk result (λ made. IfSome made (λ groups. All (λ k. k < groups.count) groups.numbers.items)) }
{
    let firsts = firsts_in(alloc, operands)?;
    if firsts.is_empty() {
        return Ok(None);
    }
    let mut numbers = Vec::new(alloc);
    for operand in operands {
        let number = group_of(operands, &firsts, operand);
        numbers.push(number)?;
    }
    let count = firsts.len() + 1;
    Ok(Some(Groups { numbers, count }))
}

/// The first side in the operands of a group that stands against a literal.
pub fn side_in_group<'a>(
    operands: &'a [Expr],
    numbers: &[usize],
    number: usize,
) -> Option<&'a Comparable> {
    for i in 0..operands.len() {
        if i < numbers.len() && numbers[i] == number {
            if let Some(side) = side_in(&operands[i]) {
                return Some(side);
            }
        }
    }
    None
}
