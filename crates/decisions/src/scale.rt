//! Literals in order, among which a value has a mark.

ghost use Rattle.std.specs.Prelude.{◌≡◌, ◌+◌, ◌*◌, ◌≤◌, ◌∷◌, length, map, Some, IsTrue, IfOk, IfSome};
ghost use Rattle.std.specs.List.Sorted.{IsSortedByKey};
ghost use Rattle.path_meaning.specs.Functions.{whole_number};
ghost use Rattle.decisions.specs.Marks.{mark, cell, are_among};
ghost use Rattle.decisions.specs.Order.{value_cmp};
ghost use Rattle.decisions.specs.Views.{constant_view, constant_value};

use crate::gathering::in_order;
use crate::places::{side_place, total_place};
use crate::side::ComparedSide;
use crate::test::Constant;
use decimal_order::orders_values;
use std::alloc::AllocError;

/// The literals of a condition in order. A condition that compares `@` and its length with these alone is told by their marks. Where it compares sides
/// that are no literals too, the length of `$` stands beside these.
#[derive(Drop)]
pub struct Scale {
    pub literals: Vec<Constant>,
    /// Whether the condition may compare sides of which none is a literal.
    pub is_rooted: bool,
    ghost sorted: { IsSortedByKey constant_value value_cmp literals.items },
}

// The mark of a value.
#[tactic(auto, using(crate::proofs::Decided::kinds_below))]
fn mark<S: ComparedSide>(literals: &[Constant], side: &S) -> usize
    requires { IsSortedByKey constant_value value_cmp literals.now }
    ensures value { result ≡ mark (map constant_value literals.now) (S.value side.now) }
    ensures within { result ≤ 2 * length literals.now + 6 }
{
    side.kind_number() + side_place(literals, side)
}

// The mark of a side among a whole number and the literals behind it.
fn mark_beside<S: ComparedSide>(literals: &[Constant], total: usize, side: &S) -> usize
    requires { IsSortedByKey constant_value value_cmp literals.now }
    ensures { result ≡ mark (Some (whole_number total) ∷ map constant_value literals.now) (S.value side.now) }
{
    mark(literals, side) + total_place(total, side)
}

// Two marks among so many in one number, where there is one.
fn joined(row: usize, column: usize, count: usize) -> Option<usize>
    ensures { IfSome result (λ i. i ≡ row * (2 * count + 7) + column) }
{
    let twice = 2usize.checked_mul(count)?;
    let width = twice.checked_add(7)?;
    let before = row.checked_mul(width)?;
    before.checked_add(column)
}

impl Scale {
    /// That of these literals. `AllocError` where a growth was refused.
    pub fn new(found: Vec<Constant>, is_rooted: bool) -> Result<Scale, AllocError>
        ensures rooted { IfOk result (λ scale. scale.is_rooted ≡ is_rooted) }
        ensures known { IfOk result (λ scale. IsTrue (are_among (map constant_value scale.literals.items) (map constant_view found.items))) }
    {
        orders_values();
        let literals = in_order(found)?;
        Ok(Scale {
            literals,
            is_rooted,
        })
    }

    /// The cell of two values, where there is a number for it.
    pub fn cell<S: ComparedSide>(&self, first: &S, second: &S) -> Option<usize>
        ensures { IfSome result (λ i. i ≡ cell (map constant_value self.now.literals.items) (S.value first.now) (S.value second.now)) }
    {
        let width = (2 * self.literals.len()).checked_add(7)?;
        let row = mark(&self.literals, first);
        let column = mark(&self.literals, second);
        let before = row.checked_mul(width)?;
        before.checked_add(column)
    }

    /// The cell of two sides on the scale with a whole number beside its literals.
    pub fn cell_beside<S: ComparedSide>(&self, total: usize, first: &S, second: &S) -> Option<usize>
        ensures { IfSome result (λ i. i ≡ cell (Some (whole_number total) ∷ map constant_value self.now.literals.items) (S.value first.now) (S.value second.now)) }
    {
        let row = mark_beside(&self.literals, total, first);
        let column = mark_beside(&self.literals, total, second);
        let count = self.literals.len() + 1;
        joined(row, column, count)
    }
}
