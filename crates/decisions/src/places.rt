//! Where a value stands among literals in order.

ghost use Rattle.std.specs.Prelude.{◌≡◌, ◌+◌, ◌*◌, ◌≤◌, [], ◌∷◌, length, map, Some, if◌then◌else◌};
ghost use Rattle.std.specs.List.Sorted.{IsSortedByKey};
ghost use Rattle.path_meaning.specs.Functions.{whole_number};
ghost use Rattle.decisions.specs.Order.{value_cmp};
ghost use Rattle.decisions.specs.Places.{place};
ghost use Rattle.decisions.specs.Views.{constant_value};

use crate::order::{WHOLE_KIND, compare_literals, is_at_most, is_below};
use crate::side::ComparedSide;
use crate::test::Constant;
use decimal_order::orders_values;
use path_grammar::Op;
use std::cmp::Ordering;

/// The place of a literal: how many are below it, and how many are at most it, together.
pub fn literal_place(literals: &[Constant], literal: &Constant) -> usize
    requires { IsSortedByKey constant_value value_cmp literals.now }
    ensures place { result ≡ place value_cmp (map constant_value literals.now) (constant_value literal.now) }
    ensures within { result ≤ 2 * length literals.now }
{
    orders_values();
    let below = literals.partition_point(|l| compare_literals(l, literal).is_lt());
    let most = literals.partition_point(|l| compare_literals(l, literal).is_le());
    below + most
}

/// The place of a value, likewise.
pub fn side_place<S: ComparedSide>(literals: &[Constant], side: &S) -> usize
    requires { IsSortedByKey constant_value value_cmp literals.now }
    ensures place { result ≡ place value_cmp (map constant_value literals.now) (S.value side.now) }
    ensures within { result ≤ 2 * length literals.now }
{
    orders_values();
    let below = literals.partition_point(|l| is_below(l, side));
    let most = literals.partition_point(|l| is_at_most(l, side));
    below + most
}

// How many of the two there are.
fn count(below: bool, most: bool) -> usize
    ensures sum { result ≡ (if below then 1 else 0) + (if most then 1 else 0) }
    ensures within { result ≤ 2 }
{
    if below {
        if most { 2 } else { 1 }
    } else if most {
        1
    } else {
        0
    }
}

/// The place of a value beside a whole number.
pub fn total_place<S: ComparedSide>(total: usize, side: &S) -> usize
    ensures place { result ≡ place value_cmp (Some (whole_number total) ∷ []) (S.value side.now) }
    ensures within { result ≤ 2 }
{
    orders_values();
    match WHOLE_KIND.cmp(&side.kind_number()) {
        Ordering::Less => 2,
        Ordering::Greater => 0,
        Ordering::Equal => {
            let below = side.compare_total(total, Op::Lt);
            let above = side.compare_total(total, Op::Gt);
            count(below, !above)
        }
    }
}
