//! Conditions told one comparison after the other.

ghost use Rattle.std.specs.Prelude.{◌≡◌, map};
ghost use Rattle.decisions.specs.Tree.{tests_of};
ghost use Rattle.decisions.specs.Truth.{truth, versus, some_true, all_true};
ghost use Rattle.decisions.specs.Views.{test_view};

use crate::laws::tells_as_compared;
use crate::relation::Relation;
use crate::side::ComparedSide;
use crate::tables::compare_two;
use crate::test::Test;
use path_meaning::tells;
use std::cmp::Ordering;

/// Whether a condition holds where its side has a value, and `@` compares so with `$`.
#[cycle(telling)]
pub fn holds<S: ComparedSide>(test: &Test, side: &S, relation: Relation) -> bool
    ensures { result ≡ truth (S.value side.now) relation (test_view test.now) }
{
    tells_as_compared();
    match test {
        Test::Any(operands) => some_hold(operands, side, relation),
        Test::Each(operands) => all_hold(operands, side, relation),
        Test::Not(operand) => !holds(operand, side, relation),
        Test::Value(op, literal) => side.compare(*op, literal),
        Test::Against(literal, op) => side.compare_back(literal, *op),
        Test::Literals(left, op, right) => compare_two(left, *op, right),
        Test::Present(_) => true,
        Test::Itself(_, op) => tells(*op, Ordering::Equal),
        Test::Rooted(turned, op) => relation.tells(*turned, *op),
    }
}

#[cycle(telling)]
fn some_hold<S: ComparedSide>(operands: &[Test], side: &S, relation: Relation) -> bool
    ensures { result ≡ some_true (versus (S.value side.now)) relation (tests_of (map test_view operands.now)) }
{
    let mut some = false;
    for operand in operands {
        let held = holds(operand, side, relation);
        some |= held;
    }
    some
}

#[cycle(telling)]
fn all_hold<S: ComparedSide>(operands: &[Test], side: &S, relation: Relation) -> bool
    ensures { result ≡ all_true (versus (S.value side.now)) relation (tests_of (map test_view operands.now)) }
{
    let mut all = true;
    for operand in operands {
        let held = holds(operand, side, relation);
        all &= held;
    }
    all
}
