//! How often a condition's side is written.

ghost use Rattle.std.specs.Prelude.{◌≡◌, map, IfSome};
ghost use Rattle.decisions.specs.Tree.{tests_of, uses, all_uses, meets_root, some_meet};
ghost use Rattle.decisions.specs.Views.{test_view};

use crate::test::Test;

/// How often the side is written, where that is below 2^32.
#[cycle(counting)]
pub fn uses_of(test: &Test) -> Option<u32>
    ensures { IfSome result (λ count. count ≡ uses (test_view test.now)) }
{
    match test {
        Test::Any(operands) => uses_of_all(operands),
        Test::Each(operands) => uses_of_all(operands),
        Test::Not(operand) => uses_of(operand),
        Test::Value(..) | Test::Against(..) => Some(1),
        Test::Literals(..) | Test::Present(_) | Test::Itself(..) | Test::Rooted(..) => Some(0),
    }
}

// Whether `@` is compared with `$` in it.
#[cycle(meeting)]
pub fn meets_root(test: &Test) -> bool
    ensures { result ≡ meets_root (test_view test.now) }
{
    match test {
        Test::Any(operands) => some_meet(operands),
        Test::Each(operands) => some_meet(operands),
        Test::Not(operand) => meets_root(operand),
        Test::Value(..) | Test::Against(..) | Test::Literals(..) => false,
        Test::Present(_) | Test::Itself(..) => false,
        Test::Rooted(..) => true,
    }
}

#[cycle(meeting)]
fn some_meet(operands: &[Test]) -> bool
    ensures { result ≡ some_meet (tests_of (map test_view operands.now)) }
{
    let mut some = false;
    for operand in operands {
        let meets = meets_root(operand);
        some |= meets;
    }
    some
}

#[cycle(counting)]
fn uses_of_all(operands: &[Test]) -> Option<u32>
    ensures { IfSome result (λ count. count ≡ all_uses (tests_of (map test_view operands.now))) }
{
    let mut sum: u32 = 0;
    for operand in operands {
        let more = uses_of(operand)?;
        sum = sum.checked_add(more)?;
    }
    Some(sum)
}
