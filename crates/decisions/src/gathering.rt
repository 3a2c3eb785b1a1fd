//! The literals of a condition, in order.

ghost use Rattle.std.specs.Prelude.{◌≡◌, ◌++◌, map, Some, IfOk, OnOk};
ghost use Rattle.std.specs.List.{All, Contains};
ghost use Rattle.std.specs.List.Sorted.{IsPermutation, IsSortedByKey};
ghost use Rattle.path_meaning.specs.Comparison.{literal_value};
ghost use Rattle.decisions.specs.Order.{value_cmp};
ghost use Rattle.decisions.specs.Tree.{tests_of};
ghost use Rattle.decisions.specs.Truth.{literals, all_literals};
ghost use Rattle.decisions.specs.Views.{constant_view, constant_value, test_view};

use crate::order::compare_literals;
use crate::test::{Constant, Test};
use decimal_order::orders_values;
use path_grammar::Literal;
use std::alloc::{AllocError, Global};

fn copy(alloc: Global, constant: &Constant) -> Result<Constant, AllocError>
    ensures { IfOk result (λ made. constant_view made ≡ constant_view constant.now) }
{
    let literal = match &constant.literal {
        Literal::Number(digits) => Literal::Number(digits.to_vec(alloc)?),
        Literal::Text(scalars) => Literal::Text(scalars.to_vec(alloc)?),
        Literal::Bool(is_true) => Literal::Bool(*is_true),
        Literal::Null => Literal::Null,
    };
    Ok(Constant { literal })
}

// Adds the literals that stand against the side.
#[cycle(gathering)]
fn gather(alloc: Global, test: &Test, found: &mut Vec<Constant>) -> Result<(), AllocError>
    ensures { OnOk result (map constant_view found.new.items ≡ map constant_view found.old.items ++ literals (test_view test.now)) }
{
    match test {
        Test::Any(operands) => gather_all(alloc, operands, found),
        Test::Each(operands) => gather_all(alloc, operands, found),
        Test::Not(operand) => gather(alloc, operand, found),
        Test::Value(_, literal) | Test::Against(literal, _) => {
            let copied = copy(alloc, literal)?;
            found.push(copied)?;
            Ok(())
        }
        Test::Literals(..) | Test::Present(_) | Test::Itself(..) | Test::Rooted(..) => Ok(()),
    }
}

#[cycle(gathering)]
fn gather_all(alloc: Global, operands: &[Test], found: &mut Vec<Constant>) -> Result<(), AllocError>
    ensures { OnOk result (map constant_view found.new.items ≡ map constant_view found.old.items ++ all_literals (tests_of (map test_view operands.now))) }
{
    for operand in operands {
        gather(alloc, operand, found)?;
    }
    Ok(())
}

/// These literals in order.
pub fn in_order(found: Vec<Constant>) -> Result<Vec<Constant>, AllocError>
    ensures kept { IfOk result (λ literals. IsPermutation found.items literals.items) }
    ensures sorted { IfOk result (λ literals. IsSortedByKey constant_value value_cmp literals.items) }
{
    orders_values();
    let mut literals = found;
    literals.sort_by(|a, b| compare_literals(a, b))?;
    Ok(literals)
}

/// The literals that stand against the side in a condition, in order.
pub fn literals_of(alloc: Global, test: &Test) -> Result<Vec<Constant>, AllocError>
    ensures known { IfOk result (λ found. All (λ l. Contains (map constant_value found.items) (Some (literal_value l))) (literals (test_view test.now))) }
    ensures sorted { IfOk result (λ found. IsSortedByKey constant_value value_cmp found.items) }
{
    let mut found = Vec::new(alloc);
    gather(alloc, test, &mut found)?;
    let literals = in_order(found)?;
    Ok(literals)
}
