//! The order of literals and of values.

ghost use Rattle.std.specs.Prelude.{◌≡◌, Some};
ghost use Rattle.std.specs.Ordering.{is_lt, is_le};
ghost use Rattle.path_grammar.specs.View.{literal_view};
ghost use Rattle.path_meaning.specs.Comparison.{literal_value};
ghost use Rattle.decisions.specs.Order.{kind, value_cmp};
ghost use Rattle.decisions.specs.Views.{constant_value};

use crate::side::ComparedSide;
use crate::test::Constant;
use decimal_order::{compare, orders_values};
use path_grammar::{Literal, Op};
use path_types::judges_numbers;
use std::cmp::Ordering;

/// How many kinds there are.
pub const KINDS: usize = 7;

/// The number of the kind of numbers.
pub const WHOLE_KIND: usize = 4;

/// The number of a literal's kind.
pub fn literal_kind(literal: &Literal) -> usize
    ensures { result ≡ kind (Some (literal_value (literal_view literal.now))) }
{
    match literal {
        Literal::Null => 1,
        Literal::Bool(false) => 2,
        Literal::Bool(true) => 3,
        Literal::Number(_) => 4,
        Literal::Text(_) => 5,
    }
}

/// How two literals compare.
#[tactic(auto, using(crate::proofs::Orders::comparing), unfolding(crate::specs::Order::value_cmp))]
pub fn compare_literals(a: &Constant, b: &Constant) -> Ordering
    ensures { result ≡ value_cmp (constant_value a.now) (constant_value b.now) }
{
    judges_numbers();
    orders_values();
    match &a.literal {
        Literal::Number(x) => match &b.literal {
            Literal::Number(y) => compare(x, y),
            Literal::Text(_) => Ordering::Less,
            Literal::Bool(_) | Literal::Null => Ordering::Greater,
        },
        Literal::Text(x) => match &b.literal {
            Literal::Text(y) => x.as_slice().cmp(y.as_slice()),
            Literal::Number(_) | Literal::Bool(_) | Literal::Null => Ordering::Greater,
        },
        Literal::Bool(_) | Literal::Null => {
            literal_kind(&a.literal).cmp(&literal_kind(&b.literal))
        }
    }
}

/// Whether a literal is less than a value.
#[tactic(auto, using(crate::proofs::Orders::telling))]
pub fn is_below<S: ComparedSide>(literal: &Constant, side: &S) -> bool
    ensures { result ≡ is_lt (value_cmp (constant_value literal.now) (S.value side.now)) }
{
    orders_values();
    match literal_kind(&literal.literal).cmp(&side.kind_number()) {
        Ordering::Less => true,
        Ordering::Greater => false,
        Ordering::Equal => side.compare_back(literal, Op::Lt),
    }
}

/// Whether a literal is less than a value, or ties with it.
#[tactic(auto, using(crate::proofs::Orders::telling))]
pub fn is_at_most<S: ComparedSide>(literal: &Constant, side: &S) -> bool
    ensures { result ≡ is_le (value_cmp (constant_value literal.now) (S.value side.now)) }
{
    orders_values();
    match literal_kind(&literal.literal).cmp(&side.kind_number()) {
        Ordering::Less => true,
        Ordering::Greater => false,
        Ordering::Equal => !side.compare_back(literal, Op::Gt),
    }
}
