//! Conditions on one side, read from the syntax tree of a query.

ghost use Rattle.std.specs.Prelude.{◌≡◌, length, map, IsTrue, IfOk, IfSome};
ghost use Rattle.path_grammar.specs.Tree as tree;
ghost use Rattle.path_grammar.specs.Tree.{exprs_of};
ghost use Rattle.path_grammar.specs.View.{literal_view, comparable_view, call_view, expr_view, nested_view, segment_view};
ghost use Rattle.path_types.specs.Validity.{is_literal, is_valid_expr, are_valid_exprs, is_valid_comparable};
ghost use Rattle.decisions.specs.Tree.{expr_of, exprs_of_tests, tests_of, listed};
ghost use Rattle.condition_reader.specs.Turns.{dealt};
ghost use Rattle.decisions.specs.Views.{constant_view, test_view};

use decisions::{Constant, Decision, Test};
use path_grammar::{
    Argument, Call, Comparable, Expr, IntLit, Literal, Op, Segment, Selector, SubQuery,
};
use std::alloc::{AllocError, Global};

fn constant(alloc: Global, written: &Literal) -> Result<Constant, AllocError>
    requires valid { IsTrue (is_literal (literal_view written.now)) }
    ensures { IfOk result (λ made. constant_view made ≡ literal_view written.now) }
{
    let literal = match written {
        Literal::Number(digits) => Literal::Number(digits.to_vec(alloc)?),
        Literal::Text(scalars) => Literal::Text(scalars.to_vec(alloc)?),
        Literal::Bool(is_true) => Literal::Bool(*is_true),
        Literal::Null => Literal::Null,
    };
    Ok(Constant { literal })
}

fn are_one_index(a: IntLit, b: IntLit) -> bool
    ensures { IsTrue result → a ≡ b }
{
    match (a, b) {
        (IntLit::Within(x), IntLit::Within(y)) => x == y,
        (IntLit::Beyond, IntLit::Beyond) => true,
        _ => false,
    }
}

// Whether two segments are one name, or one index.
fn are_one_segment(a: &Segment, b: &Segment) -> bool
    ensures { IsTrue result → segment_view a.now ≡ segment_view b.now }
{
    if a.descend || b.descend {
        return false;
    }
    match (a.selectors.as_slice(), b.selectors.as_slice()) {
        ([Selector::Name(x)], [Selector::Name(y)]) => x.as_slice() == y.as_slice(),
        ([Selector::Index(i)], [Selector::Index(j)]) => are_one_index(*i, *j),
        _ => false,
    }
}

fn are_one_path(a: &[Segment], b: &[Segment]) -> bool
    ensures { IsTrue result → map segment_view a.now ≡ map segment_view b.now }
{
    if a.len() != b.len() {
        return false;
    }
    for i in 0..a.len() {
        if !are_one_segment(&a[i], &b[i]) {
            return false;
        }
    }
    true
}

// Whether two queries are known to be one, of names and indexes.
fn are_one_query(a: &SubQuery, b: &SubQuery) -> bool
    ensures { IsTrue result → nested_view a.now ≡ nested_view b.now }
{
    a.from_root == b.from_root && are_one_path(&a.segments, &b.segments)
}

// Whether two calls are known to be one.
fn are_one_call(a: &Call, b: &Call) -> bool
    ensures { IsTrue result → call_view a.now ≡ call_view b.now }
{
    if a.name.as_slice() != b.name.as_slice() {
        return false;
    }
    match (a.arguments.as_slice(), b.arguments.as_slice()) {
        ([Argument::Nodes(x)], [Argument::Nodes(y)]) => are_one_query(x, y),
        _ => false,
    }
}

// Whether two sides are known to be one, which is no literal.
pub fn are_one_side(a: &Comparable, b: &Comparable) -> bool
    ensures { IsTrue result → comparable_view a.now ≡ comparable_view b.now }
{
    match a {
        Comparable::Lit(_) => false,
        Comparable::Single(x) => match b {
            Comparable::Single(y) => are_one_query(x, y),
            Comparable::Lit(_) | Comparable::Func(_) => false,
        },
        Comparable::Func(x) => match b {
            Comparable::Func(y) => are_one_call(x, y),
            Comparable::Lit(_) | Comparable::Single(_) => false,
        },
    }
}

// A literal against the side, or against another.
fn against(
    alloc: Global,
    side: &Comparable,
    left: &Literal,
    op: Op,
    right: &Comparable,
) -> Result<Option<Test>, AllocError>
    requires left { IsTrue (is_literal (literal_view left.now)) }
    requires right { IsTrue (is_valid_comparable (comparable_view right.now)) }
    ensures { IfOk result (λ made. IfSome made (λ test. expr_of (comparable_view side.now) (test_view test) ≡ tree.compare (tree.lit (literal_view left.now)) op (comparable_view right.now))) }
{
    match right {
        Comparable::Lit(literal) => {
            let first = constant(alloc, left)?;
            let second = constant(alloc, literal)?;
            Ok(Some(Test::Literals(first, op, second)))
        }
        Comparable::Single(_) | Comparable::Func(_) => {
            if !are_one_side(side, right) {
                return Ok(None);
            }
            let literal = constant(alloc, left)?;
            Ok(Some(Test::Against(literal, op)))
        }
    }
}

// `@` or `$` with one of these.
fn pair(side: &Comparable, left: &SubQuery, op: Op, right: &SubQuery) -> Option<Test>
    ensures { IfSome result (λ test. expr_of (comparable_view side.now) (test_view test) ≡ tree.compare (tree.single (nested_view left.now)) op (tree.single (nested_view right.now))) }
{
    let _ = side;
    if !left.segments.is_empty() || !right.segments.is_empty() {
        return None;
    }
    if left.from_root == right.from_root {
        Some(Test::Itself(left.from_root, op))
    } else {
        Some(Test::Rooted(left.from_root, op))
    }
}

// Two sides that are no literals.
fn sides(side: &Comparable, left: &Comparable, op: Op, right: &Comparable) -> Option<Test>
    ensures { IfSome result (λ test. expr_of (comparable_view side.now) (test_view test) ≡ tree.compare (comparable_view left.now) op (comparable_view right.now)) }
{
    match left {
        Comparable::Lit(_) | Comparable::Func(_) => None,
        Comparable::Single(x) => match right {
            Comparable::Lit(_) | Comparable::Func(_) => None,
            Comparable::Single(y) => pair(side, x, op, y),
        },
    }
}

// What is no literal against a literal, or another.
fn value(
    alloc: Global,
    side: &Comparable,
    left: &Comparable,
    op: Op,
    right: &Comparable,
) -> Result<Option<Test>, AllocError>
    requires right { IsTrue (is_valid_comparable (comparable_view right.now)) }
    ensures { IfOk result (λ made. IfSome made (λ test. expr_of (comparable_view side.now) (test_view test) ≡ tree.compare (comparable_view left.now) op (comparable_view right.now))) }
{
    match right {
        Comparable::Single(_) | Comparable::Func(_) => Ok(sides(side, left, op, right)),
        Comparable::Lit(literal) => {
            if !are_one_side(side, left) {
                return Ok(None);
            }
            let literal = constant(alloc, literal)?;
            Ok(Some(Test::Value(op, literal)))
        }
    }
}

// A comparison.
fn comparison(
    alloc: Global,
    side: &Comparable,
    left: &Comparable,
    op: Op,
    right: &Comparable,
) -> Result<Option<Test>, AllocError>
    requires left { IsTrue (is_valid_comparable (comparable_view left.now)) }
    requires right { IsTrue (is_valid_comparable (comparable_view right.now)) }
    ensures { IfOk result (λ made. IfSome made (λ test. expr_of (comparable_view side.now) (test_view test) ≡ tree.compare (comparable_view left.now) op (comparable_view right.now))) }
{
    match left {
        Comparable::Lit(literal) => against(alloc, side, literal, op, right),
        Comparable::Single(_) | Comparable::Func(_) => value(alloc, side, left, op, right),
    }
}

// The condition on this side, if the expression is one.
#[cycle(reading)]
fn read(alloc: Global, expr: &Expr, side: &Comparable) -> Result<Option<Test>, AllocError>
    requires valid { IsTrue (is_valid_expr (expr_view expr.now)) }
    ensures { IfOk result (λ made. IfSome made (λ test. expr_of (comparable_view side.now) (test_view test) ≡ expr_view expr.now)) }
{
    match expr {
        Expr::Any(operands) => match read_all(alloc, operands, side)? {
            None => Ok(None),
            Some(tests) => Ok(Some(Test::Any(tests))),
        },
        Expr::Each(operands) => match read_all(alloc, operands, side)? {
            None => Ok(None),
            Some(tests) => Ok(Some(Test::Each(tests))),
        },
        Expr::Not(operand) => match read(alloc, operand, side)? {
            None => Ok(None),
            Some(test) => Ok(Some(Test::Not(Box::new(alloc, test)?))),
        },
        Expr::Compare(left, op, right) => comparison(alloc, side, left, *op, right),
        Expr::Test(query) => {
            if query.segments.is_empty() {
                Ok(Some(Test::Present(query.from_root)))
            } else {
                Ok(None)
            }
        }
        Expr::TestCall(_) => Ok(None),
    }
}

#[cycle(reading)]
fn read_all(
    alloc: Global,
    operands: &[Expr],
    side: &Comparable,
) -> Result<Option<Vec<Test>>, AllocError>
    requires valid { IsTrue (are_valid_exprs (exprs_of (map expr_view operands.now))) }
    ensures { IfOk result (λ made. IfSome made (λ tests. exprs_of_tests (comparable_view side.now) (tests_of (map test_view tests.items)) ≡ exprs_of (map expr_view operands.now))) }
{
    let mut made = Vec::new(alloc);
    for operand in operands {
        match read(alloc, operand, side)? {
            None => return Ok(None),
            Some(test) => made.push(test)?,
        }
    }
    Ok(Some(made))
}

// So many comparisons are made one by one.
pub const FEW: usize = 3;

// How many comparisons there are.
#[cycle(sizes)]
fn size(test: &Test) -> usize {
    match test {
        Test::Any(operands) => size_of_all(operands),
        Test::Each(operands) => size_of_all(operands),
        Test::Not(operand) => size(operand),
        Test::Value(..) | Test::Against(..) | Test::Literals(..) => 1,
        Test::Present(_) | Test::Itself(..) | Test::Rooted(..) => 1,
    }
}

#[cycle(sizes)]
fn size_of_all(operands: &[Test]) -> usize {
    let mut sum: usize = 0;
    for operand in operands {
        sum = sum.saturating_add(size(operand));
    }
    sum
}

// The decision of a condition that is large enough.
fn decision_of(alloc: Global, test: Test) -> Result<Option<Decision>, AllocError>
    ensures { IfOk result (λ made. IfSome made (λ decision. decision ≡ test)) }
{
    if size(&test) <= FEW {
        return Ok(None);
    }
    Ok(Some(Decision::new(alloc, test)?))
}

/// The decision of a condition on this side, if the expression is one, of more than three comparisons. `AllocError` where a growth was
/// refused.
pub fn decide(alloc: Global, side: &Comparable, expr: &Expr) -> Result<Option<Decision>, AllocError>
    requires valid { IsTrue (is_valid_expr (expr_view expr.now)) }
    ensures { IfOk result (λ made. IfSome made (λ decision. expr_of (comparable_view side.now) (test_view decision) ≡ expr_view expr.now)) }
{
    match read(alloc, expr, side)? {
        None => Ok(None),
        Some(test) => decision_of(alloc, test),
    }
}

// The conditions on this side of the operands with this number, if they all are.
fn read_group(
    alloc: Global,
    operands: &[Expr],
    numbers: &[usize],
    number: usize,
    side: &Comparable,
) -> Result<Option<Vec<Test>>, AllocError>
    requires valid { IsTrue (are_valid_exprs (exprs_of (map expr_view operands.now))) }
    requires each { length numbers.now ≡ length operands.now }
    ensures { IfOk result (λ made. IfSome made (λ tests. exprs_of_tests (comparable_view side.now) (tests_of (map test_view tests.items)) ≡ exprs_of (map expr_view (dealt numbers.now number operands.now)))) }
{
    let mut made = Vec::new(alloc);
    for i in 0..operands.len() {
        if numbers[i] != number {
            continue;
        }
        match read(alloc, &operands[i], side)? {
            None => return Ok(None),
            Some(test) => made.push(test)?,
        }
    }
    Ok(Some(made))
}

/// The decision of the operands with this number, with `||` between them, or with `&&`.
pub fn decide_group(
    alloc: Global,
    side: &Comparable,
    is_any: bool,
    operands: &[Expr],
    numbers: &[usize],
    number: usize,
) -> Result<Option<Decision>, AllocError>
    requires valid { IsTrue (are_valid_exprs (exprs_of (map expr_view operands.now))) }
    requires each { length numbers.now ≡ length operands.now }
    ensures { IfOk result (λ made. IfSome made (λ decision. expr_of (comparable_view side.now) (test_view decision) ≡ listed is_any (exprs_of (map expr_view (dealt numbers.now number operands.now))))) }
{
    match read_group(alloc, operands, numbers, number, side)? {
        None => Ok(None),
        Some(tests) => {
            if is_any {
                decision_of(alloc, Test::Any(tests))
            } else {
                decision_of(alloc, Test::Each(tests))
            }
        }
    }
}

// The side that stands against a literal.
fn side_of_two<'a>(left: &'a Comparable, right: &'a Comparable) -> Option<&'a Comparable> {
    match (left, right) {
        (Comparable::Lit(_), Comparable::Lit(_)) => None,
        (Comparable::Lit(_), _) => Some(right),
        (_, Comparable::Lit(_)) => Some(left),
        _ => None,
    }
}

/// The first side in an expression that stands against a literal.
#[cycle(sides)]
pub fn side_in(expr: &Expr) -> Option<&Comparable> {
    match expr {
        Expr::Any(operands) => side_in_any(operands),
        Expr::Each(operands) => side_in_any(operands),
        Expr::Not(operand) => side_in(operand),
        Expr::Compare(left, _, right) => side_of_two(left, right),
        Expr::Test(_) | Expr::TestCall(_) => None,
    }
}

#[cycle(sides)]
fn side_in_any(operands: &[Expr]) -> Option<&Comparable> {
    for operand in operands {
        if let Some(side) = side_in(operand) {
            return Some(side);
        }
    }
    None
}
