//! The walk that checks a syntax tree.

ghost use Rattle.std.specs.Prelude.{◌≡◌, map};
ghost use Rattle.path_grammar.specs.Tree.{exprs_of, arguments_of};
ghost use Rattle.path_grammar.specs.View.{segments_view, selectors_view, selector_view, expr_view, comparable_view, call_view, argument_view, literal_view};
ghost use Rattle.path_types.specs.Numbers.{is_number};
ghost use Rattle.path_types.specs.Validity.{is_int, is_bound, is_literal, is_length, is_count_or_value, is_valid, are_valid, is_valid_selector, is_valid_expr, are_valid_exprs, is_valid_comparable, is_valid_call, are_valid_arguments, is_valid_argument};

use decimal_order::{reads_one_way, scan, within_limits};
use path_grammar::{
    Argument, Call, Comparable, Expr, IntLit, Literal, Segment, Selector, is_singular,
};

/// The greatest absolute value of a number in an index or a slice (RFC 9535, section 2.1).
pub const INT_LIMIT: i64 = 9_007_199_254_740_991;

fn is_int(number: IntLit) -> bool
    ensures { result ≡ is_int number }
{
    match number {
        IntLit::Within(n) => -INT_LIMIT <= n && n <= INT_LIMIT,
        IntLit::Beyond => false,
    }
}

fn is_bound(bound: Option<IntLit>) -> bool
    ensures { result ≡ is_bound bound }
{
    match bound {
        None => true,
        Some(number) => is_int(number),
    }
}

fn is_number(text: &[u8]) -> bool
    ensures { result ≡ is_number text.now }
{
    reads_one_way();
    match scan(text) {
        Some(decimal) => within_limits(&decimal),
        None => false,
    }
}

fn is_literal(literal: &Literal) -> bool
    ensures { result ≡ is_literal (literal_view literal.now) }
{
    match literal {
        Literal::Number(digits) => is_number(digits),
        Literal::Text(_) | Literal::Bool(_) | Literal::Null => true,
    }
}

fn is_length(name: &[u8]) -> bool
    ensures { result ≡ is_length name.now }
{
    name == b"length".as_slice()
}

fn is_count_or_value(name: &[u8]) -> bool
    ensures { result ≡ is_count_or_value name.now }
{
    name == b"count".as_slice() || name == b"value".as_slice()
}

#[cycle(valid)]
fn is_selector(selector: &Selector) -> bool
    ensures { result ≡ is_valid_selector (selector_view selector.now) }
{
    match selector {
        Selector::Name(_) | Selector::Wild => true,
        Selector::Index(number) => is_int(*number),
        Selector::Filter(condition) => is_expr(condition),
        Selector::Slice { start, stop, step } => is_bound(*start)
            && is_bound(*stop)
            && is_bound(*step),
    }
}

#[cycle(valid)]
#[tactic(auto, using(crate::proofs::Walks::selectors_more))]
fn are_selectors(selectors: &[Selector]) -> bool
    ensures { result ≡ are_valid (selectors_view selectors.now) }
{
    for selector in selectors {
        if !is_selector(selector) {
            return false;
        }
    }
    true
}

/// Whether the segments of a query are valid.
#[cycle(valid)]
#[tactic(auto, using(crate::proofs::Walks::segments_more))]
pub fn are_segments(segments: &[Segment]) -> bool
    ensures { result ≡ is_valid (segments_view segments.now) }
{
    for segment in segments {
        if !are_selectors(&segment.selectors) {
            return false;
        }
    }
    true
}

#[cycle(valid)]
#[tactic(auto, using(crate::proofs::Walks::exprs_more))]
fn are_exprs(operands: &[Expr]) -> bool
    ensures { result ≡ are_valid_exprs (exprs_of (map expr_view operands.now)) }
{
    for operand in operands {
        if !is_expr(operand) {
            return false;
        }
    }
    true
}

#[cycle(valid)]
fn is_expr(expr: &Expr) -> bool
    ensures { result ≡ is_valid_expr (expr_view expr.now) }
{
    match expr {
        Expr::Any(operands) => are_exprs(operands),
        Expr::Each(operands) => are_exprs(operands),
        Expr::Not(operand) => is_expr(operand),
        Expr::Compare(left, _, right) => is_comparable(left) && is_comparable(right),
        Expr::Test(query) => are_segments(&query.segments),
        Expr::TestCall(_) => false,
    }
}

#[cycle(valid)]
fn is_comparable(comparable: &Comparable) -> bool
    ensures { result ≡ is_valid_comparable (comparable_view comparable.now) }
{
    match comparable {
        Comparable::Lit(literal) => is_literal(literal),
        Comparable::Single(query) => {
            is_singular(&query.segments) && are_segments(&query.segments)
        }
        Comparable::Func(call) => is_call(call),
    }
}

#[cycle(valid)]
fn is_call(call: &Call) -> bool
    ensures { result ≡ is_valid_call (call_view call.now) }
{
    are_arguments(&call.name, &call.arguments)
}

#[cycle(valid)]
#[tactic(auto, using(crate::proofs::Walks::more_arguments))]
fn are_arguments(name: &[u8], arguments: &[Argument]) -> bool
    ensures { result ≡ are_valid_arguments name.now (arguments_of (map argument_view arguments.now)) }
{
    match arguments {
        [argument] => is_argument(name, argument),
        _ => false,
    }
}

#[cycle(valid)]
fn is_argument(name: &[u8], argument: &Argument) -> bool
    ensures { result ≡ is_valid_argument name.now (argument_view argument.now) }
{
    match argument {
        Argument::Lit(literal) => is_length(name) && is_literal(literal),
        Argument::Nodes(query) => {
            are_segments(&query.segments)
                && (is_length(name) && is_singular(&query.segments) || is_count_or_value(name))
        }
        Argument::Func(call) => is_length(name) && is_call(call),
        Argument::Logical(_) => false,
    }
}
