//! Comparisons of a filter (RFC 9535, section 2.3.5.2.2).

ghost use Rattle.std.specs.Prelude.{◌≡◌, ◌<◌, Some, None, false, IsTrue, MatchOption, IfSome};
ghost use Rattle.path_grammar.specs.View.{literal_view};
ghost use Rattle.path_types.specs.Validity.{is_literal};
ghost use Rattle.json_tape.specs.Document.{count, node_at, single, IsIn};
ghost use Rattle.tape_values.specs.Comparison.{a_number, literal_value, value_of, equal_results, less_results, compared, told_of};
ghost use Rattle.tape_values.specs.Contents.{content_value, digits_text, AreDigits, IsContent};
ghost use Rattle.tape_values.specs.Functions.{only_value, whole_number};
ghost use Rattle.tape_values.specs.Sides.{side_value, side_number, IsSide, IsNumberSide, IsNumberFound};

use crate::digits::{Digits, compare_digits};
use crate::sides::Side;
use crate::strings::{StringValue, compare_strings};
use crate::values::{Content, equal_contents, number_text, value_content};
use decimal_order::orders_values;
use json_tape::{Document, Kind, NodeId};
use path_grammar::{Literal, Op};
use path_meaning::{comparisons_are_told, tells, told_of};
use path_types::judges_numbers;

// What a literal is.
fn literal_content<'a>(doc: &Document, literal: &'a Literal) -> Content<'a>
    requires { IsTrue (is_literal (literal_view literal.now)) }
    ensures value { content_value doc.now result ≡ Some (literal_value (literal_view literal.now)) }
    ensures content { IsContent doc.now result }
{
    let _ = doc;
    judges_numbers();
    match literal {
        Literal::Number(digits) => Content::Number(Digits::Written(digits.as_slice())),
        Literal::Text(scalars) => Content::Text(StringValue::Written(scalars.as_slice())),
        Literal::Bool(is_true) => Content::Bool(*is_true),
        Literal::Null => Content::Null,
    }
}

// What a side is.
fn side_content<'a>(doc: &'a Document, side: &Side<'a>) -> Content<'a>
    requires { IsSide doc.now side.now }
    ensures value { content_value doc.now result ≡ side_value doc.now side.now }
    ensures content { IsContent doc.now result }
{
    match side {
        Side::Nothing => Content::Nothing,
        Side::Node(n) => value_content(doc, *n),
        Side::Literal(literal) => literal_content(doc, literal),
        Side::Whole(n) => Content::Number(Digits::Whole(*n)),
    }
}

// Whether contents of which neither is less are equal, as far as an operator asks it: `>=` asks it the other way round. They are compared once at most.
fn equal_for(doc: &Document, op: Op, a: Content<'_>, b: Content<'_>) -> bool
    requires left { IsContent doc.now a }
    requires right { IsContent doc.now b }
    requires less { less_results (content_value doc.now a) (content_value doc.now b) ≡ false }
    requires greater { less_results (content_value doc.now b) (content_value doc.now a) ≡ false }
    ensures { told_of result result false false op ≡ compared op (content_value doc.now a.entry) (content_value doc.now b.entry) }
{
    match op {
        Op::Lt | Op::Gt => false,
        Op::Ge => equal_contents(doc, b, a),
        _ => equal_contents(doc, a, b),
    }
}

/// Whether a comparison holds, whatever the sides are.
#[inline(never)]
#[tactic(auto, using(crate::proofs::Orders::orders))]
pub fn compare_contents(doc: &Document, op: Op, left: Side<'_>, right: Side<'_>) -> bool
    requires left { IsSide doc.now left }
    requires right { IsSide doc.now right }
    ensures { result ≡ compared op (side_value doc.now left.entry) (side_value doc.now right.entry) }
{
    comparisons_are_told();
    orders_values();
    match (side_content(doc, &left), side_content(doc, &right)) {
        (Content::Text(a), Content::Text(b)) => tells(op, compare_strings(doc, a, b)),
        (Content::Number(a), Content::Number(b)) => tells(op, compare_digits(a, b)),
        (a, b) => {
            let equal = equal_for(doc, op, a, b);
            told_of(equal, equal, false, false, op)
        }
    }
}

/// The digits of a side that is a number.
#[inline(always)]
pub fn side_digits<'a>(doc: &'a Document, side: &Side<'a>) -> Option<Digits<'a>>
    requires { IsSide doc.now side.now }
    ensures { MatchOption result (side_number doc.now side.now ≡ None) (λ digits. IsNumberSide doc.now side.now digits) }
{
    judges_numbers();
    match side {
        Side::Node(n) => match doc.kind(*n) {
            Kind::Number => Some(Digits::Written(number_text(doc, *n))),
            _ => None,
        },
        Side::Literal(Literal::Number(digits)) => Some(Digits::Written(digits.as_slice())),
        Side::Whole(n) => Some(Digits::Whole(*n)),
        Side::Nothing | Side::Literal(_) => None,
    }
}

/// Whether a comparison of numbers holds. They are compared once.
#[inline(always)]
pub fn compare_numbers(op: Op, a: Digits<'_>, b: Digits<'_>) -> bool
    requires left { AreDigits a }
    requires right { AreDigits b }
    ensures { result ≡ compared op (Some (a_number (digits_text a.entry))) (Some (a_number (digits_text b.entry))) }
{
    orders_values();
    tells(op, compare_digits(a, b))
}

// Whether a comparison of a node's value, or of Nothing, with a literal holds, whatever they are.
#[inline(never)]
fn compare_any(doc: &Document, found: Option<NodeId>, op: Op, literal: &Literal) -> bool
    requires inside { IsIn doc.now found }
    requires literal { IsTrue (is_literal (literal_view literal.now)) }
    ensures { result ≡ compared op (only_value (single doc.now found)) (Some (literal_value (literal_view literal.now))) }
{
    match found {
        None => compare_contents(doc, op, Side::Nothing, Side::Literal(literal)),
        Some(n) => compare_contents(doc, op, Side::Node(n), Side::Literal(literal)),
    }
}

// The text of a node's value that is a number.
#[inline(always)]
fn number_found(doc: &Document, found: Option<NodeId>) -> Option<&[u8]>
    requires inside { IsIn doc.now found }
    ensures { IfSome result (λ text. IsNumberFound doc.now found text.now) }
{
    match found {
        None => None,
        Some(n) => match doc.kind(n) {
            Kind::Number => Some(number_text(doc, n)),
            _ => None,
        },
    }
}

/// Whether a comparison of a node's value, or of Nothing, with a literal holds. Most are of numbers.
#[inline(always)]
pub fn compare_found(doc: &Document, found: Option<NodeId>, op: &Op, literal: &Literal) -> bool
    requires inside { IsIn doc.now found }
    requires literal { IsTrue (is_literal (literal_view literal.now)) }
    ensures { result ≡ compared op.now (only_value (single doc.now found)) (Some (literal_value (literal_view literal.now))) }
{
    judges_numbers();
    match (number_found(doc, found), literal) {
        (Some(a), Literal::Number(b)) => {
            compare_numbers(*op, Digits::Written(a), Digits::Written(b.as_slice()))
        }
        _ => compare_any(doc, found, *op, literal),
    }
}

/// Whether a comparison of a length or a count with a literal holds. Most are of numbers.
#[inline(always)]
pub fn compare_whole(doc: &Document, total: usize, op: &Op, literal: &Literal) -> bool
    requires literal { IsTrue (is_literal (literal_view literal.now)) }
    ensures { result ≡ compared op.now (Some (whole_number total)) (Some (literal_value (literal_view literal.now))) }
{
    judges_numbers();
    match literal {
        Literal::Number(digits) => {
            compare_numbers(
                *op,
                Digits::Whole(total),
                Digits::Written(digits.as_slice()),
            )
        }
        _ => compare_contents(doc, *op, Side::Whole(total), Side::Literal(literal)),
    }
}

/// Whether a comparison holds. It takes no memory.
pub fn compare<'a>(doc: &'a Document, op: Op, left: &Side<'a>, right: &Side<'a>) -> bool
    requires left { IsSide doc.now left.now }
    requires right { IsSide doc.now right.now }
    ensures { result ≡ compared op (side_value doc.now left.now) (side_value doc.now right.now) }
{
    match (side_digits(doc, left), side_digits(doc, right)) {
        (Some(a), Some(b)) => compare_numbers(op, a, b),
        _ => compare_contents(doc, op, *left, *right),
    }
}

/// Whether two values of a document are equal, and whether the first comes before the second. They are looked at once. It takes no memory.
#[tactic(auto, using(crate::proofs::Orders::orders))]
pub fn equal_and_less(doc: &Document, a: NodeId, b: NodeId) -> (bool, bool)
    requires left { a.0 < count doc.now }
    requires right { b.0 < count doc.now }
    ensures equal { result.0 ≡ equal_results (Some (value_of (node_at doc.now a.0).tree)) (Some (value_of (node_at doc.now b.0).tree)) }
    ensures less { result.1 ≡ less_results (Some (value_of (node_at doc.now a.0).tree)) (Some (value_of (node_at doc.now b.0).tree)) }
{
    match (value_content(doc, a), value_content(doc, b)) {
        (Content::Text(x), Content::Text(y)) => {
            let order = compare_strings(doc, x, y);
            (order.is_eq(), order.is_lt())
        }
        (Content::Number(x), Content::Number(y)) => {
            let order = compare_digits(x, y);
            (order.is_eq(), order.is_lt())
        }
        (x, y) => (equal_contents(doc, x, y), false),
    }
}
