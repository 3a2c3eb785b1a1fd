//! The sides of a comparison, found and compared.

ghost use Rattle.std.specs.Prelude.{◌≡◌, ◌<◌, Some, None, option_map, IsTrue, IfSome};
ghost use Rattle.json_tape.specs.Document.{count, node_at, IsIn};
ghost use Rattle.path_grammar.specs.View.{literal_view};
ghost use Rattle.tape_values.specs.Comparison.{Value, compared, value_of, literal_value};
ghost use Rattle.tape_values.specs.Functions.{length_value, whole_number};
ghost use Rattle.tape_values.specs.Sides.{side_value, IsSide};
ghost use Rattle.decisions.specs.Tree.{meets_root};
ghost use Rattle.decisions.specs.Truth.{IsRelated};
ghost use Rattle.decisions.specs.Views.{test_view};
ghost use Rattle.compared_sides.specs.Answered.{AreRight};
ghost use Rattle.compared_sides.specs.Counted.{AreCounted};
ghost use Rattle.compared_sides.specs.Values.{value_found};
ghost use Rattle.decisions.specs.Decided.{AreApart, IsCell};

use crate::answers::{Compared, compare_once};
use crate::deciding::SideIn;
use crate::lengths::{Lengths, length_once};
use decisions::{Constant, Decision, Relation, Scale};
use json_tape::{Document, Kind, NodeId};
use path_grammar::{Literal, Op};
use path_meaning::told_of;
use tape_values::{Side, compare_sides, compare_whole};

// The most bytes of a string that is compared each time.
const SHORT: usize = 64;

// The most bytes of a value that is compared each time, whatever it is.
const SHORTEST: usize = 6;

/// The value of a node, or Nothing.
pub fn side_found<'a>(doc: &Document, found: Option<NodeId>) -> Side<'a>
    requires { IsIn doc.now found }
    ensures value { side_value doc.now result ≡ value_found doc.now found }
    ensures side { IsSide doc.now result }
{
    let _ = doc;
    match found {
        None => Side::Nothing,
        Some(n) => Side::Node(n),
    }
}

// How many scalar values, elements or members there are.
fn total_of(doc: &Document, side: Side<'_>, lengths: &mut Lengths) -> Option<usize>
    requires side { IsSide doc.now side }
    requires before { AreCounted doc.now lengths.old.kept.items }
    ensures value { length_value (side_value doc.now side.entry) ≡ option_map whole_number result }
    ensures after { AreCounted doc.now lengths.new.kept.items }
{
    match side {
        Side::Node(n) => Some(length_once(doc, n, lengths)? as usize),
        Side::Literal(Literal::Text(scalars)) => Some(scalars.len()),
        _ => None,
    }
}

/// How many scalar values, elements or members there are.
pub fn length_of<'a>(doc: &Document, side: Side<'_>, lengths: &mut Lengths) -> Side<'a>
    requires side { IsSide doc.now side }
    requires before { AreCounted doc.now lengths.old.kept.items }
    ensures value { side_value doc.now result ≡ length_value (side_value doc.now side.entry) }
    ensures side { IsSide doc.now result }
    ensures after { AreCounted doc.now lengths.new.kept.items }
{
    match total_of(doc, side, lengths) {
        None => Side::Nothing,
        Some(total) => Side::Whole(total),
    }
}

/// Whether a comparison of a length with a literal holds.
#[inline(always)]
pub fn compare_length(
    doc: &Document,
    side: Side<'_>,
    op: &Op,
    constant: &Constant,
    lengths: &mut Lengths,
) -> bool
    requires side { IsSide doc.now side }
    requires before { AreCounted doc.now lengths.old.kept.items }
    ensures held { result ≡ compared op.now (length_value (side_value doc.now side.entry)) (Some (literal_value (literal_view constant.now.literal))) }
    ensures after { AreCounted doc.now lengths.new.kept.items }
{
    match total_of(doc, side, lengths) {
        None => one_missing(*op),
        Some(total) => compare_whole(doc, total, op, &constant.literal),
    }
}

// Whether a number has an exponent: such numbers are taken apart to be compared.
fn has_exponent(number: &[u8]) -> bool {
    number.contains(&b'e') || number.contains(&b'E')
}

// Whether a comparison with this value may take long: an array, an object, a long string or a number with an exponent.
#[inline(always)]
fn is_costly(doc: &Document, n: NodeId) -> bool
    requires { n.0 < count doc.now }
{
    let text = doc.text(n);
    if text.len() <= SHORTEST {
        return false;
    }
    match doc.kind(n) {
        Kind::Array | Kind::Object => true,
        Kind::Text => text.len() > SHORT,
        Kind::Number => has_exponent(text),
        Kind::Null | Kind::Bool(_) => false,
    }
}

// Whether a comparison of two nodes' values holds, by what is kept of them.
#[inline(never)]
fn compare_kept(
    doc: &Document,
    op: Op,
    a: NodeId,
    b: NodeId,
    answers: &mut Vec<Option<Compared>>,
) -> bool
    requires left { a.0 < count doc.now }
    requires right { b.0 < count doc.now }
    requires before { AreRight doc.now answers.old.items }
    ensures held { result ≡ compared op (Some (value_of (node_at doc.now a.0).tree)) (Some (value_of (node_at doc.now b.0).tree)) }
    ensures after { AreRight doc.now answers.new.items }
{
    let answer = match op {
        Op::Gt | Op::Ge => compare_once(doc, answers, b, a),
        _ => compare_once(doc, answers, a, b),
    };
    told_of(
        answer.is_equal,
        answer.is_equal,
        answer.is_less,
        answer.is_less,
        op,
    )
}

// Whether a comparison of Nothing with Nothing holds.
fn both_missing(op: Op) -> bool
    ensures { result ≡ compared op None None }
{
    told_of(true, true, false, false, op)
}

// Whether a comparison of a value with Nothing holds, on whichever side that is.
fn one_missing(op: Op) -> bool
    ensures right { (v : Value) → result ≡ compared op (Some v) None }
    ensures left { (v : Value) → result ≡ compared op None (Some v) }
{
    told_of(false, false, false, false, op)
}

/// Whether a comparison holds. Those of two arrays, objects, long strings or numbers with exponents are
/// made once, while they are kept.
#[inline(always)]
pub fn compare(
    doc: &Document,
    op: Op,
    left: &Side<'_>,
    right: &Side<'_>,
    answers: &mut Vec<Option<Compared>>,
) -> bool
    requires left { IsSide doc.now left.now }
    requires right { IsSide doc.now right.now }
    requires before { AreRight doc.now answers.old.items }
    ensures held { result ≡ compared op (side_value doc.now left.now) (side_value doc.now right.now) }
    ensures after { AreRight doc.now answers.new.items }
{
    match (left, right) {
        (Side::Node(a), Side::Node(b)) => {
            if is_costly(doc, *a) && is_costly(doc, *b) {
                compare_kept(doc, op, *a, *b, answers)
            } else {
                compare_sides(doc, op, left, right)
            }
        }
        (Side::Nothing, Side::Nothing) => both_missing(op),
        (Side::Nothing, Side::Node(_) | Side::Literal(_) | Side::Whole(_)) => one_missing(op),
        (Side::Node(_) | Side::Literal(_) | Side::Whole(_), Side::Nothing) => one_missing(op),
        _ => compare_sides(doc, op, left, right),
    }
}

// How the values of a node and the root compare.
#[inline(never)]
fn relation(doc: &Document, child: NodeId, answers: &mut Vec<Option<Compared>>) -> Relation
    requires inside { child.0 < count doc.now }
    requires before { AreRight doc.now answers.old.items }
    ensures related { IsRelated result (Some (value_of (node_at doc.now child.0).tree)) (Some (value_of (node_at doc.now 0).tree)) }
    ensures after { AreRight doc.now answers.new.items }
{
    let node = Side::Node(child);
    let root = Side::Node(doc.root());
    Relation {
        is_equal: compare(doc, Op::Eq, &node, &root, answers),
        is_equal_back: compare(doc, Op::Eq, &root, &node, answers),
        is_less: compare(doc, Op::Lt, &node, &root, answers),
        is_greater: compare(doc, Op::Lt, &root, &node, answers),
    }
}

/// How the values of a node and the root compare, where a condition asks.
#[inline(always)]
pub fn related(
    doc: &Document,
    decision: &Decision,
    child: NodeId,
    answers: &mut Vec<Option<Compared>>,
) -> Relation
    requires inside { child.0 < count doc.now }
    requires before { AreRight doc.now answers.old.items }
    ensures related { IsTrue (meets_root (test_view decision.now)) → IsRelated result (Some (value_of (node_at doc.now child.0).tree)) (Some (value_of (node_at doc.now 0).tree)) }
    ensures after { AreRight doc.now answers.new.items }
{
    if decision.is_rooted() {
        relation(doc, child, answers)
    } else {
        Relation::apart()
    }
}

// Whether the values of a node and the root are known to be of two kinds.
fn are_apart(doc: &Document, child: NodeId, answers: &mut Vec<Option<Compared>>) -> bool
    requires inside { child.0 < count doc.now }
    requires before { AreRight doc.now answers.old.items }
    ensures apart { IsTrue result → AreApart (Some (value_of (node_at doc.now child.0).tree)) (Some (value_of (node_at doc.now 0).tree)) }
    ensures after { AreRight doc.now answers.new.items }
{
    let relation = relation(doc, child, answers);
    relation.is(Relation::apart())
}

// The cell of a node on a scale, beside the length of the root.
fn cell_beside(
    doc: &Document,
    scale: &Scale,
    child: NodeId,
    lengths: &mut Lengths,
    answers: &mut Vec<Option<Compared>>,
) -> Option<usize>
    requires inside { child.0 < count doc.now }
    requires rooted { IsTrue scale.now.is_rooted }
    requires lengths { AreCounted doc.now lengths.old.kept.items }
    requires answers { AreRight doc.now answers.old.items }
    ensures cell { IfSome result (λ i. IsCell (node_at doc.now 0) (node_at doc.now child.0) scale.now i) }
    ensures lengths { AreCounted doc.now lengths.new.kept.items }
    ensures answers { AreRight doc.now answers.new.items }
{
    if !are_apart(doc, child, answers) {
        return None;
    }
    let node = SideIn {
        doc,
        side: Side::Node(child),
    };
    let length = length_of(doc, Side::Node(child), lengths);
    match total_of(doc, Side::Node(doc.root()), lengths) {
        None => None,
        Some(total) => scale.cell_beside(total, &node, &SideIn { doc, side: length }),
    }
}

/// The cell of a node on a scale, where it has one.
pub fn cell_of(
    doc: &Document,
    scale: &Scale,
    child: NodeId,
    lengths: &mut Lengths,
    answers: &mut Vec<Option<Compared>>,
) -> Option<usize>
    requires inside { child.0 < count doc.now }
    requires lengths { AreCounted doc.now lengths.old.kept.items }
    requires answers { AreRight doc.now answers.old.items }
    ensures cell { IfSome result (λ i. IsCell (node_at doc.now 0) (node_at doc.now child.0) scale.now i) }
    ensures lengths { AreCounted doc.now lengths.new.kept.items }
    ensures answers { AreRight doc.now answers.new.items }
{
    if scale.is_rooted {
        return cell_beside(doc, scale, child, lengths, answers);
    }
    let node = SideIn {
        doc,
        side: Side::Node(child),
    };
    let length = length_of(doc, Side::Node(child), lengths);
    scale.cell(&node, &SideIn { doc, side: length })
}
