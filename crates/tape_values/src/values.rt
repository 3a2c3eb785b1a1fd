//! Values of a text, compared (RFC 9535, section 2.3.5.2.2).

ghost use Rattle.std.specs.Prelude.{◌≡◌, ◌<◌, length, Some, true, false, IsTrue, IfSome, MatchOption};
ghost use Rattle.json_tape.specs.Document.{count, node_at, following, IsIn, kind_of};
ghost use Rattle.json_tape.specs.Tree.{source_of};
ghost use Rattle.json_tape.specs.Nodes.{children};
ghost use Rattle.tape_values.specs.Comparison.{equal_trees, less_trees, value_of, equal_results, less_results};
ghost use Rattle.tape_values.specs.Pairs.{equal_each, are_twins, has_twin, each_has_twin, IsEnd};
ghost use Rattle.tape_values.specs.Contents.{IsNumberText, content_value, IsContent, MatchTwin};

use crate::digits::{Digits, compare_digits};
use crate::guesses::{guess, have_one_name};
use crate::strings::{StringValue, compare_strings};
use decimal_order::orders_values;
use json_tape::{Document, Kind, NodeId};
use std::cmp::Ordering;

/// What a side of a comparison is, with what its equality and its order need.
#[derive(Drop)]
pub enum Content<'a> {
    Nothing,
    Null,
    Bool(bool),
    Number(Digits<'a>),
    Text(StringValue<'a>),
    Array(NodeId),
    Object(NodeId),
}

/// The text of a number.
#[inline(always)]
pub fn number_text(doc: &Document, n: NodeId) -> &[u8]
    requires inside { n.0 < count doc.now }
    requires number { kind_of (node_at doc.now n.0).tree ≡ Kind.Number }
    ensures value { result.now ≡ (source_of (node_at doc.now n.0).tree).bytes }
    ensures number { IsNumberText result.now }
{
    doc.text(n)
}

/// What a value of a text is.
pub fn value_content(doc: &Document, n: NodeId) -> Content<'_>
    requires { n.0 < count doc.now }
    ensures value { content_value doc.now result ≡ Some (value_of (node_at doc.now n.0).tree) }
    ensures content { IsContent doc.now result }
{
    match doc.kind(n) {
        Kind::Null => Content::Null,
        Kind::Bool(is_true) => Content::Bool(is_true),
        Kind::Number => Content::Number(Digits::Written(number_text(doc, n))),
        Kind::Text => Content::Text(StringValue::Stored(n)),
        Kind::Array => Content::Array(n),
        Kind::Object => Content::Object(n),
    }
}

// How many members an object has.
#[tactic(auto, using(crate::proofs::Sizes::members_total))]
fn member_total(doc: &Document, n: NodeId) -> u32
    requires inside { n.0 < count doc.now }
    requires object { kind_of (node_at doc.now n.0).tree ≡ Kind.Object }
    ensures { result ≡ length (children (node_at doc.now n.0)) }
{
    match doc.length(n) {
        Some(total) => total,
        None => 0,
    }
}

// Whether two values are numbers of the same digits.
#[inline(always)]
#[tactic(auto, using(crate::proofs::Members::same_digits))]
fn have_same_digits(doc: &Document, a: NodeId, b: NodeId) -> bool
    requires left { a.0 < count doc.now }
    requires right { b.0 < count doc.now }
    ensures { IsTrue result → equal_trees (node_at doc.now a.0).tree (node_at doc.now b.0).tree ≡ true }
{
    orders_values();
    match (doc.kind(a), doc.kind(b)) {
        (Kind::Number, Kind::Number) => number_text(doc, a) == number_text(doc, b),
        _ => false,
    }
}

// Whether the values of two lists of siblings are equal, one by one.
#[cycle(equal)]
fn equal_siblings(doc: &Document, a: Option<NodeId>, b: Option<NodeId>) -> bool
    requires left { IsIn doc.now a }
    requires right { IsIn doc.now b }
    ensures { result ≡ equal_each (following doc.now a) (following doc.now b) }
{
    let mut left = a;
    let mut right = b;
    while let Some(x) = left {
        let Some(y) = right else {
            return false;
        };
        if !have_same_digits(doc, x, y) && !equal_values(doc, x, y) {
            return false;
        }
        left = doc.next_sibling(x);
        right = doc.next_sibling(y);
    }
    right.is_none()
}

// Whether two members are known not to be twins.
fn are_known(doc: &Document, m: NodeId, o: NodeId, unlike: Option<NodeId>) -> bool
    requires { IfSome unlike (λ u. are_twins (node_at doc.now m.0) (node_at doc.now u.0) ≡ false) }
    ensures { IsTrue result → are_twins (node_at doc.now m.0) (node_at doc.now o.0) ≡ false }
{
    let _ = doc;
    let _ = m;
    match unlike {
        None => false,
        Some(u) => u.0 == o.0,
    }
}

// Whether two members have one name and equal values. One is perhaps known not to be the first one's twin.
#[cycle(equal)]
fn are_twins(doc: &Document, m: NodeId, o: NodeId, unlike: Option<NodeId>) -> bool
    requires left { m.0 < count doc.now }
    requires right { o.0 < count doc.now }
    requires unlike { IfSome unlike (λ u. are_twins (node_at doc.now m.0) (node_at doc.now u.0) ≡ false) }
    ensures { result ≡ are_twins (node_at doc.now m.0) (node_at doc.now o.0) }
{
    if are_known(doc, m, o, unlike) {
        return false;
    }
    have_one_name(doc, m, o) && equal_values(doc, m, o)
}

// Whether the member that was guessed is this one's twin.
#[cycle(equal)]
fn is_twin(doc: &Document, m: NodeId, guess: Option<NodeId>) -> bool
    requires member { m.0 < count doc.now }
    requires guess { IsIn doc.now guess }
    ensures { MatchOption guess (result ≡ false) (λ o. result ≡ are_twins (node_at doc.now m.0) (node_at doc.now o.0)) }
{
    match guess {
        None => false,
        Some(o) => are_twins(doc, m, o, None),
    }
}

// A member that has this one's name and an equal value: among the members from `first` on, of which there are so many, and
// sought from `start` on and then from the first. One that is known to be none is passed over.
#[cycle(equal)]
#[tactic(auto, using(crate::proofs::Twins::searching))]
fn twin(
    doc: &Document,
    m: NodeId,
    first: Option<NodeId>,
    total: u32,
    start: Option<NodeId>,
    unlike: Option<NodeId>,
) -> Option<NodeId>
    requires member { m.0 < count doc.now }
    requires first { IsIn doc.now first }
    requires start { IsIn doc.now start }
    requires all { total ≡ length (following doc.now first) }
    requires end { IsEnd (following doc.now first) (following doc.now start) }
    requires unlike { IfSome unlike (λ u. are_twins (node_at doc.now m.0) (node_at doc.now u.0) ≡ false) }
    ensures { MatchTwin doc.now (node_at doc.now m.0) (following doc.now first) result }
{
    let mut next = start;
    for i in 0..total {
        let Some(o) = next.or(first) else {
            return None;
        };
        if are_twins(doc, m, o, unlike) {
            return Some(o);
        }
        next = doc.next_sibling(o);
    }
    None
}

// Whether a member of the object from `first` on, of which there are so many, has this one's name and an equal value. It is sought
// from `next` on, which is moved behind it; but where that has another name, at a guess first.
#[cycle(equal)]
#[tactic(auto, using(crate::proofs::Twins::guessing))]
fn has_twin(
    doc: &Document,
    m: NodeId,
    object: NodeId,
    first: Option<NodeId>,
    total: u32,
    next: &mut Option<NodeId>,
) -> bool
    requires member { m.0 < count doc.now }
    requires object { object.0 < count doc.now }
    requires first { IsIn doc.now first }
    requires members { following doc.now first ≡ children (node_at doc.now object.0) }
    requires next { IsIn doc.now next.old }
    requires all { total ≡ length (following doc.now first) }
    requires end { IsEnd (following doc.now first) (following doc.now next.old) }
    ensures has { result ≡ has_twin (node_at doc.now m.0) (following doc.now first) }
    ensures next { IsIn doc.now next.new }
    ensures end { IsEnd (following doc.now first) (following doc.now next.new) }
{
    let guess = guess(doc, m, object, *next, total);
    if is_twin(doc, m, guess) {
        return true;
    }
    let Some(found) = twin(doc, m, first, total, *next, guess) else {
        return false;
    };
    *next = doc.next_sibling(found);
    true
}

// Whether each member from `a` on has one of its name and of an equal value among those of the object from `b` on, of which there
// are so many. The search goes on behind the last one found, so that members in one order are looked at once.
#[cycle(equal)]
#[tactic(auto, using(crate::proofs::Twins::ends))]
fn have_twins(
    doc: &Document,
    a: Option<NodeId>,
    object: NodeId,
    b: Option<NodeId>,
    total: u32,
) -> bool
    requires left { IsIn doc.now a }
    requires object { object.0 < count doc.now }
    requires right { IsIn doc.now b }
    requires members { following doc.now b ≡ children (node_at doc.now object.0) }
    requires all { total ≡ length (following doc.now b) }
    ensures { result ≡ each_has_twin (following doc.now a) (following doc.now b) }
{
    let mut member = a;
    let mut next = b;
    while let Some(m) = member {
        if !has_twin(doc, m, object, b, total, &mut next) {
            return false;
        }
        member = doc.next_sibling(m);
    }
    true
}

#[cycle(equal)]
#[tactic(auto, using(crate::proofs::Members::objects))]
fn equal_objects(doc: &Document, a: NodeId, b: NodeId) -> bool
    requires left { a.0 < count doc.now }
    requires right { b.0 < count doc.now }
    requires left_object { kind_of (node_at doc.now a.0).tree ≡ Kind.Object }
    requires right_object { kind_of (node_at doc.now b.0).tree ≡ Kind.Object }
    ensures { result ≡ equal_trees (node_at doc.now a.0).tree (node_at doc.now b.0).tree }
{
    let total = member_total(doc, b);
    member_total(doc, a) == total
        && have_twins(doc, doc.first_child(a), b, doc.first_child(b), total)
}

/// Whether two sides are equal.
#[cycle(equal)]
#[inline(never)]
#[tactic(auto, using(crate::proofs::Members::arrays, crate::proofs::Orders::orders))]
pub fn equal_contents(doc: &Document, a: Content<'_>, b: Content<'_>) -> bool
    requires left { IsContent doc.now a }
    requires right { IsContent doc.now b }
    ensures { result ≡ equal_results (content_value doc.now a.entry) (content_value doc.now b.entry) }
{
    match (a, b) {
        (Content::Nothing, Content::Nothing) => true,
        (Content::Null, Content::Null) => true,
        (Content::Bool(a), Content::Bool(b)) => a == b,
        (Content::Number(a), Content::Number(b)) => compare_digits(a, b) == Ordering::Equal,
        (Content::Text(a), Content::Text(b)) => compare_strings(doc, a, b) == Ordering::Equal,
        (Content::Array(a), Content::Array(b)) => {
            equal_siblings(doc, doc.first_child(a), doc.first_child(b))
        }
        (Content::Object(a), Content::Object(b)) => equal_objects(doc, a, b),
        _ => false,
    }
}

/// Whether two values of a document are equal.
///
/// Numbers are equal if their decimal values are, strings if their scalar values are, and arrays if their elements are. Objects are equal if
/// they have equally many members, and each member has one of the same name with an equal value in the other object. Values of
/// different kinds are not equal.
///
/// No memory is taken, and no deeper calls are made than the values are deep. The time is linear in the bytes of the two
/// values where members stand in one order. Where they do not, a member is looked up by its name (`Document::twin`) where there are
/// more than 16, and else looked for from the last one found on.
#[cycle(equal)]
#[tactic(auto, using(crate::proofs::Members::arrays, crate::proofs::Orders::orders))]
pub fn equal_values(doc: &Document, a: NodeId, b: NodeId) -> bool
    requires left { a.0 < count doc.now }
    requires right { b.0 < count doc.now }
    ensures { result ≡ equal_trees (node_at doc.now a.0).tree (node_at doc.now b.0).tree }
{
    match (doc.kind(a), doc.kind(b)) {
        (Kind::Array, Kind::Array) => {
            equal_siblings(doc, doc.first_child(a), doc.first_child(b))
        }
        (Kind::Object, Kind::Object) => equal_objects(doc, a, b),
        _ => equal_contents(doc, value_content(doc, a), value_content(doc, b)),
    }
}

/// Whether the first side comes before the second.
#[tactic(auto, using(crate::proofs::Orders::orders))]
pub fn less_contents(doc: &Document, a: Content<'_>, b: Content<'_>) -> bool
    requires left { IsContent doc.now a }
    requires right { IsContent doc.now b }
    ensures { result ≡ less_results (content_value doc.now a.entry) (content_value doc.now b.entry) }
{
    match (a, b) {
        (Content::Number(a), Content::Number(b)) => compare_digits(a, b) == Ordering::Less,
        (Content::Text(a), Content::Text(b)) => compare_strings(doc, a, b) == Ordering::Less,
        _ => false,
    }
}

/// Whether the first of two values of a document comes before the second: of two numbers the lesser by decimal value, of two
/// strings the first by scalar values. Others have no order. No memory is taken.
pub fn less_values(doc: &Document, a: NodeId, b: NodeId) -> bool
    requires left { a.0 < count doc.now }
    requires right { b.0 < count doc.now }
    ensures { result ≡ less_trees (node_at doc.now a.0).tree (node_at doc.now b.0).tree }
{
    less_contents(doc, value_content(doc, a), value_content(doc, b))
}
