//! The selector of an index (RFC 9535, section 2.3.3).

ghost use Rattle.std.specs.Prelude.{◌≡◌, ◌<◌, ◌≤◌, length, drop, Some, IfSome};
ghost use Rattle.std.specs.List.{Contains};
ghost use Rattle.json_tape.specs.Document.{count, node_at, following, single, IsIn};
ghost use Rattle.json_tape.specs.Nodes.{children, elements};
ghost use Rattle.tape_values.specs.Selection.{nth, at_index, position_in};

use json_tape::laws::elements_stand_by_place;
use json_tape::{Document, Kind, Lead, NodeId};
use path_grammar::IntLit;

// The first element of an array.
#[tactic(auto, using(crate::proofs::Elements::arrays))]
fn first_element(doc: &Document, n: NodeId) -> Option<NodeId>
    requires { n.0 < count doc.now }
    ensures nodes { following doc.now result ≡ elements (node_at doc.now n.0) }
    ensures inside { IsIn doc.now result }
{
    match doc.kind(n) {
        Kind::Array => doc.first_child(n),
        _ => None,
    }
}

/// How many elements there are in an array; a value that is none has none.
#[tactic(auto, using(crate::proofs::Elements::arrays))]
pub fn element_total(doc: &Document, n: NodeId) -> u32
    requires { n.0 < count doc.now }
    ensures { result ≡ length (elements (node_at doc.now n.0)) }
{
    match doc.kind(n) {
        Kind::Array => match doc.length(n) {
            Some(total) => total,
            None => 0,
        },
        _ => 0,
    }
}

// The place of an index among so many elements.
fn position(i: i64, total: u32) -> Option<u32>
    ensures value { result ≡ position_in i total }
    ensures below { IfSome result (λ place. place < total) }
{
    let distance = i.unsigned_abs();
    let whole = u64::from(total);
    if 0 <= i {
        if distance < whole {
            Some(distance as u32)
        } else {
            None
        }
    } else if distance <= whole {
        Some((whole - distance) as u32)
    } else {
        None
    }
}

// The value so many places on, and those behind it.
#[tactic(auto, using(crate::proofs::Dropped::skipping))]
fn skip(doc: &Document, first: Option<NodeId>, place: u32) -> Option<NodeId>
    requires { IsIn doc.now first }
    ensures nodes { following doc.now result ≡ drop place (following doc.now first) }
    ensures inside { IsIn doc.now result }
{
    let mut child = first;
    for _ in 0..place {
        let Some(c) = child else {
            return None;
        };
        child = doc.next_sibling(c);
    }
    child
}

// The child of a value in which the one before this number lies.
fn child_around(doc: &Document, n: NodeId, end: u32) -> Option<NodeId>
    requires some { 0 < end }
    requires end { end ≤ count doc.now }
    ensures inside { IsIn doc.now result }
    ensures child { IfSome result (λ p. Contains (children (node_at doc.now n.0)) (node_at doc.now p.0)) }
{
    let mut p = NodeId(end - 1);
    while let Some(up) = doc.parent(p) {
        if up.0 == n.0 {
            return Some(p);
        }
        p = up;
    }
    None
}

// A number from `low` on and below `high` that is as far between them as the place is between two others.
fn number_between(low: u32, high: u32, from: u32, to: u32, place: u32) -> u32
    requires numbers { low < high }
    requires least { from ≤ place }
    requires most { place < to }
    ensures least { low ≤ result }
    ensures most { result < high }
{
    let numbers = u64::from(high - low);
    let passed = numbers * u64::from(place - from) / u64::from(to - from);
    low + passed.min(numbers - 1) as u32
}

// The element at a place, by its number. Each number of a range is one of a value in an element, whose entry has its place, and so the range becomes
// shorter: in turns as far on as the place is, which finds it at once where all elements have as many values, and by half.
fn element_by_number(doc: &Document, n: NodeId, total: u32, place: u32) -> Option<NodeId>
    requires inside { n.0 < count doc.now }
    requires place { place < total }
    ensures nodes { IfSome result (λ found. following doc.now (Some found) ≡ drop place (elements (node_at doc.now n.0))) }
    ensures inside { IsIn doc.now result }
{
    let _ = doc.root();
    elements_stand_by_place(doc);
    let mut low = n.0 + 1;
    let mut high = doc.after(n);
    let mut from = 0;
    let mut to = total;
    for turn in 0..64_u32 {
        if high <= low {
            return None;
        }
        let number = if turn % 2 == 0 {
            number_between(low, high, from, to, place)
        } else {
            low + (high - low) / 2
        };
        let found = child_around(doc, n, number + 1)?;
        let Lead::Index(i) = doc.lead(found) else {
            return None;
        };
        if i == place {
            return Some(found);
        }
        if i < place {
            low = doc.after(found);
            from = i + 1;
        } else {
            high = found.0;
            to = i;
        }
    }
    None
}

// So many elements are walked over.
const FEW: u32 = 8;

/// The element at a place, and those behind it.
pub fn elements_from(doc: &Document, n: NodeId, place: u32) -> Option<NodeId>
    requires { n.0 < count doc.now }
    ensures nodes { following doc.now result ≡ drop place (elements (node_at doc.now n.0)) }
    ensures inside { IsIn doc.now result }
{
    let total = element_total(doc, n);
    if FEW < place && place < total {
        if let Some(found) = element_by_number(doc, n, total, place) {
            return Some(found);
        }
    }
    skip(doc, first_element(doc, n), place)
}

// The element at a place where no element has anything in it: then they stand in line behind the array.
fn element_in_line(doc: &Document, n: NodeId, place: u32, total: u32) -> Option<NodeId>
    requires inside { n.0 < count doc.now }
    requires all { total ≡ length (elements (node_at doc.now n.0)) }
    requires place { place < total }
    ensures node { IfSome result (λ found. single doc.now (Some found) ≡ nth place (elements (node_at doc.now n.0))) }
    ensures inside { IsIn doc.now result }
{
    if doc.after(n) - n.0 - 1 == total {
        Some(NodeId(n.0 + 1 + place))
    } else {
        None
    }
}

/// The element with this index (RFC 9535, section 2.3.3).
#[tactic(auto, using(crate::proofs::Dropped::firsts))]
pub fn element(doc: &Document, n: NodeId, i: IntLit) -> Option<NodeId>
    requires { n.0 < count doc.now }
    ensures node { single doc.now result ≡ at_index i (elements (node_at doc.now n.0)) }
    ensures inside { IsIn doc.now result }
{
    let IntLit::Within(i) = i else {
        return None;
    };
    let total = element_total(doc, n);
    let place = position(i, total)?;
    match element_in_line(doc, n, place, total) {
        Some(found) => Some(found),
        None => elements_from(doc, n, place),
    }
}
