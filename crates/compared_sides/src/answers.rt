//! Comparisons that were made: a table of a fixed size, which answers or does not.

ghost use Rattle.std.specs.Prelude.{◌<◌, IfSome, Some};
ghost use Rattle.json_tape.specs.Document.{count};
ghost use Rattle.compared_sides.specs.Answered.{AreRight, IsRight, Answers};

use json_tape::{Document, NodeId};
use tape_values::equal_and_less;

/// How the values of two nodes compare.
#[derive(Clone, Copy)]
pub struct Compared {
    pub left: NodeId,
    pub right: NodeId,
    pub is_equal: bool,
    pub is_less: bool,
}

// How many comparisons are kept at first, and at most.
const FEW: usize = 64;

const MOST: usize = 1_024;

// A pair is kept at its own place or at one behind that, so many at most: as many as there are comparisons in a query. So what is asked of each child
// is found again for the next.
const TRIES: usize = 600;

// Makes room for comparisons, as far as there is memory: for few, and for more once there is no place left. None is kept then.
#[tactic(auto, using(crate::proofs::Learnt::room))]
fn make_room(doc: &Document, table: &mut Vec<Option<Compared>>)
    requires { AreRight doc.now table.old.items }
    ensures { AreRight doc.now table.new.items }
{
    let _ = doc;
    let total = if table.is_empty() { FEW } else { MOST };
    table.clear();
    for _ in 0..total {
        if table.push(None).is_err() {
            return;
        }
    }
}

// Where the places of a pair begin.
fn first_place(a: NodeId, b: NodeId) -> usize {
    let mixed = u64::from(a.0).wrapping_mul(0x9E37_79B9_7F4A_7C15) ^ u64::from(b.0);
    mixed as usize
}

fn is_of(answer: Compared, a: NodeId, b: NodeId) -> bool {
    answer.left.0 == a.0 && answer.right.0 == b.0
}

// The place where a pair is kept, or the first of its places where none is.
fn place_of(table: &[Option<Compared>], a: NodeId, b: NodeId) -> Option<usize> {
    let total = table.len();
    for tried in 0..total.min(TRIES) {
        let at = first_place(a, b).wrapping_add(tried) % total;
        let Some(answer) = table[at] else {
            return Some(at);
        };
        if is_of(answer, a, b) {
            return Some(at);
        }
    }
    None
}

// The place of a pair in the table, which gets more places where none is free.
fn place_with_room(doc: &Document, table: &mut Vec<Option<Compared>>, a: NodeId, b: NodeId) -> usize
    requires { AreRight doc.now table.old.items }
    ensures { AreRight doc.now table.new.items }
{
    match place_of(table, a, b) {
        Some(at) => at,
        None => {
            make_room(doc, table);
            place_of(table, a, b).unwrap_or(0)
        }
    }
}

// What is known of two nodes, where that is kept at this place.
#[tactic(auto, using(crate::proofs::Learnt::answers))]
fn known_comparison(
    doc: &Document,
    table: &[Option<Compared>],
    at: usize,
    a: NodeId,
    b: NodeId,
) -> Option<Compared>
    requires right { AreRight doc.now table.now }
    ensures { IfSome result (λ answer. Answers doc.now a b answer) }
{
    let _ = doc;
    if at >= table.len() {
        return None;
    }
    let answer = table[at]?;
    if answer.left.0 == a.0 && answer.right.0 == b.0 {
        Some(answer)
    } else {
        None
    }
}

// Two values compared.
fn comparison_of(doc: &Document, a: NodeId, b: NodeId) -> Compared
    requires left { a.0 < count doc.now }
    requires right { b.0 < count doc.now }
    ensures answer { Answers doc.now a b result }
    ensures kept { IsRight doc.now (Some result) }
{
    let (is_equal, is_less) = equal_and_less(doc, a, b);
    Compared {
        left: a,
        right: b,
        is_equal,
        is_less,
    }
}

// Keeps how two values compare.
#[tactic(auto, using(crate::proofs::Learnt::answers))]
fn keep_comparison(doc: &Document, table: &mut [Option<Compared>], at: usize, answer: Compared)
    requires before { AreRight doc.now table.old }
    requires kept { IsRight doc.now (Some answer) }
    ensures { AreRight doc.now table.new }
{
    let _ = doc;
    if at < table.len() {
        table[at] = Some(answer);
    }
}

/// How two values compare, found once while the table keeps it.
pub fn compare_once(
    doc: &Document,
    table: &mut Vec<Option<Compared>>,
    a: NodeId,
    b: NodeId,
) -> Compared
    requires left { a.0 < count doc.now }
    requires right { b.0 < count doc.now }
    requires before { AreRight doc.now table.old.items }
    ensures answer { Answers doc.now a b result }
    ensures after { AreRight doc.now table.new.items }
{
    let at = place_with_room(doc, table, a, b);
    if let Some(answer) = known_comparison(doc, table, at, a, b) {
        return answer;
    }
    let answer = comparison_of(doc, a, b);
    keep_comparison(doc, table, at, answer);
    answer
}
