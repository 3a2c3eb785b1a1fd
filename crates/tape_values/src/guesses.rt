//! Members of one name, and where a member of an object may have its twin in another.
//!
//! A guess only says where a search is to begin.

ghost use Rattle.std.specs.Prelude.{◌≡◌, ◌<◌, IfSome};
ghost use Rattle.json_tape.specs.Document.{count, node_at, IsIn};
ghost use Rattle.json_tape.specs.Nodes.{children};
ghost use Rattle.tape_values.specs.Pairs.{same_name, IsAmong};

use crate::letters::{Letters, compare_letters};
use json_tape::{Document, NodeId};

// How many members are gone over where a member's twin is sought.
const FEW: u32 = 16;

/// Whether two members have one name.
#[tactic(auto, using(crate::proofs::Orders::orders))]
pub fn have_one_name(doc: &Document, m: NodeId, o: NodeId) -> bool
    requires left { m.0 < count doc.now }
    requires right { o.0 < count doc.now }
    ensures { result ≡ same_name (node_at doc.now m.0).way_up (node_at doc.now o.0).way_up }
{
    if doc.has_name(m) && doc.has_name(o) {
        let order = compare_letters(
            Letters::Spelt(doc.name_scalars(m)),
            Letters::Spelt(doc.name_scalars(o)),
        );
        order.is_eq()
    } else {
        false
    }
}

fn is_named_alike(doc: &Document, m: NodeId, next: Option<NodeId>) -> bool
    requires member { m.0 < count doc.now }
    requires next { IsIn doc.now next }
{
    match next {
        None => false,
        Some(o) => have_one_name(doc, m, o),
    }
}

// The member of an object that has this member's name.
fn namesake(doc: &Document, m: NodeId, object: NodeId) -> Option<NodeId>
    requires member { m.0 < count doc.now }
    requires object { object.0 < count doc.now }
    ensures inside { IsIn doc.now result }
    ensures among { IfSome result (λ o. IsAmong (children (node_at doc.now object.0)) (node_at doc.now o.0)) }
{
    if doc.has_name(m) {
        doc.twin(object, doc, m)
    } else {
        None
    }
}

/// Where a member may have its twin among the many of an object, if the one that comes next has another name.
pub fn guess(
    doc: &Document,
    m: NodeId,
    object: NodeId,
    next: Option<NodeId>,
    total: u32,
) -> Option<NodeId>
    requires member { m.0 < count doc.now }
    requires object { object.0 < count doc.now }
    requires next { IsIn doc.now next }
    ensures inside { IsIn doc.now result }
    ensures among { IfSome result (λ o. IsAmong (children (node_at doc.now object.0)) (node_at doc.now o.0)) }
{
    if total <= FEW || is_named_alike(doc, m, next) {
        None
    } else {
        namesake(doc, m, object)
    }
}
