//! Lengths of strings, of which a query may ask again and again: kept once as many bytes were counted as the text has.

ghost use Rattle.std.specs.Prelude.{◌≡◌, ◌<◌, Some, IfSome};
ghost use Rattle.json_tape.specs.Document.{count, node_at, length_of};
ghost use Rattle.compared_sides.specs.Counted.{AreCounted};

use json_tape::{Document, Kind, NodeId};
use std::alloc::Global;

/// The lengths of strings that were counted.
#[derive(Drop)]
pub struct Lengths {
    /// How many bytes are counted before lengths are kept. So a query that counts each string once keeps none.
    pub left: usize,
    /// The length of each value, where it is kept.
    pub kept: Vec<Option<u32>>,
}

/// None yet.
pub fn no_lengths(alloc: Global, doc: &Document) -> Lengths
    ensures { AreCounted doc.now result.kept.items }
{
    Lengths {
        left: doc.source().len(),
        kept: Vec::new(alloc),
    }
}

// The length of a value, where it is kept.
#[tactic(auto, using(crate::proofs::Counted::counted))]
fn known_length(doc: &Document, kept: &[Option<u32>], n: NodeId) -> Option<u32>
    requires right { AreCounted doc.now kept.now }
    ensures { IfSome result (λ length. length_of (node_at doc.now n.0).tree ≡ Some length) }
{
    let _ = doc;
    if (n.0 as usize) < kept.len() {
        kept[n.0 as usize]
    } else {
        None
    }
}

// Makes room for the lengths of all values, as far as there is memory, where there is none yet.
fn make_room(doc: &Document, kept: &mut Vec<Option<u32>>)
    requires { AreCounted doc.now kept.old.items }
    ensures { AreCounted doc.now kept.new.items }
{
    if kept.is_empty() {
        let _ = kept.resize(doc.node_count() as usize, None);
    }
}

#[tactic(auto, using(crate::proofs::Counted::counted))]
fn keep_length(doc: &Document, kept: &mut [Option<u32>], n: NodeId, length: u32)
    requires right { AreCounted doc.now kept.old }
    requires length { length_of (node_at doc.now n.0).tree ≡ Some length }
    ensures { AreCounted doc.now kept.new }
{
    let _ = doc;
    let place = n.0 as usize;
    if place < kept.len() {
        kept[place] = Some(length);
    }
}

// Keeps the length of a string that was counted, where no bytes are left.
fn keep_counted(doc: &Document, n: NodeId, length: u32, lengths: &mut Lengths)
    requires inside { n.0 < count doc.now }
    requires right { AreCounted doc.now lengths.old.kept.items }
    requires length { length_of (node_at doc.now n.0).tree ≡ Some length }
    ensures { AreCounted doc.now lengths.new.kept.items }
{
    let bytes = doc.text(n).len();
    if bytes <= lengths.left {
        lengths.left -= bytes;
        return;
    }
    make_room(doc, &mut lengths.kept);
    keep_length(doc, &mut lengths.kept, n, length);
}

/// How many scalar values, elements or members a value has.
pub fn length_once(doc: &Document, n: NodeId, lengths: &mut Lengths) -> Option<u32>
    requires inside { n.0 < count doc.now }
    requires before { AreCounted doc.now lengths.old.kept.items }
    ensures length { result ≡ length_of (node_at doc.now n.0).tree }
    ensures after { AreCounted doc.now lengths.new.kept.items }
{
    if let Some(length) = known_length(doc, &lengths.kept, n) {
        return Some(length);
    }
    let length = doc.length(n)?;
    if let Kind::Text = doc.kind(n) {
        keep_counted(doc, n, length, lengths);
    }
    Some(length)
}
