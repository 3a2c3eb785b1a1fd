//! The children of a value.

ghost use Rattle.std.specs.Prelude.{◌≡◌, ◌<◌};
ghost use Rattle.std.specs.List.{All};
ghost use Rattle.json_tape.specs.Document.{count, node_at};
ghost use Rattle.json_text.specs.Nodes.{children};
ghost use Rattle.json_tape.specs.Siblings.{numbered};

use crate::document::Document;
use json_text::NodeId;
use std::marker::Model;

/// The elements of an array or the values of an object's members, in the order of the text. Other values have none.
#[derive(Drop)]
pub struct Children<'a> {
    document: &'a Document,
    next: u32,
    end: u32,
}

impl<'a> Model for Children<'a> {
    ghost use Rattle.std.specs.Prelude.{List, ◌≤◌};
    ghost use Rattle.json_tape.specs.Document.{count};
    ghost use Rattle.json_tape.specs.Siblings.{AreBetween, siblings, numbers_of};
    ghost use Rattle.json_text.specs.declared.tape.NodeId.{NodeId};

    // The children that are left.
    ghost Value = { List NodeId };

    ghost view = { λ c. numbers_of (siblings c.document.now c.next c.end) };

    ghost invariant = { λ c. AreBetween (siblings c.document.now c.next c.end) c.next c.end × (c.end ≤ count c.document.now) };
}

impl<'a> Children<'a> {
    /// All children of a value.
    #[inline(always)]
    pub(crate) fn new(document: &'a Document, n: NodeId) -> Children<'a>
        requires { n.0 < count document.now }
        ensures nodes { numbered document.now result ≡ children (node_at document.now n.0) }
        ensures inside { All (λ id. id.0 < count document.now) result }
    {
        let end = document.end_of(n);
        Children {
            document,
            next: n.0 + 1,
            end,
        }
    }
}

impl<'a> Iterator for Children<'a> {
    ghost use Rattle.std.specs.Iterator.{YieldsFirst, item_count};

    type Item = NodeId;

    ghost next_gives = { YieldsFirst (λ s. s) };

    ghost remaining = { item_count (λ s. s) };

    #[tactic(auto, using(crate::proofs::Siblings::first_left))]
    #[inline(always)]
    fn next(&mut self) -> Option<NodeId> {
        if self.next >= self.end {
            return None;
        }
        let child = NodeId(self.next);
        self.next = self.document.end_of(child);
        Some(child)
    }
}
