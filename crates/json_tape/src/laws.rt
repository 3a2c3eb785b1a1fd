//! Laws of the definitions, for callers to cite: each function does nothing, and its contract is the law.

ghost use Rattle.std.specs.Prelude.{◌≡◌, ◌<◌, ◌≤◌, ◌∷◌, ℕ, List, drop, length};
ghost use Rattle.std.specs.List.{Contains};
ghost use Rattle.std.specs.Str.{chars};
ghost use Rattle.json_strings.specs.Spelling.{scalars_in, unquoted};
ghost use Rattle.json_text.specs.Nodes.{Step, place, children, elements, way_size};
ghost use Rattle.json_text.specs.Tree.{source_of};
ghost use Rattle.json_text.specs.Verdict.{text_limit};
ghost use Rattle.json_tape.specs.Document.{count, node_at, later, kind_of, string_meaning};

use crate::document::Document;
use json_text::Kind;
pub use json_text::laws::{meant, one_meaning, one_tree};
pub use json_walk::laws::{places_are_tokens, source_bytes_are_the_trees, strings_end_at_quotes};

/// A text is within its limit, and the steps that lead to a node have no more bytes than the text.
pub fn ways_are_short(doc: &Document)
    ensures way { (n : ℕ) → n < count doc.now → way_size (node_at doc.now n).way_up ≤ length doc.now.text }
    ensures text { length doc.now.text ≤ text_limit }
{
    let _ = doc.root();
}

/// A string means what its bytes between the quotes mean.
pub fn strings_mean_their_bytes(doc: &Document)
    ensures { (n : ℕ) → n < count doc.now → kind_of (node_at doc.now n).tree ≡ Kind.Text → string_meaning (node_at doc.now n).tree ≡ scalars_in (chars (unquoted (source_of (node_at doc.now n).tree).bytes)) }
{
    let _ = doc.root();
}

/// An element of an array and its later siblings are the elements from its place on.
pub fn elements_stand_by_place(doc: &Document)
    ensures { (k p i : ℕ) (rest : List Step) → k < count doc.now → p < count doc.now → Contains (children (node_at doc.now k)) (node_at doc.now p) → (node_at doc.now p).way_up ≡ place i ∷ rest → node_at doc.now p ∷ later doc.now p ≡ drop i (elements (node_at doc.now k)) }
{
    let _ = doc.root();
}
