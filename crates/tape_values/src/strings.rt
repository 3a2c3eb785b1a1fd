//! Strings of a document and of a query, compared by their scalar values.

ghost use Rattle.std.specs.Prelude.{◌≡◌};
ghost use Rattle.std.specs.Cmp.Lexicographic.{slice_cmp};
ghost use Rattle.std.specs.Ordering.{nat_cmp};
ghost use Rattle.tape_values.specs.Contents.{letters_left, string_scalars, IsStringValue};

use crate::fronts::{FEW, rests};
use crate::letters::{Letters, compare_letters};
use json_tape::laws::strings_mean_their_bytes;
use json_tape::{Document, NodeId, Scalars};
use std::cmp::Ordering;

/// A string.
#[derive(Clone, Copy)]
pub enum StringValue<'a> {
    /// Of the document.
    Stored(NodeId),
    /// Of a query.
    Written(&'a [char]),
}

// The scalar values of a string.
fn letters<'a>(doc: &'a Document, string: StringValue<'a>) -> Letters<'a>
    requires { IsStringValue doc.now string }
    ensures { letters_left result ≡ string_scalars doc.now string.entry }
{
    match string {
        StringValue::Stored(n) => Letters::Spelt(doc.string_scalars(n)),
        StringValue::Written(scalars) => Letters::Plain(scalars),
    }
}

/// How two strings compare by their scalar values. Two strings of the document are compared from behind the bytes that they have in common.
pub fn compare_strings(doc: &Document, a: StringValue<'_>, b: StringValue<'_>) -> Ordering
    requires left { IsStringValue doc.now a }
    requires right { IsStringValue doc.now b }
    ensures { result ≡ slice_cmp nat_cmp (string_scalars doc.now a.entry) (string_scalars doc.now b.entry) }
{
    strings_mean_their_bytes(doc);
    if let (StringValue::Stored(x), StringValue::Stored(y)) = (a, b) {
        let bytes = doc.text(x);
        if FEW <= bytes.len() {
            if let Some((left, right)) = rests(bytes, doc.text(y)) {
                return compare_letters(
                    Letters::Spelt(Scalars::new(left)),
                    Letters::Spelt(Scalars::new(right)),
                );
            }
        }
    }
    compare_letters(letters(doc, a), letters(doc, b))
}
