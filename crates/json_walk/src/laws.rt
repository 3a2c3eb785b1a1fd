//! What the places of a text say of its tree.

ghost use Rattle.json_walk.specs.Bridge.{StringsEndAtQuotes};
ghost use Rattle.json_walk.specs.Counting.{PlacesAreTokens, SourceBytesAreTheTrees};

/// A string of the grammar that begins at an opening quote ends at the next quote that is not escaped.
pub fn strings_end_at_quotes()
    ensures { StringsEndAtQuotes }
{}

/// A JSON text has a place for each token of its tree.
pub fn places_are_tokens()
    ensures { PlacesAreTokens }
{}

/// The names, strings, numbers and words of a text's tree have the same bytes as the text without its whitespace and without the structural
/// characters outside strings.
pub fn source_bytes_are_the_trees()
    ensures { SourceBytesAreTheTrees }
{}
