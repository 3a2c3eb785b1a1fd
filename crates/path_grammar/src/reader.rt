//! Reads a query from left to right.

ghost use Rattle.std.specs.Prelude.{◌≡◌, ◌↔◌, ◌<◌, length, IfOk, IsErrOf, IsUtf8, chars};
ghost use Rattle.path_grammar.specs.Grammar.{IsQuery};
ghost use Rattle.path_grammar.specs.Reading.{Gives};
ghost use Rattle.path_grammar.specs.ReadingFilters.{query_at};
ghost use Rattle.path_grammar.specs.Tree.{Segments};
ghost use Rattle.path_grammar.specs.View.{query_view};

use crate::ast::Query;
use crate::expressions::segments;
use crate::fault::ParseFault;
use std::alloc::Global;

/// The greatest length of a query text, in bytes.
pub const QUERY_LIMIT: usize = 4096;

/// The most filters, parentheses and argument lists inside one another.
pub const LEVEL_LIMIT: u8 = 32;

#[tactic(auto, unfolding(crate::specs::ReadingFilters::query_at, crate::specs::ReadingFilters::ended))]
fn query(alloc: Global, text: &[char]) -> Result<Query, ParseFault>
    ensures { Gives (λ q. query_view q) result (query_at text.now) }
{
    let [c, rest @ ..] = text else {
        return Err(ParseFault::NotWellFormed);
    };
    if *c != '$' {
        return Err(ParseFault::NotWellFormed);
    }
    let (segments, rest) = segments(alloc, rest, LEVEL_LIMIT)?;
    match rest {
        [] => Ok(Query { segments }),
        [_, ..] => Err(ParseFault::NotWellFormed),
    }
}

fn characters(alloc: Global, bytes: &[u8]) -> Result<Vec<char>, ParseFault>
    ensures ok { IfOk result (λ v. IsUtf8 bytes.now × (v.items ≡ chars bytes.now)) }
    ensures err { IsErrOf result ParseFault.NotWellFormed → ¬ IsUtf8 bytes.now }
    ensures long { ¬ IsErrOf result ParseFault.QueryTooLong }
{
    match simdutf8::compat::from_utf8(bytes) {
        Ok(text) => Ok(text.chars().collect(alloc)?),
        Err(_) => Err(ParseFault::NotWellFormed),
    }
}

/// The syntax tree of a whole query text in UTF-8 (RFC 9535, section 2.1.1).
///
/// # Errors
///
/// In this order: `QueryTooLong` above [`QUERY_LIMIT`] bytes; `NotWellFormed` if the text is not a query of the grammar. `Memory` if an
/// allocation failed.
pub fn parse(alloc: Global, text: &[u8]) -> Result<Query, ParseFault>
    ensures spelled { IfOk result (λ q. IsQuery text.now (query_view q)) }
    ensures one_tree { IfOk result (λ q. (other : Segments) → IsQuery text.now other → other ≡ query_view q) }

    ensures too_long { IsErrOf result ParseFault.QueryTooLong ↔ (4096 < length text.now) }
    ensures not_well_formed { IsErrOf result ParseFault.NotWellFormed → (q : Segments) → ¬ IsQuery text.now q }
{
    if text.len() > QUERY_LIMIT {
        return Err(ParseFault::QueryTooLong);
    }
    let characters = characters(alloc, text)?;
    query(alloc, &characters)
}
