//! From a query text to a valid query.

ghost use Rattle.std.specs.Prelude.{IfErr, IfOk};
ghost use Rattle.path_grammar.specs.View.{query_view};
ghost use Rattle.path_types.specs.Verdict.{IsValidQuery, RefusesQueryText};

use crate::valid_query::{ValidQuery, check};
use path_grammar::{ParseFault, parse};
use std::alloc::Global;
use thiserror::Error;

/// Why a query text is refused, in the order of the checks.
#[derive(Clone, Copy, Debug, Drop, PartialEq, Eq, Error)]
pub enum QueryFault {
    /// The text has more bytes than [`path_grammar::QUERY_LIMIT`].
    #[error("QueryTooLong")]
    QueryTooLong,
    /// The text is not UTF-8, or not a query of the grammar (RFC 9535, section 2.1.1).
    #[error("NotWellFormed")]
    NotWellFormed,
    /// The query is not valid (RFC 9535, section 2.1).
    #[error("NotValid")]
    NotValid,
    /// An allocation failed.
    #[error("NoMemory")]
    Memory,
}

/// Parses a query text and checks the query (RFC 9535, section 2.1).
///
/// # Errors
///
/// In this order: `QueryTooLong` above [`path_grammar::QUERY_LIMIT`] bytes; `NotWellFormed` if the text is not a query of the grammar;
/// `NotValid` if the query is not valid. `Memory` if an allocation failed; a text above the limit makes none.
pub fn compile(alloc: Global, query: &[u8]) -> Result<ValidQuery, QueryFault>
    ensures valid { IfOk result (λ v. IsValidQuery query.now (query_view v)) }
    ensures refused { IfErr result (λ fault. RefusesQueryText query.now fault) }
{
    match parse(alloc, query) {
        Ok(parsed) => match check(parsed) {
            Ok(valid) => Ok(valid),
            Err(_) => Err(QueryFault::NotValid),
        },
        Err(ParseFault::QueryTooLong) => Err(QueryFault::QueryTooLong),
        Err(ParseFault::NotWellFormed) => Err(QueryFault::NotWellFormed),
        Err(ParseFault::Memory) => Err(QueryFault::Memory),
    }
}
