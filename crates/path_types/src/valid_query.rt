//! Valid queries.

ghost use Rattle.std.specs.Prelude.{◌≡◌, ◌↔◌, IsTrue, IsOk, IfOk, IfErr};
ghost use Rattle.path_grammar.specs.View.{query_view, segments_view};
ghost use Rattle.path_types.specs.Validity.{is_valid};

use crate::valid::are_segments;
use path_grammar::{Query, Segment};
use std::marker::Model;
use thiserror::Error;

/// The query is well-formed but not valid (RFC 9535, section 2.1).
#[derive(Clone, Copy, Debug, PartialEq, Eq, Error)]
#[error("NotValid")]
pub struct NotValid;

/// A valid query.
#[derive(Drop)]
pub struct ValidQuery {
    query: Query,
}

impl Model for ValidQuery {
    ghost use Rattle.std.specs.Prelude.{IsTrue};
    ghost use Rattle.std.specs.Coded.{codes};
    ghost use Rattle.path_grammar.specs.contracts.ast.Segment as segment;
    ghost use Rattle.path_grammar.specs.declared.ast.Query.{Query};
    ghost use Rattle.path_grammar.specs.View.{query_view};
    ghost use Rattle.path_types.specs.Validity.{is_valid};

    ghost Value = { Query };

    ghost coded = { Prim.hlevel (codes, segment.the_row.coded) };

    ghost view = { λ v. v.query };

    ghost invariant = { λ v. IsTrue (is_valid (query_view v.query)) };
}

impl ValidQuery {
    /// The query's segments, in order.
    pub fn segments(&self) -> &[Segment]
        ensures segments { segments_view result.now ≡ query_view self.now }
        ensures valid { IsTrue (is_valid (segments_view result.now)) }
    {
        self.query.segments.as_slice()
    }
}

/// Checks a query (RFC 9535, section 2.1). One that is not valid is returned unchanged in the error.
pub fn check(query: Query) -> Result<ValidQuery, (NotValid, Query)>
    ensures valid { IsOk result ↔ IsTrue (is_valid (query_view query)) }
    ensures same { IfOk result (λ v. v ≡ query) }
    ensures handed_back { IfErr result (λ refused. refused.1 ≡ query) }
{
    if are_segments(query.segments.as_slice()) {
        Ok(ValidQuery { query })
    } else {
        Err((NotValid, query))
    }
}
