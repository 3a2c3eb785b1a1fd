//! Singular queries.

ghost use Rattle.std.specs.Prelude.{◌≡◌};
ghost use Rattle.path_grammar.specs.Singular.{is_singular, is_one};
ghost use Rattle.path_grammar.specs.Tree.{selector, no_selectors};
ghost use Rattle.path_grammar.specs.View.{segments_view, selectors_view, selector_view};

use crate::ast::{Segment, Selector};

fn is_name_or_index(only: &Selector) -> bool
    ensures { result ≡ is_one (selector (selector_view only.now) no_selectors) }
{
    match only {
        Selector::Name(_) | Selector::Index(_) => true,
        Selector::Wild | Selector::Filter(_) | Selector::Slice { .. } => false,
    }
}

#[tactic(auto, using(crate::proofs::Singulars::more_selectors))]
fn is_one(selectors: &[Selector]) -> bool
    ensures { result ≡ is_one (selectors_view selectors.now) }
{
    match selectors {
        [selector] => is_name_or_index(selector),
        _ => false,
    }
}

/// Whether a query is singular: each segment is a child segment with one name or one index (RFC 9535, section 2.3.5.1).
pub fn is_singular(segments: &[Segment]) -> bool
    ensures { result ≡ is_singular (segments_view segments.now) }
{
    for segment in segments {
        if segment.descend || !is_one(&segment.selectors) {
            return false;
        }
    }
    true
}
