//! Segments with one selector.

ghost use Rattle.std.specs.Prelude.{◌≡◌, ◌∷◌, [], map, IfSome, IsTrue};
ghost use Rattle.path_grammar.specs.Tree.{wild};
ghost use Rattle.query_plan.specs.Planned.{trees, selection_view, stage_view};
ghost use Rattle.path_meaning.specs.Links.{link_selector, link_view};

use crate::plan::{Selection, Stage};
use path_meaning::Link;

/// The name or the index, where there is no other selector.
pub fn only_link(selections: &[Selection]) -> Option<&Link>
    ensures { IfSome result (λ link. trees (map selection_view selections.now) ≡ link_selector link.now ∷ []) }
{
    match selections {
        [Selection::One(link)] => Some(link),
        _ => None,
    }
}

/// Whether a wildcard is the only selector.
pub fn is_wild(selections: &[Selection]) -> bool
    ensures { IsTrue result → trees (map selection_view selections.now) ≡ wild ∷ [] }
{
    matches!(selections, [Selection::Wild])
}

/// The name or the index of a segment that selects by it alone.
#[tactic(auto, using(crate::proofs::LoneLinks::linked))]
pub fn lone_link(stage: &Stage) -> Option<&Link>
    ensures { IfSome result (λ link. (stage_view stage.now).tree ≡ link_view link.now) }
{
    if stage.descend {
        None
    } else {
        only_link(&stage.selections)
    }
}
