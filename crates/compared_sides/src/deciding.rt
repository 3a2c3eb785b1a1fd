//! The side of a comparison, as conditions that are decided beforehand see it.

ghost use Rattle.std.specs.Prelude.{◌≡◌};
ghost use Rattle.tape_values.specs.Sides.{side_value, IsSide};
ghost use Rattle.compared_sides.specs.Insides.{IsSide-prop};
ghost use Rattle.decisions.specs.Truth.{truth};
ghost use Rattle.decisions.specs.Views.{test_view};

use decisions::{ComparedSide, Constant, Decision, Relation, literal_kind};
use json_tape::{Document, Kind};
use path_grammar::Op;
use tape_values::{Side, compare_sides};

/// A side of a comparison, in the document that its node is of.
#[derive(Clone, Copy)]
pub struct SideIn<'a> {
    pub doc: &'a Document,
    pub side: Side<'a>,
    ghost inside: { IsSide doc.now side } by { IsSide-prop doc.now side },
}

impl ComparedSide for SideIn<'_> {
    ghost value = { λ s. side_value s.doc.now s.side };

    fn kind_number(&self) -> usize {
        match &self.side {
            Side::Nothing => 0,
            Side::Literal(literal) => literal_kind(literal),
            Side::Whole(_) => 4,
            Side::Node(n) => match self.doc.kind(*n) {
                Kind::Null => 1,
                Kind::Bool(false) => 2,
                Kind::Bool(true) => 3,
                Kind::Number => 4,
                Kind::Text => 5,
                Kind::Array | Kind::Object => 6,
            },
        }
    }

    fn compare(&self, op: Op, literal: &Constant) -> bool {
        compare_sides(self.doc, op, &self.side, &Side::Literal(&literal.literal))
    }

    fn compare_back(&self, literal: &Constant, op: Op) -> bool {
        compare_sides(self.doc, op, &Side::Literal(&literal.literal), &self.side)
    }

    fn compare_total(&self, total: usize, op: Op) -> bool {
        compare_sides(self.doc, op, &Side::Whole(total), &self.side)
    }
}

/// Whether a decided condition holds where its side has this value, and `@` compares so with `$`.
#[inline(always)]
pub fn decision_holds(
    doc: &Document,
    decision: &Decision,
    side: Side<'_>,
    relation: Relation,
) -> bool
    requires { IsSide doc.now side }
    ensures { result ≡ truth (side_value doc.now side.entry) relation (test_view decision.now) }
{
    decision.holds(&SideIn { doc, side }, relation)
}
