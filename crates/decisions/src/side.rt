//! The side of a comparison, as a condition sees it.

ghost use Rattle.std.specs.Prelude.{◌≡◌, Option, Some};
ghost use Rattle.path_meaning.specs.Comparison.{Value, compared};
ghost use Rattle.path_meaning.specs.Functions.{whole_number};
ghost use Rattle.decisions.specs.Order.{kind};
ghost use Rattle.decisions.specs.Views.{constant_value};

use crate::test::Constant;
use path_grammar::Op;

/// A value, or Nothing (RFC 9535, section 2.4.1), that is compared with literals and whole numbers.
pub trait ComparedSide {
    ghost value: { Self → Option Value };

    /// The number of its kind.
    fn kind_number(&self) -> usize
        ensures { result ≡ kind (value self.now) };

    /// Whether a comparison of it with a literal holds.
    fn compare(&self, op: Op, literal: &Constant) -> bool
        ensures { result ≡ compared op (value self.now) (constant_value literal.now) };

    /// Whether a comparison of a literal with it holds.
    fn compare_back(&self, literal: &Constant, op: Op) -> bool
        ensures { result ≡ compared op (constant_value literal.now) (value self.now) };

    /// Whether a comparison of a whole number with it holds.
    fn compare_total(&self, total: usize, op: Op) -> bool
        ensures { result ≡ compared op (Some (whole_number total)) (value self.now) };
}
