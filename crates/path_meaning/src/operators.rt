//! The operators of comparisons, by what they ask of two sides (RFC 9535, section 2.3.5.2.2).

ghost use Rattle.std.specs.Prelude.{◌≡◌};
ghost use Rattle.path_meaning.specs.Comparison.{told, told_of, TellsComparisons};

use path_grammar::Op;
use std::cmp::Ordering;

/// Whether a comparison holds, by whether its sides are equal, either way round, the left one is less, and the right one.
#[inline(always)]
pub fn told_of(equal: bool, back: bool, less: bool, greater: bool, op: Op) -> bool
    ensures { result ≡ told_of equal back less greater op }
{
    match op {
        Op::Eq => equal,
        Op::Ne => !equal,
        Op::Lt => less,
        Op::Gt => greater,
        Op::Le => less || equal,
        Op::Ge => greater || back,
    }
}

/// Whether a comparison holds, by how its sides stand in an order.
#[inline(always)]
pub fn tells(op: Op, order: Ordering) -> bool
    ensures { result ≡ told op order }
{
    match order {
        Ordering::Less => told_of(false, false, true, false, op),
        Ordering::Equal => told_of(true, true, false, false, op),
        Ordering::Greater => told_of(false, false, false, true, op),
    }
}

/// Each comparison of two values is told by these four facts about them.
///
/// It does nothing: a caller that tells comparisons has the law from its contract.
pub fn comparisons_are_told()
    ensures { TellsComparisons }
{}
