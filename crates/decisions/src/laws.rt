//! Functions that do nothing, and whose contracts are laws of the definitions.

ghost use Rattle.decisions.specs.Laws.{TellsAsCompared, TellsByMarks, TellsByPlaces};

use decimal_order::orders_values;
use path_meaning::comparisons_are_told;

/// Comparisons with literals, of a value with itself, and of two values whose relation is known, are told as RFC 9535, section 2.3.5.2.2 has them.
///
/// It does nothing: a caller that tells comparisons by the order of values has the law from its contract.
pub fn tells_as_compared()
    ensures { TellsAsCompared }
{
    comparisons_are_told();
    orders_values();
}

/// The order of values is total, and places compare as the values there do with the literals.
///
/// It does nothing: a caller that tells comparisons by places has the law from its contract.
pub fn tells_by_places()
    ensures { TellsByPlaces }
{
    orders_values();
}

/// Values of one mark compare alike with the literals among which they have it, and a cell is that of two marks.
///
/// It does nothing: a caller that keeps answers by cells has the law from its contract.
pub fn tells_by_marks()
    ensures { TellsByMarks }
{
    comparisons_are_told();
    orders_values();
}
