// Functions that do nothing, and whose contracts are laws of the definitions.
ghost use Rattle.path_types.specs.Numbers.{HaveOneGrammar, JudgesNumbers};

use decimal_order::reads_one_way;

/// A number literal is valid if and only if it is a number within the limits.
pub fn judges_numbers()
    ensures { JudgesNumbers }
{
    reads_one_way();
}

/// The number literals of a query (RFC 9535, section 2.3.5.1) have the grammar of JSON numbers (RFC 8259, section 6).
pub fn numbers_have_one_grammar()
    ensures { HaveOneGrammar }
{}
