// A function that does nothing, and whose contract is a law of the grammar.
ghost use Rattle.path_grammar.specs.Laws.{HaveOneTree};

/// A query text has at most one tree.
pub fn queries_have_one_tree()
    ensures { HaveOneTree }
{}
