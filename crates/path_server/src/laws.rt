//! What the path of a hit is as a query: each function does nothing, and its contract is the law.
ghost use Rattle.std.specs.Prelude.{ℕ, List};
ghost use Rattle.path_server.specs.Paths.{PathsAreAnswered, PathsLeadBack};

use json_tape::laws::one_tree;
use path_grammar::queries_have_one_tree;
use path_law::paths_lead_back;

/// The path of each hit of a query on a text, asked as a query on this text, is valid, is within the budget and has this hit alone.
pub fn hits_lead_back()
    ensures { (query document : List ℕ) → PathsLeadBack query document }
{
    paths_lead_back();
}

/// What `query_text` answers to such a path, where it is no longer than a query may be, is the line of this hit, and only want of
/// memory refuses it.
pub fn paths_are_answered()
    ensures { PathsAreAnswered }
{
    paths_lead_back();
    one_tree();
    queries_have_one_tree();
}
