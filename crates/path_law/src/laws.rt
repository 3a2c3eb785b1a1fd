//! What a path is as a query: the function does nothing, and its contract is the law.
ghost use Rattle.path_law.specs.Law.{PathsLeadBack};

use json_tape::laws::meant;

/// Each node that any query selects from an accepted text has a path that is a valid query within the budget, which selects from
/// that text this node alone.
pub fn paths_lead_back()
    ensures { PathsLeadBack }
{
    meant();
}
