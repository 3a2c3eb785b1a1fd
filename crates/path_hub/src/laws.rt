//! What follows from the contracts of the hub: each function does nothing, and its contract is the law.
ghost use Rattle.path_hub.specs.Laws.{ServedBytes, ServedOnce, RunsApart};
ghost use Rattle.path_hub.specs.Standing.{Standing};
ghost use Rattle.path_hub.specs.WorkLeft.{WorkIsLeft};

use request_replies::{tenants_are_apart, told_once};
use wire_frames::splits_from_the_front;

/// A tenant's replies, without those for which memory ran out, are those that its own requests get from its map. The tenants at the start
/// and the order of the answers do not matter.
pub fn runs_apart()
    ensures { RunsApart }
{
    tenants_are_apart();
}

/// In whatever order pieces are taken and frames answered, the frames answered are the first of the connection's stream.
pub fn sessions_stand_in_streams()
    ensures { Standing }
{
    splits_from_the_front();
}

/// A connection that was served to the end of its input has written the replies that the items of its bytes get.
pub fn served_bytes()
    ensures { ServedBytes }
{}

/// However a wire cuts its reads and writes, equal bytes get equal replies, unless memory runs out.
pub fn cuts_do_not_matter()
    ensures { ServedOnce }
{
    told_once();
}

/// What is left of the first request on a connection falls with each share of work on it, and is none behind a reply and where it is given up.
/// What is left of the others' stays.
pub fn work_is_left()
    ensures { WorkIsLeft }
{}
