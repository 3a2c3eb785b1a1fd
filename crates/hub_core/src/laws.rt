//! What any order of turns of any connections amounts to. The function does nothing, and its contract is the law.
ghost use Rattle.hub_core.specs.Served.{TurnsAreServed};
ghost use Rattle.hub_core.specs.Wires.{WiresShow};

use outbox::in_order;
use path_hub::{runs_apart, sessions_stand_in_streams};

/// In whatever order turns come and connections open and close, the requests are answered one at a time, each by the tenants as the previous
/// one left them. On each connection that stays open, the requests answered are the first in the bytes read from it, in order. The bytes
/// written to it, those that a fault discarded and those that it is owed are together the replies to them. Each tenant's replies are those
/// that its own requests get from its map alone, without those for which memory ran out.
///
/// The contract of `outbox::turn` has the events of a turn, and what it reads and writes on a wire.
pub fn turns_are_served()
    ensures { TurnsAreServed }
{
    in_order();
    runs_apart();
    sessions_stand_in_streams();
}

/// If each turn moves the bytes of its events on its own connection's stream, and nothing else moves there, a stream shows its own events. All that moved
/// on it since its connection was opened is what these read and sent.
pub fn wires_show_their_events()
    ensures { WiresShow }
{}
