//! A server of many connections over a hub.
ghost use Rattle.std.specs.Prelude.{◌≡◌, is_some, IfErr, OnOk, IsTrue, IsFalse};
ghost use Rattle.event_loop.specs.Servers.{AreJoined, ComesOfWaiting, GivesTurns, IsOver, NobodyIsForgotten, StaysDeaf, lanes_in};
ghost use Rattle.hub_server.specs.Looping.{AreServed};
ghost use Rattle.hub_server.specs.Measuring.{hub_longs, hub_steps, hub_waits};
ghost use Rattle.open_connections.specs.Shares.{limits_in, IsWithin};

use crate::laws::loop_is_served;
use crate::measured_hub::MeasuredHub;
use event_loop::{Journal, LoopFault, Server, System, Time};

/// Serves as [`Server::serve`] does. Whatever peers send and however connections come and go, each tenant's replies are those of its own requests alone.
/// Take a connection that is accepted here and served at the end. The bytes written to it are a prefix of the replies to the first requests in the bytes
/// read of it. A server that takes in no connection serves only what it served before.
///
/// # Errors
///
/// Those of [`Server::serve`].
pub fn serve<S: System + Drop, T: Time + Drop, J: Journal>(
    server: &mut Server<S, MeasuredHub, T>,
    journal: &mut J,
) -> Result<(), LoopFault>
    ensures over { OnOk result (IsOver server.new) }
    ensures served { AreServed (lanes_in hub_steps server.old) (lanes_in hub_steps server.new) }
    ensures deaf { IsFalse server.old.listens → StaysDeaf hub_steps server.old server.new }
    ensures limits { limits_in server.new.budgets ≡ limits_in server.old.budgets }
    ensures joined { AreJoined server.old → AreJoined server.new }
    ensures within { IsWithin server.new.budgets }
{
    loop_is_served();
    server.serve(journal)
}

/// Goes one round as [`Server::step`] does. What [`serve`] promises holds of it, and of rounds that follow one another ([`rounds_join`](crate::rounds_join)).
///
/// # Errors
///
/// Those of [`Server::step`].
pub fn step<S: System + Drop, T: Time + Drop, J: Journal>(
    server: &mut Server<S, MeasuredHub, T>,
    journal: &mut J,
) -> Result<(), LoopFault>
    ensures served { AreServed (lanes_in hub_steps server.old) (lanes_in hub_steps server.new) }
    ensures deaf { IsFalse server.old.listens → StaysDeaf hub_steps server.old server.new }
    ensures drains { OnOk result (IsTrue (is_some server.new.grace) → IsFalse server.new.listens) }
    ensures turns { OnOk result (GivesTurns S.Stream T hub_steps S.Stream.told hub_waits hub_longs server.old server.new) }
    ensures woken { NobodyIsForgotten server.old → OnOk result (NobodyIsForgotten server.new) }
    ensures fault { IfErr result (λ fault. ComesOfWaiting fault server.new.failed) }
    ensures limits { limits_in server.new.budgets ≡ limits_in server.old.budgets }
    ensures joined { AreJoined server.old → AreJoined server.new }
    ensures within { IsWithin server.new.budgets }
{
    loop_is_served();
    server.step(journal)
}
