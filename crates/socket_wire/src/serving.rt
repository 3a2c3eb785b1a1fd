//! Connections served one after the other over one hub.
ghost use Rattle.std.specs.Prelude.{OnOk, OnErr};
ghost use Rattle.socket_wire.specs.Served.{IsFree, Served, ServedFewer, service};

use crate::end_log::{EndLog, tell_fault};
use crate::listener::{AcceptFault, Listener};
use path_hub::{Hub, serve_connection};
use std::alloc::Global;

/// Accepts so many connections and serves each to its end before the next is accepted, by [`serve_connection`] over the one hub, as
/// connections 0, 1 and so on. Each is closed once it is served, and the log gets each that did not end with
/// [`path_hub::ConnEnd::Done`].
///
/// # Errors
///
/// Where a connection could not be accepted: those before it are served, and no further one.
pub fn serve_streams<L: Listener, G: EndLog>(
    alloc: Global,
    hub: &mut Hub,
    listener: &mut L,
    count: u32,
    log: &mut G,
) -> Result<(), AcceptFault>
    requires free { IsFree hub.old }
    ensures free { IsFree hub.new }
    ensures served { OnOk result (Served count (service hub.old (L.told listener.old) (G.told log.old)) (service hub.new (L.told listener.new) (G.told log.new))) }
    ensures failed { OnErr result (ServedFewer count (service hub.old (L.told listener.old) (G.told log.old)) (service hub.new (L.told listener.new) (G.told log.new))) }
{
    'connections: for number in 0..count {
        let mut link = listener.accept()?;
        let how = serve_connection(alloc, hub, number, &mut link);
        listener.close(link);
        tell_fault(log, number, how);
    }
    Ok(())
}
