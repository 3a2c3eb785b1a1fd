//! Who waits for memory.

use connection_turns::{Connection, Pool};
use slab::Slab;
use socket_poll::Peer;
use tenant_map::TENANT_LIMIT;

/// How many connections wait for memory: all, and by the place of the tenant whose memory it is.
#[derive(Clone, Copy, Debug)]
pub struct Waiting {
    pub all: u64,
    pub by_tenant: [u64; TENANT_LIMIT],
}

/// Counts those that wait for memory, among the connections with the first so many keys.
pub fn waiting_among<S: Peer>(connections: &Slab<Connection<S>>, bound: usize) -> Waiting {
    let mut all = 0u64;
    let mut by_tenant = [0u64; TENANT_LIMIT];
    'keys: for key in 0..bound {
        if let Some(connection) = connections.get(key) {
            if let Some(place) = waits_as(connection) {
                all = all.saturating_add(1);
                if place < TENANT_LIMIT {
                    by_tenant[place] = by_tenant[place].saturating_add(1);
                }
            }
        }
    }
    Waiting { all, by_tenant }
}

// For whom a connection waits, where it does: a tenant's place, or none of theirs.
fn waits_as<S: Peer>(connection: &Connection<S>) -> Option<usize> {
    match &connection.claim {
        Some(claim) if !claim.is_granted => match claim.pool {
            Pool::Tenants => Some(claim.party),
            Pool::Strangers => Some(TENANT_LIMIT),
        },
        _ => None,
    }
}
