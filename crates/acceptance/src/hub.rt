//! The hub and the tenants as calls.

use crate::session::{KEY, OTHER_KEY, REPLIES, REQUESTS};
use crate::trial::Trial;
use path_hub::{ConnectFault, Event, Hub, HubFault, RunFault, TakeFault, run};
use path_server::{ScriptFault, replay_script};
use std::alloc::Global;
use tenant_store::{CollName, DocName, Tenants, TenantsFault};

/// B puts `[2]` at c/d, and a length above the limit follows.
const PUT_AND_FAULT: &[u8] =
    b"\0\0\0\x1c\x01\0\0\0\x01\xff\xee\xdd\xcc\xbb\xaa\x99\x88\x77\x66\x55\x44\x33\x22\x11\x00\x01c\x01d[2]\0\x60\0\x01";

const PUT_AND_FAULT_REPLIES: &[u8] = b"\0\0\0\x05\0\0\0\0\x01\0\0\0\x05\xff\0\0\0\0";

/// B gets the text at c/d, and its reply.
const GET: &[u8] =
    b"\0\0\0\x19\x02\0\0\0\x01\xff\xee\xdd\xcc\xbb\xaa\x99\x88\x77\x66\x55\x44\x33\x22\x11\x00\x01c\x01d";

const GOT: &[u8] = b"\0\0\0\x08\0\0\0\0\x01[2]";

/// The trials.
pub fn trials(alloc: Global) -> [(&'static str, Trial); 6] {
    [
        (
            "closes_one_connection_at_its_fault",
            Trial::of(&[closes_one_connection_at_its_fault(alloc)]),
        ),
        (
            "ends_a_connection_once",
            Trial::of(&[ends_a_connection_once(alloc)]),
        ),
        (
            "answers_one_frame_after_another",
            Trial::of(&[answers_one_frame_after_another(alloc)]),
        ),
        ("refuses_keys", refuses_keys(alloc)),
        ("refuses_keys_of_tenants", refuses_keys_of_tenants(alloc)),
        (
            "finds_tenants_by_their_keys",
            Trial::of(&[finds_tenants_by_their_keys(alloc)]),
        ),
    ]
}

/// A hub with the open connections 1 and 2, of which 2 met a fault.
fn hub_with_a_fault(alloc: Global) -> Option<Hub> {
    let mut hub = Hub::new(alloc, &[KEY, OTHER_KEY]).ok()?;
    hub.connect(alloc, 1).ok()?;
    hub.connect(alloc, 2).ok()?;
    if answers(&mut hub, alloc, 2, PUT_AND_FAULT, PUT_AND_FAULT_REPLIES) {
        Some(hub)
    } else {
        None
    }
}

/// Whether these replies are given to bytes on a connection.
fn answers(hub: &mut Hub, alloc: Global, conn: u32, bytes: &[u8], replies: &[u8]) -> bool {
    let mut out = Vec::new(alloc);
    hub.bytes(alloc, conn, bytes, &mut out).is_ok() && out.as_slice() == replies
}

/// Why a byte on a connection is refused.
fn refusal(hub: &mut Hub, alloc: Global, conn: u32) -> Option<HubFault> {
    let mut out = Vec::new(alloc);
    hub.bytes(alloc, conn, b"\0", &mut out).err()
}

fn closes_one_connection_at_its_fault(alloc: Global) -> bool {
    let Some(mut hub) = hub_with_a_fault(alloc) else {
        return false;
    };
    refusal(&mut hub, alloc, 2) == Some(HubFault::Closed)
        && refusal(&mut hub, alloc, 3) == Some(HubFault::NoConnection)
        && hub.take(2, b"") == Err(TakeFault::Closed)
        && hub.take(3, b"") == Err(TakeFault::NoConnection)
        && hub.is_connected(2)
        && !hub.is_connected(3)
        && answers(&mut hub, alloc, 1, GET, GOT)
}

fn ends_a_connection_once(alloc: Global) -> bool {
    let Some(mut hub) = hub_with_a_fault(alloc) else {
        return false;
    };
    hub.connect(alloc, 2) == Err(ConnectFault::Taken)
        && hub.disconnect(2)
        && !hub.disconnect(2)
        && !hub.is_connected(2)
        && answers(&mut hub, alloc, 1, GET, GOT)
}

/// Whether the next frame that waits on connection 1 gets the reply that ends there among the four, and no frame waits behind the last.
fn answers_up_to(alloc: Global, hub: &mut Hub, out: &mut Vec<u8>, end: usize) -> bool {
    let Ok(is_answered) = hub.answer_next(alloc, 1, out) else {
        return false;
    };
    is_answered && out.as_slice() == REPLIES.get(..end).unwrap_or_default()
}

fn answers_one_frame_after_another(alloc: Global) -> bool {
    let Ok(mut hub) = Hub::new(alloc, &[KEY]) else {
        return false;
    };
    let mut out = Vec::new(alloc);
    hub.connect(alloc, 1).is_ok()
        && hub.take(1, REQUESTS).is_ok()
        && answers_up_to(alloc, &mut hub, &mut out, 9)
        && answers_up_to(alloc, &mut hub, &mut out, 39)
        && answers_up_to(alloc, &mut hub, &mut out, 55)
        && answers_up_to(alloc, &mut hub, &mut out, 76)
        && hub.answer_next(alloc, 1, &mut out) == Ok(false)
        && hub.answer_next(alloc, 2, &mut out) == Ok(false)
        && out.len() == 76
}

/// Why a hub of these keys is refused.
fn refused_hub(alloc: Global, keys: &[[u8; 16]]) -> Option<TenantsFault> {
    Hub::new(alloc, keys).err()
}

/// Why a run of these keys is refused that replies nothing.
fn refused_run(alloc: Global, keys: &[[u8; 16]]) -> Option<RunFault> {
    let mut out = Vec::new(alloc);
    let ended = run(alloc, keys, &[Event::Connect(1)], &mut out).err();
    if out.is_empty() { ended } else { None }
}

/// Why a script of no line is refused, which leaves what stands there.
fn refused_script(alloc: Global, keys: &[[u8; 16]]) -> Option<ScriptFault> {
    let mut out = Vec::from_slice(alloc, b"before").ok()?;
    let ended = replay_script(alloc, keys, b"", &mut out).err();
    if out.as_slice() == b"before".as_slice() {
        ended
    } else {
        None
    }
}

fn refuses_keys(alloc: Global) -> Trial {
    let none = TenantsFault::NoKeys;
    let repeated = TenantsFault::RepeatedKey;
    Trial::of(&[
        refused_hub(alloc, &[]) == Some(none),
        refused_run(alloc, &[]) == Some(RunFault::Keys(none)),
        refused_script(alloc, &[]) == Some(ScriptFault::Keys(none)),
        refused_hub(alloc, &[KEY, KEY]) == Some(repeated),
        refused_run(alloc, &[KEY, KEY]) == Some(RunFault::Keys(repeated)),
    ])
}

/// Why keys are refused.
fn refused_keys(alloc: Global, keys: &[[u8; 16]]) -> Option<TenantsFault> {
    Tenants::new(alloc, keys).err()
}

fn refuses_keys_of_tenants(alloc: Global) -> Trial {
    Trial::of(&[
        refused_keys(alloc, &[]) == Some(TenantsFault::NoKeys),
        refused_keys(alloc, &[KEY; 2]) == Some(TenantsFault::RepeatedKey),
        refused_keys(alloc, &[KEY; 256]) == Some(TenantsFault::RepeatedKey),
        refused_keys(alloc, &[KEY; 257]) == Some(TenantsFault::TooManyKeys),
    ])
}

fn finds_tenants_by_their_keys(alloc: Global) -> bool {
    let (Some(c), Some(d)) = (CollName::read(b"c"), DocName::read(b"d")) else {
        return false;
    };
    let Ok(mut tenants) = Tenants::new(alloc, &[KEY, OTHER_KEY]) else {
        return false;
    };
    let is_put = tenants.tenant_mut(1).put(alloc, c, d, b"1", None).is_ok();
    let documents = [
        tenants.tenant(0).usage().documents,
        tenants.tenant(1).usage().documents,
    ];
    is_put
        && documents == [0, 1]
        && tenants.place_of(&KEY) == Some(0)
        && tenants.place_of(&OTHER_KEY) == Some(1)
        && tenants.place_of(&[0; 16]).is_none()
}
