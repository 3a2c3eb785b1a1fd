//! What the request asks that is answered next on a connection, as it is counted.
ghost use Rattle.std.specs.Prelude.{◌≡◌};
ghost use Rattle.wire_frames.specs.Frames.{front};
ghost use Rattle.wire_frames.specs.Requests.{command_of};
ghost use Rattle.hub_core.specs.Asking.{asks};
ghost use Rattle.hub_core.specs.Replies.{body_at};

use crate::needs::body_of;
use connection_turns::RequestKind;
use path_hub::place_asked;
use tenant_map::Tenants;

/// What the frame asks that these bytes begin with.
pub(crate) fn asked_of(tenants: &Tenants, bytes: &[u8]) -> RequestKind
    ensures { result ≡ asks tenants.now (body_at (front bytes.now)) }
{
    match body_of(bytes) {
        Some(body) => RequestKind {
            command: command_of(body),
            tenant: place_asked(tenants, body),
            bytes: body.len() as u64,
        },
        None => RequestKind {
            command: 0,
            tenant: None,
            bytes: 0,
        },
    }
}

fn command_of(body: &[u8]) -> u8
    ensures { result ≡ command_of body.now }
{
    body.get(0).copied().unwrap_or(0)
}
