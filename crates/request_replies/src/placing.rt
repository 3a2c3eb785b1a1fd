//! Of which tenant a body asks what.
ghost use Rattle.std.specs.Prelude.{◌≡◌, ◌<◌, ◌++◌, ℕ, List, IfOk, IfErr, None, Some, [], length};
ghost use Rattle.tenant_map.specs.Tenancy.{place_in};
ghost use Rattle.wire_frames.specs.Requests.{reading};
ghost use Rattle.wire_frames.specs.Readings.{refusal};
ghost use Rattle.wire_frames.specs.Replies.{reply};
ghost use Rattle.request_replies.specs.Shares.{IsPlaced};
ghost use Rattle.request_replies.specs.Tenants.{Serves};

use tenant_store::Tenants;
use wire_frames::{Command, RequestFault, read_request};

const SHORT: u8 = 1;

const NO_TENANT: u8 = 2;

const BAD_COMMAND: u8 = 3;

const BAD_FIELDS: u8 = 4;

/// What a body asks of the tenant at a place.
#[derive(Clone, Copy)]
pub struct Placed<'a> {
    pub place: usize,
    pub number: u32,
    pub command: Command<'a>,
}

/// A reply to a body that asks no tenant for anything.
#[derive(Clone, Copy)]
pub struct Refused {
    pub status: u8,
    pub number: u32,
}

/// What a body asks of which tenant.
///
/// # Errors
///
/// The reply, which has no payload, if the body is no request or no tenant has its key.
pub fn place_request<'a>(tenants: &Tenants, body: &'a [u8]) -> Result<Placed<'a>, Refused>
    ensures placed { IfOk result (IsPlaced tenants.now body.now) }
    ensures inside { IfOk result (λ request. request.place < length tenants.now.maps) }
    ensures refused { IfErr result (λ answer. (before : List ℕ) → Serves tenants.now body.now before (before ++ reply answer.status answer.number []) tenants.now) }
{
    match read_request(body) {
        Err(fault) => Err(refuse(tenants, body, fault)),
        Ok(request) => match tenants.place_of(&request.key) {
            None => Err(Refused {
                status: NO_TENANT,
                number: request.number,
            }),
            Some(place) => Ok(Placed {
                place,
                number: request.number,
                command: request.command,
            }),
        },
    }
}

fn refuse(tenants: &Tenants, body: &[u8], fault: RequestFault) -> Refused
    requires { refusal fault ≡ reading body.now }
    ensures { (before : List ℕ) → Serves tenants.now body.now before (before ++ reply result.status result.number []) tenants.now }
{
    match fault {
        RequestFault::Short { number } => Refused {
            status: SHORT,
            number,
        },
        RequestFault::BadCommand { number, key } => Refused {
            status: status_at(tenants, &key, BAD_COMMAND),
            number,
        },
        RequestFault::BadFields { number, key } => Refused {
            status: status_at(tenants, &key, BAD_FIELDS),
            number,
        },
    }
}

// The status of a fault, if a tenant has the key.
fn status_at(tenants: &Tenants, key: &[u8; 16], fault: u8) -> u8
    ensures none { place_in tenants.now.keys key.now ≡ None → result ≡ 2 }
    ensures some { (place : ℕ) → place_in tenants.now.keys key.now ≡ Some place → (result ≡ fault) × (place < length tenants.now.maps) }
{
    match tenants.place_of(key) {
        None => NO_TENANT,
        Some(_) => fault,
    }
}
