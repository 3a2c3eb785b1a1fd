//! What the first request that waits on a connection needs before it is read on or answered.

ghost use Rattle.std.specs.Prelude.{◌≡◌, length, MatchOption};
ghost use Rattle.std.specs.Option.{option_map};
ghost use Rattle.wire_frames.specs.Frames.{front};
ghost use Rattle.tenant_map.specs.Tenancy.{place_in};
ghost use Rattle.hub_core.specs.Needs.{IsPart, IsNoPart, front_of};
ghost use Rattle.hub_core.specs.Replies.{body_at};

use store_names::{FIELDS_AT, LENGTH_BYTES};
use tenant_map::Tenants;
use wire_frames::{LONGEST_BODY, Part};

/// Where a request's key begins in its frame.
const KEY_AT: usize = LENGTH_BYTES + store_names::KEY_AT;

/// Where it ends.
const KEY_END: usize = LENGTH_BYTES + FIELDS_AT;

/// The frame that these bytes begin with, where not all of it came but its key did.
pub(crate) fn part_of(tenants: &Tenants, bytes: &[u8]) -> Option<Part>
    ensures { MatchOption result (IsNoPart bytes.now) (IsPart tenants.now bytes.now) }
{
    if bytes.len() < KEY_END {
        return None;
    }
    let body = u32::from_be_bytes([bytes[0], bytes[1], bytes[2], bytes[3]]) as usize;
    let came = bytes.len() - LENGTH_BYTES;
    if body > LONGEST_BODY || body <= came {
        return None;
    }
    Some(Part {
        length: LENGTH_BYTES + body,
        left: body - came,
        is_known: place_of(tenants, &bytes[KEY_AT..KEY_END]).is_some(),
    })
}

/// The place of the tenant whose key is in the frame that these bytes begin with.
pub(crate) fn front_of(tenants: &Tenants, bytes: &[u8]) -> Option<usize>
    ensures { result ≡ front_of tenants.now bytes.now }
{
    if bytes.len() < KEY_END {
        return None;
    }
    place_of(tenants, &bytes[KEY_AT..KEY_END])
}

// The place of the tenant whose key these 16 bytes are.
fn place_of(tenants: &Tenants, key: &[u8]) -> Option<usize>
    requires { length key.now ≡ 16 }
    ensures { result ≡ place_in tenants.now.keys key.now }
{
    let mut whole = [0u8; 16];
    whole.copy_from_slice(key);
    tenants.place_of(&whole)
}

/// The body of the frame that these bytes begin with, where it is whole.
#[tactic(auto, unfolding(wire_frames::specs::Frames::front))]
pub(crate) fn body_of(bytes: &[u8]) -> Option<&[u8]>
    ensures { option_map (λ body. body.now) result ≡ body_at (front bytes.now) }
{
    if bytes.len() < LENGTH_BYTES {
        return None;
    }
    let length = u32::from_be_bytes([bytes[0], bytes[1], bytes[2], bytes[3]]) as usize;
    if length > LONGEST_BODY || bytes.len() - LENGTH_BYTES < length {
        return None;
    }
    Some(&bytes[LENGTH_BYTES..LENGTH_BYTES + length])
}
