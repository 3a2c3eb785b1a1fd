//! Big-endian numbers of four bytes, and fields with a length.

ghost use Rattle.std.specs.Prelude.{◌≡◌, ◌<◌, ◌≤◌, ◌^◌, ◌++◌, IfSome, length, take};
ghost use Rattle.std.specs.Option.{option_map};
ghost use Rattle.std.specs.Int.{w32, from_be_bytes, to_be_bytes};
ghost use Rattle.tenant_map.specs.Listings.{number, name_field};
ghost use Rattle.tenant_store.specs.Payloads.{field};
ghost use Rattle.wire_frames.specs.Requests.{prefixed};
ghost use Rattle.client_frames.specs.Readings.{bytes_at, number_at, field_at};

/// The number in the first four bytes.
pub fn spelled(bytes: &[u8]) -> u32
    requires { 4 ≤ length bytes.now }
    ensures value { result ≡ from_be_bytes w32 (take 4 bytes.now) }
    ensures bytes { to_be_bytes w32 result ≡ take 4 bytes.now }
{
    u32::from_be_bytes([bytes[0], bytes[1], bytes[2], bytes[3]])
}

/// A number, and the bytes after it.
#[tactic(auto, unfolding(crate::specs::Readings::number_at, tenant_map::specs::Listings::number))]
pub fn take_number(bytes: &[u8]) -> Option<(u32, &[u8])>
    ensures read { option_map (λ p. (p.0, p.1.now)) result ≡ number_at bytes.now }
    ensures whole { IfSome result (λ p. bytes.now ≡ number p.0 ++ p.1.now) }
{
    if bytes.len() < 4 {
        return None;
    }
    Some((spelled(bytes), bytes.split_at(4).1))
}

/// The first bytes, and those after them.
#[tactic(auto, unfolding(crate::specs::Readings::bytes_at))]
pub fn take_bytes(bytes: &[u8], count: usize) -> Option<(&[u8], &[u8])>
    ensures read { option_map (λ p. (p.0.now, p.1.now)) result ≡ bytes_at count bytes.now }
    ensures whole { IfSome result (λ p. (bytes.now ≡ p.0.now ++ p.1.now) × (length p.0.now ≡ count)) }
{
    if bytes.len() < count {
        return None;
    }
    Some(bytes.split_at(count))
}

/// A field after its length in four bytes, and the bytes after it.
#[tactic(auto, unfolding(crate::specs::Readings::field_at))]
pub fn take_field(bytes: &[u8]) -> Option<(&[u8], &[u8])>
    ensures read { option_map (λ p. (p.0.now, p.1.now)) result ≡ field_at bytes.now }
    ensures whole { IfSome result (λ p. bytes.now ≡ field p.0.now ++ p.1.now) }
    ensures short { IfSome result (λ p. length p.0.now < 2 ^ 32) }
{
    let (length, rest) = take_number(bytes)?;
    take_bytes(rest, length as usize)
}

/// A field after its length in one byte, and the bytes after it.
#[tactic(auto, unfolding(wire_frames::specs::Requests::prefixed))]
pub fn take_prefixed(bytes: &[u8]) -> Option<(&[u8], &[u8])>
    ensures read { option_map (λ p. (p.0.now, p.1.now)) result ≡ prefixed bytes.now }
    ensures whole { IfSome result (λ p. bytes.now ≡ name_field p.0.now ++ p.1.now) }
{
    let (length, rest) = bytes.split_first()?;
    let length = *length as usize;
    if rest.len() < length {
        return None;
    }
    Some(rest.split_at(length))
}
