//! Numbers in four bytes, the most significant first.

ghost use Rattle.std.specs.Prelude.{◌≡◌};
ghost use Rattle.tenant_map.specs.Listings.{number};

/// The four bytes of a number, the most significant first.
#[tactic(auto, unfolding(crate::specs::Listings::number))]
pub fn big_endian(n: u32) -> [u8; 4]
    ensures { result ≡ number n }
{
    n.to_be_bytes()
}
