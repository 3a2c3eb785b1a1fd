//! A number that whoever does not know all keys cannot tell.

use sha2::{Digest, Sha256};

/// The factor by which the names of long texts are hashed: an odd number of a digest of all keys. So no tenant that does not know another one's key can make
/// names that meet.
pub fn factor_of(keys: &[[u8; 16]]) -> u64 {
    let mut digest = Sha256::new();
    for key in keys {
        digest.update(key.as_slice());
    }
    let [a, b, c, d, e, f, g, h, ..] = digest.finalize();
    u64::from_be_bytes([a, b, c, d, e, f, g, h]) | 1
}
