// How many characters a text has: as many as bytes that begin one (RFC 3629, section 3).

ghost use Rattle.std.specs.Prelude.{◌≡◌, length, map};
ghost use Rattle.std.specs.Str.{chars};
ghost use lib.Lanes.{mask_l};
ghost use Rattle.json_strings.specs.Spelling.{begins};

use std::simd::prelude::*;

// So many bytes are looked at in one load.
const LANES: usize = 32;

// Whether it begins a character: it is none of 80 to BF (hexadecimal).
fn begins_character(byte: u8) -> bool
    ensures { result ≡ begins byte }
{
    byte < 0x80 || byte >= 0xC0
}

// The bits of the bytes of a load that begin a character.
#[inline(always)]
fn beginnings(lanes: u8x32) -> u64
    ensures { result ≡ mask_l (map begins lanes) }
{
    (lanes.simd_lt(u8x32::splat(0x80)) | lanes.simd_ge(u8x32::splat(0xC0))).to_bitmask()
}

/// How many characters a text has.
pub fn character_count(text: &str) -> usize
    ensures { result ≡ length (chars text.now) }
{
    let bytes = text.as_bytes();
    let mut k = 0;
    let mut count = 0;
    while bytes.len() - k >= LANES {
        count += beginnings(u8x32::from_slice(&bytes[k..])).count_ones() as usize;
        k += LANES;
    }
    while k < bytes.len() {
        count += usize::from(begins_character(bytes[k]));
        k += 1;
    }
    count
}
