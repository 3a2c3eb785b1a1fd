// Hashes of what names mean. Names that mean the same have one hash, so no name repeats where no hash does.

ghost use Rattle.std.specs.Prelude.{◌≡◌, ◌+◌, ◌-◌, ◌/◌, ◌<◌, ◌≤◌, length, take, drop, IfSome};
ghost use Rattle.std.specs.Str.{chars};
ghost use Rattle.json_text.specs.Limits.{bytes_at};
ghost use Rattle.json_strings.specs.Spelling.{scalars_in, unquoted as inside, IsQuoted};
ghost use Rattle.json_strings.specs.Hashes.{joined as word_joined, chained as word_chained, roomy as with_room, more, finished, hash_of, word_of_bytes, words_from, fours_at as fours, IsPlainWord};
ghost use Rattle.json_strings.specs.Keys.{mixed as mix, spread as spread_of};

use crate::scalars::{Scalars, unquoted};
use json_text::Extent;
use std::simd::prelude::*;
use structural_index::lanes_before;

const FOUR: usize = 4;

// Words of eight bytes are two of four.
const HALF: u64 = 4_294_967_296;

/// The factor of what is hashed for one text alone, and of names where no other one is drawn.
pub const FACTOR: u64 = 0x9E37_79B9_7F4A_7C15;

// So many scalar values are one word, and so many bytes: their number, the first of them the highest.
const EIGHT: usize = 8;

// No digits are this word or a higher one.
const ABOVE_DIGITS: u64 = 0x8000_0000_0000_0000;

/// A hash of some scalar values: of those in whole words, and the word of the others with their number.
#[derive(Clone, Copy)]
pub struct Hashing {
    pub hash: u64,
    pub word: u64,
    pub count: usize,
}

// Of no scalar value.
const START: Hashing = Hashing {
    hash: 0,
    word: 0,
    count: 0,
};

#[inline(always)]
#[tactic(auto, unfolding(crate::specs::Hashes::joined))]
fn joined(hash: u64, word: u64) -> u64
    ensures { result ≡ word_joined hash word }
{
    hash.wrapping_mul(FACTOR).wrapping_add(word)
}

#[inline(always)]
#[tactic(auto, unfolding(crate::specs::Hashes::chained))]
fn chained(factor: u64, hash: u64, word: u64) -> u64
    ensures { result ≡ word_chained factor hash word }
{
    let product = u128::from(hash) * u128::from(factor);
    let high = (product >> 64) as u64;
    hash.wrapping_mul(factor)
        .wrapping_sub(high)
        .wrapping_add(word)
}

impl Hashing {
    #[inline(always)]
    fn roomy(self, factor: u64) -> Hashing
        ensures { result ≡ with_room factor self }
    {
        if self.count < EIGHT {
            self
        } else {
            Hashing {
                hash: chained(factor, self.hash, self.word),
                word: 0,
                count: 0,
            }
        }
    }

    #[inline(always)]
    #[tactic(auto, unfolding(crate::specs::Hashes::lengthened))]
    fn with(self, factor: u64, scalar: u32) -> Hashing
        ensures { result ≡ more factor self scalar }
    {
        let room = self.roomy(factor);
        if scalar < 128 {
            return Hashing {
                hash: room.hash,
                word: room.word.wrapping_mul(256).wrapping_add(u64::from(scalar)),
                count: room.count + 1,
            };
        }
        let digits = chained(factor, room.hash, room.word);
        let counted = chained(factor, digits, room.count as u64);
        Hashing {
            hash: chained(factor, counted, ABOVE_DIGITS + u64::from(scalar)),
            word: 0,
            count: 0,
        }
    }

    #[inline(always)]
    fn finish(self, factor: u64) -> u64
        ensures { result ≡ finished factor self }
    {
        if self.count == 0 {
            self.hash
        } else {
            chained(factor, self.hash, self.word)
        }
    }
}

#[inline(never)]
fn decoded_hash(mut scalars: Scalars<'_>, factor: u64) -> u64
    ensures { result ≡ hash_of factor scalars.entry }
{
    let mut state = START;
    while let Some(c) = scalars.next() {
        state = state.with(factor, u32::from(c));
    }
    state.finish(factor)
}

/// The hash of what characters mean. They are decoded only where a byte is no character that stands for itself.
#[tactic(auto, using(crate::proofs::PlainBytes::hash_over, crate::proofs::PlainBytes::hash_end))]
#[inline(never)]
pub fn long_hash(inside: &str, factor: u64) -> u64
    ensures { result ≡ hash_of factor (scalars_in (chars inside.now)) }
{
    let bytes = inside.as_bytes();
    let mut state = START;
    for i in 0..bytes.len() {
        let byte = bytes[i];
        if byte >= 128 || byte == b'\\' {
            return decoded_hash(Scalars::new(inside), factor);
        }
        state = state.with(factor, u32::from(byte));
    }
    state.finish(factor)
}

// The word of so many bytes from a place on, where they stand for themselves, and the text has eight bytes there.
#[inline(always)]
fn plain_word(text: &[u8], at: usize, len: usize) -> Option<u64>
    requires some { 0 < len }
    requires few { len ≤ EIGHT }
    requires inside { at + len ≤ length text.now }
    ensures { IfSome result (λ word. IsPlainWord text.now at len word) }
{
    if text.len() - at < EIGHT {
        return None;
    }
    let lanes = u8x8::from_slice(&text[at..]);
    let stops = lanes.simd_eq(u8x8::splat(b'\\')) | lanes.simd_ge(u8x8::splat(128));
    if lanes_before(stops.to_bitmask(), EIGHT) < len {
        return None;
    }
    Some(u64::from_be_bytes(lanes.to_array()) >> (64 - 8 * len))
}

// The four bytes from a place on, and those from another on, as one word.
#[inline(always)]
fn fours_at(bytes: &[u8], first: usize, last: usize) -> u64
    requires first { first + 4 ≤ length bytes.now }
    requires last { last + 4 ≤ length bytes.now }
    ensures { result ≡ fours bytes.now first last }
{
    let high = u32::from_le_bytes(u8x4::from_slice(&bytes[first..]).to_array());
    let low = u32::from_le_bytes(u8x4::from_slice(&bytes[last..]).to_array());
    u64::from(high) * HALF + u64::from(low)
}

// A word, and behind it those of the bytes between the first eight and the last eight.
#[inline(never)]
fn with_middle(bytes: &[u8], word: u64) -> u64
    requires { EIGHT < length bytes.now }
    ensures { result ≡ words_from ((length bytes.now - 9) / 8) bytes.now 8 word }
{
    let mut hash = word;
    for i in 0..(bytes.len() - 9) / EIGHT {
        let k = EIGHT * i + EIGHT;
        hash = joined(hash, fours_at(bytes, k, k + FOUR));
    }
    hash
}

/// A word of some bytes: of all, or of the second one of fewer than four.
#[inline(always)]
pub fn bytes_word(bytes: &[u8]) -> u64
    requires { 2 ≤ length bytes.now }
    ensures { result ≡ word_of_bytes bytes.now }
{
    let len = bytes.len();
    if len < FOUR {
        return u64::from(bytes[1]);
    }
    let ends = fours_at(bytes, 0, len - FOUR);
    if len < EIGHT {
        return ends;
    }
    let word = joined(ends, fours_at(bytes, FOUR, len - EIGHT));
    if len <= 2 * EIGHT {
        return word;
    }
    with_middle(bytes, word)
}

// The hash of what so many bytes from a place on mean, word by word.
#[inline(never)]
fn words_hash(text: &[u8], at: usize, len: usize, factor: u64) -> Option<u64>
    requires some { 0 < len }
    requires inside { at + len ≤ length text.now }
    ensures { IfSome result (λ hash. hash ≡ hash_of factor (scalars_in (chars (take len (drop at text.now))))) }
{
    let end = at + len;
    let mut hash = 0;
    let mut k = at;
    while end - k > EIGHT {
        let Some(word) = plain_word(text, k, EIGHT) else {
            return None;
        };
        hash = chained(factor, hash, word);
        k += EIGHT;
    }
    match plain_word(text, k, end - k) {
        Some(word) => Some(chained(factor, hash, word)),
        None => None,
    }
}

// The hash of a string without escapes. Few bytes are a word, which is their hash.
#[inline(always)]
#[tactic(auto, using(crate::proofs::ShortHashes::word_hashed))]
fn plain_hash(text: &[u8], at: usize, len: usize, factor: u64) -> Option<u64>
    requires { at + len ≤ length text.now }
    ensures { IfSome result (λ hash. hash ≡ hash_of factor (scalars_in (chars (take len (drop at text.now))))) }
{
    if len == 0 {
        return None;
    }
    if len > EIGHT {
        return words_hash(text, at, len, factor);
    }
    plain_word(text, at, len)
}

/// The hash of what a string that stands there means.
#[inline(always)]
pub fn hash(text: &str, string: Extent, factor: u64) -> u64
    requires { IsQuoted text.now string }
    ensures { result ≡ hash_of factor (scalars_in (chars (inside (bytes_at text.now string)))) }
{
    let at = string.start as usize + 1;
    match plain_hash(text.as_bytes(), at, string.len as usize - 2, factor) {
        Some(hash) => hash,
        None => long_hash(unquoted(text, string), factor),
    }
}

/// The hash of these scalar values.
pub fn meant_hash(name: &[char], factor: u64) -> u64
    ensures { result ≡ hash_of factor name.now }
{
    let mut state = START;
    for c in name {
        state = state.with(factor, u32::from(*c));
    }
    state.finish(factor)
}

/// The half of a hash by which names are ordered. An odd factor spreads best.
#[inline(always)]
#[tactic(auto, unfolding(crate::specs::Keys::spread))]
pub fn spread(hash: u64, factor: u64) -> u32
    ensures { result ≡ spread_of factor hash }
{
    (hash.wrapping_mul(factor) >> 32) as u32
}

/// The half of a word of bytes in which all of it shows.
#[inline(always)]
#[tactic(auto, unfolding(crate::specs::Keys::mixed))]
pub fn mixed(hash: u64) -> u32
    ensures { result ≡ mix hash }
{
    (hash.wrapping_mul(FACTOR) >> 32) as u32
}
