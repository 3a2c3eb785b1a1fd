//! Comparing the characters of a string with scalar values.

ghost use Rattle.std.specs.Prelude.{◌≡◌, ◌+◌, ◌≤◌, IsTrue, IfSome, Some, true, false, length, drop, bytes_eq};
ghost use Rattle.std.specs.Str.{chars};
ghost use Rattle.json_text.specs.Limits.{bytes_at};
ghost use Rattle.json_strings.specs.Spelling.{scalars_in, unquoted as inside, IsQuoted, SpellPlainly, ArePlainAt, IsWord, AreWords, AreWordsOf};

use crate::scalars::{Scalars, unquoted};
use json_text::Extent;
use std::simd::prelude::*;

// Whether the scalar values that are left are these.
#[tactic(auto, using(crate::proofs::Comparing::other_next))]
#[inline(never)]
fn is_meant(mut scalars: Scalars<'_>, name: &[char]) -> bool
    ensures { result ≡ bytes_eq name.now scalars.entry }
{
    for c in name {
        match scalars.next() {
            Some(scalar) if scalar == *c => {}
            _ => return false,
        }
    }
    scalars.next().is_none()
}

// Whether the first character of a string that stands there tells that it does not mean these scalar values.
#[inline(always)]
#[tactic(auto, using(crate::proofs::PlainBytes::begins_other))]
fn begins_otherwise(text: &str, string: Extent, name: &[char]) -> bool
    requires { IsQuoted text.now string }
    ensures { IsTrue result → bytes_eq name.now (scalars_in (chars (inside (bytes_at text.now string)))) ≡ false }
{
    if name.is_empty() {
        return false;
    }
    let byte = text.as_bytes()[string.start as usize + 1];
    if byte >= 128 || byte == b'\\' {
        return false;
    }
    u32::from(name[0]) != u32::from(byte)
}

// So many characters are compared at once.
const FOUR: usize = 4;

// Whether the four bytes at this place stand for themselves and are these four scalar values.
#[inline(always)]
fn are_same(bytes: &[u8], name: &[char], at: usize) -> bool
    requires bytes { at + FOUR ≤ length bytes.now }
    requires name { at + FOUR ≤ length name.now }
    ensures { IsTrue result → SpellPlainly bytes.now name.now at (at + FOUR) }
{
    let lanes = u8x4::from_slice(&bytes[at..]).cast::<u32>();
    let letters = u32x4::from_array([
        u32::from(name[at]),
        u32::from(name[at + 1]),
        u32::from(name[at + 2]),
        u32::from(name[at + 3]),
    ]);
    let stops = lanes.simd_ne(letters)
        | lanes.simd_eq(u32x4::splat(92))
        | lanes.simd_ge(u32x4::splat(128));
    stops.to_bitmask() == 0
}

// How many scalar values stand there as plain bytes, as far as four at a time tell, the last four of them over some that were
// seen.
#[inline(always)]
fn same_run(bytes: &[u8], name: &[char]) -> usize
    requires { length name.now ≤ length bytes.now }
    ensures same { SpellPlainly bytes.now name.now 0 result }
    ensures inside { result ≤ length name.now }
{
    if name.len() < FOUR {
        return 0;
    }
    let last = name.len() - FOUR;
    let mut k = 0;
    while k < last {
        if !are_same(bytes, name, k) {
            return k;
        }
        k += FOUR;
    }
    if are_same(bytes, name, last) {
        name.len()
    } else {
        last
    }
}

// Whether the characters end behind these scalar values, with which they begin. `None` where a byte does not tell.
#[inline(always)]
#[tactic(auto, using(crate::proofs::PlainBytes::comparing))]
fn ends_plainly(inside: &str, name: &[char]) -> Option<bool>
    requires long { length name.now ≤ length inside.now }
    requires begins { bytes_eq (drop (length name.now) name.now) (scalars_in (chars (drop (length name.now) inside.now))) ≡ bytes_eq name.now (scalars_in (chars inside.now)) }
    ensures { IfSome result (λ same. same ≡ bytes_eq name.now (scalars_in (chars inside.now))) }
{
    let bytes = inside.as_bytes();
    if bytes.len() == name.len() {
        return Some(true);
    }
    let byte = bytes[name.len()];
    if byte >= 128 || byte == b'\\' {
        None
    } else {
        Some(false)
    }
}

// The characters are compared as far as each byte is ASCII and no backslash, those that four at a time tell first. `None` where
// one is not.
#[inline(always)]
#[tactic(auto, using(crate::proofs::PlainBytes::fewer, crate::proofs::PlainBytes::plain_run, crate::proofs::PlainBytes::comparing))]
fn spells_plainly(inside: &str, name: &[char]) -> Option<bool>
    ensures { IfSome result (λ same. same ≡ bytes_eq name.now (scalars_in (chars inside.now))) }
{
    if inside.len() < name.len() {
        return Some(false);
    }
    let bytes = inside.as_bytes();
    for i in same_run(bytes, name)..name.len() {
        let byte = bytes[i];
        if byte >= 128 || byte == b'\\' {
            return None;
        }
        if u32::from(name[i]) != u32::from(byte) {
            return Some(false);
        }
    }
    ends_plainly(inside, name)
}

// The most characters of a name that two words hold.
const EIGHT: usize = 8;

/// The first four and the last four characters of a name, each as one word of bytes.
#[derive(Clone, Copy)]
pub struct Words {
    pub first: u32,
    pub last: u32,
}

// Four and four scalar values as words of bytes; `None` where one of them is no character that stands for itself as a byte.
#[inline(always)]
fn packed(name: &[char], first: usize, last: usize) -> Option<Words>
    requires first { first + FOUR ≤ length name.now }
    requires last { last + FOUR ≤ length name.now }
    ensures { IfSome result (λ words. AreWords words name.now first last) }
{
    let letters = u32x8::from_array([
        u32::from(name[first]),
        u32::from(name[first + 1]),
        u32::from(name[first + 2]),
        u32::from(name[first + 3]),
        u32::from(name[last]),
        u32::from(name[last + 1]),
        u32::from(name[last + 2]),
        u32::from(name[last + 3]),
    ]);
    let lanes = letters.simd_min(u32x8::splat(255)).cast::<u8>();
    let stops = lanes.simd_eq(u8x8::splat(b'\\')) | lanes.simd_ge(u8x8::splat(128));
    if stops.to_bitmask() == 0 {
        let bytes = lanes.to_array();
        Some(Words {
            first: u32::from_le_bytes([bytes[0], bytes[1], bytes[2], bytes[3]]),
            last: u32::from_le_bytes([bytes[4], bytes[5], bytes[6], bytes[7]]),
        })
    } else {
        None
    }
}

/// The words of a name that they hold, where its characters stand for themselves as bytes.
#[inline(always)]
pub fn words_of(name: &[char]) -> Option<Words>
    ensures { IfSome result (λ words. AreWordsOf words name.now) }
{
    if name.len() < FOUR || name.len() > EIGHT {
        return None;
    }
    packed(name, 0, name.len() - FOUR)
}

// Whether the four bytes at this place are those of the word. `None` where they are not and one of them does not stand for itself.
#[inline(always)]
fn is_word(bytes: &[u8], at: usize, word: u32) -> Option<bool>
    requires { at + FOUR ≤ length bytes.now }
    ensures same { result ≡ Some true → IsWord word bytes.now at }
    ensures other { result ≡ Some false → (IsWord word bytes.now at → ⊥) × ArePlainAt bytes.now at }
{
    let lanes = u8x4::from_slice(&bytes[at..]);
    if u32::from_le_bytes(lanes.to_array()) == word {
        return Some(true);
    }
    let stops = lanes.simd_eq(u8x4::splat(b'\\')) | lanes.simd_ge(u8x4::splat(128));
    if stops.to_bitmask() == 0 {
        Some(false)
    } else {
        None
    }
}

// Whether the characters mean a name whose words these are; `None` where a byte does not tell.
#[inline(always)]
#[tactic(auto, using(crate::proofs::PlainBytes::fewer))]
fn spells_words(inside: &str, name: &[char], words: Words) -> Option<bool>
    requires { AreWordsOf words name.now }
    ensures { IfSome result (λ same. same ≡ bytes_eq name.now (scalars_in (chars inside.now))) }
{
    if inside.len() < name.len() {
        return Some(false);
    }
    let bytes = inside.as_bytes();
    match is_word(bytes, 0, words.first) {
        Some(true) => {}
        Some(false) => return Some(false),
        None => return None,
    }
    match is_word(bytes, name.len() - FOUR, words.last) {
        Some(true) => ends_plainly(inside, name),
        Some(false) => Some(false),
        None => None,
    }
}

/// Whether a string that stands there means these scalar values, where its bytes tell; `None` where they do not.
#[inline(always)]
pub fn is_meant_plainly(
    text: &str,
    string: Extent,
    name: &[char],
    words: Option<Words>,
) -> Option<bool>
    requires quoted { IsQuoted text.now string }
    requires words { IfSome words (λ words. AreWordsOf words name.now) }
    ensures { IfSome result (λ same. same ≡ bytes_eq name.now (scalars_in (chars (inside (bytes_at text.now string))))) }
{
    if begins_otherwise(text, string, name) {
        return Some(false);
    }
    let characters = unquoted(text, string);
    match words {
        Some(words) => spells_words(characters, name, words),
        None => spells_plainly(characters, name),
    }
}

/// Whether a string that stands there means these scalar values.
pub fn is_meant_by(text: &str, string: Extent, name: &[char]) -> bool
    requires { IsQuoted text.now string }
    ensures { result ≡ bytes_eq name.now (scalars_in (chars (inside (bytes_at text.now string)))) }
{
    let characters = unquoted(text, string);
    match spells_plainly(characters, name) {
        Some(same) => same,
        None => is_meant(Scalars::new(characters), name),
    }
}
