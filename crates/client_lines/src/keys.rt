//! Key files.

ghost use Rattle.std.specs.Prelude.{◌≡◌, ◌∷◌, ◌≤◌, [], IfNone, IfSome, length};
ghost use Rattle.std.specs.List.{position_or_len};
ghost use Rattle.client_lines.specs.Keys.{key_in, words_in};
ghost use Rattle.client_lines.specs.Keys as keys;

use hex::FromHex;
use thiserror::Error;

/// Why a text is not one key.
#[derive(Clone, Copy, Debug, Drop, PartialEq, Eq, Error)]
pub enum KeyFault {
    /// There is no key.
    #[error("it has no key")]
    NoKey,
    /// There are several keys.
    #[error("it has several keys")]
    SeveralKeys,
    /// The key is not 32 hexadecimal digits.
    #[error("a key has 32 hexadecimal digits")]
    BadKey,
}

fn is_separator(byte: u8) -> bool
    ensures { result ≡ keys.is_separator byte }
{
    matches!(byte, b'\t' | b'\n' | b'\r' | b' ' | b',')
}

/// The number of bytes before the first separator.
fn word_length(text: &[u8]) -> usize
    ensures within { result ≤ length text.now }
    ensures value { result ≡ position_or_len keys.is_separator text.now }
{
    let mut count = 0;
    for byte in text {
        if is_separator(*byte) {
            return count;
        }
        count += 1;
    }
    count
}

/// The first word of a text, and the text behind it.
#[tactic(auto, using(crate::proofs::Words::word_within))]
fn first_word(text: &[u8]) -> Option<(&[u8], &[u8])>
    ensures some { IfSome result (λ parts. words_in text.now ≡ parts.0.now ∷ words_in parts.1.now) }
    ensures none { IfNone result (words_in text.now ≡ []) }
{
    let mut rest = text;
    while let Some((byte, others)) = rest.split_first() {
        if !is_separator(*byte) {
            return Some(rest.split_at(word_length(rest)));
        }
        rest = others;
    }
    None
}

/// Reads a key: 32 hexadecimal digits of either case, with separators around them.
///
/// # Errors
///
/// NoKey if the text has only separators, SeveralKeys if it has several words, BadKey if its word is not a key.
pub fn read_key(text: &[u8]) -> Result<[u8; 16], KeyFault>
    ensures { result ≡ key_in (words_in text.now) }
{
    let Some((word, rest)) = first_word(text) else {
        return Err(KeyFault::NoKey);
    };
    if first_word(rest).is_some() {
        return Err(KeyFault::SeveralKeys);
    }
    match <[u8; 16] as FromHex>::from_hex(word) {
        Ok(key) => Ok(key),
        Err(_) => Err(KeyFault::BadKey),
    }
}
