//! The written form of tenants' keys.

ghost use Rattle.std.specs.Prelude.{◌≡◌, ℕ, List, IfNone, IfOk, IfSome, IsErrOf};
ghost use Rattle.path_server.specs.Keys.{SpellsKey, SpellsKeys};
ghost use Rattle.path_server.specs.declared.keys.KeysFault.TheVariants.{Memory};

use hex::FromHex;
use std::alloc::{AllocError, AllocFailed, Global};
use thiserror::Error;

/// The hexadecimal digits of a key.
const DIGITS: usize = 32;

/// Why a text is not a list of keys.
#[derive(Clone, Copy, Debug, Drop, PartialEq, Eq, Error)]
pub enum KeysFault {
    /// The text is not of the written form.
    #[error("BadKeys")]
    BadKeys,
    /// An allocation failed.
    #[error("NoMemory")]
    Memory,
}

impl From<AllocError> for KeysFault {
    ghost from_gives = { λ _ made. made ≡ Memory };

    fn from(_: AllocError) -> KeysFault {
        KeysFault::Memory
    }
}

impl<T: Drop> From<AllocFailed<T>> for KeysFault {
    ghost from_gives = { λ _ made. made ≡ Memory };

    fn from(_: AllocFailed<T>) -> KeysFault {
        KeysFault::Memory
    }
}

fn read_key(digits: &[u8]) -> Option<[u8; 16]>
    ensures some { IfSome result (λ key. SpellsKey digits.now key) }
    ensures none { IfNone result ((key : List ℕ) → ¬ SpellsKey digits.now key) }
{
    <[u8; 16] as FromHex>::from_hex(digits).ok()
}

/// The keys that a text spells: one or more, each as 32 hexadecimal digits of either case, joined by commas.
///
/// BadKeys if it is not such a list. Memory if an allocation failed.
pub fn read_keys(alloc: Global, text: &[u8]) -> Result<Vec<[u8; 16]>, KeysFault>
    ensures spelled { IfOk result (λ keys. SpellsKeys text.now keys.items) }
    ensures bad { IsErrOf result KeysFault.BadKeys → (keys : List (List ℕ)) → ¬ SpellsKeys text.now keys }
{
    let mut keys = Vec::new(alloc);
    let mut rest = text;
    while rest.len() > DIGITS {
        let Some(key) = read_key(&rest[..DIGITS]) else {
            return Err(KeysFault::BadKeys);
        };
        if rest[DIGITS] != b',' {
            return Err(KeysFault::BadKeys);
        }
        keys.push(key)?;
        rest = &rest[DIGITS + 1..];
    }
    let Some(key) = read_key(rest) else {
        return Err(KeysFault::BadKeys);
    };
    keys.push(key)?;
    Ok(keys)
}
