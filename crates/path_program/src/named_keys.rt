//! Tenants' keys, and what the tenants are called.

use path_server::read_keys;
use server_arguments::Failure;
use sha2::{Digest, Sha256};
use std::alloc::{AllocError, Global};

/// The keys of a word of the command line.
pub fn keys_of_word(alloc: Global, word: &str) -> Result<Vec<[u8; 16]>, Failure> {
    match read_keys(alloc, word.as_bytes()) {
        Ok(keys) => Ok(keys),
        Err(fault) => Err(Failure::of_keys(word, fault)),
    }
}

/// Keys, and as many names.
#[derive(Drop)]
pub struct NamedKeys {
    pub keys: Vec<[u8; 16]>,
    pub names: Vec<String>,
}

impl NamedKeys {
    /// There is none.
    pub fn new(alloc: Global) -> NamedKeys {
        NamedKeys {
            keys: Vec::new(alloc),
            names: Vec::new(alloc),
        }
    }

    /// Appends a key. Without a name its tenant is called by the first eight digits of the key's SHA-256, as HAProxy prints it.
    pub fn add(
        &mut self,
        alloc: Global,
        key: [u8; 16],
        name: Option<&str>,
    ) -> Result<(), AllocError> {
        let name = match name {
            Some(name) => String::from_str(alloc, name),
            None => digits_of(alloc, &key),
        };
        append(&mut self.names, name?)?;
        self.keys.extend_from_slice(&[key])
    }

    /// Appends keys without names.
    pub fn add_all(&mut self, alloc: Global, keys: &[[u8; 16]]) -> Result<(), AllocError> {
        for key in keys {
            self.add(alloc, *key, None)?;
        }
        Ok(())
    }

    /// A name that two keys have, if one is such.
    pub fn repeated(&self) -> Option<&str> {
        for (place, name) in self.names.iter().enumerate() {
            if self.has_other(place, name.as_str()) {
                return Some(name.as_str());
            }
        }
        None
    }

    // Whether another key before a place has this name.
    fn has_other(&self, place: usize, name: &str) -> bool {
        let before = self.names.get(..place).unwrap_or_default();
        for (other, named) in before.iter().enumerate() {
            if named.as_str() == name && self.keys.get(other) != self.keys.get(place) {
                return true;
            }
        }
        false
    }
}

fn append<T: Drop>(list: &mut Vec<T>, item: T) -> Result<(), AllocError> {
    Ok(list.push(item)?)
}

fn digits_of(alloc: Global, key: &[u8; 16]) -> Result<String, AllocError> {
    let [first, second, third, fourth, ..] = Sha256::digest(key.as_slice());
    format!(in alloc; "{first:02X}{second:02X}{third:02X}{fourth:02X}")
}
