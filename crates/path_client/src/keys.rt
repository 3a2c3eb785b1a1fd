//! Keys: reads one from a file, and makes new ones.

use client_commands::Failure;
use client_lines::read_key;
use std::fs;
use std::io::{self, ErrorKind, Read};
use std::rt::Files;

/// The most bytes of a key file.
const MOST_BYTES: u64 = 65_536;

/// Where the system has random bytes.
const RANDOM: &str = "/dev/urandom";

/// Reads the key in a file.
pub fn read<R: Files + AllocGlobal>(rt: &R, path: &str) -> Result<[u8; 16], Failure> {
    if path.is_empty() {
        return Err(Failure::NoKeyFile);
    }
    let file = match fs::open(rt, path) {
        Ok(file) => file,
        Err(error) => return Err(unread(&error)),
    };
    let mut text = Vec::new(rt.alloc());
    match file.take(MOST_BYTES).read_to_end(&mut text) {
        Ok(_) => read_key(text.as_slice()).map_err(Failure::KeyFile),
        Err(error) => Err(unread(&error)),
    }
}

fn unread(error: &io::Error) -> Failure {
    match error.kind() {
        ErrorKind::OutOfMemory => Failure::Memory,
        kind => Failure::KeyFileUnread(kind),
    }
}

// Sixteen random bytes of the system.
fn random<R: Files>(rt: &R) -> Result<[u8; 16], Failure> {
    let mut key = [0; 16];
    match fs::open(rt, RANDOM) {
        Ok(mut file) => match file.read_exact(&mut key) {
            Ok(()) => Ok(key),
            Err(error) => Err(Failure::NoRandom(error.kind())),
        },
        Err(error) => Err(Failure::NoRandom(error.kind())),
    }
}

/// Prints a new random key.
pub fn print_new<R: Print + Files + AllocGlobal>(rt: &R) -> Result<(), Failure> {
    let key = random(rt)?;
    let Ok(digits) = hex::encode(rt.alloc(), key) else {
        return Err(Failure::Memory);
    };
    println!(rt; "{digits}").map_err(|error| Failure::of_output(&error))
}
