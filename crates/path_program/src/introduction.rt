//! What a server is told of itself before it serves.

use crate::named_keys::NamedKeys;
use event_loop::About;
use server_arguments::VERSION;
use std::alloc::{AllocError, Global};
use std::env::{self, VarError};
use std::rt::Env;

/// The most bytes of what the environment tells.
const MOST_BYTES: usize = 256;

/// What the program is, as far as its environment tells that, with hosts of the administration address and the names of the keys.
pub fn about<R: Env + AllocGlobal>(
    rt: &R,
    hosts: &[&str],
    keys: &NamedKeys,
) -> Result<About, AllocError> {
    Ok(About {
        hosts: copied(rt.alloc(), hosts)?,
        tenants: keys.names.clone()?,
        version: String::from_str(rt.alloc(), VERSION)?,
        commit: told(rt, "PATH_SERVER_COMMIT")?,
        proved: told(rt, "PATH_SERVER_IS_PROVED")?,
        kit: told(rt, "PATH_SERVER_KIT")?,
    })
}

fn copied(alloc: Global, hosts: &[&str]) -> Result<Vec<String>, AllocError> {
    let mut copies = Vec::new(alloc);
    for host in hosts {
        copies.push(String::from_str(alloc, host)?)?;
    }
    Ok(copies)
}

// What the environment tells under a name: `unknown` if that is nothing, or no text of at most 256 bytes.
fn told<R: Env + AllocGlobal>(rt: &R, name: &str) -> Result<String, AllocError> {
    match env::var(rt, name) {
        Ok(text) if !text.is_empty() && text.len() <= MOST_BYTES => Ok(text),
        Err(VarError::OutOfMemory) => Err(AllocError),
        _ => String::from_str(rt.alloc(), "unknown"),
    }
}
