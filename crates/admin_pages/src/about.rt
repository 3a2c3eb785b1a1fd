//! What a server is told of itself before it serves.
ghost use Rattle.std.specs.Prelude.{◌≡◌, [], string_bytes};

use std::alloc::Global;

/// What a server is, apart from what it does.
#[derive(Debug, Drop)]
pub struct About {
    /// The names of its administration address, beside addresses and `localhost`.
    pub hosts: Vec<String>,
    /// What each tenant is called, in the order of the keys.
    pub tenants: Vec<String>,
    /// The program's version.
    pub version: String,
    /// The commit that it was made of.
    pub commit: String,
    /// Whether it is the program that was proved.
    pub proved: String,
    /// The kit that it was made with.
    pub kit: String,
}

impl About {
    /// Nothing is known.
    pub fn new(alloc: Global) -> About
        ensures hosts { result.hosts.items ≡ [] }
        ensures tenants { result.tenants.items ≡ [] }
        ensures version { string_bytes result.version ≡ [] }
        ensures commit { string_bytes result.commit ≡ [] }
        ensures proved { string_bytes result.proved ≡ [] }
        ensures kit { string_bytes result.kit ≡ [] }
    {
        About {
            hosts: Vec::new(alloc),
            tenants: Vec::new(alloc),
            version: String::new(alloc),
            commit: String::new(alloc),
            proved: String::new(alloc),
            kit: String::new(alloc),
        }
    }
}
