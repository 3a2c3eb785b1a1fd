//! All tenants, by key.

ghost use Rattle.std.specs.Prelude.{◌≡◌, ◌<◌, ◌≤◌, ℕ, List, IfOk, IfErr, IfSome, [], length, replicate, slice_get, Some, false};
ghost use Rattle.std.specs.Map.{lookup};
ghost use Rattle.tenant_map.specs.Keyed.{at};
ghost use Rattle.tenant_map.specs.declared.tenants.TenantsFault.TheVariants.{Memory};
ghost use Rattle.std.specs.Borrow.{Lends, sem};
ghost use Rattle.tenant_map.specs.contracts.tenant.Tenant as tenant;
ghost use Rattle.tenant_map.specs.contracts.tenants.Tenants as tenants;
ghost use Rattle.tenant_map.specs.Tenancy.{place_in, has_repeated, with_map, AcceptsKeys, RefusesKeys};

use crate::tenant::Tenant;
use std::alloc::{AllocError, AllocFailed, Global};
use std::collections::BTreeMap;
use std::marker::Model;
use thiserror::Error;

/// The most tenants.
pub const TENANT_LIMIT: usize = 256;

/// Why keys are refused, in the order in which it is found.
#[derive(Clone, Copy, Debug, Drop, PartialEq, Eq, Error)]
pub enum TenantsFault {
    /// There is no key.
    #[error("NoKeys")]
    NoKeys,
    /// There are more keys than [`TENANT_LIMIT`].
    #[error("TooManyKeys")]
    TooManyKeys,
    /// A key comes twice.
    #[error("RepeatedKey")]
    RepeatedKey,
    /// An allocation failed.
    #[error("NoMemory")]
    Memory,
}

impl From<AllocError> for TenantsFault {
    ghost from_gives = { λ _ made. made ≡ Memory };

    fn from(_: AllocError) -> TenantsFault {
        TenantsFault::Memory
    }
}

impl<T: Drop> From<AllocFailed<T>> for TenantsFault {
    ghost from_gives = { λ _ made. made ≡ Memory };

    fn from(_: AllocFailed<T>) -> TenantsFault {
        TenantsFault::Memory
    }
}

/// A tenant for each key.
#[derive(Drop)]
pub struct Tenants {
    keys: Vec<[u8; 16]>,
    places: BTreeMap<[u8; 16], usize>,
    tenants: Vec<Tenant>,
}

impl Model for Tenants {
    ghost use Rattle.tenant_map.specs.Tenancy.{Tenancy, IsIndexed};

    ghost Value = { Tenancy };

    ghost view = { λ t. record { keys = t.keys.items; maps = t.tenants.items } };

    ghost invariant = { λ t. IsIndexed t.keys.items t.places.entries t.tenants.items };
}

impl Tenants {
    /// A tenant without documents for each key.
    ///
    /// Refused are, in this order, no keys, more than [`TENANT_LIMIT`], and a key that comes twice. `Memory` if an allocation
    /// failed.
    pub fn new(alloc: Global, keys: &[[u8; 16]]) -> Result<Tenants, TenantsFault>
        ensures accepted { IfOk result (λ tenants. AcceptsKeys keys.now tenants) }
        ensures refused { IfErr result (RefusesKeys keys.now) }
    {
        if keys.is_empty() {
            return Err(TenantsFault::NoKeys);
        }
        if keys.len() > TENANT_LIMIT {
            return Err(TenantsFault::TooManyKeys);
        }
        let places = match places_of(alloc, keys) {
            Ok(places) => places,
            Err(fault) => return Err(fault),
        };
        let tenants = empty_tenants(alloc, keys.len())?;
        let keys = Vec::from_slice(alloc, keys)?;
        Ok(Tenants {
            keys,
            places,
            tenants,
        })
    }

    /// The place of a key in the list given; `None` for any other key.
    pub fn place_of(&self, key: &[u8; 16]) -> Option<usize>
        ensures place { result ≡ place_in self.now.keys key.now }
        ensures inside { IfSome result (λ place. place < length self.now.maps) }
    {
        match self.places.get(key) {
            Some(place) => Some(*place),
            None => None,
        }
    }

    /// The tenant at a place.
    pub fn tenant(&self, place: usize) -> &Tenant
        requires { place < length self.now.maps }
        ensures { slice_get self.now.maps place ≡ Some result.now }
    {
        &self.tenants[place]
    }

    /// The tenant at a place, to change; no other tenant changes.
    pub fn tenant_mut(&mut self, place: usize) -> &mut Tenant
        requires { place < length self.old.maps }
        ensures* writes_back { sem 𝓛 (Lends tenants.the_row tenant.the_row self.entry result (with_map self.old place)) }
        ensures value { slice_get self.old.maps place ≡ Some result.now }
    {
        &mut self.tenants[place]
    }
}

// The place of each key, where none comes twice.
fn places_of(alloc: Global, keys: &[[u8; 16]]) -> Result<BTreeMap<[u8; 16], usize>, TenantsFault>
    requires some { 0 < length keys.now }
    requires few { length keys.now ≤ 256 }
    ensures place { IfOk result (λ places. (q : List ℕ) → lookup (at q) places.entries ≡ place_in keys.now q) }
    ensures distinct { IfOk result (λ places. has_repeated keys.now ≡ false) }
    ensures refused { IfErr result (RefusesKeys keys.now) }
{
    let mut places = BTreeMap::new(alloc);
    for i in 0..keys.len() {
        let earlier = places.insert(keys[i], i)?;
        if earlier.is_some() {
            return Err(TenantsFault::RepeatedKey);
        }
    }
    Ok(places)
}

fn empty_tenants(alloc: Global, count: usize) -> Result<Vec<Tenant>, AllocError>
    ensures { IfOk result (λ tenants. tenants.items ≡ replicate count []) }
{
    let mut tenants = Vec::with_capacity(alloc, count)?;
    for _place in 0..count {
        tenants.push(Tenant::new(alloc))?;
    }
    Ok(tenants)
}
