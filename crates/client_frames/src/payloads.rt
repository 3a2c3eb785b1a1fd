//! The payloads of QUERY, LIST and USAGE.

ghost use Rattle.std.specs.Prelude.{◌≡◌, ◌≢◌, ◌++◌, ℕ, List, IfNone, IfOk, IfSome, IsErrOf, map};
ghost use Rattle.std.specs.Option.{option_map};
ghost use Rattle.store_names.specs.Names.{is_document_name};
ghost use Rattle.tenant_map.specs.Listings.{name_field};
ghost use Rattle.wire_frames.specs.Requests.{name_at};
ghost use Rattle.client_frames.specs.Payloads.{Found, IsFound, found_bytes, hits_payload, names_payload, usage_payload, AreCounts, AreHits, AreNames};
ghost use Rattle.client_frames.specs.Readings.{counts_of, found_of, hit_at, name_of, usage_at};

use crate::numbers::{take_field, take_number, take_prefixed};
use std::alloc::{AllocError, AllocFailed, Global};
use store_names::DocName;
use thiserror::Error;

/// A hit of a query: its document, the normalized path and the value's bytes.
#[derive(Clone, Copy, Debug)]
pub struct Hit<'a> {
    pub document: DocName<'a>,
    pub path: &'a [u8],
    pub value: &'a [u8],
}

/// What a tenant stores: the numbers of collections and documents, and the bytes of all texts.
#[derive(Clone, Copy, Debug, PartialEq, Eq)]
pub struct Usage {
    pub collections: u32,
    pub documents: u32,
    pub bytes: u32,
}

/// Why a payload could not be read.
#[derive(Clone, Copy, Debug, Drop, PartialEq, Eq, Error)]
pub enum PayloadFault {
    /// It is not a payload of the command: bytes are missing or left over, or a name is invalid.
    #[error("the payload is not one of the command")]
    NoPayload,
    /// An allocation failed.
    #[error("an allocation failed")]
    Memory,
}

impl From<AllocError> for PayloadFault {
    ghost use Rattle.client_frames.specs.declared.payloads.PayloadFault.TheVariants.{Memory};

    ghost from_gives = { λ _ made. made ≡ Memory };

    fn from(_: AllocError) -> PayloadFault {
        PayloadFault::Memory
    }
}

impl<T: Drop> From<AllocFailed<T>> for PayloadFault {
    ghost use Rattle.client_frames.specs.declared.payloads.PayloadFault.TheVariants.{Memory};

    ghost from_gives = { λ _ made. made ≡ Memory };

    fn from(_: AllocFailed<T>) -> PayloadFault {
        PayloadFault::Memory
    }
}

/// The numbers in the payload of a USAGE, or `None` if it is not one.
pub fn read_usage(payload: &[u8]) -> Option<Usage>
    ensures usage { IfSome result (λ u. payload.now ≡ usage_payload u.collections u.documents u.bytes) }
    ensures none { IfNone result ((collections documents bytes : ℕ) → AreCounts collections documents bytes → payload.now ≢ usage_payload collections documents bytes) }
{
    take_usage(payload)
}

#[tactic(auto, unfolding(crate::specs::Readings::usage_at))]
fn take_usage(payload: &[u8]) -> Option<Usage>
    ensures read { option_map counts_of result ≡ usage_at payload.now }
    ensures whole { IfSome result (λ u. payload.now ≡ usage_payload u.collections u.documents u.bytes) }
{
    let (collections, rest) = take_number(payload)?;
    let (documents, rest) = take_number(rest)?;
    let (bytes, rest) = take_number(rest)?;
    if rest.is_empty() {
        Some(Usage {
            collections,
            documents,
            bytes,
        })
    } else {
        None
    }
}

#[tactic(auto, unfolding(wire_frames::specs::Requests::name_at))]
fn take_name(bytes: &[u8]) -> Option<(DocName<'_>, &[u8])>
    ensures read { option_map (λ p. (p.0.bytes.now, p.1.now)) result ≡ name_at is_document_name bytes.now }
    ensures whole { IfSome result (λ p. bytes.now ≡ name_field p.0.bytes.now ++ p.1.now) }
{
    let (name, rest) = take_prefixed(bytes)?;
    let name = DocName::read(name)?;
    Some((name, rest))
}

#[tactic(auto, unfolding(crate::specs::Readings::hit_at))]
fn take_hit(bytes: &[u8]) -> Option<(Hit<'_>, &[u8])>
    ensures read { option_map (λ p. (found_of p.0, p.1.now)) result ≡ hit_at bytes.now }
    ensures whole { IfSome result (λ p. bytes.now ≡ found_bytes (found_of p.0) ++ p.1.now) }
    ensures found { IfSome result (λ p. IsFound (found_of p.0)) }
{
    let (document, rest) = take_name(bytes)?;
    let (path, rest) = take_field(rest)?;
    let (value, rest) = take_field(rest)?;
    let hit = Hit {
        document,
        path,
        value,
    };
    Some((hit, rest))
}

/// The hits in the payload of a QUERY.
///
/// # Errors
///
/// NoPayload if it is not one, Memory if an allocation failed.
pub fn read_hits(alloc: Global, payload: &[u8]) -> Result<Vec<Hit<'_>>, PayloadFault>
    ensures hits { IfOk result (λ hits. let found = map found_of hits.items in AreHits found × (payload.now ≡ hits_payload found)) }
    ensures none { IsErrOf result PayloadFault.NoPayload → (hits : List Found) → AreHits hits → payload.now ≢ hits_payload hits }
{
    let Some((count, mut rest)) = take_number(payload) else {
        return Err(PayloadFault::NoPayload);
    };
    let mut hits = Vec::new(alloc);
    let mut left = count;
    'hits: while left > 0 {
        let Some((hit, more)) = take_hit(rest) else {
            return Err(PayloadFault::NoPayload);
        };
        hits.push(hit)?;
        rest = more;
        left -= 1;
    }
    if rest.is_empty() {
        Ok(hits)
    } else {
        Err(PayloadFault::NoPayload)
    }
}

/// The names in the payload of a LIST.
///
/// # Errors
///
/// NoPayload if it is not one, Memory if an allocation failed.
pub fn read_names(alloc: Global, payload: &[u8]) -> Result<Vec<DocName<'_>>, PayloadFault>
    ensures names { IfOk result (λ names. let found = map name_of names.items in AreNames found × (payload.now ≡ names_payload found)) }
    ensures none { IsErrOf result PayloadFault.NoPayload → (names : List (List ℕ)) → AreNames names → payload.now ≢ names_payload names }
{
    let Some((count, mut rest)) = take_number(payload) else {
        return Err(PayloadFault::NoPayload);
    };
    let mut names = Vec::new(alloc);
    let mut left = count;
    'names: while left > 0 {
        let Some((name, more)) = take_name(rest) else {
            return Err(PayloadFault::NoPayload);
        };
        names.push(name)?;
        rest = more;
        left -= 1;
    }
    if rest.is_empty() {
        Ok(names)
    } else {
        Err(PayloadFault::NoPayload)
    }
}
