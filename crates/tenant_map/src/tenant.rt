//! One tenant.

ghost use Rattle.std.specs.Prelude.{◌≡◌, ◌+◌, ◌≤◌, ◌<◌, ◌++◌, ℕ, IfOk, IfErr, OnOk, OnErr, OnSome, IfSome, MatchOption, IfNone, [], length, vec_len, Some, None, is_some};
ghost use Rattle.std.specs.Option.{option_map, option_copied};
ghost use Rattle.std.specs.Map.{lookup};
ghost use Rattle.std.specs.Vec.{vec_capacity};
ghost use Rattle.json_tape.specs.Document.{tree_of};
ghost use Rattle.json_tape.specs.Verdict.{text_limit, IsAccepted};
ghost use Rattle.tenant_map.specs.Keyed.{at, by_bytes};
ghost use Rattle.tenant_map.specs.Maps.{IsMap, text_at, documents_of, put_text, remove_text, drop_texts};
ghost use Rattle.tenant_map.specs.Quotas.{document_quota, usage_of, quota_by, quota_fault, replaced};
ghost use Rattle.store_names.specs.Lengths.{payload_limit};
ghost use Rattle.tenant_map.specs.Listings.{listing};
ghost use Rattle.tenant_map.specs.Kept.{AreKept, texts};
ghost use Rattle.tenant_map.specs.Answers.{RefusesPut, AcceptsPut, RefusesPutNew, AcceptsPutNew, FailsVerdict, FailsKeeping, missing};

use crate::collection::Collection;
use crate::faults::StoreFault;
use crate::numbers::big_endian;
use crate::usage::Usage;
use json_tape::{Document, Verdict};
use std::alloc::{AllocError, Global};
use std::collections::BTreeMap;
use std::marker::Model;
use store_names::{CollName, DocName};

/// The most collections of a tenant.
pub const COLLECTION_QUOTA: u32 = 16;

/// The most documents of a tenant.
pub const DOCUMENT_QUOTA: u32 = 1000;

/// The most bytes of a tenant's texts.
pub const BYTE_QUOTA: u32 = 16_777_216;

/// The texts of one tenant.
#[derive(Drop)]
pub struct Tenant {
    collections: BTreeMap<Vec<u8>, Collection>,
    documents: u32,
    bytes: u32,
}

impl Model for Tenant {
    ghost use Rattle.std.specs.Prelude.{ℕ, List};
    ghost use Rattle.tenant_map.specs.Keyed.{at, by_bytes};

    ghost Value = { List (List ℕ × List (List ℕ × List ℕ)) };

    ghost use Rattle.tenant_map.specs.Quotas.{IsCounted};

    ghost view = { λ t. by_bytes t.collections.entries };

    ghost invariant = { λ t. IsCounted (by_bytes t.collections.entries) t.documents t.bytes };
}

impl Tenant {
    /// A tenant without documents.
    pub fn new(alloc: Global) -> Tenant
        ensures { result ≡ [] }
    {
        Tenant {
            collections: BTreeMap::new(alloc),
            documents: 0,
            bytes: 0,
        }
    }

    /// How much the tenant holds.
    pub fn usage(&self) -> Usage
        ensures counted { result ≡ usage_of self.now }
        ensures within { quota_fault self.now ≡ None }
        ensures ordered { IsMap self.now }
    {
        Usage {
            collections: self.collections.len() as u32,
            documents: self.documents,
            bytes: self.bytes,
        }
    }

    /// The bytes of memory that the documents take: their texts, entries and orders of names.
    pub fn memory(&self) -> u64 {
        let mut total = 0u64;
        for (_, collection) in &self.collections {
            total = total.saturating_add(collection.memory());
        }
        total
    }

    /// The bytes of a document, as they were put. `NotFound` if there is none.
    pub fn get(&self, collection: CollName<'_>, document: DocName<'_>) -> Result<&[u8], StoreFault>
        ensures found { IfOk result (λ text. text_at collection.entry.bytes.now document.entry.bytes.now self.now ≡ Some text.now) }
        ensures short { IfOk result (λ text. length text.now ≤ text_limit) }
        ensures refused { IfErr result (λ fault. missing (text_at collection.entry.bytes.now document.entry.bytes.now self.now) ≡ Some fault) }
        ensures named { IfErr result (λ fault. fault ≡ StoreFault.NotFound) }
    {
        match text_of(&self.collections, collection.bytes, document.bytes) {
            Some(held) => Ok(held.source()),
            None => Err(StoreFault::NotFound),
        }
    }

    /// Puts a text, in place of the one that is there. A verdict on the text that is known spares its reading.
    ///
    /// Refused is, in this order, what the text's verdict refuses (`TooLong` to `DuplicateName`), then what would pass a
    /// quota as counted after the put. `NoMemory` if an allocation failed. A refusal changes nothing.
    pub fn put(
        &mut self,
        alloc: Global,
        collection: CollName<'_>,
        document: DocName<'_>,
        text: &[u8],
        known: Option<Verdict>,
    ) -> Result<(), StoreFault>
        ensures accepted { OnOk result (AcceptsPut collection.entry.bytes.now document.entry.bytes.now text.now self.old self.new) }
        ensures refused { IfErr result (λ fault. RefusesPut collection.entry.bytes.now document.entry.bytes.now text.now self.old fault) }
        ensures unchanged { OnErr result (self.new ≡ self.old) }
    {
        match read_text(alloc, text, known) {
            Ok(read) => self.keep(alloc, collection, document, read),
            Err(fault) => Err(fault),
        }
    }

    /// Puts a text if there is no such document. A verdict on the text that is known spares its reading.
    ///
    /// Refused is, in this order, what the text's verdict refuses (`TooLong` to `DuplicateName`), `Exists` if the document
    /// is there, and what would pass a quota as counted after the put. `NoMemory` if an allocation failed. A refusal
    /// changes nothing.
    pub fn put_new(
        &mut self,
        alloc: Global,
        collection: CollName<'_>,
        document: DocName<'_>,
        text: &[u8],
        known: Option<Verdict>,
    ) -> Result<(), StoreFault>
        ensures accepted { OnOk result (AcceptsPutNew collection.entry.bytes.now document.entry.bytes.now text.now self.old self.new) }
        ensures refused { IfErr result (λ fault. RefusesPutNew collection.entry.bytes.now document.entry.bytes.now text.now self.old fault) }
        ensures unchanged { OnErr result (self.new ≡ self.old) }
    {
        match read_text(alloc, text, known) {
            Ok(read) => {
                if self.has(collection.bytes, document.bytes) {
                    return Err(StoreFault::Exists);
                }
                self.keep(alloc, collection, document, read)
            }
            Err(fault) => Err(fault),
        }
    }

    // Whether a document is there.
    fn has(&self, collection: &[u8], document: &[u8]) -> bool
        ensures { result ≡ is_some (text_at collection.now document.now self.now) }
    {
        text_of(&self.collections, collection, document).is_some()
    }

    // Puts a document that was read, in place of the one that is there, where the quotas admit it.
    fn keep(
        &mut self,
        alloc: Global,
        collection: CollName<'_>,
        document: DocName<'_>,
        read: Document,
    ) -> Result<(), StoreFault>
        requires { IsAccepted read.text (tree_of read) }
        ensures accepted { OnOk result (AcceptsPut collection.entry.bytes.now document.entry.bytes.now read.text self.old self.new) }
        ensures refused { IfErr result (FailsKeeping collection.entry.bytes.now document.entry.bytes.now read.text self.old) }
        ensures unchanged { OnErr result (self.new ≡ self.old) }
    {
        let after = self.usage_after(collection.bytes, document.bytes, read.source());
        if let Some(fault) = over_quota(&after) {
            return Err(fault);
        }
        match put_at(
            &mut self.collections,
            alloc,
            collection.bytes,
            document.bytes,
            read,
        ) {
            Ok(()) => {
                self.documents = after.documents;
                self.bytes = after.bytes;
                Ok(())
            }
            Err(_) => Err(StoreFault::NoMemory),
        }
    }

    // What the usage would be after a put.
    fn usage_after(&self, collection: &[u8], document: &[u8], text: &[u8]) -> Usage
        requires { length text.now ≤ text_limit }
        ensures { result ≡ usage_of (put_text collection.now document.now text.now self.now) }
    {
        let held = counted(&self.collections, collection, document);
        Usage {
            collections: self.collections.len() as u32 + 1 - held.collections,
            documents: self.documents + 1 - held.documents,
            bytes: self.bytes + text.len() as u32 - held.bytes,
        }
    }

    /// Removes a document. `NotFound` if there is none, and then nothing changes.
    pub fn remove(
        &mut self,
        collection: CollName<'_>,
        document: DocName<'_>,
    ) -> Result<(), StoreFault>
        ensures removed { OnOk result (self.new ≡ remove_text collection.entry.bytes.now document.entry.bytes.now self.old) }
        ensures there { OnOk result (missing (text_at collection.entry.bytes.now document.entry.bytes.now self.old) ≡ None) }
        ensures refused { IfErr result (λ fault. missing (text_at collection.entry.bytes.now document.entry.bytes.now self.old) ≡ Some fault) }
        ensures named { IfErr result (λ fault. fault ≡ StoreFault.NotFound) }
        ensures unchanged { OnErr result (self.new ≡ self.old) }
    {
        match take_at(&mut self.collections, collection.bytes, document.bytes) {
            Some(taken) => {
                self.documents -= 1;
                self.bytes -= taken.source().len() as u32;
                Ok(())
            }
            None => Err(StoreFault::NotFound),
        }
    }

    /// Removes a collection with its documents. `NotFound` if there is none, and then nothing changes.
    pub fn drop_collection(&mut self, collection: CollName<'_>) -> Result<(), StoreFault>
        ensures dropped { OnOk result (self.new ≡ drop_texts collection.entry.bytes.now self.old) }
        ensures there { OnOk result (missing (lookup (at collection.entry.bytes.now) self.old) ≡ None) }
        ensures refused { IfErr result (λ fault. missing (lookup (at collection.entry.bytes.now) self.old) ≡ Some fault) }
        ensures named { IfErr result (λ fault. fault ≡ StoreFault.NotFound) }
        ensures unchanged { OnErr result (self.new ≡ self.old) }
    {
        let (documents, bytes) = match held_at(&self.collections, collection.bytes) {
            Some(held) => (held.len() as u32, held.bytes()),
            None => return Err(StoreFault::NotFound),
        };
        drop_at(&mut self.collections, collection.bytes);
        self.documents -= documents;
        self.bytes -= bytes;
        Ok(())
    }

    // The collection, if it is there.
    fn held(&self, collection: &[u8]) -> Option<&Collection>
        ensures documents { MatchOption result (documents_of collection.now self.now ≡ []) (λ held. documents_of collection.now self.now ≡ held.now) }
        ensures few { IfSome result (λ held. length held.now ≤ document_quota) }
    {
        held_at(&self.collections, collection)
    }

    /// Appends the number of documents in a collection and their names, in key order: 0 for a collection that is not there.
    ///
    /// `NoMemory` if an allocation failed, which leaves the vector's bytes unchanged. Its capacity never shrinks.
    pub fn list(&self, collection: CollName<'_>, out: &mut Vec<u8>) -> Result<(), StoreFault>
        ensures written { OnOk result (out.new.items ≡ out.old.items ++ listing (documents_of collection.entry.bytes.now self.now)) }
        ensures short { OnOk result (length out.new.items ≤ length out.old.items + payload_limit) }
        ensures named { IfErr result (λ fault. fault ≡ StoreFault.NoMemory) }
        ensures unchanged { OnErr result (out.new.items ≡ out.old.items) }
        ensures same_length { OnErr result (vec_len out.new ≡ vec_len out.old) }
        ensures capacity { vec_capacity out.old ≤ vec_capacity out.new }
    {
        match self.held(collection.bytes) {
            Some(held) => {
                held.list(out)?;
                Ok(())
            }
            None => {
                out.extend_from_slice(&big_endian(0))?;
                Ok(())
            }
        }
    }

    /// The documents of a collection by name, in key order. `None` for a collection that is not there.
    pub fn documents(&self, collection: CollName<'_>) -> Option<&BTreeMap<Vec<u8>, Document>>
        ensures texts { MatchOption result (documents_of collection.entry.bytes.now self.now ≡ []) (λ held. documents_of collection.entry.bytes.now self.now ≡ texts held.now.entries) }
        ensures kept { IfSome result (λ held. AreKept held.now.entries) }
    {
        match self.held(collection.bytes) {
            Some(held) => Some(held.documents()),
            None => None,
        }
    }
}

// The document that a text is, or its verdict.
fn read_text(alloc: Global, text: &[u8], known: Option<Verdict>) -> Result<Document, StoreFault>
    ensures text { IfOk result (λ document. document.text ≡ text.now) }
    ensures accepted { IfOk result (λ document. IsAccepted text.now (tree_of document)) }
    ensures refused { IfErr result (FailsVerdict text.now) }
{
    match Document::read_known(alloc, text, known) {
        Ok(document) => Ok(document),
        Err(fault) => Err(StoreFault::from(fault)),
    }
}

fn held_at<'a>(
    collections: &'a BTreeMap<Vec<u8>, Collection>,
    collection: &[u8],
) -> Option<&'a Collection>
    ensures { option_copied result ≡ lookup (at collection.now) (by_bytes collections.now.entries) }
{
    collections.get(collection)
}

#[tactic(auto, unfolding(crate::specs::Quotas::quota_by))]
fn over_quota(usage: &Usage) -> Option<StoreFault>
    ensures { result ≡ quota_by usage.now }
{
    if usage.collections > COLLECTION_QUOTA {
        Some(StoreFault::TooManyCollections)
    } else if usage.documents > DOCUMENT_QUOTA {
        Some(StoreFault::TooManyDocuments)
    } else if usage.bytes > BYTE_QUOTA {
        Some(StoreFault::TooManyBytes)
    } else {
        None
    }
}

// What a put there replaces: a collection, a document and its bytes, or nothing.
fn counted(collections: &BTreeMap<Vec<u8>, Collection>, collection: &[u8], document: &[u8]) -> Usage
    ensures { result ≡ replaced collection.now document.now (by_bytes collections.now.entries) }
{
    match collections.get(collection) {
        None => Usage {
            collections: 0,
            documents: 0,
            bytes: 0,
        },
        Some(held) => match held.get(document) {
            None => Usage {
                collections: 1,
                documents: 0,
                bytes: 0,
            },
            Some(text) => Usage {
                collections: 1,
                documents: 1,
                bytes: text.source().len() as u32,
            },
        },
    }
}

fn text_of<'a>(
    collections: &'a BTreeMap<Vec<u8>, Collection>,
    collection: &[u8],
    document: &[u8],
) -> Option<&'a Document>
    ensures value { option_map (λ d. d.now.text) result ≡ text_at collection.now document.now (by_bytes collections.now.entries) }
    ensures short { IfSome result (λ d. length d.now.text ≤ text_limit) }
{
    match collections.get(collection) {
        Some(held) => held.get(document),
        None => None,
    }
}

fn put_at(
    collections: &mut BTreeMap<Vec<u8>, Collection>,
    alloc: Global,
    collection: &[u8],
    document: &[u8],
    read: Document,
) -> Result<(), AllocError>
    requires short { length document.now ≤ 128 }
    requires accepted { IsAccepted read.text (tree_of read) }
    ensures ok { OnOk result (by_bytes collections.new.entries ≡ put_text collection.now document.now read.text (by_bytes collections.old.entries)) }
    ensures err { OnErr result (by_bytes collections.new.entries ≡ by_bytes collections.old.entries) }
{
    match collections.get_mut(collection) {
        Some(held) => held.put(alloc, document, read),
        None => {
            let mut made = Collection::new(alloc);
            made.put(alloc, document, read)?;
            let name = Vec::from_slice(alloc, collection)?;
            collections.insert(name, made)?;
            Ok(())
        }
    }
}

// Takes a document out, and its collection with the last one.
fn take_at(
    collections: &mut BTreeMap<Vec<u8>, Collection>,
    collection: &[u8],
    document: &[u8],
) -> Option<Document>
    ensures value { option_map (λ d. d.text) result ≡ text_at collection.now document.now (by_bytes collections.old.entries) }
    ensures short { IfSome result (λ d. length d.text ≤ text_limit) }
    ensures taken { OnSome result (by_bytes collections.new.entries ≡ remove_text collection.now document.now (by_bytes collections.old.entries)) }
    ensures unchanged { IfNone result (by_bytes collections.new.entries ≡ by_bytes collections.old.entries) }
{
    match collections.get_mut(collection) {
        None => None,
        Some(held) => match held.remove(document) {
            None => None,
            Some(taken) => {
                if held.len() == 0 {
                    drop_at(collections, collection);
                    return Some(taken);
                }
                Some(taken)
            }
        },
    }
}

fn drop_at(collections: &mut BTreeMap<Vec<u8>, Collection>, collection: &[u8])
    ensures { by_bytes collections.new.entries ≡ drop_texts collection.now (by_bytes collections.old.entries) }
{
    collections.remove(collection);
}
