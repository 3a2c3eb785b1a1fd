//! The documents of one collection.

ghost use Rattle.std.specs.Prelude.{◌≡◌, ◌+◌, ◌*◌, ◌≤◌, ◌++◌, IfSome, OnOk, OnErr, [], length};
ghost use Rattle.std.specs.Option.{option_map};
ghost use Rattle.std.specs.Map.{lookup, remove_entry};
ghost use Rattle.std.specs.Vec.{vec_capacity};
ghost use Rattle.json_tape.specs.Document.{tree_of};
ghost use Rattle.json_tape.specs.Verdict.{text_limit, IsAccepted};
ghost use Rattle.tenant_map.specs.Keyed.{at, upsert};
ghost use Rattle.tenant_map.specs.Maps.{bytes_of};
ghost use Rattle.tenant_map.specs.Kept.{AreKept, texts};
ghost use Rattle.tenant_map.specs.Quotas.{document_quota, byte_quota};
ghost use Rattle.tenant_map.specs.Listings.{listing};

use crate::listing::append_listing;
use json_tape::Document;
use std::alloc::{AllocError, Global};
use std::collections::BTreeMap;
use std::marker::Model;

/// The documents of a collection, by name.
#[derive(Drop)]
pub struct Collection {
    documents: BTreeMap<Vec<u8>, Document>,
    // The bytes of memory that the documents take.
    memory: u64,
}

impl Model for Collection {
    ghost use Rattle.std.specs.Prelude.{ℕ, List};

    ghost Value = { List (List ℕ × List ℕ) };

    ghost use Rattle.tenant_map.specs.Kept.{texts, AreKept};

    ghost view = { λ c. texts c.documents.entries };

    ghost invariant = { λ c. AreKept c.documents.entries };
}

impl Collection {
    /// A collection without documents.
    pub fn new(alloc: Global) -> Collection
        ensures { result ≡ [] }
    {
        Collection {
            documents: BTreeMap::new(alloc),
            memory: 0,
        }
    }

    /// How many documents there are.
    pub fn len(&self) -> usize
        ensures { result ≡ length self.now }
    {
        self.documents.len()
    }

    /// The document of this name.
    pub fn get(&self, name: &[u8]) -> Option<&Document>
        ensures value { option_map (λ d. d.now.text) result ≡ lookup (at name.now) self.now }
        ensures short { IfSome result (λ d. length d.now.text ≤ text_limit) }
    {
        self.documents.get(name)
    }

    /// Puts a document under a name, in place of the one that is there. A refusal changes nothing.
    pub fn put(&mut self, alloc: Global, name: &[u8], document: Document) -> Result<(), AllocError>
        requires short { length name.now ≤ 128 }
        requires accepted { IsAccepted document.text (tree_of document) }
        ensures ok { OnOk result (self.new ≡ upsert name.now document.text self.old) }
        ensures err { OnErr result (self.new ≡ self.old) }
    {
        let after = self.memory_after(name, &document);
        match put_document(&mut self.documents, alloc, name, document) {
            Ok(()) => {
                self.memory = after;
                Ok(())
            }
            Err(refused) => Err(refused),
        }
    }

    /// Takes the document of this name out.
    pub fn remove(&mut self, name: &[u8]) -> Option<Document>
        ensures value { option_map (λ d. d.text) result ≡ lookup (at name.now) self.old }
        ensures rest { self.new ≡ remove_entry (at name.now) self.old }
        ensures short { IfSome result (λ d. length d.text ≤ text_limit) }
    {
        let before = memory_of(self.documents.get(name));
        self.memory = self.memory.saturating_sub(before);
        self.documents.remove(name)
    }

    /// The bytes of memory that the documents take.
    pub fn memory(&self) -> u64 {
        self.memory
    }

    // What the documents take once this one is put under the name.
    fn memory_after(&self, name: &[u8], document: &Document) -> u64 {
        let others = self
            .memory
            .saturating_sub(memory_of(self.documents.get(name)));
        others.saturating_add(memory_of(Some(document)))
    }

    /// How many bytes the texts have.
    pub fn bytes(&self) -> u32
        requires { bytes_of self.now ≤ byte_quota }
        ensures { result ≡ bytes_of self.now }
    {
        text_bytes(&self.documents)
    }

    /// Appends the number of documents and their names, in key order. A refusal leaves the vector unchanged.
    pub fn list(&self, out: &mut Vec<u8>) -> Result<(), AllocError>
        requires { length self.now ≤ document_quota }
        ensures written { OnOk result (out.new.items ≡ out.old.items ++ listing self.now) }
        ensures short { OnOk result (length out.new.items ≤ length out.old.items + (4 + 129 * document_quota)) }
        ensures unchanged { OnErr result (out.new.items ≡ out.old.items) }
        ensures capacity { vec_capacity out.old ≤ vec_capacity out.new }
    {
        append_listing(&self.documents, out)
    }

    /// The documents by name, in key order.
    pub fn documents(&self) -> &BTreeMap<Vec<u8>, Document>
        ensures texts { texts result.now.entries ≡ self.now }
        ensures kept { AreKept result.now.entries }
    {
        &self.documents
    }
}

fn memory_of(document: Option<&Document>) -> u64 {
    match document {
        Some(document) => document.memory() as u64,
        None => 0,
    }
}

fn text_bytes(documents: &BTreeMap<Vec<u8>, Document>) -> u32
    requires { bytes_of (texts documents.now.entries) ≤ byte_quota }
    ensures { result ≡ bytes_of (texts documents.now.entries) }
{
    let mut total = 0;
    for (_, document) in documents {
        total += document.source().len() as u32;
    }
    total
}

fn put_document(
    documents: &mut BTreeMap<Vec<u8>, Document>,
    alloc: Global,
    name: &[u8],
    document: Document,
) -> Result<(), AllocError>
    requires short { length name.now ≤ 128 }
    requires accepted { IsAccepted document.text (tree_of document) }
    requires kept { AreKept documents.old.entries }
    ensures kept { AreKept documents.new.entries }
    ensures ok { OnOk result (texts documents.new.entries ≡ upsert name.now document.text (texts documents.old.entries)) }
    ensures err { OnErr result (texts documents.new.entries ≡ texts documents.old.entries) }
{
    match documents.get_mut(name) {
        Some(held) => {
            *held = document;
            Ok(())
        }
        None => {
            let name = Vec::from_slice(alloc, name)?;
            documents.insert(name, document)?;
            Ok(())
        }
    }
}
