//! Queries of a tenant's collections.

ghost use Rattle.std.specs.Prelude.{◌≡◌, ◌+◌, ◌≤◌, IfErr, OnOk, OnErr, length, vec_len};
ghost use Rattle.std.specs.Vec.{vec_capacity};
ghost use Rattle.path_grammar.specs.View.{query_view};
ghost use Rattle.store_names.specs.Lengths.{payload_limit};
ghost use Rattle.tenant_map.specs.Maps.{documents_of};
ghost use Rattle.tenant_store.specs.Payloads.{AnswersQuery, RefusesQuery, IsFaultOfQuery};

use crate::tasks::QueryTask;
use path_types::ValidQuery;
use std::alloc::Global;
use store_names::CollName;
use tape_select::BUDGET;
use tenant_map::{StoreFault, Tenant};

/// Queries of a [`Tenant`], whose other commands know nothing of them.
pub trait Queries {
    /// Appends the payload of a query on a collection: the number of hits and the hits, by document in key order.
    ///
    /// The documents are charged one after the other, at most [`tape_select::BUDGET`] units in all. The first document that
    /// shows `Costly` or `ReplyTooLarge` decides, and `Costly` where it shows both. `NoMemory` if an allocation failed. A
    /// refusal leaves the vector's bytes unchanged. Its capacity never shrinks.
    fn query(
        &self,
        alloc: Global,
        query: &ValidQuery,
        collection: CollName<'_>,
        out: &mut Vec<u8>,
    ) -> Result<(), StoreFault>;
}

impl Queries for Tenant {
    fn query(
        &self,
        alloc: Global,
        query: &ValidQuery,
        collection: CollName<'_>,
        out: &mut Vec<u8>,
    ) -> Result<(), StoreFault>
        ensures answered { OnOk result (AnswersQuery (query_view query.now) (documents_of collection.entry.bytes.now self.now) out.old.items out.new.items) }
        ensures short { OnOk result (length out.new.items ≤ length out.old.items + payload_limit) }
        ensures refused { IfErr result (RefusesQuery (query_view query.now) (documents_of collection.entry.bytes.now self.now)) }
        ensures named { IfErr result IsFaultOfQuery }
        ensures unchanged { OnErr result (out.new.items ≡ out.old.items) }
        ensures same_length { OnErr result (vec_len out.new ≡ vec_len out.old) }
        ensures capacity { vec_capacity out.old ≤ vec_capacity out.new }
    {
        match QueryTask::begin(self, alloc, query, collection, BUDGET, out) {
            Ok(_) => Ok(()),
            Err(fault) => Err(fault),
        }
    }
}
