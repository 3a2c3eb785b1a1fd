//! A query of a tenant in steps, between which the tenant stands still and others may be served.

ghost use Rattle.std.specs.Prelude.{◌≡◌, ◌+◌, ◌<◌, ◌≤◌, ℕ, IfOk, IfErr, OnOk, OnErr, [], length, take, drop, vec_len};
ghost use Rattle.std.specs.Vec.{vec_capacity};
ghost use Rattle.path_grammar.specs.View.{query_view};
ghost use Rattle.store_names.specs.Lengths.{payload_limit};
ghost use Rattle.tape_select.specs.Budget.{budget};
ghost use Rattle.tenant_map.specs.Kept.{AreKept, texts};
ghost use Rattle.tenant_map.specs.Maps.{documents_of};
ghost use Rattle.tenant_store.specs.Payloads.{RefusesQuery, IsFaultOfQuery};
ghost use Rattle.tenant_store.specs.Walks.{IsComplete, IsOnWay, IsStep, Reaches, SpendsShare, left_in, query_of, spent_on, units_left, work_left};

use crate::numbers::put_number;
use crate::walk::{Reached, begin_behind, go_on};
use json_tape::Document;
use json_tape::laws::one_tree;
use path_types::ValidQuery;
use query_machine::Evaluator;
use std::alloc::Global;
use std::collections::BTreeMap;
use store_names::CollName;
use tape_select::BUDGET;
use tenant_map::{StoreFault, Tenant, big_endian};

/// A query under way: how far it came, and what it has of its payload.
#[derive(Drop)]
pub struct QueryTask {
    evaluator: Evaluator,
    place: Reached,
    payload: Vec<u8>,
}

/// How far a step took a query.
#[derive(Drop)]
pub enum Progress {
    /// Its payload is appended.
    Complete {
        /// The units that it was charged, on all documents.
        charge: u64,
    },
    /// It goes on within a document or behind it.
    Paused(QueryTask),
}

impl QueryTask {
    /// Begins a query on a collection, and goes to its end or until more than so many units are spent, within a document or behind it.
    ///
    /// Where it is complete, its payload is appended, as [`crate::Queries::query`] appends it. Where it paused, the vector's bytes are unchanged,
    /// and [`QueryTask::step`] goes on.
    ///
    /// # Errors
    ///
    /// As [`crate::Queries::query`] is refused. The vector's bytes are unchanged.
    pub fn begin(
        tenant: &Tenant,
        alloc: Global,
        query: &ValidQuery,
        collection: CollName<'_>,
        units: u64,
        out: &mut Vec<u8>,
    ) -> Result<Progress, StoreFault>
        ensures reached { IfOk result (λ progress. Reaches progress (query_view query.now) (documents_of collection.entry.bytes.now tenant.now) out.old.items out.new.items) }
        ensures step { IfOk result (λ progress. IsStep (query_view query.now) (documents_of collection.entry.bytes.now tenant.now) units (length (documents_of collection.entry.bytes.now tenant.now)) 0 budget progress) }
        ensures little { IfOk result (λ progress. SpendsShare (query_view query.now) (documents_of collection.entry.bytes.now tenant.now) units budget progress) }
        ensures all { IfOk result (λ progress. budget ≤ units → IsComplete progress) }
        ensures short { OnOk result (length out.new.items ≤ length out.old.items + payload_limit) }
        ensures refused { IfErr result (RefusesQuery (query_view query.now) (documents_of collection.entry.bytes.now tenant.now)) }
        ensures named { IfErr result IsFaultOfQuery }
        ensures unchanged { OnErr result (out.new.items ≡ out.old.items) }
        ensures same_length { OnErr result (vec_len out.new ≡ vec_len out.old) }
        ensures capacity { vec_capacity out.old ≤ vec_capacity out.new }
    {
        match tenant.documents(collection) {
            Some(documents) => begin(alloc, query, documents, units, out),
            None => query_nothing(query, out),
        }
    }

    /// Goes on with a query, as [`QueryTask::begin`] does. The collection's documents are those that it began with.
    ///
    /// # Errors
    ///
    /// As [`crate::Queries::query`] is refused, which ends it. The vector's bytes are unchanged.
    pub fn step(
        self,
        tenant: &Tenant,
        alloc: Global,
        collection: CollName<'_>,
        units: u64,
        out: &mut Vec<u8>,
    ) -> Result<Progress, StoreFault>
        requires { IsOnWay (query_of self) (documents_of collection.bytes.now tenant.now) self }
        ensures reached { IfOk result (λ progress. Reaches progress (query_of self) (documents_of collection.entry.bytes.now tenant.now) out.old.items out.new.items) }
        ensures step { IfOk result (λ progress. IsStep (query_of self) (documents_of collection.entry.bytes.now tenant.now) units self.place.documents (spent_on self.place.units self.evaluator) (units_left self) progress) }
        ensures little { IfOk result (λ progress. SpendsShare (query_of self) (documents_of collection.entry.bytes.now tenant.now) units (units_left self) progress) }
        ensures fewer { IfOk result (λ progress. left_in progress < work_left self) }
        ensures short { OnOk result (length out.new.items ≤ length out.old.items + payload_limit) }
        ensures refused { IfErr result (RefusesQuery (query_of self) (documents_of collection.entry.bytes.now tenant.now)) }
        ensures named { IfErr result IsFaultOfQuery }
        ensures unchanged { OnErr result (out.new.items ≡ out.old.items) }
        ensures same_length { OnErr result (vec_len out.new ≡ vec_len out.old) }
        ensures capacity { vec_capacity out.old ≤ vec_capacity out.new }
    {
        match tenant.documents(collection) {
            Some(documents) => step(alloc, documents, units, self, out),
            // There are documents, since some are left.
            None => Err(StoreFault::NoMemory),
        }
    }

    /// How many units are left, of which each step but the last spends some.
    pub fn units_left(&self) -> u64
        ensures { result ≡ units_left self.now }
    {
        self.evaluator.units_left(self.place.units)
    }
}

// Takes what a query has of its payload, which begins at `start`.
fn pause(
    alloc: Global,
    evaluator: Evaluator,
    place: Reached,
    start: usize,
    out: &mut Vec<u8>,
) -> Result<QueryTask, StoreFault>
    requires { start ≤ length out.old.items }
    ensures taken { IfOk result (λ task. (task.evaluator ≡ evaluator) × (task.place ≡ place) × (task.payload.items ≡ drop start out.old.items)) }
    ensures named { IfErr result (λ fault. fault ≡ StoreFault.NoMemory) }
    ensures left { out.new.items ≡ take start out.old.items }
    ensures capacity { vec_capacity out.old ≤ vec_capacity out.new }
{
    let payload = Vec::from_slice(alloc, &out[start..]);
    out.truncate(start);
    Ok(QueryTask {
        evaluator,
        place,
        payload: payload?,
    })
}

// Begins a query on documents in key order. Where it is not complete, and at a refusal, the vector's bytes are unchanged.
fn begin(
    alloc: Global,
    query: &ValidQuery,
    documents: &BTreeMap<Vec<u8>, Document>,
    units: u64,
    out: &mut Vec<u8>,
) -> Result<Progress, StoreFault>
    requires { AreKept documents.now.entries }
    ensures reached { IfOk result (λ progress. Reaches progress (query_view query.now) (texts documents.now.entries) out.old.items out.new.items) }
    ensures step { IfOk result (λ progress. IsStep (query_view query.now) (texts documents.now.entries) units (length (texts documents.now.entries)) 0 budget progress) }
    ensures little { IfOk result (λ progress. SpendsShare (query_view query.now) (texts documents.now.entries) units budget progress) }
    ensures all { IfOk result (λ progress. budget ≤ units → IsComplete progress) }
    ensures short { OnOk result (length out.new.items ≤ length out.old.items + payload_limit) }
    ensures refused { IfErr result (RefusesQuery (query_view query.now) (texts documents.now.entries)) }
    ensures named { IfErr result IsFaultOfQuery }
    ensures unchanged { OnErr result (out.new.items ≡ out.old.items) }
    ensures capacity { vec_capacity out.old ≤ vec_capacity out.new }
{
    let mut evaluator = Evaluator::new(alloc, query)?;
    let before = out.len();
    match begin_behind(alloc, documents, units, &mut evaluator, out) {
        Err(fault) => {
            out.truncate(before);
            Err(fault)
        }
        Ok(place) => {
            if place.documents > 0 {
                let task = pause(alloc, evaluator, place, before, out)?;
                return Ok(Progress::Paused(task));
            }
            put_number(out, before, place.hits as u32);
            Ok(Progress::Complete {
                charge: BUDGET - place.units,
            })
        }
    }
}

// Goes on with a query on documents in key order. Where it is not complete, and at a refusal, the vector's bytes are unchanged.
fn step(
    alloc: Global,
    documents: &BTreeMap<Vec<u8>, Document>,
    units: u64,
    task: QueryTask,
    out: &mut Vec<u8>,
) -> Result<Progress, StoreFault>
    requires kept { AreKept documents.now.entries }
    requires on_way { IsOnWay (query_of task) (texts documents.now.entries) task }
    ensures reached { IfOk result (λ progress. Reaches progress (query_of task) (texts documents.now.entries) out.old.items out.new.items) }
    ensures step { IfOk result (λ progress. IsStep (query_of task) (texts documents.now.entries) units task.place.documents (spent_on task.place.units task.evaluator) (units_left task) progress) }
    ensures little { IfOk result (λ progress. SpendsShare (query_of task) (texts documents.now.entries) units (units_left task) progress) }
    ensures fewer { IfOk result (λ progress. left_in progress < work_left task) }
    ensures short { OnOk result (length out.new.items ≤ length out.old.items + payload_limit) }
    ensures refused { IfErr result (RefusesQuery (query_of task) (texts documents.now.entries)) }
    ensures named { IfErr result IsFaultOfQuery }
    ensures unchanged { OnErr result (out.new.items ≡ out.old.items) }
    ensures capacity { vec_capacity out.old ≤ vec_capacity out.new }
{
    one_tree();
    let QueryTask {
        mut evaluator,
        place,
        mut payload,
    } = task;
    let place = go_on(
        alloc,
        documents,
        units,
        place,
        0,
        &mut evaluator,
        &mut payload,
    )?;
    if place.documents > 0 {
        return Ok(Progress::Paused(QueryTask {
            evaluator,
            place,
            payload,
        }));
    }
    put_number(&mut payload, 0, place.hits as u32);
    out.extend_from_slice(payload.as_slice())?;
    Ok(Progress::Complete {
        charge: BUDGET - place.units,
    })
}

// The payload of a query on no document.
fn query_nothing(query: &ValidQuery, out: &mut Vec<u8>) -> Result<Progress, StoreFault>
    ensures reached { IfOk result (λ progress. Reaches progress (query_view query.now) [] out.old.items out.new.items) }
    ensures step { IfOk result (λ progress. (units documents begun left : ℕ) → IsStep (query_view query.now) [] units documents begun left progress) }
    ensures little { IfOk result (λ progress. (units : ℕ) → SpendsShare (query_view query.now) [] units budget progress) }
    ensures complete { IfOk result IsComplete }
    ensures short { OnOk result (length out.new.items ≤ length out.old.items + payload_limit) }
    ensures refused { IfErr result (RefusesQuery (query_view query.now) []) }
    ensures named { IfErr result IsFaultOfQuery }
    ensures unchanged { OnErr result (out.new.items ≡ out.old.items) }
    ensures capacity { vec_capacity out.old ≤ vec_capacity out.new }
{
    out.extend_from_slice(&big_endian(0))?;
    Ok(Progress::Complete { charge: 0 })
}
