//! A query on documents in key order, which may pause within each of them and behind it.

ghost use Rattle.std.specs.Prelude.{◌≡◌, ◌+◌, ◌<◌, ◌≤◌, IfOk, IfErr, IfSome, IsErrOf, MatchOption, None, length, take, drop};
ghost use Rattle.std.specs.Vec.{vec_capacity};
ghost use Rattle.std.specs.List.{All};
ghost use Rattle.json_tape.specs.Document.{count, tree_of};
ghost use Rattle.tape_select.specs.Budget.{budget};
ghost use Rattle.tape_select.specs.Charge.{charge};
ghost use Rattle.tape_select.specs.Evaluation.{nodes_selected};
ghost use Rattle.tape_select.specs.Nodelists.{nodes_of};
ghost use Rattle.query_machine.specs.Evaluators.{IsAtRest, IsEvaluating, SpendsShare, left_on, query_in};
ghost use Rattle.query_machine.specs.Levels.{IsOneStep};
ghost use Rattle.tenant_map.specs.Kept.{AreKept, texts};
ghost use Rattle.tenant_store.specs.Payloads.{query_fault, IsFault, IsCostlyOrMemory};
ghost use Rattle.tenant_store.specs.TextsRead.{text_read, texts_read};
ghost use Rattle.tenant_store.specs.Steps.{AreSizes, FailsAt, PassesOne, Visits, left_passed};
ghost use Rattle.tenant_store.specs.Walks.{IsAt, IsLittle, IsReady, cut_of, last_of, left_by, spent_on};

use crate::hits::write_hits;
use json_tape::Document;
use query_machine::Evaluator;
use std::alloc::Global;
use std::collections::BTreeMap;
use std::collections::btree_map::Iter;
use tape_select::{BUDGET, SelectFault, Selected};
use tenant_map::{StoreFault, big_endian};

/// How far a query came.
#[derive(Clone, Copy)]
pub struct Reached {
    /// The documents that are left.
    pub documents: usize,
    /// The units that are left, or were at the beginning of the document that it paused within.
    pub units: u64,
    /// The hits so far.
    pub hits: usize,
}

// The last documents, so many of them.
fn last_of(documents: &BTreeMap<Vec<u8>, Document>, left: usize) -> Iter<'_, Vec<u8>, Document>
    requires { left ≤ length documents.now.entries }
    ensures { result ≡ last_of left documents.now.entries }
{
    let mut last = documents.iter();
    for _passed in 0..documents.len() - left {
        last.next();
    }
    last
}

// Evaluates a query on a document, for at most so many units, or pauses within it where more than a share of them are spent.
fn select_some(
    evaluator: &mut Evaluator,
    alloc: Global,
    document: &Document,
    units: u64,
    share: u64,
) -> Result<Option<Selected>, StoreFault>
    requires { IsEvaluating document.now.text units evaluator.old }
    ensures nodes { IfOk result (λ some. IfSome some (λ s. nodes_of document.now s.nodes.items ≡ nodes_selected (tree_of document.now) (query_in evaluator.old))) }
    ensures inside { IfOk result (λ some. IfSome some (λ s. All (λ node. node.0 < count document.now) s.nodes.items)) }
    ensures charge { IfOk result (λ some. IfSome some (λ s. s.charge ≡ charge (tree_of document.now) (query_in evaluator.old))) }
    ensures within { IfOk result (λ some. IfSome some (λ s. charge (tree_of document.now) (query_in evaluator.old) ≤ units)) }
    ensures costly { IsErrOf result StoreFault.Costly → units < charge (tree_of document.now) (query_in evaluator.old) }
    ensures named { IfErr result IsCostlyOrMemory }
    ensures query { query_in evaluator.new ≡ query_in evaluator.old }
    ensures ready { IfOk result (λ some. IsEvaluating document.now.text units evaluator.new) }
    ensures rest { IfOk result (λ some. IfSome some (λ s. evaluator.new.evaluation ≡ None)) }
    ensures spent { IfOk result (λ some. MatchOption some (left_on units evaluator.new.evaluation + share < left_on units evaluator.old.evaluation) (λ s. Unit {0})) }
    ensures little { IfOk result (λ some. SpendsShare document.now evaluator.old.parts units share some evaluator.old.evaluation evaluator.new.evaluation) }
    ensures due { IfOk result (λ some. units ≤ left_on units evaluator.old.evaluation + charge (tree_of document.now) (query_in evaluator.old)) }
    ensures due_on { IfOk result (λ some. units ≤ left_on units evaluator.new.evaluation + charge (tree_of document.now) (query_in evaluator.old)) }
{
    match evaluator.advance(alloc, document, units, share) {
        Ok(some) => Ok(some),
        Err(SelectFault::Costly) => Err(StoreFault::Costly),
        Err(SelectFault::Memory) => Err(StoreFault::NoMemory),
    }
}

// Passes a document, in a payload that begins at `start`, or pauses within it; at a refusal a part of its hits may stand there.
fn pass(
    evaluator: &mut Evaluator,
    alloc: Global,
    name: &[u8],
    document: &Document,
    place: Reached,
    share: u64,
    start: usize,
    out: &mut Vec<u8>,
) -> Result<Option<Reached>, StoreFault>
    requires some { 1 ≤ place.documents }
    requires short { length name.now < 256 }
    requires sizes { AreSizes place start (length out.old.items) }
    requires ready { IsEvaluating document.now.text place.units evaluator.old }
    ensures passed { IfOk result (λ next. PassesOne next (query_in evaluator.old) (text_read name.now document.now) share place evaluator.old evaluator.new out.old.items out.new.items) }
    ensures little { IfOk result (λ next. IsOneStep document.now evaluator.old.parts (left_on place.units evaluator.old.evaluation) (left_passed next place evaluator.new + share)) }
    ensures sizes { IfOk result (λ next. IfSome next (λ to. AreSizes to start (length out.new.items))) }
    ensures query { query_in evaluator.new ≡ query_in evaluator.old }
    ensures ready { IfOk result (λ next. IsEvaluating document.now.text place.units evaluator.new) }
    ensures refused { IfErr result (FailsAt (query_in evaluator.old) (text_read name.now document.now) place.units start out.old.items) }
    ensures kept { take (length out.old.items) out.new.items ≡ out.old.items }
    ensures capacity { vec_capacity out.old ≤ vec_capacity out.new }
{
    let Some(selected) = select_some(evaluator, alloc, document, place.units, share)? else {
        return Ok(None);
    };
    write_hits(alloc, name, document, selected.nodes.as_slice(), start, out)?;
    Ok(Some(Reached {
        documents: place.documents - 1,
        units: place.units - selected.charge,
        hits: place.hits + selected.nodes.len(),
    }))
}

/// Where a document leaves a step.
#[derive(Clone, Copy)]
pub struct Visited {
    pub place: Reached,
    /// The units that the step has left; none where it ends.
    pub more: Option<u64>,
}

// Passes a document in a step that has so many units left, or pauses within it.
fn visit(
    evaluator: &mut Evaluator,
    alloc: Global,
    name: &[u8],
    document: &Document,
    place: Reached,
    more: u64,
    start: usize,
    out: &mut Vec<u8>,
) -> Result<Visited, StoreFault>
    requires some { 1 ≤ place.documents }
    requires short { length name.now < 256 }
    requires sizes { AreSizes place start (length out.old.items) }
    requires ready { IsEvaluating document.now.text place.units evaluator.old }
    ensures visits { IfOk result (λ to. Visits to (query_in evaluator.old) (text_read name.now document.now) more place evaluator.old evaluator.new out.old.items out.new.items) }
    ensures little { IfOk result (λ to. IsOneStep document.now evaluator.old.parts (left_on place.units evaluator.old.evaluation) (left_on to.place.units evaluator.new.evaluation + more)) }
    ensures sizes { IfOk result (λ to. AreSizes to.place start (length out.new.items)) }
    ensures query { query_in evaluator.new ≡ query_in evaluator.old }
    ensures ready { IfOk result (λ to. IsEvaluating document.now.text place.units evaluator.new) }
    ensures refused { IfErr result (FailsAt (query_in evaluator.old) (text_read name.now document.now) place.units start out.old.items) }
    ensures kept { take (length out.old.items) out.new.items ≡ out.old.items }
    ensures capacity { vec_capacity out.old ≤ vec_capacity out.new }
{
    let left = evaluator.units_left(place.units);
    match pass(evaluator, alloc, name, document, place, more, start, out)? {
        None => Ok(Visited { place, more: None }),
        Some(next) => Ok(Visited {
            place: next,
            more: more.checked_sub(left - next.units),
        }),
    }
}

/// Goes on with a query whose payload begins at `start`, to the end or until more than so many units are spent, within a document or behind it.
///
/// The payload's number stays to be written. At a refusal a part of a document's hits may stand there.
pub fn go_on(
    alloc: Global,
    documents: &BTreeMap<Vec<u8>, Document>,
    units: u64,
    place: Reached,
    start: usize,
    evaluator: &mut Evaluator,
    out: &mut Vec<u8>,
) -> Result<Reached, StoreFault>
    requires kept { AreKept documents.now.entries }
    requires started { start ≤ length out.old.items }
    requires at { IsAt (query_in evaluator.old) (texts_read documents.now.entries) place (drop start out.old.items) }
    requires ready { IsReady (last_of place.documents (texts documents.now.entries)) place.units evaluator.old }
    ensures reached { IfOk result (λ to. IsAt (query_in evaluator.old) (texts_read documents.now.entries) to (drop start out.new.items)) }
    ensures sizes { IfOk result (λ to. AreSizes to start (length out.new.items)) }
    ensures query { query_in evaluator.new ≡ query_in evaluator.old }
    ensures ready { IfOk result (λ to. IsReady (last_of to.documents (texts documents.now.entries)) to.units evaluator.new) }
    ensures step { IfOk result (λ to. to.documents ≡ length (left_by (query_in evaluator.old) (units + spent_on place.units evaluator.old) (last_of place.documents (texts_read documents.now.entries))) + cut_of evaluator.new.evaluation) }
    ensures spent { IfOk result (λ to. 1 ≤ to.documents → units + left_on to.units evaluator.new.evaluation < left_on place.units evaluator.old.evaluation) }
    ensures little { IfOk result (λ to. IsLittle (query_in evaluator.old) (texts documents.now.entries) (left_on place.units evaluator.old.evaluation) (units + left_on to.units evaluator.new.evaluation)) }
    ensures all { IfOk result (λ to. place.units ≤ units → to.documents ≡ 0) }
    ensures refused { IfErr result (IsFault (query_fault (query_in evaluator.old) 0 4 (texts_read documents.now.entries))) }
    ensures front { take start out.new.items ≡ take start out.old.items }
    ensures capacity { vec_capacity out.old ≤ vec_capacity out.new }
{
    let mut reached = place;
    let mut more = units;
    for (name, document) in last_of(documents, place.documents) {
        let to = visit(evaluator, alloc, name, document, reached, more, start, out)?;
        reached = to.place;
        match to.more {
            None => return Ok(reached),
            Some(left) => more = left,
        }
    }
    Ok(reached)
}

/// Begins a query behind what stands there, as [`go_on`] goes on.
pub fn begin_behind(
    alloc: Global,
    documents: &BTreeMap<Vec<u8>, Document>,
    units: u64,
    evaluator: &mut Evaluator,
    out: &mut Vec<u8>,
) -> Result<Reached, StoreFault>
    requires kept { AreKept documents.now.entries }
    requires rest { IsAtRest evaluator.old }
    ensures reached { IfOk result (λ to. IsAt (query_in evaluator.old) (texts_read documents.now.entries) to (drop (length out.old.items) out.new.items)) }
    ensures sizes { IfOk result (λ to. AreSizes to (length out.old.items) (length out.new.items)) }
    ensures query { query_in evaluator.new ≡ query_in evaluator.old }
    ensures ready { IfOk result (λ to. IsReady (last_of to.documents (texts documents.now.entries)) to.units evaluator.new) }
    ensures step { IfOk result (λ to. to.documents ≡ length (left_by (query_in evaluator.old) units (texts_read documents.now.entries)) + cut_of evaluator.new.evaluation) }
    ensures spent { IfOk result (λ to. 1 ≤ to.documents → units + left_on to.units evaluator.new.evaluation < budget) }
    ensures little { IfOk result (λ to. IsLittle (query_in evaluator.old) (texts documents.now.entries) budget (units + left_on to.units evaluator.new.evaluation)) }
    ensures all { IfOk result (λ to. budget ≤ units → to.documents ≡ 0) }
    ensures refused { IfErr result (IsFault (query_fault (query_in evaluator.old) 0 4 (texts_read documents.now.entries))) }
    ensures front { take (length out.old.items) out.new.items ≡ out.old.items }
    ensures capacity { vec_capacity out.old ≤ vec_capacity out.new }
{
    let start = out.len();
    out.extend_from_slice(&big_endian(0))?;
    let place = Reached {
        documents: documents.len(),
        units: BUDGET,
        hits: 0,
    };
    go_on(alloc, documents, units, place, start, evaluator, out)
}
