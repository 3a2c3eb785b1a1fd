//! A query, of which one share of work is done.
ghost use Rattle.std.specs.Prelude.{◌≡◌, ◌≤◌, ◌+◌, ◌<◌, IfErr, IfOk, IsOk, OnErr, OnOk, length, vec_len};
ghost use Rattle.std.specs.Vec.{vec_capacity};
ghost use Rattle.store_names.specs.Lengths.{payload_limit};
ghost use Rattle.tape_select.specs.Budget.{budget};
ghost use Rattle.tenant_map.specs.Maps.{documents_of};
ghost use Rattle.tenant_store.specs.Payloads.{RefusesQuery};
ghost use Rattle.tenant_store.specs.Walks.{IsComplete, Reaches, SpendsShare, left_in, work_left};
ghost use Rattle.request_replies.specs.Shares.{AnswersTree, IsFresh, IsReady, LeavesLess, SpendsTree, left_at, tree_of};

use crate::writing::{NO_MEMORY, begin, finish, take_back, write_small};
use path_types::ValidQuery;
use std::alloc::Global;
use tenant_store::{CollName, Progress, QueryTask, StoreFault, Tenant};

/// A query that begins, or goes on.
pub(crate) enum Stage<'a> {
    Fresh(&'a ValidQuery),
    UnderWay(Box<QueryTask>),
}

fn run_query(
    map: &Tenant,
    alloc: Global,
    stage: Stage<'_>,
    collection: CollName<'_>,
    units: u64,
    out: &mut Vec<u8>,
) -> Result<Progress, StoreFault>
    requires { IsReady stage (documents_of collection.bytes.now map.now) }
    ensures reached { IfOk result (λ progress. Reaches progress (tree_of stage.entry) (documents_of collection.entry.bytes.now map.now) out.old.items out.new.items) }
    ensures less { IfOk result (λ progress. LeavesLess stage.entry (left_in progress)) }
    ensures little { IfOk result (λ progress. SpendsShare (tree_of stage.entry) (documents_of collection.entry.bytes.now map.now) units (left_at stage.entry) progress) }
    ensures whole { IsFresh stage.entry → budget ≤ units → IfOk result IsComplete }
    ensures short { OnOk result (length out.new.items ≤ length out.old.items + payload_limit) }
    ensures refused { IfErr result (RefusesQuery (tree_of stage.entry) (documents_of collection.entry.bytes.now map.now)) }
    ensures unchanged { OnErr result (out.new.items ≡ out.old.items) }
    ensures same_length { OnErr result (vec_len out.new ≡ vec_len out.old) }
    ensures capacity { vec_capacity out.old ≤ vec_capacity out.new }
{
    match stage {
        Stage::Fresh(query) => QueryTask::begin(map, alloc, query, collection, units, out),
        Stage::UnderWay(task) => Box::into_inner(task).step(map, alloc, collection, units, out),
    }
}

/// Begins a query, or goes on with it. Appends its reply, and tells its charge where hits are the reply. There is room for a short reply.
///
/// # Errors
///
/// The query, if it pauses. The vector's bytes are unchanged then.
#[inline(never)]
pub(crate) fn share_query(
    map: &Tenant,
    alloc: Global,
    number: u32,
    collection: CollName<'_>,
    stage: Stage<'_>,
    units: u64,
    out: &mut Vec<u8>,
) -> Result<Option<u64>, Box<QueryTask>>
    requires room { vec_len out.old + 21 ≤ vec_capacity out.old }
    requires ready { IsReady stage (documents_of collection.bytes.now map.now) }
    ensures answers { AnswersTree result (tree_of stage.entry) collection.entry.bytes.now number map.now out.old.items out.new.items }
    ensures less { IfErr result (λ task. LeavesLess stage.entry (work_left task.value)) }
    ensures little { SpendsTree result (tree_of stage.entry) (documents_of collection.entry.bytes.now map.now) units (left_at stage.entry) }
    ensures whole { IsFresh stage.entry → budget ≤ units → IsOk result }
    ensures room { OnErr result (vec_len out.new + 21 ≤ vec_capacity out.new) }
{
    let start = out.len();
    begin(out);
    match run_query(map, alloc, stage, collection, units, out) {
        Ok(Progress::Complete { charge }) => {
            finish(start, number, out);
            Ok(Some(charge))
        }
        Ok(Progress::Paused(task)) => {
            out.truncate(start);
            match Box::new(alloc, task) {
                Ok(task) => Err(task),
                Err(_) => {
                    write_small(NO_MEMORY, number, &[], out);
                    Ok(None)
                }
            }
        }
        Err(fault) => {
            take_back(fault, start, number, out);
            Ok(None)
        }
    }
}
