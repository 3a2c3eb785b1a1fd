//! What a tenant asks, answered.
ghost use Rattle.std.specs.Prelude.{◌≡◌, ◌≤◌, ◌+◌, ◌<◌, IfErr, IfSome, IsOk, None, OnErr, vec_len};
ghost use Rattle.std.specs.Vec.{vec_capacity};
ghost use Rattle.tape_select.specs.Budget.{budget};
ghost use Rattle.tenant_store.specs.Walks.{work_left};
ghost use Rattle.wire_frames.specs.Requests.{Get, Put, Remove, ListNames, DropCollection, Usage, PutNew};
ghost use Rattle.wire_frames.specs.Readings.{asked_of};
ghost use Rattle.request_replies.specs.Answers.{Gives};
ghost use Rattle.request_replies.specs.Shares.{AnswersSome, IsUnderWay, Settles, Spends, left_with};

use crate::placing::Placed;
use crate::queries::{Stage, share_query};
use crate::writing::{NO_MEMORY, OK, begin, finish, status_of_query, take_back, write_small};
use json_tape::Verdict;
use query_cache::Cache;
use std::alloc::Global;
use tenant_store::{CollName, DocName, QueryTask, Tenant};
use wire_frames::{Command, write_reply};

/// What earlier shares of a request came to: the verdict on the text of a put, and the query that is under way.
#[derive(Drop)]
pub struct SoFar {
    pub known: Option<Box<Verdict>>,
    pub task: Option<Box<QueryTask>>,
}

fn unboxed(known: Option<Box<Verdict>>) -> Option<Verdict> {
    match known {
        Some(verdict) => Some(Box::into_inner(verdict)),
        None => None,
    }
}

fn put(
    map: &mut Tenant,
    alloc: Global,
    collection: CollName<'_>,
    document: DocName<'_>,
    text: &[u8],
    known: Option<Box<Verdict>>,
) -> u8
    ensures { Settles map.old (Put collection.entry.bytes.now document.entry.bytes.now text.now) result map.new }
{
    match map.put(alloc, collection, document, text, unboxed(known)) {
        Ok(()) => OK,
        Err(fault) => fault.status(),
    }
}

fn put_new(
    map: &mut Tenant,
    alloc: Global,
    collection: CollName<'_>,
    document: DocName<'_>,
    text: &[u8],
    known: Option<Box<Verdict>>,
) -> u8
    ensures { Settles map.old (PutNew collection.entry.bytes.now document.entry.bytes.now text.now) result map.new }
{
    match map.put_new(alloc, collection, document, text, unboxed(known)) {
        Ok(()) => OK,
        Err(fault) => fault.status(),
    }
}

fn remove(map: &mut Tenant, collection: CollName<'_>, document: DocName<'_>) -> u8
    ensures { Settles map.old (Remove collection.entry.bytes.now document.entry.bytes.now) result map.new }
{
    match map.remove(collection, document) {
        Ok(()) => OK,
        Err(fault) => fault.status(),
    }
}

fn drop_collection(map: &mut Tenant, collection: CollName<'_>) -> u8
    ensures { Settles map.old (DropCollection collection.entry.bytes.now) result map.new }
{
    match map.drop_collection(collection) {
        Ok(()) => OK,
        Err(fault) => fault.status(),
    }
}

fn answer_get(
    map: &Tenant,
    number: u32,
    collection: CollName<'_>,
    document: DocName<'_>,
    out: &mut Vec<u8>,
)
    requires { vec_len out.old + 21 ≤ vec_capacity out.old }
    ensures { Gives map.now (Get collection.entry.bytes.now document.entry.bytes.now) number out.old.items out.new.items map.now }
{
    match map.get(collection, document) {
        Ok(text) => match write_reply(OK, number, text, out) {
            Ok(()) => {}
            Err(_) => write_small(NO_MEMORY, number, &[], out),
        },
        Err(fault) => write_small(fault.status(), number, &[], out),
    }
}

fn answer_list(map: &Tenant, number: u32, collection: CollName<'_>, out: &mut Vec<u8>)
    requires { vec_len out.old + 21 ≤ vec_capacity out.old }
    ensures { Gives map.now (ListNames collection.entry.bytes.now) number out.old.items out.new.items map.now }
{
    let start = out.len();
    begin(out);
    match map.list(collection, out) {
        Ok(()) => finish(start, number, out),
        Err(fault) => take_back(fault, start, number, out),
    }
}

fn answer_usage(map: &Tenant, number: u32, out: &mut Vec<u8>)
    requires { vec_len out.old + 21 ≤ vec_capacity out.old }
    ensures { Gives map.now Usage number out.old.items out.new.items map.now }
{
    let usage = map.usage();
    let [a, b, c, d] = usage.collections.to_be_bytes();
    let [e, f, g, h] = usage.documents.to_be_bytes();
    let [i, j, k, l] = usage.bytes.to_be_bytes();
    let payload = [a, b, c, d, e, f, g, h, i, j, k, l];
    write_small(OK, number, &payload, out)
}

/// Answers what a tenant asks, and tells the units that a query was charged whose hits are the reply. A query is evaluated for about so many
/// units, and begins where it paused before. A verdict that is known on the text of a put spares its reading. There is room for a short reply.
/// Where an allocation fails the reply has the status [`NO_MEMORY`], and the map is not changed.
///
/// # Errors
///
/// The query, if it pauses: after at least so many units, so that with [`tape_select::BUDGET`] of them none does that begins. Nothing is
/// changed then.
pub fn answer(
    map: &mut Tenant,
    cache: &mut Cache,
    alloc: Global,
    request: &Placed<'_>,
    units: u64,
    so_far: SoFar,
    out: &mut Vec<u8>,
) -> Result<Option<u64>, Box<QueryTask>>
    requires room { vec_len out.old + 21 ≤ vec_capacity out.old }
    requires going { IfSome so_far.task (λ task. IsUnderWay (asked_of request.now.command) map.old task.value) }
    ensures answers { AnswersSome result (asked_of request.now.command) request.now.number map.old out.old.items map.new out.new.items }
    ensures less { IfSome so_far.task (λ from. IfErr result (λ to. work_left to.value < work_left from.value)) }
    ensures little { Spends result (asked_of request.now.command) map.old units (left_with so_far.task) }
    ensures whole { so_far.task ≡ None → budget ≤ units → IsOk result }
    ensures room { OnErr result (vec_len out.new + 21 ≤ vec_capacity out.new) }
{
    let SoFar { known, task } = so_far;
    let number = request.number;
    match request.command {
        Command::Query { collection, query } => match task {
            Some(task) => {
                let stage = Stage::UnderWay(task);
                share_query(map, alloc, number, collection, stage, units, out)
            }
            None => match cache.lookup(alloc, query) {
                Ok(compiled) => {
                    let stage = Stage::Fresh(compiled.query());
                    share_query(map, alloc, number, collection, stage, units, out)
                }
                Err(fault) => {
                    write_small(status_of_query(fault), number, &[], out);
                    Ok(None)
                }
            },
        },
        Command::Put {
            collection,
            document,
            text,
        } => {
            let status = put(map, alloc, collection, document, text, known);
            write_small(status, number, &[], out);
            Ok(None)
        }
        Command::PutNew {
            collection,
            document,
            text,
        } => {
            let status = put_new(map, alloc, collection, document, text, known);
            write_small(status, number, &[], out);
            Ok(None)
        }
        Command::Remove {
            collection,
            document,
        } => {
            let status = remove(map, collection, document);
            write_small(status, number, &[], out);
            Ok(None)
        }
        Command::DropCollection { collection } => {
            let status = drop_collection(map, collection);
            write_small(status, number, &[], out);
            Ok(None)
        }
        Command::Get {
            collection,
            document,
        } => {
            answer_get(map, number, collection, document, out);
            Ok(None)
        }
        Command::List { collection } => {
            answer_list(map, number, collection, out);
            Ok(None)
        }
        Command::Usage => {
            answer_usage(map, number, out);
            Ok(None)
        }
    }
}
