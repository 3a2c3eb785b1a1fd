//! One request of a tenant, whose query is answered a share at a time, and whose text is read so.

ghost use Rattle.std.specs.Option.{option_map};
ghost use Rattle.std.specs.Prelude.{◌≡◌, ◌≢◌, ◌+◌, ◌<◌, ◌≤◌, IfOk, List, ℕ, None, OnErr, false, length, vec_len};
ghost use Rattle.std.specs.Vec.{vec_capacity};
ghost use Rattle.tape_select.specs.Budget.{budget};
ghost use Rattle.tenant_map.specs.Tenancy.{Tenancy};
ghost use Rattle.wire_frames.specs.Readings.{asked_of};
ghost use Rattle.wire_frames.specs.NextFrame.{next_of};
ghost use Rattle.request_replies.specs.Shares.{IsPlaced};
ghost use Rattle.path_hub.specs.Pending.{IsDue};
ghost use Rattle.path_hub.specs.UnderWay.{AreOnWay, HasEnded, PutsLong, ReadsOn, SharesBody, SharesFirst, SharesQuery, SpendsBody, SpendsFirst, SpendsQuery, has_other, is_held, is_long, is_next_held, reading_at, task_at, tenant_asked, text_in};

use crate::tasks::{Advance, Read, Tasks, task_for};
use json_tape::Verdict;
use query_cache::Cache;
use request_replies::{
    NO_MEMORY, Placed, SHORT_REPLY, SoFar, answer, place_request, places_are_served, write_small,
};
use std::alloc::{AllocError, Global};
use store_names::{FIELDS_AT, KEY_AT};
use tape_select::BUDGET;
use tenant_store::Tenants;
use wire_frames::{Command, Framer, Front};

/// A body of more bytes may have a text that is read a share at a time.
const LONG: usize = 65_536;

/// The places of a text that are read for a unit of a query's work.
const PLACES: u64 = 5;

/// The status of the reply to a framing fault.
const FRAME_FAULT: u8 = 255;

/// Work on a connection, for about so many units. With [`BUDGET`] of them none is left over.
#[derive(Clone, Copy)]
pub struct Work {
    pub alloc: Global,
    pub conn: u32,
    pub units: u64,
}

/// The place of the tenant whose key is in a request's body.
pub fn place_asked(tenants: &Tenants, body: &[u8]) -> Option<usize>
    ensures { result ≡ tenant_asked tenants.now body.now }
{
    if body.len() < FIELDS_AT {
        return None;
    }
    let mut key = [0u8; 16];
    key.copy_from_slice(&body[KEY_AT..FIELDS_AT]);
    tenants.place_of(&key)
}

fn is_long(body: &[u8]) -> bool
    ensures { result ≡ is_long body.now }
{
    body.len() > LONG
}

/// Whether the first body waits: for a query of its tenant that another connection has under way, or for texts that are read.
pub fn waits_first(framer: &Framer, tenants: &Tenants, tasks: &Tasks, conn: u32) -> bool
    ensures { result ≡ is_next_held conn (next_of framer.now) tenants.now tasks.now }
{
    match framer.front() {
        Front::Frame(body) => match place_asked(tenants, body) {
            Some(place) => {
                tasks.has_other(place, conn) || (is_long(body) && !tasks.may_read(place, conn))
            }
            None => false,
        },
        Front::Wait | Front::Fault => false,
    }
}

// The text of a put.
fn text_of<'a>(command: &Command<'a>) -> Option<&'a [u8]>
    ensures { option_map (λ text. text.now) result ≡ text_in (asked_of command.now) }
{
    match command {
        Command::Put { text, .. } | Command::PutNew { text, .. } => Some(text),
        _ => None,
    }
}

// Reads on in the text of a long put. The verdict, where there is one.
fn read_some(tasks: &mut Tasks, work: Work, body: &[u8], request: &Placed<'_>) -> Read
    ensures same { tasks.new.asked.entries ≡ tasks.old.asked.entries }
    ensures others { (q : ℕ) → q ≢ work.conn → reading_at q tasks.new ≡ reading_at q tasks.old }
    ensures further { (t : Tenancy) → IsPlaced t body.now request.now → result ≡ Read.Further → PutsLong body.now t × ReadsOn work.conn tasks.old tasks.new }
    ensures whole { budget ≤ work.units → result ≢ Read.Further }
{
    if work.units < BUDGET && is_long(body) {
        if let Some(text) = text_of(&request.command) {
            let places = work.units.saturating_mul(PLACES).max(1) as usize;
            return tasks.read_on(work.alloc, work.conn, request.place, text, places);
        }
    }
    Read::Over(None)
}

// Answers what is asked of a tenant, or goes on with the query that it is.
fn share_request(
    tenants: &mut Tenants,
    cache: &mut Cache,
    tasks: &mut Tasks,
    work: Work,
    request: &Placed<'_>,
    known: Option<Box<Verdict>>,
    out: &mut Vec<u8>,
) -> Advance
    requires room { vec_len out.old + 21 ≤ vec_capacity out.old }
    requires on_way { AreOnWay tenants.old tasks.old }
    requires inside { request.now.place < length tenants.old.maps }
    requires free { has_other request.now.place work.conn tasks.old ≡ false }
    ensures shares { (body : List ℕ) → IsPlaced tenants.old body request.now → SharesQuery result work.conn body tenants.old tasks.old out.old.items tenants.new tasks.new out.new.items }
    ensures on_way { AreOnWay tenants.new tasks.new }
    ensures little { (body : List ℕ) → IsPlaced tenants.old body request.now → SpendsQuery result work.conn body tenants.old tasks.old tasks.new work.units }
    ensures whole { budget ≤ work.units → task_at work.conn tasks.old ≡ None → HasEnded result }
{
    places_are_served();
    let task = task_for(tasks.take(work.conn), request);
    let so_far = SoFar { known, task };
    let map = tenants.tenant_mut(request.place);
    match answer(map, cache, work.alloc, request, work.units, so_far, out) {
        Ok(charge) => Advance::Replied { charge },
        Err(task) => match tasks.keep_query(work.alloc, work.conn, request, task) {
            Ok(()) => Advance::Working,
            Err(_) => {
                write_small(NO_MEMORY, request.number, &[], out);
                Advance::Replied { charge: None }
            }
        },
    }
}

// Does a share of work on a body. There is room for a short reply.
fn serve_some(
    tenants: &mut Tenants,
    cache: &mut Cache,
    tasks: &mut Tasks,
    work: Work,
    body: &[u8],
    out: &mut Vec<u8>,
) -> Advance
    requires room { vec_len out.old + 21 ≤ vec_capacity out.old }
    requires on_way { AreOnWay tenants.old tasks.old }
    requires free { is_held work.conn body.now tenants.old tasks.old ≡ false }
    ensures shares { SharesBody result work.conn body.now tenants.old tasks.old out.old.items tenants.new tasks.new out.new.items }
    ensures on_way { AreOnWay tenants.new tasks.new }
    ensures little { SpendsBody result work.conn body.now tenants.old tasks.old tasks.new work.units }
    ensures whole { budget ≤ work.units → task_at work.conn tasks.old ≡ None → HasEnded result }
{
    places_are_served();
    match place_request(tenants, body) {
        Err(refused) => {
            tasks.abandon(work.conn);
            write_small(refused.status, refused.number, &[], out);
            Advance::Replied { charge: None }
        }
        Ok(request) => match read_some(tasks, work, body, &request) {
            Read::Further => Advance::Working,
            Read::Over(known) => {
                share_request(tenants, cache, tasks, work, &request, known, out)
            }
        },
    }
}

/// Does a share of work on the frame or fault that is first on a connection. Only for one may growth be refused, and that changes nothing.
pub fn answer_some(
    framer: &mut Framer,
    tenants: &mut Tenants,
    cache: &mut Cache,
    tasks: &mut Tasks,
    work: Work,
    out: &mut Vec<u8>,
) -> Result<Advance, AllocError>
    requires on_way { AreOnWay tenants.old tasks.old }
    requires free { is_next_held work.conn (next_of framer.old) tenants.old tasks.old ≡ false }
    ensures shares { IfOk result (λ share. SharesFirst share work.conn framer.old tenants.old tasks.old out.old.items framer.new tenants.new tasks.new out.new.items) }
    ensures on_way { AreOnWay tenants.new tasks.new }
    ensures little { IfOk result (λ share. SpendsFirst share work.conn framer.old tenants.old tasks.old tasks.new work.units) }
    ensures whole { budget ≤ work.units → task_at work.conn tasks.old ≡ None → IfOk result HasEnded }
    ensures due { OnErr result (IsDue framer.old) }
    ensures same_framer { OnErr result (framer.new ≡ framer.old) }
    ensures same_tenants { OnErr result (tenants.new ≡ tenants.old) }
    ensures same_tasks { OnErr result (tasks.new ≡ tasks.old) }
    ensures same_out { OnErr result (out.new.items ≡ out.old.items) }
{
    if framer.is_closed() {
        return Ok(Advance::Idle);
    }
    match framer.front() {
        Front::Wait => Ok(Advance::Idle),
        Front::Fault => {
            out.reserve(SHORT_REPLY)?;
            tasks.abandon(work.conn);
            write_small(FRAME_FAULT, 0, &[], out);
            framer.pass();
            Ok(Advance::Replied { charge: None })
        }
        Front::Frame(body) => {
            out.reserve(SHORT_REPLY)?;
            match serve_some(tenants, cache, tasks, work, body, out) {
                Advance::Replied { charge } => {
                    framer.pass();
                    Ok(Advance::Replied { charge })
                }
                share => Ok(share),
            }
        }
    }
}
