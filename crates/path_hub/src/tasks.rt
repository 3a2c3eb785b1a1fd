//! Queries and readings under way, which are no part of a hub's state.

ghost use Rattle.std.specs.Prelude.{◌≡◌, ◌≢◌, ◌<◌, ◌↔◌, ℕ, IfSome, IsTrue, OnOk, OnErr, None, Some, []};
ghost use Rattle.std.specs.Option.{option_map};
ghost use Rattle.tenant_map.specs.Tenancy.{Tenancy};
ghost use Rattle.wire_frames.specs.Readings.{asked_of};
ghost use Rattle.path_hub.specs.declared.tasks.RunningQuery.{RunningQuery};
ghost use Rattle.path_hub.specs.UnderWay.{AreOnWay, Clears, IsAsked, ReadsOn, SetsReading, SetsTask, has_other, is_read_for, may_read, query_in, reading_at, task_at};
ghost use Rattle.path_hub.specs.declared.tasks.Reading.{Reading};
ghost use Rattle.json_tape.specs.Going.{GoesOn};

use json_tape::{Progress, ReadTask, Verdict};
use request_replies::Placed;
use std::alloc::{AllocError, Global};
use std::collections::BTreeMap;
use tenant_store::{CollName, QueryTask};
use wire_frames::Command;

/// The most texts that are read a share at a time side by side, each of another tenant.
pub const READINGS: usize = 4;

/// What came of a share of work on a connection.
#[derive(Clone, Copy, Debug, PartialEq, Eq)]
pub enum Advance {
    /// A frame or a fault was answered.
    Replied {
        /// The units that a query was charged, where its hits are the reply.
        charge: Option<u64>,
    },
    /// No frame is whole, and no fault waits.
    Idle,
    /// The query in front is under way, or the text of the put in front is read.
    Working,
}

/// A query under way: the place of its tenant, and what it asks.
#[derive(Drop)]
pub struct RunningQuery {
    pub place: usize,
    pub collection: Vec<u8>,
    pub query: Vec<u8>,
    pub task: Box<QueryTask>,
}

/// A text that is read: the place of its tenant, and how far the reading came.
#[derive(Drop)]
pub struct Reading {
    pub place: usize,
    pub task: Box<ReadTask>,
}

/// What comes of a share of a reading.
#[derive(Drop)]
pub(crate) enum Read {
    Further,
    Over(Option<Box<Verdict>>),
}

/// The queries under way, one of each tenant at most, and the texts that are read, each with its index and a tape that grows.
#[derive(Drop)]
pub struct Tasks {
    asked: BTreeMap<u32, RunningQuery>,
    readings: BTreeMap<u32, Reading>,
    // By which the names of texts that are read are hashed.
    factor: u64,
}

impl Tasks {
    /// Nothing under way. The names of texts that are read a share at a time are hashed by the factor: whoever does not know it cannot make names that meet.
    pub fn new(alloc: Global, factor: u64) -> Tasks
        ensures none { result.asked.entries ≡ [] }
        ensures none_read { result.readings.entries ≡ [] }
        ensures on_way { (t : Tenancy) → AreOnWay t result }
    {
        Tasks {
            asked: BTreeMap::new(alloc),
            readings: BTreeMap::new(alloc),
            factor,
        }
    }

    /// Drops what a connection has under way, as where it is gone. No request waits for it any more.
    pub fn abandon(&mut self, conn: u32)
        ensures clears { Clears conn self.old self.new }
        ensures on_way { (t : Tenancy) → AreOnWay t self.old → AreOnWay t self.new }
    {
        self.take(conn);
    }

    /// Whether nothing is under way.
    pub(crate) fn is_idle(&self) -> bool
        ensures { IsTrue result ↔ ((self.now.asked.entries ≡ []) × (self.now.readings.entries ≡ [])) }
    {
        self.asked.is_empty() && self.readings.is_empty()
    }

    /// Whether another connection has a query of the tenant under way.
    pub(crate) fn has_other(&self, place: usize, conn: u32) -> bool
        ensures { result ≡ has_other place conn self.now }
    {
        let mut held = false;
        for (other, asked) in &self.asked {
            held |= (*other != conn) & (asked.place == place);
        }
        held
    }

    /// Whether a text of the tenant may be read on a connection: it is read there already, or none of the tenant is, and too few are.
    pub(crate) fn may_read(&self, place: usize, conn: u32) -> bool
        ensures { result ≡ may_read place conn self.now }
    {
        self.readings.contains_key(&conn)
            || (self.readings.len() < READINGS && !self.is_read_for(place))
    }

    fn is_read_for(&self, place: usize) -> bool
        ensures { result ≡ is_read_for place self.now }
    {
        let mut is_read = false;
        for (_, reading) in &self.readings {
            is_read |= reading.place == place;
        }
        is_read
    }

    /// Begins to read a text on a connection, or goes on over so many places.
    #[inline(never)]
    pub(crate) fn read_on(
        &mut self,
        alloc: Global,
        conn: u32,
        place: usize,
        text: &[u8],
        places: usize,
    ) -> Read
        requires { 0 < places }
        ensures same { self.new.asked.entries ≡ self.old.asked.entries }
        ensures others { (q : ℕ) → q ≢ conn → reading_at q self.new ≡ reading_at q self.old }
        ensures further { result ≡ Read.Further → ReadsOn conn self.old self.new }
    {
        let reading = self.readings.remove(&conn);
        match read_further(alloc, reading, text, places, self.factor) {
            Some(Progress::Paused(task)) => match self.keep_reading(alloc, conn, place, task) {
                Ok(()) => Read::Further,
                Err(_) => Read::Over(None),
            },
            Some(Progress::Complete(verdict)) => Read::Over(Box::new(alloc, verdict).ok()),
            None => Read::Over(None),
        }
    }

    fn keep_reading(
        &mut self,
        alloc: Global,
        conn: u32,
        place: usize,
        task: ReadTask,
    ) -> Result<(), AllocError>
        ensures same { self.new.asked.entries ≡ self.old.asked.entries }
        ensures others { (q : ℕ) → q ≢ conn → reading_at q self.new ≡ reading_at q self.old }
        ensures ok { OnOk result ((r : Reading) × (r.task.value ≡ task) × SetsReading conn (Some r) self.old self.new) }
    {
        let task = Box::new(alloc, task)?;
        self.readings.insert(conn, Reading { place, task })?;
        Ok(())
    }

    /// Takes the connection's query out, and drops its reading.
    pub(crate) fn take(&mut self, conn: u32) -> Option<RunningQuery>
        ensures was { result ≡ task_at conn self.old }
        ensures clears { Clears conn self.old self.new }
    {
        self.readings.remove(&conn);
        self.asked.remove(&conn)
    }

    /// Has a query under way on a connection. A refusal drops it, and leaves the others. Nothing else that is asked may be under way.
    pub(crate) fn keep_query(
        &mut self,
        alloc: Global,
        conn: u32,
        request: &Placed<'_>,
        task: Box<QueryTask>,
    ) -> Result<(), AllocError>
        ensures ok { OnOk result ((a : RunningQuery) × IsAsked a request.now × (a.task ≡ task) × SetsTask conn (Some a) self.old self.new) }
        ensures err { OnErr result (self.new.asked.entries ≡ self.old.asked.entries) }
        ensures same { self.new.readings.entries ≡ self.old.readings.entries }
    {
        let Some((collection, query)) = query_asked(&request.command) else {
            return Err(AllocError);
        };
        let asked = RunningQuery {
            place: request.place,
            collection: Vec::from_slice(alloc, collection.bytes)?,
            query: Vec::from_slice(alloc, query)?,
            task,
        };
        self.asked.insert(conn, asked)?;
        Ok(())
    }
}

fn read_further(
    alloc: Global,
    reading: Option<Reading>,
    text: &[u8],
    places: usize,
    factor: u64,
) -> Option<Progress>
    ensures { (r : Reading) → reading ≡ Some r → IfSome result (GoesOn r.task.value places) }
{
    match reading {
        Some(reading) => Some(Box::into_inner(reading.task).step(alloc, places)),
        None => match ReadTask::begin(alloc, text, factor) {
            Ok(task) => Some(task.step(alloc, places)),
            Err(_) => None,
        },
    }
}

// The query that a command asks.
fn query_asked<'a>(command: &Command<'a>) -> Option<(CollName<'a>, &'a [u8])>
    ensures { option_map (λ p. (p.0.bytes.now, p.1.now)) result ≡ query_in (asked_of command.now) }
{
    match command {
        Command::Query { collection, query } => Some((*collection, query)),
        Command::Put { .. }
        | Command::PutNew { .. }
        | Command::Get { .. }
        | Command::List { .. }
        | Command::Remove { .. }
        | Command::DropCollection { .. }
        | Command::Usage => None,
    }
}

/// The task of a query under way, where it is what is asked.
pub(crate) fn task_for(asked: Option<RunningQuery>, request: &Placed<'_>) -> Option<Box<QueryTask>>
    ensures its { IfSome result (λ task. IfSome asked (λ a. IsAsked a request.now × (a.task ≡ task))) }
    ensures only { asked ≡ None → result ≡ None }
    ensures same { (a : RunningQuery) → asked ≡ Some a → IsAsked a request.now → result ≡ Some a.task }
{
    let (collection, query) = query_asked(&request.command)?;
    let asked = asked?;
    if asked.place == request.place
        && asked.collection.as_slice() == collection.bytes
        && asked.query.as_slice() == query
    {
        Some(asked.task)
    } else {
        None
    }
}
