//! The hub: the sessions of all connections, and all tenants.
ghost use Rattle.std.specs.Prelude.{◌≡◌, OnOk, OnErr, None, IfOk, IfErr, [], is_some, Some, ◌↔◌, IsErrOf, IsSome, false};
ghost use Rattle.std.specs.Bool.{MatchBool};
ghost use Rattle.std.specs.Option.{option_map_or};
ghost use Rattle.wire_frames.specs.Framing.{fresh as fresh_framing};
ghost use Rattle.tenant_map.specs.Tenancy.{Tenancy, AcceptsKeys, RefusesKeys};
ghost use Rattle.path_hub.specs.Sessions.{session, Sets, opened_session, Feeds, FeedsSome, Applies, AppliesSome};
ghost use Rattle.path_hub.specs.Into.{Bytes, Takes, AnswersOne, AnswersNone, HasDue};
ghost use Rattle.path_hub.specs.HubState.{state};
ghost use Rattle.path_hub.specs.Headline.{Runs};
ghost use Rattle.path_hub.specs.UnderWay.{AreOnWay, Shares, SpendsAt, is_first_held};

use crate::event::{Event, Reply};
use crate::fault::{ConnectFault, HubFault, RunFault, TakeFault};
use crate::sharing::{Work, answer_some, waits_first};
use crate::step::{answer_all, answer_next};
use crate::tasks::{Advance, Tasks};
use query_cache::Cache;
use request_replies::tenants_are_apart;
use std::alloc::{AllocError, Global};
use std::collections::BTreeMap;
use std::marker::Model;
use tenant_store::{Tenants, TenantsFault};
use wire_frames::{AcceptFault, Framer, splits_from_the_front};

/// The most compiled queries that a hub keeps for all its tenants.
const CACHED_QUERIES: usize = 64;

/// The sessions of all connections, and all tenants.
#[derive(Drop)]
pub struct Hub {
    sessions: BTreeMap<u32, Framer>,
    tenants: Tenants,
    cache: Cache,
}

impl Model for Hub {
    ghost use Rattle.path_hub.specs.HubState.{HubState};

    ghost Value = { HubState };

    ghost view = { λ h. record { sessions = h.sessions.entries; tenants = h.tenants } };
}

impl Hub {
    /// A hub without sessions, with an empty tenant for each key.
    ///
    /// # Errors
    ///
    /// Those of [`Tenants::new`], in its order: no keys, too many, one key twice. `Memory` if an allocation failed.
    pub fn new(alloc: Global, keys: &[[u8; 16]]) -> Result<Hub, TenantsFault>
        ensures accepted { IfOk result (λ hub. AcceptsKeys keys.now hub.tenants) }
        ensures unconnected { IfOk result (λ hub. hub.sessions ≡ []) }
        ensures refused { IfErr result (λ fault. RefusesKeys keys.now fault) }
    {
        let tenants = Tenants::new(alloc, keys)?;
        let cache = match Cache::new(alloc, CACHED_QUERIES) {
            Ok(cache) => cache,
            Err(_) => return Err(TenantsFault::Memory),
        };
        Ok(Hub {
            sessions: BTreeMap::new(alloc),
            tenants,
            cache,
        })
    }

    /// Whether the connection has a session. A framing fault does not end it.
    pub fn is_connected(&self, conn: u32) -> bool
        ensures { result ≡ is_some (session conn self.now.sessions) }
    {
        self.sessions.contains_key(&conn)
    }

    /// Whether a framing fault closed the connection.
    pub fn is_closed(&self, conn: u32) -> bool
        ensures { result ≡ option_map_or (λ f. f.closed) (session conn self.now.sessions) false }
    {
        match self.sessions.get(&conn) {
            Some(framer) => framer.is_closed(),
            None => false,
        }
    }

    /// The bytes that came on the connection and are not answered: those of whole frames and of the next frame's part. None if it has no
    /// session.
    pub fn waiting_bytes(&self, conn: u32) -> &[u8]
        ensures { result.now ≡ option_map_or (λ f. f.waiting) (session conn self.now.sessions) [] }
    {
        match self.sessions.get(&conn) {
            Some(framer) => framer.waiting_bytes(),
            None => &[],
        }
    }

    /// All tenants.
    pub fn tenants(&self) -> &Tenants
        ensures { result.now ≡ self.now.tenants }
    {
        &self.tenants
    }

    /// Opens a session. A refusal changes nothing.
    pub fn connect(&mut self, alloc: Global, conn: u32) -> Result<(), ConnectFault>
        ensures ok { OnOk result (Sets conn (Some fresh_framing) self.old.sessions self.new.sessions) }
        ensures tenants { self.new.tenants ≡ self.old.tenants }
        ensures taken { IsErrOf result ConnectFault.Taken ↔ IsSome (session conn self.old.sessions) }
        ensures err { OnErr result (self.new ≡ self.old) }
    {
        if self.is_connected(conn) {
            return Err(ConnectFault::Taken);
        }
        match open(&mut self.sessions, alloc, conn) {
            Ok(()) => Ok(()),
            Err(_) => Err(ConnectFault::Memory),
        }
    }

    /// Ends a session, and returns whether there was one.
    pub fn disconnect(&mut self, conn: u32) -> bool
        ensures was { result ≡ is_some (session conn self.old.sessions) }
        ensures sets { Sets conn None self.old.sessions self.new.sessions }
        ensures tenants { self.new.tenants ≡ self.old.tenants }
    {
        self.sessions.remove(&conn).is_some()
    }

    /// Takes a piece of a connection's stream. [`Hub::answer_next`] answers the requests in it.
    ///
    /// # Errors
    ///
    /// `NoConnection` if the connection has no session, `Closed` after a framing fault, `Memory` if an allocation failed; an empty piece
    /// makes none. Errors change nothing.
    pub fn take(&mut self, conn: u32, piece: &[u8]) -> Result<(), TakeFault>
        ensures { Takes conn piece.now self.old result self.new }
    {
        take_at(&mut self.sessions, conn, piece)
    }

    /// Answers the first whole frame, or the framing fault, that waits on a connection, and appends its reply. `false` if none waits, or
    /// the connection has no session; then nothing changes.
    ///
    /// # Errors
    ///
    /// If the allocation for a short reply failed. It is made only for a frame or a fault that waits, which then waits on; nothing changes.
    pub fn answer_next(
        &mut self,
        alloc: Global,
        conn: u32,
        out: &mut Vec<u8>,
    ) -> Result<bool, AllocError>
        ensures step { IfOk result (λ more. MatchBool more
            (AnswersOne conn self.old out.old.items self.new out.new.items)
            (AnswersNone conn self.old out.old.items self.new out.new.items)) }
        ensures due { OnErr result (HasDue conn self.old) }
        ensures unchanged { OnErr result (self.new ≡ self.old) }
        ensures unwritten { OnErr result (out.new.items ≡ out.old.items) }
    {
        answer_at(
            &mut self.sessions,
            &mut self.tenants,
            &mut self.cache,
            alloc,
            conn,
            out,
        )
    }

    /// Whether the first request that waits on a connection waits for others: for a query of its tenant that another connection has under way. One of
    /// more than 64 KiB also waits for texts that are read, [`crate::READINGS`] at most and one of a tenant.
    pub fn waits(&self, conn: u32, tasks: &Tasks) -> bool
        ensures { result ≡ is_first_held conn self.now tasks.now }
    {
        if tasks.is_idle() {
            return false;
        }
        match self.sessions.get(&conn) {
            Some(framer) => waits_first(framer, &self.tenants, tasks, conn),
            None => false,
        }
    }

    /// Does a share of work on the first frame, or the framing fault, that waits on a connection. It is answered and its reply appended, or
    /// its query goes on for about so many units. A put with a body of more than 64 KiB has its text read in shares too, five places of the text's
    /// index for a unit. The first share makes the index. The last one judges the text, looks at the quotas and changes the map.
    ///
    /// Between two shares of a query other connections may be served, but for requests of its tenant ([`Hub::waits`]). Between two of a reading all
    /// may be, as far as they do not wait. Nothing of either is to be seen in the hub. The tasks are those that earlier calls left.
    ///
    /// # Errors
    ///
    /// As [`Hub::answer_next`].
    pub fn answer_some(
        &mut self,
        alloc: Global,
        conn: u32,
        units: u64,
        tasks: &mut Tasks,
        out: &mut Vec<u8>,
    ) -> Result<Advance, AllocError>
        requires on_way { AreOnWay self.old.tenants tasks.old }
        requires free { is_first_held conn self.old tasks.old ≡ false }
        ensures shares { IfOk result (λ share. Shares share conn self.old tasks.old out.old.items self.new tasks.new out.new.items) }
        ensures little { IfOk result (λ share. SpendsAt share conn self.old tasks.old tasks.new units) }
        ensures on_way { AreOnWay self.new.tenants tasks.new }
        ensures due { OnErr result (HasDue conn self.old) }
        ensures unchanged { OnErr result (self.new ≡ self.old) }
        ensures same_tasks { OnErr result (tasks.new ≡ tasks.old) }
        ensures unwritten { OnErr result (out.new.items ≡ out.old.items) }
    {
        share_at(
            &mut self.sessions,
            &mut self.tenants,
            &mut self.cache,
            tasks,
            Work { alloc, conn, units },
            out,
        )
    }

    /// Takes a piece of a connection's stream, and appends the replies to all frames that are now whole, in order.
    ///
    /// # Errors
    ///
    /// `NoConnection` if the connection has no session, `Closed` after a framing fault. `Memory` if an allocation failed. If the piece was not
    /// taken, nothing changes. If it was, the first frames are answered in order. At least one other waits for the next call, which may
    /// bring an empty piece.
    pub fn bytes(
        &mut self,
        alloc: Global,
        conn: u32,
        piece: &[u8],
        out: &mut Vec<u8>,
    ) -> Result<(), HubFault>
        ensures { Bytes conn piece.now self.old out.old.items result self.new out.new.items }
    {
        splits_from_the_front();
        match self.take(conn, piece) {
            Ok(()) => {}
            Err(TakeFault::NoConnection) => return Err(HubFault::NoConnection),
            Err(TakeFault::Closed) => return Err(HubFault::Closed),
            Err(TakeFault::Memory) => return Err(HubFault::Memory { taken: false }),
        }
        'frames: loop {
            match self.answer_next(alloc, conn, out) {
                Ok(true) => {}
                Ok(false) => return Ok(()),
                Err(_) => return Err(HubFault::Memory { taken: true }),
            }
        }
    }

    /// Applies one event. An event that the hub refuses is skipped, unless an allocation failed.
    fn apply(
        &mut self,
        alloc: Global,
        event: &Event,
        out: &mut Vec<Reply>,
    ) -> Result<(), AllocError>
        ensures ok { OnOk result (Applies event.now self.old.sessions self.old.tenants out.old.items self.new.sessions self.new.tenants out.new.items) }
        ensures some { OnErr result (AppliesSome event.now self.old.sessions self.old.tenants out.old.items self.new.tenants out.new.items) }
    {
        splits_from_the_front();
        match event {
            Event::Connect(conn) => open(&mut self.sessions, alloc, *conn),
            Event::Disconnect(conn) => {
                self.disconnect(*conn);
                Ok(())
            }
            Event::Bytes(conn, piece) => feed(
                &mut self.sessions,
                &mut self.tenants,
                &mut self.cache,
                alloc,
                *conn,
                piece,
                out,
            ),
        }
    }
}

/// Takes a piece of a connection's stream.
fn take_at(sessions: &mut BTreeMap<u32, Framer>, conn: u32, piece: &[u8]) -> Result<(), TakeFault>
    ensures { (tenants : Tenancy) → Takes conn piece.now (state sessions.old.entries tenants) result (state sessions.new.entries tenants) }
{
    match sessions.get_mut(&conn) {
        None => Err(TakeFault::NoConnection),
        Some(framer) => match framer.accept(piece) {
            Err(AcceptFault::Closed) => Err(TakeFault::Closed),
            Err(AcceptFault::Memory) => Err(TakeFault::Memory),
            Ok(()) => Ok(()),
        },
    }
}

/// Answers the first frame or fault that waits on a connection.
fn answer_at(
    sessions: &mut BTreeMap<u32, Framer>,
    tenants: &mut Tenants,
    cache: &mut Cache,
    alloc: Global,
    conn: u32,
    out: &mut Vec<u8>,
) -> Result<bool, AllocError>
    ensures step { IfOk result (λ more. MatchBool more
        (AnswersOne conn (state sessions.old.entries tenants.old) out.old.items (state sessions.new.entries tenants.new) out.new.items)
        (AnswersNone conn (state sessions.old.entries tenants.old) out.old.items (state sessions.new.entries tenants.new) out.new.items)) }
    ensures due { OnErr result (HasDue conn (state sessions.old.entries tenants.old)) }
    ensures unchanged { OnErr result (state sessions.new.entries tenants.new ≡ state sessions.old.entries tenants.old) }
    ensures unwritten { OnErr result (out.new.items ≡ out.old.items) }
{
    splits_from_the_front();
    match sessions.get_mut(&conn) {
        None => Ok(false),
        Some(framer) => answer_next(framer, tenants, cache, alloc, out),
    }
}

/// Does a share of work on the first frame or fault that waits on a connection.
fn share_at(
    sessions: &mut BTreeMap<u32, Framer>,
    tenants: &mut Tenants,
    cache: &mut Cache,
    tasks: &mut Tasks,
    work: Work,
    out: &mut Vec<u8>,
) -> Result<Advance, AllocError>
    requires on_way { AreOnWay tenants.old tasks.old }
    requires free { is_first_held work.conn (state sessions.old.entries tenants.old) tasks.old ≡ false }
    ensures shares { IfOk result (λ share. Shares share work.conn (state sessions.old.entries tenants.old) tasks.old out.old.items (state sessions.new.entries tenants.new) tasks.new out.new.items) }
    ensures little { IfOk result (λ share. SpendsAt share work.conn (state sessions.old.entries tenants.old) tasks.old tasks.new work.units) }
    ensures on_way { AreOnWay tenants.new tasks.new }
    ensures due { OnErr result (HasDue work.conn (state sessions.old.entries tenants.old)) }
    ensures unchanged { OnErr result (state sessions.new.entries tenants.new ≡ state sessions.old.entries tenants.old) }
    ensures same_tasks { OnErr result (tasks.new ≡ tasks.old) }
    ensures unwritten { OnErr result (out.new.items ≡ out.old.items) }
{
    splits_from_the_front();
    match sessions.get_mut(&work.conn) {
        None => Ok(Advance::Idle),
        Some(framer) => answer_some(framer, tenants, cache, tasks, work, out),
    }
}

/// Opens a session where there is none.
fn open(sessions: &mut BTreeMap<u32, Framer>, alloc: Global, conn: u32) -> Result<(), AllocError>
    ensures ok { OnOk result (Sets conn (opened_session (session conn sessions.old.entries)) sessions.old.entries sessions.new.entries) }
    ensures err { OnErr result (sessions.new.entries ≡ sessions.old.entries) }
    ensures free { OnErr result (session conn sessions.old.entries ≡ None) }
{
    if sessions.contains_key(&conn) {
        return Ok(());
    }
    let framer = Framer::new(alloc)?;
    sessions.insert(conn, framer)?;
    Ok(())
}

/// Takes a piece of a connection's stream and answers what is whole then.
fn feed(
    sessions: &mut BTreeMap<u32, Framer>,
    tenants: &mut Tenants,
    cache: &mut Cache,
    alloc: Global,
    conn: u32,
    piece: &[u8],
    out: &mut Vec<Reply>,
) -> Result<(), AllocError>
    ensures ok { OnOk result (Feeds conn piece.now sessions.old.entries tenants.old out.old.items sessions.new.entries tenants.new out.new.items) }
    ensures some { OnErr result (FeedsSome conn piece.now sessions.old.entries tenants.old out.old.items tenants.new out.new.items) }
{
    splits_from_the_front();
    match sessions.get_mut(&conn) {
        None => Ok(()),
        Some(framer) => match framer.accept(piece) {
            Err(AcceptFault::Closed) => Ok(()),
            Err(AcceptFault::Memory) => Err(AllocError),
            Ok(()) => answer_all(conn, framer, tenants, cache, alloc, out),
        },
    }
}

/// Applies events to a new hub, and appends a reply for each frame and fault, in the order in which they become whole.
///
/// A tenant's replies are byte for byte those that its own requests get from a plain map of its texts. How the connections' bytes are cut
/// and interleaved, and what other tenants send, makes no difference. Replies `NoMemory` are left out: such a request has changed
/// nothing. An event that the hub refuses is skipped, unless an allocation failed.
///
/// # Errors
///
/// `Keys` if [`Hub::new`] refuses the keys; then there is no reply. `Memory` if an allocation failed that no reply reports: for the keys, to
/// open a session, for a piece that has bytes, or for a frame or fault that waits. Then the replies to all earlier events are appended, and
/// those to the first frames of that one.
pub fn run(
    alloc: Global,
    keys: &[[u8; 16]],
    events: &[Event],
    out: &mut Vec<Reply>,
) -> Result<(), RunFault>
    ensures { Runs keys.now events.now out.old.items result out.new.items }
{
    tenants_are_apart();
    let mut hub = match Hub::new(alloc, keys) {
        Ok(hub) => hub,
        Err(TenantsFault::Memory) => return Err(RunFault::Memory),
        Err(fault) => return Err(RunFault::Keys(fault)),
    };
    for event in events {
        match hub.apply(alloc, event, out) {
            Ok(()) => {}
            Err(_) => return Err(RunFault::Memory),
        }
    }
    Ok(())
}
