//! The connections that get a turn, and the time that each tenant's turns took in a round.
ghost use Rattle.std.specs.Prelude.{◌≡◌, ◌<◌, ◌&&◌, ◌++◌, ◌∷◌, [], IfOk, OnErr, OnOk, false, if◌then◌else◌, nat_lt, not, replicate, slice_index};
ghost use Rattle.due_list.specs.Long.{after_round, begun, counted, is_crowded, put_off};
ghost use Rattle.due_list.specs.Rounds.{IsLast, after_turn, charged, due_at, has_time, party_of};

use crate::long_turns::LongTurns;
use std::alloc::{AllocError, Global};
use std::mem;
use tenant_map::TENANT_LIMIT;

/// The microseconds of turns behind which a tenant's further connections wait for the next round.
pub(crate) const SPAN: u64 = 1_000;

/// The rounds with connections of one party alone after which nobody else is expected.
const LONE_ROUNDS: u32 = 16;

/// The tenants, and one for all connections on which none asked.
pub const PARTIES: usize = 257;

/// A connection that gets a turn.
#[derive(Clone, Copy)]
pub struct Due {
    /// Its key.
    pub key: usize,
    /// Its number: the key may be that of another one later.
    pub number: u64,
    // Whose time its turns take.
    party: usize,
}

/// The connections that get a turn. Each has at most one to come.
#[derive(Drop)]
pub struct DueList {
    alloc: Global,
    // Those whose turn was put off, and those of which a query is under way: their turns come first.
    first: Vec<Due>,
    rest: Vec<Due>,
    // Room for those of a round.
    spare: Vec<Due>,
    // The microseconds that the turns of each party took in this round.
    micros: [u64; PARTIES],
    // Those that answer requests which may take long.
    longs: LongTurns,
    // The rounds since one in which connections of several parties had a turn.
    since_shared: u32,
}

impl DueList {
    /// None gets one.
    pub fn new(alloc: Global) -> DueList
        ensures { (result.first.items ≡ []) × (result.rest.items ≡ []) }
    {
        DueList {
            alloc,
            first: Vec::new(alloc),
            rest: Vec::new(alloc),
            spare: Vec::new(alloc),
            micros: [0; PARTIES],
            longs: LongTurns::new(),
            since_shared: LONE_ROUNDS,
        }
    }

    /// Whether none gets one.
    pub fn is_empty(&self) -> bool {
        self.first.is_empty() && self.rest.is_empty()
    }

    /// Makes room for so many, and tells whether there is.
    pub fn reserve(&mut self, count: usize) -> bool
        ensures { (self.new.first.items ≡ self.old.first.items) × (self.new.rest.items ≡ self.old.rest.items) }
    {
        self.first.reserve(count).is_ok()
            && self.rest.reserve(count).is_ok()
            && self.spare.reserve(count).is_ok()
    }

    /// A connection gets a turn in the next round, behind those that have one to come. One of which a query is under way is in front of those
    /// that are put off since.
    pub fn add(
        &mut self,
        key: usize,
        number: u64,
        tenant: Option<usize>,
        is_under_way: bool,
    ) -> Result<(), AllocError>
        ensures last { OnOk result (IsLast is_under_way (due_at key number tenant) self.old self.new) }
        ensures unchanged { OnErr result ((self.new.first.items ≡ self.old.first.items) × (self.new.rest.items ≡ self.old.rest.items)) }
        ensures longs { self.new.longs ≡ self.old.longs }
    {
        let due = Due {
            key,
            number,
            party: party_of(tenant),
        };
        if is_under_way {
            self.first.extend_from_slice(&[due])
        } else {
            self.rest.extend_from_slice(&[due])
        }
    }

    /// Has a turn come in the next round, before the turns of those that had one in this round.
    pub fn put_off(&mut self, due: Due) -> Result<(), AllocError>
        ensures first { OnOk result (self.new.first.items ≡ self.old.first.items ++ (due ∷ [])) }
        ensures rest { self.new.rest.items ≡ self.old.rest.items }
        ensures longs { self.new.longs ≡ (if nat_lt (slice_index self.old.micros due.party) 1000 then put_off due.party self.old.longs else self.old.longs) }
    {
        if self.has_span(due) {
            self.longs.put_off(due.party);
        }
        self.first.extend_from_slice(&[due])
    }

    /// Begins a round, and hands out all that get a turn, in order. The list comes back by [`DueList::give_back`].
    pub fn take(&mut self) -> Result<Vec<Due>, AllocError>
        ensures all { IfOk result (λ list. list.items ≡ self.old.first.items ++ self.old.rest.items) }
        ensures none_left { OnOk result ((self.new.first.items ≡ []) × (self.new.rest.items ≡ [])) }
        ensures times { OnOk result (self.new.micros ≡ replicate 257 0) }
        ensures longs { OnOk result (self.new.longs ≡ after_round self.old.longs) }
    {
        self.first.extend_from_slice(self.rest.as_slice())?;
        self.rest.clear();
        self.micros = [0; PARTIES];
        self.longs.begin_round();
        self.since_shared = if are_apart(self.first.as_slice()) {
            0
        } else {
            self.since_shared.saturating_add(1)
        };
        let mut room = mem::replace(&mut self.spare, Vec::new(self.alloc));
        room.clear();
        Ok(mem::replace(&mut self.first, room))
    }

    /// Whether connections of several parties have a turn in this round, or had one shortly before: who asks again has none while its next
    /// request is on its way.
    pub fn is_shared(&self) -> bool
        ensures { result ≡ nat_lt self.now.since_shared 16 }
    {
        self.since_shared < LONE_ROUNDS
    }

    /// Takes the room of a list back.
    pub fn give_back(&mut self, list: Vec<Due>)
        ensures { (self.new.first.items ≡ self.old.first.items) × (self.new.rest.items ≡ self.old.rest.items) }
    {
        self.spare = list;
    }

    /// Whether a turn took more than a span lately: then those that answer requests which may take long are told from others.
    pub fn is_crowded(&self) -> bool
        ensures { result ≡ is_crowded self.now.longs }
    {
        self.longs.is_crowded()
    }

    /// Whether there is time for a turn in this round: the turns of its party took less than a span. One that answers a request which may take long has
    /// to be one that may begin ([`LongTurns::may_begin`]).
    pub fn has_time(&self, due: Due, is_long: bool) -> bool
        ensures { result ≡ has_time due is_long self.now }
    {
        self.has_span(due) && (!is_long || self.longs.may_begin(due.party))
    }

    /// Whether the turns of a party took less than a span in this round: where they did not, there is no time for a further one, whatever it may take.
    pub fn has_span(&self, due: Due) -> bool
        ensures { result ≡ nat_lt (slice_index self.now.micros due.party) 1000 }
    {
        self.micros.get(due.party).copied().unwrap_or(0) < SPAN
    }

    /// A turn begins, of a connection on which this tenant asked last. It answers a request that may take long, or not.
    pub fn begin(&mut self, tenant: Option<usize>, is_long: bool)
        ensures first { self.new.first.items ≡ self.old.first.items }
        ensures rest { self.new.rest.items ≡ self.old.rest.items }
        ensures times { self.new.micros ≡ self.old.micros }
        ensures longs { self.new.longs ≡ begun (party_of tenant) is_long self.old.longs }
    {
        self.longs.begin(party_of(tenant), is_long);
    }

    /// Whether the turn that began may answer no request that may take long.
    pub fn is_brief(&self) -> bool
        ensures { result ≡ (is_crowded self.now.longs && not self.now.longs.is_under_way) }
    {
        self.longs.is_brief()
    }

    /// Counts a turn that took so long. The tenant that was heard in it pays for it. If the connection stood under another party, that one pays too.
    /// A turn in which a query went on takes a span: others of its tenant can do nothing in this round.
    pub fn count(
        &mut self,
        stood: Option<usize>,
        heard: Option<usize>,
        micros: u64,
        is_under_way: bool,
    )
        ensures longs { self.new.longs ≡ counted micros self.old.longs }
        ensures times { self.new.micros ≡ after_turn self.old.micros (party_of stood) (party_of heard) micros is_under_way }
        ensures first { self.new.first.items ≡ self.old.first.items }
        ensures rest { self.new.rest.items ≡ self.old.rest.items }
    {
        self.longs.count(micros);
        let (stood, heard) = (party_of(stood), party_of(heard));
        if stood != heard {
            charge(&mut self.micros, stood, micros);
        }
        let more = if is_under_way { SPAN } else { micros };
        charge(&mut self.micros, heard, more);
    }
}

// A party pays for so many microseconds.
fn charge(times: &mut [u64; PARTIES], party: usize, micros: u64)
    requires { party < 257 }
    ensures { times.new ≡ charged times.old party micros }
{
    times[party] = times[party].saturating_add(micros);
}

// Whether these are of several parties.
fn are_apart(list: &[Due]) -> bool {
    let Some(first) = list.first() else {
        return false;
    };
    let mut are_apart = false;
    for due in list {
        are_apart |= due.party != first.party;
    }
    are_apart
}

/// Whose time the turns of a connection take, on which this tenant asked last, and whose memory its bytes.
pub fn party_of(tenant: Option<usize>) -> usize
    ensures party { result ≡ party_of tenant }
    ensures within { result < 257 }
{
    tenant.unwrap_or(TENANT_LIMIT).min(TENANT_LIMIT)
}
