//! The budgets of memory that connections share.
ghost use Rattle.std.specs.Prelude.{◌≡◌, ◌-◌, [], map, option_to_list, IfOk, OnOk, OnErr, MatchOption};
ghost use Rattle.memory_budget.specs.States.{Asks, after, is_waited_for, lowered, may_grow};
ghost use Rattle.open_connections.specs.Joined.{ChangesAt, Comes, Holds, IsAsked, claim_asked, claim_by, place_of, shares_at, within};
ghost use Rattle.open_connections.specs.Shares.{fresh_budgets, granted_next, in_pool, left_of, limit_of, limits_in, spare_of, IsFree, IsWithin, StayFree};

use connection_turns::{Claim, Need, Pool};
use due_list::PARTIES;
use memory_budget::{Budget, Grant, Share, by_ticket, keeps};
use std::alloc::{AllocError, Global};
use wire_frames::{LONGEST_FRAME, MOST_REPLY};

/// The least limit on memory: room for one longest request and one longest reply.
pub const LEAST_MEMORY: usize = LONGEST_FRAME + MOST_REPLY;

/// The budget of tenants, and one of a longest frame for bytes whose key names none: so these never keep a tenant's from being granted.
#[derive(Drop)]
pub(crate) struct Budgets {
    // A party for each tenant, and one for replies to others.
    tenants: Budget,
    // One party.
    strangers: Budget,
}

impl Budgets {
    /// So many bytes, at least [`LEAST_MEMORY`].
    pub fn new(alloc: Global, limit: usize) -> Result<Budgets, AllocError>
        ensures { IfOk result (λ budgets. budgets ≡ fresh_budgets limit) }
    {
        let limit = limit.saturating_sub(LONGEST_FRAME).max(MOST_REPLY);
        let tenants = Budget::new(alloc, limit, spare_of(limit), PARTIES)?;
        let strangers = Budget::new(alloc, LONGEST_FRAME, 0, 1)?;
        Ok(Budgets { tenants, strangers })
    }

    /// Whether a tenant's share of so many bytes would be granted at once, whatever it holds.
    pub fn has_room(&self, bytes: usize) -> bool
        ensures { result ≡ may_grow self.now.tenants bytes }
    {
        self.tenants.may_grow(bytes)
    }

    /// The bytes that are held, and those that there are.
    pub fn held_and_limit(&self) -> (usize, usize)
        ensures { result ≡ (limit_of self.now - left_of self.now, limit_of self.now) }
    {
        let limit = self.tenants.limit().saturating_add(self.strangers.limit());
        let left = self.tenants.left().saturating_add(self.strangers.left());
        (limit.saturating_sub(left), limit)
    }

    /// Whether somebody waits.
    pub fn is_waited_for(&self, pool: Pool) -> bool
        ensures { result ≡ is_waited_for (in_pool pool self.now) }
    {
        match pool {
            Pool::Tenants => self.tenants.is_waited_for(),
            Pool::Strangers => self.strangers.is_waited_for(),
        }
    }

    /// Has a connection ask for what it needs, or for the most that may be asked for where that is less.
    pub fn ask(&mut self, key: usize, need: &Need, now: u64) -> Result<Claim, AllocError>
        ensures limits { limits_in self.new ≡ limits_in self.old }
        ensures asked { OnOk result (let old = in_pool need.now.pool self.old in in_pool need.now.pool self.new ≡ after old (Asks need.now.party key (within need.now old).bytes)) }
        ensures claim { IfOk result (λ claim. claim ≡ claim_asked need.now now (in_pool need.now.pool self.old)) }
        ensures comes { IfOk result (λ claim. Comes key claim self.old self.new) }
        ensures unchanged { OnErr result (self.new ≡ self.old) }
    {
        match need.pool {
            Pool::Tenants => asked(&mut self.tenants, key, need, now),
            Pool::Strangers => asked(&mut self.strangers, key, need, now),
        }
    }

    /// Gives a share back.
    pub fn release(&mut self, claim: &Claim)
        ensures free { IsFree claim.now.party claim.now.ticket (in_pool claim.now.pool self.new) }
        ensures limits { limits_in self.new ≡ limits_in self.old }
        ensures gone { ChangesAt (place_of claim.now) ([], []) self.old self.new }
    {
        keeps();
        by_ticket();
        match claim.pool {
            Pool::Tenants => self.tenants.release(claim.party, claim.ticket),
            Pool::Strangers => self.strangers.release(claim.party, claim.ticket),
        }
    }

    /// Keeps at most so many bytes of a share.
    pub fn shrink(&mut self, claim: &Claim, to: usize)
        ensures limits { limits_in self.new ≡ limits_in self.old }
        ensures lowered { let shares = shares_at (place_of claim.now) self.old in ChangesAt (place_of claim.now) (map (lowered claim.now.ticket to) shares.0, shares.1) self.old self.new }
    {
        keeps();
        by_ticket();
        match claim.pool {
            Pool::Tenants => self.tenants.shrink(claim.party, claim.ticket, to),
            Pool::Strangers => self.strangers.shrink(claim.party, claim.ticket, to),
        }
    }

    /// Grants the next share, where there is room.
    pub fn next(&mut self) -> Option<Share>
        ensures next { option_to_list result ≡ granted_next self.old }
        ensures free { StayFree self.old self.new }
        ensures limits { limits_in self.new ≡ limits_in self.old }
        ensures granted { MatchOption result (self.new ≡ self.old) (λ share. Holds share self.old self.new) }
    {
        keeps();
        by_ticket();
        match self.tenants.next() {
            Some(share) => Some(share),
            None => self.strangers.next(),
        }
    }

    /// No more is held than the limits allow: the function does nothing, and its contract says it.
    pub fn are_within(&self)
        ensures { IsWithin self.now }
    {
        let _ = self.tenants.left();
        let _ = self.strangers.left();
    }
}

// Has a connection ask a budget for what it needs, or for the most that may be asked for.
fn asked(budget: &mut Budget, key: usize, need: &Need, now: u64) -> Result<Claim, AllocError>
    ensures limit { budget.new.limit ≡ budget.old.limit }
    ensures asked { OnOk result (budget.new ≡ after budget.old (Asks need.now.party key (within need.now budget.old).bytes)) }
    ensures claim { IfOk result (λ claim. claim ≡ claim_asked need.now now budget.old) }
    ensures comes { IfOk result (λ claim. IsAsked key need.now claim budget.old budget.new) }
    ensures unchanged { OnErr result (budget.new ≡ budget.old) }
{
    keeps();
    by_ticket();
    if need.party >= budget.parties() {
        return Err(AllocError);
    }
    let need = Need {
        bytes: need.bytes.min(budget.most()),
        ..*need
    };
    let grant = budget.ask(need.party, key, need.bytes)?;
    Ok(claim_by(&need, grant, now))
}

// The claim that comes of asking.
fn claim_by(need: &Need, grant: Grant, now: u64) -> Claim
    ensures { result ≡ claim_by need.now grant now }
{
    match grant {
        Grant::Granted(ticket) => need.claim(ticket, true, now),
        Grant::Waits(ticket) => need.claim(ticket, false, now),
    }
}

// What a tenant that holds something leaves to those that hold nothing: an eighth, or a longest reply where that is more, as far as a longest reply can be
// asked for beside it.
fn spare_of(limit: usize) -> usize
    ensures { result ≡ spare_of limit }
{
    (limit / 8)
        .max(MOST_REPLY)
        .min(limit.saturating_sub(MOST_REPLY))
}
