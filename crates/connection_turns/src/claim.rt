//! What a connection holds of the budgets of memory, or waits for.
ghost use Rattle.std.specs.Prelude.{◌≡◌};
ghost use Rattle.connection_turns.specs.Held.{claimed, covers, share_after};

use crate::connection::ALLOWANCE;

/// The bytes owed up to which a connection wants no share.
pub const OWED: usize = 2 * ALLOWANCE;

/// Whose bytes a share is for.
#[derive(Clone, Copy, Debug, PartialEq, Eq)]
pub enum Pool {
    /// Those of requests whose key names a tenant, and of replies.
    Tenants,
    /// Those of requests whose key names none.
    Strangers,
}

/// What a share is for.
#[derive(Clone, Copy, Debug, PartialEq, Eq)]
pub enum Purpose {
    /// A frame that is read.
    Frame,
    /// A reply that is to be given.
    Reply,
    /// One that was given and is written.
    Written,
}

/// What a connection asks for.
#[derive(Clone, Copy, Debug)]
pub struct Need {
    /// Of whose budget.
    pub pool: Pool,
    /// For which party of it.
    pub party: usize,
    /// What for.
    pub purpose: Purpose,
    /// How many bytes.
    pub bytes: usize,
}

impl Need {
    /// The share with this ticket, which is granted or not in this second.
    pub fn claim(&self, ticket: u64, is_granted: bool, now: u64) -> Claim
        ensures { result ≡ claimed self.now ticket is_granted now }
    {
        Claim {
            ticket,
            bytes: self.bytes,
            since: now,
            pool: self.pool,
            party: self.party,
            purpose: self.purpose,
            is_granted,
        }
    }
}

/// A connection's share.
#[derive(Clone, Copy, Debug)]
pub struct Claim {
    /// The number by which its budget knows it.
    pub ticket: u64,
    /// How many bytes were asked for.
    pub bytes: usize,
    /// The second in which it was granted.
    pub since: u64,
    /// Which party of its budget holds it.
    pub party: usize,
    /// Whose budget it is of.
    pub pool: Pool,
    /// What it is for.
    pub purpose: Purpose,
    /// It is held, and waits no more.
    pub is_granted: bool,
}

/// What becomes of a share behind a turn.
#[derive(Clone, Copy, Debug, PartialEq, Eq)]
pub enum After {
    /// It is kept whole.
    Kept,
    /// What is owed of it is kept until it is written.
    Written,
    /// All of it is given back.
    Released,
}

impl Claim {
    /// What becomes of it behind a turn, with so many bytes owed. A request was answered in the turn, or none was.
    pub fn left(&self, owed: usize, has_answered: bool) -> After
        ensures { result ≡ share_after self.now owed has_answered }
    {
        if !self.is_granted {
            return After::Kept;
        }
        match self.purpose {
            Purpose::Frame if has_answered => After::Released,
            Purpose::Reply if has_answered && owed <= OWED => After::Released,
            Purpose::Reply if has_answered => After::Written,
            Purpose::Written if owed == 0 => After::Released,
            Purpose::Frame | Purpose::Reply | Purpose::Written => After::Kept,
        }
    }

    /// Whether a reply of so many bytes may be given with it. That to a long frame is short.
    pub fn covers(&self, reply: usize) -> bool
        ensures { result ≡ covers self.now reply }
    {
        if !self.is_granted {
            return false;
        }
        match self.purpose {
            Purpose::Frame => true,
            Purpose::Reply => reply <= self.bytes,
            Purpose::Written => false,
        }
    }
}
