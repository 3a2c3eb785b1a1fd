//! Which turns of a round may answer requests that take long: a party that had none comes before one that had.
ghost use Rattle.std.specs.Prelude.{◌≡◌, ◌&&◌, false, not};
ghost use Rattle.due_list.specs.Long.{after_round, begun, counted, has_had, is_crowded, may_begin, put_off};

use crate::due::{PARTIES, SPAN};

/// The microseconds of long turns behind which further ones wait for the next round.
const ROUND: u64 = 2_000;

/// The rounds behind a turn above a span in which long turns are told from others.
const CROWDED_ROUNDS: u32 = 16;

/// The turns of a round that answer requests which may take long.
#[derive(Clone, Copy)]
pub struct LongTurns {
    // The microseconds that they took in this round.
    micros: u64,
    // One began in this round.
    has_begun: bool,
    // The turn under way is one.
    is_under_way: bool,
    // The parties that had one since all that waited for one had theirs.
    had: [bool; PARTIES],
    // One of a party that had none was put off in the last round.
    is_waited_for: bool,
    // Whether one was put off in this round.
    has_put_off: bool,
    // The rounds since a turn that took more than a span.
    since_long: u32,
}

impl LongTurns {
    /// There was none.
    pub fn new() -> LongTurns
        ensures { is_crowded result ≡ false }
    {
        LongTurns {
            micros: 0,
            has_begun: false,
            is_under_way: false,
            had: [false; PARTIES],
            is_waited_for: false,
            has_put_off: false,
            since_long: CROWDED_ROUNDS,
        }
    }

    /// A round begins. Once nobody waits who had none, each party may have one again.
    pub fn begin_round(&mut self)
        ensures { self.new ≡ after_round self.old }
    {
        self.micros = 0;
        self.has_begun = false;
        self.is_under_way = false;
        if !self.has_put_off {
            self.had = [false; PARTIES];
        }
        self.is_waited_for = self.has_put_off;
        self.has_put_off = false;
        self.since_long = self.since_long.saturating_add(1);
    }

    /// Whether a turn took more than a span lately.
    pub fn is_crowded(&self) -> bool
        ensures { result ≡ is_crowded self.now }
    {
        self.since_long < CROWDED_ROUNDS
    }

    /// Whether the turn under way may answer no request that may take long.
    pub fn is_brief(&self) -> bool
        ensures { result ≡ (is_crowded self.now && not self.now.is_under_way) }
    {
        self.is_crowded() && !self.is_under_way
    }

    /// Whether a party may have one now: it is the first of its round, or those before took less than two milliseconds. Who had one waits for
    /// those that had none.
    pub fn may_begin(&self, party: usize) -> bool
        ensures { result ≡ may_begin self.now party }
    {
        if self.has_begun && self.micros >= ROUND {
            return false;
        }
        !(self.is_waited_for && self.has_had(party))
    }

    fn has_had(&self, party: usize) -> bool
        ensures { result ≡ has_had self.now party }
    {
        self.had.get(party).copied().unwrap_or(false)
    }

    /// A turn of a party begins, which is one or not.
    pub fn begin(&mut self, party: usize, is_long: bool)
        ensures { self.new ≡ begun party is_long self.old }
    {
        self.is_under_way = is_long;
        self.has_begun = self.has_begun || is_long;
        if is_long && party < PARTIES {
            self.had[party] = true;
        }
    }

    /// One of a party is put off.
    pub fn put_off(&mut self, party: usize)
        ensures { self.new ≡ put_off party self.old }
    {
        self.has_put_off = self.has_put_off || !self.has_had(party);
    }

    /// Counts the turn under way, which took so long. One above a span is counted among them, whatever it answered.
    pub fn count(&mut self, micros: u64)
        ensures { self.new ≡ counted micros self.old }
    {
        if micros > SPAN {
            self.since_long = 0;
            self.has_begun = true;
            self.is_under_way = true;
        }
        if self.is_under_way {
            self.micros = self.micros.saturating_add(micros);
        }
        self.is_under_way = false;
    }
}
