//! What a journal was told, and when.

use open_connections::{Held, Journal, Totals};

/// The seconds between two counts that a journal is told, and between two lines on one limit.
const MINUTE: u64 = 60;

/// The seconds in which the counts and each limit were last told of.
#[derive(Clone, Copy)]
pub(crate) struct LastLines {
    counts: u64,
    connections: Option<u64>,
    descriptors: Option<u64>,
    memory: Option<u64>,
}

/// Which limits hold somebody back.
#[derive(Clone, Copy)]
pub(crate) struct Holding {
    pub connections: bool,
    pub descriptors: bool,
    pub memory: bool,
}

impl LastLines {
    /// Nothing was told.
    pub fn new() -> LastLines {
        LastLines {
            counts: 0,
            connections: None,
            descriptors: None,
            memory: None,
        }
    }

    /// Tells that a second passed, the counts where a minute did, and each limit that holds somebody back and was not told of within the last
    /// minute.
    pub fn tell_lines<J: Journal>(
        &mut self,
        now: u64,
        holding: &Holding,
        totals: &Totals,
        journal: &mut J,
    ) {
        journal.ticked();
        if now.saturating_sub(self.counts) >= MINUTE {
            self.counts = now;
            journal.counted(totals);
        }
        if holding.connections && is_new(&mut self.connections, now) {
            journal.tell_held(Held::Connections, totals);
        }
        if holding.descriptors && is_new(&mut self.descriptors, now) {
            journal.tell_held(Held::Descriptors, totals);
        }
        if holding.memory && is_new(&mut self.memory, now) {
            journal.tell_held(Held::Memory, totals);
        }
    }
}

// Whether a limit was not told of within the last minute, and that it is told of now.
fn is_new(told: &mut Option<u64>, now: u64) -> bool {
    let is_new = match told {
        Some(last) => now.saturating_sub(*last) >= MINUTE,
        None => true,
    };
    if is_new {
        *told = Some(now);
    }
    is_new
}
