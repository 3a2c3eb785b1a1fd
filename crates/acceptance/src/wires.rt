//! Connections served over wires that tell no bytes: one without end, and one that fails while it is owed a reply.

ghost use Rattle.std.specs.Prelude.{None};

use crate::session::KEY;
use crate::trial::Trial;
use path_hub::{ConnEnd, Hub, Wire, WireFault, serve_connection};
use std::alloc::Global;

/// The trials.
pub fn trials(alloc: Global) -> [(&'static str, Trial); 2] {
    [
        (
            "stops_after_a_million_reads",
            stops_after_a_million_reads(alloc),
        ),
        (
            "writes_what_it_owes_before_it_reads",
            writes_what_it_owes_before_it_reads(alloc),
        ),
    ]
}

/// Gives a byte 00 at each read, without end, and takes all that is written.
#[derive(Drop)]
struct Zeros {
    failures: u64,
    reads: u64,
    taken: u64,
}

impl Wire for Zeros {
    ghost use Rattle.path_hub.specs.Wires.{Meaning};

    ghost meaning = { λ w. record { failures = w.failures; reads = w.reads; traffic = None } };

    fn read(&mut self, into: &mut [u8]) -> Result<usize, WireFault> {
        if into.is_empty() {
            return Ok(0);
        }
        into[0] = 0;
        self.reads = self.reads.saturating_add(1);
        Ok(1)
    }

    fn write(&mut self, from: &[u8]) -> Result<usize, WireFault> {
        self.taken = self.taken.saturating_add(from.len() as u64);
        Ok(from.len())
    }

    fn failures(&self) -> u64 {
        self.failures
    }

    fn reads(&self) -> u64 {
        self.reads
    }
}

/// A million reads of a byte 00 are 250,000 requests without a body, each answered by nine bytes.
fn stops_after_a_million_reads(alloc: Global) -> Trial {
    let Ok(mut hub) = Hub::new(alloc, &[KEY]) else {
        return Trial::unprepared();
    };
    let mut wire = Zeros {
        failures: 0,
        reads: 0,
        taken: 0,
    };
    let end = serve_connection(alloc, &mut hub, 0, &mut wire);
    Trial::of(&[
        end == ConnEnd::TurnLimit,
        (wire.reads, wire.taken) == (1_000_000, 2_250_000),
    ])
}

/// Gives an empty request at each of four reads, and fails at a read that comes before the reply of nine bytes was written.
#[derive(Drop)]
struct Owed {
    failures: u64,
    reads: u64,
    turns: u32,
    owed: usize,
}

impl Wire for Owed {
    ghost use Rattle.path_hub.specs.Wires.{Meaning};

    ghost meaning = { λ w. record { failures = w.failures; reads = w.reads; traffic = None } };

    fn read(&mut self, into: &mut [u8]) -> Result<usize, WireFault> {
        if self.owed > 0 {
            self.failures += 1;
            return Err(WireFault);
        }
        if self.turns == 4 || into.len() < 4 {
            return Ok(0);
        }
        into[0] = 0;
        into[1] = 0;
        into[2] = 0;
        into[3] = 0;
        self.turns = self.turns.saturating_add(1);
        self.owed = 9;
        self.reads = self.reads.saturating_add(1);
        Ok(4)
    }

    fn write(&mut self, from: &[u8]) -> Result<usize, WireFault> {
        self.owed = self.owed.saturating_sub(from.len());
        Ok(from.len())
    }

    fn failures(&self) -> u64 {
        self.failures
    }

    fn reads(&self) -> u64 {
        self.reads
    }
}

fn writes_what_it_owes_before_it_reads(alloc: Global) -> Trial {
    let Ok(mut hub) = Hub::new(alloc, &[KEY]) else {
        return Trial::unprepared();
    };
    let mut wire = Owed {
        failures: 0,
        reads: 0,
        turns: 0,
        owed: 0,
    };
    let end = serve_connection(alloc, &mut hub, 0, &mut wire);
    Trial::of(&[end == ConnEnd::Done, (wire.reads, wire.failures) == (4, 0)])
}
