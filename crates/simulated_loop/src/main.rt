//! The program `simulated_loop SEED PEERS ROUNDS [SCARCE]`: the loop of many connections over a system that it holds itself, against a plain model.
//!
//! Peers put, get, remove, list and query texts of a few bytes up to some hundred thousand, at the least limit on memory or a little above it. What they
//! send is cut anywhere, and they take what they get a few bytes at a time. Some stop in a request, send a byte at a time, take nothing, flood, send
//! a length above the limit, or have no tenant's key. All end or reset their connections at times and open new ones. The system refuses to accept at
//! times, and the clock leaps.
//!
//! With SCARCE, a number that is not 0, whoever runs the program refuses allocations of the server between an odd line of standard output and the next
//! one. A request may then be answered NoMemory, or its connection end.
//!
//! Each reply is compared with the peer's own record of its texts. A peer that goes on is answered within so many rounds, and its connection is not
//! closed. All of it follows from the seed. The outcome is on standard error, and the exit status is 0 if all went well.
#![tactic(auto)]

mod world;

use crate::world::{Outcome, Words, run};
use std::process::ExitCode;
use std::rt::Env;
use std::{env, io};

fn main(rt: HostRuntime) -> ExitCode {
    match read_words(&rt) {
        Ok(words) => ExitCode::from(tell_outcome(&rt, &run(&rt, words))),
        Err(error) => {
            let _ = eprintln!(rt; "simulated_loop: {error}");
            ExitCode::from(3)
        }
    }
}

// The numbers of the command line; one that is none is 0.
fn read_words<R: Env + AllocGlobal>(rt: &R) -> io::Result<Words> {
    let mut given = env::args(rt)?;
    let _ = given.next();
    Ok(Words {
        seed: number_of(given.next()),
        peers: number_of(given.next()) as usize,
        rounds: number_of(given.next()),
        is_scarce: number_of(given.next()) > 0,
    })
}

fn number_of(word: Option<String>) -> u64 {
    match word {
        Some(word) => word.as_str().parse().unwrap_or(0),
        None => 0,
    }
}

// Says what came of it on standard error, and answers the exit status.
fn tell_outcome<R: Eprint>(rt: &R, outcome: &Outcome) -> u8 {
    let _ = eprintln!(rt; "{outcome}");
    if outcome.is_good() { 0 } else { 1 }
}
