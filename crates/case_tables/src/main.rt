//! The program `case_tables`: tries each case of the tables that its command line names, and says which ones fail.
//!
//! It ends with status 0 where all lines are cases that hold, 1 where one is not, and 2 where a table cannot be read or memory
//! is wanting.
#![tactic(auto)]

mod answers;
mod case;
mod numbers;
mod pieces;
mod table;

use crate::table::{Outcome, Table};
use std::alloc::AllocError;
use std::fs::{self, Files};
use std::process::ExitCode;
use std::rt::Env;
use std::{env, io};

// How many lines were cases, and how many of the lines failed.
#[derive(Clone, Copy, Drop)]
struct Counts {
    cases: u64,
    failed: u64,
}

// The first bytes of an answer, as far as they tell it apart.
const SHOWN: usize = 400;

fn main(rt: HostRuntime) -> ExitCode {
    match run(&rt) {
        Ok(0) => ExitCode::SUCCESS,
        Ok(_) => ExitCode::from(1),
        Err(error) => {
            let _ = eprintln!(rt; "case_tables: {error}");
            ExitCode::from(2)
        }
    }
}

// Tries the tables that the words behind the program's name name, and answers how many lines failed.
fn run<R: Print + Env + Files + AllocGlobal>(rt: &R) -> io::Result<u64> {
    let mut all = Counts {
        cases: 0,
        failed: 0,
    };
    for name in env::args(rt)?.skip(1) {
        let counts = try_table(rt, name.as_str())?;
        all.cases = all.cases.saturating_add(counts.cases);
        all.failed = all.failed.saturating_add(counts.failed);
    }
    print_counts(rt, "all", all)?;
    Ok(all.failed)
}

fn print_counts<R: Print>(rt: &R, name: &str, counts: Counts) -> io::Result<()> {
    let cases = counts.cases;
    let failed = counts.failed;
    println!(rt; "{name}: {cases} cases, {failed} failed")
}

fn try_table<R: Print + Files + AllocGlobal>(rt: &R, name: &str) -> io::Result<Counts> {
    let text = fs::read_to_string(rt, name)?;
    let mut table = Table::new(rt.alloc());
    let mut counts = Counts {
        cases: 0,
        failed: 0,
    };
    for (place, line) in text.as_str().lines().enumerate() {
        let outcome = table.line(rt.alloc(), line)?;
        counts = counted(counts, &outcome);
        print_outcome(rt, name, place, &outcome)?;
    }
    print_counts(rt, name, counts)?;
    Ok(counts)
}

fn counted(counts: Counts, outcome: &Outcome) -> Counts {
    let (case, fails) = match outcome {
        Outcome::Other => (0, 0),
        Outcome::Holds => (1, 0),
        Outcome::Fails { .. } => (1, 1),
        Outcome::NoCase => (0, 1),
    };
    Counts {
        cases: counts.cases.saturating_add(case),
        failed: counts.failed.saturating_add(fails),
    }
}

// A line for what fails, with its place, which counts from 1.
fn print_outcome<R: Print + AllocGlobal>(
    rt: &R,
    name: &str,
    place: usize,
    outcome: &Outcome,
) -> io::Result<()> {
    let number = (place as u64).saturating_add(1);
    match outcome {
        Outcome::Fails { wanted, came } => {
            let wanted = shown(rt, wanted.as_slice())?;
            let came = shown(rt, came.as_slice())?;
            println!(rt; "{name}:{number}: wanted {wanted}, came {came}")
        }
        Outcome::NoCase => println!(rt; "{name}:{number}: no case"),
        _ => Ok(()),
    }
}

fn shown<R: AllocGlobal>(rt: &R, bytes: &[u8]) -> Result<String, AllocError> {
    let first = bytes.get(..SHOWN).unwrap_or(bytes);
    String::from_utf8_lossy(rt.alloc(), first)
}
