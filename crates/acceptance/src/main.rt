//! The program `acceptance`: makes public calls of all crates, and says which of its trials do not come as wanted.
//!
//! It shows what no table can: cases of one line, as a text and its verdict, stand in the tables of `case_tables`, and requests with their
//! replies in `tests/exchanges.txt`. As a program it is proved once, and run as two compilers build it. A crate with tests would be proved
//! once more for them. Each assertion would be an exit at which all owned values are dropped, so a trial counts its cases and goes on.
//!
//! It ends with status 0 where all cases hold, and 1 where one does not.
#![tactic(auto)]

mod budgets;
mod cache;
mod calls;
mod connections;
mod documents;
mod frames;
mod hub;
mod kernels;
mod listeners;
mod moved;
mod places;
mod queries;
mod session;
mod shares;
mod streams;
mod trial;
mod turns;
mod wires;

use crate::trial::Trial;
use std::process::ExitCode;

// What all trials came to.
#[derive(Clone, Copy, Drop)]
struct Sum {
    trials: u32,
    cases: u32,
    failed: u32,
}

impl Sum {
    // Counts trials, and prints a line for each that fails.
    fn add<R: Print>(&mut self, rt: &R, trials: &[(&'static str, Trial)]) {
        for row in trials {
            let (name, trial) = *row;
            self.trials = self.trials.saturating_add(1);
            self.cases = self.cases.saturating_add(trial.cases());
            let at = trial.first_failed();
            if at > 0 {
                self.failed = self.failed.saturating_add(1);
                let _ = println!(rt; "{name}: case {at} failed");
            }
        }
    }
}

fn main(rt: HostRuntime) -> ExitCode {
    let sum = try_all(&rt);
    let Sum {
        trials,
        cases,
        failed,
    } = sum;
    let printed = println!(rt; "{trials} trials, {cases} cases, {failed} trials failed");
    if printed.is_ok() && failed == 0 {
        ExitCode::SUCCESS
    } else {
        ExitCode::from(1)
    }
}

fn try_all<R: Print + AllocGlobal>(rt: &R) -> Sum {
    let alloc = rt.alloc();
    let mut sum = Sum {
        trials: 0,
        cases: 0,
        failed: 0,
    };
    sum.add(rt, &kernels::trials());
    sum.add(rt, &places::trials(alloc));
    sum.add(rt, &documents::trials(alloc));
    sum.add(rt, &queries::trials(alloc));
    sum.add(rt, &streams::trials(alloc));
    sum.add(rt, &frames::trials(alloc));
    sum.add(rt, &cache::trials(alloc));
    sum.add(rt, &hub::trials(alloc));
    sum.add(rt, &shares::trials(alloc));
    sum.add(rt, &connections::trials(alloc));
    sum.add(rt, &listeners::trials(alloc));
    sum.add(rt, &wires::trials(alloc));
    sum.add(rt, &calls::trials(alloc));
    sum.add(rt, &budgets::trials(alloc));
    sum.add(rt, &turns::trials(alloc));
    sum
}
