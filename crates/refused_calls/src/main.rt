//! The program `refused_calls`: makes the call that its first word names twice, and prints what it answers and leaves each time.
//!
//! A line `begins` is written before each call and a line `ends` behind it, so that `tests/refused_calls.py` can have each growth of
//! the first call refused, and no other one. The answer follows: a name, and what the call left as hexadecimal digits.
#![tactic(auto)]

mod frames;
mod hubs;
mod scripts;
mod store;
mod telling;
mod texts;
mod wire;

use std::process::ExitCode;
use std::rt::Env;
use std::{env, io};

fn main(rt: HostRuntime) -> ExitCode {
    match run(&rt) {
        Ok(true) => ExitCode::SUCCESS,
        Ok(false) => ExitCode::from(1),
        Err(error) => {
            let _ = eprintln!(rt; "refused_calls: {error}");
            ExitCode::from(2)
        }
    }
}

// Makes the call that the word behind the program's name names. Whether there is such a call.
fn run<R: Print + Env + AllocGlobal>(rt: &R) -> io::Result<bool> {
    let Some(name) = env::args(rt)?.nth(1) else {
        return Ok(false);
    };
    let name = name.as_str();
    Ok(
        texts::make(rt, name)?
            || store::make(rt, name)?
            || frames::make(rt, name)?
            || hubs::make(rt, name)?
            || scripts::make(rt, name)?,
    )
}
