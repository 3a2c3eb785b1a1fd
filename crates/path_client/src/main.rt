//! The program `path_client`: sends the requests of its command line to a server.
#![tactic(auto)]

mod asking;
mod connection;
mod documents;
mod keys;
mod loading;
mod notes;

use client_commands::{Context, Failure, Note, Operation, Options, Verb, read_options};
use command_words::read_words;
use std::env::{self, VarError};
use std::io::IsTerminal;
use std::net::Net;
use std::process::ExitCode;
use std::rt::{Clock, Env, Files};

/// The environment variable with the server's address.
const ADDRESS_VARIABLE: &str = "PATH_SERVER_AT";

/// The environment variable with the name of the key file.
const KEY_FILE_VARIABLE: &str = "PATH_SERVER_KEY_FILE";

fn variable_of<R: Env + AllocGlobal>(rt: &R, variable: &'static str) -> Result<String, Failure> {
    match env::var(rt, variable) {
        Ok(text) => Ok(text),
        Err(VarError::NotPresent) => Ok(String::new(rt.alloc())),
        Err(VarError::NotUnicode) => Err(Failure::Variable(variable)),
        Err(VarError::OutOfMemory) => Err(Failure::Memory),
    }
}

// What an option or a variable of the environment has, or nothing.
fn given<R: Env + AllocGlobal>(
    rt: &R,
    option: Option<&str>,
    variable: &'static str,
) -> Result<String, Failure> {
    match option {
        Some(text) => String::from_str(rt.alloc(), text).map_err(|_| Failure::Memory),
        None => variable_of(rt, variable),
    }
}

fn answer<R: Input + Print + Eprint + Net + Files + Clock + AllocGlobal>(
    rt: &R,
    asked: &Operation<'_>,
    context: &Context<'_>,
    note: &mut Option<Note>,
) -> Result<(), Failure> {
    match asked.verb {
        Verb::NewKey => keys::print_new(rt),
        _ => asking::answer(rt, asked, context, note),
    }
}

// Does what the command line asks for, and answers the exit status.
fn carry_out<R: Input + Print + Eprint + Env + Net + Files + Clock + AllocGlobal>(
    rt: &R,
    options: &Options<'_>,
    is_terminal: bool,
) -> Result<u8, Failure> {
    let address = given(rt, options.address, ADDRESS_VARIABLE)?;
    let key_file = given(rt, options.key_file, KEY_FILE_VARIABLE)?;
    let context = Context {
        address: address.as_str(),
        key_file: key_file.as_str(),
        file: options.asked.file,
        json: options.asked.json,
        is_terminal,
    };
    let mut note = None;
    match answer(rt, &options.asked, &context, &mut note) {
        Ok(()) => Ok(0),
        Err(failure) => Ok(failure.report(rt, &context, &note)),
    }
}

fn run<R: Input + Print + Eprint + Env + Net + Files + Clock + AllocGlobal>(
    rt: &R,
    is_terminal: bool,
) -> Result<u8, Failure> {
    let words = read_words(rt).map_err(Failure::of_words)?;
    match read_options(rt.alloc(), words.as_slice()) {
        Ok(options) => carry_out(rt, &options, is_terminal),
        Err(fault) => Ok(fault.report(rt)),
    }
}

fn main(rt: HostRuntime) -> ExitCode {
    let is_terminal = rt.stderr().is_terminal();
    match run(&rt, is_terminal) {
        Ok(status) => ExitCode::from(status),
        Err(failure) => ExitCode::from(failure.report(&rt, &Context::NONE, &None)),
    }
}
