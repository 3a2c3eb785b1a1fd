//! The program `path_server`: answers what its command line asks for on the standard streams or over sockets, and ends with a status.
#![tactic(auto)]

mod factor;
mod introduction;
mod key_file;
mod many;
mod named_keys;

use command_words::read_words;
use log_lines::EndLines;
use many::print_address;
use named_keys::keys_of_word;
use path_hub::Hub;
use path_server::{QueryStreamFault, TEXT_LIMIT, call_stream, query_to, read_call, replay_stream};
use server_arguments::{Failure, Request, read_request};
use socket_wire::{StreamListener, StreamWire, serve_streams};
use standard_streams::read_past;
use std::io;
use std::io::IsTerminal;
use std::net::{Net, OpenListener, OpenStream, TcpListener, TcpStream};
use std::process::ExitCode;
use std::rt::{Clock, Env, Files};

// Answers `path_server query QUERY`. Where standard error is a terminal, the line of a place is shown.
fn query<R: Input + Print + AllocGlobal>(
    rt: &R,
    query: &str,
    is_terminal: bool,
) -> Result<(), Failure> {
    let (alloc, query) = (rt.alloc(), query.as_bytes());
    let text = match read_past(alloc, rt.reader(), TEXT_LIMIT as u64) {
        Ok(text) => text,
        Err(fault) => return Err(Failure::Query(QueryStreamFault::Read(fault))),
    };
    let text = text.as_slice();
    match query_to(alloc, query, text, &mut io::writer(rt)) {
        Ok(()) => Ok(()),
        Err(fault) => Err(Failure::of_query(alloc, query, text, fault, is_terminal)),
    }
}

// Answers `path_server replay KEYS`.
fn replay<R: Input + Print + AllocGlobal>(rt: &R, keys: &str) -> Result<(), Failure> {
    let keys = keys_of_word(rt.alloc(), keys)?;
    let keys = keys.as_slice();
    match replay_stream(rt.alloc(), keys, rt.reader(), &mut io::writer(rt)) {
        Ok(()) => Ok(()),
        Err(fault) => Err(Failure::of_replay(keys, fault)),
    }
}

// Answers `path_server serve ADDR KEYS COUNT`.
fn serve<R: Print + Eprint + Net + AllocGlobal>(
    rt: &R,
    address: &str,
    keys: &str,
    count: u32,
) -> Result<(), Failure> {
    let keys = keys_of_word(rt.alloc(), keys)?;
    serve_keys(rt, address, keys.as_slice(), count)
}

// Serves tenants of these keys.
fn serve_keys<R: Print + Eprint + Net + AllocGlobal>(
    rt: &R,
    address: &str,
    keys: &[[u8; 16]],
    count: u32,
) -> Result<(), Failure> {
    let mut hub = match Hub::new(rt.alloc(), keys) {
        Ok(hub) => hub,
        Err(fault) => return Err(Failure::of_tenants(keys, fault)),
    };
    let listener = listen(rt, address)?;
    match serve_streams(
        rt.alloc(),
        &mut hub,
        &mut StreamListener::new(&listener),
        count,
        &mut EndLines::new(rt),
    ) {
        Ok(()) => Ok(()),
        Err(fault) => Err(Failure::of_address(rt.alloc(), address, fault.0)),
    }
}

// Binds the address, and prints the one that is bound.
fn listen<R: Print + Net + AllocGlobal>(rt: &R, address: &str) -> Result<R::Listener, Failure> {
    match TcpListener::bind(rt, address) {
        Ok(listener) => match tell_address(rt, address, &listener) {
            Ok(()) => Ok(listener),
            Err(failure) => Err(failure),
        },
        Err(error) => Err(Failure::of_address(rt.alloc(), address, error.kind())),
    }
}

// Prints the address that is bound.
fn tell_address<R: Print + Net + AllocGlobal>(
    rt: &R,
    address: &str,
    listener: &R::Listener,
) -> Result<(), Failure> {
    match listener.local_addr() {
        Ok(bound) => print_address(rt, "listening", &bound),
        Err(error) => Err(Failure::of_address(rt.alloc(), address, error.kind())),
    }
}

// Answers `path_server call ADDR`.
fn call<R: Input + Print + Net + AllocGlobal>(rt: &R, address: &str) -> Result<(), Failure> {
    match read_call(rt.alloc(), rt.reader()) {
        Ok(lines) => call_at(rt, address, lines.as_slice()),
        Err(fault) => Err(Failure::Read(fault)),
    }
}

// Sends the requests of these lines to the server at an address.
fn call_at<R: Print + Net + AllocGlobal>(
    rt: &R,
    address: &str,
    lines: &[u8],
) -> Result<(), Failure> {
    let stream = match TcpStream::connect(rt, address) {
        Ok(stream) => stream,
        Err(error) => return Err(Failure::of_address(rt.alloc(), address, error.kind())),
    };
    // without it no reply is wrong, and some come later
    let _ = stream.set_nodelay(true);
    match call_stream(
        rt.alloc(),
        &mut StreamWire::new(stream),
        lines,
        &mut io::writer(rt),
    ) {
        Ok(()) => Ok(()),
        Err(fault) => Err(Failure::of_call(rt.alloc(), address, fault)),
    }
}

// Answers what these words of the command line ask for.
fn answer<R: Input + Print + Eprint + Env + Net + Files + Clock + AllocGlobal, P: Print + Drop>(
    rt: &R,
    errors: P,
    is_terminal: bool,
    words: &[String],
) -> Result<(), Failure> {
    match read_request(rt.alloc(), words)? {
        Request::Query(text) => query(rt, text, is_terminal),
        Request::Replay(keys) => replay(rt, keys),
        Request::Serve {
            address,
            keys,
            count,
        } => serve(rt, address, keys, count),
        Request::Listen(wanted) => many::listen(rt, errors, &wanted),
        Request::Call(address) => call(rt, address),
    }
}

fn run<R: Input + Print + Eprint + Env + Net + Files + Clock + AllocGlobal, P: Print + Drop>(
    rt: &R,
    errors: P,
    is_terminal: bool,
) -> Result<(), Failure> {
    match read_words(rt) {
        Ok(words) => answer(rt, errors, is_terminal, words.as_slice()),
        Err(fault) => Err(Failure::of_words(fault)),
    }
}

fn main(rt: HostRuntime) -> ExitCode {
    let is_terminal = rt.stderr().is_terminal();
    match run(&rt, rt.stderr(), is_terminal) {
        Ok(()) => ExitCode::SUCCESS,
        Err(failure) => ExitCode::from(failure.report(&rt)),
    }
}
