//! A server of many connections at once.

ghost use Rattle.std.specs.Prelude.{◌≡◌};
ghost use Rattle.server_arguments.specs.Statuses.{status_of};

use crate::factor::factor_of;
use crate::introduction::about;
use crate::key_file::read_key_file;
use crate::named_keys::{NamedKeys, keys_of_word};
use event_loop::{Gate, Limits, LoopCore, LoopFault, Server, Since, Sockets, Totals};
use hub_core::HubCore;
use hub_server::MeasuredHub;
use log_lines::LoopLines;
use path_hub::Hub;
use server_arguments::{Failure, Listening};
use standard_streams::WriteFault;
use std::alloc::{AllocError, Global};
use std::io::ErrorKind;
use std::net::{Net, SocketAddr, ToSocketAddrs};
use std::rt::{Clock, Env, Files};

/// A server of this core at an address.
type Bound<'r, R, C> = Server<Sockets, C, Since<'r, R>>;

/// The descriptor of standard error.
const STANDARD_ERROR: i32 = 2;

/// Answers `path_server listen`, with lines on this standard error.
pub fn listen<R: Print + Env + Net + Files + Clock + AllocGlobal, P: Print + Drop>(
    rt: &R,
    errors: P,
    wanted: &Listening<'_>,
) -> Result<(), Failure> {
    let keys = keys_of(rt, wanted)?;
    serve(rt, errors, wanted, &keys)
}

// Serves tenants of these keys.
fn serve<R: Print + Env + Net + Clock + AllocGlobal, P: Print + Drop>(
    rt: &R,
    errors: P,
    wanted: &Listening<'_>,
    keys: &NamedKeys,
) -> Result<(), Failure> {
    let mut server = bind(rt, wanted, keys.keys.as_slice())?;
    serve_at(rt, errors, wanted, keys, &mut *server)
}

// Serves at an address that is bound.
fn serve_at<'r, R: Print + Env + Net + Clock + AllocGlobal, P: Print + Drop>(
    rt: &'r R,
    errors: P,
    wanted: &Listening<'_>,
    keys: &NamedKeys,
    server: &mut Bound<'r, R, MeasuredHub>,
) -> Result<(), Failure> {
    let administration = administer(rt, wanted, server, keys)?;
    match lines(rt, errors, wanted, keys) {
        Ok(mut lines) => run(rt, wanted, administration, server, &mut lines),
        Err(AllocError) => Err(Failure::Memory),
    }
}

// Prints the addresses, serves until the end, and prints what was served.
fn run<'r, R: Print + Net + Clock + AllocGlobal, P: Print + Drop>(
    rt: &'r R,
    wanted: &Listening<'_>,
    administration: Option<SocketAddr>,
    server: &mut Bound<'r, R, MeasuredHub>,
    lines: &mut LoopLines<'r, R, P>,
) -> Result<(), Failure> {
    tell_addresses(rt, wanted, administration, server)?;
    match hub_server::serve(server, lines) {
        Ok(()) => end(rt, &server.totals()),
        Err(fault) => Err(failure_of(rt.alloc(), wanted.address, fault)),
    }
}

// Prints the lines with the bound addresses.
fn tell_addresses<R: Print + Net + Clock + AllocGlobal, C: LoopCore>(
    rt: &R,
    wanted: &Listening<'_>,
    administration: Option<SocketAddr>,
    server: &Bound<'_, R, C>,
) -> Result<(), Failure> {
    match server.local_addr() {
        Ok(bound) => print_address(rt, "listening", &bound)?,
        Err(fault) => return Err(failure_of(rt.alloc(), wanted.address, fault)),
    }
    match administration {
        Some(bound) => print_address(rt, "administration", &bound),
        None => Ok(()),
    }
}

// Binds the administration address, where there is one.
fn administer<'r, R: Env + Net + Clock + AllocGlobal, C: LoopCore>(
    rt: &'r R,
    wanted: &Listening<'_>,
    server: &mut Bound<'r, R, C>,
    keys: &NamedKeys,
) -> Result<Option<SocketAddr>, Failure> {
    match wanted.admin {
        Some(address) => administer_at(rt, address, wanted, server, keys),
        None => Ok(None),
    }
}

// Binds this administration address.
fn administer_at<'r, R: Env + Net + Clock + AllocGlobal, C: LoopCore>(
    rt: &'r R,
    address: &str,
    wanted: &Listening<'_>,
    server: &mut Bound<'r, R, C>,
    keys: &NamedKeys,
) -> Result<Option<SocketAddr>, Failure> {
    let addr = address_of(rt, address)?;
    match introduce(rt, addr, wanted, server, keys) {
        Ok(bound) => Ok(Some(bound)),
        Err(fault) => Err(failure_of(rt.alloc(), address, fault)),
    }
}

// Binds an administration address, and tells the server what it is.
fn introduce<'r, R: Env + Net + Clock + AllocGlobal, C: LoopCore>(
    rt: &'r R,
    addr: SocketAddr,
    wanted: &Listening<'_>,
    server: &mut Bound<'r, R, C>,
    keys: &NamedKeys,
) -> Result<SocketAddr, LoopFault> {
    let about = about(rt, wanted.admin_hosts.as_slice(), keys)?;
    server.administer(rt, addr, keys.keys.clone()?, about)
}

/// Prints a line with an address that is bound.
pub fn print_address<R: Print>(rt: &R, what: &str, bound: &SocketAddr) -> Result<(), Failure> {
    match println!(rt; "{what} {bound}") {
        Ok(()) => Ok(()),
        Err(error) => Err(Failure::Write(WriteFault(error.kind()))),
    }
}

// The lines on standard error.
fn lines<'r, R: Net + Clock + AllocGlobal, P: Print + Drop>(
    rt: &'r R,
    errors: P,
    wanted: &Listening<'_>,
    keys: &NamedKeys,
) -> Result<LoopLines<'r, R, P>, AllocError> {
    let names = keys.names.clone()?;
    let gate = Gate::new(rt, rt.alloc(), STANDARD_ERROR)?;
    Ok(LoopLines::new(rt, rt.alloc(), errors, gate, wanted.log, names))
}

// Prints what was served.
fn end<R: Print>(rt: &R, totals: &Totals) -> Result<(), Failure> {
    let (connections, requests) = (totals.connections, totals.counts.requests);
    match println!(rt; "served {connections} connections, {requests} requests") {
        Ok(()) => Ok(()),
        Err(error) => Err(Failure::Write(WriteFault(error.kind()))),
    }
}

// What the end of a server of many connections means that came early.
fn failure_of(alloc: Global, address: &str, fault: LoopFault) -> Failure
    ensures { status_of result ≡ 4 }
{
    match fault {
        LoopFault::Net(reason) => Failure::of_address(alloc, address, reason),
        LoopFault::Memory => Failure::Memory,
    }
}

// A server at the first address of those that the command line names.
fn bind<'r, R: Net + Clock + AllocGlobal>(
    rt: &'r R,
    wanted: &Listening<'_>,
    keys: &[[u8; 16]],
) -> Result<Box<Bound<'r, R, MeasuredHub>>, Failure> {
    let addr = address_of(rt, wanted.address)?;
    let core = core_of(rt, wanted, keys)?;
    bind_at(rt, wanted, addr, core)
}

// A server of a core at this address.
fn bind_at<'r, R: Net + Clock + AllocGlobal, C: LoopCore>(
    rt: &'r R,
    wanted: &Listening<'_>,
    addr: SocketAddr,
    core: C,
) -> Result<Box<Bound<'r, R, C>>, Failure> {
    match Server::bind(rt, addr, core, limits_of(wanted)) {
        Ok(server) => boxed(rt.alloc(), server).map_err(|_| Failure::Memory),
        Err(fault) => Err(failure_of(rt.alloc(), wanted.address, fault)),
    }
}

fn boxed<T: Drop>(alloc: Global, value: T) -> Result<Box<T>, AllocError> {
    let value = Box::new(alloc, value)?;
    Ok(value)
}

// The hub of these keys.
fn core_of<R: AllocGlobal>(
    rt: &R,
    wanted: &Listening<'_>,
    keys: &[[u8; 16]],
) -> Result<MeasuredHub, Failure> {
    match Hub::new(rt.alloc(), keys) {
        Ok(hub) => Ok(measured(rt.alloc(), wanted, hub, factor_of(keys))),
        Err(fault) => Err(Failure::of_tenants(keys, fault)),
    }
}

// A core of this hub. Where somebody is told of it, slow queries are counted and told.
fn measured(alloc: Global, wanted: &Listening<'_>, hub: Hub, factor: u64) -> MeasuredHub {
    let mut core = MeasuredHub::new(HubCore::new(alloc, hub, factor));
    if wanted.log || wanted.admin.is_some() {
        core.tell_slow(u64::from(wanted.slow) * 1_000);
    }
    core
}

// The first address that a text names.
fn address_of<R: Net + AllocGlobal>(rt: &R, text: &str) -> Result<SocketAddr, Failure> {
    match first_address(rt, text) {
        Ok(addr) => Ok(addr),
        Err(reason) => Err(Failure::of_address(rt.alloc(), text, reason)),
    }
}

fn first_address<R: Net>(rt: &R, text: &str) -> Result<SocketAddr, ErrorKind> {
    match text.to_socket_addrs(rt) {
        Ok(mut addresses) => addresses.next().ok_or(ErrorKind::AddrNotAvailable),
        Err(error) => Err(error.kind()),
    }
}

fn limits_of(wanted: &Listening<'_>) -> Limits {
    Limits {
        connections: wanted.connections,
        memory: wanted.memory,
        idle: wanted.idle,
        stall: wanted.stall,
        frame_time: wanted.frame_time,
        spare: wanted.spare,
    }
}

// The keys of the file, and then those of the command line. No two tenants have the same name.
fn keys_of<R: Files + AllocGlobal>(rt: &R, wanted: &Listening<'_>) -> Result<NamedKeys, Failure> {
    let mut keys = keys_of_file(rt, wanted.file)?;
    match add_words(rt.alloc(), wanted.keys, &mut keys) {
        Ok(()) => Ok(keys),
        Err(failure) => Err(failure),
    }
}

fn keys_of_file<R: Files + AllocGlobal>(rt: &R, file: Option<&str>) -> Result<NamedKeys, Failure> {
    match file {
        Some(path) => read_key_file(rt, path),
        None => Ok(NamedKeys::new(rt.alloc())),
    }
}

// Appends the keys of a word of the command line, and refuses names of which one stands twice. A key that does is another failure.
fn add_words(alloc: Global, word: Option<&str>, keys: &mut NamedKeys) -> Result<(), Failure> {
    if let Some(word) = word {
        add_word(alloc, word, keys)?;
    }
    match keys.repeated() {
        Some(name) => Err(repeated_name(alloc, name)),
        None => Ok(()),
    }
}

fn add_word(alloc: Global, word: &str, keys: &mut NamedKeys) -> Result<(), Failure> {
    let more = keys_of_word(alloc, word)?;
    match keys.add_all(alloc, more.as_slice()) {
        Ok(()) => Ok(()),
        Err(_) => Err(Failure::Memory),
    }
}

fn repeated_name(alloc: Global, name: &str) -> Failure {
    match String::from_str(alloc, name) {
        Ok(name) => Failure::RepeatedName(name),
        Err(_) => Failure::Memory,
    }
}
