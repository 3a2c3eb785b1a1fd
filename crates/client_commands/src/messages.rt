//! The message of a failure: its name, and what to do about it.

use crate::failure::Failure;
use crate::notes::{JsonFault, Note};
use crate::statuses::refusal;
use client_frames::{AnswerFault, SendFault};
use client_lines::KeyFault;
use std::fmt;
use std::io::ErrorKind;

/// The status of a tenant that the server does not know.
const NO_TENANT: u8 = 2;

/// The status of a text above its limit.
const TOO_LONG: u8 = 5;

/// The status of a query above its limit.
const QUERY_TOO_LONG: u8 = 16;

/// What a message may name: the server's address, the key file and the file that is read.
#[derive(Clone, Copy)]
pub struct Context<'a> {
    pub address: &'a str,
    pub key_file: &'a str,
    pub file: Option<&'a str>,
    /// Whether a message is an object of JSON.
    pub json: bool,
    /// Whether standard error is a terminal.
    pub is_terminal: bool,
}

impl<'a> Context<'a> {
    /// Before the command line is read.
    pub const NONE: Context<'static> = Context {
        address: "",
        key_file: "",
        file: None,
        json: false,
        is_terminal: false,
    };
}

/// Prints what happened to standard error: a line with the failure's name, and what is known besides on the lines behind it. If the output was
/// closed, nothing is printed.
pub fn tell_failure<R: Eprint>(
    rt: &R,
    failure: Failure,
    context: &Context<'_>,
    note: &Option<Note>,
) {
    if let Failure::Closed = failure {
        return;
    }
    let (name, what) = message(failure);
    let told = Report {
        name,
        what,
        about: about(failure, context),
        cause: cause_of(failure, context),
    };
    let _ = if context.json {
        eprintln!(rt; "{}", JsonFault { told, note })
    } else {
        eprintln!(rt; "path_client: {told}{}", Behind(note))
    };
}

/// What is said of a failure: its name, what is to be done, what it is about, and what failed and why.
#[derive(Clone, Copy)]
pub struct Report<'a> {
    pub name: &'static str,
    pub what: &'static str,
    pub about: &'a str,
    pub cause: Option<Cause<'a>>,
}

impl<'a> fmt::Display for Report<'a> {
    fn fmt<W: fmt::Write>(&self, f: &mut fmt::Formatter<W>) -> fmt::Result {
        write!(f, "{}: {}{}", self.name, self.what, self.about)?;
        match self.cause {
            Some(cause) => write!(f, "\n{cause}"),
            None => Ok(()),
        }
    }
}

/// What failed, and why.
#[derive(Clone, Copy)]
pub enum Cause<'a> {
    /// The file or the address that the system refused, and its reason.
    System { of: &'a str, reason: ErrorKind },
    /// The word of the command line that is not UTF-8, by its number.
    Word(usize),
    /// The variable of the environment that is not UTF-8, by its name.
    Variable(&'a str),
}

impl<'a> fmt::Display for Cause<'a> {
    fn fmt<W: fmt::Write>(&self, f: &mut fmt::Formatter<W>) -> fmt::Result {
        match self {
            Cause::System { of, reason } => write!(f, "{of}: {reason}"),
            Cause::Word(number) => write!(f, "word {number} is not UTF-8"),
            Cause::Variable(name) => write!(f, "{name} is not UTF-8"),
        }
    }
}

// The lines of a note behind the first line.
#[derive(Clone, Copy)]
struct Behind<'a>(&'a Option<Note>);

impl<'a> fmt::Display for Behind<'a> {
    fn fmt<W: fmt::Write>(&self, f: &mut fmt::Formatter<W>) -> fmt::Result {
        match self.0 {
            Some(note) => write!(f, "\n{}", note.lines),
            None => Ok(()),
        }
    }
}

// What failed, and why, where that is known.
fn cause_of<'a>(failure: Failure, context: &Context<'a>) -> Option<Cause<'a>> {
    let (of, reason) = match failure {
        Failure::Word(number) => return Some(Cause::Word(number)),
        Failure::Variable(name) => return Some(Cause::Variable(name)),
        Failure::KeyFileUnread(reason) => (context.key_file, reason),
        Failure::Read(reason) => (context.file.unwrap_or("standard input"), reason),
        Failure::Write(reason) => ("standard output", reason),
        Failure::NoRandom(reason) => ("/dev/urandom", reason),
        Failure::NoHost(reason) | Failure::NoServer(reason) => (context.address, reason),
        Failure::Unsent(reason) | Failure::Broken(reason) => (context.address, reason),
        _ => return None,
    };
    Some(Cause::System { of, reason })
}

// The failure's name, and what is to be done.
fn message(failure: Failure) -> (&'static str, &'static str) {
    match failure {
        Failure::KeyFile(fault) => of_key(fault),
        Failure::Send(SendFault::TextTooLong) => refusal(TOO_LONG),
        Failure::Send(SendFault::QueryTooLong) => refusal(QUERY_TOO_LONG),
        Failure::Refused(status) => refusal(status),
        Failure::NoAnswer(AnswerFault::FrameFault) => (
            "FrameFault",
            "the server could not read the request: ",
        ),
        Failure::NoAnswer(_) => of_ends(Failure::NoReply),
        _ => of_words(failure),
    }
}

fn of_key(fault: KeyFault) -> (&'static str, &'static str) {
    match fault {
        KeyFault::NoKey => (
            "NoKey",
            "path_client new-key makes a key for the empty file ",
        ),
        KeyFault::SeveralKeys => (
            "SeveralKeys",
            "a client uses one key: make a file with one of the keys in ",
        ),
        KeyFault::BadKey => (
            "BadKey",
            "a key has 32 hexadecimal digits, unlike the one in ",
        ),
    }
}

// Of the words of the command line and of the environment.
fn of_words(failure: Failure) -> (&'static str, &'static str) {
    match failure {
        Failure::Word(_) | Failure::Variable(_) | Failure::Words => (
            "BadCommandLine",
            "an argument or an environment variable is not UTF-8",
        ),
        Failure::AddressMissing => (
            "NoAddress",
            "give the server's address by --at ADDR or PATH_SERVER_AT",
        ),
        Failure::NoAddress => (
            "NoAddress",
            "an address is a host, a colon and a port, not ",
        ),
        Failure::Timeout => (
            "BadCommandLine",
            "--timeout takes seconds from 0.001 to 86400, such as 1.5",
        ),
        Failure::NoKeyFile => (
            "NoKeyFile",
            "give the file with the tenant's key by --key-file FILE or PATH_SERVER_KEY_FILE",
        ),
        Failure::KeyFileUnread(_) => ("ReadFault", "cannot read the key file "),
        Failure::CollectionName => (
            "BadName",
            "a collection's name has 1 to 64 ASCII letters, digits, '.', '-' or '_'",
        ),
        Failure::DocumentName => (
            "BadName",
            "a document's name has 1 to 128 ASCII letters, digits, '.', '-' or '_'",
        ),
        Failure::NameQuery => ("NameQuery", "--name takes a singular query, such as $.id"),
        _ => of_ends(failure),
    }
}

// Of the server, the streams and memory.
fn of_ends(failure: Failure) -> (&'static str, &'static str) {
    match failure {
        Failure::SomeRefused => ("Refused", "the lines above were not stored"),
        Failure::NoHost(_) => ("NetFault", "no address of the host is known: "),
        Failure::NoServer(_) => ("NetFault", "no server answers at "),
        Failure::Unsent(_) => (
            "WriteFault",
            "the connection broke, but the request may have been carried out: ",
        ),
        Failure::Ended => (
            "ReadFault",
            "the server closed the connection, but the request may have been carried out: ",
        ),
        Failure::TimedOut => (
            "Timeout",
            "the server did not answer in time and may still carry out the request: ",
        ),
        Failure::Broken(_) => (
            "ReadFault",
            "the connection broke, but the request may have been carried out: ",
        ),
        Failure::NoReply => ("NoReply", "this is not the answer of a path_server: "),
        Failure::NoRandom(_) => ("ReadFault", "cannot read random bytes from /dev/urandom"),
        Failure::Read(_) => ("ReadFault", "cannot read the input"),
        Failure::Write(_) => ("WriteFault", "cannot write the output"),
        _ => ("NoMemory", "path_client ran out of memory"),
    }
}

// The file or the address that a failure is about, or nothing.
fn about<'a>(failure: Failure, context: &Context<'a>) -> &'a str {
    match failure {
        Failure::KeyFileUnread(_) | Failure::KeyFile(_) | Failure::Refused(NO_TENANT) =>
            context.key_file,
        Failure::NoAddress | Failure::NoHost(_) | Failure::NoServer(_) => context.address,
        Failure::NoReply | Failure::NoAnswer(_) | Failure::Unsent(_) => context.address,
        Failure::Ended | Failure::TimedOut | Failure::Broken(_) => context.address,
        _ => "",
    }
}
