//! Why a command fails, and its exit status.

ghost use Rattle.std.specs.Prelude.{ℕ, ◌≡◌, ◌≢◌, ◌⊎◌, ◌↔◌};
ghost use Rattle.std.specs.IoError.{error_kind};
ghost use Rattle.client_commands.specs.Statuses.{status_of, status_of_query, status_of_refusal};

use crate::messages::{Context, tell_failure};
use crate::notes::Note;
use client_frames::{AnswerFault, PayloadFault, SendFault};
use client_lines::{KeyFault, LineFault};
use command_words::WordFault;
use path_types::QueryFault;
use std::io::{self, ErrorKind};

/// Why a command fails.
#[derive(Clone, Copy)]
pub enum Failure {
    /// The word of the command line with this number is not UTF-8. The program's name has 0.
    Word(usize),
    /// The variable of the environment with this name is not UTF-8.
    Variable(&'static str),
    /// The command line lacks a word.
    Words,
    /// No address is given.
    AddressMissing,
    /// The address is not a host, a colon and a port.
    NoAddress,
    /// The time of `--timeout` is not a number of seconds within its bounds.
    Timeout,
    /// No file with a key is given.
    NoKeyFile,
    /// The file with the key could not be read.
    KeyFileUnread(ErrorKind),
    /// The file does not have exactly one key.
    KeyFile(KeyFault),
    /// A word is not the name of a collection.
    CollectionName,
    /// A word is not the name of a document.
    DocumentName,
    /// The text or the query is above its limit.
    Send(SendFault),
    /// The query of `--name` is not a singular query.
    NameQuery,
    /// The server refused the request, with this status.
    Refused(u8),
    /// Some of the documents were refused.
    SomeRefused,
    /// The host has no address.
    NoHost(ErrorKind),
    /// No connection could be opened.
    NoServer(ErrorKind),
    /// The connection broke while the request was sent.
    Unsent(ErrorKind),
    /// The server closed the connection before its reply.
    Ended,
    /// No byte came within the timeout.
    TimedOut,
    /// The connection broke.
    Broken(ErrorKind),
    /// The bytes that came are not a reply.
    NoReply,
    /// The reply has the wrong number, or says that the server could not read the request.
    NoAnswer(AnswerFault),
    /// Random bytes could not be read.
    NoRandom(ErrorKind),
    /// The input could not be read.
    Read(ErrorKind),
    /// The output could not be written.
    Write(ErrorKind),
    /// Whoever read the output closed it, which is no fault.
    Closed,
    /// An allocation failed.
    Memory,
}

impl Failure {
    /// The failure of a payload that could not be read.
    pub fn of_payload(fault: PayloadFault) -> Failure
        ensures memory { (result ≡ Failure.Memory) ↔ (fault ≡ PayloadFault.Memory) }
        ensures other { (result ≡ Failure.NoReply) ↔ (fault ≡ PayloadFault.NoPayload) }
        ensures status { status_of result ≡ 4 }
    {
        match fault {
            PayloadFault::NoPayload => Failure::NoReply,
            PayloadFault::Memory => Failure::Memory,
        }
    }

    /// The failure of a line that could not be written from a reply.
    pub fn of_line(fault: LineFault) -> Failure
        ensures memory { (result ≡ Failure.Memory) ↔ (fault ≡ LineFault.Memory) }
        ensures other { (result ≡ Failure.NoReply) ↔ (fault ≢ LineFault.Memory) }
        ensures status { status_of result ≡ 4 }
    {
        match fault {
            LineFault::Memory => Failure::Memory,
            _ => Failure::NoReply,
        }
    }

    /// The failure of a query that is refused here, as a server would.
    pub fn of_query(fault: QueryFault) -> Failure
        ensures memory { (result ≡ Failure.Memory) ↔ (fault ≡ QueryFault.Memory) }
        ensures refused { (fault ≢ QueryFault.Memory) → result ≡ Failure.Refused (status_of_query fault) }
    {
        match fault {
            QueryFault::QueryTooLong => Failure::Refused(16),
            QueryFault::NotWellFormed => Failure::Refused(17),
            QueryFault::NotValid => Failure::Refused(18),
            QueryFault::Memory => Failure::Memory,
        }
    }

    /// The failure of a query's lines on one document.
    pub fn of_answer(fault: LineFault) -> Failure
        ensures memory { (result ≡ Failure.Memory) ↔ (fault ≡ LineFault.Memory) }
        ensures costly { (result ≡ Failure.Refused 22) ↔ (fault ≡ LineFault.Costly) }
        ensures other { (result ≡ Failure.NoReply) ↔ ((fault ≢ LineFault.Memory) × (fault ≢ LineFault.Costly)) }
        ensures status { (fault ≢ LineFault.Costly) → status_of result ≡ 4 }
    {
        match fault {
            LineFault::Costly => Failure::Refused(22),
            _ => Failure::of_line(fault),
        }
    }

    /// The failure of a command line whose words could not be read.
    pub fn of_words(fault: WordFault) -> Failure
        ensures memory { (result ≡ Failure.Memory) ↔ (fault ≡ WordFault.Memory) }
        ensures word { (number : ℕ) → (result ≡ Failure.Word number) ↔ (fault ≡ WordFault.NotUtf8 number) }
    {
        match fault {
            WordFault::NotUtf8(number) => Failure::Word(number),
            WordFault::Memory => Failure::Memory,
        }
    }

    /// The failure of an input that could not be read.
    pub fn of_input(error: &io::Error) -> Failure
        ensures memory { (result ≡ Failure.Memory) ↔ (error_kind error.now ≡ ErrorKind.OutOfMemory) }
        ensures other { (error_kind error.now ≢ ErrorKind.OutOfMemory) → result ≡ Failure.Read (error_kind error.now) }
        ensures status { status_of result ≡ 4 }
    {
        match error.kind() {
            ErrorKind::OutOfMemory => Failure::Memory,
            kind => Failure::Read(kind),
        }
    }

    /// The failure of a connection that could not be read.
    pub fn of_read(error: &io::Error) -> Failure
        ensures timeout { (result ≡ Failure.TimedOut) ↔ ((error_kind error.now ≡ ErrorKind.WouldBlock) ⊎ (error_kind error.now ≡ ErrorKind.TimedOut)) }
        ensures other { (error_kind error.now ≢ ErrorKind.WouldBlock) → (error_kind error.now ≢ ErrorKind.TimedOut) → result ≡ Failure.Broken (error_kind error.now) }
        ensures status { status_of result ≡ 4 }
    {
        match error.kind() {
            ErrorKind::WouldBlock | ErrorKind::TimedOut => Failure::TimedOut,
            kind => Failure::Broken(kind),
        }
    }

    /// The exit status.
    pub fn status(self) -> u8
        ensures { result ≡ status_of self }
    {
        match self {
            Failure::Word(_) | Failure::Variable(_) | Failure::Words => 3,
            Failure::AddressMissing | Failure::NoAddress | Failure::NoKeyFile => 3,
            Failure::KeyFileUnread(_) | Failure::KeyFile(_) | Failure::Timeout => 3,
            Failure::CollectionName | Failure::DocumentName | Failure::NameQuery => 3,
            Failure::Send(SendFault::TextTooLong) => 1,
            Failure::Send(SendFault::QueryTooLong) => 2,
            Failure::Refused(status) => status_of_refusal(status),
            Failure::SomeRefused => 1,
            Failure::Closed => 0,
            _ => 4,
        }
    }

    /// The failure of an output that could not be written.
    pub fn of_output(error: &io::Error) -> Failure
        ensures closed { (result ≡ Failure.Closed) ↔ (error_kind error.now ≡ ErrorKind.BrokenPipe) }
        ensures other { (error_kind error.now ≢ ErrorKind.BrokenPipe) → result ≡ Failure.Write (error_kind error.now) }
        ensures status { (error_kind error.now ≢ ErrorKind.BrokenPipe) → status_of result ≡ 4 }
    {
        match error.kind() {
            ErrorKind::BrokenPipe => Failure::Closed,
            kind => Failure::Write(kind),
        }
    }

    /// Prints the message to standard error, with what is noted of the place of a refusal, and gives the exit status.
    pub fn report<R: Eprint>(self, rt: &R, context: &Context<'_>, note: &Option<Note>) -> u8
        ensures { result ≡ status_of self }
    {
        tell_failure(rt, self, context, note);
        self.status()
    }
}

// 2 if the query is refused, 1 otherwise.
fn status_of_refusal(status: u8) -> u8
    ensures { result ≡ status_of_refusal status }
{
    match status {
        16..=18 | 22 => 2,
        _ => 1,
    }
}
