//! Why the program fails, and its exit status.

ghost use Rattle.std.specs.Prelude.{ℕ, ◌≡◌, ◌≢◌, ◌+◌, ◌≤◌, ◌⊎◌, ◌↔◌, IsTrue, length, IfSome};
ghost use Rattle.std.specs.IoError.{error_kind};
ghost use Rattle.clap.specs.Values.{kind_of};
ghost use Rattle.server_arguments.specs.Causes.{AreDigits, IsBrokenOff, IsFirstBad, IsKeyAt, IsOfAddress, IsOfCall, IsOfFile, IsOfKeys, IsOfQuery, IsOfTenants, AreEqual};
ghost use Rattle.server_arguments.specs.Statuses.{status_of, status_of_refusal, status_of_query, status_of_keys, status_of_tenants, status_of_script, status_of_replay, status_of_call, status_of_call_stream, status_of_kind};

use clap::error::ErrorKind as ParseKind;
use command_words::WordFault;
use json_text::TextFault;
use path_server::{
    CallFault, CallStreamFault, KeysFault, QueryStreamFault, QueryTextFault, ReplayStreamFault,
    ScriptFault,
};
use query_faults::Refusal;
use standard_streams::{ReadFault, WriteFault};
use std::alloc::{AllocError, Global};
use std::fmt;
use std::io::{self, ErrorKind};
use tenant_map::TenantsFault;

/// Why the program ends early.
#[derive(Drop)]
pub enum Failure {
    /// The command line is invalid, or asks for help or the version.
    CommandLine(clap::Error),
    /// The word of the command line with this number is not UTF-8. The program's name has 0.
    Word(usize),
    /// The command line lacks a word.
    Words,
    /// The value of an option is not what this says.
    Value(&'static str),
    /// The query on the text on standard input was not answered.
    Query(QueryStreamFault),
    /// The query on the text on standard input was refused, with what is said of the place.
    Refused(RefusedAt),
    /// The keys are not in their written form.
    Keys(KeysFault),
    /// The script on standard input was not replayed.
    Replay(ReplayStreamFault),
    /// The keys are refused: none, too many, or one key twice.
    Tenants(TenantsFault),
    /// A key stands twice: the numbers of the second and of the first, from 1 on.
    RepeatedKey(u64, u64),
    /// The address is invalid, or could not be bound or connected to, or a connection could not be accepted.
    Net,
    /// The address was not bound or connected to, with it and the system's reason.
    Address(AddressFault),
    /// The key with this number on the command line, from 1 on, is not in its written form.
    Key(u64),
    /// A line of the key file is not in the written form of keys.
    KeyLine(KeyLine),
    /// A file could not be read.
    File(FileFault),
    /// Two tenants have the same name.
    RepeatedName(String),
    /// The line with the bound address could not be printed.
    Write(WriteFault),
    /// The request frames on standard input could not be read.
    Read(ReadFault),
    /// The request frames were not answered.
    Call(CallStreamFault),
    /// The request frames were not answered, with the address of the server whose connection broke.
    Broken(BrokenCall),
    /// An allocation failed.
    Memory,
}

/// An address, and why the system refused it.
#[derive(Drop)]
pub struct AddressFault {
    pub address: String,
    pub reason: ErrorKind,
}

impl fmt::Display for AddressFault {
    fn fmt<W: fmt::Write>(&self, f: &mut fmt::Formatter<W>) -> fmt::Result {
        write!(f, "{}: {}", self.address, self.reason)
    }
}

/// A file, and why the system did not read it.
#[derive(Drop)]
pub struct FileFault {
    pub file: String,
    pub reason: ErrorKind,
}

impl fmt::Display for FileFault {
    fn fmt<W: fmt::Write>(&self, f: &mut fmt::Formatter<W>) -> fmt::Result {
        write!(f, "{}: {}", self.file, self.reason)
    }
}

/// A refusal of a text or a query, and what is said of its place.
#[derive(Drop)]
pub struct RefusedAt {
    pub fault: QueryTextFault,
    pub told: String,
}

impl fmt::Display for RefusedAt {
    fn fmt<W: fmt::Write>(&self, f: &mut fmt::Formatter<W>) -> fmt::Result {
        write!(f, "{}\n{}", self.fault, self.told)
    }
}

/// A call that was not answered, and the address of its server.
#[derive(Drop)]
pub struct BrokenCall {
    pub fault: CallStreamFault,
    pub address: String,
}

impl fmt::Display for BrokenCall {
    fn fmt<W: fmt::Write>(&self, f: &mut fmt::Formatter<W>) -> fmt::Result {
        let what = match self.fault {
            CallStreamFault::Call(CallFault::WriteFault)
            | CallStreamFault::Unwritten(CallFault::WriteFault) => "a request was not sent whole",
            _ => "a reply did not come whole",
        };
        write!(f, "{}\n{}: {what}", self.fault, self.address)
    }
}

/// A line of a file, numbered from 1.
#[derive(Drop)]
pub struct KeyLine {
    pub file: String,
    pub number: u64,
}

impl fmt::Display for KeyLine {
    fn fmt<W: fmt::Write>(&self, f: &mut fmt::Formatter<W>) -> fmt::Result {
        write!(f, "{}: line {}", self.file, self.number)
    }
}

impl Failure {
    /// The failure of a command line that did not parse.
    pub fn of_command_line(error: clap::Error) -> Failure
        ensures memory { (result ≡ Failure.Memory) ↔ (kind_of error ≡ ParseKind.OutOfMemory) }
        ensures other { (kind_of error ≢ ParseKind.OutOfMemory) → result ≡ Failure.CommandLine error }
        ensures status { status_of result ≡ status_of_kind (kind_of error) }
    {
        match error.kind() {
            ParseKind::OutOfMemory => Failure::Memory,
            _ => Failure::CommandLine(error),
        }
    }

    /// The failure of a command line whose words could not be read.
    pub fn of_words(fault: WordFault) -> Failure
        ensures memory { (result ≡ Failure.Memory) ↔ (fault ≡ WordFault.Memory) }
        ensures word { (number : ℕ) → (result ≡ Failure.Word number) ↔ (fault ≡ WordFault.NotUtf8 number) }
    {
        match fault {
            WordFault::NotUtf8(number) => Failure::Word(number),
            WordFault::Memory => Failure::Memory,
        }
    }

    /// The failure of a query on a text, with the place at which either is refused, if there is one and memory for it. If `shows`, its line is shown.
    pub fn of_query(
        alloc: Global,
        query: &[u8],
        text: &[u8],
        fault: QueryStreamFault,
        shows: bool,
    ) -> Failure
        ensures cause { IsOfQuery fault result }
        ensures status { status_of result ≡ status_of_query fault }
    {
        let QueryStreamFault::Refused(refusal) = fault else {
            return Failure::Query(fault);
        };
        match told(alloc, query, text, refusal, shows) {
            Ok(told) if !told.is_empty() => Failure::Refused(RefusedAt {
                fault: refusal,
                told,
            }),
            _ => Failure::Query(fault),
        }
    }

    /// The failure of keys on the command line, with the number of the first that is not in its written form.
    pub fn of_keys(words: &str, fault: KeysFault) -> Failure
        ensures cause { IsOfKeys words.now fault result }
        ensures status { status_of result ≡ status_of_keys fault }
    {
        match fault {
            KeysFault::BadKeys => Failure::Key(bad_key(words.as_bytes())),
            KeysFault::Memory => Failure::Keys(fault),
        }
    }

    /// The failure of keys that make no tenants, with the numbers of two that are equal.
    pub fn of_tenants(keys: &[[u8; 16]], fault: TenantsFault) -> Failure
        ensures cause { IsOfTenants keys.now fault result }
        ensures status { status_of result ≡ status_of_tenants fault }
    {
        match (fault, repeated(keys)) {
            (TenantsFault::RepeatedKey, Some((n, first))) => {
                Failure::RepeatedKey(n as u64 + 1, first as u64 + 1)
            }
            _ => Failure::Tenants(fault),
        }
    }

    /// The failure of a script that was not replayed for these keys.
    pub fn of_replay(keys: &[[u8; 16]], fault: ReplayStreamFault) -> Failure
        ensures { status_of result ≡ status_of_replay fault }
    {
        match fault {
            ReplayStreamFault::Refused(ScriptFault::Keys(refused)) => {
                match Failure::of_tenants(keys, refused) {
                    Failure::Tenants(_) => Failure::Replay(fault),
                    failure => failure,
                }
            }
            _ => Failure::Replay(fault),
        }
    }

    /// The failure of an address, which is told without it where there is no memory.
    pub fn of_address(alloc: Global, address: &str, reason: ErrorKind) -> Failure
        ensures cause { IsOfAddress address.now reason result }
        ensures status { status_of result ≡ 4 }
    {
        match String::from_str(alloc, address) {
            Ok(address) => Failure::Address(AddressFault { address, reason }),
            Err(_) => Failure::Net,
        }
    }

    /// The failure of a file that could not be read.
    pub fn of_file(alloc: Global, file: &str, error: &io::Error) -> Failure
        ensures cause { IsOfFile file.now (error_kind error.now) result }
        ensures status { status_of result ≡ 4 }
    {
        let reason = error.kind();
        match (reason, String::from_str(alloc, file)) {
            (ErrorKind::OutOfMemory, _) => Failure::Memory,
            (_, Ok(file)) => Failure::File(FileFault { file, reason }),
            (_, Err(_)) => Failure::Memory,
        }
    }

    /// The failure of a call, with the address of its server if the connection broke and there is memory for it.
    pub fn of_call(alloc: Global, address: &str, fault: CallStreamFault) -> Failure
        ensures cause { IsOfCall address.now fault result }
        ensures status { status_of result ≡ status_of_call_stream fault }
    {
        if !is_broken(fault) {
            return Failure::Call(fault);
        }
        match String::from_str(alloc, address) {
            Ok(address) => Failure::Broken(BrokenCall { fault, address }),
            Err(_) => Failure::Call(fault),
        }
    }

    /// The exit status.
    pub fn status(&self) -> u8
        ensures { result ≡ status_of self.now }
    {
        match self {
            Failure::CommandLine(error) => status_at(error.kind()),
            Failure::Word(_) => 3,
            Failure::Words => 3,
            Failure::Value(_) => 3,
            Failure::Query(fault) => query_status(*fault),
            Failure::Refused(at) => refusal_status(at.fault),
            Failure::Keys(fault) => keys_status(*fault),
            Failure::Replay(fault) => replay_status(*fault),
            Failure::Tenants(fault) => tenants_status(*fault),
            Failure::RepeatedKey(..) => 3,
            Failure::Net => 4,
            Failure::Address(_) => 4,
            Failure::Key(_) => 3,
            Failure::KeyLine(_) => 3,
            Failure::File(_) => 4,
            Failure::RepeatedName(_) => 3,
            Failure::Write(_) => 4,
            Failure::Read(_) => 4,
            Failure::Call(fault) => call_stream_status(*fault),
            Failure::Broken(call) => call_stream_status(call.fault),
            Failure::Memory => 4,
        }
    }

    /// Prints help and the version to standard output, everything else to standard error, and gives the exit status. If help or the version
    /// cannot be printed, the status is that of a failed write.
    pub fn report<R: Print + Eprint>(&self, rt: &R) -> u8
        ensures { (result ≡ status_of self.now) ⊎ ((status_of self.now ≡ 0) × (result ≡ 4)) }
    {
        let status = self.status();
        if status != 0 {
            let _ = rt.eprint(self);
            return status;
        }
        match rt.print(self) {
            Ok(()) => 0,
            Err(error) => {
                let _ = eprintln!(rt; "path_server: {}", WriteFault(error.kind()));
                4
            }
        }
    }
}

impl fmt::Display for Failure {
    fn fmt<W: fmt::Write>(&self, f: &mut fmt::Formatter<W>) -> fmt::Result {
        match self {
            Failure::CommandLine(error) => write!(f, "{error}"),
            Failure::Word(number) => writeln!(
                f,
                "path_server: BadCommandLine\nword {number} is not UTF-8"
            ),
            Failure::Words => write_line(f, &"BadCommandLine"),
            Failure::Value(what) => write_about(f, "BadCommandLine", what),
            Failure::Memory => write_line(f, &"NoMemory"),
            Failure::Query(_)
            | Failure::Refused(_)
            | Failure::Replay(_)
            | Failure::Read(_)
            | Failure::Call(_)
            | Failure::Broken(_) => self.write_request(f),
            Failure::Keys(_)
            | Failure::Tenants(_)
            | Failure::RepeatedKey(..)
            | Failure::Key(_)
            | Failure::KeyLine(_)
            | Failure::RepeatedName(_) => self.write_keys(f),
            Failure::Net | Failure::Address(_) | Failure::File(_) | Failure::Write(_) => {
                self.write_system(f)
            }
        }
    }
}

impl Failure {
    // The lines of a request that was not answered.
    fn write_request<W: fmt::Write>(&self, f: &mut fmt::Formatter<W>) -> fmt::Result {
        match self {
            Failure::Query(fault) => write_line(f, fault),
            Failure::Refused(at) => write_line(f, at),
            Failure::Replay(fault) => write_line(f, fault),
            Failure::Read(fault) => write_line(f, fault),
            Failure::Call(fault) => write_line(f, fault),
            Failure::Broken(call) => write_line(f, call),
            _ => Ok(()),
        }
    }

    // The lines of keys that were refused.
    fn write_keys<W: fmt::Write>(&self, f: &mut fmt::Formatter<W>) -> fmt::Result {
        match self {
            Failure::Keys(fault) => write_line(f, fault),
            Failure::Tenants(fault) => write_line(f, fault),
            Failure::RepeatedKey(number, first) => writeln!(
                f,
                "path_server: RepeatedKey\nkey {number} is key {first} again"
            ),
            Failure::Key(number) => writeln!(
                f,
                "path_server: BadKeys\nkey {number} is not 32 hexadecimal digits"
            ),
            Failure::KeyLine(line) => write_about(f, "BadKeys", line),
            Failure::RepeatedName(name) => write_about(f, "RepeatedName", name),
            _ => Ok(()),
        }
    }

    // The lines of what the system refused.
    fn write_system<W: fmt::Write>(&self, f: &mut fmt::Formatter<W>) -> fmt::Result {
        match self {
            Failure::Address(fault) => write_about(f, "NetFault", fault),
            Failure::File(fault) => write_about(f, "ReadFault", fault),
            Failure::Write(fault) => write_line(f, fault),
            Failure::Net => write_line(f, &"NetFault"),
            _ => Ok(()),
        }
    }
}

fn write_line<W: fmt::Write, T: fmt::Display>(f: &mut fmt::Formatter<W>, what: &T) -> fmt::Result {
    writeln!(f, "path_server: {what}")
}

// The name of a fault, and a line about it.
fn write_about<W: fmt::Write, T: fmt::Display>(
    f: &mut fmt::Formatter<W>,
    name: &str,
    about: &T,
) -> fmt::Result {
    writeln!(f, "path_server: {name}\n{about}")
}

// The number of the first key that is not 32 hexadecimal digits with a comma behind them, from 1 on.
fn bad_key(words: &[u8]) -> u64
    ensures { IsFirstBad words.now result }
{
    let keys = words.len() / 33;
    for n in 0..keys {
        if !is_key_at(words, 33 * n) {
            return n as u64 + 1;
        }
    }
    keys as u64 + 1
}

// The places of a key and of one before it that is equal.
fn repeated(keys: &[[u8; 16]]) -> Option<(usize, usize)>
    ensures { IfSome result (λ places. AreEqual keys.now places.0 places.1) }
{
    for n in 0..keys.len() {
        for first in 0..n {
            if keys[first] == keys[n] {
                return Some((n, first));
            }
        }
    }
    None
}

fn is_key_at(words: &[u8], at: usize) -> bool
    requires { at + 33 ≤ length words.now }
    ensures { IsTrue result ↔ IsKeyAt words.now at }
{
    words[at + 32] == b',' && are_digits(words, at)
}

fn are_digits(words: &[u8], at: usize) -> bool
    requires { at + 33 ≤ length words.now }
    ensures { IsTrue result ↔ AreDigits words.now at }
{
    for j in 0..32 {
        if !words[at + j].is_ascii_hexdigit() {
            return false;
        }
    }
    true
}

// Whether the text or the query is refused, and why.
#[derive(Clone, Copy)]
enum Cause {
    Text(TextFault),
    Query(Refusal),
    Neither,
}

fn cause_of(fault: QueryTextFault) -> Cause {
    match fault {
        QueryTextFault::TooLong => Cause::Text(TextFault::TooLong),
        QueryTextFault::NotUtf8 => Cause::Text(TextFault::NotUtf8),
        QueryTextFault::NotJson => Cause::Text(TextFault::NotJson),
        QueryTextFault::TooDeep => Cause::Text(TextFault::TooDeep),
        QueryTextFault::NumberLimit => Cause::Text(TextFault::NumberLimit),
        QueryTextFault::LoneSurrogate => Cause::Text(TextFault::LoneSurrogate),
        QueryTextFault::DuplicateName => Cause::Text(TextFault::DuplicateName),
        QueryTextFault::QueryTooLong => Cause::Query(Refusal::TooLong),
        QueryTextFault::NotWellFormed => Cause::Query(Refusal::NotWellFormed),
        QueryTextFault::NotValid => Cause::Query(Refusal::NotValid),
        QueryTextFault::Costly | QueryTextFault::Memory => Cause::Neither,
    }
}

// What is said of the place at which a text or a query is refused.
fn told(
    alloc: Global,
    query: &[u8],
    text: &[u8],
    fault: QueryTextFault,
    shows: bool,
) -> Result<String, AllocError> {
    match cause_of(fault) {
        Cause::Text(fault) => text_places::told(alloc, text, fault, shows),
        Cause::Query(refusal) => query_faults::told(alloc, query, refusal, shows),
        Cause::Neither => Ok(String::new(alloc)),
    }
}

fn status_at(kind: ParseKind) -> u8
    ensures { result ≡ status_of_kind kind }
{
    match kind {
        ParseKind::DisplayHelp | ParseKind::DisplayVersion => 0,
        ParseKind::OutOfMemory => 4,
        _ => 3,
    }
}

fn query_status(fault: QueryStreamFault) -> u8
    ensures { result ≡ status_of_query fault }
{
    match fault {
        QueryStreamFault::Read(_) => 4,
        QueryStreamFault::Refused(refusal) => refusal_status(refusal),
        QueryStreamFault::Write(_) => 4,
    }
}

// 1 where the text is refused, 2 where the query is.
fn refusal_status(fault: QueryTextFault) -> u8
    ensures { result ≡ status_of_refusal fault }
{
    match fault {
        QueryTextFault::TooLong
        | QueryTextFault::NotUtf8
        | QueryTextFault::NotJson
        | QueryTextFault::TooDeep
        | QueryTextFault::NumberLimit
        | QueryTextFault::LoneSurrogate
        | QueryTextFault::DuplicateName => 1,
        QueryTextFault::QueryTooLong
        | QueryTextFault::NotWellFormed
        | QueryTextFault::NotValid
        | QueryTextFault::Costly => 2,
        QueryTextFault::Memory => 4,
    }
}

fn keys_status(fault: KeysFault) -> u8
    ensures { result ≡ status_of_keys fault }
{
    match fault {
        KeysFault::BadKeys => 3,
        KeysFault::Memory => 4,
    }
}

fn replay_status(fault: ReplayStreamFault) -> u8
    ensures { result ≡ status_of_replay fault }
{
    match fault {
        ReplayStreamFault::Read(_) => 4,
        ReplayStreamFault::Refused(refusal) => script_status(refusal),
        ReplayStreamFault::Write(_) => 4,
    }
}

// 1 where the script is refused, 3 where the keys are.
fn script_status(fault: ScriptFault) -> u8
    ensures { result ≡ status_of_script fault }
{
    match fault {
        ScriptFault::TooLong => 1,
        ScriptFault::BadLine(_) => 1,
        ScriptFault::Keys(keys) => tenants_status(keys),
        ScriptFault::Memory => 4,
    }
}

fn tenants_status(fault: TenantsFault) -> u8
    ensures { result ≡ status_of_tenants fault }
{
    match fault {
        TenantsFault::NoKeys | TenantsFault::TooManyKeys | TenantsFault::RepeatedKey => 3,
        TenantsFault::Memory => 4,
    }
}

// Whether the connection of a call broke.
fn is_broken(fault: CallStreamFault) -> bool
    ensures { IsTrue result ↔ IsBrokenOff fault }
{
    matches!(
        fault,
        CallStreamFault::Call(CallFault::ReadFault | CallFault::WriteFault)
            | CallStreamFault::Unwritten(CallFault::ReadFault | CallFault::WriteFault)
    )
}

fn call_stream_status(fault: CallStreamFault) -> u8
    ensures { result ≡ status_of_call_stream fault }
{
    match fault {
        CallStreamFault::Call(refusal) => call_status(refusal),
        CallStreamFault::Unwritten(refusal) => call_status(refusal),
        CallStreamFault::Write(_) => 4,
    }
}

// 1 where a line is refused.
fn call_status(fault: CallFault) -> u8
    ensures { result ≡ status_of_call fault }
{
    match fault {
        CallFault::TooLong | CallFault::BadLine(_) => 1,
        CallFault::ReadFault | CallFault::WriteFault | CallFault::Memory => 4,
    }
}
