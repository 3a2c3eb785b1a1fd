//! The command line.

ghost use Rattle.std.specs.Prelude.{◌≡◌, ◌≢◌, ◌⊎◌, ◌↔◌};
ghost use Rattle.clap.specs.Values.{kind_of};
ghost use Rattle.client_commands.specs.Statuses.{status_of_fault, status_of_kind};

use crate::failure::Failure;
use crate::messages::Context;
use clap::builder::ValueParser;
use clap::error::ErrorKind;
use clap::{Arg, ArgAction, ArgMatches, Command, Error};
use std::alloc::{AllocError, Global};

/// The version, which `--version` prints after the program's name.
const VERSION: &str = "1.0.0";

/// The longest `--timeout` in milliseconds, a day.
const MOST_MILLISECONDS: u64 = 86_400_000;

/// The largest `--limit`, and that without one: more lines than a reply has.
const MOST_LINES: u64 = 1_000_000_000;

/// The command that is asked for.
#[derive(Clone, Copy)]
pub enum Verb {
    Put,
    PutNew,
    Get,
    Remove,
    List,
    Query,
    Drop,
    Usage,
    Load,
    Dump,
    NewKey,
    Ping,
}

/// What the command line asks for. Words that the command does not have are empty.
#[derive(Clone, Copy)]
pub struct Operation<'a> {
    pub verb: Verb,
    pub collection: &'a str,
    pub document: &'a str,
    pub query: &'a str,
    /// The file to read instead of standard input.
    pub file: Option<&'a str>,
    /// The query that selects each document's name.
    pub name: Option<&'a str>,
    /// The one document that the query is evaluated on.
    pub within: Option<&'a str>,
    /// Whether the documents with a hit are printed in the place of the hits.
    pub names: bool,
    /// The most lines to print.
    pub limit: u64,
    /// Whether output is JSON.
    pub json: bool,
    /// The milliseconds to wait for a byte from the server.
    pub timeout: u64,
}

/// A command line.
#[derive(Clone, Copy)]
pub struct Options<'a> {
    pub address: Option<&'a str>,
    pub key_file: Option<&'a str>,
    pub asked: Operation<'a>,
}

/// A word of the command line: an option, or an argument of a subcommand.
#[derive(Clone, Copy)]
enum Word {
    Address,
    KeyFile,
    Timeout,
    Json,
    Collection,
    Document,
    Query,
    File,
    Name,
    Within,
    Names,
    Limit,
}

/// The options that may stand before or after the subcommand.
const OPTIONS: [Word; 4] = [Word::Address, Word::KeyFile, Word::Timeout, Word::Json];

/// The subcommands: name, command, help, and arguments.
const VERBS: [(&str, Verb, &str, &[Word]); 12] = [
    (
        "put",
        Verb::Put,
        "Stores the text of FILE, or of standard input, as a document",
        &[Word::Collection, Word::Document, Word::File],
    ),
    (
        "put-new",
        Verb::PutNew,
        "Stores a text as put does, but only if there is no such document yet",
        &[Word::Collection, Word::Document, Word::File],
    ),
    (
        "get",
        Verb::Get,
        "Prints the text of a document as it was put",
        &[Word::Collection, Word::Document],
    ),
    (
        "remove",
        Verb::Remove,
        "Removes a document",
        &[Word::Collection, Word::Document],
    ),
    (
        "list",
        Verb::List,
        "Prints the names of a collection's documents, one on a line",
        &[Word::Collection],
    ),
    (
        "query",
        Verb::Query,
        "Prints a line for each hit of a JSONPath query (RFC 9535): document, tab, path, tab, value",
        &[
            Word::Collection,
            Word::Query,
            Word::Names,
            Word::Within,
            Word::Limit,
        ],
    ),
    (
        "drop",
        Verb::Drop,
        "Removes a collection with all its documents",
        &[Word::Collection],
    ),
    (
        "usage",
        Verb::Usage,
        "Prints how many collections, documents and bytes of texts the tenant has",
        &[],
    ),
    (
        "load",
        Verb::Load,
        "Stores the documents in FILE, or on standard input: one line of JSON each, as dump prints them",
        &[Word::Collection, Word::Name, Word::File],
    ),
    (
        "dump",
        Verb::Dump,
        "Prints each document of a collection as a line of JSON: {\"name\":..,\"text\":..}",
        &[Word::Collection],
    ),
    ("new-key", Verb::NewKey, "Prints a new random key", &[]),
    ("ping", Verb::Ping, "Prints how long one request takes", &[]),
];

// An option with a value, which may stand before or after the subcommand.
fn option<'a>(alloc: Global, name: &'a str, value: &'a str, help: &'a str) -> Arg<'a> {
    Arg::new(alloc, name)
        .long(name)
        .value_name(value)
        .help(help)
        .global(true)
        .action(ArgAction::Set)
}

fn timeout_option<'a>(alloc: Global) -> Arg<'a> {
    option(
        alloc,
        "timeout",
        "SECONDS",
        "How long to wait for a byte from the server, such as 1.5",
    )
    .default_value("30")
}

fn json_option<'a>(alloc: Global) -> Arg<'a> {
    Arg::new(alloc, "json")
        .long("json")
        .help("Prints hits, usage and failures as JSON")
        .global(true)
        .action(ArgAction::SetTrue)
}

fn name_option<'a>(alloc: Global) -> Arg<'a> {
    Arg::new(alloc, "name")
        .long("name")
        .value_name("QUERY")
        .help("Takes each line as a document, named by the string that this query selects")
        .action(ArgAction::Set)
}

fn within_option<'a>(alloc: Global) -> Arg<'a> {
    Arg::new(alloc, "document")
        .long("document")
        .value_name("NAME")
        .help("Fetches this one document whole, and evaluates the query here")
        .action(ArgAction::Set)
}

fn names_option<'a>(alloc: Global) -> Arg<'a> {
    Arg::new(alloc, "names")
        .long("names")
        .help("Prints each document with a hit once, instead of the hits")
        .action(ArgAction::SetTrue)
}

fn limit_option<'a>(alloc: Global) -> Arg<'a> {
    Arg::new(alloc, "limit")
        .long("limit")
        .value_name("N")
        .help("Prints the first N hits at most, or documents with --names")
        .value_parser(ValueParser::Unsigned(1, MOST_LINES))
        .action(ArgAction::Set)
}

// An argument that has to be there.
fn needed<'a>(alloc: Global, name: &'a str, help: &'a str) -> Arg<'a> {
    Arg::new(alloc, name)
        .help(help)
        .required(true)
        .action(ArgAction::Set)
}

fn file_argument<'a>(alloc: Global) -> Arg<'a> {
    Arg::new(alloc, "FILE")
        .help("A file to read instead of standard input")
        .action(ArgAction::Set)
}

fn arg<'a>(alloc: Global, word: Word) -> Arg<'a> {
    match word {
        Word::Address => option(
            alloc,
            "at",
            "ADDR",
            "The server's address, such as 127.0.0.1:7000 [default: PATH_SERVER_AT]",
        ),
        Word::KeyFile => option(
            alloc,
            "key-file",
            "FILE",
            "A file with the tenant's key [default: PATH_SERVER_KEY_FILE]",
        ),
        Word::Timeout => timeout_option(alloc),
        Word::Json => json_option(alloc),
        Word::Collection => needed(alloc, "COLLECTION", "The collection's name"),
        Word::Document => needed(alloc, "DOCUMENT", "The document's name"),
        Word::Query => needed(alloc, "QUERY", "A JSONPath query (RFC 9535)"),
        Word::File => file_argument(alloc),
        Word::Name => name_option(alloc),
        Word::Within => within_option(alloc),
        Word::Names => names_option(alloc),
        Word::Limit => limit_option(alloc),
    }
}

fn args<'a>(alloc: Global, words: &[Word]) -> Result<Vec<Arg<'a>>, AllocError> {
    let mut args = Vec::new(alloc);
    for word in words {
        args.push(arg(alloc, *word))?;
    }
    Ok(args)
}

fn subcommand<'a>(
    alloc: Global,
    name: &'a str,
    about: &'a str,
    words: &[Word],
) -> Result<Command<'a>, AllocError> {
    let args = args(alloc, words)?;
    Command::new(alloc, name).about(about).args(args)
}

fn subcommands<'a>(alloc: Global) -> Result<Vec<Command<'a>>, AllocError> {
    let mut verbs = Vec::new(alloc);
    for row in &VERBS {
        let (name, _, about, words) = *row;
        verbs.push(subcommand(alloc, name, about, words)?)?;
    }
    Ok(verbs)
}

fn command<'a>(alloc: Global) -> Result<Command<'a>, AllocError> {
    let options = args(alloc, &OPTIONS)?;
    let verbs = subcommands(alloc)?;
    Command::new(alloc, "path_client")
        .version(VERSION)
        .about("Stores, reads and queries documents on a path_server")
        .after_help(
            "Exit status: 0 done, 1 refused by the server, 2 invalid or costly query, 3 invalid command line or key file, 4 no answer",
        )
        .subcommand_required(true)
        .disable_help_subcommand(true)
        .args(options)?
        .subcommands(verbs)
}

fn parsed<'a>(alloc: Global, words: &'a [String]) -> Result<ArgMatches<'a>, Error> {
    command(alloc)?.try_get_matches_from(words)
}

/// Why a command line gives no command.
#[derive(Drop)]
pub enum CommandLineFault {
    /// It is invalid, or asks for help or the version: the error has the text to print.
    Printed(Error),
    /// An allocation failed, or a subcommand is unknown.
    Failed(Failure),
}

impl CommandLineFault {
    /// The fault of a command line that did not parse.
    pub fn of(error: Error) -> CommandLineFault
        ensures memory { (result ≡ CommandLineFault.Failed Failure.Memory) ↔ (kind_of error ≡ ErrorKind.OutOfMemory) }
        ensures other { (kind_of error ≢ ErrorKind.OutOfMemory) → result ≡ CommandLineFault.Printed error }
        ensures status { status_of_fault result ≡ status_of_kind (kind_of error) }
    {
        match error.kind() {
            ErrorKind::OutOfMemory => CommandLineFault::Failed(Failure::Memory),
            _ => CommandLineFault::Printed(error),
        }
    }

    /// Prints help and the version to standard output, everything else to standard error, and gives the exit status. If help or the version
    /// cannot be printed, the status is 4.
    pub fn report<R: Print + Eprint>(&self, rt: &R) -> u8
        ensures { (result ≡ status_of_fault self.now) ⊎ ((status_of_fault self.now ≡ 0) × (result ≡ 4)) }
    {
        match self {
            CommandLineFault::Printed(error) => print(rt, error),
            CommandLineFault::Failed(failure) => failure.report(rt, &Context::NONE, &None),
        }
    }
}

// Those with status 0 are help and the version.
fn print<R: Print + Eprint>(rt: &R, error: &Error) -> u8
    ensures { (result ≡ status_of_kind (kind_of error.now)) ⊎ ((status_of_kind (kind_of error.now) ≡ 0) × (result ≡ 4)) }
{
    let status = status_at(error.kind());
    if status != 0 {
        let _ = rt.eprint(error);
        return status;
    }
    match rt.print(error) {
        Ok(()) => 0,
        Err(_) => 4,
    }
}

fn status_at(kind: ErrorKind) -> u8
    ensures { result ≡ status_of_kind kind }
{
    match kind {
        ErrorKind::DisplayHelp | ErrorKind::DisplayVersion => 0,
        ErrorKind::OutOfMemory => 4,
        _ => 3,
    }
}

/// What a command line asks for, whose first word is the program's name.
pub fn read_options<'a>(
    alloc: Global,
    words: &'a [String],
) -> Result<Options<'a>, CommandLineFault> {
    match parsed(alloc, words) {
        Ok(matches) => options_of(&matches).map_err(CommandLineFault::Failed),
        Err(error) => Err(CommandLineFault::of(error)),
    }
}

// Seconds with at most three digits behind the point, as milliseconds.
fn milliseconds(text: &str) -> Option<u64> {
    let (whole, part) = text.split_once('.').unwrap_or((text, ""));
    if part.len() > 3 || (part.is_empty() && text.ends_with('.')) {
        return None;
    }
    let mut all = number(whole)?.checked_mul(1_000)?;
    let mut unit = 100u64;
    for digit in part.as_bytes() {
        all = all.checked_add(number_of(*digit)?.checked_mul(unit)?)?;
        unit /= 10;
    }
    if 0 < all && all <= MOST_MILLISECONDS {
        Some(all)
    } else {
        None
    }
}

fn number(digits: &str) -> Option<u64> {
    if digits.is_empty() {
        return None;
    }
    let mut number = 0u64;
    for digit in digits.as_bytes() {
        number = number.checked_mul(10)?.checked_add(number_of(*digit)?)?;
    }
    Some(number)
}

fn number_of(digit: u8) -> Option<u64> {
    match digit {
        b'0'..=b'9' => Some(u64::from(digit - b'0')),
        _ => None,
    }
}

fn verb_of(name: &str) -> Option<Verb> {
    for row in &VERBS {
        let (word, verb, _, _) = *row;
        if word == name {
            return Some(verb);
        }
    }
    None
}

fn options_of<'a>(matches: &ArgMatches<'a>) -> Result<Options<'a>, Failure> {
    let Some((name, words)) = matches.subcommand() else {
        return Err(Failure::Words);
    };
    let Some(verb) = verb_of(name) else {
        return Err(Failure::Words);
    };
    let Some(timeout) = milliseconds(words.get_str("timeout").unwrap_or_default()) else {
        return Err(Failure::Timeout);
    };
    let asked = Operation {
        verb,
        collection: words.get_str("COLLECTION").unwrap_or_default(),
        document: words.get_str("DOCUMENT").unwrap_or_default(),
        query: words.get_str("QUERY").unwrap_or_default(),
        file: words.get_str("FILE"),
        name: words.get_str("name"),
        within: words.get_str("document"),
        names: words.get_flag("names"),
        limit: words.get_one("limit").unwrap_or(MOST_LINES),
        json: words.get_flag("json"),
        timeout,
    };
    Ok(Options {
        address: words.get_str("at"),
        key_file: words.get_str("key-file"),
        asked,
    })
}
