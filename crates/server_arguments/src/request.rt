//! What the words of a command line ask for.

use crate::failure::Failure;
use clap::builder::ValueParser;
use clap::{Arg, ArgAction, ArgMatches, Command, Error};
use std::alloc::{AllocError, Global};

/// The version, which `--version` prints behind the program's name.
pub const VERSION: &str = "1.0.0";

/// The most connections that `serve` serves.
const MOST_CONNECTIONS: u64 = 1_000_000;

/// The most connections that may be open at once.
const MOST_OPEN: u64 = 1_000_000;

/// The least limit on memory: one longest request and one longest reply.
const LEAST_BYTES: u64 = 14_680_072;

/// The greatest limit on memory, a pebibyte.
const MOST_BYTES: u64 = 1 << 50;

/// The longest time in seconds, a year.
const MOST_SECONDS: u64 = 31_536_000;

/// The longest time in milliseconds, a little more than an hour.
const MOST_MILLISECONDS: u64 = 4_000_000;

/// What `--memory` takes.
const MEMORY_VALUE: &str =
    "--memory takes bytes from 14680072 to 1125899906842624, such as 64M or 2G";

const KEYS_HELP: &str = "The tenants' keys, 32 hexadecimal digits each, separated by commas";

const ADDRESS_HELP: &str = "Host and port, such as 127.0.0.1:7000 or [::1]:7000";

/// What the command line asks for.
#[derive(Drop)]
pub enum Request<'a> {
    /// The hits of this query in the text on standard input.
    Query(&'a str),
    /// The replies to the script on standard input, with tenants of these keys.
    Replay(&'a str),
    /// A server at an address, with tenants of these keys, for so many connections.
    Serve {
        address: &'a str,
        keys: &'a str,
        count: u32,
    },
    /// A server of many connections at once.
    Listen(Listening<'a>),
    /// The replies of the server at this address to the frames on standard input.
    Call(&'a str),
}

/// A server of many connections at once.
#[derive(Drop)]
pub struct Listening<'a> {
    /// The address.
    pub address: &'a str,
    /// The tenants' keys, if they stand on the command line.
    pub keys: Option<&'a str>,
    /// The file with further keys, if there is one.
    pub file: Option<&'a str>,
    /// The most connections open at once.
    pub connections: usize,
    /// The most bytes buffered for long requests and replies together.
    pub memory: usize,
    /// The seconds after which an idle connection is closed.
    pub idle: Option<u64>,
    /// The seconds after which an idle connection is closed while it holds memory that others wait for.
    pub stall: u64,
    /// The seconds after which a connection that holds memory is closed while others wait for it.
    pub frame_time: u64,
    /// The seconds that a connection must have been idle to make room for a new one.
    pub spare: u64,
    /// Whether a line of counts is printed each minute, and one for each slow query.
    pub log: bool,
    /// The milliseconds above which a query is slow.
    pub slow: u32,
    /// The administration address.
    pub admin: Option<&'a str>,
    /// The names by which the administration address is asked, beside addresses and `localhost`.
    pub admin_hosts: Vec<&'a str>,
}

// A word behind a subcommand.
fn word<'a>(alloc: Global, name: &'a str, help: &'a str) -> Arg<'a> {
    Arg::new(alloc, name)
        .help(help)
        .required(true)
        .action(ArgAction::Set)
}

fn query<'a>(alloc: Global) -> Result<Command<'a>, AllocError> {
    Command::new(alloc, "query")
        .about(
            "Queries the JSON text on standard input and prints a line for each hit: path, tab, value",
        )
        .arg(word(alloc, "QUERY", "A JSONPath query (RFC 9535)"))
}

fn replay<'a>(alloc: Global) -> Result<Command<'a>, AllocError> {
    Command::new(alloc, "replay")
        .about(
            "Runs the script on standard input and prints a line for each reply: connection, space, reply frame",
        )
        .arg(word(alloc, "KEYS", KEYS_HELP))
}

fn serve<'a>(alloc: Global) -> Result<Command<'a>, AllocError> {
    let words = vec![in alloc;
        word(alloc, "ADDR", ADDRESS_HELP),
        word(alloc, "KEYS", KEYS_HELP),
        word(alloc, "COUNT", "The number of connections, 1 to 1000000").value_parser(
            ValueParser::Unsigned(1, MOST_CONNECTIONS)
        ),
    ]?;
    Command::new(alloc, "serve")
        .about("Prints the bound address, serves COUNT connections one after the other, and ends")
        .args(words)
}

fn listen<'a>(alloc: Global) -> Result<Command<'a>, AllocError> {
    let keys = keys_word(alloc)?;
    let words = vec![in alloc;
        word(alloc, "ADDR", ADDRESS_HELP),
        keys,
        option(
            alloc,
            "keys",
            "FILE",
            "A file with keys, separated by commas or line feeds; behind the one key of a line may stand its tenant's name",
        ),
        number(
            alloc,
            ("connections", "NUMBER"),
            "The most connections open at once, 1 to 1000000",
            "10000",
            MOST_OPEN,
        ),
        option(
            alloc,
            "memory",
            "BYTES",
            "The most bytes buffered for long requests and replies, at least 14680072, such as 64M",
        )
        .default_value("1073741824"),
        option(
            alloc,
            "idle",
            "SECONDS",
            "Closes a connection that was idle for this long, 1 to 31536000",
        )
        .value_parser(ValueParser::Unsigned(1, MOST_SECONDS)),
        seconds(
            alloc,
            "stall",
            "Closes a connection that was idle for this long while it held memory that others wait for",
            "10",
        ),
        seconds(
            alloc,
            "frame-time",
            "Closes a connection that held memory for this long while others wait for it",
            "60",
        ),
        seconds(
            alloc,
            "spare",
            "At the limit on connections, closes one that was idle for this long to admit a new one",
            "10",
        ),
        option(
            alloc,
            "admin",
            "ADDR",
            "Answers GET /health, /ready and /metrics, and POST /ready and /drain?grace=SECONDS by HTTP at this address",
        ),
        option(
            alloc,
            "admin-host",
            "NAME",
            "Serves requests with this Host at the administration address, too; may be given several times",
        )
        .action(ArgAction::Append),
        flag(
            alloc,
            "log",
            "Prints a line of counts to standard error each minute, and one for each slow query",
        ),
        number(
            alloc,
            ("slow", "MILLISECONDS"),
            "With --log, prints a line for each query that takes longer than this",
            "100",
            MOST_MILLISECONDS,
        ),
    ]?;
    Command::new(alloc, "listen")
        .about(
            "Prints the bound address and serves many connections at once, until standard input is closed",
        )
        .args(words)
}

// The keys, which may stand in a file instead.
fn keys_word<'a>(alloc: Global) -> Result<Arg<'a>, AllocError> {
    word(alloc, "KEYS", KEYS_HELP)
        .required(false)
        .required_unless_present("keys")
}

// An option with a value.
fn option<'a>(alloc: Global, name: &'a str, value: &'a str, help: &'a str) -> Arg<'a> {
    Arg::new(alloc, name)
        .long(name)
        .value_name(value)
        .help(help)
        .action(ArgAction::Set)
}

// An option without a value.
fn flag<'a>(alloc: Global, name: &'a str, help: &'a str) -> Arg<'a> {
    Arg::new(alloc, name)
        .long(name)
        .help(help)
        .action(ArgAction::SetTrue)
}

// An option with a number from 1 on. Its value has a name, too.
fn number<'a>(
    alloc: Global,
    (name, value): (&'a str, &'a str),
    help: &'a str,
    default: &'a str,
    most: u64,
) -> Arg<'a> {
    option(alloc, name, value, help)
        .default_value(default)
        .value_parser(ValueParser::Unsigned(1, most))
}

// An option with a number of seconds.
fn seconds<'a>(alloc: Global, name: &'a str, help: &'a str, default: &'a str) -> Arg<'a> {
    number(alloc, (name, "SECONDS"), help, default, MOST_SECONDS)
}

fn call<'a>(alloc: Global) -> Result<Command<'a>, AllocError> {
    Command::new(alloc, "call")
        .about(
            "Sends the request frames on standard input, one line of hexadecimal digits each, and prints a line for each reply",
        )
        .arg(word(alloc, "ADDR", ADDRESS_HELP))
}

// Adds what was made to the subcommands.
fn add<'a>(
    subcommands: &mut Vec<Command<'a>>,
    made: Result<Command<'a>, AllocError>,
) -> Result<(), AllocError> {
    Ok(subcommands.push(made?)?)
}

fn add_all<'a>(alloc: Global, subcommands: &mut Vec<Command<'a>>) -> Result<(), AllocError> {
    add(subcommands, query(alloc))?;
    add(subcommands, replay(alloc))?;
    add(subcommands, serve(alloc))?;
    add(subcommands, listen(alloc))?;
    add(subcommands, call(alloc))
}

fn command<'a>(alloc: Global) -> Result<Command<'a>, AllocError> {
    let mut subcommands = Vec::new(alloc);
    add_all(alloc, &mut subcommands)?;
    Command::new(alloc, "path_server")
        .version(VERSION)
        .about("Stores JSON texts for many tenants and answers JSONPath queries (RFC 9535)")
        .subcommand_required(true)
        .disable_help_subcommand(true)
        .subcommands(subcommands)
}

fn parsed<'a>(alloc: Global, words: &'a [String]) -> Result<ArgMatches<'a>, Error> {
    command(alloc)?.try_get_matches_from(words)
}

/// The request of a command line, whose first word is the program's name.
pub fn read_request<'a>(alloc: Global, words: &'a [String]) -> Result<Request<'a>, Failure> {
    let matches = parsed(alloc, words).map_err(Failure::of_command_line)?;
    let Ok(hosts) = hosts_of(alloc, &matches) else {
        return Err(Failure::Memory);
    };
    request_of(&matches, hosts)
}

// What the subcommand and the words behind it ask for. Each subcommand has all of its words where the parse went well.
fn request_of<'a>(matches: &ArgMatches<'a>, hosts: Vec<&'a str>) -> Result<Request<'a>, Failure> {
    let Some((name, words)) = matches.subcommand() else {
        return Err(Failure::Words);
    };
    if name == "listen" {
        let Some(memory) = bytes_of(words.get_str("memory").unwrap_or_default()) else {
            return Err(Failure::Value(MEMORY_VALUE));
        };
        return match listen_of(words, memory, hosts) {
            Some(listening) => Ok(Request::Listen(listening)),
            None => Err(Failure::Words),
        };
    }
    match other_of(name, words) {
        Some(request) => Ok(request),
        None => Err(Failure::Words),
    }
}

// The names by which the administration address is asked.
fn hosts_of<'a>(alloc: Global, matches: &ArgMatches<'a>) -> Result<Vec<&'a str>, AllocError> {
    let mut hosts = Vec::new(alloc);
    if let Some((_, words)) = matches.subcommand() {
        hosts.extend_from_slice(words.get_strs("admin-host").unwrap_or_default())?;
    }
    Ok(hosts)
}

fn other_of<'a>(name: &str, words: &ArgMatches<'a>) -> Option<Request<'a>> {
    match name {
        "query" => Some(Request::Query(words.get_str("QUERY")?)),
        "replay" => Some(Request::Replay(words.get_str("KEYS")?)),
        "serve" => serve_of(words),
        _ => Some(Request::Call(words.get_str("ADDR")?)),
    }
}

fn serve_of<'a>(words: &ArgMatches<'a>) -> Option<Request<'a>> {
    Some(Request::Serve {
        address: words.get_str("ADDR")?,
        keys: words.get_str("KEYS")?,
        count: words.get_one("COUNT")?,
    })
}

// A number of bytes, where K, M or G behind it stands for 1,024 bytes, their square or their cube.
fn bytes_of(text: &str) -> Option<usize> {
    let bytes = text.as_bytes();
    let (digits, unit) = match bytes {
        [digits @ .., b'K' | b'k'] => (digits, 1u64 << 10),
        [digits @ .., b'M' | b'm'] => (digits, 1u64 << 20),
        [digits @ .., b'G' | b'g'] => (digits, 1u64 << 30),
        _ => (bytes, 1u64),
    };
    let all = number_of(digits)?.checked_mul(unit)?;
    if LEAST_BYTES <= all && all <= MOST_BYTES {
        usize::try_from(all).ok()
    } else {
        None
    }
}

fn number_of(digits: &[u8]) -> Option<u64> {
    if digits.is_empty() {
        return None;
    }
    let mut number = 0u64;
    for digit in digits {
        let value = match *digit {
            b'0'..=b'9' => u64::from(*digit - b'0'),
            _ => return None,
        };
        number = number.checked_mul(10)?.checked_add(value)?;
    }
    Some(number)
}

// What the options of a server say by numbers.
#[derive(Clone, Copy)]
struct Numbers {
    connections: usize,
    idle: Option<u64>,
    stall: u64,
    frame_time: u64,
    spare: u64,
    slow: u32,
}

fn numbers_of(words: &ArgMatches<'_>) -> Option<Numbers> {
    Some(Numbers {
        connections: words.get_one("connections")?,
        idle: words.get_one("idle"),
        stall: words.get_one("stall")?,
        frame_time: words.get_one("frame-time")?,
        spare: words.get_one("spare")?,
        slow: words.get_one("slow")?,
    })
}

fn listen_of<'a>(
    words: &ArgMatches<'a>,
    memory: usize,
    hosts: Vec<&'a str>,
) -> Option<Listening<'a>> {
    match (words.get_str("ADDR"), numbers_of(words)) {
        (Some(address), Some(numbers)) => Some(Listening {
            address,
            keys: words.get_str("KEYS"),
            file: words.get_str("keys"),
            connections: numbers.connections,
            memory,
            idle: numbers.idle,
            stall: numbers.stall,
            frame_time: numbers.frame_time,
            spare: numbers.spare,
            log: words.get_flag("log"),
            slow: numbers.slow,
            admin: words.get_str("admin"),
            admin_hosts: hosts,
        }),
        _ => None,
    }
}
