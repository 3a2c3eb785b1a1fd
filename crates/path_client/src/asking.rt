//! The subcommands that send one request and print its reply.

use crate::connection::{Connection, open};
use crate::documents::{dump, of_document, query};
use crate::keys;
use crate::loading::load;
use crate::notes::of_query;
use client_commands::{Context, Failure, Note, Operation, Verb};
use client_frames::{Usage, read_names, read_usage};
use client_lines::append_names;
use std::io::{self, Read, Write};
use std::net::Net;
use std::rt::{Clock, Files};
use std::time::Instant;
use store_names::{CollName, DocName};
use wire_frames::Command;

/// Runs a subcommand that needs a server.
pub fn answer<R: Input + Print + Eprint + Net + Files + Clock + AllocGlobal>(
    rt: &R,
    asked: &Operation<'_>,
    context: &Context<'_>,
    note: &mut Option<Note>,
) -> Result<(), Failure> {
    if context.address.is_empty() {
        return Err(Failure::AddressMissing);
    }
    let key = keys::read(rt, context.key_file)?;
    match asked.verb {
        Verb::Usage | Verb::Ping => of_tenant(rt, asked, context, key),
        _ => of_collection(rt, asked, context, key, note),
    }
}

// Answers a subcommand on all that the tenant keeps.
fn of_tenant<R: Print + Net + Clock + AllocGlobal>(
    rt: &R,
    asked: &Operation<'_>,
    context: &Context<'_>,
    key: [u8; 16],
) -> Result<(), Failure> {
    let mut connection = open(rt, context.address, key, asked.timeout)?;
    match asked.verb {
        Verb::Ping => ping(rt, &mut connection),
        _ => usage(rt, &mut connection, asked.json),
    }
}

// Answers a subcommand on a collection.
fn of_collection<R: Input + Print + Eprint + Net + Files + Clock + AllocGlobal>(
    rt: &R,
    asked: &Operation<'_>,
    context: &Context<'_>,
    key: [u8; 16],
    note: &mut Option<Note>,
) -> Result<(), Failure> {
    let Some(collection) = CollName::read(asked.collection.as_bytes()) else {
        return Err(Failure::CollectionName);
    };
    let mut connection = open(rt, context.address, key, asked.timeout)?;
    match asked.verb {
        Verb::List => list(rt, &mut connection, collection),
        Verb::Query => match query(rt, &mut connection, collection, asked) {
            Ok(()) => Ok(()),
            Err(failure) => {
                *note = of_query(
                    rt.alloc(),
                    asked.query.as_bytes(),
                    failure,
                    context.is_terminal,
                );
                Err(failure)
            }
        },
        Verb::Drop => connection.done(&Command::DropCollection { collection }),
        Verb::Load => load(rt, &mut connection, collection, asked, context.is_terminal),
        Verb::Dump => dump(rt, &mut connection, collection),
        _ => of_document(
            rt,
            &mut connection,
            collection,
            asked,
            context.is_terminal,
            note,
        ),
    }
}

fn list<R: Print + AllocGlobal, S: Read + Write + Drop>(
    rt: &R,
    connection: &mut Connection<S>,
    collection: CollName<'_>,
) -> Result<(), Failure> {
    let payload = connection.ask(&Command::List { collection })?;
    let names = read_names(rt.alloc(), payload).map_err(Failure::of_payload)?;
    print_names(rt, names.as_slice())
}

/// Prints a line for each name.
pub fn print_names<R: Print + AllocGlobal>(rt: &R, names: &[DocName<'_>]) -> Result<(), Failure> {
    let mut out = Vec::new(rt.alloc());
    match append_names(names, &mut out) {
        Ok(()) => print(rt, out.as_slice()),
        Err(_) => Err(Failure::Memory),
    }
}

fn usage_of<S: Read + Write + Drop>(connection: &mut Connection<S>) -> Result<Usage, Failure> {
    let payload = connection.ask(&Command::Usage)?;
    read_usage(payload).ok_or(Failure::NoReply)
}

fn usage<R: Print, S: Read + Write + Drop>(
    rt: &R,
    connection: &mut Connection<S>,
    json: bool,
) -> Result<(), Failure> {
    let Usage {
        collections,
        documents,
        bytes,
    } = usage_of(connection)?;
    let printed = if json {
        println!(rt;
            "{{\"collections\":{collections},\"documents\":{documents},\"bytes\":{bytes}}}"
        )
    } else {
        println!(rt; "collections {collections}, documents {documents}, bytes {bytes}")
    };
    printed.map_err(|error| Failure::of_output(&error))
}

fn ping<R: Print + Clock, S: Read + Write + Drop>(
    rt: &R,
    connection: &mut Connection<S>,
) -> Result<(), Failure> {
    let began = Instant::now(rt);
    usage_of(connection)?;
    let micros = match began {
        Ok(instant) => micros_since(rt, &instant),
        Err(_) => 0,
    };
    let (millis, rest) = (micros / 1_000, micros % 1_000);
    println!(rt; "{millis}.{rest:03} ms").map_err(|error| Failure::of_output(&error))
}

/// The microseconds since then, or 0 if the clock cannot be read.
pub fn micros_since<R: Clock>(rt: &R, began: &Instant) -> u64 {
    match began.elapsed(rt) {
        Ok(took) => u64::try_from(took.as_micros()).unwrap_or(u64::MAX),
        Err(_) => 0,
    }
}

/// Writes bytes to standard output.
pub fn print<R: Print>(rt: &R, bytes: &[u8]) -> Result<(), Failure> {
    io::writer(rt)
        .write_all(bytes)
        .map_err(|error| Failure::of_output(&error))
}
