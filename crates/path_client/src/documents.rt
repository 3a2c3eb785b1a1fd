//! The subcommands that send or print texts.

use crate::asking::{print, print_names};
use crate::connection::Connection;
use crate::notes::{of_text, text_fault};
use client_commands::{Failure, Note, Operation, Verb};
use client_frames::{Hit, read_hits, read_names};
use client_lines::{append_document, append_hits, append_hits_in, append_json_hits, documents_of};
use json_tape::TEXT_LIMIT;
use path_types::{ValidQuery, compile};
use std::alloc::Global;
use std::fs;
use std::io::{Read, Write};
use std::rt::Files;
use store_names::{CollName, DocName};
use wire_frames::Command;

fn whole<I: Read + Drop>(alloc: Global, input: I) -> Result<Vec<u8>, Failure> {
    let mut text = Vec::new(alloc);
    match input.take(TEXT_LIMIT as u64 + 1).read_to_end(&mut text) {
        Ok(_) => Ok(text),
        Err(error) => Err(Failure::of_input(&error)),
    }
}

// The text of the file, or of standard input.
fn text_of<R: Input + Files + AllocGlobal>(rt: &R, file: Option<&str>) -> Result<Vec<u8>, Failure> {
    match file {
        Some(path) => match fs::open(rt, path) {
            Ok(file) => whole(rt.alloc(), file),
            Err(error) => Err(Failure::of_input(&error)),
        },
        None => whole(rt.alloc(), rt.reader()),
    }
}

/// Runs a subcommand on one document.
pub fn of_document<R: Input + Print + Files + AllocGlobal, S: Read + Write + Drop>(
    rt: &R,
    connection: &mut Connection<S>,
    collection: CollName<'_>,
    asked: &Operation<'_>,
    shows: bool,
    note: &mut Option<Note>,
) -> Result<(), Failure> {
    let Some(document) = DocName::read(asked.document.as_bytes()) else {
        return Err(Failure::DocumentName);
    };
    match asked.verb {
        Verb::Get => get(rt, connection, collection, document),
        Verb::Remove => connection.done(&Command::Remove {
            collection,
            document,
        }),
        _ => {
            let text = text_of(rt, asked.file)?;
            let text = text.as_slice();
            let command = put_of(asked.verb, collection, document, text);
            match connection.done(&command) {
                Ok(()) => Ok(()),
                Err(failure) => {
                    if let Some(fault) = text_fault(failure) {
                        *note = of_text(rt.alloc(), text, 1, fault, shows);
                    }
                    Err(failure)
                }
            }
        }
    }
}

fn get<R: Print, S: Read + Write + Drop>(
    rt: &R,
    connection: &mut Connection<S>,
    collection: CollName<'_>,
    document: DocName<'_>,
) -> Result<(), Failure> {
    let text = connection.ask(&Command::Get {
        collection,
        document,
    })?;
    print(rt, text)
}

fn put_of<'a>(
    verb: Verb,
    collection: CollName<'a>,
    document: DocName<'a>,
    text: &'a [u8],
) -> Command<'a> {
    match verb {
        Verb::PutNew => Command::PutNew {
            collection,
            document,
            text,
        },
        _ => Command::Put {
            collection,
            document,
            text,
        },
    }
}

/// Prints a line for each hit, or for each document with one.
pub fn query<R: Print + AllocGlobal, S: Read + Write + Drop>(
    rt: &R,
    connection: &mut Connection<S>,
    collection: CollName<'_>,
    asked: &Operation<'_>,
) -> Result<(), Failure> {
    match asked.within {
        Some(name) => query_one(rt, connection, collection, name, asked),
        None => query_all(rt, connection, collection, asked),
    }
}

fn query_all<R: Print + AllocGlobal, S: Read + Write + Drop>(
    rt: &R,
    connection: &mut Connection<S>,
    collection: CollName<'_>,
    asked: &Operation<'_>,
) -> Result<(), Failure> {
    let query = asked.query.as_bytes();
    let payload = connection.ask(&Command::Query { collection, query })?;
    let hits = read_hits(rt.alloc(), payload).map_err(Failure::of_payload)?;
    if asked.names {
        print_documents(rt, hits.as_slice(), asked.limit)
    } else {
        print_hits(rt, first(hits.as_slice(), asked.limit), asked.json)
    }
}

// The first so many of a list, or all.
fn first<T>(list: &[T], limit: u64) -> &[T] {
    let limit = usize::try_from(limit).unwrap_or(usize::MAX);
    list.get(..limit).unwrap_or(list)
}

fn print_documents<R: Print + AllocGlobal>(
    rt: &R,
    hits: &[Hit<'_>],
    limit: u64,
) -> Result<(), Failure> {
    match documents_of(rt.alloc(), hits) {
        Ok(names) => print_names(rt, first(names.as_slice(), limit)),
        Err(_) => Err(Failure::Memory),
    }
}

fn print_hits<R: Print + AllocGlobal>(rt: &R, hits: &[Hit<'_>], json: bool) -> Result<(), Failure> {
    let mut out = Vec::new(rt.alloc());
    append_lines(rt.alloc(), hits, json, &mut out)?;
    print(rt, out.as_slice())
}

// Fetches a document, and evaluates the query here.
fn query_one<R: Print + AllocGlobal, S: Read + Write + Drop>(
    rt: &R,
    connection: &mut Connection<S>,
    collection: CollName<'_>,
    name: &str,
    asked: &Operation<'_>,
) -> Result<(), Failure> {
    let Some(document) = DocName::read(name.as_bytes()) else {
        return Err(Failure::DocumentName);
    };
    let query = compile(rt.alloc(), asked.query.as_bytes()).map_err(Failure::of_query)?;
    let text = connection.ask(&Command::Get {
        collection,
        document,
    })?;
    print_found(rt, &query, document, text, asked)
}

fn print_found<R: Print + AllocGlobal>(
    rt: &R,
    query: &ValidQuery,
    document: DocName<'_>,
    text: &[u8],
    asked: &Operation<'_>,
) -> Result<(), Failure> {
    let limit = if asked.names { 1 } else { asked.limit };
    let limit = usize::try_from(limit).unwrap_or(usize::MAX);
    let mut out = Vec::new(rt.alloc());
    append_hits_in(
        rt.alloc(),
        query,
        document,
        text,
        asked.json,
        limit,
        &mut out,
    )
    .map_err(Failure::of_answer)?;
    if asked.names && !out.is_empty() {
        return print_names(rt, &[document]);
    }
    print(rt, out.as_slice())
}

fn append_lines(
    alloc: Global,
    hits: &[Hit<'_>],
    json: bool,
    out: &mut Vec<u8>,
) -> Result<(), Failure> {
    if json {
        append_json_hits(alloc, hits, out).map_err(Failure::of_line)
    } else {
        append_hits(hits, out).map_err(|_| Failure::Memory)
    }
}

// The names of a collection's documents, each behind its length.
fn names_of<S: Read + Write + Drop>(
    alloc: Global,
    connection: &mut Connection<S>,
    collection: CollName<'_>,
) -> Result<Vec<u8>, Failure> {
    let payload = connection.ask(&Command::List { collection })?;
    Vec::from_slice(alloc, payload).map_err(|_| Failure::Memory)
}

/// Prints each document of a collection as a line of JSON.
pub fn dump<R: Print + AllocGlobal, S: Read + Write + Drop>(
    rt: &R,
    connection: &mut Connection<S>,
    collection: CollName<'_>,
) -> Result<(), Failure> {
    let payload = names_of(rt.alloc(), connection, collection)?;
    let names = read_names(rt.alloc(), payload.as_slice()).map_err(Failure::of_payload)?;
    dump_all(rt, connection, collection, names.as_slice())
}

fn dump_all<R: Print + AllocGlobal, S: Read + Write + Drop>(
    rt: &R,
    connection: &mut Connection<S>,
    collection: CollName<'_>,
    names: &[DocName<'_>],
) -> Result<(), Failure> {
    for name in names {
        dump_one(rt, connection, collection, *name)?;
    }
    Ok(())
}

fn dump_one<R: Print + AllocGlobal, S: Read + Write + Drop>(
    rt: &R,
    connection: &mut Connection<S>,
    collection: CollName<'_>,
    document: DocName<'_>,
) -> Result<(), Failure> {
    let text = connection.ask(&Command::Get {
        collection,
        document,
    })?;
    let line = document_line(rt.alloc(), document.bytes, text)?;
    print(rt, line.as_slice())
}

fn document_line(alloc: Global, name: &[u8], text: &[u8]) -> Result<Vec<u8>, Failure> {
    let (Ok(name), Ok(text)) = (
        simdutf8::basic::from_utf8(name),
        simdutf8::basic::from_utf8(text),
    ) else {
        return Err(Failure::NoReply);
    };
    let mut line = Vec::new(alloc);
    match append_document(alloc, name, text, &mut line) {
        Ok(()) => Ok(line),
        Err(_) => Err(Failure::Memory),
    }
}
