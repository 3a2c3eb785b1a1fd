//! The subcommand `load`: puts one document for each line, with many requests on their way.

use crate::asking::micros_since;
use crate::connection::Connection;
use crate::notes::{fault_of, of_text};
use client_commands::{Failure, Members, Note, Operation, Quoted, status_name};
use client_frames::SendFault;
use client_lines::{LineFault, NamedText, name_in, read_document, read_name_query};
use json_tape::TextFault;
use path_types::ValidQuery;
use std::alloc::Global;
use std::collections::VecDeque;
use std::io::{BufRead, BufReader, Read, Write};
use std::rt::{Clock, Files};
use std::time::Instant;
use std::{fmt, fs};
use store_names::{CollName, DocName};
use wire_frames::Command;

/// The most requests without a reply.
const MOST_WAITING: usize = 64;

/// The number of requests without a reply at which the next are sent.
const HALF: usize = 32;

/// The bytes of frames sent at a time.
const PIECE: usize = 65_536;

/// The most bytes of a line: a byte of a text may take six.
const LONGEST_LINE: u64 = 25_165_824;

/// The most bytes of texts without a reply, which are kept to find the places of refusals.
const MOST_KEPT: usize = 8_388_608;

/// The time between two lines of progress, in microseconds.
const PROGRESS: u64 = 200_000;

/// A put that waits for its reply.
#[derive(Drop)]
struct Waiting {
    line: u64,
    number: u32,
    name: String,
    text: Vec<u8>,
}

/// A line of input, numbered from 1, with its document.
#[derive(Clone, Copy)]
struct Line<'a> {
    number: u64,
    text: &'a [u8],
}

/// What was done so far.
#[derive(Clone, Copy)]
struct Counts {
    documents: u64,
    refused: u64,
    bytes: u64,
}

/// The requests without a reply.
#[derive(Drop)]
struct Loading {
    frames: Vec<u8>,
    waiting: VecDeque<Waiting>,
    counts: Counts,
    // the bytes of the texts without a reply
    kept: usize,
    form: Form,
}

/// How refusals are told: as JSON or as lines, and whether these show the place in its line.
#[derive(Clone, Copy)]
struct Form {
    json: bool,
    shows: bool,
}

/// What is told of a line that was not put.
#[derive(Drop)]
struct Refused<'a> {
    line: u64,
    name: &'a str,
    document: &'a str,
    note: Option<Note>,
    // the place is one of the text within the line
    is_within: bool,
}

/// When the load began, and when its progress was last printed.
#[derive(Drop)]
struct Progress {
    began: Option<Instant>,
    told: u64,
}

impl<'a> fmt::Display for Refused<'a> {
    fn fmt<W: fmt::Write>(&self, f: &mut fmt::Formatter<W>) -> fmt::Result {
        write!(f, "line {}: {}", self.line, self.name)?;
        if !self.document.is_empty() {
            write!(f, ": {}", self.document)?;
        }
        match &self.note {
            Some(note) if self.is_within => write!(f, "\nin the text: {}", note.lines),
            Some(note) => write!(f, "\n{}", note.lines),
            None => Ok(()),
        }
    }
}

// A refused line as an object of JSON.
#[derive(Clone, Copy)]
struct JsonLine<'a>(&'a Refused<'a>);

impl<'a> fmt::Display for JsonLine<'a> {
    fn fmt<W: fmt::Write>(&self, f: &mut fmt::Formatter<W>) -> fmt::Result {
        let refused = self.0;
        write!(
            f,
            "{{\"error\":{},\"input_line\":{}",
            Quoted(refused.name),
            refused.line
        )?;
        if !refused.document.is_empty() {
            write!(f, ",\"document\":{}", Quoted(refused.document))?;
        }
        match &refused.note {
            Some(note) => write!(f, "{}}}", Members(note)),
            None => write!(f, "}}"),
        }
    }
}

// The place in a line at which it is refused, if there is one. It counts lines as the input does.
fn note_of(alloc: Global, line: Line<'_>, fault: LineFault, shows: bool) -> Option<Note> {
    let fault = match fault {
        LineFault::NoDocument(fault) => fault,
        LineFault::NotUtf8 => TextFault::NotUtf8,
        LineFault::NotJson => TextFault::NotJson,
        _ => return None,
    };
    let number = usize::try_from(line.number).unwrap_or(usize::MAX);
    of_text(alloc, line.text, number, fault, shows)
}

// The query that tells names, where there is one.
fn naming_of(alloc: Global, query: Option<&str>) -> Result<Option<ValidQuery>, Failure> {
    let Some(query) = query else {
        return Ok(None);
    };
    match read_name_query(alloc, query.as_bytes()) {
        Ok(Some(naming)) => Ok(Some(naming)),
        Ok(None) => Err(Failure::NameQuery),
        Err(_) => Err(Failure::Memory),
    }
}

/// Puts the documents in the file, or on standard input.
pub fn load<R: Input + Print + Eprint + Files + Clock + AllocGlobal, S: Read + Write + Drop>(
    rt: &R,
    connection: &mut Connection<S>,
    collection: CollName<'_>,
    asked: &Operation<'_>,
    is_terminal: bool,
) -> Result<(), Failure> {
    let naming = naming_of(rt.alloc(), asked.name)?;
    let form = Form {
        json: asked.json,
        shows: is_terminal,
    };
    let counts = match asked.file {
        Some(path) => match fs::open(rt, path) {
            Ok(file) => load_all(rt, connection, collection, &naming, file, form)?,
            Err(error) => return Err(Failure::of_input(&error)),
        },
        None => load_all(rt, connection, collection, &naming, rt.reader(), form)?,
    };
    end(rt, counts)
}

// Tells how many documents were put.
fn end<R: Print>(rt: &R, counts: Counts) -> Result<(), Failure> {
    let (documents, bytes) = (counts.documents, counts.bytes);
    println!(rt; "loaded {documents} documents, {bytes} bytes").map_err(|error| Failure::of_output(
        &error,
    ))?;
    if counts.refused > 0 {
        return Err(Failure::SomeRefused);
    }
    Ok(())
}

fn load_all<R: Eprint + Clock + AllocGlobal, S: Read + Write + Drop, I: Read + Drop>(
    rt: &R,
    connection: &mut Connection<S>,
    collection: CollName<'_>,
    naming: &Option<ValidQuery>,
    input: I,
    form: Form,
) -> Result<Counts, Failure> {
    let mut loading = Loading::new(rt.alloc(), form);
    let mut progress = Progress::new(rt, form.shows);
    match BufReader::new(rt.alloc(), input) {
        Ok(mut reader) => loading.load_lines(
            rt,
            connection,
            collection,
            naming,
            &mut reader,
            &mut progress,
        )?,
        Err(_) => return Err(Failure::Memory),
    }
    loading.settle(rt, connection, 0)?;
    progress.tell_counts(rt, loading.counts, 0);
    Ok(loading.counts)
}

// Reads the next line in the place of what stood there; whether there was one. Of a line above the limit, the first bytes.
fn next_line<I: BufRead + Drop>(reader: &mut I, line: &mut Vec<u8>) -> Result<bool, Failure> {
    line.clear();
    match reader.by_ref().take(LONGEST_LINE).read_until(b'\n', line) {
        Ok(0) => Ok(false),
        Ok(_) => {
            if !line.ends_with(b"\n") {
                reader
                    .skip_until(b'\n')
                    .map_err(|error| Failure::of_input(&error))?;
            }
            Ok(true)
        }
        Err(error) => Err(Failure::of_input(&error)),
    }
}

// A line without its line end.
fn without_end(line: &[u8]) -> &[u8] {
    let line = line.strip_suffix(b"\n").unwrap_or(line);
    line.strip_suffix(b"\r").unwrap_or(line)
}

impl Progress {
    // The clock is read on a terminal alone.
    fn new<R: Clock>(rt: &R, is_terminal: bool) -> Progress {
        let began = if is_terminal {
            Instant::now(rt).ok()
        } else {
            None
        };
        Progress { began, told: 0 }
    }

    // Tells how far a load is, where so many microseconds are past since it was told.
    fn tell_counts<R: Eprint + Clock>(&mut self, rt: &R, counts: Counts, pause: u64) {
        let Some(began) = &self.began else {
            return;
        };
        let now = micros_since(rt, began);
        if now.saturating_sub(self.told) < pause {
            return;
        }
        self.told = now;
        let (documents, bytes) = (counts.documents, counts.bytes);
        let rate = documents.saturating_mul(1_000_000) / now.max(1);
        let _ = eprint!(rt; "\r{documents} documents, {bytes} bytes, {rate} documents/s");
        if pause == 0 {
            let _ = eprintln!(rt;);
        }
    }
}

impl Loading {
    fn new(alloc: Global, form: Form) -> Loading {
        Loading {
            frames: Vec::new(alloc),
            waiting: VecDeque::new(alloc),
            counts: Counts {
                documents: 0,
                refused: 0,
                bytes: 0,
            },
            kept: 0,
            form,
        }
    }

    fn is_full(&self) -> bool {
        self.waiting.len() >= MOST_WAITING || self.frames.len() >= PIECE
    }

    // How many requests may stay without a reply.
    fn most_left(&self) -> usize {
        if self.kept >= MOST_KEPT { 0 } else { HALF }
    }

    // Puts the document of each line.
    fn load_lines<R: Eprint + Clock + AllocGlobal, S: Read + Write + Drop, I: BufRead + Drop>(
        &mut self,
        rt: &R,
        connection: &mut Connection<S>,
        collection: CollName<'_>,
        naming: &Option<ValidQuery>,
        reader: &mut I,
        progress: &mut Progress,
    ) -> Result<(), Failure> {
        let mut text = Vec::new(rt.alloc());
        for number in 1..u64::MAX {
            if !next_line(reader, &mut text)? {
                break;
            }
            let line = Line {
                number,
                text: without_end(text.as_slice()),
            };
            self.put(rt, connection, collection, naming, line)?;
            self.go_on(rt, connection, progress)?;
        }
        Ok(())
    }

    // Takes replies where many wait.
    fn go_on<R: Eprint + Clock + AllocGlobal, S: Read + Write + Drop>(
        &mut self,
        rt: &R,
        connection: &mut Connection<S>,
        progress: &mut Progress,
    ) -> Result<(), Failure> {
        if self.is_full() {
            self.settle(rt, connection, self.most_left())?;
            progress.tell_counts(rt, self.counts, PROGRESS);
        }
        Ok(())
    }

    // Tells of a line that was not put, and counts it.
    fn tell_refused<R: Eprint>(&mut self, rt: &R, refused: &Refused<'_>) {
        self.counts.refused = self.counts.refused.saturating_add(1);
        let _ = if self.form.json {
            eprintln!(rt; "{}", JsonLine(refused))
        } else {
            eprintln!(rt; "path_client: {refused}")
        };
    }

    // Adds the request of a line, or tells why there is none.
    fn put<R: Eprint + AllocGlobal, S: Read + Write + Drop>(
        &mut self,
        rt: &R,
        connection: &mut Connection<S>,
        collection: CollName<'_>,
        naming: &Option<ValidQuery>,
        line: Line<'_>,
    ) -> Result<(), Failure> {
        if line.text.is_empty() {
            return Ok(());
        }
        match naming {
            Some(query) => match name_in(rt.alloc(), query, line.text) {
                Ok(name) => self.add(rt, connection, collection, name, line),
                Err(fault) => self.refuse(rt, line, fault),
            },
            None => match read_document(rt.alloc(), line.text) {
                Ok(NamedText { name, text }) => {
                    let line = Line {
                        number: line.number,
                        text: text.as_bytes(),
                    };
                    self.add(rt, connection, collection, name, line)
                }
                Err(fault) => self.refuse(rt, line, fault),
            },
        }
    }

    fn refuse<R: Eprint + AllocGlobal>(
        &mut self,
        rt: &R,
        line: Line<'_>,
        fault: LineFault,
    ) -> Result<(), Failure> {
        if let LineFault::Memory = fault {
            return Err(Failure::Memory);
        }
        let note = note_of(rt.alloc(), line, fault, self.form.shows);
        self.tell_refused(
            rt,
            &Refused {
                line: line.number,
                name: fault.name(),
                document: "",
                note,
                is_within: false,
            },
        );
        Ok(())
    }

    // Tells of a document that its name or its length shuts out.
    fn shut_out<R: Eprint>(&mut self, rt: &R, line: u64, name: &str, document: &str) {
        self.tell_refused(
            rt,
            &Refused {
                line,
                name,
                document,
                note: None,
                is_within: false,
            },
        );
    }

    fn add<R: Eprint + AllocGlobal, S: Read + Write + Drop>(
        &mut self,
        rt: &R,
        connection: &mut Connection<S>,
        collection: CollName<'_>,
        name: String,
        line: Line<'_>,
    ) -> Result<(), Failure> {
        match self.frame(connection, collection, name.as_str(), line.text) {
            Ok(number) => match Vec::from_slice(rt.alloc(), line.text) {
                Ok(text) => self.wait(Waiting {
                    line: line.number,
                    number,
                    name,
                    text,
                }),
                Err(_) => Err(Failure::Memory),
            },
            Err(Failure::DocumentName) => {
                self.shut_out(rt, line.number, "BadName", name.as_str());
                Ok(())
            }
            Err(Failure::Send(SendFault::TextTooLong)) => {
                self.shut_out(rt, line.number, "TooLong", name.as_str());
                Ok(())
            }
            Err(failure) => Err(failure),
        }
    }

    // Appends the frame of a put, and answers its number.
    fn frame<S: Read + Write + Drop>(
        &mut self,
        connection: &mut Connection<S>,
        collection: CollName<'_>,
        name: &str,
        text: &[u8],
    ) -> Result<u32, Failure> {
        let Some(document) = DocName::read(name.as_bytes()) else {
            return Err(Failure::DocumentName);
        };
        let command = Command::Put {
            collection,
            document,
            text,
        };
        connection.add(&command, &mut self.frames)
    }

    fn wait(&mut self, waiting: Waiting) -> Result<(), Failure> {
        self.kept = self.kept.saturating_add(waiting.text.len());
        self.waiting.push_back(waiting).map_err(|_| Failure::Memory)
    }

    // Sends what is not sent, and takes replies until no more than so many are waited for.
    fn settle<R: Eprint + AllocGlobal, S: Read + Write + Drop>(
        &mut self,
        rt: &R,
        connection: &mut Connection<S>,
        most: usize,
    ) -> Result<(), Failure> {
        connection.send(self.frames.as_slice())?;
        self.frames.clear();
        for _ in most..self.waiting.len() {
            match self.waiting.pop_front() {
                Some(first) => self.take(rt, connection, first)?,
                None => break,
            }
        }
        Ok(())
    }

    // Takes the reply to a put.
    fn take<R: Eprint + AllocGlobal, S: Read + Write + Drop>(
        &mut self,
        rt: &R,
        connection: &mut Connection<S>,
        put: Waiting,
    ) -> Result<(), Failure> {
        self.kept = self.kept.saturating_sub(put.text.len());
        match connection.take(put.number)? {
            Some(status) => {
                let text = put.text.as_slice();
                let note = match fault_of(status) {
                    Some(fault) => of_text(rt.alloc(), text, 1, fault, self.form.shows),
                    None => None,
                };
                self.tell_refused(
                    rt,
                    &Refused {
                        line: put.line,
                        name: status_name(status),
                        document: put.name.as_str(),
                        note,
                        is_within: true,
                    },
                );
            }
            None => {
                self.counts.documents = self.counts.documents.saturating_add(1);
                self.counts.bytes = self.counts.bytes.saturating_add(put.text.len() as u64);
            }
        }
        Ok(())
    }
}
