//! The program `admin_replies`: answers the bytes of its standard input as the administration address of a server answers those of a connection.
//!
//! The server has two tenants and answered a few requests. With the word `ready` it was said that it is ready before. Where the bytes are a
//! request in part, it prints `part`. `tests/admin_replies.py` compares what it prints.
#![tactic(auto)]

use admin_pages::{
    About, AdminRequest, Gauges, Metrics, Page, Reading, Reply, Served, Standing, append_body,
    append_reply, read_request,
};
use standard_streams::{read_past, write_whole};
use std::alloc::{AllocError, Global};
use std::process::ExitCode;
use std::rt::Env;
use std::{env, io};

/// The most bytes that are read.
const MOST_BYTES: u64 = 1_048_576;

/// The names that the server was given.
const NAMES: [&str; 3] = ["admin.example", "", "metrics.example"];

/// The seconds since the server's start.
const UPTIME: u64 = 17;

/// More lines than a page has.
const MOST_LINES: usize = 10_000;

fn main(rt: HostRuntime) -> ExitCode {
    match run(&rt) {
        Ok(true) => ExitCode::SUCCESS,
        _ => ExitCode::from(4),
    }
}

// Whether all was read and written.
fn run<R: Input + Print + Env + AllocGlobal>(rt: &R) -> io::Result<bool> {
    let is_ready = env::args(rt)?.nth(1).is_some();
    let Ok(bytes) = read_past(rt.alloc(), rt.reader(), MOST_BYTES) else {
        return Ok(false);
    };
    let reply = answered(rt.alloc(), bytes.as_slice(), is_ready)?;
    Ok(write_whole(&mut io::writer(rt), reply.as_slice()).is_ok())
}

fn answered(alloc: Global, bytes: &[u8], is_ready: bool) -> Result<Vec<u8>, AllocError> {
    let mut standing = Standing::new();
    if is_ready {
        let _ = standing.answer(AdminRequest::SayReady);
    }
    let mut out = Vec::new(alloc);
    let about = about(alloc)?;
    match read_request(&about.hosts, bytes) {
        Reading::Part => out.extend_from_slice(b"part\n")?,
        Reading::Refused(refusal) => append_short(alloc, Reply::Refused(refusal), &mut out)?,
        Reading::Asked(asked) => append_answer(alloc, &about, standing.answer(asked), &mut out)?,
    }
    Ok(out)
}

// What the server is. The second tenant has no name, and what is made up shows how a label is written.
fn about(alloc: Global) -> Result<About, AllocError> {
    let mut about = About::new(alloc);
    for name in NAMES {
        about.hosts.push(String::from_str(alloc, name)?)?;
    }
    about.tenants.push(String::from_str(alloc, "acme")?)?;
    about.version = String::from_str(alloc, "1.2.3")?;
    about.commit = String::from_str(alloc, "a\\b\"c\nd")?;
    about.proved = String::from_str(alloc, "yes")?;
    about.kit = String::from_str(alloc, "kit 1")?;
    Ok(about)
}

fn append_answer(
    alloc: Global,
    about: &About,
    reply: Reply,
    out: &mut Vec<u8>,
) -> Result<(), AllocError> {
    if reply == Reply::Metrics {
        let body = page_text(alloc, about)?;
        append_reply(reply, body.as_slice(), out)
    } else {
        append_short(alloc, reply, out)
    }
}

fn append_short(alloc: Global, reply: Reply, out: &mut Vec<u8>) -> Result<(), AllocError> {
    let mut body = Vec::new(alloc);
    append_body(reply, UPTIME, &mut body)?;
    append_reply(reply, body.as_slice(), out)
}

fn page_text(alloc: Global, about: &About) -> Result<Vec<u8>, AllocError> {
    let mut page = Page::new(&counted(), &gauges());
    let mut body = Vec::new(alloc);
    for _ in 0..MOST_LINES {
        if page.is_whole() {
            break;
        }
        page.append_line(about, &mut body)?;
    }
    Ok(body)
}

fn counted() -> Metrics {
    let mut metrics = Metrics::new();
    for (command, status, tenant, micros, units, refused, is_slow) in [
        (1, 0, Some(0), 100, 0, 0, false),
        (5, 0, Some(1), 101, 700, 0, false),
        (5, 22, Some(1), 2_000_000, 0, 90, true),
        (0, 255, None, 1, 0, 0, false),
        (8, 23, Some(1), 60_000_000, 0, 0, false),
    ] {
        metrics.count(&Served {
            command,
            status,
            tenant,
            micros,
            units,
            refused,
            is_slow,
        });
    }
    metrics
}

fn gauges() -> Gauges {
    let mut gauges = Gauges {
        uptime: UPTIME,
        is_ready: true,
        open: 5,
        open_limit: 10_000,
        is_refused: false,
        waiting: 0,
        buffered: 65_536,
        limit: 1_073_741_824,
        connections: 1,
        read: 1_000,
        written: 2_000,
        dropped: 3,
        lost: 4,
        tenants: 2,
        collections: [0; 256],
        documents: [0; 256],
        texts: [0; 256],
        memory: [0; 256],
        waiting_of: [0; 256],
    };
    gauges.collections[1] = 2;
    gauges.documents[1] = 3;
    gauges.texts[1] = 4;
    gauges.memory[1] = 6;
    gauges.waiting_of[1] = 5;
    gauges
}
