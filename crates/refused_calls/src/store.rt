//! The calls of the cache, of a tenant and of all tenants.

use crate::telling::{begins, ends, tell_end, tell_fault, tell_left, unprepared};
use path_types::{ValidQuery, compile};
use query_cache::Cache;
use std::alloc::{AllocError, Global};
use std::io;
use tape_select::BUDGET;
use tenant_store::{CollName, DocName, Progress, Queries, QueryTask, StoreFault, Tenant, Tenants};

/// The keys of two tenants.
pub const KEYS: [[u8; 16]; 2] = [
    [
        0x00, 0x11, 0x22, 0x33, 0x44, 0x55, 0x66, 0x77, 0x88, 0x99, 0xaa, 0xbb, 0xcc, 0xdd, 0xee,
        0xff,
    ],
    [
        0xff, 0xee, 0xdd, 0xcc, 0xbb, 0xaa, 0x99, 0x88, 0x77, 0x66, 0x55, 0x44, 0x33, 0x22, 0x11,
        0x00,
    ],
];

/// Makes the call of this name, where it is one of these. Whether it is.
pub fn make<R: Print + AllocGlobal>(rt: &R, name: &str) -> io::Result<bool> {
    match name {
        "cache_new" => new_cache_twice(rt)?,
        "lookup" => look_up_twice(rt)?,
        "tenants_new" => new_tenants_twice(rt)?,
        "put" => put_twice(rt, false)?,
        "put_new" => put_twice(rt, true)?,
        "list" => list_twice(rt)?,
        "query" => query_twice(rt)?,
        "query_steps" => step_twice(rt)?,
        _ => return Ok(false),
    }
    Ok(true)
}

// Whether it holds a text.
fn new_cache_twice<R: Print + AllocGlobal>(rt: &R) -> io::Result<()> {
    for _ in 0..2 {
        begins(rt);
        let came = Cache::new(rt.alloc(), 2);
        ends(rt);
        match came {
            Ok(cache) => tell_left(rt, "Ok", &[u8::from(cache.holds(b"$.a"))]),
            Err(fault) => tell_fault(rt, &fault, b""),
        }
    }
    Ok(())
}

// The number of segments, and which of two texts are held.
fn look_up_twice<R: Print + AllocGlobal>(rt: &R) -> io::Result<()> {
    let mut cache = Cache::new(rt.alloc(), 1)?;
    if cache.lookup(rt.alloc(), b"$.b").is_err() {
        return unprepared(rt);
    }
    for _ in 0..2 {
        begins(rt);
        let came = match cache.lookup(rt.alloc(), b"$.a") {
            Ok(compiled) => Ok(compiled.query().segments().len()),
            Err(fault) => Err(fault),
        };
        ends(rt);
        let held = [u8::from(cache.holds(b"$.a")), u8::from(cache.holds(b"$.b"))];
        match came {
            Ok(1) => tell_left(rt, "Ok", &held),
            Ok(_) => tell_left(rt, "another query", &held),
            Err(fault) => tell_fault(rt, &fault, &held),
        }
    }
    Ok(())
}

// The place of the second key.
fn new_tenants_twice<R: Print + AllocGlobal>(rt: &R) -> io::Result<()> {
    for _ in 0..2 {
        begins(rt);
        let came = Tenants::new(rt.alloc(), &KEYS);
        ends(rt);
        match came {
            Ok(tenants) if tenants.place_of(&KEYS[1]) == Some(1) => tell_left(rt, "Ok", &[1]),
            Ok(_) => tell_left(rt, "another place", b""),
            Err(fault) => tell_fault(rt, &fault, b""),
        }
    }
    Ok(())
}

// What it holds: its counts, and the text that the call puts, of a new document or not.
fn put_twice<R: Print + AllocGlobal>(rt: &R, is_new: bool) -> io::Result<()> {
    let (Some(c), Some(d), Some(e)) = (
        CollName::read(b"c"),
        DocName::read(b"d"),
        DocName::read(b"e"),
    ) else {
        return unprepared(rt);
    };
    let mut tenant = Tenant::new(rt.alloc());
    if tenant.put(rt.alloc(), c, d, b"[1]", None).is_err() {
        return unprepared(rt);
    }
    for _ in 0..2 {
        begins(rt);
        let came = put(&mut tenant, rt.alloc(), c, e, is_new);
        ends(rt);
        tell_end(rt, came, kept(rt.alloc(), &tenant, c, e)?.as_slice());
    }
    Ok(())
}

fn put(
    tenant: &mut Tenant,
    alloc: Global,
    collection: CollName<'_>,
    document: DocName<'_>,
    is_new: bool,
) -> Result<(), StoreFault> {
    let text = b"{\"q\":[1,2]}";
    if is_new {
        tenant.put_new(alloc, collection, document, text, None)
    } else {
        tenant.put(alloc, collection, document, text, None)
    }
}

// A tenant's counts, and the text of a document that may be there.
fn kept(
    alloc: Global,
    tenant: &Tenant,
    collection: CollName<'_>,
    document: DocName<'_>,
) -> Result<Vec<u8>, AllocError> {
    let usage = tenant.usage();
    let mut bytes = Vec::from_slice(alloc, &usage.collections.to_be_bytes())?;
    bytes.extend_from_slice(&usage.documents.to_be_bytes())?;
    bytes.extend_from_slice(&usage.bytes.to_be_bytes())?;
    if let Ok(text) = tenant.get(collection, document) {
        bytes.extend_from_slice(text)?;
    }
    Ok(bytes)
}

// The names, behind what stood there.
fn list_twice<R: Print + AllocGlobal>(rt: &R) -> io::Result<()> {
    let Some(c) = CollName::read(b"c") else {
        return unprepared(rt);
    };
    let mut tenant = Tenant::new(rt.alloc());
    for name in ["b", "a", "B", "a.1"] {
        let Some(name) = DocName::read(name.as_bytes()) else {
            return unprepared(rt);
        };
        if tenant.put(rt.alloc(), c, name, b"1", None).is_err() {
            return unprepared(rt);
        }
    }
    let mut out = Vec::from_slice(rt.alloc(), b"p")?;
    for _ in 0..2 {
        begins(rt);
        let came = tenant.list(c, &mut out);
        ends(rt);
        tell_end(rt, came, out.as_slice());
    }
    Ok(())
}

// The hits, behind what stood there.
fn query_twice<R: Print + AllocGlobal>(rt: &R) -> io::Result<()> {
    let (Some(c), Some(d)) = (CollName::read(b"c"), DocName::read(b"d")) else {
        return unprepared(rt);
    };
    let Ok(query) = compile(rt.alloc(), b"$[0,0]") else {
        return unprepared(rt);
    };
    let mut tenant = Tenant::new(rt.alloc());
    if tenant.put(rt.alloc(), c, d, b"[\"s\"]", None).is_err() {
        return unprepared(rt);
    }
    let mut out = Vec::from_slice(rt.alloc(), b"p")?;
    for _ in 0..2 {
        begins(rt);
        let came = tenant.query(rt.alloc(), &query, c, &mut out);
        ends(rt);
        tell_end(rt, came, out.as_slice());
    }
    Ok(())
}

// The hits of two documents, behind what stood there.
fn step_twice<R: Print + AllocGlobal>(rt: &R) -> io::Result<()> {
    let (Some(c), Some(d), Some(e)) = (
        CollName::read(b"c"),
        DocName::read(b"d"),
        DocName::read(b"e"),
    ) else {
        return unprepared(rt);
    };
    let Ok(query) = compile(rt.alloc(), b"$[0,0][0]") else {
        return unprepared(rt);
    };
    let mut tenant = Tenant::new(rt.alloc());
    if tenant.put(rt.alloc(), c, d, b"[[\"s\"]]", None).is_err()
        || tenant.put(rt.alloc(), c, e, b"[[1,2]]", None).is_err()
    {
        return unprepared(rt);
    }
    let mut out = Vec::from_slice(rt.alloc(), b"p")?;
    for _ in 0..2 {
        begins(rt);
        let came = query_in_steps(&tenant, rt.alloc(), &query, c, &mut out);
        ends(rt);
        match came {
            Ok(true) => tell_left(rt, "Ok", out.as_slice()),
            Ok(false) => tell_left(rt, "other steps", out.as_slice()),
            Err(fault) => tell_fault(rt, &fault, out.as_slice()),
        }
    }
    Ok(())
}

// A query that pauses within the first of two documents, which are charged 4 units each, and then goes to its end. Whether it came so.
fn query_in_steps(
    tenant: &Tenant,
    alloc: Global,
    query: &ValidQuery,
    collection: CollName<'_>,
    out: &mut Vec<u8>,
) -> Result<bool, StoreFault> {
    match QueryTask::begin(tenant, alloc, query, collection, 0, out)? {
        Progress::Complete { .. } => Ok(false),
        Progress::Paused(task) => {
            let left = task.units_left();
            match task.step(tenant, alloc, collection, BUDGET, out)? {
                Progress::Complete { charge } => Ok(
                    BUDGET - 4 < left && left < BUDGET && charge == 8,
                ),
                Progress::Paused(_) => Ok(false),
            }
        }
    }
}
