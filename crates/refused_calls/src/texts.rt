//! The calls on texts and queries.

ghost use Rattle.std.specs.Prelude.{◌≤◌, ◌+◌, ◌^◌, length};

use crate::telling::{begins, ends, tell_end, tell_fault, tell_left, unprepared};
use json_tape::{BuildFault, Document, NodeId, build};
use normal_paths::write_path;
use path_grammar::parse;
use path_server::query_text;
use path_types::compile;
use std::alloc::{AllocError, Global};
use std::io;
use structural_index::{Index, Looks, index, index_and_copy};
use tape_select::{BUDGET, Selected, select};

const OBJECT: &[u8] = b"{\"a\":[10,20],\"\\u0061b\":{\"c\":[]}}";

const ARRAYS: &str = "[[],1]";

const LETTERS: &[u8] = b"[\"a\",\"b\",\"c\",\"d\",\"e\",\"f\",\"g\"]";

const ESCAPES: &[u8] =
    b"{\"'\":0,\"\\\\\":1,\"\\u000b\":2,\"\\u0000\":3,\"\\u007f\":4,\"\\ud83d\\ude00\":5}";

/// Makes the call of this name, where it is one of these. Whether it is.
pub fn make<R: Print + AllocGlobal>(rt: &R, name: &str) -> io::Result<bool> {
    match name {
        "index" => index_twice(rt, b"{\"a\": [1]}")?,
        "index_of_arrays" => index_twice(rt, ARRAYS.as_bytes())?,
        "index_and_copy" => index_and_copy_twice(rt, ARRAYS.as_bytes())?,
        "read" => read_twice(rt, OBJECT),
        "read_of_arrays" => read_twice(rt, ARRAYS.as_bytes()),
        "read_owned" => read_owned_twice(rt)?,
        "build" => build_twice(rt)?,
        "parse" => parse_twice(rt)?,
        "select" => select_twice(rt)?,
        "write_path" => write_path_twice(rt)?,
        "query_text" => query_text_twice(rt)?,
        _ => return Ok(false),
    }
    Ok(true)
}

// The places.
fn index_twice<R: Print + AllocGlobal>(rt: &R, text: &[u8]) -> io::Result<()>
    requires { length text.now + 64 ≤ 2 ^ 32 }
{
    for _ in 0..2 {
        begins(rt);
        let came = index(rt.alloc(), text);
        ends(rt);
        match came {
            Ok(index) => tell_left(rt, "Ok", places(rt.alloc(), &index)?.as_slice()),
            Err(fault) => tell_fault(rt, &fault, b""),
        }
    }
    Ok(())
}

// The places, and the copy behind them.
fn index_and_copy_twice<R: Print + AllocGlobal>(rt: &R, text: &[u8]) -> io::Result<()>
    requires { length text.now + 64 ≤ 2 ^ 32 }
{
    for _ in 0..2 {
        begins(rt);
        let came = index_and_copy(rt.alloc(), text);
        ends(rt);
        match came {
            Ok((index, copy)) => {
                let mut told = places(rt.alloc(), &index)?;
                told.extend_from_slice(&copy)?;
                tell_left(rt, "Ok", told.as_slice());
            }
            Err(fault) => tell_fault(rt, &fault, b""),
        }
    }
    Ok(())
}

// A byte for each place.
fn places(alloc: Global, index: &Index) -> Result<Vec<u8>, AllocError> {
    let mut bytes = Vec::new(alloc);
    for place in &index.places {
        bytes.push((*place % 256) as u8)?;
    }
    Ok(bytes)
}

// The number of entries.
fn read_twice<R: Print + AllocGlobal>(rt: &R, text: &[u8]) {
    for _ in 0..2 {
        begins(rt);
        let came = Document::read(rt.alloc(), text);
        ends(rt);
        match came {
            Ok(document) => tell_left(rt, "Ok", &document.node_count().to_be_bytes()),
            Err(fault) => tell_fault(rt, &fault, b""),
        }
    }
}

// The number of entries.
fn read_owned_twice<R: Print + AllocGlobal>(rt: &R) -> io::Result<()> {
    for _ in 0..2 {
        let text = Vec::from_slice(rt.alloc(), OBJECT)?;
        begins(rt);
        let came = Document::read_owned(rt.alloc(), text);
        ends(rt);
        match came {
            Ok(document) => tell_left(rt, "Ok", &document.node_count().to_be_bytes()),
            Err(fault) => tell_fault(rt, &fault, b""),
        }
    }
    Ok(())
}

// Nothing: a tape has no readers of its own.
fn build_twice<R: Print + AllocGlobal>(rt: &R) -> io::Result<()> {
    let text = ARRAYS.as_bytes();
    let (index, _) = index_and_copy(rt.alloc(), text)?;
    for _ in 0..2 {
        let mut looks = Looks::new(text);
        begins(rt);
        let came = build(rt.alloc(), &index, &mut looks);
        ends(rt);
        match came {
            Ok(_) => tell_left(rt, "Ok", b""),
            Err(BuildFault::Memory) => tell_left(rt, "Memory", b""),
            Err(BuildFault::NotJson) => tell_left(rt, "NotJson", b""),
        }
    }
    Ok(())
}

// The number of segments.
fn parse_twice<R: Print + AllocGlobal>(rt: &R) -> io::Result<()> {
    for _ in 0..2 {
        begins(rt);
        let came = parse(rt.alloc(), b"$.b[?@[ 'a' ]==1]");
        ends(rt);
        match came {
            Ok(query) => tell_left(rt, "Ok", &query.segments.len().to_be_bytes()),
            Err(fault) => tell_fault(rt, &fault, b""),
        }
    }
    Ok(())
}

// The charge, and the numbers of the nodes.
fn select_twice<R: Print + AllocGlobal>(rt: &R) -> io::Result<()> {
    let (Ok(document), Ok(query)) = (
        Document::read(rt.alloc(), LETTERS),
        compile(rt.alloc(), b"$[5:1:-2]"),
    ) else {
        return unprepared(rt);
    };
    for _ in 0..2 {
        begins(rt);
        let came = select(rt.alloc(), &query, &document, BUDGET);
        ends(rt);
        match came {
            Ok(selected) => tell_left(rt, "Ok", numbers(rt.alloc(), &selected)?.as_slice()),
            Err(fault) => tell_fault(rt, &fault, b""),
        }
    }
    Ok(())
}

// A byte for each node.
fn numbers(alloc: Global, selected: &Selected) -> Result<Vec<u8>, AllocError> {
    let mut bytes = Vec::new(alloc);
    for node in &selected.nodes {
        bytes.push((node.0 % 256) as u8)?;
    }
    Ok(bytes)
}

// The path of the last member, behind what stood there.
fn write_path_twice<R: Print + AllocGlobal>(rt: &R) -> io::Result<()> {
    let Ok(document) = Document::read(rt.alloc(), ESCAPES) else {
        return unprepared(rt);
    };
    let node = NodeId(document.node_count() - 1);
    let mut out = Vec::from_slice(rt.alloc(), b"p")?;
    for _ in 0..2 {
        begins(rt);
        let came = write_path(rt.alloc(), &document, node, &mut out);
        ends(rt);
        tell_end(rt, came, out.as_slice());
    }
    Ok(())
}

// The hits, behind what stood there.
fn query_text_twice<R: Print + AllocGlobal>(rt: &R) -> io::Result<()> {
    let mut out = Vec::from_slice(rt.alloc(), b"p")?;
    for _ in 0..2 {
        begins(rt);
        let came = query_text(rt.alloc(), b"$.a[1]", b"{\"a\":[10,20]}", &mut out);
        ends(rt);
        tell_end(rt, came, out.as_slice());
    }
    Ok(())
}
