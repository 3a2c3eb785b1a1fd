//! Texts and queries, each work by itself.

use json_tape::Document;
use path_grammar::parse;
use path_types::check;
use std::alloc::Global;
use tape_select::Plan;

/// What the calls of this module answer.
#[repr(C)]
#[derive(Clone, Copy, Drop)]
pub struct Counted {
    /// The values of a text, the segments of a query, or the nodes that a query selects.
    pub count: u64,
    /// Whether the text or the query was refused, or memory was.
    pub refused: bool,
}

pub const REFUSED: Counted = Counted {
    count: 0,
    refused: true,
};

/// Reads a text.
#[unsafe(no_mangle)]
pub extern "C" fn path_bench_read(alloc: Global, text: &[u8]) -> Counted {
    match Document::read(alloc, text) {
        Ok(document) => Counted {
            count: u64::from(document.node_count()),
            refused: false,
        },
        Err(_) => REFUSED,
    }
}

/// Parses and checks a query so many times.
#[unsafe(no_mangle)]
pub extern "C" fn path_bench_compile(alloc: Global, query: &[u8], rounds: usize) -> Counted {
    let mut count = 0;
    for _ in 0..rounds {
        let Ok(parsed) = parse(alloc, query) else {
            return REFUSED;
        };
        let Ok(valid) = check(parsed) else {
            return REFUSED;
        };
        count = valid.segments().len() as u64;
    }
    Counted {
        count,
        refused: false,
    }
}

/// Reads a text, compiles a query and makes its plan, once, and evaluates it so many times.
#[unsafe(no_mangle)]
pub extern "C" fn path_bench_select(
    alloc: Global,
    text: &[u8],
    query: &[u8],
    rounds: usize,
) -> Counted {
    let Ok(document) = Document::read(alloc, text) else {
        return REFUSED;
    };
    let Ok(parsed) = parse(alloc, query) else {
        return REFUSED;
    };
    let Ok(valid) = check(parsed) else {
        return REFUSED;
    };
    let Ok(plan) = Plan::new(alloc, &valid) else {
        return REFUSED;
    };
    let mut count = 0;
    for _ in 0..rounds {
        let Ok(selected) = plan.select(alloc, &document, u64::MAX) else {
            return REFUSED;
        };
        count = selected.nodes.len() as u64;
    }
    Counted {
        count,
        refused: false,
    }
}
