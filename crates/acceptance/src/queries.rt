//! The trees of query texts, and the lengths of paths.

use crate::trial::Trial;
use json_tape::{Document, NodeId};
use normal_paths::path_length;
use path_grammar::{IntLit, Query, Selector, parse};
use std::alloc::Global;

/// The trials.
pub fn trials(alloc: Global) -> [(&'static str, Trial); 2] {
    [
        ("path_lengths", path_lengths(alloc)),
        ("whole_query", whole_query(alloc)),
    ]
}

/// The length of an entry's path.
fn length_at(document: &Document, n: u32) -> Option<usize> {
    if n < document.node_count() {
        Some(path_length(document, NodeId(n)))
    } else {
        None
    }
}

/// Paths of names that are escaped, and their lengths.
fn path_lengths(alloc: Global) -> Trial {
    let text = r#"{"'":0,"\\":1,"\u000b":2,"\u0000":3,"\u007f":4,"\ud83d\ude00":5}"#;
    let Ok(document) = Document::read(alloc, text.as_bytes()) else {
        return Trial::unprepared();
    };
    Trial::of(&[
        document.node_count() == 7,
        length_at(&document, 1) == Some(7),
        length_at(&document, 6) == Some(9),
    ])
}

// Whether the second of four segments is the index -10, and the third descends.
fn is_spelled(query: &Query) -> bool {
    let [_, second, third, _] = query.segments.as_slice() else {
        return false;
    };
    third.descend
        && matches!(
            second.selectors.as_slice(),
            [Selector::Index(IntLit::Within(-10))]
        )
}

fn whole_query(alloc: Global) -> Trial {
    match parse(alloc, "$.é1 [ -10 ]\t..*[*]".as_bytes()) {
        Ok(query) => Trial::of(&[is_spelled(&query)]),
        Err(_) => Trial::unprepared(),
    }
}
