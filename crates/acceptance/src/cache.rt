//! The cache of compiled queries: what a look-up answers, and which texts are held.

use crate::trial::Trial;
use path_grammar::Selector;
use path_types::{QueryFault, ValidQuery};
use query_cache::Cache;
use std::alloc::Global;

/// The trials.
pub fn trials(alloc: Global) -> [(&'static str, Trial); 3] {
    [
        (
            "answers_whatever_it_holds",
            answers_whatever_it_holds(alloc),
        ),
        (
            "drops_the_text_used_longest_ago",
            drops_the_text_used_longest_ago(alloc),
        ),
        (
            "refuses_a_long_text_before_it_is_compiled",
            refuses_a_long_text_before_it_is_compiled(alloc),
        ),
    ]
}

/// The name that a query of one name selects.
fn name_of(query: &ValidQuery) -> Option<char> {
    let segment = query.segments().first()?;
    match segment.selectors.first()? {
        Selector::Name(name) => name.first().copied(),
        _ => None,
    }
}

/// The name that a query selects which is cached then.
fn asked(cache: &mut Cache, alloc: Global, text: &str) -> Option<char> {
    match cache.lookup(alloc, text.as_bytes()) {
        Ok(compiled) if compiled.is_cached() => name_of(compiled.query()),
        _ => None,
    }
}

/// Why a text is refused.
fn refusal(cache: &mut Cache, alloc: Global, text: &[u8]) -> Option<QueryFault> {
    match cache.lookup(alloc, text) {
        Ok(_) => None,
        Err(fault) => Some(fault),
    }
}

fn answers_whatever_it_holds(alloc: Global) -> Trial {
    let Ok(mut cache) = Cache::new(alloc, 1) else {
        return Trial::unprepared();
    };
    Trial::of(&[
        asked(&mut cache, alloc, "$.a") == Some('a'),
        asked(&mut cache, alloc, "$.b") == Some('b'),
        asked(&mut cache, alloc, "$.a") == Some('a'),
        refusal(&mut cache, alloc, b"$[") == Some(QueryFault::NotWellFormed),
        refusal(&mut cache, alloc, b"$[") == Some(QueryFault::NotWellFormed),
        asked(&mut cache, alloc, "$.a") == Some('a'),
    ])
}

fn drops_the_text_used_longest_ago(alloc: Global) -> Trial {
    let Ok(mut cache) = Cache::new(alloc, 2) else {
        return Trial::unprepared();
    };
    Trial::of(&[
        asked(&mut cache, alloc, "$.a") == Some('a'),
        asked(&mut cache, alloc, "$.b") == Some('b'),
        asked(&mut cache, alloc, "$.a") == Some('a'),
        asked(&mut cache, alloc, "$.c") == Some('c'),
        cache.holds(b"$.a"),
        !cache.holds(b"$.b"),
        cache.holds(b"$.c"),
    ])
}

/// Whether a text is admitted, and is held then.
fn admitted(cache: &mut Cache, alloc: Global, text: &[u8]) -> Result<bool, QueryFault> {
    match cache.admit(alloc, text) {
        Ok(query) => Ok(query.is_none() && cache.holds(text)),
        Err(fault) => Err(fault),
    }
}

fn refuses_a_long_text_before_it_is_compiled(alloc: Global) -> Trial {
    let Ok(mut cache) = Cache::new(alloc, 1_024) else {
        return Trial::unprepared();
    };
    let mut text = [b'a'; 4_097];
    text[0] = b'$';
    text[1] = b'.';
    text[3] = b'b';
    for at in 2..2_048usize {
        text[2 * at] = b'.';
    }
    let longest = text.get(..4_096).unwrap_or_default();
    Trial::of(&[
        admitted(&mut cache, alloc, longest) == Ok(true),
        admitted(&mut cache, alloc, &text) == Err(QueryFault::QueryTooLong),
        !cache.holds(&text),
    ])
}
