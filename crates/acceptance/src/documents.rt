//! Documents seen through every reader.

use crate::trial::Trial;
use json_tape::{Document, Kind, Lead, NodeId, Progress, ReadTask, Scalars, TextFault};
use std::alloc::Global;

// Of the hashes of names in texts that are read in shares. Any number would do.
const FACTOR: u64 = 0xD6E8_FEB8_6659_FD93;

const SAMPLE: &[u8] = b"{\"a\":[1,{\"b\":\"\\u00e9\\ud83d\\ude00\"}],\"c\":-1.5e+3}";

/// The trials.
pub fn trials(alloc: Global) -> [(&'static str, Trial); 11] {
    [
        ("shows_values", shows_values(alloc)),
        ("keeps_a_text_of_its_own", keeps_a_text_of_its_own(alloc)),
        ("shows_what_stands_around", shows_what_stands_around(alloc)),
        (
            "entries_end_behind_their_parts",
            entries_end_behind_their_parts(alloc),
        ),
        ("goes_over_children", goes_over_children(alloc)),
        ("shows_names", shows_names(alloc)),
        ("finds_members", finds_members(alloc)),
        ("finds_members_near", finds_members_near(alloc)),
        (
            "finds_members_near_in_wide_objects",
            finds_members_near_in_wide_objects(alloc),
        ),
        ("reads_in_shares", reads_in_shares(alloc)),
        (
            "takes_verdicts_on_its_text",
            takes_verdicts_on_its_text(alloc),
        ),
    ]
}

/// Numbers of entries that stand around an entry.
#[derive(Clone, Copy)]
struct Around {
    parent: Option<NodeId>,
    first_child: Option<NodeId>,
    next_sibling: Option<NodeId>,
    after: u32,
}

fn some(n: u32) -> Option<NodeId> {
    Some(NodeId(n))
}

/// Whether an entry has this kind, text, length and way from its parent.
fn is(
    document: &Document,
    n: u32,
    kind: Kind,
    text: &[u8],
    length: Option<u32>,
    lead: Lead,
) -> bool {
    if n >= document.node_count() {
        return false;
    }
    let node = NodeId(n);
    document.kind(node) == kind
        && document.text(node) == text
        && document.length(node) == length
        && document.lead(node) == lead
}

/// Whether an entry stands so.
fn stands(document: &Document, n: u32, around: Around) -> bool {
    if n >= document.node_count() {
        return false;
    }
    let node = NodeId(n);
    document.parent(node) == around.parent
        && document.first_child(node) == around.first_child
        && document.next_sibling(node) == around.next_sibling
        && document.after(node) == around.after
}

fn shows_values(alloc: Global) -> Trial {
    let Ok(document) = Document::read(alloc, SAMPLE) else {
        return Trial::unprepared();
    };
    let array = b"[1,{\"b\":\"\\u00e9\\ud83d\\ude00\"}]";
    let inner = b"{\"b\":\"\\u00e9\\ud83d\\ude00\"}";
    let text = b"\"\\u00e9\\ud83d\\ude00\"";
    Trial::of(&[
        document.source() == SAMPLE,
        document.root() == NodeId(0),
        document.node_count() == 6,
        is(&document, 0, Kind::Object, SAMPLE, Some(2), Lead::Root),
        is(&document, 1, Kind::Array, array, Some(2), Lead::Name),
        is(&document, 2, Kind::Number, b"1", None, Lead::Index(0)),
        is(&document, 3, Kind::Object, inner, Some(1), Lead::Index(1)),
        is(&document, 4, Kind::Text, text, Some(2), Lead::Name),
        is(&document, 5, Kind::Number, b"-1.5e+3", None, Lead::Name),
    ])
}

/// A document of a text of its own, or why there is none.
fn read_owned(alloc: Global, text: &[u8]) -> Result<Document, TextFault> {
    match Vec::from_slice(alloc, text) {
        Ok(text) => Document::read_owned(alloc, text),
        Err(_) => Err(TextFault::Memory),
    }
}

fn keeps_a_text_of_its_own(alloc: Global) -> Trial {
    let Ok(document) = read_owned(alloc, SAMPLE) else {
        return Trial::unprepared();
    };
    let cut = read_owned(alloc, &SAMPLE[1..]).err();
    let broken = read_owned(alloc, b"\"\xff\"").err();
    Trial::of(&[
        document.source() == SAMPLE,
        document.node_count() == 6,
        matches!(cut, Some(TextFault::NotJson)),
        matches!(broken, Some(TextFault::NotUtf8)),
    ])
}

fn shows_what_stands_around(alloc: Global) -> Trial {
    let Ok(document) = Document::read(alloc, SAMPLE) else {
        return Trial::unprepared();
    };
    let mut trial = Trial::new();
    for (n, parent, first_child, next_sibling, after) in [
        (0u32, None, some(1), None, 6u32),
        (1, some(0), some(2), some(5), 5),
        (2, some(1), None, some(3), 3),
        (3, some(1), some(4), None, 5),
        (4, some(3), None, None, 5),
        (5, some(0), None, None, 6),
    ] {
        let around = Around {
            parent,
            first_child,
            next_sibling,
            after,
        };
        trial.case(stands(&document, n, around));
    }
    trial
}

/// The entry behind an entry and all in it.
fn after(document: &Document, n: u32) -> Option<u32> {
    if n < document.node_count() {
        Some(document.after(NodeId(n)))
    } else {
        None
    }
}

fn entries_end_behind_their_parts(alloc: Global) -> Trial {
    let Ok(document) = Document::read(alloc, b"[[],1]") else {
        return Trial::unprepared();
    };
    Trial::of(&[
        document.node_count() == 3,
        after(&document, 0) == Some(3),
        after(&document, 1) == Some(2),
        after(&document, 2) == Some(3),
    ])
}

/// Whether an entry has these children.
fn has_children(document: &Document, n: u32, wanted: &[u32]) -> bool {
    if n >= document.node_count() {
        return false;
    }
    let mut left = wanted;
    for child in document.children(NodeId(n)) {
        match left.split_first() {
            Some((first, rest)) if *first == child.0 => left = rest,
            _ => return false,
        }
    }
    left.is_empty()
}

fn goes_over_children(alloc: Global) -> Trial {
    let Ok(document) = Document::read(alloc, b"[1,[2,[]],{\"a\":{},\"b\":3},4]") else {
        return Trial::unprepared();
    };
    Trial::of(&[
        has_children(&document, 0, &[1, 2, 5, 8]),
        has_children(&document, 1, &[]),
        has_children(&document, 2, &[3, 4]),
        has_children(&document, 4, &[]),
        has_children(&document, 5, &[6, 7]),
        has_children(&document, 8, &[]),
    ])
}

/// Whether these are the characters that come.
fn are(scalars: Scalars<'_>, wanted: &[char]) -> bool {
    let mut left = wanted;
    for scalar in scalars {
        match left.split_first() {
            Some((first, rest)) if *first == scalar => left = rest,
            _ => return false,
        }
    }
    left.is_empty()
}

/// Whether an entry has this name and not the name `a`.
fn is_named(document: &Document, n: u32, name: &[char]) -> bool {
    if n >= document.node_count() {
        return false;
    }
    let node = NodeId(n);
    document.has_name(node)
        && document.name_is(node, name)
        && !document.name_is(node, &['a'])
        && are(document.name_scalars(node), name)
}

/// Whether an entry has no name.
fn is_nameless(document: &Document, n: u32) -> bool {
    n < document.node_count()
        && !document.has_name(NodeId(n))
        && !document.name_is(NodeId(n), &['a'])
}

/// Whether an entry is a string of these characters.
fn spells(document: &Document, n: u32, wanted: &[char]) -> bool {
    if n >= document.node_count() {
        return false;
    }
    let node = NodeId(n);
    document.kind(node) == Kind::Text && are(document.string_scalars(node), wanted)
}

fn shows_names(alloc: Global) -> Trial {
    let text = b"{\"\\u0061\xc3\xa9\":\"\\ud83d\\ude00\\n\",\"\":[0]}";
    let Ok(document) = Document::read(alloc, text) else {
        return Trial::unprepared();
    };
    Trial::of(&[
        document.node_count() == 4,
        is_nameless(&document, 0),
        is_named(&document, 1, &['a', '\u{e9}']),
        is_named(&document, 2, &[]),
        is_nameless(&document, 3),
        spells(&document, 1, &['\u{1f600}', '\n']),
    ])
}

/// The member of this name of an entry.
fn found_member(document: &Document, n: u32, name: &[char]) -> Option<NodeId> {
    if n < document.node_count() {
        document.member(NodeId(n), name)
    } else {
        None
    }
}

fn finds_members(alloc: Global) -> Trial {
    let text = b"{\"ab\":{\"b\":0},\"b\":[1],\"\":2,\"\\u0061\":3,\"a\xc3\xa9\":4,\"\\\\\":5}";
    let Ok(document) = Document::read(alloc, text) else {
        return Trial::unprepared();
    };
    Trial::of(&[
        document.node_count() == 9,
        found_member(&document, 0, &['a', 'b']) == some(1),
        found_member(&document, 0, &['b']) == some(3),
        found_member(&document, 0, &[]) == some(5),
        found_member(&document, 0, &['a']) == some(6),
        found_member(&document, 0, &['a', '\u{e9}']) == some(7),
        found_member(&document, 0, &['\\']) == some(8),
        found_member(&document, 0, &['a', 'c']).is_none(),
        found_member(&document, 0, &['a', 'b', 'c']).is_none(),
        found_member(&document, 0, &['\u{e9}']).is_none(),
        found_member(&document, 1, &['b']) == some(2),
        found_member(&document, 2, &['b']).is_none(),
        found_member(&document, 3, &['b']).is_none(),
        found_member(&document, 4, &['b']).is_none(),
        found_member(&document, 8, &['b']).is_none(),
    ])
}

/// The member of this name of an entry, looked for so many numbers behind it first.
fn found_near(document: &Document, n: u32, name: &[char], distance: u32) -> Option<NodeId> {
    if n < document.node_count() {
        document.member_near(NodeId(n), name, distance)
    } else {
        None
    }
}

fn finds_members_near(alloc: Global) -> Trial {
    let text = b"{\"a\":{\"b\":0},\"b\":[1],\"\\u0063\":3}";
    let Ok(document) = Document::read(alloc, text) else {
        return Trial::unprepared();
    };
    let mut trial = Trial::of(&[document.node_count() == 6]);
    for distance in [0, 1, 2, 3, 4, 5, 6, u32::MAX] {
        trial.case(found_near(&document, 0, &['a'], distance) == some(1));
        trial.case(found_near(&document, 0, &['b'], distance) == some(3));
        trial.case(found_near(&document, 0, &['c'], distance) == some(5));
        trial.case(found_near(&document, 0, &['d'], distance).is_none());
        trial.case(found_near(&document, 1, &['b'], distance) == some(2));
        trial.case(found_near(&document, 1, &['c'], distance).is_none());
        trial.case(found_near(&document, 3, &['b'], distance).is_none());
        trial.case(found_near(&document, 5, &['c'], distance).is_none());
    }
    trial
}

fn finds_members_near_in_wide_objects(alloc: Global) -> Trial {
    let text =
        b"{\"a\":0,\"b\":0,\"c\":0,\"d\":0,\"e\":0,\"f\":0,\"g\":0,\"h\":0,\"i\":0,\"j\":0,\"k\":0,\"l\":0,\"m\":0,\"n\":0,\"o\":0,\"p\":0,\"q\":0,\"r\":0}";
    let Ok(document) = Document::read(alloc, text) else {
        return Trial::unprepared();
    };
    let mut trial = Trial::of(&[document.node_count() == 19]);
    for distance in [0, 1, 17, 18, 19] {
        trial.case(found_near(&document, 0, &['a'], distance) == some(1));
        trial.case(found_near(&document, 0, &['r'], distance) == some(18));
        trial.case(found_near(&document, 0, &['s'], distance).is_none());
    }
    trial
}

/// A text that was read in shares.
#[derive(Drop)]
struct Shared {
    shares: u32,
    // The number of values.
    read: Result<u32, TextFault>,
}

/// Reads a text in shares of so many places of its index.
fn read_in_shares(alloc: Global, text: &[u8], places: usize) -> Shared {
    let mut task = match ReadTask::begin(alloc, text, FACTOR) {
        Ok(task) => task,
        Err(fault) => {
            return Shared {
                shares: 0,
                read: Err(fault),
            };
        }
    };
    for shares in 1..1_000u32 {
        match task.step(alloc, places) {
            Progress::Paused(next) => task = next,
            Progress::Complete(verdict) => {
                let read = match verdict.on(text) {
                    Some(Ok(document)) => Ok(document.node_count()),
                    Some(Err(fault)) => Err(fault),
                    None => Err(TextFault::Memory),
                };
                return Shared { shares, read };
            }
        }
    }
    Shared {
        shares: 0,
        read: Err(TextFault::Memory),
    }
}

// The sizes of shares that are tried.
const PLACES: [usize; 4] = [1, 2, 7, 400];

fn reads_in_shares(alloc: Global) -> Trial {
    let mut trial = Trial::new();
    let text = b"[1,[2,[]],{\"a\":{},\"b\":3},4]";
    for places in PLACES {
        let shared = read_in_shares(alloc, text, places);
        // 23 tokens, of which a share passes a child and its comma at least
        trial.case((places == 400) == (shared.shares == 1));
        trial.case(shared.shares <= 23);
        trial.case(matches!(shared.read, Ok(9)));
        let broken = read_in_shares(alloc, b"[1,[2,[]],3", places);
        trial.case(matches!(broken.read, Err(TextFault::NotJson)));
        let more = read_in_shares(alloc, b"[1,[2,[]]],3", places);
        trial.case(matches!(more.read, Err(TextFault::NotJson)));
        let large = read_in_shares(alloc, b"[1,2,1e1000000000]", places);
        trial.case(matches!(large.read, Err(TextFault::NumberLimit)));
        let lone = read_in_shares(alloc, b"[1,2,\"\\ud800\"]", places);
        trial.case(matches!(lone.read, Err(TextFault::LoneSurrogate)));
        let twice = read_in_shares(alloc, b"[{\"a\":1,\"b\":2,\"\\u0061\":3}]", places);
        trial.case(matches!(twice.read, Err(TextFault::DuplicateName)));
    }
    trial
}

fn takes_verdicts_on_its_text(alloc: Global) -> Trial {
    let mut trial = Trial::new();
    let own = known_text(alloc, b"[1,2]", b"[1,2]");
    trial.case(matches!(own, Ok(3)));
    let of_another = known_text(alloc, b"[1,2]", b"[1,2,3]");
    trial.case(matches!(of_another, Ok(4)));
    let refused = known_text(alloc, b"[1,2", b"[1,2");
    trial.case(matches!(refused, Err(TextFault::NotJson)));
    let fault_of_another = known_text(alloc, b"[1,2", b"[1,2]");
    trial.case(matches!(fault_of_another, Ok(3)));
    trial
}

/// Reads a text where the verdict on the first one is known: the number of its values.
fn known_text(alloc: Global, read: &[u8], text: &[u8]) -> Result<u32, TextFault> {
    let verdict = match ReadTask::begin(alloc, read, FACTOR) {
        Ok(task) => match task.step(alloc, 400) {
            Progress::Complete(verdict) => Some(verdict),
            Progress::Paused(_) => None,
        },
        Err(_) => None,
    };
    match Document::read_known(alloc, text, verdict) {
        Ok(document) => Ok(document.node_count()),
        Err(fault) => Err(fault),
    }
}
