//! The places of texts, at and around the edges of blocks, and how often a byte is looked at.

ghost use Rattle.std.specs.Prelude.{◌≤◌, length};
ghost use Rattle.json_tape.specs.Verdict.{text_limit};

use crate::trial::Trial;
use json_tape::build;
use std::alloc::Global;
use structural_index::{Index, Looks, index, index_and_copy};

// The trials.
pub fn trials(alloc: Global) -> [(&'static str, Trial); 8] {
    [
        ("short_texts", short_texts(alloc)),
        (
            "blanks_before_a_block_edge",
            blanks_before_a_block_edge(alloc),
        ),
        ("runs_over_blocks", runs_over_blocks(alloc)),
        (
            "escapes_over_a_block_edge",
            escapes_over_a_block_edge(alloc),
        ),
        ("strings_of_whole_blocks", strings_of_whole_blocks(alloc)),
        ("looks", looks()),
        ("looks_are_few", looks_are_few(alloc)),
        ("blanks_are_free", blanks_are_free(alloc)),
    ]
}

// Whether the index of a text has these places, and no string is left open or has a control byte inside.
fn has(alloc: Global, text: &[u8], places: &[u32]) -> bool
    requires { length text.now ≤ text_limit }
{
    is_indexed(alloc, text, places, (false, false))
}

// Whether an index has these places, and these flags: whether a string is left open, and whether a control byte stands in one.
fn tells(found: &Index, places: &[u32], flags: (bool, bool)) -> bool {
    found.places.as_slice() == places && (found.unclosed, found.control_inside) == flags
}

// Whether the index of a text has these places and flags, and so has the one that is made with a copy of it.
fn is_indexed(alloc: Global, text: &[u8], places: &[u32], flags: (bool, bool)) -> bool
    requires { length text.now ≤ text_limit }
{
    let (Ok(found), Ok((beside, copy))) = (index(alloc, text), index_and_copy(alloc, text)) else {
        return false;
    };
    tells(&found, places, flags) && tells(&beside, places, flags) && copy.as_slice() == text
}

fn short_texts(alloc: Global) -> Trial {
    Trial::of(&[
        has(alloc, b"", &[]),
        has(alloc, b"   ", &[]),
        has(alloc, b"1 2", &[0, 2]),
        has(alloc, b"\"a\"b", &[0, 3]),
        has(alloc, b"[1,]", &[0, 1, 2, 3]),
        has(alloc, b"\\\"", &[0]),
        has(alloc, b"{\"a\": [1]}", &[0, 1, 4, 6, 7, 8, 9]),
        is_indexed(alloc, b"\"\\\"", &[0], (true, false)),
        is_indexed(alloc, b"\"\t\"", &[0], (false, true)),
    ])
}

fn blanks_before_a_block_edge(alloc: Global) -> Trial {
    let mut behind = [b' '; 65];
    behind[64] = b'1';
    let mut over = behind;
    over[63] = b'1';
    over[64] = b'2';
    Trial::of(&[has(alloc, &behind, &[64]), has(alloc, &over, &[63])])
}

fn runs_over_blocks(alloc: Global) -> Trial {
    let mut even = [b'\\'; 132];
    even[0] = b'"';
    even[131] = b'"';
    let mut odd = [b'\\'; 133];
    odd[0] = b'"';
    odd[132] = b'"';
    Trial::of(&[
        has(alloc, &even, &[0]),
        is_indexed(alloc, &odd, &[0], (true, false)),
    ])
}

fn escapes_over_a_block_edge(alloc: Global) -> Trial {
    let mut quote = [b'a'; 66];
    quote[0] = b'"';
    quote[63] = b'\\';
    quote[64] = b'"';
    quote[65] = b'"';
    let mut backslash = quote;
    backslash[64] = b'\\';
    Trial::of(&[has(alloc, &quote, &[0]), has(alloc, &backslash, &[0])])
}

fn strings_of_whole_blocks(alloc: Global) -> Trial {
    let mut two = [b'a'; 128];
    two[0] = b'"';
    two[127] = b'"';
    let mut one = [b'a'; 64];
    one[0] = b'"';
    one[63] = b'"';
    Trial::of(&[has(alloc, &two, &[0]), has(alloc, &one, &[0])])
}

fn looks() -> Trial {
    let mut looks = Looks::new(b"abc");
    let mut batch = looks.batch();
    let is_second = batch.at(1) == b'b';
    let length = batch.length();
    looks.settle(batch);
    Trial::of(&[is_second, length == 3, looks.looked() == 1])
}

// The number of places of a text, and of the looks that `build` takes where it accepts the text.
fn looked(alloc: Global, text: &str) -> Option<(usize, Option<u64>)>
    requires { length text.now ≤ text_limit }
{
    let bytes = text.as_bytes();
    let Ok((found, _)) = index_and_copy(alloc, bytes) else {
        return None;
    };
    let mut looks = Looks::new(bytes);
    let is_accepted = build(alloc, &found, &mut looks).is_ok();
    let count = found.places.len();
    Some((
        count,
        if is_accepted {
            Some(looks.looked())
        } else {
            None
        },
    ))
}

fn looks_are_few(alloc: Global) -> Trial {
    let found = looked(alloc, "{\"name\" :   [ 1.5 , true ,  \"a\\n\" ] }");
    Trial::of(&[
        looked(alloc, "1 2") == Some((2, None)),
        looked(alloc, "[]") == Some((2, Some(2))),
        matches!(found, Some((11, Some(0..=51)))),
    ])
}

// The places and looks of bytes, or nothing where they are not UTF-8.
fn looked_of(alloc: Global, bytes: &[u8]) -> Option<(usize, Option<u64>)>
    requires { length bytes.now ≤ text_limit }
{
    match str::from_utf8(bytes) {
        Ok(text) => looked(alloc, text),
        Err(_) => None,
    }
}

fn blanks_are_free(alloc: Global) -> Trial {
    let mut one = [b' '; 1001];
    one[1000] = b'1';
    let mut brackets = [b' '; 100_002];
    brackets[0] = b'[';
    brackets[100_001] = b']';
    Trial::of(&[
        matches!(looked_of(alloc, &one), Some((1, Some(0..=4)))),
        matches!(looked_of(alloc, &brackets), Some((2, Some(0..=6)))),
    ])
}
