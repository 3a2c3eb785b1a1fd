//! The beginning that two strings of a text have in common, by their bytes.

ghost use Rattle.std.specs.Prelude.{◌≡◌, ◌<◌, ◌≤◌, ◌-◌, length, take, drop, IfSome, IsTrue, IsUtf8};
ghost use Rattle.tape_values.specs.Fronts.{HaveRests, IsSettled};

use crate::settling::are_settled;
use memchr::memrchr;
use simdutf8::basic::from_utf8;

// So many bytes are compared at once.
const BLOCK: usize = 256;

/// A beginning of fewer bytes is not passed.
pub const FEW: usize = 64;

// Nor is one of less than this part of the longer string: to see that the rest is UTF-8 would take longer.
const PART: usize = 64;

// So many bytes tell whether an escape is open behind them.
const TOLD: usize = 24;

// So many places are tried.
const TRIES: usize = 8;

// How many bytes two texts have in common at their beginning.
fn common(a: &[u8], b: &[u8]) -> usize
    ensures first { result ≤ length a.now }
    ensures second { result ≤ length b.now }
    ensures same { take result a.now ≡ take result b.now }
{
    let end = a.len().min(b.len());
    let mut at = 0;
    while BLOCK <= end - at && a[at..at + BLOCK] == b[at..at + BLOCK] {
        at += BLOCK;
    }
    while at < end && a[at] == b[at] {
        at += 1;
    }
    at
}

// The last place up to this one at which a character of UTF-8 may begin.
fn boundary(text: &[u8], place: usize) -> usize
    ensures { result ≤ place }
{
    let mut at = place;
    while 0 < at && at < text.len() && 0x80 <= text[at] && text[at] < 0xC0 {
        at -= 1;
    }
    at
}

// Whether no escape is open behind the bytes.
fn leave_nothing_open(text: &[u8]) -> bool
    ensures { IsTrue result → IsSettled text.now }
{
    let (head, tail) = text.split_at(boundary(text, text.len().saturating_sub(TOLD)));
    let Ok(characters) = from_utf8(tail) else {
        return false;
    };
    if !are_settled(characters) {
        return false;
    }
    match from_utf8(head) {
        Ok(_) => true,
        Err(_) => false,
    }
}

// Where the backslashes begin that end there.
fn backslashes_start(text: &[u8], end: usize) -> usize
    requires { end ≤ length text.now }
    ensures { result ≤ end }
{
    let mut at = end;
    while 0 < at && text[at - 1] == b'\\' {
        at -= 1;
    }
    at
}

// The last place up to this one before which no escape is open, of this one and the beginnings of a few escapes before it.
fn settled_place(text: &[u8], place: usize) -> Option<usize>
    requires { place ≤ length text.now }
    ensures { IfSome result (λ end. (64 ≤ end) × (end ≤ place) × IsSettled (take (end - 1) (drop 1 text.now))) }
{
    let mut end = place;
    for _ in 0..TRIES {
        if end < FEW {
            return None;
        }
        if leave_nothing_open(&text[1..end]) {
            return Some(end);
        }
        let last = memrchr(b'\\', &text[..end])?;
        end = backslashes_start(text, last);
    }
    None
}

// The characters of a string from a place on, without the last quote.
fn rest_from(text: &[u8], place: usize) -> Option<&str>
    requires { place < length text.now }
    ensures { IfSome result (λ rest. (rest.now ≡ take (length text.now - 1 - place) (drop place text.now)) × IsUtf8 rest.now) }
{
    from_utf8(&text[place..text.len() - 1]).ok()
}

/// What is left of two strings with their quotes behind a long beginning that they have in common.
pub fn rests<'a>(a: &'a [u8], b: &'a [u8]) -> Option<(&'a str, &'a str)>
    ensures { IfSome result (λ rests. HaveRests a.now b.now rests.0.now rests.1.now) }
{
    let shorter = a.len().min(b.len());
    if shorter < FEW {
        return None;
    }
    let most = common(a, b).min(shorter - 1);
    let place = settled_place(a, boundary(a, most))?;
    if place < a.len().max(b.len()) / PART {
        return None;
    }
    let left = rest_from(a, place)?;
    let right = rest_from(b, place)?;
    Some((left, right))
}
