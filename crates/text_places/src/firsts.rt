//! The first bracket or brace that opens a level too many, and the first number beyond the limits.

ghost use Rattle.std.specs.Prelude.{◌≡◌, ◌+◌, ◌<◌, ◌≤◌, ◌⊎◌, ◌↔◌, length, drop, None, IfOk, IfSome, IsTrue};
ghost use Rattle.decimal_order.specs.Limits.{IsWithinLimits};
ghost use Rattle.decimal_order.specs.Number.{IsNumber};
ghost use Rattle.json_text.specs.Answer.{IsJson};
ghost use Rattle.json_text.specs.Scanning.{string_end};
ghost use Rattle.json_text.specs.Tokens.{atom_end, is_atom as is_atom_byte};
ghost use Rattle.json_text.specs.Verdict.{Applies, depth_limit};
ghost use Rattle.json_text.specs.declared.modes.Mode.TheVariants.{Between};
ghost use Rattle.json_text.specs.declared.tape.TextFault.TheVariants.{NumberLimit, TooDeep};
ghost use Rattle.text_places.specs.Firsts.{IsBeyond, IsFirst, IsBetween, OpensTooDeep, fault_of, is_sought};

use decimal_order::{scan, within_limits};
use json_strings::quote_past;
use json_tape::DEPTH_LIMIT;
use json_walk::has_short_exponent;
use std::alloc::{AllocError, Global};
use structural_index::Looks;
use text_faults::{Expected, not_json};

/// Where the first array or object that lies in as many others as are allowed begins, if a text has one.
pub fn too_deep(alloc: Global, text: &str) -> Result<Option<usize>, AllocError>
    ensures found { IfOk result (λ found. IfSome found (λ at. IsFirst OpensTooDeep text.now at)) }
    ensures none { IfOk result (λ found. found ≡ None → Applies text.now TooDeep → ⊥) }
{
    first(alloc, text, Sought::Depth)
}

/// Where the first number beyond the limits begins, if a text has one.
pub fn number_limit(alloc: Global, text: &str) -> Result<Option<usize>, AllocError>
    ensures found { IfOk result (λ found. IfSome found (λ at. IsFirst IsBeyond text.now at)) }
    ensures none { IfOk result (λ found. found ≡ None → Applies text.now NumberLimit → ⊥) }
{
    first(alloc, text, Sought::Number)
}

// What a text is searched for.
#[derive(Clone, Copy)]
pub enum Sought {
    Depth,
    Number,
}

fn first(alloc: Global, text: &str, sought: Sought) -> Result<Option<usize>, AllocError>
    ensures found { IfOk result (λ found. IfSome found (λ at. IsFirst (is_sought sought) text.now at)) }
    ensures none { IfOk result (λ found. found ≡ None → Applies text.now (fault_of sought) → ⊥) }
{
    if is_json(alloc, text)? {
        Ok(first_in(text.as_bytes(), sought))
    } else {
        Ok(None)
    }
}

fn is_json(alloc: Global, text: &str) -> Result<bool, AllocError>
    ensures { IfOk result (λ is. IsTrue is ↔ IsJson text.now) }
{
    let place = not_json(alloc, text)?;
    Ok(place.at == text.len() && place.expected == Expected::End)
}

// The first place that is sought in a text that is JSON.
fn first_in(text: &[u8], sought: Sought) -> Option<usize>
    requires { IsJson text.now }
    ensures found { IfSome result (λ at. IsFirst (is_sought sought) text.now at) }
    ensures none { result ≡ None → Applies text.now (fault_of sought) → ⊥ }
{
    let mut at = 0;
    // how many containers are open
    let mut level = 0;
    while at < text.len() {
        let byte = text[at];
        if is_between(byte) {
            at += 1;
            continue;
        }
        if byte == b'"' {
            match string_past(text, at + 1) {
                Some(end) => at = end,
                None => return None,
            }
            continue;
        }
        if is_opening(byte) {
            if is_too_deep(sought, level) {
                return Some(at);
            }
            level += 1;
            at += 1;
            continue;
        }
        if is_closing(byte) {
            level -= 1;
            at += 1;
            continue;
        }
        let end = word_past(text, at);
        if is_beyond(sought, &text[at..end]) {
            return Some(at);
        }
        at = end;
    }
    None
}

#[inline(always)]
fn is_between(byte: u8) -> bool
    ensures { IsTrue result ↔ IsBetween byte }
{
    byte == b',' || byte == b':' || byte == b' ' || byte == b'\n' || byte == b'\r' || byte == b'\t'
}

#[inline(always)]
fn is_opening(byte: u8) -> bool
    ensures { IsTrue result ↔ (byte ≡ 91) ⊎ (byte ≡ 123) }
{
    byte == b'[' || byte == b'{'
}

#[inline(always)]
fn is_closing(byte: u8) -> bool
    ensures { IsTrue result ↔ (byte ≡ 93) ⊎ (byte ≡ 125) }
{
    byte == b']' || byte == b'}'
}

#[inline(always)]
fn is_too_deep(sought: Sought, level: usize) -> bool
    ensures { IsTrue result ↔ (sought ≡ Sought.Depth) × (level ≡ depth_limit) }
{
    matches!(sought, Sought::Depth) && level == DEPTH_LIMIT
}

#[inline(always)]
fn is_beyond(sought: Sought, word: &[u8]) -> bool
    ensures { IsTrue result ↔ (sought ≡ Sought.Number) × IsNumber word.now × (IsWithinLimits word.now → ⊥) }
{
    matches!(sought, Sought::Number) && !has_short_exponent(word) && is_long(word)
}

// Whether these bytes are a number beyond the limits.
#[inline(never)]
fn is_long(word: &[u8]) -> bool
    ensures { IsTrue result ↔ IsNumber word.now × (IsWithinLimits word.now → ⊥) }
{
    match scan(word) {
        Some(decimal) => !within_limits(&decimal),
        None => false,
    }
}

// The place past the quote that closes a string whose characters begin here.
#[inline(always)]
fn string_past(text: &[u8], start: usize) -> Option<usize>
    requires { start ≤ length text.now }
    ensures { result ≡ string_end Between start (drop start text.now) }
{
    let mut looks = Looks::new(text);
    let mut batch = looks.batch();
    let end = quote_past(&mut batch, start);
    looks.settle(batch);
    end
}

// The place past the word or number that begins here.
#[inline(always)]
fn word_past(text: &[u8], start: usize) -> usize
    requires { start ≤ length text.now }
    ensures value { result ≡ atom_end start (drop start text.now) }
    ensures behind { start ≤ result }
    ensures inside { result ≤ length text.now }
{
    let mut at = start;
    while at < text.len() && is_atom(text[at]) {
        at += 1;
    }
    at
}

#[inline(always)]
fn is_atom(byte: u8) -> bool
    ensures { result ≡ is_atom_byte byte }
{
    !(is_between(byte) || is_opening(byte) || is_closing(byte) || byte == b'"')
}
