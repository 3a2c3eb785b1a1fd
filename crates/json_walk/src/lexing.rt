// The tokens of a text, by its places: names, and what a value begins with.

ghost use Rattle.std.specs.Prelude.{◌≡◌, ◌≢◌, ◌+◌, ◌-◌, ◌≤◌, ◌<◌, ◌↔◌, Ok, length, slice_index, IfSome, IsTrue, true, false};
ghost use Rattle.decimal_order.specs.Number.{IsNumber};
ghost use Rattle.json_text.specs.Tokens.{is_blank as blank};
ghost use Rattle.json_strings.specs.Letters.{word_at};
ghost use Rattle.json_walk.specs.Lexing.{IsWordKind, Marked};
ghost use Rattle.tape_cells.specs.Opened.{HasRoom};
ghost use Rattle.json_walk.specs.Walked.{IsNameAt, IsValueAt, FitsTape, source_in, end_of, price_of};
ghost use Rattle.json_text.specs.Verdict.{text_limit};
ghost use Rattle.json_walk.specs.Placing.{IsIndexed, ClosesBefore, StringEnds, end_in};
ghost use Rattle.structural_index.specs.Runs.{AreDigitsBut};

use crate::exponents::has_short_exponent;
use crate::short_numbers::is_short_decimal;
use decimal_order::{late_exponents_keep_limits, scan};
use json_strings::quote_past;
use json_text::{Extent, Kind, Shape};
use name_stamps::Quoted;
use std::simd::prelude::*;
use structural_index::{Batch, Run};

/// What a value begins with: all of it, or the bracket or brace that opens it. Strings and numbers are kinds of their own, so that
/// the compiler knows their kinds where their entries are made.
#[derive(Clone, Copy)]
pub enum Lexed {
    Text(Extent),
    Number(Extent),
    Word(Kind, Extent),
    Opens(Shape),
}

// Whether these bytes are these four.
#[inline(always)]
fn are_four(bytes: &[u8], four: [u8; 4]) -> bool
    ensures { IsTrue result ↔ (bytes.now ≡ four) }
{
    bytes.len() == 4
        && bytes[0] == four[0]
        && bytes[1] == four[1]
        && bytes[2] == four[2]
        && bytes[3] == four[3]
}

#[inline(always)]
fn is_number(bytes: &[u8]) -> bool
    ensures { IsTrue result ↔ IsNumber bytes.now }
{
    scan(bytes).is_some()
}

// What the bytes of a word or a number are. A long number may be beyond the limits of numbers.
#[derive(Clone, Copy)]
pub enum WordKind {
    Null,
    False,
    True,
    Number,
    LongNumber,
    Nothing,
}

// What the bytes are. It stands out of line, and is marked as rare, so that the loop over places keeps its registers: few words and numbers take it.
#[cold]
#[inline(never)]
fn word_kind_slowly(bytes: &[u8]) -> WordKind
    ensures { IsWordKind bytes.now result }
{
    if are_four(bytes, *b"null") {
        return WordKind::Null;
    }
    if are_four(bytes, *b"true") {
        return WordKind::True;
    }
    if bytes.len() == 5 && bytes[4] == b'e' && are_four(&bytes[..4], *b"fals") {
        return WordKind::False;
    }
    if !is_number(bytes) {
        return WordKind::Nothing;
    }
    if has_short_exponent(bytes) {
        WordKind::Number
    } else {
        WordKind::LongNumber
    }
}

// The first four letters of the words, the first one the lowest byte.
const NULL: u32 = 0x6c6c_756e;

const TRUE: u32 = 0x6575_7274;

const FALS: u32 = 0x736c_6166;

// The first four bytes as one number, the first one the lowest.
#[inline(always)]
fn four_letters(bytes: &[u8]) -> u32
    requires { 4 ≤ length bytes.now }
    ensures { result ≡ word_at bytes.now 0 }
{
    u32::from_le_bytes(u8x4::from_slice(bytes).to_array())
}

// The word that the bytes are.
#[inline(always)]
fn word_of(bytes: &[u8]) -> Option<WordKind>
    ensures { IfSome result (λ kind. IsWordKind bytes.now kind) }
{
    if bytes.len() == 4 {
        let letters = four_letters(bytes);
        if letters == NULL {
            return Some(WordKind::Null);
        }
        if letters == TRUE {
            return Some(WordKind::True);
        }
        return None;
    }
    if bytes.len() == 5 && four_letters(bytes) == FALS && bytes[4] == b'e' {
        return Some(WordKind::False);
    }
    None
}

// What the bytes are. A word begins with a letter, which is above all digits.
#[inline(always)]
fn word_kind(bytes: &[u8], others: u64) -> WordKind
    requires some { 0 < length bytes.now }
    requires others { AreDigitsBut bytes.now others }
    ensures { IsWordKind bytes.now result }
{
    if bytes[0] > b'9' {
        return match word_of(bytes) {
            Some(kind) => kind,
            None => word_kind_slowly(bytes),
        };
    }
    if is_short_decimal(bytes, others) {
        return WordKind::Number;
    }
    word_kind_slowly(bytes)
}

// Whether a quote other than the one at i stands right before this place.
#[inline(always)]
fn has_quote_before(looks: &mut Batch<'_>, i: usize, next: usize) -> bool
    requires in_text { i < length looks.old.0 }
    requires near { next ≤ length looks.old.0 }
    requires short { length looks.old.0 ≤ text_limit }
    ensures behind { IsTrue result → i + 1 < next }
    ensures quote { IsTrue result → slice_index looks.old.0 (next - 1) ≡ 34 }
    ensures same { looks.new.0 ≡ looks.old.0 }
    ensures looked { looks.new.1 ≤ looks.old.1 + 1 }
{
    if i + 1 >= next {
        return false;
    }
    looks.at(next - 1) == b'"'
}

// The place past the string that begins at i, where the place behind it is this one, and whether its bytes were passed without a look.
#[tactic(auto, using(crate::proofs::Placing::closed_before))]
#[inline(always)]
fn string_end(looks: &mut Batch<'_>, i: usize, next: usize) -> Option<(usize, bool)>
    requires in_text { i < length looks.old.0 }
    requires near { next ≤ length looks.old.0 }
    requires short { length looks.old.0 ≤ text_limit }
    requires quote { slice_index looks.old.0 i ≡ 34 }
    requires indexed { IsIndexed looks.old.0 }
    requires closes { ClosesBefore looks.old.0 i next }
    ensures ends { StringEnds looks.old.0 i (end_in result) }
    ensures bound { IfSome result (λ x. (i < x.0) × (x.0 ≤ length looks.old.0)) }
    ensures passed { IfSome result (λ x. IsTrue x.1 → i + 1 < x.0) }
    ensures same { looks.new.0 ≡ looks.old.0 }
    ensures looked { IfSome result (λ x. looks.new.1 + i ≤ looks.old.1 + x.0) }
    ensures quick { IfSome result (λ x. IsTrue x.1 → looks.new.1 ≤ looks.old.1 + 1) }
{
    if has_quote_before(looks, i, next) {
        return Some((next, true));
    }
    match quote_past(looks, i + 1) {
        Some(end) => Some((end, false)),
        None => None,
    }
}

// The string that begins at i.
#[inline(always)]
fn string(looks: &mut Batch<'_>, i: usize, next: usize) -> Option<Quoted>
    requires in_text { i < length looks.old.0 }
    requires near { next ≤ length looks.old.0 }
    requires short { length looks.old.0 ≤ text_limit }
    requires quote { slice_index looks.old.0 i ≡ 34 }
    requires indexed { IsIndexed looks.old.0 }
    requires closes { ClosesBefore looks.old.0 i next }
    ensures string { IsNameAt looks.old.0 i (source_in result) }
    ensures room { IfSome result (λ q. HasRoom q.source) }
    ensures none { result ≡ None → IsValueAt looks.old.0 i None }
    ensures passed { IfSome result (λ q. IsTrue q.passed → (2 ≤ q.source.len) × (q.source.start + q.source.len ≤ length looks.old.0)) }
    ensures same { looks.new.0 ≡ looks.old.0 }
    ensures looked { IfSome result (λ q. looks.new.1 ≤ looks.old.1 + q.source.len) }
    ensures quick { IfSome result (λ q. IsTrue q.passed → looks.new.1 ≤ looks.old.1 + 1) }
{
    match string_end(looks, i, next) {
        None => None,
        Some((end, passed)) => Some(Quoted {
            source: Extent {
                start: i as u32,
                len: (end - i) as u32,
            },
            passed,
        }),
    }
}

/// The name at place i, where the place behind it is this one.
#[inline(always)]
pub fn name(looks: &mut Batch<'_>, i: usize, next: usize) -> Option<Quoted>
    requires in_text { i < length looks.old.0 }
    requires near { next ≤ length looks.old.0 }
    requires short { length looks.old.0 ≤ text_limit }
    requires indexed { IsIndexed looks.old.0 }
    requires closes { ClosesBefore looks.old.0 i next }
    ensures name { IsNameAt looks.old.0 i (source_in result) }
    ensures room { IfSome result (λ q. HasRoom q.source) }
    ensures passed { IfSome result (λ q. IsTrue q.passed → (2 ≤ q.source.len) × (q.source.start + q.source.len ≤ length looks.old.0)) }
    ensures same { looks.new.0 ≡ looks.old.0 }
    ensures looked { IfSome result (λ q. looks.new.1 ≤ looks.old.1 + q.source.len + 1) }
    ensures quick { IfSome result (λ q. IsTrue q.passed → looks.new.1 ≤ looks.old.1 + 2) }
{
    if looks.at(i) == b'"' {
        string(looks, i, next)
    } else {
        None
    }
}

// A word or a number. Marks where it may be beyond the limits of numbers.
#[tactic(auto, using(crate::proofs::Runs::some_bytes, crate::proofs::Known::limited_marked, crate::proofs::TokensAt::word_at))]
#[inline(always)]
fn word(looks: &mut Batch<'_>, i: usize, next: usize, may_exceed: &mut bool) -> Option<Lexed>
    requires in_text { i < length looks.old.0 }
    requires near { next ≤ length looks.old.0 }
    requires short { length looks.old.0 ≤ text_limit }
    requires closes { ClosesBefore looks.old.0 i next }
    requires no_string { slice_index looks.old.0 i ≢ 34 }
    requires no_array { slice_index looks.old.0 i ≢ 91 }
    requires no_object { slice_index looks.old.0 i ≢ 123 }
    requires no_blank { blank (slice_index looks.old.0 i) ≡ false }
    ensures value { IsValueAt looks.old.0 i result }
    ensures fits { IfSome result FitsTape }
    ensures marked { IfSome result (λ l. Marked looks.old.0 i may_exceed.old (Ok (end_of i l)) may_exceed.new) }
    ensures same { looks.new.0 ≡ looks.old.0 }
    ensures looked { IfSome result (λ l. looks.new.1 + 1 ≤ looks.old.1 + price_of l) }
{
    late_exponents_keep_limits();
    let Run { bytes, others } = looks.run(i, next);
    let source = Extent {
        start: i as u32,
        len: bytes.len() as u32,
    };
    match word_kind(bytes, others) {
        WordKind::Null => Some(Lexed::Word(Kind::Null, source)),
        WordKind::False => Some(Lexed::Word(Kind::Bool(false), source)),
        WordKind::True => Some(Lexed::Word(Kind::Bool(true), source)),
        WordKind::Number => Some(Lexed::Number(source)),
        WordKind::LongNumber => {
            *may_exceed = true;
            Some(Lexed::Number(source))
        }
        WordKind::Nothing => None,
    }
}

/// What the value at place i begins with, where the place behind it is this one. Marks where a number may be beyond the limits.
#[inline(always)]
pub fn value(looks: &mut Batch<'_>, i: usize, next: usize, may_exceed: &mut bool) -> Option<Lexed>
    requires in_text { i < length looks.old.0 }
    requires near { next ≤ length looks.old.0 }
    requires short { length looks.old.0 ≤ text_limit }
    requires indexed { IsIndexed looks.old.0 }
    requires closes { ClosesBefore looks.old.0 i next }
    requires no_blank { blank (slice_index looks.old.0 i) ≡ false }
    ensures value { IsValueAt looks.old.0 i result }
    ensures fits { IfSome result FitsTape }
    ensures marked { IfSome result (λ l. Marked looks.old.0 i may_exceed.old (Ok (end_of i l)) may_exceed.new) }
    ensures same { looks.new.0 ≡ looks.old.0 }
    ensures looked { IfSome result (λ l. looks.new.1 ≤ looks.old.1 + price_of l) }
{
    match looks.at(i) {
        b'"' => match string(looks, i, next) {
            None => None,
            Some(quoted) => Some(Lexed::Text(quoted.source)),
        },
        b'{' => Some(Lexed::Opens(Shape::Object)),
        b'[' => Some(Lexed::Opens(Shape::Array)),
        // a number of one digit
        b'0'..=b'9' if next == i + 1 => {
            late_exponents_keep_limits();
            Some(Lexed::Number(Extent {
                start: i as u32,
                len: 1,
            }))
        }
        _ => word(looks, i, next, may_exceed),
    }
}
