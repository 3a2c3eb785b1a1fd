//! The scalar values that a string or a name means (RFC 8259, section 7).

ghost use Rattle.std.specs.Prelude.{◌≡◌, ℕ, ◌+◌, ◌<◌, ◌≤◌, length, take, false, IfSome};
ghost use Rattle.std.specs.Char.{IsScalar};
ghost use Rattle.std.specs.Str.{IsCharBoundary};
ghost use Rattle.json_text.specs.Meaning.{IsHigh, IsLow, short_value as value_of_short, pair_value as value_of_pair};
ghost use Rattle.json_text.specs.Limits.{bytes_at};
ghost use Rattle.json_strings.specs.Spelling.{hex_value as value_of_hex, has_backslash, unquoted as inside, IsQuoted};
ghost use Rattle.json_strings.specs.Reading.{Reads, ReadsUnit};
ghost use Rattle.json_text.specs.Verdict.{text_limit};

use crate::characters::character_count;
use json_text::{Extent, Mode};
use memchr::memchr;
use std::marker::Model;
use std::str::Chars;

/// Where a reading of characters stands: in which part of a character, with the digits of a unit so far, and the high
/// surrogate that ended right before.
#[derive(Clone, Copy)]
pub struct Spelling {
    pub mode: Mode,
    pub unit: u32,
    pub high: Option<u32>,
}

/// What a character of a string gives: a scalar value, or only another place to stand.
#[derive(Clone, Copy)]
pub enum Meant {
    Scalar(char),
    More(Spelling),
}

/// The scalar values of a string or a name, in order.
#[derive(Drop)]
pub struct Scalars<'a> {
    rest: Chars<'a>,
}

impl<'a> Model for Scalars<'a> {
    ghost use Rattle.std.specs.Prelude.{ℕ, List, IsUtf8};
    ghost use Rattle.std.specs.Str.{chars};
    ghost use Rattle.std.specs.Str.Iter.{chars_rest};
    ghost use Rattle.json_strings.specs.Spelling.{scalars_in};

    // The scalar values that are left.
    ghost Value = { List ℕ };

    ghost view = { λ s. scalars_in (chars (chars_rest s.rest)) };

    ghost invariant = { λ s. IsUtf8 (chars_rest s.rest) };
}

fn char_of(code: u32) -> char
    requires { IsScalar code }
    ensures { result ≡ code }
{
    char::from_u32(code).unwrap()
}

fn hex_value(c: char) -> u32
    ensures value { result ≡ value_of_hex c }
    ensures small { result < 16 }
{
    match c.to_digit(16) {
        Some(digit) => digit,
        None => 0,
    }
}

fn short_value(letter: char) -> char
    ensures { result ≡ value_of_short letter }
{
    match letter {
        'b' => '\u{8}',
        'f' => '\u{c}',
        'n' => '\n',
        'r' => '\r',
        't' => '\t',
        _ => letter,
    }
}

fn pair_value(high: u32, low: u32) -> char
    requires high { IsHigh high }
    requires low { IsLow low }
    ensures { result ≡ value_of_pair high low }
{
    char_of(0x10000 + (high - 0xD800) * 0x400 + (low - 0xDC00))
}

fn between(high: Option<u32>) -> Meant
    ensures { result ≡ Meant.More (record { mode = Mode.Between; unit = 0; high = high }) }
{
    Meant::More(Spelling {
        mode: Mode::Between,
        unit: 0,
        high,
    })
}

// A unit that is no surrogate stands for itself, and a low surrogate behind a high one for the value of the pair.
fn after_unit(unit: u32, high: Option<u32>) -> Meant
    requires high { IfSome high IsHigh }
    requires small { unit < 65536 }
    ensures { ReadsUnit unit high result }
{
    if 0xD800 <= unit && unit <= 0xDBFF {
        return between(Some(unit));
    }
    if 0xDC00 <= unit && unit <= 0xDFFF {
        return match high {
            Some(high) => Meant::Scalar(pair_value(high, unit)),
            None => between(None),
        };
    }
    Meant::Scalar(char_of(unit))
}

fn after(state: Spelling, c: char) -> Meant
    requires { IfSome state.high IsHigh }
    ensures { Reads state c result }
{
    match state.mode {
        Mode::Between => {
            if c == '\\' {
                Meant::More(Spelling {
                    mode: Mode::Escape,
                    unit: 0,
                    high: state.high,
                })
            } else {
                Meant::Scalar(c)
            }
        }
        Mode::Escape => {
            if c == 'u' {
                Meant::More(Spelling {
                    mode: Mode::Hex(3),
                    unit: 0,
                    high: state.high,
                })
            } else {
                Meant::Scalar(short_value(c))
            }
        }
        Mode::Hex(left) => {
            let unit = 16 * (state.unit % 4096) + hex_value(c);
            if left == 0 {
                after_unit(unit, state.high)
            } else {
                Meant::More(Spelling {
                    mode: Mode::Hex(left - 1),
                    unit,
                    high: state.high,
                })
            }
        }
    }
}

// How many bytes stand before the first backslash.
#[tactic(auto, using(crate::proofs::PlainRuns::cut_there, crate::proofs::PlainRuns::none_before))]
fn plain_run(text: &str) -> usize
    ensures boundary { IsCharBoundary text.now result }
    ensures plain { has_backslash (take result text.now) ≡ false }
{
    let bytes = text.as_bytes();
    match memchr(b'\\', bytes) {
        Some(at) => at,
        None => bytes.len(),
    }
}

impl<'a> Scalars<'a> {
    ghost use Rattle.std.specs.Str.{chars};
    ghost use Rattle.json_strings.specs.Spelling.{scalars_in};

    /// The scalar values of a string whose characters are these, without its quotes.
    pub fn new(inside: &'a str) -> Scalars<'a>
        ensures { result ≡ scalars_in (chars inside.now) }
    {
        Scalars {
            rest: inside.chars(),
        }
    }

    // Passes the characters before the next backslash, which stand for themselves, and tells how many.
    fn pass_plain(&mut self) -> usize
        ensures { length self.old ≡ result + length self.new }
    {
        let rest = self.rest.as_str();
        let run = plain_run(rest);
        self.rest = rest[run..].chars();
        character_count(&rest[..run])
    }
}

impl<'a> Iterator for Scalars<'a> {
    ghost use Rattle.std.specs.Iterator.{YieldsFirst, item_count};

    type Item = char;

    ghost next_gives = { YieldsFirst (λ s. s) };

    ghost remaining = { item_count (λ s. s) };

    fn next(&mut self) -> Option<char> {
        let mut state = Spelling {
            mode: Mode::Between,
            unit: 0,
            high: None,
        };
        while let Some(c) = self.rest.next() {
            match after(state, c) {
                Meant::Scalar(scalar) => return Some(scalar),
                Meant::More(next) => state = next,
            }
        }
        None
    }
}

/// How many scalar values are left.
pub fn count_of(mut scalars: Scalars<'_>) -> u32
    requires { length scalars ≤ text_limit }
    ensures { result ≡ length scalars.entry }
{
    let mut count = scalars.pass_plain();
    while scalars.next().is_some() {
        count += 1 + scalars.pass_plain();
    }
    count as u32
}

/// What stands between the quotes of a string.
pub fn unquoted(text: &str, string: Extent) -> &str
    requires { IsQuoted text.now string }
    ensures { result.now ≡ inside (bytes_at text.now string) }
{
    let start = string.start as usize + 1;
    let end = string.start as usize + string.len as usize - 1;
    &text[start..end]
}
