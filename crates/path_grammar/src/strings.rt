//! Reads strings in quotes.

ghost use Rattle.std.specs.Prelude.{◌≡◌, ◌<◌, length, option_map, IfSome, IsTrue};
ghost use Rattle.path_grammar.specs.Characters.{is_plain, is_between};
ghost use Rattle.path_grammar.specs.Reading.{Gives};
ghost use Rattle.path_grammar.specs.ReadingStrings.{hex_of, hex_at, unit_at, low_at, unicode_at, short_of, escape_at, character_at, inside_at, string_at};

use crate::fault::ParseFault;
use crate::scan::{Read, behind};
use std::alloc::Global;

#[tactic(auto, unfolding(crate::specs::ReadingStrings::hex_of))]
fn hex(c: char) -> Option<u32>
    ensures { result ≡ hex_of c }
{
    match c {
        '0'..='9' => Some(u32::from(c) - 0x30),
        'A'..='F' => Some(u32::from(c) - 0x37),
        'a'..='f' => Some(u32::from(c) - 0x57),
        _ => None,
    }
}

#[tactic(auto, unfolding(crate::specs::ReadingStrings::hex_at, crate::specs::ReadingStrings::hex_of))]
fn hex_at(text: &[char]) -> Option<(u32, &[char])>
    ensures value { option_map (λ x. (x.0, x.1.now)) result ≡ hex_at text.now }
    ensures small { IfSome result (λ x. x.0 < 16) }
{
    let [c, rest @ ..] = text else {
        return None;
    };
    let n = hex(*c)?;
    Some((n, rest))
}

// The unit that four hexadecimal digits spell.
#[tactic(auto, unfolding(crate::specs::ReadingStrings::unit_at))]
fn unit(text: &[char]) -> Option<(u32, &[char])>
    ensures value { option_map (λ x. (x.0, x.1.now)) result ≡ unit_at text.now }
    ensures small { IfSome result (λ x. x.0 < 0x10000) }
{
    let (i, rest) = hex_at(text)?;
    let (j, rest) = hex_at(rest)?;
    let (k, rest) = hex_at(rest)?;
    let (l, rest) = hex_at(rest)?;
    Some((0x1000 * i + 0x100 * j + 0x10 * k + l, rest))
}

// The scalar value of a pair whose first half was read.
#[tactic(auto, unfolding(crate::specs::ReadingStrings::low_at))]
fn low(high: u32, text: &[char]) -> Option<(char, &[char])>
    requires { IsTrue (is_between 0xD800 0xDBFF high) }
    ensures value { option_map (λ x. (x.0, x.1.now)) result ≡ low_at high text.now }
{
    let rest = behind(text, '\\')?;
    let rest = behind(rest, 'u')?;
    let (u, rest) = unit(rest)?;
    if 0xDC00 <= u && u <= 0xDFFF {
        let c = char::from_u32(0x10000 + (high - 0xD800) * 0x400 + (u - 0xDC00))?;
        Some((c, rest))
    } else {
        None
    }
}

#[tactic(auto, unfolding(crate::specs::ReadingStrings::unicode_at, crate::specs::ReadingStrings::whole_at))]
fn unicode(text: &[char]) -> Option<(char, &[char])>
    ensures value { option_map (λ x. (x.0, x.1.now)) result ≡ unicode_at text.now }
{
    let (u, rest) = unit(text)?;
    if u < 0xD800 || 0xDFFF < u {
        let c = char::from_u32(u)?;
        Some((c, rest))
    } else if u < 0xDC00 {
        low(u, rest)
    } else {
        None
    }
}

#[tactic(auto, unfolding(crate::specs::ReadingStrings::short_of))]
fn short(c: char) -> Option<char>
    ensures { result ≡ short_of c }
{
    match c {
        'b' => Some('\u{8}'),
        'f' => Some('\u{c}'),
        'n' => Some('\n'),
        'r' => Some('\r'),
        't' => Some('\t'),
        '/' => Some('/'),
        '\\' => Some('\\'),
        _ => None,
    }
}

#[tactic(auto, unfolding(crate::specs::ReadingStrings::escape_at))]
fn escape(text: &[char], quote: char) -> Option<(char, &[char])>
    ensures value { option_map (λ x. (x.0, x.1.now)) result ≡ escape_at quote text.now }
{
    let [c, rest @ ..] = text else {
        return None;
    };
    if *c == quote {
        Some((quote, rest))
    } else if *c == 'u' {
        unicode(rest)
    } else {
        let v = short(*c)?;
        Some((v, rest))
    }
}

fn is_plain(c: char) -> bool
    ensures { result ≡ is_plain c }
{
    matches!(c, ' '..='!' | '#'..='&' | '('..='[' | ']'..)
}

#[tactic(auto, unfolding(crate::specs::ReadingStrings::character_at))]
fn character(text: &[char], quote: char, other: char) -> Option<(char, &[char])>
    ensures value { option_map (λ x. (x.0, x.1.now)) result ≡ character_at quote other text.now }
{
    let [c, rest @ ..] = text else {
        return None;
    };
    if *c == '\\' {
        escape(rest, quote)
    } else if is_plain(*c) || *c == other {
        Some((*c, rest))
    } else {
        None
    }
}

fn character_or_fault(text: &[char], quote: char, other: char) -> Read<'_, char>
    ensures { Gives (λ x. (x.0, x.1.now)) result (character_at quote other text.now) }
{
    match character(text, quote, other) {
        Some((c, rest)) => Ok((c, rest)),
        None => Err(ParseFault::NotWellFormed),
    }
}

// The characters up to the quote that closes.
fn inside(alloc: Global, text: &[char], quote: char, other: char) -> Read<'_, Vec<char>>
    ensures { Gives (λ x. (x.0.items, x.1.now)) result (inside_at quote other (length text.now) text.now) }
{
    let mut out = Vec::new(alloc);
    let mut rest = text;
    for _ in 0..text.len() {
        if let Some(after) = behind(rest, quote) {
            return Ok((out, after));
        }
        let (c, after) = character_or_fault(rest, quote, other)?;
        out.push(c)?;
        rest = after;
    }
    Err(ParseFault::NotWellFormed)
}

/// The scalar values of a string in single or double quotes.
#[tactic(auto, unfolding(crate::specs::ReadingStrings::string_at))]
pub fn string(alloc: Global, text: &[char]) -> Read<'_, Vec<char>>
    ensures { Gives (λ x. (x.0.items, x.1.now)) result (string_at text.now) }
{
    let [c, rest @ ..] = text else {
        return Err(ParseFault::NotWellFormed);
    };
    if *c == '"' {
        inside(alloc, rest, '"', '\'')
    } else if *c == '\'' {
        inside(alloc, rest, '\'', '"')
    } else {
        Err(ParseFault::NotWellFormed)
    }
}
