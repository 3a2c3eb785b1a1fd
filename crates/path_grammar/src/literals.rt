//! Reads literals and operators.

ghost use Rattle.std.specs.Prelude.{◌≡◌, option_map, IfOk, IsTrue};
ghost use Rattle.std.specs.List.{list_all};
ghost use Rattle.path_grammar.specs.Characters.{is_ascii};
ghost use Rattle.path_grammar.specs.Reading.{Gives};
ghost use Rattle.path_grammar.specs.ReadingLiterals.{keyword_of, keyword_at, number_at, text_at, literal_at, operator_at};
ghost use Rattle.path_grammar.specs.View.{literal_view};

use crate::ast::{Literal, Op};
use crate::class::{Class, is_lower, split_run};
use crate::fault::ParseFault;
use crate::numbers::number_end;
use crate::scan::{Read, behind};
use crate::strings::string;
use std::alloc::{AllocError, Global};

/// The bytes of characters that are all ASCII.
pub fn ascii(alloc: Global, text: &[char]) -> Result<Vec<u8>, AllocError>
    requires { IsTrue (list_all is_ascii text.now) }
    ensures { IfOk result (λ bytes. bytes.items ≡ text.now) }
{
    let mut bytes = Vec::with_capacity(alloc, text.len())?;
    for c in text {
        bytes.push(*c as u8)?;
    }
    Ok(bytes)
}

#[tactic(auto, unfolding(crate::specs::ReadingLiterals::keyword_of))]
fn keyword_of(word: &[char]) -> Option<Literal>
    ensures { option_map literal_view result ≡ keyword_of word.now }
{
    if word == ['t', 'r', 'u', 'e'].as_slice() {
        Some(Literal::Bool(true))
    } else if word == ['f', 'a', 'l', 's', 'e'].as_slice() {
        Some(Literal::Bool(false))
    } else if word == ['n', 'u', 'l', 'l'].as_slice() {
        Some(Literal::Null)
    } else {
        None
    }
}

#[tactic(auto, unfolding(crate::specs::ReadingLiterals::keyword_at))]
fn keyword(text: &[char]) -> Read<'_, Literal>
    ensures { Gives (λ x. (literal_view x.0, x.1.now)) result (keyword_at text.now) }
{
    let (word, rest) = split_run(text, Class::Function);
    match keyword_of(word) {
        Some(literal) => Ok((literal, rest)),
        None => Err(ParseFault::NotWellFormed),
    }
}

#[tactic(auto, unfolding(crate::specs::ReadingLiterals::number_at), using(crate::proofs::ReadNumbers::number_fits, crate::proofs::ReadNumbers::number_ascii))]
fn number(alloc: Global, text: &[char]) -> Read<'_, Literal>
    ensures { Gives (λ x. (literal_view x.0, x.1.now)) result (number_at text.now) }
{
    let rest = number_end(text)?;
    let digits = ascii(alloc, &text[..text.len() - rest.len()])?;
    Ok((Literal::Number(digits), rest))
}

#[tactic(auto, unfolding(crate::specs::ReadingLiterals::text_at))]
fn text_in_quotes(alloc: Global, text: &[char]) -> Read<'_, Literal>
    ensures { Gives (λ x. (literal_view x.0, x.1.now)) result (text_at text.now) }
{
    let (scalars, rest) = string(alloc, text)?;
    Ok((Literal::Text(scalars), rest))
}

/// The literal at the front.
#[tactic(auto, unfolding(crate::specs::ReadingLiterals::literal_at))]
pub fn literal(alloc: Global, text: &[char]) -> Read<'_, Literal>
    ensures { Gives (λ x. (literal_view x.0, x.1.now)) result (literal_at text.now) }
{
    let [c, ..] = text else {
        return Err(ParseFault::NotWellFormed);
    };
    if *c == '"' || *c == '\'' {
        text_in_quotes(alloc, text)
    } else if is_lower(*c) {
        keyword(text)
    } else {
        number(alloc, text)
    }
}

/// The operator at the front.
#[tactic(auto, unfolding(crate::specs::ReadingLiterals::operator_at, crate::specs::ReadingLiterals::operator_from))]
pub fn operator(text: &[char]) -> Option<(Op, &[char])>
    ensures { option_map (λ x. (x.0, x.1.now)) result ≡ operator_at text.now }
{
    let [c, rest @ ..] = text else {
        return None;
    };
    match behind(rest, '=') {
        Some(rest) => match *c {
            '=' => Some((Op::Eq, rest)),
            '!' => Some((Op::Ne, rest)),
            '<' => Some((Op::Le, rest)),
            '>' => Some((Op::Ge, rest)),
            _ => None,
        },
        None => match *c {
            '<' => Some((Op::Lt, rest)),
            '>' => Some((Op::Gt, rest)),
            _ => None,
        },
    }
}
