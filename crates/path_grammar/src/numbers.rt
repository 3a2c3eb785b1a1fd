//! Reads integers, and finds the end of numbers.

ghost use Rattle.std.specs.Prelude.{◌≡◌, option_map, Some, None, if◌then◌else◌, nat_le};
ghost use Rattle.path_grammar.specs.Numbers.{decimal};
ghost use Rattle.path_grammar.specs.Reading.{Gives};
ghost use Rattle.path_grammar.specs.ReadingNumbers.{signed_literal, digits_at, int_at, part_at, digits_end, minus_zero_end, whole_end, fraction_end, sign_end, exponent_end, number_end};

use crate::ast::IntLit;
use crate::class::{Class, split_run};
use crate::fault::ParseFault;
use crate::scan::{Read, behind, skip_blanks};

const INT_LIMIT: u64 = 9_007_199_254_740_991;

// What digits spell, where it is within the limit.
#[tactic(auto, using(crate::proofs::Digits::one_more, crate::proofs::Digits::too_large))]
fn magnitude(digits: &[char]) -> Option<u64>
    ensures { result ≡ (if nat_le (decimal digits.now) 9007199254740991 then Some (decimal digits.now) else None) }
{
    let mut n = 0u64;
    for c in digits {
        n = n * 10 + u64::from(u32::from(*c)).saturating_sub(48);
        if n > INT_LIMIT {
            return None;
        }
    }
    Some(n)
}

fn literal(digits: &[char], is_negative: bool) -> IntLit
    ensures { result ≡ signed_literal is_negative (decimal digits.now) }
{
    match magnitude(digits) {
        None => IntLit::Beyond,
        Some(n) if is_negative => IntLit::Within(-(n as i64)),
        Some(n) => IntLit::Within(n as i64),
    }
}

#[tactic(auto, unfolding(crate::specs::ReadingNumbers::digits_at))]
fn digits(text: &[char], is_negative: bool) -> Read<'_, IntLit>
    ensures { Gives (λ x. (x.0, x.1.now)) result (digits_at is_negative text.now) }
{
    match text {
        ['1'..='9', ..] => {
            let (front, rest) = split_run(text, Class::Digit);
            Ok((literal(front, is_negative), rest))
        }
        _ => Err(ParseFault::NotWellFormed),
    }
}

#[tactic(auto, unfolding(crate::specs::ReadingNumbers::int_at))]
fn int(text: &[char]) -> Read<'_, IntLit>
    ensures { Gives (λ x. (x.0, x.1.now)) result (int_at text.now) }
{
    let [c, rest @ ..] = text else {
        return Err(ParseFault::NotWellFormed);
    };
    if *c == '0' {
        Ok((IntLit::Within(0), rest))
    } else if *c == '-' {
        digits(rest, true)
    } else {
        digits(text, false)
    }
}

/// The integer at the front with the blanks after it, if one begins there.
#[tactic(auto, unfolding(crate::specs::ReadingNumbers::part_at))]
pub fn part(text: &[char]) -> Read<'_, Option<IntLit>>
    ensures { Gives (λ x. (x.0, x.1.now)) result (part_at text.now) }
{
    match text {
        ['0'..='9' | '-', ..] => {
            let (i, rest) = int(text)?;
            Ok((Some(i), skip_blanks(rest)))
        }
        _ => Ok((None, text)),
    }
}

#[tactic(auto, unfolding(crate::specs::ReadingNumbers::digits_end))]
fn digits_end(text: &[char]) -> Result<&[char], ParseFault>
    ensures { Gives (λ t. t.now) result (digits_end text.now) }
{
    match text {
        ['0'..='9', ..] => Ok(split_run(text, Class::Digit).1),
        _ => Err(ParseFault::NotWellFormed),
    }
}

#[tactic(auto, unfolding(crate::specs::ReadingNumbers::minus_zero_end))]
fn minus_zero_end(text: &[char]) -> Option<&[char]>
    ensures { option_map (λ t. t.now) result ≡ minus_zero_end text.now }
{
    let rest = behind(text, '-')?;
    behind(rest, '0')
}

#[tactic(auto, unfolding(crate::specs::ReadingNumbers::whole_end, crate::specs::ReadingNumbers::whole_from))]
fn whole_end(text: &[char]) -> Result<&[char], ParseFault>
    ensures { Gives (λ t. t.now) result (whole_end text.now) }
{
    match minus_zero_end(text) {
        Some(rest) => Ok(rest),
        None => {
            let (_, rest) = int(text)?;
            Ok(rest)
        }
    }
}

#[tactic(auto, unfolding(crate::specs::ReadingNumbers::fraction_end, crate::specs::ReadingNumbers::fraction_from))]
fn fraction_end(text: &[char]) -> Result<&[char], ParseFault>
    ensures { Gives (λ t. t.now) result (fraction_end text.now) }
{
    match behind(text, '.') {
        Some(rest) => digits_end(rest),
        None => Ok(text),
    }
}

#[tactic(auto, unfolding(crate::specs::ReadingNumbers::sign_end))]
fn sign_end(text: &[char]) -> &[char]
    ensures { result.now ≡ sign_end text.now }
{
    match text {
        ['+' | '-', rest @ ..] => rest,
        _ => text,
    }
}

#[tactic(auto, unfolding(crate::specs::ReadingNumbers::exponent_end))]
fn exponent_end(text: &[char]) -> Result<&[char], ParseFault>
    ensures { Gives (λ t. t.now) result (exponent_end text.now) }
{
    match text {
        ['e' | 'E', rest @ ..] => digits_end(sign_end(rest)),
        _ => Ok(text),
    }
}

/// The text after the number at the front.
#[tactic(auto, unfolding(crate::specs::ReadingNumbers::number_end))]
pub fn number_end(text: &[char]) -> Result<&[char], ParseFault>
    ensures { Gives (λ t. t.now) result (number_end text.now) }
{
    let rest = whole_end(text)?;
    let rest = fraction_end(rest)?;
    exponent_end(rest)
}
