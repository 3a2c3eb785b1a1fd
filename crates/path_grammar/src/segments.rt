//! Reads the parts of selectors and segments that cannot contain a filter.

ghost use Rattle.std.specs.Prelude.{◌≡◌, map, option_map};
ghost use Rattle.path_grammar.specs.Reading.{Gives};
ghost use Rattle.path_grammar.specs.ReadingSegments.{step_at, slice_at, index_at, name_at, next_selector, dotted_at, dotted_selectors_at, dots_at, opening_at, next_segment};
ghost use Rattle.path_grammar.specs.View.{selector_view};

use crate::ast::{IntLit, Selector};
use crate::class::{Class, is_first, split_run};
use crate::fault::ParseFault;
use crate::numbers::part;
use crate::scan::{Read, behind, skip_blanks};
use crate::strings::string;
use std::alloc::Global;

#[tactic(auto, unfolding(crate::specs::ReadingSegments::step_at, crate::specs::ReadingSegments::step_from))]
fn step(text: &[char]) -> Read<'_, Option<IntLit>>
    ensures { Gives (λ x. (x.0, x.1.now)) result (step_at text.now) }
{
    match behind(text, ':') {
        Some(rest) => part(skip_blanks(rest)),
        None => Ok((None, text)),
    }
}

// What stands behind the first colon of a slice.
#[tactic(auto, unfolding(crate::specs::ReadingSegments::slice_at))]
fn slice(start: Option<IntLit>, text: &[char]) -> Read<'_, Selector>
    ensures { Gives (λ x. (selector_view x.0, x.1.now)) result (slice_at start text.now) }
{
    let (stop, rest) = part(skip_blanks(text))?;
    let (step, rest) = step(rest)?;
    Ok((Selector::Slice { start, stop, step }, rest))
}

#[tactic(auto, unfolding(crate::specs::ReadingSegments::index_at, crate::specs::ReadingSegments::index_from))]
pub fn index(text: &[char]) -> Read<'_, Selector>
    ensures { Gives (λ x. (selector_view x.0, x.1.now)) result (index_at text.now) }
{
    let (start, rest) = part(text)?;
    match behind(rest, ':') {
        Some(rest) => slice(start, rest),
        None => match start {
            Some(i) => Ok((Selector::Index(i), rest)),
            None => Err(ParseFault::NotWellFormed),
        },
    }
}

#[tactic(auto, unfolding(crate::specs::ReadingSegments::name_at))]
pub fn name(alloc: Global, text: &[char]) -> Read<'_, Selector>
    ensures { Gives (λ x. (selector_view x.0, x.1.now)) result (name_at text.now) }
{
    let (name, rest) = string(alloc, text)?;
    Ok((Selector::Name(name), skip_blanks(rest)))
}

#[tactic(auto, unfolding(crate::specs::ReadingSegments::next_selector))]
pub fn next_selector(text: &[char]) -> Option<&[char]>
    ensures { option_map (λ t. t.now) result ≡ next_selector text.now }
{
    let rest = behind(text, ',')?;
    Some(skip_blanks(rest))
}

#[tactic(auto, unfolding(crate::specs::ReadingSegments::dotted_at))]
fn dotted(alloc: Global, text: &[char]) -> Read<'_, Selector>
    ensures { Gives (λ x. (selector_view x.0, x.1.now)) result (dotted_at text.now) }
{
    match text {
        ['*', rest @ ..] => Ok((Selector::Wild, rest)),
        [c, ..] if is_first(*c) => {
            let (name, rest) = split_run(text, Class::Name);
            let name = Vec::from_slice(alloc, name)?;
            Ok((Selector::Name(name), rest))
        }
        _ => Err(ParseFault::NotWellFormed),
    }
}

// The one selector of a segment without brackets.
pub fn dotted_selectors(alloc: Global, text: &[char]) -> Read<'_, Vec<Selector>>
    ensures { Gives (λ x. (map selector_view x.0.items, x.1.now)) result (dotted_selectors_at text.now) }
{
    let (selector, rest) = dotted(alloc, text)?;
    let mut selectors = Vec::new(alloc);
    selectors.push(selector)?;
    Ok((selectors, rest))
}

#[tactic(auto, unfolding(crate::specs::ReadingSegments::dots_at))]
fn dots(text: &[char]) -> Read<'_, bool>
    ensures { Gives (λ x. (x.0, x.1.now)) result (dots_at text.now) }
{
    let [c, rest @ ..] = text else {
        return Err(ParseFault::NotWellFormed);
    };
    if *c == '.' {
        Ok((true, rest))
    } else if *c == '[' {
        Err(ParseFault::NotWellFormed)
    } else {
        Ok((false, text))
    }
}

// Whether the segment descends, and where its selectors begin.
#[tactic(auto, unfolding(crate::specs::ReadingSegments::opening_at))]
pub fn opening(text: &[char]) -> Read<'_, bool>
    ensures { Gives (λ x. (x.0, x.1.now)) result (opening_at text.now) }
{
    let [c, rest @ ..] = text else {
        return Err(ParseFault::NotWellFormed);
    };
    if *c == '[' {
        Ok((false, text))
    } else if *c == '.' {
        dots(rest)
    } else {
        Err(ParseFault::NotWellFormed)
    }
}

#[tactic(auto, unfolding(crate::specs::ReadingSegments::next_segment, crate::specs::ReadingSegments::at_segment))]
pub fn next_segment(text: &[char]) -> Option<&[char]>
    ensures { option_map (λ t. t.now) result ≡ next_segment text.now }
{
    let next = skip_blanks(text);
    match next {
        ['.' | '[', ..] => Some(next),
        _ => None,
    }
}
