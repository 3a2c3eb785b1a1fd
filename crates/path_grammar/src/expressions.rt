//! Reads segments, logical expressions and function calls: the recursive part of the grammar.
//!
//! `level` says how many more filters, parentheses and argument lists may be nested. Only a literal that begins an argument is
//! read twice.

ghost use Rattle.std.specs.Prelude.{◌≡◌, ◌∷◌, ◌++◌, [], map, option_map, IfOk, IfSome, IsTrue};
ghost use Rattle.std.specs.List.{list_all};
ghost use Rattle.path_grammar.specs.Characters.{is_ascii};
ghost use Rattle.path_grammar.specs.Grammar.{joined};
ghost use Rattle.path_grammar.specs.Reading.{Gives, closing, repeat_at};
ghost use Rattle.path_grammar.specs.ReadingSegments.{selector_at, selectors_at, segment_at, segments_at, sub_query_at};
ghost use Rattle.path_grammar.specs.ReadingFilters.{next_operand, next_argument, opens_call, tested, is_comparable, ends_argument, is_parenthesis, argument_of, parentheses_at, side_at, negatable_at, compared_at, basic_at, and_at, or_at, expression_argument_at, argument_at, some_arguments_at, condition_in, arguments_in};
ghost use Rattle.path_grammar.specs.Tree.{any, each, filter, call, arguments_of};
ghost use Rattle.path_grammar.specs.View.{selector_view, segment_view, nested_view, expr_view, comparable_view, call_view, argument_view};

use crate::ast::{Argument, Call, Comparable, Expr, Op, Segment, Selector, SubQuery};
use crate::class::{Class, is_lower, split_run};
use crate::fault::ParseFault;
use crate::literals::{ascii, literal, operator};
use crate::scan::{Read, behind, closed, skip_blanks};
use crate::segments::{dotted_selectors, index, name, next_segment, next_selector, opening};
use crate::singular::is_singular;
use std::alloc::{AllocError, Global};

// ---- What may stand between, before and behind expressions

#[tactic(auto, unfolding(crate::specs::ReadingFilters::next_operand))]
fn next_operand(text: &[char], half: char) -> Option<&[char]>
    ensures { option_map (λ t. t.now) result ≡ next_operand half text.now }
{
    let rest = behind(skip_blanks(text), half)?;
    let rest = behind(rest, half)?;
    Some(skip_blanks(rest))
}

#[tactic(auto, unfolding(crate::specs::ReadingFilters::next_argument))]
fn next_argument(text: &[char]) -> Option<&[char]>
    ensures { option_map (λ t. t.now) result ≡ next_argument text.now }
{
    let rest = behind(skip_blanks(text), ',')?;
    Some(skip_blanks(rest))
}

// The name of a call, and what stands behind its parenthesis.
#[tactic(auto, unfolding(crate::specs::ReadingFilters::opens_call), using(crate::proofs::Runs::function_ascii))]
fn opens_call(text: &[char]) -> Option<(&[char], &[char])>
    ensures call { option_map (λ x. (x.0.now, x.1.now)) result ≡ opens_call text.now }
    ensures ascii { IfSome result (λ x. IsTrue (list_all is_ascii x.0.now)) }
{
    let [c, ..] = text else {
        return None;
    };
    if !is_lower(*c) {
        return None;
    }
    let (name, rest) = split_run(text, Class::Function);
    let inside = behind(rest, '(')?;
    Some((name, inside))
}

#[tactic(auto, unfolding(crate::specs::ReadingFilters::ends_argument))]
fn ends_argument(text: &[char]) -> bool
    ensures { result ≡ ends_argument text.now }
{
    matches!(text, [',' | ')', ..])
}

#[tactic(auto, unfolding(crate::specs::ReadingFilters::is_parenthesis))]
fn is_parenthesis(text: &[char]) -> bool
    ensures { result ≡ is_parenthesis text.now }
{
    matches!(text, ['(', ..])
}

// ---- Trees of what was read

#[tactic(auto, unfolding(crate::specs::ReadingFilters::tested))]
fn tested(side: Comparable, text: &[char]) -> Read<'_, Expr>
    ensures { Gives (λ x. (expr_view x.0, x.1.now)) result (tested (comparable_view side) text.now) }
{
    match side {
        Comparable::Lit(_) => Err(ParseFault::NotWellFormed),
        Comparable::Single(query) => Ok((Expr::Test(query), text)),
        Comparable::Func(call) => Ok((Expr::TestCall(call), text)),
    }
}

fn is_comparable(side: &Comparable) -> bool
    ensures { result ≡ is_comparable (comparable_view side.now) }
{
    match side {
        Comparable::Lit(_) | Comparable::Func(_) => true,
        Comparable::Single(query) => is_singular(&query.segments),
    }
}

// The first before the others.
fn in_front<T: Drop>(first: T, mut others: Vec<T>) -> Result<Vec<T>, AllocError>
    ensures { IfOk result (λ all. all.items ≡ first ∷ others.items) }
{
    others.insert(0, first)?;
    Ok(others)
}

fn append<T: Drop>(list: &mut Vec<T>, item: T) -> Result<(), AllocError>
    ensures { IfOk result (λ _. list.new.items ≡ list.old.items ++ item ∷ []) }
{
    list.push(item)?;
    Ok(())
}

fn join_each(first: Expr, others: Vec<Expr>) -> Result<Expr, AllocError>
    ensures { IfOk result (λ e. expr_view e ≡ joined each (expr_view first ∷ map expr_view others.items)) }
{
    if others.is_empty() {
        return Ok(first);
    }
    Ok(Expr::Each(in_front(first, others)?))
}

fn join_any(first: Expr, others: Vec<Expr>) -> Result<Expr, AllocError>
    ensures { IfOk result (λ e. expr_view e ≡ joined any (expr_view first ∷ map expr_view others.items)) }
{
    if others.is_empty() {
        return Ok(first);
    }
    Ok(Expr::Any(in_front(first, others)?))
}

fn as_argument(alloc: Global, expr: Expr, is_parenthesised: bool) -> Result<Argument, AllocError>
    ensures { IfOk result (λ a. argument_view a ≡ argument_of is_parenthesised (expr_view expr)) }
{
    if is_parenthesised {
        return Ok(Argument::Logical(Box::new(alloc, expr)?));
    }
    match expr {
        Expr::Test(query) => Ok(Argument::Nodes(query)),
        Expr::TestCall(call) => Ok(Argument::Func(call)),
        expr => Ok(Argument::Logical(Box::new(alloc, expr)?)),
    }
}

fn filter(alloc: Global, expr: Expr) -> Result<Selector, AllocError>
    ensures { IfOk result (λ s. selector_view s ≡ filter (expr_view expr)) }
{
    Ok(Selector::Filter(Box::new(alloc, expr)?))
}

// What was read, behind which a parenthesis closes.
#[tactic(auto, unfolding(crate::specs::Reading::closing))]
fn closed_behind<T: Drop>(read: T, text: &[char]) -> Read<'_, T>
    ensures { Gives (λ x. (x.0, x.1.now)) result (closing 0x29 read text.now) }
{
    let rest = closed(skip_blanks(text), ')')?;
    Ok((read, rest))
}

#[tactic(auto, unfolding(crate::specs::Reading::closing))]
fn closed_expr(expr: Expr, text: &[char]) -> Read<'_, Expr>
    ensures { Gives (λ x. (expr_view x.0, x.1.now)) result (closing 0x29 (expr_view expr) text.now) }
{
    closed_behind(expr, text)
}

// The call of a name with these arguments, behind which its parenthesis closes.
#[tactic(auto, unfolding(crate::specs::Reading::closing))]
fn call<'a>(
    alloc: Global,
    name: &[char],
    arguments: Vec<Argument>,
    text: &'a [char],
) -> Read<'a, Call>
    requires { IsTrue (list_all is_ascii name.now) }
    ensures { Gives (λ x. (call_view x.0, x.1.now)) result (closing 0x29 (call name.now (arguments_of (map argument_view arguments.items))) text.now) }
{
    let rest = closed(skip_blanks(text), ')')?;
    let name = ascii(alloc, name)?;
    Ok((Call { name, arguments }, rest))
}

// ---- A level deeper

#[cycle(expressions)]
#[tactic(auto, unfolding(crate::specs::ReadingFilters::condition_in))]
fn condition(alloc: Global, text: &[char], level: u8) -> Read<'_, Expr>
    ensures { Gives (λ x. (expr_view x.0, x.1.now)) result (condition_in level text.now) }
{
    if level == 0 {
        return Err(ParseFault::NotWellFormed);
    }
    or_expr(alloc, text, level - 1)
}

// What stands before the parenthesis that closes.
#[cycle(expressions)]
#[tactic(auto, unfolding(crate::specs::ReadingFilters::condition_in, crate::specs::ReadingFilters::arguments_at))]
fn arguments(alloc: Global, text: &[char], level: u8) -> Read<'_, Vec<Argument>>
    ensures { Gives (λ x. (map argument_view x.0.items, x.1.now)) result (arguments_in level text.now) }
{
    if level == 0 {
        return Err(ParseFault::NotWellFormed);
    }
    let [c, ..] = text else {
        return Err(ParseFault::NotWellFormed);
    };
    if *c == ')' {
        Ok((Vec::new(alloc), text))
    } else {
        some_arguments(alloc, text, level - 1)
    }
}

// ---- Selectors and segments

// A selector and the blanks behind it.
#[cycle(expressions)]
#[tactic(auto, unfolding(crate::specs::ReadingSegments::selector_at, crate::specs::ReadingSegments::filter_at))]
fn selector(alloc: Global, text: &[char], level: u8) -> Read<'_, Selector>
    ensures { Gives (λ x. (selector_view x.0, x.1.now)) result (selector_at (condition_in level) text.now) }
{
    let [c, rest @ ..] = text else {
        return Err(ParseFault::NotWellFormed);
    };
    if *c == '*' {
        Ok((Selector::Wild, skip_blanks(rest)))
    } else if *c == '"' || *c == '\'' {
        name(alloc, text)
    } else if *c == '?' {
        let (expr, rest) = condition(alloc, skip_blanks(rest), level)?;
        Ok((filter(alloc, expr)?, skip_blanks(rest)))
    } else {
        index(text)
    }
}

// One or more selectors.
#[cycle(expressions)]
fn selectors(alloc: Global, text: &[char], level: u8) -> Read<'_, Vec<Selector>>
    ensures { Gives (λ x. (map selector_view x.0.items, x.1.now)) result (selectors_at (condition_in level) text.now) }
{
    let (first, after_first) = selector(alloc, text, level)?;
    let mut out = Vec::new(alloc);
    append(&mut out, first)?;
    let mut rest = after_first;
    for _ in 0..text.len() {
        let Some(next) = next_selector(rest) else {
            return Ok((out, rest));
        };
        let (item, after) = selector(alloc, next, level)?;
        append(&mut out, item)?;
        rest = after;
    }
    Ok((out, rest))
}

#[cycle(expressions)]
#[tactic(auto, unfolding(crate::specs::ReadingSegments::segment_at, crate::specs::ReadingSegments::selectors_from, crate::specs::ReadingSegments::bracketed_at))]
fn segment(alloc: Global, text: &[char], level: u8) -> Read<'_, Segment>
    ensures { Gives (λ x. (segment_view x.0, x.1.now)) result (segment_at (condition_in level) text.now) }
{
    let (descend, rest) = opening(text)?;
    match behind(rest, '[') {
        Some(inside) => {
            let (selectors, rest) = selectors(alloc, skip_blanks(inside), level)?;
            let rest = closed(rest, ']')?;
            Ok((Segment { descend, selectors }, rest))
        }
        None => {
            let (selectors, rest) = dotted_selectors(alloc, rest)?;
            Ok((Segment { descend, selectors }, rest))
        }
    }
}

/// The segments at the front. Each takes at least one character, which bounds their number.
#[cycle(expressions)]
pub fn segments(alloc: Global, text: &[char], level: u8) -> Read<'_, Vec<Segment>>
    ensures { Gives (λ x. (map segment_view x.0.items, x.1.now)) result (segments_at (condition_in level) text.now) }
{
    let mut out = Vec::new(alloc);
    let mut rest = text;
    for _ in 0..text.len() {
        let Some(next) = next_segment(rest) else {
            return Ok((out, rest));
        };
        let (item, after) = segment(alloc, next, level)?;
        append(&mut out, item)?;
        rest = after;
    }
    Ok((out, rest))
}

#[cycle(expressions)]
#[tactic(auto, unfolding(crate::specs::ReadingSegments::sub_query_at))]
fn sub_query(alloc: Global, text: &[char], level: u8) -> Read<'_, SubQuery>
    ensures { Gives (λ x. (nested_view x.0, x.1.now)) result (sub_query_at (condition_in level) text.now) }
{
    let [c, rest @ ..] = text else {
        return Err(ParseFault::NotWellFormed);
    };
    if *c != '$' && *c != '@' {
        return Err(ParseFault::NotWellFormed);
    }
    let from_root = *c == '$';
    let (segments, rest) = segments(alloc, rest, level)?;
    Ok((
        SubQuery {
            from_root,
            segments,
        },
        rest,
    ))
}

// ---- Sides, tests and comparisons

// What stands behind a parenthesis.
#[cycle(expressions)]
#[tactic(auto, unfolding(crate::specs::ReadingFilters::parentheses_at))]
fn parentheses(alloc: Global, text: &[char], level: u8) -> Read<'_, Expr>
    ensures { Gives (λ x. (expr_view x.0, x.1.now)) result (parentheses_at (condition_in level) (arguments_in level) text.now) }
{
    let (expr, rest) = condition(alloc, skip_blanks(text), level)?;
    closed_expr(expr, rest)
}

// A literal, a query or a call.
#[cycle(expressions)]
#[tactic(auto, unfolding(crate::specs::ReadingFilters::side_at, crate::specs::ReadingFilters::side_from, crate::specs::ReadingFilters::call_at))]
fn side(alloc: Global, text: &[char], level: u8) -> Read<'_, Comparable>
    ensures { Gives (λ x. (comparable_view x.0, x.1.now)) result (side_at (condition_in level) (arguments_in level) text.now) }
{
    let [c, ..] = text else {
        return Err(ParseFault::NotWellFormed);
    };
    if *c == '$' || *c == '@' {
        let (query, rest) = sub_query(alloc, text, level)?;
        return Ok((Comparable::Single(query), rest));
    }
    match opens_call(text) {
        Some((name, inside)) => {
            let (arguments, rest) = arguments(alloc, skip_blanks(inside), level)?;
            let (call, rest) = call(alloc, name, arguments, rest)?;
            Ok((Comparable::Func(call), rest))
        }
        None => {
            let (literal, rest) = literal(alloc, text)?;
            Ok((Comparable::Lit(literal), rest))
        }
    }
}

// What may stand behind an exclamation mark.
#[cycle(expressions)]
#[tactic(auto, unfolding(crate::specs::ReadingFilters::negatable_at))]
fn negatable(alloc: Global, text: &[char], level: u8) -> Read<'_, Expr>
    ensures { Gives (λ x. (expr_view x.0, x.1.now)) result (negatable_at (condition_in level) (arguments_in level) text.now) }
{
    let [c, rest @ ..] = text else {
        return Err(ParseFault::NotWellFormed);
    };
    if *c == '(' {
        parentheses(alloc, rest, level)
    } else {
        let (side, rest) = side(alloc, text, level)?;
        tested(side, rest)
    }
}

// The other side of a comparison.
#[cycle(expressions)]
#[tactic(auto, unfolding(crate::specs::ReadingFilters::compared_at))]
fn compared(alloc: Global, left: Comparable, op: Op, text: &[char], level: u8) -> Read<'_, Expr>
    ensures { Gives (λ x. (expr_view x.0, x.1.now)) result (compared_at (condition_in level) (arguments_in level) (comparable_view left) op text.now) }
{
    let (right, rest) = side(alloc, text, level)?;
    if is_comparable(&left) && is_comparable(&right) {
        Ok((Expr::Compare(left, op, right), rest))
    } else {
        Err(ParseFault::NotWellFormed)
    }
}

#[cycle(expressions)]
#[tactic(auto, unfolding(crate::specs::ReadingFilters::basic_at, crate::specs::ReadingFilters::basic_from))]
fn basic(alloc: Global, text: &[char], level: u8) -> Read<'_, Expr>
    ensures { Gives (λ x. (expr_view x.0, x.1.now)) result (basic_at (condition_in level) (arguments_in level) text.now) }
{
    let [c, rest @ ..] = text else {
        return Err(ParseFault::NotWellFormed);
    };
    if *c == '!' {
        let (operand, rest) = negatable(alloc, skip_blanks(rest), level)?;
        let operand = Box::new(alloc, operand)?;
        return Ok((Expr::Not(operand), rest));
    }
    if *c == '(' {
        return parentheses(alloc, rest, level);
    }
    let (left, rest) = side(alloc, text, level)?;
    match operator(skip_blanks(rest)) {
        Some((op, right)) => compared(alloc, left, op, skip_blanks(right), level),
        None => tested(left, rest),
    }
}

// ---- Operands: the first, and the others that stand behind it. Most expressions have none, and then no list is made.

#[cycle(expressions)]
fn other_basics(alloc: Global, text: &[char], level: u8, limit: usize) -> Read<'_, Vec<Expr>>
    ensures { Gives (λ x. (map expr_view x.0.items, x.1.now)) result (repeat_at (next_operand 0x26) (basic_at (condition_in level) (arguments_in level)) limit text.now) }
{
    let mut others = Vec::new(alloc);
    let mut rest = text;
    for _ in 0..limit {
        let Some(next) = next_operand(rest, '&') else {
            return Ok((others, rest));
        };
        let (item, after) = basic(alloc, next, level)?;
        append(&mut others, item)?;
        rest = after;
    }
    Ok((others, rest))
}

#[cycle(expressions)]
#[tactic(auto, unfolding(crate::specs::ReadingFilters::and_at, crate::specs::ReadingFilters::basics_at, crate::specs::Reading::list_at))]
fn and_expr(alloc: Global, text: &[char], level: u8) -> Read<'_, Expr>
    ensures { Gives (λ x. (expr_view x.0, x.1.now)) result (and_at (condition_in level) (arguments_in level) text.now) }
{
    let (first, rest) = basic(alloc, text, level)?;
    let (others, rest) = other_basics(alloc, rest, level, text.len())?;
    Ok((join_each(first, others)?, rest))
}

#[cycle(expressions)]
fn other_and_exprs(alloc: Global, text: &[char], level: u8, limit: usize) -> Read<'_, Vec<Expr>>
    ensures { Gives (λ x. (map expr_view x.0.items, x.1.now)) result (repeat_at (next_operand 0x7C) (and_at (condition_in level) (arguments_in level)) limit text.now) }
{
    let mut others = Vec::new(alloc);
    let mut rest = text;
    for _ in 0..limit {
        let Some(next) = next_operand(rest, '|') else {
            return Ok((others, rest));
        };
        let (item, after) = and_expr(alloc, next, level)?;
        append(&mut others, item)?;
        rest = after;
    }
    Ok((others, rest))
}

#[cycle(expressions)]
#[tactic(auto, unfolding(crate::specs::ReadingFilters::or_at, crate::specs::ReadingFilters::ands_at, crate::specs::Reading::list_at))]
fn or_expr(alloc: Global, text: &[char], level: u8) -> Read<'_, Expr>
    ensures { Gives (λ x. (expr_view x.0, x.1.now)) result (or_at (condition_in level) (arguments_in level) text.now) }
{
    let (first, rest) = and_expr(alloc, text, level)?;
    let (others, rest) = other_and_exprs(alloc, rest, level, text.len())?;
    Ok((join_any(first, others)?, rest))
}

// ---- Arguments

#[cycle(expressions)]
#[tactic(auto, unfolding(crate::specs::ReadingFilters::expression_argument_at))]
fn expression_argument(alloc: Global, text: &[char], level: u8) -> Read<'_, Argument>
    ensures { Gives (λ x. (argument_view x.0, x.1.now)) result (expression_argument_at (condition_in level) (arguments_in level) text.now) }
{
    let (expr, rest) = or_expr(alloc, text, level)?;
    let argument = as_argument(alloc, expr, is_parenthesis(text))?;
    Ok((argument, rest))
}

// A literal that is the whole argument, or else an expression.
#[cycle(expressions)]
#[tactic(auto, unfolding(crate::specs::ReadingFilters::argument_at, crate::specs::ReadingFilters::argument_from))]
fn argument(alloc: Global, text: &[char], level: u8) -> Read<'_, Argument>
    ensures { Gives (λ x. (argument_view x.0, x.1.now)) result (argument_at (condition_in level) (arguments_in level) text.now) }
{
    match literal(alloc, text) {
        Ok((literal, rest)) => {
            if ends_argument(skip_blanks(rest)) {
                Ok((Argument::Lit(literal), rest))
            } else {
                expression_argument(alloc, text, level)
            }
        }
        Err(ParseFault::Memory) => Err(ParseFault::Memory),
        Err(_) => expression_argument(alloc, text, level),
    }
}

#[cycle(expressions)]
fn some_arguments(alloc: Global, text: &[char], level: u8) -> Read<'_, Vec<Argument>>
    ensures { Gives (λ x. (map argument_view x.0.items, x.1.now)) result (some_arguments_at (condition_in level) (arguments_in level) text.now) }
{
    let (first, after_first) = argument(alloc, text, level)?;
    let mut out = Vec::new(alloc);
    append(&mut out, first)?;
    let mut rest = after_first;
    for _ in 0..text.len() {
        let Some(next) = next_argument(rest) else {
            return Ok((out, rest));
        };
        let (item, after) = argument(alloc, next, level)?;
        append(&mut out, item)?;
        rest = after;
    }
    Ok((out, rest))
}
