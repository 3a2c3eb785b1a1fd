//! What is said of a refused query beside the refusal's name.

ghost use Rattle.std.specs.Prelude.{ℕ, ◌≤◌, length, IfOk};
ghost use Rattle.query_faults.specs.Places.{IsWithin};

use crate::hints::hint;
use crate::reading::{LEVEL_LIMIT, Reading, is_bound};
use crate::rules::Rule;
use crate::states::{Decimal, Frame, Inside, Now, Operand, Part, Side, Whole};
use std::alloc::{AllocError, Global};
use text_faults::{Finding, not_utf8};

/// Why a query is refused.
#[derive(Clone, Copy, Debug, PartialEq, Eq)]
pub enum Refusal {
    TooLong,
    NotWellFormed,
    NotValid,
}

fn behind(operand: Operand, side: Side, frame: Option<Frame>) -> &'static str {
    let is_compared = matches!(
        operand,
        Operand::Literal | Operand::Singular | Operand::Function
    );
    let is_argument = matches!(frame, Some(Frame::Call { plain: true, .. }));
    if side == Side::Left && operand == Operand::Literal {
        return if is_argument {
            "a comparison, ',' or ')'"
        } else {
            "a comparison"
        };
    }
    match (side == Side::Left && is_compared, frame) {
        (true, Some(Frame::Filter)) => "a comparison, '&&', '||', ',' or ']'",
        (true, Some(Frame::Paren { .. })) => "a comparison, '&&', '||' or ')'",
        (true, _) => "a comparison, '&&', '||', ',' or ')'",
        (false, Some(Frame::Filter)) => "'&&', '||', ',' or ']'",
        (false, Some(Frame::Paren { .. })) => "'&&', '||' or ')'",
        (false, _) => "'&&', '||', ',' or ')'",
    }
}

fn inside(inside: Inside) -> &'static str {
    match inside {
        Inside::Between => "a character or the closing quote",
        Inside::Escape => "an escape",
        Inside::Unit | Inside::Digits(_) | Inside::HighDigits(_) => "four hexadecimal digits",
        Inside::UnitBehindD => "a digit of a character, or of the first half of a pair",
        Inside::LowSlash | Inside::LowU | Inside::LowD | Inside::LowSecond => {
            "the second half of a surrogate pair"
        }
    }
}

fn number(part: Part, whole: Whole, bound: bool) -> &'static str {
    match (whole, part) {
        (Whole::Minus, _) => "a digit from 1 to 9",
        (_, _) if bound => "']'",
        (Whole::Before, Part::Step) => "a number, ',' or ']'",
        (Whole::Before, _) => "a number, ':', ',' or ']'",
        (_, Part::Step) => "',' or ']'",
        (_, _) => "':', ',' or ']'",
    }
}

// What may come next.
fn expected(reading: &Reading<'_>) -> &'static str {
    let frame = reading.innermost();
    let bound = is_bound(frame);
    let is_top = matches!(frame, Some(Frame::Query { side: None, .. }));
    match reading.now {
        Now::Root => "'$'",
        Now::Segment { blank: true } if is_top => "'.' or '['",
        Now::Short if is_top => "a character of a name, '.', '[' or the end of the query",
        Now::Segment { .. } if is_top => "'.', '[' or the end of the query",
        Now::Segment { .. } | Now::Short => "'.', '[' or what follows a query in a filter",
        Now::Dot if bound => "a name",
        Now::Selector if bound => "a name in quotes or an index",
        Now::BehindSelector if bound => "']'",
        Now::Dot => "a name, '*' or '.'",
        Now::Dots => "a name, '*' or '['",
        Now::Selector => "a name in quotes, a number, ':', '*' or '?'",
        Now::BehindSelector => "',' or ']'",
        Now::Number(part, whole) => number(part, whole, bound),
        Now::Name { inside: it, .. } | Now::Text { inside: it, .. } => inside(it),
        Now::Operand(Side::Left) => "'@', '$', a literal, a function, '!' or '('",
        Now::Operand(Side::Negated) => "'@', '$', a function or '('",
        Now::Operand(Side::Right) => "'@', '$', a literal or a function",
        Now::Arguments => "an argument or ')'",
        Now::Literal(Decimal::Minus | Decimal::Point | Decimal::E | Decimal::Sign, _) => "a digit",
        Now::Literal(_, side) => behind(Operand::Literal, side, frame),
        Now::Word(_) => "true, false, null, or a function with its '('",
        Now::Compared(b'=' | b'!') => "'='",
        Now::Compared(_) => "'=', '@', '$', a literal or a function",
        Now::Joined(b'&') => "'&'",
        Now::Joined(_) => "'|'",
        Now::Behind(side, operand) => behind(operand, side, frame),
    }
}

/// What is said of a refused query, as lines. If `shows`, two of them show the place in its line. Where there is nothing to say, it is empty.
pub fn told(
    alloc: Global,
    query: &[u8],
    refusal: Refusal,
    shows: bool,
) -> Result<String, AllocError> {
    match find(alloc, query, refusal)? {
        Some(finding) => finding.lines(alloc, query, shows),
        None => Ok(String::new(alloc)),
    }
}

/// Where a query is refused for this reason, and why there. The place is no further than its end.
pub fn find(alloc: Global, query: &[u8], refusal: Refusal) -> Result<Option<Finding>, AllocError>
    ensures { IfOk result (λ found. IsWithin found (length query.now)) }
{
    if refusal == Refusal::TooLong {
        return of_length(alloc, query.len());
    }
    let mut reading = Reading::new(alloc, query);
    let utf8 = not_utf8(query);
    for (at, byte) in query.iter().enumerate() {
        if at == utf8 && refusal == Refusal::NotWellFormed {
            return Ok(Some(Finding::of_expected(alloc, query, at, "UTF-8", None)?));
        }
        if !reading.take(at, *byte)? {
            return of_place(alloc, query, &reading, at);
        }
    }
    if refusal == Refusal::NotValid {
        return of_rule(alloc, query, reading.broken);
    }
    if reading.may_end() {
        return Ok(None);
    }
    of_place(alloc, query, &reading, query.len())
}

fn of_length(alloc: Global, length: usize) -> Result<Option<Finding>, AllocError>
    ensures { IfOk result (λ found. (n : ℕ) → IsWithin found n) }
{
    Ok(Some(Finding {
        at: None,
        expected: String::new(alloc),
        message: format!(in alloc; "{length} bytes, at most 4096 are read")?,
        hint: None,
        first: None,
    }))
}

fn of_rule(
    alloc: Global,
    query: &[u8],
    broken: Option<(usize, Rule)>,
) -> Result<Option<Finding>, AllocError>
    ensures { IfOk result (λ found. IsWithin found (length query.now)) }
{
    match broken {
        Some((at, rule)) => {
            let rule = format!(in alloc; "{rule}")?;
            Ok(Some(Finding::of_rule(alloc, at.min(query.len()), rule.as_str())?))
        }
        None => Ok(None),
    }
}

fn of_place(
    alloc: Global,
    query: &[u8],
    reading: &Reading<'_>,
    at: usize,
) -> Result<Option<Finding>, AllocError>
    ensures { IfOk result (λ found. at ≤ length query.now → IsWithin found (length query.now)) }
{
    if reading.is_too_deep {
        let rule = format!(in alloc; "level 33, at most {LEVEL_LIMIT} are read")?;
        return Ok(Some(Finding::of_rule(alloc, at, rule.as_str())?));
    }
    let hint = hint(query, at, reading.now);
    Ok(Some(Finding::of_expected(alloc, query, at, expected(reading), hint)?))
}
