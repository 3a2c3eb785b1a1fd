//! The place at which a text is not JSON.

ghost use Rattle.std.specs.Prelude.{◌≡◌, ◌<◌, ◌↔◌, ℕ, ◌∷◌, ◌++◌, [], IfOk, Some, None, reverse, take, true, false, cond, List, length, get_or};
ghost use Rattle.json_text.specs.Answer.{IsJson};
ghost use Rattle.text_faults.specs.Expectations.{names};
ghost use Rattle.text_faults.specs.Moves.{state, top, moved, expected_of, behind_value as expected_behind};
ghost use Rattle.text_faults.specs.Prefixes.{Begins, IsLongest};
ghost use Rattle.text_faults.specs.Steps.{row_of, move_of, IsInside};
ghost use Rattle.text_faults.specs.declared.marks.Expected.TheVariants.{End};
ghost use Rattle.text_faults.specs.declared.marks.Now.{Now};
ghost use Rattle.text_faults.specs.declared.marks.Now.TheVariants.{Value};

use crate::marks::{Expected, Now, Place};
use crate::moves::{ends, letter};
use crate::steps::{Step, find_step, innermost, next_of, now_at, number_of, row};
use json_text::{Mode, Shape};
use std::alloc::{AllocError, Global};

// Carries out a step, unless the byte cannot stand.
#[inline(always)]
fn go(
    number: &mut usize,
    place: &mut usize,
    opens: &mut Vec<Shape>,
    step: Step,
) -> Result<bool, AllocError>
    ensures moves { IfOk result (λ went. (nows : List Now) → moved (move_of nows step) (reverse opens.old.items) ≡ cond went (Some (state (get_or nows number.new Value) (reverse opens.new.items))) None) }
    ensures inside { IfOk result (λ went. (nows : List Now) → number.old < length nows → IsInside nows step → number.new < length nows) }
    ensures row { IfOk result (λ went. place.old ≡ row_of (top (reverse opens.old.items)) → place.new ≡ row_of (top (reverse opens.new.items))) }
    ensures stays { IfOk result (λ went. went ≡ false → (number.new ≡ number.old) × (opens.new.items ≡ opens.old.items)) }
{
    match step {
        Step::To(next) => *number = next,
        Step::Into(shape, next) => {
            opens.push(shape)?;
            *number = next;
            *place = row(Some(shape));
        }
        Step::Out(next) => {
            let _ = opens.pop();
            *number = next;
            *place = row(innermost(opens));
        }
        Step::Unknown => return Ok(false),
    }
    Ok(true)
}

/// The place at which a text stops to be JSON (RFC 8259): some JSON text begins with the bytes before it, and none with one byte more. Of a text
/// that only ends too soon it is the end. Each byte that is expected there may stand there. Where the text is JSON, nothing is expected at its end. It keeps a byte for each open container, and what each byte
/// did in each state that was met.
pub fn not_json(alloc: Global, text: &str) -> Result<Place, AllocError>
    ensures place { IfOk result (λ place. IsLongest text.now place.at) }
    ensures expected { IfOk result (λ place. (c : ℕ) → names place.expected c ≡ true → Begins (take place.at text.now ++ c ∷ [])) }
    ensures whole { IfOk result (λ place. (place.at ≡ length text.now) × (place.expected ≡ End) ↔ IsJson text.now) }
{
    let mut nows = Vec::new(alloc);
    let mut steps = Vec::new(alloc);
    let mut opens = Vec::new(alloc);
    let mut number = number_of(&mut nows, &mut steps, Now::Value)?;
    let mut place = 0;
    for (at, byte) in text.as_bytes().iter().enumerate() {
        if let Some(next) = next_of(&steps, number, place, *byte) {
            number = next;
            continue;
        }
        let mut step = Step::Unknown;
        find_step(
            &mut nows, &mut steps, number, place, &opens, *byte, &mut step,
        )?;
        if !go(&mut number, &mut place, &mut opens, step)? {
            return Ok(Place {
                at,
                expected: expected(now_at(&nows, number), innermost(&opens)),
            });
        }
    }
    Ok(Place {
        at: text.len(),
        expected: expected(now_at(&nows, number), innermost(&opens)),
    })
}

// What may stand there.
fn expected(now: Now, top: Option<Shape>) -> Expected
    ensures { result ≡ expected_of now top }
{
    match now {
        Now::Value => Expected::Value,
        Now::FirstValue => Expected::ValueOrBracket,
        Now::Name => Expected::Name,
        Now::FirstName => Expected::NameOrBrace,
        Now::Colon => Expected::Colon,
        Now::Next => behind_value(top),
        Now::Quoted(_, Mode::Between) => Expected::Character,
        Now::Quoted(_, Mode::Escape) => Expected::Escape,
        Now::Quoted(_, Mode::Hex(_)) => Expected::Hexadecimal,
        Now::Number(digits) => {
            if ends(digits) {
                behind_value(top)
            } else {
                Expected::Digit
            }
        }
        Now::Word(letters) => Expected::Letter(letter(letters) as char),
    }
}

fn behind_value(top: Option<Shape>) -> Expected
    ensures { result ≡ expected_behind top }
{
    match top {
        None => Expected::End,
        Some(Shape::Array) => Expected::CommaOrBracket,
        Some(Shape::Object) => Expected::CommaOrBrace,
    }
}
