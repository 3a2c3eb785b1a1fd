//! What bytes were found to do, so that one look tells it the next time.

ghost use Rattle.std.specs.Prelude.{◌≡◌, ◌+◌, ◌*◌, ◌<◌, List, length, get_or, reverse, Option, IfOk, IfSome, IsTrue, OnOk};
ghost use Rattle.json_text.specs.declared.tape.Shape.{Shape};
ghost use Rattle.text_faults.specs.Moves.{top, next as move_at};
ghost use Rattle.text_faults.specs.Steps.{row_of, move_of, AreSteps, IsInside, Keeps};
ghost use Rattle.text_faults.specs.declared.marks.Now.{Now};
ghost use Rattle.text_faults.specs.declared.marks.Now.TheVariants.{Value};
ghost use Rattle.text_faults.specs.declared.steps.Step.TheVariants.{Unknown, To};

use crate::marks::{Move, Now};
use crate::moves::next;
use json_text::{Mode, Shape};
use std::alloc::AllocError;

/// What a byte does, by the number of what may come next. Of one that cannot stand nothing is known.
#[derive(Clone, Copy)]
pub enum Step {
    Unknown,
    To(usize),
    Into(Shape, usize),
    Out(usize),
}

/// The innermost open container.
#[inline(always)]
pub fn innermost(opens: &Vec<Shape>) -> Option<Shape>
    ensures { result ≡ top (reverse opens.now.items) }
{
    match opens.last() {
        Some(shape) => Some(*shape),
        None => None,
    }
}

/// Where the steps of a state stand that belong to the innermost open container.
#[inline(always)]
pub fn row(innermost: Option<Shape>) -> usize
    ensures { result ≡ row_of innermost }
{
    match innermost {
        None => 0,
        Some(Shape::Array) => 256,
        Some(Shape::Object) => 512,
    }
}

/// Tells what a byte does, as it was found before or is found now. The step is written and not returned, which keeps it in registers.
#[inline(always)]
pub fn find_step(
    nows: &mut Vec<Now>,
    steps: &mut Vec<Step>,
    number: usize,
    row: usize,
    opens: &Vec<Shape>,
    byte: u8,
    step: &mut Step,
) -> Result<(), AllocError>
    requires steps { AreSteps nows.old.items steps.old.items }
    requires inside { number < length nows.old.items }
    requires row { row ≡ row_of (top (reverse opens.now.items)) }
    ensures steps { OnOk result (AreSteps nows.new.items steps.new.items × Keeps nows.old.items nows.new.items) }
    ensures step { OnOk result (IsInside nows.new.items step.new × (move_of nows.new.items step.new ≡ move_at (get_or nows.old.items number Value) (top (reverse opens.now.items)) byte)) }
{
    *step = look(steps, number, row, byte);
    if let Step::Unknown = *step {
        *step = learn(nows, steps, number, innermost(opens), byte)?;
    }
    Ok(())
}

/// The state that a byte goes on to, where that is known and no container is opened or left.
#[inline(always)]
pub fn next_of(steps: &Vec<Step>, number: usize, row: usize, byte: u8) -> Option<usize>
    requires { number * 1024 + row + byte < length steps.now.items }
    ensures { IfSome result (λ next. (nows : List Now) (innermost : Option Shape) → AreSteps nows steps.now.items → number < length nows → row ≡ row_of innermost → IsInside nows (To next) × (move_of nows (To next) ≡ move_at (get_or nows number Value) innermost byte)) }
{
    if let Step::To(next) = look(steps, number, row, byte) {
        return Some(next);
    }
    None
}

/// The state with a number.
pub fn now_at(nows: &Vec<Now>, number: usize) -> Now
    requires { number < length nows.now.items }
    ensures { result ≡ get_or nows.now.items number Value }
{
    nows[number]
}

#[inline(always)]
fn look(steps: &Vec<Step>, number: usize, row: usize, byte: u8) -> Step
    requires { number * 1024 + row + byte < length steps.now.items }
    ensures { result ≡ get_or steps.now.items (number * 1024 + row + byte) Unknown }
{
    steps[number * 1024 + row + byte as usize]
}

// Finds what a byte does, and keeps it.
#[inline(never)]
fn learn(
    nows: &mut Vec<Now>,
    steps: &mut Vec<Step>,
    number: usize,
    innermost: Option<Shape>,
    byte: u8,
) -> Result<Step, AllocError>
    requires steps { AreSteps nows.old.items steps.old.items }
    requires inside { number < length nows.old.items }
    ensures steps { IfOk result (λ step. AreSteps nows.new.items steps.new.items × Keeps nows.old.items nows.new.items) }
    ensures step { IfOk result (λ step. IsInside nows.new.items step × (move_of nows.new.items step ≡ move_at (get_or nows.old.items number Value) innermost byte)) }
{
    let now = now_at(nows, number);
    let by = next(now, innermost, byte);
    let step = found_step(nows, steps, by)?;
    steps[number * 1024 + row(innermost) + byte as usize] = step;
    Ok(step)
}

// The step of a move.
fn found_step(nows: &mut Vec<Now>, steps: &mut Vec<Step>, by: Move) -> Result<Step, AllocError>
    requires { AreSteps nows.old.items steps.old.items }
    ensures steps { IfOk result (λ step. AreSteps nows.new.items steps.new.items × Keeps nows.old.items nows.new.items) }
    ensures step { IfOk result (λ step. IsInside nows.new.items step × (move_of nows.new.items step ≡ by)) }
{
    match by {
        Move::To(now) => Ok(Step::To(number_of(nows, steps, now)?)),
        Move::Into(shape, now) => Ok(Step::Into(shape, number_of(nows, steps, now)?)),
        Move::Out(now) => Ok(Step::Out(number_of(nows, steps, now)?)),
        Move::Refused => Ok(Step::Unknown),
    }
}

/// The number of what may come next, which is a new one if it has none.
pub fn number_of(nows: &mut Vec<Now>, steps: &mut Vec<Step>, now: Now) -> Result<usize, AllocError>
    requires { AreSteps nows.old.items steps.old.items }
    ensures steps { IfOk result (λ number. AreSteps nows.new.items steps.new.items × Keeps nows.old.items nows.new.items) }
    ensures number { IfOk result (λ number. (number < length nows.new.items) × (get_or nows.new.items number Value ≡ now)) }
{
    for n in 0..nows.len() {
        if is_same(nows[n], now) {
            return Ok(n);
        }
    }
    nows.push(now)?;
    steps.resize(steps.len() + 1024, Step::Unknown)?;
    Ok(nows.len() - 1)
}

fn is_same(one: Now, other: Now) -> bool
    ensures { IsTrue result → one ≡ other }
{
    match (one, other) {
        (Now::Value, Now::Value) => true,
        (Now::FirstValue, Now::FirstValue) => true,
        (Now::Name, Now::Name) => true,
        (Now::FirstName, Now::FirstName) => true,
        (Now::Colon, Now::Colon) => true,
        (Now::Next, Now::Next) => true,
        (Now::Quoted(purpose, mode), Now::Quoted(purpose2, mode2)) => {
            purpose == purpose2 && is_same_mode(mode, mode2)
        }
        (Now::Number(digits), Now::Number(digits2)) => digits == digits2,
        (Now::Word(letters), Now::Word(letters2)) => letters == letters2,
        _ => false,
    }
}

fn is_same_mode(one: Mode, other: Mode) -> bool
    ensures { IsTrue result → one ≡ other }
{
    match (one, other) {
        (Mode::Between, Mode::Between) => true,
        (Mode::Escape, Mode::Escape) => true,
        (Mode::Hex(more), Mode::Hex(more2)) => more == more2,
        _ => false,
    }
}
