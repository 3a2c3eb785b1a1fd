//! What each byte does.

ghost use Rattle.std.specs.Prelude.{◌≡◌};
ghost use Rattle.json_text.specs.Scanning as scanning;
ghost use Rattle.json_text.specs.Tokens as tokens;
ghost use Rattle.text_faults.specs.Moves as moves;

use crate::marks::{Digits, Letters, Move, Now, Purpose};
use json_text::{Mode, Shape, Turn};

#[inline(always)]
fn is_blank(b: u8) -> bool
    ensures { result ≡ tokens.is_blank b }
{
    b == b' ' || b == b'\t' || b == b'\n' || b == b'\r'
}

fn is_hex(b: u8) -> bool
    ensures { result ≡ scanning.is_hex b }
{
    (b'0' <= b && b <= b'9') || (b'A' <= b && b <= b'F') || (b'a' <= b && b <= b'f')
}

fn is_short(b: u8) -> bool
    ensures { result ≡ scanning.is_short b }
{
    b == b'"'
        || b == b'\\'
        || b == b'/'
        || b == b'b'
        || b == b'f'
        || b == b'n'
        || b == b'r'
        || b == b't'
}

#[inline(always)]
fn turn(mode: Mode, b: u8) -> Turn
    ensures { result ≡ scanning.turn mode b }
{
    match mode {
        Mode::Between => {
            if b == b'"' {
                Turn::Stop
            } else if b == b'\\' {
                Turn::Go(Mode::Escape)
            } else if b < 32 {
                Turn::Fail
            } else {
                Turn::Go(Mode::Between)
            }
        }
        Mode::Escape => {
            if is_short(b) {
                Turn::Go(Mode::Between)
            } else if b == b'u' {
                Turn::Go(Mode::Hex(3))
            } else {
                Turn::Fail
            }
        }
        Mode::Hex(more) => {
            if !is_hex(b) {
                Turn::Fail
            } else if more == 0 {
                Turn::Go(Mode::Between)
            } else {
                Turn::Go(Mode::Hex(more - 1))
            }
        }
    }
}

// A value's first byte.
fn begin(b: u8) -> Option<Now>
    ensures { result ≡ moves.begin b }
{
    if b == b'"' {
        Some(Now::Quoted(Purpose::Value, Mode::Between))
    } else if b == b'-' {
        Some(Now::Number(Digits::Minus))
    } else if b == b'0' {
        Some(Now::Number(Digits::Zero))
    } else if b'1' <= b && b <= b'9' {
        Some(Now::Number(Digits::Int))
    } else if b == b't' {
        Some(Now::Word(Letters::Rue))
    } else if b == b'f' {
        Some(Now::Word(Letters::Alse))
    } else if b == b'n' {
        Some(Now::Word(Letters::Ull))
    } else if b == b'[' {
        Some(Now::FirstValue)
    } else if b == b'{' {
        Some(Now::FirstName)
    } else {
        None
    }
}

/// The byte that goes on with a word.
pub fn letter(letters: Letters) -> u8
    ensures { result ≡ moves.letter letters }
{
    match letters {
        Letters::Rue => b'r',
        Letters::Ue => b'u',
        Letters::E => b'e',
        Letters::Alse => b'a',
        Letters::Lse => b'l',
        Letters::Se => b's',
        Letters::Ull => b'u',
        Letters::Ll => b'l',
        Letters::L => b'l',
    }
}

fn after_letter(letters: Letters) -> Now
    ensures { result ≡ moves.after_letter letters }
{
    match letters {
        Letters::Rue => Now::Word(Letters::Ue),
        Letters::Ue => Now::Word(Letters::E),
        Letters::E => Now::Next,
        Letters::Alse => Now::Word(Letters::Lse),
        Letters::Lse => Now::Word(Letters::Se),
        Letters::Se => Now::Word(Letters::E),
        Letters::Ull => Now::Word(Letters::Ll),
        Letters::Ll => Now::Word(Letters::L),
        Letters::L => Now::Next,
    }
}

#[inline(always)]
fn is_digit(b: u8) -> bool
    ensures { result ≡ moves.is_digit b }
{
    b'0' <= b && b <= b'9'
}

fn is_e(b: u8) -> bool
    ensures { result ≡ moves.is_e b }
{
    b == b'e' || b == b'E'
}

// A byte that goes on with a number.
#[inline(always)]
fn digit(digits: Digits, b: u8) -> Option<Digits>
    ensures { result ≡ moves.digit digits b }
{
    match digits {
        Digits::Minus => {
            if b == b'0' {
                Some(Digits::Zero)
            } else if b'1' <= b && b <= b'9' {
                Some(Digits::Int)
            } else {
                None
            }
        }
        Digits::Zero => point(b),
        Digits::Int => {
            if is_digit(b) {
                Some(Digits::Int)
            } else {
                point(b)
            }
        }
        Digits::Point => {
            if is_digit(b) {
                Some(Digits::Frac)
            } else {
                None
            }
        }
        Digits::Frac => {
            if is_digit(b) {
                Some(Digits::Frac)
            } else if is_e(b) {
                Some(Digits::E)
            } else {
                None
            }
        }
        Digits::E => {
            if b == b'-' || b == b'+' {
                Some(Digits::Sign)
            } else if is_digit(b) {
                Some(Digits::Exp)
            } else {
                None
            }
        }
        Digits::Sign | Digits::Exp => { if is_digit(b) { Some(Digits::Exp) } else { None } }
    }
}

// The byte behind an integer that goes on with it.
fn point(b: u8) -> Option<Digits>
    ensures { result ≡ moves.point b }
{
    if b == b'.' {
        Some(Digits::Point)
    } else if is_e(b) {
        Some(Digits::E)
    } else {
        None
    }
}

/// Whether a number may end here.
#[inline(always)]
pub fn ends(digits: Digits) -> bool
    ensures { result ≡ moves.ends digits }
{
    match digits {
        Digits::Zero | Digits::Int | Digits::Frac | Digits::Exp => true,
        Digits::Minus | Digits::Point | Digits::E | Digits::Sign => false,
    }
}

// A byte behind a value.
#[inline(always)]
fn follow(top: Option<Shape>, b: u8) -> Move
    ensures { result ≡ moves.follow top b }
{
    if is_blank(b) {
        return Move::To(Now::Next);
    }
    match top {
        None => Move::Refused,
        Some(Shape::Array) => {
            if b == b',' {
                Move::To(Now::Value)
            } else if b == b']' {
                Move::Out(Now::Next)
            } else {
                Move::Refused
            }
        }
        Some(Shape::Object) => {
            if b == b',' {
                Move::Out(Now::Name)
            } else if b == b'}' {
                Move::Out(Now::Next)
            } else {
                Move::Refused
            }
        }
    }
}

fn to(now: Option<Now>) -> Move
    ensures { result ≡ moves.to now }
{
    match now {
        Some(now) => Move::To(now),
        None => Move::Refused,
    }
}

fn into_array(now: Option<Now>) -> Move
    ensures { result ≡ moves.into_array now }
{
    match now {
        Some(now) => Move::Into(Shape::Array, now),
        None => Move::Refused,
    }
}

// The quote of a name.
fn name(b: u8) -> Move
    ensures { result ≡ moves.name b }
{
    if b == b'"' {
        Move::To(Now::Quoted(Purpose::Name, Mode::Between))
    } else {
        Move::Refused
    }
}

#[inline(always)]
fn after_string(purpose: Purpose) -> Now
    ensures { result ≡ moves.after_string purpose }
{
    match purpose {
        Purpose::Value => Now::Next,
        Purpose::Name => Now::Colon,
    }
}

#[inline(always)]
fn quoted(purpose: Purpose, turn: Turn) -> Move
    ensures { result ≡ moves.quoted purpose turn }
{
    match turn {
        Turn::Stop => Move::To(after_string(purpose)),
        Turn::Fail => Move::Refused,
        Turn::Go(mode) => Move::To(Now::Quoted(purpose, mode)),
    }
}

#[inline(always)]
fn number(digits: Digits, top: Option<Shape>, b: u8) -> Move
    ensures { result ≡ moves.number digits top b }
{
    match digit(digits, b) {
        Some(next) => Move::To(Now::Number(next)),
        None => {
            if ends(digits) {
                follow(top, b)
            } else {
                Move::Refused
            }
        }
    }
}

/// What a byte does, by what may come next and the innermost open container.
#[inline(always)]
pub fn next(now: Now, top: Option<Shape>, b: u8) -> Move
    ensures { result ≡ moves.next now top b }
{
    match now {
        Now::Value => {
            if is_blank(b) {
                Move::To(now)
            } else {
                to(begin(b))
            }
        }
        Now::FirstValue => {
            if is_blank(b) {
                Move::To(now)
            } else if b == b']' {
                Move::To(Now::Next)
            } else {
                into_array(begin(b))
            }
        }
        Now::Name => { if is_blank(b) { Move::To(now) } else { name(b) } }
        Now::FirstName => {
            if is_blank(b) {
                Move::To(now)
            } else if b == b'}' {
                Move::To(Now::Next)
            } else {
                name(b)
            }
        }
        Now::Colon => {
            if is_blank(b) {
                Move::To(now)
            } else if b == b':' {
                Move::Into(Shape::Object, Now::Value)
            } else {
                Move::Refused
            }
        }
        Now::Next => follow(top, b),
        Now::Quoted(purpose, mode) => quoted(purpose, turn(mode, b)),
        Now::Number(digits) => number(digits, top, b),
        Now::Word(letters) => {
            if b == letter(letters) {
                Move::To(after_letter(letters))
            } else {
                Move::Refused
            }
        }
    }
}
