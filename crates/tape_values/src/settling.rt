//! Whether characters of a string leave an escape open, wherever a reading of it stands before them.

ghost use Rattle.std.specs.Prelude.{◌≡◌, ℕ, List, [], ◌∷◌, IsTrue, true, false};
ghost use Rattle.std.specs.Str.{chars};
ghost use Rattle.tape_values.specs.Settling.{high_by, settles, settles_from, AreSettled};
ghost use Rattle.json_strings.specs.Spelling.{hex_value as value_of_hex};

use json_text::Mode;

/// A reading of characters, as far as it is known: what comes next, whether a high surrogate may have ended right before, and whether the next unit may
/// be one.
#[derive(Clone, Copy)]
pub struct Reading {
    pub mode: Mode,
    pub is_high: bool,
    pub may_be_high: bool,
}

fn hex_value(c: char) -> u32
    ensures { result ≡ value_of_hex c }
{
    match c.to_digit(16) {
        Some(digit) => digit,
        None => 0,
    }
}

// Whether a unit may be a high surrogate behind a digit, behind which so many follow: the first is D, and the second 8 to B.
fn told_by_digit(left: u8, c: char, may: bool) -> bool
    ensures { result ≡ high_by left (value_of_hex c) may }
{
    let digit = hex_value(c);
    if left == 2 {
        digit == 13
    } else if left == 1 {
        may && 8 <= digit && digit < 12
    } else {
        may
    }
}

// Behind a character that is complete.
fn between(is_high: bool) -> Reading
    ensures { result ≡ record { mode = Mode.Between; is_high = is_high; may_be_high = false } }
{
    Reading {
        mode: Mode::Between,
        is_high,
        may_be_high: false,
    }
}

// Behind a digit of a unit, of which so many follow.
fn after_digit(left: u8, is_high: bool, may: bool, c: char) -> Reading
    ensures { (cs : List ℕ) → settles_from result cs ≡ settles (Mode.Hex left) is_high may (c ∷ cs) }
{
    if left == 0 {
        return between(may);
    }
    Reading {
        mode: Mode::Hex(left - 1),
        is_high,
        may_be_high: told_by_digit(left - 1, c, may),
    }
}

// Behind one more character.
fn after(reading: Reading, c: char) -> Reading
    ensures { (cs : List ℕ) → settles_from result cs ≡ settles_from reading (c ∷ cs) }
{
    match reading.mode {
        Mode::Between => {
            if c == '\\' {
                Reading {
                    mode: Mode::Escape,
                    is_high: reading.is_high,
                    may_be_high: false,
                }
            } else {
                between(false)
            }
        }
        Mode::Escape => {
            if c == 'u' {
                Reading {
                    mode: Mode::Hex(3),
                    is_high: reading.is_high,
                    may_be_high: false,
                }
            } else {
                between(false)
            }
        }
        Mode::Hex(left) => after_digit(left, reading.is_high, reading.may_be_high, c),
    }
}

// Whether nothing is open there.
fn is_complete(reading: Reading) -> bool
    ensures { result ≡ settles_from reading [] }
{
    match reading.mode {
        Mode::Between => !reading.is_high,
        Mode::Escape | Mode::Hex(_) => false,
    }
}

// Whether nothing is open behind the characters, of which a reading comes to the first in this mode.
fn settles_in(mode: Mode, text: &str) -> bool
    ensures { result ≡ settles mode true true (chars text.now) }
{
    let mut reading = Reading {
        mode,
        is_high: true,
        may_be_high: true,
    };
    let mut rest = text.chars();
    while let Some(c) = rest.next() {
        reading = after(reading, c);
    }
    is_complete(reading)
}

/// Whether no escape and no surrogate is open behind the characters, whatever stands before them.
pub fn are_settled(text: &str) -> bool
    ensures { IsTrue result → AreSettled (chars text.now) }
{
    settles_in(Mode::Between, text)
        && settles_in(Mode::Escape, text)
        && settles_in(Mode::Hex(0), text)
        && settles_in(Mode::Hex(1), text)
        && settles_in(Mode::Hex(2), text)
        && settles_in(Mode::Hex(3), text)
}
