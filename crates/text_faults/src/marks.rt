//! What may come next in a text, byte by byte (RFC 8259, sections 2 to 7), and what is said of a place.

use json_text::{Mode, Shape};
use std::fmt;

/// What a string is: a value, or the name of a member.
#[derive(Clone, Copy, PartialEq, Eq)]
pub enum Purpose {
    Value,
    Name,
}

/// How much of a number was read.
#[derive(Clone, Copy, PartialEq, Eq)]
pub enum Digits {
    Minus,
    Zero,
    Int,
    Point,
    Frac,
    E,
    Sign,
    Exp,
}

/// The letters of `true`, `false` or `null` that are still to come.
#[derive(Clone, Copy, PartialEq, Eq)]
pub enum Letters {
    Rue,
    Ue,
    E,
    Alse,
    Lse,
    Se,
    Ull,
    Ll,
    L,
}

/// What may come next. In `FirstValue`, `Name`, `FirstName`, `Colon` and the string of a name, the innermost container is not yet among the open ones.
#[derive(Clone, Copy)]
pub enum Now {
    Value,
    FirstValue,
    Name,
    FirstName,
    Colon,
    Next,
    Quoted(Purpose, Mode),
    Number(Digits),
    Word(Letters),
}

/// What a byte does: it goes on, opens a container, closes one or leaves it for the next name, or cannot stand.
#[derive(Clone, Copy)]
pub enum Move {
    To(Now),
    Into(Shape, Now),
    Out(Now),
    Refused,
}

/// What may stand at a place.
#[derive(Clone, Copy, Debug, PartialEq, Eq)]
pub enum Expected {
    Value,
    ValueOrBracket,
    Name,
    NameOrBrace,
    Colon,
    CommaOrBracket,
    CommaOrBrace,
    End,
    Character,
    Escape,
    Hexadecimal,
    Digit,
    Letter(char),
}

impl fmt::Display for Expected {
    fn fmt<W: fmt::Write>(&self, f: &mut fmt::Formatter<W>) -> fmt::Result {
        match self {
            Expected::Value => write!(f, "a value"),
            Expected::ValueOrBracket => write!(f, "a value or ']'"),
            Expected::Name => write!(f, "a name in double quotes"),
            Expected::NameOrBrace => write!(f, "a name in double quotes or '}}'"),
            Expected::Colon => write!(f, "':'"),
            Expected::CommaOrBracket => write!(f, "',' or ']'"),
            Expected::CommaOrBrace => write!(f, "',' or '}}'"),
            Expected::End => write!(f, "the end of the text"),
            Expected::Character => write!(f, "a character or '\"'"),
            Expected::Escape => write!(f, "an escape"),
            Expected::Hexadecimal => write!(f, "four hexadecimal digits"),
            Expected::Digit => write!(f, "a digit"),
            Expected::Letter(letter) => write!(f, "'{letter}'"),
        }
    }
}

/// A place in a text: how many bytes stand before it, and what may stand there.
#[derive(Clone, Copy, Debug, PartialEq, Eq)]
pub struct Place {
    pub at: usize,
    pub expected: Expected,
}
