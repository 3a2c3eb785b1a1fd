//! Texts of lines, each of which spells one thing.

ghost use Rattle.std.specs.Prelude.{◌≡◌, ◌∷◌, ◌<◌, ℕ, List, IfErr, IfNone, IfOk, IfSome, length};
ghost use Rattle.path_server.specs.declared.text_lines.LinesFault.TheVariants.{Memory};
ghost use Rattle.path_server.specs.Splitting.{IsSplit, Lacks};
ghost use Rattle.path_server.specs.TextLines.{IsBad, IsLinesFault, SpellAll, lines_in};

use memchr::memchr;
use std::alloc::{AllocError, AllocFailed, Global};

/// What is wrong with the lines of a text.
#[derive(Clone, Copy, Drop)]
pub enum LinesFault {
    /// The line with this number, counted from 1, spells nothing.
    BadLine(u64),
    /// An allocation failed.
    Memory,
}

impl From<AllocError> for LinesFault {
    ghost from_gives = { λ _ made. made ≡ Memory };

    fn from(_: AllocError) -> LinesFault {
        LinesFault::Memory
    }
}

impl<T: Drop> From<AllocFailed<T>> for LinesFault {
    ghost from_gives = { λ _ made. made ≡ Memory };

    fn from(_: AllocFailed<T>) -> LinesFault {
        LinesFault::Memory
    }
}

/// What a line can spell.
pub trait Line: Sized {
    /// Whether a line spells it.
    ghost spells: { List ℕ → Self → Type 0 };

    /// What a line spells, if anything.
    fn read_line(alloc: Global, line: &[u8]) -> Result<Option<Self>, AllocError>
        ensures some { IfOk result (λ found. IfSome found (λ thing. spells line.now thing)) }
        ensures none { IfOk result (λ found. IfNone found (IsBad spells line.now)) };
}

/// What stands before the first such byte, and behind it.
pub fn split_once(text: &[u8], mark: u8) -> Option<(&[u8], &[u8])>
    ensures some { IfSome result (λ parts. IsSplit mark text.now parts.0.now parts.1.now) }
    ensures none { IfNone result (Lacks mark text.now) }
{
    match memchr(mark, text) {
        Some(at) => Some((&text[..at], &text[at + 1..])),
        None => None,
    }
}

// The first line of a text, without its line feed, and the text behind it.
fn first_line(text: &[u8]) -> (&[u8], &[u8])
    requires { 0 < length text.now }
    ensures lines { lines_in text.now ≡ result.0.now ∷ lines_in result.1.now }
    ensures shorter { length result.1.now < length text.now }
{
    match split_once(text, b'\n') {
        Some(parts) => parts,
        None => (text, &[]),
    }
}

/// What the lines of a text spell, in order.
pub fn read_lines<T: Line + Drop>(alloc: Global, text: &[u8]) -> Result<Vec<T>, LinesFault>
    ensures spelled { IfOk result (λ things. SpellAll T.spells text.now things.items) }
    ensures bad { IfErr result (IsLinesFault T.spells (lines_in text.now)) }
{
    let mut things = Vec::new(alloc);
    let mut rest = text;
    while !rest.is_empty() {
        let (line, others) = first_line(rest);
        let Some(thing) = T::read_line(alloc, line)? else {
            return Err(LinesFault::BadLine(things.len() as u64 + 1));
        };
        things.push(thing)?;
        rest = others;
    }
    Ok(things)
}
