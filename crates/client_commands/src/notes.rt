//! What is noted of the place at which a text or a query is refused.

use crate::messages::{Cause, Report};
use std::alloc::{AllocError, Global};
use std::fmt;
use text_faults::{Finding, Spot};

/// The place of a refusal, and the lines that tell of it.
#[derive(Drop)]
pub struct Note {
    pub spot: Option<Spot>,
    // where it stands first, of what comes again
    pub first: Option<Spot>,
    pub finding: Finding,
    pub lines: String,
}

impl Note {
    /// The note of a finding in a text whose first line has this number. If `shows`, two lines show the place in its line.
    pub fn new(
        alloc: Global,
        text: &[u8],
        first_line: usize,
        finding: Finding,
        shows: bool,
    ) -> Result<Note, AllocError> {
        let lines = finding.lines_from(alloc, text, first_line, shows)?;
        Ok(Note {
            spot: finding.spot_from(text, first_line),
            first: finding.first_from(text, first_line),
            finding,
            lines,
        })
    }
}

/// A failure as an object of JSON.
#[derive(Clone, Copy)]
pub struct JsonFault<'a> {
    pub told: Report<'a>,
    pub note: &'a Option<Note>,
}

impl<'a> fmt::Display for JsonFault<'a> {
    fn fmt<W: fmt::Write>(&self, f: &mut fmt::Formatter<W>) -> fmt::Result {
        let told = &self.told;
        write!(f, "{{\"error\":{},\"message\":", Quoted(told.name))?;
        write!(f, "\"{}{}\"", Inside(told.what), Inside(told.about))?;
        match told.cause {
            Some(Cause::System { of, reason }) => {
                write!(f, ",\"of\":{},\"reason\":\"{reason}\"", Quoted(of))?;
            }
            Some(Cause::Word(number)) => write!(f, ",\"word\":{number}")?,
            Some(Cause::Variable(name)) => write!(f, ",\"variable\":{}", Quoted(name))?,
            None => {}
        }
        if let Some(note) = self.note {
            write!(f, "{}", Members(note))?;
        }
        write!(f, "}}")
    }
}

/// The members of a note in an object of JSON, each behind a comma.
#[derive(Clone, Copy)]
pub struct Members<'a>(pub &'a Note);

impl<'a> fmt::Display for Members<'a> {
    fn fmt<W: fmt::Write>(&self, f: &mut fmt::Formatter<W>) -> fmt::Result {
        let note = self.0;
        if let Some(spot) = note.spot {
            write!(
                f,
                ",\"byte\":{},\"line\":{},\"column\":{}",
                spot.byte, spot.line, spot.column
            )?;
        }
        if let Some(first) = note.first {
            write!(
                f,
                ",\"first\":{{\"byte\":{},\"line\":{},\"column\":{}}}",
                first.byte, first.line, first.column
            )?;
        }
        if !note.finding.expected.is_empty() {
            write!(
                f,
                ",\"expected\":{}",
                Quoted(note.finding.expected.as_str())
            )?;
        }
        write!(f, ",\"said\":{}", Quoted(note.finding.message.as_str()))?;
        match note.finding.hint {
            Some(hint) => write!(f, ",\"hint\":{}", Quoted(hint)),
            None => Ok(()),
        }
    }
}

/// A text as a string of JSON.
#[derive(Clone, Copy)]
pub struct Quoted<'a>(pub &'a str);

impl<'a> fmt::Display for Quoted<'a> {
    fn fmt<W: fmt::Write>(&self, f: &mut fmt::Formatter<W>) -> fmt::Result {
        write!(f, "\"{}\"", Inside(self.0))
    }
}

// The characters of a text inside a string of JSON.
#[derive(Clone, Copy)]
struct Inside<'a>(&'a str);

impl<'a> fmt::Display for Inside<'a> {
    fn fmt<W: fmt::Write>(&self, f: &mut fmt::Formatter<W>) -> fmt::Result {
        for letter in self.0.chars() {
            match letter {
                '"' => write!(f, "\\\"")?,
                '\\' => write!(f, "\\\\")?,
                '\0'..='\x1f' => write!(f, "\\u{:04x}", u32::from(letter))?,
                _ => write!(f, "{letter}")?,
            }
        }
        Ok(())
    }
}
