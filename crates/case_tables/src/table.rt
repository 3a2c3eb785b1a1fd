//! A table of cases: each line is tried as it comes.

use crate::answers::{
    grammar_verdict, lines, lines_or_name, query_charge, query_count, query_verdict, text_length,
    text_verdict, value_order, word,
};
use crate::case::{Case, read_case};
use crate::numbers::{break_of_order, limits_of, number_order};
use crate::pieces::{Piece, expanded};
use std::alloc::{AllocError, Global};

/// What a line turned out to be.
#[derive(Drop)]
pub enum Outcome {
    /// No case: a comment, an empty line or a named piece.
    Other,
    /// A case, and it is as wanted.
    Holds,
    /// A case, and another answer came than the wanted one.
    Fails { wanted: Vec<u8>, came: Vec<u8> },
    /// Nothing that a table may hold.
    NoCase,
}

/// What the lines so far have left for the later ones.
#[derive(Drop)]
pub struct Table {
    pieces: Vec<Piece>,
    below: Vec<Vec<u8>>,
}

impl Table {
    pub fn new(alloc: Global) -> Table {
        Table {
            pieces: Vec::new(alloc),
            below: Vec::new(alloc),
        }
    }

    /// Tries one line.
    pub fn line(&mut self, alloc: Global, line: &str) -> Result<Outcome, AllocError> {
        if line.is_empty() || line.starts_with('#') {
            return Ok(Outcome::Other);
        }
        match fields_of(alloc, self.pieces.as_slice(), line)? {
            Some(fields) => self.fields(alloc, line, fields.as_slice()),
            None => Ok(Outcome::NoCase),
        }
    }

    fn fields(
        &mut self,
        alloc: Global,
        line: &str,
        fields: &[Vec<u8>],
    ) -> Result<Outcome, AllocError> {
        if line.starts_with("let\t") {
            return self.name_piece(alloc, line, fields);
        }
        let Some(case) = read_case(fields) else {
            return Ok(Outcome::NoCase);
        };
        let outcome = answer(alloc, self.below.as_slice(), &case)?;
        if let Case::Ascending { numbers } = case {
            for number in numbers {
                self.below.push(Vec::from_slice(alloc, number.as_slice())?)?;
            }
        }
        Ok(outcome)
    }

    // `let`, a name and the bytes that it stands for from here on.
    fn name_piece(
        &mut self,
        alloc: Global,
        line: &str,
        fields: &[Vec<u8>],
    ) -> Result<Outcome, AllocError> {
        let [_, _, bytes] = fields else {
            return Ok(Outcome::NoCase);
        };
        let Some(name) = line.split('\t').nth(1) else {
            return Ok(Outcome::NoCase);
        };
        self.pieces.push(Piece {
            name: String::from_str(alloc, name)?,
            bytes: Vec::from_slice(alloc, bytes.as_slice())?,
        })?;
        Ok(Outcome::Other)
    }
}

// The bytes that the fields of a line stand for, or none where one of them has no piece where it should.
fn fields_of(
    alloc: Global,
    pieces: &[Piece],
    line: &str,
) -> Result<Option<Vec<Vec<u8>>>, AllocError> {
    let mut fields = Vec::new(alloc);
    for field in line.split('\t') {
        match expanded(alloc, pieces, field)? {
            Some(bytes) => fields.push(bytes)?,
            None => return Ok(None),
        }
    }
    Ok(Some(fields))
}

fn compared(wanted: Vec<u8>, came: Vec<u8>) -> Outcome {
    if wanted.as_slice() == came.as_slice() {
        Outcome::Holds
    } else {
        Outcome::Fails { wanted, came }
    }
}

fn answer(alloc: Global, below: &[Vec<u8>], case: &Case<'_>) -> Result<Outcome, AllocError> {
    match case {
        Case::Hits { query, text, hits } => answer_hits(alloc, query, text, hits),
        Case::Filter {
            holds,
            expression,
            text,
        } => answer_filter(alloc, *holds, expression, text),
        Case::Ascending { numbers } => answer_ascending(alloc, below, numbers),
        _ => answer_word(alloc, case),
    }
}

// The cases whose answer is one word.
fn answer_word(alloc: Global, case: &Case<'_>) -> Result<Outcome, AllocError> {
    let (wanted, came) = match case {
        Case::Text { wanted, text } => (wanted, text_verdict(alloc, text)?),
        Case::Length { wanted, text } => (wanted, text_length(alloc, text)?),
        Case::Grammar { wanted, query } => (wanted, grammar_verdict(alloc, query)?),
        Case::Query { wanted, query } => (wanted, query_verdict(alloc, query, b"[1]")?),
        Case::Refused {
            wanted,
            query,
            text,
        } => (wanted, query_verdict(alloc, query, text)?),
        Case::Count {
            wanted,
            query,
            text,
        } => (wanted, query_count(alloc, query, text)?),
        Case::Charge {
            wanted,
            query,
            text,
        } => (wanted, query_charge(alloc, query, text)?),
        Case::Number { wanted, text } => (wanted, word(alloc, limits_of(text))?),
        Case::Numbers {
            wanted,
            left,
            right,
        } => (wanted, word(alloc, number_order(left, right))?),
        Case::Values {
            wanted,
            left,
            right,
        } => (wanted, value_order(alloc, left, right)?),
        _ => return Ok(Outcome::NoCase),
    };
    Ok(compared(Vec::from_slice(alloc, wanted)?, came))
}

// The lines of all hits, and of each path alone.
fn answer_hits(
    alloc: Global,
    query: &[u8],
    text: &[u8],
    hits: &[Vec<u8>],
) -> Result<Outcome, AllocError> {
    let mut wanted = Vec::new(alloc);
    for pair in hits.chunks(2) {
        wanted.extend_from_slice(line_of(alloc, pair)?.as_slice())?;
    }
    let came = lines_or_name(alloc, query, text)?;
    if wanted.as_slice() != came.as_slice() {
        return Ok(Outcome::Fails { wanted, came });
    }
    for pair in hits.chunks(2) {
        let wanted = line_of(alloc, pair)?;
        let path = pair.first().map_or(b"".as_slice(), |path| path.as_slice());
        let came = lines_or_name(alloc, path, text)?;
        if wanted.as_slice() != came.as_slice() {
            return Ok(Outcome::Fails { wanted, came });
        }
    }
    Ok(Outcome::Holds)
}

// A path, a tab, a value and a line feed.
fn line_of(alloc: Global, pair: &[Vec<u8>]) -> Result<Vec<u8>, AllocError> {
    let mut line = Vec::new(alloc);
    if let [path, value] = pair {
        line.extend_from_slice(path.as_slice())?;
        line.push(b'\t')?;
        line.extend_from_slice(value.as_slice())?;
        line.push(b'\n')?;
    }
    Ok(line)
}

// An expression that holds selects what the wildcard does, and one that fails nothing.
fn answer_filter(
    alloc: Global,
    holds: bool,
    expression: &[u8],
    text: &[u8],
) -> Result<Outcome, AllocError> {
    let mut query = word(alloc, "$[?")?;
    query.extend_from_slice(expression)?;
    query.push(b']')?;
    let came = lines_or_name(alloc, query.as_slice(), text)?;
    if !holds {
        return Ok(compared(Vec::new(alloc), came));
    }
    match lines(alloc, b"$[*]", text) {
        Ok(wanted) if !wanted.is_empty() => Ok(compared(wanted, came)),
        _ => Ok(Outcome::Fails {
            wanted: word(alloc, "a text with children")?,
            came,
        }),
    }
}

fn answer_ascending(
    alloc: Global,
    below: &[Vec<u8>],
    numbers: &[Vec<u8>],
) -> Result<Outcome, AllocError> {
    let Some((left, right, order)) = break_of_order(below, numbers) else {
        return Ok(Outcome::Holds);
    };
    let mut came = Vec::from_slice(alloc, left)?;
    came.extend_from_slice(b" is ")?;
    came.extend_from_slice(order.as_bytes())?;
    came.extend_from_slice(b" to ")?;
    came.extend_from_slice(right)?;
    Ok(Outcome::Fails {
        wanted: word(alloc, "an ascending order")?,
        came,
    })
}
