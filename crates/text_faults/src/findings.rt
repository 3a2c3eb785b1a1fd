//! What is said of a refusal beside its name.

ghost use Rattle.std.specs.Prelude.{◌≡◌, IfOk, Some};

use crate::spots::{Spot, found_at, shown_if, spot_from};
use std::alloc::{AllocError, Global};

/// Where a text or a query is refused, and why there.
#[derive(Drop)]
pub struct Finding {
    /// How many bytes stand before the place; nothing where the refusal has none.
    pub at: Option<usize>,
    /// What may stand there, if anything else was found.
    pub expected: String,
    /// What is said of the place.
    pub message: String,
    /// The habit that led there.
    pub hint: Option<&'static str>,
    /// How many bytes stand before what was there first, where something comes again.
    pub first: Option<usize>,
}

impl Finding {
    /// A place where something else was expected than what is found there.
    pub fn of_expected(
        alloc: Global,
        text: &[u8],
        at: usize,
        expected: &str,
        hint: Option<&'static str>,
    ) -> Result<Finding, AllocError>
        ensures { IfOk result (λ (finding : Finding). finding.at ≡ Some at) }
    {
        let found = found_at(text, at);
        Ok(Finding {
            at: Some(at),
            expected: String::from_str(alloc, expected)?,
            message: format!(in alloc; "expected {expected}, found {found}")?,
            hint,
            first: None,
        })
    }

    /// A place of which no more is said than a rule.
    pub fn of_rule(alloc: Global, at: usize, rule: &str) -> Result<Finding, AllocError>
        ensures { IfOk result (λ (finding : Finding). finding.at ≡ Some at) }
    {
        Ok(Finding {
            at: Some(at),
            expected: String::new(alloc),
            message: String::from_str(alloc, rule)?,
            hint: None,
            first: None,
        })
    }

    /// The place as people count it, if there is one, where the text's first line has this number.
    pub fn spot_from(&self, text: &[u8], first_line: usize) -> Option<Spot> {
        Some(spot_from(text, self.at?, first_line))
    }

    /// What was there first, as people count it, where something comes again.
    pub fn first_from(&self, text: &[u8], first_line: usize) -> Option<Spot> {
        Some(spot_from(text, self.first?, first_line))
    }

    /// The lines: the place in a form that people count, with what is said of it, and the hint. If `shows`, two lines between them show the place in
    /// its line.
    pub fn lines(&self, alloc: Global, text: &[u8], shows: bool) -> Result<String, AllocError> {
        self.lines_from(alloc, text, 1, shows)
    }

    /// The lines that tell of a finding in a text whose first line has this number.
    pub fn lines_from(
        &self,
        alloc: Global,
        text: &[u8],
        first_line: usize,
        shows: bool,
    ) -> Result<String, AllocError> {
        let message = &self.message;
        let (Some(at), Some(spot)) = (self.at, self.spot_from(text, first_line)) else {
            return message.clone();
        };
        let shown = shown_if(shows, alloc, text, at)?;
        match (self.hint, self.first) {
            (Some(hint), _) => format!(in alloc; "{spot}: {message}{shown}\nhint: {hint}"),
            (None, Some(first)) => {
                let first = spot_from(text, first, first_line);
                format!(in alloc; "{spot}: {message}, first at {first}{shown}")
            }
            (None, None) => format!(in alloc; "{spot}: {message}{shown}"),
        }
    }
}
