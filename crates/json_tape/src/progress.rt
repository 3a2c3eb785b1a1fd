//! How a text is read on, and what comes of it.

ghost use Rattle.std.specs.Prelude.{◌≡◌, MatchResult};
ghost use Rattle.json_text.specs.Answer.{Explains};
ghost use Rattle.json_text.specs.Verdict.{IsAccepted};
ghost use Rattle.json_walk.specs.UnderWay.{IsOver};
ghost use Rattle.json_tape.specs.Document.{tree_of};
ghost use Rattle.json_tape.specs.Shares.{IsRead, IsKept};
ghost use Rattle.json_tape.specs.Going.{GoesOn};

use crate::document::{Document, Parts, fault_of, judged};
use crate::read_task::ReadTask;
use crate::verdict::Verdict;
use json_text::TextFault;
use json_walk::{Way, go_on};
use name_stamps::SeenNames;
use std::alloc::Global;
use structural_index::{Index, Looks};

/// How far the reading of a text came.
#[derive(Drop)]
pub enum Progress {
    Complete(Verdict),
    Paused(ReadTask),
}

impl ReadTask {
    /// Goes on over so many places of the index, and a few more. With the last of them the text is judged.
    pub fn step(self, alloc: Global, places: usize) -> Progress
        ensures { GoesOn self places result }
    {
        let ReadTask {
            text,
            index,
            way,
            mut seen,
            factor,
        } = self;
        let mut looks = Looks::new(text.as_bytes());
        let way = match go_on(way, &index, &mut looks, &mut seen, places) {
            Ok(way) => way,
            Err(fault) => return Progress::Complete(Verdict::refused(text, fault_of(fault))),
        };
        if !way.is_over() {
            return Progress::Paused(ReadTask {
                text,
                index,
                way,
                seen,
                factor,
            });
        }
        match end(
            alloc,
            text.as_str(),
            &index,
            way,
            Box::into_inner(seen),
            factor,
        ) {
            Ok(parts) => Progress::Complete(Verdict::Accepted(Document::of_parts(text, parts))),
            Err(fault) => Progress::Complete(Verdict::refused(text, fault)),
        }
    }
}

// What is kept of a text whose value is behind the walk, or its first fault.
fn end(
    alloc: Global,
    text: &str,
    index: &Index,
    way: Way,
    seen: SeenNames,
    factor: u64,
) -> Result<Parts, TextFault>
    requires over { IsOver way }
    requires read { IsRead text.now index.now seen way }
    ensures { MatchResult result (λ p. IsKept text.now p.tape p.names) (λ fault. Explains text.now fault) }
{
    match way.finish(index, seen) {
        Ok(reading) => judged(alloc, text, index, reading, factor),
        Err(fault) => Err(fault_of(fault)),
    }
}

impl Document {
    /// Reads a text as [`Document::read`] does, or takes the verdict on it that is known. One on another text is of no use.
    ///
    /// # Errors
    ///
    /// Those of [`Document::read`].
    pub fn read_known(
        alloc: Global,
        text: &[u8],
        known: Option<Verdict>,
    ) -> Result<Document, TextFault>
        ensures { MatchResult result (λ d. (d.text ≡ text.now) × IsAccepted text.now (tree_of d)) (λ f. Explains text.now f) }
    {
        match known {
            Some(verdict) => match verdict.on(text) {
                Some(read) => read,
                None => Document::read(alloc, text),
            },
            None => Document::read(alloc, text),
        }
    }
}
