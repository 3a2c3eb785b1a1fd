//! A text that is read a share at a time.

ghost use Rattle.std.specs.Prelude.{◌≡◌, MatchResult};
ghost use Rattle.json_text.specs.Answer.{Explains};

use crate::document::{fault_of, indexed};
use json_text::TextFault;
use json_walk::{Way, begin};
use name_stamps::SeenNames;
use std::alloc::Global;
use std::marker::Model;
use structural_index::{Index, Looks};

/// A text that is being read: its index is made, and the walk over the places of the index goes on.
#[derive(Drop)]
pub struct ReadTask {
    pub(crate) text: String,
    pub(crate) index: Index,
    pub(crate) way: Way,
    // on the heap, since a task is moved and this is large
    pub(crate) seen: Box<SeenNames>,
    // of the hashes of its names
    pub(crate) factor: u64,
}

impl Model for ReadTask {
    ghost use Rattle.std.specs.String.{string_bytes};
    ghost use Rattle.json_walk.specs.UnderWay.{left};
    ghost use Rattle.json_tape.specs.Shares.{ReadShare, IsRead};

    ghost Value = { ReadShare };

    ghost view = { λ t. record { text = string_bytes t.text; left = left t.index t.way } };

    ghost invariant = { λ t. IsRead (string_bytes t.text) t.index t.seen.value t.way };
}

impl ReadTask {
    /// Begins to read a text: the bytes are copied, and their index is made. The factor, best an odd one that nobody else knows, is that of the hashes
    /// by which names of wide objects are put in order.
    ///
    /// # Errors
    ///
    /// `TooLong`, `NotUtf8` and `NotJson` as of [`Document::read`], and `Memory`.
    pub fn begin(alloc: Global, text: &[u8], factor: u64) -> Result<ReadTask, TextFault>
        ensures { MatchResult result (λ task. task.text ≡ text.now) (λ f. Explains text.now f) }
    {
        let (index, copy) = match indexed(alloc, text) {
            Ok(both) => both,
            Err(fault) => return Err(fault),
        };
        let seen = match Box::new(alloc, SeenNames::new(alloc)) {
            Ok(seen) => seen,
            Err(_) => return Err(TextFault::Memory),
        };
        let mut looks = Looks::new(text);
        match begin(alloc, &index, &mut looks) {
            Ok(way) => Ok(ReadTask {
                text: copy,
                index,
                way,
                seen,
                factor,
            }),
            Err(fault) => Err(fault_of(fault)),
        }
    }
}
