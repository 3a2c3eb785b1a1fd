// The tape of a refused text.

ghost use Rattle.std.specs.Prelude.{◌≤◌, length, IfOk, MatchOption};
ghost use Rattle.json_text.specs.Answer.{IsJson, IsNoJson, StandsForAll};
ghost use Rattle.json_text.specs.Suspects.{AreSuspects};
ghost use Rattle.json_text.specs.Verdict.{text_limit};

use json_tape::BuildFault;
use json_walk::{Reading, walk};
use std::alloc::{AllocError, Global};
use structural_index::{Looks, index};

/// The tape of a text with the objects that may have a repeated name, if it is JSON.
pub fn reading_of(alloc: Global, text: &str) -> Result<Option<Reading>, AllocError>
    requires { length text.now ≤ text_limit }
    ensures { IfOk result (λ made. MatchOption made (IsNoJson text.now) (λ reading. IsJson text.now × StandsForAll text.now reading.tape × AreSuspects text.now reading.tape reading.suspects.items)) }
{
    let bytes = text.as_bytes();
    let index = index(alloc, bytes)?;
    match walk(alloc, &index, &mut Looks::new(bytes)) {
        Ok(reading) => Ok(Some(reading)),
        Err(BuildFault::NotJson) => Ok(None),
        Err(BuildFault::Memory) => Err(AllocError),
    }
}
