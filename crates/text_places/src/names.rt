//! The first name that comes again in its object.

ghost use Rattle.std.specs.Prelude.{◌≡◌, ◌<◌, ◌≤◌, ◌↔◌, length, None, IfOk, IfSome, IsTrue};
ghost use Rattle.json_text.specs.Answer.{IsJson, StandsForAll};
ghost use Rattle.json_text.specs.Suspects.{AreSuspects};
ghost use Rattle.json_text.specs.Verdict.{text_limit, Applies};
ghost use Rattle.json_text.specs.declared.tape.TextFault.TheVariants.{DuplicateName};
ghost use Rattle.text_places.specs.Marks.{IsLeft};
ghost use Rattle.text_places.specs.Twins.{AreFirstTwins};

use crate::marks::left;
use crate::tapes::reading_of;
use json_strings::Key;
use json_tape::Tape;
use json_text::Role;
use std::alloc::{AllocError, Global};
use std::collections::BTreeMap;

/// Two names of one object that mean the same: where each begins, and where the second ends.
#[derive(Clone, Copy, Debug, PartialEq, Eq)]
pub struct Twins {
    pub first: usize,
    pub second: usize,
    pub end: usize,
}

/// The first name that means the same as one before it in its object, and that one, if a text has such names.
pub fn duplicate_name(alloc: Global, text: &str) -> Result<Option<Twins>, AllocError>
    requires short { length text.now ≤ text_limit }
    ensures found { IfOk result (λ found. IfSome found (λ twins. AreFirstTwins text.now twins.first twins.second)) }
    ensures none { IfOk result (λ found. found ≡ None → Applies text.now DuplicateName → ⊥) }
{
    match reading_of(alloc, text)? {
        Some(reading) => first_twins(alloc, text, &reading.tape, reading.suspects.as_slice()),
        None => Ok(None),
    }
}

fn first_twins(
    alloc: Global,
    text: &str,
    tape: &Tape,
    suspects: &[u32],
) -> Result<Option<Twins>, AllocError>
    requires spelt { IsJson text.now }
    requires stands { StandsForAll text.now tape.now }
    requires suspects { AreSuspects text.now tape.now suspects.now }
    ensures found { IfOk result (λ found. IfSome found (λ twins. AreFirstTwins text.now twins.first twins.second)) }
    ensures none { IfOk result (λ found. found ≡ None → Applies text.now DuplicateName → ⊥) }
{
    let marks = left(alloc, text, tape, suspects)?;
    let mut seen = BTreeMap::new(alloc);
    for n in 0..tape.len() {
        if is_left(tape, &marks, n) {
            let entry = tape.entry(n);
            // a name of its object
            let name = (entry.up, Key::new(alloc, n, text, entry.label)?);
            if let Some(first) = seen.get(&name) {
                return Ok(Some(Twins {
                    first: tape.entry(*first).label.start as usize,
                    second: entry.label.start as usize,
                    end: entry.label.start as usize + entry.label.len as usize,
                }));
            }
            seen.insert(name, n)?;
        }
    }
    Ok(None)
}

// Whether a value is that of a member whose name may come again.
fn is_left(tape: &Tape, marks: &Vec<u32>, n: u32) -> bool
    requires inside { n < length tape.now }
    requires long { length marks.now.items ≡ length tape.now }
    ensures { IsTrue result ↔ IsLeft tape.now marks.now.items n }
{
    marks[n as usize] != 0 && is_member(tape.entry(n).role)
}

fn is_member(role: Role) -> bool
    ensures { IsTrue result ↔ role ≡ Role.Member }
{
    matches!(role, Role::Member)
}
