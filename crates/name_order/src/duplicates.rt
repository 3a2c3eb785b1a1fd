// Objects with two names that mean the same (RFC 8259, section 4).

ghost use Rattle.std.specs.Prelude.{◌≡◌, ◌+◌, ◌<◌, ◌≤◌, ◌^◌, length, IsTrue, IfOk, MatchOption, false};
ghost use Rattle.json_text.specs.Tree.{Members};
ghost use Rattle.json_text.specs.Answer.{IsJson, StandsForAll};
ghost use Rattle.json_text.specs.Verdict.{Applies};
ghost use Rattle.json_text.specs.Repeats.{meanings, repeats, IsObject};
ghost use Rattle.name_order.specs.Ordered.{AreKept};
ghost use Rattle.json_text.specs.Tape.{entry_in};
ghost use Rattle.json_text.specs.Suspects.{AreSuspects};
ghost use Rattle.tape_cells.specs.Cells.{members_in};
ghost use Rattle.json_text.specs.declared.tape.TextFault.TheVariants.{LoneSurrogate, DuplicateName};

use crate::order::{NARROW, order_members, order_words};
use crate::orders::NameOrder;
use std::alloc::{AllocError, Global};
use tape_cells::Tape;

/// The order of the members of wide objects; `None` where two names of one object mean the same. Of a text without lone
/// surrogates, in which only objects with these numbers may have a repeated name. Names are hashed by the factor.
#[inline(never)]
pub fn order_names(
    alloc: Global,
    text: &str,
    tape: &Tape,
    suspects: &[u32],
    factor: u64,
) -> Result<Option<NameOrder>, AllocError>
    requires spelt { IsJson text.now }
    requires stands { StandsForAll text.now tape.now }
    requires short { length tape.now < 2 ^ 31 }
    requires paired { Applies text.now LoneSurrogate → ⊥ }
    requires suspects { AreSuspects text.now tape.now suspects.now }
    ensures { IfOk result (λ found. MatchOption found (Applies text.now DuplicateName) (λ order. (Applies text.now DuplicateName → ⊥) × AreKept text.now tape.now (length tape.now) order)) }
{
    let mut sorted = Vec::from_slice(alloc, suspects)?;
    sorted.sort_unstable();
    let mut words = Vec::new(alloc);
    let mut order = NameOrder::new(alloc, room_for(tape, &sorted), factor)?;
    // No object before it is left.
    let mut from = 0;
    for &n in &sorted {
        if is_left(tape, n, from) {
            let found = repeats_at(alloc, text, tape, n, &mut words, &mut order)?;
            if found {
                return Ok(None);
            }
            from = n + 1;
        }
    }
    order.shrink();
    Ok(Some(order))
}

// How many members of wide objects there may be: as many as entries, or none where no object is to be looked at. Lists that grow from
// nothing would be copied each time.
#[inline(always)]
fn room_for(tape: &Tape, suspects: &[u32]) -> usize {
    if suspects.is_empty() {
        0
    } else {
        tape.len() as usize
    }
}

// Whether an object of several members has this number, and it is none of those before this one.
#[inline(always)]
fn is_left(tape: &Tape, n: u32, from: u32) -> bool
    ensures left { IsTrue result → (from ≤ n) × (n < length tape.now) × (1 < members_in (entry_in tape.now n)) }
    ensures passed { result ≡ false → from ≤ n → members_in (entry_in tape.now n) ≤ 1 }
{
    n >= from && n < tape.len() && tape.members(n) > 1
}

// Whether two names of the object with this number mean the same. Where it is wide, its members are kept in order. The words are room to work
// in.
fn repeats_at(
    alloc: Global,
    text: &str,
    tape: &Tape,
    n: u32,
    words: &mut Vec<u64>,
    order: &mut NameOrder,
) -> Result<bool, AllocError>
    requires inside { n < length tape.now }
    requires object { (ms : Members) × IsObject text.now tape.now n ms }
    requires short { length tape.now < 2 ^ 31 }
    requires kept { AreKept text.now tape.now n order.old }
    ensures found { IfOk result (λ found. (ms : Members) → IsObject text.now tape.now n ms → found ≡ repeats (meanings ms)) }
    ensures kept { IfOk result (λ found. found ≡ false → AreKept text.now tape.now (n + 1) order.new) }
{
    if tape.members(n) > NARROW {
        order_members(alloc, text, tape, n, words, order)
    } else {
        order_words(alloc, text, tape, n, order.factor(), words)
    }
}
