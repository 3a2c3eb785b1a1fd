// The index of a text and a copy of the text, made in one pass.
ghost use Rattle.std.specs.Prelude.{◌≡◌, ◌+◌, ◌≤◌, ◌^◌, ◌++◌, length, vec_len, vec_capacity, ◌↔◌, IfOk, IsTrue, IsUtf8};
ghost use Rattle.structural_index.specs.Answer.{IsIndexOf};

use crate::answer::Index;
use crate::{whole_blocks, whole_index};
use std::alloc::{AllocError, Global};
use std::simd::prelude::*;

// Appends the bytes of a block, for which there is room. A lane at a time, since that is put together to stores of vectors with neither a
// test for room nor one of whether the lists share bytes.
#[inline(always)]
pub fn append_block(copy: &mut Vec<u8>, lanes: u8x64)
    requires room { vec_len copy.old + 64 ≤ vec_capacity copy.old }
    ensures items { copy.new.items ≡ copy.old.items ++ lanes }
    ensures capacity { vec_capacity copy.old ≤ vec_capacity copy.new }
{
    for k in 0..64 {
        copy.push_reserved(lanes[k]);
    }
}

/// The index of `text`, as [`crate::index`] gives it, and a copy of the text, whose blocks are stored while they are at hand. Errs only where
/// memory is refused, for the index or for the copy, which takes a byte for each byte.
#[inline(never)]
pub fn index_and_copy(alloc: Global, text: &[u8]) -> Result<(Index, Vec<u8>), AllocError>
    requires { length text.now + 64 ≤ 2 ^ 32 }
    ensures index { IfOk result (λ r. IsIndexOf r.0 text.now) }
    ensures utf8 { IfOk result (λ r. IsTrue r.0.utf8 ↔ IsUtf8 text.now) }
    ensures copy { IfOk result (λ r. r.1.items ≡ text.now) }
{
    let room = Vec::with_capacity(alloc, text.len())?;
    let (found, escapes, characters, carry, front) = whole_blocks::<true>(alloc, text, room)?;
    let index = whole_index(found, escapes, characters, text, carry)?;
    let mut copy = front;
    copy.extend_from_slice(&text[text.len() / 64 * 64..])?;
    Ok((index, copy))
}
