//! The words of a command line, read one by one.

ghost use Rattle.std.specs.Prelude.{ℕ, ◌≡◌, ◌+◌, ◌++◌, ◌∷◌, [], Err, IsUtf8, OnOk, length, map};
ghost use Rattle.std.specs.String.{string_bytes};
ghost use Rattle.command_words.specs.declared.words.WordFault.TheVariants.{NotUtf8};

use std::alloc::AllocError;
use std::env::FillError;
use std::rt::Env;

/// Why the words of a command line were not read.
#[derive(Clone, Copy, Debug, PartialEq, Eq)]
pub enum WordFault {
    /// The word with this number is not UTF-8. The program's name has 0.
    NotUtf8(usize),
    /// An allocation failed.
    Memory,
}

impl From<AllocError> for WordFault {
    fn from(_error: AllocError) -> WordFault {
        WordFault::Memory
    }
}

/// All words of the command line, the program's name first.
///
/// - `NotUtf8`: the first word that is not UTF-8, by its number.
/// - `Memory`: an allocation failed.
pub fn read_words<R: Env + AllocGlobal>(rt: &R) -> Result<Vec<String>, WordFault> {
    let mut words = Vec::new(rt.alloc());
    for number in 0..usize::MAX {
        match read_word(rt, number)? {
            Some(bytes) => add_word(&mut words, bytes)?,
            None => break,
        }
    }
    Ok(words)
}

// Puts a word behind the others, if it is UTF-8.
fn add_word(words: &mut Vec<String>, bytes: Vec<u8>) -> Result<(), WordFault>
    ensures added { OnOk result (map string_bytes words.new.items ≡ map string_bytes words.old.items ++ bytes.items ∷ []) }
    ensures refused { (number : ℕ) → result ≡ Err (NotUtf8 number) → (number ≡ length words.old.items) × (IsUtf8 bytes.items → ⊥) }
{
    match String::from_utf8(bytes) {
        Ok(word) => match words.push(word) {
            Ok(()) => Ok(()),
            Err(_) => Err(WordFault::Memory),
        },
        Err(_) => Err(WordFault::NotUtf8(words.len())),
    }
}

// The bytes of the word with this number, if there is one.
fn read_word<R: Env + AllocGlobal>(rt: &R, number: usize) -> Result<Option<Vec<u8>>, AllocError> {
    let mut room = 256usize;
    for _ in 0..usize::BITS {
        let mut bytes = vec![in rt.alloc(); 0u8; room]?;
        match rt.arg(number, bytes.as_mut_slice()) {
            Ok(count) => {
                bytes.truncate(count);
                return Ok(Some(bytes));
            }
            Err(FillError::NotPresent) => return Ok(None),
            Err(FillError::TooLong) => room = room.saturating_mul(2),
        }
    }
    Err(AllocError)
}
