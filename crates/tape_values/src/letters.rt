//! Strings of a text and of a query, by their scalar values.

ghost use Rattle.std.specs.Prelude.{◌≡◌};
ghost use Rattle.std.specs.Cmp.Lexicographic.{slice_cmp};
ghost use Rattle.std.specs.Ordering.{nat_cmp};
ghost use Rattle.tape_values.specs.Contents.{letters_left, Takes};

use json_tape::Scalars;
use std::cmp::Ordering;

/// The scalar values of a string, in order.
#[derive(Drop)]
pub enum Letters<'a> {
    /// As a text spells them.
    Spelt(Scalars<'a>),
    /// As a query has them.
    Plain(&'a [char]),
}

// Takes the first scalar value off.
fn next_letter(letters: &mut Letters<'_>) -> Option<char>
    ensures { Takes (letters_left letters.old) result (letters_left letters.new) }
{
    match letters {
        Letters::Spelt(scalars) => scalars.next(),
        Letters::Plain(scalars) => {
            let [first, others @ ..] = *scalars else {
                return None;
            };
            *scalars = others;
            Some(*first)
        }
    }
}

/// How two strings compare: at the first scalar value that differs, or as one is the beginning of the other.
pub fn compare_letters(mut a: Letters<'_>, mut b: Letters<'_>) -> Ordering
    ensures { result ≡ slice_cmp nat_cmp (letters_left a.entry) (letters_left b.entry) }
{
    while let Some(c) = next_letter(&mut a) {
        let Some(d) = next_letter(&mut b) else {
            return Ordering::Greater;
        };
        if c != d {
            return c.cmp(&d);
        }
    }
    if next_letter(&mut b).is_none() {
        Ordering::Equal
    } else {
        Ordering::Less
    }
}
