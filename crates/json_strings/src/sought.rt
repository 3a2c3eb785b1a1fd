// Names that are looked for, and the order in which wide objects keep theirs.

ghost use Rattle.std.specs.Prelude.{◌≡◌, bytes_eq};
ghost use Rattle.std.specs.Ordering.{nat_cmp};
ghost use Rattle.std.specs.Cmp.Lexicographic.{slice_cmp};
ghost use Rattle.std.specs.Str.{chars};
ghost use Rattle.json_text.specs.Limits.{bytes_at};
ghost use Rattle.json_strings.specs.Spelling.{scalars_in, unquoted as inside, IsQuoted};
ghost use Rattle.json_strings.specs.Keys.{name_hash as hash_of_name, sought_name};

use crate::hashes::{long_hash, meant_hash, spread};
use crate::names::Name;
use crate::plain::is_meant_by;
use crate::scalars::{Scalars, unquoted};
use json_text::Extent;
use std::cmp::Ordering;

/// A name that is looked for.
#[derive(Clone, Copy)]
pub enum Sought<'a> {
    /// As a text spells it, without its quotes.
    Spelt(&'a str),
    /// As it is meant.
    Meant(&'a [char]),
}

/// The hash of what a name means.
pub fn sought_hash(sought: Sought<'_>, factor: u64) -> u32
    ensures { result ≡ hash_of_name factor (sought_name sought.entry) }
{
    match sought {
        Sought::Spelt(name) => spread(long_hash(name, factor), factor),
        Sought::Meant(name) => spread(meant_hash(name, factor), factor),
    }
}

/// Whether a string that stands there means the name.
pub fn is_sought(text: &str, string: Extent, sought: Sought<'_>) -> bool
    requires { IsQuoted text.now string }
    ensures { result ≡ bytes_eq (sought_name sought.entry) (scalars_in (chars (inside (bytes_at text.now string)))) }
{
    match sought {
        Sought::Spelt(name) => Name::new(name) == Name::new(unquoted(text, string)),
        Sought::Meant(name) => is_meant_by(text, string, name),
    }
}

/// How what a string that stands there means compares with the name.
pub fn compare_sought(text: &str, string: Extent, sought: Sought<'_>) -> Ordering
    requires { IsQuoted text.now string }
    ensures { result ≡ slice_cmp nat_cmp (scalars_in (chars (inside (bytes_at text.now string)))) (sought_name sought.entry) }
{
    let spelt = unquoted(text, string);
    match sought {
        Sought::Spelt(name) => Name::new(spelt).cmp(&Name::new(name)),
        Sought::Meant(name) => compare_meant(Scalars::new(spelt), name),
    }
}

fn compare_meant(mut scalars: Scalars<'_>, name: &[char]) -> Ordering
    ensures { result ≡ slice_cmp nat_cmp scalars.entry name.now }
{
    for c in name {
        let Some(scalar) = scalars.next() else {
            return Ordering::Less;
        };
        let order = scalar.cmp(c);
        if order.is_ne() {
            return order;
        }
    }
    if scalars.next().is_none() {
        Ordering::Equal
    } else {
        Ordering::Greater
    }
}
