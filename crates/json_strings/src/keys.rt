// Members by the order of their names.

ghost use Rattle.std.specs.Prelude.{◌≡◌, IfOk, IsUtf8, Some, nat_eq, refl};
ghost use Rattle.std.specs.Ordering.{on};
ghost use Rattle.std.specs.Cmp;
ghost use Rattle.std.specs.Cmp.Lexicographic.{pointwise};
ghost use Rattle.std.specs.Str.{chars};
ghost use Rattle.std.specs.Cow.{cow_str_bytes};
ghost use Rattle.json_text.specs.Limits.{bytes_at};
ghost use Rattle.json_strings.specs.Spelling.{scalars_in, unquoted as inside, IsQuoted};
ghost use Rattle.json_strings.specs.Keys.{name_cmp, key_name};
ghost use Rattle.json_strings.specs.KeyOrder.{keys_equiv, keys_total, keys_tie, keys_po};

use crate::scalars::{Scalars, unquoted};
use json_text::Extent;
use std::alloc::{AllocError, Global};
use std::borrow::CowStr;
use std::cmp::Ordering;
use std::marker::Model;

/// A member, seen as the number of its value and what its name means.
#[derive(Drop)]
pub struct Key<'a> {
    number: u32,
    // decoded once, since a sort compares it often
    name: CowStr<'a>,
}

impl<'a> Model for Key<'a> {
    ghost use Rattle.std.specs.Prelude.{IsUtf8};
    ghost use Rattle.std.specs.Str.{chars};
    ghost use Rattle.std.specs.Cow.{cow_str_bytes};
    ghost use Rattle.json_strings.specs.Keys.{Keyed};

    ghost Value = { Keyed };

    ghost view = { λ k. record { number = k.number; name = chars (cow_str_bytes k.name) } };

    ghost invariant = { λ k. IsUtf8 (cow_str_bytes k.name) };
}

// What characters mean, as a text of its own only where one of them is escaped.
fn meaning(alloc: Global, inside: &str) -> Result<CowStr<'_>, AllocError>
    ensures utf8 { IfOk result (λ name. IsUtf8 (cow_str_bytes name)) }
    ensures means { IfOk result (λ name. chars (cow_str_bytes name) ≡ scalars_in (chars inside.now)) }
{
    if !inside.as_bytes().contains(&b'\\') {
        return Ok(CowStr::Borrowed(inside));
    }
    let mut name = String::new(alloc);
    for c in Scalars::new(inside) {
        name.push(c)?;
    }
    Ok(CowStr::Owned(name))
}

impl<'a> Key<'a> {
    /// The member with this number, whose name stands there.
    pub fn new(
        alloc: Global,
        number: u32,
        text: &'a str,
        name: Extent,
    ) -> Result<Key<'a>, AllocError>
        requires { IsQuoted text.now name }
        ensures number { IfOk result (λ key. key.number ≡ number) }
        ensures name { IfOk result (λ key. key.name ≡ scalars_in (chars (inside (bytes_at text.now name)))) }
    {
        Ok(Key {
            number,
            name: meaning(alloc, unquoted(text, name))?,
        })
    }

    /// The number of its value.
    pub fn number(&self) -> u32
        ensures { result ≡ self.now.number }
    {
        self.number
    }
}

impl<'a> PartialEq for Key<'a> {
    ghost eq = { on key_name (pointwise nat_eq) };

    ghost laws = { Cmp.partial_equiv_from_equiv keys_equiv };

    #[tactic(auto, using(crate::proofs::PlainNames::spelt_same))]
    fn eq(&self, other: &Key<'a>) -> bool {
        self.name.as_str() == other.name.as_str()
    }
}

impl<'a> Eq for Key<'a> {
    ghost laws = { keys_equiv };
}

impl<'a> PartialOrd for Key<'a> {
    ghost partial_cmp = { λ x y. Some (on key_name name_cmp x y) };

    ghost laws = { keys_po };

    fn partial_cmp(&self, other: &Key<'a>) -> Option<Ordering> {
        Some(self.cmp(other))
    }
}

impl<'a> Ord for Key<'a> {
    ghost cmp = { on key_name name_cmp };

    ghost total = { keys_total };

    ghost matches_partial_cmp = { λ x y. refl };

    ghost matches_eq = { keys_tie };

    #[tactic(auto, using(crate::proofs::PlainNames::spelt_order))]
    fn cmp(&self, other: &Key<'a>) -> Ordering {
        self.name.as_str().cmp(other.name.as_str())
    }
}
