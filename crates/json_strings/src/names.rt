// Names of members by what they mean (RFC 8259, sections 4 and 7).

ghost use Rattle.std.specs.Prelude.{◌≡◌, Some, nat_eq, refl};
ghost use Rattle.std.specs.Ordering.{nat_cmp};
ghost use Rattle.std.specs.Cmp;
ghost use Rattle.std.specs.Cmp.Lexicographic.{pointwise, slice_cmp, nat_list_eq_equiv, nat_list_cmp_total, texts_ties, texts_po};
ghost use Rattle.std.specs.Str.{chars};
ghost use Rattle.json_strings.specs.Spelling.{scalars_in};

use crate::scalars::Scalars;
use std::cmp::Ordering;
use std::marker::Model;

/// A name, seen as the scalar values that it means.
#[derive(Drop)]
pub struct Name<'a> {
    inside: &'a str,
    // without a backslash, so that each character stands for itself
    plain: bool,
}

impl<'a> Model for Name<'a> {
    ghost use Rattle.std.specs.Prelude.{◌≡◌, ℕ, List, IsUtf8, not};
    ghost use Rattle.std.specs.Str.{chars};
    ghost use Rattle.json_strings.specs.Spelling.{scalars_in, has_backslash};

    ghost Value = { List ℕ };

    ghost view = { λ n. scalars_in (chars n.inside.now) };

    ghost invariant = { λ n. IsUtf8 n.inside.now × (n.plain ≡ not (has_backslash n.inside.now)) };
}

impl<'a> Name<'a> {
    /// The name whose characters are these, without its quotes.
    pub fn new(inside: &'a str) -> Name<'a>
        ensures { result ≡ scalars_in (chars inside.now) }
    {
        Name {
            inside,
            plain: !inside.as_bytes().contains(&b'\\'),
        }
    }
}

impl<'a> PartialEq for Name<'a> {
    ghost eq = { pointwise nat_eq };

    ghost laws = { Cmp.partial_equiv_from_equiv nat_list_eq_equiv };

    fn eq(&self, other: &Name<'a>) -> bool {
        if self.plain && other.plain {
            return self.inside == other.inside;
        }
        compare(Scalars::new(self.inside), Scalars::new(other.inside)).is_eq()
    }
}

impl<'a> Eq for Name<'a> {
    ghost laws = { nat_list_eq_equiv };
}

impl<'a> PartialOrd for Name<'a> {
    ghost partial_cmp = { λ x y. Some (slice_cmp nat_cmp x y) };

    ghost laws = { texts_po };

    fn partial_cmp(&self, other: &Name<'a>) -> Option<Ordering> {
        Some(self.cmp(other))
    }
}

impl<'a> Ord for Name<'a> {
    ghost cmp = { slice_cmp nat_cmp };

    ghost total = { nat_list_cmp_total };

    ghost matches_partial_cmp = { λ x y. refl };

    ghost matches_eq = { texts_ties };

    #[tactic(auto, using(crate::proofs::PlainNames::plain_order))]
    fn cmp(&self, other: &Name<'a>) -> Ordering {
        if self.plain && other.plain {
            return self.inside.cmp(other.inside);
        }
        compare(Scalars::new(self.inside), Scalars::new(other.inside))
    }
}

// The order of two lists of scalar values: the first place that tells them apart decides.
fn compare(mut left: Scalars<'_>, mut right: Scalars<'_>) -> Ordering
    ensures { result ≡ slice_cmp nat_cmp left.entry right.entry }
{
    while let Some(a) = left.next() {
        let Some(b) = right.next() else {
            return Ordering::Greater;
        };
        let order = a.cmp(&b);
        if order.is_ne() {
            return order;
        }
    }
    if right.next().is_none() {
        Ordering::Equal
    } else {
        Ordering::Less
    }
}
