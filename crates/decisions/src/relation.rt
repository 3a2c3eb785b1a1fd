//! How `@` compares with `$`.

ghost use Rattle.std.specs.Prelude.{◌≡◌, IsTrue};
ghost use Rattle.decisions.specs.Truth.{no_relation, related};

use path_grammar::Op;
use path_meaning::told_of;

/// How the value of `@` compares with that of `$`.
#[derive(Clone, Copy)]
pub struct Relation {
    pub is_equal: bool,
    /// Whether the second is equal to the first.
    pub is_equal_back: bool,
    pub is_less: bool,
    pub is_greater: bool,
}

impl Relation {
    /// That of values of two kinds.
    pub fn apart() -> Relation
        ensures { result ≡ no_relation }
    {
        Relation {
            is_equal: false,
            is_equal_back: false,
            is_less: false,
            is_greater: false,
        }
    }

    /// Whether it is this one.
    pub fn is(self, other: Relation) -> bool
        ensures { IsTrue result → self ≡ other }
    {
        self.is_equal == other.is_equal
            && self.is_equal_back == other.is_equal_back
            && self.is_less == other.is_less
            && self.is_greater == other.is_greater
    }

    /// Whether a comparison of `@` with `$` holds, or of `$` with `@`.
    pub fn tells(self, turned: bool, op: Op) -> bool
        ensures { result ≡ related self turned op }
    {
        if turned {
            told_of(
                self.is_equal_back,
                self.is_equal,
                self.is_greater,
                self.is_less,
                op,
            )
        } else {
            told_of(
                self.is_equal,
                self.is_equal_back,
                self.is_less,
                self.is_greater,
                op,
            )
        }
    }
}
