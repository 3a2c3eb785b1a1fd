//! What the definitions of texts, trees and meanings come to.

ghost use Rattle.std.specs.Prelude.{◌≡◌, ℕ, List};
ghost use Rattle.json_text.specs.Tree.{Spelt, Tree};
ghost use Rattle.json_text.specs.Grammar.{IsText};
ghost use Rattle.json_text.specs.Meaning.{Means, HasLone, meaning};

/// A text has at most one tree (RFC 8259, section 2), so a document stands for every tree of its text.
pub fn one_tree()
    ensures { (text : List ℕ) (s t : Tree) → IsText text s → IsText text t → s ≡ t }
{}

/// Characters mean what the function `meaning` returns (RFC 8259, section 7), so they have at most one meaning.
pub fn one_meaning()
    ensures { (characters : List Spelt) (scalars : List ℕ) → Means characters scalars → meaning characters ≡ scalars }
{}

/// Without a lone surrogate, characters mean what the function `meaning` returns.
pub fn meant()
    ensures { (characters : List Spelt) → (HasLone characters → ⊥) → Means characters (meaning characters) }
{}
