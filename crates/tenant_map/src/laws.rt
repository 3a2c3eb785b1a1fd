//! Laws of the definitions, for callers to cite: each function does nothing, and its contract is the law.

ghost use Rattle.tenant_map.specs.Laws.{PutsAnswerOnce};
ghost use Rattle.tenant_map.specs.Maps.{SameTexts, PutsOne, RemovesOne, DropsOne};

/// Maps with the same texts at all places are equal.
pub fn same_texts()
    ensures { SameTexts }
{}

/// A put changes the text at its own place alone.
pub fn puts_one()
    ensures { PutsOne }
{}

/// A removal takes out the text at its own place alone.
pub fn removes_one()
    ensures { RemovesOne }
{}

/// A drop takes out the texts of its own collection alone.
pub fn drops_one()
    ensures { DropsOne }
{}

/// A put is accepted, or refused with one fault, and so is one of a new document.
pub fn puts_answer_once()
    ensures { PutsAnswerOnce }
{}
