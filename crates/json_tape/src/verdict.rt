//! What came of a text that was read a share at a time.

ghost use Rattle.std.specs.Prelude.{◌≡◌, IfSome, None};
ghost use Rattle.std.specs.String.{string_bytes};
ghost use Rattle.json_text.specs.Answer.{Explains};
ghost use Rattle.json_tape.specs.Reads.{IsRead};

use crate::document::Document;
use json_text::TextFault;
use std::marker::Model;

/// A text that was refused, and why.
#[derive(Drop)]
pub struct Refusal {
    text: String,
    fault: TextFault,
}

impl Model for Refusal {
    ghost use Rattle.std.specs.Prelude.{ℕ, List};
    ghost use Rattle.std.specs.String.{string_bytes};
    ghost use Rattle.json_text.specs.Answer.{Explains};

    ghost Value = { List ℕ };

    ghost view = { λ r. string_bytes r.text };

    ghost invariant = { λ r. Explains (string_bytes r.text) r.fault };
}

/// A text with its document, or with the fault for which it was refused.
#[derive(Drop)]
pub enum Verdict {
    Accepted(Document),
    Refused(Refusal),
}

impl Verdict {
    pub(crate) fn refused(text: String, fault: TextFault) -> Verdict
        requires { Explains (string_bytes text) fault }
        ensures { result ≡ Verdict.Refused (string_bytes text) }
    {
        Verdict::Refused(Refusal { text, fault })
    }

    /// The document or the fault, if it is one on this text.
    pub fn on(self, text: &[u8]) -> Option<Result<Document, TextFault>>
        ensures { IfSome result (IsRead text.now) }
    {
        match self {
            Verdict::Accepted(document) => document_on(document, text),
            Verdict::Refused(refusal) => fault_on(&refusal, text),
        }
    }
}

fn document_on(document: Document, text: &[u8]) -> Option<Result<Document, TextFault>>
    ensures same { document.text ≡ text.now → result ≡ None → ⊥ }
    ensures its { IfSome result (IsRead text.now) }
{
    if document.source() == text {
        Some(Ok(document))
    } else {
        None
    }
}

fn fault_on(refusal: &Refusal, text: &[u8]) -> Option<Result<Document, TextFault>>
    ensures same { refusal.now ≡ text.now → result ≡ None → ⊥ }
    ensures its { IfSome result (IsRead text.now) }
{
    if refusal.text.as_bytes() == text {
        Some(Err(refusal.fault))
    } else {
        None
    }
}
