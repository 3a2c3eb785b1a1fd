//! The first surrogate without its partner.

ghost use Rattle.std.specs.Prelude.{◌≡◌, ◌<◌, ◌≤◌, ◌+◌, ◌↔◌, length, None, IfSome};
ghost use Rattle.json_text.specs.Answer.{IsJson};
ghost use Rattle.json_text.specs.Verdict.{Applies};
ghost use Rattle.json_text.specs.declared.tape.TextFault.TheVariants.{LoneSurrogate};
ghost use Rattle.structural_index.specs.Places as places;
ghost use Rattle.text_places.specs.Surrogates.{IsFirstLone};

use structural_index::is_hex;

/// Where the escape of the first surrogate without its partner begins.
pub fn lone_surrogate(text: &[u8]) -> Option<usize>
    ensures found { IfSome result (λ at. IsFirstLone text.now at) }
    ensures none { result ≡ None → places.HasLoneSurrogate text.now → ⊥ }
    ensures told { IsJson text.now → (result ≡ None → ⊥) ↔ Applies text.now LoneSurrogate }
{
    for at in 1..text.len() {
        if is_lone(text, at) {
            return Some(at - 1);
        }
    }
    None
}

fn byte(text: &[u8], at: usize) -> u8
    ensures { result ≡ places.byte text.now at }
{
    match text.get(at) {
        Some(byte) => *byte,
        None => b' ',
    }
}

// Whether a byte is the u of a surrogate's escape, but for the backslash, with digits that this tells of the second one.
fn are_digits(text: &[u8], at: usize) -> bool
    requires { at ≤ length text.now + 6 }
    ensures { result ≡ places.are_digits text.now at }
{
    is_hex(byte(text, at + 1))
        && is_hex(byte(text, at + 2))
        && is_hex(byte(text, at + 3))
        && is_hex(byte(text, at + 4))
}

fn is_unit(text: &[u8], at: usize) -> bool
    requires { at ≤ length text.now + 6 }
    ensures { result ≡ places.is_unit text.now at }
{
    byte(text, at) == b'u' && are_digits(text, at)
}

fn is_d(digit: u8) -> bool
    ensures { result ≡ places.is_d digit }
{
    digit == b'D' || digit == b'd'
}

fn is_early(digit: u8) -> bool
    ensures { result ≡ places.is_early digit }
{
    matches!(digit, b'8' | b'9' | b'A' | b'B' | b'a' | b'b')
}

fn is_late(digit: u8) -> bool
    ensures { result ≡ places.is_late digit }
{
    matches!(digit, b'C'..=b'F' | b'c'..=b'f')
}

// Whether an odd number of backslashes stands right before a byte.
fn is_escaped(text: &[u8], at: usize) -> bool
    ensures { result ≡ places.is_escaped text.now at }
{
    let mut start = at;
    while start > 0 && byte(text, start - 1) == b'\\' {
        start -= 1;
    }
    (at - start) % 2 == 1
}

fn is_high(text: &[u8], at: usize) -> bool
    requires { at ≤ length text.now + 6 }
    ensures { result ≡ places.is_high text.now at }
{
    is_unit(text, at)
        && is_d(byte(text, at + 1))
        && is_early(byte(text, at + 2))
        && is_escaped(text, at)
}

fn is_low(text: &[u8], at: usize) -> bool
    requires { at ≤ length text.now + 6 }
    ensures { result ≡ places.is_low text.now at }
{
    is_unit(text, at)
        && is_d(byte(text, at + 1))
        && is_late(byte(text, at + 2))
        && is_escaped(text, at)
}

fn is_lone(text: &[u8], at: usize) -> bool
    requires { at < length text.now }
    ensures { result ≡ places.is_lone text.now at }
{
    (is_high(text, at) && !is_low(text, at + 6))
        || (is_low(text, at) && !is_high(text, at.saturating_sub(6)))
}
