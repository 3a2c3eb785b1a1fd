// The bytes of a run in the text.

ghost use Rattle.std.specs.Prelude.{◌≡◌, ◌+◌, ◌≤◌, length};
ghost use Rattle.json_text.specs.Limits.{bytes_at as stands_at};

use json_text::Extent;

/// The bytes that stand there, where the text has them all.
pub fn part_at(text: &[u8], extent: Extent) -> &[u8]
    requires { extent.start + extent.len ≤ length text.now }
    ensures { result.now ≡ stands_at text.now extent }
{
    let start = extent.start as usize;
    &text[start..start + extent.len as usize]
}

/// The bytes that stand there, or those of them that the text has.
#[tactic(auto, using(crate::proofs::Steps::part_past, crate::proofs::Steps::part_all))]
pub fn bytes_at(text: &[u8], extent: Extent) -> &[u8]
    ensures { result.now ≡ stands_at text.now extent }
{
    let start = extent.start as usize;
    if start >= text.len() {
        return &text[..0];
    }
    let rest = &text[start..];
    let len = extent.len as usize;
    if len < rest.len() { &rest[..len] } else { rest }
}
