//! Single characters and blanks at the front of a text.

ghost use Rattle.std.specs.Prelude.{◌≡◌, option_map};
ghost use Rattle.path_grammar.specs.Characters.{is_blank};
ghost use Rattle.path_grammar.specs.Reading.{Gives, after_run, behind};

use crate::class::{Class, split_run};
use crate::fault::ParseFault;

/// What was read at the front of a text, and the text behind it.
pub type Read<'a, T> = Result<(T, &'a [char]), ParseFault>;

pub fn skip_blanks(text: &[char]) -> &[char]
    ensures { result.now ≡ after_run is_blank text.now }
{
    split_run(text, Class::Blank).1
}

/// The text after this character, if the text begins with it.
#[tactic(auto, unfolding(crate::specs::Reading::behind))]
pub fn behind(text: &[char], wanted: char) -> Option<&[char]>
    ensures { option_map (λ t. t.now) result ≡ behind wanted text.now }
{
    match text {
        [c, rest @ ..] if *c == wanted => Some(rest),
        _ => None,
    }
}

/// The text after this character, with which the text has to begin.
pub fn closed(text: &[char], wanted: char) -> Result<&[char], ParseFault>
    ensures { Gives (λ t. t.now) result (behind wanted text.now) }
{
    match behind(text, wanted) {
        Some(rest) => Ok(rest),
        None => Err(ParseFault::NotWellFormed),
    }
}
