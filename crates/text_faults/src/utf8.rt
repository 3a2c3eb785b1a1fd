//! The place of a byte that is not UTF-8.

ghost use Rattle.std.specs.Prelude.{◌⊎◌, IsUtf8};
ghost use Rattle.std.specs.Str.{IsValidUpTo};

/// The length of the longest front that is UTF-8.
pub fn not_utf8(text: &[u8]) -> usize
    ensures { IsUtf8 text.now ⊎ IsValidUpTo text.now result }
{
    match std::str::from_utf8(text) {
        Ok(whole) => whole.len(),
        Err(error) => error.valid_up_to(),
    }
}
