ghost use Rattle.std.specs.Prelude.{◌≡◌, IfNone, IfSome, OnSome};
ghost use Rattle.decimal_order.specs.Number.{IsNumber};

use crate::parts::{self, Parts};
use std::marker::Model;

/// A number text (RFC 8259, section 6), read by [`scan`].
///
/// It borrows the bytes, and contracts see it as these bytes.
#[derive(Drop)]
pub struct Decimal<'a> {
    pub(crate) text: &'a [u8],
    pub(crate) parts: Parts<'a>,
}

impl<'a> Model for Decimal<'a> {
    ghost use Rattle.std.specs.Prelude.{ℕ, List};
    ghost use Rattle.decimal_order.specs.Parts.{HasParts};

    ghost Value = { List ℕ };

    ghost view = { λ d. d.text.now };

    ghost invariant = { λ d. HasParts d.text.now d.parts };
}

/// Reads bytes that are one `number` of RFC 8259, section 6: `-0`, `10.50` and `1E+9` are,
/// `01`, `1.`, `.5`, `+1`, ` 1` and no bytes are not.
///
/// `None` is answered for bytes that are no number, and for no others. Length and exponent are
/// not limited here: ask [`within_limits`](crate::within_limits).
#[inline(always)]
pub fn scan(text: &[u8]) -> Option<Decimal<'_>>
    ensures not_number { IfNone result (¬ IsNumber text.now) }
    ensures number { OnSome result (IsNumber text.now) }
    ensures same_text { IfSome result (λ decimal. decimal ≡ text.now) }
{
    let parts = parts::split(text)?;
    Some(Decimal { text, parts })
}
