//! Appending bytes.

ghost use Rattle.std.specs.Prelude.{◌≡◌, ◌++◌, flat_map, map, OnOk};
ghost use Rattle.client_lines.specs.Lines.{blanked};

use std::alloc::AllocError;

/// Appends pieces in order.
pub fn append_all(pieces: &[&[u8]], out: &mut Vec<u8>) -> Result<(), AllocError>
    ensures { OnOk result (out.new.items ≡ out.old.items ++ flat_map (λ p. p.now) pieces.now) }
{
    for piece in pieces {
        out.extend_from_slice(piece)?;
    }
    Ok(())
}

/// Appends bytes, with blanks for line feeds.
pub fn append_blanked(bytes: &[u8], out: &mut Vec<u8>) -> Result<(), AllocError>
    ensures { OnOk result (out.new.items ≡ out.old.items ++ map blanked bytes.now) }
{
    for byte in bytes {
        out.extend_from_slice(&[blank(*byte)])?;
    }
    Ok(())
}

fn blank(byte: u8) -> u8
    ensures { result ≡ blanked byte }
{
    if byte == b'\n' { b' ' } else { byte }
}
