//! Frames written as lines.

ghost use Rattle.std.specs.Prelude.{◌≡◌, ◌++◌, OnErr, OnOk, length, take};
ghost use Rattle.path_server.specs.FrameLines.{frame_line};

use std::alloc::{AllocError, Global};

/// Appends a frame's bytes in lower-case hexadecimal digits, and a line feed. At a refusal a part may stand there.
pub fn write_frame(alloc: Global, frame: &[u8], out: &mut Vec<u8>) -> Result<(), AllocError>
    ensures written { OnOk result (out.new.items ≡ out.old.items ++ frame_line frame.now) }
    ensures kept { take (length out.old.items) out.new.items ≡ out.old.items }
{
    let digits = hex::encode(alloc, frame)?;
    out.extend_from_slice(digits.as_bytes())?;
    out.push(b'\n')?;
    Ok(())
}

/// Appends the line of a frame. A failed allocation leaves the vector unchanged.
pub fn append_frame(alloc: Global, frame: &[u8], out: &mut Vec<u8>) -> Result<(), AllocError>
    ensures written { OnOk result (out.new.items ≡ out.old.items ++ frame_line frame.now) }
    ensures unchanged { OnErr result (out.new.items ≡ out.old.items) }
{
    let before = out.len();
    let written = write_frame(alloc, frame, out);
    if written.is_err() {
        out.truncate(before);
    }
    written
}
