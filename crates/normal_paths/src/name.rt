//! Names in a path.

ghost use Rattle.std.specs.Prelude.{◌≡◌, ◌+◌, ◌*◌, ◌<◌, ◌≤◌, ◌^◌, ◌++◌, IfOk, length, take};
ghost use Rattle.std.specs.Vec.{vec_capacity};
ghost use Rattle.normal_paths.specs.NormalPath.{hex_digit, scalar_text, name_text};

use json_tape::Scalars;
use std::alloc::AllocError;

fn hex_digit(digit: u32) -> u8
    requires { digit < 16 }
    ensures { result ≡ hex_digit digit }
{
    if digit < 10 {
        b'0' + digit as u8
    } else {
        b'a' - 10 + digit as u8
    }
}

// Appends a scalar value of a name.
fn write_scalar(out: &mut Vec<u8>, scalar: char) -> Result<(), AllocError>
    ensures written { IfOk result (λ _. out.new.items ≡ out.old.items ++ scalar_text scalar) }
    ensures kept { take (length out.old.items) out.new.items ≡ out.old.items }
    ensures capacity { vec_capacity out.old ≤ vec_capacity out.new }
{
    let code = u32::from(scalar);
    match code {
        39 => out.extend_from_slice(b"\\'"),
        92 => out.extend_from_slice(b"\\\\"),
        8 => out.extend_from_slice(b"\\b"),
        9 => out.extend_from_slice(b"\\t"),
        10 => out.extend_from_slice(b"\\n"),
        12 => out.extend_from_slice(b"\\f"),
        13 => out.extend_from_slice(b"\\r"),
        0..=31 => out.extend_from_slice(&[
            92,
            117,
            48,
            48,
            hex_digit(code / 16),
            hex_digit(code % 16),
        ]),
        _ => {
            let mut room = [0u8; 4];
            out.extend_from_slice(scalar.encode_utf8(&mut room).as_bytes())
        }
    }
}

/// Appends a name without quotes. If an allocation fails, part of the name may have been appended.
pub fn write_name(out: &mut Vec<u8>, name: Scalars<'_>) -> Result<(), AllocError>
    ensures written { IfOk result (λ _. out.new.items ≡ out.old.items ++ name_text name.entry) }
    ensures kept { take (length out.old.items) out.new.items ≡ out.old.items }
    ensures capacity { vec_capacity out.old ≤ vec_capacity out.new }
{
    for scalar in name {
        write_scalar(out, scalar)?;
    }
    Ok(())
}

fn scalar_length(scalar: char) -> usize
    ensures length { result ≡ length (scalar_text scalar) }
    ensures short { result ≤ 6 }
{
    match u32::from(scalar) {
        39 | 92 | 8 | 9 | 10 | 12 | 13 => 2,
        0..=31 => 6,
        _ => scalar.len_utf8(),
    }
}

/// The length of a name without quotes, in bytes.
pub fn name_length(name: Scalars<'_>) -> usize
    requires { length name < 2 ^ 32 }
    ensures length { result ≡ length (name_text name.entry) }
    ensures short { result ≤ 6 * length name.entry }
{
    let mut total = 0;
    for scalar in name {
        total += scalar_length(scalar);
    }
    total
}
