// The classes of 64 bytes, as words with a bit for each byte.
#![tactic(auto)]

ghost use Rattle.std.specs.Prelude.{◌≡◌, ℕ, ◌^◌, ◌<◌, ◌-◌, ◌≤◌, min, ◌++◌, ◌==◌, length, replicate, slice_index, IsFalse};
ghost use Rattle.bit_words.specs.Words.{is_set, HasBits};
ghost use Rattle.byte_masks.specs.Classes.{op_byte, blank_byte, control_byte, high_byte, found, near_op};

use std::simd::prelude::*;

/// The classes of the bytes of a block: bit `i` of each word is of byte `i`.
#[derive(Clone, Copy, Debug, PartialEq, Eq, Drop)]
pub struct Block {
    /// The bytes `"`.
    pub quote: u64,
    /// The bytes `\`.
    pub backslash: u64,
    /// The structural characters (RFC 8259, section 2): `{ } [ ] : ,`.
    pub op: u64,
    /// Whitespace (RFC 8259, section 2): 20, 09, 0A and 0D (hexadecimal).
    pub blank: u64,
    /// The control characters, which a string may not have unescaped (RFC 8259, section 7): every
    /// byte below 20 (hexadecimal).
    pub control: u64,
}

#[inline(always)]
fn equal_to(lanes: u8x64, byte: u8) -> u64
    ensures { HasBits result (λ i. slice_index lanes i == byte) }
{
    lanes.simd_eq(u8x64::splat(byte)).to_bitmask()
}

// A byte is looked up by its low four bits, and gives 0 where its highest is set. The processor reads no other bits of it.
const LOOKED_UP: u8 = 0x8f;

// Where the table gives for a lane what the other vector has there, for 16 lanes: as many as the processor looks up at once.
#[inline(always)]
fn found_among(table: [u8; 16], lanes: u8x16, others: u8x16) -> u64
    ensures bits { (i : ℕ) → i < 16
        → is_set result i ≡ (found table (slice_index lanes i) == slice_index others i) }
    ensures small { result < 2 ^ 16 }
{
    u8x16::from_array(table)
        .swizzle_dyn_within::<16>(lanes & u8x16::splat(LOOKED_UP))
        .simd_eq(others)
        .to_bitmask()
}

#[inline(always)]
fn found_in(table: [u8; 16], lanes: u8x64, others: u8x64) -> u64
    ensures { HasBits result (λ i. found table (slice_index lanes i) == slice_index others i) }
{
    let first = found_among(table, lanes.extract::<0, 16>(), others.extract::<0, 16>());
    let second = found_among(table, lanes.extract::<16, 16>(), others.extract::<16, 16>());
    let third = found_among(table, lanes.extract::<32, 16>(), others.extract::<32, 16>());
    let fourth = found_among(table, lanes.extract::<48, 16>(), others.extract::<48, 16>());
    first | (second << 16) | (third << 32) | (fourth << 48)
}

// Entry n is the blank whose low four bits are n, or a byte with other low bits.
const BLANKS: [u8; 16] = [32, 0, 0, 0, 0, 0, 0, 0, 0, 9, 10, 0, 0, 13, 0, 0];

// Entry n is the structural character whose low four bits are n, with bit 20 (hexadecimal) set: so
// `[` and `{`, 5B and 7B, are one entry, and so are `]` and `}`.
const OPS: [u8; 16] = [0, 0, 0, 0, 0, 0, 0, 0, 0, 0, 58, 123, 44, 125, 0, 0];

// The structural characters, and the control characters 0C and 1A, which differ from a comma and a
// colon in the bit that is set. For `[`, which is 5B, and in binary:
//
//     byte               0101_1011
//     low four bits      0000_1011    entry 11, which is 7B
//     byte with the bit  0111_1011    7B
#[inline(always)]
fn near_ops(lanes: u8x64) -> u64
    ensures { HasBits result (λ i. near_op (slice_index lanes i)) }
{
    found_in(OPS, lanes, lanes | u8x64::splat(0x20))
}

#[inline(always)]
fn blanks(lanes: u8x64) -> u64
    ensures { HasBits result (λ i. blank_byte (slice_index lanes i)) }
{
    found_in(BLANKS, lanes, lanes)
}

#[inline(always)]
fn controls(lanes: u8x64) -> u64
    ensures { HasBits result (λ i. control_byte (slice_index lanes i)) }
{
    lanes.simd_lt(u8x64::splat(0x20)).to_bitmask()
}

// In each lane the lesser byte.
#[inline(always)]
fn lesser(lanes: u8x16, others: u8x16) -> u8x16
    ensures { (i : ℕ) → i < 16 → slice_index result i ≡ min (slice_index lanes i) (slice_index others i) }
{
    lanes.simd_min(others)
}

// Whether some of 16 bytes is a control character.
#[inline(always)]
fn control_among(lanes: u8x16) -> bool
    ensures { IsFalse result → (i : ℕ) → i < 16 → IsFalse (control_byte (slice_index lanes i)) }
{
    lanes.simd_lt(u8x16::splat(0x20)).to_bitmask() != 0
}

// Whether some byte is a control character: the least of all is looked at.
#[inline(always)]
fn has_control(lanes: u8x64) -> bool
    ensures { IsFalse result → (i : ℕ) → i < 64 → IsFalse (control_byte (slice_index lanes i)) }
{
    let first = lesser(lanes.extract::<0, 16>(), lanes.extract::<16, 16>());
    let second = lesser(lanes.extract::<32, 16>(), lanes.extract::<48, 16>());
    control_among(lesser(first, second))
}

/// The classes of 64 bytes, where lane `i` is byte `i`.
#[inline(always)]
pub fn classify(lanes: Simd<u8, 64>) -> Block
    ensures quote { HasBits result.quote (λ i. slice_index lanes i == 34) }
    ensures backslash { HasBits result.backslash (λ i. slice_index lanes i == 92) }
    ensures op { HasBits result.op (λ i. op_byte (slice_index lanes i)) }
    ensures blank { HasBits result.blank (λ i. blank_byte (slice_index lanes i)) }
    ensures control { HasBits result.control (λ i. control_byte (slice_index lanes i)) }
{
    let quote = equal_to(lanes, b'"');
    let backslash = equal_to(lanes, b'\\');
    let near = near_ops(lanes);
    // Without control characters the look-ups for blanks and control characters are spared. A text without line ends has no such block,
    // and one with them has them in most: the processor guesses right.
    if has_control(lanes) {
        let control = controls(lanes);
        let op = near & !control;
        return Block {
            quote,
            backslash,
            op,
            blank: blanks(lanes),
            control,
        };
    }
    Block {
        quote,
        backslash,
        op: near,
        blank: equal_to(lanes, b' '),
        control: 0,
    }
}

/// The bytes that are not ASCII: those of 80 (hexadecimal) and more.
#[inline(always)]
pub fn high_bytes(lanes: Simd<u8, 64>) -> u64
    ensures { HasBits result (λ i. high_byte (slice_index lanes i)) }
{
    lanes.simd_ge(u8x64::splat(0x80)).to_bitmask()
}

/// The bytes, of which there are at most 64, and spaces after them.
pub fn tail(bytes: &[u8]) -> Simd<u8, 64>
    requires { length bytes.now ≤ 64 }
    ensures { result ≡ bytes.now ++ replicate (64 - length bytes.now) 32 }
{
    let mut block = [b' '; 64];
    block[..bytes.len()].copy_from_slice(bytes);
    u8x64::from_array(block)
}

/// Whether the byte is a structural character: `{ } [ ] : ,`.
pub fn is_op(byte: u8) -> bool
    ensures { result ≡ op_byte byte }
{
    matches!(byte, b'{' | b'}' | b'[' | b']' | b':' | b',')
}

/// Whether the byte is whitespace: 20, 09, 0A or 0D (hexadecimal).
pub fn is_blank(byte: u8) -> bool
    ensures { result ≡ blank_byte byte }
{
    matches!(byte, b' ' | b'\t' | b'\n' | b'\r')
}

/// Whether the byte is a control character, below 20 (hexadecimal).
pub fn is_control(byte: u8) -> bool
    ensures { result ≡ control_byte byte }
{
    byte < 0x20
}
