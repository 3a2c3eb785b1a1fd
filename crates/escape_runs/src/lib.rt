// Which bytes of a block of 64 are escaped by a backslash.
#![tactic(auto)]

ghost use Rattle.std.specs.Prelude.{◌≡◌};
ghost use Rattle.bit_words.specs.Words.{HasBits};
ghost use Rattle.escape_runs.specs.Runs.{is_escaped};

// Bits 1, 3, 5 and so on.
const ODD: u64 = 0xaaaa_aaaa_aaaa_aaaa;

/// The escaped bytes of a block whose backslashes are `backslash`, and whether byte 0 of the next
/// block is escaped. `carry` says that byte 0 of this one is. A byte is escaped where the byte
/// before it is a backslash that is not itself escaped (RFC 8259, section 7).
#[inline(always)]
pub fn escaped(backslash: u64, carry: bool) -> (u64, bool)
    ensures bits { HasBits result.0 (is_escaped carry backslash) }
    ensures carry { result.1 ≡ is_escaped carry backslash 64 }
{
    // A run is the backslashes that stand together, without a first one that is itself escaped.
    // The difference has ones along a run that begins at an even bit and zeros along one that
    // begins at an odd bit, and the bit behind a run the other way. Against the odd bits, that
    // leaves every second bit of a run from its first on, which are the backslashes that escape
    // the next byte, and the bit behind a run where that byte is escaped. In 8 bits without a
    // carry, highest first:
    //
    //     runs         0100_1110    bits 1 to 3, and bit 6
    //     upper        1011_1110
    //     difference   0111_0000
    //     marks        1101_1010    bits 1 and 3, and bit 6; behind the runs, bits 4 and 7
    //     escapes      1001_0100    bits 2 and 4, and bit 7
    let runs = backslash & !(carry as u64);
    let upper = (runs << 1) | ODD;
    let marks = upper.wrapping_sub(runs) ^ ODD;
    let escapes = marks ^ (backslash | carry as u64);
    (escapes, (marks & backslash) >> 63 == 1)
}
