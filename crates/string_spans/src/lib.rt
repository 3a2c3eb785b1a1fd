// The strings of a block of 64 bytes, told from its real quotes.
#![tactic(auto)]

ghost use Rattle.std.specs.Prelude.{◌≡◌};
ghost use Rattle.bit_words.specs.Words.{is_odd, HasBits};
ghost use Rattle.string_spans.specs.Quotes.{parity_through, quotes_before, is_opening, is_closing, is_interior};

mod answer;

pub use answer::Spans;

/// Bit `i` is the parity of bits 0 to `i` of `w`.
#[inline(always)]
pub fn prefix_parity(w: u64) -> u64
    ensures { HasBits result (parity_through w) }
{
    // Each fold doubles how many bits a bit has summed up. In 8 bits, highest first:
    //
    //     w       0100_1001
    //     two     1101_1011    bits i and i - 1
    //     four    1011_0111    bits i to i - 3
    //     eight   1100_0111    all bits up to i
    let two = w ^ (w << 1);
    let four = two ^ (two << 2);
    let eight = four ^ (four << 4);
    let sixteen = eight ^ (eight << 8);
    let half = sixteen ^ (sixteen << 16);
    half ^ (half << 32)
}

/// The strings of a block whose real quotes are `real_quotes`. `inside` says that the block begins
/// within a string, and counts as one real quote before it.
#[inline(always)]
pub fn spans(real_quotes: u64, inside: bool) -> Spans
    ensures interior { HasBits result.interior (is_interior inside real_quotes) }
    ensures opening { HasBits result.opening (is_opening inside real_quotes) }
    ensures closing { HasBits result.closing (is_closing inside real_quotes) }
    ensures inside { result.inside ≡ is_odd (quotes_before inside real_quotes 64) }
{
    let within = prefix_parity(real_quotes) ^ 0u64.wrapping_sub(inside as u64);
    Spans {
        interior: within & !real_quotes,
        opening: within & real_quotes,
        closing: real_quotes & !within,
        inside: within >> 63 == 1,
    }
}
