// The escapes of a text (RFC 8259, section 7), each by its letter.
ghost use Rattle.std.specs.Prelude.{◌≡◌, ◌+◌, ◌≤◌, ◌<◌, ◌^◌, ◌&&◌, eqb, length};
ghost use Rattle.std.specs.List.{fold};
ghost use Rattle.bit_words.specs.Words.{HasBits};
ghost use Rattle.structural_index.specs.Bits.{set_bits_from};
ghost use Rattle.structural_index.specs.Places.{byte, is_escaped, is_short as short, is_hex as hex, are_digits as digits, spells_low};
ghost use Rattle.structural_index.specs.Blocks.{half_of, letter_of, is_lower, after_escape, AreJudged};

/// Whether a backslash in front of the byte makes it an escape.
pub fn is_short(b: u8) -> bool
    ensures { result ≡ short b }
{
    matches!(b, b'"' | b'\\' | b'/' | b'b' | b'f' | b'n' | b'r' | b't')
}

/// Whether the byte is a hexadecimal digit.
pub fn is_hex(b: u8) -> bool
    ensures { result ≡ hex b }
{
    // No test is skipped, since the processor cannot guess which of them holds.
    ((b'0' <= b) & (b <= b'9')) | ((b'A' <= b) & (b <= b'F')) | ((b'a' <= b) & (b <= b'f'))
}

// Whether the four bytes behind this one are hexadecimal digits.
#[inline(always)]
fn are_digits(text: &[u8], at: usize) -> bool
    requires { at + 4 < length text.now }
    ensures { result ≡ digits text.now at }
{
    is_hex(text[at + 1]) & is_hex(text[at + 2]) & is_hex(text[at + 3]) & is_hex(text[at + 4])
}

// What the byte behind a backslash is: a letter that is no surrogate's, the u of a high surrogate or of a low one, or no letter that an escape may have.
#[derive(Clone, Copy)]
enum Letter {
    Plain,
    High,
    Low,
    Nothing,
}

// What a unit that begins with a D is, by its second digit.
#[inline(always)]
fn half(digit: u8) -> Letter
    ensures { result ≡ half_of digit }
{
    match digit {
        b'8' | b'9' | b'A' | b'B' | b'a' | b'b' => Letter::High,
        b'C'..=b'F' | b'c'..=b'f' => Letter::Low,
        _ => Letter::Plain,
    }
}

#[inline(always)]
fn letter_at(text: &[u8], at: usize) -> Letter
    ensures { result ≡ letter_of text.now at }
{
    if at >= text.len() {
        return Letter::Nothing;
    }
    let first = text[at];
    if is_short(first) {
        return Letter::Plain;
    }
    if first != b'u' || text.len() - at <= 4 || !are_digits(text, at) {
        return Letter::Nothing;
    }
    if text[at + 1] != b'D' && text[at + 1] != b'd' {
        return Letter::Plain;
    }
    half(text[at + 2])
}

fn is_low(letter: Letter) -> bool
    ensures { result ≡ is_lower letter }
{
    matches!(letter, Letter::Low)
}

// Whether the escape of a low surrogate stands right behind that of the unit here.
#[tactic(auto, using(crate::proofs::JudgedEscapes::low_is))]
fn has_low_behind(text: &[u8], at: usize) -> bool
    requires { at < length text.now }
    ensures { result ≡ (eqb (byte text.now (at + 5)) 92 && spells_low text.now (at + 6)) }
{
    if text.len() - at <= 5 {
        return false;
    }
    text[at + 5] == b'\\' && is_low(letter_at(text, at + 6))
}

/// What was found of the escapes so far.
#[derive(Clone, Copy, Drop)]
pub struct Escapes {
    // Some escape is none of the grammar.
    pub wrong: bool,
    // Some surrogate is lone.
    pub lone: bool,
    // Where the low surrogate stands that belongs to the last high one.
    pub due: usize,
}

pub const NO_ESCAPES: Escapes = Escapes {
    wrong: false,
    lone: false,
    due: 0,
};

impl Escapes {
    // With the escape of this byte.
    #[inline(always)]
    fn after(self, text: &[u8], at: usize) -> Escapes
        requires { at + 6 < 2 ^ 64 }
        ensures { result ≡ after_escape text.now self at }
    {
        match letter_at(text, at) {
            Letter::Plain => self,
            Letter::Nothing => Escapes {
                wrong: true,
                lone: self.lone,
                due: self.due,
            },
            Letter::High => Escapes {
                wrong: self.wrong,
                lone: self.lone || !has_low_behind(text, at),
                due: at + 6,
            },
            Letter::Low => Escapes {
                wrong: self.wrong,
                lone: self.lone || self.due != at,
                due: self.due,
            },
        }
    }
}

// With the escapes of these bytes of a block.
#[inline(never)]
fn judge_all(found: &mut Escapes, text: &[u8], from: usize, escapes: u64)
    requires { from ≤ length text.now }
    ensures { found.new ≡ fold (after_escape text.now) found.old (set_bits_from from escapes) }
{
    let mut rest = escapes;
    while rest != 0 {
        *found = found.after(text, from + rest.trailing_zeros() as usize);
        rest &= rest - 1;
    }
}

/// Adds what the escaped bytes of a block say to what was found before it. Most blocks have none. What was found is lent, so that the loop over blocks
/// keeps its registers.
#[inline(always)]
pub fn judge(found: &mut Escapes, text: &[u8], from: usize, escapes: u64)
    requires { from ≤ length text.now }
    ensures { HasBits escapes (λ k. is_escaped text.now (from + k)) → AreJudged text.now from found.old → AreJudged text.now (from + 64) found.new }
{
    if escapes != 0 {
        judge_all(found, text, from, escapes);
    }
}
