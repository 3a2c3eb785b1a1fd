// Strings: runs of bytes that stand for themselves, and what is between them byte by byte.

ghost use Rattle.std.specs.Prelude.{◌≡◌, ◌+◌, ◌<◌, ◌≤◌, length, drop, slice_index, IfSome};
ghost use Rattle.json_text.specs.Scanning.{turn as turn_of, string_end};

use json_text::{Mode, Turn};
use structural_index::{Batch, Stopped, is_hex, is_short};

fn next_turn(mode: Mode, b: u8) -> Turn
    ensures { result ≡ turn_of mode b }
{
    match mode {
        Mode::Between => {
            if b == b'"' {
                Turn::Stop
            } else if b == b'\\' {
                Turn::Go(Mode::Escape)
            } else if b < 32 {
                Turn::Fail
            } else {
                Turn::Go(Mode::Between)
            }
        }
        Mode::Escape => {
            if is_short(b) {
                Turn::Go(Mode::Between)
            } else if b == b'u' {
                Turn::Go(Mode::Hex(3))
            } else {
                Turn::Fail
            }
        }
        Mode::Hex(left) => {
            if !is_hex(b) {
                Turn::Fail
            } else if left == 0 {
                Turn::Go(Mode::Between)
            } else {
                Turn::Go(Mode::Hex(left - 1))
            }
        }
    }
}

// The byte that decides what comes next, where a scan of a string stands so at this place: bytes between characters that stand for themselves
// are passed.
#[inline(always)]
fn next_byte(looks: &mut Batch<'_>, mode: Mode, k: usize) -> Stopped
    requires { k < length looks.old.0 }
    ensures lower_bound { k ≤ result.at }
    ensures upper_bound { result.at < length looks.old.0 }
    ensures value { result.byte ≡ slice_index looks.old.0 result.at }
    ensures passed { string_end mode result.at (drop result.at looks.old.0) ≡ string_end mode k (drop k looks.old.0) }
    ensures same { looks.new.0 ≡ looks.old.0 }
    ensures looked { looks.new.1 + k ≤ looks.old.1 + (result.at + 1) }
{
    match mode {
        Mode::Between => looks.pass_unstopped(k),
        Mode::Escape | Mode::Hex(_) => Stopped {
            at: k,
            byte: looks.at(k),
        },
    }
}

// Goes on at a byte behind which the text may end.
#[inline(always)]
fn byte_behind(looks: &mut Batch<'_>, mode: Mode, k: usize) -> Stopped
    requires { k ≤ length looks.old.0 }
    ensures lower_bound { k ≤ result.at }
    ensures upper_bound { result.at ≤ length looks.old.0 }
    ensures value { result.at < length looks.old.0 → result.byte ≡ slice_index looks.old.0 result.at }
    ensures passed { string_end mode result.at (drop result.at looks.old.0) ≡ string_end mode k (drop k looks.old.0) }
    ensures same { looks.new.0 ≡ looks.old.0 }
    ensures looked { looks.new.1 + k ≤ looks.old.1 + (result.at + 1) }
{
    if k >= looks.length() {
        return Stopped { at: k, byte: 0 };
    }
    next_byte(looks, mode, k)
}

/// The place past the quote that closes a string whose characters begin here, each byte looked at once.
#[inline(always)]
#[tactic(auto, using(crate::proofs::Steps::quote_step, crate::proofs::Steps::quote_over))]
pub fn quote_past(looks: &mut Batch<'_>, start: usize) -> Option<usize>
    requires { start ≤ length looks.old.0 }
    ensures value { result ≡ string_end Mode.Between start (drop start looks.old.0) }
    ensures bound { IfSome result (λ end. (start < end) × (end ≤ length looks.old.0)) }
    ensures same { looks.new.0 ≡ looks.old.0 }
    ensures looked { IfSome result (λ end. looks.new.1 + start ≤ looks.old.1 + end) }
{
    let mut mode = Mode::Between;
    let mut next = byte_behind(looks, Mode::Between, start);
    while next.at < looks.length() {
        match next_turn(mode, next.byte) {
            Turn::Stop => return Some(next.at + 1),
            Turn::Fail => return None,
            Turn::Go(Mode::Between) => {
                mode = Mode::Between;
                next = byte_behind(looks, Mode::Between, next.at + 1);
            }
            Turn::Go(other) => {
                mode = other;
                next = byte_behind(looks, other, next.at + 1);
            }
        }
    }
    None
}
