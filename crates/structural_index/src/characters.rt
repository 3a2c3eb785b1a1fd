// The characters of a text (UTF-8), read only where bytes are not ASCII.
ghost use Rattle.std.specs.Prelude.{◌≡◌, ◌+◌, ◌≤◌, ◌%◌, length};
ghost use Rattle.structural_index.specs.Blocks.{AreBytesFrom};
ghost use Rattle.structural_index.specs.Utf8.{IsRun, AreRead};

use byte_masks::{high_bytes, tail};
use simdutf8::Checker;
use std::simd::prelude::*;

/// What was found of the characters so far.
#[derive(Clone, Copy, Drop)]
pub struct Characters {
    // Where the last run of blocks that was read ends.
    pub end: usize,
    pub valid: bool,
}

pub const NO_CHARACTERS: Characters = Characters {
    end: 0,
    valid: true,
};

// Reads whole blocks from this byte on, up to one that begins with ASCII, or to the end of the text.
#[cold]
#[inline(never)]
fn read_run(text: &[u8], from: usize) -> Characters
    requires within { from ≤ length text.now }
    requires whole { from % 64 ≡ 0 }
    ensures { IsRun text.now from result }
{
    let mut checker = Checker::new();
    let mut at = from;
    'reading: while text.len() - at >= 64 {
        checker = checker.step(u8x64::from_slice(&text[at..]));
        at += 64;
        if at < text.len() && text[at] < 0x80 {
            return Characters {
                end: at,
                valid: checker.finish(),
            };
        }
    }
    let last = checker.step(tail(&text[at..]));
    Characters {
        end: text.len(),
        valid: last.finish(),
    }
}

/// Adds what the bytes of a block say to what was found before it. Most blocks are ASCII. The call for others is marked as a rare one, so that the loop
/// over blocks keeps its registers.
#[inline(always)]
pub fn read_characters(found: &mut Characters, text: &[u8], from: usize, lanes: u8x64)
    requires within { from ≤ length text.now }
    requires whole { from % 64 ≡ 0 }
    ensures { AreBytesFrom lanes from text.now → AreRead text.now from found.old → AreRead text.now (from + 64) found.new }
{
    if high_bytes(lanes) != 0 && found.end <= from {
        let run = read_run(text, from);
        *found = Characters {
            end: run.end,
            valid: found.valid & run.valid,
        };
    }
}
