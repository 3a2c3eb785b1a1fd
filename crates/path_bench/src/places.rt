//! The index of places.

ghost use Rattle.std.specs.Prelude.{◌≡◌, ◌+◌, ◌≤◌, ◌^◌, length, IsFalse};
ghost use Rattle.structural_index.specs.Places.{places};

use std::alloc::Global;
use structural_index::index;

/// What `path_bench_index` answers.
#[repr(C)]
#[derive(Clone, Copy, Drop)]
pub struct Indexed {
    /// The number of places, or 0 where memory was refused.
    pub count: usize,
    pub unclosed: bool,
    pub control_inside: bool,
    /// Whether memory was refused.
    pub refused: bool,
}

/// The index of `text`. Its places are written to `found` where they are as many as that has room
/// for, so that an empty slice asks for the work alone.
#[unsafe(no_mangle)]
pub extern "C" fn path_bench_index(alloc: Global, text: &[u8], found: &mut [u32]) -> Indexed
    requires { length text.now + 64 ≤ 2 ^ 32 }
    ensures count { IsFalse result.refused → result.count ≡ length (places text.now) }
    ensures found { IsFalse result.refused → length found.old ≡ result.count
        → found.new ≡ places text.now }
{
    match index(alloc, text) {
        Ok(made) => {
            if made.places.len() == found.len() {
                found.copy_from_slice(&made.places);
            }
            Indexed {
                count: made.places.len(),
                unclosed: made.unclosed,
                control_inside: made.control_inside,
                refused: false,
            }
        }
        Err(_) => Indexed {
            count: 0,
            unclosed: false,
            control_inside: false,
            refused: true,
        },
    }
}
