//! What moved over a wire in memory.

use path_hub::{MemoryWire, Moved};

/// Whether these bytes were written.
pub fn took(wire: &MemoryWire, wanted: &[u8]) -> bool {
    let mut left = wanted;
    for moved in wire.moves() {
        if let Moved::Took(bytes) = moved {
            match left.strip_prefix(bytes.as_slice()) {
                Some(rest) => left = rest,
                None => return false,
            }
        }
    }
    left.is_empty()
}

/// Whether these bytes were read.
pub fn gave(wire: &MemoryWire, wanted: &[u8]) -> bool {
    let mut left = wanted;
    for moved in wire.moves() {
        if let Moved::Gave(bytes) = moved {
            match left.strip_prefix(bytes.as_slice()) {
                Some(rest) => left = rest,
                None => return false,
            }
        }
    }
    left.is_empty()
}
