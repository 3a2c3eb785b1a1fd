//! Where a reading of a string stands, byte by byte or character by character.

/// Where a scan of a string stands: between characters, behind a backslash, or before a hexadecimal digit after which this many must come.
#[derive(Clone, Copy)]
pub enum Mode {
    Between,
    Escape,
    Hex(u8),
}

/// What a byte of a string does.
#[derive(Clone, Copy)]
pub enum Turn {
    Stop,
    Fail,
    Go(Mode),
}
