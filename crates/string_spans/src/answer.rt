/// The strings of a block of 64 bytes: bit `i` of each word is of byte `i`.
#[derive(Clone, Copy, Debug, PartialEq, Eq, Drop)]
pub struct Spans {
    /// The bytes with an odd number of real quotes before them that are no real quote.
    pub interior: u64,
    /// The real quotes with an even number of real quotes before them.
    pub opening: u64,
    /// The real quotes with an odd number of real quotes before them.
    pub closing: u64,
    /// Whether the next block begins within a string.
    pub inside: bool,
}
