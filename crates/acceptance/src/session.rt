//! Four requests and the replies to them, as bytes and as lines, written out by hand from the tables of the protocol.

/// The key of the tenant.
pub const KEY: [u8; 16] = [
    0x00, 0x11, 0x22, 0x33, 0x44, 0x55, 0x66, 0x77, 0x88, 0x99, 0xaa, 0xbb, 0xcc, 0xdd, 0xee, 0xff,
];

/// The key of another one.
pub const OTHER_KEY: [u8; 16] = [
    0xff, 0xee, 0xdd, 0xcc, 0xbb, 0xaa, 0x99, 0x88, 0x77, 0x66, 0x55, 0x44, 0x33, 0x22, 0x11, 0x00,
];

/// A put of `{"a":1}` at c/d, the query `$.a`, a get and the usage: 36, 30, 29 and 25 bytes.
pub const REQUESTS: &[u8] = b"\
\0\0\0\x20\x01\0\0\0\x01\x00\x11\x22\x33\x44\x55\x66\x77\x88\x99\xaa\xbb\xcc\xdd\xee\xff\x01c\x01d{\"a\":1}\
\0\0\0\x1a\x05\0\0\0\x02\x00\x11\x22\x33\x44\x55\x66\x77\x88\x99\xaa\xbb\xcc\xdd\xee\xff\x01c$.a\
\0\0\0\x19\x02\0\0\0\x03\x00\x11\x22\x33\x44\x55\x66\x77\x88\x99\xaa\xbb\xcc\xdd\xee\xff\x01c\x01d\
\0\0\0\x15\x07\0\0\0\x04\x00\x11\x22\x33\x44\x55\x66\x77\x88\x99\xaa\xbb\xcc\xdd\xee\xff";

/// 9, 30, 16 and 21 bytes.
pub const REPLIES: &[u8] = b"\
\0\0\0\x05\0\0\0\0\x01\
\0\0\0\x1a\0\0\0\0\x02\0\0\0\x01\x01d\0\0\0\x06$['a']\0\0\0\x011\
\0\0\0\x0c\0\0\0\0\x03{\"a\":1}\
\0\0\0\x11\0\0\0\0\x04\0\0\0\x01\0\0\0\x01\0\0\0\x07";

/// The first so many bytes, or none.
pub fn front(bytes: &[u8], count: usize) -> &[u8] {
    bytes.get(..count).unwrap_or_default()
}
