//! Number texts of JSON (RFC 8259, section 6), read and compared as exact decimals.
//!
//! No number is turned into a double or a word: `9007199254740993` is greater than
//! `9007199254740992`, and `1` equals `10e-1`. A comparison takes no memory, and its time is
//! linear in the bytes of the two texts, whatever their exponents say.
#![tactic(auto)]

mod integers;
mod laws;
mod limits;
mod magnitude;
mod number;
mod order;
mod parts;
mod short;

pub use laws::{late_exponents_keep_limits, orders_values, reads_one_way, writes_whole_numbers};
pub use limits::{MAX_LENGTH, SHORT_LENGTH, within_limits};
pub use number::{Decimal, scan};
pub use order::compare;
