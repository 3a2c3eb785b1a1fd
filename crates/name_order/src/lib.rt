//! The names of objects: whether one comes twice, and the order in which wide objects keep their members.
//!
//! `order_names` looks at the objects that are left to be looked at, and orders the members of all wide ones. `member_in` finds a member there.
#![tactic(auto)]

mod duplicates;
mod order;
mod orders;

pub use duplicates::order_names;
pub use order::{is_wide, member_in};
pub use orders::NameOrder;
