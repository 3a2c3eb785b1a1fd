//! Lists of nodes of a document, and the selectors that add to them without a condition (RFC 9535, sections 2.3 and 2.5), with an exact charge.
//!
//! Names, indexes, wildcards and slices select from one node, and some of them from a node and all its descendants. Each adds the nodes to a list and
//! takes its charge from a [`Meter`], or refuses it. [`followed`] goes from node to node without a list.
#![tactic(auto)]

mod chains;
mod descendants;
mod fault;
mod laws;
mod meter;
mod nodes;
mod slices;
mod steps;

pub use chains::{followed, step};
pub use descendants::{below_total, children_below, named, visit_total};
pub use fault::SelectFault;
pub use laws::{numbers_split_nodes, places_step_on, selectors_pay_in_parts};
pub use meter::Meter;
pub use nodes::{child_total, lone, push, push_some, reserve, wild};
pub use path_meaning::{Link, Name};
pub use slices::sliced;
pub use steps::stepped;
