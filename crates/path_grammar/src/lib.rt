//! Parses a query text into a syntax tree (RFC 9535, sections 2.1 to 2.5).
//!
//! [`parse`] reads a text once, from left to right, and returns its tree or a named refusal. It does not check validity:
//! `path_types` does, on the tree.
#![tactic(auto)]

mod ast;
mod class;
mod expressions;
mod fault;
mod laws;
mod literals;
mod numbers;
mod reader;
mod scan;
mod segments;
mod singular;
mod strings;

pub use ast::{
    Argument, Call, Comparable, Expr, IntLit, Literal, Op, Query, Segment, Selector, SubQuery,
};
pub use fault::ParseFault;
pub use laws::queries_have_one_tree;
pub use reader::{LEVEL_LIMIT, QUERY_LIMIT, parse};
pub use singular::is_singular;
