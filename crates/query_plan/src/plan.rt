//! A query made ready for evaluation: a tree in which the kind of each part is decided.

use decisions::{Constant, Decision, Scale};
use path_grammar::{IntLit, Op};
use path_meaning::Link;

/// A segment (RFC 9535, section 2.5).
#[derive(Drop)]
#[cycle(plan)]
pub struct Stage {
    /// Whether it selects from each input node and all its descendants, or from the input nodes alone.
    pub descend: bool,
    pub selections: Vec<Selection>,
}

/// A selector (RFC 9535, section 2.3).
#[derive(Drop)]
#[cycle(plan)]
pub enum Selection {
    One(Link),
    Wild,
    Sliced {
        start: Option<IntLit>,
        stop: Option<IntLit>,
        step: Option<IntLit>,
    },
    Where(Box<Condition>),
}

/// A logical expression (RFC 9535, section 2.3.5).
#[derive(Drop)]
#[cycle(plan)]
pub enum Condition {
    Any(Vec<Condition>),
    Each(Vec<Condition>),
    Not(Box<Condition>),
    Compare(Operand, Op, Operand),
    /// A query selects some node.
    Exists(Nested),
    /// A condition that compares one side with literals, decided for each place of its value among them.
    Decided(Operand, Box<Decision>),
    /// A condition that is told on this scale, and the number of its slot. Its truth is kept for each cell.
    Remembered(u32, Scale, Box<Condition>),
    /// The operands of all of these with `||` between them, or with `&&`, as the flag says; one that has no such operands is itself one. The
    /// numbers say for each operand of the query in turn of which it is the next.
    Joined(bool, Vec<usize>, Vec<Condition>),
}

/// A side of a comparison, or the argument of `length` (RFC 9535, sections 2.3.5.1 and 2.4).
#[derive(Drop)]
#[cycle(plan)]
pub enum Operand {
    Constant(Constant),
    Single(Nested),
    Length(Box<Operand>),
    Count(Nested),
    Value(Nested),
}

/// A query in a filter: the names and indexes that it begins with, and the segments behind them. A singular query has none behind.
#[derive(Drop)]
#[cycle(plan)]
pub struct Nested {
    /// The number of its slot, where it begins at the root or has segments behind.
    pub slot: Option<u32>,
    /// Whether it begins at the root. One without a slot begins at the child.
    pub from_root: bool,
    pub links: Vec<Link>,
    pub stages: Vec<Stage>,
}

/// The parts of a whole query.
#[derive(Drop)]
pub struct Parts {
    pub stages: Vec<Stage>,
    /// How many slots there are.
    pub slots: u32,
}
