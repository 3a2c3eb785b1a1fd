//! The syntax tree of a query.

/// A query: the segments after its `$` (RFC 9535, section 2.1).
#[derive(Drop)]
pub struct Query {
    pub segments: Vec<Segment>,
}

/// A segment (RFC 9535, section 2.5): what it selects from, and its selectors in order.
#[derive(Drop)]
#[cycle(ast)]
pub struct Segment {
    /// Whether it selects from each input node and all its descendants, or from the input nodes alone.
    pub descend: bool,
    pub selectors: Vec<Selector>,
}

/// A selector (RFC 9535, section 2.3).
#[derive(Drop)]
#[cycle(ast)]
pub enum Selector {
    /// The value of the member with this name.
    Name(Vec<char>),
    /// All member values or all elements.
    Wild,
    /// One element, counted from the end if the number is negative.
    Index(IntLit),
    /// The children for which the expression is true.
    Filter(Box<Expr>),
    /// The elements from `start`, before `stop`, by `step`.
    Slice {
        start: Option<IntLit>,
        stop: Option<IntLit>,
        step: Option<IntLit>,
    },
}

/// A number in an index or a slice.
#[derive(Clone, Copy)]
pub enum IntLit {
    /// A number of absolute value at most 9,007,199,254,740,991, if the parser made it.
    Within(i64),
    /// A number outside that range.
    Beyond,
}

/// A logical expression (RFC 9535, section 2.3.5). Parentheses have no node of their own.
#[derive(Drop)]
#[cycle(ast)]
pub enum Expr {
    /// Operands joined by `||`: two or more, if the parser made it.
    Any(Vec<Expr>),
    /// Operands joined by `&&`: two or more, if the parser made it.
    Each(Vec<Expr>),
    /// A negation.
    Not(Box<Expr>),
    /// A comparison.
    Compare(Comparable, Op, Comparable),
    /// A test: whether a query selects any node.
    Test(SubQuery),
    /// A function call as a test.
    TestCall(Call),
}

/// A query within a filter (RFC 9535, section 2.3.5.1).
#[derive(Drop)]
#[cycle(ast)]
pub struct SubQuery {
    /// Whether it begins at the root (`$`), or at the child that the filter is applied to (`@`).
    pub from_root: bool,
    pub segments: Vec<Segment>,
}

/// A side of a comparison (RFC 9535, section 2.3.5.1).
#[derive(Drop)]
#[cycle(ast)]
pub enum Comparable {
    Lit(Literal),
    /// A singular query: it selects at most one node.
    Single(SubQuery),
    Func(Call),
}

/// A function call (RFC 9535, section 2.4): its name in ASCII, and its arguments in order.
#[derive(Drop)]
#[cycle(ast)]
pub struct Call {
    pub name: Vec<u8>,
    pub arguments: Vec<Argument>,
}

/// An argument of a function call (RFC 9535, section 2.4).
#[derive(Drop)]
#[cycle(ast)]
pub enum Argument {
    Lit(Literal),
    Nodes(SubQuery),
    Func(Call),
    /// Any other logical expression.
    Logical(Box<Expr>),
}

/// A literal (RFC 9535, section 2.3.5.1).
#[derive(Drop)]
pub enum Literal {
    /// A number, as it is written.
    Number(Vec<u8>),
    /// A string, as scalar values.
    Text(Vec<char>),
    Bool(bool),
    Null,
}

/// A comparison operator (RFC 9535, section 2.3.5.1).
#[derive(Clone, Copy)]
pub enum Op {
    Eq,
    Ne,
    Le,
    Ge,
    Lt,
    Gt,
}
