//! What may come next in a query (RFC 9535, section 2.1.1), and what is open.

/// What an expression waits for: an operand, the operand behind `!`, or the right side of a comparison.
#[derive(Clone, Copy, PartialEq, Eq)]
pub enum Side {
    Left,
    Negated,
    Right,
}

/// What an operand is. A group is a parenthesis.
#[derive(Clone, Copy, PartialEq, Eq)]
pub enum Operand {
    Literal,
    Singular,
    Query,
    Function,
    Group,
}

/// The numbers of a slice.
#[derive(Clone, Copy, PartialEq, Eq)]
pub enum Part {
    Start,
    End,
    Step,
}

/// How much of such a number was read.
#[derive(Clone, Copy, PartialEq, Eq)]
pub enum Whole {
    Before,
    Minus,
    Zero,
    Digits,
    Behind,
}

/// How much of a number literal was read.
#[derive(Clone, Copy, PartialEq, Eq)]
pub enum Decimal {
    Minus,
    Zero,
    Int,
    Point,
    Frac,
    E,
    Sign,
    Exp,
}

/// Where a string is. Of a surrogate pair, the second half has to follow the first.
#[derive(Clone, Copy, PartialEq, Eq)]
pub enum Inside {
    Between,
    Escape,
    Unit,
    UnitBehindD,
    Digits(u8),
    HighDigits(u8),
    LowSlash,
    LowU,
    LowD,
    LowSecond,
}

/// What may come next.
#[derive(Clone, Copy, PartialEq, Eq)]
pub enum Now {
    Root,
    Segment {
        blank: bool,
    },
    Dot,
    Dots,
    Short,
    Selector,
    BehindSelector,
    Number(Part, Whole),
    Name {
        quote: u8,
        inside: Inside,
    },
    Operand(Side),
    Arguments,
    Text {
        quote: u8,
        inside: Inside,
        side: Side,
    },
    Literal(Decimal, Side),
    Word(Side),
    Compared(u8),
    Joined(u8),
    Behind(Side, Operand),
}

/// What is open. The right side of a comparison is bound to one name or one index a segment.
#[derive(Clone, Copy)]
pub enum Frame {
    Query {
        side: Option<Side>,
        singular: bool,
    },
    Bracket {
        single: bool,
        bound: bool,
    },
    Filter,
    Paren {
        side: Side,
    },
    Call {
        start: usize,
        end: usize,
        side: Side,
        arguments: usize,
        argument: usize,
        plain: bool,
    },
}
