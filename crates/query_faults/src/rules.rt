//! The rules that a well-formed query may break (RFC 9535, sections 2.1 and 2.4.3).

use decimal_order::{scan, within_limits};
use std::fmt;

/// A rule that is broken.
#[derive(Clone, Copy, Debug, PartialEq, Eq)]
pub enum Rule {
    WholeLimit,
    NumberLimit,
    UnknownFunction,
    RegularExpression,
    OneArgument,
    ValueArgument,
    QueryArgument,
    FunctionAsTest,
}

impl Rule {
    /// What is wrong with the name of a function that is not known.
    pub fn of_name(name: &[u8]) -> Rule {
        match name {
            b"match" | b"search" => Rule::RegularExpression,
            _ => Rule::UnknownFunction,
        }
    }
}

impl fmt::Display for Rule {
    fn fmt<W: fmt::Write>(&self, f: &mut fmt::Formatter<W>) -> fmt::Result {
        match self {
            Rule::WholeLimit => write!(
                f,
                "an index is between -9007199254740991 and 9007199254740991"
            ),
            Rule::NumberLimit => {
                write!(
                    f,
                    "a number has at most 256 bytes and an exponent of at most 999999999"
                )
            }
            Rule::UnknownFunction => write!(f, "the functions are length, count and value"),
            Rule::RegularExpression => write!(f, "match and search are not in this server"),
            Rule::OneArgument => write!(f, "a function has one argument"),
            Rule::ValueArgument => {
                write!(
                    f,
                    "the argument is a literal, a query of names and indexes, or a function"
                )
            }
            Rule::QueryArgument => write!(f, "the argument is a query"),
            Rule::FunctionAsTest => write!(f, "a function is no test: compare its value"),
        }
    }
}

pub fn is_known(name: &[u8]) -> bool {
    matches!(name, b"length" | b"count" | b"value")
}

/// The rule that an argument of a function breaks.
pub fn argument_rule(name: &[u8], argument: crate::states::Operand) -> Option<Rule> {
    use crate::states::Operand;
    match (name, argument) {
        (b"length", Operand::Literal | Operand::Singular | Operand::Function) => None,
        (b"length", _) => Some(Rule::ValueArgument),
        (b"count" | b"value", Operand::Singular | Operand::Query) => None,
        (b"count" | b"value", _) => Some(Rule::QueryArgument),
        _ => None,
    }
}

/// The rule that a number of an index or a slice breaks. Its digits have no leading zeros.
pub fn whole_rule(number: &[u8]) -> Option<Rule> {
    let digits = match number {
        [b'-', digits @ ..] => digits,
        digits => digits,
    };
    let limit = b"9007199254740991";
    if digits.len() < limit.len() || (digits.len() == limit.len() && digits <= limit.as_slice()) {
        None
    } else {
        Some(Rule::WholeLimit)
    }
}

/// The rule that a number literal breaks.
pub fn literal_rule(number: &[u8]) -> Option<Rule> {
    match scan(number) {
        Some(decimal) if within_limits(&decimal) => None,
        _ => Some(Rule::NumberLimit),
    }
}
