//! Conditions that compare one side with literals.

ghost use Rattle.std.specs.Prelude.{IsTrue};
ghost use Rattle.path_grammar.specs.View.{literal_view};
ghost use Rattle.path_types.specs.Validity.{is_literal};

use path_grammar::{Literal, Op};

/// A literal (RFC 9535, section 2.3.5.1). Where it is a number, that is within the limits.
#[derive(Drop)]
pub struct Constant {
    pub literal: Literal,
    ghost valid: { IsTrue (is_literal (literal_view literal)) },
}

/// A condition that compares one side with literals.
#[derive(Drop)]
pub enum Test {
    Any(Vec<Test>),
    Each(Vec<Test>),
    Not(Box<Test>),
    /// The side on the left.
    Value(Op, Constant),
    /// The side on the right.
    Against(Constant, Op),
    /// Two literals.
    Literals(Constant, Op, Constant),
    /// `@`, or `$`, by itself, which there always is.
    Present(bool),
    /// `@`, or `$`, with itself.
    Itself(bool, Op),
    /// `@` with `$`, or the other way round where the flag says so.
    Rooted(bool, Op),
}
