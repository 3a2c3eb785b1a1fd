//! Conditions that are charged nothing and have several sides: the marks of `@` and its length tell them.

ghost use Rattle.std.specs.Prelude.{◌≡◌, ◌<◌, ◌≤◌, ◌++◌, length, map, decimal, IsTrue, IfOk, IfSome, OnOk};
ghost use Rattle.std.specs.List.{All};
ghost use Rattle.path_grammar.specs.Tree.{exprs_of, arguments_of};
ghost use Rattle.path_grammar.specs.View.{literal_view, call_view, argument_view, comparable_view, expr_view, nested_view as query_tree};
ghost use Rattle.path_types.specs.Validity.{is_valid_comparable, is_valid_expr, are_valid_exprs};
ghost use Rattle.condition_reader.specs.Turns.{dealt};
ghost use Rattle.decisions.specs.Views.{constant_view as known_view};
ghost use Rattle.decisions.specs.Decided.{is_alone, is_free_call, are_free, is_free_argument, is_free, is_written, is_told_pair, is_told, are_told, whole, totals, literal_lengths, argument_lengths, lengths, call_lengths, side_literals, literals, all_literals, are_told_on};

use crate::making::literal;
use condition_reader::{Groups, grouped, parts_in};
use decimal_order::writes_whole_numbers;
use decisions::{Constant, Scale};
use itoa::Buffer;
use path_grammar::{Argument, Call, Comparable, Expr, Literal, SubQuery};
use path_types::judges_numbers;
use std::alloc::{AllocError, Global};

// Whether a query is `@` or `$` by itself.
fn is_alone(query: &SubQuery) -> bool
    ensures { result ≡ is_alone (query_tree query.now) }
{
    query.segments.is_empty()
}

#[cycle(free_calls)]
fn is_free_call(call: &Call) -> bool
    ensures { result ≡ is_free_call (call_view call.now) }
{
    are_free(&call.arguments)
}

#[cycle(free_calls)]
fn are_free(arguments: &[Argument]) -> bool
    ensures { result ≡ are_free (arguments_of (map argument_view arguments.now)) }
{
    let mut all = true;
    for argument in arguments {
        let is_free = is_free_argument(argument);
        all &= is_free;
    }
    all
}

#[cycle(free_calls)]
fn is_free_argument(argument: &Argument) -> bool
    ensures { result ≡ is_free_argument (argument_view argument.now) }
{
    match argument {
        Argument::Lit(_) => true,
        Argument::Nodes(query) => is_alone(query),
        Argument::Func(call) => is_free_call(call),
        Argument::Logical(_) => false,
    }
}

fn is_free(side: &Comparable) -> bool
    ensures { result ≡ is_free (comparable_view side.now) }
{
    match side {
        Comparable::Lit(_) => true,
        Comparable::Single(query) => is_alone(query),
        Comparable::Func(call) => is_free_call(call),
    }
}

fn is_written(side: &Comparable) -> bool
    ensures { result ≡ is_written (comparable_view side.now) }
{
    match side {
        Comparable::Lit(_) => true,
        Comparable::Single(_) | Comparable::Func(_) => false,
    }
}

fn is_told_pair(left: &Comparable, right: &Comparable, is_rooted: bool) -> bool
    ensures { result ≡ is_told_pair is_rooted (comparable_view left.now) (comparable_view right.now) }
{
    let may_be = is_written(left) || is_written(right) || is_rooted;
    may_be && is_free(left) && is_free(right)
}

// Whether a condition compares such sides, and such of which none is a literal only where it may.
#[cycle(telling)]
fn is_told(expr: &Expr, is_rooted: bool) -> bool
    ensures { result ≡ is_told is_rooted (expr_view expr.now) }
{
    match expr {
        Expr::Any(operands) => are_told(operands, is_rooted),
        Expr::Each(operands) => are_told(operands, is_rooted),
        Expr::Not(operand) => is_told(operand, is_rooted),
        Expr::Compare(left, _, right) => is_told_pair(left, right, is_rooted),
        Expr::Test(query) => is_alone(query),
        Expr::TestCall(_) => false,
    }
}

#[cycle(telling)]
fn are_told(operands: &[Expr], is_rooted: bool) -> bool
    ensures { result ≡ are_told is_rooted (exprs_of (map expr_view operands.now)) }
{
    let mut all = true;
    for operand in operands {
        let is_told = is_told(operand, is_rooted);
        all &= is_told;
    }
    all
}

fn digits_of(alloc: Global, n: usize) -> Result<Vec<u8>, AllocError>
    ensures { IfOk result (λ made. made.items ≡ decimal n) }
{
    let mut buffer = Buffer::new();
    buffer.format(n).as_bytes().to_vec(alloc)
}

fn whole(alloc: Global, n: usize) -> Result<Constant, AllocError>
    ensures { IfOk result (λ made. known_view made ≡ whole n) }
{
    judges_numbers();
    writes_whole_numbers();
    let digits = digits_of(alloc, n)?;
    let literal = Literal::Number(digits);
    Ok(Constant { literal })
}

// What a call counts of `@` or `$`, and of no nodes.
fn totals(alloc: Global) -> Result<Vec<Constant>, AllocError>
    ensures { IfOk result (λ made. map known_view made.items ≡ totals) }
{
    let mut made = Vec::new(alloc);
    let none = whole(alloc, 0)?;
    made.push(none)?;
    let one = whole(alloc, 1)?;
    made.push(one)?;
    Ok(made)
}

// Adds the length of a literal.
fn gather_length(
    alloc: Global,
    literal: &Literal,
    found: &mut Vec<Constant>,
) -> Result<(), AllocError>
    ensures { OnOk result (map known_view found.new.items ≡ map known_view found.old.items ++ literal_lengths (literal_view literal.now)) }
{
    match literal {
        Literal::Text(scalars) => {
            let length = whole(alloc, scalars.len())?;
            found.push(length)?;
            Ok(())
        }
        Literal::Number(_) | Literal::Bool(_) | Literal::Null => Ok(()),
    }
}

fn gather_argument(
    alloc: Global,
    argument: &Argument,
    found: &mut Vec<Constant>,
) -> Result<(), AllocError>
    ensures { OnOk result (map known_view found.new.items ≡ map known_view found.old.items ++ argument_lengths (argument_view argument.now)) }
{
    match argument {
        Argument::Lit(literal) => gather_length(alloc, literal, found),
        Argument::Nodes(_) | Argument::Func(_) | Argument::Logical(_) => Ok(()),
    }
}

// Adds the lengths of literals that are arguments.
fn gather_arguments(
    alloc: Global,
    arguments: &[Argument],
    found: &mut Vec<Constant>,
) -> Result<(), AllocError>
    ensures { OnOk result (map known_view found.new.items ≡ map known_view found.old.items ++ lengths (arguments_of (map argument_view arguments.now))) }
{
    for argument in arguments {
        gather_argument(alloc, argument, found)?;
    }
    Ok(())
}

fn gather_call(alloc: Global, call: &Call, found: &mut Vec<Constant>) -> Result<(), AllocError>
    ensures { OnOk result (map known_view found.new.items ≡ map known_view found.old.items ++ call_lengths (call_view call.now)) }
{
    gather_arguments(alloc, &call.arguments, found)
}

// Adds the literal that a side is, or the lengths of those that it is of.
fn gather_side(
    alloc: Global,
    side: &Comparable,
    found: &mut Vec<Constant>,
) -> Result<(), AllocError>
    requires valid { IsTrue (is_valid_comparable (comparable_view side.now)) }
    ensures { OnOk result (map known_view found.new.items ≡ map known_view found.old.items ++ side_literals (comparable_view side.now)) }
{
    match side {
        Comparable::Lit(written) => {
            let literal = literal(alloc, written)?;
            found.push(Constant { literal })?;
            Ok(())
        }
        Comparable::Func(call) => gather_call(alloc, call, found),
        Comparable::Single(_) => Ok(()),
    }
}

// Adds the literals that are compared.
#[cycle(gathering)]
fn gather(alloc: Global, expr: &Expr, found: &mut Vec<Constant>) -> Result<(), AllocError>
    requires valid { IsTrue (is_valid_expr (expr_view expr.now)) }
    ensures { OnOk result (map known_view found.new.items ≡ map known_view found.old.items ++ literals (expr_view expr.now)) }
{
    match expr {
        Expr::Any(operands) => gather_all(alloc, operands, found),
        Expr::Each(operands) => gather_all(alloc, operands, found),
        Expr::Not(operand) => gather(alloc, operand, found),
        Expr::Compare(left, _, right) => {
            gather_side(alloc, left, found)?;
            gather_side(alloc, right, found)
        }
        Expr::Test(_) | Expr::TestCall(_) => Ok(()),
    }
}

#[cycle(gathering)]
fn gather_all(alloc: Global, operands: &[Expr], found: &mut Vec<Constant>) -> Result<(), AllocError>
    requires valid { IsTrue (are_valid_exprs (exprs_of (map expr_view operands.now))) }
    ensures { OnOk result (map known_view found.new.items ≡ map known_view found.old.items ++ all_literals (exprs_of (map expr_view operands.now))) }
{
    for operand in operands {
        gather(alloc, operand, found)?;
    }
    Ok(())
}

// Gathers the literals of the operands with this number, and tells whether they are all told.
fn gather_group(
    alloc: Global,
    operands: &[Expr],
    numbers: &[usize],
    number: usize,
    is_rooted: bool,
    found: &mut Vec<Constant>,
) -> Result<bool, AllocError>
    requires valid { IsTrue (are_valid_exprs (exprs_of (map expr_view operands.now))) }
    requires each { length numbers.now ≡ length operands.now }
    ensures told { IfOk result (λ told. told ≡ are_told is_rooted (exprs_of (map expr_view (dealt numbers.now number operands.now)))) }
    ensures found { OnOk result (map known_view found.new.items ≡ map known_view found.old.items ++ all_literals (exprs_of (map expr_view (dealt numbers.now number operands.now)))) }
{
    let mut all = true;
    for i in 0..operands.len() {
        if numbers[i] != number {
            continue;
        }
        let is_told = is_told(&operands[i], is_rooted);
        all &= is_told;
        gather(alloc, &operands[i], found)?;
    }
    Ok(all)
}

// Whether some operand with this number compares sides of which none is a literal.
fn some_rooted(operands: &[Expr], numbers: &[usize], number: usize) -> bool {
    for i in 0..operands.len() {
        if i < numbers.len() && numbers[i] == number && !is_told(&operands[i], false) {
            return true;
        }
    }
    false
}

// How many comparisons there are in the operands with this number that are told.
fn told_parts(operands: &[Expr], numbers: &[usize], number: usize) -> usize {
    let mut sum: usize = 0;
    for i in 0..operands.len() {
        if i < numbers.len() && numbers[i] == number && is_told(&operands[i], true) {
            sum = sum.saturating_add(parts_in(&operands[i]));
        }
    }
    sum
}

// So many comparisons are made one by one.
const FEW: usize = 7;

/// The scale of the operands with this number, if they are told on one and there are more than a few comparisons in them. `AllocError` where a
/// growth was refused.
pub fn scale_of(
    alloc: Global,
    operands: &[Expr],
    numbers: &[usize],
    number: usize,
) -> Result<Option<Scale>, AllocError>
    requires valid { IsTrue (are_valid_exprs (exprs_of (map expr_view operands.now))) }
    requires each { length numbers.now ≡ length operands.now }
    ensures { IfOk result (λ made. IfSome made (λ scale. IsTrue (are_told_on scale (exprs_of (map expr_view (dealt numbers.now number operands.now)))))) }
{
    let is_rooted = some_rooted(operands, numbers, number);
    let mut found = totals(alloc)?;
    let told = gather_group(alloc, operands, numbers, number, is_rooted, &mut found)?;
    if !told || told_parts(operands, numbers, number) <= FEW {
        return Ok(None);
    }
    let scale = Scale::new(found, is_rooted)?;
    Ok(Some(scale))
}

// Gives these a number.
fn number_told(operands: &[Expr], numbers: &mut [usize], number: usize)
    requires { All (λ k. k ≤ number) numbers.old }
    ensures { All (λ k. k ≤ number) numbers.new }
{
    for i in 0..operands.len() {
        if i < numbers.len() && numbers[i] == 0 && is_told(&operands[i], true) {
            numbers[i] = number;
        }
    }
}

// The groups, and one more of the operands that are told and in none, if there are more than a few comparisons in them.
fn with_told(operands: &[Expr], groups: Groups) -> Result<Groups, AllocError>
    requires each { length groups.numbers.items ≡ length operands.now }
    requires below { All (λ k. k < groups.count) groups.numbers.items }
    ensures each { IfOk result (λ made. length made.numbers.items ≡ length operands.now) }
    ensures below { IfOk result (λ made. All (λ k. k < made.count) made.numbers.items) }
{
    if told_parts(operands, &groups.numbers, 0) <= FEW {
        return Ok(groups);
    }
    let number = groups.count;
    let mut numbers = groups.numbers;
    number_told(operands, &mut numbers, number);
    match number.checked_add(1) {
        None => Err(AllocError),
        Some(count) => Ok(Groups { numbers, count }),
    }
}

/// The operands of a list in groups, if there are any: those on one side, and those that are told on a scale.
pub fn in_groups(alloc: Global, operands: &[Expr]) -> Result<Option<Groups>, AllocError>
    ensures each { IfOk result (λ made. IfSome made (λ groups. length groups.numbers.items ≡ length operands.now)) }
    ensures below { IfOk result (λ made. IfSome made (λ groups. All (λ k. k < groups.count) groups.numbers.items)) }
{
    match grouped(alloc, operands)? {
        Some(groups) => {
            let groups = with_told(operands, groups)?;
            Ok(Some(groups))
        }
        None => in_one_group(alloc, operands),
    }
}

// All operands as one group, where none are on one side and enough of them are told.
fn in_one_group(alloc: Global, operands: &[Expr]) -> Result<Option<Groups>, AllocError>
    ensures each { IfOk result (λ made. IfSome made (λ groups. length groups.numbers.items ≡ length operands.now)) }
    ensures below { IfOk result (λ made. IfSome made (λ groups. All (λ k. k < groups.count) groups.numbers.items)) }
{
    let numbers = vec![in alloc; 0; operands.len()]?;
    if told_parts(operands, &numbers, 0) <= FEW {
        return Ok(None);
    }
    let groups = with_told(operands, Groups { numbers, count: 1 })?;
    Ok(Some(groups))
}
