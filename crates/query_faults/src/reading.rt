//! A query read byte by byte: what may come next, what is open, and the first part that breaks a rule.

use crate::classes::{
    decimal_next, inside_next, is_blank, is_digit, is_first, is_function, is_lower, is_short,
    may_end,
};
use crate::rules::{Rule, argument_rule, is_known, literal_rule, whole_rule};
use crate::states::{Decimal, Frame, Inside, Now, Operand, Part, Side, Whole};
use std::alloc::{AllocError, Global};

/// The most filters, parentheses and argument lists inside one another.
pub const LEVEL_LIMIT: usize = 32;

// What a byte did: it was taken, it is to be read again in the new state, or it cannot stand.
#[derive(Clone, Copy)]
enum Did {
    Take,
    Again,
    Refuse,
    TooDeep,
}

/// Whether the innermost query selects one node at most, since it is the right side of a comparison.
pub fn is_bound(innermost: Option<Frame>) -> bool {
    matches!(
        innermost,
        Some(
            Frame::Query {
                side: Some(Side::Right),
                ..
            } | Frame::Bracket { bound: true, .. }
        )
    )
}

// These bytes of a text, or none if it does not have them.
fn part_of(text: &[u8], start: usize, end: usize) -> &[u8] {
    match text.get(start..end) {
        Some(bytes) => bytes,
        None => &text[..0],
    }
}

/// A query read so far.
#[derive(Drop)]
pub struct Reading<'a> {
    text: &'a [u8],
    pub now: Now,
    frames: Vec<Frame>,
    levels: usize,
    // where the word, the number or the operand that is read began
    start: usize,
    operand: usize,
    /// Whether a level above the limit was to be opened.
    pub is_too_deep: bool,
    /// The first part that breaks a rule.
    pub broken: Option<(usize, Rule)>,
}

impl<'a> Reading<'a> {
    /// Before the first byte.
    pub fn new(alloc: Global, text: &'a [u8]) -> Reading<'a> {
        Reading {
            text,
            now: Now::Root,
            frames: Vec::new(alloc),
            levels: 0,
            start: 0,
            operand: 0,
            is_too_deep: false,
            broken: None,
        }
    }

    /// Takes the byte at a place, unless it cannot stand there.
    pub fn take(&mut self, at: usize, b: u8) -> Result<bool, AllocError> {
        for _ in 0..8 {
            match self.step(at, b)? {
                Did::Take => return Ok(true),
                Did::Again => {}
                Did::Refuse => return Ok(false),
                Did::TooDeep => {
                    self.is_too_deep = true;
                    return Ok(false);
                }
            }
        }
        Ok(false)
    }

    /// Whether the query may end here.
    pub fn may_end(&self) -> bool {
        let is_whole = matches!(self.now, Now::Segment { blank: false } | Now::Short);
        is_whole && self.frames.len() == 1
    }

    /// The innermost that is open.
    pub fn innermost(&self) -> Option<Frame> {
        self.frames.last().copied()
    }

    // Keeps a broken rule, if it is the first.
    fn mark_rule(&mut self, at: usize, rule: Rule) {
        match self.broken {
            Some((before, _)) if before <= at => {}
            _ => self.broken = Some((at, rule)),
        }
    }

    fn to(&mut self, now: Now) -> Did {
        self.now = now;
        Did::Take
    }

    fn again(&mut self, now: Now) -> Did {
        self.now = now;
        Did::Again
    }

    fn step(&mut self, at: usize, b: u8) -> Result<Did, AllocError> {
        match self.now {
            Now::Root if b == b'$' => self.query(None),
            Now::Root => Ok(Did::Refuse),
            Now::Segment { .. } => self.segment(b),
            Now::Dot | Now::Dots => self.dotted(b),
            Now::Short if is_short(b) => Ok(Did::Take),
            Now::Short => Ok(self.again(Now::Segment { blank: false })),
            Now::Selector => self.selector(at, b),
            Now::BehindSelector => Ok(self.behind_selector(b)),
            Now::Number(part, whole) => Ok(self.number(at, b, part, whole)),
            Now::Name { quote, inside } => Ok(self.name(b, quote, inside)),
            Now::Operand(side) => self.expression(at, b, side),
            Now::Arguments => self.arguments(at, b),
            Now::Text {
                quote,
                inside,
                side,
            } => Ok(self.quoted(b, quote, inside, side)),
            Now::Literal(decimal, side) => Ok(self.literal(at, b, decimal, side)),
            Now::Word(side) => self.word(at, b, side),
            Now::Compared(sign) => Ok(self.compared(b, sign)),
            Now::Joined(sign) if b == sign => Ok(self.to(Now::Operand(Side::Left))),
            Now::Joined(_) => Ok(Did::Refuse),
            Now::Behind(side, operand) => Ok(self.behind(at, b, side, operand)),
        }
    }

    // Begins a query: that of the whole text, or one in a filter.
    fn query(&mut self, side: Option<Side>) -> Result<Did, AllocError> {
        self.frames.push(Frame::Query {
            side,
            singular: true,
        })?;
        Ok(self.to(Now::Segment { blank: false }))
    }

    // The innermost query selects more than one name or index.
    fn is_plural(&mut self) {
        if let Some(Frame::Query { side, .. }) = self.frames.pop() {
            let _ = self.frames.push(Frame::Query {
                side,
                singular: false,
            });
        }
    }

    // The brackets hold more than one name or index.
    fn is_no_single(&mut self) {
        if let Some(Frame::Bracket { bound, .. }) = self.frames.pop() {
            let _ = self.frames.push(Frame::Bracket {
                single: false,
                bound,
            });
        }
    }

    fn segment(&mut self, b: u8) -> Result<Did, AllocError> {
        if is_blank(b) {
            return Ok(self.to(Now::Segment { blank: true }));
        }
        if b == b'[' {
            return self.bracket();
        }
        if b == b'.' {
            return Ok(self.to(Now::Dot));
        }
        match self.frames.last().copied() {
            Some(
                Frame::Query {
                    side: Some(side),
                    singular,
                },
            ) => {
                let _ = self.frames.pop();
                let operand = if singular {
                    Operand::Singular
                } else {
                    Operand::Query
                };
                Ok(self.again(Now::Behind(side, operand)))
            }
            _ => Ok(Did::Refuse),
        }
    }

    fn bracket(&mut self) -> Result<Did, AllocError> {
        let bound = is_bound(self.innermost());
        self.frames.push(Frame::Bracket {
            single: true,
            bound,
        })?;
        Ok(self.to(Now::Selector))
    }

    // Behind one dot or two.
    fn dotted(&mut self, b: u8) -> Result<Did, AllocError> {
        let is_first_dot = self.now == Now::Dot;
        if is_first(b) {
            return Ok(self.to(Now::Short));
        }
        let is_bound = is_bound(self.innermost());
        match b {
            b'*' | b'.' if is_bound => Ok(Did::Refuse),
            b'*' => {
                self.is_plural();
                Ok(self.to(Now::Segment { blank: false }))
            }
            b'.' if is_first_dot => {
                self.is_plural();
                Ok(self.to(Now::Dots))
            }
            b'[' if !is_first_dot => self.bracket(),
            _ => Ok(Did::Refuse),
        }
    }

    fn selector(&mut self, at: usize, b: u8) -> Result<Did, AllocError> {
        if is_blank(b) {
            return Ok(Did::Take);
        }
        self.start = at;
        let is_bound = is_bound(self.innermost());
        match b {
            b'*' | b'?' | b':' if is_bound => Ok(Did::Refuse),
            b'\'' | b'"' => Ok(self.to(Now::Name {
                quote: b,
                inside: Inside::Between,
            })),
            b'*' => {
                self.is_no_single();
                Ok(self.to(Now::BehindSelector))
            }
            b'?' => {
                if self.levels >= LEVEL_LIMIT {
                    return Ok(Did::TooDeep);
                }
                self.is_no_single();
                self.frames.push(Frame::Filter)?;
                self.levels = self.levels.saturating_add(1);
                Ok(self.to(Now::Operand(Side::Left)))
            }
            b':' => {
                self.is_no_single();
                Ok(self.to(Now::Number(Part::End, Whole::Before)))
            }
            _ => Ok(self.begin_number(at, b, Part::Start)),
        }
    }

    fn begin_number(&mut self, at: usize, b: u8, part: Part) -> Did {
        self.start = at;
        match b {
            b'-' => self.to(Now::Number(part, Whole::Minus)),
            b'0' => self.to(Now::Number(part, Whole::Zero)),
            b'1'..=b'9' => self.to(Now::Number(part, Whole::Digits)),
            _ => Did::Refuse,
        }
    }

    fn behind_selector(&mut self, b: u8) -> Did {
        if is_blank(b) {
            return Did::Take;
        }
        let is_bound = is_bound(self.innermost());
        match b {
            b',' if is_bound => Did::Refuse,
            b',' => {
                self.is_no_single();
                self.to(Now::Selector)
            }
            b']' => {
                let is_single = matches!(
                    self.frames.pop(),
                    Some(Frame::Bracket { single: true, .. })
                );
                if !is_single {
                    self.is_plural();
                }
                self.to(Now::Segment { blank: false })
            }
            _ => Did::Refuse,
        }
    }

    // A number of an index or a slice.
    fn number(&mut self, at: usize, b: u8, part: Part, whole: Whole) -> Did {
        match whole {
            Whole::Minus if matches!(b, b'1'..=b'9') => {
                return self.to(Now::Number(part, Whole::Digits));
            }
            Whole::Minus => return Did::Refuse,
            Whole::Digits if is_digit(b) => return Did::Take,
            Whole::Before if b == b'-' || is_digit(b) => return self.begin_number(at, b, part),
            Whole::Before if is_blank(b) => return Did::Take,
            Whole::Digits | Whole::Zero => {
                let start = self.start;
                if let Some(rule) = whole_rule(part_of(self.text, start, at)) {
                    self.mark_rule(start, rule);
                }
            }
            Whole::Before | Whole::Behind => {}
        }
        if is_blank(b) {
            return self.to(Now::Number(part, Whole::Behind));
        }
        let is_bound = is_bound(self.innermost());
        match (b, part) {
            (b':', _) if is_bound => Did::Refuse,
            (b':', Part::Start) => {
                self.is_no_single();
                self.to(Now::Number(Part::End, Whole::Before))
            }
            (b':', Part::End) => self.to(Now::Number(Part::Step, Whole::Before)),
            (b',' | b']', _) => self.again(Now::BehindSelector),
            _ => Did::Refuse,
        }
    }

    fn name(&mut self, b: u8, quote: u8, inside: Inside) -> Did {
        if inside == Inside::Between && b == quote {
            return self.to(Now::BehindSelector);
        }
        match inside_next(inside, b, quote) {
            Some(inside) => self.to(Now::Name { quote, inside }),
            None => Did::Refuse,
        }
    }

    fn quoted(&mut self, b: u8, quote: u8, inside: Inside, side: Side) -> Did {
        if inside == Inside::Between && b == quote {
            return self.to(Now::Behind(side, Operand::Literal));
        }
        match inside_next(inside, b, quote) {
            Some(inside) => self.to(Now::Text {
                quote,
                inside,
                side,
            }),
            None => Did::Refuse,
        }
    }

    fn literal(&mut self, at: usize, b: u8, decimal: Decimal, side: Side) -> Did {
        match decimal_next(decimal, b) {
            Some(next) => self.to(Now::Literal(next, side)),
            None if may_end(decimal) => {
                let start = self.operand;
                if let Some(rule) = literal_rule(part_of(self.text, start, at)) {
                    self.mark_rule(start, rule);
                }
                self.again(Now::Behind(side, Operand::Literal))
            }
            None => Did::Refuse,
        }
    }

    // The argument of the innermost call is no longer one literal, query or call alone.
    fn is_logical(&mut self) {
        if let Some(
            Frame::Call {
                start,
                end,
                side,
                arguments,
                argument,
                ..
            },
        ) = self.frames.last().copied()
        {
            let _ = self.frames.pop();
            let _ = self.frames.push(Frame::Call {
                start,
                end,
                side,
                arguments,
                argument,
                plain: false,
            });
        }
    }

    // The first byte of an operand.
    fn expression(&mut self, at: usize, b: u8, side: Side) -> Result<Did, AllocError> {
        if is_blank(b) {
            return Ok(Did::Take);
        }
        self.start = at;
        self.operand = at;
        if b == b'@' || b == b'$' {
            return self.query(Some(side));
        }
        if is_lower(b) {
            return Ok(self.to(Now::Word(side)));
        }
        match b {
            b'!' if side == Side::Left => {
                self.is_logical();
                Ok(self.to(Now::Operand(Side::Negated)))
            }
            b'(' if side != Side::Right => {
                if self.levels >= LEVEL_LIMIT {
                    return Ok(Did::TooDeep);
                }
                self.is_logical();
                self.frames.push(Frame::Paren { side })?;
                self.levels = self.levels.saturating_add(1);
                Ok(self.to(Now::Operand(Side::Left)))
            }
            _ if side == Side::Negated => Ok(Did::Refuse),
            b'\'' | b'"' => Ok(self.to(Now::Text {
                quote: b,
                inside: Inside::Between,
                side,
            })),
            b'-' => Ok(self.to(Now::Literal(Decimal::Minus, side))),
            b'0' => Ok(self.to(Now::Literal(Decimal::Zero, side))),
            b'1'..=b'9' => Ok(self.to(Now::Literal(Decimal::Int, side))),
            _ => Ok(Did::Refuse),
        }
    }

    // Behind the parenthesis of a call.
    fn arguments(&mut self, at: usize, b: u8) -> Result<Did, AllocError> {
        if is_blank(b) {
            return Ok(Did::Take);
        }
        if b == b')' {
            self.mark_rule(at, Rule::OneArgument);
            return Ok(self.end_call());
        }
        self.begin_argument(at);
        Ok(self.again(Now::Operand(Side::Left)))
    }

    // One more argument, which begins there.
    fn begin_argument(&mut self, at: usize) {
        if let Some(
            Frame::Call {
                start,
                end,
                side,
                arguments,
                ..
            },
        ) = self.frames.last().copied()
        {
            let _ = self.frames.pop();
            let _ = self.frames.push(Frame::Call {
                start,
                end,
                side,
                arguments: arguments.saturating_add(1),
                argument: at,
                plain: true,
            });
        }
    }

    fn end_call(&mut self) -> Did {
        self.levels = self.levels.saturating_sub(1);
        match self.frames.pop() {
            Some(Frame::Call { start, side, .. }) => {
                self.operand = start;
                self.to(Now::Behind(side, Operand::Function))
            }
            _ => Did::Refuse,
        }
    }

    fn word(&mut self, at: usize, b: u8, side: Side) -> Result<Did, AllocError> {
        if is_function(b) {
            return Ok(Did::Take);
        }
        let start = self.start;
        let word = part_of(self.text, start, at);
        if b == b'(' {
            if self.levels >= LEVEL_LIMIT {
                return Ok(Did::TooDeep);
            }
            if !is_known(word) {
                self.mark_rule(start, Rule::of_name(word));
            }
            self.frames.push(Frame::Call {
                start,
                end: at,
                side,
                arguments: 0,
                argument: at,
                plain: true,
            })?;
            self.levels = self.levels.saturating_add(1);
            return Ok(self.to(Now::Arguments));
        }
        let is_literal = matches!(word, b"true" | b"false" | b"null");
        if is_literal && side != Side::Negated {
            return Ok(self.again(Now::Behind(side, Operand::Literal)));
        }
        Ok(Did::Refuse)
    }

    fn compared(&mut self, b: u8, sign: u8) -> Did {
        let is_order = sign == b'<' || sign == b'>';
        match (b, is_order) {
            (b'=', _) => self.to(Now::Operand(Side::Right)),
            (_, true) => self.again(Now::Operand(Side::Right)),
            _ => Did::Refuse,
        }
    }

    // A byte behind an operand.
    fn behind(&mut self, at: usize, b: u8, side: Side, operand: Operand) -> Did {
        if is_blank(b) {
            return Did::Take;
        }
        let is_compared = matches!(
            operand,
            Operand::Literal | Operand::Singular | Operand::Function
        );
        if matches!(b, b'=' | b'!' | b'<' | b'>') {
            if side != Side::Left || !is_compared {
                return Did::Refuse;
            }
            self.is_logical();
            return self.to(Now::Compared(b));
        }
        let is_argument = matches!(self.innermost(), Some(Frame::Call { plain: true, .. }));
        if side == Side::Left
            && operand == Operand::Literal
            && !(is_argument && b != b'&' && b != b'|')
        {
            return Did::Refuse;
        }
        if operand == Operand::Function && side != Side::Right {
            if !is_argument || b == b'&' || b == b'|' {
                self.mark_rule(self.operand, Rule::FunctionAsTest);
            }
        }
        match (b, self.innermost()) {
            (b'&' | b'|', _) => {
                self.is_logical();
                self.to(Now::Joined(b))
            }
            (b',' | b']', Some(Frame::Filter)) => {
                self.levels = self.levels.saturating_sub(1);
                let _ = self.frames.pop();
                self.again(Now::BehindSelector)
            }
            (b')', Some(Frame::Paren { side })) => {
                self.levels = self.levels.saturating_sub(1);
                let _ = self.frames.pop();
                self.to(Now::Behind(side, Operand::Group))
            }
            (
                b',' | b')',
                Some(
                    Frame::Call {
                        start,
                        end,
                        arguments,
                        argument,
                        plain,
                        ..
                    },
                ),
            ) => {
                if arguments > 1 {
                    self.mark_rule(argument, Rule::OneArgument);
                }
                let kind = if plain { operand } else { Operand::Group };
                if let Some(rule) = argument_rule(part_of(self.text, start, end), kind) {
                    self.mark_rule(argument, rule);
                }
                if b == b')' {
                    return self.end_call();
                }
                self.begin_argument(at.saturating_add(1));
                self.to(Now::Operand(Side::Left))
            }
            _ => Did::Refuse,
        }
    }
}
