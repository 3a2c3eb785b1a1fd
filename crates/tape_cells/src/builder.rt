// The tape builder: one call for each value that holds no other, and two for each container. What may come next, and which name waits
// for its value, is known where the calls are made.

ghost use Rattle.std.specs.Prelude.{◌≡◌, ◌^◌, ◌<◌, None, IfSome, MatchResult, true, false, IsErrOf};
ghost use Rattle.json_text.specs.Machine.{Opening, Closing, Word, step, IsSmall, Took, level_of, kind_of_shape, first_of, label_at};
ghost use Rattle.tape_cells.specs.Built.{standing, nothing};
ghost use Rattle.json_text.specs.Tape.{role_of, label_spot};
ghost use Rattle.tape_cells.specs.Cells.{IsNear, is_container};
ghost use Rattle.tape_cells.specs.Opened.{HasRoom};
ghost use Rattle.tape_cells.specs.Built.{top_of, depth_of, children_of};
ghost use Rattle.json_text.specs.Verdict.{text_limit};

use crate::compact::Tape;
use crate::growth::push;
use json_text::{BuildFault, Extent, Kind, Level, Open, Role, Seat, Shape, Want};
use std::alloc::Global;
use std::marker::Model;

/// The tape so far.
#[derive(Drop)]
pub struct Builder {
    tape: Tape,
    top: Open,
    outer: Vec<Open>,
    deepest: usize,
}

impl Model for Builder {
    ghost use Rattle.std.specs.Prelude.{◌∷◌, reverse};
    ghost use Rattle.tape_cells.specs.Built.{Built};
    ghost use Rattle.tape_cells.specs.Opened.{AreOpened};

    ghost Value = { Built };

    ghost view = { λ b. record { entries = b.tape; opens = b.top ∷ reverse b.outer.items; deep = b.deepest } };

    ghost invariant = { λ b. AreOpened b.tape (b.top ∷ reverse b.outer.items) };
}

impl Builder {
    /// Before the first token, with room for this many entries.
    pub fn new(alloc: Global, room: usize) -> Result<Builder, BuildFault>
        ensures { MatchResult result (λ b. b ≡ nothing) (λ f. f ≡ BuildFault.Memory) }
    {
        let Ok(tape) = Tape::new(alloc, room) else {
            return Err(BuildFault::Memory);
        };
        Ok(Builder {
            tape,
            top: Open {
                level: Level::Root,
                entry: 0,
                children: 0,
            },
            outer: Vec::new(alloc),
            deepest: 0,
        })
    }

    /// The number of the innermost container.
    #[inline(always)]
    pub fn number(&self) -> u32
        ensures { result ≡ top_of self.now.opens }
    {
        self.top.entry
    }

    /// How many levels lie around it: as many as there are containers with it.
    #[inline(always)]
    pub fn depth(&self) -> usize
        ensures { result ≡ depth_of self.now.opens }
    {
        self.outer.len()
    }

    /// How many children it has so far.
    #[inline(always)]
    pub fn count(&self) -> u32
        ensures { result ≡ children_of self.now.opens }
    {
        self.top.children
    }

    /// What the next value lies in.
    #[inline(always)]
    pub fn level(&self) -> Level
        ensures { result ≡ level_of self.now.opens }
    {
        self.top.level
    }

    /// A word, a number or a string that is a value, where this is what it lies in, and this its name in an object.
    #[inline(always)]
    pub fn leaf(
        &mut self,
        level: Level,
        name: Option<Extent>,
        source: Extent,
        kind: Kind,
    ) -> Result<(), BuildFault>
        requires small { IsSmall text_limit (standing self.old Want.Next None) }
        requires level { level ≡ level_of self.old.opens }
        requires name { IfSome name HasRoom }
        requires room { HasRoom source }
        requires scalar { is_container kind ≡ false }
        ensures { Took (step (Word source kind) (standing self.old Want.Value name)) result (standing self.new Want.Next None) }
    {
        let seat = seat_in(level, self.top, name);
        if self.tape.leaf(kind, seat, source).is_err() {
            return Err(BuildFault::Memory);
        }
        self.top.children += 1;
        Ok(())
    }

    /// An opening bracket or brace, where this is what it lies in, and this its name in an object.
    #[inline(always)]
    pub fn open(
        &mut self,
        level: Level,
        name: Option<Extent>,
        shape: Shape,
        place: u32,
    ) -> Result<(), BuildFault>
        requires small { IsSmall text_limit (standing self.old Want.Next None) }
        requires level { level ≡ level_of self.old.opens }
        requires name { IfSome name HasRoom }
        requires near { place < 2 ^ 24 }
        ensures { Took (step (Opening shape place) (standing self.old Want.Value name)) result (standing self.new (first_of shape) None) }
    {
        let number = self.tape.len();
        let seat = seat_in(level, self.top, name);
        if self.tape.open(kind_of(shape), seat, place).is_err() {
            return Err(BuildFault::Memory);
        }
        let outer = Open {
            level: self.top.level,
            entry: self.top.entry,
            children: self.top.children + 1,
        };
        if push(&mut self.outer, outer).is_err() {
            return Err(BuildFault::Memory);
        }
        self.deepest = self.deepest.max(self.outer.len());
        self.top = Open {
            level: Level::Inside(shape),
            entry: number,
            children: 0,
        };
        Ok(())
    }

    /// A closing bracket or brace, of the innermost container, which has this shape.
    #[inline(always)]
    pub fn close(&mut self, shape: Shape, place: u32) -> Result<(), BuildFault>
        requires level { level_of self.old.opens ≡ Level.Inside shape }
        requires near { place < 2 ^ 24 }
        ensures took { Took (step (Closing shape place) (standing self.old Want.Next None)) result (standing self.new Want.Next None) }
        ensures no_memory { IsErrOf result BuildFault.Memory → ⊥ }
    {
        match self.outer.pop() {
            None => Err(BuildFault::NotJson),
            Some(outer) => {
                self.tape.close(self.top.entry, place, self.top.children);
                self.top = outer;
                Ok(())
            }
        }
    }

    /// How many containers were open at most.
    pub fn deepest(&self) -> usize
        ensures { result ≡ self.now.deep }
    {
        self.deepest
    }

    /// The tape, without room for more.
    pub fn into_tape(self) -> Tape
        ensures { result ≡ self.entries }
    {
        let Builder {
            mut tape,
            top: _,
            outer: _,
            deepest: _,
        } = self;
        tape.shrink();
        tape
    }
}

// How the next value lies in this container, on this level.
#[inline(always)]
fn seat_in(level: Level, outer: Open, name: Option<Extent>) -> Seat
    requires children { outer.children < 2 ^ 24 }
    requires entry { outer.entry < 2 ^ 24 }
    requires name { IfSome name HasRoom }
    ensures role { result.role ≡ role_of (label_at level outer.children name) }
    ensures label { result.label ≡ label_spot (label_at level outer.children name) }
    ensures up { result.up ≡ outer.entry }
    ensures near { IsNear result }
{
    let (role, label) = match (level, name) {
        (Level::Inside(Shape::Array), _) => (
            Role::Element,
            Extent {
                start: outer.children,
                len: 0,
            },
        ),
        (Level::Inside(Shape::Object), Some(spot)) => (Role::Member, spot),
        _ => (Role::Whole, Extent { start: 0, len: 0 }),
    };
    Seat {
        role,
        label,
        up: outer.entry,
    }
}

fn kind_of(shape: Shape) -> Kind
    ensures value { result ≡ kind_of_shape shape }
    ensures container { is_container result ≡ true }
{
    match shape {
        Shape::Array => Kind::Array,
        Shape::Object => Kind::Object,
    }
}
