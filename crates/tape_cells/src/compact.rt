//! The entries of a text in few bytes: 16 for each value, and 12 more for each container.

ghost use Rattle.std.specs.Prelude.{◌≡◌, ◌+◌, ◌++◌, ◌∷◌, [], ◌<◌, ◌≤◌, ◌^◌, IfOk, OnOk, OnErr, true, false, length, slice_index_or};
ghost use Rattle.json_text.specs.Machine.{change_at, closed};
ghost use Rattle.tape_cells.specs.Cells.{IsNear, is_container, members_in, container_at, leaf_entry, open_entry};

use crate::cells::{Cell, Side};
use crate::growth::push;
use json_text::{Entry, Extent, Kind, Seat};
use std::alloc::{AllocError, Global};
use std::marker::Model;

// The bytes of a cell, and those of a side.
const CELL_BYTES: usize = 16;

const SIDE_BYTES: usize = 12;

/// The entries of the values that were met, depth first, each found by its number in constant time.
#[derive(Drop)]
pub struct Tape {
    cells: Vec<Cell>,
    // one for each container, in the order of the cells
    sides: Vec<Side>,
}

impl Model for Tape {
    ghost use Rattle.std.specs.Prelude.{List};
    ghost use Rattle.tape_cells.specs.Cells.{entries_of, IsTape};
    ghost use Rattle.json_text.specs.declared.tape.Entry.{Entry};

    ghost Value = { List Entry };

    ghost view = { λ t. entries_of t.cells.items t.sides.items };

    ghost invariant = { λ t. IsTape t.cells.items t.sides.items };
}

impl Tape {
    /// No entry, with room for so many.
    #[tactic(auto, unfolding(crate::specs::Cells::entries_of))]
    pub fn new(alloc: Global, room: usize) -> Result<Tape, AllocError>
        ensures { IfOk result (λ tape. tape ≡ []) }
    {
        let cells = Vec::with_capacity(alloc, room)?;
        Ok(Tape {
            cells,
            sides: Vec::new(alloc),
        })
    }

    /// The bytes of memory that the entries take.
    pub fn memory(&self) -> usize {
        let cells = self.cells.capacity().saturating_mul(CELL_BYTES);
        cells.saturating_add(self.sides.capacity().saturating_mul(SIDE_BYTES))
    }

    /// How many entries there are.
    pub fn len(&self) -> u32
        ensures value { result ≡ length self.now }
        ensures small { result ≤ 2 ^ 24 }
    {
        self.cells.len() as u32
    }

    /// The entry with this number.
    #[inline(always)]
    pub fn entry(&self, n: u32) -> Entry
        requires { n < length self.now }
        ensures { result ≡ slice_index_or self.now n result }
    {
        let cell = self.cells[n as usize];
        let start = cell.start();
        let (len, children, after) = if cell.holds() {
            let side = self.sides[cell.span() as usize];
            (side.end.saturating_sub(start), side.children, side.after)
        } else {
            (cell.span(), 0, n + 1)
        };
        Entry {
            kind: cell.kind(),
            role: cell.role(),
            label: cell.label(),
            source: Extent { start, len },
            up: cell.up(),
            children,
            after,
        }
    }

    /// The number of the first entry past this one's and all that is in it.
    #[inline(always)]
    pub fn after(&self, n: u32) -> u32
        requires { n < length self.now }
        ensures { (e : Entry) → e ≡ slice_index_or self.now n e → result ≡ e.after }
    {
        let cell = self.cells[n as usize];
        if cell.holds() {
            self.sides[cell.span() as usize].after
        } else {
            n + 1
        }
    }

    /// One more value that holds no other.
    #[inline(always)]
    pub fn leaf(&mut self, kind: Kind, seat: Seat, source: Extent) -> Result<(), AllocError>
        requires scalar { is_container kind ≡ false }
        requires seat { IsNear seat }
        requires start { source.start < 2 ^ 24 }
        requires len { source.len < 2 ^ 24 }
        requires room { length self.old < 2 ^ 24 }
        ensures added { OnOk result (self.new ≡ self.old ++ leaf_entry kind seat source (length self.old) ∷ []) }
        ensures kept { OnErr result (self.new ≡ self.old) }
    {
        push(
            &mut self.cells,
            Cell::new(kind, seat, source.start, source.len),
        )?;
        Ok(())
    }

    /// One more container, which begins here and is not closed yet.
    #[tactic(auto, using(crate::proofs::Sides::containers_few, crate::proofs::Sides::entries_many, crate::proofs::Sides::holder_kind, crate::proofs::Sides::container_added))]
    #[inline(always)]
    pub fn open(&mut self, kind: Kind, seat: Seat, place: u32) -> Result<(), AllocError>
        requires container { is_container kind ≡ true }
        requires seat { IsNear seat }
        requires place { place < 2 ^ 24 }
        requires room { length self.old < 2 ^ 24 }
        ensures added { OnOk result (self.new ≡ self.old ++ open_entry kind seat place ∷ []) }
        ensures kept { OnErr result (self.new ≡ self.old) }
    {
        let number = self.sides.len() as u32;
        let side = Side {
            end: 0,
            children: 0,
            after: 0,
        };
        push(&mut self.sides, side)?;
        match push(&mut self.cells, Cell::new(kind, seat, place, number)) {
            Ok(()) => Ok(()),
            Err(_) => {
                self.sides.pop();
                Err(AllocError)
            }
        }
    }

    /// Closes the container with this number behind this place.
    #[tactic(auto, using(crate::proofs::Sides::closing_inside, crate::proofs::Sides::side_inside, crate::proofs::Sides::entries_many, crate::proofs::Sides::closing_done))]
    pub fn close(&mut self, number: u32, place: u32, children: u32)
        requires container { container_at self.old number ≡ true }
        requires place { place < 2 ^ 24 }
        ensures { self.new ≡ change_at self.old number (closed place children (length self.old)) }
    {
        let side = self.cells[number as usize].span() as usize;
        self.sides[side] = Side {
            end: place + 1,
            children,
            after: self.cells.len() as u32,
        };
    }

    /// Gives back the room for more entries.
    pub fn shrink(&mut self)
        ensures { self.new ≡ self.old }
    {
        self.cells.shrink_to_fit();
        self.sides.shrink_to_fit();
    }

    /// How many members it has, where it is an object, and otherwise 0.
    #[tactic(auto, using(crate::proofs::Sides::object_holds, crate::proofs::Sides::side_inside, crate::proofs::Sides::entries_many, std::proofs::Common::slice_index_or, crate::proofs::Sides::members_shown, crate::proofs::Sides::no_members_shown))]
    #[inline(always)]
    pub fn members(&self, n: u32) -> u32
        requires { n < length self.now }
        ensures { (e : Entry) → e ≡ slice_index_or self.now n e → result ≡ members_in e }
    {
        let cell = self.cells[n as usize];
        if cell.is_object() {
            self.sides[cell.span() as usize].children
        } else {
            0
        }
    }

    /// A member's name, or a start that is an element's index.
    #[inline(always)]
    pub fn label(&self, n: u32) -> Extent
        requires { n < length self.now }
        ensures { (e : Entry) → e ≡ slice_index_or self.now n e → result ≡ e.label }
    {
        self.cells[n as usize].label()
    }
}
