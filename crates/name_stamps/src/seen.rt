// The duplicate check of a walk: names are seen by their stamps.

ghost use Rattle.std.specs.Prelude.{◌≡◌, ℕ, List, ◌+◌, ◌<◌, ◌≤◌, length, false, OnOk, IfOk, IfSome, IsTrue};
ghost use Rattle.tape_cells.specs.Built.{nothing, top_of, children_of};
ghost use Rattle.name_stamps.specs.Stamps.{DuplicateCheck, HasTable, IsStamped, HasSlot, AddsSuspect, IsUnsuspected, IsFree, IsPut, IsInserted, stamp, mark_of as marked};
ghost use Rattle.json_text.specs.Suspects.{narrow};

use json_strings::{bytes_word, mixed};
use json_text::Extent;
use std::alloc::{AllocError, Global};
use structural_index::Batch;
use tape_cells::{Builder, push};

/// How many stamps there are.
pub const STAMPS: usize = 131_072;

// The most members of an object that keeps no order.
const NARROW: u32 = 64;

// Objects with fewer containers around them have a table each, so that an object within another takes nothing from its marks.
const DEPTHS: usize = 8;

// So many places are looked at for a name, from that of its stamp on.
const PROBES: usize = 8;

// The places of a table: one for each of the nine highest bits of a stamp, and those that are looked at behind the last one.
const TABLE: usize = 520;

const MARKS: usize = 4160;

/// A string, and whether its bytes were passed without a look.
#[derive(Clone, Copy)]
pub struct Quoted {
    pub source: Extent,
    pub passed: bool,
}

/// A name, and its stamp where none of its bytes is a backslash.
#[derive(Clone, Copy)]
pub struct StampedName {
    pub source: Extent,
    pub stamp: Option<usize>,
}

/// An object whose names are inserted: its number, and where its table begins.
#[derive(Clone, Copy)]
pub struct Slot {
    pub number: u32,
    pub table: usize,
}

/// The names seen so far. `marks` has a table for each depth. A mark is the last byte of an object's number in front of that of a stamp. It stands
/// at the place that the stamp's other bits tell, or behind it, where all places between have marks of the same object.
/// `suspects` has the objects that may have a repeated name: those where a stamp came twice, or found no place, and those with many members.
#[derive(Drop)]
pub struct SeenNames {
    pub marks: [u16; MARKS],
    pub suspects: Vec<u32>,
}

/// The stamp of a hash: its seventeen highest bits.
#[inline(always)]
#[tactic(auto, unfolding(crate::specs::Stamps::stamp))]
pub fn stamp_of(half: u32) -> usize
    ensures value { result ≡ stamp half }
    ensures small { result < STAMPS }
{
    (half / 32_768) as usize
}

/// A name with its stamp, whose bytes are looked at if they were not before.
#[inline(always)]
pub fn stamped(looks: &mut Batch<'_>, name: Quoted) -> StampedName
    requires within { IsTrue name.passed → (2 ≤ name.source.len) × (name.source.start + name.source.len ≤ length looks.old.0) }
    ensures source { result.source ≡ name.source }
    ensures stamp { IsStamped looks.old.0 name.source result.stamp }
    ensures same { looks.new.0 ≡ looks.old.0 }
    ensures looked { looks.new.1 ≤ looks.old.1 + name.source.len }
    ensures unlooked { name.passed ≡ false → looks.new.1 ≡ looks.old.1 }
{
    let source = name.source;
    if !name.passed {
        return StampedName {
            source,
            stamp: None,
        };
    }
    let start = source.start as usize;
    match looks.slashless(start, start + source.len as usize) {
        Some(bytes) => StampedName {
            source,
            stamp: Some(stamp_of(mixed(bytes_word(bytes)))),
        },
        None => StampedName {
            source,
            stamp: None,
        },
    }
}

// The mark of a stamp of the object with this number.
#[inline(always)]
#[tactic(auto, unfolding(crate::specs::Stamps::mark_of))]
fn mark_of(number: u32, stamp: usize) -> u16
    ensures { result ≡ marked number stamp }
{
    (number % 256) as u16 * 256 + (stamp % 256) as u16
}

// The first place of several, from one on, whose mark is of another object, unless this mark stands before it.
fn free_place(marks: &[u16], from: usize, mark: u16) -> Option<usize>
    requires { from + PROBES ≤ length marks.now }
    ensures free { IfSome result (IsFree marks.now from mark) }
    ensures inside { IfSome result (λ place. place < length marks.now) }
{
    for i in 0..PROBES {
        let found = marks[from + i];
        if found == mark {
            return None;
        }
        if found / 256 != mark / 256 {
            return Some(from + i);
        }
    }
    None
}

impl SeenNames {
    /// No name yet.
    pub fn new(alloc: Global) -> SeenNames
        ensures { (text : List ℕ) → DuplicateCheck text nothing result }
    {
        SeenNames {
            marks: [u16::MAX; MARKS],
            suspects: Vec::new(alloc),
        }
    }

    #[cold]
    #[inline(never)]
    fn add_suspect(&mut self, number: u32) -> Result<(), AllocError>
        ensures { OnOk result (AddsSuspect number self.old self.new) }
    {
        push(&mut self.suspects, number)
    }

    /// The slot of the innermost container, an object. One too deep for a table is a suspect.
    #[inline(always)]
    pub fn take_slot(&mut self, builder: &Builder) -> Result<Slot, AllocError>
        ensures has_slot { IfOk result (λ slot. HasSlot builder.now slot self.new) }
        ensures checked { IfOk result (λ slot. (text : List ℕ) → DuplicateCheck text builder.now self.old → DuplicateCheck text builder.now self.new) }
        ensures table { IfOk result HasTable }
    {
        let number = builder.number();
        let depth = builder.depth();
        if depth < DEPTHS {
            return Ok(Slot {
                number,
                table: depth * TABLE,
            });
        }
        self.add_suspect(number)?;
        Ok(Slot { number, table: 0 })
    }

    // Inserts a mark of an object of which one stands at the mark's place.
    #[cold]
    #[inline(never)]
    #[tactic(auto, using(crate::proofs::CheckKept::put_free))]
    fn insert_behind(&mut self, number: u32, from: usize, mark: u16) -> Result<(), AllocError>
        requires { from + PROBES ≤ length self.old.marks }
        ensures { OnOk result (IsPut number from mark self.old self.new) }
    {
        match free_place(&self.marks, from, mark) {
            Some(place) => {
                self.marks[place] = mark;
                Ok(())
            }
            None => self.add_suspect(number),
        }
    }

    /// Inserts a name of the slot's object. If it has no stamp, one that the object has already, or no place, the object is a suspect.
    #[inline(always)]
    #[tactic(auto, using(crate::proofs::CheckKept::put_first))]
    pub fn insert(&mut self, slot: Slot, stamp: Option<usize>) -> Result<(), AllocError>
        requires long { length self.old.marks ≡ MARKS }
        requires table { HasTable slot }
        requires stamp { IfSome stamp (λ s. s < STAMPS) }
        ensures { OnOk result (IsInserted slot stamp self.old self.new) }
    {
        let Some(stamp) = stamp else {
            return self.add_suspect(slot.number);
        };
        let from = slot.table + stamp / 256;
        let mark = mark_of(slot.number, stamp);
        if self.marks[from] / 256 == mark / 256 {
            return self.insert_behind(slot.number, from, mark);
        }
        self.marks[from] = mark;
        Ok(())
    }

    /// Makes the innermost container a suspect if it has more children than a narrow object.
    #[inline(always)]
    pub fn suspect_if_wide(&mut self, builder: &Builder) -> Result<(), AllocError>
        ensures checked { OnOk result ((text : List ℕ) → DuplicateCheck text builder.now self.old → DuplicateCheck text builder.now self.new) }
        ensures few { OnOk result (IsUnsuspected self.new (top_of builder.now.opens) → children_of builder.now.opens ≤ narrow) }
    {
        if builder.count() <= NARROW {
            return Ok(());
        }
        self.add_suspect(builder.number())
    }
}
