//! Builds the tape of a text from the places of its index (Langdale and Lemire, "Parsing Gigabytes of JSON per Second", section 3.2).
//! The position in the code is the state of the walk, so that it looks only for what may come next. That is a child (in an object a name, a
//! colon and a value), and after it the comma or the end.

ghost use Rattle.std.specs.Prelude.{◌≡◌, ◌≢◌, ◌+◌, ◌-◌, ◌^◌, ◌<◌, ◌≤◌, ℕ, List, Bool, None, length, get_or, IfOk, OnOk, IfSome, IsUtf8, IsErrOf, IsTrue, true, false};
ghost use Rattle.structural_index.specs.Answer.{IsIndexOf};
ghost use Rattle.json_text.specs.Machine.{Closing, IsSmall, Took, step, level_of};
ghost use Rattle.tape_cells.specs.Built.{Built, standing, nothing, top_of, children_of};
ghost use Rattle.json_text.specs.Limits.{AreWithinLimits};
ghost use Rattle.json_text.specs.Answer.{IsJson, StandsForAll, HasDepth, IsNoJson};
ghost use Rattle.json_walk.specs.Building.{IsBounded};
ghost use Rattle.json_walk.specs.UnderWay.{IsUnderWay, IsOver, Ends, left};
ghost use Rattle.tape_cells.specs.Opened.{HasRoom};
ghost use Rattle.json_text.specs.Suspects.{AreSuspects, narrow};
ghost use Rattle.json_text.specs.Verdict.{text_limit};
ghost use Rattle.name_stamps.specs.Stamps.{IsStamped, IsUnsuspected, DuplicateCheck, IsFresh, IsSameTop, HasSlot, HasTable};
ghost use Rattle.json_walk.specs.Walked.{stamped_source, IsListed, FitsTape, token_of, behind, with_sign, no_more, spot_after, is_whole as whole_token, spot_behind, byte_at, ending as ending_of, width as width_of, shape_of, point, at, WalksTo, WalksName, WalksValue, WalksInto, AsksName, AsksValue, AsksChild};

use crate::lexing::{Lexed, name, value};
use json_text::{BuildFault, Extent, Kind, Level, Shape, Want};
use name_stamps::{SeenNames, Slot, StampedName, stamped};
use std::alloc::Global;
use structural_index::{Batch, Index, Looks};
use tape_cells::{Builder, Tape};

/// How far a walk has come: the number of the next place, and whether a value stands before it. If none does, it is that of a first child.
#[derive(Clone, Copy)]
pub struct Spot {
    pub number: usize,
    pub behind: bool,
}

// An object or an array. The functions that are made for each of them take it as a constant, and are two copies each.
#[inline(always)]
fn shape<const OBJECT: bool>() -> Shape
    ensures { result ≡ shape_of OBJECT }
{
    if OBJECT { Shape::Object } else { Shape::Array }
}

// How many places a child has up to its value's first.
#[inline(always)]
fn width<const OBJECT: bool>() -> usize
    ensures value { result ≡ width_of (shape_of OBJECT) }
    ensures some { 0 < result }
    ensures few { result ≤ 3 }
{
    if OBJECT { 3 } else { 1 }
}

// The sign that ends a container.
#[inline(always)]
fn ending<const OBJECT: bool>() -> u8
    ensures { result ≡ ending_of (shape_of OBJECT) }
{
    if OBJECT { b'}' } else { b']' }
}

// The place behind place number k, or the end of the text.
#[inline(always)]
fn place_behind(places: &[u32], k: usize, end: usize) -> usize
    requires { k < length places.now }
    ensures { result ≡ get_or places.now (k + 1) end }
{
    if k + 1 < places.len() {
        places[k + 1] as usize
    } else {
        end
    }
}

// The sign behind a value whose entry was made.
#[inline(always)]
fn signed(made: Result<(), BuildFault>, sign: u8) -> Result<Option<u8>, BuildFault>
    ensures { result ≡ with_sign made sign }
{
    match made {
        Ok(()) => Ok(Some(sign)),
        Err(fault) => Err(fault),
    }
}

// No sign behind a container that was opened, and no child in one that was closed.
#[inline(always)]
fn nothing_more<T>(made: Result<(), BuildFault>) -> Result<Option<T>, BuildFault>
    ensures { result ≡ no_more made }
{
    match made {
        Ok(()) => Ok(None),
        Err(fault) => Err(fault),
    }
}

// Makes the entry of a value that begins at this place.
#[inline(always)]
fn put(
    builder: &mut Builder,
    level: Level,
    name: Option<Extent>,
    i: u32,
    lexed: Lexed,
) -> Result<(), BuildFault>
    requires small { IsSmall text_limit (standing builder.old Want.Next None) }
    requires level { level ≡ level_of builder.old.opens }
    requires name { IfSome name HasRoom }
    requires near { i < 2 ^ 24 }
    requires fits { FitsTape lexed }
    ensures { Took (step (token_of i lexed) (standing builder.old Want.Value name)) result (standing builder.new (behind lexed) None) }
{
    match lexed {
        Lexed::Text(source) => builder.leaf(level, name, source, Kind::Text),
        Lexed::Number(source) => builder.leaf(level, name, source, Kind::Number),
        Lexed::Word(kind, source) => builder.leaf(level, name, source, kind),
        Lexed::Opens(shape) => builder.open(level, name, shape, i),
    }
}

// The name at place number k and the colon behind it.
#[tactic(auto, using(crate::proofs::Listed::in_text, crate::proofs::WalkSteps::no_name_halts))]
#[inline(always)]
fn named(looks: &mut Batch<'_>, places: &[u32], k: usize) -> Option<StampedName>
    requires listed { IsListed looks.old.0 places.now }
    requires inside { k + 1 < length places.now }
    ensures named { (b : Built) (w : Want) (exceeds : Bool) → AsksName looks.old.0 places.now k w
        → WalksName looks.old.0 places.now (point k (standing b w None) looks.old.1 exceeds) b (k + 2) (stamped_source result) looks.new.1 exceeds }
    ensures room { IfSome result (λ m. HasRoom m.source) }
    ensures stamped { IfSome result (λ m. IsStamped looks.old.0 m.source m.stamp) }
    ensures same { looks.new.0 ≡ looks.old.0 }
{
    let colon = places[k + 1] as usize;
    match name(looks, places[k] as usize, colon) {
        Some(name) if looks.at(colon) == b':' => Some(stamped(looks, name)),
        _ => None,
    }
}

// The value at place number k, which has one behind it: an element, or a member of this name. Gives the sign behind it, which is looked
// at before the entry is written, or nothing where a container was opened.
#[tactic(auto, using(crate::proofs::WalkSteps::no_value_halts, crate::proofs::Listed::in_text))]
#[inline(always)]
fn valued<const OBJECT: bool>(
    looks: &mut Batch<'_>,
    places: &[u32],
    k: usize,
    name: Option<Extent>,
    builder: &mut Builder,
    may_exceed: &mut bool,
) -> Result<Option<u8>, BuildFault>
    requires listed { IsListed looks.old.0 places.now }
    requires inside { k + 1 < length places.now }
    requires small { IsSmall k (standing builder.old Want.Next None) }
    requires level { level_of builder.old.opens ≡ Level.Inside (shape_of OBJECT) }
    requires name { IfSome name HasRoom }
    ensures walks { (w : Want) → AsksValue looks.old.0 places.now k w
        → WalksValue looks.old.0 places.now (point k (standing builder.old w name) looks.old.1 may_exceed.old) (shape_of OBJECT) (k + 1) result builder.new looks.new.1 may_exceed.new }
    ensures checked { IfOk result (λ made. (seen : SeenNames) → DuplicateCheck looks.old.0 builder.old seen → IsFresh looks.old.0 builder.old seen name → DuplicateCheck looks.old.0 builder.new seen) }
    ensures top { IfOk result (λ made. IfSome made (λ sign. IsSameTop builder.old.opens builder.new.opens)) }
    ensures same { looks.new.0 ≡ looks.old.0 }
{
    let i = places[k];
    let next = places[k + 1] as usize;
    let level = Level::Inside(shape::<OBJECT>());
    match value(looks, i as usize, next, may_exceed) {
        None => Err(BuildFault::NotJson),
        Some(Lexed::Opens(shape)) => nothing_more(builder.open(level, name, shape, i)),
        Some(Lexed::Text(source)) => {
            let sign = looks.at(next);
            signed(builder.leaf(level, name, source, Kind::Text), sign)
        }
        Some(Lexed::Number(source)) => {
            let sign = looks.at(next);
            signed(builder.leaf(level, name, source, Kind::Number), sign)
        }
        Some(Lexed::Word(kind, source)) => {
            let sign = looks.at(next);
            signed(builder.leaf(level, name, source, kind), sign)
        }
    }
}

// The child at place number k, which has as many places as one needs, and one behind them.
#[inline(always)]
fn child<const OBJECT: bool>(
    looks: &mut Batch<'_>,
    places: &[u32],
    k: usize,
    builder: &mut Builder,
    may_exceed: &mut bool,
    seen: &mut SeenNames,
    slot: Slot,
) -> Result<Option<u8>, BuildFault>
    requires listed { IsListed looks.old.0 places.now }
    requires inside { k + width_of (shape_of OBJECT) < length places.now }
    requires small { IsSmall k (standing builder.old Want.Next None) }
    requires level { level_of builder.old.opens ≡ Level.Inside (shape_of OBJECT) }
    requires checked { DuplicateCheck looks.old.0 builder.old seen.old }
    requires has_slot { IsTrue OBJECT → HasSlot builder.old slot seen.old }
    requires table { HasTable slot }
    ensures walks { (w : Want) → AsksChild looks.old.0 places.now k (shape_of OBJECT) w
        → WalksValue looks.old.0 places.now (point k (standing builder.old w None) looks.old.1 may_exceed.old) (shape_of OBJECT) (k + width_of (shape_of OBJECT)) result builder.new looks.new.1 may_exceed.new }
    ensures checked { IfOk result (λ made. DuplicateCheck looks.old.0 builder.new seen.new) }
    ensures has_slot { IfOk result (λ made. IfSome made (λ sign. IsTrue OBJECT → HasSlot builder.new slot seen.new)) }
    ensures same { looks.new.0 ≡ looks.old.0 }
{
    if !OBJECT {
        return valued::<OBJECT>(looks, places, k, None, builder, may_exceed);
    }
    let Some(name) = named(looks, places, k) else {
        return Err(BuildFault::NotJson);
    };
    if seen.insert(slot, name.stamp).is_err() {
        return Err(BuildFault::Memory);
    }
    valued::<OBJECT>(looks, places, k + 2, Some(name.source), builder, may_exceed)
}

// What stands behind a container that was closed at place number k.
#[inline(always)]
fn closed_at(closed: Result<(), BuildFault>, k: usize) -> Result<Spot, BuildFault>
    requires { k < 2 ^ 63 }
    ensures { result ≡ spot_behind closed k }
{
    match closed {
        Ok(()) => Ok(Spot {
            number: k + 1,
            behind: true,
        }),
        Err(fault) => Err(fault),
    }
}

// Makes the innermost container a suspect if it is a wide object.
#[inline(always)]
fn suspect_if_wide<const OBJECT: bool>(
    builder: &Builder,
    seen: &mut SeenNames,
) -> Result<(), BuildFault>
    ensures checked { OnOk result ((text : List ℕ) → DuplicateCheck text builder.now seen.old → DuplicateCheck text builder.now seen.new) }
    ensures few { OnOk result (shape_of OBJECT ≡ Shape.Object → IsUnsuspected seen.new (top_of builder.now.opens) → children_of builder.now.opens ≤ narrow) }
    ensures memory { IsErrOf result BuildFault.NotJson → ⊥ }
{
    if !OBJECT {
        return Ok(());
    }
    match seen.suspect_if_wide(builder) {
        Ok(()) => Ok(()),
        Err(_) => Err(BuildFault::Memory),
    }
}

// Closes the innermost container, which is a suspect if it is a wide object.
#[inline(always)]
fn shut<const OBJECT: bool>(
    builder: &mut Builder,
    place: u32,
    seen: &mut SeenNames,
) -> Result<(), BuildFault>
    requires level { level_of builder.old.opens ≡ Level.Inside (shape_of OBJECT) }
    requires near { place < 2 ^ 24 }
    ensures took { Took (step (Closing (shape_of OBJECT) place) (standing builder.old Want.Next None)) result (standing builder.new Want.Next None) }
    ensures checked { OnOk result ((text : List ℕ) → DuplicateCheck text builder.old seen.old → DuplicateCheck text builder.new seen.new) }
{
    match suspect_if_wide::<OBJECT>(builder, seen) {
        Ok(()) => builder.close(shape::<OBJECT>(), place),
        Err(fault) => Err(fault),
    }
}

// The end of the container, if this sign at place number k is its end. A comma is not.
#[inline(always)]
fn ended<const OBJECT: bool>(
    places: &[u32],
    k: usize,
    sign: u8,
    builder: &mut Builder,
    seen: &mut SeenNames,
) -> Result<Spot, BuildFault>
    requires inside { k < length places.now }
    requires near { get_or places.now k 0 < 2 ^ 24 }
    requires level { level_of builder.old.opens ≡ Level.Inside (shape_of OBJECT) }
    requires no_comma { sign ≢ 44 }
    ensures walks { (text : List ℕ) (looked : ℕ) (exceeds : Bool) → IsListed text places.now → sign ≡ byte_at text places.now k
        → WalksTo text places.now (point k (standing builder.old Want.Next None) looked exceeds) result builder.new looked exceeds }
    ensures behind { IfOk result (λ next. (next.number ≡ k + 1) × (next.behind ≡ true)) }
    ensures checked { IfOk result (λ next. (text : List ℕ) → DuplicateCheck text builder.old seen.old → DuplicateCheck text builder.new seen.new) }
{
    if sign != ending::<OBJECT>() {
        return Err(BuildFault::NotJson);
    }
    closed_at(shut::<OBJECT>(builder, places[k], seen), k)
}

// What the walk finds where it enters a container, or comes back to it: the number of the place at which the next child has to begin, or
// nothing where the container ends here.
#[inline(always)]
fn entered<const OBJECT: bool>(
    looks: &mut Batch<'_>,
    places: &[u32],
    spot: Spot,
    builder: &mut Builder,
    seen: &mut SeenNames,
) -> Result<Option<usize>, BuildFault>
    requires listed { IsListed looks.old.0 places.now }
    requires level { level_of builder.old.opens ≡ Level.Inside (shape_of OBJECT) }
    ensures entered { (exceeds : Bool) → WalksInto looks.old.0 places.now (at spot builder.old looks.old.1 exceeds) (shape_of OBJECT) (spot.number + 1) result builder.new looks.new.1 exceeds }
    ensures inside { IfOk result (λ next. spot.number < length places.now) }
    ensures checked { IfOk result (λ next. (text : List ℕ) → DuplicateCheck text builder.old seen.old → DuplicateCheck text builder.new seen.new) }
    ensures same { looks.new.0 ≡ looks.old.0 }
{
    if spot.number >= places.len() {
        return Err(BuildFault::NotJson);
    }
    let sign = looks.at(places[spot.number] as usize);
    if sign == ending::<OBJECT>() {
        return nothing_more(shut::<OBJECT>(builder, places[spot.number], seen));
    }
    if !spot.behind {
        return Ok(Some(spot.number));
    }
    if sign == b',' {
        Ok(Some(spot.number + 1))
    } else {
        Err(BuildFault::NotJson)
    }
}

// The slot for the names of the innermost container, which an array does not use.
#[inline(always)]
fn take_slot<const OBJECT: bool>(
    builder: &Builder,
    seen: &mut SeenNames,
) -> Result<Slot, BuildFault>
    ensures has_slot { IfOk result (λ slot. IsTrue OBJECT → HasSlot builder.now slot seen.new) }
    ensures checked { IfOk result (λ slot. (text : List ℕ) → DuplicateCheck text builder.now seen.old → DuplicateCheck text builder.now seen.new) }
    ensures table { IfOk result HasTable }
    ensures memory { IsErrOf result BuildFault.NotJson → ⊥ }
{
    if !OBJECT {
        return Ok(Slot {
            number: 0,
            table: 0,
        });
    }
    match seen.take_slot(builder) {
        Ok(slot) => Ok(slot),
        Err(_) => Err(BuildFault::Memory),
    }
}

// The children of the innermost container from here on, up to one that holds others, to the end of the container, or to the comma behind a child
// that begins at the bound or later.
#[tactic(auto, using(crate::proofs::Listed::number_below, crate::proofs::WalkContainer::small_state, crate::proofs::WalkContainer::walked_small, crate::proofs::WalkContainer::walked_onward, crate::proofs::Listed::near))]
#[inline(always)]
fn run<const OBJECT: bool>(
    looks: &mut Batch<'_>,
    places: &[u32],
    spot: Spot,
    builder: &mut Builder,
    may_exceed: &mut bool,
    seen: &mut SeenNames,
    bound: usize,
) -> Result<Spot, BuildFault>
    requires listed { IsListed looks.old.0 places.now }
    requires small { IsSmall spot.number (standing builder.old Want.Next None) }
    requires level { level_of builder.old.opens ≡ Level.Inside (shape_of OBJECT) }
    requires checked { DuplicateCheck looks.old.0 builder.old seen.old }
    ensures walks { WalksTo looks.old.0 places.now (at spot builder.old looks.old.1 may_exceed.old) result builder.new looks.new.1 may_exceed.new }
    ensures further { IfOk result (λ next. (spot.number < next.number) × (next.number ≤ length places.now)) }
    ensures opened { IfOk result (λ next. next.behind ≡ false → level_of builder.new.opens ≡ Level.Root → ⊥) }
    ensures checked { IfOk result (λ next. DuplicateCheck looks.old.0 builder.new seen.new) }
    ensures same { looks.new.0 ≡ looks.old.0 }
{
    let first = match entered::<OBJECT>(looks, places, spot, builder, seen) {
        Err(fault) => return Err(fault),
        Ok(None) => {
            return Ok(Spot {
                number: spot.number + 1,
                behind: true,
            });
        }
        Ok(Some(first)) => first,
    };
    let slot = match take_slot::<OBJECT>(builder, seen) {
        Ok(slot) => slot,
        Err(fault) => return Err(fault),
    };
    let mut k = first;
    while k + width::<OBJECT>() < places.len() {
        match child::<OBJECT>(looks, places, k, builder, may_exceed, seen, slot) {
            Err(fault) => return Err(fault),
            Ok(None) => {
                return Ok(Spot {
                    number: k + width::<OBJECT>(),
                    behind: false,
                });
            }
            Ok(Some(b',')) => {
                if k >= bound {
                    return Ok(Spot {
                        number: k + width::<OBJECT>(),
                        behind: true,
                    });
                }
                k += width::<OBJECT>() + 1;
            }
            Ok(Some(sign)) => {
                return ended::<OBJECT>(places, k + width::<OBJECT>(), sign, builder, seen);
            }
        }
    }
    Err(BuildFault::NotJson)
}

// Reads on the children of a container, by the shape that it has.
#[inline(always)]
fn children(
    looks: &mut Batch<'_>,
    places: &[u32],
    spot: Spot,
    shape: Shape,
    builder: &mut Builder,
    may_exceed: &mut bool,
    seen: &mut SeenNames,
    bound: usize,
) -> Result<Spot, BuildFault>
    requires listed { IsListed looks.old.0 places.now }
    requires small { IsSmall spot.number (standing builder.old Want.Next None) }
    requires level { level_of builder.old.opens ≡ Level.Inside shape }
    requires checked { DuplicateCheck looks.old.0 builder.old seen.old }
    ensures walks { WalksTo looks.old.0 places.now (at spot builder.old looks.old.1 may_exceed.old) result builder.new looks.new.1 may_exceed.new }
    ensures further { IfOk result (λ next. (spot.number < next.number) × (next.number ≤ length places.now)) }
    ensures opened { IfOk result (λ next. next.behind ≡ false → level_of builder.new.opens ≡ Level.Root → ⊥) }
    ensures checked { IfOk result (λ next. DuplicateCheck looks.old.0 builder.new seen.new) }
    ensures same { looks.new.0 ≡ looks.old.0 }
{
    match shape {
        Shape::Array => run::<false>(looks, places, spot, builder, may_exceed, seen, bound),
        Shape::Object => run::<true>(looks, places, spot, builder, may_exceed, seen, bound),
    }
}

// What lies in the containers that are open here, up to the end of the outermost one, or to a spot at the bound or later.
#[inline(always)]
fn containers(
    looks: &mut Batch<'_>,
    places: &[u32],
    spot: Spot,
    builder: &mut Builder,
    may_exceed: &mut bool,
    seen: &mut SeenNames,
    bound: usize,
) -> Result<Spot, BuildFault>
    requires listed { IsListed looks.old.0 places.now }
    requires inside { spot.number ≤ length places.now }
    requires small { IsSmall spot.number (standing builder.old Want.Next None) }
    requires opened { spot.behind ≡ false → level_of builder.old.opens ≡ Level.Root → ⊥ }
    requires checked { DuplicateCheck looks.old.0 builder.old seen.old }
    ensures walks { WalksTo looks.old.0 places.now (at spot builder.old looks.old.1 may_exceed.old) result builder.new looks.new.1 may_exceed.new }
    ensures over { IfOk result (λ next. next.number < bound → level_of builder.new.opens ≡ Level.Root) }
    ensures inside { IfOk result (λ next. next.number ≤ length places.now) }
    ensures opened { IfOk result (λ next. next.behind ≡ false → level_of builder.new.opens ≡ Level.Root → ⊥) }
    ensures checked { IfOk result (λ next. DuplicateCheck looks.old.0 builder.new seen.new) }
    ensures same { looks.new.0 ≡ looks.old.0 }
{
    let mut next = spot;
    while let Level::Inside(shape) = builder.level() {
        if next.number >= bound {
            return Ok(next);
        }
        match children(looks, places, next, shape, builder, may_exceed, seen, bound) {
            Ok(spot) => next = spot,
            Err(fault) => return Err(fault),
        }
    }
    Ok(next)
}

// What stands behind the first token of a text, where its entry was made.
#[inline(always)]
fn first_spot(made: Result<(), BuildFault>, lexed: Lexed) -> Result<Spot, BuildFault>
    ensures { result ≡ spot_after made lexed }
{
    match made {
        Ok(()) => Ok(Spot {
            number: 1,
            behind: is_whole(lexed),
        }),
        Err(fault) => Err(fault),
    }
}

// Whether it is a value that holds no other.
#[inline(always)]
fn is_whole(lexed: Lexed) -> bool
    ensures { result ≡ whole_token lexed }
{
    match lexed {
        Lexed::Text(_) | Lexed::Number(_) | Lexed::Word(..) => true,
        Lexed::Opens(_) => false,
    }
}

// The value of the whole text, or the bracket or brace that opens it.
#[tactic(auto, using(crate::proofs::WalkContainer::nothing_halts, crate::proofs::WalkSteps::no_value_halts))]
#[inline(always)]
fn whole(
    looks: &mut Batch<'_>,
    places: &[u32],
    builder: &mut Builder,
    may_exceed: &mut bool,
) -> Result<Spot, BuildFault>
    requires listed { IsListed looks.old.0 places.now }
    requires first { builder.old ≡ nothing }
    ensures walks { WalksTo looks.old.0 places.now (point 0 (standing builder.old Want.Value None) looks.old.1 may_exceed.old) result builder.new looks.new.1 may_exceed.new }
    ensures checked { IfOk result (λ next. (seen : SeenNames) → DuplicateCheck looks.old.0 builder.old seen → DuplicateCheck looks.old.0 builder.new seen) }
    ensures further { IfOk result (λ next. next.number ≤ length places.now) }
    ensures opened { IfOk result (λ next. next.behind ≡ false → level_of builder.new.opens ≡ Level.Root → ⊥) }
    ensures same { looks.new.0 ≡ looks.old.0 }
{
    if places.is_empty() {
        return Err(BuildFault::NotJson);
    }
    let i = places[0];
    let next = place_behind(places, 0, looks.length());
    let Some(lexed) = value(looks, i as usize, next, may_exceed) else {
        return Err(BuildFault::NotJson);
    };
    first_spot(put(builder, Level::Root, None, i, lexed), lexed)
}

/// The result of a walk: the tape, its depth, and whether a number may be beyond the limits. `suspects` has the numbers of the objects that
/// may have a repeated name, in no order; all others have none.
#[derive(Drop)]
pub struct Reading {
    pub tape: Tape,
    pub depth: usize,
    pub may_exceed: bool,
    pub suspects: Vec<u32>,
}

/// A walk that is under way: what it has built, the spot to which it came, and whether a number may be beyond the limits.
#[derive(Drop)]
pub struct Way {
    builder: Builder,
    number: usize,
    behind: bool,
    may_exceed: bool,
}

/// Begins a walk over the places of a text's index with the first token, or says why the text has no tape.
///
/// # Errors
///
/// `NotJson` if the bytes are not a text of the grammar; `Memory` if an allocation failed.
#[inline(never)]
pub fn begin(alloc: Global, index: &Index, looks: &mut Looks<'_>) -> Result<Way, BuildFault>
    requires short { length looks.old.0 ≤ text_limit }
    requires utf8 { IsUtf8 looks.old.0 }
    requires index { IsIndexOf index.now looks.old.0 }
    ensures same { looks.new.0 ≡ looks.old.0 }
    ensures on_way { IfOk result (λ way. (seen : SeenNames) → DuplicateCheck looks.old.0 nothing seen → IsUnderWay looks.old.0 index.now looks.old.1 looks.new.1 seen way) }
    ensures refused { IsErrOf result BuildFault.NotJson → IsNoJson looks.old.0 }
{
    if index.unclosed || index.control_inside || index.wrong_escape {
        return Err(BuildFault::NotJson);
    }
    let places = index.places.as_slice();
    let mut builder = Builder::new(alloc, places.len() / 2 + 1)?;
    let mut may_exceed = false;
    let mut batch = looks.batch();
    let first = whole(&mut batch, places, &mut builder, &mut may_exceed);
    looks.settle(batch);
    match first {
        Ok(spot) => Ok(Way {
            builder,
            number: spot.number,
            behind: spot.behind,
            may_exceed,
        }),
        Err(fault) => Err(fault),
    }
}

/// Goes on with a walk to the end of the text's value, or over so many places and a few more. The names that it passes are seen.
///
/// # Errors
///
/// `NotJson` if the bytes are not a text of the grammar; `Memory` if an allocation failed.
#[inline(never)]
pub fn go_on(
    begun: Way,
    index: &Index,
    looks: &mut Looks<'_>,
    seen: &mut SeenNames,
    most: usize,
) -> Result<Way, BuildFault>
    requires { (before : ℕ) × IsUnderWay looks.old.0 index.now before looks.old.1 seen.old begun }
    ensures same { looks.new.0 ≡ looks.old.0 }
    ensures on_way { IfOk result (λ way. (before : ℕ) → IsUnderWay looks.old.0 index.now before looks.old.1 seen.old begun → IsUnderWay looks.old.0 index.now before looks.new.1 seen.new way) }
    ensures over { IfOk result (λ way. left index.now begun < left index.now way + most → IsOver way) }
    ensures refused { IsErrOf result BuildFault.NotJson → IsNoJson looks.old.0 }
{
    let Way {
        mut builder,
        number,
        behind,
        mut may_exceed,
    } = begun;
    let mut batch = looks.batch();
    let last = containers(
        &mut batch,
        index.places.as_slice(),
        Spot { number, behind },
        &mut builder,
        &mut may_exceed,
        seen,
        number.saturating_add(most),
    );
    looks.settle(batch);
    match last {
        Ok(spot) => Ok(Way {
            builder,
            number: spot.number,
            behind: spot.behind,
            may_exceed,
        }),
        Err(fault) => Err(fault),
    }
}

impl Way {
    /// Whether the text's value is behind it.
    #[inline(always)]
    pub fn is_over(&self) -> bool
        ensures over { IsTrue result → IsOver self.now }
        ensures left { result ≡ false → IsOver self.now → ⊥ }
    {
        matches!(self.builder.level(), Level::Root)
    }

    /// The result of a walk that is over, which has seen these names.
    ///
    /// # Errors
    ///
    /// `NotJson` if more tokens stand behind the text's value.
    #[inline(always)]
    pub fn finish(self, index: &Index, seen: SeenNames) -> Result<Reading, BuildFault>
        ensures { (text : List ℕ) (before now : ℕ) → IsUnderWay text index.now before now seen self → IsOver self → Ends text before now result }
    {
        if self.number < index.places.len() {
            return Err(BuildFault::NotJson);
        }
        let depth = self.builder.deepest();
        Ok(Reading {
            tape: self.builder.into_tape(),
            depth,
            may_exceed: self.may_exceed,
            suspects: seen.suspects,
        })
    }
}

/// The tape of the text that is looked at and what else was found of it, from the places of its index, or why it has no tape.
pub fn walk(alloc: Global, index: &Index, looks: &mut Looks<'_>) -> Result<Reading, BuildFault>
    requires short { length looks.old.0 ≤ text_limit }
    requires utf8 { IsUtf8 looks.old.0 }
    requires index { IsIndexOf index.now looks.old.0 }
    ensures same { looks.new.0 ≡ looks.old.0 }
    // A tape is given only where the text is JSON.
    ensures spelt { IfOk result (λ reading. IsJson looks.old.0) }
    // It stands for each tree that the text spells, so there is only one.
    ensures stands { IfOk result (λ reading. StandsForAll looks.old.0 reading.tape) }
    ensures few { IfOk result (λ reading. length reading.tape < 2 ^ 31) }
    ensures depth { IfOk result (λ reading. HasDepth looks.old.0 reading.depth) }
    ensures numbers { IfOk result (λ reading. reading.may_exceed ≡ false → AreWithinLimits looks.old.0 reading.tape) }
    // Unless memory runs out, a text is refused only where it spells no tree.
    ensures refused { IsErrOf result BuildFault.NotJson → IsNoJson looks.old.0 }
    ensures looked { IfOk result (λ reading. IsBounded looks.old.0 looks.old.1 looks.new.1) }
    ensures suspects { IfOk result (λ reading. AreSuspects looks.old.0 reading.tape reading.suspects.items) }
{
    let mut seen = SeenNames::new(alloc);
    let first = match begin(alloc, index, looks) {
        Ok(way) => way,
        Err(fault) => return Err(fault),
    };
    match go_on(first, index, looks, &mut seen, usize::MAX) {
        Ok(last) => last.finish(index, seen),
        Err(fault) => Err(fault),
    }
}

/// Builds the tape of a text from the places of its index.
///
/// # Errors
///
/// `NotJson` if the bytes are not a text of the grammar; `Memory` if an allocation failed.
pub fn build(alloc: Global, index: &Index, looks: &mut Looks<'_>) -> Result<Tape, BuildFault>
    requires short { length looks.old.0 ≤ text_limit }
    requires utf8 { IsUtf8 looks.old.0 }
    requires index { IsIndexOf index.now looks.old.0 }
    ensures same { looks.new.0 ≡ looks.old.0 }
    // A tape is given only where the text is JSON.
    ensures spelt { IfOk result (λ tape. IsJson looks.old.0) }
    // It stands for each tree that the text spells, so there is only one.
    ensures stands { IfOk result (λ tape. StandsForAll looks.old.0 tape) }
    // Unless memory runs out, a text is refused only where it spells no tree.
    ensures refused { IsErrOf result BuildFault.NotJson → IsNoJson looks.old.0 }
    // At most three looks for each place, and one for each source byte of a string, a number or a word.
    ensures looked { IfOk result (λ tape. IsBounded looks.old.0 looks.old.1 looks.new.1) }
{
    match walk(alloc, index, looks) {
        Ok(reading) => Ok(reading.tape),
        Err(fault) => Err(fault),
    }
}
