//! Where an evaluation stands in one segment: the nodes from which it selects, and the children that its last selector has still to go over.

ghost use Rattle.std.specs.Prelude.{◌≡◌, ◌<◌, ◌≤◌, ◌^◌, None, Some, [], MatchOption, IfErr, IfOk, IfSome, length, get_or, unsigned_abs, List, true, false};
ghost use Rattle.json_tape.specs.Document.{count, node_at};
ghost use Rattle.json_tape.specs.Nodes.{Node, elements};
ghost use Rattle.tape_values.specs.Selection.{in_order, picked, sliced, step_of};
ghost use Rattle.tape_values.specs.Places.{is_place};
ghost use Rattle.node_lists.specs.Evaluation.{starts};
ghost use Rattle.node_lists.specs.Extra.{nodes_from, charge_at};
ghost use Rattle.node_lists.specs.Nodelists.{nodes_between};
ghost use Rattle.query_plan.specs.Planned.{claims_of, condition_view, selection_view, stage_view};
ghost use Rattle.query_plan.specs.Slots.{AreClaimed};
ghost use Rattle.tape_select.specs.Memo.{Keeps};
ghost use Rattle.query_machine.specs.Cursors.{ahead, condition_at, condition_in, due, place_of, rest_of, strided, Draws, DrawsOr, IsAsked, IsStride};

use json_tape::{Document, NodeId};
use node_lists::{Meter, SelectFault, places_step_on, step as link_step};
use path_grammar::IntLit;
use query_plan::{Condition, Parts, Selection, Stage};
use tape_select::{State, does_hold};
use tape_values::{Places, element, element_total, slice_places};

/// The places of a slice that are left: `first`, `first + step` and so on below `end`. Where it goes back the last of them is next.
#[derive(Clone, Copy)]
pub struct Stride {
    pub first: u64,
    pub end: u64,
    pub step: u64,
    pub is_back: bool,
}

/// The position of a query in one of its segments.
#[derive(Clone, Copy)]
pub struct Cursor {
    /// The number of the segment.
    pub stage: usize,
    /// The nodes from which it selects have the numbers from this one up to the end.
    pub visit: u32,
    pub end: u32,
    /// How many selectors are begun at the first of these.
    pub passed: usize,
    /// The number of the wildcard or filter that goes over children, and the next of these.
    pub asked: usize,
    pub child: Option<NodeId>,
    /// What is left of a slice.
    pub stride: Stride,
}

// No places.
fn no_stride() -> Stride
    ensures passed { result.end ≤ result.first }
    ensures fits { IsStride result }
{
    Stride {
        first: 0,
        end: 0,
        step: 1,
        is_back: false,
    }
}

// The number behind those of the nodes from which a segment selects for a node.
fn visits_end(doc: &Document, descend: bool, n: NodeId) -> u32
    requires { n.0 < count doc.now }
    ensures nodes { nodes_between doc.now n.0 result ≡ starts descend (node_at doc.now n.0) }
    ensures inside { result ≤ count doc.now }
{
    let _ = doc.root();
    if descend { doc.after(n) } else { n.0 + 1 }
}

/// The cursor of a segment that selects from a node.
pub fn cursor_at(doc: &Document, stage: &Stage, number: usize, n: NodeId) -> Cursor
    requires { n.0 < count doc.now }
    ensures nodes { ahead doc.now (stage_view stage.now).tree result ≡ nodes_from (node_at doc.now 0) (stage_view stage.now).tree (node_at doc.now n.0) }
    ensures charge { due doc.now (stage_view stage.now).tree result ≡ charge_at (node_at doc.now 0) (stage_view stage.now).tree (node_at doc.now n.0) }
    ensures stage { result.stage ≡ number }
    ensures visit { result.visit < count doc.now }
    ensures end { result.end ≤ count doc.now }
    ensures child { result.child ≡ None }
    ensures stride { IsStride result.stride }
{
    let end = visits_end(doc, stage.descend, n);
    Cursor {
        stage: number,
        visit: n.0,
        end,
        passed: 0,
        asked: 0,
        child: None,
        stride: no_stride(),
    }
}

/// Whether nothing is ahead.
#[tactic(auto, using(crate::proofs::Steps::ending))]
pub fn is_through(doc: &Document, stage: &Stage, c: &Cursor) -> bool
    ensures nodes { result ≡ true → ahead doc.now (stage_view stage.now).tree c.now ≡ [] }
    ensures charge { result ≡ true → due doc.now (stage_view stage.now).tree c.now ≡ 0 }
    ensures more { result ≡ false → c.now.child ≡ None → c.now.stride.end ≤ c.now.stride.first → c.now.visit < c.now.end }
{
    let _ = doc.root();
    let _ = stage;
    match c.child {
        Some(_) => false,
        None => c.stride.end <= c.stride.first && c.end <= c.visit,
    }
}

// ---- Children

/// The condition of a filter.
pub fn condition_of(selection: &Selection) -> Option<&Condition>
    ensures some { IfSome result (λ c. (selection_view selection.now).claims ≡ (condition_view c.now).claims) }
    ensures condition { MatchOption result (condition_in (selection_view selection.now).tree ≡ None) (λ c. condition_in (selection_view selection.now).tree ≡ Some (condition_view c.now).tree) }
{
    match selection {
        Selection::Where(condition) => Some(condition),
        Selection::One(_) | Selection::Wild | Selection::Sliced { .. } => None,
    }
}

/// The condition of the selector with this number, where it is a filter.
pub fn condition_in_turn<'a>(plan: &Parts, stage: &'a Stage, number: usize) -> Option<&'a Condition>
    requires { AreClaimed (claims_of plan.now.stages.items) (stage_view stage.now).claims }
    ensures { MatchOption result (condition_at number (stage_view stage.now).tree.selectors ≡ None) (λ c. IsAsked (claims_of plan.now.stages.items) number (stage_view stage.now).tree (condition_view c.now)) }
{
    let _ = plan;
    match stage.selections.get(number) {
        Some(selection) => condition_of(selection),
        None => None,
    }
}

/// The next child, which a wildcard selects.
pub fn take_child(
    doc: &Document,
    stage: &Stage,
    child: NodeId,
    c: &mut Cursor,
    meter: &mut Meter,
) -> Result<Option<NodeId>, SelectFault>
    requires child { c.old.child ≡ Some child }
    requires wild { condition_at c.old.asked (stage_view stage.now).tree.selectors ≡ None }
    requires inside { child.0 < count doc.now }
    requires visit { c.old.stride.first < c.old.stride.end → c.old.visit < count doc.now }
    requires end { c.old.end ≤ count doc.now }
    requires stride { IsStride c.old.stride }
    ensures { DrawsOr doc.now (stage_view stage.now).tree result c.old c.new meter.old.left meter.new.left }
{
    let _ = stage;
    meter.spend(1)?;
    c.child = doc.next_sibling(child);
    Ok(Some(child))
}

/// The next child, where the condition holds for it.
pub fn ask_child(
    doc: &Document,
    plan: &Parts,
    stage: &Stage,
    condition: &Condition,
    child: NodeId,
    c: &mut Cursor,
    state: &mut State,
) -> Result<Option<NodeId>, SelectFault>
    requires child { c.old.child ≡ Some child }
    requires filter { IsAsked (claims_of plan.now.stages.items) c.old.asked (stage_view stage.now).tree (condition_view condition.now) }
    requires inside { child.0 < count doc.now }
    requires visit { c.old.stride.first < c.old.stride.end → c.old.visit < count doc.now }
    requires end { c.old.end ≤ count doc.now }
    requires stride { IsStride c.old.stride }
    requires kept { Keeps doc.now (claims_of plan.now.stages.items) state.old }
    ensures drawn { DrawsOr doc.now (stage_view stage.now).tree result c.old c.new state.old.meter.left state.new.meter.left }
    ensures kept { Keeps doc.now (claims_of plan.now.stages.items) state.new }
    ensures asked { c.new.asked ≡ c.old.asked }
    ensures unchanged { IfErr result (λ _. c.new ≡ c.old) }
    ensures less { IfOk result (λ _. state.new.meter.left ≤ state.old.meter.left) }
{
    let _ = stage;
    state.meter.spend(2)?;
    let held = does_hold(doc, plan, condition, child, state)?;
    c.child = doc.next_sibling(child);
    if held { Ok(Some(child)) } else { Ok(None) }
}

// ---- Slices

fn step_or_one(step: Option<IntLit>) -> i64
    ensures { result ≡ step_of step }
{
    match step {
        None => 1,
        Some(IntLit::Beyond) => 0,
        Some(IntLit::Within(i)) => i,
    }
}

// The places of a slice with its step: with one of 0 there is none. Where it goes back its end is behind its last place.
#[tactic(auto, using(crate::proofs::Strides::strides))]
fn stride_of(places: Places, step: i64) -> Stride
    requires step { places.step ≡ unsigned_abs step }
    requires end { places.end ≤ 2 ^ 32 }
    ensures same { (ns : List Node) → strided result ns ≡ in_order step (picked (is_place places.first places.end places.step) 0 ns) }
    ensures fits { IsStride result }
    ensures inside { result.first < result.end → places.first < places.end }
{
    if step == 0 {
        return no_stride();
    }
    if places.end <= places.first {
        return no_stride();
    }
    if 0 < step {
        return Stride {
            first: places.first,
            end: places.end,
            step: places.step,
            is_back: false,
        };
    }
    Stride {
        first: places.first,
        end: places.end - (places.end - 1 - places.first) % places.step,
        step: places.step,
        is_back: true,
    }
}

// The places of a slice of a node.
fn stride_at(
    doc: &Document,
    start: Option<IntLit>,
    stop: Option<IntLit>,
    step: Option<IntLit>,
    n: NodeId,
) -> Stride
    requires { n.0 < count doc.now }
    ensures same { strided result (elements (node_at doc.now n.0)) ≡ sliced start stop step (elements (node_at doc.now n.0)) }
    ensures fits { IsStride result }
{
    let places = slice_places(start, stop, step, element_total(doc, n));
    stride_of(places, step_or_one(step))
}

// The place that is next.
fn next_place(stride: &Stride) -> u64
    requires { stride.now.first < stride.now.end }
    ensures { result ≡ place_of stride.now }
{
    if stride.is_back {
        stride.end - 1
    } else {
        stride.first
    }
}

// The places behind it.
fn next_stride(stride: &Stride) -> Stride
    requires some { stride.now.first < stride.now.end }
    requires fits { IsStride stride.now }
    ensures { result ≡ rest_of stride.now }
{
    if stride.is_back {
        Stride {
            first: stride.first,
            end: stride.end.saturating_sub(stride.step),
            step: stride.step,
            is_back: true,
        }
    } else {
        Stride {
            first: stride.first + stride.step,
            end: stride.end,
            step: stride.step,
            is_back: false,
        }
    }
}

// The element at the next place.
fn take_element(
    doc: &Document,
    stage: &Stage,
    c: &mut Cursor,
    meter: &mut Meter,
) -> Result<Option<NodeId>, SelectFault>
    requires child { c.old.child ≡ None }
    requires some { c.old.stride.first < c.old.stride.end }
    requires visit { c.old.visit < count doc.now }
    requires end { c.old.end ≤ count doc.now }
    requires stride { IsStride c.old.stride }
    ensures { DrawsOr doc.now (stage_view stage.now).tree result c.old c.new meter.old.left meter.new.left }
{
    places_step_on();
    let _ = stage;
    let place = next_place(&c.stride);
    let found = element(doc, NodeId(c.visit), IntLit::Within(place as i64));
    let next = next_stride(&c.stride);
    match found {
        None => {
            c.stride = next;
            Ok(None)
        }
        Some(n) => {
            meter.spend(1)?;
            c.stride = next;
            Ok(Some(n))
        }
    }
}

// ---- Selectors

// The next selector begins at the first node.
fn begin_selector(
    doc: &Document,
    stage: &Stage,
    selection: &Selection,
    c: &mut Cursor,
    meter: &mut Meter,
) -> Result<Option<NodeId>, SelectFault>
    requires child { c.old.child ≡ None }
    requires passed { c.old.stride.end ≤ c.old.stride.first }
    requires visits { c.old.visit < c.old.end }
    requires within { c.old.passed < length stage.now.selections.items }
    requires next { selection.now ≡ get_or stage.now.selections.items c.old.passed selection.now }
    requires end { c.old.end ≤ count doc.now }
    requires stride { IsStride c.old.stride }
    ensures { DrawsOr doc.now (stage_view stage.now).tree result c.old c.new meter.old.left meter.new.left }
{
    let _ = stage;
    meter.spend(1)?;
    let n = NodeId(c.visit);
    match selection {
        Selection::One(link) => {
            c.passed += 1;
            Ok(link_step(doc, link, n))
        }
        Selection::Sliced { start, stop, step } => {
            c.passed += 1;
            c.stride = stride_at(doc, *start, *stop, *step, n);
            Ok(None)
        }
        Selection::Wild => {
            c.asked = c.passed;
            c.passed += 1;
            c.child = doc.first_child(n);
            Ok(None)
        }
        Selection::Where(_) => {
            c.asked = c.passed;
            c.passed += 1;
            c.child = doc.first_child(n);
            Ok(None)
        }
    }
}

// The first node is passed.
fn pass_visit(doc: &Document, stage: &Stage, c: &mut Cursor, meter: &Meter)
    requires child { c.old.child ≡ None }
    requires stride { c.old.stride.end ≤ c.old.stride.first }
    requires visits { c.old.visit < c.old.end }
    requires passed { length stage.now.selections.items ≤ c.old.passed }
    requires end { c.old.end ≤ count doc.now }
    requires fits { IsStride c.old.stride }
    ensures { Draws doc.now (stage_view stage.now).tree None c.old c.new meter.now.left meter.now.left }
{
    let _ = doc.root();
    let _ = stage;
    let _ = meter;
    c.visit += 1;
    c.passed = 0;
}

/// One step of a cursor that goes over no children: the next node that its segment selects, or none yet.
pub fn draw(
    doc: &Document,
    stage: &Stage,
    c: &mut Cursor,
    meter: &mut Meter,
) -> Result<Option<NodeId>, SelectFault>
    requires more { c.old.stride.end ≤ c.old.stride.first → c.old.visit < c.old.end }
    requires child { c.old.child ≡ None }
    requires visit { c.old.stride.first < c.old.stride.end → c.old.visit < count doc.now }
    requires end { c.old.end ≤ count doc.now }
    requires stride { IsStride c.old.stride }
    ensures { DrawsOr doc.now (stage_view stage.now).tree result c.old c.new meter.old.left meter.new.left }
{
    if c.stride.first < c.stride.end {
        return take_element(doc, stage, c, meter);
    }
    match stage.selections.get(c.passed) {
        Some(selection) => begin_selector(doc, stage, selection, c, meter),
        None => {
            pass_visit(doc, stage, c, meter);
            Ok(None)
        }
    }
}
