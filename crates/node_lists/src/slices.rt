//! The selector of a slice (RFC 9535, section 2.3.4).

ghost use Rattle.std.specs.Prelude.{◌≡◌, ◌<◌, ◌≤◌, ◌++◌, ◌^◌, [], ◌∷◌, length, take, drop, reverse, unsigned_abs};
ghost use Rattle.json_tape.specs.Document.{count, node_at, following, IsIn};
ghost use Rattle.json_tape.specs.Nodes.{elements};
ghost use Rattle.node_lists.specs.Nodelists.{nodes_of};
ghost use Rattle.tape_values.specs.Places.{is_place};
ghost use Rattle.tape_values.specs.Selection.{picked, in_order, sliced, step_of};
ghost use Rattle.node_lists.specs.Paying.{Inside, Adds};

use crate::fault::SelectFault;
use crate::meter::Meter;
use crate::nodes::push;
use json_tape::{Document, NodeId};
use path_grammar::IntLit;
use tape_values::{Places, element, element_total, elements_from, slice_places};

// The step from which an element is found sooner by its place than by a walk.
const FAR: u64 = 32;

// The element at the first place, and those behind it.
#[tactic(auto, using(crate::proofs::Picking::beginning))]
fn first_picked(doc: &Document, n: NodeId, places: Places) -> Option<NodeId>
    requires inside { n.0 < count doc.now }
    requires end_fits { places.end ≤ 2 ^ 32 }
    ensures nodes { picked (is_place places.first places.end places.step) places.first (following doc.now result) ≡ picked (is_place places.first places.end places.step) 0 (elements (node_at doc.now n.0)) }
    ensures inside { IsIn doc.now result }
{
    if places.first < places.end {
        elements_from(doc, n, places.first as u32)
    } else {
        None
    }
}

// Adds an element, for one unit.
#[inline(always)]
fn add(
    doc: &Document,
    element: NodeId,
    meter: &mut Meter,
    out: &mut Vec<NodeId>,
) -> Result<(), SelectFault>
    requires inside { element.0 < count doc.now }
    requires sound { Inside doc.now out.old.items }
    ensures { Adds doc.now result out.new.items (nodes_of doc.now out.old.items ++ node_at doc.now element.0 ∷ []) 1 meter.old.left meter.new.left }
{
    meter.spend(1)?;
    push(doc, out, element)
}

// The elements at these places, each from the one before it.
#[tactic(auto, using(crate::proofs::Picking::picking))]
fn picked_by_walking(
    doc: &Document,
    n: NodeId,
    places: Places,
    meter: &mut Meter,
    out: &mut Vec<NodeId>,
) -> Result<(), SelectFault>
    requires step { 0 < places.step }
    requires step_fits { places.step ≤ 2 ^ 63 }
    requires end_fits { places.end ≤ 2 ^ 32 }
    requires inside { n.0 < count doc.now }
    requires sound { Inside doc.now out.old.items }
    ensures { Adds doc.now result out.new.items (nodes_of doc.now out.old.items ++ picked (is_place places.first places.end places.step) 0 (elements (node_at doc.now n.0))) (length (picked (is_place places.first places.end places.step) 0 (elements (node_at doc.now n.0)))) meter.old.left meter.new.left }
{
    let mut child = first_picked(doc, n, places);
    let mut i = places.first;
    let mut wanted = places.first;
    while wanted < places.end {
        let Some(c) = child else {
            break;
        };
        if i == wanted {
            add(doc, c, meter, out)?;
            wanted += places.step;
        }
        child = doc.next_sibling(c);
        i += 1;
    }
    Ok(())
}

// The elements at these places, each by its place.
#[tactic(auto, using(crate::proofs::Picking::striding))]
fn picked_by_place(
    doc: &Document,
    n: NodeId,
    places: Places,
    meter: &mut Meter,
    out: &mut Vec<NodeId>,
) -> Result<(), SelectFault>
    requires step { 0 < places.step }
    requires step_fits { places.step ≤ 2 ^ 63 }
    requires end_fits { places.end ≤ 2 ^ 32 }
    requires inside { n.0 < count doc.now }
    requires sound { Inside doc.now out.old.items }
    ensures { Adds doc.now result out.new.items (nodes_of doc.now out.old.items ++ picked (is_place places.first places.end places.step) 0 (elements (node_at doc.now n.0))) (length (picked (is_place places.first places.end places.step) 0 (elements (node_at doc.now n.0)))) meter.old.left meter.new.left }
{
    let mut wanted = places.first;
    while wanted < places.end {
        let Some(found) = element(doc, n, IntLit::Within(wanted as i64)) else {
            break;
        };
        add(doc, found, meter, out)?;
        wanted += places.step;
    }
    Ok(())
}

// The elements at these places, in document order.
fn picked(
    doc: &Document,
    n: NodeId,
    places: Places,
    meter: &mut Meter,
    out: &mut Vec<NodeId>,
) -> Result<(), SelectFault>
    requires step { 0 < places.step }
    requires step_fits { places.step ≤ 2 ^ 63 }
    requires end_fits { places.end ≤ 2 ^ 32 }
    requires inside { n.0 < count doc.now }
    requires sound { Inside doc.now out.old.items }
    ensures { Adds doc.now result out.new.items (nodes_of doc.now out.old.items ++ picked (is_place places.first places.end places.step) 0 (elements (node_at doc.now n.0))) (length (picked (is_place places.first places.end places.step) 0 (elements (node_at doc.now n.0)))) meter.old.left meter.new.left }
{
    if FAR <= places.step {
        picked_by_place(doc, n, places, meter, out)
    } else {
        picked_by_walking(doc, n, places, meter, out)
    }
}

// Turns the end of a list round.
fn reverse_from(out: &mut Vec<NodeId>, from: usize)
    requires { from ≤ length out.old.items }
    ensures { out.new.items ≡ take from out.old.items ++ reverse (drop from out.old.items) }
{
    out[from..].reverse();
}

// The elements at these places, the last first.
#[tactic(auto, using(crate::proofs::Turned::turned))]
fn picked_back(
    doc: &Document,
    n: NodeId,
    places: Places,
    meter: &mut Meter,
    out: &mut Vec<NodeId>,
) -> Result<(), SelectFault>
    requires step { 0 < places.step }
    requires step_fits { places.step ≤ 2 ^ 63 }
    requires end_fits { places.end ≤ 2 ^ 32 }
    requires inside { n.0 < count doc.now }
    requires sound { Inside doc.now out.old.items }
    ensures { Adds doc.now result out.new.items (nodes_of doc.now out.old.items ++ reverse (picked (is_place places.first places.end places.step) 0 (elements (node_at doc.now n.0)))) (length (reverse (picked (is_place places.first places.end places.step) 0 (elements (node_at doc.now n.0))))) meter.old.left meter.new.left }
{
    let from = out.len();
    picked(doc, n, places, meter, out)?;
    reverse_from(out, from);
    Ok(())
}

// The elements at these places, ascending with a step above 0, descending with one below 0, none with 0.
fn picked_in_order(
    doc: &Document,
    n: NodeId,
    places: Places,
    step: i64,
    meter: &mut Meter,
    out: &mut Vec<NodeId>,
) -> Result<(), SelectFault>
    requires step { places.step ≡ unsigned_abs step }
    requires end_fits { places.end ≤ 2 ^ 32 }
    requires inside { n.0 < count doc.now }
    requires sound { Inside doc.now out.old.items }
    ensures { Adds doc.now result out.new.items (nodes_of doc.now out.old.items ++ in_order step (picked (is_place places.first places.end places.step) 0 (elements (node_at doc.now n.0)))) (length (in_order step (picked (is_place places.first places.end places.step) 0 (elements (node_at doc.now n.0))))) meter.old.left meter.new.left }
{
    if 0 < step {
        picked(doc, n, places, meter, out)
    } else if step < 0 {
        picked_back(doc, n, places, meter, out)
    } else {
        Ok(())
    }
}

fn step_or_one(step: Option<IntLit>) -> i64
    ensures { result ≡ step_of step }
{
    match step {
        None => 1,
        Some(IntLit::Beyond) => 0,
        Some(IntLit::Within(i)) => i,
    }
}

/// The elements of a slice, one unit for each that is selected.
pub fn sliced(
    doc: &Document,
    n: NodeId,
    start: Option<IntLit>,
    stop: Option<IntLit>,
    step: Option<IntLit>,
    meter: &mut Meter,
    out: &mut Vec<NodeId>,
) -> Result<(), SelectFault>
    requires inside { n.0 < count doc.now }
    requires sound { Inside doc.now out.old.items }
    ensures { Adds doc.now result out.new.items (nodes_of doc.now out.old.items ++ sliced start stop step (elements (node_at doc.now n.0))) (length (sliced start stop step (elements (node_at doc.now n.0)))) meter.old.left meter.new.left }
{
    let places = slice_places(start, stop, step, element_total(doc, n));
    picked_in_order(doc, n, places, step_or_one(step), meter, out)
}
