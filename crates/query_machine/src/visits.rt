//! The nodes from which a segment selects that has descendants: those from which it selects nothing are passed at once.

ghost use Rattle.std.specs.Prelude.{◌≡◌, ◌-◌, ◌*◌, ◌<◌, ◌≤◌, None, length, ℕ, IfOk, IfSome, MatchOption};
ghost use Rattle.json_tape.specs.Document.{count, IsIn};
ghost use Rattle.node_lists.specs.Links.{link_selector};
ghost use Rattle.path_grammar.specs.Tree.{selector, no_selectors};
ghost use Rattle.query_plan.specs.Planned.{stage_view};
ghost use Rattle.query_machine.specs.Cursors.{GivesNode, IsPassed, IsStepOf, IsStride, RunsOr};

use crate::cursor::{Cursor, draw};
use json_tape::{Document, NodeId};
use node_lists::{Link, Meter, SelectFault, selectors_pay_in_parts, step};
use query_plan::{Stage, only_link};

// What a segment may select from one node: none where that is nothing, and the node that a lone name or index selects.
#[inline(always)]
fn found_at(doc: &Document, stage: &Stage, link: Option<&Link>, n: NodeId) -> Option<Option<NodeId>>
    requires inside { n.0 < count doc.now }
    requires link { IfSome link (λ l. (stage_view stage.now).tree.selectors ≡ selector (link_selector l.now) no_selectors) }
    ensures found { MatchOption result (IsPassed doc.now stage.now n.0) (λ found. IfSome found (λ m. GivesNode doc.now stage.now n.0 m)) }
    ensures inside { IfSome result (λ found. IsIn doc.now found) }
{
    selectors_pay_in_parts();
    let _ = stage;
    if doc.first_child(n).is_none() {
        return None;
    }
    match link {
        None => Some(None),
        Some(link) => match step(doc, link, n) {
            None => None,
            Some(found) => Some(Some(found)),
        },
    }
}

// The first number from one on and below another from whose value a segment may select, or that other; and the node that a lone name or index selects.
fn next_found(
    doc: &Document,
    stage: &Stage,
    link: Option<&Link>,
    from: u32,
    to: u32,
) -> (u32, Option<NodeId>)
    requires some { from ≤ to }
    requires inside { to ≤ count doc.now }
    requires link { IfSome link (λ l. (stage_view stage.now).tree.selectors ≡ selector (link_selector l.now) no_selectors) }
    ensures most { result.0 ≤ to }
    ensures least { from ≤ result.0 }
    ensures passed { (j : ℕ) → from ≤ j → j < result.0 → IsPassed doc.now stage.now j }
    ensures node { IfSome result.1 (λ found. (result.0 < to) × GivesNode doc.now stage.now result.0 found) }
    ensures inside { IsIn doc.now result.1 }
{
    let mut k = from;
    while k < to {
        if let Some(found) = found_at(doc, stage, link, NodeId(k)) {
            return (k, found);
        }
        k += 1;
    }
    (k, None)
}

// The number before which a cursor's visits cost so many units at most.
fn visits_within(c: &Cursor, selectors: u64, room: u64) -> u32
    requires visits { c.now.visit ≤ c.now.end }
    ensures least { c.now.visit ≤ result }
    ensures most { result ≤ c.now.end }
    ensures units { (result - c.now.visit) * selectors ≤ room }
{
    let most = if selectors <= 1 {
        room
    } else {
        room / selectors
    };
    c.visit + u64::from(c.end - c.visit).min(most) as u32
}

fn selector_total(stage: &Stage) -> u64
    ensures { result ≡ length stage.now.selections.items }
{
    stage.selections.len() as u64
}

// Passes the first nodes, so far as their selectors select nothing and units are there. What a lone name or index selects behind them.
fn pass_some(
    doc: &Document,
    stage: &Stage,
    least: u64,
    c: &mut Cursor,
    meter: &mut Meter,
) -> Result<Option<NodeId>, SelectFault>
    requires child { c.old.child ≡ None }
    requires passed { c.old.stride.end ≤ c.old.stride.first }
    requires visits { c.old.visit < c.old.end }
    requires fresh { c.old.passed ≡ 0 }
    requires end { c.old.end ≤ count doc.now }
    requires stride { IsStride c.old.stride }
    requires least { least ≤ meter.old.left }
    ensures runs { RunsOr doc.now (stage_view stage.now).tree result c.old c.new meter.old.left meter.new.left }
    ensures child { c.new.child ≡ None }
    ensures passed { c.new.stride.end ≤ c.new.stride.first }
    ensures end { c.new.end ≡ c.old.end }
    ensures least { IfOk result (λ _. least ≤ meter.new.left) }
{
    let selectors = selector_total(stage);
    let to = visits_within(c, selectors, meter.left - least);
    let link = only_link(&stage.selections);
    let (k, found) = next_found(doc, stage, link, c.visit, to);
    let next = match found {
        None => k,
        Some(_) => k + 1,
    };
    meter.spend_each(u64::from(next - c.visit), selectors)?;
    c.visit = next;
    Ok(found)
}

/// The next node that a cursor's segment selects, or none yet. The cursor goes over no children.
pub fn draw_visit(
    doc: &Document,
    stage: &Stage,
    least: u64,
    c: &mut Cursor,
    meter: &mut Meter,
) -> Result<Option<NodeId>, SelectFault>
    requires more { c.old.stride.end ≤ c.old.stride.first → c.old.visit < c.old.end }
    requires child { c.old.child ≡ None }
    requires visit { c.old.stride.first < c.old.stride.end → c.old.visit < count doc.now }
    requires end { c.old.end ≤ count doc.now }
    requires stride { IsStride c.old.stride }
    requires least { least ≤ meter.old.left }
    ensures runs { RunsOr doc.now (stage_view stage.now).tree result c.old c.new meter.old.left meter.new.left }
    ensures little { IfOk result (λ _. IsStepOf doc.now (stage_view stage.now).tree least meter.new.left) }
{
    if !stage.descend || c.passed != 0 || c.stride.first < c.stride.end {
        return draw(doc, stage, c, meter);
    }
    let from = c.visit;
    let found = pass_some(doc, stage, least, c, meter)?;
    if found.is_some() || c.visit != from {
        return Ok(found);
    }
    draw(doc, stage, c, meter)
}
