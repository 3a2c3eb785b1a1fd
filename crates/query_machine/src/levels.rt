//! Queries in filters, which go on in steps as the query does that they stand in.
//!
//! A filter's own queries with a slot are evaluated before it asks a child, one after the other. The first that is not kept for the child begins a level
//! above the query that the filter stands in. What it finds is kept in its slot, where the filter finds it.

ghost use Rattle.std.specs.Prelude.{◌≡◌, ◌<◌, ◌≤◌, ◌∷◌, [], Some, IfOk, IfSome, MatchResult};
ghost use Rattle.json_tape.specs.Document.{count, node_at};
ghost use Rattle.node_lists.specs.Charge.{charge_from};
ghost use Rattle.node_lists.specs.Paying.{Refuses};
ghost use Rattle.query_plan.specs.Planned.{claims_of, numbered, query_of};
ghost use Rattle.query_plan.specs.Slots.{AreClaimed};
ghost use Rattle.tape_select.specs.Awaiting.{Awaits, AwaitsSome};
ghost use Rattle.tape_select.specs.Memo.{Keeps};
ghost use Rattle.query_machine.specs.Levels.{left_in, top_segments, rest_of, Begins, AwaitsStep, IsAbove, IsOnWay, IsOneStep, IsRun, Moved, Stack};
ghost use Rattle.query_machine.specs.Stacks.{segments_in, whole_due, IsUnderWay};

use crate::cursor::{condition_in_turn, cursor_at};
use crate::runs::run;
use crate::stepping::Track;
use json_tape::{Document, NodeId};
use node_lists::{SelectFault, followed, push};
use query_plan::{Nested, Parts, Stage, finds_slots, follows_links};
use std::alloc::Global;
use std::mem;
use tape_select::{Awaited, State, beginning, first_awaited, found_in, keep_found};

/// Whose query it is: that with this slot, from this node. It began with so many units. (Those of the lowest are not looked at.)
#[derive(Clone, Copy)]
pub struct Origin {
    pub slot: u32,
    pub from: NodeId,
    pub units: u64,
}

/// A query that waits for the one above, and goes on with so many units.
#[derive(Drop)]
pub struct Waiting {
    pub origin: Origin,
    pub track: Track,
    pub left: u64,
}

/// The queries under way: the one on top, and those that wait, the lowest first.
#[derive(Drop)]
pub struct Machine {
    pub origin: Origin,
    pub track: Track,
    pub state: State,
    pub below: Vec<Waiting>,
}

/// What a move came to. Lost stands for what cannot be.
#[derive(Clone, Copy)]
pub enum Move {
    Ends,
    GoesOn,
    Lost,
}

/// The beginning of a query from a node.
pub fn track_from(
    alloc: Global,
    doc: &Document,
    stages: &[Stage],
    n: NodeId,
) -> Result<Track, SelectFault>
    requires { n.0 < count doc.now }
    ensures { MatchResult result (λ t. Begins doc.now (segments_in stages.now) (node_at doc.now n.0) t) (λ e. e ≡ SelectFault.Memory) }
{
    let mut track = Track {
        cursors: Vec::new(alloc),
        out: Vec::new(alloc),
    };
    match stages.get(0) {
        None => match push(doc, &mut track.out, n) {
            Err(e) => Err(e),
            Ok(()) => Ok(track),
        },
        Some(stage) => {
            let c = cursor_at(doc, stage, 0, n);
            match track.cursors.push(c) {
                Err(_) => Err(SelectFault::Memory),
                Ok(()) => Ok(track),
            }
        }
    }
}

// The stages of the query on top.
fn stages_of<'p>(plan: &'p Parts, machine: &Machine) -> Option<&'p [Stage]>
    requires { numbered (claims_of plan.now.stages.items) 0 ≡ Some plan.now.slots }
    ensures same { IfSome result (λ stages. segments_in stages.now ≡ top_segments plan.now machine.now.below.items machine.now.origin) }
    ensures claimed { IfSome result (λ stages. AreClaimed (claims_of plan.now.stages.items) (claims_of stages.now)) }
{
    finds_slots();
    if machine.below.is_empty() {
        return Some(&plan.stages);
    }
    match plan.nested(machine.origin.slot) {
        Some(query) => Some(&query.stages),
        None => None,
    }
}

// What the filter awaits whose turn it is to ask a child, and that child.
fn next_query<'p>(
    doc: &Document,
    plan: &Parts,
    stages: &'p [Stage],
    track: &Track,
    state: &State,
) -> Option<(Awaited<'p>, NodeId)>
    requires under_way { IsUnderWay doc.now (segments_in stages.now) track.now }
    requires claimed { AreClaimed (claims_of plan.now.stages.items) (claims_of stages.now) }
    requires kept { Keeps doc.now (claims_of plan.now.stages.items) state.now }
    ensures inside { IfSome result (λ next. next.1.0 < count doc.now) }
    ensures awaits { IfSome result (λ next. AwaitsSome doc.now (claims_of plan.now.stages.items) (node_at doc.now next.1.0) next.0.query next.0.paid (whole_due doc.now (segments_in stages.now) track.now)) }
    ensures little { IfSome result (λ next. AwaitsStep doc.now (claims_of plan.now.stages.items) (segments_in stages.now) (node_at doc.now next.1.0) next.0.query next.0.paid) }
{
    let c = track.cursors.last()?;
    let child = c.child?;
    let stage = stages.get(c.stage)?;
    let condition = condition_in_turn(plan, stage, c.asked)?;
    let next = first_awaited(doc, plan, &state.slots, condition, child);
    Some((next, child))
}

// Puts a query on top that goes on from a node. The one that was on top waits, and goes on with so many units.
fn put_above(
    doc: &Document,
    plan: &Parts,
    stages: &[Stage],
    origin: Origin,
    first: NodeId,
    left: u64,
    units: u64,
    machine: &mut Machine,
) -> Result<Move, SelectFault>
    requires inside { first.0 < count doc.now }
    requires stack { Stack doc.now plan.now units (rest_of doc.now plan.now machine.old) machine.old.below.items machine.old.origin machine.old.track left }
    requires above { (t : Track) → Begins doc.now (segments_in stages.now) (node_at doc.now first.0) t → IsAbove doc.now plan.now left (whole_due doc.now (top_segments plan.now machine.old.below.items machine.old.origin) machine.old.track) origin t (left_in machine.old) }
    requires kept { Keeps doc.now (claims_of plan.now.stages.items) machine.old.state }
    ensures moved { MatchResult result (λ move. Moved doc.now plan.now move units (rest_of doc.now plan.now machine.old) machine.new) (λ e. e ≡ SelectFault.Memory) }
    ensures left { IfOk result (λ _. left_in machine.new ≡ left_in machine.old) }
{
    let _ = units;
    let _ = plan;
    let next = track_from(machine.state.alloc, doc, stages, first)?;
    let waiting = Waiting {
        origin: machine.origin,
        track: mem::replace(&mut machine.track, next),
        left,
    };
    machine.origin = origin;
    if machine.below.push(waiting).is_err() {
        return Err(SelectFault::Memory);
    }
    Ok(Move::GoesOn)
}

// Begins a query in a filter, which is above the one on top. Where its names and indexes lead nowhere, nothing is found.
fn begin_above(
    doc: &Document,
    plan: &Parts,
    query: &Nested,
    paid: u64,
    child: NodeId,
    units: u64,
    machine: &mut Machine,
) -> Result<Move, SelectFault>
    requires inside { child.0 < count doc.now }
    requires awaits { Awaits doc.now (claims_of plan.now.stages.items) (node_at doc.now child.0) query.now paid (whole_due doc.now (top_segments plan.now machine.old.below.items machine.old.origin) machine.old.track) }
    requires little { AwaitsStep doc.now (claims_of plan.now.stages.items) (top_segments plan.now machine.old.below.items machine.old.origin) (node_at doc.now child.0) (Some query) paid }
    requires on_way { IsOnWay doc.now plan.now units (rest_of doc.now plan.now machine.old) machine.old }
    ensures moved { MatchResult result (λ move. Moved doc.now plan.now move units (rest_of doc.now plan.now machine.old) machine.new) (λ e. Refuses (charge_from (node_at doc.now 0) (query_of plan.now.stages.items) (node_at doc.now 0 ∷ [])) units e) }
    ensures little { IfOk result (λ _. IsOneStep doc.now plan.now (left_in machine.old) (left_in machine.new)) }
{
    follows_links();
    let Some(slot) = query.slot else {
        return Ok(Move::Lost);
    };
    let left = machine.state.meter.left;
    machine.state.meter.spend(paid)?;
    let own = machine.state.meter.left;
    let from = beginning(doc, query.from_root, child);
    let origin = Origin {
        slot,
        from,
        units: own,
    };
    match followed(doc, &query.links, from, &mut machine.state.meter)? {
        Some(first) => put_above(
            doc,
            plan,
            &query.stages,
            origin,
            first,
            left,
            units,
            machine,
        ),
        None => {
            let found = found_in(doc, &[], own - machine.state.meter.left);
            keep_found(doc, plan, &mut machine.state.slots, slot, from, found);
            machine.state.meter.left = left;
            Ok(Move::GoesOn)
        }
    }
}

// Keeps what the query on top found, and goes on with the one below.
fn end_above(doc: &Document, plan: &Parts, units: u64, machine: &mut Machine) -> Move
    requires on_way { IsOnWay doc.now plan.now units (rest_of doc.now plan.now machine.old) machine.old }
    requires ended { machine.old.track.cursors.items ≡ [] }
    ensures moved { Moved doc.now plan.now result units (rest_of doc.now plan.now machine.old) machine.new }
    ensures left { left_in machine.old ≤ left_in machine.new }
{
    let _ = units;
    let Some(below) = machine.below.pop() else {
        return Move::Ends;
    };
    let charge = machine.origin.units - machine.state.meter.left;
    let found = found_in(doc, &machine.track.out, charge);
    keep_found(
        doc,
        plan,
        &mut machine.state.slots,
        machine.origin.slot,
        machine.origin.from,
        found,
    );
    machine.origin = below.origin;
    machine.track = below.track;
    machine.state.meter.left = below.left;
    Move::GoesOn
}

// Steps of the query on top, or one of them.
fn run_top(
    doc: &Document,
    plan: &Parts,
    stages: &[Stage],
    units: u64,
    least: u64,
    one: bool,
    machine: &mut Machine,
) -> Result<(), SelectFault>
    requires same { segments_in stages.now ≡ top_segments plan.now machine.old.below.items machine.old.origin }
    requires claimed { AreClaimed (claims_of plan.now.stages.items) (claims_of stages.now) }
    requires on_way { IsOnWay doc.now plan.now units (rest_of doc.now plan.now machine.old) machine.old }
    requires least { least ≤ left_in machine.old }
    ensures { MatchResult result (λ _. IsRun doc.now plan.now units least machine.old machine.new) (λ e. Refuses (charge_from (node_at doc.now 0) (query_of plan.now.stages.items) (node_at doc.now 0 ∷ [])) units e) }
{
    let _ = units;
    run(
        doc,
        plan,
        stages,
        least,
        one,
        &mut machine.track,
        &mut machine.state,
    )
}

// So many steps are taken before the query on top is looked up again.
const STEPS: u32 = 1_024;

/// Goes on with the query on top, until a query that the next child awaits is put above it, to its end, or until fewer units are left.
pub fn run_on(
    doc: &Document,
    plan: &Parts,
    units: u64,
    least: u64,
    machine: &mut Machine,
) -> Result<Move, SelectFault>
    requires numbered { numbered (claims_of plan.now.stages.items) 0 ≡ Some plan.now.slots }
    requires on_way { IsOnWay doc.now plan.now units (rest_of doc.now plan.now machine.old) machine.old }
    requires little { IsOneStep doc.now plan.now least (left_in machine.old) }
    ensures moved { MatchResult result (λ move. Moved doc.now plan.now move units (rest_of doc.now plan.now machine.old) machine.new) (λ e. Refuses (charge_from (node_at doc.now 0) (query_of plan.now.stages.items) (node_at doc.now 0 ∷ [])) units e) }
    ensures little { IfOk result (λ move. IsOneStep doc.now plan.now least (left_in machine.new)) }
{
    let Some(stages) = stages_of(plan, machine) else {
        return Ok(Move::Lost);
    };
    for _ in 0..STEPS {
        if machine.state.meter.left < least {
            return Ok(Move::GoesOn);
        }
        run_top(doc, plan, stages, units, least, false, machine)?;
        if machine.state.meter.left < least {
            return Ok(Move::GoesOn);
        }
        if machine.track.cursors.is_empty() {
            return Ok(end_above(doc, plan, units, machine));
        }
        if let Some((awaited, child)) = next_query(
            doc,
            plan,
            stages,
            &machine.track,
            &machine.state,
        ) {
            if let Some(query) = awaited.query {
                return begin_above(doc, plan, query, awaited.paid, child, units, machine);
            }
        }
        run_top(doc, plan, stages, units, least, true, machine)?;
    }
    Ok(Move::GoesOn)
}
