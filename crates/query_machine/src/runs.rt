//! The last cursor goes on: it is taken off the others, and put back when its share is spent or another has to be put above it.

ghost use Rattle.std.specs.Prelude.{◌≡◌, ◌+◌, ◌<◌, ◌≤◌, Some, None, length, true, false, MatchResult, MatchOption, IfOk};
ghost use Rattle.json_tape.specs.Document.{count, following, single, IsIn};
ghost use Rattle.node_lists.specs.Paying.{Inside, Refuses};
ghost use Rattle.query_plan.specs.Planned.{claims_of, condition_view, stage_view};
ghost use Rattle.query_plan.specs.Slots.{AreClaimed};
ghost use Rattle.tape_select.specs.Memo.{Keeps};
ghost use Rattle.query_machine.specs.Cursors.{drawn, due, Draws, DrainsOr, IsAsked, IsCursor, IsStepOf, IsStride, Runs};
ghost use Rattle.query_machine.specs.Stacks.{owed, segments_in, whole_due, Emits, Gives, Goes, IsOneStep, IsUnderWay};

use crate::cursor::{Cursor, ask_child, condition_in_turn, is_through, take_child};
use crate::placing::{put, take_whole};
use crate::stepping::{Track, place, put_back};
use crate::visits::draw_visit;
use json_tape::{Document, NodeId};
use node_lists::{Meter, SelectFault, numbers_split_nodes, reserve};
use query_plan::{Condition, Parts, Stage};
use tape_select::State;

// A cursor takes so many steps before it is put back.
const STEPS: u32 = 1_024;

// ---- Children that are out

// So many children are out at once.
const AT_ONCE: u32 = 64;

// These children are out, until fewer units are left. Those that are not.
fn emit_from(
    doc: &Document,
    first: Option<NodeId>,
    least: u64,
    meter: &mut Meter,
    out: &mut Vec<NodeId>,
) -> Result<Option<NodeId>, SelectFault>
    requires inside { IsIn doc.now first }
    requires sound { Inside doc.now out.old.items }
    ensures emitted { MatchResult result (λ next. Emits doc.now first next out.old.items out.new.items meter.old.left meter.new.left) (λ e. Refuses (length (following doc.now first)) meter.old.left e) }
    ensures little { IfOk result (λ next. least ≤ meter.old.left → least ≤ meter.new.left + 1) }
{
    reserve(out, AT_ONCE)?;
    let mut child = first;
    for _sent in 0..AT_ONCE {
        let Some(n) = child else {
            break;
        };
        if meter.left < least {
            break;
        }
        meter.spend(1)?;
        out.push_reserved(n);
        child = doc.next_sibling(n);
    }
    Ok(child)
}

// The children that a wildcard of the last segment goes over are out; or all that it selects from the first node and its descendants, where the units
// certainly suffice. Whether something is.
fn go_out(
    doc: &Document,
    plan: &Parts,
    stage: &Stage,
    is_last: bool,
    least: u64,
    c: &mut Cursor,
    out: &mut Vec<NodeId>,
    state: &mut State,
) -> Result<bool, SelectFault>
    requires more { c.old.child ≡ None → c.old.stride.end ≤ c.old.stride.first → c.old.visit < c.old.end }
    requires child { IsIn doc.now c.old.child }
    requires visit { c.old.stride.first < c.old.stride.end → c.old.visit < count doc.now }
    requires end { c.old.end ≤ count doc.now }
    requires stride { IsStride c.old.stride }
    requires sound { Inside doc.now out.old.items }
    requires least { least ≤ state.old.meter.left }
    requires claimed { AreClaimed (claims_of plan.now.stages.items) (stage_view stage.now).claims }
    requires kept { Keeps doc.now (claims_of plan.now.stages.items) state.old }
    ensures drains { MatchResult result (λ drained. DrainsOr doc.now (stage_view stage.now).tree drained c.old c.new out.old.items out.new.items state.old.meter.left state.new.meter.left) (λ e. Refuses (due doc.now (stage_view stage.now).tree c.old) state.old.meter.left e) }
    ensures last { IfOk result (λ drained. drained ≡ true → is_last ≡ true) }
    ensures little { IfOk result (λ _. least ≤ state.new.meter.left + 1) }
    ensures kept { Keeps doc.now (claims_of plan.now.stages.items) state.new }
{
    numbers_split_nodes();
    if !is_last {
        return Ok(false);
    }
    match c.child {
        Some(_) => {
            if condition_in_turn(plan, stage, c.asked).is_some() {
                return Ok(false);
            }
            c.child = emit_from(doc, c.child, least, &mut state.meter, out)?;
            Ok(true)
        }
        None => {
            if !stage.descend || c.passed != 0 || c.stride.first < c.stride.end {
                return Ok(false);
            }
            let n = NodeId(c.visit);
            let after = doc.after(n);
            if c.end < after || doc.first_child(n).is_none() {
                return Ok(false);
            }
            if !take_whole(doc, plan, stage, least, n, out, state)? {
                return Ok(false);
            }
            c.visit = after;
            Ok(true)
        }
    }
}

// ---- Children that a filter asks

// A child is asked at once with so many units at most, and with so many in any case.
const MOST: u64 = 10_000;

const LITTLE: u64 = 64;

// How many units are put aside where a child is asked at once.
fn set_aside(left: u64, least: u64, one: bool) -> u64
    ensures { result ≤ left }
{
    if one {
        return 0;
    }
    let room = left.saturating_sub(least).min(MOST).max(LITTLE);
    left.saturating_sub(room)
}

// Asks a child whether the condition holds for it, where few units are enough for that. None where they are not.
#[inline(always)]
fn ask_within(
    doc: &Document,
    plan: &Parts,
    stage: &Stage,
    condition: &Condition,
    child: NodeId,
    least: u64,
    one: bool,
    c: &mut Cursor,
    state: &mut State,
) -> Result<Option<Option<NodeId>>, SelectFault>
    requires child { c.old.child ≡ Some child }
    requires filter { IsAsked (claims_of plan.now.stages.items) c.old.asked (stage_view stage.now).tree (condition_view condition.now) }
    requires inside { child.0 < count doc.now }
    requires visit { c.old.stride.first < c.old.stride.end → c.old.visit < count doc.now }
    requires end { c.old.end ≤ count doc.now }
    requires stride { IsStride c.old.stride }
    requires kept { Keeps doc.now (claims_of plan.now.stages.items) state.old }
    ensures drawn { MatchResult result (λ some. MatchOption some ((c.new ≡ c.old) × (state.new.meter.left ≡ state.old.meter.left)) (λ found. Draws doc.now (stage_view stage.now).tree found c.old c.new state.old.meter.left state.new.meter.left)) (λ e. Refuses (due doc.now (stage_view stage.now).tree c.old) state.old.meter.left e) }
    ensures asked { c.new.asked ≡ c.old.asked }
    ensures kept { Keeps doc.now (claims_of plan.now.stages.items) state.new }
{
    let before = state.meter.left;
    let beyond = set_aside(before, least, one);
    state.meter.left = before - beyond;
    match ask_child(doc, plan, stage, condition, child, c, state) {
        Ok(found) => {
            state.meter.left += beyond;
            Ok(Some(found))
        }
        Err(SelectFault::Memory) => Err(SelectFault::Memory),
        Err(SelectFault::Costly) => {
            if beyond == 0 {
                return Err(SelectFault::Costly);
            }
            state.meter.left = before;
            Ok(None)
        }
    }
}

// ---- All steps

// The next node that a cursor's segment selects, or none yet. None where the next child is to be asked step by step.
fn draw_once(
    doc: &Document,
    plan: &Parts,
    stage: &Stage,
    least: u64,
    one: bool,
    c: &mut Cursor,
    state: &mut State,
) -> Result<Option<Option<NodeId>>, SelectFault>
    requires more { c.old.child ≡ None → c.old.stride.end ≤ c.old.stride.first → c.old.visit < c.old.end }
    requires child { IsIn doc.now c.old.child }
    requires visit { c.old.stride.first < c.old.stride.end → c.old.visit < count doc.now }
    requires end { c.old.end ≤ count doc.now }
    requires stride { IsStride c.old.stride }
    requires least { least ≤ state.old.meter.left }
    requires claimed { AreClaimed (claims_of plan.now.stages.items) (stage_view stage.now).claims }
    requires kept { Keeps doc.now (claims_of plan.now.stages.items) state.old }
    ensures runs { MatchResult result (λ some. Runs doc.now (stage_view stage.now).tree (single doc.now (drawn some)) c.old c.new state.old.meter.left state.new.meter.left × IsIn doc.now (drawn some)) (λ e. Refuses (due doc.now (stage_view stage.now).tree c.old) state.old.meter.left e) }
    ensures little { IfOk result (λ some. IsStepOf doc.now (stage_view stage.now).tree least state.new.meter.left) }
    ensures kept { Keeps doc.now (claims_of plan.now.stages.items) state.new }
{
    match c.child {
        Some(child) => match condition_in_turn(plan, stage, c.asked) {
            Some(condition) => ask_within(doc, plan, stage, condition, child, least, one, c, state),
            None => match take_child(doc, stage, child, c, &mut state.meter) {
                Err(e) => Err(e),
                Ok(found) => Ok(Some(found)),
            },
        },
        None => match draw_visit(doc, stage, least, c, &mut state.meter) {
            Err(e) => Err(e),
            Ok(found) => Ok(Some(found)),
        },
    }
}

// What a cursor gives is out, until fewer units are left. Or it gave a node that the segment with this number selected, from which the next one goes on.
// None where the next child is to be asked step by step.
fn go_on(
    doc: &Document,
    plan: &Parts,
    stages: &[Stage],
    least: u64,
    one: bool,
    c: &mut Cursor,
    out: &mut Vec<NodeId>,
    state: &mut State,
) -> Result<Option<Option<(usize, NodeId)>>, SelectFault>
    requires cursor { IsCursor doc.now (length (segments_in stages.now)) c.old }
    requires sound { Inside doc.now out.old.items }
    requires least { least ≤ state.old.meter.left }
    requires claimed { AreClaimed (claims_of plan.now.stages.items) (claims_of stages.now) }
    requires kept { Keeps doc.now (claims_of plan.now.stages.items) state.old }
    ensures gives { MatchResult result (λ some. Gives doc.now (segments_in stages.now) c.old c.new (drawn some) out.old.items out.new.items state.old.meter.left state.new.meter.left) (λ e. Refuses (owed doc.now (segments_in stages.now) c.old) state.old.meter.left e) }
    ensures little { IfOk result (λ _. IsOneStep doc.now (segments_in stages.now) least state.new.meter.left) }
    ensures kept { Keeps doc.now (claims_of plan.now.stages.items) state.new }
{
    let number = c.stage;
    let stage = &stages[number];
    let is_last = number + 1 == stages.len();
    let most = if one { 1 } else { STEPS };
    for _ in 0..most {
        if state.meter.left < least || is_through(doc, stage, c) {
            break;
        }
        if go_out(doc, plan, stage, is_last, least, c, out, state)? {
            continue;
        }
        match draw_once(doc, plan, stage, least, one, c, state)? {
            None => return Ok(None),
            Some(None) => continue,
            Some(Some(n)) => match put(doc, plan, stages, number, least, n, out, state)? {
                None => continue,
                Some(rest) => return Ok(Some(Some(rest))),
            },
        }
    }
    Ok(Some(None))
}

// The last cursor goes on. Whether it did: there is none, or the next child is to be asked step by step.
fn step(
    doc: &Document,
    plan: &Parts,
    stages: &[Stage],
    least: u64,
    one: bool,
    track: &mut Track,
    state: &mut State,
) -> Result<bool, SelectFault>
    requires under_way { IsUnderWay doc.now (segments_in stages.now) track.old }
    requires claimed { AreClaimed (claims_of plan.now.stages.items) (claims_of stages.now) }
    requires least { least ≤ state.old.meter.left }
    requires kept { Keeps doc.now (claims_of plan.now.stages.items) state.old }
    ensures goes { MatchResult result (λ _. Goes doc.now (segments_in stages.now) track.old track.new state.old.meter.left state.new.meter.left) (λ e. Refuses (whole_due doc.now (segments_in stages.now) track.old) state.old.meter.left e) }
    ensures little { IfOk result (λ _. IsOneStep doc.now (segments_in stages.now) least state.new.meter.left) }
    ensures kept { IfOk result (λ _. Keeps doc.now (claims_of plan.now.stages.items) state.new) }
{
    let Some(last) = track.cursors.pop() else {
        return Ok(false);
    };
    let mut c = last;
    let went = go_on(doc, plan, stages, least, one, &mut c, &mut track.out, state)?;
    put_back(doc, stages, c, track)?;
    match went {
        None => Ok(false),
        Some(None) => Ok(true),
        Some(Some((at, n))) => {
            place(doc, stages, at, n, track)?;
            Ok(true)
        }
    }
}

/// Steps of the last cursor, until fewer units are left or the next child is to be asked step by step. Or one step alone, which asks the next child with
/// all units.
pub fn run(
    doc: &Document,
    plan: &Parts,
    stages: &[Stage],
    least: u64,
    one: bool,
    track: &mut Track,
    state: &mut State,
) -> Result<(), SelectFault>
    requires under_way { IsUnderWay doc.now (segments_in stages.now) track.old }
    requires claimed { AreClaimed (claims_of plan.now.stages.items) (claims_of stages.now) }
    requires kept { Keeps doc.now (claims_of plan.now.stages.items) state.old }
    ensures goes { MatchResult result (λ _. Goes doc.now (segments_in stages.now) track.old track.new state.old.meter.left state.new.meter.left) (λ e. Refuses (whole_due doc.now (segments_in stages.now) track.old) state.old.meter.left e) }
    ensures little { IfOk result (λ _. least ≤ state.old.meter.left → IsOneStep doc.now (segments_in stages.now) least state.new.meter.left) }
    ensures kept { IfOk result (λ _. Keeps doc.now (claims_of plan.now.stages.items) state.new) }
{
    let most = if one { 1 } else { STEPS };
    for _ in 0..most {
        if state.meter.left < least {
            break;
        }
        if !step(doc, plan, stages, least, one, track, state)? {
            break;
        }
    }
    Ok(())
}
