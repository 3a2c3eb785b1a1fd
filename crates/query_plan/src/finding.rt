//! The query of a plan that has a slot.

ghost use Rattle.std.specs.Prelude.{◌≡◌, map, Some, IfSome, IsTrue};
ghost use Rattle.query_plan.specs.Planned.{claims_of, all_claims, numbered, condition_view, operand_view, selection_view, nested_view};
ghost use Rattle.query_plan.specs.Slots.{AreClaimed, HasSlot};
ghost use Rattle.query_plan.specs.declared.plan.Nested.{out-Nested};

use crate::plan::{Condition, Nested, Operand, Parts, Selection, Stage};

impl Parts {
    /// The query in a filter that has this slot.
    #[tactic(auto, using(crate::proofs::Claims::all_claimed))]
    pub fn nested(&self, slot: u32) -> Option<&Nested>
        requires { numbered (claims_of self.now.stages.items) 0 ≡ Some self.now.slots }
        ensures { IfSome result (λ query. HasSlot (claims_of self.now.stages.items) slot query.now) }
    {
        in_stages(self, &self.stages, slot)
    }
}

#[cycle(finding)]
#[tactic(auto, using(crate::proofs::Claims::parts_claimed))]
fn in_stages<'p>(plan: &Parts, stages: &'p [Stage], slot: u32) -> Option<&'p Nested>
    requires { AreClaimed (claims_of plan.now.stages.items) (claims_of stages.now) }
    ensures { IfSome result (λ query. HasSlot (claims_of plan.now.stages.items) slot query.now) }
{
    for stage in stages {
        let found = in_selections(plan, &stage.selections, slot);
        if found.is_some() {
            return found;
        }
    }
    None
}

#[cycle(finding)]
#[tactic(auto, using(crate::proofs::Claims::parts_claimed))]
fn in_selections<'p>(plan: &Parts, selections: &'p [Selection], slot: u32) -> Option<&'p Nested>
    requires { AreClaimed (claims_of plan.now.stages.items) (all_claims (map selection_view selections.now)) }
    ensures { IfSome result (λ query. HasSlot (claims_of plan.now.stages.items) slot query.now) }
{
    for selection in selections {
        let found = in_selection(plan, selection, slot);
        if found.is_some() {
            return found;
        }
    }
    None
}

#[cycle(finding)]
fn in_selection<'p>(plan: &Parts, selection: &'p Selection, slot: u32) -> Option<&'p Nested>
    requires { AreClaimed (claims_of plan.now.stages.items) (selection_view selection.now).claims }
    ensures { IfSome result (λ query. HasSlot (claims_of plan.now.stages.items) slot query.now) }
{
    match selection {
        Selection::Where(condition) => in_condition(plan, condition, slot),
        _ => None,
    }
}

#[cycle(finding)]
fn in_condition<'p>(plan: &Parts, condition: &'p Condition, slot: u32) -> Option<&'p Nested>
    requires { AreClaimed (claims_of plan.now.stages.items) (condition_view condition.now).claims }
    ensures { IfSome result (λ query. HasSlot (claims_of plan.now.stages.items) slot query.now) }
{
    match condition {
        Condition::Any(parts) | Condition::Each(parts) | Condition::Joined(_, _, parts) => {
            in_conditions(plan, parts, slot)
        }
        Condition::Not(part) | Condition::Remembered(_, _, part) => in_condition(plan, part, slot),
        Condition::Compare(left, _, right) => match in_operand(plan, left, slot) {
            Some(query) => Some(query),
            None => in_operand(plan, right, slot),
        },
        Condition::Exists(query) => in_query(plan, query, slot),
        Condition::Decided(operand, _) => in_operand(plan, operand, slot),
    }
}

#[cycle(finding)]
#[tactic(auto, using(crate::proofs::Claims::parts_claimed))]
fn in_conditions<'p>(plan: &Parts, conditions: &'p [Condition], slot: u32) -> Option<&'p Nested>
    requires { AreClaimed (claims_of plan.now.stages.items) (all_claims (map condition_view conditions.now)) }
    ensures { IfSome result (λ query. HasSlot (claims_of plan.now.stages.items) slot query.now) }
{
    for condition in conditions {
        let found = in_condition(plan, condition, slot);
        if found.is_some() {
            return found;
        }
    }
    None
}

#[cycle(finding)]
fn in_operand<'p>(plan: &Parts, operand: &'p Operand, slot: u32) -> Option<&'p Nested>
    requires { AreClaimed (claims_of plan.now.stages.items) (operand_view operand.now).claims }
    ensures { IfSome result (λ query. HasSlot (claims_of plan.now.stages.items) slot query.now) }
{
    match operand {
        Operand::Constant(_) => None,
        Operand::Length(operand) => in_operand(plan, operand, slot),
        Operand::Single(query) | Operand::Count(query) | Operand::Value(query) => {
            in_query(plan, query, slot)
        }
    }
}

#[cycle(finding)]
fn in_query<'p>(plan: &Parts, query: &'p Nested, slot: u32) -> Option<&'p Nested>
    requires { AreClaimed (claims_of plan.now.stages.items) (nested_view query.now).claims }
    ensures { IfSome result (λ query. HasSlot (claims_of plan.now.stages.items) slot query.now) }
{
    if has_slot(query, slot) {
        Some(query)
    } else {
        in_stages(plan, &query.stages, slot)
    }
}

fn has_slot(query: &Nested, slot: u32) -> bool
    ensures { IsTrue result → (out-Nested query.now).slot ≡ Some slot }
{
    match query.slot {
        Some(own) => own == slot,
        None => false,
    }
}
