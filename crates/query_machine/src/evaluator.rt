//! Queries that are evaluated in shares.

ghost use Rattle.std.specs.Prelude.{◌≡◌, ◌<◌, ◌≤◌, ◌+◌, None, Some, IfOk, IfSome, IsErrOf, MatchOption, MatchResult};
ghost use Rattle.std.specs.List.{All};
ghost use Rattle.json_tape.specs.Document.{count, tree_of};
ghost use Rattle.path_grammar.specs.View.{query_view};
ghost use Rattle.node_lists.specs.Charge.{charge};
ghost use Rattle.node_lists.specs.Evaluation.{nodes_selected};
ghost use Rattle.node_lists.specs.Nodelists.{nodes_of};
ghost use Rattle.node_lists.specs.Paying.{Refuses};
ghost use Rattle.query_plan.specs.Planned.{claims_of, numbered};
ghost use Rattle.query_machine.specs.Evaluators.{charged_on, left_on, query_in, selected_from, Ends, IsAtRest, IsEvaluating, IsWithin, SpendsShare, Yields};
ghost use Rattle.query_machine.specs.Levels.{left_in, IsEnd, IsOnWay};

use crate::evaluation::{advance, begin};
use crate::levels::Machine;
use json_tape::Document;
use json_tape::laws::one_tree;
use node_lists::SelectFault;
use path_types::ValidQuery;
use query_plan::{Parts, parts_of};
use std::alloc::{AllocError, Global};
use tape_select::{Selected, select_all};

/// A query that is evaluated in shares, on one document after the other. It is at rest, or under way on one of them.
#[derive(Drop)]
pub struct Evaluator {
    parts: Parts,
    evaluation: Option<Machine>,
}

// The evaluation that is under way, or its beginning.
fn resumed(
    alloc: Global,
    plan: &Parts,
    doc: &Document,
    units: u64,
    evaluation: Option<Machine>,
) -> Result<Machine, SelectFault>
    requires numbered { numbered (claims_of plan.now.stages.items) 0 ≡ Some plan.now.slots }
    requires within { IsWithin doc.now plan.now units evaluation }
    ensures { MatchResult result (λ on. IsOnWay doc.now plan.now units (selected_from doc.now plan.now) on × (left_in on ≡ left_on units evaluation) × (left_in on ≤ units)) (λ e. e ≡ SelectFault.Memory) }
{
    match evaluation {
        Some(on) => Ok(on),
        None => begin(alloc, plan, doc, units),
    }
}

// What an evaluation came to at its end.
fn ended(plan: &Parts, doc: &Document, units: u64, machine: Machine) -> Selected
    requires { IsEnd doc.now plan.now units (selected_from doc.now plan.now) machine }
    ensures ends { Ends doc.now plan.now units result None }
    ensures left { result.charge + left_in machine ≡ units }
{
    let _ = doc.root();
    let _ = plan;
    let charge = units - machine.state.meter.left;
    let track = machine.track;
    Selected {
        nodes: track.out,
        charge,
    }
}

// Goes on with an evaluation step by step, or begins it.
fn gone_on(
    alloc: Global,
    plan: &Parts,
    doc: &Document,
    units: u64,
    share: u64,
    evaluation: &mut Option<Machine>,
) -> Result<Option<Selected>, SelectFault>
    requires numbered { numbered (claims_of plan.now.stages.items) 0 ≡ Some plan.now.slots }
    requires within { IsWithin doc.now plan.now units evaluation.old }
    ensures yields { MatchResult result (λ some. Yields doc.now plan.now units share some evaluation.old evaluation.new) (λ e. Refuses (charged_on doc.now plan.now) units e) }
    ensures little { IfOk result (λ some. SpendsShare doc.now plan.now units share some evaluation.old evaluation.new) }
{
    let mut on = resumed(alloc, plan, doc, units, evaluation.take())?;
    match advance(doc, plan, units, share, &mut on)? {
        true => Ok(Some(ended(plan, doc, units, on))),
        false => {
            *evaluation = Some(on);
            Ok(None)
        }
    }
}

// What a query selects from a document, at once.
fn whole(alloc: Global, plan: &Parts, doc: &Document, units: u64) -> Result<Selected, SelectFault>
    requires { numbered (claims_of plan.now.stages.items) 0 ≡ Some plan.now.slots }
    ensures { MatchResult result (λ s. Ends doc.now plan.now units s None) (λ e. Refuses (charged_on doc.now plan.now) units e) }
{
    let _ = doc.root();
    select_all(alloc, plan, doc, units)
}

// What a query selects from a document at once, where its charge is within the share; None where it is above that, and within the units.
fn whole_within(
    alloc: Global,
    plan: &Parts,
    doc: &Document,
    units: u64,
    share: u64,
) -> Result<Option<Selected>, SelectFault>
    requires { numbered (claims_of plan.now.stages.items) 0 ≡ Some plan.now.slots }
    ensures ends { MatchResult result (λ some. IfSome some (λ s. Ends doc.now plan.now units s None)) (λ e. Refuses (charged_on doc.now plan.now) units e) }
    ensures little { IfOk result (λ some. IfSome some (λ s. s.charge ≤ share)) }
{
    if units <= share {
        let selected = whole(alloc, plan, doc, units)?;
        return Ok(Some(selected));
    }
    match whole(alloc, plan, doc, share) {
        Ok(selected) => Ok(Some(selected)),
        Err(SelectFault::Costly) => Ok(None),
        Err(SelectFault::Memory) => Err(SelectFault::Memory),
    }
}

// Goes on with an evaluation, or begins it. A document that is probably within the share is tried at once, which is quicker.
fn advanced(
    alloc: Global,
    plan: &Parts,
    doc: &Document,
    units: u64,
    share: u64,
    evaluation: &mut Option<Machine>,
) -> Result<Option<Selected>, SelectFault>
    requires numbered { numbered (claims_of plan.now.stages.items) 0 ≡ Some plan.now.slots }
    requires within { IsWithin doc.now plan.now units evaluation.old }
    ensures yields { MatchResult result (λ some. Yields doc.now plan.now units share some evaluation.old evaluation.new) (λ e. Refuses (charged_on doc.now plan.now) units e) }
    ensures little { IfOk result (λ some. SpendsShare doc.now plan.now units share some evaluation.old evaluation.new) }
{
    if evaluation.is_none() && (units <= share || u64::from(doc.node_count()) < share / 4) {
        if let Some(selected) = whole_within(alloc, plan, doc, units, share)? {
            return Ok(Some(selected));
        }
    }
    gone_on(alloc, plan, doc, units, share, evaluation)
}

impl Evaluator {
    /// The evaluator of a query, at rest. `AllocError` where a growth was refused.
    pub fn new(alloc: Global, query: &ValidQuery) -> Result<Evaluator, AllocError>
        ensures query { IfOk result (λ evaluator. query_in evaluator ≡ query_view query.now) }
        ensures rest { IfOk result IsAtRest }
    {
        let parts = parts_of(alloc, query)?;
        Ok(Evaluator {
            parts,
            evaluation: None,
        })
    }

    /// How many of so many units are left, with which it began on the document that it is under way on. All of them where it is at rest.
    pub fn units_left(&self, units: u64) -> u64
        ensures { result ≡ left_on units self.now.evaluation }
    {
        match &self.evaluation {
            Some(machine) => machine.state.meter.left,
            None => units,
        }
    }

    /// Begins on a document with so many units, or goes on with it, to its end or until more than a share of them are spent.
    ///
    /// The nodes that the query selects from the document, and its charge, where it came to the end. None where it did not, and then goes on
    /// with the same text and units. The share is looked at behind each step, so that at most the share and one step are spent.
    ///
    /// # Errors
    ///
    /// Costly where the charge is above the units; Memory where a growth was refused. The evaluator is not to be used any more.
    pub fn advance(
        &mut self,
        alloc: Global,
        doc: &Document,
        units: u64,
        share: u64,
    ) -> Result<Option<Selected>, SelectFault>
        requires { IsEvaluating doc.now.text units self.old }
        ensures nodes { IfOk result (λ some. IfSome some (λ s. nodes_of doc.now s.nodes.items ≡ nodes_selected (tree_of doc.now) (query_in self.old))) }
        ensures inside { IfOk result (λ some. IfSome some (λ s. All (λ id. id.0 < count doc.now) s.nodes.items)) }
        ensures charge { IfOk result (λ some. IfSome some (λ s. s.charge ≡ charge (tree_of doc.now) (query_in self.old))) }
        ensures within { IfOk result (λ some. IfSome some (λ s. s.charge ≤ units)) }
        ensures costly { IsErrOf result SelectFault.Costly → units < charge (tree_of doc.now) (query_in self.old) }
        ensures query { query_in self.new ≡ query_in self.old }
        ensures ready { IfOk result (λ some. IsEvaluating doc.now.text units self.new) }
        ensures rest { IfOk result (λ some. IfSome some (λ s. self.new.evaluation ≡ None)) }
        ensures spent { IfOk result (λ some. MatchOption some (left_on units self.new.evaluation + share < left_on units self.old.evaluation) (λ s. Unit {0})) }
        ensures little { IfOk result (λ some. SpendsShare doc.now self.old.parts units share some self.old.evaluation self.new.evaluation) }
        ensures due { IfOk result (λ some. units ≤ left_on units self.old.evaluation + charge (tree_of doc.now) (query_in self.old)) }
        ensures due_on { IfOk result (λ some. units ≤ left_on units self.new.evaluation + charge (tree_of doc.now) (query_in self.old)) }
    {
        one_tree();
        let _ = doc.root();
        match advanced(alloc, &self.parts, doc, units, share, &mut self.evaluation) {
            Ok(some) => Ok(some),
            Err(SelectFault::Costly) => Err(SelectFault::Costly),
            Err(SelectFault::Memory) => Err(SelectFault::Memory),
        }
    }
}
