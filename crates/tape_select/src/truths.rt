//! Truths of conditions that are told on a scale, each kept once it was found: a row for each slot, with a place for each cell.

ghost use Rattle.tape_select.specs.Memo.{IsTruth, IsTruthKept, AreTruths, AreRows};
ghost use Rattle.query_plan.specs.Planned.{claims_of, look};

use json_tape::Document;
use query_plan::Parts;
use std::alloc::Global;

// How many cells are kept of a condition at most.
const CELLS: usize = 1 << 20;

// How many cells a row grows by at most for one truth, so that this takes no longer than to find it.
const GROWTH: usize = 1 << 10;

// The truth in a row.
#[tactic(auto, using(crate::proofs::Rows::truths))]
fn known_in(
    doc: &Document,
    plan: &Parts,
    slot: u32,
    row: &[Option<bool>],
    cell: usize,
) -> Option<bool>
    requires { AreTruths doc.now (look (claims_of plan.now.stages.items) slot) row.now }
    ensures { IsTruthKept doc.now (look (claims_of plan.now.stages.items) slot) cell result }
{
    let _ = doc;
    let _ = plan;
    let _ = slot;
    if cell < row.len() { row[cell] } else { None }
}

/// The truth of the condition with this slot in a cell, where it is kept.
#[tactic(auto, using(crate::proofs::Rows::rows))]
pub fn known_truth(
    doc: &Document,
    plan: &Parts,
    rows: &[Vec<Option<bool>>],
    slot: u32,
    cell: usize,
) -> Option<bool>
    requires { AreRows doc.now (claims_of plan.now.stages.items) rows.now }
    ensures { IsTruthKept doc.now (look (claims_of plan.now.stages.items) slot) cell result }
{
    let place = slot as usize;
    if place < rows.len() {
        known_in(doc, plan, slot, &rows[place], cell)
    } else {
        None
    }
}

// Keeps the truth in a row, as far as there is memory.
#[tactic(auto, using(crate::proofs::Rows::truths))]
fn keep_in(
    doc: &Document,
    plan: &Parts,
    slot: u32,
    row: &mut Vec<Option<bool>>,
    cell: usize,
    held: bool,
)
    requires before { AreTruths doc.now (look (claims_of plan.now.stages.items) slot) row.old.items }
    requires held { IsTruth doc.now (look (claims_of plan.now.stages.items) slot) cell held }
    ensures { AreTruths doc.now (look (claims_of plan.now.stages.items) slot) row.new.items }
{
    let _ = doc;
    let _ = plan;
    let _ = slot;
    if CELLS <= cell {
        return;
    }
    let most = row.len().saturating_add(GROWTH);
    while row.len() <= cell {
        if most <= row.len() || row.push(None).is_err() {
            return;
        }
    }
    row[cell] = Some(held);
}

/// Keeps the truth of the condition with this slot in a cell, as far as there is memory.
#[tactic(auto, using(crate::proofs::Rows::rows))]
pub fn keep_truth(
    alloc: Global,
    doc: &Document,
    plan: &Parts,
    rows: &mut Vec<Vec<Option<bool>>>,
    slot: u32,
    cell: usize,
    held: bool,
)
    requires before { AreRows doc.now (claims_of plan.now.stages.items) rows.old.items }
    requires held { IsTruth doc.now (look (claims_of plan.now.stages.items) slot) cell held }
    ensures { AreRows doc.now (claims_of plan.now.stages.items) rows.new.items }
{
    let place = slot as usize;
    while rows.len() <= place {
        if rows.push(Vec::new(alloc)).is_err() {
            return;
        }
    }
    keep_in(doc, plan, slot, &mut rows[place], cell, held);
}
