//! Cursors above one another, one for each segment under way.

ghost use Rattle.std.specs.Prelude.{◌≡◌, ◌+◌, ◌<◌, ◌∷◌, [], length, MatchResult};
ghost use Rattle.json_tape.specs.Document.{count, node_at};
ghost use Rattle.query_machine.specs.Cursors.{IsCursor};
ghost use Rattle.query_machine.specs.Stacks.{segments_in, IsUnderWay, Places, PutBack, PutOn};

use crate::cursor::{Cursor, cursor_at, is_through};
use json_tape::{Document, NodeId};
use node_lists::SelectFault;
use query_plan::Stage;

/// A query under way: its cursors, and the nodes that it selected so far.
#[derive(Drop)]
pub struct Track {
    pub cursors: Vec<Cursor>,
    pub out: Vec<NodeId>,
}

// One cursor more.
fn stack(doc: &Document, stages: &[Stage], c: Cursor, track: &mut Track) -> Result<(), SelectFault>
    requires cursor { IsCursor doc.now (length (segments_in stages.now)) c }
    requires under_way { IsUnderWay doc.now (segments_in stages.now) track.old }
    ensures { MatchResult result (λ _. PutOn doc.now (segments_in stages.now) c track.old track.new) (λ e. e ≡ SelectFault.Memory) }
{
    let _ = doc;
    let _ = stages;
    if track.cursors.push(c).is_err() {
        return Err(SelectFault::Memory);
    }
    Ok(())
}

/// A cursor is put on again, where something is ahead of it.
pub fn put_back(
    doc: &Document,
    stages: &[Stage],
    c: Cursor,
    track: &mut Track,
) -> Result<(), SelectFault>
    requires cursor { IsCursor doc.now (length (segments_in stages.now)) c }
    requires under_way { IsUnderWay doc.now (segments_in stages.now) track.old }
    ensures { MatchResult result (λ _. PutBack doc.now (segments_in stages.now) c track.old track.new) (λ e. e ≡ SelectFault.Memory) }
{
    if is_through(doc, &stages[c.stage], &c) {
        return Ok(());
    }
    stack(doc, stages, c, track)
}

/// The segment behind goes on from a node that a segment selected.
pub fn place(
    doc: &Document,
    stages: &[Stage],
    number: usize,
    n: NodeId,
    track: &mut Track,
) -> Result<(), SelectFault>
    requires inside { n.0 < count doc.now }
    requires number { number + 1 < length stages.now }
    requires under_way { IsUnderWay doc.now (segments_in stages.now) track.old }
    ensures { MatchResult result (λ _. Places doc.now (segments_in stages.now) number (node_at doc.now n.0 ∷ []) track.old track.new) (λ e. e ≡ SelectFault.Memory) }
{
    let next = number + 1;
    let c = cursor_at(doc, &stages[next], next, n);
    stack(doc, stages, c, track)
}
