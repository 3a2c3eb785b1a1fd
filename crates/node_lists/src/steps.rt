//! What a lone name or index selects from several nodes.

ghost use Rattle.std.specs.Prelude.{length, flat_map};
ghost use Rattle.json_tape.specs.Document.{node_at};
ghost use Rattle.node_lists.specs.Evaluation.{selected_by};
ghost use Rattle.node_lists.specs.Nodelists.{nodes_of};
ghost use Rattle.node_lists.specs.Paying.{Inside, FindsList};
ghost use Rattle.node_lists.specs.Links.{link_selector};

use crate::chains::step;
use crate::fault::SelectFault;
use crate::meter::Meter;
use crate::nodes::push_some;
use json_tape::{Document, NodeId};
use path_meaning::Link;
use std::alloc::Global;

/// What a name or an index selects from several nodes, one unit for each of these.
#[tactic(auto, using(crate::proofs::Adding::each_input))]
pub fn stepped(
    alloc: Global,
    doc: &Document,
    link: &Link,
    input: &[NodeId],
    meter: &mut Meter,
) -> Result<Vec<NodeId>, SelectFault>
    requires { Inside doc.now input.now }
    ensures { FindsList doc.now result (flat_map (selected_by (node_at doc.now 0) (link_selector link.now)) (nodes_of doc.now input.now)) (length input.now) meter.old.left meter.new.left }
{
    meter.spend(input.len() as u64)?;
    let mut out = Vec::new(alloc);
    for n in input {
        push_some(doc, &mut out, step(doc, link, *n))?;
    }
    Ok(out)
}
